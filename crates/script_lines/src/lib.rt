//! The lines of a script: reads them as commands, and writes commands as lines. It needs no tree.
#![tactic(auto)]

mod argument_errors;
mod arguments;
mod comments;
mod ends;
mod failures;
mod heads;
mod line_reader;
mod lines;
mod program;
mod questions;
mod read_back;
mod reader;
mod streams;
mod strictness;
mod write_questions;
mod writer;

pub use argument_errors::{
    ArgumentError, ArgumentKind, UnknownWord, is_like_a_file, miscounted, unknown_word,
};
pub use arguments::{Arguments, Manual, NoArguments, read_arguments, read_run};
pub use ends::{end_run, end_script_run, tell_no_memory, tell_script_stop, tell_stop};
pub use line_faults::{FieldSet, LineFault, OtherReason, Reason, column, suggestion, write_fault};
pub use program::{
    Program, Streams, run_program, run_program_silently, run_reporting, run_reports_alone,
    run_without_arguments,
};
pub use read_back::lines_are_read_back;
pub use reader::{ScriptCommand, ScriptReader};
pub use script_words::names::role_named;
pub use script_words::quoted::write_quoted;
pub use script_words::stops::Stop;
pub use script_words::words::{number, tree_named};
pub use strictness::{Watch, WatchedErrors, WatchedInput};
pub use writer::{write_command, write_update};
