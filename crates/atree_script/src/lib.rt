//! The script engine: plays a script's commands on a session, and prints events, answers and the tree.
#![tactic(auto)]

mod ending;
mod outline;
mod playing;
mod printer;
mod refusals;
mod replies;
mod run;

pub use ending::{Teller, count_after, next_number, report_refusal, report_reply, tell_as_asked};
pub use playing::{Played, Player, play, run_told, stopped_by};
pub use printer::ShownId;
pub use replies::write_text;
pub use run::run_script;
pub use script_lines::{
    ArgumentError, ArgumentKind, Arguments, Manual, NoArguments, Program, ScriptCommand,
    ScriptReader, Stop, Streams, end_run, end_script_run, is_like_a_file, miscounted, number,
    read_arguments, read_run, role_named, run_program, run_program_silently, run_reporting,
    run_reports_alone, run_without_arguments, tell_no_memory, tree_named, unknown_word,
    write_quoted,
};
pub use script_words::sides::write_sides;
