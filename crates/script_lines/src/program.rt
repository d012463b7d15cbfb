//! Programs that read a script from standard input.

ghost use Rattle.std.specs.Prelude.{◌≤◌};
ghost use Rattle.std.specs.Process.{exit_status};

use crate::arguments::{Manual, NoArguments, read_arguments, read_run};
use crate::ends::{FAULT, tell_no_memory};
use crate::failures::{Failure, failure_among, tell_failure};
use crate::streams::{FlushingInput, Output, SharedOutput};
use crate::strictness::{Watch, WatchedErrors, WatchedInput};
use std::alloc::Global;
use std::cell::{Cell, RefCell};
use std::io::{self, BufRead, BufReader, Write};
use std::process::ExitCode;

/// What a program has to work with: memory, the script that it reads, and the outputs that it writes.
#[derive(Drop)]
pub struct Streams<R, O, E> {
    pub alloc: Global,
    pub input: R,
    pub output: O,
    pub errors: E,
}

/// A program that reads a script.
pub trait Program {
    /// Runs it and returns the exit status: that of [`crate::end_run`], or 1 if what was asked for doesn't exist.
    fn run<R: BufRead, O: Write, E: Write>(&self, streams: &mut Streams<R, O, E>) -> u8
        ensures { result ≤ 4 };
}

/// Runs a program on the standard streams. What it has written is there to be read before it waits for more input. If the input or the
/// output fails, standard error says which and why, unless the reader of the output has closed its pipe.
pub fn run_program<P: Program>(rt: &HostRuntime, program: &P) -> ExitCode
    ensures { exit_status result ≤ 4 }
{
    run_reporting(rt, false, program)
}

/// Runs a program as [`run_program`] does. If it is to be strict, it ends with status 1 once it would read on after a report of an update
/// that is refused: nothing else may be reported while there is more to read.
pub fn run_reporting<P: Program>(rt: &HostRuntime, is_strict: bool, program: &P) -> ExitCode
    ensures { exit_status result ≤ 4 }
{
    let (status, failure) = run_on_streams(rt, Watch::of(is_strict), program);
    if status == FAULT {
        // If the errors can't be written either, there is nowhere left to say so.
        let _ = tell_failure(failure, &mut rt.stderr());
    }
    ExitCode::from(status)
}

/// Runs a program as [`run_program`] does, but says nothing of a stream that fails.
pub fn run_program_silently<P: Program>(rt: &HostRuntime, program: &P) -> ExitCode
    ensures { exit_status result ≤ 4 }
{
    let (status, _) = run_on_streams(rt, Watch::Off, program);
    ExitCode::from(status)
}

/// Runs a program on the standard streams, and returns the exit status, and which stream failed, if one of the first two did.
fn run_on_streams<P: Program>(rt: &HostRuntime, watch: Watch, program: &P) -> (u8, Option<Failure>)
    ensures { result.0 ≤ 4 }
{
    let alloc = rt.alloc();
    let mut errors = rt.stderr();
    let Ok(output) = Output::new(alloc, io::writer(rt)) else {
        return (tell_no_memory(&mut errors), None);
    };
    let output = RefCell::new(output);
    let unread = Cell::new(None);
    let Ok(input) = BufReader::new(alloc, FlushingInput::new(rt.reader(), &output, &unread)) else {
        return (tell_no_memory(&mut errors), None);
    };
    let watch = Cell::new(watch);
    let mut streams = Streams {
        alloc,
        input: WatchedInput {
            input,
            watch: &watch,
        },
        output: SharedOutput::new(&output),
        errors: WatchedErrors {
            errors,
            watch: &watch,
        },
    };
    let status = program.run(&mut streams);
    drop(streams);
    // What a failed write left in the buffer must not be written again.
    let unwritten = output.into_inner().discard();
    (
        watch.get().status_after(status),
        failure_among(unread.get(), unwritten),
    )
}

/// Runs a program that has no arguments on the standard streams, unless [`read_arguments`] says that it is not to run.
pub fn run_without_arguments<P: Program>(rt: &HostRuntime, manual: &Manual, program: &P) -> ExitCode
    ensures { exit_status result ≤ 4 }
{
    match read_arguments(rt, manual) {
        Ok((_, NoArguments)) => run_program(rt, program),
        Err(status) => ExitCode::from(status),
    }
}

/// Runs a program that reports refused updates and has no arguments but `--strict`, unless [`read_run`] says that it is not to run.
pub fn run_reports_alone<P: Program>(rt: &HostRuntime, manual: &Manual, program: &P) -> ExitCode
    ensures { exit_status result ≤ 4 }
{
    match read_run(rt, manual) {
        Ok((is_strict, (_, NoArguments))) => run_reporting(rt, is_strict, program),
        Err(ended) => ExitCode::from(ended),
    }
}
