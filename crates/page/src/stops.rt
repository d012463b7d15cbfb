//! Why a script ended, as the page and standard error say it.
ghost use Rattle.std.specs.Prelude.{◌≡◌, ◌≤◌, ◌≢◌, IfOk};
ghost use Rattle.std.specs.Io.KnownBytes.{Keeps};
ghost use Rattle.script_lines.specs.Ends.{Tells, status_at_end, status_of};
ghost use Rattle.page.specs.Endings.{EndsAs, EndsAtFault, EndsBy, IsMessage, told_by, told_text};

use atree_script::{Played, Stop, end_run};
use script_lines::write_fault;
use std::alloc::Global;
use std::io::{self, Write};

/// The exit status at a bad line.
const BAD_LINE: u8 = 2;
/// The exit status for an error of an output.
const FAULT: u8 = 3;

/// Why a script ended, and what is wrong in its last line if that is bad.
#[derive(Drop)]
pub(crate) struct Ending {
    pub ended: Result<(), Stop>,
    /// The number of the last line that was read, counted from 1.
    pub line: u64,
    /// What is wrong in that line, as `find` and `read` report it, if it is bad; otherwise empty.
    pub message: Vec<u8>,
}

/// Why the script ended. If it ended at a bad line, and there is no memory for what is wrong in it, that is why.
pub(crate) fn ending_of(alloc: Global, played: &Played) -> Ending
    ensures { EndsAs played.now result }
{
    ending_by(alloc, played.ended, played)
}

/// Why a script ended that was stopped by this, if anything stopped it.
fn ending_by(alloc: Global, ended: Result<(), Stop>, played: &Played) -> Ending
    ensures { EndsBy ended played.now result }
{
    match ended {
        Ok(()) => ending_without_fault(alloc, played),
        Err(Stop::BadLine) => ending_at_fault(alloc, played),
        Err(Stop::ReadFault) => ending_without_fault(alloc, played),
        Err(Stop::WriteFault) => ending_without_fault(alloc, played),
        Err(Stop::Memory) => ending_without_fault(alloc, played),
    }
}

/// As the script ended, with no message.
fn ending_without_fault(alloc: Global, played: &Played) -> Ending
    ensures line { result.line ≡ played.now.number }
    ensures ended { result.ended ≡ played.now.ended }
{
    Ending {
        ended: played.ended,
        line: played.number,
        message: Vec::new(alloc),
    }
}

/// With what is wrong in the last line.
fn ending_at_fault(alloc: Global, played: &Played) -> Ending
    ensures { EndsAtFault played.now result }
{
    match fault_message(alloc, played) {
        Ok(message) => Ending {
            ended: Err(Stop::BadLine),
            line: played.number,
            message,
        },
        Err(_) => Ending {
            ended: Err(Stop::Memory),
            line: played.number,
            message: Vec::new(alloc),
        },
    }
}

/// What is wrong in the last line that was read.
fn fault_message(alloc: Global, played: &Played) -> io::Result<Vec<u8>>
    ensures { IfOk result (λ message. IsMessage played.now message.items) }
{
    let line = played.script.last_line();
    let fault = played.script.fault();
    let mut message = Vec::new(alloc);
    write_fault(played.number, line, fault, &mut message)?;
    Ok(message)
}

/// Ends a run as [`end_run`] does, but reports of a bad line what is wrong in it. Returns the exit status.
pub(crate) fn end_told<O: Write, E: Write>(
    ended: Result<(), Stop>,
    ending: &Ending,
    output: &mut O,
    errors: &mut E,
) -> u8
    ensures bound { result ≤ 4 }
    ensures not_one { result ≢ 1 }
    ensures told { Tells (E.contents errors.old) (E.contents errors.new)
        (told_text ended ending.now.line ending.now.message.items) (status_at_end ended) result }
    ensures printed { Keeps (O.contents output.old) (O.contents output.new) }
{
    match ended {
        Ok(()) => end_run(Ok(()), ending.line, output, errors),
        Err(stop) => end_stopped(stop, ending.line, &ending.message, output, errors),
    }
}

/// Ends a run that was stopped at this line.
fn end_stopped<O: Write, E: Write>(
    stop: Stop,
    line: u64,
    message: &[u8],
    output: &mut O,
    errors: &mut E,
) -> u8
    ensures bound { result ≤ 4 }
    ensures not_one { result ≢ 1 }
    ensures told { Tells (E.contents errors.old) (E.contents errors.new) (told_by stop line message.now) (status_of stop) result }
    ensures printed { Keeps (O.contents output.old) (O.contents output.new) }
{
    match stop {
        Stop::BadLine => end_at_fault(message, output, errors),
        Stop::Memory => end_run(Err(Stop::Memory), line, output, errors),
        Stop::ReadFault => end_run(Err(Stop::ReadFault), line, output, errors),
        Stop::WriteFault => end_run(Err(Stop::WriteFault), line, output, errors),
    }
}

/// Ends a run at a bad line.
fn end_at_fault<O: Write, E: Write>(message: &[u8], output: &mut O, errors: &mut E) -> u8
    ensures bound { result ≤ 4 }
    ensures not_one { result ≢ 1 }
    ensures told { Tells (E.contents errors.old) (E.contents errors.new) message.now 2 result }
    ensures printed { Keeps (O.contents output.old) (O.contents output.new) }
{
    if output.flush().is_err() {
        return FAULT;
    }
    tell_fault(message, errors)
}

/// Reports what is wrong in a bad line, and returns the exit status.
fn tell_fault<E: Write>(message: &[u8], errors: &mut E) -> u8
    ensures bound { result ≤ 4 }
    ensures not_one { result ≢ 1 }
    ensures told { Tells (E.contents errors.old) (E.contents errors.new) message.now 2 result }
{
    if errors.write_all(message).is_err() || errors.flush().is_err() {
        return FAULT;
    }
    BAD_LINE
}
