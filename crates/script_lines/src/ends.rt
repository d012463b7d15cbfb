//! The ends of runs over a script, and their exit statuses.
ghost use Rattle.std.specs.Prelude.{◌≡◌, ◌≤◌, ◌≢◌, Err, OnOk};
ghost use Rattle.std.specs.Io.KnownBytes.{Keeps};
ghost use Rattle.script_lines.specs.Ends.{Tells, TellsFault, TellsOfLine, status_at_end, status_of, told_at_end, told_of};
ghost use Rattle.script_lines.specs.Taking.{number_of};
ghost use Rattle.script_words.specs.declared.stops.Stop.TheVariants as stop_;

use crate::reader::ScriptReader;
use line_faults::write_fault;
use script_words::stops::Stop;
use std::io::{self, Write};

/// The exit status at the end of the input.
pub(crate) const DONE: u8 = 0;
/// The exit status at a bad line.
pub(crate) const BAD_LINE: u8 = 2;
/// The exit status for an error of the input or an output.
pub(crate) const FAULT: u8 = 3;
/// The exit status if memory runs out while a line is read or carried out.
const NO_MEMORY: u8 = 4;

/// Ends a run: flushes the output, and reports on `errors` what stopped the run before the end of its input, a bad line
/// by its number. Returns the exit status: 0 at the end of the input, 2 for a bad line, 3 for an error of the input or
/// an output, after which nothing more is written, and 4 if memory ran out.
pub fn end_run<O: Write, E: Write>(
    ended: Result<(), Stop>,
    number: u64,
    output: &mut O,
    errors: &mut E,
) -> u8
    ensures bound { result ≤ 4 }
    ensures not_one { result ≢ 1 }
    ensures told { Tells (E.contents errors.old) (E.contents errors.new) (told_at_end number ended) (status_at_end ended) result }
    ensures printed { Keeps (O.contents output.old) (O.contents output.new) }
{
    if ended == Err(Stop::WriteFault) || output.flush().is_err() {
        return FAULT;
    }
    match ended {
        Ok(()) => DONE,
        Err(stop) => tell_stop(stop, number, errors),
    }
}

/// Ends a run over the script of this reader as [`end_run`] does, but says of a bad line its column and what is wrong in
/// it.
pub fn end_script_run<O: Write, E: Write>(
    ended: Result<(), Stop>,
    script: &ScriptReader,
    output: &mut O,
    errors: &mut E,
) -> u8
    ensures bound { result ≤ 4 }
    ensures not_one { result ≢ 1 }
    ensures bad { ended ≡ Err stop_.BadLine → TellsFault script.now (E.contents errors.old) (E.contents errors.new) result }
    ensures told { ended ≢ Err stop_.BadLine → Tells (E.contents errors.old) (E.contents errors.new)
        (told_at_end (number_of script.now) ended) (status_at_end ended) result }
    ensures printed { Keeps (O.contents output.old) (O.contents output.new) }
{
    match ended {
        Err(Stop::BadLine) => end_at_fault(script, output, errors),
        _ => end_run(ended, script.line_number(), output, errors),
    }
}

/// Ends a run at a bad line.
fn end_at_fault<O: Write, E: Write>(script: &ScriptReader, output: &mut O, errors: &mut E) -> u8
    ensures bound { result ≤ 4 }
    ensures not_one { result ≢ 1 }
    ensures told { TellsFault script.now (E.contents errors.old) (E.contents errors.new) result }
    ensures printed { Keeps (O.contents output.old) (O.contents output.new) }
{
    if output.flush().is_err() {
        return FAULT;
    }
    tell_fault(script, errors)
}

/// Reports what stopped a run over the script of this reader as [`tell_stop`] does, but says of a bad line its column and
/// what is wrong in it.
pub fn tell_script_stop<E: Write>(stop: Stop, script: &ScriptReader, errors: &mut E) -> u8
    ensures bound { result ≤ 4 }
    ensures not_one { result ≢ 1 }
    ensures not_done { result ≢ 0 }
    ensures bad { stop ≡ stop_.BadLine → TellsFault script.now (E.contents errors.old) (E.contents errors.new) result }
    ensures told { stop ≢ stop_.BadLine → Tells (E.contents errors.old) (E.contents errors.new) (told_of (number_of script.now) stop)
        (status_of stop) result }
{
    match stop {
        Stop::BadLine => tell_fault(script, errors),
        Stop::Memory | Stop::ReadFault | Stop::WriteFault => {
            tell_stop(stop, script.line_number(), errors)
        }
    }
}

/// Reports the fault of the last line that was read, and returns the exit status.
fn tell_fault<E: Write>(script: &ScriptReader, errors: &mut E) -> u8
    ensures bound { result ≤ 4 }
    ensures not_one { result ≢ 1 }
    ensures not_done { result ≢ 0 }
    ensures told { TellsFault script.now (E.contents errors.old) (E.contents errors.new) result }
{
    if write_line_fault(script, errors).is_err() {
        return FAULT;
    }
    BAD_LINE
}

/// Writes the fault of the last line that was read.
fn write_line_fault<E: Write>(script: &ScriptReader, errors: &mut E) -> io::Result<()>
    ensures { OnOk result (TellsOfLine script.now (E.contents errors.old) (E.contents errors.new)) }
{
    let line = script.last_line();
    let fault = script.fault();
    write_fault(script.line_number(), line, fault, errors)?;
    errors.flush()
}

/// Reports a bad line, by its number, or lack of memory on `errors`, and returns the exit status.
pub fn tell_stop<E: Write>(stop: Stop, number: u64, errors: &mut E) -> u8
    ensures bound { result ≤ 4 }
    ensures not_one { result ≢ 1 }
    ensures not_done { result ≢ 0 }
    ensures told { Tells (E.contents errors.old) (E.contents errors.new) (told_of number stop) (status_of stop) result }
{
    match stop {
        Stop::BadLine => tell_bad_line(number, errors),
        Stop::Memory => tell_no_memory(errors),
        Stop::ReadFault | Stop::WriteFault => FAULT,
    }
}

/// Reports a bad line, and returns the exit status.
fn tell_bad_line<E: Write>(number: u64, errors: &mut E) -> u8
    ensures bound { result ≤ 4 }
    ensures not_one { result ≢ 1 }
    ensures not_done { result ≢ 0 }
    ensures told { Tells (E.contents errors.old) (E.contents errors.new) (told_of number stop_.BadLine) 2 result }
{
    if writeln!(errors, "line {number}: bad line").is_err() || errors.flush().is_err() {
        return FAULT;
    }
    BAD_LINE
}

/// Reports lack of memory, and returns the exit status.
pub fn tell_no_memory<E: Write>(errors: &mut E) -> u8
    ensures bound { result ≤ 4 }
    ensures not_one { result ≢ 1 }
    ensures not_done { result ≢ 0 }
    ensures told { Tells (E.contents errors.old) (E.contents errors.new) (told_of 0 stop_.Memory) 4 result }
{
    if errors.write_all(b"out of memory\n").is_err() || errors.flush().is_err() {
        return FAULT;
    }
    NO_MEMORY
}
