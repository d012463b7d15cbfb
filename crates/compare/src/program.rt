//! The program, which compares the trees of two scripts.
ghost use Rattle.std.specs.Prelude.{◌≡◌, ◌≤◌, IfErr, IfOk, IfSome};
ghost use Rattle.std.specs.Io.KnownBytes.{Keeps};
ghost use Rattle.compare.specs.Answered.{AreLeftBy, Compares, IsLeftBy, IsNoAnswer, Says};
ghost use Rattle.compare.specs.Compared.{IsCompared};
ghost use Rattle.compare.specs.Parts.{IsCut};

use crate::comparing::compare;
use crate::parts::{Parts, Unread, read_parts};
use crate::reading::read_script;
use script_lines::{Program, Streams, Watch, WatchedErrors, WatchedInput, end_run, tell_stop};
use session::Session;
use std::alloc::Global;
use std::cell::Cell;
use std::io::{self, BufRead, Write};

/// The exit status if the trees differ.
const DIFFERENT: u8 = 1;
/// The exit status if there is no border.
const NO_BORDER: u8 = 2;
/// The exit status for an error of a stream.
const FAULT: u8 = 3;

/// The program that compares the trees of two scripts.
#[derive(Clone, Copy)]
pub(crate) struct Compare {
    /// Whether it ends at the first refused update, with status 1.
    pub(crate) is_strict: bool,
}

impl Program for Compare {
    fn run<R: BufRead, O: Write, E: Write>(&self, streams: &mut Streams<R, O, E>) -> u8 {
        // The input is read to its end before anything is reported, so its parts are watched here, and not by `run_reporting`.
        let watch = Cell::new(Watch::of(self.is_strict));
        let status = compare_input(
            streams.alloc,
            &watch,
            &mut streams.input,
            &mut streams.output,
            &mut streams.errors,
        );
        watch.get().status_after(status)
    }
}

/// Compares the trees that the scripts of the input leave, and returns the exit status: 0 if what is shown of both is equal, and 1 if it
/// isn't; or why the run stopped before that is known: 2 for a bad line of a script, or if there is no border, and 3 and 4 as for
/// [`end_run`]; 3 too once the watch is over.
fn compare_input<R: BufRead, O: Write, E: Write>(
    alloc: Global,
    watch: &Cell<Watch>,
    input: &mut R,
    output: &mut O,
    errors: &mut E,
) -> u8
    ensures bound { result ≤ 4 }
    ensures answers { Says (Compares (R.remaining input.old) (O.contents output.old) (O.contents output.new)) result }
{
    match read_input(alloc, watch, input, errors) {
        Ok(both) => compare_trees(alloc, &both.0, &both.1, output, errors),
        Err(status) => status,
    }
}

/// Compares two trees, and returns the exit status, as [`compare_input`].
fn compare_trees<O: Write, E: Write>(
    alloc: Global,
    old: &Option<Session>,
    new: &Option<Session>,
    output: &mut O,
    errors: &mut E,
) -> u8
    ensures bound { result ≤ 4 }
    ensures answers { Says (IsCompared old.now new.now (O.contents output.old) (O.contents output.new)) result }
{
    match compare(alloc, old, new, output) {
        Ok(is_equal) => end_compared(is_equal, output, errors),
        Err(stop) => tell_stop(stop, 0, errors),
    }
}

/// Ends a run that has compared both trees, and returns its exit status.
#[tactic(auto, using(crate::proofs::Answered::ends_equal, crate::proofs::Answered::ends_different, crate::proofs::Answered::ends_else))]
fn end_compared<O: Write, E: Write>(is_equal: bool, output: &mut O, errors: &mut E) -> u8
    ensures bound { result ≤ 4 }
    ensures status { Says (λ answer. is_equal ≡ answer) result }
    ensures kept { Keeps (O.contents output.old) (O.contents output.new) }
{
    let status = end_run(Ok(()), 0, output, errors);
    if is_equal {
        return status;
    }
    if status == 0 {
        return DIFFERENT;
    }
    status
}

/// Reads the input to its end, and both scripts, and returns the trees that they leave, or the exit status.
fn read_input<R: BufRead, E: Write>(
    alloc: Global,
    watch: &Cell<Watch>,
    input: &mut R,
    errors: &mut E,
) -> Result<(Option<Session>, Option<Session>), u8>
    ensures bound { IfErr result (λ status. status ≤ 4) }
    ensures no_answer { IfErr result IsNoAnswer }
    ensures left { IfOk result (λ both. IfSome (R.remaining input.old) (λ bytes. AreLeftBy bytes both.0 both.1)) }
{
    let parts = cut_input(alloc, input, errors)?;
    read_both(alloc, watch, &parts, errors)
}

/// Reads the input to its end, and cuts it into its scripts, or reports why it can't, and returns the exit status.
fn cut_input<R: BufRead, E: Write>(
    alloc: Global,
    input: &mut R,
    errors: &mut E,
) -> Result<Parts, u8>
    ensures bound { IfErr result (λ status. status ≤ 4) }
    ensures no_answer { IfErr result IsNoAnswer }
    ensures cut { IfOk result (λ parts. IfSome (R.remaining input.old) (λ bytes. IsCut bytes parts.first.items parts.second.items)) }
{
    match read_parts(alloc, input) {
        Ok(parts) => Ok(parts),
        Err(why) => Err(tell_unread(why, errors)),
    }
}

/// Reports why the input isn't cut, and returns the exit status.
fn tell_unread<E: Write>(why: Unread, errors: &mut E) -> u8
    ensures bound { result ≤ 4 }
    ensures no_answer { IsNoAnswer result }
{
    match why {
        Unread::NoBorder => tell_no_border(errors),
        Unread::Stopped(stop) => tell_stop(stop, 0, errors),
    }
}

/// Reports that the input has no border, and returns the exit status.
fn tell_no_border<E: Write>(errors: &mut E) -> u8
    ensures bound { result ≤ 4 }
    ensures no_answer { IsNoAnswer result }
{
    let told = errors.write_all(b"no line \"# ---\" ends the first script\n");
    if told.is_err() || errors.flush().is_err() {
        return FAULT;
    }
    NO_BORDER
}

/// Reads both scripts to their ends. What is reported of the second one has a line before it that says so.
fn read_both<E: Write>(
    alloc: Global,
    watch: &Cell<Watch>,
    parts: &Parts,
    errors: &mut E,
) -> Result<(Option<Session>, Option<Session>), u8>
    ensures bound { IfErr result (λ status. status ≤ 4) }
    ensures no_answer { IfErr result IsNoAnswer }
    ensures left { IfOk result (λ both. IsLeftBy parts.now.first.items both.0 × IsLeftBy parts.now.second.items both.1) }
{
    let mut reports = Reports {
        errors: WatchedErrors {
            errors: &mut *errors,
            watch,
        },
        is_headed: true,
    };
    let old = read_watched(alloc, watch, parts.first.as_slice(), &mut reports)?;
    reports.is_headed = false;
    let new = read_watched(alloc, watch, parts.second.as_slice(), &mut reports)?;
    Ok((old, new))
}

/// Reads a script to its end, unless the watch is over before.
fn read_watched<E: Write>(
    alloc: Global,
    watch: &Cell<Watch>,
    script: &[u8],
    errors: &mut E,
) -> Result<Option<Session>, u8>
    ensures bound { IfErr result (λ status. status ≤ 4) }
    ensures no_answer { IfErr result IsNoAnswer }
    ensures left { IfOk result (IsLeftBy script.now) }
{
    let mut input = WatchedInput {
        input: script,
        watch,
    };
    read_script(alloc, &mut input, errors)
}

/// Where the reports of a script are written.
#[derive(Drop)]
struct Reports<'a, E> {
    errors: WatchedErrors<'a, &'a mut E>,
    /// Whether no line has to come before them that says that they are of the second script.
    is_headed: bool,
}

impl<'a, E: Write> Write for Reports<'a, E> {
    fn write(&mut self, bytes: &[u8]) -> io::Result<usize> {
        self.write_all(bytes)?;
        Ok(bytes.len())
    }

    fn flush(&mut self) -> io::Result<()> {
        self.errors.flush()
    }

    fn write_all(&mut self, bytes: &[u8]) -> io::Result<()> {
        if !self.is_headed {
            self.errors.write_all(b"in the second script:\n")?;
            self.is_headed = true;
        }
        self.errors.write_all(bytes)
    }
}
