//! Reading a script for the tree that it leaves.
ghost use Rattle.std.specs.Prelude.{◌≡◌, ◌≢◌, ◌≤◌, ℕ, IfErr, List};
ghost use Rattle.std.specs.Process.{exit_status};
ghost use Rattle.model.specs.Events.{Event};
ghost use Rattle.script_lines.specs.InputLines.{next_number};
ghost use Rattle.session.specs.Replied.{IsStep};
ghost use Rattle.atree_script.specs.Played.{Bytes, PlaysOut};
ghost use Rattle.atree_script.specs.Reports.{ReadsTree, Reports, ReportsRefusal, ReportsReply, ReportsStep, count_after, refusal_of};

use crate::playing::{Played, Player, play, stopped_by};
use accesskit_consumer::node::NodeRef;
use accesskit_consumer::tree::{TreeChangeHandler, UpdateError};
use script_lines::{
    Arguments, Manual, Program, Stop, Streams, end_run, read_run, run_reporting, tell_script_stop,
};
use session::{Command, Query, Reply, Session};
use std::alloc::{AllocError, Global};
use std::io::{BufRead, Write};
use std::process::ExitCode;

/// A handler that does nothing.
#[derive(Clone, Copy)]
struct Silent;

impl TreeChangeHandler for Silent {
    ghost steps = { λ s _ t. t ≡ s };

    fn node_added(&mut self, _node: &NodeRef) {}

    fn node_updated(&mut self, _old_node: &NodeRef, _new_node: &NodeRef) {}

    fn focus_moved(&mut self, _old_node: Option<&NodeRef>, _new_node: Option<&NodeRef>) {}

    fn node_removed(&mut self, _node: &NodeRef) {}
}

/// Reads a script for its tree, and reports which of its updates are refused.
#[derive(Drop)]
struct Reading<'a, E> {
    errors: &'a mut E,
    /// The number of updates so far.
    updates: u64,
}

impl<'a, E: Write> Player for Reading<'a, E> {
    ghost turns = { λ s turn result t. (t.errors.ghost_name ≡ s.errors.ghost_name)
        × Reports (s.updates, E.contents s.errors.now) turn result (t.updates, E.contents t.errors.now) };

    fn begin(&mut self, _: &[u8], _session: &Session) -> Result<(), Stop> {
        self.updates = next_number(self.updates);
        Ok(())
    }

    fn refuse(&mut self, _: &[u8], line: u64, refusal: UpdateError) -> Result<(), Stop> {
        self.updates = next_number(self.updates);
        report_refusal(self.updates, line, refusal, self.errors)
    }

    fn run(
        &mut self,
        _: &[u8],
        line: u64,
        session: &mut Session,
        command: Command,
    ) -> Result<(), Stop> {
        self.updates = count_after(self.updates, &command);
        run_reported(session, command, self.updates, line, self.errors)
    }

    fn ask(&mut self, _session: &mut Option<Session>, _query: Query) -> Result<(), Stop> {
        Ok(())
    }

    fn print(&mut self, _session: &Option<Session>) -> Result<(), Stop> {
        Ok(())
    }
}

/// The number of updates after this command.
pub fn count_after(updates: u64, command: &Command) -> u64
    ensures { result ≡ count_after updates command.now }
{
    match command {
        Command::Update(_) => next_number(updates),
        Command::HostFocus(_) | Command::Query(_) => updates,
    }
}

/// The number of updates after one more.
pub fn next_number(updates: u64) -> u64
    ensures { result ≡ next_number updates }
{
    updates.saturating_add(1)
}

/// Runs a command, and reports a refused update by this number and line.
fn run_reported<E: Write>(
    session: &mut Session,
    command: Command,
    number: u64,
    line: u64,
    errors: &mut E,
) -> Result<(), Stop>
    ensures { ReportsStep number line session.old command session.new result (E.contents errors.old) (E.contents errors.new) }
{
    let reply = step_silent(session, command);
    report_reply(number, line, &reply, errors)
}

/// Runs a command whose events nobody receives.
fn step_silent(session: &mut Session, command: Command) -> Result<Reply, AllocError>
    ensures { (events : List Event) × IsStep session.old command session.new events result }
{
    session.step(command, &mut Silent)
}

/// Reports by its number and the line that ends it that an update was refused, if this is the reply to it.
///
/// # Errors
///
/// Returns `Stop::Memory` if memory ran out, also in the update, and `Stop::WriteFault` for an error of `errors`.
pub fn report_reply<E: Write>(
    number: u64,
    line: u64,
    reply: &Result<Reply, AllocError>,
    errors: &mut E,
) -> Result<(), Stop>
    ensures { ReportsReply number line reply.now result (E.contents errors.old) (E.contents errors.new) }
{
    match reply {
        Ok(reply) => match refusal_of(reply) {
            Some(refusal) => report_refusal(number, line, refusal, errors),
            None => Ok(()),
        },
        Err(_) => Err(Stop::Memory),
    }
}

/// The refusal that a reply is, if it is one.
fn refusal_of(reply: &Reply) -> Option<UpdateError>
    ensures { result ≡ refusal_of reply.now }
{
    match reply {
        Reply::Refused(refusal) => Some(*refusal),
        _ => None,
    }
}

/// Reports by its number and the line that ends it that an update was refused, and why. One that ran out of memory stops the script, and
/// isn't reported here.
///
/// # Errors
///
/// Returns `Stop::Memory` if memory ran out in the update, and `Stop::WriteFault` for an error of `errors`.
pub fn report_refusal<E: Write>(
    number: u64,
    line: u64,
    refusal: UpdateError,
    errors: &mut E,
) -> Result<(), Stop>
    ensures { ReportsRefusal number line refusal result (E.contents errors.old) (E.contents errors.new) }
{
    match stopped_by(refusal) {
        Ok(()) => {
            writeln!(errors, "line {line}, update {number}: {refusal}")?;
            Ok(())
        }
        Err(stop) => Err(stop),
    }
}

/// Prints something about the tree that a script leaves.
pub trait Teller {
    /// Prints it, and returns whether what was asked for exists.
    ///
    /// # Errors
    ///
    /// Returns what stopped the printing.
    fn tell<O: Write>(
        &self,
        alloc: Global,
        session: &Session,
        output: &mut O,
    ) -> Result<bool, Stop>;
}

/// The exit status if what was asked for doesn't exist.
const NOT_THERE: u8 = 1;

/// Runs a program that prints something about the tree that the script on standard input leaves, as its arguments say, unless
/// [`script_lines::read_run`] says that it is not to run. The exit status is 0 if what was asked for exists, and 1 if it doesn't, or if
/// the run ends at a refused update, as [`script_lines::run_reporting`] says; 2, 3 and 4 are as for [`crate::run_script`].
pub fn tell_as_asked<T: Teller + Arguments>(rt: &HostRuntime, manual: &Manual) -> ExitCode
    ensures { exit_status result ≤ 4 }
{
    let asked: Result<(bool, (bool, T)), u8> = read_run(rt, manual);
    match asked {
        Ok((is_strict, (_, teller))) => run_reporting(rt, is_strict, &Telling { teller }),
        Err(status) => ExitCode::from(status),
    }
}

/// The program that prints something about a script's tree.
#[derive(Drop)]
struct Telling<T> {
    teller: T,
}

impl<T: Teller> Program for Telling<T> {
    /// Reads a script and prints what was asked about the tree that it leaves, or that there isn't one. Returns the exit
    /// status: 0 if what was asked for exists, and 1 if it doesn't; 2, 3 and 4 are as for [`crate::run_script`].
    fn run<R: BufRead, O: Write, E: Write>(&self, streams: &mut Streams<R, O, E>) -> u8 {
        let alloc = streams.alloc;
        let session = match read_script(alloc, &mut streams.input, &mut streams.errors) {
            Ok(session) => session,
            Err(status) => return status,
        };
        let (is_there, ended) = match told(&self.teller, alloc, &session, &mut streams.output) {
            Ok(is_there) => (is_there, Ok(())),
            Err(stop) => (true, Err(stop)),
        };
        let status = end_run(ended, 0, &mut streams.output, &mut streams.errors);
        if status == 0 && !is_there {
            return NOT_THERE;
        }
        status
    }
}

/// Prints what was asked about the tree, or that there isn't one.
fn told<T: Teller, O: Write>(
    teller: &T,
    alloc: Global,
    session: &Option<Session>,
    output: &mut O,
) -> Result<bool, Stop> {
    match session {
        Some(session) => teller.tell(alloc, session, output),
        None => {
            output.write_all(b"no tree\n")?;
            Ok(false)
        }
    }
}

/// Reads a script to its end and returns the session that it leaves, if there is a tree. Refused updates change
/// nothing and are reported on `errors`, each by its line and its number among the updates; queries are skipped.
///
/// # Errors
///
/// Returns the exit status, as for [`crate::run_script`]: 2 for a bad line, which is reported on `errors`; 3 for an
/// error of the input or of `errors`; 4 if memory runs out, also in an update, which is reported on `errors` too.
fn read_script<R: BufRead, E: Write>(
    alloc: Global,
    input: &mut R,
    errors: &mut E,
) -> Result<Option<Session>, u8>
    ensures status { IfErr result (λ status. (status ≤ 4) × (status ≢ 0) × (status ≢ 1)) }
    ensures reads { ReadsTree (R.remaining input.old) (E.contents errors.old) (E.contents errors.new) result }
{
    let mut reading = Reading {
        errors: &mut *errors,
        updates: 0,
    };
    let played = play_reported(alloc, input, &mut reading);
    // This does nothing. The proof reads from it what the errors have.
    let _ = &*reading.errors;
    match played.ended {
        Ok(()) => Ok(played.session),
        Err(stop) => Err(tell_script_stop(stop, &played.script, errors)),
    }
}

/// Plays a script for its tree, and reports its refused updates.
fn play_reported<R: BufRead, E: Write>(
    alloc: Global,
    input: &mut R,
    reading: &mut Reading<'_, E>,
) -> Played
    ensures errors { reading.new.errors.ghost_name ≡ reading.old.errors.ghost_name }
    ensures plays { let before : ℕ × Bytes = (reading.old.updates, E.contents reading.old.errors.now) in
        let after : ℕ × Bytes = (reading.new.updates, E.contents reading.new.errors.now) in
        PlaysOut Reports (R.remaining input.old) before result after }
{
    play(alloc, input, reading)
}
