//! Reading a script for the tree that it leaves.
ghost use Rattle.std.specs.Prelude.{◌≡◌, ◌≢◌, ◌≤◌, ℕ, IfErr, List};
ghost use Rattle.model.specs.Events.{Event};
ghost use Rattle.session.specs.Replied.{IsStep};
ghost use Rattle.atree_script.specs.Played.{Bytes, PlaysOut};
ghost use Rattle.atree_script.specs.Reports.{ReadsTree, Reports, ReportsStep};

use accesskit_consumer::node::NodeRef;
use accesskit_consumer::tree::{TreeChangeHandler, UpdateError};
use atree_script::{Played, Player, count_after, next_number, play, report_refusal, report_reply};
use script_lines::{Stop, tell_script_stop};
use session::{Command, Query, Reply, Session};
use std::alloc::{AllocError, Global};
use std::io::{BufRead, Write};

/// A handler that does nothing.
#[derive(Clone, Copy)]
struct Silent;

impl TreeChangeHandler for Silent {
    ghost steps = { λ s _ t. t ≡ s };

    fn node_added(&mut self, _node: &NodeRef) {}

    fn node_updated(&mut self, _old_node: &NodeRef, _new_node: &NodeRef) {}

    fn focus_moved(&mut self, _old_node: Option<&NodeRef>, _new_node: Option<&NodeRef>) {}

    fn node_removed(&mut self, _node: &NodeRef) {}
}

/// Reads a script for its tree, and reports which of its updates are refused.
#[derive(Drop)]
struct Reading<'a, E> {
    errors: &'a mut E,
    /// The number of updates so far.
    updates: u64,
}

impl<'a, E: Write> Player for Reading<'a, E> {
    ghost turns = { λ s turn result t. (t.errors.ghost_name ≡ s.errors.ghost_name)
        × Reports (s.updates, E.contents s.errors.now) turn result (t.updates, E.contents t.errors.now) };

    fn begin(&mut self, _: &[u8], _session: &Session) -> Result<(), Stop> {
        self.updates = next_number(self.updates);
        Ok(())
    }

    fn refuse(&mut self, _: &[u8], line: u64, refusal: UpdateError) -> Result<(), Stop> {
        self.updates = next_number(self.updates);
        report_refusal(self.updates, line, refusal, self.errors)
    }

    fn run(
        &mut self,
        _: &[u8],
        line: u64,
        session: &mut Session,
        command: Command,
    ) -> Result<(), Stop> {
        self.updates = count_after(self.updates, &command);
        run_reported(session, command, self.updates, line, self.errors)
    }

    fn ask(&mut self, _session: &mut Option<Session>, _query: Query) -> Result<(), Stop> {
        Ok(())
    }

    fn print(&mut self, _session: &Option<Session>) -> Result<(), Stop> {
        Ok(())
    }
}

/// Runs a command, and reports a refused update by this number and line.
fn run_reported<E: Write>(
    session: &mut Session,
    command: Command,
    number: u64,
    line: u64,
    errors: &mut E,
) -> Result<(), Stop>
    ensures { ReportsStep number line session.old command session.new result (E.contents errors.old) (E.contents errors.new) }
{
    let reply = step_silent(session, command);
    report_reply(number, line, &reply, errors)
}

/// Runs a command whose events nobody receives.
fn step_silent(session: &mut Session, command: Command) -> Result<Reply, AllocError>
    ensures { (events : List Event) × IsStep session.old command session.new events result }
{
    session.step(command, &mut Silent)
}

/// Reads a script to its end and returns the session that it leaves, if there is a tree. Refused updates change nothing and are reported
/// on `errors`, each by its line and its number among the updates; queries are skipped.
///
/// # Errors
///
/// Returns the exit status: 2 for a bad line, which is reported on `errors`; 3 for an error of the input or of `errors`; 4 if memory runs
/// out, also in an update, which is reported on `errors` too.
pub(crate) fn read_script<R: BufRead, E: Write>(
    alloc: Global,
    input: &mut R,
    errors: &mut E,
) -> Result<Option<Session>, u8>
    ensures status { IfErr result (λ status. (status ≤ 4) × (status ≢ 0) × (status ≢ 1)) }
    ensures reads { ReadsTree (R.remaining input.old) (E.contents errors.old) (E.contents errors.new) result }
{
    let mut reading = Reading {
        errors: &mut *errors,
        updates: 0,
    };
    let played = play_reported(alloc, input, &mut reading);
    // This does nothing. The proof reads from it what the errors have.
    let _ = &*reading.errors;
    match played.ended {
        Ok(()) => Ok(played.session),
        Err(stop) => Err(tell_script_stop(stop, &played.script, errors)),
    }
}

/// Plays a script for its tree, and reports its refused updates.
fn play_reported<R: BufRead, E: Write>(
    alloc: Global,
    input: &mut R,
    reading: &mut Reading<'_, E>,
) -> Played
    ensures errors { reading.new.errors.ghost_name ≡ reading.old.errors.ghost_name }
    ensures plays { let before : ℕ × Bytes = (reading.old.updates, E.contents reading.old.errors.now) in
        let after : ℕ × Bytes = (reading.new.updates, E.contents reading.new.errors.now) in
        PlaysOut Reports (R.remaining input.old) before result after }
{
    play(alloc, input, reading)
}
