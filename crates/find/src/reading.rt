//! Reading a script, and searching its trees.

ghost use Rattle.std.specs.Prelude.{◌≡◌, ◌≢◌, ◌≤◌, IfErr, List};
ghost use Rattle.model.specs.Events.{Event};
ghost use Rattle.session.specs.Replied.{IsStep};
ghost use Rattle.atree_script.specs.Played.{PlaysOut};
ghost use Rattle.atree_script.specs.Reports.{ReportsStep};
ghost use Rattle.find.specs.Noted.{NotesTurn, Seen, is_update, noted_of};
ghost use Rattle.find.specs.Reading.{ReadsNoted, seen_of};

use crate::noting::Notes;
use crate::wanted::Wanted;
use accesskit_consumer::node::NodeRef;
use accesskit_consumer::tree::{TreeChangeHandler, UpdateError};
use atree_script::{
    Played, Player, Stop, count_after, next_number, play, report_refusal, report_reply,
};
use script_lines::tell_script_stop;
use session::{Command, Query, Reply, Session};
use std::alloc::{AllocError, Global};
use std::io::{BufRead, Write};

/// A handler that does nothing.
#[derive(Clone, Copy)]
struct Silent;

impl TreeChangeHandler for Silent {
    ghost steps = { λ s _ t. t ≡ s };

    fn node_added(&mut self, _node: &NodeRef) {}

    fn node_updated(&mut self, _old_node: &NodeRef, _new_node: &NodeRef) {}

    fn focus_moved(&mut self, _old_node: Option<&NodeRef>, _new_node: Option<&NodeRef>) {}

    fn node_removed(&mut self, _node: &NodeRef) {}
}

/// Carries out a script, reports which of its updates are refused, and notes what is found after them.
#[derive(Drop)]
struct Reader<'a, E> {
    alloc: Global,
    wanted: &'a Wanted,
    errors: &'a mut E,
    /// The number of updates so far.
    updates: u64,
    notes: Notes,
}

impl<'a, E: Write> Player for Reader<'a, E> {
    ghost turns = { λ s turn result t. (t.errors.ghost_name ≡ s.errors.ghost_name)
        × NotesTurn (seen_of s.wanted.now s.updates (E.contents s.errors.now) s.notes) turn result
        (seen_of t.wanted.now t.updates (E.contents t.errors.now) t.notes) };

    fn begin(&mut self, _: &[u8], session: &Session) -> Result<(), Stop> {
        self.updates = next_number(self.updates);
        self.notes
            .note(self.alloc, self.wanted, self.updates, Some(session))
    }

    fn refuse(&mut self, _: &[u8], line: u64, refusal: UpdateError) -> Result<(), Stop> {
        self.updates = next_number(self.updates);
        report_refusal(self.updates, line, refusal, self.errors)?;
        self.notes.note(self.alloc, self.wanted, self.updates, None)
    }

    fn run(
        &mut self,
        _: &[u8],
        line: u64,
        session: &mut Session,
        command: Command,
    ) -> Result<(), Stop> {
        let is_update = is_update(&command);
        self.updates = count_after(self.updates, &command);
        run_reported(session, command, self.updates, line, self.errors)?;
        self.notes
            .note_if(self.alloc, self.wanted, self.updates, is_update, session)
    }

    fn ask(&mut self, _session: &mut Option<Session>, _query: Query) -> Result<(), Stop> {
        Ok(())
    }

    fn print(&mut self, _session: &Option<Session>) -> Result<(), Stop> {
        Ok(())
    }
}

/// Whether a command is an update.
fn is_update(command: &Command) -> bool
    ensures { result ≡ is_update command.now }
{
    match command {
        Command::Update(_) => true,
        Command::HostFocus(_) | Command::Query(_) => false,
    }
}

/// Runs a command, and reports a refused update by this number and line.
fn run_reported<E: Write>(
    session: &mut Session,
    command: Command,
    number: u64,
    line: u64,
    errors: &mut E,
) -> Result<(), Stop>
    ensures { ReportsStep number line session.old command session.new result (E.contents errors.old) (E.contents errors.new) }
{
    let reply = step_silent(session, command);
    report_reply(number, line, &reply, errors)
}

/// Runs a command whose events nobody receives.
fn step_silent(session: &mut Session, command: Command) -> Result<Reply, AllocError>
    ensures { (events : List Event) × IsStep session.old command session.new events result }
{
    session.step(command, &mut Silent)
}

/// What a script that is read to its end gives.
#[derive(Drop)]
pub(crate) struct Read {
    /// The session that it leaves, if there is a tree.
    pub(crate) session: Option<Session>,
    /// The number of its updates.
    pub(crate) updates: u64,
    pub(crate) notes: Notes,
}

/// Reads a script to its end, and notes what is found after its updates. Refused updates change nothing and are reported on `errors`, each
/// by its line and its number among the updates; queries are skipped.
///
/// # Errors
///
/// Returns the exit status: 2 for a bad line, which is reported on `errors`; 3 for an error of the input or of `errors`; 4 if memory runs
/// out, also in an update, which is reported on `errors` too.
pub(crate) fn read_noted<R: BufRead, E: Write>(
    alloc: Global,
    wanted: &Wanted,
    input: &mut R,
    errors: &mut E,
) -> Result<Read, u8>
    ensures status { IfErr result (λ status. (status ≤ 4) × (status ≢ 0) × (status ≢ 1)) }
    ensures reads { ReadsNoted wanted.now (R.remaining input.old) (E.contents errors.old) (E.contents errors.new) result }
{
    let mut reader = Reader {
        alloc,
        wanted,
        errors: &mut *errors,
        updates: 0,
        notes: Notes {
            text: Vec::new(alloc),
            found: Vec::new(alloc),
            is_enough: false,
        },
    };
    let played = play_noted(alloc, input, &mut reader);
    let Reader {
        alloc: _,
        wanted: _,
        errors: reported,
        updates,
        notes,
    } = reader;
    // This does nothing. The proof reads from it what the errors have.
    let _ = &*reported;
    match played.ended {
        Ok(()) => Ok(Read {
            session: played.session,
            updates,
            notes,
        }),
        Err(stop) => Err(tell_script_stop(stop, &played.script, errors)),
    }
}

/// Plays a script, and notes what is found after its updates.
fn play_noted<R: BufRead, E: Write>(
    alloc: Global,
    input: &mut R,
    reader: &mut Reader<'_, E>,
) -> Played
    ensures errors { reader.new.errors.ghost_name ≡ reader.old.errors.ghost_name }
    ensures plays { let a = reader.old in let b = reader.new in
        let before : Seen = seen_of a.wanted.now a.updates (E.contents a.errors.now) a.notes in
        let after : Seen = seen_of b.wanted.now b.updates (E.contents b.errors.now) b.notes in
        PlaysOut NotesTurn (R.remaining input.old) before result after }
{
    play(alloc, input, reader)
}
