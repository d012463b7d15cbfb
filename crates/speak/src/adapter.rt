//! Running a script with a speaker, and with a mirror that knows the focus.
ghost use Rattle.std.specs.Prelude.{◌≡◌, ◌≤◌, ◌≢◌, ◌++◌, IfSome, IsSomeAnd, IfOk, IfErr, OnOk};
ghost use Rattle.std.specs.Io.KnownBytes.{Appends};
ghost use Rattle.atree_script.specs.Played.{PlaysOut};
ghost use Rattle.model.specs.Mirror.{AreRecordsOf};
ghost use Rattle.script_words.specs.declared.stops.Stop.TheVariants.{Memory};
ghost use Rattle.views.specs.ShownWorlds.{world_of};
ghost use Rattle.speak.specs.Numbers.{heading_after, heading_text};
ghost use Rattle.speak.specs.Spoken.{aloud_of, Utters, SpeaksScript};
ghost use Rattle.speak.specs.Steps.{IsBegun, StepsHeard, Ends, SaysAtEnd, SpokenStep};

use crate::numbering::{Heading, Numbering, write_heading};
use accesskit_consumer::StateRef;
use accesskit_consumer::node::FullNodeId;
use accesskit_consumer::tree::{Mirror, UpdateError};
use atree_script::{
    Played, Player, Program, Stop, Streams, end_script_run, play, report_refusal, report_reply,
};
use session::{Command, Query, Reply, Session};
use speaking::Speaker;
use std::alloc::{AllocError, Global};
use std::io::{self, BufRead, Write};

/// The program that says the effects of a script.
#[derive(Clone, Copy)]
pub(crate) struct Speak {
    /// Whether a line with its number comes before what is said of an update.
    pub(crate) is_numbered: bool,
}

impl Program for Speak {
    /// Runs a script to its end, or until something stops it, and writes what a screen reader would say of it. Refused
    /// updates are reported on `errors`, each by its line and its number among the updates. Returns the exit status, as for
    /// [`atree_script::run_script`]; of a bad line the column is reported too, and what is wrong in it. An update that
    /// runs out of memory ends the run too, since what it would have said is lost. Queries and `print` in the script say
    /// nothing.
    fn run<R: BufRead, O: Write, E: Write>(&self, streams: &mut Streams<R, O, E>) -> u8
        ensures bound { result ≤ 4 }
        ensures not_one { result ≢ 1 }
        ensures speaks { SpeaksScript self.now.is_numbered (R.remaining streams.old.input) (O.contents streams.old.output)
            (O.contents streams.new.output) (E.contents streams.old.errors) (E.contents streams.new.errors) result }
    {
        let input = &mut streams.input;
        let output = &mut streams.output;
        let errors = &mut streams.errors;
        speak_script(self.is_numbered, streams.alloc, input, output, errors)
    }
}

/// Runs a script, and writes what a screen reader would say of it. Returns the exit status.
fn speak_script<R: BufRead, O: Write, E: Write>(
    is_numbered: bool,
    alloc: Global,
    input: &mut R,
    output: &mut O,
    errors: &mut E,
) -> u8
    ensures bound { result ≤ 4 }
    ensures not_one { result ≢ 1 }
    ensures speaks { SpeaksScript is_numbered (R.remaining input.old) (O.contents output.old) (O.contents output.new)
        (E.contents errors.old) (E.contents errors.new) result }
{
    let mut adapter = Adapter {
        alloc,
        numbering: Numbering::none_yet(is_numbered),
        told: None,
        output: &mut *output,
        errors: &mut *errors,
    };
    let played = play_aloud(input, &mut adapter);
    let Adapter {
        alloc: _,
        numbering: _,
        told,
        output: spoken,
        errors: reported,
    } = adapter;
    drop(told);
    // These do nothing. The proof reads from them what the streams have.
    let _ = &*spoken;
    let _ = &*reported;
    end_script_run(played.ended, &played.script, output, errors)
}

/// Plays a script, and writes what a screen reader would say of it.
fn play_aloud<R: BufRead, O: Write, E: Write>(
    input: &mut R,
    adapter: &mut Adapter<'_, '_, O, E>,
) -> Played
    ensures output { adapter.new.output.ghost_name ≡ adapter.old.output.ghost_name }
    ensures errors { adapter.new.errors.ghost_name ≡ adapter.old.errors.ghost_name }
    ensures plays { let a = adapter.old in let b = adapter.new in
        let before = aloud_of a.numbering a.told (O.contents a.output.now) (E.contents a.errors.now) in
        let after = aloud_of b.numbering b.told (O.contents b.output.now) (E.contents b.errors.now) in
        PlaysOut Utters (R.remaining input.old) before result after }
{
    play(adapter.alloc, input, adapter)
}

/// A speaker, a mirror, and the streams to which speech and refusals are written.
#[derive(Drop)]
struct Adapter<'a, 'b, O, E> {
    alloc: Global,
    numbering: Numbering,
    /// The speaker and the mirror, once there is a tree.
    told: Option<(Speaker, Mirror)>,
    output: &'a mut O,
    errors: &'b mut E,
}

impl<'a, 'b, O: Write, E: Write> Player for Adapter<'a, 'b, O, E> {
    ghost turns = { λ s turn result t. (t.output.ghost_name ≡ s.output.ghost_name) × (t.errors.ghost_name ≡ s.errors.ghost_name)
        × Utters (aloud_of s.numbering s.told (O.contents s.output.now) (E.contents s.errors.now)) turn result
        (aloud_of t.numbering t.told (O.contents t.output.now) (E.contents t.errors.now)) };

    fn begin(&mut self, _: &[u8], session: &Session) -> Result<(), Stop> {
        self.numbering = self.numbering.after_one();
        let heading = self.numbering.first_heading();
        let mut told = begun(self.alloc, session)?;
        let written = write_said(heading, &mut told, view_of(session), self.output);
        self.told = Some(told);
        written
    }

    /// Reports the refusal. An update that runs out of memory ends the run, since what it would have said is lost.
    fn refuse(&mut self, _: &[u8], line: u64, refusal: UpdateError) -> Result<(), Stop> {
        self.numbering = self.numbering.after_one();
        report_refusal(self.numbering.updates, line, refusal, self.errors)
    }

    fn run(
        &mut self,
        _: &[u8],
        line: u64,
        session: &mut Session,
        command: Command,
    ) -> Result<(), Stop> {
        self.numbering = self.numbering.after_command(&command);
        match &mut self.told {
            Some(told) => speak_step(
                self.numbering,
                line,
                session,
                command,
                told,
                self.output,
                self.errors,
            ),
            None => Ok(()),
        }
    }

    fn ask(&mut self, _session: &mut Option<Session>, _query: Query) -> Result<(), Stop> {
        Ok(())
    }

    fn print(&mut self, _session: &Option<Session>) -> Result<(), Stop> {
        Ok(())
    }
}

/// A speaker that has said the focus of a new tree, and a mirror of that tree.
fn begun(alloc: Global, session: &Session) -> Result<(Speaker, Mirror), Stop>
    ensures speaker { IfOk result (λ told. IsBegun session.now told.0) }
    ensures mirror { IfOk result (λ told. IsSomeAnd told.1 (AreRecordsOf session.now)) }
    ensures stops { IfErr result (λ stop. stop ≡ Memory) }
{
    let mirror = Mirror::new(alloc, session.tree())?;
    let mut speaker = Speaker::new(alloc);
    speaker.begin(view_of(session));
    Ok((speaker, mirror))
}

/// A view of the session's tree.
fn view_of(session: &Session) -> StateRef<'_>
    ensures { world_of result ≡ session.now }
{
    session.tree().state().view()
}

/// Runs a command that ends on this line, whose events the speaker and the mirror receive, and writes what is said of it; a refused
/// update is reported. A mirror that matches the session's tree before matches it afterwards.
fn speak_step<O: Write, E: Write>(
    numbering: Numbering,
    line: u64,
    session: &mut Session,
    command: Command,
    told: &mut (Speaker, Mirror),
    output: &mut O,
    errors: &mut E,
) -> Result<(), Stop>
    ensures spoken { SpokenStep numbering line session.old command session.new told.old told.new result (O.contents output.old)
        (O.contents output.new) (E.contents errors.old) (E.contents errors.new) }
    ensures mirrored { OnOk result (IsSomeAnd told.old.1 (AreRecordsOf session.old) → IfSome told.new.1 (AreRecordsOf session.new)) }
{
    let heading = numbering.heading_of(&command);
    let reply = step(session, command, told);
    report_reply(numbering.updates, line, &reply, errors)?;
    let heading = heading_after(heading, &reply);
    write_said(heading, told, view_of(session), output)
}

/// Runs a command, whose events the speaker and the mirror receive. A mirror that matches the session's tree before
/// matches it afterwards, unless one of its allocations fails.
fn step(
    session: &mut Session,
    command: Command,
    told: &mut (Speaker, Mirror),
) -> Result<Reply, AllocError>
    ensures heard { StepsHeard session.old command session.new told.old told.new result }
    ensures mirrored { IsSomeAnd told.old.1 (AreRecordsOf session.old) → IfSome told.new.1 (AreRecordsOf session.new) }
{
    told.0.begin_step();
    session.step(command, told)
}

/// The heading, unless the reply is a refusal.
fn heading_after(heading: Option<Heading>, reply: &Result<Reply, AllocError>) -> Option<Heading>
    ensures { result ≡ heading_after heading reply.now }
{
    match reply {
        Ok(Reply::Refused(_)) => None,
        _ => heading,
    }
}

/// Ends a step of the speaker and writes what was said, under the heading if there is one. If an allocation failed, what
/// was said before that is written, and the run stops.
fn write_said<O: Write>(
    heading: Option<Heading>,
    told: &mut (Speaker, Mirror),
    view: StateRef,
    output: &mut O,
) -> Result<(), Stop>
    ensures said { let before = O.contents output.old in let after = O.contents output.new in
        SaysAtEnd heading (world_of view.entry) told.old.1 told.old.0 told.new.0 result before after }
    ensures mirror { told.new.1 ≡ told.old.1 }
{
    let focus = told.1.focus();
    let ended = settle(&mut told.0, view, focus);
    write_speech(heading, told.0.said(), output)?;
    told.0.clear_said();
    ended
}

/// Writes a heading, if there is one, and what is said.
fn write_speech<O: Write>(heading: Option<Heading>, said: &str, output: &mut O) -> io::Result<()>
    ensures { OnOk result (Appends (O.contents output.old) (O.contents output.new) (heading_text heading ++ said.now)) }
{
    write_heading(heading, output)?;
    output.write_all(said.as_bytes())
}

/// Ends a step of the speaker, after which this node of the mirror is focused. If the mirror has no node any more, or if
/// the speaker has fallen silent, an allocation failed, and the run stops.
fn settle(
    speaker: &mut Speaker,
    view: StateRef,
    focus: Option<Option<FullNodeId>>,
) -> Result<(), Stop>
    ensures { Ends (world_of view.entry) focus speaker.old speaker.new result }
{
    let Some(focus) = focus else {
        return Err(Stop::Memory);
    };
    speaker.settle(view, focus);
    if speaker.is_silent() {
        return Err(Stop::Memory);
    }
    Ok(())
}
