//! Playing a script: reading its commands and having them carried out.
ghost use Rattle.std.specs.Prelude.{◌≡◌, None, Result, option_map};
ghost use Rattle.script_lines.specs.ScriptReading.{place};
ghost use Rattle.script_lines.specs.Taking.{number_of};
ghost use Rattle.script_lines.specs.declared.reader.ScriptCommand.TheVariants as script_;
ghost use Rattle.script_words.specs.declared.stops.Stop.{Stop};
ghost use Rattle.atree_script.specs.Playing.{Turn, Begun, FirstRefused, Ran, Asked, Printed, RunsTold, CarriesOut, SendsFirst, end_of_refusal, end_of_reply};
ghost use Rattle.atree_script.specs.Played.{stage_of, PlaysFrom, PlaysOut};

use accesskit_consumer::tree::{TreeChangeHandler, UpdateError};
use schema::TreeUpdate;
use script_lines::{ScriptCommand, ScriptReader, Stop};
use session::{Command, Query, Reply, Session};
use std::alloc::Global;
use std::io::BufRead;

/// Carries out a script's commands.
pub trait Player {
    /// How one call changes the player: the player before it, what it is asked to do, the result, and the player after it.
    ghost turns: { Self → Turn → Result Unit Stop → Self → Type 0 };

    /// Called when the first accepted update has made the tree. The comment is that right before the update.
    ///
    /// # Errors
    ///
    /// Returns why the script stops there.
    fn begin(&mut self, comment: &[u8], session: &Session) -> Result<(), Stop>
        ensures { turns self.old (Begun comment.now session.now) result self.new };

    /// Called when an update that would have made the tree was refused, which ends on the line with this number, counted from 1. The
    /// script goes on unless this stops it.
    ///
    /// # Errors
    ///
    /// Returns why the script stops there.
    fn refuse(&mut self, comment: &[u8], line: u64, refusal: UpdateError) -> Result<(), Stop>
        ensures { turns self.old (FirstRefused comment.now line refusal) result self.new };

    /// Runs an update or a change of the host's focus, which has this comment right before it and ends on the line with this number,
    /// counted from 1.
    ///
    /// # Errors
    ///
    /// Returns why the script stops there.
    fn run(
        &mut self,
        comment: &[u8],
        line: u64,
        session: &mut Session,
        command: Command,
    ) -> Result<(), Stop>
        ensures { turns self.old (Ran comment.now line session.old command session.new) result self.new };

    /// Answers a query, possibly before there is a tree.
    ///
    /// # Errors
    ///
    /// Returns why the script stops there.
    fn ask(&mut self, session: &mut Option<Session>, query: Query) -> Result<(), Stop>
        ensures { turns self.old (Asked session.old query session.new) result self.new };

    /// Prints the tree, if there is one.
    ///
    /// # Errors
    ///
    /// Returns why the script stops there.
    fn print(&mut self, session: &Option<Session>) -> Result<(), Stop>
        ensures { turns self.old (Printed session.now) result self.new };
}

/// The result of playing a script.
#[derive(Drop)]
pub struct Played {
    /// The session of the first accepted update, if there was one.
    pub session: Option<Session>,
    /// What stopped the script before its end, if anything did.
    pub ended: Result<(), Stop>,
    /// The number of the last line that was read, counted from 1.
    pub number: u64,
    /// The reader of the script, which knows what is wrong in a bad line.
    pub script: ScriptReader,
}

/// Plays a script to its end, or until something stops it. A refused update changes nothing.
pub fn play<R: BufRead, P: Player>(alloc: Global, input: &mut R, player: &mut P) -> Played
    ensures { PlaysOut P.turns (R.remaining input.old) player.old result player.new }
{
    let mut play = Playing {
        alloc,
        session: None,
        is_host_focused: false,
    };
    let mut script = ScriptReader::new(alloc);
    let ended = play.commands(&mut script, input, player);
    Played {
        session: play.session,
        ended,
        number: script.line_number(),
        script,
    }
}

/// Runs a command, whose events the handler receives.
///
/// # Errors
///
/// Returns `Stop::Memory` if memory runs out; the command then did nothing.
pub fn run_told<H: TreeChangeHandler>(
    session: &mut Session,
    command: Command,
    handler: &mut H,
) -> Result<(), Stop>
    ensures { RunsTold H.steps session.old command session.new handler.old handler.new result }
{
    let reply = session.step(command, handler)?;
    ended_by(&reply)
}

/// Whether a reply stops the script: only that of an update that ran out of memory does.
fn ended_by(reply: &Reply) -> Result<(), Stop>
    ensures { result ≡ end_of_reply reply.now }
{
    match reply {
        Reply::Refused(refusal) => stopped_by(*refusal),
        _ => Ok(()),
    }
}

/// Whether a refused update stops the script: only one that ran out of memory does.
///
/// # Errors
///
/// Returns `Stop::Memory` if memory ran out in the update.
pub fn stopped_by(refusal: UpdateError) -> Result<(), Stop>
    ensures { result ≡ end_of_refusal refusal }
{
    match refusal {
        UpdateError::Memory => Err(Stop::Memory),
        _ => Ok(()),
    }
}

/// The session while a script is played.
#[derive(Drop)]
struct Playing {
    alloc: Global,
    /// The session of the first accepted update.
    session: Option<Session>,
    is_host_focused: bool,
}

impl Playing {
    /// Carries out all commands.
    fn commands<R: BufRead, P: Player>(
        &mut self,
        script: &mut ScriptReader,
        input: &mut R,
        player: &mut P,
    ) -> Result<(), Stop>
        ensures { PlaysFrom P.turns (option_map (place script.old) (R.remaining input.old)) self.old player.old result
            (number_of script.new) self.new player.new }
    {
        for _ in 0..u64::MAX {
            let Some(command) = script.next_command(input)? else {
                return Ok(());
            };
            self.carry_out(script.comment(), script.line_number(), command, player)?;
        }
        Err(Stop::ReadFault)
    }

    /// Carries out a command, which has this comment right before it and ends on this line.
    fn carry_out<P: Player>(
        &mut self,
        comment: &[u8],
        line: u64,
        command: ScriptCommand,
        player: &mut P,
    ) -> Result<(), Stop>
        ensures { CarriesOut P.turns (stage_of self.old) player.old comment.now line command result (stage_of self.new) player.new }
    {
        match command {
            ScriptCommand::Update(update) => self.send(comment, line, update, player),
            ScriptCommand::HostFocus(is_host_focused) => {
                self.set_host_focus(comment, line, is_host_focused, player)
            }
            ScriptCommand::Print => player.print(&self.session),
            ScriptCommand::Query(query) => player.ask(&mut self.session, query),
        }
    }

    /// Sends an update: the first one makes the tree.
    fn send<P: Player>(
        &mut self,
        comment: &[u8],
        line: u64,
        update: TreeUpdate,
        player: &mut P,
    ) -> Result<(), Stop>
        ensures { CarriesOut P.turns (stage_of self.old) player.old comment.now line (script_.Update update) result
            (stage_of self.new) player.new }
    {
        match &mut self.session {
            Some(session) => player.run(comment, line, session, Command::Update(update)),
            None => self.send_first(comment, line, update, player),
        }
    }

    /// Sends the update that makes the tree.
    fn send_first<P: Player>(
        &mut self,
        comment: &[u8],
        line: u64,
        update: TreeUpdate,
        player: &mut P,
    ) -> Result<(), Stop>
        requires { self.old.session ≡ None }
        ensures { SendsFirst P.turns self.old.is_host_focused player.old comment.now line update result (stage_of self.new) player.new }
    {
        match Session::new(self.alloc, update, self.is_host_focused) {
            Ok(session) => {
                let begun = player.begin(comment, &session);
                self.session = Some(session);
                begun
            }
            Err(refusal) => player.refuse(comment, line, refusal),
        }
    }

    /// Sets the host's focus. Before there is a tree, it is kept for the tree.
    fn set_host_focus<P: Player>(
        &mut self,
        comment: &[u8],
        line: u64,
        is_host_focused: bool,
        player: &mut P,
    ) -> Result<(), Stop>
        ensures { CarriesOut P.turns (stage_of self.old) player.old comment.now line (script_.HostFocus is_host_focused) result
            (stage_of self.new) player.new }
    {
        self.is_host_focused = is_host_focused;
        match &mut self.session {
            Some(session) => player.run(
                comment,
                line,
                session,
                Command::HostFocus(is_host_focused),
            ),
            None => Ok(()),
        }
    }
}
