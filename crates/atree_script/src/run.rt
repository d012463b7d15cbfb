//! Running a script.
ghost use Rattle.std.specs.Prelude.{◌≡◌, ◌≤◌, ◌≢◌, List, None, IfNone, flat_map};
ghost use Rattle.std.specs.Io.KnownBytes.{Appends};
ghost use Rattle.model.specs.Events.{Event};
ghost use Rattle.session.specs.Replied.{IsStep};
ghost use Rattle.atree_script.specs.Played.{PlaysOut};
ghost use Rattle.atree_script.specs.Printed.{event_line};
ghost use Rattle.atree_script.specs.Scripts.{Prints, PrintsStep, RunsScript};

use crate::outline::print_outline;
use crate::playing::{Played, Player, play};
use crate::printer::Printer;
use crate::refusals::write_refusal;
use crate::replies::write_reply;
use accesskit_consumer::tree::UpdateError;
use script_lines::{Stop, end_run};
use session::{Command, Query, Reply, Session};
use std::alloc::{AllocError, Global};
use std::io::{BufRead, Write};

/// Runs a script to its end, or until something stops it, and returns the exit status: 0 at the end of the input; 2 for
/// a bad line, whose number is reported on `errors`; 3 for an error of the input or an output, after which nothing more
/// is written; 4 if memory runs out while a line is read or carried out, which is reported on `errors` too. What was
/// printed before remains printed. If memory runs out in an update, the update is refused and the script goes on.
pub fn run_script<R: BufRead, O: Write, E: Write>(
    alloc: Global,
    input: &mut R,
    output: &mut O,
    errors: &mut E,
) -> u8
    ensures bound { result ≤ 4 }
    ensures not_one { result ≢ 1 }
    ensures runs { RunsScript (R.remaining input.old) (O.contents output.old) (O.contents output.new) (E.contents errors.old)
        (E.contents errors.new) result }
{
    let mut writing = Writing {
        output: &mut *output,
    };
    let played = play_printed(alloc, input, &mut writing);
    // This does nothing. The proof reads from it what the output has.
    let _ = &*writing.output;
    end_run(played.ended, played.number, output, errors)
}

/// Plays a script, and prints the effects of each command.
fn play_printed<R: BufRead, O: Write>(
    alloc: Global,
    input: &mut R,
    writing: &mut Writing<'_, O>,
) -> Played
    ensures output { writing.new.output.ghost_name ≡ writing.old.output.ghost_name }
    ensures plays { PlaysOut Prints (R.remaining input.old) (O.contents writing.old.output.now) result (O.contents writing.new.output.now) }
{
    play(alloc, input, writing)
}

/// Prints the effects of each command.
#[derive(Drop)]
struct Writing<'a, O> {
    output: &'a mut O,
}

impl<'a, O: Write> Player for Writing<'a, O> {
    ghost turns = { λ s turn result t. (t.output.ghost_name ≡ s.output.ghost_name)
        × Prints (O.contents s.output.now) turn result (O.contents t.output.now) };

    fn begin(&mut self, _: &[u8], _session: &Session) -> Result<(), Stop> {
        self.output.write_all(b"ok\n")?;
        Ok(())
    }

    /// Prints why the update is refused, also if memory ran out.
    fn refuse(&mut self, _: &[u8], _: u64, refusal: UpdateError) -> Result<(), Stop> {
        write_refusal(refusal, self.output)?;
        Ok(())
    }

    fn run(
        &mut self,
        _: &[u8],
        _: u64,
        session: &mut Session,
        command: Command,
    ) -> Result<(), Stop> {
        run_command(session, command, self.output)
    }

    /// Prints the answer, or that there is no tree.
    fn ask(&mut self, session: &mut Option<Session>, query: Query) -> Result<(), Stop> {
        match session {
            Some(session) => run_command(session, Command::Query(query), self.output),
            None => {
                self.output.write_all(b"no tree\n")?;
                Ok(())
            }
        }
    }

    /// Prints the tree, or that there isn't one.
    fn print(&mut self, session: &Option<Session>) -> Result<(), Stop> {
        match session {
            Some(session) => print_outline(session.tree().state().view(), self.output)?,
            None => self.output.write_all(b"no tree\n")?,
        }
        Ok(())
    }
}

/// Runs a command, and prints its events and the reply to it.
fn run_command<O: Write>(
    session: &mut Session,
    command: Command,
    output: &mut O,
) -> Result<(), Stop>
    ensures { PrintsStep session.old command session.new result (O.contents output.old) (O.contents output.new) }
{
    let mut printer = Printer {
        out: &mut *output,
        fault: None,
    };
    let reply = step_printed(session, command, &mut printer);
    let Printer { out, fault } = printer;
    // This does nothing. The proof reads from it what the output has.
    let _ = &*out;
    if let Some(fault) = fault {
        return Err(Stop::from(fault));
    }
    write_reply(&reply?, output)?;
    Ok(())
}

/// Runs a command, whose events are printed until the output's first error.
fn step_printed<O: Write>(
    session: &mut Session,
    command: Command,
    printer: &mut Printer<'_, O>,
) -> Result<Reply, AllocError>
    ensures output { printer.new.out.ghost_name ≡ printer.old.out.ghost_name }
    ensures step { (events : List Event) × IsStep session.old command session.new events result
        × IfNone printer.new.fault ((printer.old.fault ≡ None)
        × Appends (O.contents printer.old.out.now) (O.contents printer.new.out.now) (flat_map event_line events)) }
{
    session.step(command, printer)
}
