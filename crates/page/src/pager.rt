//! Running a script and writing a page of it.
ghost use Rattle.std.specs.Prelude.{◌≡◌, ◌≤◌, ◌≢◌, ◌⊎◌, [], IfErr, IfOk, Ok, OnErr, OnOk, Some};
ghost use Rattle.std.specs.Io.KnownBytes.{Appends};
ghost use Rattle.atree_script.specs.Played.{PlaysOut};
ghost use Rattle.atree_script.specs.Scripts.{Writes};
ghost use Rattle.html.specs.Written.{AppendsBeginning};
ghost use Rattle.script_words.specs.declared.stops.Stop.TheVariants.{WriteFault};
ghost use Rattle.views.specs.ShownWorlds.{world_of};
ghost use Rattle.page.specs.Runs.{EndsPage, OrBreaksOff, PagesFrom, ShowsScript, WritesEnd};
ghost use Rattle.page.specs.Shown.{
  pages_of,
  report_text,
  Lists,
  Opens,
  RefusesFirst,
  shown_of,
  Shows,
  ShowsFirst,
  ShowsState,
  ShowsStep,
  ShowsTurn,
  WritesTree,
  first_summary,
};
ghost use Rattle.page.specs.States.{next_number, page_end, updates_after};
ghost use Rattle.page.specs.declared.sections.Outcome.TheVariants.{Begun, Refused};

use crate::head::write_head;
use crate::reported::{Reported, report_step};
use crate::sections::{
    Cause, Outcome, Summary, Titled, begin_state, cause_of, write_end, write_outcome,
};
use crate::stops::{Ending, end_told, ending_of};
use crate::tally::Tally;
use accesskit_consumer::{StateRef, UpdateError};
use atree_script::{Played, Player, Program, Stop, Streams, end_run, play};
use html::write_bytes;
use page_states::{Fault, Kept, Marks, write_state};
use session::{Command, Query, Session};
use std::alloc::Global;
use std::collections::BTreeMap;
use std::io::{BufRead, Write};

/// The program that writes a page of a script. It has no arguments.
pub(crate) struct Page;

impl Program for Page {
    /// Runs a script to its end, or until something stops it, and writes a page of the states of its tree: one for each
    /// update, and one for each change of the host's focus once there is a tree. Returns the exit status as `atree`
    /// does: 0 at the end of the input; 2 for a bad line, which is reported on `errors` with what is wrong in it; 3 for an error of the
    /// input or an output; 4 if memory runs out while a line is read or a state is written, which is reported on
    /// `errors` too. Unless an output has an error, the page is completed in each case and says why it ended, and of a state
    /// for which memory runs out it shows nothing. Where an output has an error, what is written is a beginning of the
    /// page. Each refused update is reported on `errors` too, by its line and its number among the updates. If memory runs out in an
    /// update, the update is refused and the script goes on.
    fn run<R: BufRead, O: Write, E: Write>(&self, streams: &mut Streams<R, O, E>) -> u8
        ensures bound { result ≤ 4 }
        ensures not_one { result ≢ 1 }
        ensures shows { ShowsScript (R.remaining streams.old.input) (O.contents streams.old.output)
            (O.contents streams.new.output) (E.contents streams.old.errors) (E.contents streams.new.errors) result }
    {
        let output = &mut streams.output;
        let errors = &mut streams.errors;
        match write_head(output) {
            Ok(()) => show_script(streams.alloc, &mut streams.input, output, errors),
            Err(_) => end_run(Err(Stop::WriteFault), 0, output, errors),
        }
    }
}

/// Runs a script, and writes its page after the head. Returns the exit status.
fn show_script<R: BufRead, O: Write, E: Write>(
    alloc: Global,
    input: &mut R,
    output: &mut O,
    errors: &mut E,
) -> u8
    ensures bound { result ≤ 4 }
    ensures not_one { result ≢ 1 }
    ensures shows { PagesFrom (R.remaining input.old) (O.contents output.old) (O.contents output.new)
        (E.contents errors.old) (E.contents errors.new) result }
{
    let mut pager = Pager {
        alloc,
        output: &mut *output,
        errors: &mut *errors,
        updates: 0,
        states: Vec::new(alloc),
        kept: BTreeMap::new(alloc),
    };
    let played = play_shown(alloc, input, &mut pager);
    let Pager {
        alloc: _,
        output: written,
        errors: reported,
        updates: _,
        states,
        kept,
    } = pager;
    drop(kept);
    // These do nothing. The proof reads from them what the outputs have.
    let _ = &*written;
    let _ = &*reported;
    let ending = ending_of(alloc, &played);
    let ended = end_page(&states, &ending, output);
    end_told(ended, &ending, output, errors)
}

/// Plays a script, and writes its states.
fn play_shown<R: BufRead, O: Write, E: Write>(
    alloc: Global,
    input: &mut R,
    pager: &mut Pager<'_, '_, O, E>,
) -> Played
    ensures output { pager.new.output.ghost_name ≡ pager.old.output.ghost_name }
    ensures errors { pager.new.errors.ghost_name ≡ pager.old.errors.ghost_name }
    ensures plays { let a = pager.old in let b = pager.new in
        let before = shown_of a.updates a.states.items a.kept (O.contents a.output.now) (E.contents a.errors.now) in
        let after = shown_of b.updates b.states.items b.kept (O.contents b.output.now) (E.contents b.errors.now) in
        PlaysOut Shows (R.remaining input.old) before result after }
{
    play(alloc, input, pager)
}

/// Ends the page unless an output had an error, and returns how the run ended.
fn end_page<O: Write>(states: &[Titled], ending: &Ending, output: &mut O) -> Result<(), Stop>
    ensures { EndsPage states.now ending.now result (O.contents output.old) (O.contents output.new) }
{
    end_by(ending.ended, states, ending, output)
}

/// Ends the page of a script that ended so, unless an output had an error.
fn end_by<O: Write>(
    ended: Result<(), Stop>,
    states: &[Titled],
    ending: &Ending,
    output: &mut O,
) -> Result<(), Stop>
    ensures { let text = page_end states.now ending.now.ended ending.now.line ending.now.message.items in
        WritesEnd ended text result (O.contents output.old) (O.contents output.new) }
{
    match ended {
        Ok(()) => write_whole_end(Ok(()), states, ending, output),
        Err(Stop::BadLine) => write_whole_end(Err(Stop::BadLine), states, ending, output),
        Err(Stop::ReadFault) => write_whole_end(Err(Stop::ReadFault), states, ending, output),
        Err(Stop::Memory) => write_whole_end(Err(Stop::Memory), states, ending, output),
        Err(Stop::WriteFault) => Err(Stop::WriteFault),
    }
}

/// Writes the end of the page of a script that ended so. If the output has an error, a beginning of the end is written.
fn write_whole_end<O: Write>(
    ended: Result<(), Stop>,
    states: &[Titled],
    ending: &Ending,
    output: &mut O,
) -> Result<(), Stop>
    ensures { let text = page_end states.now ending.now.ended ending.now.line ending.now.message.items in
        OrBreaksOff ended text result (O.contents output.old) (O.contents output.new) }
{
    match write_end(states, ending, output) {
        Ok(()) => ended,
        Err(_) => Err(Stop::WriteFault),
    }
}

/// A page while it is written.
#[derive(Drop)]
struct Pager<'a, 'b, O, E> {
    alloc: Global,
    output: &'a mut O,
    errors: &'b mut E,
    /// The number of updates sent so far.
    updates: u64,
    /// The title and a summary of each state so far.
    states: Vec<Titled>,
    /// What is shown of each node of the last state.
    kept: Kept,
}

impl<'a, 'b, O: Write, E: Write> Player for Pager<'a, 'b, O, E> {
    ghost turns = { λ s turn result t. (t.output.ghost_name ≡ s.output.ghost_name) × (t.errors.ghost_name ≡ s.errors.ghost_name)
        × Shows (shown_of s.updates s.states.items s.kept (O.contents s.output.now) (E.contents s.errors.now)) turn result
        (shown_of t.updates t.states.items t.kept (O.contents t.output.now) (E.contents t.errors.now)) };

    /// Shows the first state, which has no events.
    fn begin(&mut self, comment: &[u8], session: &Session) -> Result<(), Stop> {
        self.begin_tree(comment, session.tree().state().view())
    }

    /// Shows and reports why the update is refused, also if memory ran out.
    fn refuse(&mut self, comment: &[u8], line: u64, refusal: UpdateError) -> Result<(), Stop> {
        self.refuse_first(comment, line, refusal)
    }

    /// Shows the state that the command makes, and reports a refusal. Setting the host's focus to its current value makes none.
    fn run(
        &mut self,
        comment: &[u8],
        line: u64,
        session: &mut Session,
        command: Command,
    ) -> Result<(), Stop> {
        let is_host_focused = session.tree().state().is_host_focused();
        match cause_of(&command, is_host_focused, self.updates) {
            Some(cause) => self.take_turn(comment, line, cause, session, command),
            None => Ok(()),
        }
    }

    /// A page shows no answers.
    fn ask(&mut self, _session: &mut Option<Session>, _query: Query) -> Result<(), Stop> {
        Ok(())
    }

    /// A page shows each state anyway.
    fn print(&mut self, _session: &Option<Session>) -> Result<(), Stop> {
        Ok(())
    }
}

impl<'a, 'b, O: Write, E: Write> Pager<'a, 'b, O, E> {
    /// Shows the first state of the tree.
    fn begin_tree(&mut self, title: &[u8], state: StateRef) -> Result<(), Stop>
        ensures output { self.new.output.ghost_name ≡ self.old.output.ghost_name }
        ensures errors { self.new.errors.ghost_name ≡ self.old.errors.ghost_name }
        ensures shows { let a = self.old in let b = self.new in
            let before = shown_of a.updates a.states.items a.kept (O.contents a.output.now) (E.contents a.errors.now) in
            let after = shown_of b.updates b.states.items b.kept (O.contents b.output.now) (E.contents b.errors.now) in
            ShowsFirst title.now (first_summary a.updates Begun) (world_of state.entry) before result after }
    {
        match self.draw_begun(title, state) {
            Ok(text) => write_text(&text, self.output),
            Err(_) => Err(Stop::Memory),
        }
    }

    /// Shows and reports that a first update is refused, which ends on this line.
    fn refuse_first(&mut self, title: &[u8], line: u64, refusal: UpdateError) -> Result<(), Stop>
        ensures output { self.new.output.ghost_name ≡ self.old.output.ghost_name }
        ensures errors { self.new.errors.ghost_name ≡ self.old.errors.ghost_name }
        ensures shows { let a = self.old in let b = self.new in
            let before = shown_of a.updates a.states.items a.kept (O.contents a.output.now) (E.contents a.errors.now) in
            let after = shown_of b.updates b.states.items b.kept (O.contents b.output.now) (E.contents b.errors.now) in
            RefusesFirst title.now line (first_summary a.updates (Refused refusal)) before result after }
    {
        let it = first_summary(self.updates, Outcome::Refused(refusal));
        let refused = Summary {
            cause: it.cause,
            outcome: it.outcome,
            tally: it.tally,
        };
        match self.draw_quiet(title, refused) {
            Ok(text) => {
                write_reported(&text, line, it.cause, it.outcome, self.output, self.errors)
            }
            Err(_) => Err(Stop::Memory),
        }
    }

    /// Runs a command, which ends on this line, shows its events and its state, and reports a refusal.
    fn take_turn(
        &mut self,
        title: &[u8],
        line: u64,
        cause: Cause,
        session: &mut Session,
        command: Command,
    ) -> Result<(), Stop>
        ensures output { self.new.output.ghost_name ≡ self.old.output.ghost_name }
        ensures errors { self.new.errors.ghost_name ≡ self.old.errors.ghost_name }
        ensures shows { let a = self.old in let b = self.new in
            let before = shown_of a.updates a.states.items a.kept (O.contents a.output.now) (E.contents a.errors.now) in
            let after = shown_of b.updates b.states.items b.kept (O.contents b.output.now) (E.contents b.errors.now) in
            ShowsTurn title.now line cause before session.old command session.new result after }
    {
        match self.draw_step(title, cause, session, command) {
            Ok(it) => {
                write_reported(&it.text, line, cause, it.outcome, self.output, self.errors)
            }
            Err(_) => Err(Stop::Memory),
        }
    }

    /// The number of the next state, counted from 1.
    fn next_number(&self) -> u64
        ensures { result ≡ next_number self.now.states.items }
    {
        (self.states.len() as u64).saturating_add(1)
    }

    /// Draws the first state of the tree, in memory. An error says that memory ran out.
    fn draw_begun(&mut self, title: &[u8], state: StateRef) -> Result<Vec<u8>, Fault>
        ensures output { self.new.output ≡ self.old.output }
        ensures errors { self.new.errors ≡ self.old.errors }
        ensures shows { let before = pages_of self.old.updates self.old.states.items self.old.kept (Some []) in
            IfOk result (λ text. let after = pages_of self.new.updates self.new.states.items self.new.kept (Some text.items) in
            ShowsState title.now (first_summary self.old.updates Begun) (world_of state.entry) before after) }
        ensures kept { OnErr result (self.new.states.items ≡ self.old.states.items) }
    {
        let number = self.next_number();
        let it = first_summary(self.updates, Outcome::Begun);
        let marks = Marks::new(self.alloc);
        let mut text = Vec::new(self.alloc);
        begin_state(number, title, it.cause, &mut text)?;
        write_outcome(number, it.outcome, &mut text)?;
        write_tree(
            self.alloc,
            number,
            Outcome::Begun,
            state,
            &marks,
            &mut self.kept,
            &mut text,
        )?;
        self.list(title, it)?;
        Ok(text)
    }

    /// Draws a state without events and without a tree. An error says that memory ran out.
    fn draw_quiet(&mut self, title: &[u8], it: Summary) -> Result<Vec<u8>, Fault>
        ensures output { self.new.output ≡ self.old.output }
        ensures errors { self.new.errors ≡ self.old.errors }
        ensures opens { let before = pages_of self.old.updates self.old.states.items self.old.kept (Some []) in
            IfOk result (λ text. let after = pages_of self.new.updates self.new.states.items self.new.kept (Some text.items) in
            Opens title.now it before after) }
        ensures kept { OnErr result (self.new.states.items ≡ self.old.states.items) }
    {
        let number = self.next_number();
        let mut text = Vec::new(self.alloc);
        begin_state(number, title, it.cause, &mut text)?;
        write_outcome(number, it.outcome, &mut text)?;
        self.list(title, it)?;
        Ok(text)
    }

    /// Runs a command, and draws its events and its state. An error says that memory ran out.
    fn draw_step(
        &mut self,
        title: &[u8],
        cause: Cause,
        session: &mut Session,
        command: Command,
    ) -> Result<Drawn, Fault>
        ensures output { self.new.output ≡ self.old.output }
        ensures errors { self.new.errors ≡ self.old.errors }
        ensures shows { let before = pages_of self.old.updates self.old.states.items self.old.kept (Some []) in
            IfOk result (λ it. let after = pages_of self.new.updates self.new.states.items self.new.kept (Some it.text.items) in
            ShowsStep title.now cause it.outcome before session.old command session.new after) }
        ensures kept { OnErr result (self.new.states.items ≡ self.old.states.items) }
    {
        let number = self.next_number();
        let mut text = Vec::new(self.alloc);
        begin_state(number, title, cause, &mut text)?;
        let it = report_step(self.alloc, number, session, command, &mut text)?;
        write_outcome(number, it.outcome, &mut text)?;
        let state = session.tree().state().view();
        write_tree(
            self.alloc,
            number,
            it.outcome,
            state,
            &it.marks,
            &mut self.kept,
            &mut text,
        )?;
        self.list(
            title,
            Summary {
                cause,
                outcome: it.outcome,
                tally: it.tally,
            },
        )?;
        Ok(Drawn {
            outcome: it.outcome,
            text,
        })
    }

    /// Keeps the title and the summary of a state for the list of all. If memory runs out, the list stays as it was.
    fn list(&mut self, title: &[u8], it: Summary) -> Result<(), Fault>
        ensures output { self.new.output ≡ self.old.output }
        ensures errors { self.new.errors ≡ self.old.errors }
        ensures shown { self.new.kept ≡ self.old.kept }
        ensures updates { OnOk result (self.new.updates ≡ updates_after it.cause self.old.updates) }
        ensures listed { OnOk result (Lists title.now it self.old.states.items self.new.states.items) }
        ensures kept { OnErr result (self.new.states.items ≡ self.old.states.items) }
    {
        self.states.push(Titled {
            title: Vec::from_slice(self.alloc, title)?,
            summary: it,
        })?;
        self.updates = updates_after(it.cause, self.updates);
        Ok(())
    }
}

/// A state that is drawn, and what came of it.
#[derive(Drop)]
struct Drawn {
    outcome: Outcome,
    text: Vec<u8>,
}

/// Writes the text of a state. If the output has an error, a beginning of it is written.
fn write_text<O: Write>(text: &[u8], output: &mut O) -> Result<(), Stop>
    ensures written { OnOk result (Appends (O.contents output.old) (O.contents output.new) text.now) }
    ensures cut { IfErr result (λ stop. (stop ≡ WriteFault)
        × AppendsBeginning (O.contents output.old) (O.contents output.new) text.now) }
{
    match write_bytes(text, output) {
        Ok(()) => Ok(()),
        Err(_) => Err(Stop::WriteFault),
    }
}

/// Writes the text of a state, and reports what came of it, unless the output has an error.
fn write_reported<O: Write, E: Write>(
    text: &[u8],
    line: u64,
    cause: Cause,
    outcome: Outcome,
    output: &mut O,
    errors: &mut E,
) -> Result<(), Stop>
    ensures written { OnOk result (Appends (O.contents output.old) (O.contents output.new) text.now
        × Appends (E.contents errors.old) (E.contents errors.new) (report_text line cause outcome)) }
    ensures cut { IfErr result (λ stop. (stop ≡ WriteFault)
        × ((AppendsBeginning (O.contents output.old) (O.contents output.new) text.now × (E.contents errors.new ≡ E.contents errors.old))
        ⊎ Appends (O.contents output.old) (O.contents output.new) text.now)) }
{
    match write_text(text, output) {
        Ok(()) => report_outcome(line, cause, outcome, errors),
        Err(stop) => Err(stop),
    }
}

/// Reports what came of a state: of a refused update the line that ends it, its number among the updates, and why it is refused.
fn report_outcome<E: Write>(
    line: u64,
    cause: Cause,
    outcome: Outcome,
    errors: &mut E,
) -> Result<(), Stop>
    ensures { Writes (report_text line cause outcome) (Ok tt) result (E.contents errors.old) (E.contents errors.new) }
{
    match (cause, outcome) {
        (Cause::Update(number), Outcome::Refused(refusal)) => {
            writeln!(errors, "line {line}, update {number}: {refusal}")?;
            Ok(())
        }
        _ => Ok(()),
    }
}

/// The number of updates after a state with this cause.
fn updates_after(cause: Cause, updates: u64) -> u64
    ensures { result ≡ updates_after cause updates }
{
    match cause {
        Cause::Update(number) => number,
        Cause::HostOn | Cause::HostOff => updates,
    }
}

/// The summary of the state of a first update, after so many updates.
fn first_summary(updates: u64, outcome: Outcome) -> Summary
    ensures { result ≡ first_summary updates outcome }
{
    Summary {
        cause: Cause::Update(updates.saturating_add(1)),
        outcome,
        tally: Tally::none(),
    }
}

/// Writes the tree of a state, where it has begun or changed.
fn write_tree<O: Write>(
    alloc: Global,
    number: u64,
    outcome: Outcome,
    state: StateRef,
    marks: &Marks,
    kept: &mut Kept,
    output: &mut O,
) -> Result<(), Fault>
    ensures { OnOk result (WritesTree number (world_of state.entry) marks.now outcome
        (kept.old, O.contents output.old) (kept.new, O.contents output.new)) }
{
    match outcome {
        Outcome::Begun | Outcome::Changed => {
            write_state(alloc, number, state, marks, kept, output)
        }
        Outcome::Same | Outcome::Refused(_) => Ok(()),
    }
}
