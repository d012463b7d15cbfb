//! Writing each event of an update as it is reported.
ghost use Rattle.std.specs.Prelude.{◌≡◌, ◌++◌, codes, List, None, IfNone, IfOk, Ok, OnOk};
ghost use Rattle.std.specs.Io.KnownBytes.{Appends};
ghost use Rattle.model.specs.Events.{Event, NodeAdded, NodeUpdated, FocusMoved, NodeRemoved, Told};
ghost use Rattle.session.specs.Replied.{IsStep};
ghost use Rattle.views.specs.Nodes.{seen_node, seen_through};
ghost use Rattle.page_states.specs.Found.{AreReady};
ghost use Rattle.page_states.specs.Named.{name_text, linked_text};
ghost use Rattle.page.specs.Reports.{item_begun, item_ended, list_begun, list_ended, new_focus, old_focus, report_of, Reports, ReportsRightly, ReportsStep, TellsUpdated};
ghost use Rattle.page_states.specs.Said.{arrow};

use crate::sections::{Outcome, outcome_of};
use crate::tally::Tally;
use accesskit_consumer::{NodeRef, TreeChangeHandler};
use html::write_element;
use page_states::{
    Fault, Found, Mark, Marks, View, view_if, view_of, write_differences, write_linked_name,
    write_name,
};
use session::{Command, Reply, Session};
use std::alloc::{AllocError, Global};
use std::io::{self, Write};

/// What came of a step.
#[derive(Drop)]
pub(crate) struct Reported {
    pub outcome: Outcome,
    pub tally: Tally,
    pub marks: Marks,
}

/// Runs a command, and writes its events as a list, if there are any.
pub(crate) fn report_step<O: Write>(
    alloc: Global,
    state: u64,
    session: &mut Session,
    command: Command,
    out: &mut O,
) -> Result<Reported, Fault>
    ensures { let before = O.contents out.old in let after = O.contents out.new in
        IfOk result (λ it. ReportsStep state session.old command session.new before it.outcome it.tally it.marks after) }
{
    let mut reporter = Reporter {
        alloc,
        state,
        out: &mut *out,
        tally: Tally::none(),
        marks: Marks::new(alloc),
        before: None,
        after: None,
        fault: None,
    };
    let reply = step_reported(session, command, &mut reporter);
    let Reporter {
        alloc: _,
        state: _,
        out: written,
        tally,
        marks,
        before,
        after,
        fault,
    } = reporter;
    drop(before);
    drop(after);
    // This does nothing. The proof reads from it what the output has.
    let _ = &*written;
    if let Some(fault) = fault {
        return Err(fault);
    }
    end_list(tally, out)?;
    let outcome = outcome_of(&reply?, tally);
    Ok(Reported {
        outcome,
        tally,
        marks,
    })
}

/// Runs a command, whose events are written until the first error.
fn step_reported<O: Write>(
    session: &mut Session,
    command: Command,
    reporter: &mut Reporter<'_, O>,
) -> Result<Reply, AllocError>
    ensures output { reporter.new.out.ghost_name ≡ reporter.old.out.ghost_name }
    ensures step { let before = report_of (O.contents reporter.old.out.now) reporter.old.tally reporter.old.marks in
        let after = report_of (O.contents reporter.new.out.now) reporter.new.tally reporter.new.marks in
        (events : List Event) × IsStep session.old command session.new events result
        × IfNone reporter.new.fault ((reporter.old.fault ≡ None)
        × (AreReady session.old session.new reporter.old.before reporter.old.after →
        Told (Reports reporter.old.state) before events after)) }
{
    session.step(command, reporter)
}

/// Ends the list of events, if there is one.
fn end_list<O: Write>(tally: Tally, out: &mut O) -> io::Result<()>
    ensures { OnOk result (Appends (O.contents out.old) (O.contents out.new) (list_ended tally)) }
{
    if tally.is_empty() {
        return Ok(());
    }
    out.write_all(b"</ol></details>\n")
}

/// Begins the list of events before the first one.
fn begin_list<O: Write>(tally: Tally, out: &mut O) -> io::Result<()>
    ensures { OnOk result (Appends (O.contents out.old) (O.contents out.new) (list_begun tally)) }
{
    if tally.is_empty() {
        return out.write_all(b"<details class=\"events\" open><summary>Events</summary><ol>\n");
    }
    Ok(())
}

/// Begins an event after those that are counted.
fn begin_item<O: Write>(tally: Tally, class: &str, event: &str, out: &mut O) -> io::Result<()>
    ensures { OnOk result (Appends (O.contents out.old) (O.contents out.new) (item_begun tally class.now event.now)) }
{
    begin_list(tally, out)?;
    out.write_all(b"<li>")?;
    write_element("em", class, event, out)?;
    out.write_all(b" ")
}

/// Writes that a node was added.
fn write_added<O: Write>(
    alloc: Global,
    state: u64,
    tally: Tally,
    view: View,
    out: &mut O,
) -> Result<(), Fault>
    ensures { let text = item_begun tally (codes "a") (codes "added") ++ linked_text state view.entry ++ item_ended in
        OnOk result (Appends (O.contents out.old) (O.contents out.new) text) }
{
    begin_item(tally, "a", "added", out)?;
    write_linked_name(alloc, state, view, out)?;
    out.write_all(b"</li>\n")?;
    Ok(())
}

/// Writes that a node was updated, and how.
fn write_updated<O: Write>(
    alloc: Global,
    state: u64,
    tally: Tally,
    old: View,
    new: View,
    out: &mut O,
) -> Result<(), Fault>
    ensures { OnOk result (TellsUpdated state tally old.entry new.entry (O.contents out.old) (O.contents out.new)) }
{
    begin_item(tally, "u", "updated", out)?;
    write_linked_name(alloc, state, new, out)?;
    write_differences(alloc, old, new, out)?;
    out.write_all(b"</li>\n")?;
    Ok(())
}

/// Writes the old and the new focus.
fn write_focus<O: Write>(
    alloc: Global,
    state: u64,
    tally: Tally,
    old: Option<View>,
    new: Option<View>,
    out: &mut O,
) -> Result<(), Fault>
    ensures { let text = item_begun tally (codes "f") (codes "focus") ++ old_focus old.entry ++ arrow
        ++ new_focus state new.entry ++ item_ended in
        OnOk result (Appends (O.contents out.old) (O.contents out.new) text) }
{
    begin_item(tally, "f", "focus", out)?;
    write_old_focus(alloc, old, out)?;
    out.write_all(" → ".as_bytes())?;
    write_new_focus(alloc, state, new, out)?;
    out.write_all(b"</li>\n")?;
    Ok(())
}

/// Writes which node had the focus.
fn write_old_focus<O: Write>(alloc: Global, old: Option<View>, out: &mut O) -> Result<(), Fault>
    ensures { OnOk result (Appends (O.contents out.old) (O.contents out.new) (old_focus old.entry)) }
{
    match old {
        Some(view) => write_name(alloc, view, out),
        None => {
            out.write_all(b"<i>none</i>")?;
            Ok(())
        }
    }
}

/// Writes which node has the focus, with a link to where the state shows it.
fn write_new_focus<O: Write>(
    alloc: Global,
    state: u64,
    new: Option<View>,
    out: &mut O,
) -> Result<(), Fault>
    ensures { OnOk result (Appends (O.contents out.old) (O.contents out.new) (new_focus state new.entry)) }
{
    match new {
        Some(view) => write_linked_name(alloc, state, view, out),
        None => {
            out.write_all(b"<i>none</i>")?;
            Ok(())
        }
    }
}

/// Writes that a node was removed.
fn write_removed<O: Write>(
    alloc: Global,
    tally: Tally,
    view: View,
    out: &mut O,
) -> Result<(), Fault>
    ensures { let text = item_begun tally (codes "r") (codes "removed") ++ name_text view.entry ++ item_ended in
        OnOk result (Appends (O.contents out.old) (O.contents out.new) text) }
{
    begin_item(tally, "r", "removed", out)?;
    write_name(alloc, view, out)?;
    out.write_all(b"</li>\n")?;
    Ok(())
}

/// Writes each event as a list item, until the first error, and keeps which nodes were added and updated.
#[derive(Drop)]
struct Reporter<'a, O> {
    alloc: Global,
    /// The number of the state that the update makes.
    state: u64,
    out: &'a mut O,
    tally: Tally,
    marks: Marks,
    /// What was found out about the nodes of the state before, if anything.
    before: Option<Found>,
    /// And about those of the state after.
    after: Option<Found>,
    fault: Option<Fault>,
}

impl<'a, O: Write> Reporter<'a, O> {
    /// Writes that a node was added, and keeps it.
    fn tell_added(&mut self, node: &NodeRef) -> Result<(), Fault>
        ensures output { self.new.out.ghost_name ≡ self.old.out.ghost_name }
        ensures kept { (self.new.state ≡ self.old.state) × (self.new.fault ≡ self.old.fault) }
        ensures told { let before = report_of (O.contents self.old.out.now) self.old.tally self.old.marks in
            let after = report_of (O.contents self.new.out.now) self.new.tally self.new.marks in
            let event = NodeAdded (seen_node node.now) in
            OnOk result
            (ReportsRightly self.old.state before (self.old.before, self.old.after) event after (self.new.before, self.new.after)) }
    {
        let view = view_of(self.alloc, &mut self.after, node)?;
        write_added(self.alloc, self.state, self.tally, view, self.out)?;
        self.tally.added = self.tally.added.saturating_add(1);
        self.marks.insert(node.id(), Mark::Added)?;
        Ok(())
    }

    /// Writes that a node was updated, and how, and keeps it.
    fn tell_updated(&mut self, old: &NodeRef, new: &NodeRef) -> Result<(), Fault>
        ensures output { self.new.out.ghost_name ≡ self.old.out.ghost_name }
        ensures kept { (self.new.state ≡ self.old.state) × (self.new.fault ≡ self.old.fault) }
        ensures told { let before = report_of (O.contents self.old.out.now) self.old.tally self.old.marks in
            let after = report_of (O.contents self.new.out.now) self.new.tally self.new.marks in
            let event = NodeUpdated (seen_node old.now) (seen_node new.now) in
            OnOk result
            (ReportsRightly self.old.state before (self.old.before, self.old.after) event after (self.new.before, self.new.after)) }
    {
        let earlier = view_of(self.alloc, &mut self.before, old)?;
        let later = view_of(self.alloc, &mut self.after, new)?;
        write_updated(self.alloc, self.state, self.tally, earlier, later, self.out)?;
        self.tally.updated = self.tally.updated.saturating_add(1);
        self.marks.insert(new.id(), Mark::Updated)?;
        Ok(())
    }

    /// Writes the old and the new focus.
    fn tell_focus(&mut self, old: Option<&NodeRef>, new: Option<&NodeRef>) -> Result<(), Fault>
        ensures output { self.new.out.ghost_name ≡ self.old.out.ghost_name }
        ensures kept { (self.new.state ≡ self.old.state) × (self.new.fault ≡ self.old.fault) }
        ensures told { let before = report_of (O.contents self.old.out.now) self.old.tally self.old.marks in
            let after = report_of (O.contents self.new.out.now) self.new.tally self.new.marks in
            let event = FocusMoved (seen_through old.entry) (seen_through new.entry) in
            OnOk result
            (ReportsRightly self.old.state before (self.old.before, self.old.after) event after (self.new.before, self.new.after)) }
    {
        let earlier = view_if(self.alloc, &mut self.before, old)?;
        let later = view_if(self.alloc, &mut self.after, new)?;
        write_focus(self.alloc, self.state, self.tally, earlier, later, self.out)?;
        self.tally.moved = self.tally.moved.saturating_add(1);
        Ok(())
    }

    /// Writes that a node was removed.
    fn tell_removed(&mut self, node: &NodeRef) -> Result<(), Fault>
        ensures output { self.new.out.ghost_name ≡ self.old.out.ghost_name }
        ensures kept { (self.new.state ≡ self.old.state) × (self.new.fault ≡ self.old.fault) }
        ensures told { let before = report_of (O.contents self.old.out.now) self.old.tally self.old.marks in
            let after = report_of (O.contents self.new.out.now) self.new.tally self.new.marks in
            let event = NodeRemoved (seen_node node.now) in
            OnOk result
            (ReportsRightly self.old.state before (self.old.before, self.old.after) event after (self.new.before, self.new.after)) }
    {
        let view = view_of(self.alloc, &mut self.before, node)?;
        write_removed(self.alloc, self.tally, view, self.out)?;
        self.tally.removed = self.tally.removed.saturating_add(1);
        Ok(())
    }
}

impl<'a, O: Write> TreeChangeHandler for Reporter<'a, O> {
    ghost steps = { λ s e t. (t.out.ghost_name ≡ s.out.ghost_name) × (t.state ≡ s.state)
        × IfNone t.fault ((s.fault ≡ None)
        × (let before = report_of (O.contents s.out.now) s.tally s.marks in
        let after = report_of (O.contents t.out.now) t.tally t.marks in
        ReportsRightly s.state before (s.before, s.after) e after (t.before, t.after))) };

    fn node_added(&mut self, node: &NodeRef) {
        if self.fault.is_none() {
            self.fault = self.tell_added(node).err();
        }
    }

    fn node_updated(&mut self, old_node: &NodeRef, new_node: &NodeRef) {
        if self.fault.is_none() {
            self.fault = self.tell_updated(old_node, new_node).err();
        }
    }

    fn focus_moved(&mut self, old_node: Option<&NodeRef>, new_node: Option<&NodeRef>) {
        if self.fault.is_none() {
            self.fault = self.tell_focus(old_node, new_node).err();
        }
    }

    fn node_removed(&mut self, node: &NodeRef) {
        if self.fault.is_none() {
            self.fault = self.tell_removed(node).err();
        }
    }
}
