//! The decision, from what the passes found: its changes, and its events in order.
ghost use Rattle.std.specs.Prelude.{◌≡◌, ◌++◌, [], List, map, IfOk, IfErr, OnOk, IsTrue, ◌↔◌, Some, None, option_to_list, if◌then◌else◌};
ghost use Rattle.std.specs.List.{flat_map};
ghost use Rattle.values_by_id.specs.Rows.{Ascends};
ghost use Rattle.schema.specs.UpdateData.{update_data};
ghost use Rattle.model.specs.declared.FullNodeId.{FullNodeId};
ghost use Rattle.model.specs.declared.events.PlanEvent.{PlanEvent};
ghost use Rattle.tree_changes.specs.declared.error.UpdateError.TheVariants.{Memory};
ghost use Rattle.tree_plan.specs.declared.verdicts.Verdict.{Verdict};
ghost use Rattle.tree_plan.specs.Passes.{at, IsFocusing};
ghost use Rattle.tree_plan.specs.Writing.{change_of, change_entry, group_of, told_of, untold_updates, IsMove, event_in, event_of, AreEvents, AreEventsOf, AreTrees, IsSmall, own_record};
ghost use Rattle.model.specs.Differences.{told_root};
ghost use Rattle.model.specs.Work.{Work, IsWorkOf};
ghost use Rattle.tree_changes.specs.Changes.{overlaid_world};
ghost use Rattle.tree_changes.specs.Decisions.{IsDecision};
ghost use Rattle.tree_plan.specs.Verdicts.{Transition, IsFound};

use crate::passes::{Focused, Opened};
use crate::verdicts::{Found, Verdict};
use crate::walking::Walked;
use model::{FullNodeId, PlanEvent};
use schema::TreeUpdate;
use std::alloc::Global;
use tree_changes::{Decision, NodeChange, TreeRecord, UpdateError};
use values_by_id::SortedRows;

/// The groups in which nodes are reported.
#[derive(Clone, Copy, PartialEq, Eq)]
pub(crate) enum Group {
    Added,
    Updated,
    Removed,
}

impl Verdict {
    /// The change of the node's record, if there is one.
    #[inline(always)]
    pub(crate) fn change(self) -> Option<NodeChange>
        ensures { result ≡ change_of self }
    {
        match self {
            Verdict::Added { place, entry } => Some(NodeChange::Put {
                place,
                entry: Some(entry),
            }),
            Verdict::Renewed { place, entry } => Some(NodeChange::Put {
                place,
                entry: Some(entry),
            }),
            Verdict::Moved { place } => Some(NodeChange::Put { place, entry: None }),
            Verdict::Told => None,
            Verdict::Removed => Some(NodeChange::Gone),
        }
    }

    #[inline(always)]
    pub(crate) fn group(self) -> Group
        ensures { result ≡ group_of self }
    {
        match self {
            Verdict::Added { .. } => Group::Added,
            Verdict::Renewed { .. } => Group::Updated,
            Verdict::Moved { .. } => Group::Updated,
            Verdict::Told => Group::Updated,
            Verdict::Removed => Group::Removed,
        }
    }
}

/// The event of a node, if it belongs to the group.
fn event(own: Group, told: Group, id: FullNodeId) -> Option<PlanEvent>
    ensures { option_to_list result ≡ event_in own told id }
{
    match (own, told) {
        (Group::Added, Group::Added) => Some(PlanEvent::Added(id)),
        (Group::Updated, Group::Updated) => Some(PlanEvent::Updated(id)),
        (Group::Removed, Group::Removed) => Some(PlanEvent::Removed(id)),
        _ => None,
    }
}

/// The change of a node, with its id.
fn entry_change(id: FullNodeId, verdict: Verdict) -> Option<(FullNodeId, NodeChange)>
    ensures { option_to_list result ≡ change_entry (id, verdict) }
{
    let change = verdict.change()?;
    Some((id, change))
}

/// The changes of nodes, ids ascending.
fn node_changes(
    alloc: Global,
    verdicts: &SortedRows<Verdict>,
) -> Result<Vec<(FullNodeId, NodeChange)>, UpdateError>
    ensures ok { IfOk result (λ changes. changes.items ≡ flat_map change_entry verdicts.now) }
    ensures ordered { OnOk result (Ascends verdicts.now) }
    ensures err { IfErr result (λ e. e ≡ Memory) }
{
    let mut changes = Vec::with_capacity(alloc, verdicts.len())?;
    for (id, verdict) in verdicts.entries() {
        if let Some(change) = entry_change(*id, *verdict) {
            changes.push(change)?;
        }
    }
    Ok(changes)
}

/// Adds the events of a group, ids ascending.
fn push_group(
    verdicts: &SortedRows<Verdict>,
    told: Group,
    events: &mut Vec<PlanEvent>,
) -> Result<(), UpdateError>
    ensures ok { OnOk result (events.new.items ≡ events.old.items ++ flat_map (told_of told) verdicts.now) }
    ensures err { IfErr result (λ e. e ≡ Memory) }
{
    for (id, verdict) in verdicts.entries() {
        if let Some(event) = event(verdict.group(), told, *id) {
            events.push(event)?;
        }
    }
    Ok(())
}

/// Adds that a focused node is updated, unless it is reported anyway.
fn push_untold<V: Copy + Drop>(
    verdicts: &SortedRows<V>,
    focus: Option<FullNodeId>,
    events: &mut Vec<PlanEvent>,
) -> Result<(), UpdateError>
    ensures ok { OnOk result (events.new.items ≡ events.old.items ++ untold_updates (at verdicts.now) focus) }
    ensures err { IfErr result (λ e. e ≡ Memory) }
{
    if let Some(id) = focus {
        if !verdicts.contains_key(&id) {
            events.push(PlanEvent::Updated(id))?;
        }
    }
    Ok(())
}

/// Adds the events of a moved focus.
fn push_move<V: Copy + Drop>(
    verdicts: &SortedRows<V>,
    before: Option<FullNodeId>,
    after: Option<FullNodeId>,
    events: &mut Vec<PlanEvent>,
) -> Result<(), UpdateError>
    ensures ok { OnOk result ((more : List PlanEvent) × (events.new.items ≡ events.old.items ++ more)
        × IsMove (at verdicts.now) before after more) }
    ensures err { IfErr result (λ e. e ≡ Memory) }
{
    if before == after {
        return Ok(());
    }
    push_untold(verdicts, before, events)?;
    push_untold(verdicts, after, events)?;
    events.push(PlanEvent::FocusMoved(before, after))?;
    Ok(())
}

/// The events, in order. The first update has no events.
fn told_events(
    alloc: Global,
    is_first: bool,
    verdicts: &SortedRows<Verdict>,
    focused: &Focused,
) -> Result<Vec<PlanEvent>, UpdateError>
    ensures quiet { IfOk result (λ events. IsTrue is_first → events.items ≡ []) }
    ensures told { IfOk result (λ events. ¬ (IsTrue is_first) → AreEvents verdicts.now focused.now events.items) }
    ensures err { IfErr result (λ e. e ≡ Memory) }
{
    if is_first {
        return Ok(Vec::new(alloc));
    }
    // one for each verdict, and up to three for a focus that moved
    let mut events = Vec::with_capacity(alloc, verdicts.len().saturating_add(3))?;
    push_group(verdicts, Group::Added, &mut events)?;
    push_group(verdicts, Group::Updated, &mut events)?;
    push_move(verdicts, focused.before, focused.after, &mut events)?;
    push_group(verdicts, Group::Removed, &mut events)?;
    Ok(events)
}

/// The event of a node in a group.
#[inline(always)]
fn event_of(group: Group, id: FullNodeId) -> PlanEvent
    ensures { result ≡ event_of group id }
{
    match group {
        Group::Added => PlanEvent::Added(id),
        Group::Updated => PlanEvent::Updated(id),
        Group::Removed => PlanEvent::Removed(id),
    }
}

/// Adds the events of nodes in a group.
#[inline(always)]
fn push_each(
    ids: &[FullNodeId],
    group: Group,
    events: &mut Vec<PlanEvent>,
) -> Result<(), UpdateError>
    ensures ok { OnOk result (events.new.items ≡ events.old.items ++ map (event_of group) ids.now) }
    ensures err { IfErr result (λ e. e ≡ Memory) }
{
    for id in ids {
        events.push(event_of(group, *id))?;
    }
    Ok(())
}

/// The events of a walk, in order. The first update has no events.
fn walked_events(
    alloc: Global,
    is_first: bool,
    walked: &Walked,
    focused: &Focused,
) -> Result<Vec<PlanEvent>, UpdateError>
    ensures quiet { IfOk result (λ events. IsTrue is_first → events.items ≡ []) }
    ensures told { IfOk result (λ events. ¬ (IsTrue is_first) → AreEventsOf walked.now focused.now events.items) }
    ensures err { IfErr result (λ e. e ≡ Memory) }
{
    if is_first {
        return Ok(Vec::new(alloc));
    }
    // one for each change, and up to three for a focus that moved
    let mut events = Vec::with_capacity(alloc, walked.nodes.len().saturating_add(3))?;
    push_each(&walked.added, Group::Added, &mut events)?;
    push_each(&walked.updated, Group::Updated, &mut events)?;
    push_move(&walked.nodes, focused.before, focused.after, &mut events)?;
    push_each(&walked.removed, Group::Removed, &mut events)?;
    Ok(events)
}

/// The record of the named tree afterwards.
fn own_record(opened: &Opened, update: &TreeUpdate) -> TreeRecord
    ensures { result ≡ own_record update.now.tree_id update.now.focus opened.now }
{
    TreeRecord {
        id: update.tree_id,
        index: Some(opened.index),
        graft: opened.record.graft,
        root: Some(opened.root),
        focus: Some(update.focus),
    }
}

/// Whether two records are equal.
fn is_same_record(a: &TreeRecord, b: &TreeRecord) -> bool
    ensures { IsTrue result ↔ (a.now ≡ b.now) }
{
    a.index == b.index
        && a.graft == b.graft
        && a.root == b.root
        && a.focus == b.focus
        && a.id == b.id
}

/// The records of trees afterwards, as far as they differ from before.
fn tree_changes(
    alloc: Global,
    found: &Found,
    own: TreeRecord,
) -> Result<Vec<TreeRecord>, UpdateError>
    ensures ok { IfOk result (λ trees. AreTrees found.now own trees.items) }
    ensures err { IfErr result (λ e. e ≡ Memory) }
{
    let mut trees = Vec::new(alloc);
    trees.extend_from_slice(&found.removed.trees)?;
    trees.extend_from_slice(&found.regrafted.trees)?;
    if !is_same_record(&own, &found.opened.record) {
        trees.push(own)?;
    }
    Ok(trees)
}

/// The root that is reported even if it is unchanged: the one in the tree info of another tree than the root tree.
pub(crate) fn told_root(index: u32, update: &TreeUpdate) -> Option<FullNodeId>
    ensures { result ≡ told_root index (update_data update.now).info }
{
    let info = update.tree.as_ref()?;
    if index == 0 {
        return None;
    }
    Some(FullNodeId {
        tree: index,
        node: info.root,
    })
}

/// The decision on an accepted update. `looked` is the number of records looked up for it. The results of the passes
/// are freed before the changes are listed.
pub(crate) fn write(
    alloc: Global,
    update: &TreeUpdate,
    found: Found,
    focused: &Focused,
    looked: u128,
) -> Result<Decision, UpdateError>
    ghost step: { Transition }
    requires update { step.update ≡ update_data update.now }
    requires found { IsFound step found }
    requires focusing { IsFocusing step.old step.update focused.now }
    ensures ok { IfOk result (IsDecision step.old step.update) }
    ensures new { IfOk result (λ d. overlaid_world step.old step.update d ≡ step.new) }
    ensures looked { IfOk result (λ d. d.looked ≡ looked) }
    ensures small { IfOk result (λ d.
        (work : Work) → IsWorkOf step.old step.update step.new work → IsSmall found.compared found.removed found.regrafted d work) }
    ensures err { IfErr result (λ e. e ≡ Memory) }
{
    let own = own_record(&found.opened, update);
    let trees = tree_changes(alloc, &found, own)?;
    let is_first = found.opened.is_first;
    let walk = found.walked(alloc)?;
    if let Some(walked) = walk {
        drop(found);
        let told = walked_events(alloc, is_first, &walked, focused)?;
        let changes = walked.nodes.into_entries();
        return Ok(Decision {
            nodes: changes,
            trees,
            events: told,
            focus: focused.effective,
            looked,
        });
    }
    let verdicts = found.verdicts(alloc)?;
    drop(found);
    let nodes = node_changes(alloc, &verdicts)?;
    let events = told_events(alloc, is_first, &verdicts, focused)?;
    Ok(Decision {
        nodes,
        trees,
        events,
        focus: focused.effective,
        looked,
    })
}
