//! Notifies a handler of a moved focus.
ghost use Rattle.std.specs.Prelude.{◌≡◌, ◌↔◌, ◌++◌, List, [], map, IfOk, IsTrue, OnOk};
ghost use Rattle.model.specs.declared.FullNodeId.{FullNodeId};
ghost use Rattle.model.specs.Events.{Told};
ghost use Rattle.model.specs.declared.events.PlanEvent.{PlanEvent};
ghost use Rattle.model.specs.declared.events.PlanEvent.TheVariants.{Updated};
ghost use Rattle.model.specs.Differences.{AreOfFocus, IsToldForFocus, events};
ghost use Rattle.views.specs.ShownWorlds.{world_of};

use crate::TreeChangeHandler;
use crate::telling::tell;
use model::{FullNodeId, PlanEvent};
use std::alloc::{AllocError, Global};
use views::StateRef;

/// Whether both are the same id, or both `None`.
fn is_same_focus(before: Option<FullNodeId>, after: Option<FullNodeId>) -> bool
    ensures { IsTrue result ↔ (before ≡ after) }
{
    before == after
}

/// Reports that the node was updated, if it is in both states.
fn tell_in_both<H: TreeChangeHandler>(
    old: StateRef,
    new: StateRef,
    id: Option<FullNodeId>,
    handler: &mut H,
)
    ensures { let before = world_of old.entry in
        let after = world_of new.entry in
        (ids : List FullNodeId) × IsToldForFocus before after [] id ids
        × Told H.steps handler.old (events before after (map Updated ids)) handler.new }
{
    let Some(id) = id else {
        return;
    };
    if !old.has_node(id) {
        return;
    }
    if new.has_node(id) {
        tell(old, new, PlanEvent::Updated(id), handler, &mut 0);
    }
}

/// Reports a change of the focus alone: if it differs, its old node and its new node were updated, and it moved.
pub(crate) fn tell_focus<H: TreeChangeHandler>(old: StateRef, new: StateRef, handler: &mut H)
    ensures { let before = world_of old.entry in
        let after = world_of new.entry in
        (differences : List PlanEvent) × AreOfFocus before after [] differences
        × Told H.steps handler.old (events before after differences) handler.new }
{
    let before = old.shown_focus();
    let after = new.shown_focus();
    if is_same_focus(before, after) {
        return;
    }
    tell_in_both(old, new, before, handler);
    tell_in_both(old, new, after, handler);
    let moved = PlanEvent::FocusMoved(before, after);
    tell(old, new, moved, handler, &mut 0);
}

/// Adds that the node was updated, if it is in both states.
fn add_in_both(
    events: &mut Vec<PlanEvent>,
    old: StateRef,
    new: StateRef,
    id: Option<FullNodeId>,
) -> Result<(), AllocError>
    ensures { let before = world_of old.entry in
        let after = world_of new.entry in
        OnOk result ((ids : List FullNodeId) × IsToldForFocus before after [] id ids
        × (events.new.items ≡ events.old.items ++ map Updated ids)) }
{
    let Some(id) = id else {
        return Ok(());
    };
    if !old.has_node(id) {
        return Ok(());
    }
    if new.has_node(id) {
        events.push(PlanEvent::Updated(id))?;
        return Ok(());
    }
    Ok(())
}

/// What [`tell_focus`] reports of two states, as a list.
pub(crate) fn focus_events(
    alloc: Global,
    old: StateRef,
    new: StateRef,
) -> Result<Vec<PlanEvent>, AllocError>
    ensures { IfOk result (λ events. AreOfFocus (world_of old.entry) (world_of new.entry) [] events.items) }
{
    let mut events = Vec::new(alloc);
    let before = old.shown_focus();
    let after = new.shown_focus();
    let is_same = is_same_focus(before, after);
    if is_same {
        return Ok(events);
    }
    add_in_both(&mut events, old, new, before)?;
    add_in_both(&mut events, old, new, after)?;
    events.push(PlanEvent::FocusMoved(before, after))?;
    Ok(events)
}
