//! Notifies a handler of an update's events.
ghost use Rattle.std.specs.Prelude.{◌≡◌, All, IfSome, option_map};
ghost use Rattle.model.specs.World.{IsNode};
ghost use Rattle.model.specs.Events.{Told};
ghost use Rattle.model.specs.Differences.{event, events};
ghost use Rattle.trees.specs.Telling.{IsTellable};
ghost use Rattle.views.specs.Nodes.{world_at, id_at, IsView};
ghost use Rattle.views.specs.ShownWorlds.{world_of};

use crate::TreeChangeHandler;
use model::{FullNodeId, PlanEvent};
use views::{NodeRef, StateRef};

/// The view of a node that is there.
#[tactic(auto, using(crate::proofs::Seen::is_there, crate::proofs::Seen::is_seen))]
fn node(state: StateRef<'_>, id: FullNodeId) -> NodeRef<'_>
    requires { IsNode (world_of state) id }
    ensures { IsView (world_of state.entry) id result }
{
    state.node_by_id(id).unwrap()
}

/// The view of a node that is there, whose change is looked for at `near` first.
#[tactic(auto, using(crate::proofs::Seen::is_there, crate::proofs::Seen::is_seen))]
fn node_near<'a>(state: StateRef<'a>, id: FullNodeId, near: &mut usize) -> NodeRef<'a>
    requires { IsNode (world_of state) id }
    ensures { IsView (world_of state.entry) id result }
{
    state.node_near(id, near).unwrap()
}

/// The view of the node that is named, if there is one.
fn optional_node(state: StateRef<'_>, id: Option<FullNodeId>) -> Option<NodeRef<'_>>
    requires { IfSome id (IsNode (world_of state)) }
    ensures world { IfSome result (λ node. world_at node ≡ world_of state.entry) }
    ensures node { option_map id_at result ≡ id }
{
    let id = id?;
    Some(node(state, id))
}

/// Reports one event: its old nodes are views of the old state, its new ones of the new state. A new node's change is
/// looked for at `near` first.
pub(crate) fn tell<H: TreeChangeHandler>(
    old: StateRef,
    new: StateRef,
    told: PlanEvent,
    handler: &mut H,
    near: &mut usize,
)
    requires { IsTellable (world_of old) (world_of new) told }
    ensures { H.steps handler.old (event (world_of old.entry) (world_of new.entry) told) handler.new }
{
    match told {
        PlanEvent::Added(id) => handler.node_added(&node_near(new, id, near)),
        PlanEvent::Updated(id) => {
            handler.node_updated(&node(old, id), &node_near(new, id, near))
        }
        PlanEvent::FocusMoved(before, after) => {
            let before = optional_node(old, before);
            let after = optional_node(new, after);
            handler.focus_moved(before.as_ref(), after.as_ref());
        }
        PlanEvent::Removed(id) => handler.node_removed(&node(old, id)),
    }
}

/// Reports the events in order.
pub(crate) fn tell_all<H: TreeChangeHandler>(
    old: StateRef,
    new: StateRef,
    differences: &[PlanEvent],
    handler: &mut H,
)
    requires { All (IsTellable (world_of old) (world_of new)) differences.now }
    ensures { let before = world_of old.entry in
        let after = world_of new.entry in
        Told H.steps handler.old (events before after differences.now) handler.new }
{
    let mut near = 0;
    for event in differences {
        tell(old, new, *event, handler, &mut near);
    }
}
