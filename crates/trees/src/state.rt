//! A state, and how changes are applied to it.
ghost use Rattle.std.specs.Prelude.{◌≡◌, ◌<◌, ◌≤◌, ◌^◌, ◌*◌, ◌↔◌, List, [], length, IsTrue, Some, IfSome, IfOk, IfErr, OnOk, OnErr, option_copied, option_map};
ghost use Rattle.schema.specs.UpdateData.{update_data};
ghost use Rattle.model.specs.declared.events.PlanEvent.{PlanEvent};
ghost use Rattle.model.specs.World.{World, IsNode, root_of, root_named, local_id_of, toolkit_name, toolkit_version};
ghost use Rattle.model.specs.Focus.{IsEffectiveFocus, IsFocusId, IsFocus, IsActiveDialog};
ghost use Rattle.model.specs.State.{with_host};
ghost use Rattle.model.specs.Events.{Event, Told};
ghost use Rattle.model.specs.Differences.{AreOfFocus, events};
ghost use Rattle.model.specs.Run.{ToUpdate, Accepted, Does};
ghost use Rattle.tree_changes.specs.Changes.{overlaid_world};
ghost use Rattle.tree_changes.specs.Decisions.{IsDecision, IsWithinWork};
ghost use Rattle.tree_changes.specs.LookUps.{IsRaisedAtLeast, IsRaisedBy};
ghost use Rattle.tree_changes.specs.Refusals.{IsRefusal};
ghost use Rattle.trees.specs.Counts.{change_count, CountsEvents};
ghost use Rattle.trees.specs.Prepared.{IsPreparedFor, IsPreparedForHost};
ghost use Rattle.views.specs.ShownWorlds.{world_of};
ghost use Rattle.views.specs.Nodes.{world_at, id_at, ShowsThe};

use crate::refocusing::{focus_events, tell_focus};
use crate::telling::tell_all;
use crate::{Prepared, Steps, TreeChangeHandler};
use model::{FullNodeId, PlanEvent};
use schema::{NodeId, TreeId, TreeUpdate};
use std::alloc::{AllocError, Global};
use std::marker::Model;
use tree_changes::{Decision, LookUps, UpdateError};
use tree_plan::{Spare, decide_with};
use tree_store::{Overlay, Store, StoreLookUps};
use views::{Laid, NodeRef, StateRef};

/// The state of a tree: its nodes, the trees grafted into it, and its focus.
#[derive(Drop)]
pub struct TreeState {
    pub(crate) store: Store,
}

impl Model for TreeState {
    ghost use Rattle.model.specs.World.{World};
    ghost use Rattle.model.specs.Codes.{coded_world};

    ghost Value = { World };

    ghost coded = { coded_world };

    ghost view = { λ a. a.store.world };

    ghost use Rattle.tree_store.specs.StoreViews.{IsTight};

    ghost invariant = { λ a. IsTight a.store };
}

/// A view of the state, for calls that accept anything a view can be made from.
impl<'a> From<&'a TreeState> for StateRef<'a> {
    ghost from_gives = { λ state view. world_of view ≡ state.now };

    fn from(state: &'a TreeState) -> StateRef<'a> {
        state.view()
    }
}

impl TreeState {
    /// A view of the state.
    pub fn view(&self) -> StateRef<'_>
        ensures { world_of result ≡ self.now }
    {
        StateRef::new(&self.store)
    }

    /// Whether the node is in the state.
    pub fn has_node(&self, id: FullNodeId) -> bool
        ensures { IsTrue result ↔ IsNode self.now id }
    {
        self.view().has_node(id)
    }

    /// The node with this id, if it is in the state.
    pub fn node_by_id(&self, id: FullNodeId) -> Option<NodeRef<'_>>
        ensures { ShowsThe self.now (λ it. (it ≡ id) × IsNode self.now it) result }
    {
        self.view().node_by_id(id)
    }

    /// The node with this id within the tree with that id, if it is in the state.
    pub fn node_by_tree_local_id(&self, node: NodeId, tree: TreeId) -> Option<NodeRef<'_>>
        ensures { ShowsThe self.now (λ it. local_id_of self.now it ≡ Some (node, tree)) result }
    {
        self.view().node_by_tree_local_id(node, tree)
    }

    /// The id of the root tree's root.
    pub fn root_id(&self) -> FullNodeId
        ensures { root_of self.now 0 ≡ Some result }
    {
        self.view().root_id()
    }

    /// The root tree's root.
    pub fn root(&self) -> NodeRef<'_>
        ensures world { world_at result ≡ self.now }
        ensures node { root_of self.now 0 ≡ Some (id_at result) }
    {
        self.view().root()
    }

    /// The effective focus, whether or not the host is focused: the node that the root tree declares focused, or, if
    /// that is a graft, the node that the grafted tree declares focused, and so on.
    pub fn focus_id_in_tree(&self) -> FullNodeId
        ensures { IsEffectiveFocus self.now result }
    {
        self.view().focus_id_in_tree()
    }

    /// The effective focus, whether or not the host is focused.
    pub fn focus_in_tree(&self) -> NodeRef<'_>
        ensures world { world_at result ≡ self.now }
        ensures node { IsEffectiveFocus self.now (id_at result) }
    {
        self.view().focus_in_tree()
    }

    /// The effective focus while the host is focused.
    pub fn focus_id(&self) -> Option<FullNodeId>
        ensures { IsFocusId self.now result }
    {
        self.view().focus_id()
    }

    /// The focused node while the host is focused, `None` otherwise. It is the effective focus, or its active
    /// descendant if it has one in the same tree.
    pub fn focus(&self) -> Option<NodeRef<'_>>
        ensures world { IfSome result (λ node. world_at node ≡ self.now) }
        ensures node { IsFocus self.now (option_map id_at result) }
    {
        self.view().focus()
    }

    /// The active dialog: the nearest dialog among the focused node ([`TreeState::focus`]) and its ancestors.
    pub fn active_dialog(&self) -> Option<NodeRef<'_>>
        ensures world { IfSome result (λ node. world_at node ≡ self.now) }
        ensures node { IsActiveDialog self.now (option_map id_at result) }
    {
        self.view().active_dialog()
    }

    /// The root of the tree with this id, if it is present.
    pub fn subtree_root(&self, name: TreeId) -> Option<FullNodeId>
        ensures { result ≡ root_named self.now name }
    {
        self.view().subtree_root(name)
    }

    /// The toolkit's name; `AccessKit` if the tree doesn't have one.
    pub fn toolkit_name(&self) -> &str
        ensures { result.now ≡ toolkit_name self.now }
    {
        self.view().toolkit_name()
    }

    /// The toolkit's version, if the tree has both a name and a version.
    pub fn toolkit_version(&self) -> Option<&str>
        ensures { option_copied result ≡ toolkit_version self.now }
    {
        self.view().toolkit_version()
    }

    /// The id within its tree, and the id of the tree, of a node in the state.
    pub fn locate_node(&self, id: FullNodeId) -> Option<(NodeId, TreeId)>
        ensures { result ≡ local_id_of self.now id }
    {
        self.view().locate_node(id)
    }

    /// Whether the host is focused.
    pub fn is_host_focused(&self) -> bool
        ensures { result ≡ self.now.host_focused }
    {
        self.store.is_host_focused()
    }

    /// Decides on an update. Its look-ups are counted: as many as the decision records, at least one for each node of
    /// the update.
    pub(crate) fn decide(
        &self,
        alloc: Global,
        update: &TreeUpdate,
        steps: &mut Steps,
        spare: &mut Spare,
    ) -> Result<Decision, UpdateError>
        ensures err { IfErr result (λ e. IsRefusal self.now (update_data update.now) e) }
        ensures ok { IfOk result (IsDecision self.now (update_data update.now)) }
        ensures counted { IfOk result (λ decision. IsRaisedBy steps.old decision.looked steps.new) }
        ensures named { let u = update_data update.now in
            IfOk result (λ decision. IsRaisedAtLeast 0 (length u.nodes) decision.looked) }
        ensures work { let u = update_data update.now in
            IfOk result (λ decision. IsWithinWork self.now u decision 0 decision.looked) }
        ensures kept { steps.old ≤ steps.new }
    {
        let mut look_ups = StoreLookUps::new(&self.store, 0);
        let decided = decide_with(alloc, &mut look_ups, update, spare);
        steps.add(look_ups.count());
        decided
    }

    /// Carries out a decision on an update: memory for the changes is reserved, the changes are laid over the state,
    /// the handler is notified, and the changes are written. Nothing is allocated once the handler has been called. Two
    /// records are looked up for each event and each change.
    pub(crate) fn apply<H: TreeChangeHandler>(
        &mut self,
        update: TreeUpdate,
        decision: Decision,
        handler: &mut H,
        steps: &mut Steps,
        spare: &mut Spare,
    ) -> Result<(), AllocError>
        requires { IsDecision self.old (update_data update) decision }
        ensures state { let u = update_data update in
            OnOk result (self.new ≡ overlaid_world self.old u decision) }
        ensures does { OnOk result ((told : List Event)
            × Does self.old (ToUpdate (update_data update)) self.new told Accepted
            × Told H.steps handler.old told handler.new) }
        ensures steps { OnOk result (IsRaisedBy steps.old (2 * change_count decision) steps.new) }
        ensures counted { let u = update_data update in
            OnOk result (CountsEvents self.old u self.new steps.old steps.new) }
        ensures kept { steps.old ≤ steps.new }
        ensures err { OnErr result ((self.new ≡ self.old) × (handler.new ≡ handler.old)) }
    {
        self.store.reserve(&update, &decision)?;
        let overlay = Overlay {
            update: &update,
            decision: &decision,
        };
        let laid = Laid::over(&self.store, overlay);
        let old = StateRef::new(&self.store);
        let new = StateRef::of_laid(&laid);
        old.know();
        tell_all(old, new, decision.events.as_slice(), handler);
        steps.add(2 * change_count(&decision));
        self.store.commit(update, &decision);
        spare.keep(decision);
        Ok(())
    }

    /// Reserves what an update needs on which it was decided; the state is unchanged if memory runs out.
    pub(crate) fn prepare(
        self,
        alloc: Global,
        update: TreeUpdate,
        decision: Decision,
        spare: Spare,
    ) -> Result<Prepared, TreeState>
        requires { IsDecision self (update_data update) decision }
        ensures ok { IfOk result (λ p. IsPreparedFor self (update_data update) p
            × (p.after ≡ overlaid_world self (update_data update) decision)) }
        ensures err { IfErr result (λ state. state ≡ self) }
    {
        let TreeState { mut store } = self;
        store.know();
        match store.reserve(&update, &decision) {
            Ok(()) => Ok(Prepared::for_update(alloc, store, update, decision, spare)),
            Err(_) => Err(TreeState { store }),
        }
    }

    /// Prepares a focus of the host; the state is unchanged if memory for its events runs out.
    pub(crate) fn prepare_host_focus(
        self,
        alloc: Global,
        is_host_focused: bool,
        spare: Spare,
    ) -> Result<Prepared, TreeState>
        ensures ok { IfOk result (IsPreparedForHost self is_host_focused) }
        ensures err { IfErr result (λ state. state ≡ self) }
    {
        let Ok(events) = self.host_focus_events(alloc, is_host_focused) else {
            return Err(self);
        };
        let TreeState { store } = self;
        Ok(Prepared::for_host_focus(alloc, store, is_host_focused, events, spare))
    }

    /// The events of a focus of the host.
    fn host_focus_events(
        &self,
        alloc: Global,
        is_host_focused: bool,
    ) -> Result<Vec<PlanEvent>, AllocError>
        ensures { IfOk result (λ events. AreOfFocus self.now (with_host self.now is_host_focused) [] events.items) }
    {
        let next = Laid::with_host_focused(&self.store, is_host_focused);
        let old = StateRef::new(&self.store);
        focus_events(alloc, old, StateRef::of_laid(&next))
    }

    /// Sets whether the host is focused, and notifies the handler if that changes the focus.
    pub(crate) fn refocus<H: TreeChangeHandler>(&mut self, is_host_focused: bool, handler: &mut H)
        ensures state { self.new ≡ with_host self.old is_host_focused }
        ensures told { (differences : List PlanEvent) × AreOfFocus self.old self.new [] differences
            × Told H.steps handler.old (events self.old self.new differences) handler.new }
    {
        let laid = Laid::with_host_focused(&self.store, is_host_focused);
        let old = StateRef::new(&self.store);
        tell_focus(old, StateRef::of_laid(&laid), handler);
        self.store.set_host_focused(is_host_focused);
    }
}

/// The number of events and changes.
fn change_count(decision: &Decision) -> u128
    ensures is { result ≡ change_count decision.now }
    ensures fits { result < 2 ^ 66 }
{
    decision.events.len() as u128 + decision.nodes.len() as u128 + decision.trees.len() as u128
}
