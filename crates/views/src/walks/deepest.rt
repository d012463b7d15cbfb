//! The ways down to the deepest node: by first or last children, or by the first or last nodes that a filter shows.
ghost use Rattle.std.specs.Prelude.{◌≡◌, ◌<◌, ⊤, Option, IfSome, option_map};
ghost use Rattle.std.specs.Fn.{FnReturnsAt};
ghost use Rattle.model.specs.declared.FullNodeId.{FullNodeId};
ghost use Rattle.model.specs.declared.filters.FilterResult.{FilterResult};
ghost use Rattle.model.specs.Lists.{first_child, last_child, deepest_first_child as deepest_first, deepest_last_child as deepest_last};
ghost use Rattle.views.specs.Nodes.{world_at, id_at};
ghost use Rattle.views.specs.Follows.{Follows};
ghost use Rattle.views.specs.Deepest.{IsDeepest, LeadsByFilter, first_shown, last_shown};

use crate::StateRef;
use crate::node::NodeRef;
use crate::walks::filter::{ByRef, Filter};
use crate::walks::searches::{next_shown, previous_shown};
use crate::walks::spot::{Member, Spot};
use model::filters::FilterResult;

/// A way down: from a node to one below it.
trait WayDown {
    ghost use Rattle.model.specs.World.{World};
    ghost use Rattle.model.specs.Paths.{depth};
    ghost use Rattle.views.specs.ShownWorlds.{world_of};
    ghost use Rattle.views.specs.Spots.{IsMember, IsSpot};

    /// The condition under which the way may be taken.
    ghost can_lead: { Self → Type 0 };

    /// Relates a way, a world, and each function that says where the way leads from a node.
    ghost leads: { Self → World → (FullNodeId → Option FullNodeId) → Type 0 };

    /// The node to which the way leads, if it goes on.
    fn below<'a>(&self, state: StateRef<'a>, node: Member<'a>) -> Option<Spot<'a>>
        requires can { can_lead self.now }
        requires known { IsMember (world_of state) node }
        ensures there { IfSome result (IsSpot (world_of state.entry)) }
        ensures deeper { let w = world_of state.entry in
            IfSome result (λ r. depth w node.entry.id < depth w r.member.id) }
        ensures exact { let w = world_of state.entry in
            (step : FullNodeId → Option FullNodeId) → leads self.now w step →
            option_map (λ r. r.member.id) result ≡ step node.entry.id };
}

/// The way to the first child.
#[derive(Drop)]
struct FirstChild;

impl WayDown for FirstChild {
    ghost can_lead = { λ _. ⊤ };

    ghost leads = { λ _ w step. step ≡ first_child w };

    fn below<'a>(&self, state: StateRef<'a>, node: Member<'a>) -> Option<Spot<'a>> {
        state.know();
        state.child(node, 0)
    }
}

/// The way to the last child.
#[derive(Drop)]
struct LastChild;

impl WayDown for LastChild {
    ghost can_lead = { λ _. ⊤ };

    ghost leads = { λ _ w step. step ≡ last_child w };

    fn below<'a>(&self, state: StateRef<'a>, node: Member<'a>) -> Option<Spot<'a>> {
        state.know();
        let count = state.child_count(node);
        if count == 0 {
            return None;
        }
        state.child(node, count - 1)
    }
}

/// The way to the first node that a filter shows.
#[derive(Clone, Copy)]
struct FirstShown<'f, F> {
    filter: &'f F,
}

impl<F: Filter> WayDown for FirstShown<'_, F> {
    ghost can_lead = { λ s. F.can_answer s.filter.now };

    ghost leads = { λ s. LeadsByFilter (F.answers s.filter.now) first_shown };

    fn below<'a>(&self, state: StateRef<'a>, node: Member<'a>) -> Option<Spot<'a>> {
        state.know();
        next_shown(state, node.id, node, 0, self.filter)
    }
}

/// The way to the last node that a filter shows.
#[derive(Clone, Copy)]
struct LastShown<'f, F> {
    filter: &'f F,
}

impl<F: Filter> WayDown for LastShown<'_, F> {
    ghost can_lead = { λ s. F.can_answer s.filter.now };

    ghost leads = { λ s. LeadsByFilter (F.answers s.filter.now) last_shown };

    fn below<'a>(&self, state: StateRef<'a>, node: Member<'a>) -> Option<Spot<'a>> {
        state.know();
        let count = state.child_count(node);
        previous_shown(state, node.id, node, count, self.filter)
    }
}

/// The last node to which a way leads, if it leads on from this one.
fn deepest<'a, W: WayDown>(node: NodeRef<'a>, way: &W) -> Option<NodeRef<'a>>
    requires { W.can_lead way.now }
    ensures world { IfSome result (λ n. world_at n ≡ world_at node.entry) }
    ensures exact { (step : FullNodeId → Option FullNodeId) → W.leads way.now (world_at node.entry) step →
        IsDeepest step (id_at node.entry) (option_map id_at result) }
{
    let state = node.state;
    let Some(first) = way.below(state, node.member()) else {
        return None;
    };
    let mut deepest = first.member;
    while let Some(next) = way.below(state, deepest) {
        deepest = next.member;
    }
    Some(state.view(deepest))
}

impl<'a> NodeRef<'a> {
    /// The first child, its first child, and so on to a node without children. Returns `None` if this node has no
    /// children.
    pub fn deepest_first_child(self) -> Option<NodeRef<'a>>
        ensures world { IfSome result (λ n. world_at n ≡ world_at self.entry) }
        ensures node { let w = world_at self.entry in
            option_map id_at result ≡ deepest_first w (id_at self.entry) }
    {
        self.state.know();
        deepest(self, &FirstChild)
    }

    /// The last child, its last child, and so on to a node without children. Returns `None` if this node has no
    /// children.
    pub fn deepest_last_child(self) -> Option<NodeRef<'a>>
        ensures world { IfSome result (λ n. world_at n ≡ world_at self.entry) }
        ensures node { let w = world_at self.entry in
            option_map id_at result ≡ deepest_last w (id_at self.entry) }
    {
        self.state.know();
        deepest(self, &LastChild)
    }

    /// The first filtered child, its first filtered child, and so on to a node without filtered children.
    pub fn deepest_first_filtered_child<F: Fn(&NodeRef<'_>) -> FilterResult>(
        self,
        filter: &F,
    ) -> Option<NodeRef<'a>>
        requires { F.IsAlwaysCallable filter.now }
        ensures world { IfSome result (λ n. world_at n ≡ world_at self.entry) }
        ensures exact { let w = world_at self.entry in
            (f : FullNodeId → FilterResult) → Follows (FnReturnsAt F.Fn filter.now) w f →
            IsDeepest (first_shown f w) (id_at self.entry) (option_map id_at result) }
    {
        let filter = ByRef { f: filter };
        deepest(self, &FirstShown { filter: &filter })
    }

    /// The last filtered child, its last filtered child, and so on to a node without filtered children.
    pub fn deepest_last_filtered_child<F: Fn(&NodeRef<'_>) -> FilterResult>(
        self,
        filter: &F,
    ) -> Option<NodeRef<'a>>
        requires { F.IsAlwaysCallable filter.now }
        ensures world { IfSome result (λ n. world_at n ≡ world_at self.entry) }
        ensures exact { let w = world_at self.entry in
            (f : FullNodeId → FilterResult) → Follows (FnReturnsAt F.Fn filter.now) w f →
            IsDeepest (last_shown f w) (id_at self.entry) (option_map id_at result) }
    {
        let filter = ByRef { f: filter };
        deepest(self, &LastShown { filter: &filter })
    }
}
