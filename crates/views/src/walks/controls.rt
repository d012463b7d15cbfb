//! The nodes that a node controls. The walk does not allocate.
ghost use Rattle.std.specs.Prelude.{◌≡◌, ◌<◌, [], length, map, IfSome, MatchOption};
ghost use Rattle.model.specs.Views.{controls as controls_of};
ghost use Rattle.views.specs.Nodes.{world_at, id_at};
ghost use Rattle.views.specs.ShownWorlds.{world_of};
ghost use Rattle.views.specs.PlainWalks.{node_in, node_of};
ghost use Rattle.views.specs.Controlled.{named_nodes, joined_at};

use crate::StateRef;
use crate::node::NodeRef;
use model::FullNodeId;
use schema::NodeId;
use std::iter::FusedIterator;

/// A walk over the nodes of a tree that a list names, in order, skipping those that aren't in the state.
#[derive(Drop)]
pub struct Controls<'a> {
    state: StateRef<'a>,
    tree: u32,
    ids: &'a [NodeId],
}

impl<'a> Controls<'a> {
    ghost use Rattle.views.specs.Controlled.{controls_left};

    pub(crate) fn new(node: NodeRef<'a>) -> Controls<'a>
        ensures { let w = world_at node.entry in
            controls_left result ≡ map (node_in w) (controls_of w (id_at node.entry)) }
    {
        Controls::over(node, node.node.controls())
    }

    /// The nodes that the list names in the tree of a node.
    pub(crate) fn over(node: NodeRef<'a>, ids: &'a [NodeId]) -> Controls<'a>
        ensures { let w = world_at node.entry in
            controls_left result ≡ named_nodes w (id_at node.entry).tree ids.entry.now }
    {
        Controls {
            state: node.state,
            tree: node.id.tree,
            ids,
        }
    }
}

impl<'a> Iterator for Controls<'a> {
    ghost use Rattle.std.specs.Iterator.{YieldsFirstBy, at_most};
    ghost use Rattle.views.specs.Controlled.{controls_left};

    type Item = NodeRef<'a>;

    ghost next_gives = { YieldsFirstBy node_of controls_left };

    ghost remaining = { λ s. at_most (length s.ids.now) };

    fn next(&mut self) -> Option<NodeRef<'a>> {
        let (found, rest) = end_named(self.state, self.tree, self.ids, false);
        self.ids = rest;
        found
    }
}

impl<'a> DoubleEndedIterator for Controls<'a> {
    ghost use Rattle.std.specs.Iterator.{YieldsLastBy};
    ghost use Rattle.views.specs.Controlled.{controls_left};

    ghost next_back_gives = { YieldsLastBy node_of controls_left };

    fn next_back(&mut self) -> Option<NodeRef<'a>> {
        let (found, rest) = end_named(self.state, self.tree, self.ids, true);
        self.ids = rest;
        found
    }
}

impl FusedIterator for Controls<'_> {}

/// Splits off the first of the ids, or the last.
fn split_end(ids: &[NodeId], from_back: bool) -> Option<(NodeId, &[NodeId])>
    ensures { MatchOption result (ids.entry.now ≡ []) (λ r. ids.entry.now ≡ joined_at from_back r.0 r.1.now) }
{
    if from_back {
        let (node, rest) = ids.split_last()?;
        return Some((*node, rest));
    }
    let (node, rest) = ids.split_first()?;
    Some((*node, rest))
}

/// The first or the last of these nodes that is in the state, and the rest beyond it.
fn end_named<'a>(
    state: StateRef<'a>,
    tree: u32,
    start: &'a [NodeId],
    from_back: bool,
) -> (Option<NodeRef<'a>>, &'a [NodeId])
    ensures fewer { IfSome result.0 (λ _. length result.1.now < length start.entry.now) }
    ensures steps { let w = world_of state.entry in
        let all = named_nodes w tree start.entry.now in
        let left = named_nodes w tree result.1.now in
        MatchOption result.0 ((all ≡ []) × (left ≡ []))
        (λ n. all ≡ joined_at from_back (node_of n) left) }
{
    let mut ids = start;
    while let Some((node, rest)) = split_end(ids, from_back) {
        if let Some(found) = state.node_by_id(FullNodeId { tree, node }) {
            return (Some(found), rest);
        }
        ids = rest;
    }
    (None, ids)
}
