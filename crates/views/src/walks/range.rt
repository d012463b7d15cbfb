//! A range of a node's children.
ghost use Rattle.std.specs.Prelude.{◌≤◌, length};
ghost use Rattle.model.specs.World.{children};
ghost use Rattle.views.specs.ShownWorlds.{world_of};
ghost use Rattle.views.specs.Spots.{IsMember, IsMember-prop};

use crate::StateRef;
use crate::node::NodeRef;
use crate::walks::spot::Member;
use model::FullNodeId;

/// The children of a node from the index `front` to before the index `back`.
#[derive(Clone, Copy)]
pub(crate) struct ChildRange<'a> {
    state: StateRef<'a>,
    parent: Member<'a>,
    front: usize,
    back: usize,
    ghost known: { IsMember (world_of state) parent } by { IsMember-prop (world_of state) parent },
    ghost ordered: { front ≤ back },
    ghost within: { back ≤ length (children (world_of state) parent.id) },
}

impl<'a> ChildRange<'a> {
    ghost use Rattle.std.specs.Prelude.{◌≡◌, [], reverse, IfSome};
    ghost use Rattle.std.specs.Iterator.{YieldsFirst, YieldsLast, YieldsFirstBy, YieldsLastBy};
    ghost use Rattle.model.specs.World.{IsNode};
    ghost use Rattle.model.specs.Lists.{following_siblings, preceding_siblings};
    ghost use Rattle.views.specs.Nodes.{world_at, id_at};
    ghost use Rattle.views.specs.PlainWalks.{node_of, range_world, range_left, range_nodes};

    /// All children of a node.
    #[inline(always)]
    pub(crate) fn all(node: NodeRef<'a>) -> ChildRange<'a>
        ensures world { range_world result ≡ world_at node.entry }
        ensures all { range_left result ≡ children (world_at node.entry) (id_at node.entry) }
    {
        let parent = node.member();
        ChildRange {
            state: node.state,
            parent,
            front: 0,
            back: node.state.child_count(parent),
        }
    }

    /// No child of a node.
    fn empty(node: NodeRef<'a>) -> ChildRange<'a>
        ensures world { range_world result ≡ world_at node.entry }
        ensures empty { range_left result ≡ [] }
    {
        let parent = node.member();
        ChildRange {
            state: node.state,
            parent,
            front: 0,
            back: 0,
        }
    }

    /// The siblings after a node.
    pub(crate) fn after(node: NodeRef<'a>) -> ChildRange<'a>
        ensures world { range_world result ≡ world_at node.entry }
        ensures siblings { let w = world_at node.entry in
            range_left result ≡ following_siblings w (id_at node.entry) }
    {
        let member = node.member();
        match node.state.spot(member) {
            Some(spot) => ChildRange {
                state: node.state,
                parent: spot.parent,
                front: spot.index + 1,
                back: node.state.child_count(spot.parent),
            },
            None => ChildRange::empty(node),
        }
    }

    /// The siblings before a node, the farthest first.
    pub(crate) fn before(node: NodeRef<'a>) -> ChildRange<'a>
        ensures world { range_world result ≡ world_at node.entry }
        ensures siblings { let w = world_at node.entry in
            reverse (range_left result) ≡ preceding_siblings w (id_at node.entry) }
    {
        let member = node.member();
        match node.state.spot(member) {
            Some(spot) => ChildRange {
                state: node.state,
                parent: spot.parent,
                front: 0,
                back: spot.index,
            },
            None => ChildRange::empty(node),
        }
    }

    /// The number of children left.
    pub(crate) fn count(&self) -> usize
        ensures { result ≡ length (range_left self.now) }
    {
        self.back - self.front
    }

    /// Takes the first child that is left.
    #[inline(always)]
    pub(crate) fn take_first(&mut self) -> Option<FullNodeId>
        ensures steps { YieldsFirst range_left self.old result self.new }
        ensures world { range_world self.new ≡ range_world self.old }
        ensures node { IfSome result (IsNode (range_world self.old)) }
    {
        self.state.know();
        if self.front == self.back {
            return None;
        }
        let child = self.state.child_id(self.parent, self.front).unwrap();
        self.front += 1;
        Some(child)
    }

    /// Takes the last child that is left.
    #[inline(always)]
    pub(crate) fn take_last(&mut self) -> Option<FullNodeId>
        ensures steps { YieldsLast range_left self.old result self.new }
        ensures world { range_world self.new ≡ range_world self.old }
        ensures node { IfSome result (IsNode (range_world self.old)) }
    {
        self.state.know();
        if self.front == self.back {
            return None;
        }
        let child = self.state.child_id(self.parent, self.back - 1).unwrap();
        self.back -= 1;
        Some(child)
    }

    /// Takes the first child that is left, as a view.
    #[inline(always)]
    pub(crate) fn take_first_node(&mut self) -> Option<NodeRef<'a>>
        ensures { YieldsFirstBy node_of range_nodes self.old result self.new }
    {
        let state = self.state;
        let id = self.take_first()?;
        Some(state.node(id))
    }

    /// Takes the last child that is left, as a view.
    #[inline(always)]
    pub(crate) fn take_last_node(&mut self) -> Option<NodeRef<'a>>
        ensures { YieldsLastBy node_of range_nodes self.old result self.new }
    {
        let state = self.state;
        let id = self.take_last()?;
        Some(state.node(id))
    }
}
