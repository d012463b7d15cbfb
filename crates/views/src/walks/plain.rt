//! Walks over the children and the siblings of a node, from both ends. They do not allocate.
ghost use Rattle.std.specs.Prelude.{◌≡◌, map};
ghost use Rattle.std.specs.Iterator.{YieldsFirst, YieldsLast, YieldsFirstBy, YieldsLastBy, item_count};
ghost use Rattle.model.specs.World.{children as children_of};
ghost use Rattle.model.specs.Lists.{following_siblings, preceding_siblings};
ghost use Rattle.views.specs.Nodes.{world_at, id_at};
ghost use Rattle.views.specs.PlainWalks.{node_in, node_of, child_ids_left, following_ids_left, preceding_ids_left, children_left, following_left, preceding_left};

use crate::node::NodeRef;
use crate::walks::range::ChildRange;
use model::FullNodeId;
use std::iter::FusedIterator;

/// A walk over the ids of a node's children.
#[derive(Drop)]
pub struct ChildIds<'a> {
    range: ChildRange<'a>,
}

impl<'a> ChildIds<'a> {
    pub(crate) fn new(node: NodeRef<'a>) -> ChildIds<'a>
        ensures { child_ids_left result ≡ children_of (world_at node.entry) (id_at node.entry) }
    {
        ChildIds {
            range: ChildRange::all(node),
        }
    }
}

impl<'a> Iterator for ChildIds<'a> {
    type Item = FullNodeId;

    ghost next_gives = { YieldsFirst child_ids_left };

    ghost remaining = { item_count child_ids_left };

    fn next(&mut self) -> Option<FullNodeId> {
        self.range.take_first()
    }

    fn size_hint(&self) -> (usize, Option<usize>) {
        let left = self.range.count();
        (left, Some(left))
    }
}

impl<'a> DoubleEndedIterator for ChildIds<'a> {
    ghost next_back_gives = { YieldsLast child_ids_left };

    fn next_back(&mut self) -> Option<FullNodeId> {
        self.range.take_last()
    }
}

impl ExactSizeIterator for ChildIds<'_> {
    fn len(&self) -> usize {
        self.range.count()
    }
}

impl FusedIterator for ChildIds<'_> {}

/// A walk over the ids of the later siblings.
#[derive(Drop)]
pub struct FollowingSiblings<'a> {
    range: ChildRange<'a>,
}

impl<'a> FollowingSiblings<'a> {
    pub(crate) fn new(node: NodeRef<'a>) -> FollowingSiblings<'a>
        ensures { let w = world_at node.entry in
            following_ids_left result ≡ following_siblings w (id_at node.entry) }
    {
        FollowingSiblings {
            range: ChildRange::after(node),
        }
    }
}

impl<'a> Iterator for FollowingSiblings<'a> {
    type Item = FullNodeId;

    ghost next_gives = { YieldsFirst following_ids_left };

    ghost remaining = { item_count following_ids_left };

    fn next(&mut self) -> Option<FullNodeId> {
        self.range.take_first()
    }

    fn size_hint(&self) -> (usize, Option<usize>) {
        let left = self.range.count();
        (left, Some(left))
    }
}

impl<'a> DoubleEndedIterator for FollowingSiblings<'a> {
    ghost next_back_gives = { YieldsLast following_ids_left };

    fn next_back(&mut self) -> Option<FullNodeId> {
        self.range.take_last()
    }
}

impl ExactSizeIterator for FollowingSiblings<'_> {
    fn len(&self) -> usize {
        self.range.count()
    }
}

impl FusedIterator for FollowingSiblings<'_> {}

/// A walk over the ids of the earlier siblings, nearest first.
#[derive(Drop)]
pub struct PrecedingSiblings<'a> {
    range: ChildRange<'a>,
}

impl<'a> PrecedingSiblings<'a> {
    pub(crate) fn new(node: NodeRef<'a>) -> PrecedingSiblings<'a>
        ensures { let w = world_at node.entry in
            preceding_ids_left result ≡ preceding_siblings w (id_at node.entry) }
    {
        PrecedingSiblings {
            range: ChildRange::before(node),
        }
    }
}

impl<'a> Iterator for PrecedingSiblings<'a> {
    type Item = FullNodeId;

    ghost next_gives = { YieldsFirst preceding_ids_left };

    ghost remaining = { item_count preceding_ids_left };

    fn next(&mut self) -> Option<FullNodeId> {
        self.range.take_last()
    }

    fn size_hint(&self) -> (usize, Option<usize>) {
        let left = self.range.count();
        (left, Some(left))
    }
}

impl<'a> DoubleEndedIterator for PrecedingSiblings<'a> {
    ghost next_back_gives = { YieldsLast preceding_ids_left };

    fn next_back(&mut self) -> Option<FullNodeId> {
        self.range.take_first()
    }
}

impl ExactSizeIterator for PrecedingSiblings<'_> {
    fn len(&self) -> usize {
        self.range.count()
    }
}

impl FusedIterator for PrecedingSiblings<'_> {}

/// A walk over the children of a node.
#[derive(Drop)]
pub struct Children<'a> {
    range: ChildRange<'a>,
}

impl<'a> Children<'a> {
    #[inline(always)]
    pub(crate) fn new(node: NodeRef<'a>) -> Children<'a>
        ensures { let w = world_at node.entry in
            children_left result ≡ map (node_in w) (children_of w (id_at node.entry)) }
    {
        Children {
            range: ChildRange::all(node),
        }
    }
}

impl<'a> Iterator for Children<'a> {
    type Item = NodeRef<'a>;

    ghost next_gives = { YieldsFirstBy node_of children_left };

    ghost remaining = { item_count children_left };

    fn next(&mut self) -> Option<NodeRef<'a>> {
        self.range.take_first_node()
    }

    fn size_hint(&self) -> (usize, Option<usize>) {
        let left = self.range.count();
        (left, Some(left))
    }
}

impl<'a> DoubleEndedIterator for Children<'a> {
    ghost next_back_gives = { YieldsLastBy node_of children_left };

    fn next_back(&mut self) -> Option<NodeRef<'a>> {
        self.range.take_last_node()
    }
}

impl ExactSizeIterator for Children<'_> {
    fn len(&self) -> usize {
        self.range.count()
    }
}

impl FusedIterator for Children<'_> {}

/// A walk over the later siblings.
#[derive(Drop)]
pub struct FollowingSiblingNodes<'a> {
    range: ChildRange<'a>,
}

impl<'a> FollowingSiblingNodes<'a> {
    pub(crate) fn new(node: NodeRef<'a>) -> FollowingSiblingNodes<'a>
        ensures { let w = world_at node.entry in
            following_left result ≡ map (node_in w) (following_siblings w (id_at node.entry)) }
    {
        FollowingSiblingNodes {
            range: ChildRange::after(node),
        }
    }
}

impl<'a> Iterator for FollowingSiblingNodes<'a> {
    type Item = NodeRef<'a>;

    ghost next_gives = { YieldsFirstBy node_of following_left };

    ghost remaining = { item_count following_left };

    fn next(&mut self) -> Option<NodeRef<'a>> {
        self.range.take_first_node()
    }

    fn size_hint(&self) -> (usize, Option<usize>) {
        let left = self.range.count();
        (left, Some(left))
    }
}

impl<'a> DoubleEndedIterator for FollowingSiblingNodes<'a> {
    ghost next_back_gives = { YieldsLastBy node_of following_left };

    fn next_back(&mut self) -> Option<NodeRef<'a>> {
        self.range.take_last_node()
    }
}

impl ExactSizeIterator for FollowingSiblingNodes<'_> {
    fn len(&self) -> usize {
        self.range.count()
    }
}

impl FusedIterator for FollowingSiblingNodes<'_> {}

/// A walk over the earlier siblings, nearest first.
#[derive(Drop)]
pub struct PrecedingSiblingNodes<'a> {
    range: ChildRange<'a>,
}

impl<'a> PrecedingSiblingNodes<'a> {
    pub(crate) fn new(node: NodeRef<'a>) -> PrecedingSiblingNodes<'a>
        ensures { let w = world_at node.entry in
            preceding_left result ≡ map (node_in w) (preceding_siblings w (id_at node.entry)) }
    {
        PrecedingSiblingNodes {
            range: ChildRange::before(node),
        }
    }
}

impl<'a> Iterator for PrecedingSiblingNodes<'a> {
    type Item = NodeRef<'a>;

    ghost next_gives = { YieldsFirstBy node_of preceding_left };

    ghost remaining = { item_count preceding_left };

    fn next(&mut self) -> Option<NodeRef<'a>> {
        self.range.take_last_node()
    }

    fn size_hint(&self) -> (usize, Option<usize>) {
        let left = self.range.count();
        (left, Some(left))
    }
}

impl<'a> DoubleEndedIterator for PrecedingSiblingNodes<'a> {
    ghost next_back_gives = { YieldsLastBy node_of preceding_left };

    fn next_back(&mut self) -> Option<NodeRef<'a>> {
        self.range.take_first_node()
    }
}

impl ExactSizeIterator for PrecedingSiblingNodes<'_> {
    fn len(&self) -> usize {
        self.range.count()
    }
}

impl FusedIterator for PrecedingSiblingNodes<'_> {}
