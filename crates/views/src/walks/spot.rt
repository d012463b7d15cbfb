//! Nodes at their places, and steps from place to place.
ghost use Rattle.std.specs.Prelude.{◌≡◌, ◌+◌, ◌<◌, ◌^◌, Some, IfSome, length, map, slice_get, option_map};
ghost use Rattle.model.specs.World.{IsNode, in_tree, children, child_at};
ghost use Rattle.model.specs.Forest.{place_of};
ghost use Rattle.views.specs.ShownWorlds.{world_of};
ghost use Rattle.views.specs.Nodes.{world_at, id_at};
ghost use Rattle.views.specs.Spots.{IsMember, IsSpot, place_at, grafted};

use crate::StateRef;
use crate::node::NodeRef;
use model::{FullNodeId, Place};
use schema::Node;

/// A node without its state.
#[derive(Clone, Copy)]
pub struct Member<'a> {
    pub id: FullNodeId,
    pub node: &'a Node,
    pub place: &'a Option<Place>,
}

/// A node, its parent, and its index among the parent's children.
#[derive(Clone, Copy)]
pub struct Spot<'a> {
    pub parent: Member<'a>,
    pub index: usize,
    pub member: Member<'a>,
}

impl<'a> StateRef<'a> {
    /// A node that is in the state.
    #[inline(always)]
    pub(crate) fn member(self, id: FullNodeId) -> Member<'a>
        requires { IsNode (world_of self) id }
        ensures is { result.id ≡ id }
        ensures known { IsMember (world_of self.entry) result }
    {
        let kept = self.kept_of(id);
        Member {
            id,
            node: kept.node,
            place: kept.place,
        }
    }

    /// The view of a node.
    pub(crate) fn view(self, member: Member<'a>) -> NodeRef<'a>
        requires { IsMember (world_of self) member }
        ensures world { world_at result ≡ world_of self.entry }
        ensures id { id_at result ≡ member.entry.id }
    {
        NodeRef {
            state: self,
            id: member.id,
            node: member.node,
            place: member.place,
        }
    }

    /// The number of children of a node. A graft's only child is the root of its tree, if that is present.
    pub(crate) fn child_count(self, parent: Member<'a>) -> usize
        requires { IsMember (world_of self) parent }
        ensures { result ≡ length (children (world_of self.entry) parent.entry.id) }
    {
        match parent.node.tree_id() {
            Some(_) => self.grafted_count(parent.node),
            None => parent.node.children().len(),
        }
    }

    /// The number of children of a graft. It is never inlined, so that walks stay short.
    #[inline(never)]
    fn grafted_count(self, graft: &'a Node) -> usize
        ensures { result ≡ length (grafted (world_of self.entry) graft.now) }
    {
        let Some(name) = graft.tree_id() else {
            return 0;
        };
        match self.subtree_root(name) {
            Some(_) => 1,
            None => 0,
        }
    }

    /// The child with this index, if the node has that many.
    #[inline(always)]
    pub(crate) fn child_id(self, parent: Member<'a>, index: usize) -> Option<FullNodeId>
        requires { IsMember (world_of self) parent }
        ensures is { result ≡ child_at (world_of self.entry) (parent.entry.id, index) }
        ensures fits { IfSome result (λ _. index + 1 < 2 ^ 64) }
    {
        match parent.node.tree_id() {
            Some(_) => self.grafted_child(parent.node, index),
            None => listed_child(parent, index),
        }
    }

    /// The child of a graft with this index. It is never inlined, so that walks stay short.
    #[inline(never)]
    fn grafted_child(self, graft: &'a Node, index: usize) -> Option<FullNodeId>
        ensures is { result ≡ slice_get (grafted (world_of self.entry) graft.now) index }
        ensures fits { IfSome result (λ _. index + 1 < 2 ^ 64) }
    {
        if index > 0 {
            return None;
        }
        self.subtree_root(graft.tree_id()?)
    }

    /// The child with this index, with its place, if the node has that many.
    #[inline(always)]
    pub(crate) fn child(self, parent: Member<'a>, index: usize) -> Option<Spot<'a>>
        requires { IsMember (world_of self) parent }
        ensures none { let w = world_of self.entry in
            option_map (λ s. s.member.id) result ≡ child_at w (parent.entry.id, index) }
        ensures there { let w = world_of self.entry in
            IfSome result (λ s. IsSpot w s × (place_at s ≡ (parent.entry.id, index))) }
        ensures fits { IfSome result (λ _. index + 1 < 2 ^ 64) }
    {
        self.know();
        let id = self.child_id(parent, index)?;
        Some(Spot {
            parent,
            index,
            member: self.member(id),
        })
    }

    /// A node with its place, if it has one.
    pub(crate) fn spot(self, member: Member<'a>) -> Option<Spot<'a>>
        requires { IsMember (world_of self) member }
        ensures place { let w = world_of self.entry in
            option_map place_at result ≡ place_of w member.entry.id }
        ensures there { let w = world_of self.entry in
            IfSome result (λ s. IsSpot w s × (s.member.id ≡ member.entry.id)) }
        ensures fits { IfSome result (λ s. s.index + 1 < 2 ^ 64) }
    {
        let (parent, index) = (*member.place)?;
        let parent = self.member(parent);
        let _count = self.child_count(parent);
        Some(Spot {
            parent,
            index,
            member,
        })
    }
}

impl<'a> Spot<'a> {
    /// The view of the node.
    pub(crate) fn view(self, state: StateRef<'a>) -> NodeRef<'a>
        requires { IsSpot (world_of state) self }
        ensures world { world_at result ≡ world_of state.entry }
        ensures id { id_at result ≡ self.entry.member.id }
    {
        NodeRef {
            state,
            id: self.member.id,
            node: self.member.node,
            place: self.member.place,
        }
    }
}

/// The child that a node lists at this index, if it lists that many.
#[inline(always)]
fn listed_child(parent: Member<'_>, index: usize) -> Option<FullNodeId>
    ensures is { let ids = map (in_tree parent.entry.id.tree) parent.entry.node.now.children in
        result ≡ slice_get ids index }
    ensures fits { IfSome result (λ _. index + 1 < 2 ^ 64) }
{
    let node = *parent.node.children().get(index)?;
    Some(FullNodeId {
        tree: parent.id.tree,
        node,
    })
}
