//! Basic properties of a node.
ghost use Rattle.std.specs.Prelude.{◌≡◌, ◌↔◌, Some, IsTrue, IfSome, option_map};
ghost use Rattle.model.specs.World.{HasData, root_of, local_id_of};
ghost use Rattle.model.specs.Forest.{place_of};
ghost use Rattle.model.specs.Focus.{IsEffectiveFocus, IsFocusedNode, Resolves};
ghost use Rattle.views.specs.ShownWorlds.{world_of};
ghost use Rattle.views.specs.Nodes.{world_at, id_at, data_at, ShowsThe};

use crate::StateRef;
use crate::node::NodeRef;
use model::{FullNodeId, is_same};
use schema::{Node, NodeId, Role, TreeId};

impl<'a> NodeRef<'a> {
    /// The node's id.
    pub fn id(&self) -> FullNodeId
        ensures { result ≡ id_at self.now }
    {
        self.id
    }

    /// The state that the node is read in.
    pub fn tree_state(&self) -> StateRef<'a>
        ensures { world_of result ≡ world_at self.now }
    {
        self.state
    }

    /// The node's data, as sent in updates.
    pub fn data(&self) -> &'a Node
        ensures is { result.now ≡ data_at self.now }
        ensures known { HasData (world_at self.now) (id_at self.now) (data_at self.now) }
    {
        self.node
    }

    /// The node's id within its tree, and the id of the tree.
    pub fn locate(&self) -> (NodeId, TreeId)
        ensures { local_id_of (world_at self.now) (id_at self.now) ≡ Some result }
    {
        (self.id.node, self.state.tree_of(self.id))
    }

    /// The role of the node.
    pub fn role(&self) -> Role
        ensures { result ≡ (data_at self.now).role }
    {
        self.node.role()
    }

    /// Whether the node is the root tree's root.
    pub fn is_root(&self) -> bool
        ensures { IsTrue result ↔ (root_of (world_at self.now) 0 ≡ Some (id_at self.now)) }
    {
        is_same(self.id, self.state.root_id())
    }

    /// Whether the node is focused. This holds while the host is focused, of the effective focus if it has no active
    /// descendant in its tree, and of that active descendant otherwise. An effective focus that names itself as its
    /// active descendant is not focused.
    pub fn is_focused(&self) -> bool
        ensures { IsTrue result ↔ IsFocusedNode (world_at self.now) (id_at self.now) }
    {
        if !self.state.is_host_focused() {
            return false;
        }
        let focus = self.state.focus_in_tree();
        let active = focus.active_descendant();
        if is_same(self.id, focus.id) {
            return active.is_none();
        }
        match active {
            Some(active) => is_same(self.id, active.id),
            None => false,
        }
    }

    /// Whether the node is the effective focus, whether or not the host is focused.
    pub fn is_focused_in_tree(&self) -> bool
        ensures { IsTrue result ↔ IsEffectiveFocus (world_at self.now) (id_at self.now) }
    {
        is_same(self.id, self.state.focus_id_in_tree())
    }

    /// The parent's id. The parent of a tree's root is the node that grafts the tree; the root tree's root has no
    /// parent.
    pub fn parent_id(&self) -> Option<FullNodeId>
        ensures { result ≡ option_map (λ p. p.0) (place_of (world_at self.now) (id_at self.now)) }
    {
        (*self.place).map(|(parent, _)| parent)
    }

    /// The parent.
    #[inline(always)]
    pub fn parent(&self) -> Option<NodeRef<'a>>
        ensures world { IfSome result (λ parent. world_at parent ≡ world_at self.now) }
        ensures node { option_map id_at result ≡ option_map (λ p. p.0) (place_of (world_at self.now) (id_at self.now)) }
    {
        let (parent, _) = self.parent_and_index()?;
        Some(parent)
    }

    /// The parent, and the node's index among its children.
    #[inline(always)]
    pub fn parent_and_index(self) -> Option<(NodeRef<'a>, usize)>
        ensures world { IfSome result (λ it. world_at it.0 ≡ world_at self.entry) }
        ensures place { option_map (λ it. (id_at it.0, it.1)) result ≡ place_of (world_at self.entry) (id_at self.entry) }
    {
        match *self.place {
            Some((parent, index)) => Some((self.state.node(parent), index)),
            None => None,
        }
    }

    /// The node's active descendant, if that is a node of the same tree in the state.
    pub fn active_descendant(&self) -> Option<NodeRef<'a>>
        ensures { ShowsThe (world_at self.now) (Resolves (world_at self.now) (id_at self.now)) result }
    {
        let node = self.node.active_descendant()?;
        self.state.node_by_id(FullNodeId {
            tree: self.id.tree,
            node,
        })
    }
}
