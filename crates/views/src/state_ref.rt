//! A view of a state.
use crate::laid::Laid;
use crate::node::NodeRef;
use model::FullNodeId;
use schema::{Node, NodeId, TreeId};
use tree_store::{Kept, Store};

/// A state as it is stored, or with something laid over it.
#[derive(Clone, Copy)]
pub(crate) enum Shown<'a> {
    Stored(&'a Store),
    Laid(&'a Laid<'a>),
}

/// A read-only view of a state: the stored state, with the changes of an update laid over it if there are any. It has two
/// words, so it is cheap to copy.
#[derive(Clone, Copy)]
pub struct StateRef<'a> {
    shown: Shown<'a>,
}

/// Asks what a view shows.
macro_rules! ask {
    ($view:ident, $read:ident($($argument:expr),*)) => {
        match $view.shown {
            Shown::Stored(base) => base.$read($($argument),*),
            Shown::Laid(laid) => laid.$read($($argument),*),
        }
    };
}

impl<'a> StateRef<'a> {
    ghost use Rattle.std.specs.Prelude.{◌≡◌, ◌↔◌, ◌<◌, ◌^◌, IsTrue, true, false, Some, MatchOption, IfSome, IsSome, option_copied, option_map};
    ghost use Rattle.std.specs.FinMap.{len};
    ghost use Rattle.model.specs.World.{IsNode, data_of, index_of, name_of, root_of, root_named, local_id_of, toolkit_name, toolkit_version};
    ghost use Rattle.model.specs.Forest.{place_of, IsFormed};
    ghost use Rattle.model.specs.Focus.{IsEffectiveFocus, IsFocusId, IsFocus};
    ghost use Rattle.model.specs.State.{IsState};
    ghost use Rattle.views.specs.ShownWorlds.{world_of, world_laid};
    ghost use Rattle.views.specs.Nodes.{world_at, id_at, ShowsThe, IsView};

    /// A view of the stored state.
    pub fn new(base: &'a Store) -> StateRef<'a>
        ensures { world_of result ≡ base.now.world }
    {
        let shown = Shown::Stored(base);
        StateRef { shown }
    }

    /// A view of a state with something laid over it.
    pub fn of_laid(laid: &'a Laid<'a>) -> StateRef<'a>
        ensures { world_of result ≡ world_laid laid.now }
    {
        let shown = Shown::Laid(laid);
        StateRef { shown }
    }

    /// The world of the view is a state. Only a proof uses this; it computes nothing.
    pub fn know(self)
        ensures state { IsState (world_of self.entry) }
        ensures formed { IsFormed (world_of self.entry) }
    {
        ask!(self, know())
    }

    /// The number of nodes fits a `usize`. Only a proof uses this; it computes nothing.
    pub(crate) fn know_count(self)
        ensures { len (world_of self.entry).nodes < 2 ^ 64 }
    {
        ask!(self, know_count())
    }

    /// The data of a node.
    #[inline(always)]
    pub(crate) fn data(self, id: FullNodeId) -> Option<&'a Node>
        ensures { option_copied result ≡ data_of (world_of self.entry) id }
    {
        ask!(self, get(id))
    }

    /// The place and data of a node that is in the state.
    #[inline(always)]
    pub(crate) fn kept_of(self, id: FullNodeId) -> Kept<'a>
        requires { IsNode (world_of self) id }
        ensures data { Some result.node.now ≡ data_of (world_of self.entry) id }
        ensures place { result.place.now ≡ place_of (world_of self.entry) id }
    {
        ask!(self, kept_of(id))
    }

    /// A node's place and data. If there are changes of an update, the one at `near` is tried first.
    fn kept_near(self, id: FullNodeId, near: &mut usize) -> Option<Kept<'a>>
        ensures data { option_map (λ r. r.node.now) result ≡ data_of (world_of self.entry) id }
        ensures place { IfSome result (λ r. r.place.now ≡ place_of (world_of self.entry) id) }
    {
        match self.shown {
            Shown::Stored(base) => base.kept(id),
            Shown::Laid(laid) => laid.kept_near(id, near),
        }
    }

    /// The effective focus.
    pub(crate) fn known_focus(self) -> FullNodeId
        ensures { IsEffectiveFocus (world_of self.entry) result }
    {
        ask!(self, focus())
    }

    /// The root tree's root.
    pub(crate) fn known_root(self) -> FullNodeId
        ensures { root_of (world_of self.entry) 0 ≡ Some result }
    {
        ask!(self, root())
    }

    /// The index of the tree with this id, if it was ever known.
    pub(crate) fn tree_index(self, name: TreeId) -> Option<u32>
        ensures { result ≡ index_of (world_of self.entry) name }
    {
        ask!(self, tree_index(name))
    }

    /// The id of the tree with this index.
    pub(crate) fn tree_id(self, index: u32) -> Option<TreeId>
        ensures { result ≡ name_of (world_of self.entry) index }
    {
        ask!(self, tree_id(index))
    }

    /// Whether the host is focused.
    pub fn is_host_focused(&self) -> bool
        ensures { result ≡ (world_of self.now).host_focused }
    {
        ask!(self, is_host_focused())
    }

    /// The toolkit's name as sent in the update.
    pub(crate) fn given_toolkit_name(self) -> Option<&'a str>
        ensures { option_copied result ≡ (world_of self.entry).toolkit.0 }
    {
        ask!(self, toolkit_name())
    }

    /// The toolkit's version as sent in the update.
    pub(crate) fn given_toolkit_version(self) -> Option<&'a str>
        ensures { option_copied result ≡ (world_of self.entry).toolkit.1 }
    {
        ask!(self, toolkit_version())
    }

    /// The view of a node that is in the state.
    #[inline(always)]
    pub(crate) fn node(self, id: FullNodeId) -> NodeRef<'a>
        requires { IsNode (world_of self) id }
        ensures { IsView (world_of self.entry) id result }
    {
        let kept = self.kept_of(id);
        NodeRef {
            state: self,
            id,
            node: kept.node,
            place: kept.place,
        }
    }

    /// The root tree's root. It is always in the state.
    pub(crate) fn checked_root(self) -> FullNodeId
        ensures root { root_of (world_of self.entry) 0 ≡ Some result }
        ensures there { IsNode (world_of self.entry) result }
    {
        self.know();
        self.known_root()
    }

    /// The effective focus. It is always in the state.
    pub(crate) fn checked_focus(self) -> FullNodeId
        ensures focus { IsEffectiveFocus (world_of self.entry) result }
        ensures there { IsNode (world_of self.entry) result }
    {
        self.know();
        self.known_focus()
    }

    /// The id of the tree of a node that is in the state.
    pub(crate) fn tree_of(self, id: FullNodeId) -> TreeId
        requires { IsNode (world_of self) id }
        ensures { name_of (world_of self.entry) id.tree ≡ Some result }
    {
        self.know();
        self.tree_id(id.tree).unwrap()
    }

    /// Whether the node is in the state.
    pub fn has_node(&self, id: FullNodeId) -> bool
        ensures { IsTrue result ↔ IsNode (world_of self.now) id }
    {
        self.data(id).is_some()
    }

    /// The node with this id, if it is in the state.
    pub fn node_by_id(&self, id: FullNodeId) -> Option<NodeRef<'a>>
        ensures { let w = world_of self.now in
            ShowsThe w (λ it. (it ≡ id) × IsNode w it) result }
    {
        self.node_near(id, &mut 0)
    }

    /// The node with this id, as by [`StateRef::node_by_id`]. While an update's changes are reported, the change at `near` is
    /// tried first, and `near` is set to the one after it, so that looking up ascending ids needs no search.
    pub fn node_near(&self, id: FullNodeId, near: &mut usize) -> Option<NodeRef<'a>>
        ensures { let w = world_of self.now in
            ShowsThe w (λ it. (it ≡ id) × IsNode w it) result }
    {
        let state = *self;
        let found = state.kept_near(id, near)?;
        Some(NodeRef {
            state,
            id,
            node: found.node,
            place: found.place,
        })
    }

    /// The node with this id within the tree with that id, if it is in the state.
    pub fn node_by_tree_local_id(&self, node: NodeId, tree: TreeId) -> Option<NodeRef<'a>>
        ensures { let w = world_of self.now in
            ShowsThe w (λ it. local_id_of w it ≡ Some (node, tree)) result }
    {
        self.know();
        let tree = self.tree_index(tree)?;
        self.node_by_id(FullNodeId { tree, node })
    }

    /// The id of the root tree's root.
    pub fn root_id(&self) -> FullNodeId
        ensures { root_of (world_of self.now) 0 ≡ Some result }
    {
        self.checked_root()
    }

    /// The root tree's root.
    pub fn root(&self) -> NodeRef<'a>
        ensures world { world_at result ≡ world_of self.now }
        ensures node { root_of (world_of self.now) 0 ≡ Some (id_at result) }
    {
        self.node(self.checked_root())
    }

    /// The effective focus, whether or not the host is focused: the node that the root tree declares focused, or, if
    /// that is a graft, the node that the grafted tree declares focused, and so on.
    pub fn focus_id_in_tree(&self) -> FullNodeId
        ensures { IsEffectiveFocus (world_of self.now) result }
    {
        self.checked_focus()
    }

    /// The effective focus, whether or not the host is focused.
    pub fn focus_in_tree(&self) -> NodeRef<'a>
        ensures world { world_at result ≡ world_of self.now }
        ensures node { IsEffectiveFocus (world_of self.now) (id_at result) }
    {
        self.node(self.checked_focus())
    }

    /// The effective focus while the host is focused.
    pub fn focus_id(&self) -> Option<FullNodeId>
        ensures { IsFocusId (world_of self.now) result }
    {
        if self.is_host_focused() {
            Some(self.focus_id_in_tree())
        } else {
            None
        }
    }

    /// The focused node while the host is focused, `None` otherwise. It is the effective focus, or its active
    /// descendant if it has one in the same tree.
    pub fn focus(&self) -> Option<NodeRef<'a>>
        ensures world { IfSome result (λ node. world_at node ≡ world_of self.now) }
        ensures node { IsFocus (world_of self.now) (option_map id_at result) }
    {
        if !self.is_host_focused() {
            return None;
        }
        let focus = self.focus_in_tree();
        match focus.active_descendant() {
            Some(active) => Some(active),
            None => Some(focus),
        }
    }

    /// The id of the node that `focus` returns.
    pub fn shown_focus(self) -> Option<FullNodeId>
        ensures { IsFocus (world_of self.entry) result }
    {
        self.focus().map(|node| node.id)
    }

    /// The toolkit's name; `AccessKit` if the tree doesn't have one.
    pub fn toolkit_name(&self) -> &'a str
        ensures { result.now ≡ toolkit_name (world_of self.now) }
    {
        self.given_toolkit_name().unwrap_or("AccessKit")
    }

    /// The toolkit's version, if the tree has both a name and a version.
    pub fn toolkit_version(&self) -> Option<&'a str>
        ensures { option_copied result ≡ toolkit_version (world_of self.now) }
    {
        if self.given_toolkit_name().is_none() {
            return None;
        }
        self.given_toolkit_version()
    }

    /// The id within its tree, and the id of the tree, of a node in the state.
    pub fn locate_node(&self, id: FullNodeId) -> Option<(NodeId, TreeId)>
        ensures { result ≡ local_id_of (world_of self.now) id }
    {
        if self.has_node(id) {
            Some((id.node, self.tree_of(id)))
        } else {
            None
        }
    }

    /// The root of the tree with this id, if it is present.
    pub fn subtree_root(&self, name: TreeId) -> Option<FullNodeId>
        ensures { result ≡ root_named (world_of self.now) name }
    {
        ask!(self, subtree_root(name))
    }
}
