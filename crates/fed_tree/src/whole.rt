//! What is read of the whole tree: its focus, its active dialog, its toolkit, and the ids of the trees in it.
ghost use Rattle.std.specs.Prelude.{◌≡◌, None, Some, IfOk, MatchOption, option_and_then, option_copied, option_map, string_bytes};
ghost use Rattle.model.specs.World.{local_id_of, root_named, toolkit_name, toolkit_version};
ghost use Rattle.model.specs.Focus.{IsActiveDialog};
ghost use Rattle.model.specs.FocusFound.{effective_focus};
ghost use Rattle.fed_tree.specs.Reads.{read_of};

use crate::feeding::FedTree;
use model::FullNodeId;
use schema::TreeId;
use std::alloc::{AllocError, Global};
use trees::Tree;

impl FedTree {
    /// The node that the trees declare focused, whether or not the host has the focus: that of the root tree, or, if it grafts a tree, that
    /// of this one, and so on. `None` before there is a tree.
    pub fn focus_in_tree(&self) -> Option<FullNodeId>
        ensures { result ≡ option_and_then effective_focus self.now.world }
    {
        let tree = self.stage.tree.as_ref()?;
        Some(declared_focus(tree))
    }

    /// Whether the host has the focus; `None` before there is a tree.
    pub fn is_host_focused(&self) -> Option<bool>
        ensures { result ≡ option_map (λ w. w.host_focused) self.now.world }
    {
        let tree = self.stage.tree.as_ref()?;
        Some(tree.state().is_host_focused())
    }

    /// The nearest dialog among the focused node and its ancestors; `None` also before there is a tree.
    pub fn active_dialog(&self) -> Option<FullNodeId>
        ensures { MatchOption self.now.world (result ≡ None) (λ w. IsActiveDialog w result) }
    {
        match &self.stage.tree {
            Some(tree) => dialog_of(tree),
            None => None,
        }
    }

    /// The root of the tree with this id; `None` if there is no such tree.
    pub fn subtree_root(&self, name: TreeId) -> Option<FullNodeId>
        ensures { result ≡ option_and_then (λ w. root_named w name) self.now.world }
    {
        let tree = self.stage.tree.as_ref()?;
        tree.state().subtree_root(name)
    }

    /// The id of the node's tree; `None` if the tree doesn't have the node.
    #[tactic(auto, using(crate::proofs::Found::read_found, crate::proofs::Found::read_missing))]
    pub fn tree_id(&self, id: FullNodeId) -> Option<TreeId>
        ensures { result ≡ read_of self.now.world id (λ w node. option_map (λ named. named.1) (local_id_of w id)) }
    {
        let (_, name) = self.node(id)?.locate();
        Some(name)
    }

    /// The toolkit's name, `AccessKit` if none was sent; `None` before there is a tree.
    ///
    /// # Errors
    ///
    /// Returns `AllocError` if memory runs out.
    pub fn toolkit_name(&self) -> Result<Option<String>, AllocError>
        ensures { IfOk result (λ text. option_map string_bytes text ≡ option_map toolkit_name self.now.world) }
    {
        match &self.stage.tree {
            Some(tree) => Ok(Some(String::from_str(self.alloc, tree.state().toolkit_name())?)),
            None => Ok(None),
        }
    }

    /// The toolkit's version; `None` if no name and version were sent, or before there is a tree.
    ///
    /// # Errors
    ///
    /// Returns `AllocError` if memory runs out.
    pub fn toolkit_version(&self) -> Result<Option<String>, AllocError>
        ensures { IfOk result (λ text. option_map string_bytes text ≡ option_and_then toolkit_version self.now.world) }
    {
        match &self.stage.tree {
            Some(tree) => copied(self.alloc, tree.state().toolkit_version()),
            None => Ok(None),
        }
    }
}

/// The id of the node that the trees declare focused.
fn declared_focus(tree: &Tree) -> FullNodeId
    ensures { effective_focus tree.now ≡ Some result }
{
    let state = tree.state().view();
    state.know();
    state.focus_id_in_tree()
}

/// The id of the active dialog.
fn dialog_of(tree: &Tree) -> Option<FullNodeId>
    ensures { IsActiveDialog tree.now result }
{
    let dialog = tree.state().active_dialog()?;
    Some(dialog.id())
}

/// A copy of the text, if there is one.
pub(crate) fn copied(alloc: Global, text: Option<&str>) -> Result<Option<String>, AllocError>
    ensures { IfOk result (λ copy. option_map string_bytes copy ≡ option_copied text.entry) }
{
    match text {
        Some(text) => Ok(Some(String::from_str(alloc, text)?)),
        None => Ok(None),
    }
}
