//! What is read of the tree.
ghost use Rattle.std.specs.Prelude.{◌≡◌, IfOk, MatchOption, None, Some, option_and_then, option_map, string_bytes};
ghost use Rattle.model.specs.World.{children, root_of};
ghost use Rattle.model.specs.Focus.{IsFocus};
ghost use Rattle.model.specs.Forest.{place_of};
ghost use Rattle.model.specs.Labels.{label_of};
ghost use Rattle.model.specs.Values.{value_of};
ghost use Rattle.model.specs.Queries.{text_in_runs};
ghost use Rattle.schema.specs.RoleNames.{role_text};
ghost use Rattle.fed_tree.specs.Reads.{IsFound, read_of};

use crate::feeding::FedTree;
use model::FullNodeId;
use schema::Role;
use session::{child_ids, text_in_runs};
use std::alloc::{AllocError, Global};
use trees::Tree;
use views::NodeRef;

impl FedTree {
    /// The root tree's root; `None` before there is a tree.
    pub fn root(&self) -> Option<FullNodeId>
        ensures { result ≡ option_and_then (λ w. root_of w 0) self.now.world }
    {
        let tree = self.stage.tree.as_ref()?;
        Some(tree.state().root_id())
    }

    /// The focused node while the host has the focus, and else `None`: the active descendant of the node that the trees declare
    /// focused, if it has one, and else that node.
    pub fn focus(&self) -> Option<FullNodeId>
        ensures { MatchOption self.now.world (result ≡ None) (λ w. IsFocus w result) }
    {
        match &self.stage.tree {
            Some(tree) => focus_of(tree),
            None => None,
        }
    }

    /// The node with this id, if the tree has it.
    #[tactic(auto, using(crate::proofs::Found::is_shown, crate::proofs::Found::is_missing))]
    pub(crate) fn node(&self, id: FullNodeId) -> Option<NodeRef<'_>>
        ensures { IsFound self.now.world id result }
    {
        let tree = self.stage.tree.as_ref()?;
        let node = tree.state().node_by_id(id)?;
        let _data = node.data();
        Some(node)
    }

    /// The node's role; `None` if the tree doesn't have the node.
    #[tactic(auto, using(crate::proofs::Found::read_found, crate::proofs::Found::read_missing))]
    pub fn role(&self, id: FullNodeId) -> Option<Role>
        ensures { result ≡ read_of self.now.world id (λ w node. Some node.role) }
    {
        let node = self.node(id)?;
        Some(node.role())
    }

    /// The name of the node's role, as `Button`, or `Other(300)` for a role without a name; `None` if the tree doesn't have the
    /// node.
    ///
    /// # Errors
    ///
    /// Returns `AllocError` if memory runs out.
    pub fn role_name(&self, id: FullNodeId) -> Result<Option<String>, AllocError>
        ensures { IfOk result (λ text. option_map string_bytes text ≡ read_of self.now.world id (λ w node. Some (role_text node.role))) }
    {
        match self.role(id) {
            Some(role) => Ok(Some(format!(in self.alloc; "{role}")?)),
            None => Ok(None),
        }
    }

    /// The node's parent; `None` if it is the root, or if the tree doesn't have the node.
    #[tactic(auto, using(crate::proofs::Found::read_found, crate::proofs::Found::read_missing))]
    pub fn parent(&self, id: FullNodeId) -> Option<FullNodeId>
        ensures { result ≡ read_of self.now.world id (λ w node. option_map (λ place. place.0) (place_of w id)) }
    {
        self.node(id)?.parent_id()
    }

    /// The node's children, in order; `None` if the tree doesn't have the node.
    ///
    /// # Errors
    ///
    /// Returns `AllocError` if memory runs out.
    #[tactic(auto, using(crate::proofs::Found::read_found, crate::proofs::Found::read_missing))]
    pub fn children(&self, id: FullNodeId) -> Result<Option<Vec<FullNodeId>>, AllocError>
        ensures { IfOk result (λ ids. option_map (λ found. found.items) ids ≡ read_of self.now.world id (λ w node. Some (children w id))) }
    {
        match self.node(id) {
            Some(node) => Ok(Some(child_ids(self.alloc, node)?)),
            None => Ok(None),
        }
    }

    /// The node's label; `None` if it has no label, or if the tree doesn't have the node.
    ///
    /// # Errors
    ///
    /// Returns `AllocError` if memory runs out.
    #[tactic(auto, using(crate::proofs::Found::read_found, crate::proofs::Found::read_missing))]
    pub fn label(&self, id: FullNodeId) -> Result<Option<String>, AllocError>
        ensures { IfOk result (λ text. option_map string_bytes text ≡ read_of self.now.world id (λ w node. label_of w id)) }
    {
        match self.node(id) {
            Some(node) => node.label(self.alloc),
            None => Ok(None),
        }
    }

    /// The node's value; `None` if it has no value, or if the tree doesn't have the node.
    ///
    /// # Errors
    ///
    /// Returns `AllocError` if memory runs out.
    #[tactic(auto, using(crate::proofs::Found::read_found, crate::proofs::Found::read_missing))]
    pub fn value(&self, id: FullNodeId) -> Result<Option<String>, AllocError>
        ensures { IfOk result (λ text. option_map string_bytes text ≡ read_of self.now.world id (λ w node. value_of w id)) }
    {
        match self.node(id) {
            Some(node) => node.value(self.alloc),
            None => Ok(None),
        }
    }

    /// The whole text of the node's runs; `None` if they make no text, or if the tree doesn't have the node.
    ///
    /// # Errors
    ///
    /// Returns `AllocError` if memory runs out.
    #[tactic(auto, using(crate::proofs::Found::read_found, crate::proofs::Found::read_missing))]
    pub fn text(&self, id: FullNodeId) -> Result<Option<String>, AllocError>
        ensures { IfOk result (λ text. option_map string_bytes text ≡ read_of self.now.world id (λ w node. text_in_runs w id)) }
    {
        match self.node(id) {
            Some(node) => text_in_runs(self.alloc, node),
            None => Ok(None),
        }
    }
}

/// The id of the focused node.
fn focus_of(tree: &Tree) -> Option<FullNodeId>
    ensures { IsFocus tree.now result }
{
    let node = tree.state().focus()?;
    Some(node.id())
}
