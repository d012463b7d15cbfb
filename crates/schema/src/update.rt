//! Updates of a tree.

ghost use Rattle.std.specs.Prelude.{◌≡◌, None, IfOk};
ghost use Rattle.std.specs.Borrow.{sem};
ghost use Rattle.schema.specs.Adding.{lends_added};
ghost use Rattle.schema.specs.NodeData.{empty_node};
ghost use Rattle.schema.specs.UpdateData.{info_data, update_data};

use crate::copies::copy_of_text;
use crate::{Node, NodeId, Role, TreeId};
use std::alloc::{AllocError, Global};

/// Information about a tree as a whole.
#[derive(Drop)]
pub struct TreeInfo {
    /// The tree's root.
    pub root: NodeId,
    /// The name of the toolkit that made the tree.
    pub toolkit_name: Option<String>,
    /// The toolkit's version.
    pub toolkit_version: Option<String>,
}

impl TreeInfo {
    /// Information with this root and no toolkit name.
    pub fn new(root: NodeId) -> TreeInfo
        ensures { info_data result ≡ record { root = root; toolkit_name = None; toolkit_version = None } }
    {
        TreeInfo {
            root,
            toolkit_name: None,
            toolkit_version: None,
        }
    }

    /// Returns a copy whose texts are allocated from `alloc`.
    ///
    /// # Errors
    ///
    /// Returns `AllocError` if memory runs out.
    pub fn clone(&self, alloc: Global) -> Result<TreeInfo, AllocError>
        ensures { IfOk result (λ copy. info_data copy ≡ info_data self.now) }
    {
        let toolkit_name = copy_of_text(alloc, &self.toolkit_name)?;
        let toolkit_version = copy_of_text(alloc, &self.toolkit_version)?;
        Ok(TreeInfo {
            root: self.root,
            toolkit_name,
            toolkit_version,
        })
    }
}

/// An update of one tree: its new and changed nodes, and its focus.
#[derive(Drop)]
pub struct TreeUpdate {
    /// The new and changed nodes with their ids, in any order.
    pub nodes: Vec<(NodeId, Node)>,
    /// Information about the tree as a whole. A tree's first update needs it.
    pub tree: Option<TreeInfo>,
    /// The tree that is updated.
    pub tree_id: TreeId,
    /// The node of this tree that has the focus whenever the focus is in this tree.
    pub focus: NodeId,
}

impl TreeUpdate {
    /// Adds an empty node with this id and role at the end of [`TreeUpdate::nodes`], and lends it. The node's texts and lists
    /// are allocated from `alloc`.
    ///
    /// # Errors
    ///
    /// Returns `AllocError` if memory runs out; the update is then unchanged.
    #[inline]
    pub fn add(&mut self, alloc: Global, id: NodeId, role: Role) -> Result<&mut Node, AllocError>
        ensures* writes_back { sem 𝓛 (lends_added self.entry id result) }
        ensures value { IfOk result (λ node. node.now ≡ empty_node role) }
    {
        let index = self.nodes.len();
        self.nodes.reserve(1)?;
        self.nodes.push_reserved((id, Node::new(alloc, role)));
        Ok(&mut self.nodes[index].1)
    }

    /// Returns a copy whose list and texts are allocated from `alloc`; each node is allocated where its original is.
    ///
    /// # Errors
    ///
    /// Returns `AllocError` if memory runs out.
    pub fn clone(&self, alloc: Global) -> Result<TreeUpdate, AllocError>
        ensures { IfOk result (λ copy. update_data copy ≡ update_data self.now) }
    {
        let nodes = copy_of_nodes(alloc, self.nodes.as_slice())?;
        let tree = match &self.tree {
            Some(info) => Some(info.clone(alloc)?),
            None => None,
        };
        Ok(TreeUpdate {
            nodes,
            tree,
            tree_id: self.tree_id,
            focus: self.focus,
        })
    }
}

fn copy_of_nodes(alloc: Global, nodes: &[(NodeId, Node)]) -> Result<Vec<(NodeId, Node)>, AllocError>
    ensures { IfOk result (λ copy. copy.items ≡ nodes.now) }
{
    let mut copy = Vec::with_capacity(alloc, nodes.len())?;
    for entry in nodes {
        copy.push((entry.0, entry.1.clone()?))?;
    }
    Ok(copy)
}
