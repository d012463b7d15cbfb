//! What updates say of whole trees. No view of a tree has it.

use schema::{NodeId, TreeId, TreeInfo, TreeUpdate};
use std::alloc::{AllocError, Global};
use std::collections::BTreeMap;

/// What an update says of its tree as a whole.
#[derive(Drop)]
pub(crate) struct Head {
    tree: TreeId,
    focus: NodeId,
    info: Option<TreeInfo>,
}

impl Head {
    /// That of this update.
    pub(crate) fn of(alloc: Global, update: &TreeUpdate) -> Result<Head, AllocError> {
        let info = match &update.tree {
            Some(info) => Some(info.clone(alloc)?),
            None => None,
        };
        Ok(Head {
            tree: update.tree_id,
            focus: update.focus,
            info,
        })
    }
}

/// What accepted updates last said: the node of each tree that is declared focused, and of the root tree the toolkit.
#[derive(Drop)]
pub(crate) struct Heads {
    focus_of: BTreeMap<TreeId, NodeId>,
    root_info: Option<TreeInfo>,
}

impl Heads {
    /// Nothing has been said so far.
    pub(crate) fn new(alloc: Global) -> Heads {
        Heads {
            focus_of: BTreeMap::new(alloc),
            root_info: None,
        }
    }

    /// Notes what an accepted update said.
    pub(crate) fn note(&mut self, head: Head) -> Result<(), AllocError> {
        self.focus_of.insert(head.tree, head.focus)?;
        if head.tree == TreeId::root() && head.info.is_some() {
            self.root_info = head.info;
        }
        Ok(())
    }

    /// The declared focus of a tree.
    pub(crate) fn focus_of(&self, tree: TreeId) -> Option<NodeId> {
        self.focus_of.get(&tree).copied()
    }

    /// What an update says of a tree with this root that makes it: of the root tree, the toolkit too.
    pub(crate) fn info_of(
        &self,
        alloc: Global,
        tree: TreeId,
        root: NodeId,
    ) -> Result<TreeInfo, AllocError> {
        match &self.root_info {
            Some(info) if tree == TreeId::root() => info.clone(alloc),
            _ => Ok(TreeInfo::new(root)),
        }
    }
}
