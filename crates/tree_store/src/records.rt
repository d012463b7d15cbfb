//! The records of nodes and trees.
use crate::cells::Slots;
use model::{FullNodeId, Place};
use schema::{Node, NodeId, TreeId};
use std::alloc::Global;
use std::collections::BTreeMap;
use tree_changes::ToolkitTexts;

/// A present tree: its root, and the node that it declares focused.
#[derive(Clone, Copy, Debug, PartialEq, Eq)]
pub struct PresentTree {
    pub root: NodeId,
    pub focus: NodeId,
}

/// A known tree: its id, and its root and focus if it is present.
#[derive(Clone, Copy)]
pub(crate) struct KnownTree {
    pub(crate) name: TreeId,
    pub(crate) tree: Option<PresentTree>,
}

/// The record of a tree id: its index, if the id is known, and the node that grafts the tree.
#[derive(Clone, Copy)]
pub(crate) struct NameRecord {
    pub(crate) index: Option<u32>,
    pub(crate) graft: Option<FullNodeId>,
}

/// Everything that an update's changes are written into: nodes by id, known trees by index, tree ids, and the toolkit's
/// texts.
#[derive(Drop)]
pub(crate) struct Tables {
    pub(crate) alloc: Global,
    pub(crate) nodes: Slots,
    pub(crate) known: Vec<KnownTree>,
    pub(crate) names: BTreeMap<TreeId, NameRecord>,
    pub(crate) toolkit: ToolkitTexts,
}

/// A node's place and data, where they are kept or where a change has them.
#[derive(Clone, Copy)]
pub struct Kept<'a> {
    pub place: &'a Option<Place>,
    pub node: &'a Node,
}
