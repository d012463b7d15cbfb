//! The results of the passes.
use model::{FullNodeId, Place};
use schema::{NodeId, TreeId, TreeUpdate};
use std::alloc::Global;
use std::collections::{BTreeMap, BTreeSet};
use tree_changes::TreeRecord;
use values_by_id::{RowList, SortedRows};

/// The update's tree: its old record (empty if there isn't one), and its index and root afterwards.
#[derive(Clone, Copy)]
pub(crate) struct Opened {
    pub(crate) record: TreeRecord,
    pub(crate) index: u32,
    pub(crate) root: NodeId,
    pub(crate) is_first: bool,
}

/// What an update does with its tree: its index and root afterwards.
#[derive(Clone, Copy)]
pub(crate) struct Opening {
    pub(crate) index: u32,
    pub(crate) root: NodeId,
    pub(crate) is_first: bool,
}

/// A node of the update: its entry in the update's nodes, its old place if it is an old node, and whether its data
/// differs from before.
#[derive(Clone, Copy)]
pub(crate) struct Named {
    pub(crate) entry: usize,
    pub(crate) was: Option<Option<Place>>,
    pub(crate) is_news: bool,
}

/// A spot that a node entered: a place in a list of children, or `None` for the root of a tree. The node has only shifted
/// if it was in the same list, at an index where it no longer is.
#[derive(Clone, Copy)]
pub(crate) struct Arrival {
    pub(crate) spot: Option<Place>,
    pub(crate) is_shifted: bool,
}

/// The update's nodes compared with their old records, as far as the comparison has got.
#[derive(Drop)]
pub(crate) struct Comparing {
    pub(crate) named: SortedRows<Named>,
    /// Of each entry of the update's nodes, the index in `named` at which its search starts; empty if they are in one order, or few.
    pub(crate) rows: Vec<usize>,
    /// The nodes that left a spot, with the spot, without those that have only shifted.
    pub(crate) left: RowList<Option<Place>>,
    /// The nodes that entered a spot.
    pub(crate) entered: RowList<Arrival>,
    /// Each tree that a node of the update grafts, with this node.
    pub(crate) grafted: BTreeMap<TreeId, FullNodeId>,
    /// The trees that a node of the update grafted before and doesn't graft now.
    pub(crate) lost: Vec<TreeId>,
    /// The trees that a node of the update grafts now and didn't graft before.
    pub(crate) gained: Vec<TreeId>,
}

/// The update's nodes compared with their old records.
#[derive(Drop)]
pub(crate) struct Compared {
    pub(crate) named: SortedRows<Named>,
    /// The nodes that left a spot, with the spot, without those that have only shifted.
    pub(crate) left: SortedRows<Option<Place>>,
    /// The nodes that entered a spot.
    pub(crate) entered: SortedRows<Arrival>,
    /// Each tree that a node of the update grafts, with this node.
    pub(crate) grafted: BTreeMap<TreeId, FullNodeId>,
    /// The trees that a node of the update grafted before and doesn't graft now.
    pub(crate) lost: Vec<TreeId>,
    /// The trees that a node of the update grafts now and didn't graft before.
    pub(crate) gained: Vec<TreeId>,
}

/// An update with its tree and its nodes, compared: what each later pass reads. And where a pass allocates.
#[derive(Clone, Copy)]
pub(crate) struct Case<'a> {
    pub(crate) alloc: Global,
    pub(crate) update: &'a TreeUpdate,
    pub(crate) opened: &'a Opened,
    pub(crate) compared: &'a Compared,
}

/// What is known of the nodes that entered a spot by their old places.
#[derive(Drop)]
pub(crate) struct Settled {
    /// The nodes that entered a spot and haven't left their old place in a list, with that place.
    pub(crate) doubles: Vec<(FullNodeId, Place)>,
    /// The nodes of the update that got a child that they didn't list before.
    pub(crate) adopters: BTreeSet<FullNodeId>,
    /// Whether an old node entered below another parent.
    pub(crate) has_moved: bool,
}

/// The nodes and trees that are removed.
#[derive(Drop)]
pub(crate) struct Removed {
    pub(crate) gone: BTreeSet<FullNodeId>,
    /// The records afterwards of the trees that lost their grafts.
    pub(crate) trees: Vec<TreeRecord>,
}

/// The focus before and after the update.
#[derive(Clone, Copy)]
pub(crate) struct Focused {
    pub(crate) before: Option<FullNodeId>,
    pub(crate) effective: FullNodeId,
    pub(crate) after: Option<FullNodeId>,
}
