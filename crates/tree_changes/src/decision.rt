//! The decision on an update.
use crate::TreeRecord;
use model::{FullNodeId, Place, PlanEvent};

/// The change of a node.
#[derive(Clone, Copy, Debug, PartialEq, Eq)]
pub enum NodeChange {
    /// The node has this place; if an index into the update's nodes is given, it has that entry's data, which differs
    /// from before.
    Put {
        place: Option<Place>,
        entry: Option<usize>,
    },
    /// The node is removed.
    Gone,
}

/// What an accepted update does: one change for each record that it adds, changes or removes and none for any other,
/// those of nodes ascending by id; the events in order; and the effective focus afterwards. The nodes' data stays in
/// the update. `looked` is the number of records that were looked up for the decision.
#[derive(Drop)]
pub struct Decision {
    pub nodes: Vec<(FullNodeId, NodeChange)>,
    pub trees: Vec<TreeRecord>,
    pub events: Vec<PlanEvent>,
    pub focus: FullNodeId,
    pub looked: u128,
}
