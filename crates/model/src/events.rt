//! The events of an update, by ids alone.
use crate::FullNodeId;

/// An event of an update, by the ids of its nodes.
#[derive(Clone, Copy, Debug, PartialEq, Eq)]
pub enum PlanEvent {
    /// The node is only in the new state.
    Added(FullNodeId),
    /// The node is in both states and its data or its place differs, or it is reported for the focus or as the root
    /// named by tree info.
    Updated(FullNodeId),
    /// The focus moved from the first node to the second.
    FocusMoved(Option<FullNodeId>, Option<FullNodeId>),
    /// The node is only in the old state.
    Removed(FullNodeId),
}
