//! The whole decision on an update, with the data.
use model::{FullNodeId, Place, PlanEvent};
use schema::Node;
use tree_changes::{ToolkitTexts, TreeRecord};

/// A change of one record.
#[derive(Drop)]
pub enum Change {
    /// The node has this place and this data, which differs from before; if `node` is `None`, its data is unchanged.
    Put {
        id: FullNodeId,
        place: Option<Place>,
        node: Option<Node>,
    },
    /// The node is removed.
    Gone(FullNodeId),
    /// The tree's record afterwards. Without index and graft the record is removed.
    Tree(TreeRecord),
}

/// What an accepted update does: one change for each record that it adds, changes or removes and none for any other;
/// the events in order; the toolkit's texts, if they are replaced; and the effective focus afterwards.
#[derive(Drop)]
pub struct Plan {
    pub changes: Vec<Change>,
    pub events: Vec<PlanEvent>,
    pub toolkit: Option<ToolkitTexts>,
    pub focus: FullNodeId,
}
