//! The handler of changes.
ghost use Rattle.std.specs.Prelude.{◌≡◌};
ghost use Rattle.model.specs.Events.{Event, NodeAdded, NodeUpdated, FocusMoved, NodeRemoved};
ghost use Rattle.views.specs.Nodes.{seen_node, seen_through};

use views::NodeRef;

/// Is notified of each change of a tree, in order. Old views read the state before the change, new views the state
/// after it.
pub trait TreeChangeHandler {
    /// Relates the handler before a call, the event, and the handler after the call.
    ghost steps: { Self → Event → Self → Type 0 };

    /// A node was added: it is only in the new state.
    fn node_added(&mut self, node: &NodeRef)
        ensures { steps self.old (NodeAdded (seen_node node.now)) self.new };

    /// A node that is in both states was updated: its data or its place differs, it lost or gained the focus, or it is
    /// the root named by the update's tree info.
    fn node_updated(&mut self, old_node: &NodeRef, new_node: &NodeRef)
        ensures { steps self.old (NodeUpdated (seen_node old_node.now) (seen_node new_node.now)) self.new };

    /// The focus moved to another node, or to or from none.
    fn focus_moved(&mut self, old_node: Option<&NodeRef>, new_node: Option<&NodeRef>)
        ensures { steps self.old (FocusMoved (seen_through old_node.entry) (seen_through new_node.entry)) self.new };

    /// A node was removed: it is only in the old state.
    fn node_removed(&mut self, node: &NodeRef)
        ensures { steps self.old (NodeRemoved (seen_node node.now)) self.new };
}
