//! A handler that keeps its events.

ghost use Rattle.std.specs.Prelude.{⊤};

use std::alloc::Global;
use trees::TreeChangeHandler;
use views::{FullNodeId, NodeRef};

/// Names a node: the index of its tree, and its id in the tree.
pub type Id = (u32, u64);

/// One call of a handler.
#[derive(Clone, Copy, PartialEq, Eq)]
pub enum Told {
    Added(u32, u64),
    Updated(u32, u64),
    FocusMoved(Option<Id>, Option<Id>),
    Removed(u32, u64),
}

/// The node's tree and its id there.
pub fn pair(id: FullNodeId) -> Id {
    (id.tree, id.node.0)
}

/// Keeps the calls in order.
#[derive(Drop)]
pub struct Recorder {
    pub told: Vec<Told>,
    /// Whether there was no memory for a call.
    pub has_lost: bool,
}

impl Recorder {
    pub fn new(alloc: Global) -> Recorder {
        Recorder {
            told: Vec::new(alloc),
            has_lost: false,
        }
    }

    fn keep(&mut self, told: Told) {
        if self.told.push(told).is_err() {
            self.has_lost = true;
        }
    }
}

/// The id of a node, if there is one.
pub fn id_of(node: Option<&NodeRef>) -> Option<Id> {
    match node {
        Some(node) => Some(pair(node.id())),
        None => None,
    }
}

impl TreeChangeHandler for Recorder {
    ghost steps = { λ _ _ _. ⊤ };

    fn node_added(&mut self, node: &NodeRef) {
        let (tree, id) = pair(node.id());
        self.keep(Told::Added(tree, id));
    }

    fn node_updated(&mut self, _old_node: &NodeRef, new_node: &NodeRef) {
        let (tree, id) = pair(new_node.id());
        self.keep(Told::Updated(tree, id));
    }

    fn focus_moved(&mut self, old_node: Option<&NodeRef>, new_node: Option<&NodeRef>) {
        self.keep(Told::FocusMoved(id_of(old_node), id_of(new_node)));
    }

    fn node_removed(&mut self, node: &NodeRef) {
        let (tree, id) = pair(node.id());
        self.keep(Told::Removed(tree, id));
    }
}
