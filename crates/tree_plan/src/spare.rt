//! The lists of a short decision, which are kept for the next one.
ghost use Rattle.std.specs.Prelude.{◌≡◌, []};
ghost use Rattle.tree_plan.specs.Spares.{IsSpare};

use model::{FullNodeId, PlanEvent};
use std::alloc::Global;
use std::marker::Model;
use std::mem;
use tree_changes::{Decision, NodeChange};
use values_by_id::RowList;

/// A list with room for more entries isn't kept.
const MOST: usize = 64;

/// The lists of a short decision that was carried out, emptied, so that the next short one allocates nothing for them: its changes, its
/// events, and the children that left a place. A list with room for more than 64 entries is freed instead.
#[derive(Drop)]
pub struct Spare {
    alloc: Global,
    changes: Vec<(FullNodeId, NodeChange)>,
    events: Vec<PlanEvent>,
    left: Vec<(FullNodeId, FullNodeId)>,
}

impl Model for Spare {
    ghost use Rattle.tree_plan.specs.Spares.{IsSpare};

    ghost Value = { Unit {0} };

    ghost view = { λ _. tt };

    ghost invariant = { λ a. IsSpare a.changes × IsSpare a.events × IsSpare a.left };
}

/// The list emptied if it is short, and else a new one.
fn emptied<T: Copy + Drop>(alloc: Global, mut list: Vec<T>) -> Vec<T>
    ensures { IsSpare result }
{
    if list.capacity() > MOST {
        return Vec::new(alloc);
    }
    list.clear();
    list
}

impl Spare {
    /// No lists. Allocates nothing.
    pub fn new(alloc: Global) -> Spare {
        Spare {
            alloc,
            changes: Vec::new(alloc),
            events: Vec::new(alloc),
            left: Vec::new(alloc),
        }
    }

    /// Keeps the lists of a decision that isn't needed any more, emptied, but those with room for more than 64 entries.
    pub fn keep(&mut self, decision: Decision) {
        self.changes = emptied(self.alloc, decision.nodes);
        self.events = emptied(self.alloc, decision.events);
    }

    /// Keeps a list of changes that aren't needed any more, emptied.
    pub(crate) fn keep_changes(&mut self, list: RowList<NodeChange>) {
        self.changes = emptied(self.alloc, list.into_entries());
    }

    /// Keeps a list of children that left a place, emptied.
    pub(crate) fn keep_left(&mut self, list: Vec<(FullNodeId, FullNodeId)>) {
        self.left = emptied(self.alloc, list);
    }

    /// An empty list of changes.
    pub(crate) fn take_changes(&mut self) -> RowList<NodeChange>
        ensures { result ≡ [] }
    {
        RowList::in_memory_of(mem::replace(&mut self.changes, Vec::new(self.alloc)))
    }

    /// An empty list of events.
    pub(crate) fn take_events(&mut self) -> Vec<PlanEvent>
        ensures { result.items ≡ [] }
    {
        mem::replace(&mut self.events, Vec::new(self.alloc))
    }

    /// An empty list of children that left a place.
    pub(crate) fn take_left(&mut self) -> Vec<(FullNodeId, FullNodeId)>
        ensures { result.items ≡ [] }
    {
        mem::replace(&mut self.left, Vec::new(self.alloc))
    }
}
