//! The effect of an update on nodes.

ghost use Rattle.std.specs.Prelude.{◌≡◌};
ghost use Rattle.page_states.specs.Rows.{mark_class, mark_word};

use std::collections::BTreeMap;
use views::FullNodeId;

/// The effect of an update on a node of the new state.
#[derive(Clone, Copy, Debug, PartialEq, Eq)]
pub enum Mark {
    Added,
    Updated,
}

/// The nodes that an update added or updated.
pub type Marks = BTreeMap<FullNodeId, Mark>;

impl Mark {
    /// The class of the element that shows the node.
    pub(crate) fn class(self) -> &'static str
        ensures { result.now ≡ mark_class self }
    {
        match self {
            Mark::Added => "a",
            Mark::Updated => "u",
        }
    }

    /// The word shown for the node.
    pub(crate) fn word(self) -> &'static str
        ensures { result.now ≡ mark_word self }
    {
        match self {
            Mark::Added => "added",
            Mark::Updated => "updated",
        }
    }
}
