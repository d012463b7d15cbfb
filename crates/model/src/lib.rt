//! The definitions that all contracts cite (worlds, updates, events, views, texts, runs), and the laws proved about
//! them.
#![tactic(auto)]

ghost use Rattle.model.specs.FullIds.{full_number};
ghost use Rattle.std.specs.Prelude.{◌≡◌, ◌↔◌, IsTrue};

mod events;
pub mod filters;
pub mod laws;
mod queries;

pub use events::PlanEvent;
pub use queries::{At, Move, NamedFilter, NodeName, Query, Side};
use schema::NodeId;

/// The id of a node in a state: its tree's index, and its id within the tree.
#[derive(Clone, Copy, Debug, PartialEq, Eq, PartialOrd, Ord, Hash)]
pub struct FullNodeId {
    pub tree: u32,
    pub node: NodeId,
}

/// Whether the ids name one node.
pub fn is_same(a: FullNodeId, b: FullNodeId) -> bool
    ensures { IsTrue result ↔ (a ≡ b) }
{
    a == b
}

/// A place: a parent's id, and an index among its children.
pub type Place = (FullNodeId, usize);

/// The node id, shifted left by 64 bits, plus the tree's index.
impl From<FullNodeId> for u128 {
    ghost from_gives = { λ id number. number ≡ full_number id };

    fn from(id: FullNodeId) -> u128 {
        (u128::from(id.node.0) << 64) | u128::from(id.tree)
    }
}
