//! Look-ups of a state's records by id, each of them counted. `tree_store` has the counter.
ghost use Rattle.std.specs.Prelude.{◌≡◌, ℕ, ⊤, is_some, IfSome, length};
ghost use Rattle.std.specs.Borrow.{sem, follows_so};
ghost use mathlib.Core.Option.{none};
ghost use Rattle.model.specs.World.{World, data_of};
ghost use Rattle.model.specs.Surgery.{IsOld};
ghost use Rattle.tree_changes.specs.LookUps.{IsNodeRecord, IsTreeRecord, raised_count};

use model::{FullNodeId, Place};
use schema::{Node, NodeId, TreeId};

/// A node's place and data.
#[derive(Clone, Copy)]
pub struct NodeRecord<'a> {
    pub place: Option<Place>,
    pub node: &'a Node,
}

/// The record of a tree: its index if its id was ever used, the node that grafts it, and its root and declared focus if
/// it is present.
#[derive(Clone, Copy, Debug, PartialEq, Eq)]
pub struct TreeRecord {
    pub id: TreeId,
    pub index: Option<u32>,
    pub graft: Option<FullNodeId>,
    pub root: Option<NodeId>,
    pub focus: Option<NodeId>,
}

/// Returns the records of one state by id, or none before the first update, and counts each call. No call changes what
/// is read.
pub trait LookUps {
    /// The world that is read.
    ghost world: { Self → World };

    /// The number of records looked up so far.
    ghost asked: { Self → ℕ };

    /// The record of a node, if the node exists.
    fn node(&mut self, id: FullNodeId) -> Option<NodeRecord<'_>>
        ensures* counts { sem 𝓛 (follows_so Self.row Self.row self.entry.ghost_name none (λ _ _. ⊤)
            (λ v. (world v ≡ world self.entry.now) × (asked v ≡ raised_count (asked self.entry.now)))) }
        ensures found { is_some result ≡ is_some (data_of (world self.old) id) }
        ensures given { IfSome result (λ r. IsNodeRecord (world self.old) id r) };

    /// The record of the tree with this id, if the id is known or a node grafts it.
    fn tree(&mut self, name: TreeId) -> Option<TreeRecord>
        ensures stays { world self.new ≡ world self.old }
        ensures counts { asked self.new ≡ raised_count (asked self.old) }
        ensures given { IsTreeRecord (world self.old) name result };

    /// The number of records looked up so far. The count saturates.
    fn count(&self) -> u128
        ensures { result ≡ asked self.now };

    /// Whether the host is focused.
    fn is_host_focused(&self) -> bool
        ensures { result ≡ (world self.now).host_focused };

    /// The number of known tree ids. What is read is either a state or empty, with no id known.
    fn known_trees(&self) -> u32
        ensures count { result ≡ length (world self.now).known }
        ensures old { IsOld (world self.now) };
}
