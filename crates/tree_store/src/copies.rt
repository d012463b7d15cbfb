//! Copies of a state's node records.
ghost use Rattle.std.specs.Prelude.{◌≡◌, IfOk, option_map};
ghost use Rattle.model.specs.declared.FullNodeId.{FullNodeId};
ghost use Rattle.tree_store.specs.Copied.{IsCopyOf, copy_at, copy_of};
ghost use Rattle.tree_store.specs.Cells.{record_at};
ghost use Rattle.tree_store.specs.CellLists.{placed_record};

use crate::cells::Slots;
use crate::store::Store;
use model::{FullNodeId, Place};
use schema::Node;
use std::alloc::{AllocError, Global};
use std::collections::BTreeMap;

/// A copy of a node's record: its place, and its data.
#[derive(Drop)]
pub struct MirrorRecord {
    pub place: Option<Place>,
    pub node: Node,
}

impl Store {
    /// Copies of the records of all nodes, by id.
    ///
    /// # Errors
    ///
    /// Returns `AllocError` if memory runs out.
    pub fn copy_records(
        &self,
        alloc: Global,
    ) -> Result<BTreeMap<FullNodeId, MirrorRecord>, AllocError>
        ensures { IfOk result (λ copies. (id : FullNodeId) → IsCopyOf self.now.world id (copy_at copies.entries id)) }
    {
        copy_all(alloc, &self.tables.nodes)
    }
}

// a copy of each filled slot
fn copy_all(alloc: Global, slots: &Slots) -> Result<BTreeMap<FullNodeId, MirrorRecord>, AllocError>
    ensures { IfOk result (λ copies. (id : FullNodeId) → copy_at copies.entries id ≡ option_map copy_of (record_at slots.now id)) }
{
    let ids = slots.ids(alloc)?;
    let mut copies = BTreeMap::new(alloc);
    for id in &ids {
        if let Some(record) = slots.record(*id) {
            let copy = copy_record(*record.place, record.node)?;
            drop(copies.insert(*id, copy)?);
        }
    }
    Ok(copies)
}

fn copy_record(place: Option<Place>, node: &Node) -> Result<MirrorRecord, AllocError>
    ensures { IfOk result (λ copy. copy ≡ copy_of (placed_record place node.now)) }
{
    let node = node.clone()?;
    Ok(MirrorRecord { place, node })
}
