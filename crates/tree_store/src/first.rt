//! The slots of a first state: the update's list of nodes becomes theirs.
ghost use Rattle.std.specs.Prelude.{◌≡◌, ◌≢◌, ◌<◌, ◌≤◌, ◌^◌, ℕ, length, map, slice_get, Some, None, is_some, IsSome, cond, IfOk, OnOk};
ghost use Rattle.std.specs.Vec.{vec_capacity};
ghost use Rattle.std.specs.BTreeMap.{is_at};
ghost use Rattle.std.specs.List.Sorted.{IsStrictlySortedBy};
ghost use Rattle.model.specs.declared.FullNodeId.{FullNodeId};
ghost use Rattle.model.specs.FullIds.{full_cmp};
ghost use Rattle.tree_changes.specs.Changes.{change_at, entry_of};
ghost use Rattle.tree_changes.specs.declared.decision.NodeChange.TheVariants.{Put};
ghost use Rattle.tree_store.specs.Cells.{slot_at, record_at, HasOwnCells, IsFreeList};
ghost use Rattle.tree_store.specs.CellLists.{slot_of, slots_over, record_from, HasCellsForAll};
ghost use Rattle.tree_store.specs.Commits.{changed_record, AreEntriesApart, HasNoSpare};

use crate::cell_list::CellList;
use crate::cells::Slots;
use model::{FullNodeId, Place};
use schema::{Node, NodeId};
use std::alloc::{AllocError, Global};
use tree_changes::NodeChange;
use values_by_id::IdIndex;

/// The slots of a first state: the changes, with their data from the update's nodes, which are not copied.
///
/// # Errors
///
/// Returns `AllocError` if memory runs out, or if there are as many nodes as numbers of 32 bits.
pub(crate) fn first_slots(
    alloc: Global,
    nodes: Vec<(NodeId, Node)>,
    changes: &[(FullNodeId, NodeChange)],
) -> Result<Slots, AllocError>
    requires ascending { IsStrictlySortedBy full_cmp (map (λ e. e.0) changes.now) }
    requires apart { AreEntriesApart changes.now }
    ensures records { IfOk result (λ slots. (id : FullNodeId) →
        record_at slots id ≡ changed_record nodes.items (change_at changes.now id) None) }
    ensures tight { IfOk result HasNoSpare }
{
    let mut cells = CellList::over(alloc, nodes)?;
    let mut index = IdIndex::new(alloc);
    for change in changes {
        place_one(&mut index, &mut cells, change.0, change.1)?;
    }
    Slots::of_first(alloc, index, cells)
}

// gives a cell to a node of a first state, which has none yet
fn place_one(
    index: &mut IdIndex<u32>,
    cells: &mut CellList,
    id: FullNodeId,
    change: NodeChange,
) -> Result<(), AllocError>
    requires count { HasCellsForAll cells.old }
    requires own { HasOwnCells (slots_over index.old cells.old) }
    requires none { slot_at (slots_over index.old cells.old) id ≡ None }
    requires free { (k : ℕ) → entry_of change ≡ Some k → slot_of cells.old.cells k ≡ None }
    ensures own { OnOk result (HasOwnCells (slots_over index.new cells.new)) }
    ensures records { OnOk result ((q : FullNodeId) → record_at (slots_over index.new cells.new) q
        ≡ cond (is_at (full_cmp id) q) (record_from cells.old.nodes change) (record_at (slots_over index.old cells.old) q)) }
    ensures tight { OnOk result ((q : FullNodeId) → is_some (slot_at (slots_over index.new cells.new) q)
        ≡ cond (is_at (full_cmp id) q) (is_some (record_at (slots_over index.new cells.new) q)) (is_some (slot_at (slots_over index.old cells.old) q))) }
    ensures others { (k : ℕ) → entry_of change ≢ Some k → slot_of cells.new.cells k ≡ slot_of cells.old.cells k }
    ensures nodes { cells.new.nodes ≡ cells.old.nodes }
    ensures count { HasCellsForAll cells.new }
{
    match change {
        NodeChange::Put {
            place,
            entry: Some(entry),
        } => place_at(index, cells, id, place, entry),
        NodeChange::Put { entry: None, .. } => Ok(()),
        NodeChange::Gone => Ok(()),
    }
}

// gives the cell with an entry's number to a node, at its place
fn place_at(
    index: &mut IdIndex<u32>,
    cells: &mut CellList,
    id: FullNodeId,
    place: Option<Place>,
    entry: usize,
) -> Result<(), AllocError>
    requires count { HasCellsForAll cells.old }
    requires own { HasOwnCells (slots_over index.old cells.old) }
    requires none { slot_at (slots_over index.old cells.old) id ≡ None }
    requires free { slot_of cells.old.cells entry ≡ None }
    ensures own { OnOk result (HasOwnCells (slots_over index.new cells.new)) }
    ensures records { OnOk result ((q : FullNodeId) → record_at (slots_over index.new cells.new) q
        ≡ cond (is_at (full_cmp id) q) (record_from cells.old.nodes (Put place (Some entry))) (record_at (slots_over index.old cells.old) q)) }
    ensures tight { OnOk result ((q : FullNodeId) → is_some (slot_at (slots_over index.new cells.new) q)
        ≡ cond (is_at (full_cmp id) q) (is_some (record_at (slots_over index.new cells.new) q)) (is_some (slot_at (slots_over index.old cells.old) q))) }
    ensures others { (k : ℕ) → k ≢ entry → slot_of cells.new.cells k ≡ slot_of cells.old.cells k }
    ensures nodes { cells.new.nodes ≡ cells.old.nodes }
    ensures count { HasCellsForAll cells.new }
{
    if entry >= cells.listed() {
        return Ok(());
    }
    drop(index.insert(id, entry as u32)?);
    cells.place_listed(entry, id, place);
    Ok(())
}
