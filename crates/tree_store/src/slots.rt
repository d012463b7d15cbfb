//! Slots for the nodes that an update changes, and what is written into them.
ghost use Rattle.std.specs.Prelude.{◌≡◌, ◌≢◌, ◌<◌, ℕ, length, slice_get, option_copied, option_map, Some, None, is_some, map, IsSome, IfSome, IsTrue, ◌||◌, cond, IfOk, OnOk, OnErr};
ghost use Rattle.std.specs.BTreeMap.{is_at};
ghost use Rattle.model.specs.declared.FullNodeId.{FullNodeId};
ghost use Rattle.model.specs.FullIds.{full_cmp};
ghost use Rattle.tree_changes.specs.Changes.{change_at, entry_data, entry_of};
ghost use Rattle.tree_store.specs.Cells.{slot_at, record_at};
ghost use Rattle.tree_store.specs.Commits.{record_moved_to, record_after, changed_record, HasEntries, AreEntriesApart, HasNoSpare, HasRoomFor};
ghost use Rattle.std.specs.List.Sorted.{IsStrictlySortedBy};
ghost use Rattle.tree_changes.specs.declared.decision.NodeChange.TheVariants.{Put};

use crate::cells::Slots;
use model::{FullNodeId, Place};
use schema::{Node, NodeId};
use std::alloc::AllocError;
use tree_changes::NodeChange;

/// Makes an empty slot for each changed node that has none. If an allocation fails, all of them are removed.
pub(crate) fn make_room(
    slots: &mut Slots,
    changes: &[(FullNodeId, NodeChange)],
) -> Result<(), AllocError>
    requires { HasNoSpare slots.old }
    ensures same { (id : FullNodeId) → record_at slots.new id ≡ record_at slots.old id }
    ensures ok { OnOk result (HasRoomFor slots.new changes.now) }
    ensures err { OnErr result (HasNoSpare slots.new) }
{
    for change in changes {
        if add_slot(slots, change.0).is_err() {
            take_back(slots, changes);
            return Err(AllocError);
        }
    }
    Ok(())
}

fn add_slot(slots: &mut Slots, id: FullNodeId) -> Result<(), AllocError>
    ensures same { (q : FullNodeId) → record_at slots.new q ≡ record_at slots.old q }
    ensures ok { OnOk result ((q : FullNodeId) → is_some (slot_at slots.new q) ≡ (is_at (full_cmp id) q || is_some (slot_at slots.old q))) }
    ensures err { OnErr result ((q : FullNodeId) → is_some (slot_at slots.new q) ≡ is_some (slot_at slots.old q)) }
{
    if slots.contains_key(id) {
        return Ok(());
    }
    slots.add(id)
}

/// Removes the empty slots of changed nodes.
pub(crate) fn take_back(slots: &mut Slots, changes: &[(FullNodeId, NodeChange)])
    requires { (id : FullNodeId) → IsTrue (is_some (slot_at slots.old id)) →
        IsTrue (is_some (record_at slots.old id) || is_some (change_at changes.now id)) }
    ensures same { (id : FullNodeId) → record_at slots.new id ≡ record_at slots.old id }
    ensures tight { HasNoSpare slots.new }
{
    for change in changes {
        remove_empty(slots, change.0);
    }
}

fn remove_empty(slots: &mut Slots, id: FullNodeId)
    ensures same { (q : FullNodeId) → record_at slots.new q ≡ record_at slots.old q }
    ensures tight { (q : FullNodeId) → is_some (slot_at slots.new q)
        ≡ cond (is_at (full_cmp id) q) (is_some (record_at slots.old q)) (is_some (slot_at slots.old q)) }
{
    if !slots.has_record(id) {
        slots.remove(id);
    }
}

// sets a node's place
fn put_place(slots: &mut Slots, id: FullNodeId, place: Option<Place>)
    requires { IsSome (slot_at slots.old id) }
    ensures records { (q : FullNodeId) → record_at slots.new q
        ≡ cond (is_at (full_cmp id) q) (record_moved_to place (record_at slots.old id)) (record_at slots.old q) }
    ensures tight { (q : FullNodeId) → is_some (slot_at slots.new q)
        ≡ cond (is_at (full_cmp id) q) (is_some (record_at slots.new q)) (is_some (slot_at slots.old q)) }
{
    if !slots.set_place(id, place) {
        slots.remove(id);
    }
}

fn write(slots: &mut Slots, nodes: &mut Vec<(NodeId, Node)>, id: FullNodeId, change: NodeChange)
    requires slot { IsSome (slot_at slots.old id) }
    requires entry { IfSome (entry_of change) (λ k. k < length nodes.old.items) }
    ensures records { (q : FullNodeId) → record_at slots.new q
        ≡ cond (is_at (full_cmp id) q) (record_after nodes.old.items change (record_at slots.old id)) (record_at slots.old q) }
    ensures tight { (q : FullNodeId) → is_some (slot_at slots.new q)
        ≡ cond (is_at (full_cmp id) q) (is_some (record_at slots.new q)) (is_some (slot_at slots.old q)) }
    ensures nodes { (k : ℕ) → entry_of change ≢ Some k → slice_get nodes.new.items k ≡ slice_get nodes.old.items k }
    ensures count { length nodes.new.items ≡ length nodes.old.items }
{
    match change {
        NodeChange::Put {
            place,
            entry: Some(entry),
        } => slots.put_node(nodes, id, place, entry),
        NodeChange::Put { place, entry: None } => put_place(slots, id, place),
        NodeChange::Gone => slots.remove(id),
    }
}

/// Writes the changes into their slots. Their data is taken out of the update's nodes. Nothing is allocated.
pub(crate) fn write_all(
    slots: &mut Slots,
    nodes: &mut Vec<(NodeId, Node)>,
    changes: &[(FullNodeId, NodeChange)],
)
    requires room { HasRoomFor slots.old changes.now }
    requires ascending { IsStrictlySortedBy full_cmp (map (λ e. e.0) changes.now) }
    requires entries { HasEntries nodes.old.items changes.now }
    requires apart { AreEntriesApart changes.now }
    ensures records { (id : FullNodeId) → record_at slots.new id
        ≡ changed_record nodes.old.items (change_at changes.now id) (record_at slots.old id) }
    ensures tight { HasNoSpare slots.new }
{
    for change in changes {
        write(slots, nodes, change.0, change.1);
    }
}
