//! The changes of an update of a few nodes that gives them other data or moves a few nodes of their tree: one look-up for each
//! node of the update, and a few more for the ways up from new parents.
ghost use Rattle.std.specs.Prelude.{◌≡◌, ◌≢◌, ◌+◌, ◌≤◌, ◌<◌, ◌++◌, ℕ, length, slice_get, Contains, option_to_list, option_and_then, IfOk, IfErr, IfSome, IfNone, OnOk, IsSome, IsTrue, ◌↔◌, Some, None};
ghost use Rattle.std.specs.Option.{option_map};
ghost use Rattle.schema.specs.UpdateData.{update_data};
ghost use Rattle.model.specs.World.{World, Place, HasData, in_tree};
ghost use Rattle.model.specs.Update.{index_for};
ghost use Rattle.model.specs.Surgery.{IsOld};
ghost use Rattle.tree_changes.specs.Changes.{place_in};
ghost use Rattle.tree_changes.specs.LookUps.{IsPlaceOf, IsRaisedAtLeast, IsRaisedBy, IsRaisedUpTo};
ghost use Rattle.tree_changes.specs.declared.decision.NodeChange.TheVariants.{Put};
ghost use Rattle.tree_changes.specs.declared.error.UpdateError.TheVariants.{Memory};
ghost use Rattle.tree_changes.specs.Refusals.{IsRefusal};
ghost use Rattle.tree_plan.specs.Passes.{at};
ghost use Rattle.tree_plan.specs.Comparisons.{OnlyAt, OnlyIn, ids_before, ids_after};
ghost use Rattle.tree_plan.specs.News.{IsNamedOnce, AreAllChanges};
ghost use Rattle.tree_plan.specs.Moves.{KeepsLinks, came_to, Compares, AddsNode, AreMoves, IsAbove, LeadsUp, HasWay, HaveWays, HaveMoved, IsKeptRoot};

use crate::comparing::{Lists, child_at, full_id};
use crate::news::{are_same_ids, is_same_id, is_same_name, refuse_twice};
use crate::spare::Spare;
use model::{FullNodeId, Place};
use schema::{Node, TreeUpdate};
use std::alloc::Global;
use tree_changes::{LookUps, NodeChange, UpdateError};
use values_by_id::{RowList, SortedRows};

/// So many nodes of an update, and so many moved ones, are few.
const FEW: usize = 6;

/// So many records are looked up at most on the ways up from new parents.
const STEPS: usize = 15;

/// Whether an update has few nodes.
pub(crate) fn is_few(update: &TreeUpdate) -> bool
    ensures { IsTrue result → length update.now.nodes.items ≤ 6 }
{
    update.nodes.len() <= FEW
}

/// The changes so far, and the children that left a place in a list, each with the node that listed it.
#[derive(Drop)]
struct Moving {
    changes: RowList<NodeChange>,
    left: Vec<(FullNodeId, FullNodeId)>,
}

/// The changes in the order of their ids, the children that left a place, and the root of the tree.
#[derive(Clone, Copy)]
struct Moved<'a> {
    rows: &'a SortedRows<NodeChange>,
    left: &'a [(FullNodeId, FullNodeId)],
    root: FullNodeId,
}

/// Whether a node grafts the tree that it did, and has the active descendant that it had.
#[tactic(auto, using(crate::proofs::MoveSteps::other_name, crate::proofs::MoveSteps::links_kept))]
fn keeps_links(old: &Node, node: &Node) -> bool
    ensures { IsTrue result ↔ KeepsLinks old.now node.now }
{
    if !is_same_name(old.tree_id(), node.tree_id()) {
        return false;
    }
    is_same_id(old.active_descendant(), node.active_descendant())
}

impl Moving {
    /// Adds a child that left a place in a node's list, if there is one.
    fn leave(&mut self, child: Option<FullNodeId>, parent: FullNodeId) -> Result<(), UpdateError>
        ensures ok { OnOk result
            (self.new.left.items ≡ self.old.left.items ++ option_to_list (option_map (λ id. (id, parent)) child)) }
        ensures rest { self.new.changes ≡ self.old.changes }
        ensures err { IfErr result (λ e. e ≡ Memory) }
    {
        if let Some(id) = child {
            self.left.push((id, parent))?;
        }
        Ok(())
    }

    /// Adds the change of a child that entered a place, if there is one.
    fn enter(&mut self, child: Option<FullNodeId>, place: Place) -> Result<(), UpdateError>
        ensures ok { OnOk result
            (self.new.changes ≡ self.old.changes ++ option_to_list (option_map (λ id. (id, Put (Some place) None)) child)) }
        ensures rest { self.new.left ≡ self.old.left }
        ensures err { IfErr result (λ e. e ≡ Memory) }
    {
        if let Some(id) = child {
            let change = NodeChange::Put {
                place: Some(place),
                entry: None,
            };
            self.changes.push(id, change)?;
        }
        Ok(())
    }

    /// Adds the child that left an index of a list, if another one is there now, and the one that entered it. Returns `false`,
    /// without adding one, if there are too many.
    fn compare_at(&mut self, lists: &Lists<'_>, index: usize) -> Result<bool, UpdateError>
        ensures ok { IfOk result (λ taken. IsTrue taken → (
            let was = slice_get (ids_before lists.now) index in let is = slice_get (ids_after lists.now) index in
            let spot = Some (lists.now.parent, index) in
            Compares (OnlyAt spot was is) (OnlyAt spot is was) lists.now.parent self.old self.new)) }
        ensures err { IfErr result (λ e. e ≡ Memory) }
    {
        let was = child_at(lists.parent, lists.before, index);
        let is = child_at(lists.parent, lists.after, index);
        if was == is {
            return Ok(true);
        }
        if self.left.len() >= FEW || self.changes.len() >= FEW + FEW {
            return Ok(false);
        }
        self.leave(was, lists.parent)?;
        self.enter(is, (lists.parent, index))?;
        Ok(true)
    }

    /// Compares a node's child lists, old and new. Returns `false` if too many children left or entered a place.
    #[inline(never)]
    fn compare_lists(&mut self, lists: &Lists<'_>) -> Result<bool, UpdateError>
        ensures ok { IfOk result (λ taken. IsTrue taken → Compares
            (OnlyIn lists.now.parent (ids_before lists.now) (ids_after lists.now))
            (OnlyIn lists.now.parent (ids_after lists.now) (ids_before lists.now))
            lists.now.parent self.old self.new) }
        ensures err { IfErr result (λ e. e ≡ Memory) }
    {
        for index in 0..lists.before.len().max(lists.after.len()) {
            if !self.compare_at(lists, index)? {
                return Ok(false);
            }
        }
        Ok(true)
    }

    /// Compares a node whose list of children is another one with the data and the place that it had. Returns `false` if its graft or its
    /// active descendant is another one, or if it has too many other children.
    fn add_parent(
        &mut self,
        id: FullNodeId,
        place: Option<Place>,
        old: &Node,
        entry: usize,
        node: &Node,
    ) -> Result<bool, UpdateError>
        requires { old.now.children ≢ node.now.children }
        ensures ok { IfOk result (λ taken. IsTrue taken → (w : World) → HasData w id old.now → IsPlaceOf w id place →
            AddsNode w id entry node.now self.old self.new) }
        ensures err { IfErr result (λ e. e ≡ Memory) }
    {
        if !keeps_links(old, node) {
            return Ok(false);
        }
        if node.tree_id().is_some() {
            return Ok(false);
        }
        let change = NodeChange::Put {
            place,
            entry: Some(entry),
        };
        self.changes.push(id, change)?;
        let lists = Lists {
            parent: id,
            before: old.children(),
            after: node.children(),
        };
        self.compare_lists(&lists)
    }

    /// Compares a node with its old record. Returns `false` if it is new, if its graft or its active descendant is another one, or
    /// if it has too many other children.
    fn add_node<L: LookUps>(
        &mut self,
        look_ups: &mut L,
        id: FullNodeId,
        entry: usize,
        node: &Node,
    ) -> Result<bool, UpdateError>
        ensures world { L.world look_ups.new ≡ L.world look_ups.old }
        ensures count { IsRaisedBy (L.asked look_ups.old) 1 (L.asked look_ups.new) }
        ensures ok { IfOk result (λ taken. IsTrue taken →
            AddsNode (L.world look_ups.old) id entry node.now self.old self.new) }
        ensures err { IfErr result (λ e. e ≡ Memory) }
    {
        let Some(old) = look_ups.node(id) else {
            return Ok(false);
        };
        if !are_same_ids(old.node.children(), node.children()) {
            return self.add_parent(id, old.place, old.node, entry, node);
        }
        if *old.node == *node {
            return Ok(true);
        }
        if !keeps_links(old.node, node) {
            return Ok(false);
        }
        let change = NodeChange::Put {
            place: old.place,
            entry: Some(entry),
        };
        self.changes.push(id, change)?;
        Ok(true)
    }
}

/// Compares each node of the update with its old record; `None` if more has changed than the data and the places of a few old nodes.
fn compare_nodes<L: LookUps>(
    look_ups: &mut L,
    update: &TreeUpdate,
    index: u32,
    spare: &mut Spare,
) -> Result<Option<Moving>, UpdateError>
    requires old { IsOld (L.world look_ups.old) }
    requires index { index ≡ index_for (L.world look_ups.old) (update_data update.now).name }
    requires once { IsNamedOnce (update_data update.now) }
    ensures world { L.world look_ups.new ≡ L.world look_ups.old }
    ensures count { OnOk result (IsRaisedUpTo (L.asked look_ups.old) (length update.now.nodes.items) (L.asked look_ups.new)) }
    ensures all { IfOk result (λ moving. IfSome moving (λ _.
        IsRaisedAtLeast (L.asked look_ups.old) (length update.now.nodes.items) (L.asked look_ups.new))) }
    ensures ok { IfOk result (λ moving. IfSome moving
        (AreMoves (L.world look_ups.old) (update_data update.now) (length update.now.nodes.items))) }
    ensures err { IfErr result (λ e. e ≡ Memory) }
{
    let mut moving = Moving {
        changes: spare.take_changes(),
        left: spare.take_left(),
    };
    for (entry, item) in update.nodes.iter().enumerate() {
        let id = full_id(index, item.0);
        if !moving.add_node(look_ups, id, entry, &item.1)? {
            return Ok(None);
        }
    }
    Ok(Some(moving))
}

/// The place to which a change moves a node that keeps its data.
fn new_place(change: NodeChange) -> Option<Place>
    ensures { result ≡ came_to change }
{
    match change {
        NodeChange::Put { place, entry } => {
            if entry.is_some() {
                return None;
            }
            place
        }
        NodeChange::Gone => None,
    }
}

/// The place after a change.
fn place_after(change: NodeChange) -> Option<Place>
    ensures { result ≡ place_in change }
{
    match change {
        NodeChange::Put { place, .. } => place,
        NodeChange::Gone => None,
    }
}

/// The change of a node. There are few, so each is looked at.
fn change_of(rows: &SortedRows<NodeChange>, id: FullNodeId) -> Option<NodeChange>
    ensures { result ≡ at rows.now id }
{
    for row in rows.entries() {
        if row.0 == id {
            return Some(row.1);
        }
    }
    None
}

/// The place to which a node that keeps its data has come.
fn place_of(rows: &SortedRows<NodeChange>, id: FullNodeId) -> Option<Place>
    ensures { result ≡ option_and_then came_to (at rows.now id) }
{
    match change_of(rows, id) {
        Some(change) => new_place(change),
        None => None,
    }
}

/// Whether each child that left a place has come to one.
fn have_moved(rows: &SortedRows<NodeChange>, left: &[(FullNodeId, FullNodeId)]) -> bool
    ensures { IsTrue result → HaveMoved rows.now left.now }
{
    for item in left {
        if place_of(rows, item.0).is_none() {
            return false;
        }
    }
    true
}

/// The node whose list a child left.
fn old_parent(left: &[(FullNodeId, FullNodeId)], id: FullNodeId) -> Option<FullNodeId>
    ensures { IfSome result (λ parent. Contains left.now (id, parent)) }
{
    for item in left {
        if item.0 == id {
            return Some(item.1);
        }
    }
    None
}

/// The parent of a node after the changes; `None` if there is no parent, or if no more records may be looked up.
fn parent_after<L: LookUps>(
    look_ups: &mut L,
    rows: &SortedRows<NodeChange>,
    id: FullNodeId,
    room: &mut usize,
) -> Option<FullNodeId>
    ensures world { L.world look_ups.new ≡ L.world look_ups.old }
    ensures count { L.asked look_ups.new + room.new ≤ L.asked look_ups.old + room.old }
    ensures least { IsRaisedAtLeast (L.asked look_ups.old) 0 (L.asked look_ups.new) }
    ensures above { IfSome result (IsAbove (L.world look_ups.old) rows.now id) }
{
    if let Some(change) = change_of(rows, id) {
        let (parent, _) = place_after(change)?;
        return Some(parent);
    }
    if *room == 0 {
        return None;
    }
    *room = *room - 1;
    let record = look_ups.node(id)?;
    let (parent, _) = record.place?;
    Some(parent)
}

/// Whether parents lead up from a node to the root. `room` is how many more records may be looked up.
fn is_reached<L: LookUps>(
    look_ups: &mut L,
    moved: &Moved<'_>,
    start: FullNodeId,
    room: &mut usize,
) -> bool
    ensures world { L.world look_ups.new ≡ L.world look_ups.old }
    ensures count { L.asked look_ups.new + room.new ≤ L.asked look_ups.old + room.old }
    ensures least { IsRaisedAtLeast (L.asked look_ups.old) 0 (L.asked look_ups.new) }
    ensures reached { IsTrue result → LeadsUp (L.world look_ups.old) moved.now.rows.now moved.now.root start }
{
    let mut id = start;
    for _step in 0..STEPS + FEW {
        if id == moved.root {
            return true;
        }
        let Some(parent) = parent_after(look_ups, moved.rows, id, room) else {
            return false;
        };
        id = parent;
    }
    false
}

/// Whether a node that has come to a place left one, and its new parent is reached.
fn has_way<L: LookUps>(
    look_ups: &mut L,
    moved: &Moved<'_>,
    id: FullNodeId,
    change: NodeChange,
    room: &mut usize,
) -> bool
    ensures world { L.world look_ups.new ≡ L.world look_ups.old }
    ensures count { L.asked look_ups.new + room.new ≤ L.asked look_ups.old + room.old }
    ensures least { IsRaisedAtLeast (L.asked look_ups.old) 0 (L.asked look_ups.new) }
    ensures way { IsTrue result → (p : Place) → came_to change ≡ Some p →
        HasWay (L.world look_ups.old) moved.now.rows.now moved.now.left.now moved.now.root id p }
{
    let Some((parent, _)) = new_place(change) else {
        return true;
    };
    let Some(before) = old_parent(moved.left, id) else {
        return false;
    };
    if before == parent {
        return true;
    }
    is_reached(look_ups, moved, parent, room)
}

/// Whether each node that has come to a place left one, and its new parent is reached.
fn have_ways<L: LookUps>(look_ups: &mut L, moved: &Moved<'_>) -> bool
    ensures world { L.world look_ups.new ≡ L.world look_ups.old }
    ensures count { IsRaisedUpTo (L.asked look_ups.old) 15 (L.asked look_ups.new) }
    ensures ways { IsTrue result →
        HaveWays (L.world look_ups.old) moved.now.rows.now moved.now.left.now moved.now.root }
{
    let mut room = STEPS;
    for item in moved.rows.entries() {
        if !has_way(look_ups, moved, item.0, item.1, &mut room) {
            return false;
        }
    }
    true
}

/// The changes if only data of the update's nodes and places of a few nodes are new; `None` for any other update, and if it takes too
/// many look-ups to see that what moved is reached. `root` is the root of the update's tree, whose record is unchanged.
///
/// It is never inlined, so that an update that moves nothing doesn't pay for the stack space of what moves.
#[inline(never)]
pub(crate) fn find_moves<L: LookUps>(
    alloc: Global,
    look_ups: &mut L,
    update: &TreeUpdate,
    root: FullNodeId,
    spare: &mut Spare,
) -> Result<Option<SortedRows<NodeChange>>, UpdateError>
    requires old { IsOld (L.world look_ups.old) }
    requires root { IsKeptRoot (L.world look_ups.old) (update_data update.now) root }
    ensures world { L.world look_ups.new ≡ L.world look_ups.old }
    ensures err { IfErr result (λ e. IsRefusal (L.world look_ups.old) (update_data update.now) e) }
    ensures ok { IfOk result (λ rows. IfSome rows (AreAllChanges (L.world look_ups.old) (update_data update.now))) }
    ensures few { IfOk result (λ rows. IfSome rows (λ rows. length rows ≤ length update.now.nodes.items + 6)) }
    ensures count { OnOk result
        (IsRaisedUpTo (L.asked look_ups.old) (length update.now.nodes.items + 15) (L.asked look_ups.new)) }
    ensures named { IfOk result (λ rows. IfSome rows (λ _.
        IsRaisedAtLeast (L.asked look_ups.old) (length update.now.nodes.items) (L.asked look_ups.new))) }
{
    refuse_twice(alloc, root.tree, update)?;
    let Some(moving) = compare_nodes(look_ups, update, root.tree, spare)? else {
        return Ok(None);
    };
    let Ok(changes) = moving.changes.settle() else {
        return Ok(None);
    };
    if changes.len() > update.nodes.len() + FEW {
        return Ok(None);
    }
    if !have_moved(&changes, &moving.left) {
        return Ok(None);
    }
    let moved = Moved {
        rows: &changes,
        left: &moving.left,
        root,
    };
    if !have_ways(look_ups, &moved) {
        return Ok(None);
    }
    spare.keep_left(moving.left);
    Ok(Some(changes))
}
