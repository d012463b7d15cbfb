//! The slots of nodes by id: an index gives the number of an id's cell.
ghost use Rattle.std.specs.Prelude.{◌≡◌, ◌≢◌, ◌<◌, ◌≤◌, ◌^◌, ◌++◌, ◌∷◌, [], ℕ, length, slice_get, option_map, Some, None, is_some, IsSome, IsTrue, cond, IfOk, OnOk, OnErr};
ghost use Rattle.std.specs.BTreeMap.{is_at};
ghost use Rattle.std.specs.Map.{keys_of};
ghost use Rattle.std.specs.Vec.{vec_len, vec_capacity};
ghost use Rattle.model.specs.declared.FullNodeId.{FullNodeId};
ghost use Rattle.model.specs.FullIds.{full_cmp};
ghost use Rattle.tree_changes.specs.declared.decision.NodeChange.TheVariants.{Put};
ghost use Rattle.tree_store.specs.Cells.{no_slots, number_of, slot_at, record_at, HasOwnCells, IsFreeList};
ghost use Rattle.tree_store.specs.CellLists.{record_kept, slots_over};
ghost use Rattle.tree_store.specs.Commits.{record_moved_to, record_after};

use crate::cell_list::{CellList, MOST, grow};
use crate::guesses::Guesses;
use crate::records::Kept;
use model::{FullNodeId, Place};
use schema::{Node, NodeId};
use std::alloc::{AllocError, Global};
use std::marker::Model;
use values_by_id::IdIndex;

/// The slots of nodes. An empty slot is one that a commit will fill.
///
/// Each slot is in a cell, under a number that stays as long as the slot does. To take a slot away frees its cell, and
/// allocates nothing: there is room for the number of each cell in the list of free ones.
#[derive(Drop)]
pub(crate) struct Slots {
    index: IdIndex<u32>,
    cells: CellList,
    free: Vec<u32>,
    guesses: Guesses,
}

impl Model for Slots {
    ghost use Rattle.tree_store.specs.Cells.{SlotsView};
    ghost use Rattle.tree_store.specs.CellsKept.{slots_of, IsKept};

    ghost Value = { SlotsView };

    ghost view = { slots_of };

    ghost invariant = { IsKept };
}

impl Slots {
    pub(crate) fn new(alloc: Global) -> Slots
        ensures { result ≡ no_slots }
    {
        Slots {
            index: IdIndex::new(alloc),
            cells: CellList::new(alloc),
            free: Vec::new(alloc),
            guesses: Guesses::new(alloc),
        }
    }

    /// The slots of cells whose numbers an index has.
    ///
    /// # Errors
    ///
    /// Returns `AllocError` if memory runs out.
    pub(crate) fn of_first(
        alloc: Global,
        index: IdIndex<u32>,
        cells: CellList,
    ) -> Result<Slots, AllocError>
        requires own { HasOwnCells (slots_over index cells) }
        requires bound { length cells.cells < 2 ^ 32 }
        ensures { IfOk result (λ made. made ≡ slots_over index cells) }
    {
        let free = free_numbers(alloc, &cells)?;
        let mut guesses = Guesses::new(alloc);
        note_all(&mut guesses, &index, &cells);
        Ok(Slots {
            index,
            cells,
            free,
            guesses,
        })
    }

    /// Each id's cell is its own. Only a proof uses this; it computes nothing.
    pub(crate) fn know(&self)
        ensures { HasOwnCells self.now }
    {
        let _count = self.index.len();
    }

    /// How many ids have a slot.
    pub(crate) fn len(&self) -> usize
        ensures count { result ≡ length self.now.numbers }
        ensures bound { result < 2 ^ 63 }
    {
        self.index.len()
    }

    /// The place and data of an id, if it has a record.
    pub(crate) fn record(&self, id: FullNodeId) -> Option<Kept<'_>>
        ensures { option_map record_kept result ≡ record_at self.now id }
    {
        self.cells.record(self.number(id)?)
    }

    /// The place and data of an id that has a record. This function is never inlined, so that walks stay short.
    #[inline(never)]
    pub(crate) fn known_record(&self, id: FullNodeId) -> Kept<'_>
        requires { IsSome (record_at self.now id) }
        ensures { Some (record_kept result) ≡ record_at self.now id }
    {
        let number = self.number(id).unwrap();
        self.cells.known(number)
    }

    /// The number of an id's cell: the one in its row, or a guess that is right, or else the one that the index finds.
    #[inline(always)]
    fn number(&self, id: FullNodeId) -> Option<u32>
        ensures { result ≡ number_of self.now id }
    {
        if let Some(number) = self.index.get_in_row(&id) {
            return Some(*number);
        }
        let guess = self.guesses.guess(id);
        if self.is_cell_of(guess, id) {
            return Some(guess);
        }
        self.searched_number(id)
    }

    /// Whether the cell with a number has a slot and is an id's.
    #[inline(always)]
    fn is_cell_of(&self, number: u32, id: FullNodeId) -> bool
        ensures { IsTrue result → number_of self.now id ≡ Some number }
    {
        self.cells.is_of(number, id)
    }

    /// The number of an id's cell, as the index finds it. It is never inlined, so that walks stay short.
    #[inline(never)]
    fn searched_number(&self, id: FullNodeId) -> Option<u32>
        ensures { result ≡ number_of self.now id }
    {
        self.index.get(&id).copied()
    }

    /// Whether an id has a record.
    pub(crate) fn has_record(&self, id: FullNodeId) -> bool
        ensures { result ≡ is_some (record_at self.now id) }
    {
        self.record(id).is_some()
    }

    /// Whether an id has a slot.
    pub(crate) fn contains_key(&self, id: FullNodeId) -> bool
        ensures { result ≡ is_some (slot_at self.now id) }
    {
        self.know();
        self.number(id).is_some()
    }

    /// The ids that have a slot.
    ///
    /// # Errors
    ///
    /// Returns `AllocError` if memory runs out.
    pub(crate) fn ids(&self, alloc: Global) -> Result<Vec<FullNodeId>, AllocError>
        ensures { IfOk result (λ ids. ids.items ≡ keys_of self.now.numbers) }
    {
        self.index.ids(alloc)
    }

    /// Gives an empty slot to an id that has none.
    ///
    /// # Errors
    ///
    /// Returns `AllocError` if memory runs out, or if there are as many cells as numbers of 32 bits. The slots are then
    /// unchanged.
    pub(crate) fn add(&mut self, id: FullNodeId) -> Result<(), AllocError>
        requires { slot_at self.old id ≡ None }
        ensures ok { OnOk result ((q : FullNodeId) →
            slot_at self.new q ≡ cond (is_at (full_cmp id) q) (Some None) (slot_at self.old q)) }
        ensures err { OnErr result (self.new ≡ self.old) }
    {
        let number = self.give(id)?;
        self.note(id, number);
        Ok(())
    }

    // notes the number of an id's cell, if it would be searched
    fn note(&mut self, id: FullNodeId, number: u32)
        ensures { self.new ≡ self.old }
    {
        if self.index.get_in_row(&id).is_none() {
            self.guesses.note(self.cells.as_slice(), id, number);
        }
    }

    // gives a cell to an id that has none, and returns its number
    fn give(&mut self, id: FullNodeId) -> Result<u32, AllocError>
        requires { slot_at self.old id ≡ None }
        ensures ok { OnOk result ((q : FullNodeId) →
            slot_at self.new q ≡ cond (is_at (full_cmp id) q) (Some None) (slot_at self.old q)) }
        ensures err { OnErr result (self.new ≡ self.old) }
    {
        let Some(number) = self.free.last().copied() else {
            return self.push(id);
        };
        let slot = self.cells.empty_slot(number as usize)?;
        drop(self.index.insert(id, number)?);
        self.cells.fill(number, id, slot);
        drop(self.free.pop());
        Ok(number)
    }

    // gives a new cell to an id that has none, and returns its number
    fn push(&mut self, id: FullNodeId) -> Result<u32, AllocError>
        requires { slot_at self.old id ≡ None }
        ensures ok { OnOk result ((q : FullNodeId) →
            slot_at self.new q ≡ cond (is_at (full_cmp id) q) (Some None) (slot_at self.old q)) }
        ensures err { OnErr result (self.new ≡ self.old) }
    {
        let number = self.cells.len();
        if number >= MOST {
            return Err(AllocError);
        }
        let slot = self.cells.empty_slot(number)?;
        self.cells.grow(number + 1)?;
        grow(&mut self.free, number + 1)?;
        drop(self.index.insert(id, number as u32)?);
        self.cells.push(id, slot);
        Ok(number as u32)
    }

    /// Takes away the slot of an id, with what is in it. Nothing is allocated.
    pub(crate) fn remove(&mut self, id: FullNodeId)
        ensures { (q : FullNodeId) → slot_at self.new q ≡ cond (is_at (full_cmp id) q) None (slot_at self.old q) }
    {
        let Some(number) = self.index.remove(&id) else {
            return;
        };
        self.cells.free(number, id);
        if self.free.push(number).is_err() {
            unreachable!()
        }
    }

    /// Sets a node's place and swaps its data with an entry's.
    pub(crate) fn put_node(
        &mut self,
        nodes: &mut Vec<(NodeId, Node)>,
        id: FullNodeId,
        place: Option<Place>,
        entry: usize,
    )
        requires slot { IsSome (slot_at self.old id) }
        requires entry { entry < length nodes.old.items }
        ensures slots { (q : FullNodeId) → slot_at self.new q
            ≡ cond (is_at (full_cmp id) q) (Some (record_after nodes.old.items (Put place (Some entry)) (record_at self.old id)))
            (slot_at self.old q) }
        ensures nodes { (k : ℕ) → k ≢ entry → slice_get nodes.new.items k ≡ slice_get nodes.old.items k }
        ensures count { length nodes.new.items ≡ length nodes.old.items }
    {
        match self.number(id) {
            Some(number) => self.cells.put(nodes, number, place, entry),
            None => unreachable!(),
        }
    }

    /// Sets the place of the record in a slot, and returns whether there is one.
    pub(crate) fn set_place(&mut self, id: FullNodeId, place: Option<Place>) -> bool
        requires { IsSome (slot_at self.old id) }
        ensures there { result ≡ is_some (record_at self.old id) }
        ensures after { (q : FullNodeId) → slot_at self.new q
            ≡ cond (is_at (full_cmp id) q) (Some (record_moved_to place (record_at self.old id))) (slot_at self.old q) }
    {
        match self.number(id) {
            Some(number) => self.cells.move_to(number, place),
            None => unreachable!(),
        }
    }
}

// the numbers of the free cells, with room for those of all
fn free_numbers(alloc: Global, cells: &CellList) -> Result<Vec<u32>, AllocError>
    requires { length cells.now.cells < 2 ^ 32 }
    ensures free { IfOk result (λ free. IsFreeList cells.now.cells free.items) }
    ensures room { IfOk result (λ free. length cells.now.cells ≤ vec_capacity free) }
{
    let mut free = Vec::new(alloc);
    free.reserve_exact(cells.len())?;
    for number in 0..cells.len() {
        push_free(&mut free, number as u32, cells.is_free(number))?;
    }
    Ok(free)
}

// adds a number to a list if its cell is free
fn push_free(free: &mut Vec<u32>, number: u32, is_free: bool) -> Result<(), AllocError>
    ensures ok { OnOk result (free.new.items ≡ cond is_free (free.old.items ++ number ∷ []) free.old.items) }
    ensures room { vec_capacity free.old ≤ vec_capacity free.new }
{
    if is_free {
        free.push(number)?;
    }
    Ok(())
}

// notes the numbers of all cells whose ids would be searched
fn note_all(guesses: &mut Guesses, index: &IdIndex<u32>, cells: &CellList) {
    let mut searched = 0usize;
    for cell in cells.as_slice() {
        if index.get_in_row(&cell.id).is_none() {
            searched = searched.saturating_add(1);
        }
    }
    if searched > 0 {
        guesses.note_all(cells.as_slice(), searched);
    }
}
