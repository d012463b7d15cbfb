//! Cells by number, and where the data of their nodes is: in the list that a first update brought, or in a box.
ghost use Rattle.std.specs.Prelude.{◌≡◌, ◌≢◌, ◌<◌, ◌≤◌, ◌^◌, ◌++◌, ◌∷◌, [], ℕ, Bool, map, length, slice_get, slice_set, option_map, option_copied, is_some, is_none, Option, Some, None, IsSome, IsTrue, IfSome, IfOk, OnOk};
ghost use Rattle.std.specs.Vec.{vec_capacity};
ghost use Rattle.schema.specs.NodeData.{NodeData};
ghost use Rattle.model.specs.declared.FullNodeId.{FullNodeId};
ghost use Rattle.tree_changes.specs.Changes.{entry_data};
ghost use Rattle.tree_changes.specs.declared.decision.NodeChange.TheVariants.{Put};
ghost use Rattle.tree_store.specs.Cells.{CellView, record_in};
ghost use Rattle.tree_store.specs.declared.cell_list.Slot.TheVariants.{Listed};
ghost use Rattle.tree_store.specs.CellLists.{slot_of, slot_seen, node_seen, is_full, cell_with, record_kept, placed_record, IsEmptySlot, AreFree, HasCellsForAll};
ghost use Rattle.tree_store.specs.Commits.{record_moved_to, record_after};

use crate::records::Kept;
use model::{FullNodeId, Place, is_same};
use schema::{Node, NodeId, Role};
use std::alloc::{AllocError, Global};
use std::marker::Model;
use std::mem;

/// What a cell has: nothing if it is free; a slot whose node is in the list of nodes, under the cell's number, once it is filled; or a
/// slot in a box.
#[derive(Drop)]
pub(crate) enum Slot {
    Free,
    Listed(bool),
    Boxed(Box<Option<Node>>),
}

/// A cell: the id that it is of, the place of its node, and its slot. A free cell's id and place mean nothing.
#[derive(Drop)]
pub(crate) struct Cell {
    pub(crate) id: FullNodeId,
    pub(crate) place: Option<Place>,
    pub(crate) slot: Slot,
}

/// The maximum number of cells. Each has a number of 32 bits, and the greatest such number is left for no cell.
pub(crate) const MOST: usize = u32::MAX as usize;

/// How many entries a first update's list may have room for beyond its nodes, besides an eighth of these.
const SPARE: usize = 16;

const NO_CELL: Cell = Cell {
    id: FullNodeId {
        tree: 0,
        node: NodeId(0),
    },
    place: None,
    slot: Slot::Free,
};

/// Cells by number. The nodes of a first update stay in the list in which they were sent, each under the number of its cell, so that
/// none of them is moved. What later nodes need is freed with them; a place in the list that is free again is used by a later node.
#[derive(Drop)]
pub(crate) struct CellList {
    alloc: Global,
    cells: Vec<Cell>,
    listed: Vec<(NodeId, Node)>,
}

impl Model for CellList {
    ghost use Rattle.tree_store.specs.CellLists.{CellsView, cells_of, IsListed};

    ghost Value = { CellsView };

    ghost view = { cells_of };

    ghost invariant = { IsListed };
}

impl CellList {
    pub(crate) fn new(alloc: Global) -> CellList
        ensures { result.cells ≡ [] }
    {
        CellList {
            alloc,
            cells: Vec::new(alloc),
            listed: Vec::new(alloc),
        }
    }

    /// As many free cells as there are nodes in a first update's list.
    ///
    /// # Errors
    ///
    /// Returns `AllocError` if memory runs out, or if there are as many nodes as numbers of 32 bits.
    pub(crate) fn over(
        alloc: Global,
        mut listed: Vec<(NodeId, Node)>,
    ) -> Result<CellList, AllocError>
        ensures cells { IfOk result (λ made. (n : ℕ) → slot_of made.cells n ≡ None) }
        ensures count { IfOk result (λ made. HasCellsForAll made) }
        ensures nodes { IfOk result (λ made. made.nodes ≡ map (λ e. e.1) listed.items) }
    {
        if listed.len() > MOST {
            return Err(AllocError);
        }
        let cells = free_cells(alloc, listed.len())?;
        note_fits(&mut listed);
        release(&mut listed);
        Ok(CellList {
            alloc,
            cells,
            listed,
        })
    }

    /// The cells, for who only guesses numbers.
    pub(crate) fn as_slice(&self) -> &[Cell] {
        self.cells.as_slice()
    }

    pub(crate) fn len(&self) -> usize
        ensures { result ≡ length self.now.cells }
    {
        self.cells.len()
    }

    /// How many nodes are in the list.
    pub(crate) fn listed(&self) -> usize
        ensures { result ≡ length self.now.nodes }
    {
        self.listed.len()
    }

    /// Whether the cell with a number has a slot and is an id's.
    #[inline(always)]
    pub(crate) fn is_of(&self, number: u32, id: FullNodeId) -> bool
        ensures { IsTrue result → (c : CellView) × (slice_get self.now.cells number ≡ Some c) × (c.id ≡ id) × IsSome c.slot }
    {
        match self.cells.get(number as usize) {
            Some(cell) => is_same(cell.id, id) && !is_free(cell),
            None => false,
        }
    }

    /// Whether the cell with a number has no slot.
    pub(crate) fn is_free(&self, number: usize) -> bool
        requires { number < length self.now.cells }
        ensures { IfSome (slice_get self.now.cells number) (λ c. result ≡ is_none c.slot) }
    {
        is_free(&self.cells[number])
    }

    /// The place and the data in the cell with a number.
    #[inline(always)]
    pub(crate) fn record(&self, number: u32) -> Option<Kept<'_>>
        ensures { option_map record_kept result ≡ record_in (slot_of self.now.cells number) }
    {
        let cell = self.cells.get(number as usize)?;
        let node = node_in(cell, self.listed.as_slice(), number as usize)?;
        Some(Kept {
            place: &cell.place,
            node,
        })
    }

    /// The place and the data in the cell with a number, where there are any: so nothing is asked of the cell but where its node is.
    #[inline(always)]
    pub(crate) fn known(&self, number: u32) -> Kept<'_>
        requires { IsSome (record_in (slot_of self.now.cells number)) }
        ensures { Some (record_kept result) ≡ record_in (slot_of self.now.cells number) }
    {
        let at = number as usize;
        let cell = &self.cells[at];
        let place = &cell.place;
        let node = known_in(cell, self.listed.as_slice(), at);
        Kept { place, node }
    }

    /// Makes room for so many cells in all: for an eighth more than that, since they come one by one.
    ///
    /// # Errors
    ///
    /// Returns `AllocError` if memory runs out.
    pub(crate) fn grow(&mut self, wanted: usize) -> Result<(), AllocError>
        requires { wanted ≤ 2 ^ 32 }
        ensures cells { self.new.cells ≡ self.old.cells }
        ensures nodes { self.new.nodes ≡ self.old.nodes }
        ensures ok { OnOk result (wanted ≤ self.new.capacity) }
    {
        grow(&mut self.cells, wanted)
    }

    /// A slot without a node, for the cell with a number.
    ///
    /// # Errors
    ///
    /// Returns `AllocError` if memory runs out.
    pub(crate) fn empty_slot(&self, number: usize) -> Result<Slot, AllocError>
        ensures { IfOk result (IsEmptySlot (length self.now.nodes) number) }
    {
        if number < self.listed.len() {
            return Ok(Slot::Listed(false));
        }
        Ok(Slot::Boxed(Box::new(self.alloc, None)?))
    }

    /// Gives a cell to an id, with an empty slot.
    pub(crate) fn fill(&mut self, number: u32, id: FullNodeId, slot: Slot)
        requires there { number < length self.old.cells }
        requires empty { IsEmptySlot (length self.old.nodes) number slot }
        ensures { self.new.cells ≡ slice_set self.old.cells number (cell_with id (Some None)) }
    {
        let place = None;
        self.cells[number as usize] = Cell { id, place, slot };
    }

    /// A new cell of an id, with an empty slot.
    pub(crate) fn push(&mut self, id: FullNodeId, slot: Slot)
        requires room { length self.old.cells < self.old.capacity }
        requires empty { IsEmptySlot (length self.old.nodes) (length self.old.cells) slot }
        ensures { self.new.cells ≡ self.old.cells ++ cell_with id (Some None) ∷ [] }
    {
        let place = None;
        if self.cells.push(Cell { id, place, slot }).is_err() {
            unreachable!()
        }
    }

    /// Gives a cell to an id at a place, with the data under its number in the list.
    pub(crate) fn place_listed(&mut self, number: usize, id: FullNodeId, place: Option<Place>)
        requires listed { number < length self.old.nodes }
        requires there { number < length self.old.cells }
        ensures cells { self.new.cells ≡ slice_set self.old.cells number
            (cell_with id (Some (option_map (placed_record place) (slice_get self.old.nodes number)))) }
        ensures nodes { self.new.nodes ≡ self.old.nodes }
    {
        let slot = Slot::Listed(true);
        self.cells[number] = Cell { id, place, slot };
    }

    /// Frees a cell, with what is in its slot.
    pub(crate) fn free(&mut self, number: u32, id: FullNodeId)
        requires { number < length self.old.cells }
        ensures { self.new.cells ≡ slice_set self.old.cells number (cell_with id None) }
    {
        let at = number as usize;
        forget(self.alloc, &mut self.listed, &self.cells[at], at);
        let place = None;
        let slot = Slot::Free;
        self.cells[at] = Cell { id, place, slot };
    }

    /// Sets a place and swaps the data with an entry's.
    pub(crate) fn put(
        &mut self,
        nodes: &mut Vec<(NodeId, Node)>,
        number: u32,
        place: Option<Place>,
        entry: usize,
    )
        requires slot { IsSome (slot_of self.old.cells number) }
        requires entry { entry < length nodes.old.items }
        ensures cell { (c : CellView) → slice_get self.old.cells number ≡ Some c → self.new.cells ≡ slice_set self.old.cells number
            (cell_with c.id (Some (record_after nodes.old.items (Put place (Some entry)) (record_in c.slot)))) }
        ensures nodes { (k : ℕ) → k ≢ entry → slice_get nodes.new.items k ≡ slice_get nodes.old.items k }
        ensures count { length nodes.new.items ≡ length nodes.old.items }
    {
        let at = number as usize;
        let cell = &mut self.cells[at];
        cell.place = place;
        match &mut cell.slot {
            Slot::Free => unreachable!(),
            Slot::Listed(is_filled) => {
                *is_filled = true;
                put_listed(&mut self.listed, at, nodes, entry);
            }
            Slot::Boxed(slot) => put_in(self.alloc, &mut **slot, nodes, entry),
        }
    }

    /// Sets the place of what is in a cell, and returns whether there is anything.
    pub(crate) fn move_to(&mut self, number: u32, place: Option<Place>) -> bool
        requires { IsSome (slot_of self.old.cells number) }
        ensures there { result ≡ is_some (record_in (slot_of self.old.cells number)) }
        ensures cell { (c : CellView) → slice_get self.old.cells number ≡ Some c → self.new.cells ≡ slice_set self.old.cells number
            (cell_with c.id (Some (record_moved_to place (record_in c.slot)))) }
    {
        set_place(&mut self.cells[number as usize], place)
    }
}

fn free_cells(alloc: Global, count: usize) -> Result<Vec<Cell>, AllocError>
    ensures count { IfOk result (λ cells. length cells.items ≡ count) }
    ensures free { IfOk result (λ cells. AreFree cells.items) }
{
    let mut cells = Vec::new(alloc);
    cells.reserve_exact(count)?;
    for _ in 0..count {
        cells.push(NO_CELL)?;
    }
    Ok(cells)
}

// finds out for each node whether its value and its lists fit together
fn note_fits(nodes: &mut Vec<(NodeId, Node)>)
    ensures { nodes.new.items ≡ nodes.old.items }
{
    for at in 0..nodes.len() {
        note_fit(&mut nodes[at]);
    }
}

fn note_fit(entry: &mut (NodeId, Node))
    ensures { entry.new ≡ entry.old }
{
    entry.1.note_fit();
}

// releases the spare memory of a list, if it is more than an eighth
fn release(nodes: &mut Vec<(NodeId, Node)>)
    ensures { nodes.new.items ≡ nodes.old.items }
{
    if nodes.capacity() - nodes.len() > SPARE + nodes.len() / 8 {
        nodes.shrink_to(0);
    }
}

// makes room for so many values in a list: for an eighth more than that, since lists grow by one value at a time
pub(crate) fn grow<T>(list: &mut Vec<T>, wanted: usize) -> Result<(), AllocError>
    requires { wanted ≤ 2 ^ 32 }
    ensures items { list.new.items ≡ list.old.items }
    ensures kept { vec_capacity list.old ≤ vec_capacity list.new }
    ensures ok { OnOk result (wanted ≤ vec_capacity list.new) }
{
    if wanted <= list.capacity() {
        return Ok(());
    }
    list.reserve_exact(wanted + wanted / 8 - list.len())
}

// the data in a cell, which is in the list under its number, or in its box
#[inline(always)]
fn node_in<'a>(cell: &'a Cell, listed: &'a [(NodeId, Node)], number: usize) -> Option<&'a Node>
    requires { (b : Bool) → cell.now.slot ≡ Listed b → number < length listed.now }
    ensures { option_copied result ≡ node_seen (slice_get (map (λ e. e.1) listed.now) number) cell.now.slot }
{
    match &cell.slot {
        Slot::Free => None,
        Slot::Listed(is_filled) => {
            if *is_filled {
                Some(&listed[number].1)
            } else {
                None
            }
        }
        Slot::Boxed(slot) => (**slot).as_ref(),
    }
}

// the data in a cell that has some
#[inline(always)]
fn known_in<'a>(cell: &'a Cell, listed: &'a [(NodeId, Node)], number: usize) -> &'a Node
    requires { IsSome (node_seen (slice_get (map (λ e. e.1) listed.now) number) cell.now.slot) }
    ensures { Some result.now ≡ node_seen (slice_get (map (λ e. e.1) listed.now) number) cell.now.slot }
{
    match &cell.slot {
        Slot::Free => unreachable!(),
        Slot::Listed(_) => &listed[number].1,
        Slot::Boxed(slot) => (**slot).as_ref().unwrap(),
    }
}

fn is_free(cell: &Cell) -> bool
    ensures { (d : Option NodeData) → result ≡ is_none (slot_seen d cell.now.place cell.now.slot) }
{
    match &cell.slot {
        Slot::Free => true,
        Slot::Listed(_) => false,
        Slot::Boxed(_) => false,
    }
}

// drops the data of a cell's node, if it is in the list
fn forget(alloc: Global, listed: &mut Vec<(NodeId, Node)>, cell: &Cell, number: usize)
    requires { (b : Bool) → cell.now.slot ≡ Listed b → number < length listed.old.items }
    ensures others { (k : ℕ) → k ≢ number → slice_get (map (λ e. e.1) listed.new.items) k ≡ slice_get (map (λ e. e.1) listed.old.items) k }
    ensures count { length listed.new.items ≡ length listed.old.items }
{
    match &cell.slot {
        Slot::Listed(_) => listed[number].1 = Node::new(alloc, Role::Unknown),
        Slot::Free => {}
        Slot::Boxed(_) => {}
    }
}

// sets the place of what is in a cell, and returns whether there is anything
fn set_place(cell: &mut Cell, place: Option<Place>) -> bool
    ensures id { cell.new.id ≡ cell.old.id }
    ensures slot { cell.new.slot ≡ cell.old.slot }
    ensures place { cell.new.place ≡ place }
    ensures there { result ≡ is_full cell.old.slot }
{
    cell.place = place;
    match &cell.slot {
        Slot::Free => false,
        Slot::Listed(is_filled) => *is_filled,
        Slot::Boxed(slot) => slot.is_some(),
    }
}

// swaps a listed node's data with an entry's
fn put_listed(
    listed: &mut Vec<(NodeId, Node)>,
    number: usize,
    nodes: &mut Vec<(NodeId, Node)>,
    entry: usize,
)
    requires number { number < length listed.old.items }
    requires entry { entry < length nodes.old.items }
    ensures listed { (d : NodeData) → entry_data nodes.old.items entry ≡ Some d →
        map (λ e. e.1) listed.new.items ≡ slice_set (map (λ e. e.1) listed.old.items) number d }
    ensures same { length listed.new.items ≡ length listed.old.items }
    ensures nodes { (k : ℕ) → k ≢ entry → slice_get nodes.new.items k ≡ slice_get nodes.old.items k }
    ensures count { length nodes.new.items ≡ length nodes.old.items }
{
    exchange(&mut listed[number].1, nodes, entry);
}

// swaps the data in a slot with an entry's, or puts the entry's there
fn put_in(alloc: Global, slot: &mut Option<Node>, nodes: &mut Vec<(NodeId, Node)>, entry: usize)
    requires { entry < length nodes.old.items }
    ensures slot { slot.new ≡ entry_data nodes.old.items entry }
    ensures nodes { (k : ℕ) → k ≢ entry → slice_get nodes.new.items k ≡ slice_get nodes.old.items k }
    ensures count { length nodes.new.items ≡ length nodes.old.items }
{
    match slot {
        Some(node) => exchange(node, nodes, entry),
        None => {
            let mut node = Node::new(alloc, Role::Unknown);
            exchange(&mut node, nodes, entry);
            *slot = Some(node);
        }
    }
}

// swaps a node's data with an entry's
fn exchange(node: &mut Node, nodes: &mut Vec<(NodeId, Node)>, entry: usize)
    requires { entry < length nodes.old.items }
    ensures node { entry_data nodes.old.items entry ≡ Some node.new }
    ensures nodes { (k : ℕ) → k ≢ entry → slice_get nodes.new.items k ≡ slice_get nodes.old.items k }
    ensures count { length nodes.new.items ≡ length nodes.old.items }
{
    mem::swap(node, &mut nodes[entry].1);
    node.note_fit();
}
