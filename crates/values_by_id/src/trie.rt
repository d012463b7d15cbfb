//! A trie: numbers of entries, found by the digits of their ids.
ghost use Rattle.std.specs.Prelude.{◌≡◌, ◌≢◌, ℕ, ◌≤◌, ◌<◌, ◌^◌, ◌/◌, ◌%◌, [], length, true, Some, None, IfSome, OnOk, OnErr};
ghost use Rattle.model.specs.declared.FullNodeId.{FullNodeId};
ghost use Rattle.values_by_id.specs.Ways.{digit_of, cell_at, is_last, number_of, found, IsEnd};

use crate::room::make_room;
use model::FullNodeId;
use std::alloc::{AllocError, Global};
use std::marker::Model;

/// A cell of a node, for the ids with one digit.
#[derive(Clone, Copy)]
pub(crate) enum Cell {
    Empty,
    /// The number of an entry: no other entry has an id that leads here.
    Entry(u32),
    /// A node that goes by the digit at this shift, and the place of its first cell.
    Node { shift: u8, first: u32 },
}

/// The cells of all nodes, sixteen for each. The first node goes by the lowest digit.
#[derive(Drop)]
pub(crate) struct Trie {
    cells: Vec<Cell>,
}

impl Model for Trie {
    ghost use Rattle.std.specs.Prelude.{List};
    ghost use Rattle.values_by_id.specs.declared.trie.Cell.{Cell};

    ghost Value = { List Cell };

    ghost use Rattle.values_by_id.specs.Ways.{IsOrdered};

    ghost view = { λ a. a.cells.items };

    ghost invariant = { λ a. IsOrdered a.cells.items };
}

/// How many cells there may be, so that their places fit 32 bits.
const MOST_CELLS: usize = u32::MAX as usize - 16;

impl Trie {
    pub(crate) fn new(alloc: Global) -> Trie
        ensures { result ≡ [] }
    {
        Trie {
            cells: Vec::new(alloc),
        }
    }

    /// How many cells there are.
    pub(crate) fn len(&self) -> usize
        ensures { result ≡ length self.now }
    {
        self.cells.len()
    }

    #[tactic(auto, using(crate::proofs::Ways::end_found, crate::proofs::Ways::found_empty))]
    /// The number to which an id leads: that of its entry, if it has one.
    pub(crate) fn find(&self, id: FullNodeId) -> Option<u32>
        ensures { result ≡ found self.now id }
    {
        if self.cells.is_empty() {
            return None;
        }
        self.number_at(self.end(id))
    }

    #[tactic(auto, using(crate::proofs::Ways::on_start, crate::proofs::Ways::on_next, crate::proofs::Ways::on_end))]
    /// The place of the cell at which the way of an id ends.
    pub(crate) fn end(&self, id: FullNodeId) -> usize
        requires { 0 < length self.now }
        ensures { IsEnd self.now id result }
    {
        let mut shift = 0;
        let mut first = 0;
        'way: loop {
            let place = first + digit(id, shift);
            match self.cells[place] {
                Cell::Node {
                    shift: next,
                    first: below,
                } => {
                    shift = next;
                    first = below as usize;
                }
                _ => return place,
            }
        }
    }

    /// The number in a cell.
    pub(crate) fn number_at(&self, place: usize) -> Option<u32>
        requires { place < length self.now }
        ensures { result ≡ number_of (cell_at self.now place) }
    {
        match self.cells[place] {
            Cell::Entry(number) => Some(number),
            _ => None,
        }
    }

    /// The number in a cell, if it is below another one.
    pub(crate) fn number_below(&self, place: usize, count: usize) -> Option<usize>
        requires { place < length self.now }
        ensures there { IfSome result (λ k. number_of (cell_at self.now place) ≡ Some k) }
        ensures below { IfSome result (λ k. k < count) }
        ensures none { result ≡ None → (k : ℕ) → k < count → number_of (cell_at self.now place) ≢ Some k }
    {
        let number = self.number_at(place)? as usize;
        if number < count { Some(number) } else { None }
    }

    /// Makes the first node, if there is none.
    pub(crate) fn make_first(&mut self) -> Result<(), AllocError>
        ensures there { OnOk result (0 < length self.new) }
        ensures kept { (id : FullNodeId) (k : ℕ) → found self.old id ≡ Some k → found self.new id ≡ Some k }
    {
        if self.cells.is_empty() {
            make_room(&mut self.cells, 16)?;
            self.cells.extend_from_slice(&[Cell::Empty; 16])?;
        }
        Ok(())
    }

    /// Sets the number in a cell at which ways end.
    pub(crate) fn set(&mut self, place: usize, number: Option<u32>)
        requires within { place < length self.old }
        requires last { is_last (cell_at self.old place) ≡ true }
        ensures ends { (id : FullNodeId) → IsEnd self.old id place → found self.new id ≡ number }
        ensures others { (id : FullNodeId) (k : ℕ) → found self.old id ≡ Some k → number_of (cell_at self.old place) ≢ Some k
            → found self.new id ≡ Some k }
    {
        let cell = match number {
            Some(number) => Cell::Entry(number),
            None => Cell::Empty,
        };
        self.cells[place] = cell;
    }

    #[tactic(auto, using(crate::proofs::Ways::end_found))]
    /// Changes the number to which an id leads. Ids that lead to other numbers still do so.
    pub(crate) fn put(&mut self, id: FullNodeId, number: Option<u32>)
        requires { 0 < length self.old }
        ensures own { found self.new id ≡ number }
        ensures others { (q : FullNodeId) (k : ℕ) → found self.old q ≡ Some k → found self.old id ≢ Some k → found self.new q ≡ Some k }
    {
        let place = self.end(id);
        self.set(place, number);
    }

    /// Adds a number where the way of its id ends at the entry of another id: both then stand in a new node, which goes
    /// by the lowest digit at which the two ids differ.
    pub(crate) fn split(
        &mut self,
        place: usize,
        id: FullNodeId,
        number: u32,
        other: FullNodeId,
    ) -> Result<(), AllocError>
        requires end { IsEnd self.old id place }
        requires apart { id ≢ other }
        ensures own { OnOk result (found self.new id ≡ Some number) }
        ensures others { OnOk result ((q : FullNodeId) (k : ℕ) → found self.old q ≡ Some k
            → (number_of (cell_at self.old place) ≡ Some k → q ≡ other) → found self.new q ≡ Some k) }
        ensures err { OnErr result (self.new ≡ self.old) }
    {
        let first = self.cells.len();
        if first > MOST_CELLS {
            return Err(AllocError);
        }
        let shift = parting(id, other);
        let mut node = [Cell::Empty; 16];
        node[digit(other, shift)] = self.cells[place];
        node[digit(id, shift)] = Cell::Entry(number);
        make_room(&mut self.cells, 16)?;
        self.cells.extend_from_slice(&node)?;
        self.cells[place] = Cell::Node {
            shift,
            first: first as u32,
        };
        Ok(())
    }
}

// the digit of an id at a shift: of its node id below 64, and of its tree's index from there on
#[inline(always)]
fn digit(id: FullNodeId, shift: u8) -> usize
    requires { shift < 128 }
    ensures value { result ≡ digit_of shift id }
    ensures below { result < 16 }
{
    if shift < 64 {
        (id.node.0 >> shift) as usize % 16
    } else {
        (id.tree as u64 >> (shift - 64)) as usize % 16
    }
}

// the lowest shift at which the digits of two ids differ
fn parting(a: FullNodeId, b: FullNodeId) -> u8
    requires { a ≢ b }
    ensures bound { result < 128 }
    ensures differ { digit_of result a ≢ digit_of result b }
{
    if a.node.0 != b.node.0 {
        parting_of(a.node.0, b.node.0)
    } else {
        64 + parting_of(a.tree as u64, b.tree as u64)
    }
}

// the lowest shift at which the digits of two numbers differ
#[tactic(auto, using(crate::proofs::Digits::differ_above, crate::proofs::Digits::differ_at_top))]
fn parting_of(a: u64, b: u64) -> u8
    requires { a ≢ b }
    ensures bound { result < 64 }
    ensures differ { a / 2 ^ result % 16 ≢ b / 2 ^ result % 16 }
{
    for step in 0..15u8 {
        let shift = 4 * step;
        if (a >> shift) % 16 != (b >> shift) % 16 {
            return shift;
        }
    }
    60
}
