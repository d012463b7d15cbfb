//! The cells of a tree.
ghost use Rattle.std.specs.Prelude.{◌≡◌, ◌<◌, ◌+◌, [], length, ◌++◌, is_some, count_by, slice_get, slice_set, option_copied, Some, IsSome, OnOk};
ghost use Rattle.std.specs.Map.{keys_of};
ghost use Rattle.std.specs.Borrow.{sem, Lends};
ghost use Rattle.std.specs.contracts.option.Option.{the_row as option_row};
ghost use Rattle.values_by_id.specs.Cells.{value_in, row_entries, HaveEntriesOf};
ghost use Rattle.values_by_id.specs.Lends.{lends_in_row};

use model::FullNodeId;
use schema::NodeId;
use std::alloc::{AllocError, Global};
use std::marker::Model;
use std::mem;

/// A cell for each node id from 0 on.
#[derive(Drop)]
pub(crate) struct Row<V: Drop> {
    cells: Vec<Option<V>>,
    // how many of them have a value
    used: usize,
}

impl<V: Drop> Model for Row<V> {
    ghost use Rattle.std.specs.Prelude.{◌≡◌, List, Option, is_some, count_by};

    ghost Value = { List (Option V) };

    ghost view = { λ a. a.cells.items };

    ghost invariant = { λ a. a.used ≡ count_by is_some a.cells.items };
}

impl<V: Drop> Row<V> {
    pub(crate) fn new(alloc: Global) -> Row<V>
        ensures { result ≡ [] }
    {
        Row {
            cells: Vec::new(alloc),
            used: 0,
        }
    }

    pub(crate) fn len(&self) -> usize
        ensures { result ≡ length self.now }
    {
        self.cells.len()
    }

    /// How many cells have a value.
    pub(crate) fn used(&self) -> usize
        ensures { result ≡ count_by is_some self.now }
    {
        self.used
    }

    pub(crate) fn get(&self, index: usize) -> Option<&V>
        ensures { option_copied result ≡ value_in (slice_get self.now index) }
    {
        let cell = self.cells.get(index)?;
        cell.as_ref()
    }

    /// Sets a cell and returns its old value.
    pub(crate) fn set(&mut self, index: usize, value: Option<V>) -> Option<V>
        requires { index < length self.old }
        ensures old { slice_get self.old index ≡ Some result }
        ensures new { self.new ≡ slice_set self.old index value }
    {
        let old = mem::replace(&mut self.cells[index], value);
        self.used = self.used - usize::from(old.is_some())
            + usize::from(self.cells[index].is_some());
        old
    }

    pub(crate) fn value_mut(&mut self, index: usize) -> &mut V
        requires { IsSome (value_in (slice_get self.old index)) }
        ensures* lends { sem 𝓛 (lends_in_row V.row self.entry index result) }
        ensures value { value_in (slice_get self.old index) ≡ Some result.now }
    {
        value_of(&mut self.cells[index])
    }

    #[tactic(auto, using(crate::proofs::Entries::row_pushed_after, crate::proofs::Entries::count_pushed))]
    /// Adds this many empty cells, or fewer if memory runs out.
    pub(crate) fn extend(&mut self, more: usize) -> Result<(), AllocError>
        ensures same { HaveEntriesOf self.new self.old }
        ensures ok { OnOk result (length self.new ≡ length self.old + more) }
    {
        for _ in 0..more {
            self.cells.push(None)?;
        }
        Ok(())
    }

    #[tactic(auto, using(crate::proofs::Entries::row_ids))]
    /// Appends the ids of a tree that have a value.
    pub(crate) fn push_ids(&self, tree: u32, ids: &mut Vec<FullNodeId>) -> Result<(), AllocError>
        ensures { OnOk result (ids.new.items ≡ ids.old.items ++ keys_of (row_entries tree 0 self.now)) }
    {
        for (index, cell) in self.cells.iter().enumerate() {
            if cell.is_some() {
                let node = NodeId(index as u64);
                ids.push(FullNodeId { tree, node })?;
            }
        }
        Ok(())
    }

    /// Removes empty cells at the end.
    pub(crate) fn trim(&mut self)
        ensures same { HaveEntriesOf self.new self.old }
    {
        while let Some(None) = self.cells.last() {
            drop(self.cells.pop());
        }
    }
}

// the value in a full cell
fn value_of<V>(cell: &mut Option<V>) -> &mut V
    requires { IsSome cell.old }
    ensures* lends { sem 𝓛 (Lends (option_row V.row) V.row cell.entry result Some) }
    ensures value { cell.old ≡ Some result.now }
{
    match cell {
        Some(value) => value,
        None => unreachable!(),
    }
}
