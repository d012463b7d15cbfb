//! The cells of all trees.
ghost use Rattle.std.specs.Prelude.{◌≡◌, ◌≤◌, ◌<◌, ◌^◌, ◌+◌, [], ◌∷◌, ◌++◌, length, cond, option_copied, is_some, Some, None, IsSome, IsTrue, OnOk, OnErr, IfOk};
ghost use Rattle.std.specs.Map.{keys_of};
ghost use Rattle.std.specs.BTreeMap.{is_at};
ghost use Rattle.model.specs.declared.FullNodeId.{FullNodeId};
ghost use Rattle.model.specs.FullIds.{full_cmp};
ghost use Rattle.std.specs.Borrow.{sem};
ghost use Rattle.values_by_id.specs.Cells.{cell_of, cell_at, with_cell, cell_entries, size};
ghost use Rattle.values_by_id.specs.Lends.{lends_cell};

use crate::row::Row;
use model::FullNodeId;
use std::alloc::{AllocError, Global};
use std::marker::Model;

/// The cells of each tree, by the tree's index.
#[derive(Drop)]
pub(crate) struct Rows<V: Drop> {
    rows: Vec<Row<V>>,
}

impl<V: Drop> Model for Rows<V> {
    ghost use Rattle.std.specs.Prelude.{List, Option, length, ◌≤◌, ◌^◌};

    ghost Value = { List (List (Option V)) };

    ghost view = { λ a. a.rows.items };

    ghost invariant = { λ a. length a.rows.items ≤ 2 ^ 32 };
}

impl<V: Drop> Rows<V> {
    pub(crate) fn new(alloc: Global) -> Rows<V>
        ensures { result ≡ [] }
    {
        Rows {
            rows: Vec::new(alloc),
        }
    }

    /// The value in the cell of an id.
    pub(crate) fn get(&self, id: FullNodeId) -> Option<&V>
        ensures { option_copied result ≡ cell_at self.now id }
    {
        let row = self.rows.get(id.tree as usize)?;
        row.get(id.node.0 as usize)
    }

    /// Whether an id has a cell.
    pub(crate) fn has_cell(&self, id: FullNodeId) -> bool
        ensures { result ≡ is_some (cell_of self.now id) }
    {
        match self.rows.get(id.tree as usize) {
            Some(row) => id.node.0 < row.len() as u64,
            None => false,
        }
    }

    /// Whether an id without a cell should get one: it is of a tree with a row or of the next tree, and the row's cells
    /// would be at most four times the number of values in them, plus 64.
    pub(crate) fn takes(&self, id: FullNodeId) -> bool
        ensures there { IsTrue result → id.tree ≤ length self.now }
        ensures fits { IsTrue result → id.node.0 < 2 ^ 62 }
    {
        let tree = id.tree as usize;
        if tree > self.rows.len() {
            return false;
        }
        let used = match self.rows.get(tree) {
            Some(row) => row.used(),
            None => 0,
        };
        id.node.0 / 4 < used.min(1 << 59) as u64 + 16
    }

    /// Puts a value into the cell of an id and returns the old one.
    #[tactic(auto, using(crate::proofs::Entries::cell_steps))]
    pub(crate) fn put(&mut self, id: FullNodeId, value: Option<V>) -> Option<V>
        requires { IsSome (cell_of self.old id) }
        ensures old { cell_of self.old id ≡ Some result }
        ensures new { self.new ≡ with_cell self.old id value }
    {
        let row = &mut self.rows[id.tree as usize];
        row.set(id.node.0 as usize, value)
    }

    pub(crate) fn value_mut(&mut self, id: FullNodeId) -> &mut V
        requires { IsSome (cell_at self.old id) }
        ensures* lends { sem 𝓛 (lends_cell V.row self.entry id result) }
        ensures value { cell_at self.old id ≡ Some result.now }
    {
        self.rows[id.tree as usize].value_mut(id.node.0 as usize)
    }

    /// Takes the value out of the cell of an id, if it has one.
    #[tactic(auto, using(crate::proofs::Entries::cell_steps))]
    pub(crate) fn take(&mut self, id: FullNodeId) -> Option<V>
        ensures old { result ≡ cell_at self.old id }
        ensures values { (q : FullNodeId) → cell_at self.new q ≡ cond (is_at (full_cmp id) q) None (cell_at self.old q) }
        ensures count { length (cell_entries 0 self.new) + size result ≡ length (cell_entries 0 self.old) }
    {
        if !self.has_cell(id) {
            return None;
        }
        let value = self.put(id, None);
        self.trim(id.tree);
        value
    }

    /// Removes a tree's empty cells at the end.
    #[tactic(auto, using(crate::proofs::Entries::cell_steps))]
    fn trim(&mut self, tree: u32)
        requires { tree < length self.old }
        ensures { cell_entries 0 self.new ≡ cell_entries 0 self.old }
    {
        let row = &mut self.rows[tree as usize];
        row.trim();
    }

    /// Adds the row of the next tree.
    fn add_row(&mut self, alloc: Global) -> Result<(), AllocError>
        requires { length self.old < 2 ^ 32 }
        ensures ok { OnOk result (self.new ≡ self.old ++ [] ∷ []) }
        ensures err { OnErr result (self.new ≡ self.old) }
    {
        Ok(self.rows.push(Row::new(alloc))?)
    }

    #[tactic(auto, using(crate::proofs::Entries::cells_ids))]
    /// The ids that have a value.
    pub(crate) fn ids(&self, alloc: Global) -> Result<Vec<FullNodeId>, AllocError>
        ensures { IfOk result (λ ids. ids.items ≡ keys_of (cell_entries 0 self.now)) }
    {
        let mut ids = Vec::new(alloc);
        for (index, row) in self.rows.iter().enumerate() {
            row.push_ids(index as u32, &mut ids)?;
        }
        Ok(ids)
    }

    /// Makes a cell for a node id of a tree that has a row. If memory runs out, some empty cells may have been added.
    #[tactic(auto, using(crate::proofs::Entries::cell_steps))]
    fn extend(&mut self, id: FullNodeId) -> Result<(), AllocError>
        requires there { id.tree < length self.old }
        requires fits { id.node.0 < 2 ^ 62 }
        ensures same { cell_entries 0 self.new ≡ cell_entries 0 self.old }
        ensures ok { OnOk result (IsSome (cell_of self.new id)) }
    {
        let node = id.node.0 as usize;
        let row = &mut self.rows[id.tree as usize];
        let len = row.len();
        if node < len {
            return Ok(());
        }
        row.extend(node - len + 1)
    }

    /// Makes a cell for an id of a tree that has a row or is the next. If memory runs out, some empty cells may have
    /// been added.
    #[tactic(auto, using(crate::proofs::Entries::cell_steps))]
    pub(crate) fn make_cell(&mut self, alloc: Global, id: FullNodeId) -> Result<(), AllocError>
        requires there { id.tree ≤ length self.old }
        requires fits { id.node.0 < 2 ^ 62 }
        ensures same { cell_entries 0 self.new ≡ cell_entries 0 self.old }
        ensures ok { OnOk result (IsSome (cell_of self.new id)) }
    {
        if id.tree as usize == self.rows.len() {
            self.add_row(alloc)?;
        }
        self.extend(id)
    }
}
