//! Values by id.
ghost use Rattle.std.specs.Prelude.{◌≡◌, ◌<◌, ◌+◌, ◌^◌, [], length, cond, option_copied, Some, None, OnOk, OnErr, IfOk};
ghost use Rattle.std.specs.Option.{option_copied_mut};
ghost use Rattle.std.specs.Map.{keys_of};
ghost use Rattle.model.specs.declared.FullNodeId.{FullNodeId};
ghost use Rattle.std.specs.Borrow.{sem};
ghost use Rattle.std.specs.BTreeMap.{is_at};
ghost use Rattle.model.specs.FullIds.{full_cmp};
ghost use Rattle.values_by_id.specs.Cells.{value_at, size};
ghost use Rattle.values_by_id.specs.Lends.{lends_get};

use crate::others::Others;
use crate::rows::Rows;
use model::FullNodeId;
use std::alloc::{AllocError, Global};
use std::marker::Model;

/// The maximum number of values of an index, far beyond any memory.
const MOST: usize = isize::MAX as usize;

/// Values by id.
#[derive(Drop)]
pub struct IdIndex<V: Drop> {
    alloc: Global,
    rows: Rows<V>,
    others: Others<V>,
    len: usize,
}

impl<V: Drop> Model for IdIndex<V> {
    ghost use Rattle.std.specs.Prelude.{List};
    ghost use Rattle.model.specs.declared.FullNodeId.{FullNodeId};

    ghost Value = { List (FullNodeId × V) };

    ghost use Rattle.values_by_id.specs.Index.{entries_of, IsKept};

    ghost view = { entries_of };

    ghost invariant = { IsKept };
}

impl<V: Drop> IdIndex<V> {
    pub fn new(alloc: Global) -> IdIndex<V>
        ensures { result ≡ [] }
    {
        IdIndex {
            alloc,
            rows: Rows::new(alloc),
            others: Others::new(alloc),
            len: 0,
        }
    }

    pub fn len(&self) -> usize
        ensures count { result ≡ length self.now }
        ensures bound { result < 2 ^ 63 }
    {
        self.len
    }

    /// The value at an id that has a cell of its tree's row. Where there is one, no search is needed.
    #[inline(always)]
    pub fn get_in_row(&self, id: &FullNodeId) -> Option<&V>
        ensures { (value : V) → option_copied result ≡ Some value → value_at self.now id.now ≡ Some value }
    {
        self.rows.get(*id)
    }

    /// The value at an id.
    pub fn get(&self, id: &FullNodeId) -> Option<&V>
        ensures { option_copied result ≡ value_at self.now id.now }
    {
        match self.rows.get(*id) {
            Some(value) => Some(value),
            None => self.others.get(*id),
        }
    }

    /// The value at an id, as a mutable reference.
    pub fn get_mut(&mut self, id: &FullNodeId) -> Option<&mut V>
        ensures* writes_back { sem 𝓛 (lends_get V.row self.entry id.now result) }
        ensures value { option_copied_mut result ≡ value_at self.old id.now }
    {
        if self.rows.get(*id).is_some() {
            return Some(self.rows.value_mut(*id));
        }
        self.others.get_mut(*id)
    }

    /// Sets the value at an id and returns the one that it had.
    ///
    /// # Errors
    ///
    /// Returns `AllocError` if memory runs out; the index is then unchanged.
    pub fn insert(&mut self, id: FullNodeId, value: V) -> Result<Option<V>, AllocError>
        ensures old { IfOk result (λ old. old ≡ value_at self.old id) }
        ensures updates { OnOk result ((q : FullNodeId)
            → value_at self.new q ≡ cond (is_at (full_cmp id) q) (Some value) (value_at self.old q)) }
        ensures err { OnErr result (self.new ≡ self.old) }
    {
        if self.len >= MOST {
            return Err(AllocError);
        }
        self.make_place(id)?;
        if self.others.contains_key(id) {
            return Ok(self.others.replace(id, value));
        }
        if self.rows.has_cell(id) {
            let old = self.rows.put(id, Some(value));
            self.len += missing(&old);
            return Ok(old);
        }
        self.others.add(self.alloc, id, value)?;
        self.len += 1;
        Ok(None)
    }

    // makes a cell for an id that should have one
    fn make_place(&mut self, id: FullNodeId) -> Result<(), AllocError>
        ensures { self.new ≡ self.old }
    {
        if self.rows.has_cell(id) || !self.rows.takes(id) {
            return Ok(());
        }
        self.rows.make_cell(self.alloc, id)
    }

    /// Removes the value at an id.
    pub fn remove(&mut self, id: &FullNodeId) -> Option<V>
        ensures old { result ≡ value_at self.old id.now }
        ensures updates { (q : FullNodeId) → value_at self.new q ≡ cond (is_at (full_cmp id.now) q) None (value_at self.old q) }
    {
        if let Some(value) = self.rows.take(*id) {
            self.len -= 1;
            return Some(value);
        }
        let value = self.others.remove(*id)?;
        self.len -= 1;
        Some(value)
    }

    #[tactic(auto, using(crate::proofs::Led::keys_next))]
    /// The ids that have a value.
    ///
    /// # Errors
    ///
    /// Returns `AllocError` if memory runs out.
    pub fn ids(&self, alloc: Global) -> Result<Vec<FullNodeId>, AllocError>
        ensures { IfOk result (λ ids. ids.items ≡ keys_of self.now) }
    {
        let mut ids = self.rows.ids(alloc)?;
        for entry in self.others.entries() {
            ids.push(entry.0)?;
        }
        Ok(ids)
    }
}

// one if there is no value
fn missing<V>(old: &Option<V>) -> usize
    ensures { result + size old.now ≡ 1 }
{
    match old {
        Some(_) => 0,
        None => 1,
    }
}
