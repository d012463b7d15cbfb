//! Values by id that ascend by id.
ghost use Rattle.std.specs.Prelude.{◌≡◌, [], length, Some, None, IfSome, IsTrue};
ghost use Rattle.std.specs.Option.{is_some, option_copied};
ghost use Rattle.std.specs.BTreeMap.{is_at};
ghost use Rattle.std.specs.Map.{set_value};
ghost use Rattle.model.specs.FullIds.{full_cmp};
ghost use Rattle.values_by_id.specs.Rows.{Ascends, IsPlace, row_at};

use super::order::{is_past, is_reached, place};
use model::FullNodeId;
use std::alloc::Global;
use std::marker::Model;

/// Values by id, in ascending order of ids; each id occurs once.
#[derive(Drop)]
pub struct SortedRows<V: Copy + Drop> {
    pub(crate) items: Vec<(FullNodeId, V)>,
}

impl<V: Copy + Drop> Model for SortedRows<V> {
    ghost use Rattle.std.specs.Prelude.{List};
    ghost use Rattle.model.specs.declared.FullNodeId.{FullNodeId};
    ghost use Rattle.values_by_id.specs.Rows.{Ascends};

    ghost Value = { List (FullNodeId × V) };

    ghost view = { λ a. a.items.items };

    ghost invariant = { λ a. Ascends a.items.items };
}

impl<V: Copy + Drop> SortedRows<V> {
    #[tactic(auto, using(crate::proofs::Places::ascends_empty))]
    pub fn new(alloc: Global) -> SortedRows<V>
        ensures { result ≡ [] }
    {
        SortedRows {
            items: Vec::new(alloc),
        }
    }

    pub fn len(&self) -> usize
        ensures count { result ≡ length self.now }
        ensures ascends { Ascends self.now }
    {
        self.items.len()
    }

    /// The entries, in the order of their ids.
    pub fn entries(&self) -> &[(FullNodeId, V)]
        ensures all { result.now ≡ self.now }
        ensures ascends { Ascends self.now }
    {
        &self.items
    }

    /// The entries themselves, in the order of their ids.
    pub fn into_entries(self) -> Vec<(FullNodeId, V)>
        ensures all { result.items ≡ self }
        ensures ascends { Ascends self }
    {
        self.items
    }

    /// The value of the entry at an index, if that entry has this id.
    #[tactic(auto, using(crate::proofs::Places::at_end, crate::proofs::Places::found_here, crate::proofs::Places::not_here))]
    fn value_at(&self, id: FullNodeId, index: usize) -> Option<V>
        ensures found { IfSome result (λ value. row_at self.now id ≡ Some value) }
        ensures placed { IsPlace self.now id index → result ≡ row_at self.now id }
    {
        if index >= self.items.len() {
            return None;
        }
        let entry = self.items[index];
        if entry.0 == id {
            return Some(entry.1);
        }
        None
    }

    /// Whether an id has no entry, and one at this index would keep the order. False if it isn't known without a search.
    #[inline(always)]
    pub fn lacks_at(&self, id: FullNodeId, index: usize) -> bool
        ensures { IsTrue result → row_at self.now id ≡ None }
    {
        if index > self.items.len() {
            return false;
        }
        if !is_past(&self.items, id, index) {
            return false;
        }
        if !is_reached(&self.items, id, index) {
            return false;
        }
        self.value_at(id, index).is_none()
    }

    /// The value at an id. The search starts at the index `near`, and `near` is set to the entry after the one found,
    /// so that looking up ascending ids needs no search.
    pub fn get_near(&self, id: FullNodeId, near: &mut usize) -> Option<V>
        ensures { result ≡ row_at self.now id }
    {
        let hint = *near;
        if let Some(value) = self.value_at(id, hint) {
            *near = hint.saturating_add(1);
            return Some(value);
        }
        let index = place(&self.items, id, hint);
        let value = self.value_at(id, index);
        *near = if value.is_some() { index + 1 } else { index };
        value
    }

    /// The value at an id.
    #[tactic(auto, using(crate::proofs::Places::at_end, crate::proofs::Places::found_here, crate::proofs::Places::not_here))]
    pub fn get(&self, id: &FullNodeId) -> Option<&V>
        ensures value { option_copied result ≡ row_at self.now id.now }
        ensures ascends { Ascends self.now }
    {
        let index = place(&self.items, *id, 0);
        if index == self.items.len() {
            return None;
        }
        let item = &self.items[index];
        if item.0 == *id {
            return Some(&item.1);
        }
        None
    }

    /// Whether there is a value at an id.
    pub fn contains_key(&self, id: &FullNodeId) -> bool
        ensures { result ≡ is_some (row_at self.now id.now) }
    {
        self.get(id).is_some()
    }

    /// Replaces the value at an id, if there is one. The search is that of `get_near`.
    #[tactic(auto, using(crate::proofs::Changed::set_at_end))]
    pub fn change_near(&mut self, id: FullNodeId, value: V, near: &mut usize)
        ensures { self.new ≡ set_value (is_at (full_cmp id)) self.old value }
    {
        let index = place(&self.items, id, *near);
        *near = index;
        if index == self.items.len() {
            return;
        }
        if self.items[index].0 == id {
            self.items[index] = (id, value);
        }
    }
}
