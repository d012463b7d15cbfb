//! Entries in a list, which a trie finds by their ids.
ghost use Rattle.std.specs.Prelude.{◌≡◌, ◌<◌, ◌≤◌, ◌+◌, [], length, cond, option_copied, is_some, Some, None, IsSome, IfSome, IfOk, OnOk, OnErr};
ghost use Rattle.std.specs.Option.{option_copied_mut};
ghost use Rattle.std.specs.Borrow.{sem};
ghost use Rattle.std.specs.BTreeMap.{is_at};
ghost use Rattle.model.specs.declared.FullNodeId.{FullNodeId};
ghost use Rattle.model.specs.FullIds.{full_cmp};
ghost use Rattle.values_by_id.specs.Cells.{value_at, size};
ghost use Rattle.values_by_id.specs.Ways.{found};
ghost use Rattle.values_by_id.specs.Found.{IsFound, IsFoundBelow, HasNo, HasNoBelow, AreApart, id_at};
ghost use Rattle.values_by_id.specs.Lends.{lends_value, lends_other};

use crate::room::make_room;
use crate::trie::Trie;
use model::{FullNodeId, is_same};
use std::alloc::{AllocError, Global};
use std::marker::Model;
use std::mem;

/// Entries in a list, each of whose ids leads to its number in the list.
#[derive(Drop)]
pub(crate) struct Others<V: Drop> {
    trie: Trie,
    entries: Vec<(FullNodeId, V)>,
}

impl<V: Drop> Model for Others<V> {
    ghost use Rattle.std.specs.Prelude.{List};
    ghost use Rattle.model.specs.declared.FullNodeId.{FullNodeId};

    ghost Value = { List (FullNodeId × V) };

    ghost use Rattle.values_by_id.specs.Found.{IsFound};

    ghost view = { λ a. a.entries.items };

    ghost invariant = { λ a. IsFound a.trie a.entries.items };
}

impl<V: Drop> Others<V> {
    pub(crate) fn new(alloc: Global) -> Others<V>
        ensures { result ≡ [] }
    {
        Others {
            trie: Trie::new(alloc),
            entries: Vec::new(alloc),
        }
    }

    /// All entries, in no particular order.
    pub(crate) fn entries(&self) -> &[(FullNodeId, V)]
        ensures { result.now ≡ self.now }
    {
        self.entries.as_slice()
    }

    #[tactic(auto, using(crate::proofs::Led::no_number, crate::proofs::Led::none_there))]
    // the number of an id's entry
    fn number(&self, id: FullNodeId) -> Option<u32>
        ensures there { IfSome result (λ k. id_at self.now k ≡ Some id) }
        ensures none { result ≡ None → HasNo self.now id }
        ensures found { is_some result ≡ is_some (value_at self.now id) }
    {
        let number = self.trie.find(id)?;
        let kept = id_of(self.entries.as_slice(), number as usize)?;
        if is_same(kept, id) {
            Some(number)
        } else {
            None
        }
    }

    #[tactic(auto, using(crate::proofs::Led::none_there))]
    /// The value at an id.
    pub(crate) fn get(&self, id: FullNodeId) -> Option<&V>
        ensures { option_copied result ≡ value_at self.now id }
    {
        let number = self.number(id)?;
        Some(&self.entries[number as usize].1)
    }

    /// Whether an id has a value.
    pub(crate) fn contains_key(&self, id: FullNodeId) -> bool
        ensures { result ≡ is_some (value_at self.now id) }
    {
        self.number(id).is_some()
    }

    /// The value at an id, as a mutable reference.
    pub(crate) fn get_mut(&mut self, id: FullNodeId) -> Option<&mut V>
        ensures* writes_back { sem 𝓛 (lends_other V.row self.entry id result) }
        ensures value { option_copied_mut result ≡ value_at self.old id }
    {
        match self.number(id) {
            Some(number) => Some(self.value_mut(id, number as usize)),
            None => None,
        }
    }

    // the value of an id's entry, which has this number
    fn value_mut(&mut self, id: FullNodeId, number: usize) -> &mut V
        requires { id_at self.old number ≡ Some id }
        ensures* lends { sem 𝓛 (lends_value V.row self.entry id result) }
        ensures value { value_at self.old id ≡ Some result.now }
    {
        let entry = &mut self.entries[number];
        &mut entry.1
    }

    /// Adds an entry.
    ///
    /// # Errors
    ///
    /// Returns `AllocError` if memory runs out; the entries are then unchanged.
    pub(crate) fn add(&mut self, alloc: Global, id: FullNodeId, value: V) -> Result<(), AllocError>
        requires { value_at self.old id ≡ None }
        ensures updates { OnOk result ((q : FullNodeId)
            → value_at self.new q ≡ cond (is_at (full_cmp id) q) (Some value) (value_at self.old q)) }
        ensures count { OnOk result (length self.new ≡ length self.old + 1) }
        ensures err { OnErr result (self.new ≡ self.old) }
    {
        self.tidy(alloc)?;
        make_room(&mut self.entries, 1)?;
        lead(
            &mut self.trie,
            self.entries.as_slice(),
            self.entries.len(),
            id,
        )?;
        self.entries.push_reserved((id, value));
        Ok(())
    }

    /// Makes the trie anew if most of its nodes are no longer needed.
    fn tidy(&mut self, alloc: Global) -> Result<(), AllocError>
        ensures { self.new ≡ self.old }
    {
        if self.trie.len() / 32 > self.entries.len() + 64 {
            self.trie = trie_of(alloc, self.entries.as_slice())?;
        }
        Ok(())
    }

    /// Sets the value at an id that has one, and returns the old one.
    pub(crate) fn replace(&mut self, id: FullNodeId, value: V) -> Option<V>
        requires { IsSome (value_at self.old id) }
        ensures old { result ≡ value_at self.old id }
        ensures updates { (q : FullNodeId) → value_at self.new q ≡ cond (is_at (full_cmp id) q) (Some value) (value_at self.old q) }
        ensures count { length self.new ≡ length self.old }
    {
        let kept = self.get_mut(id)?;
        Some(mem::replace(kept, value))
    }

    /// Removes the value at an id.
    pub(crate) fn remove(&mut self, id: FullNodeId) -> Option<V>
        ensures old { result ≡ value_at self.old id }
        ensures updates { (q : FullNodeId) → value_at self.new q ≡ cond (is_at (full_cmp id) q) None (value_at self.old q) }
        ensures count { length self.new + size result ≡ length self.old }
    {
        let number = self.number(id)?;
        self.trie.put(id, None);
        let index = number as usize;
        let (_, value) = self.entries.swap_remove(index);
        if index < self.entries.len() {
            let moved = self.entries[index].0;
            self.trie.put(moved, Some(number));
        }
        Some(value)
    }
}

/// How many entries there may be, so that their numbers fit 32 bits.
const MOST: usize = u32::MAX as usize;

// the id of the entry with a number
fn id_of<V>(entries: &[(FullNodeId, V)], number: usize) -> Option<FullNodeId>
    ensures { result ≡ id_at entries.now number }
{
    let entry = entries.get(number)?;
    Some(entry.0)
}

#[tactic(auto, using(crate::proofs::Led::below_kept, crate::proofs::Led::below_set, crate::proofs::Led::below_split))]
// makes the id of an entry lead to its number, after those before it
fn lead<V>(
    trie: &mut Trie,
    entries: &[(FullNodeId, V)],
    number: usize,
    id: FullNodeId,
) -> Result<(), AllocError>
    requires within { number ≤ length entries.now }
    requires known { IsFoundBelow trie.old entries.now number }
    requires absent { HasNoBelow entries.now number id }
    ensures known { IsFoundBelow trie.new entries.now number }
    ensures next { OnOk result (found trie.new id ≡ Some number) }
{
    if number > MOST {
        return Err(AllocError);
    }
    trie.make_first()?;
    let place = trie.end(id);
    match trie.number_below(place, number) {
        None => {
            trie.set(place, Some(number as u32));
            Ok(())
        }
        Some(other) => trie.split(place, id, number as u32, entries[other].0),
    }
}

#[tactic(auto, using(crate::proofs::Led::none_below, crate::proofs::Led::next_below, crate::proofs::Led::apart_before, crate::proofs::Led::all_below))]
// a trie in which the id of each entry leads to its number
fn trie_of<V>(alloc: Global, entries: &[(FullNodeId, V)]) -> Result<Trie, AllocError>
    requires { AreApart entries.now }
    ensures { IfOk result (λ trie. IsFound trie entries.now) }
{
    let mut trie = Trie::new(alloc);
    for (number, entry) in entries.iter().enumerate() {
        lead(&mut trie, entries, number, entry.0)?;
    }
    Ok(trie)
}
