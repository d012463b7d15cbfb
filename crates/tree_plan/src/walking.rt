//! The changes of an update in which no tree is regrafted, and the ids of its events, by one walk over its nodes, those that entered
//! a spot and those that are removed. All three ascend by id, and so does what is written.
ghost use Rattle.std.specs.Prelude.{◌≡◌, ◌++◌, ◌≤◌, [], ◌∷◌, length, IsTrue, IfOk, IfErr, OnOk, IfSome, None, Some};
ghost use Rattle.std.specs.List.Sorted.{IsStrictlySortedBy};
ghost use Rattle.values_by_id.specs.Rows.{Ascends};
ghost use Rattle.model.specs.FullIds.{full_cmp};
ghost use Rattle.tree_changes.specs.declared.error.UpdateError.TheVariants.{Memory};
ghost use Rattle.tree_plan.specs.declared.writing.Group.TheVariants as group;
ghost use Rattle.tree_plan.specs.Passes.{at};
ghost use Rattle.tree_plan.specs.Verdicts.{Transition, Verdicts, IsFound};
ghost use Rattle.std.specs.BTreeMap.{keys};
ghost use Rattle.tree_plan.specs.Writing.{change_entry, group_of};
ghost use Rattle.tree_plan.specs.Walking.{TellsOf, id_in, Writes, Walks, WritesAll, IsWalkOf};

use crate::passes::{Arrival, Named};
use crate::verdicts::{Found, Verdict};
use crate::writing::Group;
use model::FullNodeId;
use std::alloc::Global;
use tree_changes::{NodeChange, UpdateError};
use values_by_id::{RowList, SortedRows};

/// The changes of nodes, and the nodes that are added, updated and removed, as far as the walk has got.
#[derive(Drop)]
pub(crate) struct Written {
    pub(crate) nodes: RowList<NodeChange>,
    pub(crate) added: Vec<FullNodeId>,
    pub(crate) updated: Vec<FullNodeId>,
    pub(crate) removed: Vec<FullNodeId>,
}

/// All changes of nodes, ids ascending, and the nodes that are added, updated and removed.
#[derive(Drop)]
pub(crate) struct Walked {
    pub(crate) nodes: SortedRows<NodeChange>,
    pub(crate) added: Vec<FullNodeId>,
    pub(crate) updated: Vec<FullNodeId>,
    pub(crate) removed: Vec<FullNodeId>,
}

/// The rows of the update's nodes, and of the nodes that entered a spot, that come next.
#[derive(Clone, Copy)]
pub(crate) struct Rows {
    pub(crate) named: usize,
    pub(crate) entered: usize,
}

/// Whether an id comes before another one, or there is no other one.
#[inline(always)]
fn comes_before(id: FullNodeId, end: Option<FullNodeId>) -> bool
    ensures { end ≡ None → IsTrue result }
{
    let Some(end) = end else {
        return true;
    };
    if id.tree == end.tree {
        return id.node.0 < end.node.0;
    }
    id.tree < end.tree
}

impl Written {
    /// Nothing, with room for so many changes, and so many added and updated nodes.
    fn with_capacity(
        alloc: Global,
        count: usize,
        added: usize,
        updated: usize,
    ) -> Result<Written, UpdateError>
        ensures ok { IfOk result (TellsOf []) }
        ensures err { IfErr result (λ e. e ≡ Memory) }
    {
        Ok(Written {
            nodes: RowList::with_capacity(alloc, count)?,
            added: Vec::with_capacity(alloc, added)?,
            updated: Vec::with_capacity(alloc, updated)?,
            removed: Vec::new(alloc),
        })
    }

    /// Adds a node to those of its group.
    #[inline(always)]
    fn push_id(&mut self, id: FullNodeId, own: Group) -> Result<(), UpdateError>
        ensures nodes { OnOk result (self.new.nodes ≡ self.old.nodes) }
        ensures added { OnOk result (self.new.added.items ≡ self.old.added.items ++ id_in group.Added own id) }
        ensures updated { OnOk result (self.new.updated.items ≡ self.old.updated.items ++ id_in group.Updated own id) }
        ensures removed { OnOk result (self.new.removed.items ≡ self.old.removed.items ++ id_in group.Removed own id) }
        ensures err { IfErr result (λ e. e ≡ Memory) }
    {
        match own {
            Group::Added => self.added.push(id)?,
            Group::Updated => self.updated.push(id)?,
            Group::Removed => self.removed.push(id)?,
        }
        Ok(())
    }

    /// Adds what a verdict says of a node.
    #[inline(always)]
    fn push(&mut self, id: FullNodeId, verdict: Verdict) -> Result<(), UpdateError>
        ensures nodes { OnOk result (self.new.nodes ≡ self.old.nodes ++ change_entry (id, verdict)) }
        ensures added { OnOk result (self.new.added.items ≡ self.old.added.items ++ id_in group.Added (group_of verdict) id) }
        ensures updated { OnOk result (self.new.updated.items ≡ self.old.updated.items ++ id_in group.Updated (group_of verdict) id) }
        ensures removed { OnOk result (self.new.removed.items ≡ self.old.removed.items ++ id_in group.Removed (group_of verdict) id) }
        ensures err { IfErr result (λ e. e ≡ Memory) }
    {
        if let Some(change) = verdict.change() {
            self.nodes.push(id, change)?;
        }
        self.push_id(id, verdict.group())
    }
}

impl Found {
    /// Writes what becomes of a node with this entry in the update and this spot that it entered.
    #[inline(always)]
    fn write_node(
        &self,
        id: FullNodeId,
        named: Option<Named>,
        arrival: Option<Arrival>,
        written: &mut Written,
    ) -> Result<(), UpdateError>
        ghost step: { Transition }
        requires found { IsFound step self.now }
        requires untold { self.now.told ≡ None }
        requires named { named ≡ at self.now.compared.named id }
        requires arrival { arrival ≡ at self.now.compared.entered id }
        ensures ok { OnOk result (Writes step (id ∷ []) written.old written.new) }
        ensures err { IfErr result (λ e. e ≡ Memory) }
    {
        let moved = self.place_by(id, arrival);
        let Some(verdict) = self.verdict_by(id, named, moved) else {
            return Ok(());
        };
        written.push(id, verdict)?;
        Ok(())
    }

    /// Writes what becomes of the update's nodes from a row on that come before an id, as by [`Found::write_named_on`]. Mostly there is
    /// none.
    #[inline(always)]
    fn write_named(
        &self,
        end: Option<FullNodeId>,
        rows: Rows,
        written: &mut Written,
    ) -> Result<usize, UpdateError>
        ghost step: { Transition }
        requires found { IsFound step self.now }
        requires untold { self.now.told ≡ None }
        ensures ok { IfOk result (λ row. Walks step self.now [] rows (record { named = row; entered = rows.entered }) written.old written.new) }
        ensures all { IfOk result (λ row. end ≡ None → length self.now.compared.named ≤ row) }
        ensures err { IfErr result (λ e. e ≡ Memory) }
    {
        let named = self.compared.named.entries();
        if rows.named < named.len() && comes_before(named[rows.named].0, end) {
            return self.write_named_on(end, rows, written);
        }
        Ok(rows.named)
    }

    /// Writes what becomes of the update's nodes from a row on that come before an id, or of all from there on. Returns the row after
    /// them.
    #[inline(never)]
    fn write_named_on(
        &self,
        end: Option<FullNodeId>,
        rows: Rows,
        written: &mut Written,
    ) -> Result<usize, UpdateError>
        ghost step: { Transition }
        requires found { IsFound step self.now }
        requires untold { self.now.told ≡ None }
        ensures ok { IfOk result (λ row. Walks step self.now [] rows (record { named = row; entered = rows.entered }) written.old written.new) }
        ensures all { IfOk result (λ row. end ≡ None → length self.now.compared.named ≤ row) }
        ensures err { IfErr result (λ e. e ≡ Memory) }
    {
        let named = self.compared.named.entries();
        for row in rows.named..named.len() {
            let item = named[row];
            if !comes_before(item.0, end) {
                return Ok(row);
            }
            let mut near = rows.entered;
            let arrival = self.compared.entered.get_near(item.0, &mut near);
            self.write_node(item.0, Some(item.1), arrival, written)?;
        }
        Ok(named.len())
    }

    /// The entry of a node in the update, if it is there. It is searched for from a row on.
    #[inline(always)]
    fn named_near(&self, id: FullNodeId, row: usize) -> Option<Named>
        ensures { result ≡ at self.now.compared.named id }
    {
        if self.compared.named.lacks_at(id, row) {
            return None;
        }
        let mut near = row;
        self.compared.named.get_near(id, &mut near)
    }

    /// Writes what becomes of a node that entered a spot. Returns the row that comes next of the update's nodes.
    #[inline(always)]
    fn write_arrival(
        &self,
        id: FullNodeId,
        arrival: Arrival,
        rows: Rows,
        written: &mut Written,
    ) -> Result<usize, UpdateError>
        ghost step: { Transition }
        requires found { IsFound step self.now }
        requires untold { self.now.told ≡ None }
        requires arrival { at self.now.compared.entered id ≡ Some arrival }
        ensures ok { IfOk result (λ row. Walks step self.now (id ∷ []) rows (record { named = row; entered = rows.entered }) written.old written.new) }
        ensures err { IfErr result (λ e. e ≡ Memory) }
    {
        let named = self.compared.named.entries();
        if rows.named < named.len() {
            let item = named[rows.named];
            if item.0 == id {
                self.write_node(id, Some(item.1), Some(arrival), written)?;
                return Ok(rows.named + 1);
            }
        }
        let other = self.named_near(id, rows.named);
        self.write_node(id, other, Some(arrival), written)?;
        Ok(rows.named)
    }

    /// Writes what becomes of the nodes that entered a spot, from a row on, that come before an id, or of all from there on, and of the
    /// update's nodes before them. Returns the rows after them.
    fn write_entered(
        &self,
        end: Option<FullNodeId>,
        rows: Rows,
        written: &mut Written,
    ) -> Result<Rows, UpdateError>
        ghost step: { Transition }
        requires found { IsFound step self.now }
        requires untold { self.now.told ≡ None }
        ensures ok { IfOk result (λ next. Walks step self.now [] rows next written.old written.new) }
        ensures all { IfOk result (λ next. end ≡ None → length self.now.compared.entered ≤ next.entered) }
        ensures err { IfErr result (λ e. e ≡ Memory) }
    {
        let entries = self.compared.entered.entries();
        let mut named = rows.named;
        for entered in rows.entered..entries.len() {
            let item = entries[entered];
            if !comes_before(item.0, end) {
                return Ok(Rows { named, entered });
            }
            named = self.write_named(Some(item.0), Rows { named, entered }, written)?;
            named = self.write_arrival(item.0, item.1, Rows { named, entered }, written)?;
        }
        Ok(Rows {
            named,
            entered: entries.len(),
        })
    }

    /// Writes what becomes of the update's nodes, and of those that entered a spot, that come before an id, or of all from the rows on.
    fn write_before(
        &self,
        end: Option<FullNodeId>,
        rows: Rows,
        written: &mut Written,
    ) -> Result<Rows, UpdateError>
        ghost step: { Transition }
        requires found { IsFound step self.now }
        requires untold { self.now.told ≡ None }
        ensures ok { IfOk result (λ next. Walks step self.now [] rows next written.old written.new) }
        ensures entered { IfOk result (λ next. end ≡ None → length self.now.compared.entered ≤ next.entered) }
        ensures named { IfOk result (λ next. end ≡ None → length self.now.compared.named ≤ next.named) }
        ensures err { IfErr result (λ e. e ≡ Memory) }
    {
        let rows = self.write_entered(end, rows, written)?;
        let named = self.write_named(end, rows, written)?;
        Ok(Rows {
            named,
            entered: rows.entered,
        })
    }

    /// Writes what becomes of a node that is removed, if the passes are right.
    fn write_gone(
        &self,
        id: FullNodeId,
        rows: Rows,
        written: &mut Written,
    ) -> Result<(), UpdateError>
        ghost step: { Transition }
        requires found { IsFound step self.now }
        requires untold { self.now.told ≡ None }
        ensures ok { OnOk result (Walks step self.now (id ∷ []) rows rows written.old written.new) }
        ensures err { IfErr result (λ e. e ≡ Memory) }
    {
        let mut near = rows.named;
        let named = self.compared.named.get_near(id, &mut near);
        let mut near = rows.entered;
        let arrival = self.compared.entered.get_near(id, &mut near);
        self.write_node(id, named, arrival, written)
    }

    /// Writes what becomes of the nodes that are removed, and of others that come before the last of them. Returns the rows after those.
    fn write_removed(&self, written: &mut Written) -> Result<Rows, UpdateError>
        ghost step: { Transition }
        requires found { IsFound step self.now }
        requires untold { self.now.told ≡ None }
        ensures ok { IfOk result (λ next. Walks step self.now self.now.removed.gone.keys (record { named = 0; entered = 0 }) next written.old written.new) }
        ensures ordered { OnOk result (IsStrictlySortedBy full_cmp self.now.removed.gone.keys) }
        ensures err { IfErr result (λ e. e ≡ Memory) }
    {
        let mut rows = Rows {
            named: 0,
            entered: 0,
        };
        for id in self.removed.gone.iter() {
            rows = self.write_before(Some(*id), rows, written)?;
            self.write_gone(*id, rows, written)?;
        }
        Ok(rows)
    }

    /// Writes what becomes of each node, if nothing is written yet and no tree is regrafted.
    fn write_all(&self, written: &mut Written) -> Result<(), UpdateError>
        ghost step: { Transition }
        requires found { IsFound step self.now }
        requires untold { self.now.told ≡ None }
        requires unmoved { keys self.now.regrafted.moved_in ≡ [] }
        requires empty { TellsOf [] written.old }
        ensures ok { OnOk result (WritesAll step written.new) }
        ensures ordered { OnOk result (IsStrictlySortedBy full_cmp self.now.removed.gone.keys) }
        ensures err { IfErr result (λ e. e ≡ Memory) }
    {
        let rows = self.write_removed(written)?;
        let _end = self.write_before(None, rows, written)?;
        Ok(())
    }

    /// What becomes of each node, from one walk. There is nothing if a tree is regrafted or a root is reported without a change, or
    /// if the changes don't ascend by id, which isn't proved of the walk.
    pub(crate) fn walked(&self, alloc: Global) -> Result<Option<Walked>, UpdateError>
        ghost step: { Transition }
        requires { IsFound step self.now }
        ensures ok { IfOk result (λ found. IfSome found (λ w. (vs : Verdicts) × IsWalkOf step vs w)) }
        ensures entered { IfOk result (λ found. IfSome found (λ _. Ascends self.now.compared.entered)) }
        ensures gone { IfOk result (λ found. IfSome found (λ _. IsStrictlySortedBy full_cmp self.now.removed.gone.keys)) }
        ensures err { IfErr result (λ e. e ≡ Memory) }
    {
        if self.told.is_some() {
            return Ok(None);
        }
        if !self.regrafted.moved_in.is_empty() {
            return Ok(None);
        }
        let count = self.expected_count();
        // a first update updates nothing, and others mostly add little
        let (added, updated) = if self.opened.is_first {
            (count, 0)
        } else {
            (0, count)
        };
        let mut written = Written::with_capacity(alloc, count, added, updated)?;
        self.write_all(&mut written)?;
        let Written {
            nodes,
            added,
            updated,
            removed,
        } = written;
        let Some(nodes) = nodes.into_ascending() else {
            return Ok(None);
        };
        Ok(Some(Walked {
            nodes,
            added,
            updated,
            removed,
        }))
    }
}
