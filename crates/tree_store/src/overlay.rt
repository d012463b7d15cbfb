//! An update's changes laid over a state.
ghost use Rattle.std.specs.Prelude.{◌≡◌, ◌==◌, ◌<◌, ◌^◌, ℕ, List, map, drop, option_copied, option_map, option_and_then, slice_get, Some, None, IsSome, IfSome, cond};
ghost use Rattle.std.specs.FinMap.{len};
ghost use Rattle.std.specs.List.Sorted.{IsStrictlySortedBy};
ghost use Rattle.schema.specs.UpdateData.{update_data, info_data};
ghost use Rattle.model.specs.declared.FullNodeId.{FullNodeId};
ghost use Rattle.model.specs.FullIds.{full_cmp};
ghost use Rattle.model.specs.World.{World, data_of, index_of, root_of, root_named};
ghost use Rattle.model.specs.Focus.{IsEffectiveFocus};
ghost use Rattle.model.specs.Forest.{IsFormed};
ghost use Rattle.model.specs.State.{IsState};
ghost use Rattle.tree_changes.specs.LookUps.{IsPlaceOf};
ghost use Rattle.tree_changes.specs.Changes.{change_at, changed_data, entry_data, place_in, tree_change, if_kept};
ghost use Rattle.std.specs.Ordering.{nat_cmp, is_eq};
ghost use Rattle.std.specs.Cmp.Lexicographic.{slice_cmp};
ghost use Rattle.std.specs.String.{string_bytes};
ghost use Rattle.tree_changes.specs.declared.decision.NodeChange.{NodeChange};
ghost use Rattle.model.specs.Update.{index_for};
ghost use Rattle.tree_store.specs.Commits.{HasSlots};
ghost use Rattle.tree_store.specs.Overlays.{laid_over, replacing, root_recorded, IsLaidOver, IsRecordAfter};

use crate::records::Kept;
use crate::store::Store;
use model::{FullNodeId, is_same};
use schema::{Node, NodeId, TreeId, TreeInfo, TreeUpdate};
use tree_changes::{Decision, NodeChange, TreeRecord};

/// A decision on an update, with the update that holds the data.
#[derive(Clone, Copy)]
pub struct Overlay<'a> {
    pub update: &'a TreeUpdate,
    pub decision: &'a Decision,
}

/// The change of a node, if it changes. The changes ascend by id.
pub(crate) fn change_of(changes: &[(FullNodeId, NodeChange)], id: FullNodeId) -> Option<NodeChange>
    requires { IsStrictlySortedBy full_cmp (map (λ e. e.0) changes.now) }
    ensures { result ≡ change_at changes.now id }
{
    match changes.binary_search_by_key(&id, |entry| entry.0) {
        Ok(found) => Some(changes[found].1),
        Err(_) => None,
    }
}

/// The change of the node, if the entry at an index is its.
fn change_here(
    changes: &[(FullNodeId, NodeChange)],
    id: FullNodeId,
    index: usize,
) -> Option<&NodeChange>
    requires { IsStrictlySortedBy full_cmp (map (λ e. e.0) changes.now) }
    ensures { IfSome result (λ change. change_at changes.now id ≡ Some change.now) }
{
    if index >= changes.len() {
        return None;
    }
    if is_same(changes[index].0, id) {
        return Some(&changes[index].1);
    }
    None
}

/// The change of a node, as by `change_of`, where it is kept. The entry at `near` is tried first, and `near` is set to the
/// one after it, so that looking up ascending ids needs no search.
fn change_near<'b>(
    changes: &'b [(FullNodeId, NodeChange)],
    id: FullNodeId,
    near: &mut usize,
) -> Option<&'b NodeChange>
    requires { IsStrictlySortedBy full_cmp (map (λ e. e.0) changes.now) }
    ensures { option_copied result ≡ change_at changes.now id }
{
    if let Some(change) = change_here(changes, id, *near) {
        *near = near.saturating_add(1);
        return Some(change);
    }
    match changes.binary_search_by_key(&id, |entry| entry.0) {
        Ok(found) => {
            *near = found.saturating_add(1);
            Some(&changes[found].1)
        }
        Err(_) => None,
    }
}

/// The data of an entry of an update's nodes.
pub(crate) fn entry_node(nodes: &[(NodeId, Node)], entry: usize) -> Option<&Node>
    ensures { option_copied result ≡ entry_data nodes.now entry }
{
    nodes.get(entry).map(|entry| &entry.1)
}

/// The data of a node after a change. The stored data is looked up only if it stays.
pub(crate) fn changed_node<'b>(
    base: &'b Store,
    nodes: &'b [(NodeId, Node)],
    id: FullNodeId,
    change: NodeChange,
) -> Option<&'b Node>
    ensures { option_copied result ≡ changed_data nodes.now change (data_of base.now.world id) }
{
    match change {
        NodeChange::Put {
            entry: Some(entry),
            ..
        } => entry_node(nodes, entry),
        NodeChange::Put { entry: None, .. } => base.get(id),
        NodeChange::Gone => None,
    }
}

/// The place and data of a node after a change. The place is where the change has it.
fn kept_after<'b>(
    base: &'b Store,
    nodes: &'b [(NodeId, Node)],
    id: FullNodeId,
    change: &'b NodeChange,
) -> Option<Kept<'b>>
    ensures data { option_map (λ r. r.node.now) result ≡ changed_data nodes.now change.now (data_of base.now.world id) }
    ensures place { IfSome result (λ r. r.place.now ≡ place_in change.now) }
{
    let NodeChange::Put { place, entry } = change else {
        return None;
    };
    let node = match entry {
        Some(entry) => entry_node(nodes, *entry)?,
        None => base.get(id)?,
    };
    Some(Kept { place, node })
}

/// The changed record of a tree id, if it changes.
pub(crate) fn changed_record(records: &[TreeRecord], name: &TreeId) -> Option<TreeRecord>
    ensures { result ≡ tree_change records.now name.now }
{
    for record in records {
        if is_of_name(record, name) {
            return Some(*record);
        }
    }
    None
}

fn is_of_name(changed: &TreeRecord, name: &TreeId) -> bool
    ensures { result ≡ is_eq (slice_cmp nat_cmp changed.now.id.0 name.now.0) }
{
    changed.id.cmp(name).is_eq()
}

/// The record, or `None` if it has neither an index nor a graft.
fn kept_record(changed: TreeRecord) -> Option<TreeRecord>
    ensures { result ≡ if_kept changed }
{
    if changed.index.is_some() {
        return Some(changed);
    }
    if changed.graft.is_some() {
        return Some(changed);
    }
    None
}

fn index_in_record(found: Option<TreeRecord>) -> Option<u32>
    ensures { result ≡ option_and_then (λ r. r.index) found }
{
    found?.index
}

fn root_in_record(found: Option<TreeRecord>) -> Option<FullNodeId>
    ensures { result ≡ root_recorded found }
{
    let found = found?;
    let tree = found.index?;
    let node = found.root?;
    Some(FullNodeId { tree, node })
}

impl<'a> Overlay<'a> {
    /// The world with the changes is a state. Only a proof uses this; it computes nothing.
    pub fn know(self, base: &Store)
        requires { IsLaidOver base.now.world self }
        ensures state { IsState (laid_over base.now.world self.entry) }
        ensures formed { IsFormed (laid_over base.now.world self.entry) }
    {
        base.know();
    }

    /// The number of nodes of the world with the changes fits a `usize`, if there are slots for them. Only a proof uses
    /// this; it computes nothing.
    pub fn know_count(self, base: &Store)
        requires { HasSlots base.now self.decision.now }
        ensures { len (laid_over base.now.world self.entry).nodes < 2 ^ 63 }
    {
        base.know_count();
    }

    fn change(self, id: FullNodeId) -> Option<NodeChange>
        requires { IsStrictlySortedBy full_cmp (map (λ e. e.0) self.decision.now.nodes.items) }
        ensures { result ≡ change_at self.entry.decision.now.nodes.items id }
    {
        change_of(self.decision.nodes.as_slice(), id)
    }

    /// The data of a node.
    pub fn data(self, base: &'a Store, id: FullNodeId) -> Option<&'a Node>
        requires { IsLaidOver base.now.world self }
        ensures { option_copied result ≡ data_of (laid_over base.now.world self.entry) id }
    {
        match self.change(id) {
            Some(change) => changed_node(base, self.update.nodes.as_slice(), id, change),
            None => base.get(id),
        }
    }

    fn change_by(self, id: FullNodeId, near: &mut usize) -> Option<&'a NodeChange>
        requires { IsStrictlySortedBy full_cmp (map (λ e. e.0) self.decision.now.nodes.items) }
        ensures { option_copied result ≡ change_at self.entry.decision.now.nodes.items id }
    {
        change_near(self.decision.nodes.as_slice(), id, near)
    }

    /// A node's place and data, where they are kept or where its change has them. Its change is looked for at `near` first,
    /// and `near` is set to the one after it, so that looking up ascending ids needs no search.
    pub fn kept_near(self, base: &'a Store, id: FullNodeId, near: &mut usize) -> Option<Kept<'a>>
        requires { IsLaidOver base.now.world self }
        ensures data { option_map (λ r. r.node.now) result ≡ data_of (laid_over base.now.world self.entry) id }
        ensures place { IfSome result (λ r. IsPlaceOf (laid_over base.now.world self.entry) id r.place.now) }
    {
        match self.change_by(id, near) {
            Some(change) => kept_after(base, self.update.nodes.as_slice(), id, change),
            None => base.kept(id),
        }
    }

    fn record(self, base: &Store, name: &TreeId) -> Option<TreeRecord>
        ensures { IsRecordAfter base.now.world self.entry name.now result }
    {
        let before = base.tree(*name);
        match changed_record(self.decision.trees.as_slice(), name) {
            Some(changed) => kept_record(changed),
            None => before,
        }
    }

    /// The index of the tree with this id, if it was ever known.
    pub fn tree_index(self, base: &Store, name: TreeId) -> Option<u32>
        requires { IsLaidOver base.now.world self }
        ensures { result ≡ index_of (laid_over base.now.world self.entry) name }
    {
        index_in_record(self.record(base, &name))
    }

    /// The root of the tree with this id, if it is present.
    pub fn subtree_root(self, base: &Store, name: TreeId) -> Option<FullNodeId>
        requires { IsLaidOver base.now.world self }
        ensures { result ≡ root_named (laid_over base.now.world self.entry) name }
    {
        root_in_record(self.record(base, &name))
    }

    /// The root of the root tree.
    pub fn root(self, base: &Store) -> FullNodeId
        requires { IsLaidOver base.now.world self }
        ensures { root_of (laid_over base.now.world self.entry) 0 ≡ Some result }
    {
        self.know(base);
        match self.subtree_root(base, TreeId::root()) {
            Some(root) => root,
            None => unreachable!(),
        }
    }

    /// The id of the tree with this index.
    pub fn tree_id(self, base: &Store, index: u32) -> Option<TreeId>
        ensures { result ≡ slice_get (laid_over base.now.world self.entry).known index }
    {
        if let Some(name) = base.tree_id(index) {
            return Some(name);
        }
        if index != base.known_trees() {
            return None;
        }
        match base.tree_index(self.update.tree_id) {
            Some(_) => None,
            None => Some(self.update.tree_id),
        }
    }

    /// The effective focus, whether or not the host is focused.
    pub fn focus(self, base: &Store) -> FullNodeId
        requires { IsLaidOver base.now.world self }
        ensures { IsEffectiveFocus (laid_over base.now.world self.entry) result }
    {
        base.know();
        self.decision.focus
    }

    // the tree info that replaces the toolkit's texts, if any
    fn root_info(self, base: &Store) -> Option<&'a TreeInfo>
        ensures { option_map info_data (option_copied result) ≡ replacing base.now.world (update_data self.entry.update.now) }
    {
        if !is_root_index(base, self.update.tree_id) {
            return None;
        }
        self.update.tree.as_ref()
    }

    /// The toolkit's name, as sent in the update.
    pub fn toolkit_name(self, base: &'a Store) -> Option<&'a str>
        ensures { option_copied result ≡ (laid_over base.now.world self.entry).toolkit.0 }
    {
        match self.root_info(base) {
            Some(info) => given_text(&info.toolkit_name),
            None => base.toolkit_name(),
        }
    }

    /// The toolkit's version, as sent in the update.
    pub fn toolkit_version(self, base: &'a Store) -> Option<&'a str>
        ensures { option_copied result ≡ (laid_over base.now.world self.entry).toolkit.1 }
    {
        match self.root_info(base) {
            Some(info) => given_text(&info.toolkit_version),
            None => base.toolkit_version(),
        }
    }
}

// whether this is the root tree's id in a state
pub(crate) fn is_root_index(base: &Store, name: TreeId) -> bool
    ensures { result ≡ (index_for base.now.world name == 0) }
{
    base.know();
    match base.tree_index(name) {
        Some(index) => index == 0,
        None => false,
    }
}

fn given_text(text: &Option<String>) -> Option<&str>
    ensures { option_copied result ≡ option_map string_bytes text.now }
{
    text.as_ref().map(|text| text.as_str())
}
