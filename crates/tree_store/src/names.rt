//! The known trees by index, and the tree ids that are known or grafted.
ghost use Rattle.std.specs.Prelude.{◌≡◌, option_copied, option_map, option_and_then, slice_get, Some, None, ◌≢◌, cond, IsSome, OnOk, OnErr, All, AllPairs, ◌⊎◌};
ghost use Rattle.tree_store.specs.Stored.{tree_of};
ghost use Rattle.std.specs.Ordering.{is_eq};
ghost use Rattle.schema.specs.declared.TreeId.{TreeId};
ghost use Rattle.model.specs.FullIds.{name_cmp};
ghost use Rattle.tree_changes.specs.Changes.{tree_change};
ghost use Rattle.tree_store.specs.KeptNames.{name_at, name_kept, name_after, kept_in, HasNames, HasNoMore, HasNoMoreBut, IsNoBlank};

use crate::records::{KnownTree, NameRecord, PresentTree};
use model::FullNodeId;
use schema::{NodeId, TreeId};
use std::alloc::AllocError;
use std::collections::BTreeMap;
use tree_changes::TreeRecord;

/// The root and focus of the tree with this index, if it is present.
pub(crate) fn present_tree(known: &[KnownTree], index: u32) -> Option<PresentTree>
    ensures { result ≡ option_and_then (λ k. k.tree) (slice_get known.now index) }
{
    known.get(index as usize)?.tree
}

/// The id of the tree with this index.
pub(crate) fn known_name(known: &[KnownTree], index: u32) -> Option<TreeId>
    ensures { result ≡ option_map (λ k. k.name) (slice_get known.now index) }
{
    known.get(index as usize).map(|known| known.name)
}

/// The root and focus of the tree with this index, if there is one and it is present.
pub(crate) fn tree_in(known: &[KnownTree], index: Option<u32>) -> Option<PresentTree>
    ensures { result ≡ option_and_then (λ i. option_and_then (λ k. k.tree) (slice_get known.now i)) index }
{
    present_tree(known, index?)
}

/// The record of a tree id.
pub(crate) fn name_record(names: &BTreeMap<TreeId, NameRecord>, name: &TreeId) -> Option<NameRecord>
    ensures { result ≡ name_at names.now name.now }
{
    names.get(name).copied()
}

/// The index of a tree id, if it is known.
pub(crate) fn index_in(found: Option<NameRecord>) -> Option<u32>
    ensures { result ≡ option_and_then (λ r. r.index) found }
{
    found?.index
}

/// The node that grafts the tree with this id, if there is one.
pub(crate) fn graft_in(found: Option<NameRecord>) -> Option<FullNodeId>
    ensures { result ≡ option_and_then (λ r. r.graft) found }
{
    found?.graft
}

/// The root of a tree that may be present.
pub(crate) fn root_in(tree: Option<PresentTree>) -> Option<NodeId>
    ensures { result ≡ option_map (λ t. t.root) tree }
{
    tree.map(|tree| tree.root)
}

/// The declared focus of a tree that may be present.
pub(crate) fn focus_in(tree: Option<PresentTree>) -> Option<NodeId>
    ensures { result ≡ option_map (λ t. t.focus) tree }
{
    tree.map(|tree| tree.focus)
}

/// Writes the changes of tree ids. Each of them has a record, so nothing is allocated.
pub(crate) fn write_names(names: &mut BTreeMap<TreeId, NameRecord>, records: &[TreeRecord])
    requires there { HasNames names.old records.now }
    requires once { AllPairs (λ a b. a.id ≢ b.id) records.now }
    ensures { (name : TreeId) → name_at names.new name ≡ name_after (tree_change records.now name) (name_at names.old name) }
{
    for record in records {
        write_name(names, record);
    }
}

fn write_name(names: &mut BTreeMap<TreeId, NameRecord>, changed: &TreeRecord)
    requires { IsSome (name_at names.old changed.now.id) }
    ensures { (q : TreeId) → name_at names.new q ≡ cond (is_eq (name_cmp changed.now.id q)) (name_kept changed.now) (name_at names.old q) }
{
    match kept_name(changed) {
        Some(kept) => put_name(names, &changed.id, kept),
        None => drop(names.remove(&changed.id)),
    }
}

fn put_name(names: &mut BTreeMap<TreeId, NameRecord>, name: &TreeId, kept: NameRecord)
    requires { IsSome (name_at names.old name.now) }
    ensures { (q : TreeId) → name_at names.new q ≡ cond (is_eq (name_cmp name.now q)) (Some kept) (name_at names.old q) }
{
    if names.insert(*name, kept).is_err() {
        unreachable!()
    }
}

fn kept_name(changed: &TreeRecord) -> Option<NameRecord>
    ensures { result ≡ name_kept changed.now }
{
    let kept = NameRecord {
        index: changed.index,
        graft: changed.graft,
    };
    if changed.index.is_some() {
        return Some(kept);
    }
    if changed.graft.is_some() {
        return Some(kept);
    }
    None
}

/// Makes an empty record for each changed tree id that has none. If an allocation fails, all of them are removed.
pub(crate) fn make_names(
    names: &mut BTreeMap<TreeId, NameRecord>,
    records: &[TreeRecord],
) -> Result<(), AllocError>
    ensures same { (name : TreeId) → kept_in (name_at names.new name) ≡ kept_in (name_at names.old name) }
    ensures made { HasNoMoreBut records.now names.old names.new }
    ensures ok { OnOk result (HasNames names.new records.now) }
    ensures err { OnErr result (HasNoMore names.old names.new) }
{
    for record in records {
        if make_name(names, &record.id).is_err() {
            take_names_back(names, records);
            return Err(AllocError);
        }
    }
    Ok(())
}

fn make_name(names: &mut BTreeMap<TreeId, NameRecord>, name: &TreeId) -> Result<(), AllocError>
    ensures same { (q : TreeId) → kept_in (name_at names.new q) ≡ kept_in (name_at names.old q) }
    ensures there { (q : TreeId) → IsSome (name_at names.old q) → IsSome (name_at names.new q) }
    ensures made { (q : TreeId) → IsSome (name_at names.new q) → IsSome (name_at names.old q) ⊎ (name.now ≡ q) }
    ensures ok { OnOk result (IsSome (name_at names.new name.now)) }
{
    if names.contains_key(name) {
        return Ok(());
    }
    let empty = NameRecord {
        index: None,
        graft: None,
    };
    drop(names.insert(*name, empty)?);
    Ok(())
}

/// Removes the empty records of changed tree ids.
pub(crate) fn take_names_back(names: &mut BTreeMap<TreeId, NameRecord>, records: &[TreeRecord])
    ensures same { (name : TreeId) → kept_in (name_at names.new name) ≡ kept_in (name_at names.old name) }
    ensures fewer { HasNoMore names.old names.new }
    ensures taken { All (λ r. IsNoBlank (name_at names.new r.id)) records.now }
{
    for record in records {
        take_name_back(names, &record.id);
    }
}

fn take_name_back(names: &mut BTreeMap<TreeId, NameRecord>, name: &TreeId)
    ensures same { (q : TreeId) → kept_in (name_at names.new q) ≡ kept_in (name_at names.old q) }
    ensures fewer { HasNoMore names.old names.new }
    ensures taken { IsNoBlank (name_at names.new name.now) }
{
    let found = name_record(names, name);
    if index_in(found).is_some() {
        return;
    }
    if graft_in(found).is_some() {
        return;
    }
    drop(names.remove(name));
}
