//! The first state, and how changes are written into a state: memory for them is reserved first.
ghost use Rattle.std.specs.Prelude.{◌≡◌, ◌≢◌, ◌<◌, true, None, map, length, All, AllPairs, Contains, IfSome, option_map, IfOk, OnOk, OnErr, if◌then◌else◌};
ghost use Rattle.std.specs.Vec.{vec_len, vec_capacity};
ghost use Rattle.tree_store.specs.Stored.{texts_shown, names_shown, trees_shown};
ghost use Rattle.tree_store.specs.Cells.{record_at};
ghost use Rattle.schema.specs.UpdateData.{update_data, info_data};
ghost use Rattle.tree_changes.specs.Changes.{change_at, overlaid_world, put_trees, tree_change};
ghost use Rattle.model.specs.State.{empty_world};
ghost use Rattle.model.specs.FullIds.{full_cmp};
ghost use Rattle.std.specs.List.Sorted.{IsStrictlySortedBy};
ghost use Rattle.tree_changes.specs.Decisions.{IsDecision};
ghost use Rattle.tree_store.specs.StoreViews.{IsTight};
ghost use Rattle.tree_store.specs.Commits.{texts_after, with_name, changed_record, IsReadyFor, HasEntries, AreEntriesApart, HasNoSpare, HasRoomFor};
ghost use Rattle.tree_store.specs.KeptNames.{name_at, name_after, kept_in, HasNames, HasNoMore};
ghost use Rattle.model.specs.declared.FullNodeId.{FullNodeId};
ghost use Rattle.schema.specs.declared.TreeId.{TreeId};

use crate::cells::Slots;
use crate::first::first_slots;
use crate::known::write_known;
use crate::names::{make_names, take_names_back, write_names};
use crate::overlay::is_root_index;
use crate::records::{KnownTree, Tables};
use crate::slots::{make_room, take_back, write_all};
use crate::store::Store;
use schema::{TreeId, TreeInfo, TreeUpdate};
use std::alloc::{AllocError, Global};
use std::collections::BTreeMap;
use tree_changes::{Decision, ToolkitTexts};

impl Store {
    /// Reserves what is needed to write the changes without allocating: a slot for each new node, a record for each new
    /// tree id, and room for a new known tree.
    ///
    /// # Errors
    ///
    /// Returns `AllocError` if memory runs out. The world is unchanged, and all that was reserved is released.
    pub fn reserve(&mut self, update: &TreeUpdate, decision: &Decision) -> Result<(), AllocError>
        requires tight { IsTight self.old }
        requires decided { IsDecision self.old.world (update_data update.now) decision.now }
        ensures same { self.new.world ≡ self.old.world }
        ensures ok { OnOk result (IsReadyFor self.new (update_data update.now) decision.now) }
        ensures err { OnErr result (IsTight self.new) }
        ensures names { OnErr result ((name : TreeId) → Contains self.new.names name → Contains self.old.names name) }
    {
        let is_new = self.tree_index(update.tree_id).is_none();
        let made = self.tables.make_all(is_new, decision);
        self.tables.nodes.know();
        made
    }

    /// Writes the changes into the state, after [`Store::reserve`]. Nothing is allocated, and no node's data is copied.
    pub fn commit(&mut self, update: TreeUpdate, decision: &Decision)
        requires ready { IsReadyFor self.old (update_data update) decision.now }
        requires decided { IsDecision self.old.world (update_data update) decision.now }
        ensures world { self.new.world ≡ overlaid_world self.old.world (update_data update) decision.now }
        ensures tight { IsTight self.new }
    {
        let is_new = self.tree_index(update.tree_id).is_none();
        let is_root = is_root_index(self, update.tree_id);
        self.tables
            .write_decision(update, decision, is_new, is_root);
        self.tables.nodes.know();
        self.focus = decision.focus;
    }

    /// The first state: the result of the first update.
    ///
    /// # Errors
    ///
    /// Returns `AllocError` if memory runs out.
    pub fn first(
        alloc: Global,
        update: TreeUpdate,
        decision: Decision,
        is_host_focused: bool,
    ) -> Result<Store, AllocError>
        requires { IsDecision (empty_world is_host_focused) (update_data update) decision }
        ensures world { IfOk result (λ s. s.world ≡ overlaid_world (empty_world is_host_focused) (update_data update) decision) }
        ensures tight { IfOk result (λ s. IsTight s) }
    {
        let TreeUpdate {
            nodes,
            tree,
            tree_id,
            focus: _,
        } = update;
        let mut tables = Tables {
            alloc,
            nodes: Slots::new(alloc),
            known: Vec::new(alloc),
            names: BTreeMap::new(alloc),
            toolkit: (None, None),
        };
        tables.make_trees(&decision)?;
        tables.nodes = first_slots(alloc, nodes, decision.nodes.as_slice())?;
        tables.write_trees(tree, tree_id, &decision, true, true);
        tables.nodes.know();
        Ok(Store {
            tables,
            host_focused: is_host_focused,
            focus: decision.focus,
        })
    }
}

impl Tables {
    /// Writes an update's changes, after memory for them was reserved.
    fn write_decision(
        &mut self,
        update: TreeUpdate,
        decision: &Decision,
        is_new: bool,
        is_root: bool,
    )
        requires room { HasRoomFor self.old.nodes decision.now.nodes.items }
        requires ascending { IsStrictlySortedBy full_cmp (map (λ e. e.0) decision.now.nodes.items) }
        requires entries { HasEntries update.nodes.items decision.now.nodes.items }
        requires apart { AreEntriesApart decision.now.nodes.items }
        requires there { HasNames self.old.names decision.now.trees.items }
        requires once { AllPairs (λ a b. a.id ≢ b.id) decision.now.trees.items }
        requires spare { is_new ≡ true → vec_len self.old.known < vec_capacity self.old.known }
        requires indexes { All (λ r. IfSome r.index
            (λ i. i < length (with_name is_new (names_shown self.old.known.items) update.tree_id))) decision.now.trees.items }
        ensures records { (id : FullNodeId) → record_at self.new.nodes id
            ≡ changed_record update.nodes.items (change_at decision.now.nodes.items id) (record_at self.old.nodes id) }
        ensures tight { HasNoSpare self.new.nodes }
        ensures kept { (name : TreeId) → name_at self.new.names name
            ≡ name_after (tree_change decision.now.trees.items name) (name_at self.old.names name) }
        ensures names { names_shown self.new.known.items ≡ with_name is_new (names_shown self.old.known.items) update.tree_id }
        ensures trees { trees_shown 0 self.new.known.items ≡ put_trees (trees_shown 0 self.old.known.items) decision.now.trees.items }
        ensures texts { texts_shown self.new.toolkit
            ≡ texts_after (if is_root then option_map info_data update.tree else None) (texts_shown self.old.toolkit) }
    {
        let TreeUpdate {
            nodes: mut entries,
            tree,
            tree_id,
            focus: _,
        } = update;
        write_all(&mut self.nodes, &mut entries, decision.nodes.as_slice());
        self.write_trees(tree, tree_id, decision, is_new, is_root);
    }

    /// Writes an update's changes of trees, after memory for them was reserved.
    fn write_trees(
        &mut self,
        tree: Option<TreeInfo>,
        tree_id: TreeId,
        decision: &Decision,
        is_new: bool,
        is_root: bool,
    )
        requires there { HasNames self.old.names decision.now.trees.items }
        requires once { AllPairs (λ a b. a.id ≢ b.id) decision.now.trees.items }
        requires spare { is_new ≡ true → vec_len self.old.known < vec_capacity self.old.known }
        requires indexes { All (λ r. IfSome r.index
            (λ i. i < length (with_name is_new (names_shown self.old.known.items) tree_id))) decision.now.trees.items }
        ensures nodes { self.new.nodes ≡ self.old.nodes }
        ensures kept { (name : TreeId) → name_at self.new.names name
            ≡ name_after (tree_change decision.now.trees.items name) (name_at self.old.names name) }
        ensures names { names_shown self.new.known.items ≡ with_name is_new (names_shown self.old.known.items) tree_id }
        ensures trees { trees_shown 0 self.new.known.items ≡ put_trees (trees_shown 0 self.old.known.items) decision.now.trees.items }
        ensures texts { texts_shown self.new.toolkit
            ≡ texts_after (if is_root then option_map info_data tree else None) (texts_shown self.old.toolkit) }
    {
        write_known(&mut self.known, is_new, tree_id, decision.trees.as_slice());
        write_names(&mut self.names, decision.trees.as_slice());
        set_texts(&mut self.toolkit, is_root, tree);
    }

    /// Makes a record for each changed tree id, and room for a new one.
    fn make_trees(&mut self, decision: &Decision) -> Result<(), AllocError>
        ensures nodes { self.new.nodes ≡ self.old.nodes }
        ensures names { OnOk result ((name : TreeId) → kept_in (name_at self.new.names name) ≡ kept_in (name_at self.old.names name)) }
        ensures known { OnOk result (self.new.known.items ≡ self.old.known.items) }
        ensures texts { self.new.toolkit ≡ self.old.toolkit }
        ensures there { OnOk result (HasNames self.new.names decision.now.trees.items) }
        ensures spare { OnOk result (vec_len self.new.known < vec_capacity self.new.known) }
    {
        make_names(&mut self.names, decision.trees.as_slice())?;
        make_known(&mut self.known, true)?;
        Ok(())
    }

    /// Makes a slot for each changed node, a record for each changed tree id, and room for a new one. If an allocation
    /// fails, all of it is released.
    fn make_all(&mut self, is_new: bool, decision: &Decision) -> Result<(), AllocError>
        requires { HasNoSpare self.old.nodes }
        ensures nodes { (id : FullNodeId) → record_at self.new.nodes id ≡ record_at self.old.nodes id }
        ensures names { (name : TreeId) → kept_in (name_at self.new.names name) ≡ kept_in (name_at self.old.names name) }
        ensures known { self.new.known.items ≡ self.old.known.items }
        ensures texts { self.new.toolkit ≡ self.old.toolkit }
        ensures room { OnOk result (HasRoomFor self.new.nodes decision.now.nodes.items) }
        ensures there { OnOk result (HasNames self.new.names decision.now.trees.items) }
        ensures spare { OnOk result (is_new ≡ true → vec_len self.new.known < vec_capacity self.new.known) }
        ensures err { OnErr result (HasNoSpare self.new.nodes) }
        ensures fewer { OnErr result (HasNoMore self.old.names self.new.names) }
    {
        make_room(&mut self.nodes, decision.nodes.as_slice())?;
        if make_names(&mut self.names, decision.trees.as_slice()).is_err() {
            take_back(&mut self.nodes, decision.nodes.as_slice());
            return Err(AllocError);
        }
        if make_known(&mut self.known, is_new).is_err() {
            take_back(&mut self.nodes, decision.nodes.as_slice());
            take_names_back(&mut self.names, decision.trees.as_slice());
            return Err(AllocError);
        }
        Ok(())
    }
}

// reserves room for one more known tree, if one is needed
fn make_known(known: &mut Vec<KnownTree>, is_new: bool) -> Result<(), AllocError>
    ensures items { known.new.items ≡ known.old.items }
    ensures ok { OnOk result (is_new ≡ true → vec_len known.new < vec_capacity known.new) }
{
    if is_new {
        return known.reserve(1);
    }
    Ok(())
}

// replaces the toolkit's texts by those of the root tree's tree info
fn set_texts(texts: &mut ToolkitTexts, is_root: bool, info: Option<TreeInfo>)
    ensures { texts_shown texts.new ≡ texts_after (if is_root then option_map info_data info else None) (texts_shown texts.old) }
{
    if !is_root {
        return;
    }
    if let Some(info) = info {
        *texts = (info.toolkit_name, info.toolkit_version);
    }
}
