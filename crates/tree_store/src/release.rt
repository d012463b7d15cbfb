//! Gives up what is reserved for changes that aren't written.
ghost use Rattle.std.specs.Prelude.{◌≡◌, All, Contains};
ghost use Rattle.schema.specs.declared.TreeId.{TreeId};
ghost use Rattle.model.specs.declared.FullNodeId.{FullNodeId};
ghost use Rattle.tree_store.specs.Cells.{record_at};
ghost use Rattle.tree_store.specs.Commits.{HasNoSpare, HasRoomFor, HasSlots};
ghost use Rattle.tree_store.specs.KeptNames.{name_at, kept_in, HasNoMore, IsNoBlank};
ghost use Rattle.tree_store.specs.StoreViews.{IsTight};
ghost use Rattle.tree_store.specs.UsedNames.{IsUsed};

use crate::names::take_names_back;
use crate::records::Tables;
use crate::slots::take_back;
use crate::store::Store;
use tree_changes::Decision;

impl Store {
    /// Releases what [`Store::reserve`] reserved for changes, in place of writing them. Nothing is allocated.
    pub fn release(&mut self, decision: &Decision)
        requires { HasSlots self.old decision.now }
        ensures same { self.new.world ≡ self.old.world }
        ensures tight { IsTight self.new }
        ensures fewer { (name : TreeId) → Contains self.new.names name → Contains self.old.names name }
        ensures used { All (λ r. Contains self.new.names r.id → IsUsed self.new.world r.id) decision.now.trees.items }
    {
        self.tables.take_all_back(decision);
        self.tables.nodes.know();
    }
}

impl Tables {
    /// Removes the empty slots of changed nodes, and the empty records of changed tree ids.
    fn take_all_back(&mut self, decision: &Decision)
        requires { HasRoomFor self.old.nodes decision.now.nodes.items }
        ensures nodes { (id : FullNodeId) → record_at self.new.nodes id ≡ record_at self.old.nodes id }
        ensures names { (name : TreeId) → kept_in (name_at self.new.names name) ≡ kept_in (name_at self.old.names name) }
        ensures known { self.new.known ≡ self.old.known }
        ensures texts { self.new.toolkit ≡ self.old.toolkit }
        ensures tight { HasNoSpare self.new.nodes }
        ensures fewer { HasNoMore self.old.names self.new.names }
        ensures taken { All (λ r. IsNoBlank (name_at self.new.names r.id)) decision.now.trees.items }
    {
        take_back(&mut self.nodes, decision.nodes.as_slice());
        take_names_back(&mut self.names, decision.trees.as_slice());
    }
}
