//! Look-ups in a borrowed state, and before there is a state.
ghost use Rattle.std.specs.Prelude.{◌≡◌, is_some, IfSome};
ghost use Rattle.model.specs.World.{data_of};
ghost use Rattle.model.specs.State.{empty_world};
ghost use Rattle.tree_changes.specs.LookUps.{IsNodeRecord, IsTreeRecord, raised_count};

use crate::store::Store;
use model::FullNodeId;
use schema::TreeId;
use tree_changes::{LookUps, NodeRecord, TreeRecord};

/// Look-ups in a borrowed state, with a count of their own.
#[derive(Drop)]
pub struct StoreLookUps<'a> {
    store: &'a Store,
    count: u128,
}

impl<'a> LookUps for StoreLookUps<'a> {
    ghost world = { λ s. s.store.now.world };

    ghost asked = { λ s. s.count };

    fn node(&mut self, id: FullNodeId) -> Option<NodeRecord<'_>> {
        self.tick();
        self.store.record(id)
    }

    fn tree(&mut self, name: TreeId) -> Option<TreeRecord> {
        self.tick();
        self.store.tree(name)
    }

    fn count(&self) -> u128 {
        self.count
    }

    fn is_host_focused(&self) -> bool {
        self.store.is_host_focused()
    }

    fn known_trees(&self) -> u32 {
        self.store.know();
        self.store.known_trees()
    }
}

impl<'a> StoreLookUps<'a> {
    /// Continues an earlier count.
    pub fn new(store: &'a Store, count: u128) -> StoreLookUps<'a>
        ensures store { result.store.now ≡ store.now }
        ensures count { result.count ≡ count }
    {
        StoreLookUps { store, count }
    }

    fn tick(&mut self)
        ensures store { self.new.store ≡ self.old.store }
        ensures count { self.new.count ≡ raised_count self.old.count }
    {
        self.count = one_more(self.count);
    }
}

fn one_more(count: u128) -> u128
    ensures { result ≡ raised_count count }
{
    count.saturating_add(1)
}

/// Look-ups before the first update, when there are no records.
#[derive(Drop)]
pub struct NoRecords {
    host_focused: bool,
    count: u128,
}

impl LookUps for NoRecords {
    ghost world = { λ s. empty_world s.host_focused };

    ghost asked = { λ s. s.count };

    fn node(&mut self, id: FullNodeId) -> Option<NodeRecord<'_>> {
        self.tick();
        self.node_record(id)
    }

    fn tree(&mut self, _name: TreeId) -> Option<TreeRecord> {
        self.tick();
        None
    }

    fn count(&self) -> u128 {
        self.count
    }

    fn is_host_focused(&self) -> bool {
        self.host_focused
    }

    fn known_trees(&self) -> u32 {
        0
    }
}

impl NoRecords {
    /// Counts from zero.
    pub fn new(host_focused: bool) -> NoRecords
        ensures host { result.host_focused ≡ host_focused }
        ensures count { result.count ≡ 0 }
    {
        NoRecords {
            host_focused,
            count: 0,
        }
    }

    fn tick(&mut self)
        ensures host { self.new.host_focused ≡ self.old.host_focused }
        ensures count { self.new.count ≡ raised_count self.old.count }
    {
        self.count = one_more(self.count);
    }

    fn node_record(&self, id: FullNodeId) -> Option<NodeRecord<'_>>
        ensures found { is_some result ≡ is_some (data_of (empty_world self.now.host_focused) id) }
        ensures given { IfSome result (λ r. IsNodeRecord (empty_world self.now.host_focused) id r) }
    {
        None
    }
}
