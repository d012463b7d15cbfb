//! The store of a state: its nodes and trees, and indexes to find them.
ghost use Rattle.std.specs.Prelude.{◌≡◌, ◌<◌, ◌^◌, ◌||◌, not, ℕ, Some, IsSome, IfSome, is_some, length, option_copied, option_map, slice_get};
ghost use Rattle.std.specs.FinMap.{get as tree_at, len as nodes_len};
ghost use Rattle.std.specs.FinSet.{len as slots_len};
ghost use Rattle.model.specs.World.{World, IsNode, data_of, index_of, root_of, root_named};
ghost use Rattle.model.specs.Focus.{IsEffectiveFocus};
ghost use Rattle.model.specs.Forest.{IsFormed};
ghost use Rattle.model.specs.State.{IsState};
ghost use Rattle.tree_changes.specs.LookUps.{IsPlaceOf, IsNodeRecord, IsTreeRecord};
ghost use Rattle.tree_store.specs.Stored.{tree_of};
ghost use Rattle.tree_store.specs.NameRecords.{record_of};

use crate::names::{
    focus_in, graft_in, index_in, known_name, name_record, present_tree, root_in, tree_in,
};
use crate::records::{Kept, PresentTree, Tables};
use model::FullNodeId;
use schema::{Node, TreeId};
use std::marker::Model;
use tree_changes::{NodeRecord, TreeRecord};

/// The stored state: each node's data and place, the known trees, the toolkit's texts and the focus. Contracts see its
/// world, as `store.now.world`, the ids that have a slot, and whether there is room for a new tree.
#[derive(Drop)]
pub struct Store {
    pub(crate) tables: Tables,
    pub(crate) host_focused: bool,
    pub(crate) focus: FullNodeId,
}

impl Model for Store {
    ghost use Rattle.std.specs.Prelude.{nat_lt};
    ghost use Rattle.std.specs.Map.{keys_of};
    ghost use Rattle.std.specs.Vec.{vec_len, vec_capacity};
    ghost use Rattle.tree_store.specs.StoreViews.{StoreView, coded_store};
    ghost use Rattle.tree_store.specs.Stored.{slots_shown};
    ghost use Rattle.tree_store.specs.Shown.{world_shown, IsStored};

    ghost Value = { StoreView };

    ghost coded = { coded_store };

    ghost view = { λ a. record {
      world = world_shown a;
      slots = slots_shown a.tables.nodes;
      names = keys_of a.tables.names.entries;
      room = nat_lt (vec_len a.tables.known) (vec_capacity a.tables.known);
    } };

    ghost invariant = { λ a. IsStored a (world_shown a) };
}

impl Store {
    /// The world of a store is a state. Only a proof uses this; it computes nothing.
    pub fn know(&self)
        ensures state { IsState self.now.world }
        ensures formed { IsFormed self.now.world }
    {
        let _focus = self.focus;
    }

    /// The numbers of nodes and slots fit a `usize`. Only a proof uses this; it computes nothing.
    pub fn know_count(&self)
        ensures slots { slots_len self.now.slots < 2 ^ 63 }
        ensures nodes { nodes_len self.now.world.nodes < 2 ^ 63 }
    {
        let _count = self.tables.nodes.len();
    }

    /// The data of a node.
    pub fn get(&self, id: FullNodeId) -> Option<&Node>
        ensures { option_copied result ≡ data_of self.now.world id }
    {
        let record = self.tables.nodes.record(id)?;
        Some(record.node)
    }

    /// A node's place and data.
    pub fn record(&self, id: FullNodeId) -> Option<NodeRecord<'_>>
        ensures found { is_some result ≡ is_some (data_of self.now.world id) }
        ensures given { IfSome result (λ r. IsNodeRecord self.now.world id r) }
    {
        let record = self.tables.nodes.record(id)?;
        Some(NodeRecord {
            place: *record.place,
            node: record.node,
        })
    }

    /// The place and data of a node that is in the world, where they are kept.
    pub fn kept_of(&self, id: FullNodeId) -> Kept<'_>
        requires { IsNode self.now.world id }
        ensures data { Some result.node.now ≡ data_of self.now.world id }
        ensures place { IsPlaceOf self.now.world id result.place.now }
    {
        self.tables.nodes.known_record(id)
    }

    /// A node's place and data, where they are kept.
    pub fn kept(&self, id: FullNodeId) -> Option<Kept<'_>>
        ensures data { option_map (λ r. r.node.now) result ≡ data_of self.now.world id }
        ensures place { IfSome result (λ r. IsPlaceOf self.now.world id r.place.now) }
    {
        self.tables.nodes.record(id)
    }

    /// The record of a tree id, if it is known or grafted.
    pub fn tree(&self, name: TreeId) -> Option<TreeRecord>
        ensures { IsTreeRecord self.now.world name result }
    {
        let found = name_record(&self.tables.names, &name);
        let index = index_in(found);
        let tree = tree_in(self.tables.known.as_slice(), index);
        tree_record(&name, index, graft_in(found), tree)
    }

    /// The present tree with this index.
    pub fn present_tree(&self, index: u32) -> Option<PresentTree>
        ensures { option_map tree_of result ≡ tree_at self.now.world.trees index }
    {
        present_tree(self.tables.known.as_slice(), index)
    }

    /// The root of the tree with this id, if it is present.
    pub fn subtree_root(&self, name: TreeId) -> Option<FullNodeId>
        ensures { result ≡ root_named self.now.world name }
    {
        let tree = self.tree_index(name)?;
        let node = self.present_tree(tree)?.root;
        Some(FullNodeId { tree, node })
    }

    /// The root of the root tree.
    pub fn root(&self) -> FullNodeId
        ensures { root_of self.now.world 0 ≡ Some result }
    {
        // the world is a state, so that it has a root tree
        self.know();
        match self.present_tree(0) {
            Some(tree) => FullNodeId {
                tree: 0,
                node: tree.root,
            },
            None => unreachable!(),
        }
    }

    /// The effective focus, whether or not the host is focused.
    pub fn focus(&self) -> FullNodeId
        ensures { IsEffectiveFocus self.now.world result }
    {
        self.focus
    }

    /// Whether the host window has the focus.
    pub fn is_host_focused(&self) -> bool
        ensures { result ≡ self.now.world.host_focused }
    {
        self.host_focused
    }

    /// Sets whether the host window has the focus.
    pub fn set_host_focused(&mut self, focused: bool)
        ensures { self.new ≡ record self.old { world = record self.old.world { host_focused = focused } } }
    {
        self.host_focused = focused;
    }

    /// The number of known tree ids.
    pub fn known_trees(&self) -> u32
        ensures { result ≡ length self.now.world.known }
    {
        self.tables.known.len() as u32
    }

    /// The index of the tree with this id, if it was ever known.
    pub fn tree_index(&self, name: TreeId) -> Option<u32>
        ensures { result ≡ index_of self.now.world name }
    {
        index_in(name_record(&self.tables.names, &name))
    }

    /// The id of the tree with this index.
    pub fn tree_id(&self, index: u32) -> Option<TreeId>
        ensures { result ≡ slice_get self.now.world.known index }
    {
        known_name(self.tables.known.as_slice(), index)
    }

    /// The toolkit's name, as sent in the update.
    pub fn toolkit_name(&self) -> Option<&str>
        ensures { option_copied result ≡ self.now.world.toolkit.0 }
    {
        self.tables.toolkit.0.as_ref().map(|text| text.as_str())
    }

    /// The toolkit's version, as sent in the update.
    pub fn toolkit_version(&self) -> Option<&str>
        ensures { option_copied result ≡ self.now.world.toolkit.1 }
    {
        self.tables.toolkit.1.as_ref().map(|text| text.as_str())
    }
}

/// The record of a tree id, if it is known or grafted.
fn tree_record(
    name: &TreeId,
    index: Option<u32>,
    graft: Option<FullNodeId>,
    tree: Option<PresentTree>,
) -> Option<TreeRecord>
    ensures { result ≡ record_of name.now index graft tree }
{
    if is_unused(index, graft) {
        return None;
    }
    Some(TreeRecord {
        id: *name,
        index,
        graft,
        root: root_in(tree),
        focus: focus_in(tree),
    })
}

/// Whether a tree id has neither an index nor a graft.
fn is_unused(index: Option<u32>, graft: Option<FullNodeId>) -> bool
    ensures { result ≡ not (is_some index || is_some graft) }
{
    index.is_none() && graft.is_none()
}
