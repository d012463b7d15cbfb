//! A mirror: a copy of a tree's nodes, kept up to date by a handler's events alone.
ghost use Rattle.std.specs.Prelude.{◌≡◌, Some, None, IfSome, IsSomeAnd, IfOk, OnOk, option_map};
ghost use Rattle.std.specs.FinMap.{remove};
ghost use Rattle.model.specs.Forest.{place_of};
ghost use Rattle.model.specs.Events.{FocusMoved, NodeRemoved};
ghost use Rattle.model.specs.Mirror.{AreRecordsOf, Notes, Mirrors, MirrorsWhileKept};
ghost use Rattle.views.specs.Nodes.{world_at, id_at, seen_node, seen_through};
ghost use Rattle.trees.specs.Mirrored.{records_kept, nodes_kept};

use crate::{Tree, TreeChangeHandler};
use model::{FullNodeId, Place};
use std::alloc::{AllocError, Global};
use std::collections::BTreeMap;
use std::marker::Model;
use tree_store::MirrorRecord;
use views::NodeRef;

/// What a mirror keeps until an allocation fails.
#[derive(Drop)]
pub(crate) struct KeptRecords {
    pub(crate) nodes: BTreeMap<FullNodeId, MirrorRecord>,
    pub(crate) focus: Option<FullNodeId>,
}

impl KeptRecords {
    // replaces the record of a node
    fn note(&mut self, node: NodeRef<'_>) -> Result<(), AllocError>
        ensures { OnOk result (Notes (records_kept self.old) (seen_node node.entry) (records_kept self.new)) }
    {
        let id = node.id();
        let place = place_of(node);
        let node_data = node.data().clone()?;
        let noted = MirrorRecord {
            place,
            node: node_data,
        };
        drop(self.nodes.insert(id, noted)?);
        Ok(())
    }

    // removes the record of a node
    fn forget(&mut self, id: FullNodeId)
        ensures nodes { nodes_kept self.new.nodes.entries ≡ remove (nodes_kept self.old.nodes.entries) id }
        ensures focus { self.new.focus ≡ self.old.focus }
    {
        drop(self.nodes.remove(&id));
    }
}

// the place of a node: its parent's id, and its index among the parent's children
fn place_of(node: NodeRef<'_>) -> Option<Place>
    ensures { result ≡ place_of (world_at node.entry) (id_at node.entry) }
{
    let (parent, index) = node.parent_and_index()?;
    Some((parent.id(), index))
}

// the id of a node, if there is one
fn id_of(found: Option<NodeRef<'_>>) -> Option<FullNodeId>
    ensures { result ≡ option_map id_at found.entry }
{
    found.map(|node| node.id())
}

/// A copy of the place and data of each node of a tree, and of its focus. It is made from a tree once and then follows
/// the tree's events, reading nothing but their views. Once an allocation fails it keeps nothing.
#[derive(Drop)]
pub struct Mirror {
    kept: Option<KeptRecords>,
}

impl Model for Mirror {
    ghost use Rattle.std.specs.Prelude.{Option, option_map};
    ghost use Rattle.std.specs.Coded.{coded_option};
    ghost use Rattle.model.specs.Mirror.{Records};
    ghost use Rattle.trees.specs.Mirrored.{records_kept, coded_records};

    ghost Value = { Option Records };

    ghost coded = { coded_option coded_records };

    ghost view = { λ a. option_map records_kept a.kept };
}

impl Mirror {
    /// Makes a mirror of a tree.
    ///
    /// # Errors
    ///
    /// Returns `AllocError` if memory runs out.
    pub fn new(alloc: Global, tree: &Tree) -> Result<Mirror, AllocError>
        ensures { IfOk result (λ mirror. IsSomeAnd mirror (AreRecordsOf tree.now)) }
    {
        let state = tree.state();
        let nodes = state.store.copy_records(alloc)?;
        let focus = id_of(state.focus());
        Ok(Mirror {
            kept: Some(KeptRecords { nodes, focus }),
        })
    }

    /// The record of each node by id, or `None` if an allocation has failed.
    pub fn records(&self) -> Option<&BTreeMap<FullNodeId, MirrorRecord>>
        ensures { option_map (λ nodes. nodes_kept nodes.now.entries) result ≡ option_map (λ r. r.nodes) self.now }
    {
        let kept = self.kept.as_ref()?;
        Some(&kept.nodes)
    }

    /// The focus, if any, or `None` if an allocation has failed.
    pub fn focus(&self) -> Option<Option<FullNodeId>>
        ensures { result ≡ option_map (λ r. r.focus) self.now }
    {
        let kept = self.kept.as_ref()?;
        Some(kept.focus)
    }

    // replaces the record of a node, or drops all records if memory runs out
    fn note(&mut self, node: NodeRef<'_>)
        ensures { IfSome self.new (λ after. IsSomeAnd self.old (λ before. Notes before (seen_node node.entry) after)) }
    {
        let is_noted = match &mut self.kept {
            Some(kept) => kept.note(node).is_ok(),
            None => false,
        };
        if !is_noted {
            self.kept = None;
        }
    }
}

impl TreeChangeHandler for Mirror {
    ghost steps = { λ before event after. MirrorsWhileKept before event after };

    fn node_added(&mut self, node: &NodeRef) {
        self.note(*node);
    }

    fn node_updated(&mut self, _old_node: &NodeRef, new_node: &NodeRef) {
        self.note(*new_node);
    }

    fn focus_moved(&mut self, _old_node: Option<&NodeRef>, new_node: Option<&NodeRef>) {
        let focus = match new_node {
            Some(node) => Some(node.id()),
            None => None,
        };
        if let Some(kept) = &mut self.kept {
            kept.focus = focus;
        }
    }

    fn node_removed(&mut self, node: &NodeRef) {
        if let Some(kept) = &mut self.kept {
            kept.forget(node.id());
        }
    }
}
