//! The nodes that a node has around it, in lists.
ghost use Rattle.std.specs.Prelude.{◌≡◌, IfOk, Some, option_map};
ghost use Rattle.model.specs.Filters.{filter_named};
ghost use Rattle.model.specs.Labels.{labelled_by};
ghost use Rattle.model.specs.Views.{controls, items};
ghost use Rattle.views.specs.Descendants.{descendants, filtered_descendants};
ghost use Rattle.views.specs.Nodes.{world_at, id_at};
ghost use Rattle.fed_tree.specs.Reads.{read_of};
ghost use Rattle.fed_tree.specs.Computed.{list_of};

use crate::feeding::FedTree;
use model::{FullNodeId, NamedFilter};
use session::{
    answer_by, following_filtered_ids, following_ids, ids_of, preceding_filtered_ids, preceding_ids,
};
use std::alloc::{AllocError, Global};
use views::NodeRef;

/// A list of nodes that is found from a node. Those by a filter say so.
#[derive(Clone, Copy)]
pub enum Listed {
    /// The nodes that label it: those that it names and that exist, or else, for a control, the labels and images in it.
    LabelledBy,
    /// The nodes that it controls, of those that exist.
    Controls,
    /// The earlier children of its parent, nearest first.
    PrecedingSiblings,
    /// The later children of its parent, in order.
    FollowingSiblings,
    /// All nodes below it, in pre-order.
    Descendants,
    /// The items that the filter shows below it.
    Items,
    /// What the filter shows before it, nearest first, below the nearest ancestor that isn't excluded alone.
    PrecedingFilteredSiblings,
    /// What the filter shows after it, below that ancestor.
    FollowingFilteredSiblings,
    /// The nodes that the filter shows below it, in pre-order.
    FilteredDescendants,
}

impl FedTree {
    /// The list; `None` if the tree doesn't have the node.
    ///
    /// # Errors
    ///
    /// Returns `AllocError` if memory runs out.
    #[tactic(auto, using(crate::proofs::Found::read_found, crate::proofs::Found::read_missing))]
    pub fn list(
        &self,
        id: FullNodeId,
        list: Listed,
        filter: NamedFilter,
    ) -> Result<Option<Vec<FullNodeId>>, AllocError>
        ensures { IfOk result (λ ids. option_map (λ found. found.items) ids
            ≡ read_of self.now.world id (λ w node. Some (list_of list (filter_named filter w) w id))) }
    {
        match self.node(id) {
            Some(node) => Ok(Some(list_of(self.alloc, node, list, filter)?)),
            None => Ok(None),
        }
    }
}

/// The ids of the list.
fn list_of(
    alloc: Global,
    node: NodeRef<'_>,
    list: Listed,
    filter: NamedFilter,
) -> Result<Vec<FullNodeId>, AllocError>
    ensures { let w = world_at node.entry in
        IfOk result (λ ids. ids.items ≡ list_of list (filter_named filter w) w (id_at node.entry)) }
{
    match list {
        Listed::LabelledBy => label_ids(alloc, node),
        Listed::Controls => controlled_ids(alloc, node),
        Listed::PrecedingSiblings => preceding_ids(alloc, node),
        Listed::FollowingSiblings => following_ids(alloc, node),
        Listed::Descendants => descendant_ids(alloc, node),
        Listed::Items => item_ids(alloc, node, filter),
        Listed::PrecedingFilteredSiblings => preceding_filtered_ids(alloc, node, filter),
        Listed::FollowingFilteredSiblings => following_filtered_ids(alloc, node, filter),
        Listed::FilteredDescendants => filtered_descendant_ids(alloc, node, filter),
    }
}

/// The ids of the nodes that label it.
fn label_ids(alloc: Global, node: NodeRef<'_>) -> Result<Vec<FullNodeId>, AllocError>
    ensures { IfOk result (λ ids. ids.items ≡ labelled_by (world_at node.entry) (id_at node.entry)) }
{
    ids_of(alloc, node.labelled_by())
}

/// The ids of the nodes that it controls.
fn controlled_ids(alloc: Global, node: NodeRef<'_>) -> Result<Vec<FullNodeId>, AllocError>
    ensures { IfOk result (λ ids. ids.items ≡ controls (world_at node.entry) (id_at node.entry)) }
{
    ids_of(alloc, node.controls())
}

/// The ids of all nodes below it.
fn descendant_ids(alloc: Global, node: NodeRef<'_>) -> Result<Vec<FullNodeId>, AllocError>
    ensures { IfOk result (λ ids. ids.items ≡ descendants (world_at node.entry) (id_at node.entry)) }
{
    ids_of(alloc, node.descendants())
}

/// The ids of the items that the filter shows below it.
fn item_ids(
    alloc: Global,
    node: NodeRef<'_>,
    filter: NamedFilter,
) -> Result<Vec<FullNodeId>, AllocError>
    ensures { let w = world_at node.entry in
        IfOk result (λ ids. ids.items ≡ items (filter_named filter w) w (id_at node.entry)) }
{
    let shown = move |seen: &NodeRef<'_>| answer_by(filter, seen);
    ids_of(alloc, node.items(shown))
}

/// The ids of the nodes that the filter shows below it.
fn filtered_descendant_ids(
    alloc: Global,
    node: NodeRef<'_>,
    filter: NamedFilter,
) -> Result<Vec<FullNodeId>, AllocError>
    ensures { let w = world_at node.entry in
        IfOk result (λ ids. ids.items ≡ filtered_descendants (filter_named filter w) w (id_at node.entry)) }
{
    let shown = move |seen: &NodeRef<'_>| answer_by(filter, seen);
    ids_of(alloc, node.filtered_descendants(shown))
}
