//! Collecting the ids of a walk.
ghost use Rattle.std.specs.Prelude.{◌≡◌, List, map, IfOk};
ghost use Rattle.std.specs.Iterator.{IsFinite, Drains};
ghost use Rattle.model.specs.World.{children};
ghost use Rattle.model.specs.Lists.{following_siblings, preceding_siblings};
ghost use Rattle.model.specs.Frontier.{filtered_children};
ghost use Rattle.model.specs.Covers.{following_filtered_siblings, preceding_filtered_siblings};
ghost use Rattle.model.specs.Filters.{filter_named};
ghost use Rattle.views.specs.declared.node.node_ref.NodeRef.{NodeRef as ANode};
ghost use Rattle.views.specs.Nodes.{world_at, id_at};

use crate::named::answer_by;
use accesskit_consumer::NodeRef;
use model::{FullNodeId, NamedFilter};
use std::alloc::{AllocError, Global};

/// The ids of the node's children, in order.
///
/// # Errors
///
/// Returns `AllocError` if memory runs out.
pub fn child_ids(alloc: Global, node: NodeRef) -> Result<Vec<FullNodeId>, AllocError>
    ensures { IfOk result (λ ids. ids.items ≡ children (world_at node.entry) (id_at node.entry)) }
{
    let ids: Vec<FullNodeId> = node.child_ids().collect(alloc)?;
    Ok(ids)
}

/// The ids of the later children of the node's parent, in order.
///
/// # Errors
///
/// Returns `AllocError` if memory runs out.
pub fn following_ids(alloc: Global, node: NodeRef) -> Result<Vec<FullNodeId>, AllocError>
    ensures { IfOk result (λ ids. ids.items ≡ following_siblings (world_at node.entry) (id_at node.entry)) }
{
    let ids: Vec<FullNodeId> = node.following_sibling_ids().collect(alloc)?;
    Ok(ids)
}

/// The ids of the earlier children of the node's parent, nearest first.
///
/// # Errors
///
/// Returns `AllocError` if memory runs out.
pub fn preceding_ids(alloc: Global, node: NodeRef) -> Result<Vec<FullNodeId>, AllocError>
    ensures { IfOk result (λ ids. ids.items ≡ preceding_siblings (world_at node.entry) (id_at node.entry)) }
{
    let ids: Vec<FullNodeId> = node.preceding_sibling_ids().collect(alloc)?;
    Ok(ids)
}

/// Collects the ids of the nodes of a walk, in order.
///
/// # Errors
///
/// Returns `AllocError` if memory runs out.
pub fn ids_of<'a, W: Iterator<Item = NodeRef<'a>> + Drop>(
    alloc: Global,
    walk: W,
) -> Result<Vec<FullNodeId>, AllocError>
    requires can { W.can_next walk }
    requires ends { IsFinite (W.remaining walk) }
    ensures { IfOk result (λ ids. (nodes : List ANode) × Drains W.next_gives walk nodes × (ids.items ≡ map id_at nodes)) }
{
    let mut ids = Vec::new(alloc);
    for node in walk {
        ids.push(node.id())?;
    }
    Ok(ids)
}

/// The ids of the nodes that the filter shows in place of the node's children, in order.
///
/// # Errors
///
/// Returns `AllocError` if memory runs out.
pub fn filtered_ids(
    alloc: Global,
    node: NodeRef,
    filter: NamedFilter,
) -> Result<Vec<FullNodeId>, AllocError>
    ensures { let w = world_at node.entry in
        IfOk result (λ ids. ids.items ≡ filtered_children (filter_named filter w) w (id_at node.entry)) }
{
    let shown = move |shown: &NodeRef<'_>| answer_by(filter, shown);
    ids_of(alloc, node.filtered_children(shown))
}

/// The ids of what the filter shows after the node, below the nearest ancestor that isn't excluded alone.
///
/// # Errors
///
/// Returns `AllocError` if memory runs out.
pub fn following_filtered_ids(
    alloc: Global,
    node: NodeRef,
    filter: NamedFilter,
) -> Result<Vec<FullNodeId>, AllocError>
    ensures { let w = world_at node.entry in
        IfOk result (λ ids. ids.items ≡ following_filtered_siblings (filter_named filter w) w (id_at node.entry)) }
{
    let shown = move |shown: &NodeRef<'_>| answer_by(filter, shown);
    ids_of(alloc, node.following_filtered_siblings(shown))
}

/// The ids of what the filter shows before the node, nearest first, below the nearest ancestor that isn't excluded alone.
///
/// # Errors
///
/// Returns `AllocError` if memory runs out.
pub fn preceding_filtered_ids(
    alloc: Global,
    node: NodeRef,
    filter: NamedFilter,
) -> Result<Vec<FullNodeId>, AllocError>
    ensures { let w = world_at node.entry in
        IfOk result (λ ids. ids.items ≡ preceding_filtered_siblings (filter_named filter w) w (id_at node.entry)) }
{
    let shown = move |shown: &NodeRef<'_>| answer_by(filter, shown);
    ids_of(alloc, node.preceding_filtered_siblings(shown))
}
