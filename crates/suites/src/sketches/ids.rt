//! Ids by their numbers.

use schema::{NodeId, TreeId};
use std::alloc::{AllocError, Global};
use uuid::Uuid;
use views::{FullNodeId, NodeRef};

/// The tree's name of this number.
pub fn tree_id(tree: u128) -> TreeId {
    TreeId(Uuid::from_u128(tree))
}

/// The id of a node in the tree with this index.
pub fn id(tree: u32, node: u64) -> FullNodeId {
    FullNodeId {
        tree,
        node: NodeId(node),
    }
}

/// The id of a node, if there is one.
pub fn id_of(node: Option<NodeRef>) -> Option<FullNodeId> {
    match node {
        Some(node) => Some(node.id()),
        None => None,
    }
}

/// Node ids of these numbers.
pub fn node_ids(alloc: Global, numbers: &[u64]) -> Result<Vec<NodeId>, AllocError> {
    let mut ids = Vec::new(alloc);
    for number in numbers {
        ids.push(NodeId(*number))?;
    }
    Ok(ids)
}
