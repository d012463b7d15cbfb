//! The level of a heading, and how deep an item is in a tree.
ghost use Rattle.std.specs.Prelude.{◌≡◌};
ghost use Rattle.views.specs.Nodes.{world_at, id_at, data_at};
ghost use Rattle.speaking.specs.Levels.{is_tree_item, own_depth, depth_in_tree, level_said};

use accesskit_consumer::NodeRef;
use schema::Role;

/// Whether the node is an item in a tree.
fn is_tree_item(node: NodeRef) -> bool
    ensures { result ≡ is_tree_item (data_at node.entry) }
{
    node.role() == Role::TreeItem
}

/// How much deeper than its parent a node is: one if it is an item in a tree, and otherwise zero.
fn own_depth(node: NodeRef) -> usize
    ensures { result ≡ own_depth (data_at node.entry) }
{
    if is_tree_item(node) { 1 } else { 0 }
}

/// In how many items of trees a node is, with itself.
fn depth_in_tree(node: NodeRef) -> usize
    ensures { result ≡ depth_in_tree (world_at node.entry) (id_at node.entry) }
{
    node.tree_state().know();
    let mut depth = own_depth(node);
    let mut current = node;
    while let Some(parent) = current.parent() {
        let more = own_depth(parent);
        depth = depth.saturating_add(more);
        current = parent;
    }
    depth
}

/// The level that is sent of the node, or else, of an item in a tree, how deep it is there, from 1.
pub(crate) fn level_of(node: NodeRef) -> Option<usize>
    ensures { result ≡ level_said (world_at node.entry) (id_at node.entry) (data_at node.entry) }
{
    match node.level() {
        Some(level) => Some(level),
        None if is_tree_item(node) => Some(depth_in_tree(node)),
        None => None,
    }
}
