//! A plan of an update, by look-ups in a small state.

use crate::planting::push;
use accesskit_consumer::tree::{Plan, UpdateError, plan_update};
use schema::{Node, NodeBuilder, NodeId, Role, TreeId, TreeInfo, TreeUpdate};
use std::alloc::{AllocError, Global};
use tree_plan::decide;
use tree_store::{NoRecords, Store, StoreLookUps};
use uuid::Uuid;

pub const WINDOW: NodeId = NodeId(0);

pub const TOOLBAR: NodeId = NodeId(1);

const GRAFT: NodeId = NodeId(2);

pub const BUTTON: NodeId = NodeId(3);

pub const NEW_TOOLBAR: NodeId = NodeId(4);

fn parent(alloc: Global, role: Role, children: &[NodeId]) -> Result<Node, AllocError> {
    NodeBuilder::new(alloc, role).children(children).build()
}

/// A node that grafts the tree of this number.
fn graft(alloc: Global, tree: u128) -> Node {
    let mut node = Node::new(alloc, Role::GenericContainer);
    node.set_tree_id(TreeId(Uuid::from_u128(tree)));
    node
}

/// A window with a button in a toolbar, and with a graft,
fn first_nodes(alloc: Global) -> Result<Vec<(NodeId, Node)>, AllocError> {
    let mut nodes = Vec::new(alloc);
    let window = parent(alloc, Role::Window, &[TOOLBAR, GRAFT]);
    push(&mut nodes, WINDOW, window)?;
    push(&mut nodes, TOOLBAR, parent(alloc, Role::Toolbar, &[BUTTON]))?;
    push(&mut nodes, GRAFT, Ok(graft(alloc, 1)))?;
    push(&mut nodes, BUTTON, Ok(Node::new(alloc, Role::Button)))?;
    Ok(nodes)
}

/// as a first update.
pub fn first(alloc: Global) -> Result<TreeUpdate, AllocError> {
    Ok(TreeUpdate {
        nodes: first_nodes(alloc)?,
        tree: Some(TreeInfo::new(WINDOW)),
        tree_id: TreeId::root(),
        focus: WINDOW,
    })
}

/// The button moves into a new toolbar, the old toolbar is removed, and the graft names another tree.
fn next_nodes(alloc: Global) -> Result<Vec<(NodeId, Node)>, AllocError> {
    let mut nodes = Vec::new(alloc);
    let window = parent(alloc, Role::Window, &[GRAFT, NEW_TOOLBAR]);
    push(&mut nodes, WINDOW, window)?;
    push(&mut nodes, GRAFT, Ok(graft(alloc, 2)))?;
    push(
        &mut nodes,
        NEW_TOOLBAR,
        parent(alloc, Role::Toolbar, &[BUTTON]),
    )?;
    Ok(nodes)
}

/// The button gets the focus, too.
pub fn second(alloc: Global) -> Result<TreeUpdate, AllocError> {
    Ok(TreeUpdate {
        nodes: next_nodes(alloc)?,
        tree: None,
        tree_id: TreeId::root(),
        focus: BUTTON,
    })
}

/// The state after the first update, with the host focused.
fn store(alloc: Global) -> Result<Store, UpdateError> {
    let update = first(alloc)?;
    let mut look_ups = NoRecords::new(true);
    let decision = decide(alloc, &mut look_ups, &update)?;
    Ok(Store::first(alloc, update, decision, true)?)
}

/// The plan of the second update.
pub fn plan(alloc: Global) -> Result<Plan, UpdateError> {
    let store = store(alloc)?;
    let mut look_ups = StoreLookUps::new(&store, 0);
    plan_update(alloc, &mut look_ups, second(alloc)?)
}
