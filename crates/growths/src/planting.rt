//! The tree that is read.

use accesskit_consumer::tree::{Tree, UpdateError};
use schema::{Node, NodeBuilder, NodeId, Rect, Role, TextDirection, TreeId, TreeInfo, TreeUpdate};
use std::alloc::{AllocError, Global};

/// A window with a description, a check box that a label names, and a password.
pub const WINDOW: NodeId = NodeId(0);

pub const CHECK_BOX: NodeId = NodeId(1);

const LABEL: NodeId = NodeId(2);

pub const PASSWORD: NodeId = NodeId(3);

/// The password's run.
pub const RUN: NodeId = NodeId(4);

fn window(alloc: Global) -> Result<Node, AllocError> {
    NodeBuilder::new(alloc, Role::Window)
        .description("a window")
        .children(&[CHECK_BOX, LABEL, PASSWORD])
        .build()
}

fn check_box(alloc: Global) -> Result<Node, AllocError> {
    NodeBuilder::new(alloc, Role::CheckBox)
        .labelled_by(&[LABEL])
        .build()
}

fn label(alloc: Global) -> Result<Node, AllocError> {
    NodeBuilder::new(alloc, Role::Label)
        .value("Check email")
        .build()
}

fn password(alloc: Global) -> Result<Node, AllocError> {
    NodeBuilder::new(alloc, Role::PasswordInput)
        .children(&[RUN])
        .build()
}

/// The run, with a box for each of its characters.
fn run(alloc: Global) -> Result<Node, AllocError> {
    NodeBuilder::new(alloc, Role::TextRun)
        .value("ab")
        .character_lengths(&[1, 1])
        .character_positions(&[0, 10])
        .character_widths(&[10, 10])
        .text_direction(TextDirection::LeftToRight)
        .bounds(Rect::new(0, 0, 20, 10))
        .build()
}

/// Adds a node of an update, unless memory ran out while it was made.
pub fn push(
    nodes: &mut Vec<(NodeId, Node)>,
    id: NodeId,
    node: Result<Node, AllocError>,
) -> Result<(), AllocError> {
    nodes.push((id, node?))?;
    Ok(())
}

fn nodes(alloc: Global) -> Result<Vec<(NodeId, Node)>, AllocError> {
    let mut nodes = Vec::new(alloc);
    push(&mut nodes, WINDOW, window(alloc))?;
    push(&mut nodes, CHECK_BOX, check_box(alloc))?;
    push(&mut nodes, LABEL, label(alloc))?;
    push(&mut nodes, PASSWORD, password(alloc))?;
    push(&mut nodes, RUN, run(alloc))?;
    Ok(nodes)
}

fn info(alloc: Global) -> Result<TreeInfo, AllocError> {
    let mut info = TreeInfo::new(WINDOW);
    info.toolkit_name = Some(String::from_str(alloc, "kit")?);
    Ok(info)
}

pub fn update(alloc: Global) -> Result<TreeUpdate, AllocError> {
    Ok(TreeUpdate {
        nodes: nodes(alloc)?,
        tree: Some(info(alloc)?),
        tree_id: TreeId::root(),
        focus: WINDOW,
    })
}
