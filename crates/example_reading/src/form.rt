//! A form with a message of two lines, a button, and another one that is hidden.
use schema::{Action, Node, NodeBuilder, NodeId, Role, TreeId, TreeInfo, TreeUpdate};
use std::alloc::{AllocError, Global};

const WINDOW: NodeId = NodeId(0);

const MESSAGE: NodeId = NodeId(1);

const FIRST_LINE: NodeId = NodeId(2);

const SECOND_LINE: NodeId = NodeId(3);

const SEND: NodeId = NodeId(4);

const DISCARD: NodeId = NodeId(5);

/// The window with all its parts.
fn window(alloc: Global) -> Result<Node, AllocError> {
    NodeBuilder::new(alloc, Role::Window)
        .label("Mail")
        .children(&[MESSAGE, SEND, DISCARD])
        .build()
}

/// A run of text, by how many bytes each of its characters has, and the characters with which words start.
fn run(alloc: Global, value: &str, lengths: &[u8], words: &[u8]) -> Result<Node, AllocError> {
    NodeBuilder::new(alloc, Role::TextRun)
        .value(value)
        .character_lengths_u8(lengths)
        .word_starts_u8(words)
        .build()
}

/// A button that can be clicked.
fn button(alloc: Global, label: &str) -> NodeBuilder {
    NodeBuilder::new(alloc, Role::Button)
        .label(label)
        .action(Action::Click)
}

/// The input, which can take the focus.
fn message(alloc: Global) -> Result<Node, AllocError> {
    NodeBuilder::new(alloc, Role::MultilineTextInput)
        .label("Message")
        .children(&[FIRST_LINE, SECOND_LINE])
        .action(Action::Focus)
        .build()
}

/// The nodes of the text.
fn push_lines(nodes: &mut Vec<(NodeId, Node)>, alloc: Global) -> Result<(), AllocError> {
    let first = run(alloc, "à demain\n", &[2, 1, 1, 1, 1, 1, 1, 1, 1], &[0, 2])?;
    nodes.push((FIRST_LINE, first))?;
    let second = run(alloc, "Zoë", &[1, 1, 2], &[0])?;
    nodes.push((SECOND_LINE, second))?;
    Ok(())
}

/// The nodes of the buttons. The second one is there, and isn't shown.
fn push_buttons(nodes: &mut Vec<(NodeId, Node)>, alloc: Global) -> Result<(), AllocError> {
    let send = button(alloc, "Send").build()?;
    nodes.push((SEND, send))?;
    let discard = button(alloc, "Discard").hidden().build()?;
    nodes.push((DISCARD, discard))?;
    Ok(())
}

/// The form, with the focus on the message.
pub fn update(alloc: Global) -> Result<TreeUpdate, AllocError> {
    let mut nodes = vec![in alloc; (WINDOW, window(alloc)?)]?;
    nodes.push((MESSAGE, message(alloc)?))?;
    push_lines(&mut nodes, alloc)?;
    push_buttons(&mut nodes, alloc)?;
    Ok(TreeUpdate {
        nodes,
        tree: Some(TreeInfo::new(WINDOW)),
        tree_id: TreeId::root(),
        focus: MESSAGE,
    })
}
