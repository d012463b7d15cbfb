//! An example: a window with a button gets a second update, and a handler counts what has changed.
#![tactic(auto)]

ghost use Rattle.std.specs.Prelude.{◌≡◌};
ghost use Rattle.example_window.specs.Changes.{after};

use accesskit_consumer::{FullNodeId, NodeRef, StateRef, Tree, TreeChangeHandler};
use schema::{Node, NodeId, Role, TreeId, TreeInfo, TreeUpdate};
use std::alloc::{AllocError, Global};
use std::io;

const WINDOW: NodeId = NodeId(0);

const BUTTON: NodeId = NodeId(1);

const INPUT: NodeId = NodeId(2);

/// A window with these children.
fn window(alloc: Global, children: &[NodeId]) -> Result<(NodeId, Node), AllocError> {
    let mut window = Node::new(alloc, Role::Window);
    window.set_children(children)?;
    Ok((WINDOW, window))
}

/// A window with a button, which has the focus. A first update names the root.
fn first_update(alloc: Global) -> Result<TreeUpdate, AllocError> {
    let mut button = Node::new(alloc, Role::Button);
    button.set_label("Send")?;
    Ok(TreeUpdate {
        nodes: vec![in alloc; window(alloc, &[BUTTON])?, (BUTTON, button)]?,
        tree: Some(TreeInfo::new(WINDOW)),
        tree_id: TreeId::root(),
        focus: BUTTON,
    })
}

/// The window has these children now, and the text input has the focus. The button stays as it was.
fn next_update(alloc: Global, children: &[NodeId]) -> Result<TreeUpdate, AllocError> {
    let input = Node::new(alloc, Role::TextInput);
    Ok(TreeUpdate {
        nodes: vec![in alloc; window(alloc, children)?, (INPUT, input)]?,
        tree: None,
        tree_id: TreeId::root(),
        focus: INPUT,
    })
}

/// How many nodes were added, updated and removed, and where the focus has come to.
#[derive(Clone, Copy, Default)]
struct Changes {
    added: u64,
    updated: u64,
    removed: u64,
    focus: Option<FullNodeId>,
}

impl TreeChangeHandler for Changes {
    ghost steps = { λ old event new. new ≡ after old event };

    fn node_added(&mut self, _node: &NodeRef) {
        self.added = self.added.saturating_add(1);
    }

    fn node_updated(&mut self, _old_node: &NodeRef, _new_node: &NodeRef) {
        self.updated = self.updated.saturating_add(1);
    }

    fn focus_moved(&mut self, _old_node: Option<&NodeRef>, new_node: Option<&NodeRef>) {
        self.focus = new_node.map(|node| node.id());
    }

    fn node_removed(&mut self, _node: &NodeRef) {
        self.removed = self.removed.saturating_add(1);
    }
}

/// Prints a node's id, role and label.
fn print_node(rt: &impl Print, node: &NodeRef) -> io::Result<()> {
    let id = node.id().node;
    println!(rt; "node {id} {} {:?}", node.role(), node.data().label())
}

/// Prints each child of the root, and where the focus is.
fn print_state(rt: &impl Print, state: StateRef) -> io::Result<()> {
    for child in state.root().children() {
        print_node(rt, &child)?;
    }
    if let Some(focus) = state.focus() {
        println!(rt; "focus {}", focus.id().node)?;
    }
    Ok(())
}

/// Applies an update, and prints how many nodes have changed, or why it is refused.
fn print_changes(rt: &impl Print, tree: &mut Tree, update: TreeUpdate) -> io::Result<()> {
    let mut changes = Changes::default();
    match tree.update_and_process_changes(update, &mut changes) {
        Ok(()) => println!(rt;
            "added {} updated {} removed {}",
            changes.added, changes.updated, changes.removed
        ),
        Err(refusal) => println!(rt; "refused: {refusal}"),
    }
}

/// Prints the state that an update would leave, or why it is refused, and gives it up.
fn print_next(rt: &impl Print, tree: Tree, update: TreeUpdate) -> io::Result<Tree> {
    match tree.prepare(update) {
        Ok(prepared) => {
            let next = prepared.new();
            print_state(rt, next.view())?;
            Ok(prepared.give_up())
        }
        Err(refused) => {
            println!(rt; "refused: {}", refused.why)?;
            Ok(refused.tree)
        }
    }
}

fn main(rt: HostRuntime) -> anyhow::Result<()> {
    let alloc = rt.alloc();
    let mut tree = Tree::new(alloc, first_update(alloc)?, true)?;
    print_state(&rt, tree.state().view())?;

    let update = next_update(alloc, &[BUTTON, INPUT])?;
    print_changes(&rt, &mut tree, update)?;
    print_state(&rt, tree.state().view())?;

    // Node 9 has no data: the update is refused, the tree is unchanged, and the handler is not called.
    let update = next_update(alloc, &[BUTTON, INPUT, NodeId(9)])?;
    print_changes(&rt, &mut tree, update)?;

    // Without the button: it is shown, and given up.
    let update = next_update(alloc, &[INPUT])?;
    let tree = print_next(&rt, tree, update)?;
    print_state(&rt, tree.state().view())?;
    Ok(())
}
