//! Runs six commands in one run with a mirror beside it, and prints the replies, the tree, and whether the mirror has its
//! records.

use accesskit_consumer::tree::Mirror;
use accesskit_consumer::{FullNodeId, NodeRef, StateRef};
use schema::{Node, NodeId, Role, TreeId, TreeInfo, TreeUpdate};
use session::{At, Command, NodeName, Query, Reply, RunStopped, Session, Side};
use std::alloc::{AllocError, Global};
use std::io;

const WINDOW: NodeId = NodeId(0);

const BUTTON: NodeId = NodeId(1);

/// A window with these children.
fn window(alloc: Global, children: &[NodeId]) -> Result<(NodeId, Node), AllocError> {
    let mut window = Node::new(alloc, Role::Window);
    window.set_label("Mail")?;
    window.set_children(children)?;
    Ok((WINDOW, window))
}

/// A window with a button.
fn first_update(alloc: Global) -> Result<TreeUpdate, AllocError> {
    let button = Node::new(alloc, Role::Button);
    Ok(TreeUpdate {
        nodes: vec![in alloc; window(alloc, &[BUTTON])?, (BUTTON, button)]?,
        tree: Some(TreeInfo::new(WINDOW)),
        tree_id: TreeId::root(),
        focus: WINDOW,
    })
}

/// The window loses its button.
fn next_update(alloc: Global) -> Result<TreeUpdate, AllocError> {
    Ok(TreeUpdate {
        nodes: vec![in alloc; window(alloc, &[])?]?,
        tree: None,
        tree_id: TreeId::root(),
        focus: WINDOW,
    })
}

fn name(node: NodeId) -> NodeName {
    (node, TreeId::root())
}

fn ask(commands: &mut Vec<Command>, query: Query) -> Result<(), AllocError> {
    commands.push(Command::Query(query))?;
    Ok(())
}

/// An update, a change of the host's focus, and four questions.
fn commands(alloc: Global) -> Result<Vec<Command>, AllocError> {
    let (index, side) = (0, Side::Start);
    let mut commands = Vec::new(alloc);
    ask(&mut commands, Query::Children(name(WINDOW)))?;
    commands.push(Command::Update(next_update(alloc)?))?;
    ask(&mut commands, Query::Label(name(BUTTON)))?;
    commands.push(Command::HostFocus(true))?;
    ask(&mut commands, Query::Focus)?;
    ask(
        &mut commands,
        Query::Indexes(name(WINDOW), At { index, side }),
    )?;
    Ok(commands)
}

/// The id of the node of the root tree.
fn id(node: NodeId) -> FullNodeId {
    FullNodeId { tree: 0, node }
}

/// Prints which nodes there are, and where the focus is.
fn print_tree(rt: &impl Print, state: StateRef) -> io::Result<()> {
    let nodes = if state.has_node(id(BUTTON)) {
        "0 1"
    } else {
        "0"
    };
    match state.focus() {
        Some(node) => println!(rt; "tree {nodes}, focus {}", node.id().node),
        None => println!(rt; "tree {nodes}, no focus"),
    }
}

/// Whether the mirror's record of this node equals the state's.
fn has_record(mirror: &Mirror, node: &NodeRef) -> bool {
    let Some(records) = mirror.records() else {
        return false;
    };
    match records.get(&node.id()) {
        Some(record) => record.node == *node.data() && record.place == place(node),
        None => false,
    }
}

fn place(node: &NodeRef) -> Option<(FullNodeId, usize)> {
    match node.parent_and_index() {
        Some((parent, index)) => Some((parent.id(), index)),
        None => None,
    }
}

/// Whether the mirror has no record of this id.
fn lacks_record(mirror: &Mirror, id: FullNodeId) -> bool {
    match mirror.records() {
        Some(records) => records.get(&id).is_none(),
        None => false,
    }
}

/// Whether the mirror has what the state has of this id.
fn is_mirrored(mirror: &Mirror, state: StateRef, id: FullNodeId) -> bool {
    match state.node_by_id(id) {
        Some(node) => has_record(mirror, &node),
        None => lacks_record(mirror, id),
    }
}

/// The id of the focused node.
fn focus(state: StateRef) -> Option<FullNodeId> {
    match state.focus() {
        Some(node) => Some(node.id()),
        None => None,
    }
}

/// What the mirror keeps of the tree, in words.
fn mirrored(mirror: &Mirror, state: StateRef) -> &'static str {
    match mirror.focus() {
        None if mirror.records().is_some() => "records without a focus",
        None => "nothing, for want of memory",
        Some(seen) if seen != focus(state) => "another focus",
        Some(_) => {
            if is_mirrored(mirror, state, id(WINDOW)) && is_mirrored(mirror, state, id(BUTTON)) {
                "the tree's records"
            } else {
                "other records"
            }
        }
    }
}

/// Makes the run, with the mirror as its handler or as what follows it.
fn replies(
    session: &mut Session,
    mirror: &mut Mirror,
    commands: Vec<Command>,
    is_handler: bool,
) -> Result<Vec<Reply>, RunStopped> {
    if is_handler {
        session.run(commands, mirror)
    } else {
        session.run_mirrored(commands, mirror)
    }
}

/// Prints the replies of a run, and how it ended.
fn tell_replies(rt: &impl Print, ended: &str, replies: &[Reply]) -> io::Result<()> {
    for reply in replies {
        println!(rt; "{reply:?}")?;
    }
    println!(rt; "{ended} {}", replies.len())
}

fn tell_ended(rt: &impl Print, ended: Result<Vec<Reply>, RunStopped>) -> io::Result<()> {
    match ended {
        Ok(replies) => tell_replies(rt, "done", &replies),
        Err(stopped) => tell_replies(rt, "stopped", &stopped.replies),
    }
}

/// Prints the tree, and what the mirror has of it.
fn tell_tree(rt: &impl Print, session: &Session, mirror: &Mirror) -> io::Result<()> {
    let state = session.tree().state().view();
    print_tree(rt, state)?;
    println!(rt; "the mirror has {}", mirrored(mirror, state))
}

/// Makes the run, with the mirror as its handler or as what follows it, and prints what came of it.
pub fn run(rt: &impl Print, alloc: Global, is_handler: bool) -> anyhow::Result<()> {
    let mut session = Session::new(alloc, first_update(alloc)?, false)?;
    let mut mirror = Mirror::new(alloc, session.tree())?;
    let commands = commands(alloc)?;
    println!(rt; "begun")?;
    tell_ended(rt, replies(&mut session, &mut mirror, commands, is_handler))?;
    Ok(tell_tree(rt, &session, &mirror)?)
}
