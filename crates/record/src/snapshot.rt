//! Recording the tree that a script leaves, as a script that makes it.

use crate::heads::Heads;
use crate::stage::Stage;
use accesskit_consumer::filters::FilterResult;
use accesskit_consumer::node::{FullNodeId, NodeRef};
use schema::{Node, NodeId, Role, TreeInfo, TreeUpdate};
use script_lines::{
    Program, ScriptCommand, ScriptReader, Stop, Streams, end_script_run, write_command,
    write_update,
};
use session::Session;
use std::alloc::{AllocError, Global};
use std::io::{BufRead, Write};

/// The exit status if there is no tree.
const NOT_THERE: u8 = 1;

/// The program that records the tree that a script leaves. It has no arguments.
pub(crate) struct TreeRecorder;

impl Program for TreeRecorder {
    fn run<R: BufRead, O: Write, E: Write>(&self, streams: &mut Streams<R, O, E>) -> u8 {
        let mut script = ScriptReader::new(streams.alloc);
        let recorded = record_tree(&mut script, streams);
        let (is_there, ended) = match recorded {
            Ok(is_there) => (is_there, Ok(())),
            Err(stop) => (true, Err(stop)),
        };
        let status = end_script_run(ended, &script, &mut streams.output, &mut streams.errors);
        if status == 0 && !is_there {
            return NOT_THERE;
        }
        status
    }
}

/// Carries out a script, and writes the tree that it leaves. Returns whether there is one.
fn record_tree<R: BufRead, O: Write, E: Write>(
    script: &mut ScriptReader,
    streams: &mut Streams<R, O, E>,
) -> Result<bool, Stop> {
    let alloc = streams.alloc;
    let mut stage = Stage::new(alloc);
    stage.play(script, &mut streams.input, &mut streams.errors)?;
    match &stage.session {
        Some(session) => {
            write_state(alloc, session, &stage.heads, &mut streams.output)?;
            Ok(true)
        }
        None => {
            streams.errors.write_all(b"no tree\n")?;
            Ok(false)
        }
    }
}

/// Writes commands that make the tree: an update for each of its trees, after those that graft them.
fn write_state<O: Write>(
    alloc: Global,
    session: &Session,
    heads: &Heads,
    out: &mut O,
) -> Result<(), Stop> {
    let state = session.tree().state();
    if state.is_host_focused() {
        write_command(alloc, &ScriptCommand::HostFocus(true), out)?;
    }
    let mut tops = Vec::new(alloc);
    tops.push(state.root())?;
    let mut late = Vec::new(alloc);
    for place in 0..usize::MAX {
        let Some(top) = tops.get(place) else {
            break;
        };
        let top = *top;
        let nodes = nodes_of_tree(alloc, top)?;
        let update = update_of(alloc, top, &nodes, heads, &mut late)?;
        write_update(alloc, &update, out)?;
        add_grafted(&mut tops, &nodes)?;
    }
    for update in late.iter().rev() {
        write_update(alloc, update, out)?;
    }
    Ok(())
}

/// The nodes of the tree with this root, each before those below it.
fn nodes_of_tree<'a>(alloc: Global, top: NodeRef<'a>) -> Result<Vec<NodeRef<'a>>, AllocError> {
    let tree = top.id().tree;
    let mut nodes = Vec::new(alloc);
    nodes.push(top)?;
    for node in top.filtered_descendants(move |node: &NodeRef<'_>| of_tree(tree, node)) {
        nodes.push(node)?;
    }
    Ok(nodes)
}

/// Includes the nodes of a tree. What is below another one is of other trees.
fn of_tree(tree: u32, node: &NodeRef<'_>) -> FilterResult {
    if node.id().tree == tree {
        FilterResult::Include
    } else {
        FilterResult::ExcludeSubtree
    }
}

/// Adds the roots of the trees that these nodes graft.
fn add_grafted<'a>(tops: &mut Vec<NodeRef<'a>>, nodes: &[NodeRef<'a>]) -> Result<(), AllocError> {
    for node in nodes {
        if node.is_graft() {
            for root in node.children() {
                tops.push(root)?;
            }
        }
    }
    Ok(())
}

/// The update that makes a tree with these nodes. If its focus is on a graft, another node is declared focused first, and the update that
/// declares the graft focused is added to those that are sent late.
fn update_of(
    alloc: Global,
    top: NodeRef,
    nodes: &[NodeRef],
    heads: &Heads,
    late: &mut Vec<TreeUpdate>,
) -> Result<TreeUpdate, AllocError> {
    let (root, tree_id) = top.locate();
    let mut update = TreeUpdate {
        nodes: copies_of(alloc, nodes)?,
        tree: Some(heads.info_of(alloc, tree_id, root)?),
        tree_id,
        focus: heads.focus_of(tree_id).unwrap_or(root),
    };
    if is_graft_at(top, update.focus) {
        late.push(put_off(alloc, top, &mut update)?)?;
    }
    Ok(update)
}

/// Declares the root focused in place of a graft, whose tree isn't there yet. If the root is a graft itself, it is put below another root.
/// Returns the update that sets what was put off.
fn put_off(alloc: Global, top: NodeRef, update: &mut TreeUpdate) -> Result<TreeUpdate, AllocError> {
    let mut last = TreeUpdate {
        nodes: Vec::new(alloc),
        tree: None,
        tree_id: update.tree_id,
        focus: update.focus,
    };
    let (root, _) = top.locate();
    update.focus = root;
    if top.is_graft() {
        let above = if root == NodeId(0) {
            NodeId(1)
        } else {
            NodeId(0)
        };
        last.tree = update.tree.replace(TreeInfo::new(above));
        update.focus = above;
        update.nodes.insert(0, (above, holder_of(alloc, root)?))?;
    }
    Ok(last)
}

/// A node that has this one as its only child.
fn holder_of(alloc: Global, child: NodeId) -> Result<Node, AllocError> {
    let mut holder = Node::new(alloc, Role::Unknown);
    holder.set_children(&[child])?;
    Ok(holder)
}

/// Whether the node with this id in the tree of that one is a graft.
fn is_graft_at(top: NodeRef, node: NodeId) -> bool {
    let tree = top.id().tree;
    match top.tree_state().node_by_id(FullNodeId { tree, node }) {
        Some(node) => node.is_graft(),
        None => false,
    }
}

/// Copies of the nodes, with their ids.
fn copies_of(alloc: Global, nodes: &[NodeRef]) -> Result<Vec<(NodeId, Node)>, AllocError> {
    let mut copies = Vec::new(alloc);
    for node in nodes {
        copies.push((node.id().node, node.data().clone()?))?;
    }
    Ok(copies)
}
