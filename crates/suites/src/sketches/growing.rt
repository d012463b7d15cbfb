//! Small trees as plain data.

use crate::sketches::fields::{Has, node_of};
use crate::sketches::ids::{id, tree_id};
use crate::sketches::recorder::Recorder;
use schema::{Node, NodeId, Role, TreeInfo, TreeUpdate};
use std::alloc::{AllocError, Global};
use std::test::Fail;
use trees::{Tree, TreeChangeHandler};
use views::NodeRef;

/// A node: its id, its role, and what else is sent of it.
pub struct Sketch(pub u64, pub Role, pub &'static [Has]);

/// An update of the tree with the name of this number, with the root that its tree info names. The root tree's number is 0.
pub struct Sent {
    pub tree: u128,
    pub root: Option<u64>,
    pub focus: u64,
    pub nodes: &'static [Sketch],
}

/// An update that brings a tree, here the root tree, whose root is 0 and has the focus;
pub const BROUGHT: Sent = Sent {
    tree: 0,
    root: Some(0),
    focus: 0,
    nodes: &[],
};

/// one that has no tree info.
pub const CHANGED: Sent = Sent {
    root: None,
    ..BROUGHT
};

impl Sent {
    /// The update as sent.
    pub fn update(&self, alloc: Global) -> Result<TreeUpdate, AllocError> {
        Ok(TreeUpdate {
            nodes: nodes_of(alloc, self.nodes)?,
            tree: match self.root {
                Some(root) => Some(TreeInfo::new(NodeId(root))),
                None => None,
            },
            tree_id: tree_id(self.tree),
            focus: NodeId(self.focus),
        })
    }
}

/// The nodes as sent.
pub fn nodes_of(alloc: Global, sketches: &[Sketch]) -> Result<Vec<(NodeId, Node)>, AllocError> {
    let mut nodes = Vec::new(alloc);
    for Sketch(id, role, having) in sketches {
        nodes.push((NodeId(*id), node_of(alloc, *role, having)?))?;
    }
    Ok(nodes)
}

/// The update that brings in the tree of this number with these nodes, whose root is 0 and has the focus.
pub fn first_update(tree: u128, nodes: Vec<(NodeId, Node)>) -> TreeUpdate {
    TreeUpdate {
        nodes,
        tree: Some(TreeInfo::new(NodeId(0))),
        tree_id: tree_id(tree),
        focus: NodeId(0),
    }
}

/// The root tree of these nodes, whose root is 0.
pub fn planted(alloc: Global, sketches: &[Sketch]) -> Result<Tree, Fail> {
    let update = first_update(0, nodes_of(alloc, sketches)?);
    Ok(Tree::new(alloc, update, false)?)
}

/// Sends an update, which is accepted.
pub fn send<H: TreeChangeHandler>(
    alloc: Global,
    tree: &mut Tree,
    sent: &Sent,
    handler: &mut H,
) -> Result<(), Fail> {
    let update = sent.update(alloc)?;
    Ok(tree.update_and_process_changes(update, handler)?)
}

fn begun(alloc: Global, first: &Sent) -> Result<Tree, Fail> {
    let update = first.update(alloc)?;
    Ok(Tree::new(alloc, update, false)?)
}

/// The tree that the first update brings, after the others, each of which is accepted.
pub fn grown_by(alloc: Global, sent: &[Sent]) -> Result<Tree, Fail> {
    let (first, others) = sent.split_first().ok_or("no update")?;
    let mut tree = begun(alloc, first)?;
    for other in others {
        send(alloc, &mut tree, other, &mut Recorder::new(alloc))?;
    }
    Ok(tree)
}

/// The root of the root tree.
pub fn root_of<'a>(tree: &'a Tree) -> NodeRef<'a> {
    tree.state().view().root()
}

/// The node of the tree with this index, which is there.
pub fn shown<'a>(tree: &'a Tree, index: u32, node: u64) -> Result<NodeRef<'a>, Fail> {
    let found = tree.state().view().node_by_id(id(index, node));
    Ok(found.ok_or("no such node")?)
}
