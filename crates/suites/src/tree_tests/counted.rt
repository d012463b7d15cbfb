//! How many look-ups an update makes.

use crate::sketches::recorder::{Recorder, Told};
use crate::sketches::{Has, first_update, node_of, shown};
use accesskit_consumer::tree::UpdateError;
use schema::{Node, NodeId, Role, TreeId, TreeUpdate};
use std::alloc::{AllocError, Global};
use std::test::Fail;
use trees::{Steps, Tree};

/// How the nodes of a tree, whose ids count from the root's on, stand.
#[derive(Clone, Copy)]
enum Shape {
    /// All are children of the root.
    Flat,
    /// Each has the next one as its child.
    Chain,
    /// The root has one child, which has all others.
    Fan,
}

/// The ids of the children of a node: the first, and the one after the last.
fn children(shape: Shape, count: u64, id: u64) -> (u64, u64) {
    match (shape, id) {
        (Shape::Flat, 0) => (1, count),
        (Shape::Chain, _) => (id.saturating_add(1), id.saturating_add(2).min(count)),
        (Shape::Fan, 0) => (1, 2),
        (Shape::Fan, 1) => (2, count),
        _ => (0, 0),
    }
}

/// A node that has the ids from `first` on below `end` as its children.
fn over(alloc: Global, (first, end): (u64, u64)) -> Result<Node, AllocError> {
    let mut node = Node::new(alloc, Role::GenericContainer);
    for child in first..end {
        node.push_child(NodeId(child))?;
    }
    Ok(node)
}

/// A tree of so many nodes.
fn tree_of(alloc: Global, shape: Shape, count: u64) -> Result<Tree, Fail> {
    let mut nodes = Vec::new(alloc);
    for id in 0..count {
        let node = over(alloc, children(shape, count, id))?;
        nodes.push((NodeId(id), node))?;
    }
    Ok(Tree::new(alloc, first_update(0, nodes), false)?)
}

/// An update of the root tree that names one node, with a label or with nothing.
fn naming(alloc: Global, id: u64, having: &[Has]) -> Result<TreeUpdate, AllocError> {
    Ok(TreeUpdate {
        nodes: vec![in alloc; (NodeId(id), node_of(alloc, Role::GenericContainer, having)?)]?,
        tree: None,
        tree_id: TreeId::root(),
        focus: NodeId(0),
    })
}

/// A tree, the node of it that is named, what the node has then, the most look-ups, and how many nodes are removed, which are
/// the next ones.
struct Named {
    shape: Shape,
    count: u64,
    id: u64,
    having: &'static [Has],
    most: u128,
    removed: usize,
}

/// A node that has nothing loses what is below it.
static NAMED: [Named; 4] = [
    Named {
        shape: Shape::Flat,
        count: 10_001,
        id: 5_000,
        having: &[Has::Label("label")],
        most: 80,
        removed: 0,
    },
    Named {
        shape: Shape::Chain,
        count: 1_000,
        id: 999,
        having: &[Has::Label("label")],
        most: 16_048,
        removed: 0,
    },
    Named {
        shape: Shape::Fan,
        count: 5_002,
        id: 0,
        having: &[],
        most: 80_096,
        removed: 5_001,
    },
    Named {
        shape: Shape::Chain,
        count: 100_000,
        id: 0,
        having: &[],
        most: 1_600_064,
        removed: 99_999,
    },
];

/// Sends an update that is accepted: the number of its look-ups.
fn count_sent(
    tree: &mut Tree,
    update: TreeUpdate,
    recorder: &mut Recorder,
) -> Result<u128, UpdateError> {
    let mut steps = Steps::new();
    tree.update_and_process_changes_counted(update, recorder, &mut steps)?;
    Ok(steps.count())
}

/// Whether a node is reported as updated, and then this many others as removed, in order from the next one on.
fn are_told(recorder: &Recorder, named: u64, removed: usize) -> bool {
    let mut wanted = Told::Updated(0, named);
    let mut next = named;
    for told in &recorder.told {
        if *told != wanted {
            return false;
        }
        next = next.saturating_add(1);
        wanted = Told::Removed(0, next);
    }
    !recorder.has_lost && recorder.told.len() == removed.saturating_add(1)
}

/// Whether the look-ups are counted and within the bound, and the events are right.
fn is_within(alloc: Global, named: &Named) -> Result<bool, Fail> {
    let mut tree = tree_of(alloc, named.shape, named.count)?;
    let mut recorder = Recorder::new(alloc);
    let update = naming(alloc, named.id, named.having)?;
    let made = count_sent(&mut tree, update, &mut recorder)?;
    Ok(0 < made && made <= named.most && are_told(&recorder, named.id, named.removed))
}

#[test]
fn look_ups_are_within_their_bound(rt: HostRuntime) -> Result<(), Fail> {
    for (row, named) in NAMED.iter().enumerate() {
        assert!(rt; is_within(rt.alloc(), named)?, "row {row}");
    }
    Ok(())
}

fn path_in(alloc: Global, tree: &Tree, node: u64) -> Result<Vec<usize>, Fail> {
    Ok(shown(tree, 0, node)?.index_path(alloc)?)
}

fn are_first(path: &[usize]) -> bool {
    for index in path {
        if *index != 0 {
            return false;
        }
    }
    true
}

#[test]
fn end_of_a_chain_has_a_path(rt: HostRuntime) -> Result<(), Fail> {
    let tree = tree_of(rt.alloc(), Shape::Chain, 100_000)?;
    let path = path_in(rt.alloc(), &tree, 99_999)?;
    assert!(rt; path.len() == 99_999 && are_first(&path));
    Ok(())
}
