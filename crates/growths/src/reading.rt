//! Calls on a tree and its views that allocate, and the plan of an update.

use crate::planning::plan;
use crate::planting::{CHECK_BOX, PASSWORD, RUN, WINDOW, update};
use crate::preparing::is_prepared;
use accesskit_consumer::text::{NodeText, TextRange};
use accesskit_consumer::tree::{Mirror, Tree, UpdateError};
use accesskit_consumer::{NodeRef, StateRef, WeakTextRange};
use schema::{NodeId, TreeId, TreeUpdate, WideRect};
use std::alloc::{AllocError, Global};

/// A call.
#[derive(Clone, Copy, Debug)]
pub enum Reading {
    Label,
    Value,
    Description,
    IndexPath,
    RelativeIndexPath,
    Text,
    TraverseText,
    BoundingBoxes,
    Downgrade,
    CloneOfDowngraded,
    CloneOfNode,
    CloneOfUpdate,
    MirrorOfTree,
    PlanOfUpdate,
    PreparedUpdate,
}

pub static READINGS: [Reading; 15] = [
    Reading::Label,
    Reading::Value,
    Reading::Description,
    Reading::IndexPath,
    Reading::RelativeIndexPath,
    Reading::Text,
    Reading::TraverseText,
    Reading::BoundingBoxes,
    Reading::Downgrade,
    Reading::CloneOfDowngraded,
    Reading::CloneOfNode,
    Reading::CloneOfUpdate,
    Reading::MirrorOfTree,
    Reading::PlanOfUpdate,
    Reading::PreparedUpdate,
];

/// The result of a call.
#[derive(Debug, Drop)]
pub enum Answer {
    Text(Option<String>),
    Path(Vec<usize>),
    Boxes(Vec<WideRect>),
    /// The number of pieces passed.
    Pieces(usize),
    /// The path and the index of the end of a weak range.
    End(Vec<usize>, usize),
    /// Whether a copy is equal.
    IsEqual(bool),
    /// The numbers of changes and events of a plan.
    Plan(usize, usize),
    /// The reason why an update is refused, other than lack of memory.
    Refused(UpdateError),
    /// What should be read doesn't exist.
    Absent,
    /// Pieces were passed before the allocation failed.
    TooLate,
}

fn node<'a>(state: StateRef<'a>, id: NodeId) -> Option<NodeRef<'a>> {
    state.node_by_tree_local_id(id, TreeId::root())
}

/// The path from one node to another, which is below it.
#[tactic(auto, using(model::proofs::Forest::WaysUp::within_is_tested))]
fn path_from(alloc: Global, ancestor: &NodeRef, node: &NodeRef) -> Result<Answer, AllocError> {
    if !node.is_descendant_of(ancestor) {
        return Ok(Answer::Absent);
    }
    let path = node.relative_index_path(alloc, ancestor.id())?;
    Ok(Answer::Path(path))
}

/// The path from the password to its run.
fn relative_path(alloc: Global, state: StateRef) -> Result<Answer, AllocError> {
    match (node(state, PASSWORD), node(state, RUN)) {
        (Some(password), Some(run)) => path_from(alloc, &password, &run),
        _ => Ok(Answer::Absent),
    }
}

/// The path to the run.
fn path(alloc: Global, state: StateRef) -> Result<Answer, AllocError> {
    match node(state, RUN) {
        Some(run) => Ok(Answer::Path(run.index_path(alloc)?)),
        None => Ok(Answer::Absent),
    }
}

/// The number of pieces of a range. None is passed if an allocation fails.
fn pieces(alloc: Global, range: &TextRange) -> Result<Answer, AllocError> {
    let mut count = 0usize;
    let passed = range.traverse_text(alloc, |_: &NodeRef<'_>, _: &str| {
        count = count.saturating_add(1);
        None::<usize>
    });
    match passed {
        Ok(_) => Ok(Answer::Pieces(count)),
        Err(_) if count > 0 => Ok(Answer::TooLate),
        Err(error) => Err(error),
    }
}

/// The end of a weak range.
fn end_of(alloc: Global, weak: &WeakTextRange) -> Result<Answer, AllocError> {
    let (path, index) = weak.end_comparable();
    Ok(Answer::End(path.to_vec(alloc)?, *index))
}

fn downgraded(alloc: Global, range: &TextRange) -> Result<Answer, AllocError> {
    end_of(alloc, &range.downgrade(alloc)?)
}

fn copy_of_weak(alloc: Global, weak: &WeakTextRange) -> Result<Answer, AllocError> {
    end_of(alloc, &weak.clone(alloc)?)
}

fn copied(alloc: Global, range: &TextRange) -> Result<Answer, AllocError> {
    copy_of_weak(alloc, &range.downgrade(alloc)?)
}

fn text(alloc: Global, range: &TextRange) -> Result<Answer, AllocError> {
    Ok(Answer::Text(Some(range.text(alloc)?)))
}

fn boxes(alloc: Global, range: &TextRange) -> Result<Answer, AllocError> {
    Ok(Answer::Boxes(range.bounding_boxes(alloc)?))
}

/// What is read of a range.
fn read_range(alloc: Global, range: &TextRange, reading: Reading) -> Result<Answer, AllocError> {
    match reading {
        Reading::Text => text(alloc, range),
        Reading::TraverseText => pieces(alloc, range),
        Reading::BoundingBoxes => boxes(alloc, range),
        Reading::Downgrade => downgraded(alloc, range),
        Reading::CloneOfDowngraded => copied(alloc, range),
        _ => Ok(Answer::Absent),
    }
}

/// The password's whole text.
fn whole_text<'a>(state: StateRef<'a>) -> Option<TextRange<'a>> {
    Some(node(state, PASSWORD)?.text()?.range())
}

/// What is read of the password's whole text.
fn read_text(alloc: Global, state: StateRef, reading: Reading) -> Result<Answer, AllocError> {
    match whole_text(state) {
        Some(range) => read_range(alloc, &range, reading),
        None => Ok(Answer::Absent),
    }
}

/// A text of a node.
fn text_of(alloc: Global, node: &NodeRef, reading: Reading) -> Result<Option<String>, AllocError> {
    match reading {
        Reading::Label => node.label(alloc),
        Reading::Value => node.value(alloc),
        _ => node.description(alloc),
    }
}

/// That of the node that has one of this kind.
fn read_node(alloc: Global, state: StateRef, reading: Reading) -> Result<Answer, AllocError> {
    let id = match reading {
        Reading::Label => CHECK_BOX,
        Reading::Value => PASSWORD,
        _ => WINDOW,
    };
    match node(state, id) {
        Some(node) => Ok(Answer::Text(text_of(alloc, &node, reading)?)),
        None => Ok(Answer::Absent),
    }
}

/// Whether a copy of an update has the nodes of the update.
fn copy_of(alloc: Global, update: &TreeUpdate) -> Result<Answer, AllocError> {
    let copy = update.clone(alloc)?;
    Ok(Answer::IsEqual(copy.nodes == update.nodes))
}

fn copy_update(alloc: Global) -> Result<Answer, AllocError> {
    copy_of(alloc, &update(alloc)?)
}

/// Whether the mirror's record of a node equals the tree's.
fn mirrored(mirror: &Mirror, node: &NodeRef) -> Answer {
    let Some(records) = mirror.records() else {
        return Answer::Absent;
    };
    match records.get(&node.id()) {
        Some(record) => Answer::IsEqual(record.node == *node.data()),
        None => Answer::Absent,
    }
}

fn mirror_run(alloc: Global, tree: &Tree) -> Result<Answer, AllocError> {
    let mirror = Mirror::new(alloc, tree)?;
    Ok(match node(tree.state().view(), RUN) {
        Some(run) => mirrored(&mirror, &run),
        None => Answer::Absent,
    })
}

/// The lengths of a plan. An update that is refused for lack of memory can be tried again.
fn plan_lengths(alloc: Global) -> Result<Answer, AllocError> {
    match plan(alloc) {
        Ok(plan) => Ok(Answer::Plan(plan.changes.len(), plan.events.len())),
        Err(UpdateError::Memory) => Err(AllocError),
        Err(fault) => Ok(Answer::Refused(fault)),
    }
}

/// Whether a prepared update shows both states, and leaves the old one where it is given up or memory for it runs out.
fn prepare_update(alloc: Global) -> Result<Answer, AllocError> {
    match is_prepared(alloc) {
        Ok(is_right) => Ok(Answer::IsEqual(is_right)),
        Err(UpdateError::Memory) => Err(AllocError),
        Err(fault) => Ok(Answer::Refused(fault)),
    }
}

/// Whether a copy of the run's data is equal.
fn copy_node(state: StateRef) -> Result<Answer, AllocError> {
    match node(state, RUN) {
        Some(run) => Ok(Answer::IsEqual(run.data().clone()? == *run.data())),
        None => Ok(Answer::Absent),
    }
}

/// Makes the call.
pub fn read(alloc: Global, tree: &Tree, reading: Reading) -> Result<Answer, AllocError> {
    let state = tree.state().view();
    match reading {
        Reading::Label | Reading::Value | Reading::Description => read_node(alloc, state, reading),
        Reading::IndexPath => path(alloc, state),
        Reading::RelativeIndexPath => relative_path(alloc, state),
        Reading::CloneOfNode => copy_node(state),
        Reading::CloneOfUpdate => copy_update(alloc),
        Reading::MirrorOfTree => mirror_run(alloc, tree),
        Reading::PlanOfUpdate => plan_lengths(alloc),
        Reading::PreparedUpdate => prepare_update(alloc),
        _ => read_text(alloc, state, reading),
    }
}
