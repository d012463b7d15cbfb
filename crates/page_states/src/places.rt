//! The nodes of a state, in the order in which a page shows them.
ghost use Rattle.std.specs.Prelude.{◌≡◌, All, IfOk, IfSome, map};
ghost use Rattle.model.specs.World.{World};
ghost use Rattle.views.specs.Nodes.{world_at, id_at};
ghost use Rattle.views.specs.PlainWalks.{node_in, node_of};
ghost use Rattle.views.specs.Descendants.{descendants};
ghost use Rattle.views.specs.ShownWorlds.{world_of};
ghost use Rattle.page_states.specs.Known.{IsAt, IsStep, IsStepAbove};
ghost use Rattle.page_states.specs.Places.{box_drawn, node_at, HasMark, IsOpenUnless, IsPlace, AreNodes, from_node, shown_nodes};

use crate::carried::{Step, known_of};
use crate::marks::{Mark, Marks};
use crate::secrets::{Hidden, has_password, hidden_where};
use crate::sources::value_source;
use schema::WideRect;
use std::alloc::{AllocError, Global};
use views::filters::FilterResult;
use views::{FullNodeId, NodeRef, StateRef};

/// A node with the properties that a page shows.
#[derive(Clone, Copy)]
pub(crate) struct Place<'a> {
    pub node: NodeRef<'a>,
    /// The number of its ancestors.
    pub depth: usize,
    /// The common filter's answer for it.
    pub answer: FilterResult,
    /// Whether it or an ancestor is hidden.
    pub is_hidden: bool,
    /// Which of its texts are hidden.
    pub hidden: Hidden,
    /// Whether an ancestor is a password input.
    pub is_in_password: bool,
    /// A node that has the same value, if one is known: of all nodes with that value the same one.
    pub source: Option<FullNodeId>,
    /// Its box, if it has one.
    pub rect: Option<WideRect>,
    /// Whether the common filter excludes it, or an ancestor, with its subtree, or it alone and it is outside of what clips it.
    pub is_left_out: bool,
    /// The effect of the update on it.
    pub mark: Option<Mark>,
}

/// Each node of the state with its properties: the root, then each child followed by those below it.
pub(crate) fn places<'a>(
    alloc: Global,
    state: StateRef<'a>,
    marks: &Marks,
) -> Result<Vec<Place<'a>>, AllocError>
    ensures nodes { let w = world_of state.entry in
        IfOk result (λ places. AreNodes w (shown_nodes w) (map node_at places.items)) }
    ensures each { IfOk result (λ places. All IsPlace places.items) }
    ensures marks { IfOk result (λ places. All (HasMark marks.now) places.items) }
{
    state.know();
    let nodes = nodes_from(alloc, state.root())?;
    let has_one = has_password(&nodes);
    places_of(alloc, state, &nodes, has_one, marks)
}

/// A node and all below it, a parent before its children.
fn nodes_from<'a>(alloc: Global, top: NodeRef<'a>) -> Result<Vec<NodeRef<'a>>, AllocError>
    ensures { let w = world_at top.entry in
        IfOk result (λ nodes. AreNodes w (from_node w (id_at top.entry)) nodes.items) }
{
    let mut nodes = nodes_below(alloc, top)?;
    nodes.insert(0, top)?;
    Ok(nodes)
}

/// All nodes below a node, a parent before its children.
fn nodes_below<'a>(alloc: Global, top: NodeRef<'a>) -> Result<Vec<NodeRef<'a>>, AllocError>
    ensures { let w = world_at top.entry in
        IfOk result (λ nodes. map node_of nodes.items ≡ map (node_in w) (descendants w (id_at top.entry))) }
{
    let nodes: Vec<NodeRef<'a>> = top.descendants().collect(alloc)?;
    Ok(nodes)
}

/// Each of these nodes of the state with its properties, each after its parent. It is known whether the state has a password.
fn places_of<'a>(
    alloc: Global,
    state: StateRef<'a>,
    nodes: &[NodeRef<'a>],
    has_password: bool,
    marks: &Marks,
) -> Result<Vec<Place<'a>>, AllocError>
    requires open { IsOpenUnless has_password (world_of state) }
    requires nodes { All (λ node. world_at node ≡ world_of state) nodes.now }
    ensures nodes { IfOk result (λ places. map node_at places.items ≡ nodes.now) }
    ensures each { IfOk result (λ places. All IsPlace places.items) }
    ensures marks { IfOk result (λ places. All (HasMark marks.now) places.items) }
{
    let mut path = Vec::new(alloc);
    let mut places = Vec::new(alloc);
    for node in nodes {
        places.push(next_place(*node, has_password, marks, &mut path)?)?;
    }
    Ok(places)
}

/// The next node with its properties. The path has the previous node and its ancestors.
fn next_place<'a>(
    node: NodeRef<'a>,
    has_password: bool,
    marks: &Marks,
    path: &mut Vec<Step>,
) -> Result<Place<'a>, AllocError>
    requires open { IsOpenUnless has_password (world_at node) }
    requires path { All (IsStep (world_at node)) path.old.items }
    ensures path { All (IsStep (world_at node.entry)) path.new.items }
    ensures place { IfOk result IsPlace }
    ensures node { IfOk result (λ place. node_at place ≡ node.entry) }
    ensures mark { IfOk result (HasMark marks.now) }
{
    let above = step_above(node, path);
    let step = Step {
        id: node.id(),
        known: known_of(node, has_password, above),
    };
    path.push(step)?;
    Ok(place_at(node, has_password, step, marks))
}

/// The last step of the path that is the node's parent, if there is one; the path then ends there.
fn step_above(node: NodeRef, path: &mut Vec<Step>) -> Option<Step>
    requires { All (IsStep (world_at node)) path.old.items }
    ensures path { All (IsStep (world_at node.entry)) path.new.items }
    ensures step { IsStepAbove (world_at node.entry) (id_at node.entry) result }
{
    let parent = node.parent_id()?;
    let last = last_step_to(parent, path)?;
    let step = path[last];
    path.truncate(last + 1);
    Some(step)
}

/// The index of the last step that is to this node, if there is one.
fn last_step_to(id: FullNodeId, path: &[Step]) -> Option<usize>
    ensures { IfSome result (λ last. IsAt path.now last id) }
{
    let count = path.len();
    for later in 0..count {
        let index = count - 1 - later;
        if path[index].id == id {
            return Some(index);
        }
    }
    None
}

/// A node with these properties.
fn place_at<'a>(node: NodeRef<'a>, has_password: bool, step: Step, marks: &Marks) -> Place<'a>
    requires open { IsOpenUnless has_password (world_at node) }
    requires step { IsStep (world_at node) step }
    requires id { step.id ≡ id_at node }
    ensures place { IsPlace result }
    ensures node { node_at result ≡ node.entry }
    ensures mark { HasMark marks.now result }
{
    Place {
        node,
        depth: step.known.depth,
        answer: step.known.answer,
        is_hidden: step.known.is_hidden,
        hidden: hidden_where(
            &node,
            has_password,
            step.known.is_in_password,
            step.known.source,
        ),
        is_in_password: step.known.is_in_password,
        source: value_source(&node, step.known.source),
        rect: step.known.rect,
        is_left_out: step.known.is_left_out || step.known.is_out_of_clip,
        mark: marks.get(&step.id).copied(),
    }
}

/// The box that a picture draws for a node: none if the node, or one above it, is hidden or clipped.
pub(crate) fn drawn_rect(place: &Place) -> Option<WideRect>
    ensures { result ≡ box_drawn place.now }
{
    if place.is_left_out {
        return None;
    }
    place.rect
}
