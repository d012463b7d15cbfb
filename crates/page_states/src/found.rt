//! What is found out about the nodes of a state, once for all of them.
ghost use Rattle.std.specs.Prelude.{◌≡◌, All, IfOk};
ghost use Rattle.model.specs.World.{World};
ghost use Rattle.views.specs.Nodes.{world_at, id_at, seen_through};
ghost use Rattle.views.specs.ShownWorlds.{world_of};
ghost use Rattle.page_states.specs.Found.{AreRight, AreRightIf, IsPlaceIn, IsSeenIn, IsViewOf, facts_at, views_seen};

use crate::marks::Marks;
use crate::places::{Place, places};
use crate::secrets::{Hidden, hidden_of};
use hidden_texts::is_in_password;
use schema::WideRect;
use std::alloc::{AllocError, Global};
use std::collections::BTreeMap;
use views::{FullNodeId, NodeRef, StateRef};

/// What is shown of a node that depends on those above it.
#[derive(Clone, Copy)]
pub struct Facts {
    /// Which of its texts are hidden.
    pub hidden: Hidden,
    /// Whether an ancestor is a password input.
    pub is_in_password: bool,
    /// Its box, if it has one.
    pub rect: Option<WideRect>,
}

/// The facts of the nodes of a state.
pub type Found = BTreeMap<FullNodeId, Facts>;

/// A node with its facts.
#[derive(Clone, Copy)]
pub struct View<'a> {
    pub node: NodeRef<'a>,
    pub facts: Facts,
}

/// A node with its facts. Those of all nodes of its state are found out the first time, and kept.
///
/// # Errors
///
/// Returns `AllocError` if memory runs out.
pub fn view_of<'a>(
    alloc: Global,
    found: &mut Option<Found>,
    node: &NodeRef<'a>,
) -> Result<View<'a>, AllocError>
    ensures { let w = world_at node.now in
        AreRightIf w found.old → IfOk result (λ view. IsViewOf node.now view × AreRightIf w found.new) }
{
    let known = known_for(alloc, found, node)?;
    let facts = facts_of(&known, node);
    *found = Some(known);
    Ok(View { node: *node, facts })
}

/// The facts of the nodes of the node's state: those that were found out, or else all.
fn known_for(alloc: Global, found: &mut Option<Found>, node: &NodeRef) -> Result<Found, AllocError>
    ensures { let w = world_at node.now in AreRightIf w found.old → IfOk result (AreRight w) }
{
    match found.take() {
        Some(known) => Ok(known),
        None => found_in(alloc, node.tree_state()),
    }
}

/// The same, if there is a node.
///
/// # Errors
///
/// Returns `AllocError` if memory runs out.
pub fn view_if<'a>(
    alloc: Global,
    found: &mut Option<Found>,
    node: Option<&NodeRef<'a>>,
) -> Result<Option<View<'a>>, AllocError>
    ensures { (w : World) → IsSeenIn w node.entry → AreRightIf w found.old →
        IfOk result (λ views. views_seen node.entry views × AreRightIf w found.new) }
{
    match node {
        Some(node) => {
            let view = view_of(alloc, found, node)?;
            Ok(Some(view))
        }
        None => Ok(None),
    }
}

/// The facts of each node of a state.
fn found_in(alloc: Global, state: StateRef<'_>) -> Result<Found, AllocError>
    ensures { IfOk result (AreRight (world_of state.entry)) }
{
    let marks = Marks::new(alloc);
    let places = places(alloc, state, &marks)?;
    facts_in(alloc, state, &places)
}

/// The facts of these nodes of the state.
fn facts_in<'a>(
    alloc: Global,
    state: StateRef<'a>,
    places: &[Place<'a>],
) -> Result<Found, AllocError>
    requires { All (IsPlaceIn (world_of state)) places.now }
    ensures { IfOk result (AreRight (world_of state.entry)) }
{
    let mut found = BTreeMap::new(alloc);
    for place in places {
        found.insert(place.node.id(), facts_at(place))?;
    }
    Ok(found)
}

/// The facts of a node with these properties.
fn facts_at(place: &Place) -> Facts
    ensures { (w : World) → IsPlaceIn w place.now → result ≡ facts_at w (id_at place.now.node) }
{
    Facts {
        hidden: place.hidden,
        is_in_password: place.is_in_password,
        rect: place.rect,
    }
}

/// The facts of a node. If they are not among these, the node is asked.
fn facts_of(known: &Found, node: &NodeRef) -> Facts
    ensures { let w = world_at node.now in AreRight w known.now → result ≡ facts_at w (id_at node.now) }
{
    match known.get(&node.id()) {
        Some(facts) => *facts,
        None => asked_of(node),
    }
}

/// The facts of a node, which is asked for them.
fn asked_of(node: &NodeRef) -> Facts
    ensures { result ≡ facts_at (world_at node.now) (id_at node.now) }
{
    Facts {
        hidden: hidden_of(node),
        is_in_password: is_in_password(node),
        rect: node.bounding_box(),
    }
}
