//! What a node says together with those above it, looked up once a step for each of them.
ghost use Rattle.std.specs.Prelude.{◌≡◌, ◌∷◌, ◌||◌, [], IfOk};
ghost use Rattle.std.specs.Option.{unwrap_or};
ghost use Rattle.model.specs.Lists.{ancestors};
ghost use Rattle.model.specs.World.{World};
ghost use Rattle.views.specs.Nodes.{world_at, id_at, data_at};
ghost use Rattle.speaking.specs.Above.{above_of, region_or, AreRight, IsReady, IsWay};
ghost use Rattle.speaking.specs.Holders.{speaks_for_runs};

use accesskit_consumer::{FullNodeId, NodeRef};
use schema::Live;
use std::alloc::{AllocError, Global};
use std::collections::BTreeMap;

/// What a node says together with those above it.
#[derive(Clone, Copy)]
pub(crate) struct Above {
    /// How its changes are announced.
    pub(crate) live: Live,
    pub(crate) is_hidden: bool,
    /// Whether it or a node above it is busy.
    pub(crate) is_busy: bool,
    /// Whether it is in a password.
    pub(crate) is_in_password: bool,
    /// Whether a node above it is announced in place of its runs.
    pub(crate) is_held: bool,
    /// The live region in which it is.
    pub(crate) region: Option<FullNodeId>,
}

/// What is known of the nodes before a step and after it.
#[derive(Drop)]
pub(crate) struct LookUps {
    pub(crate) before: BTreeMap<FullNodeId, Above>,
    pub(crate) after: BTreeMap<FullNodeId, Above>,
}

impl LookUps {
    /// Nothing is known.
    pub(crate) fn new(alloc: Global) -> LookUps
        ensures { (old new : World) → IsReady old new result }
    {
        LookUps {
            before: BTreeMap::new(alloc),
            after: BTreeMap::new(alloc),
        }
    }
}

/// Whether the node is announced in place of its runs: typing is said for the input, and a value replaces its runs.
fn speaks_for_runs(node: NodeRef) -> bool
    ensures { result ≡ speaks_for_runs (data_at node.entry) }
{
    node.is_text_input() || node.raw_value().is_some()
}

/// The node's own setting of how changes are announced, or else this one.
fn live_or(node: NodeRef, otherwise: Live) -> Live
    ensures { result ≡ unwrap_or (data_at node.entry).live otherwise }
{
    match node.data().live() {
        Some(live) => live,
        None => otherwise,
    }
}

/// The node, if it has a setting of its own of how changes are announced, or else this region.
fn region_or(node: NodeRef, otherwise: Option<FullNodeId>) -> Option<FullNodeId>
    ensures { result ≡ region_or (id_at node.entry) (data_at node.entry) otherwise }
{
    match node.data().live() {
        Some(_) => Some(node.id()),
        None => otherwise,
    }
}

/// What a node says above which is nothing.
fn of_root(node: NodeRef) -> Above
    ensures { let w = world_at node.entry in let id = id_at node.entry in
        ancestors w id ≡ [] → result ≡ above_of w id }
{
    Above {
        live: live_or(node, Live::Off),
        is_hidden: node.data().is_hidden(),
        is_busy: node.is_busy(),
        is_in_password: false,
        is_held: false,
        region: region_or(node, None),
    }
}

/// Whether one of these holds.
fn either(one: bool, other: bool) -> bool
    ensures { result ≡ (one || other) }
{
    one || other
}

/// What a node says below this parent, of which this is known.
fn of_child(node: NodeRef, parent: NodeRef, above: Above) -> Above
    ensures { let w = world_at node.entry in let id = id_at node.entry in let q = id_at parent.entry in
        world_at parent.entry ≡ w → ancestors w id ≡ q ∷ ancestors w q → above ≡ above_of w q → result ≡ above_of w id }
{
    Above {
        live: live_or(node, above.live),
        is_hidden: either(node.data().is_hidden(), above.is_hidden),
        is_busy: either(node.is_busy(), above.is_busy),
        is_in_password: either(parent.is_password_input(), above.is_in_password),
        is_held: either(speaks_for_runs(parent), above.is_held),
        region: region_or(node, above.region),
    }
}

/// A climb from a node to one of which it is known what it says.
#[derive(Drop)]
struct Climbed<'a> {
    /// The nodes below that one, from the first on.
    path: Vec<NodeRef<'a>>,
    top: NodeRef<'a>,
    above: Above,
}

/// Climbs from a node to one that is known, or to the root.
fn climb<'a>(
    alloc: Global,
    known: &BTreeMap<FullNodeId, Above>,
    node: NodeRef<'a>,
) -> Result<Climbed<'a>, AllocError>
    ensures way { IfOk result (IsWay (world_at node.entry) (id_at node.entry)) }
    ensures right { let w = world_at node.entry in
        AreRight w known.now → IfOk result (λ c. c.above ≡ above_of w (id_at c.top)) }
{
    node.tree_state().know();
    let mut path = Vec::new(alloc);
    let mut current = node;
    while let Some(parent) = current.parent() {
        if let Some(above) = known.get(&current.id()) {
            return Ok(Climbed {
                path,
                top: current,
                above: *above,
            });
        }
        path.push(current)?;
        current = parent;
    }
    Ok(Climbed {
        path,
        top: current,
        above: of_root(current),
    })
}

/// Goes back to the node from which this climb began, and keeps what each node on the path says.
fn descend(
    known: &mut BTreeMap<FullNodeId, Above>,
    climbed: Climbed,
    node: NodeRef,
) -> Result<Above, AllocError>
    ensures { let w = world_at node.entry in let id = id_at node.entry in
        IsWay w id climbed.entry → climbed.entry.above ≡ above_of w (id_at climbed.entry.top) → AreRight w known.old
        → IfOk result (λ a. (a ≡ above_of w id) × AreRight w known.new) }
{
    node.tree_state().know();
    let Climbed { path, top, above } = climbed;
    let mut left = path;
    let mut parent = top;
    let mut above = above;
    while let Some(next) = left.pop() {
        above = of_child(next, parent, above);
        known.insert(next.id(), above)?;
        parent = next;
    }
    Ok(above)
}

/// What the node says together with those above it. What they say is kept, so that it is looked up once.
///
/// # Errors
///
/// Returns `AllocError` if memory runs out.
pub(crate) fn look_up(
    alloc: Global,
    known: &mut BTreeMap<FullNodeId, Above>,
    node: NodeRef,
) -> Result<Above, AllocError>
    ensures { let w = world_at node.entry in
        AreRight w known.old → IfOk result (λ a. (a ≡ above_of w (id_at node.entry)) × AreRight w known.new) }
{
    let climbed = climb(alloc, known, node)?;
    descend(known, climbed, node)
}
