//! Climbs from the parents of moved nodes: if a climb ends, its nodes are reached.
ghost use Rattle.std.specs.Prelude.{◌≡◌, ◌≢◌, ◌<◌, ◌+◌, ℕ, IfErr, OnOk, IsTrue, Some, true, false, length, map, slice_get, ◌↔◌};
ghost use Rattle.model.specs.declared.FullNodeId.{FullNodeId};
ghost use Rattle.model.specs.World.{IsNode, in_tree};
ghost use Rattle.model.specs.Work.{named_ids};
ghost use Rattle.model.specs.Surgery.{IsOld, IsRefined, IsClimbed, AreSteps};
ghost use Rattle.tree_changes.specs.LookUps.{IsPlaceOf, IsRaisedUpTo};
ghost use Rattle.tree_changes.specs.Refusals.{IsRefusal};
ghost use Rattle.tree_plan.specs.Looks.{LooksUpTo};
ghost use Rattle.tree_plan.specs.declared.passes.Named.{Named};
ghost use Rattle.tree_plan.specs.Passes.{at, HoldsSettled};
ghost use Rattle.tree_plan.specs.Cases.{IsCase, sent};
ghost use Rattle.tree_plan.specs.Climbs.{IsNext, IsOldPlace, IsKnown, first_ids, AreClimbed, IsClimbedFrom};

use crate::passes::{Case, Compared, Opened, Settled};
use model::{FullNodeId, Place};
use schema::TreeUpdate;
use std::collections::BTreeMap;
use tree_changes::{LookUps, UpdateError};

/// Climbs from each named node that got a child, and refuses the update if one isn't reached.
pub(crate) fn climb_all<L: LookUps>(
    look_ups: &mut L,
    case: &Case<'_>,
    settled: &Settled,
) -> Result<(), UpdateError>
    requires case { IsCase (L.world look_ups.old) case.now }
    requires settlement { HoldsSettled (L.world look_ups.old) (sent case.now) settled.now }
    requires refined { IsRefined (L.world look_ups.old) (sent case.now) }
    ensures world { L.world look_ups.new ≡ L.world look_ups.old }
    ensures err { IfErr result (λ e. IsRefusal (L.world look_ups.old) (sent case.now) e) }
    ensures ok { OnOk result (IsClimbed (L.world look_ups.old) (sent case.now)) }
    ensures counts { OnOk result (let w = L.world look_ups.old in let u = sent case.now in
        (steps : ℕ) × AreSteps w u (named_ids w u) steps × IsRaisedUpTo (L.asked look_ups.old) steps (L.asked look_ups.new)) }
{
    let mut climbed = BTreeMap::new(case.alloc);
    for entry in 0..case.update.nodes.len() {
        climb(look_ups, case, settled, &mut climbed, entry)?;
    }
    Ok(())
}

fn is_same_node(id: &FullNodeId, other: &FullNodeId) -> bool
    ensures { IsTrue result ↔ (id.now ≡ other.now) }
{
    *id == *other
}

/// The node of this entry.
fn named_id(update: &TreeUpdate, opened: &Opened, entry: usize) -> FullNodeId
    requires { entry < length update.now.nodes.items }
    ensures { let ids = map (λ e. in_tree opened.now.index e.0) update.now.nodes.items in
        slice_get ids entry ≡ Some result }
{
    FullNodeId {
        tree: opened.index,
        node: update.nodes[entry].0,
    }
}

/// Climbs from the node of this entry, if it got a child, up to a node that is reached.
fn climb<L: LookUps>(
    look_ups: &mut L,
    case: &Case<'_>,
    settled: &Settled,
    climbed: &mut BTreeMap<FullNodeId, FullNodeId>,
    entry: usize,
) -> Result<(), UpdateError>
    requires case { IsCase (L.world look_ups.old) case.now }
    requires settlement { HoldsSettled (L.world look_ups.old) (sent case.now) settled.now }
    requires refined { IsRefined (L.world look_ups.old) (sent case.now) }
    requires entry { entry < length case.now.update.now.nodes.items }
    requires before { let w = L.world look_ups.old in let u = sent case.now in
        AreClimbed w u (first_ids w u entry) climbed.old }
    ensures world { L.world look_ups.new ≡ L.world look_ups.old }
    ensures err { IfErr result (λ e. IsRefusal (L.world look_ups.old) (sent case.now) e) }
    ensures climbed { OnOk result (let w = L.world look_ups.old in let u = sent case.now in
        AreClimbed w u (first_ids w u (entry + 1)) climbed.new) }
    ensures way { OnOk result (let w = L.world look_ups.old in let u = sent case.now in
        (steps : ℕ) × IsClimbedFrom w u entry steps × IsRaisedUpTo (L.asked look_ups.old) steps (L.asked look_ups.new)) }
{
    let start = named_id(case.update, case.opened, entry);
    if !settled.adopters.contains(&start) {
        return Ok(());
    }
    let mut id = start;
    'up: while !is_known(case, settled, id) {
        if let Some(other) = climbed.get(&id) {
            if is_same_node(other, &start) {
                return Err(UpdateError::NotReached(start.node));
            }
            return Ok(());
        }
        climbed.insert(id, start)?;
        id = parent_after(look_ups, case.compared, id);
    }
    Ok(())
}

/// Whether the node is known to be reached: the root is, and if no old node has moved, so is each old node that the
/// update names.
fn is_known(case: &Case<'_>, settled: &Settled, id: FullNodeId) -> bool
    ensures known { result ≡ true → IsKnown case.now.opened.now case.now.compared.now settled.now id }
    ensures unknown { result ≡ false → id ≢ in_tree case.now.opened.now.index case.now.opened.now.root }
{
    let root = FullNodeId {
        tree: case.opened.index,
        node: case.opened.root,
    };
    is_same_node(&id, &root)
        || (!settled.has_moved
            && case
                .compared
                .named
                .get(&id)
                .is_some_and(|named| named.was.is_some()))
}

/// The parent, after the update, of a node that isn't the root and isn't removed.
fn parent_after<L: LookUps>(look_ups: &mut L, compared: &Compared, id: FullNodeId) -> FullNodeId
    requires old { IsOld (L.world look_ups.old) }
    requires next { (p : FullNodeId) × IsNext (L.world look_ups.old) compared.now id p }
    requires named { (n : Named) → at compared.now.named id ≡ Some n
        → IsOldPlace (L.world look_ups.old) id n }
    ensures looks { LooksUpTo L.world L.asked look_ups.old 1 look_ups.new }
    ensures next { IsNext (L.world look_ups.old) compared.now id result }
{
    if let Some(arrival) = compared.entered.get(&id) {
        let (parent, _) = arrival.spot.unwrap();
        return parent;
    }
    let (parent, _) = old_place(look_ups, compared, id).unwrap();
    parent
}

/// The old place of an old node.
fn old_place<L: LookUps>(look_ups: &mut L, compared: &Compared, id: FullNodeId) -> Option<Place>
    requires there { IsNode (L.world look_ups.old) id }
    requires named { (n : Named) → at compared.now.named id ≡ Some n
        → IsOldPlace (L.world look_ups.old) id n }
    ensures looks { LooksUpTo L.world L.asked look_ups.old 1 look_ups.new }
    ensures place { IsPlaceOf (L.world look_ups.old) id result }
{
    if let Some(named) = compared.named.get(&id) {
        return named.was.unwrap();
    }
    let record = look_ups.node(id).unwrap();
    record.place
}
