//! The nodes that entered a spot, by their old places.
ghost use Rattle.std.specs.Prelude.{◌≡◌, ℕ, ◌↔◌, length, IsTrue, Some, OnOk, IfOk, IfErr};
ghost use Rattle.model.specs.World.{IsNode, in_tree};
ghost use Rattle.model.specs.Update.{merged_world};
ghost use Rattle.tree_changes.specs.LookUps.{IsRaisedUpTo};
ghost use Rattle.tree_changes.specs.Refusals.{IsRefusal};
ghost use Rattle.tree_changes.specs.declared.error.UpdateError.TheVariants.{Memory};
ghost use Rattle.tree_plan.specs.Looks.{LooksUpTo};
ghost use Rattle.tree_plan.specs.Passes.{at, IsShifted, HoldsSettled};
ghost use Rattle.tree_plan.specs.Cases.{IsCase, sent};
ghost use Rattle.tree_plan.specs.Settling.{Comes, StoodBefore, place_kept, KeepsDouble, KeepsAdopter, IsSettledSoFar, SettlesOne};

use crate::passes::{Arrival, Case, Opened, Settled};
use model::{FullNodeId, Place};
use std::collections::BTreeSet;
use tree_changes::{LookUps, UpdateError};

/// Whether this is the named tree's root afterwards.
fn is_root(opened: &Opened, id: FullNodeId) -> bool
    ensures { IsTrue result ↔ (id ≡ in_tree opened.now.index opened.now.root) }
{
    let root = FullNodeId {
        tree: opened.index,
        node: opened.root,
    };
    id == root
}

/// Where searches start: where the last ones ended.
#[derive(Drop)]
struct Near {
    left: usize,
    named: usize,
}

/// Where a node was before: `Some(None)` if it was a root, and `None` if it is new. And whether it left that spot.
#[derive(Clone, Copy)]
struct Before {
    was: Option<Option<Place>>,
    has_left: bool,
}

/// Where a node that entered a spot was before.
fn find_old_place<L: LookUps>(
    look_ups: &mut L,
    case: &Case<'_>,
    id: FullNodeId,
    near: &mut Near,
) -> Result<Before, UpdateError>
    requires case { IsCase (L.world look_ups.old) case.now }
    requires unshifted { ¬ (IsShifted case.now.compared.now id) }
    requires comes { Comes (L.world look_ups.old) (sent case.now) id }
    ensures looks { LooksUpTo L.world L.asked look_ups.old 1 look_ups.new }
    ensures ok { IfOk result (StoodBefore (L.world look_ups.old) (sent case.now) id) }
    ensures there { OnOk result
        (IsNode (merged_world (L.world look_ups.old) (sent case.now)) id) }
    ensures err { IfErr result (λ e. IsRefusal (L.world look_ups.old) (sent case.now) e) }
{
    if let Some(spot) = case.compared.left.get_near(id, &mut near.left) {
        return Ok(Before {
            was: Some(spot),
            has_left: true,
        });
    }
    if let Some(named) = case.compared.named.get_near(id, &mut near.named) {
        return Ok(Before {
            was: named.was,
            has_left: false,
        });
    }
    let Some(record) = look_ups.node(id) else {
        return Err(UpdateError::MissingData(id.node));
    };
    Ok(Before {
        was: Some(record.place),
        has_left: false,
    })
}

/// The old place of a node in a list, if the node hasn't left it.
fn kept_place(before: Before) -> Option<Place>
    ensures { result ≡ place_kept before }
{
    if before.has_left {
        return None;
    }
    before.was?
}

/// Whether the old place is in this parent's list.
fn is_below(was: Option<Option<Place>>, parent: FullNodeId) -> bool
    ensures { IsTrue result ↔ ((k : ℕ) × (was ≡ Some (Some (parent, k)))) }
{
    match was {
        Some(Some((before, _))) => before == parent,
        _ => false,
    }
}

/// Stores the place that a node hasn't left, if there is one.
fn keep_double(
    settled: &mut Settled,
    id: FullNodeId,
    place: Option<Place>,
) -> Result<(), UpdateError>
    ensures ok { OnOk result (KeepsDouble id place settled.old settled.new) }
    ensures err { IfErr result (λ e. e ≡ Memory) }
{
    if let Some(place) = place {
        settled.doubles.push((id, place))?;
    }
    Ok(())
}

/// Stores the parent that a node entered, unless the node was in its list.
fn keep_adopter(
    settled: &mut Settled,
    parent: FullNodeId,
    was: Option<Option<Place>>,
) -> Result<(), UpdateError>
    ensures ok { OnOk result (KeepsAdopter parent was settled.old settled.new) }
    ensures err { IfErr result (λ e. e ≡ Memory) }
{
    if is_below(was, parent) {
        return Ok(());
    }
    settled.adopters.insert(parent)?;
    settled.has_moved = settled.has_moved || was.is_some();
    Ok(())
}

/// Looks up where one node that entered a spot was before. A node that has only shifted was below the same parent, in
/// a place that it left.
fn settle_one<L: LookUps>(
    settled: &mut Settled,
    look_ups: &mut L,
    case: &Case<'_>,
    item: (FullNodeId, Arrival),
    near: &mut Near,
) -> Result<(), UpdateError>
    requires case { IsCase (L.world look_ups.old) case.now }
    requires arrived { at case.now.compared.now.entered item.0 ≡ Some item.1 }
    requires so_far { IsSettledSoFar (L.world look_ups.old) (sent case.now) settled.old }
    ensures looks { LooksUpTo L.world L.asked look_ups.old 1 look_ups.new }
    ensures ok { OnOk result (SettlesOne (L.world look_ups.old) (sent case.now) item.0 item.1.spot
        settled.old settled.new) }
    ensures err { IfErr result (λ e. IsRefusal (L.world look_ups.old) (sent case.now) e) }
{
    let (id, arrival) = item;
    if arrival.is_shifted {
        return Ok(());
    }
    let Some((parent, _)) = arrival.spot else {
        let before = find_old_place(look_ups, case, id, near)?;
        return keep_double(settled, id, kept_place(before));
    };
    if is_root(case.opened, id) {
        return Err(UpdateError::ListedTwice(id.node));
    }
    let before = find_old_place(look_ups, case, id, near)?;
    keep_double(settled, id, kept_place(before))?;
    keep_adopter(settled, parent, before.was)
}

/// The nodes that entered a spot and are still listed where they were, and the nodes that got a child that they didn't list.
pub(crate) fn settle<L: LookUps>(look_ups: &mut L, case: &Case<'_>) -> Result<Settled, UpdateError>
    requires case { IsCase (L.world look_ups.old) case.now }
    ensures world { L.world look_ups.new ≡ L.world look_ups.old }
    ensures ok { IfOk result (HoldsSettled (L.world look_ups.old) (sent case.now)) }
    ensures count { OnOk result
        (IsRaisedUpTo (L.asked look_ups.old) (length case.now.compared.now.entered) (L.asked look_ups.new)) }
    ensures err { IfErr result (λ e. IsRefusal (L.world look_ups.old) (sent case.now) e) }
{
    let mut settled = Settled {
        doubles: Vec::new(case.alloc),
        adopters: BTreeSet::new(case.alloc),
        has_moved: false,
    };
    let mut near = Near { left: 0, named: 0 };
    for item in case.compared.entered.entries() {
        settle_one(&mut settled, look_ups, case, *item, &mut near)?;
    }
    Ok(settled)
}
