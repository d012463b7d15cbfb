//! The decision on an update, pass by pass.
ghost use Rattle.std.specs.Prelude.{◌≡◌, ◌+◌, ◌-◌, ◌*◌, ◌≤◌, length, IfOk, IfErr, IfSome, IsSome, OnOk};
ghost use Rattle.std.specs.FinMap.{get};
ghost use Rattle.schema.specs.UpdateData.{update_data};
ghost use Rattle.model.specs.Update.{IsRebuild, KeepsRules, merged_world};
ghost use Rattle.model.specs.Work.{Work, IsWorkOf};
ghost use Rattle.model.specs.Surgery.{IsOld, IsClimbed};
ghost use Rattle.tree_changes.specs.LookUps.{IsRaisedAtLeast, IsRaisedUpTo};
ghost use Rattle.tree_changes.specs.Changes.{overlaid_world};
ghost use Rattle.tree_changes.specs.Decisions.{IsDecision, IsWithinWork};
ghost use Rattle.tree_changes.specs.Refusals.{IsRefusal};
ghost use Rattle.tree_changes.specs.declared.error.UpdateError.TheVariants.{Memory};
ghost use Rattle.tree_plan.specs.Passes.{HoldsOpened, HoldsRemoved, IsOfName};
ghost use Rattle.tree_plan.specs.Cases.{IsCase, sent};
ghost use Rattle.tree_plan.specs.Deciding.{AreFindings, HasBegun, IsCount, IsRemovedCount};
ghost use Rattle.tree_plan.specs.Verdicts.{Transition};
ghost use Rattle.tree_plan.specs.Writing.{IsSmall};
ghost use Rattle.tree_plan.specs.News.{KeepsTree, AreAllChanges, IsOfChanges};

use crate::climbing::climb_all;
use crate::comparing::{compare, full_id};
use crate::focusing::{end_opened, find_focus};
use crate::moves::{find_moves, is_few};
use crate::news::{find_news, keeps_tree, updates};
use crate::opening::{old_record, open_tree};
use crate::passes::{Case, Opened, Removed};
use crate::refusing::refuse_misplaced;
use crate::regrafting::regraft;
use crate::removing::remove;
use crate::settling::settle;
use crate::spare::Spare;
use crate::verdicts::Found;
use crate::writing::{told_root, write};
use schema::TreeUpdate;
use std::alloc::Global;
use tree_changes::{Decision, LookUps, NodeChange, TreeRecord, UpdateError};
use values_by_id::SortedRows;

/// What goes, where each node is listed once, no listed node goes, and each of the update's nodes that got a child is reached.
fn find_removed<L: LookUps>(look_ups: &mut L, case: &Case<'_>) -> Result<Removed, UpdateError>
    requires case { IsCase (L.world look_ups.old) case.now }
    ensures world { L.world look_ups.new ≡ L.world look_ups.old }
    ensures err { IfErr result (λ e. IsRefusal (L.world look_ups.old) (sent case.now) e) }
    ensures ok { IfOk result (HoldsRemoved (L.world look_ups.old) (sent case.now)) }
    ensures climbed { OnOk result (IsClimbed (L.world look_ups.old) (sent case.now)) }
    ensures count { IfOk result (λ r.
        IsRemovedCount (L.world look_ups.old) (sent case.now) case.now.compared.now r (L.asked look_ups.old) (L.asked look_ups.new)) }
{
    let settled = settle(look_ups, case)?;
    let removed = remove(look_ups, case)?;
    refuse_misplaced(look_ups, case, &settled, &removed)?;
    climb_all(look_ups, case, &settled)?;
    Ok(removed)
}

/// The passes, one after another.
fn find<L: LookUps>(
    alloc: Global,
    look_ups: &mut L,
    update: &TreeUpdate,
    opened: Opened,
) -> Result<Found, UpdateError>
    requires old { IsOld (L.world look_ups.old) }
    requires opening { HoldsOpened (L.world look_ups.old) (update_data update.now) opened }
    ensures world { L.world look_ups.new ≡ L.world look_ups.old }
    ensures err { IfErr result (λ e. IsRefusal (L.world look_ups.old) (update_data update.now) e) }
    ensures ok { IfOk result (AreFindings (L.world look_ups.old) (update_data update.now)) }
    ensures count { IfOk result (λ f.
        IsCount (L.world look_ups.old) (update_data update.now) f (L.asked look_ups.old) (L.asked look_ups.new)) }
{
    let told = told_root(opened.index, update);
    let compared = compare(alloc, look_ups, update, &opened)?;
    let case = Case {
        alloc,
        update,
        opened: &opened,
        compared: &compared,
    };
    let removed = find_removed(look_ups, &case)?;
    let regrafted = regraft(look_ups, &case, &removed)?;
    Ok(Found {
        opened,
        compared,
        removed,
        regrafted,
        told,
    })
}

/// The decision, from what the passes found and the focus. `before` counts the records looked up before the decision.
fn conclude<L: LookUps>(
    alloc: Global,
    look_ups: &mut L,
    update: &TreeUpdate,
    findings: Found,
    before: u128,
) -> Result<Decision, UpdateError>
    ghost step: { Transition }
    requires old { step.old ≡ L.world look_ups.old }
    requires update { step.update ≡ update_data update.now }
    requires new { IsRebuild (merged_world step.old step.update) step.new }
    requires findings { AreFindings step.old step.update findings }
    ensures world { L.world look_ups.new ≡ L.world look_ups.old }
    ensures err { IfErr result (λ e. IsRefusal step.old step.update e) }
    ensures kept { OnOk result (KeepsRules step.old step.update) }
    ensures ok { IfOk result (IsDecision step.old step.update) }
    ensures new { IfOk result (λ d. overlaid_world step.old step.update d ≡ step.new) }
    ensures small { IfOk result (λ d. (work : Work) → IsWorkOf step.old step.update step.new work
        → IsSmall findings.compared findings.removed findings.regrafted d work) }
    ensures looked { IfOk result (λ d. d.looked ≡ L.asked look_ups.new - before) }
    ensures count { OnOk result (let most = 4 * length (merged_world step.old step.update).known + 2 in
        IsRaisedUpTo (L.asked look_ups.old) most (L.asked look_ups.new)) }
{
    let case = Case {
        alloc,
        update,
        opened: &findings.opened,
        compared: &findings.compared,
    };
    let focused = find_focus(look_ups, &case, &findings.removed)?;
    let looked = look_ups.count().saturating_sub(before);
    write(alloc, update, findings, &focused, looked)
}

/// The changes by a short way, if there is one for the update: where it only gives nodes other data, and where it also moves a few.
fn find_shortly<L: LookUps>(
    alloc: Global,
    look_ups: &mut L,
    update: &TreeUpdate,
    opened: &Opened,
    spare: &mut Spare,
) -> Result<Option<SortedRows<NodeChange>>, UpdateError>
    requires old { IsOld (L.world look_ups.old) }
    requires opening { HoldsOpened (L.world look_ups.old) (update_data update.now) opened.now }
    ensures world { L.world look_ups.new ≡ L.world look_ups.old }
    ensures err { IfErr result (λ e. IsRefusal (L.world look_ups.old) (update_data update.now) e) }
    ensures ok { IfOk result (λ rows. IfSome rows (AreAllChanges (L.world look_ups.old) (update_data update.now))) }
    ensures tree { IfOk result (λ rows. IfSome rows (λ _. KeepsTree (update_data update.now) opened.now)) }
    ensures few { IfOk result (λ rows. IfSome rows (λ rows. length rows ≤ length update.now.nodes.items + 6)) }
    ensures count { OnOk result
        (IsRaisedUpTo (L.asked look_ups.old) (length update.now.nodes.items + 21) (L.asked look_ups.new)) }
    ensures named { IfOk result (λ rows. IfSome rows (λ _.
        IsRaisedAtLeast (L.asked look_ups.old) (length update.now.nodes.items) (L.asked look_ups.new))) }
{
    if let Some(changes) = find_news(alloc, look_ups, update, opened, spare)? {
        return Ok(Some(changes));
    }
    if !is_few(update) {
        return Ok(None);
    }
    if !keeps_tree(opened, update) {
        return Ok(None);
    }
    let root = full_id(opened.index, opened.root);
    find_moves(alloc, look_ups, update, root, spare)
}

/// The decision of changes that leave trees and focus as they were, given the old record of the update's tree. Of each change its node is
/// reported as updated.
fn decide_alone<L: LookUps>(
    alloc: Global,
    look_ups: &mut L,
    changes: SortedRows<NodeChange>,
    looked_up: &TreeRecord,
    before: u128,
    spare: &mut Spare,
) -> Result<Decision, UpdateError>
    requires old { IsOld (L.world look_ups.old) }
    requires present { IsSome (get (L.world look_ups.old).trees 0) }
    requires record { IsOfName (L.world look_ups.old) looked_up.now.id looked_up.now }
    ensures world { L.world look_ups.new ≡ L.world look_ups.old }
    ensures err { IfErr result (λ e. e ≡ Memory) }
    ensures ok { IfOk result (IsOfChanges (L.world look_ups.old) changes) }
    ensures looked { IfOk result (λ d. d.looked ≡ L.asked look_ups.new - before) }
    ensures count { OnOk result
        (IsRaisedUpTo (L.asked look_ups.old) (2 * length (L.world look_ups.old).known) (L.asked look_ups.new)) }
{
    let events = updates(spare.take_events(), &changes)?;
    let end = end_opened(look_ups, looked_up);
    let looked = look_ups.count().saturating_sub(before);
    let nodes = changes.into_entries();
    Ok(Decision {
        nodes,
        trees: Vec::new(alloc),
        events,
        focus: end.id,
        looked,
    })
}

/// The decision by the passes. It is a function of its own so that the short way doesn't pay for the stack space of the
/// passes.
#[inline(never)]
fn decide_by_passes<L: LookUps>(
    alloc: Global,
    look_ups: &mut L,
    update: &TreeUpdate,
    opened: Opened,
    before: u128,
) -> Result<Decision, UpdateError>
    requires old { IsOld (L.world look_ups.old) }
    requires opening { HoldsOpened (L.world look_ups.old) (update_data update.now) opened }
    requires begun { HasBegun (L.world look_ups.old) (update_data update.now) before (L.asked look_ups.old) }
    ensures world { L.world look_ups.new ≡ L.world look_ups.old }
    ensures err { IfErr result (λ e. IsRefusal (L.world look_ups.old) (update_data update.now) e) }
    ensures ok { IfOk result (IsDecision (L.world look_ups.old) (update_data update.now)) }
    ensures work { IfOk result (λ d.
        IsWithinWork (L.world look_ups.old) (update_data update.now) d before (L.asked look_ups.new)) }
    ensures looked { IfOk result (λ d. d.looked ≡ L.asked look_ups.new - before) }
    ensures named { OnOk result
        (IsRaisedAtLeast (L.asked look_ups.old) (length update.now.nodes.items) (L.asked look_ups.new)) }
{
    let findings = find(alloc, look_ups, update, opened)?;
    conclude(alloc, look_ups, update, findings, before)
}

/// Decides on an update. At least one record is looked up for each node of the update.
///
/// # Errors
///
/// Returns a rule that the update breaks, or `UpdateError::Memory` if memory runs out. The world that is looked up is
/// unchanged.
pub fn decide<L: LookUps>(
    alloc: Global,
    look_ups: &mut L,
    update: &TreeUpdate,
) -> Result<Decision, UpdateError>
    ensures world { L.world look_ups.new ≡ L.world look_ups.old }
    ensures old { IsOld (L.world look_ups.old) }
    ensures err { IfErr result (λ e. IsRefusal (L.world look_ups.old) (update_data update.now) e) }
    ensures ok { IfOk result (IsDecision (L.world look_ups.old) (update_data update.now)) }
    ensures work { IfOk result (λ d.
        IsWithinWork (L.world look_ups.old) (update_data update.now) d (L.asked look_ups.old) (L.asked look_ups.new)) }
    ensures looked { IfOk result (λ d. d.looked ≡ L.asked look_ups.new - L.asked look_ups.old) }
    ensures named { OnOk result
        (IsRaisedAtLeast (L.asked look_ups.old) (length update.now.nodes.items) (L.asked look_ups.new)) }
{
    decide_with(alloc, look_ups, update, &mut Spare::new(alloc))
}

/// Decides on an update as [`decide`] does, and writes a short decision into lists that were kept: its changes, its events, and the
/// children that left a place.
///
/// # Errors
///
/// Returns the errors of [`decide`].
pub fn decide_with<L: LookUps>(
    alloc: Global,
    look_ups: &mut L,
    update: &TreeUpdate,
    spare: &mut Spare,
) -> Result<Decision, UpdateError>
    ensures world { L.world look_ups.new ≡ L.world look_ups.old }
    ensures old { IsOld (L.world look_ups.old) }
    ensures err { IfErr result (λ e. IsRefusal (L.world look_ups.old) (update_data update.now) e) }
    ensures ok { IfOk result (IsDecision (L.world look_ups.old) (update_data update.now)) }
    ensures work { IfOk result (λ d.
        IsWithinWork (L.world look_ups.old) (update_data update.now) d (L.asked look_ups.old) (L.asked look_ups.new)) }
    ensures looked { IfOk result (λ d. d.looked ≡ L.asked look_ups.new - L.asked look_ups.old) }
    ensures named { OnOk result
        (IsRaisedAtLeast (L.asked look_ups.old) (length update.now.nodes.items) (L.asked look_ups.new)) }
{
    let before = look_ups.count();
    let looked_up = old_record(look_ups, update);
    let opening = open_tree(look_ups, update, &looked_up)?;
    let opened = Opened {
        record: looked_up,
        index: opening.index,
        root: opening.root,
        is_first: opening.is_first,
    };
    if let Some(changes) = find_shortly(alloc, look_ups, update, &opened, spare)? {
        return decide_alone(alloc, look_ups, changes, &opened.record, before, spare);
    }
    decide_by_passes(alloc, look_ups, update, opened, before)
}
