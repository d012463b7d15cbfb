//! The focus before and after the update.
ghost use Rattle.std.specs.Prelude.{◌≡◌, ◌<◌, ◌+◌, ◌-◌, ◌*◌, ◌↔◌, IfOk, IfErr, IsTrue, IsSome, MatchOption, None, Some, length, true, false};
ghost use Rattle.std.specs.FinMap.{get};
ghost use Rattle.std.specs.Option.{option_map, option_and_then};
ghost use Rattle.model.specs.World.{ROOT_NAME, IsNode, focus_named, in_tree, Reached};
ghost use Rattle.model.specs.Focus.{IsFocus};
ghost use Rattle.model.specs.Update.{IsFirst, KeepsRules, merged_world};
ghost use Rattle.model.specs.Surgery.{IsOld, IsPassed};
ghost use Rattle.schema.specs.NodeData.{NodeData};
ghost use Rattle.tree_changes.specs.LookUps.{IsRaisedUpTo};
ghost use Rattle.tree_changes.specs.Changes.{entry_data};
ghost use Rattle.tree_changes.specs.Refusals.{IsRefusal};
ghost use Rattle.tree_plan.specs.Looks.{LooksUpTo};
ghost use Rattle.tree_plan.specs.Passes.{HoldsRemoved, IsFocusing, IsOfName};
ghost use Rattle.tree_plan.specs.Cases.{IsCase, sent};
ghost use Rattle.tree_plan.specs.Aims.{IsAimOf, IsAimIn, IsEnd, Answers, AnswersHost, FindsAim, EndsWell, IsStaying};

use crate::opening::has_first_index;
use crate::passes::{Case, Compared, Focused, Opened, Removed};
use crate::records::tree_record;
use model::FullNodeId;
use schema::{Node, NodeId, TreeId, TreeUpdate};
use tree_changes::{LookUps, TreeRecord, UpdateError};

/// What the search for the focus reads of a node.
#[derive(Clone, Copy)]
struct Aim {
    graft: Option<TreeId>,
    active: Option<NodeId>,
}

/// The node at which the focus ends, and its active descendant.
#[derive(Clone, Copy)]
pub(crate) struct End {
    pub(crate) id: FullNodeId,
    active: Option<FullNodeId>,
}

/// Follows the focus before and after the update, and refuses the update if it ends at no node.
pub(crate) fn find_focus<L: LookUps>(
    look_ups: &mut L,
    case: &Case<'_>,
    removed: &Removed,
) -> Result<Focused, UpdateError>
    requires case { IsCase (L.world look_ups.old) case.now }
    requires present { ¬ (IsFirst (L.world look_ups.old)) → IsSome (get (L.world look_ups.old).trees 0) }
    requires removal { HoldsRemoved (L.world look_ups.old) (sent case.now) removed.now }
    requires passed { IsPassed (L.world look_ups.old) (sent case.now) }
    ensures world { L.world look_ups.new ≡ L.world look_ups.old }
    ensures err { IfErr result (λ e. IsRefusal (L.world look_ups.old) (sent case.now) e) }
    ensures ok { IfOk result (λ f. IsFocusing (L.world look_ups.old) (sent case.now) f) }
    ensures keeps { IfOk result (λ f. KeepsRules (L.world look_ups.old) (sent case.now)) }
    ensures ends { IfOk result (λ f. EndsWell (merged_world (L.world look_ups.old) (sent case.now)) f.effective) }
    ensures counts { IfOk result (λ f. let m = merged_world (L.world look_ups.old) (sent case.now) in
        IsRaisedUpTo (L.asked look_ups.old) (4 * length m.known + 2) (L.asked look_ups.new)) }
{
    let before = focus_before(look_ups, case.opened);
    let end = end_after(look_ups, case, removed)?;
    let after = focus_after(look_ups, case.compared, removed, &end);
    Ok(Focused {
        before,
        effective: end.id,
        after,
    })
}

/// The answer of `focus` before the update.
fn focus_before<L: LookUps>(look_ups: &mut L, opened: &Opened) -> Option<FullNodeId>
    requires old { IsOld (L.world look_ups.old) }
    requires first { IsTrue opened.now.is_first ↔ IsFirst (L.world look_ups.old) }
    requires present { ¬ (IsFirst (L.world look_ups.old)) → IsSome (get (L.world look_ups.old).trees 0) }
    ensures looks { LooksUpTo L.world L.asked look_ups.old (2 * length (L.world look_ups.old).known + 1) look_ups.new }
    ensures focus { ¬ (IsFirst (L.world look_ups.old)) → IsFocus (L.world look_ups.old) result }
{
    if opened.is_first {
        return None;
    }
    if !look_ups.is_host_focused() {
        return None;
    }
    let end = end_before(look_ups);
    Some(active_before(look_ups, &end))
}

/// The effective focus before the update.
fn end_before<L: LookUps>(look_ups: &mut L) -> End
    requires old { IsOld (L.world look_ups.old) }
    requires present { IsSome (get (L.world look_ups.old).trees 0) }
    ensures looks { LooksUpTo L.world L.asked look_ups.old (2 * length (L.world look_ups.old).known) look_ups.new }
    ensures end { IsEnd (L.world look_ups.old) result }
{
    let first = declared(look_ups, &TreeId::root()).unwrap();
    end_from(look_ups, first)
}

/// The effective focus before the update, given the record of the update's tree, which mostly is the root tree. It is inlined, so that
/// the record needn't be in memory.
#[inline(always)]
pub(crate) fn end_opened<L: LookUps>(look_ups: &mut L, looked_up: &TreeRecord) -> End
    requires old { IsOld (L.world look_ups.old) }
    requires present { IsSome (get (L.world look_ups.old).trees 0) }
    requires record { IsOfName (L.world look_ups.old) looked_up.now.id looked_up.now }
    ensures looks { LooksUpTo L.world L.asked look_ups.old (2 * length (L.world look_ups.old).known) look_ups.new }
    ensures end { IsEnd (L.world look_ups.old) result }
{
    if !has_first_index(looked_up) {
        return end_before(look_ups);
    }
    let Some(first) = declared_in(looked_up) else {
        return end_before(look_ups);
    };
    end_from(look_ups, first)
}

/// The effective focus before the update, given the root tree's declared focus.
fn end_from<L: LookUps>(look_ups: &mut L, first: FullNodeId) -> End
    requires old { IsOld (L.world look_ups.old) }
    requires present { IsSome (get (L.world look_ups.old).trees 0) }
    requires first { focus_named (L.world look_ups.old) ROOT_NAME ≡ Some first }
    ensures looks { LooksUpTo L.world L.asked look_ups.old (2 * length (L.world look_ups.old).known - 1) look_ups.new }
    ensures known { 0 < length (L.world look_ups.old).known }
    ensures end { IsEnd (L.world look_ups.old) result }
{
    let mut id = first;
    for _depth in 0..look_ups.known_trees() {
        let aim = old_aim(look_ups, id).unwrap();
        let Some(inner) = aim.graft else {
            return end_at(id, &aim);
        };
        id = declared(look_ups, &inner).unwrap();
    }
    unreachable!()
}

/// The active descendant if it was in the state, and otherwise the node itself.
fn active_before<L: LookUps>(look_ups: &mut L, end: &End) -> FullNodeId
    ensures looks { LooksUpTo L.world L.asked look_ups.old 1 look_ups.new }
    ensures answer { Answers (λ a. IsNode (L.world look_ups.old) a) end.now result }
{
    let Some(active) = end.active else {
        return end.id;
    };
    if look_ups.node(active).is_none() {
        return end.id;
    }
    active
}

/// The answer of `focus` after the update.
fn focus_after<L: LookUps>(
    look_ups: &mut L,
    compared: &Compared,
    removed: &Removed,
    end: &End,
) -> Option<FullNodeId>
    ensures looks { LooksUpTo L.world L.asked look_ups.old 1 look_ups.new }
    ensures focus { let w = L.world look_ups.old in
        AnswersHost w (IsStaying w compared.now removed.now) end.now result }
{
    if !look_ups.is_host_focused() {
        return None;
    }
    Some(active_after(look_ups, compared, removed, end))
}

/// The active descendant if it is in the state after the update, and otherwise the node itself.
fn active_after<L: LookUps>(
    look_ups: &mut L,
    compared: &Compared,
    removed: &Removed,
    end: &End,
) -> FullNodeId
    ensures looks { LooksUpTo L.world L.asked look_ups.old 1 look_ups.new }
    ensures answer { Answers (IsStaying (L.world look_ups.old) compared.now removed.now) end.now result }
{
    let Some(active) = end.active else {
        return end.id;
    };
    if !stays(look_ups, compared, removed, active) {
        return end.id;
    }
    active
}

/// Whether the node exists after the update.
fn stays<L: LookUps>(
    look_ups: &mut L,
    compared: &Compared,
    removed: &Removed,
    id: FullNodeId,
) -> bool
    ensures looks { LooksUpTo L.world L.asked look_ups.old 1 look_ups.new }
    ensures stays { IsTrue result ↔ IsStaying (L.world look_ups.old) compared.now removed.now id }
{
    compared.named.contains_key(&id) || (!removed.gone.contains(&id) && look_ups.node(id).is_some())
}

/// The effective focus after the update.
fn end_after<L: LookUps>(
    look_ups: &mut L,
    case: &Case<'_>,
    removed: &Removed,
) -> Result<End, UpdateError>
    requires case { IsCase (L.world look_ups.old) case.now }
    requires removal { HoldsRemoved (L.world look_ups.old) (sent case.now) removed.now }
    requires passed { IsPassed (L.world look_ups.old) (sent case.now) }
    ensures world { L.world look_ups.new ≡ L.world look_ups.old }
    ensures err { IfErr result (λ e. IsRefusal (L.world look_ups.old) (sent case.now) e) }
    ensures end { IfOk result (λ e. IsEnd (merged_world (L.world look_ups.old) (sent case.now)) e) }
    ensures reached { IfOk result (λ e. Reached (merged_world (L.world look_ups.old) (sent case.now)) e.id) }
    ensures counts { IfOk result (λ e. let m = merged_world (L.world look_ups.old) (sent case.now) in
        IsRaisedUpTo (L.asked look_ups.old) (2 * length m.known) (L.asked look_ups.new)) }
{
    let limit = u64::from(look_ups.known_trees()) + 1;
    let mut id = declared_after(look_ups, case, &TreeId::root()).unwrap();
    for _depth in 0..limit {
        let Some(aim) = aim_after(look_ups, case, removed, id) else {
            return Err(UpdateError::FocusMissing(id.node));
        };
        let Some(inner) = aim.graft else {
            return Ok(end_at(id, &aim));
        };
        let Some(declared) = declared_after(look_ups, case, &inner) else {
            return Err(UpdateError::FocusOnEmptyGraft(inner));
        };
        id = declared;
    }
    unreachable!()
}

/// What is read of a node after the update.
fn aim_after<L: LookUps>(
    look_ups: &mut L,
    case: &Case<'_>,
    removed: &Removed,
    id: FullNodeId,
) -> Option<Aim>
    requires case { IsCase (L.world look_ups.old) case.now }
    requires removal { HoldsRemoved (L.world look_ups.old) (sent case.now) removed.now }
    ensures looks { LooksUpTo L.world L.asked look_ups.old 1 look_ups.new }
    ensures aim { FindsAim (L.world look_ups.old) (sent case.now) case.now.compared.now removed.now id result }
{
    if let Some(named) = case.compared.named.get(&id) {
        return Some(entry_aim(case.update, named.entry));
    }
    if removed.gone.contains(&id) {
        return None;
    }
    old_aim(look_ups, id)
}

/// What is read of the node of this entry.
fn entry_aim(update: &TreeUpdate, entry: usize) -> Aim
    requires { entry < length update.now.nodes.items }
    ensures { (d : NodeData) × (entry_data update.now.nodes.items entry ≡ Some d) × IsAimOf d result }
{
    aim_of(&update.nodes[entry].1)
}

/// What is read of an old node.
fn old_aim<L: LookUps>(look_ups: &mut L, id: FullNodeId) -> Option<Aim>
    ensures looks { LooksUpTo L.world L.asked look_ups.old 1 look_ups.new }
    ensures aim { let w = L.world look_ups.old in MatchOption result (¬ (IsNode w id)) (λ aim. IsAimIn w id aim) }
{
    let record = look_ups.node(id)?;
    Some(aim_of(record.node))
}

fn aim_of(node: &Node) -> Aim
    ensures { IsAimOf node.now result }
{
    Aim {
        graft: node.tree_id(),
        active: node.active_descendant(),
    }
}

fn end_at(id: FullNodeId, aim: &Aim) -> End
    ensures id { result.id ≡ id }
    ensures active { result.active ≡ option_map (in_tree id.tree) aim.now.active }
{
    let tree = id.tree;
    End {
        id,
        active: aim.active.map(|node| FullNodeId { tree, node }),
    }
}

/// The declared focus of a tree after the update.
fn declared_after<L: LookUps>(
    look_ups: &mut L,
    case: &Case<'_>,
    name: &TreeId,
) -> Option<FullNodeId>
    requires case { IsCase (L.world look_ups.old) case.now }
    ensures looks { LooksUpTo L.world L.asked look_ups.old 1 look_ups.new }
    ensures focus { result ≡ focus_named (merged_world (L.world look_ups.old) (sent case.now)) name.now }
{
    if is_same_tree(name, &case.update.tree_id) {
        return Some(FullNodeId {
            tree: case.opened.index,
            node: case.update.focus,
        });
    }
    declared(look_ups, name)
}

/// The declared focus that a tree's record has.
fn declared_in(found: &TreeRecord) -> Option<FullNodeId>
    ensures { result ≡ option_and_then (λ index. option_map (in_tree index) found.now.focus) found.now.index }
{
    let tree = found.index?;
    let node = found.focus?;
    Some(FullNodeId { tree, node })
}

/// The declared focus of a tree, if it is present.
fn declared<L: LookUps>(look_ups: &mut L, name: &TreeId) -> Option<FullNodeId>
    ensures looks { LooksUpTo L.world L.asked look_ups.old 1 look_ups.new }
    ensures focus { result ≡ focus_named (L.world look_ups.old) name.now }
{
    let found = tree_record(look_ups, name);
    let tree = found.index?;
    let node = found.focus?;
    Some(FullNodeId { tree, node })
}

fn is_same_tree(name: &TreeId, other: &TreeId) -> bool
    ensures { IsTrue result ↔ (name.now ≡ other.now) }
{
    *name == *other
}
