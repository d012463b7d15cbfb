//! Nodes and trees that are removed.
ghost use Rattle.std.specs.Prelude.{◌≡◌, ◌≢◌, ◌⊎◌, ◌+◌, ◌*◌, ◌≤◌, ◌∷◌, [], length, map, Contains, None, Some, OnOk, IfOk, IfErr};
ghost use Rattle.std.specs.BTreeSet.{btree_set_len};
ghost use Rattle.std.specs.Option.{option_map, option_and_then};
ghost use Rattle.model.specs.World.{World, in_tree, graft_name};
ghost use Rattle.model.specs.Update.{IsNamed};
ghost use Rattle.model.specs.Surgery.{HasEntered, Gone, IsSettled};
ghost use Rattle.tree_changes.specs.LookUps.{IsRaisedUpTo};
ghost use Rattle.tree_changes.specs.Refusals.{IsRefusal};
ghost use Rattle.tree_changes.specs.declared.look_ups.TreeRecord.{TreeRecord};
ghost use Rattle.tree_plan.specs.Looks.{LooksUpTo};
ghost use Rattle.tree_plan.specs.Passes.{HoldsRemoved, LosesGraft};
ghost use Rattle.tree_plan.specs.Cases.{IsCase, sent};
ghost use Rattle.tree_plan.specs.Removing.{IsRemoving, LosesAll, Drops, Expands, LosesLeft, DropsLost, FollowsUp, IsWorkedOff};

use crate::passes::{Case, Removed};
use crate::records::tree_record;
use model::FullNodeId;
use schema::{NodeId, TreeId};
use std::collections::BTreeSet;
use tree_changes::{LookUps, TreeRecord, UpdateError};

/// The removed nodes and trees found so far, the nodes also in the order in which they were found.
#[derive(Drop)]
struct Removing {
    gone: BTreeSet<FullNodeId>,
    queue: Vec<FullNodeId>,
    trees: Vec<TreeRecord>,
}

/// Removes a node that lost its spot, unless it entered another. The search among the nodes that entered starts at `near`.
fn lose(
    removing: &mut Removing,
    case: &Case<'_>,
    id: FullNodeId,
    near: &mut usize,
) -> Result<(), UpdateError>
    ghost before: { World }
    requires so_far { IsRemoving before case.now removing.old }
    requires goes { ¬ (HasEntered before (sent case.now) id) → Gone before (sent case.now) id }
    ensures ok { OnOk result (LosesAll before (sent case.now) (id ∷ []) removing.old removing.new) }
    ensures err { IfErr result (λ e. IsRefusal before (sent case.now) e) }
{
    if case.compared.entered.get_near(id, near).is_some() {
        return Ok(());
    }
    if case.compared.named.contains_key(&id) {
        return Err(UpdateError::NotReached(id.node));
    }
    if removing.gone.contains(&id) {
        return Ok(());
    }
    removing.gone.insert(id)?;
    removing.queue.push(id)?;
    Ok(())
}

/// Takes the spots of a removed node's children away.
fn lose_children(
    removing: &mut Removing,
    case: &Case<'_>,
    parent: FullNodeId,
    children: &[NodeId],
) -> Result<(), UpdateError>
    ghost before: { World }
    requires so_far { IsRemoving before case.now removing.old }
    requires goes { (c : FullNodeId) → Contains (map (in_tree parent.tree) children.now) c
        → ¬ (HasEntered before (sent case.now) c) → Gone before (sent case.now) c }
    ensures ok { OnOk result (LosesAll before (sent case.now)
        (map (in_tree parent.tree) children.now) removing.old removing.new) }
    ensures err { IfErr result (λ e. IsRefusal before (sent case.now) e) }
{
    let mut near = 0;
    for child in children {
        let id = FullNodeId {
            tree: parent.tree,
            node: *child,
        };
        lose(removing, case, id, &mut near)?;
    }
    Ok(())
}

/// The record of a tree that is no longer grafted.
fn cut(tree: TreeRecord) -> TreeRecord
    ensures { result ≡ record tree { graft = None; root = None; focus = None } }
{
    TreeRecord {
        graft: None,
        root: None,
        focus: None,
        ..tree
    }
}

/// The root of a tree, if it is present.
fn root_of(tree: &TreeRecord) -> Option<FullNodeId>
    ensures { result
        ≡ option_and_then (λ index. option_map (in_tree index) tree.now.root) tree.now.index }
{
    let index = tree.index?;
    let node = tree.root?;
    Some(FullNodeId { tree: index, node })
}

/// Removes a tree that lost its graft, unless a node of the update grafts it now.
fn drop_tree<L: LookUps>(
    removing: &mut Removing,
    look_ups: &mut L,
    case: &Case<'_>,
    name: &TreeId,
) -> Result<(), UpdateError>
    ghost before: { World }
    requires world { L.world look_ups.old ≡ before }
    requires so_far { IsRemoving before case.now removing.old }
    requires lost { (g : FullNodeId) × (graft_name before g ≡ Some name.now)
        × (Gone before (sent case.now) g ⊎ IsNamed before (sent case.now) g) }
    requires fresh { (t : TreeRecord) → Contains removing.old.trees.items t → t.id ≢ name.now }
    ensures looks { LooksUpTo L.world L.asked look_ups.old 1 look_ups.new }
    ensures ok { OnOk result (Drops before (sent case.now) name.now removing.old removing.new) }
    ensures err { IfErr result (λ e. IsRefusal before (sent case.now) e) }
{
    if case.compared.grafted.contains_key(name) {
        return Ok(());
    }
    let tree = tree_record(look_ups, name);
    removing.trees.push(cut(tree))?;
    let Some(root) = root_of(&tree) else {
        return Ok(());
    };
    lose(removing, case, root, &mut 0)
}

/// Handles the children of a removed node and the tree that it grafts.
fn expand<L: LookUps>(
    removing: &mut Removing,
    look_ups: &mut L,
    case: &Case<'_>,
    id: FullNodeId,
) -> Result<(), UpdateError>
    ghost before: { World }
    requires world { L.world look_ups.old ≡ before }
    requires so_far { IsRemoving before case.now removing.old }
    requires queued { Contains removing.old.queue.items id }
    requires fresh { (t : TreeRecord) → Contains removing.old.trees.items t
        → graft_name before id ≢ Some t.id }
    ensures looks { LooksUpTo L.world L.asked look_ups.old 2 look_ups.new }
    ensures ok { OnOk result (Expands before (sent case.now) id removing.old removing.new) }
    ensures err { IfErr result (λ e. IsRefusal before (sent case.now) e) }
{
    let Some(record) = look_ups.node(id) else {
        return Ok(());
    };
    let name = record.node.tree_id();
    lose_children(removing, case, id, record.node.children())?;
    match name {
        Some(name) => drop_tree(removing, look_ups, case, &name),
        None => Ok(()),
    }
}

/// Handles the nodes that left a spot.
fn lose_left(removing: &mut Removing, case: &Case<'_>) -> Result<(), UpdateError>
    ghost before: { World }
    requires so_far { IsRemoving before case.now removing.old }
    ensures ok { OnOk result (LosesLeft before (sent case.now) removing.old removing.new) }
    ensures err { IfErr result (λ e. IsRefusal before (sent case.now) e) }
{
    let mut near = 0;
    for item in case.compared.left.entries() {
        lose(removing, case, item.0, &mut near)?;
    }
    Ok(())
}

/// Handles the trees that nodes of the update grafted before and don't graft now.
fn drop_lost<L: LookUps>(
    removing: &mut Removing,
    look_ups: &mut L,
    case: &Case<'_>,
) -> Result<(), UpdateError>
    ghost before: { World }
    requires world { L.world look_ups.old ≡ before }
    requires so_far { IsRemoving before case.now removing.old }
    requires none { removing.old.trees.items ≡ [] }
    ensures looks { LooksUpTo L.world L.asked look_ups.old (length case.now.compared.now.lost.items) look_ups.new }
    ensures ok { OnOk result
        (DropsLost before (sent case.now) case.now.compared.now removing.old removing.new) }
    ensures err { IfErr result (λ e. IsRefusal before (sent case.now) e) }
{
    for name in &case.compared.lost {
        drop_tree(removing, look_ups, case, name)?;
    }
    Ok(())
}

/// Continues from each removed node until there is nothing more to remove.
fn follow<L: LookUps>(
    removing: &mut Removing,
    look_ups: &mut L,
    case: &Case<'_>,
) -> Result<(), UpdateError>
    ghost before: { World }
    requires world { L.world look_ups.old ≡ before }
    requires so_far { IsRemoving before case.now removing.old }
    requires lost { (t : TreeRecord) → Contains removing.old.trees.items t
        → LosesGraft before (sent case.now) t.id }
    ensures world { L.world look_ups.new ≡ L.world look_ups.old }
    ensures count { OnOk result
        (IsRaisedUpTo (L.asked look_ups.old) (2 * length removing.new.queue.items) (L.asked look_ups.new)) }
    ensures ok { OnOk result (FollowsUp before (sent case.now) removing.old removing.new) }
    ensures err { IfErr result (λ e. IsRefusal before (sent case.now) e) }
{
    for position in 0..usize::MAX {
        if position >= removing.queue.len() {
            return Ok(());
        }
        let id = removing.queue[position];
        expand(removing, look_ups, case, id)?;
    }
    Ok(())
}

/// Finds all nodes and trees to remove.
fn find_all<L: LookUps>(
    removing: &mut Removing,
    look_ups: &mut L,
    case: &Case<'_>,
) -> Result<(), UpdateError>
    ghost before: { World }
    requires world { L.world look_ups.old ≡ before }
    requires so_far { IsRemoving before case.now removing.old }
    requires none { removing.old.trees.items ≡ [] }
    ensures world { L.world look_ups.new ≡ L.world look_ups.old }
    ensures count { OnOk result
        (let most = 2 * length removing.new.queue.items + length case.now.compared.now.lost.items in
        IsRaisedUpTo (L.asked look_ups.old) most (L.asked look_ups.new)) }
    ensures ok { OnOk result (IsWorkedOff before (sent case.now) case.now.compared.now removing.new) }
    ensures err { IfErr result (λ e. IsRefusal before (sent case.now) e) }
{
    lose_left(removing, case)?;
    drop_lost(removing, look_ups, case)?;
    follow(removing, look_ups, case)
}

/// The nodes that are removed, and the trees that lose their grafts and get no others.
pub(crate) fn remove<L: LookUps>(look_ups: &mut L, case: &Case<'_>) -> Result<Removed, UpdateError>
    requires case { IsCase (L.world look_ups.old) case.now }
    requires settled { IsSettled (L.world look_ups.old) (sent case.now) }
    ensures world { L.world look_ups.new ≡ L.world look_ups.old }
    ensures ok { IfOk result (HoldsRemoved (L.world look_ups.old) (sent case.now)) }
    ensures count { IfOk result
        (λ r. let most = 2 * btree_set_len r.gone + length case.now.compared.now.lost.items in
        IsRaisedUpTo (L.asked look_ups.old) most (L.asked look_ups.new)) }
    ensures trees { IfOk result
        (λ r. length r.trees.items ≤ btree_set_len r.gone + length case.now.compared.now.lost.items) }
    ensures err { IfErr result (λ e. IsRefusal (L.world look_ups.old) (sent case.now) e) }
{
    let mut removing = Removing {
        gone: BTreeSet::new(case.alloc),
        queue: Vec::new(case.alloc),
        trees: Vec::new(case.alloc),
    };
    find_all(&mut removing, look_ups, case)?;
    Ok(Removed {
        gone: removing.gone,
        trees: removing.trees,
    })
}
