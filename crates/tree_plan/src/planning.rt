//! The plan of an update: the decision, with the data.
ghost use Rattle.std.specs.Prelude.{◌≡◌, ◌≢◌, ℕ, List, Option, ◌++◌, map, option_map, IfOk, IfErr, OnOk, Some};
ghost use Rattle.schema.specs.UpdateData.{info_data, update_data};
ghost use Rattle.tree_changes.specs.declared.error.UpdateError.TheVariants.{Memory};
ghost use Rattle.tree_plan.specs.declared.plan.Change.TheVariants.{Tree};
ghost use Rattle.tree_changes.specs.Refusals.{IsRefusal};
ghost use Rattle.tree_changes.specs.Changes.{entry_of};
ghost use Rattle.tree_plan.specs.Plans.{replaced_texts};
ghost use Rattle.tree_plan.specs.Planned.{IsPlan, IsPlannedWithin, plan_change, AreTakenOnce, slot_data, replaces};

use crate::deciding::decide;
use crate::opening::is_root_tree;
use crate::plan::{Change, Plan};
use model::FullNodeId;
use schema::{Node, NodeId, TreeInfo, TreeUpdate};
use std::alloc::Global;
use tree_changes::{LookUps, NodeChange, ToolkitTexts, TreeRecord, UpdateError};

/// The data of the update's entries, each of them to be taken once.
fn slots_of(alloc: Global, nodes: Vec<(NodeId, Node)>) -> Result<Vec<Option<Node>>, UpdateError>
    ensures ok { IfOk result (λ slots. slots.items ≡ map (λ e. Some e.1) nodes.items) }
    ensures err { IfErr result (λ e. e ≡ Memory) }
{
    let mut slots = Vec::with_capacity(alloc, nodes.len())?;
    for (_, node) in nodes {
        slots.push(Some(node))?;
    }
    Ok(slots)
}

/// Takes the data of an entry.
fn take_data(slots: &mut Vec<Option<Node>>, entry: usize) -> Option<Node>
    ensures taken { result ≡ slot_data slots.old.items entry }
    ensures others { (k : ℕ) → k ≢ entry → slot_data slots.new.items k ≡ slot_data slots.old.items k }
{
    slots.get_mut(entry)?.take()
}

/// The change of a node's record, with its data.
fn node_change(slots: &mut Vec<Option<Node>>, id: FullNodeId, change: NodeChange) -> Change
    ensures moved { result ≡ plan_change slots.old.items (id, change) }
    ensures others { (k : ℕ) → entry_of change ≢ Some k → slot_data slots.new.items k ≡ slot_data slots.old.items k }
{
    let NodeChange::Put { place, entry } = change else {
        return Change::Gone(id);
    };
    let Some(entry) = entry else {
        return Change::Put {
            id,
            place,
            node: None,
        };
    };
    let node = take_data(slots, entry);
    Change::Put { id, place, node }
}

/// Adds the changes of trees.
fn push_trees(changes: &mut Vec<Change>, trees: &[TreeRecord]) -> Result<(), UpdateError>
    ensures ok { OnOk result (changes.new.items ≡ changes.old.items ++ map Tree trees.now) }
    ensures err { IfErr result (λ e. e ≡ Memory) }
{
    for record in trees {
        changes.push(Change::Tree(*record))?;
    }
    Ok(())
}

/// Adds the changes of nodes, with their data.
fn push_nodes(
    changes: &mut Vec<Change>,
    nodes: &[(FullNodeId, NodeChange)],
    slots: &mut Vec<Option<Node>>,
) -> Result<(), UpdateError>
    requires { AreTakenOnce nodes.now }
    ensures ok { OnOk result (changes.new.items ≡ changes.old.items ++ map (plan_change slots.old.items) nodes.now) }
    ensures err { IfErr result (λ e. e ≡ Memory) }
{
    for (id, change) in nodes {
        changes.push(node_change(slots, *id, *change))?;
    }
    Ok(())
}

/// The toolkit's texts, if they are replaced.
fn toolkit_texts(tree: Option<TreeInfo>, is_root: bool) -> Option<ToolkitTexts>
    ensures { (before : Option (List ℕ) × Option (List ℕ))
        → replaced_texts result before ≡ replaces (option_map info_data tree) is_root before }
{
    let info = tree?;
    if !is_root {
        return None;
    }
    let TreeInfo {
        root: _,
        toolkit_name,
        toolkit_version,
    } = info;
    Some((toolkit_name, toolkit_version))
}

/// Plans an update: the decision of [`decide`], with the data.
///
/// # Errors
///
/// Returns the error of [`decide`].
pub fn plan_update<L: LookUps>(
    alloc: Global,
    look_ups: &mut L,
    update: TreeUpdate,
) -> Result<Plan, UpdateError>
    ensures world { L.world look_ups.new ≡ L.world look_ups.old }
    ensures err { IfErr result (λ e. IsRefusal (L.world look_ups.old) (update_data update) e) }
    ensures ok { IfOk result (IsPlan (L.world look_ups.old) (update_data update)) }
    ensures work { IfOk result (λ p.
        IsPlannedWithin (L.world look_ups.old) (update_data update) p (L.asked look_ups.old) (L.asked look_ups.new)) }
{
    let decision = decide(alloc, look_ups, &update)?;
    let is_root = is_root_tree(&update.tree_id);
    let TreeUpdate {
        nodes,
        tree,
        tree_id: _,
        focus: _,
    } = update;
    let mut slots = slots_of(alloc, nodes)?;
    let mut changes = Vec::new(alloc);
    push_trees(&mut changes, &decision.trees)?;
    push_nodes(&mut changes, &decision.nodes, &mut slots)?;
    Ok(Plan {
        changes,
        events: decision.events,
        toolkit: toolkit_texts(tree, is_root),
        focus: decision.focus,
    })
}
