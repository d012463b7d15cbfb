//! The update's tree, before and after.
ghost use Rattle.std.specs.Prelude.{◌≡◌, ◌≢◌, ◌-◌, ◌^◌, ◌<◌, ◌≤◌, ◌↔◌, IsTrue, IfOk, IfErr, OnOk, Some, None, option_map, unwrap_or, ◌⊎◌};
ghost use Rattle.std.specs.Option.{option_map_or};
ghost use Rattle.schema.specs.UpdateData.{info_data, update_data};
ghost use Rattle.model.specs.World.{ROOT_NAME};
ghost use Rattle.model.specs.Surgery.{IsOld};
ghost use Rattle.model.specs.Update.{IsFirst};
ghost use Rattle.tree_changes.specs.declared.error.UpdateError.TheVariants.{MissingTreeInfo, NotRootTree, NoFirstTreeInfo, IndexesUsedUp};
ghost use Rattle.tree_changes.specs.Refusals.{IsRefusal};
ghost use Rattle.tree_plan.specs.Looks.{LooksUpTo};
ghost use Rattle.tree_plan.specs.Passes.{HoldsOpened, IsOfName, opened_as};

use crate::passes::Opening;
use crate::records::{no_record, tree_record};
use schema::{NodeId, TreeId, TreeInfo, TreeUpdate};
use tree_changes::{LookUps, TreeRecord, UpdateError};

/// Whether this is the root tree's id.
pub(crate) fn is_root_tree(name: &TreeId) -> bool
    ensures { IsTrue result ↔ (name.now ≡ ROOT_NAME) }
{
    *name == TreeId::root()
}

/// The tree's root afterwards: that of the tree info, or else the old one.
fn root_after(info: &Option<TreeInfo>, looked_up: &TreeRecord) -> Result<NodeId, UpdateError>
    ensures ok { IfOk result (λ root.
        option_map_or (λ i. Some i.root) (option_map info_data info.now) looked_up.now.root ≡ Some root) }
    ensures err { IfErr result (λ e.
        (info.now ≡ None) × (looked_up.now.root ≡ None) × (e ≡ NoFirstTreeInfo looked_up.now.id)) }
{
    if let Some(info) = info {
        return Ok(info.root);
    }
    let Some(root) = looked_up.root else {
        return Err(UpdateError::NoFirstTreeInfo(looked_up.id));
    };
    Ok(root)
}

/// The tree's index afterwards: the old one, or else the next one after those of the known ids.
fn index_after(looked_up: &TreeRecord, known: u32) -> Result<u32, UpdateError>
    ensures ok { IfOk result (λ index. index ≡ unwrap_or looked_up.now.index known) }
    ensures room { OnOk result (looked_up.now.index ≡ None → known < 2 ^ 32 - 1) }
    ensures err { IfErr result (λ e.
        (looked_up.now.index ≡ None) × (2 ^ 32 - 1 ≤ known) × (e ≡ IndexesUsedUp)) }
{
    if let Some(index) = looked_up.index {
        return Ok(index);
    }
    if known == u32::MAX {
        return Err(UpdateError::IndexesUsedUp);
    }
    Ok(known)
}

/// The root that the first update declares for the root tree.
fn first_root(update: &TreeUpdate) -> Result<NodeId, UpdateError>
    ensures ok { IfOk result (λ root.
        (option_map (λ i. i.root) update.now.tree ≡ Some root) × (update.now.tree_id ≡ ROOT_NAME)) }
    ensures err { IfErr result (λ e.
        ((update.now.tree ≡ None) × (e ≡ MissingTreeInfo))
        ⊎ ((update.now.tree_id ≢ ROOT_NAME) × (e ≡ NotRootTree))) }
{
    let Some(info) = &update.tree else {
        return Err(UpdateError::MissingTreeInfo);
    };
    if is_root_tree(&update.tree_id) {
        return Ok(info.root);
    }
    Err(UpdateError::NotRootTree)
}

/// Whether this is the record of the root tree, which has the first index.
pub(crate) fn has_first_index(looked_up: &TreeRecord) -> bool
    ensures { IsTrue result ↔ (looked_up.now.index ≡ Some 0) }
{
    looked_up.index == Some(0)
}

/// Checks that a later update is for the root tree or for one that a node grafts, given the old record of its tree.
fn open_later<L: LookUps>(
    look_ups: &L,
    update: &TreeUpdate,
    looked_up: &TreeRecord,
) -> Result<Opening, UpdateError>
    requires later { ¬ (IsFirst (L.world look_ups.now)) }
    requires found { IsOfName (L.world look_ups.now) update.now.tree_id looked_up.now }
    ensures ok { IfOk result (λ o. HoldsOpened (L.world look_ups.now) (update_data update.now) (opened_as looked_up.now o)) }
    ensures err { IfErr result (λ e. IsRefusal (L.world look_ups.now) (update_data update.now) e) }
{
    let known = look_ups.known_trees();
    if looked_up.graft.is_none() {
        if !has_first_index(looked_up) {
            return Err(UpdateError::NoGraft(update.tree_id));
        }
    }
    let root = root_after(&update.tree, looked_up)?;
    let index = index_after(looked_up, known)?;
    Ok(Opening {
        index,
        root,
        is_first: false,
    })
}

/// The old record of the update's tree, or an empty one if there isn't one.
pub(crate) fn old_record<L: LookUps>(look_ups: &mut L, update: &TreeUpdate) -> TreeRecord
    ensures looks { LooksUpTo L.world L.asked look_ups.old 1 look_ups.new }
    ensures record { IsOfName (L.world look_ups.old) update.now.tree_id result }
{
    if look_ups.known_trees() > 0 {
        return tree_record(look_ups, &update.tree_id);
    }
    no_record(update.tree_id)
}

/// What becomes of the update's tree, given its old record.
pub(crate) fn open_tree<L: LookUps>(
    look_ups: &L,
    update: &TreeUpdate,
    looked_up: &TreeRecord,
) -> Result<Opening, UpdateError>
    requires found { IsOfName (L.world look_ups.now) update.now.tree_id looked_up.now }
    ensures old { IsOld (L.world look_ups.now) }
    ensures ok { IfOk result (λ o. HoldsOpened (L.world look_ups.now) (update_data update.now) (opened_as looked_up.now o)) }
    ensures err { IfErr result (λ e. IsRefusal (L.world look_ups.now) (update_data update.now) e) }
{
    if look_ups.known_trees() > 0 {
        return open_later(look_ups, update, looked_up);
    }
    let root = first_root(update)?;
    Ok(Opening {
        index: 0,
        root,
        is_first: true,
    })
}
