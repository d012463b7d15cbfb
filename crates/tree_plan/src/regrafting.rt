//! Trees that get another graft.
ghost use Rattle.std.specs.Prelude.{◌≡◌, ◌≤◌, ◌+◌, ◌++◌, ◌∷◌, [], IfOk, IfErr, OnOk, None, ◌↔◌, ◌⊎◌, IsTrue, IsSome, length, MatchOption};
ghost use Rattle.tree_changes.specs.declared.error.UpdateError.TheVariants.{Memory, GraftedTwice};
ghost use Rattle.model.specs.Surgery.{IsClimbed};
ghost use Rattle.tree_changes.specs.Refusals.{IsRefusal};
ghost use Rattle.tree_changes.specs.LookUps.{raised_count, IsRaisedUpTo};
ghost use Rattle.tree_plan.specs.Passes.{at, at_name, has, HoldsRemoved, HoldsRegrafted};
ghost use Rattle.tree_plan.specs.Cases.{IsCase, sent};
ghost use Rattle.tree_plan.specs.Regrafts.{HasRival, HasNoRival, MovesIn, PutsRoot, grafted_record};

use crate::passes::{Case, Compared, Removed};
use crate::records::tree_record;
use model::FullNodeId;
use schema::TreeId;
use std::collections::BTreeMap;
use tree_changes::{LookUps, TreeRecord, UpdateError};

/// The trees that get another graft.
#[derive(Drop)]
pub(crate) struct Regrafted {
    /// Their records afterwards.
    pub(crate) trees: Vec<TreeRecord>,
    /// The roots of those that are present, with their new grafts.
    pub(crate) moved_in: BTreeMap<FullNodeId, FullNodeId>,
}

/// Sets the new graft of each tree that a node of the update gains. The old graft has to be removed or to be in the
/// update.
pub(crate) fn regraft<L: LookUps>(
    look_ups: &mut L,
    case: &Case<'_>,
    removed: &Removed,
) -> Result<Regrafted, UpdateError>
    requires case { IsCase (L.world look_ups.old) case.now }
    requires removal { HoldsRemoved (L.world look_ups.old) (sent case.now) removed.now }
    requires climbed { IsClimbed (L.world look_ups.old) (sent case.now) }
    ensures world { L.world look_ups.new ≡ L.world look_ups.old }
    ensures err { IfErr result (λ e. IsRefusal (L.world look_ups.old) (sent case.now) e) }
    ensures ok { IfOk result (λ r. HoldsRegrafted (L.world look_ups.old) (sent case.now) r.trees.items r.moved_in) }
    ensures trees { IfOk result (λ r. length r.trees.items ≤ length case.now.compared.now.gained.items) }
    ensures counts { OnOk result
        (IsRaisedUpTo (L.asked look_ups.old) (length case.now.compared.now.gained.items) (L.asked look_ups.new)) }
{
    let mut regrafted = Regrafted {
        trees: Vec::new(case.alloc),
        moved_in: BTreeMap::new(case.alloc),
    };
    for name in case.compared.gained.iter() {
        regrafted.add(look_ups, case.compared, removed, name)?;
    }
    Ok(regrafted)
}

/// Whether the tree is grafted by no node, by one that is removed, or by one of the update.
fn is_free(graft: Option<FullNodeId>, compared: &Compared, removed: &Removed) -> bool
    ensures { MatchOption graft (IsTrue result) (λ g.
        IsTrue result ↔ (has removed.now.gone g ⊎ IsSome (at compared.now.named g))) }
{
    let Some(graft) = graft else {
        return true;
    };
    removed.gone.contains(&graft) || compared.named.contains_key(&graft)
}

impl Regrafted {
    /// Sets the new graft of this tree, which a node of the update gains.
    fn add<L: LookUps>(
        &mut self,
        look_ups: &mut L,
        compared: &Compared,
        removed: &Removed,
        name: &TreeId,
    ) -> Result<(), UpdateError>
        requires { IsSome (at_name compared.now.grafted name.now) }
        ensures world { L.world look_ups.new ≡ L.world look_ups.old }
        ensures counts { L.asked look_ups.new ≡ raised_count (L.asked look_ups.old) }
        ensures err { IfErr result (λ e. (e ≡ Memory)
            ⊎ ((e ≡ GraftedTwice name.now) × HasRival (L.world look_ups.old) compared.now removed.now name.now)) }
        ensures free { OnOk result (HasNoRival (L.world look_ups.old) compared.now removed.now name.now) }
        ensures trees { OnOk result (self.new.trees.items
            ≡ self.old.trees.items ++ grafted_record (L.world look_ups.old) compared.now name.now ∷ []) }
        ensures moved_in { OnOk result (let w = L.world look_ups.old in
            MovesIn w compared.now name.now self.old.moved_in self.new.moved_in) }
    {
        let old = tree_record(look_ups, name);
        if !is_free(old.graft, compared, removed) {
            return Err(UpdateError::GraftedTwice(*name));
        }
        let graft = compared.grafted.get(name).copied();
        let record = TreeRecord { graft, ..old };
        self.move_in(&record)?;
        self.trees.push(record)?;
        Ok(())
    }

    /// Moves the root of a tree, if it is present, below the tree's graft.
    fn move_in(&mut self, after: &TreeRecord) -> Result<(), UpdateError>
        ensures trees { self.new.trees ≡ self.old.trees }
        ensures err { IfErr result (λ e. e ≡ Memory) }
        ensures absent { OnOk result (after.now.index ≡ None → self.new ≡ self.old) }
        ensures rootless { OnOk result (after.now.root ≡ None → self.new ≡ self.old) }
        ensures present { OnOk result (PutsRoot after.now self.old.moved_in self.new.moved_in) }
    {
        let Some(tree) = after.index else {
            return Ok(());
        };
        let Some(node) = after.root else {
            return Ok(());
        };
        let Some(graft) = after.graft else {
            return Ok(());
        };
        self.moved_in.insert(FullNodeId { tree, node }, graft)?;
        Ok(())
    }
}
