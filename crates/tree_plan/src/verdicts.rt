//! The verdicts on the nodes that an update touches.
ghost use Rattle.std.specs.Prelude.{◌≡◌, ◌↔◌, ◌⊎◌, ◌∷◌, [], option_map, IfOk, IfErr, OnOk, IsTrue, IsSome, Some, None, false};
ghost use Rattle.std.specs.BTreeMap.{keys};
ghost use Rattle.values_by_id.specs.Rows.{Ascends};
ghost use Rattle.std.specs.Map.{keys_of};
ghost use Rattle.std.specs.List.Sorted.{IsStrictlySortedBy};
ghost use Rattle.model.specs.FullIds.{full_cmp};
ghost use Rattle.model.specs.declared.FullNodeId.{FullNodeId};
ghost use Rattle.model.specs.World.{data_of, at_most_one};
ghost use Rattle.model.specs.Surgery.{Gone};
ghost use Rattle.tree_changes.specs.declared.error.UpdateError.TheVariants.{Memory};

use crate::passes::{Arrival, Compared, Named, Opened, Removed};
use crate::regrafting::Regrafted;
use model::{FullNodeId, Place};
use std::alloc::Global;
use tree_changes::UpdateError;
use values_by_id::{RowList, SortedRows};

/// For how many more verdicts there is room than for those on the update's nodes, or on the nodes that entered a spot.
const BESIDE: usize = 256;

/// The verdict on a node that changes, or is reported without a change.
#[derive(Clone, Copy)]
pub(crate) enum Verdict {
    /// The node is new, with the data of this entry.
    Added { place: Option<Place>, entry: usize },
    /// The node has this place and the data of this entry.
    Renewed { place: Option<Place>, entry: usize },
    /// The node has this place and its old data.
    Moved { place: Option<Place> },
    /// The node is unchanged, but reported as updated.
    Told,
    /// The node is removed.
    Removed,
}

/// What the passes found, and the root that is reported even if it is unchanged.
#[derive(Drop)]
pub(crate) struct Found {
    pub(crate) opened: Opened,
    pub(crate) compared: Compared,
    pub(crate) removed: Removed,
    pub(crate) regrafted: Regrafted,
    pub(crate) told: Option<FullNodeId>,
}

impl Found {
    ghost use Rattle.tree_plan.specs.Passes.{at, has};
    ghost use Rattle.tree_plan.specs.Verdicts.{Transition, IsFound, Moves, Becomes, AreSound, Adds};

    /// How many nodes may well change.
    pub(crate) fn expected_count(&self) -> usize
        ensures { Ascends self.now.compared.entered }
    {
        // beside the update's nodes there are often some that moved to another of them, or those that shifted beside a few new ones
        let named = self.compared.named.len();
        let entered = self.compared.entered.len();
        named
            .max(entered)
            .saturating_add(named.min(entered).min(BESIDE))
    }

    /// The place of the named tree's root: at the graft of the tree.
    fn root_place(&self) -> Option<Place>
        ensures { result ≡ option_map (λ graft. (graft, 0)) self.now.opened.record.graft }
    {
        let graft = self.opened.record.graft?;
        Some((graft, 0))
    }

    /// The place of a node that moves, by the spot that it entered.
    #[inline(always)]
    pub(crate) fn place_by(&self, id: FullNodeId, arrival: Option<Arrival>) -> Option<Option<Place>>
        ghost step: { Transition }
        requires found { IsFound step self.now }
        requires arrival { arrival ≡ at self.now.compared.entered id }
        ensures { ¬ (Gone step.old step.update id) ⊎ IsSome result → Moves step id result }
    {
        if let Some(arrival) = arrival {
            let Some(place) = arrival.spot else {
                return Some(self.root_place());
            };
            return Some(Some(place));
        }
        let graft = self.regrafted.moved_in.get(&id)?;
        Some(Some((*graft, 0)))
    }

    /// Whether the node is removed. A node of the update stays, and so does one that moves.
    fn is_removed(&self, id: FullNodeId, entry: Option<Named>, moved: Option<Option<Place>>) -> bool
        ghost step: { Transition }
        requires found { IsFound step self.now }
        requires named { entry ≡ at self.now.compared.named id }
        requires moves { IsSome moved → Moves step id moved }
        ensures { IsTrue result ↔ Gone step.old step.update id }
    {
        if moved.is_some() {
            return false;
        }
        if entry.is_some() {
            return false;
        }
        self.removed.gone.contains(&id)
    }

    /// The verdict on a node whose data is unchanged.
    #[tactic(auto, using(crate::proofs::Becoming::moved_by, crate::proofs::Becoming::told_by, crate::proofs::Becoming::untold_by))]
    fn moved_or_told(&self, id: FullNodeId, moved: Option<Option<Place>>) -> Option<Verdict>
        ghost step: { Transition }
        requires found { IsFound step self.now }
        requires same { data_of step.old id ≡ data_of step.new id }
        requires moves { Moves step id moved }
        ensures { Becomes step id result }
    {
        if let Some(place) = moved {
            return Some(Verdict::Moved { place });
        }
        if self.is_told(id) {
            return Some(Verdict::Told);
        }
        None
    }

    /// Whether the node is reported even if it is unchanged.
    fn is_told(&self, id: FullNodeId) -> bool
        ensures { IsTrue result ↔ (self.now.told ≡ Some id) }
    {
        self.told == Some(id)
    }

    /// The verdict on a node with this entry in the update that moves to this place, if it changes or is reported without a change.
    #[inline(always)]
    pub(crate) fn verdict_by(
        &self,
        id: FullNodeId,
        named: Option<Named>,
        moved: Option<Option<Place>>,
    ) -> Option<Verdict>
        ghost step: { Transition }
        requires found { IsFound step self.now }
        requires named { named ≡ at self.now.compared.named id }
        requires moves { ¬ (Gone step.old step.update id) ⊎ IsSome moved → Moves step id moved }
        ensures { Becomes step id result }
    {
        if self.is_removed(id, named, moved) {
            return Some(Verdict::Removed);
        }
        let Some(named) = named else {
            return self.moved_or_told(id, moved);
        };
        let entry = named.entry;
        let Some(was) = named.was else {
            let place = moved.unwrap_or(None);
            return Some(Verdict::Added { place, entry });
        };
        if named.is_news {
            let place = moved.unwrap_or(was);
            return Some(Verdict::Renewed { place, entry });
        }
        self.moved_or_told(id, moved)
    }

    /// The verdict on a node with this entry in the update, if there is one. What it entered is searched for from `near` on.
    fn verdict(&self, id: FullNodeId, named: Option<Named>, near: &mut usize) -> Option<Verdict>
        ghost step: { Transition }
        requires found { IsFound step self.now }
        requires named { named ≡ at self.now.compared.named id }
        ensures { Becomes step id result }
    {
        let arrival = self.compared.entered.get_near(id, near);
        let moved = self.place_by(id, arrival);
        self.verdict_by(id, named, moved)
    }

    /// Adds the verdict on a node with this entry in the update, if there is a verdict.
    fn judge_as(
        &self,
        id: FullNodeId,
        named: Option<Named>,
        near: &mut usize,
        verdicts: &mut RowList<Verdict>,
    ) -> Result<(), UpdateError>
        ghost step: { Transition }
        requires found { IsFound step self.now }
        requires named { named ≡ at self.now.compared.named id }
        requires sound { AreSound step verdicts.old }
        ensures ok { OnOk result (Adds step (id ∷ []) verdicts.old verdicts.new) }
        ensures err { IfErr result (λ e. e ≡ Memory) }
    {
        let Some(verdict) = self.verdict(id, named, near) else {
            return Ok(());
        };
        verdicts.push(id, verdict)?;
        Ok(())
    }

    /// Adds the verdict on a node, if there is one.
    fn judge(&self, id: FullNodeId, verdicts: &mut RowList<Verdict>) -> Result<(), UpdateError>
        ghost step: { Transition }
        requires found { IsFound step self.now }
        requires sound { AreSound step verdicts.old }
        ensures ok { OnOk result (Adds step (id ∷ []) verdicts.old verdicts.new) }
        ensures err { IfErr result (λ e. e ≡ Memory) }
    {
        let named = self.compared.named.get(&id).copied();
        let mut near = 0;
        self.judge_as(id, named, &mut near, verdicts)
    }

    /// Adds the verdicts on the update's nodes.
    fn judge_named(&self, verdicts: &mut RowList<Verdict>) -> Result<(), UpdateError>
        ghost step: { Transition }
        requires found { IsFound step self.now }
        requires sound { AreSound step verdicts.old }
        ensures ok { OnOk result (Adds step (keys_of self.now.compared.named) verdicts.old verdicts.new) }
        ensures err { IfErr result (λ e. e ≡ Memory) }
    {
        let mut near = 0;
        for item in self.compared.named.entries() {
            self.judge_as(item.0, Some(item.1), &mut near, verdicts)?;
        }
        Ok(())
    }

    /// Adds the verdict on a node that entered a spot, unless it is in the update and was judged there. It is searched for in the update
    /// from `near` on, and among those that entered from `entered` on.
    fn judge_unnamed(
        &self,
        id: FullNodeId,
        near: &mut usize,
        entered: &mut usize,
        verdicts: &mut RowList<Verdict>,
    ) -> Result<(), UpdateError>
        ghost step: { Transition }
        requires found { IsFound step self.now }
        requires sound { AreSound step verdicts.old }
        requires judged { IsSome (at self.now.compared.named id) → Becomes step id (at verdicts.old id) }
        ensures ok { OnOk result (Adds step (id ∷ []) verdicts.old verdicts.new) }
        ensures err { IfErr result (λ e. e ≡ Memory) }
    {
        let named = self.compared.named.get_near(id, near);
        if named.is_some() {
            return Ok(());
        }
        self.judge_as(id, named, entered, verdicts)
    }

    /// Adds the verdicts on the nodes that entered a spot, after those on the update's nodes.
    fn judge_entered(&self, verdicts: &mut RowList<Verdict>) -> Result<(), UpdateError>
        ghost step: { Transition }
        requires found { IsFound step self.now }
        requires sound { AreSound step verdicts.old }
        requires judged { (id : FullNodeId) → IsSome (at self.now.compared.named id) → Becomes step id (at verdicts.old id) }
        ensures ok { OnOk result (Adds step (keys_of self.now.compared.entered) verdicts.old verdicts.new) }
        ensures ordered { Ascends self.now.compared.entered }
        ensures err { IfErr result (λ e. e ≡ Memory) }
    {
        let mut near = 0;
        let mut entered = 0;
        for item in self.compared.entered.entries() {
            self.judge_unnamed(item.0, &mut near, &mut entered, verdicts)?;
        }
        Ok(())
    }

    /// Adds the verdicts on the roots of regrafted trees.
    fn judge_moved_in(&self, verdicts: &mut RowList<Verdict>) -> Result<(), UpdateError>
        ghost step: { Transition }
        requires found { IsFound step self.now }
        requires sound { AreSound step verdicts.old }
        ensures ok { OnOk result (Adds step (keys self.now.regrafted.moved_in) verdicts.old verdicts.new) }
        ensures err { IfErr result (λ e. e ≡ Memory) }
    {
        for id in self.regrafted.moved_in.keys() {
            self.judge(*id, verdicts)?;
        }
        Ok(())
    }

    /// Adds the verdicts on the removed nodes.
    fn judge_gone(&self, verdicts: &mut RowList<Verdict>) -> Result<(), UpdateError>
        ghost step: { Transition }
        requires found { IsFound step self.now }
        requires sound { AreSound step verdicts.old }
        ensures ok { OnOk result (Adds step self.now.removed.gone.keys verdicts.old verdicts.new) }
        ensures ordered { IsStrictlySortedBy full_cmp self.now.removed.gone.keys }
        ensures err { IfErr result (λ e. e ≡ Memory) }
    {
        for id in self.removed.gone.iter() {
            self.judge(*id, verdicts)?;
        }
        Ok(())
    }

    /// Adds the verdict on the root that is reported without a change, if there is one.
    fn judge_told(&self, verdicts: &mut RowList<Verdict>) -> Result<(), UpdateError>
        ghost step: { Transition }
        requires found { IsFound step self.now }
        requires sound { AreSound step verdicts.old }
        ensures ok { OnOk result (Adds step (at_most_one self.now.told) verdicts.old verdicts.new) }
        ensures err { IfErr result (λ e. e ≡ Memory) }
    {
        let Some(root) = self.told else {
            return Ok(());
        };
        self.judge(root, verdicts)?;
        Ok(())
    }

    /// The verdicts on all nodes that change or are reported without a change.
    pub(crate) fn verdicts(&self, alloc: Global) -> Result<SortedRows<Verdict>, UpdateError>
        ghost step: { Transition }
        requires { IsFound step self.now }
        ensures ok { IfOk result (λ vs. (id : FullNodeId) → Becomes step id (at vs id)) }
        ensures entered { OnOk result (Ascends self.now.compared.entered) }
        ensures gone { OnOk result (IsStrictlySortedBy full_cmp self.now.removed.gone.keys) }
        ensures err { IfErr result (λ e. e ≡ Memory) }
    {
        let mut verdicts = RowList::with_capacity(alloc, self.expected_count().saturating_add(1))?;
        self.judge_named(&mut verdicts)?;
        self.judge_entered(&mut verdicts)?;
        self.judge_moved_in(&mut verdicts)?;
        self.judge_gone(&mut verdicts)?;
        self.judge_told(&mut verdicts)?;
        Ok(verdicts.settle_each())
    }
}
