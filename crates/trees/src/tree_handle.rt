//! A tree, and its updates.
ghost use Rattle.std.specs.Prelude.{◌≡◌, ◌≤◌, ◌+◌, List, OnOk, IfOk, IfErr};
ghost use Rattle.schema.specs.UpdateData.{update_data};
ghost use Rattle.model.specs.Events.{Event, Told};
ghost use Rattle.model.specs.Run.{ToUpdate, ToHostFocus, Accepted, Begins, Does};
ghost use Rattle.model.specs.State.{empty_world};
ghost use Rattle.model.specs.Work.{Work, IsWorkOf, allowance};
ghost use Rattle.tree_changes.specs.Refusals.{IsRefusal};
ghost use Rattle.tree_changes.specs.declared.error.UpdateError.TheVariants.{Memory};
ghost use Rattle.trees.specs.Counts.{CountsLookUps};
ghost use Rattle.trees.specs.Prepared.{IsPreparedFor, IsPreparedForHost};
ghost use Rattle.trees.specs.Replies.{reply_of};

use crate::{Prepared, Refused, Steps, TreeChangeHandler, TreeState};
use schema::TreeUpdate;
use std::alloc::Global;
use std::marker::Model;
use tree_changes::UpdateError;
use tree_plan::{Spare, decide};
use tree_store::{NoRecords, Store};

/// The accessibility tree of an interface: its root tree, with the trees grafted into it. It changes by updates.
///
/// It keeps the lists of the last short decision, emptied, for the next one: at most three, each with room for at most 64 entries.
#[derive(Drop)]
pub struct Tree {
    pub(crate) alloc: Global,
    pub(crate) state: TreeState,
    pub(crate) spare: Spare,
}

impl Model for Tree {
    ghost use Rattle.model.specs.World.{World};
    ghost use Rattle.model.specs.Codes.{coded_world};

    ghost Value = { World };

    ghost coded = { coded_world };

    ghost view = { λ a. a.state };
}

impl Tree {
    /// Makes a tree from its first update. No events are reported for it.
    ///
    /// # Errors
    ///
    /// Returns the rule that the update breaks: it has no tree info or is for another tree than the root tree, or it
    /// breaks another rule; or `UpdateError::Memory` if memory runs out.
    pub fn new(
        alloc: Global,
        update: TreeUpdate,
        is_host_focused: bool,
    ) -> Result<Tree, UpdateError>
        ensures ok { IfOk result (λ tree. Begins is_host_focused (update_data update) tree) }
        ensures err { IfErr result (λ e. IsRefusal (empty_world is_host_focused) (update_data update) e) }
    {
        let mut look_ups = NoRecords::new(is_host_focused);
        let decision = decide(alloc, &mut look_ups, &update)?;
        let store = Store::first(alloc, update, decision, is_host_focused)?;
        Ok(Tree {
            alloc,
            state: TreeState { store },
            spare: Spare::new(alloc),
        })
    }

    /// The current state.
    pub fn state(&self) -> &TreeState
        ensures { result.now ≡ self.now }
    {
        &self.state
    }

    /// Applies an update and notifies the handler of each change, in order. All memory is allocated before the handler
    /// is called first.
    ///
    /// # Errors
    ///
    /// Returns the rule that the update, or the tree that it would leave, breaks; or `UpdateError::Memory` if memory
    /// runs out. The tree is then unchanged and the handler was not called.
    pub fn update_and_process_changes<H: TreeChangeHandler>(
        &mut self,
        update: TreeUpdate,
        handler: &mut H,
    ) -> Result<(), UpdateError>
        ensures { (told : List Event)
            × Does self.old (ToUpdate (update_data update)) self.new told (reply_of result)
            × Told H.steps handler.old told handler.new }
    {
        let mut steps = Steps::new();
        self.update_and_process_changes_counted(update, handler, &mut steps)
    }

    /// Like `update_and_process_changes`, and counts the look-ups of records of nodes and trees. The number for an
    /// accepted update is bounded by what the update touches, however large the trees are; it is at least one for each
    /// node of the update and two for each event.
    ///
    /// # Errors
    ///
    /// As for [`Tree::update_and_process_changes`]. The count is no lower than before; how many look-ups a refused
    /// update takes is not specified.
    pub fn update_and_process_changes_counted<H: TreeChangeHandler>(
        &mut self,
        update: TreeUpdate,
        handler: &mut H,
        steps: &mut Steps,
    ) -> Result<(), UpdateError>
        ensures does { (told : List Event)
            × Does self.old (ToUpdate (update_data update)) self.new told (reply_of result)
            × Told H.steps handler.old told handler.new }
        ensures steps { OnOk result ((work : Work)
            → IsWorkOf self.old (update_data update) self.new work
            → steps.new ≤ steps.old + allowance work) }
        ensures counted { let u = update_data update in
            OnOk result (CountsLookUps self.old u self.new steps.old steps.new) }
        ensures kept { steps.old ≤ steps.new }
    {
        let decision = self
            .state
            .decide(self.alloc, &update, steps, &mut self.spare)?;
        self.state
            .apply(update, decision, handler, steps, &mut self.spare)?;
        Ok(())
    }

    /// Prepares an update: decides on it, and reserves all that it needs. Both states can be read then, before it is carried out
    /// or given up.
    ///
    /// # Errors
    ///
    /// Returns the rule that the update, or the tree that it would leave, breaks, or `UpdateError::Memory` if memory runs out;
    /// and the tree, which is unchanged.
    pub fn prepare(self, update: TreeUpdate) -> Result<Prepared, Refused>
        ensures ok { IfOk result (IsPreparedFor self (update_data update)) }
        ensures err { IfErr result (λ r. (r.tree ≡ self) × IsRefusal self (update_data update) r.why) }
    {
        let mut steps = Steps::new();
        self.prepare_counted(update, &mut steps)
    }

    /// Like `prepare`, and counts the look-ups of records of nodes and trees, as
    /// [`Tree::update_and_process_changes_counted`] does but for those of events and changes.
    ///
    /// # Errors
    ///
    /// As for [`Tree::prepare`].
    pub fn prepare_counted(self, update: TreeUpdate, steps: &mut Steps) -> Result<Prepared, Refused>
        ensures ok { IfOk result (IsPreparedFor self (update_data update)) }
        ensures err { IfErr result (λ r. (r.tree ≡ self) × IsRefusal self (update_data update) r.why) }
        ensures steps { IfOk result (λ p. (work : Work) → IsWorkOf self (update_data update) p.after work
            → steps.new ≤ steps.old + allowance work) }
        ensures kept { steps.old ≤ steps.new }
    {
        let Tree {
            alloc,
            state,
            mut spare,
        } = self;
        let decision = match state.decide(alloc, &update, steps, &mut spare) {
            Ok(decision) => decision,
            Err(why) => {
                let tree = Tree {
                    alloc,
                    state,
                    spare,
                };
                return Err(Refused { tree, why });
            }
        };
        match state.prepare(alloc, update, decision, spare) {
            Ok(prepared) => Ok(prepared),
            Err(state) => Err(wanting(alloc, state)),
        }
    }

    /// Prepares a focus of the host. Both states can be read then, before it is carried out or given up.
    ///
    /// # Errors
    ///
    /// Returns `UpdateError::Memory` if memory for the events runs out; and the tree, which is unchanged.
    pub fn prepare_host_focus(self, is_host_focused: bool) -> Result<Prepared, Refused>
        ensures ok { IfOk result (IsPreparedForHost self is_host_focused) }
        ensures err { IfErr result (λ r. (r.tree ≡ self) × (r.why ≡ Memory)) }
    {
        let Tree {
            alloc,
            state,
            spare,
        } = self;
        match state.prepare_host_focus(alloc, is_host_focused, spare) {
            Ok(prepared) => Ok(prepared),
            Err(state) => Err(wanting(alloc, state)),
        }
    }

    /// Sets whether the host is focused. If that changes the focus, the handler is notified that its old node and its
    /// new node were updated and that the focus moved. Does not allocate.
    pub fn update_host_focus_state_and_process_changes<H: TreeChangeHandler>(
        &mut self,
        is_host_focused: bool,
        handler: &mut H,
    )
        ensures { (told : List Event)
            × Does self.old (ToHostFocus is_host_focused) self.new told Accepted
            × Told H.steps handler.old told handler.new }
    {
        self.state.refocus(is_host_focused, handler);
    }
}

/// A tree for which memory ran out.
fn wanting(alloc: Global, state: TreeState) -> Refused
    ensures tree { result.tree ≡ state }
    ensures why { result.why ≡ Memory }
{
    let tree = Tree {
        alloc,
        state,
        spare: Spare::new(alloc),
    };
    Refused {
        tree,
        why: UpdateError::Memory,
    }
}
