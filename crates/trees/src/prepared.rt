//! A tree that is prepared for a change: the states before and after it are read, and then it is carried out or given up.
use crate::{Tree, TreeState};
use model::PlanEvent;
use schema::TreeUpdate;
use std::alloc::Global;
use std::marker::Model;
use tree_changes::{Decision, UpdateError};
use tree_plan::Spare;
use tree_store::{Overlay, Store};
use views::{Laid, StateRef};

/// What a tree is prepared for.
#[derive(Drop)]
pub(crate) enum Change {
    /// An update, with the decision on it. There is room for what it changes.
    Update {
        update: TreeUpdate,
        decision: Decision,
    },
    /// A focus of the host, with its events.
    HostFocus {
        is_host_focused: bool,
        events: Vec<PlanEvent>,
    },
}

/// A tree, and a change that it is prepared for: an update that is accepted, or a focus of the host. All that the change needs
/// is reserved. Both states can be read, until [`Prepared::commit`] carries it out or [`Prepared::give_up`] doesn't.
#[derive(Drop)]
pub struct Prepared {
    alloc: Global,
    store: Store,
    change: Change,
    spare: Spare,
}

impl Model for Prepared {
    ghost use Rattle.trees.specs.Prepared.{BothStates, coded_both};

    ghost Value = { BothStates };

    ghost coded = { coded_both };

    ghost use Rattle.trees.specs.PreparedChanges.{world_after, events_of, IsPrepared};

    ghost view = { λ a. record { before = a.store.world; after = world_after a.store.world a.change; events = events_of a.change } };

    ghost invariant = { λ a. IsPrepared a.store a.change };
}

/// The state after the change that a tree is prepared for. Views of it are made from it.
#[derive(Clone, Copy)]
pub struct NewState<'a> {
    laid: Laid<'a>,
}

/// Why a tree wasn't prepared for a change, with the tree, which is unchanged.
#[derive(Drop)]
pub struct Refused {
    /// The tree as it was.
    pub tree: Tree,
    /// The rule that the change breaks, or that memory ran out.
    pub why: UpdateError,
}

impl NewState<'_> {
    ghost use Rattle.std.specs.Prelude.{◌≡◌};
    ghost use Rattle.trees.specs.PreparedChanges.{new_world};
    ghost use Rattle.views.specs.ShownWorlds.{world_of};

    /// A view of the state.
    pub fn view(&self) -> StateRef<'_>
        ensures { world_of result ≡ new_world self.now }
    {
        StateRef::of_laid(&self.laid)
    }
}

impl Prepared {
    ghost use Rattle.std.specs.Prelude.{◌≡◌};
    ghost use Rattle.schema.specs.UpdateData.{update_data};
    ghost use Rattle.model.specs.State.{with_host};
    ghost use Rattle.tree_changes.specs.Changes.{overlaid_world};
    ghost use Rattle.tree_changes.specs.Decisions.{IsDecision};
    ghost use Rattle.tree_store.specs.Commits.{IsReadyFor};
    ghost use Rattle.tree_store.specs.StoreViews.{IsTight};
    ghost use Rattle.trees.specs.PreparedChanges.{new_world};
    ghost use Rattle.views.specs.ShownWorlds.{world_of};

    /// A tree that has room for what an update changes.
    pub(crate) fn for_update(
        alloc: Global,
        store: Store,
        update: TreeUpdate,
        decision: Decision,
        spare: Spare,
    ) -> Prepared
        requires ready { IsReadyFor store (update_data update) decision }
        requires decided { IsDecision store.world (update_data update) decision }
        ensures { result ≡ record {
          before = store.world;
          after = overlaid_world store.world (update_data update) decision;
          events = decision.events.items;
        } }
    {
        let change = Change::Update { update, decision };
        Prepared {
            alloc,
            store,
            change,
            spare,
        }
    }

    /// A tree that gets this focus of the host, with these events.
    pub(crate) fn for_host_focus(
        alloc: Global,
        store: Store,
        is_host_focused: bool,
        events: Vec<PlanEvent>,
        spare: Spare,
    ) -> Prepared
        requires { IsTight store }
        ensures { result ≡ record {
          before = store.world;
          after = with_host store.world is_host_focused;
          events = events.items;
        } }
    {
        let change = Change::HostFocus {
            is_host_focused,
            events,
        };
        Prepared {
            alloc,
            store,
            change,
            spare,
        }
    }

    /// A view of the state before the change.
    pub fn old(&self) -> StateRef<'_>
        ensures { world_of result ≡ self.now.before }
    {
        StateRef::new(&self.store)
    }

    /// The state after the change.
    pub fn new(&self) -> NewState<'_>
        ensures { new_world result ≡ self.now.after }
    {
        NewState {
            laid: self.change.laid_over(&self.store),
        }
    }

    /// What a handler is notified of if the change is carried out, in order: exactly the differences between both states.
    pub fn events(&self) -> &[PlanEvent]
        ensures { result.now ≡ self.now.events }
    {
        self.change.events()
    }

    /// Carries out the change: the tree is in the new state. Nothing is allocated.
    pub fn commit(self) -> Tree
        ensures { result ≡ self.after }
    {
        let Prepared {
            alloc,
            mut store,
            change,
            mut spare,
        } = self;
        change.carry_out(&mut store, &mut spare);
        Tree {
            alloc,
            state: TreeState { store },
            spare,
        }
    }

    /// Gives up the change: the tree is in the old state, and what was reserved is released. Nothing is allocated.
    pub fn give_up(self) -> Tree
        ensures { result ≡ self.before }
    {
        let Prepared {
            alloc,
            mut store,
            change,
            mut spare,
        } = self;
        change.give_up(&mut store, &mut spare);
        Tree {
            alloc,
            state: TreeState { store },
            spare,
        }
    }
}

impl Change {
    ghost use Rattle.std.specs.Prelude.{◌≡◌};
    ghost use Rattle.tree_store.specs.StoreViews.{IsTight};
    ghost use Rattle.trees.specs.PreparedChanges.{world_after, events_of, IsPrepared};
    ghost use Rattle.views.specs.ShownWorlds.{world_laid};

    /// The change, laid over the state that is prepared for it.
    #[tactic(auto, using(crate::proofs::Preparing::is_laid, crate::proofs::Preparing::has_slots, crate::proofs::Preparing::shows_update, crate::proofs::Preparing::shows_focus))]
    fn laid_over<'a>(&'a self, store: &'a Store) -> Laid<'a>
        requires { IsPrepared store.now self.now }
        ensures { world_laid result ≡ world_after store.now.world self.now }
    {
        match self {
            Change::Update { update, decision } => Laid::over(store, Overlay { update, decision }),
            Change::HostFocus {
                is_host_focused,
                ..
            } => Laid::with_host_focused(store, *is_host_focused),
        }
    }

    /// What is reported of the change, in order.
    fn events(&self) -> &[PlanEvent]
        ensures { result.now ≡ events_of self.now }
    {
        match self {
            Change::Update { decision, .. } => decision.events.as_slice(),
            Change::HostFocus { events, .. } => events.as_slice(),
        }
    }

    /// Writes the change into the state that is prepared for it, and keeps the lists of its decision.
    #[tactic(auto, using(crate::proofs::Preparing::ready, crate::proofs::Preparing::decided, crate::proofs::Preparing::shows_update, crate::proofs::Preparing::refocused, crate::proofs::Preparing::tight_refocused))]
    fn carry_out(self, store: &mut Store, spare: &mut Spare)
        requires { IsPrepared store.old self }
        ensures world { store.new.world ≡ world_after store.old.world self }
        ensures tight { IsTight store.new }
    {
        match self {
            Change::Update { update, decision } => {
                store.commit(update, &decision);
                spare.keep(decision);
            }
            Change::HostFocus {
                is_host_focused,
                ..
            } => store.set_host_focused(is_host_focused),
        }
    }

    /// Releases what is reserved for the change in the state that is prepared for it, and keeps the lists of its decision.
    #[tactic(auto, using(crate::proofs::Preparing::has_slots, crate::proofs::Preparing::tight_kept))]
    fn give_up(self, store: &mut Store, spare: &mut Spare)
        requires { IsPrepared store.old self }
        ensures world { store.new.world ≡ store.old.world }
        ensures tight { IsTight store.new }
    {
        match self {
            Change::Update { decision, .. } => {
                store.release(&decision);
                spare.keep(decision);
            }
            Change::HostFocus { .. } => {}
        }
    }
}
