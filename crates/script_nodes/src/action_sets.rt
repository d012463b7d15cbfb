//! Sets of actions: which actions a node has, or its children.

ghost use Rattle.schema.specs.Actions.{has_action, with_action};
ghost use Rattle.schema.specs.declared.actions.Action.{Action};
ghost use Rattle.script_nodes.specs.ActionLists.{action_numbered, actions_in, chosen, with_actions};
ghost use Rattle.script_nodes.specs.FieldKinds.{actions_at, with_actions_field};
ghost use Rattle.std.specs.Prelude.{ℕ, ◌≡◌, ◌<◌, ◌↔◌, [], ◌++◌, IfOk, OnOk, false};

use crate::field_kinds::ActionsField;
use schema::{Action, Node};
use std::alloc::{AllocError, Global};

/// The number of actions.
pub(crate) const ACTIONS: u16 = 260;

/// The action with this number, from 0: those with names, then the others.
#[tactic(auto, unfolding(crate::specs::ActionLists::action_numbered))]
pub(crate) fn action_numbered(number: u16) -> Action
    requires { number < 260 }
    ensures { result ≡ action_numbered number }
{
    match number {
        0 => Action::Click,
        1 => Action::Focus,
        2 => Action::Increment,
        3 => Action::Decrement,
        _ => Action::Other((number - 4) as u8),
    }
}

impl ActionsField {
    /// Whether an action is in the set.
    fn has(self, action: Action, node: &Node) -> bool
        ensures { result ≡ has_action (actions_at self node.now) action }
    {
        match self {
            ActionsField::Own => node.supports_action(action),
            ActionsField::Children => node.child_supports_action(action),
        }
    }

    /// Adds an action to the set.
    fn add_one(self, action: Action, node: &mut Node)
        ensures value { node.new ≡ with_actions_field self (with_action (actions_at self node.old) action) node.old }
    {
        match self {
            ActionsField::Own => node.add_action(action),
            ActionsField::Children => node.add_child_action(action),
        }
    }

    /// Whether there is any action.
    #[tactic(auto, using(crate::proofs::ActionSteps::no_actions, crate::proofs::ActionSets::none_so_far, crate::proofs::ActionSets::has_none, crate::proofs::ActionSets::nothing_has), unfolding(crate::specs::ActionLists::actions_in))]
    pub(crate) fn is_in(self, node: &Node) -> bool
        ensures none { actions_at self node.now ≡ 0 → result ≡ false }
        ensures exact { (result ≡ false) ↔ (actions_in (actions_at self node.now) ≡ []) }
    {
        for number in 0..ACTIONS {
            if self.has(action_numbered(number), node) {
                return true;
            }
        }
        false
    }

    /// The actions in the set, those with names first.
    #[tactic(auto, using(crate::proofs::ActionSteps::no_actions, crate::proofs::ActionSteps::one_more_action), unfolding(crate::specs::ActionLists::actions_in))]
    pub fn of(self, alloc: Global, node: &Node) -> Result<Vec<Action>, AllocError>
        ensures { IfOk result (λ actions. actions.items ≡ actions_in (actions_at self node.now)) }
    {
        let mut actions = Vec::new(alloc);
        for number in 0..ACTIONS {
            let action = action_numbered(number);
            push_if(action, self.has(action, node), &mut actions)?;
        }
        Ok(actions)
    }

    /// Adds actions.
    pub(crate) fn add(self, actions: &[Action], node: &mut Node)
        ensures { node.new ≡ with_actions_field self (with_actions (actions_at self node.old) actions.now) node.old }
    {
        for action in actions {
            self.add_one(*action, node);
        }
    }
}

/// Adds an action to the list, if it is one of the set.
#[tactic(auto, unfolding(crate::specs::ActionLists::chosen))]
fn push_if(action: Action, is_in: bool, actions: &mut Vec<Action>) -> Result<(), AllocError>
    ensures { OnOk result (actions.new.items ≡ actions.old.items ++ chosen is_in action) }
{
    if is_in {
        actions.push(action)?;
    }
    Ok(())
}
