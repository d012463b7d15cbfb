//! Carrying out commands, one by one.
ghost use Rattle.std.specs.Prelude.{List, ◌≡◌};
ghost use Rattle.schema.specs.UpdateData.{update_data};
ghost use Rattle.model.specs.Events.{Event as ModelEvent, Told};
ghost use Rattle.fed_tree.specs.Carried.{CarriesOut, Updates, Refocuses};

use schema::TreeUpdate;
use script_lines::ScriptCommand;
use std::alloc::Global;
use tree_changes::UpdateError;
use trees::{Tree, TreeChangeHandler};

/// A tree, once there is one, and whether the host has the focus.
#[derive(Drop)]
pub(crate) struct Stage {
    pub(crate) tree: Option<Tree>,
    pub(crate) is_host_focused: bool,
}

impl Stage {
    /// Carries out a command, and notifies the handler of its events. Printing and questions do nothing.
    ///
    /// # Errors
    ///
    /// Returns why an update is refused: the rule that it breaks, or that memory ran out. Nothing has changed then.
    pub(crate) fn carry_out<H: TreeChangeHandler>(
        &mut self,
        alloc: Global,
        command: ScriptCommand,
        handler: &mut H,
    ) -> Result<(), UpdateError>
        ensures { (told : List ModelEvent) × CarriesOut self.old command result self.new told × Told H.steps handler.old told handler.new }
    {
        match command {
            ScriptCommand::Update(update) => self.update(alloc, update, handler),
            ScriptCommand::HostFocus(is_host_focused) => {
                self.refocus(is_host_focused, handler);
                Ok(())
            }
            ScriptCommand::Print | ScriptCommand::Query(_) => Ok(()),
        }
    }

    /// Applies an update: the first one makes the tree.
    #[tactic(auto, using(crate::proofs::Carrying::updates_tree, crate::proofs::Carrying::makes_tree, crate::proofs::Carrying::refuses_first))]
    fn update<H: TreeChangeHandler>(
        &mut self,
        alloc: Global,
        update: TreeUpdate,
        handler: &mut H,
    ) -> Result<(), UpdateError>
        ensures { (told : List ModelEvent) × Updates self.old (update_data update) result self.new told
            × Told H.steps handler.old told handler.new }
    {
        match &mut self.tree {
            Some(tree) => tree.update_and_process_changes(update, handler),
            None => {
                self.tree = Some(Tree::new(alloc, update, self.is_host_focused)?);
                Ok(())
            }
        }
    }

    /// Sets the host's focus. Before there is a tree, it is kept for the tree.
    #[tactic(auto, using(crate::proofs::Carrying::refocuses_tree, crate::proofs::Carrying::refocuses_none))]
    fn refocus<H: TreeChangeHandler>(&mut self, is_host_focused: bool, handler: &mut H)
        ensures { (told : List ModelEvent) × Refocuses self.old is_host_focused self.new told × Told H.steps handler.old told handler.new }
    {
        self.is_host_focused = is_host_focused;
        if let Some(tree) = &mut self.tree {
            tree.update_host_focus_state_and_process_changes(is_host_focused, handler);
        }
    }
}
