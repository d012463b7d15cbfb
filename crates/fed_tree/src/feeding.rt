//! A tree that is fed.
ghost use Rattle.std.specs.Prelude.{◌≡◌, [], None, Some, false, option_map};
ghost use Rattle.fed_tree.specs.Feeding.{CarriesOutAll, Feeds};

use crate::events::{Event, Events};
use crate::fed_lines::{Unread, read_commands};
use crate::stage::Stage;
use schema::TreeUpdate;
use script_lines::ScriptCommand;
use std::alloc::Global;
use std::marker::Model;
use tree_changes::UpdateError;

/// Why not all lines that were fed were carried out.
#[derive(Clone, Copy)]
pub enum FeedError {
    /// The line with this number, counted from 1, is none of a script or is out of place, or the lines end inside an update.
    /// No command was carried out.
    BadLine(u64),
    /// An update was refused, after so many commands that were carried out, and changed nothing. The commands after it weren't
    /// carried out.
    Refused { done: usize, why: UpdateError },
    /// Memory ran out after so many commands that were carried out. The others weren't. If it ran out for the events of the last
    /// of these commands, the events are lost: see [`FedTree::events`].
    Memory { done: usize },
}

/// A tree, once there is one, with what the last lines that it was fed changed, or the update that it was sent last; and an update
/// that is begun.
#[derive(Drop)]
pub struct FedTree {
    pub(crate) alloc: Global,
    pub(crate) stage: Stage,
    pub(crate) events: Events,
    pub(crate) begun: Option<TreeUpdate>,
}

impl Model for FedTree {
    ghost use Rattle.std.specs.Prelude.{option_map};
    ghost use Rattle.schema.specs.UpdateData.{update_data};
    ghost use Rattle.fed_tree.specs.Fed.{Fed};
    ghost use Rattle.fed_tree.specs.FedCodes.{coded_fed};

    ghost Value = { Fed };

    ghost coded = { coded_fed };

    ghost view = { λ a. record {
      world = a.stage.tree;
      host = a.stage.is_host_focused;
      events = a.events;
      begun = option_map update_data a.begun;
    } };
}

impl FedTree {
    /// Without a tree yet. The host hasn't the focus.
    pub fn new(alloc: Global) -> FedTree
        ensures { result ≡ record { world = None; host = false; events = Some []; begun = None } }
    {
        FedTree {
            alloc,
            stage: Stage {
                tree: None,
                is_host_focused: false,
            },
            events: Events::new(alloc),
            begun: None,
        }
    }

    /// Carries out the updates and the changes of the host's focus that the lines say; `print` and questions do nothing. All
    /// lines are read before the first command is carried out. The events of earlier lines are forgotten. An update that is begun
    /// stays so.
    ///
    /// # Errors
    ///
    /// Returns `FeedError` if a line is bad, if an update is refused, or if memory runs out.
    #[tactic(auto, using(crate::proofs::Fed::feeds))]
    pub fn feed(&mut self, lines: &[u8]) -> Result<(), FeedError>
        ensures { Feeds self.old lines.now result self.new }
    {
        self.events = Events::new(self.alloc);
        match read_commands(self.alloc, lines) {
            Ok(commands) => carry_out_all(self.alloc, &mut self.stage, &mut self.events, commands),
            Err(Unread::BadLine(number)) => Err(FeedError::BadLine(number)),
            Err(Unread::Memory) => Err(FeedError::Memory { done: 0 }),
        }
    }

    /// What the last lines changed, in order. The update that makes the tree has no events. `None` if memory for them ran out:
    /// then the tree is to be read anew.
    pub fn events(&self) -> Option<&[Event]>
        ensures { option_map (λ events. events.now) result ≡ self.now.events }
    {
        self.events.kept()
    }
}

/// Carries out commands, up to the first that is refused or has no memory.
#[tactic(auto, using(crate::proofs::Carrying::begins, crate::proofs::Carrying::fewer, crate::proofs::Carrying::goes_on, crate::proofs::Carrying::ends_lost, crate::proofs::Carrying::ends_refused, crate::proofs::Carrying::ends_wanting, crate::proofs::Carrying::ends_well))]
fn carry_out_all(
    alloc: Global,
    stage: &mut Stage,
    events: &mut Events,
    commands: Vec<ScriptCommand>,
) -> Result<(), FeedError>
    requires { events.old ≡ Some [] }
    ensures { CarriesOutAll stage.old commands.items result stage.new events.new }
{
    let mut done = 0;
    for command in commands {
        match stage.carry_out(alloc, command, events) {
            Ok(()) => done += 1,
            Err(UpdateError::Memory) => return Err(FeedError::Memory { done }),
            Err(why) => return Err(FeedError::Refused { done, why }),
        }
        if !events.are_whole() {
            return Err(FeedError::Memory { done });
        }
    }
    Ok(())
}
