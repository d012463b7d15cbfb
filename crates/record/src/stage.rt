//! Carrying out a script's commands for the tree that they leave.
ghost use Rattle.std.specs.Prelude.{◌≡◌};

use crate::heads::{Head, Heads};
use accesskit_consumer::node::NodeRef;
use accesskit_consumer::tree::{TreeChangeHandler, UpdateError};
use atree_script::{next_number, report_refusal};
use schema::TreeUpdate;
use script_lines::{ScriptCommand, ScriptReader, Stop};
use session::{Command, Reply, Session};
use std::alloc::Global;
use std::io::{BufRead, Write};

/// A handler that does nothing.
#[derive(Clone, Copy)]
struct Silent;

impl TreeChangeHandler for Silent {
    ghost steps = { λ s _ t. t ≡ s };

    fn node_added(&mut self, _node: &NodeRef) {}

    fn node_updated(&mut self, _old_node: &NodeRef, _new_node: &NodeRef) {}

    fn focus_moved(&mut self, _old_node: Option<&NodeRef>, _new_node: Option<&NodeRef>) {}

    fn node_removed(&mut self, _node: &NodeRef) {}
}

/// The tree while a script is carried out, and what its updates said of whole trees.
#[derive(Drop)]
pub(crate) struct Stage {
    alloc: Global,
    /// The session of the first accepted update.
    pub(crate) session: Option<Session>,
    pub(crate) heads: Heads,
    is_host_focused: bool,
    /// The number of updates so far.
    updates: u64,
}

impl Stage {
    /// Before the first command.
    pub(crate) fn new(alloc: Global) -> Stage {
        Stage {
            alloc,
            session: None,
            heads: Heads::new(alloc),
            is_host_focused: false,
            updates: 0,
        }
    }

    /// Carries out all commands. Refused updates are reported, each by its line and its number among the updates.
    pub(crate) fn play<R: BufRead, E: Write>(
        &mut self,
        script: &mut ScriptReader,
        input: &mut R,
        errors: &mut E,
    ) -> Result<(), Stop> {
        for _ in 0..u64::MAX {
            let Some(command) = script.next_command(input)? else {
                break;
            };
            self.carry_out(script.line_number(), command, errors)?;
        }
        Ok(())
    }

    /// Carries out a command, which ends on this line. A question changes nothing.
    fn carry_out<E: Write>(
        &mut self,
        line: u64,
        command: ScriptCommand,
        errors: &mut E,
    ) -> Result<(), Stop> {
        match command {
            ScriptCommand::Update(update) => self.send(line, update, errors),
            ScriptCommand::HostFocus(is_host_focused) => self.set_host_focus(is_host_focused),
            ScriptCommand::Print | ScriptCommand::Query(_) => Ok(()),
        }
    }

    /// Sends an update, and notes what it says of its tree, or reports why it is refused.
    fn send<E: Write>(
        &mut self,
        line: u64,
        update: TreeUpdate,
        errors: &mut E,
    ) -> Result<(), Stop> {
        self.updates = next_number(self.updates);
        let head = Head::of(self.alloc, &update)?;
        match self.apply(update) {
            Ok(()) => {
                self.heads.note(head)?;
                Ok(())
            }
            Err(refusal) => report_refusal(self.updates, line, refusal, errors),
        }
    }

    /// Applies an update: the first one makes the tree.
    fn apply(&mut self, update: TreeUpdate) -> Result<(), UpdateError> {
        match &mut self.session {
            Some(session) => apply_to(session, update),
            None => self.begin(update),
        }
    }

    /// Makes the tree by its first update.
    fn begin(&mut self, update: TreeUpdate) -> Result<(), UpdateError> {
        let session = Session::new(self.alloc, update, self.is_host_focused)?;
        self.session = Some(session);
        Ok(())
    }

    /// Sets whether the host is focused. Before there is a tree, it is kept for the tree.
    fn set_host_focus(&mut self, is_host_focused: bool) -> Result<(), Stop> {
        self.is_host_focused = is_host_focused;
        if let Some(session) = &mut self.session {
            session.step(Command::HostFocus(is_host_focused), &mut Silent)?;
        }
        Ok(())
    }
}

/// Applies an update to the tree that there is.
fn apply_to(session: &mut Session, update: TreeUpdate) -> Result<(), UpdateError> {
    let reply = session.step(Command::Update(update), &mut Silent)?;
    match &reply {
        Reply::Refused(refusal) => Err(*refusal),
        _ => Ok(()),
    }
}
