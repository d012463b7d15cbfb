//! Sessions and their runs.
ghost use Rattle.std.specs.Prelude.{◌≡◌, IsTrue, List, IfOk, OnErr, IfErr, IfSome, IsSomeAnd};
ghost use Rattle.schema.specs.UpdateData.{update_data};
ghost use Rattle.model.specs.Codes.{coded_world};
ghost use Rattle.model.specs.Events.{Event, Told};
ghost use Rattle.model.specs.Mirror.{AreRecordsOf, MirrorsWhileKept};
ghost use Rattle.model.specs.Run.{Begins, Does, ToUpdate, ToHostFocus, Accepted};
ghost use Rattle.model.specs.State.{empty_world, IsState};
ghost use Rattle.model.specs.Queries.{takes_memory};
ghost use Rattle.model.specs.World.{World};
ghost use Rattle.tree_changes.specs.Refusals.{IsRefusal};
ghost use Rattle.trees.specs.Replies.{reply_of};
ghost use Rattle.session.specs.Replied.{reply_said, IsAnswer, RunsAs, IsStep, IsAlike, IsAlikeStep};

use crate::answers::answer;
use crate::commands::{Command, Reply, RunStopped};
use accesskit_consumer::tree::{Mirror, Tree, TreeChangeHandler};
use model::Query;
use schema::TreeUpdate;
use std::alloc::{AllocError, Global};
use std::marker::Model;
use tree_changes::UpdateError;

/// The reply to an update.
fn said(done: Result<(), UpdateError>) -> Reply
    ensures { reply_said result ≡ reply_of done }
{
    match done {
        Ok(()) => Reply::Accepted,
        Err(error) => Reply::Refused(error),
    }
}

/// A tree with commands to run on it.
#[derive(Drop)]
pub struct Session {
    alloc: Global,
    tree: Tree,
}

impl Model for Session {
    ghost Value = { World };

    ghost coded = { coded_world };

    ghost view = { λ a. a.tree };

    ghost invariant = { λ a. IsState a.tree };
}

impl Session {
    /// Starts a session with the tree's first update. No events are reported for it.
    ///
    /// # Errors
    ///
    /// Returns the error of [`Tree::new`].
    pub fn new(
        alloc: Global,
        update: TreeUpdate,
        is_host_focused: bool,
    ) -> Result<Session, UpdateError>
        ensures ok { IfOk result (λ session. Begins is_host_focused (update_data update) session) }
        ensures err { IfErr result (λ e. IsRefusal (empty_world is_host_focused) (update_data update) e) }
    {
        let tree = Tree::new(alloc, update, is_host_focused)?;
        Ok(Session { alloc, tree })
    }

    /// The current tree.
    pub fn tree(&self) -> &Tree
        ensures { result.now ≡ self.now }
    {
        &self.tree
    }

    /// Applies an update.
    fn update<H: TreeChangeHandler>(&mut self, update: TreeUpdate, handler: &mut H) -> Reply
        ensures { (told : List Event)
            × Does self.old (ToUpdate (update_data update)) self.new told (reply_said result)
            × Told H.steps handler.old told handler.new }
    {
        said(self.tree.update_and_process_changes(update, handler))
    }

    /// Sets whether the host is focused.
    fn refocus<H: TreeChangeHandler>(&mut self, is_focused: bool, handler: &mut H)
        ensures { (told : List Event)
            × Does self.old (ToHostFocus is_focused) self.new told Accepted
            × Told H.steps handler.old told handler.new }
    {
        self.tree
            .update_host_focus_state_and_process_changes(is_focused, handler);
    }

    /// Answers a query.
    fn ask(&self, query: Query) -> Result<Reply, AllocError>
        ensures ok { IfOk result (IsAnswer self.now query) }
        ensures err { OnErr result (IsTrue (takes_memory query)) }
    {
        answer(self.alloc, self.tree.state().view(), query)
    }

    /// Runs one command and returns its reply. The handler is notified of each change of the tree, in order.
    ///
    /// If memory runs out in an update, the update is refused, which is a reply.
    ///
    /// # Errors
    ///
    /// Returns `AllocError` if memory for the answer to a query runs out. Nothing has changed then, and the handler was
    /// not called.
    pub fn step<H: TreeChangeHandler>(
        &mut self,
        command: Command,
        handler: &mut H,
    ) -> Result<Reply, AllocError>
        ensures done { (told : List Event)
            × IsStep self.old command self.new told result
            × Told H.steps handler.old told handler.new }
        ensures alike { (told : List Event) → IsStep self.old command self.new told result → IsAlikeStep self.old command told result }
    {
        match command {
            Command::Update(update) => Ok(self.update(update, handler)),
            Command::HostFocus(is_focused) => {
                self.refocus(is_focused, handler);
                Ok(Reply::Accepted)
            }
            Command::Query(query) => self.ask(query),
        }
    }

    /// Runs commands in order and returns a reply to each. The handler is notified of each change of the tree, in
    /// order.
    ///
    /// If memory runs out in an update, the update is refused and the run goes on. Memory for all replies is reserved
    /// before the first command.
    ///
    /// # Errors
    ///
    /// Returns `RunStopped` if that memory, or the memory for the answer to a query, runs out. The commands before were
    /// carried out and have their replies; the others weren't run.
    #[tactic(auto, using(model::proofs::Alike::Runs::runs_keep_secret))]
    pub fn run<H: TreeChangeHandler>(
        &mut self,
        commands: Vec<Command>,
        handler: &mut H,
    ) -> Result<Vec<Reply>, RunStopped>
        ensures run { (told : List Event)
            × RunsAs self.old commands.items self.new told result
            × Told H.steps handler.old told handler.new }
        ensures alike { (told : List Event) → RunsAs self.old commands.items self.new told result
            → IsAlike self.old commands.items told result }
    {
        let Ok(mut replies) = Vec::with_capacity(self.alloc, commands.len()) else {
            let replies = Vec::new(self.alloc);
            return Err(RunStopped { done: 0, replies });
        };
        for command in commands {
            let Ok(reply) = self.step(command, handler) else {
                let done = replies.len();
                return Err(RunStopped { done, replies });
            };
            replies.push(reply).unwrap();
        }
        Ok(replies)
    }

    /// Like [`Session::run`], with a mirror as the handler: a mirror that matched the tree before the run matches it
    /// after the run, even after a stopped one, unless an allocation of the mirror failed.
    ///
    /// # Errors
    ///
    /// Returns `RunStopped`, as [`Session::run`] does.
    pub fn run_mirrored(
        &mut self,
        commands: Vec<Command>,
        mirror: &mut Mirror,
    ) -> Result<Vec<Reply>, RunStopped>
        ensures run { (told : List Event)
            × RunsAs self.old commands.items self.new told result
            × Told MirrorsWhileKept mirror.old told mirror.new }
        ensures alike { (told : List Event) → RunsAs self.old commands.items self.new told result
            → IsAlike self.old commands.items told result }
        ensures mirrored { IsSomeAnd mirror.old (AreRecordsOf self.old) → IfSome mirror.new (AreRecordsOf self.new) }
    {
        self.run(commands, mirror)
    }
}
