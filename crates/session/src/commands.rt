//! Commands and replies.
use model::{FullNodeId, Query};
use schema::{TextPosition, TreeUpdate};
use tree_changes::UpdateError;

/// A command to a session.
#[derive(Drop)]
pub enum Command {
    /// Applies an update.
    Update(TreeUpdate),
    /// Sets whether the host is focused.
    HostFocus(bool),
    /// Answers a query.
    Query(Query),
}

/// A reply to a command.
#[derive(Debug, PartialEq, Eq, Drop)]
pub enum Reply {
    /// The update was accepted, or the host's focus was set.
    Accepted,
    /// The update was refused and changed nothing.
    Refused(UpdateError),
    Ids(Vec<FullNodeId>),
    Text(Option<String>),
    /// The size of a node's set, and the node's position in it, counted from 0.
    Set {
        size: Option<usize>,
        position: Option<usize>,
    },
    Node(Option<FullNodeId>),
    /// Where a caret movement ends; `None` for a movement by a character past an end of the text.
    Position(Option<TextPosition>),
    /// The global indexes in scalars and in UTF-16 code units, and the index of the line, each counted from 0.
    Indexes {
        usv: usize,
        utf16: usize,
        line: usize,
    },
    /// The node isn't in the state.
    NoNode,
    /// The node has no text, or the index is out of range.
    NotText,
}

/// Memory for a run's replies ran out. The first `done` commands were carried out, each with its reply; the others
/// weren't run.
#[derive(Drop)]
pub struct RunStopped {
    pub done: usize,
    pub replies: Vec<Reply>,
}
