//! Runs of commands over a tree: updates, changes of the host's focus, and questions, each with its reply.
#![tactic(auto)]

mod answers;
mod commands;
mod named;
mod session;
mod text_answers;
mod walked;

pub use answers::hit_id;
pub use commands::{Command, Reply, RunStopped};
pub use model::{At, Move, NamedFilter, NodeName, Query, Side};
pub use named::answer_by;
pub use session::Session;
pub use text_answers::{moved, position_of, text_in, text_in_runs};
pub use walked::{
    child_ids, filtered_ids, following_filtered_ids, following_ids, ids_of, preceding_filtered_ids,
    preceding_ids,
};
