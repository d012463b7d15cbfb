//! What callers read of a state: nodes, walks, filters, boxes and hits, labels and values, and the runs of a text.
#![tactic(auto)]

mod dialogs;
pub mod filters;
mod laid;
pub mod node;
pub mod runs;
mod state_ref;
pub mod walks;

pub use laid::Laid;
pub use node::{FullNodeId, NodeRef};
pub use state_ref::StateRef;
