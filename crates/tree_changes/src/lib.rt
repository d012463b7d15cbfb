//! What the store, the planner and the tree share: look-ups, the decision on an update, and why an update is refused.
#![tactic(auto)]

mod decision;
mod error;
mod look_ups;

pub use decision::{Decision, NodeChange};
pub use error::UpdateError;
pub use look_ups::{LookUps, NodeRecord, TreeRecord};
pub use model::PlanEvent;

/// A toolkit's name and version.
pub type ToolkitTexts = (Option<String>, Option<String>);
