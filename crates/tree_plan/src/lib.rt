//! The decision on an update, by look-ups of records alone: refused, or accepted with its changes and events.
#![tactic(auto)]

mod climbing;
mod comparing;
mod deciding;
mod focusing;
mod moves;
mod news;
mod opening;
mod passes;
mod plan;
mod planning;
mod records;
mod refusing;
mod regrafting;
mod removing;
mod settling;
mod spare;
mod verdicts;
mod walking;
mod writing;

pub use deciding::{decide, decide_with};
pub use plan::{Change, Plan};
pub use planning::plan_update;
pub use spare::Spare;
