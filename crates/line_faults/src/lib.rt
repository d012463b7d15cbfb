//! Why a line of a script is bad: which word of it, and the reason, as data and as a message.
//!
//! The reader of a script only says that a line is bad. This says why, of a line that the reader has refused.
#![tactic(auto)]

mod cutting;
mod explaining;
mod fields;
mod heads;
mod messages;
mod names;
mod phrases;
mod reasons;
mod values;
mod word_checks;

pub use explaining::{explain, input_ended};
pub use messages::{column, suggestion, write_fault};
pub use names::role_names;
pub use reasons::{FieldSet, Form, LineFault, NumberRange, OtherReason, Reason, WordSet};
