//! What a page shows of a state of a tree: its outline, its picture, the names of its nodes, and how two states of a node differ.
#![tactic(auto)]

mod again;
mod boxes;
mod carried;
mod clipping;
mod differences;
mod drawn;
mod faults;
mod found;
mod laws;
mod looks;
mod marks;
mod names;
mod nesting;
mod outline;
mod picture;
mod places;
mod rows;
mod secrets;
mod shown_texts;
mod sources;
mod states;
mod words;

pub use again::Kept;
pub use differences::write_differences;
pub use faults::Fault;
pub use found::{Found, View, view_if, view_of};
pub use marks::{Mark, Marks};
pub use names::{write_linked_name, write_name};
pub use states::write_state;
