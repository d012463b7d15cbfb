//! The names of roles that the library doesn't read and that are sent by a number: a table, from name to number and back.
#![tactic(auto)]

pub mod laws;
mod names;
mod table;

pub use names::{RoleName, name_of, number_named, other_role_named, word_of};
pub use table::{OtherRole, other_roles};
