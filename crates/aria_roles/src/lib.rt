//! The names that roles have in ARIA: a table, and whether a role has a name.
#![tactic(auto)]

mod names;
mod table;

pub use names::{aria_name, has_aria_name};
pub use table::{AriaRole, aria_roles};
