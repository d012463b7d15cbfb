//! Which texts, values and labels may show what is typed into a password, and what may be shown of them.
#![tactic(auto)]

mod hiding;
pub mod laws;
mod passwords;
mod showing;

pub use hiding::{hides_label, hides_text, hides_value, is_in_password};
pub use passwords::Passwords;
pub use showing::{shown_label, shown_value};
