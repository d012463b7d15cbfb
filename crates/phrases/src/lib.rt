//! The words in which a screen reader says what is in an interface: roles, states, numbers, edits of a text, and their
//! order.
#![tactic(auto)]

mod again;
mod differences;
mod edits;
mod focus;
pub mod laws;
mod numbers;
mod quoted;
mod roles;
mod sayings;
mod states;
mod voice;

pub use again::news;
pub use differences::{Change, difference};
pub use edits::edit;
pub use focus::{Focus, Place};
pub use numbers::Thousandths;
pub use quoted::Quoted;
pub use roles::{role_word, toggling_of};
pub use sayings::{Dialog, Group, Landmark, Listing, Saying};
pub use states::{
    State, Toggling, expanded_change, expanded_word, flag_change, selected_change, selected_word,
    switched_word, toggled_change, where_it_is,
};
pub use voice::Voice;
