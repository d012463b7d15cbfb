//! Whether a text is the one that is sought: all of it or a part, with case and spaces folded or not.
#![tactic(auto)]

mod folding;
mod matches;
mod parts;

pub use matches::Matching;
