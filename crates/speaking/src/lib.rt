//! What a screen reader says at each event of a tree: a handler that turns changes into sayings.
#![tactic(auto)]

mod above;
mod carets;
mod changes;
mod dialogs;
mod edits;
mod focus;
mod groups;
mod handler;
mod headers;
mod landmarks;
pub mod laws;
mod levels;
mod live;
mod news;
mod reading;
mod regions;
mod speaker;
mod whole;

pub use speaker::Speaker;
