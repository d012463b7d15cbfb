//! `Tree` and its updates, the handlers that are notified of changes, and `Mirror`, a copy kept from events alone.
#![tactic(auto)]

mod handler;
mod mirror;
mod pair;
mod prepared;
mod refocusing;
mod state;
mod steps;
mod telling;
mod tree_handle;

pub use handler::TreeChangeHandler;
pub use mirror::Mirror;
pub use prepared::{NewState, Prepared, Refused};
pub use state::TreeState;
pub use steps::Steps;
pub use tree_handle::Tree;
