//! Finding nodes by what a test knows of them: their role, label, text, value or description, or anything else that it can ask of a node.
#![tactic(auto)]

mod by;
mod condition;
mod error;
mod fits;
mod listed;
mod search;

pub use by::By;
pub use condition::{AnyNode, CommonFilter, Condition, Meeting};
pub use error::{Near, QueryError, Sought};
pub use search::Queries;
