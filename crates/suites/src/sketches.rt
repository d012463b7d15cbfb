//! What tests are made of: nodes, updates and texts as plain data, and a handler that records events.

mod fields;
mod growing;
pub mod ids;
pub mod recorder;
pub mod small_texts;
pub mod updates;

pub use fields::{Has, node_of};
pub use growing::{
    BROUGHT, CHANGED, Sent, Sketch, first_update, grown_by, nodes_of, planted, root_of, send, shown,
};
