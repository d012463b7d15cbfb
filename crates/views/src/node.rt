//! Views of nodes.
mod actions;
mod fields;
pub mod geometry;
mod inherited;
pub(crate) mod kin;
mod labels;
pub mod masking;
mod node_reads;
mod node_ref;
mod roles;
pub mod run_texts;
mod upward;
mod values;

pub use model::FullNodeId;
pub use node_ref::NodeRef;
