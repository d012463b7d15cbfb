//! Values by id in sorted lists, which are used in place of maps while an update is decided.

pub mod list;
mod order;
pub mod rows;
mod spread;
