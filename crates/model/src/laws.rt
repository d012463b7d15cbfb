//! Laws of the definitions: the contract of each function is a law, and its body is empty.

pub mod events;
pub mod examples;
pub mod filters;
pub mod ids;
pub mod lists;
pub mod mixtures;
pub mod queries;
pub mod secrets;
pub mod siblings;
pub mod surgery;
pub mod texts;
pub mod views;
pub mod worlds;
