//! The words of a script's lines, and the values that they stand for: numbers, ids, texts in quotes, lists, and names.
//! Reads each, and writes it.
#![tactic(auto)]

pub mod actions;
pub mod called;
mod cutting;
pub mod fits;
mod items;
pub mod name_lists;
pub mod names;
pub mod quoted;
pub mod sides;
pub mod stops;
mod tables;
mod unquoting;
pub mod word_lists;
pub mod words;
pub mod write_parts;
