//! Writes HTML: elements and attributes whose texts are escaped, so that nothing in them is read as markup.
#![tactic(auto)]

mod elements;
mod escaping;
pub mod laws;
mod writing;

pub use elements::{write_attribute, write_element};
pub use escaping::{write_escaped, write_escaped_bytes};
pub use writing::{write_bytes, write_number, write_plain};
