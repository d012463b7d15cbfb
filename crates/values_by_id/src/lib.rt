//! Values by id: in rows of cells for the small ids of each tree, with a list and a trie for all others; and in sorted lists.
#![tactic(auto)]

mod index;
mod others;
mod room;
mod row;
mod rows;
mod sorted;
mod trie;

pub use index::IdIndex;
pub use sorted::list::RowList;
pub use sorted::rows::SortedRows;
