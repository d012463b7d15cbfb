//! The text of a line: its columns, its words, the words near to one, and a word as a terminal may show it.
#![tactic(auto)]

mod columns;
mod nearness;
mod shown;
mod starts;
mod words;

pub use columns::column_after;
pub use nearness::nearest;
pub use shown::write_shown;
pub use starts::{first_cut, first_unknown, is_among, name_length};
pub use words::{next_word, part_length, word_at, word_end};
