//! Texts made of runs: positions and moves, ranges, lines, selections, boxes and points.
#![tactic(auto)]

mod betweens;
mod boxes;
mod characters;
mod edges;
mod ends;
mod equality;
mod formats;
mod indexes;
mod line_counts;
mod line_ranges;
mod lines;
mod looks;
mod metrics;
mod named;
mod node_texts;
mod offsets;
mod pieces;
mod points;
mod position;
mod predicates;
mod properties;
mod range;
mod range_ends;
mod range_properties;
mod range_walks;
mod text_lines;
mod text_root;
mod traversals;
mod weak;
mod words;

pub use indexes::utf16_count;
pub use node_texts::{NodeText, Text};
pub use position::TextPosition;
pub use range::TextRange;
pub use range_properties::TextRangePropertyValue;
pub use range_walks::{RangeCharacters, RangeLines, RangeWords};
pub use text_lines::TextLines;
pub use text_root::{TextIndexes, TextPlaces, TextRoot, TextSelections};
pub use weak::WeakTextRange;
