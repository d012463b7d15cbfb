//! A tree that is fed the lines of a script, or sent updates that are built call by call, keeps what they changed as plain records, and
//! is read by the ids of its nodes. Other languages call it.
#![tactic(auto)]

mod computed;
mod events;
mod fed_lines;
mod feeding;
mod fields;
mod flags;
mod lists;
mod looks;
mod reads;
mod shown;
mod spans;
mod spots;
mod stage;
mod states;
mod styles;
mod text_places;
mod updating;
mod whole;

pub use computed::{Count, Relative};
pub use events::{Event, EventKind};
pub use feeding::{FedTree, FeedError};
pub use flags::Flag;
pub use lists::Listed;
pub use spans::{TextSpan, TextUnit};
pub use spots::{Spot, SpotTest, Wanted};
pub use styles::{Style, StyleValue};
pub use text_places::TextPlace;
pub use updating::BuildError;
