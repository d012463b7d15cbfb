//! The kept state: nodes with their places, trees, names and the focus; changes laid over it, room for them, and the
//! commit.
#![tactic(auto)]

mod cell_list;
mod cells;
mod commit;
mod copies;
mod first;
mod guesses;
mod known;
mod names;
mod overlay;
mod records;
mod release;
mod slots;
mod store;
mod store_look_ups;

pub use copies::MirrorRecord;
pub use overlay::Overlay;
pub use records::{Kept, PresentTree};
pub use store::Store;
pub use store_look_ups::{NoRecords, StoreLookUps};
