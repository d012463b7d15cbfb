//! Walks over the nodes of a state: over all of them, or over those that a filter shows.
mod controls;
mod counts;
mod course;
mod deepest;
mod descendants;
mod descents;
pub(crate) mod ends;
pub mod filter;
mod filtered;
pub mod hits;
pub(crate) mod items;
mod labelled_by;
mod members;
mod mixtures;
mod paths;
mod plain;
mod range;
pub(crate) mod searches;
mod sets;
mod siblings;
pub mod spot;
mod starts;

pub use controls::Controls;
pub use descendants::{Descendants, FilteredDescendants};
pub use filter::{ByFn, Filter};
pub use filtered::{FilteredChildren, FollowingFilteredSiblings, PrecedingFilteredSiblings};
pub use items::Items;
pub use labelled_by::LabelledBy;
pub use model::filters::FilterResult;
pub use plain::{
    ChildIds, Children, FollowingSiblingNodes, FollowingSiblings, PrecedingSiblingNodes,
    PrecedingSiblings,
};
