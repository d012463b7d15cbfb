//! The library's public face: the names of the Rust crate, re-exported from the crates below. It has no function.
#![tactic(auto)]

/// The common filters.
pub mod filters {
    pub use views::filters::{FilterResult, common_filter, common_filter_with_root_exception};
}

/// Nodes of a state.
pub mod node {
    pub use views::node::{FullNodeId, NodeRef};
}

/// Texts, which consist of runs: positions in them, and ranges of them.
pub mod text {
    pub use texts::{
        NodeText, RangeCharacters, RangeLines, RangeWords, Text, TextIndexes, TextLines,
        TextPlaces, TextPosition, TextRange, TextRangePropertyValue, TextRoot, TextSelections,
        WeakTextRange,
    };
    pub use views::runs::{RunDefect, TextDefect};
}

/// Trees, their states, and the handler of changes.
pub mod tree {
    pub use model::PlanEvent;
    pub use tree_changes::{LookUps, NodeRecord, TreeRecord, UpdateError};
    pub use tree_plan::{Change, Plan, plan_update};
    pub use tree_store::MirrorRecord;
    pub use trees::{
        Mirror, NewState, Prepared, Refused, Steps, Tree, TreeChangeHandler, TreeState,
    };
    pub use views::StateRef;
}

/// Walks over the nodes of a state: over all of them, or over what a filter shows.
pub mod walks {
    pub use views::walks::{
        ByFn, ChildIds, Children, Controls, Descendants, Filter, FilterResult, FilteredChildren,
        FilteredDescendants, FollowingFilteredSiblings, FollowingSiblingNodes, FollowingSiblings,
        Items, LabelledBy, PrecedingFilteredSiblings, PrecedingSiblingNodes, PrecedingSiblings,
    };
}

pub use filters::{FilterResult, common_filter, common_filter_with_root_exception};
pub use node::{FullNodeId, NodeRef};
pub use text::{
    NodeText, RangeCharacters, RangeLines, RangeWords, RunDefect, Text, TextDefect, TextIndexes,
    TextLines, TextPlaces, TextPosition, TextRange, TextRangePropertyValue, TextRoot,
    TextSelections, WeakTextRange,
};
pub use tree::{
    Mirror, NewState, Prepared, Refused, StateRef, Tree, TreeChangeHandler, TreeState, UpdateError,
};
