//! The answers of filters.

/// A filter's answer for a node. An answer that excludes more is the greater one.
#[derive(Clone, Copy, Debug, PartialEq, Eq, PartialOrd, Ord, Hash)]
pub enum FilterResult {
    /// The node is included.
    Include,
    /// The node is excluded alone; the nodes below it are still looked at.
    ExcludeNode,
    /// The node is excluded with its subtree.
    ExcludeSubtree,
}
