//! Queries about a state, as plain values.
use schema::{NodeId, Point, TreeId};

/// The two sides of a place where two runs of a text meet.
#[derive(Clone, Copy, Debug, PartialEq, Eq)]
pub enum Side {
    /// The start of the second run.
    Start,
    /// The end of the first run.
    End,
}

/// A position in the text of a node: a global index in scalars, and the side to take where two runs meet.
#[derive(Clone, Copy, Debug, PartialEq, Eq)]
pub struct At {
    pub index: usize,
    pub side: Side,
}

/// A caret movement, with the name of the call that makes it.
#[derive(Clone, Copy, Debug, PartialEq, Eq)]
pub enum Move {
    ForwardToCharacterStart,
    ForwardToCharacterEnd,
    BackwardToCharacterStart,
    ForwardToFormatStart,
    ForwardToFormatEnd,
    BackwardToFormatStart,
    ForwardToWordStart,
    ForwardToWordEnd,
    BackwardToWordStart,
    ForwardToLineStart,
    ForwardToLineEnd,
    BackwardToLineStart,
    ForwardToParagraphStart,
    ForwardToParagraphEnd,
    BackwardToParagraphStart,
    ForwardToPageStart,
    ForwardToPageEnd,
    DocumentEnd,
    BackwardToPageStart,
    DocumentStart,
}

/// A filter, by name.
#[derive(Clone, Copy, Debug, PartialEq, Eq)]
pub enum NamedFilter {
    /// Includes every node.
    All,
    /// `common_filter`.
    Common,
    /// `common_filter_with_root_exception`.
    CommonWithRoot,
}

/// A node, by its id within its tree and the id of the tree.
pub type NodeName = (NodeId, TreeId);

/// A query. All but `Focus` are about a node, which comes first.
#[derive(Clone, Copy, Debug, PartialEq, Eq)]
pub enum Query {
    Children(NodeName),
    FollowingSiblings(NodeName),
    PrecedingSiblings(NodeName),
    FilteredChildren(NodeName, NamedFilter),
    FollowingFiltered(NodeName, NamedFilter),
    PrecedingFiltered(NodeName, NamedFilter),
    Label(NodeName),
    Value(NodeName),
    /// The size of the node's set and the position in it, by a filter.
    Set(NodeName, NamedFilter),
    /// The text of the node's runs, if they make one.
    Text(NodeName),
    /// The node hit at a point, by a filter.
    Hit(NodeName, Point, NamedFilter),
    /// The focus, as `focus` answers it.
    Focus,
    /// Where a caret movement from a position in the node's text ends.
    Move(NodeName, At, Move),
    /// The indexes of a position in the node's text.
    Indexes(NodeName, At),
    /// The text from one position in the node's text to another.
    RangeText(NodeName, At, At),
}
