//! Why an update is refused.
ghost use Rattle.std.specs.Prelude.{◌≡◌, Some};
ghost use Rattle.tree_changes.specs.RefusalTexts.{refusal_text};
ghost use Rattle.tree_changes.specs.declared.error.UpdateError.TheVariants.{Memory};

use schema::{NodeId, TreeId};
use std::alloc::{AllocError, AllocFailed};
use std::error::Error;
use std::fmt;

/// The reason why an update was refused. A refused update changes nothing.
#[derive(Clone, Copy, Debug, PartialEq, Eq)]
pub enum UpdateError {
    MissingTreeInfo,
    NotRootTree,
    MissingData(NodeId),
    NotReached(NodeId),
    NamedTwice(NodeId),
    ListedTwice(NodeId),
    RootTreeGrafted(NodeId),
    GraftWithChildren(NodeId),
    GraftedTwice(TreeId),
    NoGraft(TreeId),
    NoFirstTreeInfo(TreeId),
    FocusMissing(NodeId),
    FocusOnEmptyGraft(TreeId),
    IndexesUsedUp,
    Memory,
}

/// Prints why the update is refused, with the node or tree that it names.
impl fmt::Display for UpdateError {
    ghost output = { λ error. Some (refusal_text error) };

    fn fmt<W: fmt::Write>(&self, f: &mut fmt::Formatter<W>) -> fmt::Result {
        match *self {
            UpdateError::MissingTreeInfo => f.write_str("the first update has no tree info"),
            UpdateError::NotRootTree => f.write_str("the first update is not for the root tree"),
            UpdateError::MissingData(node) => write!(f, "no data for node {node}"),
            UpdateError::NotReached(node) => {
                write!(f, "node {node} is named and not reached from the root")
            }
            UpdateError::NamedTwice(node) => write!(f, "node {node} is named twice"),
            UpdateError::ListedTwice(node) => write!(
                f,
                "node {node} is listed at two places, or is the root and listed"
            ),
            UpdateError::RootTreeGrafted(node) => write!(f, "node {node} grafts the root tree"),
            UpdateError::GraftWithChildren(node) => {
                write!(f, "node {node} is a graft and lists children")
            }
            UpdateError::GraftedTwice(tree) => write!(f, "tree {tree} is grafted twice"),
            UpdateError::NoGraft(tree) => write!(f, "no node grafts tree {tree}"),
            UpdateError::NoFirstTreeInfo(tree) => write!(
                f,
                "tree {tree} is not present, and the update has no tree info"
            ),
            UpdateError::FocusMissing(node) => write!(f, "the focus {node} is not reached"),
            UpdateError::FocusOnEmptyGraft(tree) => write!(
                f,
                "the focus is on a graft of tree {tree}, which is not present"
            ),
            UpdateError::IndexesUsedUp => f.write_str("all tree indexes are used up"),
            UpdateError::Memory => f.write_str("out of memory"),
        }
    }
}

impl Error for UpdateError {}

impl From<AllocError> for UpdateError {
    ghost from_gives = { λ _ e. e ≡ Memory };

    fn from(_refused: AllocError) -> UpdateError {
        UpdateError::Memory
    }
}

impl<T: Drop> From<AllocFailed<T>> for UpdateError {
    ghost from_gives = { λ _ e. e ≡ Memory };

    fn from(_refused: AllocFailed<T>) -> UpdateError {
        UpdateError::Memory
    }
}
