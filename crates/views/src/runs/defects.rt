//! Why the runs of a node make no text.
ghost use Rattle.std.specs.Prelude.{Some};
ghost use Rattle.views.specs.DefectTexts.{run_defect_text, defect_text};

use model::FullNodeId;
use schema::NodeId;
use std::error::Error;
use std::fmt;

/// A rule that a run of a text breaks. A run that breaks several is said to break the first of them in this order.
#[derive(Clone, Copy, Debug, PartialEq, Eq)]
pub enum RunDefect {
    /// Its `previous_on_line` is this node, which isn't the run before it.
    PreviousLink(NodeId),
    /// Its `previous_on_line` is the run before it, which has no `next_on_line`.
    PreviousUnanswered,
    /// It isn't in the tree of the text's node.
    Tree,
    /// Its character lengths don't cut its value into whole characters with nothing left over.
    CharacterLengths,
    /// Its word starts don't rise, or one of them isn't below its number of characters.
    WordStarts,
    /// Its character positions aren't one for each character; of a password, they are none or too many.
    CharacterPositions,
    /// Its character widths aren't one for each character; of a password, they are none or too many.
    CharacterWidths,
    /// With it, the values together have more than `usize::MAX` bytes.
    TooLong,
    /// It has no character, and another run follows.
    Empty,
    /// Its `next_on_line` is this node, which isn't the next run. Mostly it leads out of the text.
    NextLink(NodeId),
    /// Its `next_on_line` is the next run, which has no `previous_on_line`.
    NextUnanswered,
}

/// Why the runs of a node make no text.
#[derive(Clone, Copy, Debug, PartialEq, Eq)]
pub enum TextDefect {
    /// The node's role holds no text.
    Role,
    /// This run is the first in the order of the tree that breaks a rule, and this is the first rule that it breaks.
    Run { id: FullNodeId, defect: RunDefect },
}

/// Prints which rule the run breaks, in words.
impl fmt::Display for RunDefect {
    ghost output = { λ defect. Some (run_defect_text defect) };

    fn fmt<W: fmt::Write>(&self, f: &mut fmt::Formatter<W>) -> fmt::Result {
        match *self {
            RunDefect::PreviousLink(node) => write!(
                f,
                "its previous_on_line is {node}, which is not the run before it"
            ),
            RunDefect::PreviousUnanswered => f.write_str(
                "its previous_on_line is the run before it, which has no next_on_line",
            ),
            RunDefect::Tree => f.write_str("it is in another tree"),
            RunDefect::CharacterLengths => {
                f.write_str("its character lengths do not cut its value into characters")
            }
            RunDefect::WordStarts => {
                f.write_str("its word starts do not rise, or go beyond its characters")
            }
            RunDefect::CharacterPositions => {
                f.write_str("its character positions are not one for each character")
            }
            RunDefect::CharacterWidths => {
                f.write_str("its character widths are not one for each character")
            }
            RunDefect::TooLong => f.write_str("with it, the text is too long"),
            RunDefect::Empty => f.write_str("it is empty, and another run follows"),
            RunDefect::NextLink(node) => {
                write!(f, "its next_on_line is {node}, which is not the next run")
            }
            RunDefect::NextUnanswered => f.write_str(
                "its next_on_line is the next run, which has no previous_on_line",
            ),
        }
    }
}

/// Prints why the runs make no text, with the number of the run that it names.
impl fmt::Display for TextDefect {
    ghost output = { λ defect. Some (defect_text defect) };

    fn fmt<W: fmt::Write>(&self, f: &mut fmt::Formatter<W>) -> fmt::Result {
        match *self {
            TextDefect::Role => f.write_str("its role holds no text"),
            TextDefect::Run { id, defect } => {
                let node = id.node;
                write!(f, "run {node}: {defect}")
            }
        }
    }
}

impl Error for RunDefect {}

impl Error for TextDefect {}
