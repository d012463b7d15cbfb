//! The ends of ranges.
ghost use Rattle.std.specs.Prelude.{◌≡◌};

use crate::position::TextPosition;
use views::walks::spot::Spot;

/// An end of a range: a run with its place, and the number of its characters before the end.
#[derive(Clone, Copy)]
pub(crate) struct Edge<'a> {
    pub(crate) spot: Spot<'a>,
    pub(crate) index: usize,
}

impl<'a> TextPosition<'a> {
    /// The position as an end of a range of the same root.
    pub(crate) fn edge(self) -> Edge<'a>
        ensures spot { result.spot ≡ self.entry.run.spot }
        ensures index { result.index ≡ self.entry.index }
    {
        Edge {
            spot: self.run.spot,
            index: self.index,
        }
    }
}
