//! Equality of positions and ranges.
ghost use Rattle.std.specs.Prelude.{◌≡◌, ◌↔◌, IsTrue};
ghost use Rattle.texts.specs.SameKeys.{same_key-laws, same_key-equivalence};
ghost use Rattle.texts.specs.SamePositions.{end_of, key_of, coded_key, same_text_position};
ghost use Rattle.texts.specs.SameRanges.{ends_of, coded_ends, same_text_range};

use crate::edges::Edge;
use crate::position::TextPosition;
use crate::range::TextRange;
use model::is_same;

impl Edge<'_> {
    /// Whether both are at the same index of the same run.
    fn is_at(self, other: Edge<'_>) -> bool
        ensures { IsTrue result ↔ (end_of self.entry ≡ end_of other.entry) }
    {
        is_same(self.spot.member.id, other.spot.member.id) && self.index == other.index
    }
}

impl TextPosition<'_> {
    /// Whether the root, the run and the index agree.
    fn same(self, other: TextPosition<'_>) -> bool
        ensures { IsTrue result ↔ (key_of self.entry ≡ key_of other.entry) }
    {
        is_same(self.run.root().id(), other.run.root().id()) && self.edge().is_at(other.edge())
    }
}

impl PartialEq for TextPosition<'_> {
    ghost eq = { same_text_position };

    ghost laws = { same_key-laws coded_key key_of };

    fn eq(&self, other: &TextPosition<'_>) -> bool
        ensures value { result ≡ same_text_position self.now other.now }
        ensures exact { IsTrue result ↔ (key_of self.now ≡ key_of other.now) }
    {
        (*self).same(*other)
    }
}

impl Eq for TextPosition<'_> {
    ghost laws = { same_key-equivalence coded_key key_of };
}

impl TextRange<'_> {
    /// Whether the root and both ends agree.
    fn same(self, other: TextRange<'_>) -> bool
        ensures { IsTrue result ↔ (ends_of self.entry ≡ ends_of other.entry) }
    {
        is_same(self.root.id(), other.root.id())
            && self.first.is_at(other.first)
            && self.last.is_at(other.last)
    }
}

impl PartialEq for TextRange<'_> {
    ghost eq = { same_text_range };

    ghost laws = { same_key-laws coded_ends ends_of };

    fn eq(&self, other: &TextRange<'_>) -> bool
        ensures value { result ≡ same_text_range self.now other.now }
        ensures exact { IsTrue result ↔ (ends_of self.now ≡ ends_of other.now) }
    {
        (*self).same(*other)
    }
}

impl Eq for TextRange<'_> {
    ghost laws = { same_key-equivalence coded_ends ends_of };
}
