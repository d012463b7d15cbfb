//! Walks over the parts of a range: its characters, its words and its lines. They do not allocate.
ghost use Rattle.std.specs.Prelude.{◌≡◌, ◌<◌, nat_lt, if◌then◌else◌};
ghost use Rattle.std.specs.Iterator.{YieldsFirstBy, item_count};
ghost use Rattle.model.specs.FlatText.{offset, biased_to_start};
ghost use Rattle.texts.specs.Positions.{IsPositionAt, root_at, flat_position};
ghost use Rattle.texts.specs.TextRanges.{IsRangeOf, world_in, root_in, text_in, range_at};
ghost use Rattle.texts.specs.Cuts.{character_ranges, word_ranges, line_ranges};
ghost use Rattle.texts.specs.RangeCuts.{located, parts_of, characters_left, words_left, lines_left};

use crate::position::TextPosition;
use crate::range::TextRange;
use model::is_same;
use std::iter::FusedIterator;

impl<'a> TextRange<'a> {
    /// Whether a position past the start of the range, on its start side, is before the end.
    ///
    /// It only looks at the runs from the start to the position.
    fn has_before_end(self, position: TextPosition<'a>) -> bool
        requires root { root_at position ≡ self.root }
        requires side { biased_to_start (text_in self) (flat_position position) ≡ flat_position position }
        requires past { let t = text_in self in
            offset t (range_at self).start < offset t (flat_position position) }
        ensures { let t = text_in self.entry in
            result ≡ nat_lt (offset t (flat_position position.entry)) (offset t (range_at self.entry).end) }
    {
        let end = self.end().biased_to_start();
        let last = end.run.id();
        let wanted = position.run.id();
        let mut run = self.start().biased_to_start().run;
        while !is_same(run.id(), wanted) {
            if is_same(run.id(), last) {
                return false;
            }
            let Some(next) = run.next() else {
                return false;
            };
            run = next;
        }
        if is_same(run.id(), last) {
            return position.index < end.index;
        }
        true
    }

    /// Cuts the part before a position off the front of the range; all of the range if the position isn't before its
    /// end.
    fn take_to(&mut self, position: TextPosition<'a>) -> TextRange<'a>
        requires root { root_at position ≡ self.old.root }
        requires side { biased_to_start (text_in self.old) (flat_position position) ≡ flat_position position }
        requires past { let t = text_in self.old in
            offset t (range_at self.old).start < offset t (flat_position position) }
        ensures taken { let t = text_in self.old in
            let r = range_at self.old in
            let p = flat_position position.entry in
            let cut = (if nat_lt (offset t p) (offset t r.end) then p else r.end) in
            IsRangeOf (world_in self.old) (root_in self.old) (record { start = r.start; end = cut }) result }
        ensures left { let t = text_in self.old in
            let r = range_at self.old in
            let p = flat_position position.entry in
            let cut = (if nat_lt (offset t p) (offset t r.end) then p else r.end) in
            IsRangeOf (world_in self.old) (root_in self.old) (record { start = cut; end = r.end }) self.new }
    {
        let end = self.end();
        if self.has_before_end(position) {
            let start = self.start();
            *self = TextRange::over(position, end);
            return TextRange::over(start, position);
        }
        let all = *self;
        *self = TextRange::over(end, end);
        all
    }

    /// A walk over the characters of the range, each as a range.
    pub fn characters(&self) -> RangeCharacters<'a>
        ensures { characters_left result ≡ parts_of character_ranges self.now }
    {
        RangeCharacters { left: *self }
    }

    /// A walk over the words of the range, each as a range: the range is cut wherever a word or a paragraph starts.
    /// Text between two words belongs to the first one; text before the first word is a part of its own.
    pub fn words(&self) -> RangeWords<'a>
        ensures { words_left result ≡ parts_of word_ranges self.now }
    {
        RangeWords { left: *self }
    }

    /// A walk over the lines of the range, each as a range: the range is cut wherever a line starts. An empty last line
    /// is left out.
    pub fn lines(&self) -> RangeLines<'a>
        ensures { lines_left result ≡ parts_of line_ranges self.now }
    {
        RangeLines { left: *self }
    }
}

/// A walk over the characters of a range.
#[derive(Drop)]
pub struct RangeCharacters<'a> {
    left: TextRange<'a>,
}

impl<'a> Iterator for RangeCharacters<'a> {
    type Item = TextRange<'a>;

    ghost next_gives = { YieldsFirstBy located characters_left };

    ghost remaining = { item_count characters_left };

    fn next(&mut self) -> Option<TextRange<'a>> {
        if self.left.is_degenerate() {
            return None;
        }
        let next = self.left.start().forward_to_character_start();
        Some(self.left.take_to(next))
    }
}

impl FusedIterator for RangeCharacters<'_> {}

/// A walk over the words of a range.
#[derive(Drop)]
pub struct RangeWords<'a> {
    left: TextRange<'a>,
}

impl<'a> Iterator for RangeWords<'a> {
    type Item = TextRange<'a>;

    ghost next_gives = { YieldsFirstBy located words_left };

    ghost remaining = { item_count words_left };

    fn next(&mut self) -> Option<TextRange<'a>> {
        if self.left.is_degenerate() {
            return None;
        }
        let next = self.left.start().forward_to_word_start();
        Some(self.left.take_to(next))
    }
}

impl FusedIterator for RangeWords<'_> {}

/// A walk over the lines of a range.
#[derive(Drop)]
pub struct RangeLines<'a> {
    left: TextRange<'a>,
}

impl<'a> Iterator for RangeLines<'a> {
    type Item = TextRange<'a>;

    ghost next_gives = { YieldsFirstBy located lines_left };

    ghost remaining = { item_count lines_left };

    fn next(&mut self) -> Option<TextRange<'a>> {
        if self.left.is_degenerate() {
            return None;
        }
        let start = self.left.start().biased_to_start();
        let next = start.forward_to_line_start();
        Some(self.left.take_to(next))
    }
}

impl FusedIterator for RangeLines<'_> {}
