//! The ends of ranges, and ranges between positions.
ghost use Rattle.std.specs.Prelude.{◌≡◌, ◌≤◌};
ghost use Rattle.model.specs.FlatText.{offset};
ghost use Rattle.model.specs.Ranges.{range_between, is_degenerate, with_start, with_end, IsRaw};
ghost use Rattle.views.specs.Nodes.{world_at, id_at};
ghost use Rattle.texts.specs.Positions.{IsPositionAt, root_at, node_text, position_text, flat_position};
ghost use Rattle.texts.specs.TextRanges.{IsRangeOf, world_in, root_in, text_in, range_at};

use crate::position::TextPosition;
use crate::range::TextRange;
use model::is_same;
use views::NodeRef;
use views::runs::Run;

impl<'a> TextRange<'a> {
    /// The range from one position to a later one of the same root.
    pub(crate) fn over(start: TextPosition<'a>, end: TextPosition<'a>) -> TextRange<'a>
        requires world { world_at (root_at end) ≡ world_at (root_at start) }
        requires root { id_at (root_at end) ≡ id_at (root_at start) }
        requires order { let t = position_text start in
            offset t (flat_position start) ≤ offset t (flat_position end) }
        ensures same { result.root ≡ root_at start.entry }
        ensures at { range_at result ≡
            record { start = flat_position start.entry; end = flat_position end.entry } }
    {
        TextRange {
            root: start.run.root,
            first: start.edge(),
            last: end.edge(),
        }
    }

    /// The range between two positions of one root in one state. It starts at the one with the lower offset.
    pub(crate) fn in_order(first: TextPosition<'a>, second: TextPosition<'a>) -> TextRange<'a>
        requires world { world_at (root_at second) ≡ world_at (root_at first) }
        requires root { id_at (root_at second) ≡ id_at (root_at first) }
        ensures range { let root = root_at first.entry in
            let p = flat_position first.entry in
            let q = flat_position second.entry in
            IsRangeOf (world_at root) (id_at root) (range_between (node_text root) p q) result }
    {
        if second.order(first).is_lt() {
            return TextRange::over(second, first);
        }
        TextRange::over(first, second)
    }

    /// The node that has the range's text.
    pub fn node(&self) -> NodeRef<'a>
        ensures world { world_at result ≡ world_in self.now }
        ensures root { id_at result ≡ root_in self.now }
    {
        let range = *self;
        range.root
    }

    /// The start of the range.
    pub fn start(&self) -> TextPosition<'a>
        ensures { IsPositionAt self.now.root (range_at self.now).start result }
    {
        let range = *self;
        TextPosition {
            run: Run {
                root: range.root,
                spot: range.first.spot,
            },
            index: range.first.index,
        }
    }

    /// The end of the range.
    pub fn end(&self) -> TextPosition<'a>
        ensures { IsPositionAt self.now.root (range_at self.now).end result }
    {
        let range = *self;
        TextPosition {
            run: Run {
                root: range.root,
                spot: range.last.spot,
            },
            index: range.last.index,
        }
    }

    /// Whether there is no character between the ends. The cost doesn't depend on what is before the range.
    pub fn is_degenerate(&self) -> bool
        ensures { result ≡ is_degenerate (text_in self.now) (range_at self.now) }
    {
        let start = self.start().biased_to_start();
        let end = self.end().biased_to_start();
        is_same(start.run.id(), end.run.id()) && start.index == end.index
    }

    /// Sets the start of the range. Requires a position with the same root in the same state.
    ///
    /// If the end isn't past the position, it moves there too. A range that isn't degenerate then starts on the start
    /// side.
    pub fn set_start(&mut self, position: TextPosition<'a>)
        requires world { world_at (root_at position) ≡ world_in self.old }
        requires root { id_at (root_at position) ≡ root_in self.old }
        ensures { let start = flat_position position.entry in
            IsRangeOf (world_in self.old) (root_in self.old)
            (with_start (text_in self.old) (range_at self.old) start) self.new }
    {
        let end = self.end();
        if position.order(end).is_lt() {
            *self = TextRange::over(position.biased_to_start(), end);
            return;
        }
        *self = TextRange::over(position, position);
    }

    /// Sets the end of the range. Requires a position with the same root in the same state.
    ///
    /// If the start isn't before the position, it moves there too. A range that isn't degenerate then starts on the
    /// start side.
    pub fn set_end(&mut self, position: TextPosition<'a>)
        requires world { world_at (root_at position) ≡ world_in self.old }
        requires root { id_at (root_at position) ≡ root_in self.old }
        ensures { let end = flat_position position.entry in
            IsRangeOf (world_in self.old) (root_in self.old)
            (with_end (text_in self.old) (range_at self.old) end) self.new }
    {
        let start = self.start();
        if start.order(position).is_lt() {
            *self = TextRange::over(start.biased_to_start(), position);
            return;
        }
        *self = TextRange::over(position, position);
    }

    /// The range in the form of an update: a selection from its start to its end.
    pub fn to_text_selection(&self) -> schema::TextSelection
        ensures anchor { IsRaw (text_in self.now) (range_at self.now).start result.anchor }
        ensures focus { IsRaw (text_in self.now) (range_at self.now).end result.focus }
    {
        schema::TextSelection {
            anchor: self.start().to_raw(),
            focus: self.end().to_raw(),
        }
    }
}

impl<'a> TextPosition<'a> {
    /// The range from the position to itself.
    pub fn to_degenerate_range(&self) -> TextRange<'a>
        ensures { IsRangeOf (world_at (root_at self.now)) (id_at (root_at self.now))
            (record { start = flat_position self.now; end = flat_position self.now }) result }
    {
        let position = *self;
        TextRange::over(position, position)
    }
}
