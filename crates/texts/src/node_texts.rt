//! The text of a node, with calls that have no precondition.
ghost use Rattle.std.specs.Prelude.{◌≡◌, true, Some, None, IfSome, option_map, if◌then◌else◌};
ghost use Rattle.model.specs.TextRuns.{supports_text_ranges};
ghost use Rattle.views.specs.Nodes.{world_at, id_at};
ghost use Rattle.texts.specs.TextRoots.{HasText, HasText-prop};

use crate::ends::{document_end, document_start};
use crate::indexes::{Units, position_from};
use crate::line_ranges::line_range_of;
use crate::named::{nearest_named, position_named};
use crate::points::position_at;
use crate::position::TextPosition;
use crate::range::TextRange;
use crate::text_lines::TextLines;
use schema::Point;
use views::NodeRef;

/// The text of a node's runs. That the runs make a text was checked when this value was made, so its calls have no
/// preconditions.
#[derive(Clone, Copy)]
pub struct Text<'a> {
    root: NodeRef<'a>,
    ghost text: { HasText root } by { HasText-prop root },
}

/// A node that may have a text. Implemented by `NodeRef` alone.
pub trait NodeText<'a> {
    /// The node's text, or `None` if `supports_text_ranges` is `false`. That is checked once, here.
    fn text(&self) -> Option<Text<'a>>;
}

impl<'a> NodeText<'a> for NodeRef<'a> {
    ghost use Rattle.texts.specs.NodeTexts.{root_of};

    fn text(&self) -> Option<Text<'a>>
        ensures { option_map root_of result
            ≡ (if supports_text_ranges (world_at self.now) (id_at self.now) then Some self.now else None) }
    {
        let root = *self;
        if !root.supports_text_ranges() {
            return None;
        }
        Some(Text { root })
    }
}

impl<'a> Text<'a> {
    ghost use Rattle.model.specs.FlatText.{document_start, document_end};
    ghost use Rattle.model.specs.Moves.{position_from_usv, position_from_utf16};
    ghost use Rattle.model.specs.Points.{position_at_point};
    ghost use Rattle.model.specs.Ranges.{document_range, position_named, selection_of, selection, selection_anchor, selection_focus};
    ghost use Rattle.texts.specs.LineWalks.{lines_root};
    ghost use Rattle.texts.specs.NodeTexts.{root_of};
    ghost use Rattle.texts.specs.Positions.{IsPositionAt, root_at, node_text, flat_position};
    ghost use Rattle.texts.specs.TextRanges.{IsRangeOf, range_at};
    ghost use Rattle.texts.specs.FoundRanges.{IsAtFound, IsRangeFound, range_of_line};
    ghost use Rattle.texts.specs.Secrets.{InEachText};

    /// The node that has this text.
    pub fn node(&self) -> NodeRef<'a>
        ensures { result ≡ root_of self.now }
    {
        let text = *self;
        text.root
    }

    /// The start of the text.
    pub fn start(&self) -> TextPosition<'a>
        ensures { IsPositionAt (root_of self.now) document_start result }
    {
        let text = *self;
        document_start(text.root)
    }

    /// The end of the text.
    #[tactic(auto, using(model::proofs::Text::Secrets::one_text))]
    pub fn end(&self) -> TextPosition<'a>
        ensures at { let root = root_of self.now in
            IsPositionAt root (document_end (node_text root)) result }
        ensures secret { InEachText (root_of self.now) (λ t. flat_position result ≡ document_end t) }
    {
        let text = *self;
        document_end(text.root)
    }

    /// The range of the whole text.
    pub fn range(&self) -> TextRange<'a>
        ensures { let root = root_of self.now in
            IsRangeOf (world_at root) (id_at root) (document_range (node_text root)) result }
    {
        let text = *self;
        TextRange::over(document_start(text.root), document_end(text.root))
    }

    /// The lines of the text by their numbers from 0. The first search starts at the first line.
    pub fn lines(&self) -> TextLines<'a>
        ensures { lines_root result ≡ root_of self.now }
    {
        let text = *self;
        TextLines::new(text.root)
    }

    /// The range of a line by its number from 0.
    ///
    /// If there are several lines and the last one isn't empty, there is one more line after it, for the caret at the
    /// end. To read lines one after another, [`Text::lines`] is faster.
    #[tactic(auto, using(model::proofs::Text::Secrets::one_text))]
    pub fn line(&self, index: usize) -> Option<TextRange<'a>>
        ensures found { let root = root_of self.now in let range = range_of_line (node_text root) index in
            IsRangeFound (world_at root) (id_at root) range result }
        ensures secret { InEachText (root_of self.now) (λ t. option_map range_at result ≡ range_of_line t index) }
    {
        let text = *self;
        line_range_of(text.root, index)
    }

    /// The position at an index that counts the scalars of the text: before the character that contains it, on the
    /// start side where two runs meet. At the length of the text it is the end of the text; past that it is `None`.
    #[tactic(auto, using(model::proofs::Text::Secrets::one_text))]
    pub fn position_from_usv_index(&self, index: usize) -> Option<TextPosition<'a>>
        ensures at { option_map flat_position result ≡ position_from_usv (node_text (root_of self.now)) index }
        ensures same { IfSome result (λ p. root_at p ≡ root_of self.now) }
        ensures secret { InEachText (root_of self.now) (λ t. option_map flat_position result ≡ position_from_usv t index) }
    {
        let text = *self;
        position_from(text.root, Units::Scalars, index)
    }

    /// The position at an index that counts the UTF-16 code units of the text: before the character that contains it,
    /// on the start side where two runs meet. At the length of the text it is the end of the text; past that it is
    /// `None`.
    #[tactic(auto, using(model::proofs::Text::Secrets::one_text))]
    pub fn position_from_utf16_index(&self, index: usize) -> Option<TextPosition<'a>>
        ensures at { option_map flat_position result ≡ position_from_utf16 (node_text (root_of self.now)) index }
        ensures same { IfSome result (λ p. root_at p ≡ root_of self.now) }
        ensures secret { InEachText (root_of self.now) (λ t. option_map flat_position result ≡ position_from_utf16 t index) }
    {
        let text = *self;
        position_from(text.root, Units::Utf16, index)
    }

    /// The position that has this name, as [`TextPosition::to_raw`] gives it: the id of its run in the node's tree, and the index
    /// there. `None` if that isn't one of the node's own runs, or past the end of it.
    pub fn position_from_raw(&self, raw: schema::TextPosition) -> Option<TextPosition<'a>>
        ensures { let root = root_of self.now in
            IsAtFound root (position_named (node_text root) raw) result }
    {
        let text = *self;
        position_named(text.root, raw)
    }

    /// The position at a point, given in the node's coordinates and in units of 1/64 pixel.
    ///
    /// It is in the last run whose own rectangle contains the point: before the last character that lies there, or at
    /// the run's end. If there is no such run, it is the start of the text if the point is left of or above the first
    /// run; otherwise the end of the last run whose line the point is past; otherwise the end of the text.
    #[tactic(auto, using(model::proofs::Text::Secrets::one_text))]
    pub fn position_at_point(&self, point: Point) -> TextPosition<'a>
        ensures at { let root = root_of self.now in
            IsPositionAt root (position_at_point (node_text root) point) result }
        ensures secret { InEachText (root_of self.now) (λ t. flat_position result ≡ position_at_point t point) }
    {
        let text = *self;
        position_at(text.root, point)
    }

    /// The selection as sent in the update.
    fn selection_sent(self) -> Option<schema::TextSelection>
        ensures { let root = root_of self.entry in
            result ≡ selection_of (world_at root) (id_at root) }
    {
        self.root.raw_text_selection()
    }

    /// The selected range; `None` without a selection or if an end isn't in one of the node's own runs. An index past
    /// the end of its run is clamped to it.
    pub fn selection(&self) -> Option<TextRange<'a>>
        ensures { let w = world_at (root_of self.now) in let id = id_at (root_of self.now) in
            IsRangeFound w id (selection w id) result }
    {
        let text = *self;
        let Some(selection) = text.selection_sent() else {
            return None;
        };
        let Some(anchor) = nearest_named(text.root, selection.anchor) else {
            return None;
        };
        let Some(focus) = nearest_named(text.root, selection.focus) else {
            return None;
        };
        Some(TextRange::in_order(anchor, focus))
    }

    /// The fixed end of the selection; `None` without a selection or if the end isn't in one of the node's own runs. An
    /// index past the end of its run is clamped to it.
    pub fn selection_anchor(&self) -> Option<TextPosition<'a>>
        ensures { let root = root_of self.now in
            IsAtFound root (selection_anchor (world_at root) (id_at root)) result }
    {
        let text = *self;
        let Some(selection) = text.selection_sent() else {
            return None;
        };
        nearest_named(text.root, selection.anchor)
    }

    /// The moving end of the selection; `None` without a selection or if the end isn't in one of the node's own runs.
    /// An index past the end of its run is clamped to it.
    pub fn selection_focus(&self) -> Option<TextPosition<'a>>
        ensures { let root = root_of self.now in
            IsAtFound root (selection_focus (world_at root) (id_at root)) result }
    {
        let text = *self;
        let Some(selection) = text.selection_sent() else {
            return None;
        };
        nearest_named(text.root, selection.focus)
    }
}
