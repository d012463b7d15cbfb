//! The calls on a node as the root of a text: positions and ranges.
ghost use Rattle.std.specs.Prelude.{◌≡◌, true, IfSome, option_map};
ghost use Rattle.model.specs.TextRuns.{supports_text_ranges};
ghost use Rattle.model.specs.FlatText.{document_start, document_end};
ghost use Rattle.model.specs.Moves.{position_from_usv, position_from_utf16};
ghost use Rattle.model.specs.Points.{position_at_point};
ghost use Rattle.model.specs.Ranges.{document_range, selection, selection_anchor, selection_focus};
ghost use Rattle.views.specs.Nodes.{world_at, id_at};
ghost use Rattle.texts.specs.TextRoots.{HasText};
ghost use Rattle.texts.specs.Positions.{IsPositionAt, root_at, node_text, flat_position};
ghost use Rattle.texts.specs.TextRanges.{IsRangeOf, range_at};
ghost use Rattle.texts.specs.FoundRanges.{IsAtFound, IsRangeFound, range_of_line};
ghost use Rattle.texts.specs.Secrets.{InEachText};

use crate::ends::{document_end, document_start};
use crate::indexes::{Units, position_from};
use crate::line_ranges::line_range_of;
use crate::node_texts::NodeText;
use crate::points::position_at;
use crate::position::TextPosition;
use crate::range::TextRange;
use schema::Point;
use views::NodeRef;

/// The ends of a node's text. Implemented by `NodeRef` alone.
pub trait TextRoot<'a> {
    ghost may_ask: { Self → Type 0 };

    /// The start of the node's text. Requires that the node supports text ranges.
    fn document_start(&self) -> TextPosition<'a>
        requires { may_ask self.now };

    /// The end of the node's text. Requires that the node supports text ranges.
    fn document_end(&self) -> TextPosition<'a>
        requires { may_ask self.now };

    /// The range of the node's whole text. Requires that the node supports text ranges.
    fn document_range(&self) -> TextRange<'a>
        requires { may_ask self.now };
}

/// Positions in a node's text by global index. Implemented by `NodeRef` alone.
pub trait TextIndexes<'a> {
    ghost may_ask: { Self → Type 0 };

    /// The position at an index that counts the scalars of the whole text: before the character that contains it, on
    /// the start side where two runs meet. At the length of the text it is the end of the text; past that it is `None`.
    /// Requires that the node supports text ranges.
    fn text_position_from_global_usv_index(&self, index: usize) -> Option<TextPosition<'a>>
        requires { may_ask self.now };

    /// The position at an index that counts the UTF-16 code units of the whole text: before the character that contains
    /// it, on the start side where two runs meet. At the length of the text it is the end of the text; past that it is
    /// `None`. Requires that the node supports text ranges.
    fn text_position_from_global_utf16_index(&self, index: usize) -> Option<TextPosition<'a>>
        requires { may_ask self.now };
}

/// Lines and points of a node's text. Implemented by `NodeRef` alone.
pub trait TextPlaces<'a> {
    ghost may_ask: { Self → Type 0 };

    /// The range of a line of the node's text, by its number from 0. Requires that the node supports text ranges.
    ///
    /// If there are several lines and the last one isn't empty, there is one more line after it, for the caret at the
    /// end.
    fn line_range_from_index(&self, index: usize) -> Option<TextRange<'a>>
        requires { may_ask self.now };

    /// The position at a point of the node's text, given in the node's coordinates and in units of 1/64 pixel. Requires
    /// that the node supports text ranges.
    ///
    /// It is in the last run whose own rectangle contains the point: before the last character that lies there, or at
    /// the run's end. If there is no such run, it is the start of the text if the point is left of or above the first
    /// run; otherwise the end of the last run whose line the point is past; otherwise the end of the text.
    fn text_position_at_point(&self, point: Point) -> TextPosition<'a>
        requires { may_ask self.now };
}

/// The selection in a node's text. Implemented by `NodeRef` alone.
pub trait TextSelections<'a> {
    /// The selected range; `None` without a selection, if the node doesn't support text ranges, or if an end isn't in
    /// one of the node's own runs. An index past the end of its run is clamped to it.
    fn text_selection(&self) -> Option<TextRange<'a>>;

    /// The fixed end of the selection; `None` without a selection, if the node doesn't support text ranges, or if the
    /// end isn't in one of the node's own runs. An index past the end of its run is clamped to it.
    fn text_selection_anchor(&self) -> Option<TextPosition<'a>>;

    /// The moving end of the selection; `None` without a selection, if the node doesn't support text ranges, or if the
    /// end isn't in one of the node's own runs. An index past the end of its run is clamped to it.
    fn text_selection_focus(&self) -> Option<TextPosition<'a>>;
}

impl<'a> TextRoot<'a> for NodeRef<'a> {
    ghost may_ask = { HasText };

    fn document_start(&self) -> TextPosition<'a>
        requires { supports_text_ranges (world_at self.now) (id_at self.now) ≡ true }
        ensures { IsPositionAt self.now document_start result }
    {
        document_start(*self)
    }

    #[tactic(auto, using(model::proofs::Text::Secrets::one_text))]
    fn document_end(&self) -> TextPosition<'a>
        requires { supports_text_ranges (world_at self.now) (id_at self.now) ≡ true }
        ensures at { IsPositionAt self.now (document_end (node_text self.now)) result }
        ensures secret { InEachText self.now (λ t. flat_position result ≡ document_end t) }
    {
        document_end(*self)
    }

    fn document_range(&self) -> TextRange<'a>
        requires { supports_text_ranges (world_at self.now) (id_at self.now) ≡ true }
        ensures { let range = document_range (node_text self.now) in
            IsRangeOf (world_at self.now) (id_at self.now) range result }
    {
        TextRange::over(document_start(*self), document_end(*self))
    }
}

impl<'a> TextIndexes<'a> for NodeRef<'a> {
    ghost may_ask = { HasText };

    #[tactic(auto, using(model::proofs::Text::Secrets::one_text))]
    fn text_position_from_global_usv_index(&self, index: usize) -> Option<TextPosition<'a>>
        requires { supports_text_ranges (world_at self.now) (id_at self.now) ≡ true }
        ensures at { option_map flat_position result ≡ position_from_usv (node_text self.now) index }
        ensures same { IfSome result (λ p. root_at p ≡ self.now) }
        ensures secret { InEachText self.now (λ t. option_map flat_position result ≡ position_from_usv t index) }
    {
        position_from(*self, Units::Scalars, index)
    }

    #[tactic(auto, using(model::proofs::Text::Secrets::one_text))]
    fn text_position_from_global_utf16_index(&self, index: usize) -> Option<TextPosition<'a>>
        requires { supports_text_ranges (world_at self.now) (id_at self.now) ≡ true }
        ensures at { option_map flat_position result ≡ position_from_utf16 (node_text self.now) index }
        ensures same { IfSome result (λ p. root_at p ≡ self.now) }
        ensures secret { InEachText self.now (λ t. option_map flat_position result ≡ position_from_utf16 t index) }
    {
        position_from(*self, Units::Utf16, index)
    }
}

impl<'a> TextPlaces<'a> for NodeRef<'a> {
    ghost may_ask = { HasText };

    #[tactic(auto, using(model::proofs::Text::Secrets::one_text))]
    fn line_range_from_index(&self, index: usize) -> Option<TextRange<'a>>
        requires { supports_text_ranges (world_at self.now) (id_at self.now) ≡ true }
        ensures found { let range = range_of_line (node_text self.now) index in
            IsRangeFound (world_at self.now) (id_at self.now) range result }
        ensures secret { InEachText self.now (λ t. option_map range_at result ≡ range_of_line t index) }
    {
        line_range_of(*self, index)
    }

    #[tactic(auto, using(model::proofs::Text::Secrets::one_text))]
    fn text_position_at_point(&self, point: Point) -> TextPosition<'a>
        requires { supports_text_ranges (world_at self.now) (id_at self.now) ≡ true }
        ensures at { IsPositionAt self.now (position_at_point (node_text self.now) point) result }
        ensures secret { InEachText self.now (λ t. flat_position result ≡ position_at_point t point) }
    {
        position_at(*self, point)
    }
}

impl<'a> TextSelections<'a> for NodeRef<'a> {
    fn text_selection(&self) -> Option<TextRange<'a>>
        ensures { let w = world_at self.now in
            IsRangeFound w (id_at self.now) (selection w (id_at self.now)) result }
    {
        let Some(text) = self.text() else {
            return None;
        };
        text.selection()
    }

    fn text_selection_anchor(&self) -> Option<TextPosition<'a>>
        ensures { let anchor = selection_anchor (world_at self.now) (id_at self.now) in
            IsAtFound self.now anchor result }
    {
        let Some(text) = self.text() else {
            return None;
        };
        text.selection_anchor()
    }

    fn text_selection_focus(&self) -> Option<TextPosition<'a>>
        ensures { let focus = selection_focus (world_at self.now) (id_at self.now) in
            IsAtFound self.now focus result }
    {
        let Some(text) = self.text() else {
            return None;
        };
        text.selection_focus()
    }
}
