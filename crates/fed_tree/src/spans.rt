//! Parts of the texts of nodes: units around a position, lines by their numbers, and boxes.
ghost use Rattle.std.specs.Prelude.{◌≡◌, Some, IfOk, IfSome, option_map};
ghost use Rattle.views.specs.Nodes.{world_at, id_at};
ghost use Rattle.texts.specs.Positions.{IsPositionAt, root_at, position_text, flat_position};
ghost use Rattle.texts.specs.TextRanges.{text_in, range_at};
ghost use Rattle.texts.specs.FoundRanges.{IsRangeFound};
ghost use Rattle.fed_tree.specs.Reads.{read_of};
ghost use Rattle.fed_tree.specs.Spans.{back_to_start, boxes_between, ends_of, line_span, on_to_end, part_between, past_character, span_at, span_of, starts_unit, unit_start};

use crate::feeding::FedTree;
use crate::spots::{Spot, Wanted, found, place_of};
use crate::text_places::TextPlace;
use model::FullNodeId;
use schema::WideRect;
use std::alloc::{AllocError, Global};
use texts::{NodeText, TextPosition, TextRange};
use views::NodeRef;

/// A unit of text.
#[derive(Clone, Copy)]
pub enum TextUnit {
    Character,
    Format,
    Word,
    Line,
    Paragraph,
    /// The whole text, since a text has one page.
    Page,
}

/// A part of a text, by its ends.
#[derive(Clone, Copy)]
pub struct TextSpan {
    pub start: TextPlace,
    pub end: TextPlace,
}

impl FedTree {
    /// The unit of text that a position is in: it begins at the position or else at the nearest start of such a unit before it, and ends where
    /// a movement to the end of the unit from there ends. At the end of the text there is no character, and the unit is empty. `None` if the
    /// position isn't there, if the node has no text, or if the tree doesn't have the node.
    #[tactic(auto, using(crate::proofs::Found::read_found, crate::proofs::Found::read_missing))]
    pub fn unit(
        &self,
        id: FullNodeId,
        spot: Spot,
        unit: TextUnit,
        wanted: Wanted,
    ) -> Option<TextSpan>
        ensures { result ≡ read_of self.now.world id (λ w node. span_at spot unit wanted w id) }
    {
        span_at(self.node(id)?, spot, unit, wanted)
    }

    /// The line with this number, counted from 0. Past the last line, if that isn't empty and isn't the only one, there is one more for the
    /// caret at the end. `None` past that, if the node has no text, or if the tree doesn't have the node.
    #[tactic(auto, using(crate::proofs::Found::read_found, crate::proofs::Found::read_missing))]
    pub fn line(&self, id: FullNodeId, number: usize, wanted: Wanted) -> Option<TextSpan>
        ensures { result ≡ read_of self.now.world id (λ w node. line_span number wanted w id) }
    {
        line_span(self.node(id)?, number, wanted)
    }

    /// The boxes of the text from one position up to another, one for each run, in units of 1/64 pixel and after all translations; at one
    /// position that of a caret. Empty if one of the runs says too little. `None` if a position isn't there, if the node has no text, or if
    /// the tree doesn't have the node.
    ///
    /// # Errors
    ///
    /// Returns `AllocError` if memory runs out.
    #[tactic(auto, using(crate::proofs::Found::read_found, crate::proofs::Found::read_missing))]
    pub fn boxes(
        &self,
        id: FullNodeId,
        from: Spot,
        to: Spot,
    ) -> Result<Option<Vec<WideRect>>, AllocError>
        ensures { IfOk result (λ boxes. option_map (λ found. found.items) boxes
            ≡ read_of self.now.world id (λ w node. boxes_between from to w id)) }
    {
        match self.node(id) {
            Some(node) => boxes_between(self.alloc, node, from, to),
            None => Ok(None),
        }
    }
}

/// Whether a unit starts at the position.
fn starts_unit(position: TextPosition<'_>, unit: TextUnit) -> bool
    ensures { result ≡ starts_unit unit (position_text position.entry) (flat_position position.entry) }
{
    match unit {
        TextUnit::Character => true,
        TextUnit::Format => position.is_format_start(),
        TextUnit::Word => position.is_word_start(),
        TextUnit::Line => position.is_line_start(),
        TextUnit::Paragraph => position.is_paragraph_start(),
        TextUnit::Page => position.is_page_start(),
    }
}

/// The nearest start of a unit before the position.
fn back_to_start(position: TextPosition<'_>, unit: TextUnit) -> TextPosition<'_>
    ensures { let p = position.entry in
        IsPositionAt (root_at p) (back_to_start unit (position_text p) (flat_position p)) result }
{
    match unit {
        TextUnit::Character => position,
        TextUnit::Format => position.backward_to_format_start(),
        TextUnit::Word => position.backward_to_word_start(),
        TextUnit::Line => position.backward_to_line_start(),
        TextUnit::Paragraph => position.backward_to_paragraph_start(),
        TextUnit::Page => position.backward_to_page_start(),
    }
}

/// The end of the next character, if there is one, and else the position.
fn past_character(position: TextPosition<'_>) -> TextPosition<'_>
    ensures { let p = position.entry in
        IsPositionAt (root_at p) (past_character (position_text p) (flat_position p)) result }
{
    if position.has_character_after() {
        position.forward_to_character_end()
    } else {
        position
    }
}

/// The end of the unit that starts at the position.
fn on_to_end(position: TextPosition<'_>, unit: TextUnit) -> TextPosition<'_>
    ensures { let p = position.entry in
        IsPositionAt (root_at p) (on_to_end unit (position_text p) (flat_position p)) result }
{
    match unit {
        TextUnit::Character => past_character(position),
        TextUnit::Format => position.forward_to_format_end(),
        TextUnit::Word => position.forward_to_word_end(),
        TextUnit::Line => position.forward_to_line_end(),
        TextUnit::Paragraph => position.forward_to_paragraph_end(),
        TextUnit::Page => position.forward_to_page_end(),
    }
}

/// The start of the unit that the position is in.
fn unit_start(position: TextPosition<'_>, unit: TextUnit) -> TextPosition<'_>
    ensures { let p = position.entry in
        IsPositionAt (root_at p) (unit_start unit (position_text p) (flat_position p)) result }
{
    if starts_unit(position, unit) {
        position
    } else {
        back_to_start(position, unit)
    }
}

/// Two positions of one text, as the ends of a part.
#[tactic(auto, using(crate::proofs::Spotting::span_placed))]
fn ends_of(start: TextPosition<'_>, end: TextPosition<'_>, wanted: Wanted) -> TextSpan
    requires { position_text end ≡ position_text start }
    ensures { ends_of wanted (position_text start.entry) (flat_position start.entry) (flat_position end.entry) ≡ Some result }
{
    TextSpan {
        start: place_of(start, wanted),
        end: place_of(end, wanted),
    }
}

/// The unit that the position is in.
fn span_of(position: TextPosition<'_>, unit: TextUnit, wanted: Wanted) -> TextSpan
    ensures { span_of unit wanted (position_text position.entry) (flat_position position.entry) ≡ Some result }
{
    let start = unit_start(position, unit);
    let end = on_to_end(start, unit);
    ends_of(start, end, wanted)
}

/// The unit that a position in the node's text is in.
fn span_at(node: NodeRef<'_>, spot: Spot, unit: TextUnit, wanted: Wanted) -> Option<TextSpan>
    ensures { result ≡ span_at spot unit wanted (world_at node.entry) (id_at node.entry) }
{
    let position = found(node, spot)?;
    Some(span_of(position, unit, wanted))
}

/// A range, by its ends.
fn range_ends(range: TextRange<'_>, wanted: Wanted) -> TextSpan
    ensures { let r = range.entry in
        ends_of wanted (text_in r) (range_at r).start (range_at r).end ≡ Some result }
{
    ends_of(range.start(), range.end(), wanted)
}

/// The line with this number in the node's text.
#[tactic(auto, using(crate::proofs::Spotting::line_found, crate::proofs::Spotting::line_missing))]
fn line_span(node: NodeRef<'_>, number: usize, wanted: Wanted) -> Option<TextSpan>
    ensures { result ≡ line_span number wanted (world_at node.entry) (id_at node.entry) }
{
    let line = node.text()?.line(number)?;
    Some(range_ends(line, wanted))
}

/// The part of the text from one position of the node's text up to another.
pub(crate) fn part_between<'a>(node: NodeRef<'a>, from: Spot, to: Spot) -> Option<TextRange<'a>>
    ensures { let w = world_at node.entry in let id = id_at node.entry in
        IsRangeFound w id (part_between from to w id) result }
{
    let start = found(node, from)?;
    let end = found(node, to)?;
    let mut range = start.to_degenerate_range();
    range.set_end(end);
    Some(range)
}

/// The boxes of the part of the node's text.
#[tactic(auto, using(crate::proofs::Spotting::boxes_found, crate::proofs::Spotting::boxes_missing))]
fn boxes_between(
    alloc: Global,
    node: NodeRef<'_>,
    from: Spot,
    to: Spot,
) -> Result<Option<Vec<WideRect>>, AllocError>
    ensures { IfOk result (λ boxes. option_map (λ found. found.items) boxes
        ≡ boxes_between from to (world_at node.entry) (id_at node.entry)) }
{
    match part_between(node, from, to) {
        Some(range) => Ok(Some(range.bounding_boxes(alloc)?)),
        None => Ok(None),
    }
}
