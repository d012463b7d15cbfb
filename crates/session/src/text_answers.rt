//! Answers to queries about the text of a node.
ghost use Rattle.std.specs.Prelude.{◌≡◌, true, Some, IsSome, IfOk, IfSome, option_and_then, option_map, string_bytes};
ghost use Rattle.model.specs.declared.queries.Query.TheVariants.{Move as ToMove, Indexes as ToIndexes, RangeText as ToRangeText};
ghost use Rattle.model.specs.TextRuns.{supports_text_ranges};
ghost use Rattle.model.specs.Queries.{position_at, moved as place_after, raw_of, text_between as between, text_in_runs as text_if_any};
ghost use Rattle.views.specs.Nodes.{world_at, id_at};
ghost use Rattle.texts.specs.Positions.{root_at, node_text, position_text, flat_position};
ghost use Rattle.session.specs.Replied.{IsAnswerAt};
ghost use Rattle.session.specs.Texts.{in_text, position_in, text_from};

use crate::commands::Reply;
use accesskit_consumer::text::TextPosition;
use accesskit_consumer::{NodeRef, TextIndexes, TextRoot};
use model::{At, Move, Side};
use std::alloc::{AllocError, Global};

/// The position with this index in the node's text, on this side.
fn position_within<'a>(node: NodeRef<'a>, at: At) -> Option<TextPosition<'a>>
    requires { supports_text_ranges (world_at node) (id_at node) ≡ true }
    ensures at { option_map flat_position result ≡ position_at (node_text node.entry) at }
    ensures same { IfSome result (λ p. root_at p ≡ node.entry) }
{
    let Some(start) = node.text_position_from_global_usv_index(at.index) else {
        return None;
    };
    match at.side {
        Side::Start => Some(start),
        Side::End => Some(start.biased_to_end()),
    }
}

/// The position with this index in the node's text, on this side; `None` past the end of the text, or if the node has no text.
pub fn position_of<'a>(node: NodeRef<'a>, at: At) -> Option<TextPosition<'a>>
    ensures at { option_map flat_position result ≡ position_in (world_at node.entry) (id_at node.entry) at }
    ensures text { IsSome result → supports_text_ranges (world_at node.entry) (id_at node.entry) ≡ true }
    ensures same { IfSome result (λ p. root_at p ≡ node.entry) }
{
    if !node.supports_text_ranges() {
        return None;
    }
    position_within(node, at)
}

/// Where a caret movement ends; `None` for a movement by a character past an end of the text.
pub fn moved<'a>(position: TextPosition<'a>, by: Move) -> Option<TextPosition<'a>>
    ensures at { let p = position.entry in
        option_map flat_position result ≡ place_after (position_text p) (flat_position p) by }
    ensures same { IfSome result (λ p. root_at p ≡ root_at position.entry) }
{
    match by {
        Move::ForwardToCharacterStart | Move::ForwardToCharacterEnd
            if !position.has_character_after() => None,
        Move::BackwardToCharacterStart if !position.has_character_before() => None,
        Move::ForwardToCharacterStart => Some(position.forward_to_character_start()),
        Move::ForwardToCharacterEnd => Some(position.forward_to_character_end()),
        Move::BackwardToCharacterStart => Some(position.backward_to_character_start()),
        Move::ForwardToFormatStart => Some(position.forward_to_format_start()),
        Move::ForwardToFormatEnd => Some(position.forward_to_format_end()),
        Move::BackwardToFormatStart => Some(position.backward_to_format_start()),
        Move::ForwardToWordStart => Some(position.forward_to_word_start()),
        Move::ForwardToWordEnd => Some(position.forward_to_word_end()),
        Move::BackwardToWordStart => Some(position.backward_to_word_start()),
        Move::ForwardToLineStart => Some(position.forward_to_line_start()),
        Move::ForwardToLineEnd => Some(position.forward_to_line_end()),
        Move::BackwardToLineStart => Some(position.backward_to_line_start()),
        Move::ForwardToParagraphStart => Some(position.forward_to_paragraph_start()),
        Move::ForwardToParagraphEnd => Some(position.forward_to_paragraph_end()),
        Move::BackwardToParagraphStart => Some(position.backward_to_paragraph_start()),
        Move::ForwardToPageStart => Some(position.forward_to_page_start()),
        Move::ForwardToPageEnd => Some(position.forward_to_page_end()),
        Move::DocumentEnd => Some(position.document_end()),
        Move::BackwardToPageStart => Some(position.backward_to_page_start()),
        Move::DocumentStart => Some(position.document_start()),
    }
}

/// The name of a position.
#[tactic(auto, using(crate::proofs::Naming::raw_named))]
fn raw(position: TextPosition<'_>) -> schema::TextPosition
    ensures { raw_of (position_text position.entry) (flat_position position.entry) ≡ Some result }
{
    position.to_raw()
}

/// The name of the position where a caret movement ends.
fn raw_moved(position: TextPosition<'_>, by: Move) -> Option<schema::TextPosition>
    ensures { let t = position_text position.entry in
        result ≡ option_and_then (raw_of t) (place_after t (flat_position position.entry) by) }
{
    let to = moved(position, by)?;
    Some(raw(to))
}

/// Where a caret movement from a position in the node's text ends.
pub(crate) fn movement(node: NodeRef, at: At, by: Move) -> Reply
    ensures { IsAnswerAt (world_at node.entry) (id_at node.entry) (λ name. ToMove name at by) result }
{
    let Some(position) = position_of(node, at) else {
        return Reply::NotText;
    };
    Reply::Position(raw_moved(position, by))
}

/// The indexes of a position in the node's text.
pub(crate) fn indexes(node: NodeRef, at: At) -> Reply
    ensures { IsAnswerAt (world_at node.entry) (id_at node.entry) (λ name. ToIndexes name at) result }
{
    let Some(position) = position_of(node, at) else {
        return Reply::NotText;
    };
    Reply::Indexes {
        usv: position.to_global_usv_index(),
        utf16: position.to_global_utf16_index(),
        line: position.to_line_index(),
    }
}

/// The text of the node's runs, if they make one.
///
/// # Errors
///
/// Returns `AllocError` if memory runs out.
pub fn text_in_runs(alloc: Global, node: NodeRef) -> Result<Option<String>, AllocError>
    ensures { IfOk result (λ text. option_map string_bytes text ≡ text_if_any (world_at node.entry) (id_at node.entry)) }
{
    if !node.supports_text_ranges() {
        return Ok(None);
    }
    Ok(Some(node.document_range().text(alloc)?))
}

/// The text from one position up to another.
#[tactic(auto, using(crate::proofs::Betweens::between_two))]
fn text_between<'a>(
    alloc: Global,
    from: TextPosition<'a>,
    to: TextPosition<'a>,
) -> Result<String, AllocError>
    requires world { world_at (root_at to) ≡ world_at (root_at from) }
    requires root { id_at (root_at to) ≡ id_at (root_at from) }
    ensures { let p = from.entry in
        IfOk result (λ text. string_bytes text ≡ between (position_text p) (flat_position p) (flat_position to.entry)) }
{
    let mut range = from.to_degenerate_range();
    range.set_end(to);
    range.text(alloc)
}

/// The text from one position in the node's text up to another; `None` if one of them is past the end of the text, or if the node
/// has no text.
///
/// # Errors
///
/// Returns `AllocError` if memory runs out.
pub fn text_in(
    alloc: Global,
    node: NodeRef<'_>,
    from: At,
    to: At,
) -> Result<Option<String>, AllocError>
    ensures { let said = in_text (text_from from to) (world_at node.entry) (id_at node.entry) in
        IfOk result (λ text. option_map string_bytes text ≡ said) }
{
    let Some(start) = position_of(node, from) else {
        return Ok(None);
    };
    let Some(end) = position_within(node, to) else {
        return Ok(None);
    };
    let text = text_between(alloc, start, end)?;
    Ok(Some(text))
}

/// The text from one position in the node's text to another.
pub(crate) fn range_text(
    alloc: Global,
    node: NodeRef,
    from: At,
    to: At,
) -> Result<Reply, AllocError>
    ensures { let w = world_at node.entry in
        IfOk result (IsAnswerAt w (id_at node.entry) (λ name. ToRangeText name from to)) }
{
    match text_in(alloc, node, from, to)? {
        Some(text) => Ok(Reply::Text(Some(text))),
        None => Ok(Reply::NotText),
    }
}
