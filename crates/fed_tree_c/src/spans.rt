//! The exports that ask about parts of the text of a node: units around a position, lines, and boxes.
ghost use Rattle.std.specs.Prelude.{◌≡◌, ◌⊎◌, ◌&&◌, IfOk, MatchResult, is_some, map, option_map};
ghost use Rattle.fed_tree_c.specs.Answers.{Answers, AnswersList, GivesList, IsNoMemory, lack_at, lack_where};
ghost use Rattle.fed_tree_c.specs.Records.{bounds_of, node_id};
ghost use Rattle.fed_tree_c.specs.Kinds.{all_units};
ghost use Rattle.fed_tree_c.specs.Spotting.{boxes_asked, boxes_in, lack_said, line_in, span_of, spot_said, unit_in};

use crate::buffers::fill;
use crate::found::{give_at, lack_where};
use crate::handle::Handle;
use crate::kinds::unit_numbered;
use crate::node_texts::position_of;
use crate::records::{AkBounds, AkPosition, CLOSED, DONE, NO_MEMORY, node_id};
use crate::shown::bounds_of;
use crate::spots::{AkSpot, both, is_spot, spot_said, wanted_said};
use fed_tree::{FedTree, TextSpan};
use model::FullNodeId;
use schema::WideRect;
use std::alloc::{AllocError, Global};

/// A part of a text, by its ends.
#[repr(C)]
#[derive(Clone, Copy)]
pub struct AkSpan {
    pub start: AkPosition,
    pub end: AkPosition,
}

/// The part, as C sees it.
fn span_of(span: TextSpan) -> AkSpan
    ensures { result ≡ span_of span }
{
    AkSpan {
        start: position_of(span.start),
        end: position_of(span.end),
    }
}

/// The unit with this number that a position in the node's text is in.
fn unit_in(fed: &FedTree, spot: &AkSpot, number: u32, wanted: u32, id: FullNodeId) -> Option<AkSpan>
    ensures { result ≡ unit_in spot.now number wanted id fed.now }
{
    let spot = spot_said(spot)?;
    let unit = unit_numbered(number)?;
    let span = fed.unit(id, spot, unit, wanted_said(wanted))?;
    Some(span_of(span))
}

/// The line with this number in the node's text.
fn line_in(fed: &FedTree, number: usize, wanted: u32, id: FullNodeId) -> Option<AkSpan>
    ensures { result ≡ line_in number wanted id fed.now }
{
    let span = fed.line(id, number, wanted_said(wanted))?;
    Some(span_of(span))
}

/// The boxes from one position in the node's text up to another.
fn boxes_in(
    fed: &FedTree,
    from: &AkSpot,
    to: &AkSpot,
    id: FullNodeId,
) -> Result<Option<Vec<WideRect>>, AllocError>
    ensures { IfOk result (λ boxes. option_map (λ found. found.items) boxes ≡ boxes_asked from.now to.now id fed.now) }
{
    let Some(from) = spot_said(from) else {
        return Ok(None);
    };
    let Some(to) = spot_said(to) else {
        return Ok(None);
    };
    fed.boxes(id, from, to)
}

/// The boxes, as C sees them.
fn bounds_of_all(alloc: Global, boxes: &[WideRect]) -> Result<Vec<AkBounds>, AllocError>
    ensures { IfOk result (λ seen. seen.items ≡ map bounds_of boxes.now) }
{
    let mut seen = Vec::new(alloc);
    for shown in boxes {
        seen.push(bounds_of(*shown))?;
    }
    Ok(seen)
}

/// Writes boxes, if there are some and memory sufficed for them. `is_known` says whether both positions have kinds that there are.
fn give_boxes(
    alloc: Global,
    fed: &FedTree,
    id: FullNodeId,
    is_known: bool,
    boxes: Result<Option<Vec<WideRect>>, AllocError>,
    buffer: &mut [AkBounds],
    count: &mut usize,
) -> u8
    ensures { MatchResult boxes (λ found.
        GivesList (lack_where is_known id fed.now) (option_map (λ list. map bounds_of list.items) found)
        result buffer.old buffer.new count.old count.new
        ⊎ IsNoMemory result buffer.old buffer.new count.old count.new)
        (λ wanting. IsNoMemory result buffer.old buffer.new count.old count.new) }
{
    let Ok(found) = boxes else {
        return NO_MEMORY;
    };
    let Some(found) = found else {
        return lack_where(fed, id, is_known);
    };
    let Ok(seen) = bounds_of_all(alloc, &found) else {
        return NO_MEMORY;
    };
    fill(buffer, &seen);
    *count = seen.len();
    DONE
}

/// The unit with this number that a position in the node's text is in, by the numbers of its ends that are asked for.
#[unsafe(no_mangle)]
pub extern "C" fn ak_text_unit(
    alloc: Global,
    tree: &mut Handle,
    node: u64,
    tree_index: u32,
    spot: &AkSpot,
    unit: u32,
    wanted: u32,
    span: &mut AkSpan,
) -> u8
    ensures kept { tree.new.block.fed ≡ tree.old.block.fed }
    ensures answer { Answers tree.old.block.fed (lack_said spot.now all_units unit (node_id node tree_index))
        (unit_in spot.now unit wanted (node_id node tree_index)) result span.old span.new }
{
    let id = node_id(node, tree_index);
    let taken = tree.take(alloc);
    let status = match &taken {
        Some(fed) => give_at(
            fed,
            id,
            both(is_spot(spot), unit_numbered(unit).is_some()),
            unit_in(fed, spot, unit, wanted, id),
            span,
        ),
        None => CLOSED,
    };
    tree.put(alloc, taken);
    status
}

/// The line with this number in the node's text, by the numbers of its ends that are asked for.
#[unsafe(no_mangle)]
pub extern "C" fn ak_text_line(
    alloc: Global,
    tree: &mut Handle,
    node: u64,
    tree_index: u32,
    line: usize,
    wanted: u32,
    span: &mut AkSpan,
) -> u8
    ensures kept { tree.new.block.fed ≡ tree.old.block.fed }
    ensures answer { Answers tree.old.block.fed (lack_at (node_id node tree_index))
        (line_in line wanted (node_id node tree_index)) result span.old span.new }
{
    let id = node_id(node, tree_index);
    let taken = tree.take(alloc);
    let status = match &taken {
        Some(fed) => give_at(fed, id, true, line_in(fed, line, wanted, id), span),
        None => CLOSED,
    };
    tree.put(alloc, taken);
    status
}

/// The boxes of the text from one position up to another, as far as there is room for them, and how many there are.
#[tactic(auto, using(crate::proofs::Computing::boxes_answered))]
#[unsafe(no_mangle)]
pub extern "C" fn ak_text_boxes(
    alloc: Global,
    tree: &mut Handle,
    node: u64,
    tree_index: u32,
    from: &AkSpot,
    to: &AkSpot,
    buffer: &mut [AkBounds],
    count: &mut usize,
) -> u8
    ensures kept { tree.new.block.fed ≡ tree.old.block.fed }
    ensures answer { AnswersList tree.old.block.fed
        (lack_where (is_some (spot_said from.now) && is_some (spot_said to.now)) (node_id node tree_index))
        (boxes_in from.now to.now (node_id node tree_index))
        result buffer.old buffer.new count.old count.new }
{
    let id = node_id(node, tree_index);
    let taken = tree.take(alloc);
    let status = match &taken {
        Some(fed) => give_boxes(
            alloc,
            fed,
            id,
            both(is_spot(from), is_spot(to)),
            boxes_in(fed, from, to, id),
            buffer,
            count,
        ),
        None => CLOSED,
    };
    tree.put(alloc, taken);
    status
}
