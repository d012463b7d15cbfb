//! The exports that ask about the text of a node.
ghost use Rattle.std.specs.Prelude.{◌≡◌, IfOk, option_map, string_bytes};
ghost use Rattle.model.specs.declared.queries.Side.TheVariants.{Start};
ghost use Rattle.fed_tree_c.specs.Answers.{Answers, AnswersList, lack_at, lack_by};
ghost use Rattle.fed_tree_c.specs.Numbers.{all_moves};
ghost use Rattle.fed_tree_c.specs.Questions.{position_after, position_in, selection_anchor_in, selection_focus_in, text_between_in};
ghost use Rattle.fed_tree_c.specs.Records.{node_id, position_of};

use crate::buffers::give_text_at;
use crate::found::give_at;
use crate::handle::Handle;
use crate::numbers::{at_index, move_numbered};
use crate::records::{AkPosition, CLOSED, node_id};
use fed_tree::{FedTree, TextPlace};
use model::{At, FullNodeId, Side};
use std::alloc::{AllocError, Global};

/// The position, as C sees it.
pub(crate) fn position_of(place: TextPlace) -> AkPosition
    ensures { result ≡ position_of place }
{
    AkPosition {
        run: place.name.node.0,
        character: place.name.character_index,
        index: place.index,
        utf16_index: place.utf16_index,
        line: place.line,
        is_end: matches!(place.side, Side::End),
    }
}

/// The position in the node's text.
fn position_in(fed: &FedTree, index: usize, is_end: bool, id: FullNodeId) -> Option<AkPosition>
    ensures { result ≡ position_in index is_end id fed.now }
{
    let place = fed.text_place(id, at_index(index, is_end))?;
    Some(position_of(place))
}

/// Where the movement with this number ends.
fn position_after(
    fed: &FedTree,
    number: u32,
    index: usize,
    is_end: bool,
    id: FullNodeId,
) -> Option<AkPosition>
    ensures { result ≡ position_after number index is_end id fed.now }
{
    let by = move_numbered(number)?;
    let place = fed.text_place_after(id, at_index(index, is_end), by)?;
    Some(position_of(place))
}

/// The fixed end of the selection in the node's text.
fn selection_anchor_in(fed: &FedTree, id: FullNodeId) -> Option<AkPosition>
    ensures { result ≡ selection_anchor_in id fed.now }
{
    let place = fed.text_selection_anchor(id)?;
    Some(position_of(place))
}

/// The moving end of the selection in the node's text.
fn selection_focus_in(fed: &FedTree, id: FullNodeId) -> Option<AkPosition>
    ensures { result ≡ selection_focus_in id fed.now }
{
    let place = fed.text_selection_focus(id)?;
    Some(position_of(place))
}

/// The start side of an index.
fn starting_at(index: usize) -> At
    ensures { result ≡ record { index = index; side = Start } }
{
    At {
        index,
        side: Side::Start,
    }
}

/// The node's text from one index up to another.
fn text_between_in(
    fed: &FedTree,
    from: usize,
    to: usize,
    id: FullNodeId,
) -> Result<Option<String>, AllocError>
    ensures { IfOk result (λ text. option_map string_bytes text ≡ text_between_in from to id fed.now) }
{
    fed.text_between(id, starting_at(from), starting_at(to))
}

/// The position in the node's text with this index: where two runs meet, the start of the second, or the end of the first.
#[unsafe(no_mangle)]
pub extern "C" fn ak_text_position(
    alloc: Global,
    tree: &mut Handle,
    node: u64,
    tree_index: u32,
    index: usize,
    is_end: bool,
    position: &mut AkPosition,
) -> u8
    ensures kept { tree.new.block.fed ≡ tree.old.block.fed }
    ensures answer { Answers tree.old.block.fed (lack_at (node_id node tree_index)) (position_in index is_end (node_id node tree_index))
        result position.old position.new }
{
    let id = node_id(node, tree_index);
    let taken = tree.take(alloc);
    let status = match &taken {
        Some(fed) => give_at(fed, id, true, position_in(fed, index, is_end, id), position),
        None => CLOSED,
    };
    tree.put(alloc, taken);
    status
}

/// Where a movement of the caret from that position ends, by the number of the movement.
#[unsafe(no_mangle)]
pub extern "C" fn ak_text_move(
    alloc: Global,
    tree: &mut Handle,
    node: u64,
    tree_index: u32,
    index: usize,
    is_end: bool,
    movement: u32,
    position: &mut AkPosition,
) -> u8
    ensures kept { tree.new.block.fed ≡ tree.old.block.fed }
    ensures answer { Answers tree.old.block.fed (lack_by all_moves movement (node_id node tree_index))
        (position_after movement index is_end (node_id node tree_index))
        result position.old position.new }
{
    let id = node_id(node, tree_index);
    let taken = tree.take(alloc);
    let status = match &taken {
        Some(fed) => give_at(
            fed,
            id,
            move_numbered(movement).is_some(),
            position_after(fed, movement, index, is_end, id),
            position,
        ),
        None => CLOSED,
    };
    tree.put(alloc, taken);
    status
}

/// The fixed end of the selection in the node's text.
#[unsafe(no_mangle)]
pub extern "C" fn ak_text_selection_anchor(
    alloc: Global,
    tree: &mut Handle,
    node: u64,
    tree_index: u32,
    anchor: &mut AkPosition,
) -> u8
    ensures kept { tree.new.block.fed ≡ tree.old.block.fed }
    ensures answer { Answers tree.old.block.fed (lack_at (node_id node tree_index)) (selection_anchor_in (node_id node tree_index))
        result anchor.old anchor.new }
{
    let id = node_id(node, tree_index);
    let taken = tree.take(alloc);
    let status = match &taken {
        Some(fed) => give_at(fed, id, true, selection_anchor_in(fed, id), anchor),
        None => CLOSED,
    };
    tree.put(alloc, taken);
    status
}

/// The moving end of the selection in the node's text, where the caret is.
#[unsafe(no_mangle)]
pub extern "C" fn ak_text_selection_focus(
    alloc: Global,
    tree: &mut Handle,
    node: u64,
    tree_index: u32,
    focus: &mut AkPosition,
) -> u8
    ensures kept { tree.new.block.fed ≡ tree.old.block.fed }
    ensures answer { Answers tree.old.block.fed (lack_at (node_id node tree_index)) (selection_focus_in (node_id node tree_index))
        result focus.old focus.new }
{
    let id = node_id(node, tree_index);
    let taken = tree.take(alloc);
    let status = match &taken {
        Some(fed) => give_at(fed, id, true, selection_focus_in(fed, id), focus),
        None => CLOSED,
    };
    tree.put(alloc, taken);
    status
}

/// The node's text from one index up to another, as far as there is room for it, and its length.
#[tactic(auto, using(crate::proofs::Asked::text_answered))]
#[unsafe(no_mangle)]
pub extern "C" fn ak_text_between(
    alloc: Global,
    tree: &mut Handle,
    node: u64,
    tree_index: u32,
    from: usize,
    to: usize,
    buffer: &mut [u8],
    length: &mut usize,
) -> u8
    ensures kept { tree.new.block.fed ≡ tree.old.block.fed }
    ensures answer { AnswersList tree.old.block.fed (lack_at (node_id node tree_index))
        (text_between_in from to (node_id node tree_index))
        result buffer.old buffer.new length.old length.new }
{
    let id = node_id(node, tree_index);
    let taken = tree.take(alloc);
    let status = match &taken {
        Some(fed) => give_text_at(
            fed,
            id,
            true,
            text_between_in(fed, from, to, id),
            buffer,
            length,
        ),
        None => CLOSED,
    };
    tree.put(alloc, taken);
    status
}
