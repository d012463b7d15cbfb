//! The exports that ask what is computed of a node.
ghost use Rattle.std.specs.Prelude.{◌≡◌, ◌-ℤ◌, ◌&&◌, IfOk, is_some, option_map, slice_get};
ghost use Rattle.std.specs.Int.{saturate_signed, w64};
ghost use Rattle.fed_tree_c.specs.Answers.{Answers, AnswersList, lack_at, lack_by, lack_where};
ghost use Rattle.fed_tree_c.specs.Computing.{action_in, child_at, count_in, flags_in, ids_listed, lack_by_two, list_in, point_in, relative_in, state_in, state_of, transform_in};
ghost use Rattle.fed_tree_c.specs.Kinds.{action_said, all_counts, all_lists, all_relatives, all_states};
ghost use Rattle.fed_tree_c.specs.Numbers.{all_filters};
ghost use Rattle.fed_tree_c.specs.Records.{node_id};

use crate::buffers::give_ids_at;
use crate::choice_numbers::{live_number, orientation_number, toggled_number};
use crate::found::give_at;
use crate::handle::Handle;
use crate::kinds::{
    State, action_numbered, count_numbered, list_numbered, relative_numbered, state_numbered,
};
use crate::numbers::{filter_numbered, flags};
use crate::records::{AkId, CLOSED, id_of, node_id};
use crate::shown::clamped;
use fed_tree::FedTree;
use model::FullNodeId;
use std::alloc::{AllocError, Global};

/// Whether both numbers mean something: one of a kind of question, and one of a filter.
fn are_known(is_kind: bool, filter: u32) -> bool
    ensures { result ≡ (is_kind && is_some (slice_get all_filters filter)) }
{
    is_kind && filter_numbered(filter).is_some()
}

/// A point, or by how much something is shifted, in units of 1/64 pixel. A number beyond 64 bits is the nearest one within them.
#[repr(C)]
#[derive(Clone, Copy)]
pub struct AkPoint {
    pub x: i64,
    pub y: i64,
}

/// The number of the node's state.
fn state_of(fed: &FedTree, state: State, id: FullNodeId) -> Option<u32>
    ensures { result ≡ state_of state id fed.now }
{
    match state {
        State::Toggled => Some(toggled_number(fed.toggled(id)?)),
        State::Selected => Some(u32::from(fed.is_selected(id)?)),
        State::Orientation => Some(orientation_number(fed.orientation(id)?)),
        State::Live => Some(live_number(fed.live(id)?)),
    }
}

/// The number of the node's state that has this number.
fn state_in(fed: &FedTree, number: u32, id: FullNodeId) -> Option<u32>
    ensures { result ≡ state_in number id fed.now }
{
    let state = state_numbered(number)?;
    state_of(fed, state, id)
}

/// The number with this number, by the filter with that number.
fn count_in(fed: &FedTree, number: u32, filter: u32, id: FullNodeId) -> Option<usize>
    ensures { result ≡ count_in number filter id fed.now }
{
    let count = count_numbered(number)?;
    let filter = filter_numbered(filter)?;
    fed.count(id, count, filter)
}

/// The other node with this number, by the filter with that number.
fn relative_in(fed: &FedTree, number: u32, filter: u32, id: FullNodeId) -> Option<AkId>
    ensures { result ≡ relative_in number filter id fed.now }
{
    let relative = relative_numbered(number)?;
    let filter = filter_numbered(filter)?;
    let found = fed.relative(id, relative, filter)?;
    Some(id_of(found))
}

/// The node at an index, by the filter with this number.
fn child_at(fed: &FedTree, filter: u32, index: usize, id: FullNodeId) -> Option<AkId>
    ensures { result ≡ child_at filter index id fed.now }
{
    let filter = filter_numbered(filter)?;
    let found = fed.filtered_child(id, index, filter)?;
    Some(id_of(found))
}

/// The list with this number, by the filter with that number.
fn list_in(
    fed: &FedTree,
    number: u32,
    filter: u32,
    id: FullNodeId,
) -> Result<Option<Vec<FullNodeId>>, AllocError>
    ensures { IfOk result (λ ids. option_map (λ found. found.items) ids ≡ ids_listed number filter id fed.now) }
{
    let Some(list) = list_numbered(number) else {
        return Ok(None);
    };
    let Some(filter) = filter_numbered(filter) else {
        return Ok(None);
    };
    fed.list(id, list, filter)
}

/// Whether the node supports the action with this number, by the filter with that number.
fn action_in(fed: &FedTree, action: u32, filter: u32, id: FullNodeId) -> Option<bool>
    ensures { result ≡ action_in action filter id fed.now }
{
    let action = action_numbered(action)?;
    let filter = filter_numbered(filter)?;
    fed.supports_action(id, action, filter)
}

/// By how much the node is shifted.
fn transform_in(fed: &FedTree, id: FullNodeId) -> Option<AkPoint>
    ensures { result ≡ transform_in id fed.now }
{
    let by = fed.transform(id)?;
    Some(AkPoint {
        x: clamped(by.x),
        y: clamped(by.y),
    })
}

/// A coordinate less a shift, or the nearest number within 64 bits.
#[tactic(auto, using(crate::proofs::Computing::clamped_twice))]
fn less(coordinate: i64, by: i128) -> i64
    ensures { result ≡ saturate_signed w64 (coordinate -ℤ by) }
{
    clamped(i128::from(coordinate).saturating_sub(by))
}

/// A point in the node's own coordinates.
fn point_in(fed: &FedTree, x: i64, y: i64, id: FullNodeId) -> Option<AkPoint>
    ensures { result ≡ point_in x y id fed.now }
{
    let by = fed.transform(id)?;
    Some(AkPoint {
        x: less(x, by.x),
        y: less(y, by.y),
    })
}

/// The number of the state that has this number.
#[unsafe(no_mangle)]
pub extern "C" fn ak_node_state(
    alloc: Global,
    tree: &mut Handle,
    node: u64,
    tree_index: u32,
    state: u32,
    value: &mut u32,
) -> u8
    ensures kept { tree.new.block.fed ≡ tree.old.block.fed }
    ensures answer { Answers tree.old.block.fed (lack_by all_states state (node_id node tree_index))
        (state_in state (node_id node tree_index)) result value.old value.new }
{
    let id = node_id(node, tree_index);
    let taken = tree.take(alloc);
    let status = match &taken {
        Some(fed) => give_at(
            fed,
            id,
            state_numbered(state).is_some(),
            state_in(fed, state, id),
            value,
        ),
        None => CLOSED,
    };
    tree.put(alloc, taken);
    status
}

/// The number that has this number, by the filter with that number.
#[unsafe(no_mangle)]
pub extern "C" fn ak_node_count(
    alloc: Global,
    tree: &mut Handle,
    node: u64,
    tree_index: u32,
    count: u32,
    filter: u32,
    number: &mut usize,
) -> u8
    ensures kept { tree.new.block.fed ≡ tree.old.block.fed }
    ensures answer { Answers tree.old.block.fed (lack_by_two all_counts count filter (node_id node tree_index))
        (count_in count filter (node_id node tree_index)) result number.old number.new }
{
    let id = node_id(node, tree_index);
    let taken = tree.take(alloc);
    let status = match &taken {
        Some(fed) => give_at(
            fed,
            id,
            are_known(count_numbered(count).is_some(), filter),
            count_in(fed, count, filter, id),
            number,
        ),
        None => CLOSED,
    };
    tree.put(alloc, taken);
    status
}

/// The other node that has this number, by the filter with that number.
#[unsafe(no_mangle)]
pub extern "C" fn ak_node_relative(
    alloc: Global,
    tree: &mut Handle,
    node: u64,
    tree_index: u32,
    relative: u32,
    filter: u32,
    found: &mut AkId,
) -> u8
    ensures kept { tree.new.block.fed ≡ tree.old.block.fed }
    ensures answer { Answers tree.old.block.fed (lack_by_two all_relatives relative filter (node_id node tree_index))
        (relative_in relative filter (node_id node tree_index)) result found.old found.new }
{
    let id = node_id(node, tree_index);
    let taken = tree.take(alloc);
    let status = match &taken {
        Some(fed) => give_at(
            fed,
            id,
            are_known(relative_numbered(relative).is_some(), filter),
            relative_in(fed, relative, filter, id),
            found,
        ),
        None => CLOSED,
    };
    tree.put(alloc, taken);
    status
}

/// The node at an index among those that the filter shows in place of the node's children.
#[unsafe(no_mangle)]
pub extern "C" fn ak_node_child_at(
    alloc: Global,
    tree: &mut Handle,
    node: u64,
    tree_index: u32,
    filter: u32,
    index: usize,
    child: &mut AkId,
) -> u8
    ensures kept { tree.new.block.fed ≡ tree.old.block.fed }
    ensures answer { Answers tree.old.block.fed (lack_by all_filters filter (node_id node tree_index))
        (child_at filter index (node_id node tree_index)) result child.old child.new }
{
    let id = node_id(node, tree_index);
    let taken = tree.take(alloc);
    let status = match &taken {
        Some(fed) => give_at(
            fed,
            id,
            filter_numbered(filter).is_some(),
            child_at(fed, filter, index, id),
            child,
        ),
        None => CLOSED,
    };
    tree.put(alloc, taken);
    status
}

/// The list of nodes that has this number, by the filter with that number, as far as there is room for them, and how many there are.
#[tactic(auto, using(crate::proofs::Asked::ids_answered))]
#[unsafe(no_mangle)]
pub extern "C" fn ak_node_list(
    alloc: Global,
    tree: &mut Handle,
    node: u64,
    tree_index: u32,
    list: u32,
    filter: u32,
    buffer: &mut [AkId],
    count: &mut usize,
) -> u8
    ensures kept { tree.new.block.fed ≡ tree.old.block.fed }
    ensures answer { AnswersList tree.old.block.fed (lack_by_two all_lists list filter (node_id node tree_index))
        (list_in list filter (node_id node tree_index))
        result buffer.old buffer.new count.old count.new }
{
    let id = node_id(node, tree_index);
    let taken = tree.take(alloc);
    let status = match &taken {
        Some(fed) => give_ids_at(
            alloc,
            fed,
            id,
            are_known(list_numbered(list).is_some(), filter),
            list_in(fed, list, filter, id),
            buffer,
            count,
        ),
        None => CLOSED,
    };
    tree.put(alloc, taken);
    status
}

/// Whether the node supports the action with this number, by the filter with that number.
#[unsafe(no_mangle)]
pub extern "C" fn ak_node_supports_action(
    alloc: Global,
    tree: &mut Handle,
    node: u64,
    tree_index: u32,
    action: u32,
    filter: u32,
    supports: &mut bool,
) -> u8
    ensures kept { tree.new.block.fed ≡ tree.old.block.fed }
    ensures answer { Answers tree.old.block.fed
        (lack_where (is_some (action_said action) && is_some (slice_get all_filters filter)) (node_id node tree_index))
        (action_in action filter (node_id node tree_index)) result supports.old supports.new }
{
    let id = node_id(node, tree_index);
    let taken = tree.take(alloc);
    let status = match &taken {
        Some(fed) => give_at(
            fed,
            id,
            are_known(action_numbered(action).is_some(), filter),
            action_in(fed, action, filter, id),
            supports,
        ),
        None => CLOSED,
    };
    tree.put(alloc, taken);
    status
}

/// Which of the flags that are asked for the node is: bit by bit, by the numbers of the flags.
#[unsafe(no_mangle)]
pub extern "C" fn ak_node_flags(
    alloc: Global,
    tree: &mut Handle,
    node: u64,
    tree_index: u32,
    wanted: u64,
    set: &mut u64,
) -> u8
    ensures kept { tree.new.block.fed ≡ tree.old.block.fed }
    ensures answer { Answers tree.old.block.fed (lack_at (node_id node tree_index))
        (flags_in wanted (node_id node tree_index)) result set.old set.new }
{
    let id = node_id(node, tree_index);
    let taken = tree.take(alloc);
    let status = match &taken {
        Some(fed) => give_at(fed, id, true, fed.flags(id, flags(), wanted), set),
        None => CLOSED,
    };
    tree.put(alloc, taken);
    status
}

/// By how much the node is shifted, with all its ancestors.
#[unsafe(no_mangle)]
pub extern "C" fn ak_node_transform(
    alloc: Global,
    tree: &mut Handle,
    node: u64,
    tree_index: u32,
    by: &mut AkPoint,
) -> u8
    ensures kept { tree.new.block.fed ≡ tree.old.block.fed }
    ensures answer { Answers tree.old.block.fed (lack_at (node_id node tree_index))
        (transform_in (node_id node tree_index)) result by.old by.new }
{
    let id = node_id(node, tree_index);
    let taken = tree.take(alloc);
    let status = match &taken {
        Some(fed) => give_at(fed, id, true, transform_in(fed, id), by),
        None => CLOSED,
    };
    tree.put(alloc, taken);
    status
}

/// A point in the node's own coordinates.
#[unsafe(no_mangle)]
pub extern "C" fn ak_node_point(
    alloc: Global,
    tree: &mut Handle,
    node: u64,
    tree_index: u32,
    x: i64,
    y: i64,
    own: &mut AkPoint,
) -> u8
    ensures kept { tree.new.block.fed ≡ tree.old.block.fed }
    ensures answer { Answers tree.old.block.fed (lack_at (node_id node tree_index))
        (point_in x y (node_id node tree_index)) result own.old own.new }
{
    let id = node_id(node, tree_index);
    let taken = tree.take(alloc);
    let status = match &taken {
        Some(fed) => give_at(fed, id, true, point_in(fed, x, y, id), own),
        None => CLOSED,
    };
    tree.put(alloc, taken);
    status
}
