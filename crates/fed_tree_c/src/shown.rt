//! The exports that ask where a node lies, what it is, and what filters show.
ghost use Rattle.std.specs.Prelude.{◌≡◌, IfOk, Some, option_and_then, option_map, slice_get};
ghost use Rattle.std.specs.Int.{saturate_signed, w64};
ghost use Rattle.model.specs.Filters.{filter_named};
ghost use Rattle.model.specs.Frontier.{filtered_children};
ghost use Rattle.fed_tree.specs.Reads.{read_of};
ghost use Rattle.fed_tree_c.specs.Answers.{Answers, AnswersList, lack_at, lack_by};
ghost use Rattle.fed_tree_c.specs.Numbers.{all_filters, all_flags};
ghost use Rattle.fed_tree_c.specs.Questions.{answer_in, bounds_in, filtered_children_in, filtered_parent_in, flag_in, hit_in, role_number_in};
ghost use Rattle.fed_tree_c.specs.Records.{bounds_of, id_of, node_id};

use crate::buffers::give_ids_at;
use crate::found::give_at;
use crate::handle::Handle;
use crate::numbers::{answer_number, filter_numbered, flag_numbered, role_code};
use crate::records::{AkBounds, AkId, CLOSED, id_of, node_id};
use fed_tree::FedTree;
use model::FullNodeId;
use schema::{Point, WideRect};
use std::alloc::{AllocError, Global};

/// The edge, or the nearest number within 64 bits.
pub(crate) fn clamped(edge: i128) -> i64
    ensures { result ≡ saturate_signed w64 edge }
{
    match i64::try_from(edge) {
        Ok(edge) => edge,
        Err(_) if edge < 0 => i64::MIN,
        Err(_) => i64::MAX,
    }
}

/// The box, as C sees it.
pub(crate) fn bounds_of(bounds: WideRect) -> AkBounds
    ensures { result ≡ bounds_of bounds }
{
    AkBounds {
        x0: clamped(bounds.x0),
        y0: clamped(bounds.y0),
        x1: clamped(bounds.x1),
        y1: clamped(bounds.y1),
    }
}

/// The node's box.
fn bounds_in(fed: &FedTree, id: FullNodeId) -> Option<AkBounds>
    ensures { result ≡ bounds_in id fed.now }
{
    let bounds = fed.bounding_box(id)?;
    Some(bounds_of(bounds))
}

/// The number of the node's role.
fn role_number_in(fed: &FedTree, id: FullNodeId) -> Option<u32>
    ensures { result ≡ role_number_in id fed.now }
{
    let role = fed.role(id)?;
    Some(role_code(role))
}

/// The answer to the flag with this number.
fn flag_in(fed: &FedTree, number: u32, id: FullNodeId) -> Option<bool>
    ensures { result ≡ flag_in number id fed.now }
{
    let flag = flag_numbered(number)?;
    fed.flag(id, flag)
}

/// The number of the filter's answer for the node.
fn answer_in(fed: &FedTree, number: u32, id: FullNodeId) -> Option<u32>
    ensures { result ≡ answer_in number id fed.now }
{
    let filter = filter_numbered(number)?;
    let answer = fed.filter_answer(id, filter)?;
    Some(answer_number(answer))
}

/// The node at the point, by the filter with this number.
fn hit_in(fed: &FedTree, number: u32, point: Point, id: FullNodeId) -> Option<AkId>
    ensures { result ≡ hit_in number point.x point.y id fed.now }
{
    let filter = filter_numbered(number)?;
    let found = fed.hit(id, point, filter)?;
    Some(id_of(found))
}

/// The nearest ancestor that the filter with this number includes.
fn filtered_parent_in(fed: &FedTree, number: u32, id: FullNodeId) -> Option<AkId>
    ensures { result ≡ filtered_parent_in number id fed.now }
{
    let filter = filter_numbered(number)?;
    let found = fed.filtered_parent(id, filter)?;
    Some(id_of(found))
}

/// The nodes that the filter with this number shows in place of the node's children.
fn filtered_children_in(
    fed: &FedTree,
    number: u32,
    id: FullNodeId,
) -> Result<Option<Vec<FullNodeId>>, AllocError>
    ensures { IfOk result (λ ids. option_map (λ found. found.items) ids
        ≡ option_and_then (λ filter. read_of fed.now.world id (λ w node. Some (filtered_children (filter_named filter w) w id)))
        (slice_get all_filters number)) }
{
    match filter_numbered(number) {
        Some(filter) => fed.filtered_children(id, filter),
        None => Ok(None),
    }
}

/// The number of the node's role.
#[unsafe(no_mangle)]
pub extern "C" fn ak_node_role_number(
    alloc: Global,
    tree: &mut Handle,
    node: u64,
    tree_index: u32,
    number: &mut u32,
) -> u8
    ensures kept { tree.new.block.fed ≡ tree.old.block.fed }
    ensures answer { Answers tree.old.block.fed (lack_at (node_id node tree_index)) (role_number_in (node_id node tree_index))
        result number.old number.new }
{
    let id = node_id(node, tree_index);
    let taken = tree.take(alloc);
    let status = match &taken {
        Some(fed) => give_at(fed, id, true, role_number_in(fed, id), number),
        None => CLOSED,
    };
    tree.put(alloc, taken);
    status
}

/// The node's rectangle after all translations, in units of 1/64 pixel.
#[unsafe(no_mangle)]
pub extern "C" fn ak_node_bounds(
    alloc: Global,
    tree: &mut Handle,
    node: u64,
    tree_index: u32,
    bounds: &mut AkBounds,
) -> u8
    ensures kept { tree.new.block.fed ≡ tree.old.block.fed }
    ensures answer { Answers tree.old.block.fed (lack_at (node_id node tree_index)) (bounds_in (node_id node tree_index))
        result bounds.old bounds.new }
{
    let id = node_id(node, tree_index);
    let taken = tree.take(alloc);
    let status = match &taken {
        Some(fed) => give_at(fed, id, true, bounds_in(fed, id), bounds),
        None => CLOSED,
    };
    tree.put(alloc, taken);
    status
}

/// Whether the node is what the flag with this number says.
#[unsafe(no_mangle)]
pub extern "C" fn ak_node_flag(
    alloc: Global,
    tree: &mut Handle,
    node: u64,
    tree_index: u32,
    flag: u32,
    is_set: &mut bool,
) -> u8
    ensures kept { tree.new.block.fed ≡ tree.old.block.fed }
    ensures answer { Answers tree.old.block.fed (lack_by all_flags flag (node_id node tree_index))
        (flag_in flag (node_id node tree_index)) result is_set.old is_set.new }
{
    let id = node_id(node, tree_index);
    let taken = tree.take(alloc);
    let status = match &taken {
        Some(fed) => give_at(
            fed,
            id,
            flag_numbered(flag).is_some(),
            flag_in(fed, flag, id),
            is_set,
        ),
        None => CLOSED,
    };
    tree.put(alloc, taken);
    status
}

/// The number of the filter's answer for the node: 0 where it is included, 1 excluded alone, 2 with its subtree.
#[unsafe(no_mangle)]
pub extern "C" fn ak_node_filter(
    alloc: Global,
    tree: &mut Handle,
    node: u64,
    tree_index: u32,
    filter: u32,
    answer: &mut u32,
) -> u8
    ensures kept { tree.new.block.fed ≡ tree.old.block.fed }
    ensures answer { Answers tree.old.block.fed (lack_by all_filters filter (node_id node tree_index))
        (answer_in filter (node_id node tree_index)) result answer.old answer.new }
{
    let id = node_id(node, tree_index);
    let taken = tree.take(alloc);
    let status = match &taken {
        Some(fed) => give_at(
            fed,
            id,
            filter_numbered(filter).is_some(),
            answer_in(fed, filter, id),
            answer,
        ),
        None => CLOSED,
    };
    tree.put(alloc, taken);
    status
}

/// The node at a point, among this one and those below it, which the filter includes.
#[unsafe(no_mangle)]
pub extern "C" fn ak_node_hit(
    alloc: Global,
    tree: &mut Handle,
    node: u64,
    tree_index: u32,
    x: i64,
    y: i64,
    filter: u32,
    hit: &mut AkId,
) -> u8
    ensures kept { tree.new.block.fed ≡ tree.old.block.fed }
    ensures answer { Answers tree.old.block.fed (lack_by all_filters filter (node_id node tree_index))
        (hit_in filter x y (node_id node tree_index)) result hit.old hit.new }
{
    let id = node_id(node, tree_index);
    let taken = tree.take(alloc);
    let status = match &taken {
        Some(fed) => give_at(
            fed,
            id,
            filter_numbered(filter).is_some(),
            hit_in(fed, filter, Point { x, y }, id),
            hit,
        ),
        None => CLOSED,
    };
    tree.put(alloc, taken);
    status
}

/// The nearest ancestor of the node that the filter includes.
#[unsafe(no_mangle)]
pub extern "C" fn ak_node_filtered_parent(
    alloc: Global,
    tree: &mut Handle,
    node: u64,
    tree_index: u32,
    filter: u32,
    parent: &mut AkId,
) -> u8
    ensures kept { tree.new.block.fed ≡ tree.old.block.fed }
    ensures answer { Answers tree.old.block.fed (lack_by all_filters filter (node_id node tree_index))
        (filtered_parent_in filter (node_id node tree_index)) result parent.old parent.new }
{
    let id = node_id(node, tree_index);
    let taken = tree.take(alloc);
    let status = match &taken {
        Some(fed) => give_at(
            fed,
            id,
            filter_numbered(filter).is_some(),
            filtered_parent_in(fed, filter, id),
            parent,
        ),
        None => CLOSED,
    };
    tree.put(alloc, taken);
    status
}

/// The nodes that the filter shows in place of the node's children, as far as there is room for them, and how many there are.
#[tactic(auto, using(crate::proofs::Asked::ids_answered))]
#[unsafe(no_mangle)]
pub extern "C" fn ak_node_filtered_children(
    alloc: Global,
    tree: &mut Handle,
    node: u64,
    tree_index: u32,
    filter: u32,
    buffer: &mut [AkId],
    count: &mut usize,
) -> u8
    ensures kept { tree.new.block.fed ≡ tree.old.block.fed }
    ensures answer { AnswersList tree.old.block.fed (lack_by all_filters filter (node_id node tree_index))
        (filtered_children_in filter (node_id node tree_index))
        result buffer.old buffer.new count.old count.new }
{
    let id = node_id(node, tree_index);
    let taken = tree.take(alloc);
    let status = match &taken {
        Some(fed) => give_ids_at(
            alloc,
            fed,
            id,
            filter_numbered(filter).is_some(),
            filtered_children_in(fed, filter, id),
            buffer,
            count,
        ),
        None => CLOSED,
    };
    tree.put(alloc, taken);
    status
}
