//! The exports that read a field of a node that has many items, as the last update of the node set it: lists, texts and the id of a tree.
ghost use Rattle.std.specs.Prelude.{◌≡◌, IfOk, is_some, map, option_copied, option_map};
ghost use Rattle.fed_tree_c.specs.Fields.{AnswersFieldList, AnswersItems, action_number, actions_of, field_in, ids_of, numbers_of, reads_by, text_of, tree_of, units_of};
ghost use Rattle.fed_tree_c.specs.Records.{node_id};

use crate::buffers::{give_items_at, give_list_at};
use crate::field_records::action_number;
use crate::handle::Handle;
use crate::records::{CLOSED, node_id};
use fed_tree::FedTree;
use model::FullNodeId;
use schema::{Action, NodeId};
use script_nodes::{Field, field_numbered};
use std::alloc::{AllocError, Global};

/// The bytes of the text in the field with this number.
fn text_in(fed: &FedTree, number: u32, id: FullNodeId) -> Option<&[u8]>
    ensures { option_copied result ≡ field_in text_of number id fed.now }
{
    let field = field_numbered(number)?;
    let node = fed.data(id)?;
    match field {
        Field::Text(which) => Some(which.of(node)?.as_bytes()),
        _ => None,
    }
}

/// Whether the field with this number has such a value.
fn is_text(number: u32) -> bool
    ensures { result ≡ is_some (reads_by text_of number) }
{
    matches!(field_numbered(number), Some(Field::Text(_)))
}

/// The numbers in the field with this number.
fn numbers_in(fed: &FedTree, number: u32, id: FullNodeId) -> Option<&[u16]>
    ensures { option_copied result ≡ field_in numbers_of number id fed.now }
{
    let field = field_numbered(number)?;
    let node = fed.data(id)?;
    match field {
        Field::Numbers(which) => Some(which.of(node)),
        _ => None,
    }
}

/// Whether the field with this number has such a value.
fn is_numbers(number: u32) -> bool
    ensures { result ≡ is_some (reads_by numbers_of number) }
{
    matches!(field_numbered(number), Some(Field::Numbers(_)))
}

/// The lengths in the field with this number.
fn units_in(fed: &FedTree, number: u32, id: FullNodeId) -> Option<&[i32]>
    ensures { option_copied result ≡ field_in units_of number id fed.now }
{
    let field = field_numbered(number)?;
    let node = fed.data(id)?;
    match field {
        Field::Units(which) => which.of(node),
        _ => None,
    }
}

/// Whether the field with this number has such a value.
fn is_units(number: u32) -> bool
    ensures { result ≡ is_some (reads_by units_of number) }
{
    matches!(field_numbered(number), Some(Field::Units(_)))
}

/// The numbers of the nodes.
fn numbers_of_nodes(alloc: Global, ids: &[NodeId]) -> Result<Vec<u64>, AllocError>
    ensures { IfOk result (λ numbers. numbers.items ≡ map (λ id. id.0) ids.now) }
{
    let mut numbers = Vec::with_capacity(alloc, ids.len())?;
    for id in ids {
        numbers.push(id.0)?;
    }
    Ok(numbers)
}

/// The nodes in the field with this number, by their numbers.
fn ids_in(
    alloc: Global,
    fed: &FedTree,
    number: u32,
    id: FullNodeId,
) -> Result<Option<Vec<u64>>, AllocError>
    ensures { IfOk result (λ found. option_map (λ numbers. numbers.items) found ≡ field_in ids_of number id fed.now) }
{
    let (Some(field), Some(node)) = (field_numbered(number), fed.data(id)) else {
        return Ok(None);
    };
    match field {
        Field::Ids(which) => Ok(Some(numbers_of_nodes(alloc, which.of(node))?)),
        _ => Ok(None),
    }
}

/// Whether the field with this number has such a value.
fn is_ids(number: u32) -> bool
    ensures { result ≡ is_some (reads_by ids_of number) }
{
    matches!(field_numbered(number), Some(Field::Ids(_)))
}

/// The numbers of the actions.
fn numbers_of_actions(alloc: Global, actions: &[Action]) -> Result<Vec<u32>, AllocError>
    ensures { IfOk result (λ numbers. numbers.items ≡ map action_number actions.now) }
{
    let mut numbers = Vec::with_capacity(alloc, actions.len())?;
    for action in actions {
        numbers.push(action_number(*action))?;
    }
    Ok(numbers)
}

/// The actions in the field with this number, by their numbers.
fn actions_in(
    alloc: Global,
    fed: &FedTree,
    number: u32,
    id: FullNodeId,
) -> Result<Option<Vec<u32>>, AllocError>
    ensures { IfOk result (λ found. option_map (λ numbers. numbers.items) found ≡ field_in actions_of number id fed.now) }
{
    let (Some(field), Some(node)) = (field_numbered(number), fed.data(id)) else {
        return Ok(None);
    };
    match field {
        Field::Actions(which) => {
            let actions = which.of(alloc, node)?;
            Ok(Some(numbers_of_actions(alloc, &actions)?))
        }
        _ => Ok(None),
    }
}

/// Whether the field with this number has such a value.
fn is_actions(number: u32) -> bool
    ensures { result ≡ is_some (reads_by actions_of number) }
{
    matches!(field_numbered(number), Some(Field::Actions(_)))
}

/// The bytes of the id of the tree in the field with this number.
fn tree_in(fed: &FedTree, number: u32, id: FullNodeId) -> Option<[u8; 16]>
    ensures { result ≡ field_in tree_of number id fed.now }
{
    let field = field_numbered(number)?;
    let node = fed.data(id)?;
    match field {
        Field::Tree => Some(node.tree_id()?.0.into_bytes()),
        _ => None,
    }
}

/// The bytes as a slice.
fn bytes_of(id: &Option<[u8; 16]>) -> Option<&[u8]>
    ensures { option_copied result ≡ id.now }
{
    match id {
        Some(bytes) => Some(bytes.as_slice()),
        None => None,
    }
}

/// Whether the field with this number has such a value.
fn is_tree(number: u32) -> bool
    ensures { result ≡ is_some (reads_by tree_of number) }
{
    matches!(field_numbered(number), Some(Field::Tree))
}

/// A text, as it was sent, as far as there is room for it, and its length. What is typed into a password is answered too.
#[unsafe(no_mangle)]
pub extern "C" fn ak_field_text(
    alloc: Global,
    tree: &mut Handle,
    node: u64,
    tree_index: u32,
    field: u32,
    buffer: &mut [u8],
    length: &mut usize,
) -> u8
    ensures kept { tree.new.block.fed ≡ tree.old.block.fed }
    ensures answer { AnswersItems text_of field (node_id node tree_index) tree.old.block.fed
        result buffer.old buffer.new length.old length.new }
{
    let id = node_id(node, tree_index);
    let taken = tree.take(alloc);
    let status = match &taken {
        Some(fed) => give_items_at(
            fed,
            id,
            is_text(field),
            text_in(fed, field, id),
            buffer,
            length,
        ),
        None => CLOSED,
    };
    tree.put(alloc, taken);
    status
}

/// A list of numbers of a text run, as far as there is room for it, and how many there are.
#[unsafe(no_mangle)]
pub extern "C" fn ak_field_numbers(
    alloc: Global,
    tree: &mut Handle,
    node: u64,
    tree_index: u32,
    field: u32,
    buffer: &mut [u16],
    count: &mut usize,
) -> u8
    ensures kept { tree.new.block.fed ≡ tree.old.block.fed }
    ensures answer { AnswersItems numbers_of field (node_id node tree_index) tree.old.block.fed
        result buffer.old buffer.new count.old count.new }
{
    let id = node_id(node, tree_index);
    let taken = tree.take(alloc);
    let status = match &taken {
        Some(fed) => give_items_at(
            fed,
            id,
            is_numbers(field),
            numbers_in(fed, field, id),
            buffer,
            count,
        ),
        None => CLOSED,
    };
    tree.put(alloc, taken);
    status
}

/// A list of lengths of a text run, as far as there is room for it, and how many there are.
#[unsafe(no_mangle)]
pub extern "C" fn ak_field_units(
    alloc: Global,
    tree: &mut Handle,
    node: u64,
    tree_index: u32,
    field: u32,
    buffer: &mut [i32],
    count: &mut usize,
) -> u8
    ensures kept { tree.new.block.fed ≡ tree.old.block.fed }
    ensures answer { AnswersItems units_of field (node_id node tree_index) tree.old.block.fed
        result buffer.old buffer.new count.old count.new }
{
    let id = node_id(node, tree_index);
    let taken = tree.take(alloc);
    let status = match &taken {
        Some(fed) => give_items_at(
            fed,
            id,
            is_units(field),
            units_in(fed, field, id),
            buffer,
            count,
        ),
        None => CLOSED,
    };
    tree.put(alloc, taken);
    status
}

/// A list of nodes, by their numbers in the node's tree, as far as there is room for it, and how many there are.
#[tactic(auto, using(crate::proofs::Asked::text_answered))]
#[unsafe(no_mangle)]
pub extern "C" fn ak_field_ids(
    alloc: Global,
    tree: &mut Handle,
    node: u64,
    tree_index: u32,
    field: u32,
    buffer: &mut [u64],
    count: &mut usize,
) -> u8
    ensures kept { tree.new.block.fed ≡ tree.old.block.fed }
    ensures answer { AnswersFieldList ids_of field (node_id node tree_index) tree.old.block.fed
        result buffer.old buffer.new count.old count.new }
{
    let id = node_id(node, tree_index);
    let taken = tree.take(alloc);
    let status = match &taken {
        Some(fed) => give_list_at(
            fed,
            id,
            is_ids(field),
            ids_in(alloc, fed, field, id),
            buffer,
            count,
        ),
        None => CLOSED,
    };
    tree.put(alloc, taken);
    status
}

/// A set of actions, by their numbers, as far as there is room for it, and how many there are.
#[tactic(auto, using(crate::proofs::Asked::text_answered))]
#[unsafe(no_mangle)]
pub extern "C" fn ak_field_actions(
    alloc: Global,
    tree: &mut Handle,
    node: u64,
    tree_index: u32,
    field: u32,
    buffer: &mut [u32],
    count: &mut usize,
) -> u8
    ensures kept { tree.new.block.fed ≡ tree.old.block.fed }
    ensures answer { AnswersFieldList actions_of field (node_id node tree_index) tree.old.block.fed
        result buffer.old buffer.new count.old count.new }
{
    let id = node_id(node, tree_index);
    let taken = tree.take(alloc);
    let status = match &taken {
        Some(fed) => give_list_at(
            fed,
            id,
            is_actions(field),
            actions_in(alloc, fed, field, id),
            buffer,
            count,
        ),
        None => CLOSED,
    };
    tree.put(alloc, taken);
    status
}

/// The sixteen bytes of a tree's id, as far as there is room for them, and how many there are.
#[unsafe(no_mangle)]
pub extern "C" fn ak_field_tree(
    alloc: Global,
    tree: &mut Handle,
    node: u64,
    tree_index: u32,
    field: u32,
    buffer: &mut [u8],
    length: &mut usize,
) -> u8
    ensures kept { tree.new.block.fed ≡ tree.old.block.fed }
    ensures answer { AnswersItems tree_of field (node_id node tree_index) tree.old.block.fed
        result buffer.old buffer.new length.old length.new }
{
    let id = node_id(node, tree_index);
    let taken = tree.take(alloc);
    let status = match &taken {
        Some(fed) => give_items_at(
            fed,
            id,
            is_tree(field),
            bytes_of(&tree_in(fed, field, id)),
            buffer,
            length,
        ),
        None => CLOSED,
    };
    tree.put(alloc, taken);
    status
}
