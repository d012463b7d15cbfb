//! The exports that ask about a node, by its id.
ghost use Rattle.std.specs.Prelude.{◌≡◌};
ghost use Rattle.fed_tree_c.specs.Answers.{Answers, AnswersList, lack_at};
ghost use Rattle.fed_tree_c.specs.Questions.{children_in, label_in, parent_in, role_in, text_in, value_in};
ghost use Rattle.fed_tree_c.specs.Records.{node_id};

use crate::buffers::{give_ids_at, give_text_at};
use crate::found::give_id_at;
use crate::handle::Handle;
use crate::records::{AkId, CLOSED, node_id};
use std::alloc::Global;

/// The node's parent.
#[unsafe(no_mangle)]
pub extern "C" fn ak_node_parent(
    alloc: Global,
    tree: &mut Handle,
    node: u64,
    tree_index: u32,
    parent: &mut AkId,
) -> u8
    ensures kept { tree.new.block.fed ≡ tree.old.block.fed }
    ensures answer { Answers tree.old.block.fed (lack_at (node_id node tree_index)) (parent_in (node_id node tree_index))
        result parent.old parent.new }
{
    let id = node_id(node, tree_index);
    let taken = tree.take(alloc);
    let status = match &taken {
        Some(fed) => give_id_at(fed, id, true, fed.parent(id), parent),
        None => CLOSED,
    };
    tree.put(alloc, taken);
    status
}

/// The node's children, in order, as far as there is room for them, and how many there are.
#[tactic(auto, using(crate::proofs::Asked::ids_answered))]
#[unsafe(no_mangle)]
pub extern "C" fn ak_node_children(
    alloc: Global,
    tree: &mut Handle,
    node: u64,
    tree_index: u32,
    buffer: &mut [AkId],
    count: &mut usize,
) -> u8
    ensures kept { tree.new.block.fed ≡ tree.old.block.fed }
    ensures answer { AnswersList tree.old.block.fed (lack_at (node_id node tree_index)) (children_in (node_id node tree_index))
        result buffer.old buffer.new count.old count.new }
{
    let id = node_id(node, tree_index);
    let taken = tree.take(alloc);
    let status = match &taken {
        Some(fed) => give_ids_at(alloc, fed, id, true, fed.children(id), buffer, count),
        None => CLOSED,
    };
    tree.put(alloc, taken);
    status
}

/// The name of the node's role, as far as there is room for it, and its length.
#[tactic(auto, using(crate::proofs::Asked::text_answered))]
#[unsafe(no_mangle)]
pub extern "C" fn ak_node_role(
    alloc: Global,
    tree: &mut Handle,
    node: u64,
    tree_index: u32,
    buffer: &mut [u8],
    length: &mut usize,
) -> u8
    ensures kept { tree.new.block.fed ≡ tree.old.block.fed }
    ensures answer { AnswersList tree.old.block.fed (lack_at (node_id node tree_index)) (role_in (node_id node tree_index))
        result buffer.old buffer.new length.old length.new }
{
    let id = node_id(node, tree_index);
    let taken = tree.take(alloc);
    let status = match &taken {
        Some(fed) => give_text_at(fed, id, true, fed.role_name(id), buffer, length),
        None => CLOSED,
    };
    tree.put(alloc, taken);
    status
}

/// The node's label, as far as there is room for it, and its length.
#[tactic(auto, using(crate::proofs::Asked::text_answered))]
#[unsafe(no_mangle)]
pub extern "C" fn ak_node_label(
    alloc: Global,
    tree: &mut Handle,
    node: u64,
    tree_index: u32,
    buffer: &mut [u8],
    length: &mut usize,
) -> u8
    ensures kept { tree.new.block.fed ≡ tree.old.block.fed }
    ensures answer { AnswersList tree.old.block.fed (lack_at (node_id node tree_index)) (label_in (node_id node tree_index))
        result buffer.old buffer.new length.old length.new }
{
    let id = node_id(node, tree_index);
    let taken = tree.take(alloc);
    let status = match &taken {
        Some(fed) => give_text_at(fed, id, true, fed.label(id), buffer, length),
        None => CLOSED,
    };
    tree.put(alloc, taken);
    status
}

/// The node's value, as far as there is room for it, and its length.
#[tactic(auto, using(crate::proofs::Asked::text_answered))]
#[unsafe(no_mangle)]
pub extern "C" fn ak_node_value(
    alloc: Global,
    tree: &mut Handle,
    node: u64,
    tree_index: u32,
    buffer: &mut [u8],
    length: &mut usize,
) -> u8
    ensures kept { tree.new.block.fed ≡ tree.old.block.fed }
    ensures answer { AnswersList tree.old.block.fed (lack_at (node_id node tree_index)) (value_in (node_id node tree_index))
        result buffer.old buffer.new length.old length.new }
{
    let id = node_id(node, tree_index);
    let taken = tree.take(alloc);
    let status = match &taken {
        Some(fed) => give_text_at(fed, id, true, fed.value(id), buffer, length),
        None => CLOSED,
    };
    tree.put(alloc, taken);
    status
}

/// The whole text of the node's runs, as far as there is room for it, and its length.
#[tactic(auto, using(crate::proofs::Asked::text_answered))]
#[unsafe(no_mangle)]
pub extern "C" fn ak_node_text(
    alloc: Global,
    tree: &mut Handle,
    node: u64,
    tree_index: u32,
    buffer: &mut [u8],
    length: &mut usize,
) -> u8
    ensures kept { tree.new.block.fed ≡ tree.old.block.fed }
    ensures answer { AnswersList tree.old.block.fed (lack_at (node_id node tree_index)) (text_in (node_id node tree_index))
        result buffer.old buffer.new length.old length.new }
{
    let id = node_id(node, tree_index);
    let taken = tree.take(alloc);
    let status = match &taken {
        Some(fed) => give_text_at(fed, id, true, fed.text(id), buffer, length),
        None => CLOSED,
    };
    tree.put(alloc, taken);
    status
}
