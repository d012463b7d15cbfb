//! What is sent of a node, as plain data.

use crate::sketches::ids::{node_ids, tree_id};
use schema::{Node, NodeId, Rect, Role, TextDirection, Translation};
use std::alloc::{AllocError, Global};

/// What is sent of a node beside its role.
pub enum Has {
    Children(&'static [u64]),
    Graft(u128),
    Label(&'static str),
    Value(&'static str),
    Hidden,
    // runs of text
    /// How many bytes each character has.
    Lengths(&'static [u16]),
    /// With which characters words start.
    Words(&'static [u16]),
    Previous(u64),
    Next(u64),
    Positions(&'static [i32]),
    Widths(&'static [i32]),
    // looks
    Bounds(i32, i32, i32, i32),
    Move(i32, i32),
    Direction(TextDirection),
    FontSize(u32),
}

fn set_children(alloc: Global, node: &mut Node, numbers: &[u64]) -> Result<(), AllocError> {
    let children = node_ids(alloc, numbers)?;
    node.set_children(&children)
}

/// Gives a run what it has for each character or word.
fn give_list(node: &mut Node, has: &Has) -> Result<(), AllocError> {
    match *has {
        Has::Lengths(lengths) => node.set_character_lengths(lengths),
        Has::Words(words) => node.set_word_starts(words),
        Has::Positions(positions) => node.set_character_positions(positions),
        Has::Widths(widths) => node.set_character_widths(widths),
        _ => Ok(()),
    }
}

fn give_place(node: &mut Node, has: &Has) {
    match *has {
        Has::Previous(run) => node.set_previous_on_line(NodeId(run)),
        Has::Next(run) => node.set_next_on_line(NodeId(run)),
        Has::Bounds(x0, y0, x1, y1) => node.set_bounds(Rect::new(x0, y0, x1, y1)),
        Has::Move(x, y) => node.set_transform(Translation::new(x, y)),
        _ => {}
    }
}

/// Sets the node's fields that need no allocation.
fn give_plain(node: &mut Node, has: &Has) {
    match *has {
        Has::Graft(name) => node.set_tree_id(tree_id(name)),
        Has::Hidden => node.set_hidden(),
        Has::Direction(direction) => node.set_text_direction(direction),
        Has::FontSize(size) => node.set_font_size(size),
        _ => give_place(node, has),
    }
}

/// Gives the node what it is to have.
fn give(alloc: Global, node: &mut Node, has: &Has) -> Result<(), AllocError> {
    match *has {
        Has::Children(numbers) => set_children(alloc, node, numbers),
        Has::Label(text) => node.set_label(text),
        Has::Value(text) => node.set_value(text),
        Has::Lengths(_) | Has::Words(_) | Has::Positions(_) | Has::Widths(_) => {
            give_list(node, has)
        }
        _ => {
            give_plain(node, has);
            Ok(())
        }
    }
}

/// A node of this role that has all this.
pub fn node_of(alloc: Global, role: Role, having: &[Has]) -> Result<Node, AllocError> {
    let mut node = Node::new(alloc, role);
    for has in having {
        give(alloc, &mut node, has)?;
    }
    Ok(node)
}
