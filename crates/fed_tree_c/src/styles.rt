//! The exports that ask how the text of a node looks.
ghost use Rattle.std.specs.Prelude.{◌≡◌, ◌&&◌, IfOk, is_some, option_map, slice_get, string_bytes};
ghost use Rattle.fed_tree_c.specs.Answers.{Answers, AnswersList, lack_by};
ghost use Rattle.fed_tree_c.specs.Kinds.{all_styles};
ghost use Rattle.fed_tree_c.specs.Records.{node_id};
ghost use Rattle.fed_tree_c.specs.Spotting.{lack_said, spot_said};
ghost use Rattle.fed_tree_c.specs.Styling.{AnswersDiffers, DiffersSaid, colored, numbered_style, style_in, style_of, style_text_in, text_style_in, text_style_text_in};

use crate::buffers::give_text_at;
use crate::choice_numbers::{
    decoration_style_number, text_align_number, text_direction_number, vertical_offset_number,
};
use crate::found::give_at;
use crate::handle::Handle;
use crate::kinds::style_numbered;
use crate::records::{CLOSED, node_id};
use crate::spots::{AkSpot, both, is_spot, spot_said};
use fed_tree::{FedTree, StyleValue};
use model::FullNodeId;
use schema::Color;
use std::alloc::{AllocError, Global};

/// The value of a property of how text looks that isn't a text.
#[repr(C)]
#[derive(Clone, Copy)]
pub struct AkStyleValue {
    /// A size in hundredths of a pixel, a weight, a choice or the style of a line by its number, 1 for italic text; else 0.
    pub number: u32,
    /// The parts of a colour, or of that of a line; else 0.
    pub red: u8,
    pub green: u8,
    pub blue: u8,
    pub alpha: u8,
}

/// A number without a colour.
fn numbered_style(number: u32) -> AkStyleValue
    ensures { result ≡ numbered_style number }
{
    AkStyleValue {
        number,
        red: 0,
        green: 0,
        blue: 0,
        alpha: 0,
    }
}

/// A number with a colour.
fn colored(number: u32, color: Color) -> AkStyleValue
    ensures { result ≡ colored number color }
{
    AkStyleValue {
        number,
        red: color.red,
        green: color.green,
        blue: color.blue,
        alpha: color.alpha,
    }
}

/// The value, as C sees it.
pub(crate) fn style_of(value: StyleValue) -> AkStyleValue
    ensures { result ≡ style_of value }
{
    match value {
        StyleValue::Direction(direction) => numbered_style(text_direction_number(direction)),
        StyleValue::Size(size) => numbered_style(size),
        StyleValue::Weight(weight) => numbered_style(u32::from(weight)),
        StyleValue::Color(color) => colored(0, color),
        StyleValue::Line(line) => colored(decoration_style_number(line.style), line.color),
        StyleValue::Align(align) => numbered_style(text_align_number(align)),
        StyleValue::Offset(offset) => numbered_style(vertical_offset_number(offset)),
        StyleValue::Italic(is_italic) => numbered_style(u32::from(is_italic)),
    }
}

/// The node's value of the property with this number.
fn style_in(fed: &FedTree, number: u32, id: FullNodeId) -> Option<AkStyleValue>
    ensures { result ≡ style_in number id fed.now }
{
    let style = style_numbered(number)?;
    let value = fed.style(id, style)?;
    Some(style_of(value))
}

/// The value at a position in the node's text of the property with this number.
fn text_style_in(fed: &FedTree, spot: &AkSpot, number: u32, id: FullNodeId) -> Option<AkStyleValue>
    ensures { result ≡ text_style_in spot.now number id fed.now }
{
    let spot = spot_said(spot)?;
    let style = style_numbered(number)?;
    let value = fed.text_style(id, spot, style)?;
    Some(style_of(value))
}

/// The same of a property that is a text.
fn text_style_text_in(
    fed: &FedTree,
    spot: &AkSpot,
    number: u32,
    id: FullNodeId,
) -> Result<Option<String>, AllocError>
    ensures { IfOk result (λ text. option_map string_bytes text ≡ text_style_text_in spot.now number id fed.now) }
{
    let Some(spot) = spot_said(spot) else {
        return Ok(None);
    };
    match style_numbered(number) {
        Some(style) => fed.text_style_text(id, spot, style),
        None => Ok(None),
    }
}

/// Whether a part of the node's text differs in the property with this number.
#[tactic(auto, using(crate::proofs::Styling::differs_said))]
fn differs_in(
    fed: &FedTree,
    from: &AkSpot,
    to: &AkSpot,
    number: u32,
    id: FullNodeId,
) -> Option<bool>
    ensures { DiffersSaid from.now to.now number id fed.now result }
{
    let from = spot_said(from)?;
    let to = spot_said(to)?;
    let style = style_numbered(number)?;
    fed.differs(id, from, to, style)
}

/// The node's value of the property with this number, if that is a text.
fn style_text_in(fed: &FedTree, number: u32, id: FullNodeId) -> Result<Option<String>, AllocError>
    ensures { IfOk result (λ text. option_map string_bytes text ≡ style_text_in number id fed.now) }
{
    match style_numbered(number) {
        Some(style) => fed.style_text(id, style),
        None => Ok(None),
    }
}

/// The node's value of the property with this number, or that of the nearest ancestor that has one.
#[unsafe(no_mangle)]
pub extern "C" fn ak_node_style(
    alloc: Global,
    tree: &mut Handle,
    node: u64,
    tree_index: u32,
    property: u32,
    value: &mut AkStyleValue,
) -> u8
    ensures kept { tree.new.block.fed ≡ tree.old.block.fed }
    ensures answer { Answers tree.old.block.fed (lack_by all_styles property (node_id node tree_index))
        (style_in property (node_id node tree_index)) result value.old value.new }
{
    let id = node_id(node, tree_index);
    let taken = tree.take(alloc);
    let status = match &taken {
        Some(fed) => give_at(
            fed,
            id,
            style_numbered(property).is_some(),
            style_in(fed, property, id),
            value,
        ),
        None => CLOSED,
    };
    tree.put(alloc, taken);
    status
}

/// The same of a property that is a text, as far as there is room for it, and its length.
#[tactic(auto, using(crate::proofs::Asked::text_answered))]
#[unsafe(no_mangle)]
pub extern "C" fn ak_node_style_text(
    alloc: Global,
    tree: &mut Handle,
    node: u64,
    tree_index: u32,
    property: u32,
    buffer: &mut [u8],
    length: &mut usize,
) -> u8
    ensures kept { tree.new.block.fed ≡ tree.old.block.fed }
    ensures answer { AnswersList tree.old.block.fed (lack_by all_styles property (node_id node tree_index))
        (style_text_in property (node_id node tree_index))
        result buffer.old buffer.new length.old length.new }
{
    let id = node_id(node, tree_index);
    let taken = tree.take(alloc);
    let status = match &taken {
        Some(fed) => give_text_at(
            fed,
            id,
            style_numbered(property).is_some(),
            style_text_in(fed, property, id),
            buffer,
            length,
        ),
        None => CLOSED,
    };
    tree.put(alloc, taken);
    status
}

/// The value at a position in the node's text of the property with this number.
#[unsafe(no_mangle)]
pub extern "C" fn ak_text_style(
    alloc: Global,
    tree: &mut Handle,
    node: u64,
    tree_index: u32,
    spot: &AkSpot,
    property: u32,
    value: &mut AkStyleValue,
) -> u8
    ensures kept { tree.new.block.fed ≡ tree.old.block.fed }
    ensures answer { Answers tree.old.block.fed (lack_said spot.now all_styles property (node_id node tree_index))
        (text_style_in spot.now property (node_id node tree_index)) result value.old value.new }
{
    let id = node_id(node, tree_index);
    let taken = tree.take(alloc);
    let status = match &taken {
        Some(fed) => give_at(
            fed,
            id,
            both(is_spot(spot), style_numbered(property).is_some()),
            text_style_in(fed, spot, property, id),
            value,
        ),
        None => CLOSED,
    };
    tree.put(alloc, taken);
    status
}

/// The same of a property that is a text, as far as there is room for it, and its length.
#[tactic(auto, using(crate::proofs::Asked::text_answered))]
#[unsafe(no_mangle)]
pub extern "C" fn ak_text_style_text(
    alloc: Global,
    tree: &mut Handle,
    node: u64,
    tree_index: u32,
    spot: &AkSpot,
    property: u32,
    buffer: &mut [u8],
    length: &mut usize,
) -> u8
    ensures kept { tree.new.block.fed ≡ tree.old.block.fed }
    ensures answer { AnswersList tree.old.block.fed (lack_said spot.now all_styles property (node_id node tree_index))
        (text_style_text_in spot.now property (node_id node tree_index))
        result buffer.old buffer.new length.old length.new }
{
    let id = node_id(node, tree_index);
    let taken = tree.take(alloc);
    let status = match &taken {
        Some(fed) => give_text_at(
            fed,
            id,
            both(is_spot(spot), style_numbered(property).is_some()),
            text_style_text_in(fed, spot, property, id),
            buffer,
            length,
        ),
        None => CLOSED,
    };
    tree.put(alloc, taken);
    status
}

/// Whether two runs of the node's text between two positions have different values of the property with this number.
#[tactic(auto, using(crate::proofs::Styling::differs_answered, crate::proofs::Styling::differs_closed))]
#[unsafe(no_mangle)]
pub extern "C" fn ak_text_differs(
    alloc: Global,
    tree: &mut Handle,
    node: u64,
    tree_index: u32,
    from: &AkSpot,
    to: &AkSpot,
    property: u32,
    differs: &mut bool,
) -> u8
    ensures kept { tree.new.block.fed ≡ tree.old.block.fed }
    ensures answer { AnswersDiffers tree.old.block.fed from.now to.now property (node_id node tree_index) result differs.old differs.new }
{
    let id = node_id(node, tree_index);
    let taken = tree.take(alloc);
    let status = match &taken {
        Some(fed) => give_at(
            fed,
            id,
            both(
                is_spot(from),
                both(is_spot(to), style_numbered(property).is_some()),
            ),
            differs_in(fed, from, to, property, id),
            differs,
        ),
        None => CLOSED,
    };
    tree.put(alloc, taken);
    status
}
