//! The exports that set a field of the node that was begun last.
ghost use Rattle.std.specs.Prelude.{◌≡◌, ◌⊎◌, IfOk, map, min};
ghost use Rattle.script_nodes.specs.Given.{AsAction, AsBool, AsChoice, AsColor, AsCount, AsDecoration, AsFlag, AsId, AsIds, AsNumber, AsNumbers, AsRect, AsSelection, AsText, AsTranslation, AsTree, AsUnits, given};
ghost use Rattle.fed_tree.specs.Begun.{Builds, WantsMemory, with_value};
ghost use Rattle.fed_tree_c.specs.Numbers.{action_place};
ghost use Rattle.fed_tree_c.specs.Updates.{BuildsHeld, node_numbered, place_numbered};

use crate::handle::Handle;
use crate::numbers::{action_place, byte_of};
use crate::records::CLOSED;
use crate::updates::build_status;
use fed_tree::{BuildError, FedTree};
use schema::{Color, NodeId, Rect, TextPosition, TextSelection, Translation};
use script_nodes::FieldValue;
use std::alloc::{AllocError, Global};

/// Sets the field with this number.
#[tactic(auto, using(crate::proofs::Built::built_held))]
fn set_value(alloc: Global, tree: &mut Handle, field: u32, value: FieldValue<'_>) -> u8
    ensures { BuildsHeld (with_value field (given value.entry)) tree.old.block.fed result tree.new.block.fed }
{
    let mut taken = tree.take(alloc);
    let status = match &mut taken {
        Some(fed) => build_status(fed.set_value(field, value)),
        None => CLOSED,
    };
    tree.put(alloc, taken);
    status
}

/// The ids with these numbers.
fn node_ids(alloc: Global, numbers: &[u64]) -> Result<Vec<NodeId>, AllocError>
    ensures { IfOk result (λ ids. ids.items ≡ map node_numbered numbers.now) }
{
    let mut ids = Vec::with_capacity(alloc, numbers.len())?;
    for number in numbers {
        ids.push(NodeId(*number))?;
    }
    Ok(ids)
}

/// Sets a list of nodes.
fn set_ids(alloc: Global, fed: &mut FedTree, field: u32, numbers: &[u64]) -> Result<(), BuildError>
    ensures { WantsMemory fed.old result fed.new
        ⊎ Builds (with_value field (AsIds (map node_numbered numbers.now))) fed.old result fed.new }
{
    let Ok(ids) = node_ids(alloc, numbers) else {
        return Err(BuildError::Memory);
    };
    fed.set_value(field, FieldValue::Ids(&ids))
}

/// A list of nodes, by their numbers.
#[tactic(auto, using(crate::proofs::Built::built_held))]
#[unsafe(no_mangle)]
pub extern "C" fn ak_update_ids(alloc: Global, tree: &mut Handle, field: u32, ids: &[u64]) -> u8
    ensures { BuildsHeld (with_value field (AsIds (map node_numbered ids.now))) tree.old.block.fed result tree.new.block.fed }
{
    let mut taken = tree.take(alloc);
    let status = match &mut taken {
        Some(fed) => build_status(set_ids(alloc, fed, field, ids)),
        None => CLOSED,
    };
    tree.put(alloc, taken);
    status
}

/// A node, by its number.
#[unsafe(no_mangle)]
pub extern "C" fn ak_update_id(alloc: Global, tree: &mut Handle, field: u32, id: u64) -> u8
    ensures { BuildsHeld (with_value field (AsId (node_numbered id))) tree.old.block.fed result tree.new.block.fed }
{
    set_value(alloc, tree, field, FieldValue::Id(NodeId(id)))
}

/// A text.
#[unsafe(no_mangle)]
pub extern "C" fn ak_update_text(alloc: Global, tree: &mut Handle, field: u32, text: &[u8]) -> u8
    ensures { BuildsHeld (with_value field (AsText text.now)) tree.old.block.fed result tree.new.block.fed }
{
    set_value(alloc, tree, field, FieldValue::Text(text))
}

/// A flag, which is set.
#[unsafe(no_mangle)]
pub extern "C" fn ak_update_flag(alloc: Global, tree: &mut Handle, field: u32) -> u8
    ensures { BuildsHeld (with_value field AsFlag) tree.old.block.fed result tree.new.block.fed }
{
    set_value(alloc, tree, field, FieldValue::Flag)
}

/// A flag that may be unset.
#[unsafe(no_mangle)]
pub extern "C" fn ak_update_bool(alloc: Global, tree: &mut Handle, field: u32, is_so: bool) -> u8
    ensures { BuildsHeld (with_value field (AsBool is_so)) tree.old.block.fed result tree.new.block.fed }
{
    set_value(alloc, tree, field, FieldValue::Bool(is_so))
}

/// One of the values of a field that has few, by its number. None of them has a number above a byte.
#[unsafe(no_mangle)]
pub extern "C" fn ak_update_choice(alloc: Global, tree: &mut Handle, field: u32, choice: u32) -> u8
    ensures { BuildsHeld (with_value field (AsChoice (min choice 255))) tree.old.block.fed result tree.new.block.fed }
{
    set_value(alloc, tree, field, FieldValue::Choice(byte_of(choice)))
}

/// A number.
#[unsafe(no_mangle)]
pub extern "C" fn ak_update_number(alloc: Global, tree: &mut Handle, field: u32, number: i64) -> u8
    ensures { BuildsHeld (with_value field (AsNumber number)) tree.old.block.fed result tree.new.block.fed }
{
    set_value(alloc, tree, field, FieldValue::Number(number))
}

/// A count, or the size or the weight of a text.
#[unsafe(no_mangle)]
pub extern "C" fn ak_update_count(alloc: Global, tree: &mut Handle, field: u32, count: usize) -> u8
    ensures { BuildsHeld (with_value field (AsCount count)) tree.old.block.fed result tree.new.block.fed }
{
    set_value(alloc, tree, field, FieldValue::Count(count))
}

/// A list of numbers of a text run.
#[unsafe(no_mangle)]
pub extern "C" fn ak_update_numbers(
    alloc: Global,
    tree: &mut Handle,
    field: u32,
    numbers: &[u16],
) -> u8
    ensures { BuildsHeld (with_value field (AsNumbers numbers.now)) tree.old.block.fed result tree.new.block.fed }
{
    set_value(alloc, tree, field, FieldValue::Numbers(numbers))
}

/// A list of lengths of a text run.
#[unsafe(no_mangle)]
pub extern "C" fn ak_update_units(alloc: Global, tree: &mut Handle, field: u32, units: &[i32]) -> u8
    ensures { BuildsHeld (with_value field (AsUnits units.now)) tree.old.block.fed result tree.new.block.fed }
{
    set_value(alloc, tree, field, FieldValue::Units(units))
}

/// An action, which is added to the set.
#[unsafe(no_mangle)]
pub extern "C" fn ak_update_action(alloc: Global, tree: &mut Handle, field: u32, action: u32) -> u8
    ensures { BuildsHeld (with_value field (AsAction (action_place action))) tree.old.block.fed result tree.new.block.fed }
{
    set_value(alloc, tree, field, FieldValue::Action(action_place(action)))
}

/// The tree with this id, of sixteen bytes.
#[unsafe(no_mangle)]
pub extern "C" fn ak_update_tree(alloc: Global, tree: &mut Handle, field: u32, tree_id: &[u8]) -> u8
    ensures { BuildsHeld (with_value field (AsTree tree_id.now)) tree.old.block.fed result tree.new.block.fed }
{
    set_value(alloc, tree, field, FieldValue::Tree(tree_id))
}

/// A rectangle.
#[unsafe(no_mangle)]
pub extern "C" fn ak_update_rect(
    alloc: Global,
    tree: &mut Handle,
    field: u32,
    x0: i32,
    y0: i32,
    x1: i32,
    y1: i32,
) -> u8
    ensures { BuildsHeld (with_value field (AsRect (record { x0 = x0; y0 = y0; x1 = x1; y1 = y1 })))
        tree.old.block.fed result tree.new.block.fed }
{
    let rect = Rect { x0, y0, x1, y1 };
    set_value(alloc, tree, field, FieldValue::Rect(rect))
}

/// A translation.
#[unsafe(no_mangle)]
pub extern "C" fn ak_update_translation(
    alloc: Global,
    tree: &mut Handle,
    field: u32,
    x: i32,
    y: i32,
) -> u8
    ensures { BuildsHeld (with_value field (AsTranslation (record { x = x; y = y }))) tree.old.block.fed result tree.new.block.fed }
{
    let by = Translation { x, y };
    set_value(alloc, tree, field, FieldValue::Translation(by))
}

/// A selection: its fixed end and the end that moves, each a run and how many of its characters are before it.
#[unsafe(no_mangle)]
pub extern "C" fn ak_update_selection(
    alloc: Global,
    tree: &mut Handle,
    field: u32,
    anchor: u64,
    anchor_character: usize,
    focus: u64,
    focus_character: usize,
) -> u8
    ensures { BuildsHeld (with_value field (AsSelection
        (record { anchor = place_numbered anchor anchor_character; focus = place_numbered focus focus_character })))
        tree.old.block.fed result tree.new.block.fed }
{
    let selection = TextSelection {
        anchor: TextPosition {
            node: NodeId(anchor),
            character_index: anchor_character,
        },
        focus: TextPosition {
            node: NodeId(focus),
            character_index: focus_character,
        },
    };
    set_value(alloc, tree, field, FieldValue::Selection(selection))
}

/// A colour.
#[unsafe(no_mangle)]
pub extern "C" fn ak_update_color(
    alloc: Global,
    tree: &mut Handle,
    field: u32,
    red: u8,
    green: u8,
    blue: u8,
    alpha: u8,
) -> u8
    ensures { BuildsHeld (with_value field (AsColor (record { red = red; green = green; blue = blue; alpha = alpha })))
        tree.old.block.fed result tree.new.block.fed }
{
    let color = Color {
        red,
        green,
        blue,
        alpha,
    };
    set_value(alloc, tree, field, FieldValue::Color(color))
}

/// A line above, through or below text, by the number of its style and its colour.
#[unsafe(no_mangle)]
pub extern "C" fn ak_update_decoration(
    alloc: Global,
    tree: &mut Handle,
    field: u32,
    style: u32,
    red: u8,
    green: u8,
    blue: u8,
    alpha: u8,
) -> u8
    ensures { BuildsHeld (with_value field (AsDecoration (min style 255) (record { red = red; green = green; blue = blue; alpha = alpha })))
        tree.old.block.fed result tree.new.block.fed }
{
    let color = Color {
        red,
        green,
        blue,
        alpha,
    };
    set_value(
        alloc,
        tree,
        field,
        FieldValue::Decoration(byte_of(style), color),
    )
}
