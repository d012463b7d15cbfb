//! Setting a field of a node to a value that isn't text of a line.

ghost use Rattle.std.specs.Prelude.{◌^◌, nat_lt, Some, None, if◌then◌else◌};
ghost use Rattle.std.specs.Str.{is_utf8};
ghost use Rattle.schema.specs.Actions.{with_action};
ghost use Rattle.script_nodes.specs.ActionLists.{action_numbered};
ghost use Rattle.script_nodes.specs.FieldKinds.{actions_at, with_actions_field, with_text};
ghost use Rattle.script_nodes.specs.Given.{Becomes, Sets, given, given_action, given_bool, given_color, given_count, given_decoration, given_flag, given_id, given_ids, given_number, given_numbers, given_rect, given_selection, given_text, given_translation, given_tree, given_units, with_given};

use crate::action_sets::{ACTIONS, action_numbered};
use crate::choices::{decoration_style_numbered, set_choice};
use crate::field_kinds::{ActionsField, Field, TextField};
use schema::{Color, Node, NodeId, Rect, TextDecoration, TextSelection, Translation, TreeId};
use std::alloc::AllocError;
use uuid::Uuid;

/// A value of a field.
#[derive(Clone, Copy)]
pub enum FieldValue<'a> {
    Ids(&'a [NodeId]),
    Id(NodeId),
    /// UTF-8.
    Text(&'a [u8]),
    /// A flag is set.
    Flag,
    Numbers(&'a [u16]),
    /// In units of 1/64 pixel.
    Units(&'a [i32]),
    Bool(bool),
    Color(Color),
    /// The number of the line's style, and its colour.
    Decoration(u8, Color),
    /// In the field's unit: 1/1000, or 1/64 pixel.
    Number(i64),
    /// A count; the size of a text in 1/100 pixel, or its weight.
    Count(usize),
    /// The number of an action, which is added to a set: 0 to 3 for those with names, and 4 more than its number for another.
    Action(u16),
    /// A tree's name, sixteen bytes.
    Tree(&'a [u8]),
    Rect(Rect),
    Translation(Translation),
    Selection(TextSelection),
    /// The number of one of the field's values, counted from 0 in the order of their names.
    Choice(u8),
}

/// Sets a field of a node in place of what it had, and returns whether it has such a value. If not, nothing is changed. To a set of
/// actions one is added.
///
/// # Errors
///
/// Returns `AllocError` if memory runs out; the node is then unchanged.
pub fn set_field(field: Field, value: FieldValue<'_>, node: &mut Node) -> Result<bool, AllocError>
    ensures { Sets (with_given (given value.entry) field node.old) result node.old node.new }
{
    match value {
        FieldValue::Ids(ids) => set_ids(field, ids, node),
        FieldValue::Text(text) => set_text(field, text, node),
        FieldValue::Numbers(numbers) => set_numbers(field, numbers, node),
        FieldValue::Units(units) => set_units(field, units, node),
        FieldValue::Id(id) => Ok(set_id(field, id, node)),
        FieldValue::Flag => Ok(set_flag(field, node)),
        FieldValue::Bool(is_so) => Ok(set_bool(field, is_so, node)),
        FieldValue::Color(color) => Ok(set_color(field, color, node)),
        FieldValue::Decoration(style, color) => Ok(set_decoration(field, style, color, node)),
        FieldValue::Number(number) => Ok(set_number(field, number, node)),
        FieldValue::Count(count) => Ok(set_count(field, count, node)),
        FieldValue::Action(number) => Ok(add_action(field, number, node)),
        FieldValue::Tree(bytes) => Ok(set_tree(field, bytes, node)),
        FieldValue::Rect(rect) => Ok(set_rect(field, rect, node)),
        FieldValue::Translation(by) => Ok(set_translation(field, by, node)),
        FieldValue::Selection(selection) => Ok(set_selection(field, selection, node)),
        FieldValue::Choice(number) => Ok(set_choice(field, number, node)),
    }
}

/// Sets a field, if it is of a kind, and says whether it is.
macro_rules! set_if {
    ($field:ident, $kind:pat => $set:expr) => {
        match $field {
            $kind => {
                $set;
                true
            }
            _ => false,
        }
    };
}

/// Sets a field to a number, if its type has it, and says whether it does.
macro_rules! set_fitting {
    ($node:ident.$set:ident, $number:expr) => {
        match $number {
            Ok(number) => {
                $node.$set(number);
                true
            }
            Err(_) => false,
        }
    };
}

fn set_ids(field: Field, ids: &[NodeId], node: &mut Node) -> Result<bool, AllocError>
    ensures { Sets (given_ids ids.now field node.old) result node.old node.new }
{
    Ok(set_if!(field, Field::Ids(which) => which.set(ids, node)?))
}

fn set_text(field: Field, text: &[u8], node: &mut Node) -> Result<bool, AllocError>
    ensures { Sets (given_text text.now field node.old) result node.old node.new }
{
    match field {
        Field::Text(which) => set_utf8(which, text, node),
        _ => Ok(false),
    }
}

/// Sets a text, if the bytes are UTF-8.
#[tactic(auto, using(crate::proofs::Utf8::passes, crate::proofs::Utf8::fails))]
fn set_utf8(which: TextField, text: &[u8], node: &mut Node) -> Result<bool, AllocError>
    ensures { Sets (if is_utf8 text.now then Some (with_text which (Some text.now) node.old) else None) result node.old node.new }
{
    let Ok(text) = str::from_utf8(text) else {
        return Ok(false);
    };
    which.set(text, node)?;
    Ok(true)
}

fn set_numbers(field: Field, numbers: &[u16], node: &mut Node) -> Result<bool, AllocError>
    ensures { Sets (given_numbers numbers.now field node.old) result node.old node.new }
{
    Ok(set_if!(field, Field::Numbers(which) => which.set(numbers, node)?))
}

fn set_units(field: Field, units: &[i32], node: &mut Node) -> Result<bool, AllocError>
    ensures { Sets (given_units units.now field node.old) result node.old node.new }
{
    Ok(set_if!(field, Field::Units(which) => which.set(units, node)?))
}

fn set_id(field: Field, id: NodeId, node: &mut Node) -> bool
    ensures { Becomes (given_id id field node.old) result node.old node.new }
{
    set_if!(field, Field::Id(which) => which.set(id, node))
}

fn set_flag(field: Field, node: &mut Node) -> bool
    ensures { Becomes (given_flag field node.old) result node.old node.new }
{
    set_if!(field, Field::Flag(which) => which.set(node))
}

fn set_bool(field: Field, is_so: bool, node: &mut Node) -> bool
    ensures { Becomes (given_bool is_so field node.old) result node.old node.new }
{
    set_if!(field, Field::Bool(which) => which.set(is_so, node))
}

fn set_color(field: Field, color: Color, node: &mut Node) -> bool
    ensures { Becomes (given_color color field node.old) result node.old node.new }
{
    set_if!(field, Field::Color(which) => which.set(color, node))
}

fn set_decoration(field: Field, style: u8, color: Color, node: &mut Node) -> bool
    ensures { Becomes (given_decoration style color field node.old) result node.old node.new }
{
    match (field, decoration_style_numbered(style)) {
        (Field::Decoration(which), Some(style)) => {
            which.set(TextDecoration { style, color }, node);
            true
        }
        _ => false,
    }
}

fn set_number(field: Field, number: i64, node: &mut Node) -> bool
    ensures { Becomes (given_number number field node.old) result node.old node.new }
{
    set_if!(field, Field::Number(which) => which.set(number, node))
}

fn set_count(field: Field, count: usize, node: &mut Node) -> bool
    ensures { Becomes (given_count count field node.old) result node.old node.new }
{
    match field {
        Field::Count(which) => {
            which.set(count, node);
            true
        }
        Field::FontSize => set_fitting!(node.set_font_size, u32::try_from(count)),
        Field::FontWeight => set_fitting!(node.set_font_weight, u16::try_from(count)),
        _ => false,
    }
}

fn add_action(field: Field, number: u16, node: &mut Node) -> bool
    ensures { Becomes (given_action number field node.old) result node.old node.new }
{
    match field {
        Field::Actions(which) => add_numbered(which, number, node),
        _ => false,
    }
}

/// Adds the action with this number, if there is one.
#[tactic(auto, unfolding(crate::specs::ActionLists::with_actions))]
fn add_numbered(which: ActionsField, number: u16, node: &mut Node) -> bool
    ensures { Becomes (if nat_lt number 260
        then Some (with_actions_field which (with_action (actions_at which node.old) (action_numbered number)) node.old) else None)
        result node.old node.new }
{
    if number >= ACTIONS {
        return false;
    }
    which.add(&[action_numbered(number)], node);
    true
}

fn set_tree(field: Field, bytes: &[u8], node: &mut Node) -> bool
    ensures { Becomes (given_tree bytes.now field node.old) result node.old node.new }
{
    match (field, Uuid::from_slice(bytes)) {
        (Field::Tree, Ok(name)) => {
            node.set_tree_id(TreeId(name));
            true
        }
        _ => false,
    }
}

fn set_rect(field: Field, rect: Rect, node: &mut Node) -> bool
    ensures { Becomes (given_rect rect field node.old) result node.old node.new }
{
    set_if!(field, Field::Bounds => node.set_bounds(rect))
}

fn set_translation(field: Field, by: Translation, node: &mut Node) -> bool
    ensures { Becomes (given_translation by field node.old) result node.old node.new }
{
    set_if!(field, Field::Transform => node.set_transform(by))
}

fn set_selection(field: Field, selection: TextSelection, node: &mut Node) -> bool
    ensures { Becomes (given_selection selection field node.old) result node.old node.new }
{
    set_if!(field, Field::Selection => node.set_text_selection(selection))
}
