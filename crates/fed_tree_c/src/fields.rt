//! The exports that read a field of a node that has one value, as the last update of the node set it.
ghost use Rattle.std.specs.Prelude.{◌≡◌, is_some};
ghost use Rattle.fed_tree_c.specs.Fields.{AnswersField, choice_of, color_of, count_of, decoration_of, field_in, flag_of, id_of_field, number_of, reads_by, rect_of, selection_of, translation_of};
ghost use Rattle.fed_tree_c.specs.Records.{node_id};

use crate::choice_numbers::{
    aria_current_number, has_popup_number, live_number, orientation_number, sort_direction_number,
    text_align_number, text_direction_number, toggled_number, vertical_offset_number,
};
use crate::field_records::{
    AkColor, AkDecoration, AkRect, AkSelection, AkTranslation, color_seen, decoration_seen,
    rect_seen, selection_seen, translation_seen,
};
use crate::found::give_at;
use crate::handle::Handle;
use crate::records::{CLOSED, node_id};
use fed_tree::FedTree;
use model::FullNodeId;
use script_nodes::{Field, field_numbered};
use std::alloc::Global;

/// The node in the field with this number.
fn id_in(fed: &FedTree, number: u32, id: FullNodeId) -> Option<u64>
    ensures { result ≡ field_in id_of_field number id fed.now }
{
    let field = field_numbered(number)?;
    let node = fed.data(id)?;
    match field {
        Field::Id(which) => which.of(node).map(|id| id.0),
        _ => None,
    }
}

/// Whether the field with this number has such a value.
fn is_id(number: u32) -> bool
    ensures { result ≡ is_some (reads_by id_of_field number) }
{
    matches!(field_numbered(number), Some(Field::Id(_)))
}

/// The flag in the field with this number.
fn flag_in(fed: &FedTree, number: u32, id: FullNodeId) -> Option<bool>
    ensures { result ≡ field_in flag_of number id fed.now }
{
    let field = field_numbered(number)?;
    let node = fed.data(id)?;
    match field {
        Field::Flag(which) => Some(which.is_in(node)),
        Field::Bool(which) => which.of(node),
        _ => None,
    }
}

/// Whether the field with this number has such a value.
fn is_flag(number: u32) -> bool
    ensures { result ≡ is_some (reads_by flag_of number) }
{
    matches!(
        field_numbered(number),
        Some(Field::Flag(_) | Field::Bool(_))
    )
}

/// The number of the value in the field with this number.
fn choice_in(fed: &FedTree, number: u32, id: FullNodeId) -> Option<u32>
    ensures { result ≡ field_in choice_of number id fed.now }
{
    let field = field_numbered(number)?;
    let node = fed.data(id)?;
    match field {
        Field::Toggled => node.toggled().map(toggled_number),
        Field::Live => node.live().map(live_number),
        Field::Orientation => node.orientation().map(orientation_number),
        Field::SortDirection => node.sort_direction().map(sort_direction_number),
        Field::AriaCurrent => node.aria_current().map(aria_current_number),
        Field::HasPopup => node.has_popup().map(has_popup_number),
        Field::TextDirection => node.text_direction().map(text_direction_number),
        Field::TextAlign => node.text_align().map(text_align_number),
        Field::VerticalOffset => node.vertical_offset().map(vertical_offset_number),
        _ => None,
    }
}

/// Whether the field with this number has such a value.
fn is_choice(number: u32) -> bool
    ensures { result ≡ is_some (reads_by choice_of number) }
{
    matches!(
        field_numbered(number),
        Some(
            Field::Toggled
                | Field::Live
                | Field::Orientation
                | Field::SortDirection
                | Field::AriaCurrent
                | Field::HasPopup
                | Field::TextDirection
                | Field::TextAlign
                | Field::VerticalOffset
        )
    )
}

/// The number in the field with this number.
fn number_in(fed: &FedTree, number: u32, id: FullNodeId) -> Option<i64>
    ensures { result ≡ field_in number_of number id fed.now }
{
    let field = field_numbered(number)?;
    let node = fed.data(id)?;
    match field {
        Field::Number(which) => which.of(node),
        _ => None,
    }
}

/// Whether the field with this number has such a value.
fn is_number(number: u32) -> bool
    ensures { result ≡ is_some (reads_by number_of number) }
{
    matches!(field_numbered(number), Some(Field::Number(_)))
}

/// The count in the field with this number.
fn count_in(fed: &FedTree, number: u32, id: FullNodeId) -> Option<usize>
    ensures { result ≡ field_in count_of number id fed.now }
{
    let field = field_numbered(number)?;
    let node = fed.data(id)?;
    match field {
        Field::Count(which) => which.of(node),
        Field::FontSize => node.font_size().map(|size| size as usize),
        Field::FontWeight => node.font_weight().map(usize::from),
        _ => None,
    }
}

/// Whether the field with this number has such a value.
fn is_count(number: u32) -> bool
    ensures { result ≡ is_some (reads_by count_of number) }
{
    matches!(
        field_numbered(number),
        Some(Field::Count(_) | Field::FontSize | Field::FontWeight)
    )
}

/// The rectangle in the field with this number.
fn rect_in(fed: &FedTree, number: u32, id: FullNodeId) -> Option<AkRect>
    ensures { result ≡ field_in rect_of number id fed.now }
{
    let field = field_numbered(number)?;
    let node = fed.data(id)?;
    match field {
        Field::Bounds => node.bounds().map(rect_seen),
        _ => None,
    }
}

/// Whether the field with this number has such a value.
fn is_rect(number: u32) -> bool
    ensures { result ≡ is_some (reads_by rect_of number) }
{
    matches!(field_numbered(number), Some(Field::Bounds))
}

/// The translation in the field with this number.
fn translation_in(fed: &FedTree, number: u32, id: FullNodeId) -> Option<AkTranslation>
    ensures { result ≡ field_in translation_of number id fed.now }
{
    let field = field_numbered(number)?;
    let node = fed.data(id)?;
    match field {
        Field::Transform => node.transform().map(translation_seen),
        _ => None,
    }
}

/// Whether the field with this number has such a value.
fn is_translation(number: u32) -> bool
    ensures { result ≡ is_some (reads_by translation_of number) }
{
    matches!(field_numbered(number), Some(Field::Transform))
}

/// The selection in the field with this number.
fn selection_in(fed: &FedTree, number: u32, id: FullNodeId) -> Option<AkSelection>
    ensures { result ≡ field_in selection_of number id fed.now }
{
    let field = field_numbered(number)?;
    let node = fed.data(id)?;
    match field {
        Field::Selection => node.text_selection().map(selection_seen),
        _ => None,
    }
}

/// Whether the field with this number has such a value.
fn is_selection(number: u32) -> bool
    ensures { result ≡ is_some (reads_by selection_of number) }
{
    matches!(field_numbered(number), Some(Field::Selection))
}

/// The colour in the field with this number.
fn color_in(fed: &FedTree, number: u32, id: FullNodeId) -> Option<AkColor>
    ensures { result ≡ field_in color_of number id fed.now }
{
    let field = field_numbered(number)?;
    let node = fed.data(id)?;
    match field {
        Field::Color(which) => which.of(node).map(color_seen),
        _ => None,
    }
}

/// Whether the field with this number has such a value.
fn is_color(number: u32) -> bool
    ensures { result ≡ is_some (reads_by color_of number) }
{
    matches!(field_numbered(number), Some(Field::Color(_)))
}

/// The line in the field with this number.
fn decoration_in(fed: &FedTree, number: u32, id: FullNodeId) -> Option<AkDecoration>
    ensures { result ≡ field_in decoration_of number id fed.now }
{
    let field = field_numbered(number)?;
    let node = fed.data(id)?;
    match field {
        Field::Decoration(which) => which.of(node).map(decoration_seen),
        _ => None,
    }
}

/// Whether the field with this number has such a value.
fn is_decoration(number: u32) -> bool
    ensures { result ≡ is_some (reads_by decoration_of number) }
{
    matches!(field_numbered(number), Some(Field::Decoration(_)))
}

/// A node, by its number in the node's tree.
#[unsafe(no_mangle)]
pub extern "C" fn ak_field_id(
    alloc: Global,
    tree: &mut Handle,
    node: u64,
    tree_index: u32,
    field: u32,
    id_there: &mut u64,
) -> u8
    ensures kept { tree.new.block.fed ≡ tree.old.block.fed }
    ensures answer { AnswersField id_of_field field (node_id node tree_index) tree.old.block.fed result id_there.old id_there.new }
{
    let id = node_id(node, tree_index);
    let taken = tree.take(alloc);
    let status = match &taken {
        Some(fed) => give_at(fed, id, is_id(field), id_in(fed, field, id), id_there),
        None => CLOSED,
    };
    tree.put(alloc, taken);
    status
}

/// A flag, or one that may be unset.
#[unsafe(no_mangle)]
pub extern "C" fn ak_field_flag(
    alloc: Global,
    tree: &mut Handle,
    node: u64,
    tree_index: u32,
    field: u32,
    is_set: &mut bool,
) -> u8
    ensures kept { tree.new.block.fed ≡ tree.old.block.fed }
    ensures answer { AnswersField flag_of field (node_id node tree_index) tree.old.block.fed result is_set.old is_set.new }
{
    let id = node_id(node, tree_index);
    let taken = tree.take(alloc);
    let status = match &taken {
        Some(fed) => give_at(fed, id, is_flag(field), flag_in(fed, field, id), is_set),
        None => CLOSED,
    };
    tree.put(alloc, taken);
    status
}

/// One of the values of a field that has few, by its number.
#[unsafe(no_mangle)]
pub extern "C" fn ak_field_choice(
    alloc: Global,
    tree: &mut Handle,
    node: u64,
    tree_index: u32,
    field: u32,
    choice: &mut u32,
) -> u8
    ensures kept { tree.new.block.fed ≡ tree.old.block.fed }
    ensures answer { AnswersField choice_of field (node_id node tree_index) tree.old.block.fed result choice.old choice.new }
{
    let id = node_id(node, tree_index);
    let taken = tree.take(alloc);
    let status = match &taken {
        Some(fed) => give_at(fed, id, is_choice(field), choice_in(fed, field, id), choice),
        None => CLOSED,
    };
    tree.put(alloc, taken);
    status
}

/// A number.
#[unsafe(no_mangle)]
pub extern "C" fn ak_field_number(
    alloc: Global,
    tree: &mut Handle,
    node: u64,
    tree_index: u32,
    field: u32,
    number: &mut i64,
) -> u8
    ensures kept { tree.new.block.fed ≡ tree.old.block.fed }
    ensures answer { AnswersField number_of field (node_id node tree_index) tree.old.block.fed result number.old number.new }
{
    let id = node_id(node, tree_index);
    let taken = tree.take(alloc);
    let status = match &taken {
        Some(fed) => give_at(fed, id, is_number(field), number_in(fed, field, id), number),
        None => CLOSED,
    };
    tree.put(alloc, taken);
    status
}

/// A count, or the size or the weight of a text.
#[unsafe(no_mangle)]
pub extern "C" fn ak_field_count(
    alloc: Global,
    tree: &mut Handle,
    node: u64,
    tree_index: u32,
    field: u32,
    count: &mut usize,
) -> u8
    ensures kept { tree.new.block.fed ≡ tree.old.block.fed }
    ensures answer { AnswersField count_of field (node_id node tree_index) tree.old.block.fed result count.old count.new }
{
    let id = node_id(node, tree_index);
    let taken = tree.take(alloc);
    let status = match &taken {
        Some(fed) => give_at(fed, id, is_count(field), count_in(fed, field, id), count),
        None => CLOSED,
    };
    tree.put(alloc, taken);
    status
}

/// A rectangle.
#[unsafe(no_mangle)]
pub extern "C" fn ak_field_rect(
    alloc: Global,
    tree: &mut Handle,
    node: u64,
    tree_index: u32,
    field: u32,
    rect: &mut AkRect,
) -> u8
    ensures kept { tree.new.block.fed ≡ tree.old.block.fed }
    ensures answer { AnswersField rect_of field (node_id node tree_index) tree.old.block.fed result rect.old rect.new }
{
    let id = node_id(node, tree_index);
    let taken = tree.take(alloc);
    let status = match &taken {
        Some(fed) => give_at(fed, id, is_rect(field), rect_in(fed, field, id), rect),
        None => CLOSED,
    };
    tree.put(alloc, taken);
    status
}

/// A translation.
#[unsafe(no_mangle)]
pub extern "C" fn ak_field_translation(
    alloc: Global,
    tree: &mut Handle,
    node: u64,
    tree_index: u32,
    field: u32,
    translation: &mut AkTranslation,
) -> u8
    ensures kept { tree.new.block.fed ≡ tree.old.block.fed }
    ensures answer { AnswersField translation_of field (node_id node tree_index) tree.old.block.fed result translation.old translation.new }
{
    let id = node_id(node, tree_index);
    let taken = tree.take(alloc);
    let status = match &taken {
        Some(fed) => give_at(
            fed,
            id,
            is_translation(field),
            translation_in(fed, field, id),
            translation,
        ),
        None => CLOSED,
    };
    tree.put(alloc, taken);
    status
}

/// A selection.
#[unsafe(no_mangle)]
pub extern "C" fn ak_field_selection(
    alloc: Global,
    tree: &mut Handle,
    node: u64,
    tree_index: u32,
    field: u32,
    selection: &mut AkSelection,
) -> u8
    ensures kept { tree.new.block.fed ≡ tree.old.block.fed }
    ensures answer { AnswersField selection_of field (node_id node tree_index) tree.old.block.fed result selection.old selection.new }
{
    let id = node_id(node, tree_index);
    let taken = tree.take(alloc);
    let status = match &taken {
        Some(fed) => give_at(
            fed,
            id,
            is_selection(field),
            selection_in(fed, field, id),
            selection,
        ),
        None => CLOSED,
    };
    tree.put(alloc, taken);
    status
}

/// A colour.
#[unsafe(no_mangle)]
pub extern "C" fn ak_field_color(
    alloc: Global,
    tree: &mut Handle,
    node: u64,
    tree_index: u32,
    field: u32,
    color: &mut AkColor,
) -> u8
    ensures kept { tree.new.block.fed ≡ tree.old.block.fed }
    ensures answer { AnswersField color_of field (node_id node tree_index) tree.old.block.fed result color.old color.new }
{
    let id = node_id(node, tree_index);
    let taken = tree.take(alloc);
    let status = match &taken {
        Some(fed) => give_at(fed, id, is_color(field), color_in(fed, field, id), color),
        None => CLOSED,
    };
    tree.put(alloc, taken);
    status
}

/// A line above, through or below text.
#[unsafe(no_mangle)]
pub extern "C" fn ak_field_decoration(
    alloc: Global,
    tree: &mut Handle,
    node: u64,
    tree_index: u32,
    field: u32,
    decoration: &mut AkDecoration,
) -> u8
    ensures kept { tree.new.block.fed ≡ tree.old.block.fed }
    ensures answer { AnswersField decoration_of field (node_id node tree_index) tree.old.block.fed result decoration.old decoration.new }
{
    let id = node_id(node, tree_index);
    let taken = tree.take(alloc);
    let status = match &taken {
        Some(fed) => give_at(
            fed,
            id,
            is_decoration(field),
            decoration_in(fed, field, id),
            decoration,
        ),
        None => CLOSED,
    };
    tree.put(alloc, taken);
    status
}
