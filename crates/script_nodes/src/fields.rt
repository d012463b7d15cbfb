//! Reads the fields of a node's line.
//!
//! A field occurs once. A number has a minus sign if it is negative.

ghost use Rattle.std.specs.Prelude.{◌<◌, OnOk};
ghost use Rattle.script_nodes.specs.FieldMeaning.{ReadsValue, field_means, flag_means, takes_text};
ghost use Rattle.script_words.specs.Fields.{fields_of, one_word};
ghost use Rattle.script_words.specs.Answering.{AnswersAs};
ghost use Rattle.script_words.specs.Reading.{unread};
ghost use Rattle.script_words.specs.Words.{left};

use crate::field_kinds::{Field, field_named};
use crate::kind_values::{
    actions_value, bool_value, color_value, count_value, decoration_value, id_value, ids_value,
    number_value, numbers_value, text_value, units_value,
};
use crate::single_values::{
    aria_current_value, bounds_value, font_size_value, font_weight_value, has_popup_value,
    live_value, orientation_value, selection_value, sort_direction_value, text_align_value,
    text_direction_value, toggled_value, transform_value, tree_value, vertical_offset_value,
};
use schema::Node;
use script_words::stops::Stop;
use script_words::words::Words;
use std::alloc::Global;

/// Reads the next field, which the node doesn't have yet.
pub(crate) fn node_field(alloc: Global, words: &mut Words, node: &mut Node) -> Result<(), Stop>
    ensures shorter { OnOk result (left (unread words.new) < left (unread words.old)) }
    ensures means { AnswersAs (one_word field_means (fields_of takes_text (unread words.old)) node.old) result
        (λ read. (node.new, fields_of takes_text (unread words.new))) }
{
    let (name, has_value) = words.field()?;
    let field = field_named(name).ok_or(Stop::BadLine)?;
    if has_value {
        return field_value(alloc, words, field, node);
    }
    give_flag(field, node)
}

/// Reads the value of a field, which the node doesn't have yet.
fn field_value(alloc: Global, words: &mut Words, field: Field, node: &mut Node) -> Result<(), Stop>
    ensures shorter { OnOk result (left (unread words.new) < left (unread words.old)) }
    ensures means { ReadsValue field words.old node.old result node.new words.new }
{
    match field {
        Field::Ids(which) => ids_value(alloc, words, which, node),
        Field::Id(which) => id_value(words, which, node),
        Field::Text(which) => text_value(alloc, words, which, node),
        Field::Numbers(which) => numbers_value(alloc, words, which, node),
        Field::Units(which) => units_value(alloc, words, which, node),
        Field::Bool(which) => bool_value(words, which, node),
        Field::Color(which) => color_value(words, which, node),
        Field::Decoration(which) => decoration_value(words, which, node),
        Field::Number(which) => number_value(words, which, node),
        Field::Count(which) => count_value(words, which, node),
        Field::Actions(which) => actions_value(alloc, words, which, node),
        Field::Flag(_) => Err(Stop::BadLine),
        Field::Tree => tree_value(words, node),
        Field::Bounds => bounds_value(words, node),
        Field::Transform => transform_value(words, node),
        Field::Selection => selection_value(words, node),
        Field::Toggled => toggled_value(words, node),
        Field::Live => live_value(words, node),
        Field::Orientation => orientation_value(words, node),
        Field::SortDirection => sort_direction_value(words, node),
        Field::AriaCurrent => aria_current_value(words, node),
        Field::HasPopup => has_popup_value(words, node),
        Field::FontSize => font_size_value(words, node),
        Field::FontWeight => font_weight_value(words, node),
        Field::TextDirection => text_direction_value(words, node),
        Field::TextAlign => text_align_value(words, node),
        Field::VerticalOffset => vertical_offset_value(words, node),
    }
}

/// Sets a flag, which isn't set yet.
fn give_flag(field: Field, node: &mut Node) -> Result<(), Stop>
    ensures means { AnswersAs (flag_means field node.old) result (λ read. node.new) }
{
    match field {
        Field::Flag(which) if !which.is_in(node) => {
            which.set(node);
            Ok(())
        }
        _ => Err(Stop::BadLine),
    }
}
