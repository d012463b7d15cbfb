//! The values of a node's fields, by their kinds.

ghost use Rattle.std.specs.Prelude.{◌<◌, OnOk};
ghost use Rattle.script_nodes.specs.FieldMeaning.{ReadsValue};
ghost use Rattle.script_nodes.specs.declared.field_kinds.Field.TheVariants as field_;
ghost use Rattle.script_words.specs.Reading.{unread};
ghost use Rattle.script_words.specs.Words.{left};

use crate::field_kinds::{
    ActionsField, BoolField, ColorField, CountField, DecorationField, IdField, IdsField,
    NumberField, NumbersField, TextField, UnitsField,
};
use schema::Node;
use script_words::actions::action_list;
use script_words::names::truth_named;
use script_words::stops::Stop;
use script_words::word_lists::{color, decoration, ids, numbers, unit_list};
use script_words::words::Words;
use std::alloc::Global;

/// A text, which the node doesn't have yet.
#[tactic(auto, unfolding(crate::specs::FieldMeaning::by_kind))]
pub(crate) fn text_value(
    alloc: Global,
    words: &mut Words,
    field: TextField,
    node: &mut Node,
) -> Result<(), Stop>
    ensures shorter { OnOk result (left (unread words.new) < left (unread words.old)) }
    ensures means { ReadsValue (field_.Text field) words.old node.old result node.new words.new }
{
    if field.of(node).is_some() {
        return Err(Stop::BadLine);
    }
    let value = words.text(alloc)?;
    field.set(&value, node)?;
    Ok(())
}

/// A list of nodes, which the node doesn't have yet.
#[tactic(auto, using(crate::proofs::ListedFields::listed_given, crate::proofs::ListedFields::listed_free), unfolding(crate::specs::FieldMeaning::by_kind))]
pub(crate) fn ids_value(
    alloc: Global,
    words: &mut Words,
    field: IdsField,
    node: &mut Node,
) -> Result<(), Stop>
    ensures shorter { OnOk result (left (unread words.new) < left (unread words.old)) }
    ensures means { ReadsValue (field_.Ids field) words.old node.old result node.new words.new }
{
    if !field.of(node).is_empty() {
        return Err(Stop::BadLine);
    }
    let value = ids(alloc, words.word()?)?;
    field.set(&value, node)?;
    Ok(())
}

/// A node, which the node doesn't have yet.
#[tactic(auto, unfolding(crate::specs::FieldMeaning::by_kind))]
pub(crate) fn id_value(words: &mut Words, field: IdField, node: &mut Node) -> Result<(), Stop>
    ensures shorter { OnOk result (left (unread words.new) < left (unread words.old)) }
    ensures means { ReadsValue (field_.Id field) words.old node.old result node.new words.new }
{
    if field.of(node).is_some() {
        return Err(Stop::BadLine);
    }
    let value = words.id()?;
    field.set(value, node);
    Ok(())
}

/// A list of numbers, which the node doesn't have yet.
#[tactic(auto, using(crate::proofs::ListedFields::listed_given, crate::proofs::ListedFields::listed_free), unfolding(crate::specs::FieldMeaning::by_kind))]
pub(crate) fn numbers_value(
    alloc: Global,
    words: &mut Words,
    field: NumbersField,
    node: &mut Node,
) -> Result<(), Stop>
    ensures shorter { OnOk result (left (unread words.new) < left (unread words.old)) }
    ensures means { ReadsValue (field_.Numbers field) words.old node.old result node.new words.new }
{
    if !field.of(node).is_empty() {
        return Err(Stop::BadLine);
    }
    let value = numbers(alloc, words.word()?)?;
    field.set(&value, node)?;
    Ok(())
}

/// A list of numbers in units of 1/64 pixel, which the node doesn't have yet.
#[tactic(auto, unfolding(crate::specs::FieldMeaning::by_kind))]
pub(crate) fn units_value(
    alloc: Global,
    words: &mut Words,
    field: UnitsField,
    node: &mut Node,
) -> Result<(), Stop>
    ensures shorter { OnOk result (left (unread words.new) < left (unread words.old)) }
    ensures means { ReadsValue (field_.Units field) words.old node.old result node.new words.new }
{
    if field.of(node).is_some() {
        return Err(Stop::BadLine);
    }
    let value = unit_list(alloc, words.word()?)?;
    field.set(&value, node)?;
    Ok(())
}

/// A flag that may be unset, which the node doesn't have yet.
#[tactic(auto, using(script_words::proofs::WordCuts::one_taken, script_words::proofs::WordCuts::none_taken, script_words::proofs::NamedValues::truth_is), unfolding(crate::specs::FieldMeaning::by_kind))]
pub(crate) fn bool_value(words: &mut Words, field: BoolField, node: &mut Node) -> Result<(), Stop>
    ensures shorter { OnOk result (left (unread words.new) < left (unread words.old)) }
    ensures means { ReadsValue (field_.Bool field) words.old node.old result node.new words.new }
{
    if field.of(node).is_some() {
        return Err(Stop::BadLine);
    }
    let value = truth_named(words.word()?).ok_or(Stop::BadLine)?;
    field.set(value, node);
    Ok(())
}

/// A colour, which the node doesn't have yet.
#[tactic(auto, unfolding(crate::specs::FieldMeaning::by_kind))]
pub(crate) fn color_value(words: &mut Words, field: ColorField, node: &mut Node) -> Result<(), Stop>
    ensures shorter { OnOk result (left (unread words.new) < left (unread words.old)) }
    ensures means { ReadsValue (field_.Color field) words.old node.old result node.new words.new }
{
    if field.of(node).is_some() {
        return Err(Stop::BadLine);
    }
    let value = color(words.word()?).ok_or(Stop::BadLine)?;
    field.set(value, node);
    Ok(())
}

/// A line above, through or below text, which the node doesn't have yet.
#[tactic(auto, unfolding(crate::specs::FieldMeaning::by_kind))]
pub(crate) fn decoration_value(
    words: &mut Words,
    field: DecorationField,
    node: &mut Node,
) -> Result<(), Stop>
    ensures shorter { OnOk result (left (unread words.new) < left (unread words.old)) }
    ensures means { ReadsValue (field_.Decoration field) words.old node.old result node.new words.new }
{
    if field.of(node).is_some() {
        return Err(Stop::BadLine);
    }
    let value = decoration(words.word()?).ok_or(Stop::BadLine)?;
    field.set(value, node);
    Ok(())
}

/// A number, which the node doesn't have yet.
#[tactic(auto, unfolding(crate::specs::FieldMeaning::by_kind))]
pub(crate) fn number_value(
    words: &mut Words,
    field: NumberField,
    node: &mut Node,
) -> Result<(), Stop>
    ensures shorter { OnOk result (left (unread words.new) < left (unread words.old)) }
    ensures means { ReadsValue (field_.Number field) words.old node.old result node.new words.new }
{
    if field.of(node).is_some() {
        return Err(Stop::BadLine);
    }
    let value = words.signed()?;
    field.set(value, node);
    Ok(())
}

/// A count, which the node doesn't have yet.
#[tactic(auto, unfolding(crate::specs::FieldMeaning::by_kind))]
pub(crate) fn count_value(words: &mut Words, field: CountField, node: &mut Node) -> Result<(), Stop>
    ensures shorter { OnOk result (left (unread words.new) < left (unread words.old)) }
    ensures means { ReadsValue (field_.Count field) words.old node.old result node.new words.new }
{
    if field.of(node).is_some() {
        return Err(Stop::BadLine);
    }
    let value = words.index()?;
    field.set(value, node);
    Ok(())
}

/// A set of actions, which the node doesn't have yet.
#[tactic(auto, using(crate::proofs::ListedFields::set_given, crate::proofs::ListedFields::set_free), unfolding(crate::specs::FieldMeaning::by_kind))]
pub(crate) fn actions_value(
    alloc: Global,
    words: &mut Words,
    field: ActionsField,
    node: &mut Node,
) -> Result<(), Stop>
    ensures shorter { OnOk result (left (unread words.new) < left (unread words.old)) }
    ensures means { ReadsValue (field_.Actions field) words.old node.old result node.new words.new }
{
    if field.is_in(node) {
        return Err(Stop::BadLine);
    }
    let value = action_list(alloc, words.word()?)?;
    field.add(&value, node);
    Ok(())
}
