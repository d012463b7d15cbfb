//! Reading the values of fields that are the only ones of their kind.

ghost use Rattle.std.specs.Prelude.{◌<◌, OnOk};
ghost use Rattle.script_nodes.specs.FieldMeaning.{ReadsValue};
ghost use Rattle.script_nodes.specs.declared.field_kinds.Field.TheVariants as field_;
ghost use Rattle.script_words.specs.Reading.{unread};
ghost use Rattle.script_words.specs.Words.{left};

use schema::Node;
use script_words::names::{
    aria_current_named, has_popup_named, live_named, orientation_named, sort_direction_named,
    text_align_named, text_direction_named, toggled_named, vertical_offset_named,
};
use script_words::stops::Stop;
use script_words::words::{Words, rect, selection, short, translation};

/// The tree that is grafted at the node, which wasn't set yet.
#[tactic(auto, unfolding(crate::specs::FieldMeaning::by_kind))]
pub(crate) fn tree_value(words: &mut Words, node: &mut Node) -> Result<(), Stop>
    ensures shorter { OnOk result (left (unread words.new) < left (unread words.old)) }
    ensures means { ReadsValue field_.Tree words.old node.old result node.new words.new }
{
    if node.tree_id().is_some() {
        return Err(Stop::BadLine);
    }
    node.set_tree_id(words.tree()?);
    Ok(())
}

/// The node's rectangle, which wasn't set yet.
#[tactic(auto, unfolding(crate::specs::FieldMeaning::by_kind))]
pub(crate) fn bounds_value(words: &mut Words, node: &mut Node) -> Result<(), Stop>
    ensures shorter { OnOk result (left (unread words.new) < left (unread words.old)) }
    ensures means { ReadsValue field_.Bounds words.old node.old result node.new words.new }
{
    if node.bounds().is_some() {
        return Err(Stop::BadLine);
    }
    let value = rect(words.word()?).ok_or(Stop::BadLine)?;
    node.set_bounds(value);
    Ok(())
}

/// By how much the node and its subtree are shifted, which wasn't set yet.
#[tactic(auto, unfolding(crate::specs::FieldMeaning::by_kind))]
pub(crate) fn transform_value(words: &mut Words, node: &mut Node) -> Result<(), Stop>
    ensures shorter { OnOk result (left (unread words.new) < left (unread words.old)) }
    ensures means { ReadsValue field_.Transform words.old node.old result node.new words.new }
{
    if node.transform().is_some() {
        return Err(Stop::BadLine);
    }
    let value = translation(words.word()?).ok_or(Stop::BadLine)?;
    node.set_transform(value);
    Ok(())
}

/// The selection in the node's text, which wasn't set yet.
#[tactic(auto, unfolding(crate::specs::FieldMeaning::by_kind))]
pub(crate) fn selection_value(words: &mut Words, node: &mut Node) -> Result<(), Stop>
    ensures shorter { OnOk result (left (unread words.new) < left (unread words.old)) }
    ensures means { ReadsValue field_.Selection words.old node.old result node.new words.new }
{
    if node.text_selection().is_some() {
        return Err(Stop::BadLine);
    }
    let value = selection(words.word()?).ok_or(Stop::BadLine)?;
    node.set_text_selection(value);
    Ok(())
}

/// The size of a text, which wasn't set yet.
#[tactic(auto, unfolding(crate::specs::FieldMeaning::by_kind))]
pub(crate) fn font_size_value(words: &mut Words, node: &mut Node) -> Result<(), Stop>
    ensures shorter { OnOk result (left (unread words.new) < left (unread words.old)) }
    ensures means { ReadsValue field_.FontSize words.old node.old result node.new words.new }
{
    if node.font_size().is_some() {
        return Err(Stop::BadLine);
    }
    node.set_font_size(words.narrow()?);
    Ok(())
}

/// The weight of a text, which wasn't set yet.
#[tactic(auto, unfolding(crate::specs::FieldMeaning::by_kind))]
pub(crate) fn font_weight_value(words: &mut Words, node: &mut Node) -> Result<(), Stop>
    ensures shorter { OnOk result (left (unread words.new) < left (unread words.old)) }
    ensures means { ReadsValue field_.FontWeight words.old node.old result node.new words.new }
{
    if node.font_weight().is_some() {
        return Err(Stop::BadLine);
    }
    let value = short(words.word()?).ok_or(Stop::BadLine)?;
    node.set_font_weight(value);
    Ok(())
}

/// The toggle state of a control, which wasn't set yet.
#[tactic(auto, using(script_words::proofs::WordCuts::one_taken, script_words::proofs::WordCuts::none_taken, script_words::proofs::NamedValues::toggled_is), unfolding(crate::specs::FieldMeaning::by_kind))]
pub(crate) fn toggled_value(words: &mut Words, node: &mut Node) -> Result<(), Stop>
    ensures shorter { OnOk result (left (unread words.new) < left (unread words.old)) }
    ensures means { ReadsValue field_.Toggled words.old node.old result node.new words.new }
{
    if node.toggled().is_some() {
        return Err(Stop::BadLine);
    }
    let value = toggled_named(words.word()?).ok_or(Stop::BadLine)?;
    node.set_toggled(value);
    Ok(())
}

/// How changes are announced, which wasn't set yet.
#[tactic(auto, using(script_words::proofs::WordCuts::one_taken, script_words::proofs::WordCuts::none_taken, script_words::proofs::NamedValues::live_is), unfolding(crate::specs::FieldMeaning::by_kind))]
pub(crate) fn live_value(words: &mut Words, node: &mut Node) -> Result<(), Stop>
    ensures shorter { OnOk result (left (unread words.new) < left (unread words.old)) }
    ensures means { ReadsValue field_.Live words.old node.old result node.new words.new }
{
    if node.live().is_some() {
        return Err(Stop::BadLine);
    }
    let value = live_named(words.word()?).ok_or(Stop::BadLine)?;
    node.set_live(value);
    Ok(())
}

/// The axis of a control, which wasn't set yet.
#[tactic(auto, using(script_words::proofs::WordCuts::one_taken, script_words::proofs::WordCuts::none_taken, script_words::proofs::NamedValues::orientation_is), unfolding(crate::specs::FieldMeaning::by_kind))]
pub(crate) fn orientation_value(words: &mut Words, node: &mut Node) -> Result<(), Stop>
    ensures shorter { OnOk result (left (unread words.new) < left (unread words.old)) }
    ensures means { ReadsValue field_.Orientation words.old node.old result node.new words.new }
{
    if node.orientation().is_some() {
        return Err(Stop::BadLine);
    }
    let value = orientation_named(words.word()?).ok_or(Stop::BadLine)?;
    node.set_orientation(value);
    Ok(())
}

/// The sort order, which wasn't set yet.
#[tactic(auto, using(script_words::proofs::WordCuts::one_taken, script_words::proofs::WordCuts::none_taken, script_words::proofs::NamedValues::sort_direction_is), unfolding(crate::specs::FieldMeaning::by_kind))]
pub(crate) fn sort_direction_value(words: &mut Words, node: &mut Node) -> Result<(), Stop>
    ensures shorter { OnOk result (left (unread words.new) < left (unread words.old)) }
    ensures means { ReadsValue field_.SortDirection words.old node.old result node.new words.new }
{
    if node.sort_direction().is_some() {
        return Err(Stop::BadLine);
    }
    let value = sort_direction_named(words.word()?).ok_or(Stop::BadLine)?;
    node.set_sort_direction(value);
    Ok(())
}

/// Which kind of current item the node is, which wasn't set yet.
#[tactic(auto, using(script_words::proofs::WordCuts::one_taken, script_words::proofs::WordCuts::none_taken, script_words::proofs::NamedValues::aria_current_is), unfolding(crate::specs::FieldMeaning::by_kind))]
pub(crate) fn aria_current_value(words: &mut Words, node: &mut Node) -> Result<(), Stop>
    ensures shorter { OnOk result (left (unread words.new) < left (unread words.old)) }
    ensures means { ReadsValue field_.AriaCurrent words.old node.old result node.new words.new }
{
    if node.aria_current().is_some() {
        return Err(Stop::BadLine);
    }
    let value = aria_current_named(words.word()?).ok_or(Stop::BadLine)?;
    node.set_aria_current(value);
    Ok(())
}

/// The kind of popup that the node opens, which wasn't set yet.
#[tactic(auto, using(script_words::proofs::WordCuts::one_taken, script_words::proofs::WordCuts::none_taken, script_words::proofs::NamedValues::has_popup_is), unfolding(crate::specs::FieldMeaning::by_kind))]
pub(crate) fn has_popup_value(words: &mut Words, node: &mut Node) -> Result<(), Stop>
    ensures shorter { OnOk result (left (unread words.new) < left (unread words.old)) }
    ensures means { ReadsValue field_.HasPopup words.old node.old result node.new words.new }
{
    if node.has_popup().is_some() {
        return Err(Stop::BadLine);
    }
    let value = has_popup_named(words.word()?).ok_or(Stop::BadLine)?;
    node.set_has_popup(value);
    Ok(())
}

/// The direction of a text, which wasn't set yet.
#[tactic(auto, using(script_words::proofs::WordCuts::one_taken, script_words::proofs::WordCuts::none_taken, script_words::proofs::NamedValues::text_direction_is), unfolding(crate::specs::FieldMeaning::by_kind))]
pub(crate) fn text_direction_value(words: &mut Words, node: &mut Node) -> Result<(), Stop>
    ensures shorter { OnOk result (left (unread words.new) < left (unread words.old)) }
    ensures means { ReadsValue field_.TextDirection words.old node.old result node.new words.new }
{
    if node.text_direction().is_some() {
        return Err(Stop::BadLine);
    }
    let value = text_direction_named(words.word()?).ok_or(Stop::BadLine)?;
    node.set_text_direction(value);
    Ok(())
}

/// How a text is aligned, which wasn't set yet.
#[tactic(auto, using(script_words::proofs::WordCuts::one_taken, script_words::proofs::WordCuts::none_taken, script_words::proofs::NamedValues::text_align_is), unfolding(crate::specs::FieldMeaning::by_kind))]
pub(crate) fn text_align_value(words: &mut Words, node: &mut Node) -> Result<(), Stop>
    ensures shorter { OnOk result (left (unread words.new) < left (unread words.old)) }
    ensures means { ReadsValue field_.TextAlign words.old node.old result node.new words.new }
{
    if node.text_align().is_some() {
        return Err(Stop::BadLine);
    }
    let value = text_align_named(words.word()?).ok_or(Stop::BadLine)?;
    node.set_text_align(value);
    Ok(())
}

/// Whether text is superscript or subscript, which wasn't set yet.
#[tactic(auto, using(script_words::proofs::WordCuts::one_taken, script_words::proofs::WordCuts::none_taken, script_words::proofs::NamedValues::vertical_offset_is), unfolding(crate::specs::FieldMeaning::by_kind))]
pub(crate) fn vertical_offset_value(words: &mut Words, node: &mut Node) -> Result<(), Stop>
    ensures shorter { OnOk result (left (unread words.new) < left (unread words.old)) }
    ensures means { ReadsValue field_.VerticalOffset words.old node.old result node.new words.new }
{
    if node.vertical_offset().is_some() {
        return Err(Stop::BadLine);
    }
    let value = vertical_offset_named(words.word()?).ok_or(Stop::BadLine)?;
    node.set_vertical_offset(value);
    Ok(())
}
