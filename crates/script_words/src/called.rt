//! The written names of values.
ghost use Rattle.std.specs.Prelude.{◌≡◌, option_map, option_copied};
ghost use Rattle.script_words.specs.Names.{toggled_name, orientation_name, sort_direction_name, aria_current_name, has_popup_name, live_name, text_direction_name, text_align_name, vertical_offset_name, decoration_style_name, truth_name, filter_name, side_name, move_name};

use crate::tables::{
    currents, decoration_styles, filters, lives, moves, name_of, orientations, popups, sides,
    sort_directions, text_aligns, text_directions, toggles, vertical_offsets,
};
use model::{Move, NamedFilter, Side};
use schema::{
    AriaCurrent, HasPopup, Live, Orientation, SortDirection, TextAlign, TextDecorationStyle,
    TextDirection, Toggled, VerticalOffset,
};

/// The name of a toggle state.
pub fn toggled_name(value: Option<Toggled>) -> Option<&'static str>
    ensures { option_copied result ≡ option_map toggled_name value }
{
    Some(toggles!(name_of value?))
}

/// The name of an axis.
pub fn orientation_name(value: Option<Orientation>) -> Option<&'static str>
    ensures { option_copied result ≡ option_map orientation_name value }
{
    Some(orientations!(name_of value?))
}

/// The name of a sort order.
pub fn sort_direction_name(value: Option<SortDirection>) -> Option<&'static str>
    ensures { option_copied result ≡ option_map sort_direction_name value }
{
    Some(sort_directions!(name_of value?))
}

/// The name of a kind of current item.
pub fn aria_current_name(value: Option<AriaCurrent>) -> Option<&'static str>
    ensures { option_copied result ≡ option_map aria_current_name value }
{
    Some(currents!(name_of value?))
}

/// The name of a kind of popup.
pub fn has_popup_name(value: Option<HasPopup>) -> Option<&'static str>
    ensures { option_copied result ≡ option_map has_popup_name value }
{
    Some(popups!(name_of value?))
}

/// The name of how changes are announced.
pub fn live_name(value: Option<Live>) -> Option<&'static str>
    ensures { option_copied result ≡ option_map live_name value }
{
    Some(lives!(name_of value?))
}

/// The name of a text direction.
pub fn text_direction_name(value: Option<TextDirection>) -> Option<&'static str>
    ensures { option_copied result ≡ option_map text_direction_name value }
{
    Some(text_directions!(name_of value?))
}

/// The name of a text alignment.
pub fn text_align_name(value: Option<TextAlign>) -> Option<&'static str>
    ensures { option_copied result ≡ option_map text_align_name value }
{
    Some(text_aligns!(name_of value?))
}

/// The name for superscript or subscript.
pub fn vertical_offset_name(value: Option<VerticalOffset>) -> Option<&'static str>
    ensures { option_copied result ≡ option_map vertical_offset_name value }
{
    Some(vertical_offsets!(name_of value?))
}

/// The name of the style of a line above, through or below text.
pub fn decoration_style_name(value: TextDecorationStyle) -> &'static str
    ensures { result.now ≡ decoration_style_name value }
{
    decoration_styles!(name_of value)
}

/// The name of a flag's value.
pub fn truth_name(value: Option<bool>) -> Option<&'static str>
    ensures { option_copied result ≡ option_map truth_name value }
{
    Some(if value? { "true" } else { "false" })
}

/// The name of a filter.
pub fn filter_name(value: NamedFilter) -> &'static str
    ensures { result.now ≡ filter_name value }
{
    filters!(name_of value)
}

/// The name of a side of a position.
pub fn side_name(value: Side) -> &'static str
    ensures { result.now ≡ side_name value }
{
    sides!(name_of value)
}

/// The name of a caret movement.
pub fn move_name(value: Move) -> &'static str
    ensures { result.now ≡ move_name value }
{
    moves!(name_of value)
}
