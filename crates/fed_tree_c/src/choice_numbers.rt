//! The numbers of the values of fields that have few: those by which updates set them.
ghost use Rattle.std.specs.Prelude.{◌≡◌, Some, slice_get};
ghost use Rattle.script_words.specs.NameLists.{all_currents, all_decoration_styles, all_lives, all_orientations, all_popups, all_sort_directions, all_text_aligns, all_text_directions, all_toggles, all_vertical_offsets};
ghost use Rattle.fed_tree_c.specs.ChoiceNumbers.{aria_current_number, decoration_style_number, has_popup_number, live_number, orientation_number, sort_direction_number, text_align_number, text_direction_number, toggled_number, vertical_offset_number};

use schema::{
    AriaCurrent, HasPopup, Live, Orientation, SortDirection, TextAlign, TextDecorationStyle,
    TextDirection, Toggled, VerticalOffset,
};

/// The number of whether a check box, a switch or a button is on.
pub(crate) fn toggled_number(value: Toggled) -> u32
    ensures number { result ≡ toggled_number value }
    ensures comes_back { slice_get all_toggles result ≡ Some value }
{
    match value {
        Toggled::True => 0,
        Toggled::False => 1,
        Toggled::Mixed => 2,
    }
}

/// The number of how changes are announced.
pub(crate) fn live_number(value: Live) -> u32
    ensures number { result ≡ live_number value }
    ensures comes_back { slice_get all_lives result ≡ Some value }
{
    match value {
        Live::Off => 0,
        Live::Polite => 1,
        Live::Assertive => 2,
    }
}

/// The number of an axis.
pub(crate) fn orientation_number(value: Orientation) -> u32
    ensures number { result ≡ orientation_number value }
    ensures comes_back { slice_get all_orientations result ≡ Some value }
{
    match value {
        Orientation::Horizontal => 0,
        Orientation::Vertical => 1,
    }
}

/// The number of how a column or a row is sorted.
pub(crate) fn sort_direction_number(value: SortDirection) -> u32
    ensures number { result ≡ sort_direction_number value }
    ensures comes_back { slice_get all_sort_directions result ≡ Some value }
{
    match value {
        SortDirection::Ascending => 0,
        SortDirection::Descending => 1,
        SortDirection::Other => 2,
    }
}

/// The number of as what a node is the current one.
pub(crate) fn aria_current_number(value: AriaCurrent) -> u32
    ensures number { result ≡ aria_current_number value }
    ensures comes_back { slice_get all_currents result ≡ Some value }
{
    match value {
        AriaCurrent::False => 0,
        AriaCurrent::True => 1,
        AriaCurrent::Page => 2,
        AriaCurrent::Step => 3,
        AriaCurrent::Location => 4,
        AriaCurrent::Date => 5,
        AriaCurrent::Time => 6,
    }
}

/// The number of what pops up.
pub(crate) fn has_popup_number(value: HasPopup) -> u32
    ensures number { result ≡ has_popup_number value }
    ensures comes_back { slice_get all_popups result ≡ Some value }
{
    match value {
        HasPopup::Menu => 0,
        HasPopup::Listbox => 1,
        HasPopup::Tree => 2,
        HasPopup::Grid => 3,
        HasPopup::Dialog => 4,
    }
}

/// The number of the direction of a text.
pub(crate) fn text_direction_number(value: TextDirection) -> u32
    ensures number { result ≡ text_direction_number value }
    ensures comes_back { slice_get all_text_directions result ≡ Some value }
{
    match value {
        TextDirection::LeftToRight => 0,
        TextDirection::RightToLeft => 1,
        TextDirection::TopToBottom => 2,
        TextDirection::BottomToTop => 3,
    }
}

/// The number of how a text is aligned.
pub(crate) fn text_align_number(value: TextAlign) -> u32
    ensures number { result ≡ text_align_number value }
    ensures comes_back { slice_get all_text_aligns result ≡ Some value }
{
    match value {
        TextAlign::Left => 0,
        TextAlign::Right => 1,
        TextAlign::Center => 2,
        TextAlign::Justify => 3,
    }
}

/// The number of whether a text is subscript or superscript.
pub(crate) fn vertical_offset_number(value: VerticalOffset) -> u32
    ensures number { result ≡ vertical_offset_number value }
    ensures comes_back { slice_get all_vertical_offsets result ≡ Some value }
{
    match value {
        VerticalOffset::Subscript => 0,
        VerticalOffset::Superscript => 1,
    }
}

/// The number of how a line is drawn.
pub(crate) fn decoration_style_number(value: TextDecorationStyle) -> u32
    ensures number { result ≡ decoration_style_number value }
    ensures comes_back { slice_get all_decoration_styles result ≡ Some value }
{
    match value {
        TextDecorationStyle::Solid => 0,
        TextDecorationStyle::Dotted => 1,
        TextDecorationStyle::Dashed => 2,
        TextDecorationStyle::Double => 3,
        TextDecorationStyle::Wavy => 4,
    }
}
