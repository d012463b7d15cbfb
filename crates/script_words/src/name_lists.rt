//! All values of a kind in the order of their numbers, and their names in that order.

ghost use Rattle.script_words.specs.NameLists.{AreNames, all_truths, all_filters, all_sides, all_moves, all_toggles, all_lives, all_orientations, all_sort_directions, all_currents, all_popups, all_text_directions, all_text_aligns, all_vertical_offsets, all_decoration_styles};
ghost use Rattle.std.specs.Prelude.{◌≡◌};
ghost use Rattle.script_words.specs.Names.{truth_name, filter_name, side_name, move_name, toggled_name, live_name, orientation_name, sort_direction_name, aria_current_name, has_popup_name, text_direction_name, text_align_name, vertical_offset_name, decoration_style_name};

use crate::tables::{
    all_names, all_values, currents, decoration_styles, filters, lives, moves, orientations,
    popups, sides, sort_directions, text_aligns, text_directions, toggles, vertical_offsets,
};
use schema::{
    AriaCurrent, HasPopup, Live, Orientation, SortDirection, TextAlign, TextDecorationStyle,
    TextDirection, Toggled, VerticalOffset,
};

static FILTERS: &[&str] = filters!(all_names);

/// The names of the filters.
pub fn filter_names() -> &'static [&'static str]
    ensures { AreNames filter_name all_filters result.now }
{
    FILTERS
}

static SIDES: &[&str] = sides!(all_names);

/// The names of the sides.
pub fn side_names() -> &'static [&'static str]
    ensures { AreNames side_name all_sides result.now }
{
    SIDES
}

static MOVES: &[&str] = moves!(all_names);

/// The names of the moves.
pub fn move_names() -> &'static [&'static str]
    ensures { AreNames move_name all_moves result.now }
{
    MOVES
}

static TOGGLES: &[&str] = toggles!(all_names);

/// The names of the toggle states.
pub fn toggled_names() -> &'static [&'static str]
    ensures { AreNames toggled_name all_toggles result.now }
{
    TOGGLES
}

static TRUTHS: [&str; 2] = ["true", "false"];

/// The names of the truth values.
pub fn truth_names() -> &'static [&'static str]
    ensures { AreNames truth_name all_truths result.now }
{
    &TRUTHS
}

static LIVES: &[&str] = lives!(all_names);

/// The names of the settings of how changes are announced.
pub fn live_names() -> &'static [&'static str]
    ensures { AreNames live_name all_lives result.now }
{
    LIVES
}

static ORIENTATIONS: &[&str] = orientations!(all_names);

/// The names of the axes.
pub fn orientation_names() -> &'static [&'static str]
    ensures { AreNames orientation_name all_orientations result.now }
{
    ORIENTATIONS
}

static SORT_DIRECTIONS: &[&str] = sort_directions!(all_names);

/// The names of the sort orders.
pub fn sort_direction_names() -> &'static [&'static str]
    ensures { AreNames sort_direction_name all_sort_directions result.now }
{
    SORT_DIRECTIONS
}

static CURRENTS: &[&str] = currents!(all_names);

/// The names of the kinds of current item.
pub fn aria_current_names() -> &'static [&'static str]
    ensures { AreNames aria_current_name all_currents result.now }
{
    CURRENTS
}

static POPUPS: &[&str] = popups!(all_names);

/// The names of the kinds of popup.
pub fn has_popup_names() -> &'static [&'static str]
    ensures { AreNames has_popup_name all_popups result.now }
{
    POPUPS
}

static TEXT_DIRECTIONS: &[&str] = text_directions!(all_names);

/// The names of the text directions.
pub fn text_direction_names() -> &'static [&'static str]
    ensures { AreNames text_direction_name all_text_directions result.now }
{
    TEXT_DIRECTIONS
}

static TEXT_ALIGNS: &[&str] = text_aligns!(all_names);

/// The names of the alignments.
pub fn text_align_names() -> &'static [&'static str]
    ensures { AreNames text_align_name all_text_aligns result.now }
{
    TEXT_ALIGNS
}

static VERTICAL_OFFSETS: &[&str] = vertical_offsets!(all_names);

/// The names of the vertical offsets.
pub fn vertical_offset_names() -> &'static [&'static str]
    ensures { AreNames vertical_offset_name all_vertical_offsets result.now }
{
    VERTICAL_OFFSETS
}

static DECORATION_STYLES: &[&str] = decoration_styles!(all_names);

/// The names of the styles of a line.
pub fn decoration_style_names() -> &'static [&'static str]
    ensures { AreNames decoration_style_name all_decoration_styles result.now }
{
    DECORATION_STYLES
}

/// The toggle states, in the order of their numbers.
pub fn toggles() -> &'static [Toggled]
    ensures { result.now ≡ all_toggles }
{
    toggles!(all_values)
}

/// The settings of how changes are announced, in the order of their numbers.
pub fn lives() -> &'static [Live]
    ensures { result.now ≡ all_lives }
{
    lives!(all_values)
}

/// The axes, in the order of their numbers.
pub fn orientations() -> &'static [Orientation]
    ensures { result.now ≡ all_orientations }
{
    orientations!(all_values)
}

/// The sort orders, in the order of their numbers.
pub fn sort_directions() -> &'static [SortDirection]
    ensures { result.now ≡ all_sort_directions }
{
    sort_directions!(all_values)
}

/// The kinds of current item, in the order of their numbers.
pub fn currents() -> &'static [AriaCurrent]
    ensures { result.now ≡ all_currents }
{
    currents!(all_values)
}

/// The kinds of popup, in the order of their numbers.
pub fn popups() -> &'static [HasPopup]
    ensures { result.now ≡ all_popups }
{
    popups!(all_values)
}

/// The text directions, in the order of their numbers.
pub fn text_directions() -> &'static [TextDirection]
    ensures { result.now ≡ all_text_directions }
{
    text_directions!(all_values)
}

/// The alignments, in the order of their numbers.
pub fn text_aligns() -> &'static [TextAlign]
    ensures { result.now ≡ all_text_aligns }
{
    text_aligns!(all_values)
}

/// The vertical offsets, in the order of their numbers.
pub fn vertical_offsets() -> &'static [VerticalOffset]
    ensures { result.now ≡ all_vertical_offsets }
{
    vertical_offsets!(all_values)
}

/// The styles of a line, in the order of their numbers.
pub fn decoration_styles() -> &'static [TextDecorationStyle]
    ensures { result.now ≡ all_decoration_styles }
{
    decoration_styles!(all_values)
}
