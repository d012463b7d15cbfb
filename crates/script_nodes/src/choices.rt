//! Fields whose value is one of a few: sets one by its number.

ghost use Rattle.std.specs.Prelude.{◌≡◌, slice_get};
ghost use Rattle.script_nodes.specs.Given.{Becomes, given_choice};
ghost use Rattle.script_words.specs.NameLists.{all_decoration_styles};

use crate::field_kinds::Field;
use schema::{Node, TextDecorationStyle};
use script_words::name_lists::{
    currents, decoration_styles, lives, orientations, popups, sort_directions, text_aligns,
    text_directions, toggles, vertical_offsets,
};

/// Sets a field to the value with a number in a table, and says whether there is one.
macro_rules! set_numbered {
    ($node:ident.$set:ident, $table:expr, $number:expr) => {
        match numbered($table, $number) {
            Some(value) => {
                $node.$set(value);
                true
            }
            None => false,
        }
    };
}

/// What has this number in a table.
pub(crate) fn numbered<T: Copy>(table: &[T], number: u8) -> Option<T>
    ensures { result ≡ slice_get table.now number }
{
    table.get(usize::from(number)).copied()
}

/// The style of a line with this number.
pub(crate) fn decoration_style_numbered(number: u8) -> Option<TextDecorationStyle>
    ensures { result ≡ slice_get all_decoration_styles number }
{
    numbered(decoration_styles(), number)
}

/// Sets a field to the value with this number, if it is such a field and has that many.
pub(crate) fn set_choice(field: Field, number: u8, node: &mut Node) -> bool
    ensures { Becomes (given_choice number field node.old) result node.old node.new }
{
    match field {
        Field::Toggled => set_numbered!(node.set_toggled, toggles(), number),
        Field::Live => set_numbered!(node.set_live, lives(), number),
        Field::Orientation => set_numbered!(node.set_orientation, orientations(), number),
        Field::SortDirection => set_numbered!(node.set_sort_direction, sort_directions(), number),
        Field::AriaCurrent => set_numbered!(node.set_aria_current, currents(), number),
        Field::HasPopup => set_numbered!(node.set_has_popup, popups(), number),
        Field::TextDirection => set_numbered!(node.set_text_direction, text_directions(), number),
        Field::TextAlign => set_numbered!(node.set_text_align, text_aligns(), number),
        Field::VerticalOffset => set_numbered!(
            node.set_vertical_offset,
            vertical_offsets(),
            number
        ),
        _ => false,
    }
}
