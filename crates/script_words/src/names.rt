//! Values by their names.

ghost use Rattle.std.specs.Prelude.{ℕ, ◌≡◌, ◌↔◌, ◌++◌, Some, codes};
ghost use Rattle.std.specs.Fmt.{decimal};
ghost use Rattle.schema.specs.RoleNames.{role_text};
ghost use Rattle.schema.specs.declared.Role.{Role};
ghost use Rattle.script_words.specs.NamedIn.{IsNamed, ReadsNamed, named_in};
ghost use Rattle.script_words.specs.PartValues.{other_of, role_of};
ghost use Rattle.script_words.specs.Reading.{IsRole, IsShort};
ghost use Rattle.script_words.specs.Says.{SaysOther, SaysRole};
ghost use Rattle.script_words.specs.WordValues.{short_of};
ghost use Rattle.script_words.specs.Names.{toggled_name, truth_name, live_name, orientation_name, sort_direction_name, aria_current_name, has_popup_name, text_direction_name, text_align_name, vertical_offset_name, decoration_style_name, filter_name, side_name, move_name};

use crate::tables::{
    all_named, currents, decoration_styles, filters, lives, moves, orientations, popups, sides,
    sort_directions, text_aligns, text_directions, toggles, value_named, vertical_offsets,
};
use crate::words::{in_brackets, short};
use model::{Move, NamedFilter, Side};
use schema::{
    AriaCurrent, HasPopup, Live, Orientation, Role, SortDirection, TextAlign, TextDecorationStyle,
    TextDirection, Toggled, VerticalOffset, named_roles,
};

/// The value beside the word in the table.
pub fn named<T: Copy>(table: &[(&str, T)], word: &str) -> Option<T>
    ensures { result ≡ named_in word.now table.now }
{
    for (name, what) in table {
        if *name == word {
            return Some(*what);
        }
    }
    None
}

/// The role with this name; `Other(7)` is the role `Other` with the number 7.
pub fn role_named(word: &str) -> Option<Role>
    ensures reads { (role : Role) → IsRole role → word.now ≡ role_text role → result ≡ Some role }
    ensures exact { (role : Role) → (result ≡ Some role) ↔ (IsRole role × SaysRole word.now role) }
    ensures means { result ≡ role_of word.now }
{
    if let Some(role) = named(named_roles(), word) {
        return Some(role);
    }
    Some(Role::Other(other_role_number(word)?))
}

/// The number of the role that `Other(7)` names.
fn other_role_number(word: &str) -> Option<u16>
    ensures reads { (n : ℕ) → IsShort n → word.now ≡ codes "Other(" ++ decimal n ++ codes ")" → result ≡ Some n }
    ensures exact { (n : ℕ) → (result ≡ Some n) ↔ (IsShort n × SaysOther word.now n) }
    ensures means { result ≡ other_of short_of word.now }
{
    short(in_brackets(word)?)
}

/// The filter with this name.
pub fn filter_named(word: &str) -> Option<NamedFilter>
    ensures reads { ReadsNamed filter_name word.now result }
    ensures only { IsNamed filter_name word.now result }
{
    filters!(value_named word)
}

/// The side with this name.
pub fn side_named(word: &str) -> Option<Side>
    ensures reads { ReadsNamed side_name word.now result }
    ensures only { IsNamed side_name word.now result }
{
    sides!(value_named word)
}

static MOVES: &[(&str, Move)] = moves!(all_named);

/// The caret movement with this name.
pub fn move_named(word: &str) -> Option<Move>
    ensures reads { ReadsNamed move_name word.now result }
    ensures only { IsNamed move_name word.now result }
{
    named(MOVES, word)
}

/// The toggle state with this name.
pub fn toggled_named(word: &str) -> Option<Toggled>
    ensures reads { ReadsNamed toggled_name word.now result }
    ensures only { IsNamed toggled_name word.now result }
{
    toggles!(value_named word)
}

/// The value of `true` or `false`.
pub fn truth_named(word: &str) -> Option<bool>
    ensures reads { ReadsNamed truth_name word.now result }
    ensures only { IsNamed truth_name word.now result }
{
    match word {
        "true" => Some(true),
        "false" => Some(false),
        _ => None,
    }
}

/// How changes are announced, by this name.
pub fn live_named(word: &str) -> Option<Live>
    ensures reads { ReadsNamed live_name word.now result }
    ensures only { IsNamed live_name word.now result }
{
    lives!(value_named word)
}

/// The axis with this name.
pub fn orientation_named(word: &str) -> Option<Orientation>
    ensures reads { ReadsNamed orientation_name word.now result }
    ensures only { IsNamed orientation_name word.now result }
{
    orientations!(value_named word)
}

/// The sort order with this name.
pub fn sort_direction_named(word: &str) -> Option<SortDirection>
    ensures reads { ReadsNamed sort_direction_name word.now result }
    ensures only { IsNamed sort_direction_name word.now result }
{
    sort_directions!(value_named word)
}

/// The kind of current item with this name.
pub fn aria_current_named(word: &str) -> Option<AriaCurrent>
    ensures reads { ReadsNamed aria_current_name word.now result }
    ensures only { IsNamed aria_current_name word.now result }
{
    currents!(value_named word)
}

/// The kind of popup with this name.
pub fn has_popup_named(word: &str) -> Option<HasPopup>
    ensures reads { ReadsNamed has_popup_name word.now result }
    ensures only { IsNamed has_popup_name word.now result }
{
    popups!(value_named word)
}

/// The text direction with this name.
pub fn text_direction_named(word: &str) -> Option<TextDirection>
    ensures reads { ReadsNamed text_direction_name word.now result }
    ensures only { IsNamed text_direction_name word.now result }
{
    text_directions!(value_named word)
}

/// The text alignment with this name.
pub fn text_align_named(word: &str) -> Option<TextAlign>
    ensures reads { ReadsNamed text_align_name word.now result }
    ensures only { IsNamed text_align_name word.now result }
{
    text_aligns!(value_named word)
}

/// Superscript or subscript, by this name.
pub fn vertical_offset_named(word: &str) -> Option<VerticalOffset>
    ensures reads { ReadsNamed vertical_offset_name word.now result }
    ensures only { IsNamed vertical_offset_name word.now result }
{
    vertical_offsets!(value_named word)
}

/// The style of a line above, through or below text, by this name.
pub fn decoration_style_named(word: &str) -> Option<TextDecorationStyle>
    ensures reads { ReadsNamed decoration_style_name word.now result }
    ensures only { IsNamed decoration_style_name word.now result }
{
    decoration_styles!(value_named word)
}
