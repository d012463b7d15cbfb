//! What C says by numbers: flags, filters, movements, the answers of filters, roles and actions. Programs are built with these numbers,
//! so none of them is moved: what is new comes last in its table.
ghost use Rattle.std.specs.Prelude.{◌≡◌, ◌≤◌, min, slice_get};
ghost use Rattle.fed_tree_c.specs.Numbers.{IsRoleNumbered, action_place, all_flags, all_filters, all_moves, answer_number, at_index, role_code};

use fed_tree::Flag;
use model::filters::FilterResult;
use model::{At, Move, NamedFilter, Side};
use schema::{Role, named_roles};

/// The flags in the order of their numbers.
static FLAGS: [Flag; 34] = [
    Flag::Hidden,
    Flag::Disabled,
    Flag::Busy,
    Flag::Modal,
    Flag::Required,
    Flag::Multiselectable,
    Flag::LiveAtomic,
    Flag::TouchTransparent,
    Flag::ClipsChildren,
    Flag::Italic,
    Flag::ReadOnly,
    Flag::ReadOnlySupported,
    Flag::TextInput,
    Flag::Multiline,
    Flag::PasswordInput,
    Flag::Dialog,
    Flag::ItemLike,
    Flag::Graft,
    Flag::Selectable,
    Flag::SupportsToggle,
    Flag::SupportsExpandCollapse,
    Flag::SupportsUrl,
    Flag::SupportsTextRanges,
    Flag::Focusable,
    Flag::Clickable,
    Flag::SupportsIncrement,
    Flag::SupportsDecrement,
    Flag::Invocable,
    Flag::LabelComesFromValue,
    Flag::ContainerWithSelectableChildren,
    Flag::ReadOnlyByDefault,
    Flag::ReadOnlyOrDisabled,
    Flag::HasLabel,
    Flag::HasValue,
];

/// The filters in the order of their numbers.
static FILTERS: [NamedFilter; 3] = [
    NamedFilter::All,
    NamedFilter::Common,
    NamedFilter::CommonWithRoot,
];

/// The movements in the order of their numbers.
static MOVES: [Move; 20] = [
    Move::ForwardToCharacterStart,
    Move::ForwardToCharacterEnd,
    Move::BackwardToCharacterStart,
    Move::ForwardToFormatStart,
    Move::ForwardToFormatEnd,
    Move::BackwardToFormatStart,
    Move::ForwardToWordStart,
    Move::ForwardToWordEnd,
    Move::BackwardToWordStart,
    Move::ForwardToLineStart,
    Move::ForwardToLineEnd,
    Move::BackwardToLineStart,
    Move::ForwardToParagraphStart,
    Move::ForwardToParagraphEnd,
    Move::BackwardToParagraphStart,
    Move::ForwardToPageStart,
    Move::ForwardToPageEnd,
    Move::DocumentEnd,
    Move::BackwardToPageStart,
    Move::DocumentStart,
];

/// All flags, in the order of their numbers.
pub(crate) fn flags() -> &'static [Flag]
    ensures { result.now ≡ all_flags }
{
    &FLAGS
}

/// All filters, in the order of their numbers.
fn filters() -> &'static [NamedFilter]
    ensures { result.now ≡ all_filters }
{
    &FILTERS
}

/// All movements, in the order of their numbers.
fn moves() -> &'static [Move]
    ensures { result.now ≡ all_moves }
{
    &MOVES
}

/// What has this number in a table.
pub(crate) fn numbered<T: Copy>(table: &[T], number: u32) -> Option<T>
    ensures { result ≡ slice_get table.now number }
{
    table.get(number as usize).copied()
}

/// The flag with this number.
pub(crate) fn flag_numbered(number: u32) -> Option<Flag>
    ensures { result ≡ slice_get all_flags number }
{
    numbered(flags(), number)
}

/// The filter with this number.
pub(crate) fn filter_numbered(number: u32) -> Option<NamedFilter>
    ensures { result ≡ slice_get all_filters number }
{
    numbered(filters(), number)
}

/// The movement with this number.
pub(crate) fn move_numbered(number: u32) -> Option<Move>
    ensures { result ≡ slice_get all_moves number }
{
    numbered(moves(), number)
}

/// The number of the first role without a name, and how many there are.
const OTHER_ROLES: u32 = 1 << 16;

/// The role's number: that of `schema` for one with a name, and for another its own, counted from 65536.
pub(crate) fn role_code(role: Role) -> u32
    ensures { result ≡ role_code role }
{
    match role {
        Role::Other(number) => OTHER_ROLES + u32::from(number),
        named => named.number(),
    }
}

/// The role with this number.
pub(crate) fn role_numbered(number: u32) -> Option<Role>
    ensures { IsRoleNumbered number result }
{
    match numbered(named_roles(), number) {
        Some((_, role)) => Some(role),
        None => other_role(number),
    }
}

/// The role without a name that has this number.
fn other_role(number: u32) -> Option<Role>
    requires { 72 ≤ number }
    ensures { IsRoleNumbered number result }
{
    if number < OTHER_ROLES {
        return None;
    }
    match u16::try_from(number - OTHER_ROLES) {
        Ok(number) => Some(Role::Other(number)),
        Err(_) => None,
    }
}

/// The place of the action with this number among all actions: those without names begin at 256. What is no action's is past them.
pub(crate) fn action_place(number: u32) -> u16
    ensures { result ≡ action_place number }
{
    if number < 4 {
        return number as u16;
    }
    if number < 256 {
        return 260;
    }
    (number - 252).min(260) as u16
}

/// The number, if it has a byte, and else 255.
pub(crate) fn byte_of(number: u32) -> u8
    ensures { result ≡ min number 255 }
{
    number.min(255) as u8
}

/// The number of a filter's answer.
pub(crate) fn answer_number(answer: FilterResult) -> u32
    ensures { result ≡ answer_number answer }
{
    match answer {
        FilterResult::Include => 0,
        FilterResult::ExcludeNode => 1,
        FilterResult::ExcludeSubtree => 2,
    }
}

/// The position that C says.
pub(crate) fn at_index(index: usize, is_end: bool) -> At
    ensures { result ≡ at_index index is_end }
{
    At {
        index,
        side: if is_end { Side::End } else { Side::Start },
    }
}
