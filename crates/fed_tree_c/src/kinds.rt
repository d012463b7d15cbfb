//! The kinds of questions that C asks by numbers: each has its place in a list as its number.
ghost use Rattle.std.specs.Prelude.{◌≡◌, slice_get};
ghost use Rattle.fed_tree_c.specs.Kinds.{action_said, all_states, all_counts, all_lists, all_relatives, all_styles, all_tests, all_units};

use crate::numbers::{action_place, numbered};
use fed_tree::{Count, Listed, Relative, SpotTest, Style, TextUnit};
use schema::Action;

/// A state of a node that has few values.
#[derive(Clone, Copy)]
pub enum State {
    Toggled,
    Selected,
    Orientation,
    Live,
}

/// The states that have few values, in the order of their numbers.
static STATES: [State; 4] = [
    State::Toggled,
    State::Selected,
    State::Orientation,
    State::Live,
];

/// The numbers that are computed of a node, in the order of their numbers.
static COUNTS: [Count; 7] = [
    Count::Children,
    Count::Index,
    Count::FilteredChildren,
    Count::FilteredIndex,
    Count::SetSize,
    Count::SetPosition,
    Count::ContainerSetSize,
];

/// The other nodes that are found from a node, in the order of their numbers.
static RELATIVES: [Relative; 4] = [
    Relative::ActiveDescendant,
    Relative::DeepestFirstChild,
    Relative::DeepestLastChild,
    Relative::SelectionContainer,
];

/// The lists of nodes, in the order of their numbers.
static LISTS: [Listed; 9] = [
    Listed::LabelledBy,
    Listed::Controls,
    Listed::PrecedingSiblings,
    Listed::FollowingSiblings,
    Listed::Descendants,
    Listed::Items,
    Listed::PrecedingFilteredSiblings,
    Listed::FollowingFilteredSiblings,
    Listed::FilteredDescendants,
];

/// The properties of how text looks, in the order of their numbers.
static STYLES: [Style; 13] = [
    Style::TextDirection,
    Style::FontFamily,
    Style::Language,
    Style::FontSize,
    Style::FontWeight,
    Style::BackgroundColor,
    Style::ForegroundColor,
    Style::Overline,
    Style::Strikethrough,
    Style::Underline,
    Style::TextAlign,
    Style::VerticalOffset,
    Style::Italic,
];

/// The units of text, in the order of their numbers.
static UNITS: [TextUnit; 6] = [
    TextUnit::Character,
    TextUnit::Format,
    TextUnit::Word,
    TextUnit::Line,
    TextUnit::Paragraph,
    TextUnit::Page,
];

/// The tests of a position, in the order of their numbers.
static TESTS: [SpotTest; 11] = [
    SpotTest::CharacterAfter,
    SpotTest::CharacterBefore,
    SpotTest::FormatStart,
    SpotTest::WordStart,
    SpotTest::LineStart,
    SpotTest::LineEnd,
    SpotTest::ParagraphStart,
    SpotTest::ParagraphEnd,
    SpotTest::ParagraphSeparator,
    SpotTest::DocumentStart,
    SpotTest::DocumentEnd,
];

/// The states that have few values, in the order of their numbers.
fn states() -> &'static [State]
    ensures { result.now ≡ all_states }
{
    &STATES
}

/// The numbers that are computed of a node, in the order of their numbers.
fn counts() -> &'static [Count]
    ensures { result.now ≡ all_counts }
{
    &COUNTS
}

/// The other nodes that are found from a node, in the order of their numbers.
fn relatives() -> &'static [Relative]
    ensures { result.now ≡ all_relatives }
{
    &RELATIVES
}

/// The lists of nodes, in the order of their numbers.
fn lists() -> &'static [Listed]
    ensures { result.now ≡ all_lists }
{
    &LISTS
}

/// The properties of how text looks, in the order of their numbers.
fn styles() -> &'static [Style]
    ensures { result.now ≡ all_styles }
{
    &STYLES
}

/// The units of text, in the order of their numbers.
fn units() -> &'static [TextUnit]
    ensures { result.now ≡ all_units }
{
    &UNITS
}

/// The tests of a position, in the order of their numbers.
fn tests() -> &'static [SpotTest]
    ensures { result.now ≡ all_tests }
{
    &TESTS
}

/// The state with this number.
pub(crate) fn state_numbered(number: u32) -> Option<State>
    ensures { result ≡ slice_get all_states number }
{
    numbered(states(), number)
}

/// The number with this number.
pub(crate) fn count_numbered(number: u32) -> Option<Count>
    ensures { result ≡ slice_get all_counts number }
{
    numbered(counts(), number)
}

/// The other node with this number.
pub(crate) fn relative_numbered(number: u32) -> Option<Relative>
    ensures { result ≡ slice_get all_relatives number }
{
    numbered(relatives(), number)
}

/// The list with this number.
pub(crate) fn list_numbered(number: u32) -> Option<Listed>
    ensures { result ≡ slice_get all_lists number }
{
    numbered(lists(), number)
}

/// The property with this number.
pub(crate) fn style_numbered(number: u32) -> Option<Style>
    ensures { result ≡ slice_get all_styles number }
{
    numbered(styles(), number)
}

/// The unit with this number.
pub(crate) fn unit_numbered(number: u32) -> Option<TextUnit>
    ensures { result ≡ slice_get all_units number }
{
    numbered(units(), number)
}

/// The test with this number.
pub(crate) fn test_numbered(number: u32) -> Option<SpotTest>
    ensures { result ≡ slice_get all_tests number }
{
    numbered(tests(), number)
}

/// The action with this number: one that has a name, or from 256 on another.
#[tactic(auto, unfolding(script_nodes::specs::ActionLists::action_numbered))]
pub(crate) fn action_numbered(number: u32) -> Option<Action>
    ensures { result ≡ action_said number }
{
    let place = action_place(number);
    match place {
        0 => Some(Action::Click),
        1 => Some(Action::Focus),
        2 => Some(Action::Increment),
        3 => Some(Action::Decrement),
        4..260 => Some(Action::Other((place - 4) as u8)),
        _ => None,
    }
}
