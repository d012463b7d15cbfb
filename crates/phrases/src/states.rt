//! Words for the state of a node.
ghost use Rattle.std.specs.Prelude.{ℕ, ◌≡◌, Bool, List, Some, option_copied, option_map};
ghost use Rattle.phrases.specs.States.{checked_word, pressed_word, switched_word, toggled_word, expanded_word, selected_word, popup_word, after_comma, where_it_is, new_word, same_flag, same_toggle, flag_word, live_word};

use schema::{HasPopup, Live, Toggled};
use std::fmt;

/// How the toggle state of a control is said.
#[derive(Clone, Copy)]
pub enum Toggling {
    /// As checked or not checked.
    Checks,
    /// As pressed or not pressed.
    Presses,
    /// As on or off.
    Switches,
}

/// The parts of a node's state that are said.
#[derive(Clone, Copy)]
pub struct State {
    pub toggling: Toggling,
    pub toggled: Option<Toggled>,
    pub expanded: Option<bool>,
    pub selected: Option<bool>,
    pub is_disabled: bool,
    pub is_read_only: bool,
    pub is_required: bool,
}

/// The word for whether a control is checked.
fn checked_word(toggled: Toggled) -> &'static str
    ensures { result.now ≡ checked_word toggled }
{
    match toggled {
        Toggled::False => "not checked",
        Toggled::True => "checked",
        Toggled::Mixed => "partly checked",
    }
}

/// The word for whether a control is pressed.
fn pressed_word(toggled: Toggled) -> &'static str
    ensures { result.now ≡ pressed_word toggled }
{
    match toggled {
        Toggled::False => "not pressed",
        Toggled::True => "pressed",
        Toggled::Mixed => "partly pressed",
    }
}

/// The word for whether a control is on.
pub fn switched_word(toggled: Toggled) -> &'static str
    ensures { result.now ≡ switched_word toggled }
{
    match toggled {
        Toggled::False => "off",
        Toggled::True => "on",
        Toggled::Mixed => "partly on",
    }
}

/// The word for the toggle state of a control.
fn toggled_word(toggling: Toggling, toggled: Toggled) -> &'static str
    ensures { result.now ≡ toggled_word toggling toggled }
{
    match toggling {
        Toggling::Checks => checked_word(toggled),
        Toggling::Presses => pressed_word(toggled),
        Toggling::Switches => switched_word(toggled),
    }
}

/// The word for whether a node is expanded.
pub fn expanded_word(is_expanded: bool) -> &'static str
    ensures { result.now ≡ expanded_word is_expanded }
{
    if is_expanded { "expanded" } else { "collapsed" }
}

/// The word for whether a node is selected.
pub fn selected_word(is_selected: bool) -> &'static str
    ensures { result.now ≡ selected_word is_selected }
{
    if is_selected {
        "selected"
    } else {
        "not selected"
    }
}

/// The words for what pops up from a node.
fn popup_word(popup: HasPopup) -> &'static str
    ensures { result.now ≡ popup_word popup }
{
    match popup {
        HasPopup::Menu => "opens a menu",
        HasPopup::Listbox => "opens a list",
        HasPopup::Tree => "opens a tree",
        HasPopup::Grid => "opens a grid",
        HasPopup::Dialog => "opens a dialog",
    }
}

/// What pops up from a node, in words after a comma, if anything does.
pub(crate) fn opening(popup: Option<HasPopup>) -> AfterComma
    ensures { option_copied result.0 ≡ option_map popup_word popup }
{
    match popup {
        Some(popup) => AfterComma(Some(popup_word(popup))),
        None => AfterComma(None),
    }
}

/// The word if it applies, and otherwise `None`.
pub fn where_it_is(is: bool, word: &'static str) -> Option<&'static str>
    ensures { option_copied result ≡ where_it_is is word.now }
{
    if is { Some(word) } else { None }
}

/// A word after a comma, if there is one.
#[derive(Clone, Copy)]
pub(crate) struct AfterComma(pub Option<&'static str>);

impl fmt::Display for AfterComma {
    ghost output = { λ s. Some (after_comma (option_copied s.0)) };

    fn fmt<W: fmt::Write>(&self, f: &mut fmt::Formatter<W>) -> fmt::Result {
        match self.0 {
            Some(word) => write!(f, ", {word}"),
            None => Ok(()),
        }
    }
}

/// A flag's word after a comma, if the flag is set.
pub(crate) fn flag(is: bool, word: &'static str) -> AfterComma
    ensures { option_copied result.0 ≡ where_it_is is word.now }
{
    AfterComma(where_it_is(is, word))
}

impl State {
    fn toggled(self) -> AfterComma
        ensures { option_copied result.0 ≡ option_map (toggled_word self.toggling) self.toggled }
    {
        match self.toggled {
            Some(toggled) => AfterComma(Some(toggled_word(self.toggling, toggled))),
            None => AfterComma(None),
        }
    }

    fn expanded(self) -> AfterComma
        ensures { option_copied result.0 ≡ option_map expanded_word self.expanded }
    {
        match self.expanded {
            Some(is_expanded) => AfterComma(Some(expanded_word(is_expanded))),
            None => AfterComma(None),
        }
    }

    fn selected(self) -> AfterComma
        ensures { option_copied result.0 ≡ option_map selected_word self.selected }
    {
        match self.selected {
            Some(is_selected) => AfterComma(Some(selected_word(is_selected))),
            None => AfterComma(None),
        }
    }
}

/// Each word of the state, after a comma.
impl fmt::Display for State {
    ghost use Rattle.phrases.specs.StateTexts.{state_text};

    ghost output = { λ s. Some (state_text s) };

    fn fmt<W: fmt::Write>(&self, f: &mut fmt::Formatter<W>) -> fmt::Result {
        let toggled = self.toggled();
        let expanded = self.expanded();
        let selected = self.selected();
        let disabled = flag(self.is_disabled, "disabled");
        let read_only = flag(self.is_read_only, "read-only");
        let required = flag(self.is_required, "required");
        write!(
            f,
            "{toggled}{expanded}{selected}{disabled}{read_only}{required}"
        )
    }
}

/// What is said of a changed toggle state.
pub fn toggled_change(
    toggling: Toggling,
    old: Option<Toggled>,
    new: Option<Toggled>,
) -> Option<&'static str>
    ensures { option_copied result ≡ new_word same_toggle (toggled_word toggling) old new }
{
    match (old, new) {
        (_, None) => None,
        (None, Some(toggled)) => Some(toggled_word(toggling, toggled)),
        (Some(old), Some(new)) if old == new => None,
        (Some(_), Some(new)) => Some(toggled_word(toggling, new)),
    }
}

/// A flag that is set, or not, if it wasn't so before.
fn new_flag(old: Option<bool>, new: Option<bool>) -> Option<bool>
    ensures { (word : Bool → List ℕ) → option_map word result ≡ new_word same_flag word old new }
{
    match (old, new) {
        (Some(old), Some(new)) if old == new => None,
        _ => new,
    }
}

/// What is said of a node that was expanded or collapsed.
pub fn expanded_change(old: Option<bool>, new: Option<bool>) -> Option<&'static str>
    ensures { option_copied result ≡ new_word same_flag expanded_word old new }
{
    let is_expanded = new_flag(old, new)?;
    Some(expanded_word(is_expanded))
}

/// What is said of a node that was selected or deselected.
pub fn selected_change(old: Option<bool>, new: Option<bool>) -> Option<&'static str>
    ensures { option_copied result ≡ new_word same_flag selected_word old new }
{
    let is_selected = new_flag(old, new)?;
    Some(selected_word(is_selected))
}

/// What is said of a changed flag: one word if it is now set, and another if it no longer is.
pub fn flag_change(
    old: bool,
    new: bool,
    on: &'static str,
    off: &'static str,
) -> Option<&'static str>
    ensures { option_copied result ≡ flag_word on.now off.now old new }
{
    match (old, new) {
        (false, true) => Some(on),
        (true, false) => Some(off),
        _ => None,
    }
}

/// How a change of a live region is announced.
pub(crate) fn live_word(live: Live) -> &'static str
    ensures { result.now ≡ live_word live }
{
    match live {
        Live::Off => "off",
        Live::Polite => "polite",
        Live::Assertive => "assertive",
    }
}
