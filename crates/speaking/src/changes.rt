//! Changes of the focused node.
ghost use Rattle.std.specs.Prelude.{◌≡◌, ℕ, List, OnOk, option_copied};
ghost use Rattle.phrases.specs.Sayings.{state_line};
ghost use Rattle.views.specs.Nodes.{data_at, seen_node};
ghost use Rattle.speaking.specs.Said.{said_if};
ghost use Rattle.speaking.specs.Changes.{label_said, value_change, description_change, toggles_said, flags_said, SaysChange};

use crate::reading::{description_said, is_edited, state_of, value_said};
use accesskit_consumer::NodeRef;
use hidden_texts::shown_label;
use phrases::{
    Saying, State, Voice, expanded_change, flag_change, news, selected_change, toggled_change,
};
use std::alloc::{AllocError, Global};

/// Says the label if it changed, and isn't hidden.
fn say_label(alloc: Global, voice: &mut Voice, old: NodeRef, new: NodeRef) -> Result<(), AllocError>
    ensures { OnOk result (voice.new ≡ label_said (seen_node old.entry) (seen_node new.entry) voice.old) }
{
    let before = shown_label(alloc, &old)?;
    let now = shown_label(alloc, &new)?;
    match news(before.as_deref(), now.as_deref()) {
        Some(label) => voice.say_later(Saying::Named(label)),
        None => Ok(()),
    }
}

/// Says the value if it changed, unless typing in the node is said as edits.
fn say_value(alloc: Global, voice: &mut Voice, old: NodeRef, new: NodeRef) -> Result<(), AllocError>
    ensures { let o = old.entry in let n = new.entry in
        OnOk result (voice.new ≡ value_change (seen_node o) (data_at o) (seen_node n) (data_at n) voice.old) }
{
    if is_edited(new) {
        return Ok(());
    }
    let before = value_said(alloc, old)?;
    let now = value_said(alloc, new)?;
    match news(before.as_deref(), now.as_deref()) {
        Some(value) => voice.say_later(Saying::Valued(value)),
        None => Ok(()),
    }
}

/// Says the description if it changed.
fn say_description(voice: &mut Voice, old: NodeRef, new: NodeRef) -> Result<(), AllocError>
    ensures { let o = old.entry in let n = new.entry in
        OnOk result (voice.new ≡ description_change (seen_node o) (data_at o) (seen_node n) (data_at n) voice.old) }
{
    match news(description_said(old), description_said(new)) {
        Some(description) => voice.say_later(Saying::Described(description)),
        None => Ok(()),
    }
}

/// Says a word for the state, if there is one.
fn say_word(voice: &mut Voice, word: Option<&str>) -> Result<(), AllocError>
    ensures { OnOk result (voice.new ≡ said_if state_line (option_copied word.entry) voice.old) }
{
    match word {
        Some(word) => voice.say_later(Saying::Is(word)),
        None => Ok(()),
    }
}

/// Says what was toggled, expanded or selected.
fn say_toggles(voice: &mut Voice, before: State, now: State) -> Result<(), AllocError>
    ensures { OnOk result (voice.new ≡ toggles_said before now voice.old) }
{
    let toggled = toggled_change(now.toggling, before.toggled, now.toggled);
    say_word(voice, toggled)?;
    say_word(voice, expanded_change(before.expanded, now.expanded))?;
    say_word(voice, selected_change(before.selected, now.selected))
}

/// Says which flags changed.
fn say_flags(voice: &mut Voice, before: State, now: State) -> Result<(), AllocError>
    ensures { OnOk result (voice.new ≡ flags_said before now voice.old) }
{
    let disabled = flag_change(before.is_disabled, now.is_disabled, "disabled", "enabled");
    say_word(voice, disabled)?;
    let read_only = flag_change(
        before.is_read_only,
        now.is_read_only,
        "read-only",
        "editable",
    );
    say_word(voice, read_only)?;
    let required = flag_change(
        before.is_required,
        now.is_required,
        "required",
        "not required",
    );
    say_word(voice, required)
}

/// Says what changed on a node that was focused before and still is.
///
/// # Errors
///
/// Returns `AllocError` if memory runs out.
pub(crate) fn say_change(
    alloc: Global,
    voice: &mut Voice,
    old: NodeRef,
    new: NodeRef,
) -> Result<(), AllocError>
    ensures { OnOk result (SaysChange (seen_node old.entry) (seen_node new.entry) voice.old voice.new) }
{
    say_label(alloc, voice, old, new)?;
    say_value(alloc, voice, old, new)?;
    say_description(voice, old, new)?;
    let before = state_of(old);
    let now = state_of(new);
    say_toggles(voice, before, now)?;
    say_flags(voice, before, now)
}
