//! The focused text: what is typed into it, and the line of its caret.
ghost use Rattle.std.specs.Prelude.{◌≡◌, ◌↔◌, [], IsTrue, IfOk, IfSome, OnOk, None, Some, if◌then◌else◌, unwrap_or, option_map, option_copied, string_bytes};
ghost use Rattle.hidden_texts.specs.Shown.{shown_value};
ghost use Rattle.model.specs.Values.{document_text};
ghost use Rattle.texts.specs.NodeTexts.{root_of};
ghost use Rattle.views.specs.ShownWorlds.{world_of};
ghost use Rattle.views.specs.Nodes.{world_at, id_at};
ghost use Rattle.speaking.specs.Lines.{caret_index, caret_said, line_of_runs, text_of_line};
ghost use Rattle.speaking.specs.Edits.{runs_or_value, edited_text, selected_text, selection_said, IsWithoutNewline, SaysText, SaysLine, SaysCaret, SaysMoves, IsReadOf, SaysEdit, SaysArrival, held_of, SaysTextOf, SaysEdited, IsEdited, SaysFocused, SaysEnd};

use crate::carets::{caret_place, say_within};
use crate::news::News;
use crate::reading::is_edited;
use crate::regions::say_news;
use accesskit_consumer::text::{NodeText, Text, TextSelections};
use accesskit_consumer::{FullNodeId, NodeRef, StateRef};
use hidden_texts::shown_value;
use model::is_same;
use phrases::{Saying, Voice, edit};
use std::alloc::{AllocError, Global};

/// The focused text as it was last said.
#[derive(Drop)]
pub(crate) struct FocusedText {
    id: FullNodeId,
    /// Whether the text is a password, and these are bullets.
    is_password: bool,
    text: String,
    /// The line of the caret, counted from 0; `None` in a password.
    line: Option<usize>,
    /// The number of scalars before the caret; `None` in a password.
    caret: Option<usize>,
    /// The selected text; empty if nothing is selected, and in a password.
    selected: String,
}

/// The value that isn't hidden, of a password in bullets, or an empty text if there isn't one.
fn value_or_empty(alloc: Global, node: NodeRef) -> Result<String, AllocError>
    ensures { IfOk result (λ text. string_bytes text ≡ unwrap_or (shown_value (world_at node.entry) (id_at node.entry)) []) }
{
    match shown_value(alloc, &node)? {
        Some(value) => Ok(value),
        None => Ok(String::new(alloc)),
    }
}

/// The whole text of the runs.
fn document_text(alloc: Global, text: Text) -> Result<String, AllocError>
    ensures { let n = root_of text.entry in
        IfOk result (λ it. string_bytes it ≡ document_text (world_at n) (id_at n)) }
{
    text.range().text(alloc)
}

/// The text of the runs, or else the value.
fn runs_or_value(alloc: Global, node: NodeRef) -> Result<String, AllocError>
    ensures { IfOk result (λ text. string_bytes text ≡ runs_or_value (world_at node.entry) (id_at node.entry)) }
{
    match node.text() {
        Some(text) => document_text(alloc, text),
        None => value_or_empty(alloc, node),
    }
}

/// The edited text: that of the runs, unless they are a password's, or else the value.
fn edited_text(alloc: Global, node: NodeRef) -> Result<String, AllocError>
    ensures { IfOk result (λ text. string_bytes text ≡ edited_text (world_at node.entry) (id_at node.entry)) }
{
    if node.is_password_input() {
        return value_or_empty(alloc, node);
    }
    runs_or_value(alloc, node)
}

/// The line of the caret, counted from 0.
fn caret_index(node: NodeRef) -> Option<usize>
    ensures { result ≡ caret_index (world_at node.entry) (id_at node.entry) }
{
    let caret = node.text_selection_focus()?;
    Some(caret.to_line_index())
}

/// The line of the caret, but not in a password.
pub(crate) fn caret_said(node: NodeRef) -> Option<usize>
    ensures { result ≡ caret_said (world_at node.entry) (id_at node.entry) }
{
    if node.is_password_input() {
        return None;
    }
    caret_index(node)
}

/// The selected text; empty if nothing is selected, and in a password.
fn selected_text(alloc: Global, node: NodeRef) -> Result<String, AllocError>
    ensures { IfOk result (λ text. string_bytes text ≡ selected_text (world_at node.entry) (id_at node.entry)) }
{
    if node.is_password_input() {
        return Ok(String::new(alloc));
    }
    match node.text_selection() {
        Some(range) => range.text(alloc),
        None => Ok(String::new(alloc)),
    }
}

/// The text of a line of the runs, by its number from 0.
fn line_of_runs(alloc: Global, node: NodeRef, line: usize) -> Result<Option<String>, AllocError>
    ensures { let n = node.entry in
        IfOk result (λ text. option_map string_bytes text ≡ line_of_runs (world_at n) (id_at n) line) }
{
    let Some(text) = node.text() else {
        return Ok(None);
    };
    match text.line(line) {
        Some(range) => Ok(Some(range.text(alloc)?)),
        None => Ok(None),
    }
}

/// The text of a line, by its number from 0, but not of a password.
fn text_of_line(alloc: Global, node: NodeRef, line: usize) -> Result<Option<String>, AllocError>
    ensures { let n = node.entry in
        IfOk result (λ text. option_map string_bytes text ≡ text_of_line (world_at n) (id_at n) line) }
{
    if node.is_password_input() {
        return Ok(None);
    }
    line_of_runs(alloc, node, line)
}

/// The text without the newline at its end.
fn without_newline(text: &str) -> &str
    ensures { IsWithoutNewline text.now result.now }
{
    match text.strip_suffix('\n') {
        Some(line) => line,
        None => text,
    }
}

/// Says the text of a line, if there is one.
fn say_text(voice: &mut Voice, text: Option<&str>) -> Result<(), AllocError>
    ensures { OnOk result (SaysText (option_copied text.entry) voice.old voice.new) }
{
    match text {
        Some(text) => voice.say_later(Saying::OnLine(without_newline(text))),
        None => Ok(()),
    }
}

/// Says the line of this number.
fn say_line(
    alloc: Global,
    voice: &mut Voice,
    node: NodeRef,
    line: Option<usize>,
) -> Result<(), AllocError>
    ensures { let n = node.entry in OnOk result (SaysLine (world_at n) (id_at n) line voice.old voice.new) }
{
    let Some(line) = line else {
        return Ok(());
    };
    let text = text_of_line(alloc, node, line)?;
    say_text(voice, text.as_deref())
}

/// Reads the current text of a node and the line of its caret.
fn read(alloc: Global, node: NodeRef) -> Result<FocusedText, AllocError>
    ensures { IfOk result (IsReadOf (world_at node.entry) (id_at node.entry)) }
{
    Ok(FocusedText {
        id: node.id(),
        is_password: node.is_password_input(),
        text: edited_text(alloc, node)?,
        line: caret_said(node),
        caret: caret_place(node),
        selected: selected_text(alloc, node)?,
    })
}

/// Whether the carets are on the same line.
fn is_same_line(before: Option<usize>, now: Option<usize>) -> bool
    ensures { IsTrue result ↔ (before ≡ now) }
{
    before == now
}

/// Says the line of the caret if it moved to another line, and otherwise what it has come to in the line.
fn say_caret(
    alloc: Global,
    voice: &mut Voice,
    node: NodeRef,
    before: &FocusedText,
    now: &FocusedText,
) -> Result<(), AllocError>
    ensures { let n = node.entry in
        OnOk result (SaysCaret (world_at n) (id_at n) before.now now.now voice.old voice.new) }
{
    if is_same_line(before.line, now.line) {
        let selected = now.selected.as_str();
        return say_within(alloc, voice, node, selected, before.caret, now.caret);
    }
    say_line(alloc, voice, node, now.line)
}

/// Says what is selected, or what no longer is, if that is new.
fn say_selection(voice: &mut Voice, before: &str, now: &str) -> Result<(), AllocError>
    ensures { OnOk result (voice.new ≡ selection_said before.now now.now voice.old) }
{
    if before == now {
        return Ok(());
    }
    if now.is_empty() {
        return voice.say_later(Saying::Unselected(before));
    }
    voice.say_later(Saying::Selected(now))
}

/// Says what the caret has moved to, and the selection if it is new.
fn say_moves(
    alloc: Global,
    voice: &mut Voice,
    node: NodeRef,
    before: &FocusedText,
    now: &FocusedText,
) -> Result<(), AllocError>
    ensures { let n = node.entry in
        OnOk result (SaysMoves (world_at n) (id_at n) before.now now.now voice.old voice.new) }
{
    say_caret(alloc, voice, node, before, now)?;
    say_selection(voice, before.selected.as_str(), now.selected.as_str())
}

/// Says what was removed and typed, or else where the caret and the selection have moved.
fn say_edit(
    alloc: Global,
    voice: &mut Voice,
    node: NodeRef,
    before: &FocusedText,
    now: &FocusedText,
) -> Result<(), AllocError>
    ensures { let n = node.entry in
        OnOk result (SaysEdit (world_at n) (id_at n) before.now now.now voice.old voice.new) }
{
    match edit(before.text.as_str(), now.text.as_str(), now.caret) {
        Some(change) => voice.say_later(Saying::Changed(change)),
        None => say_moves(alloc, voice, node, before, now),
    }
}

/// Says the line of the caret in a newly focused text that can have several lines.
fn say_arrival(
    alloc: Global,
    voice: &mut Voice,
    node: NodeRef,
    now: &FocusedText,
) -> Result<(), AllocError>
    ensures { let n = node.entry in
        OnOk result (SaysArrival (world_at n) (id_at n) now.now voice.old voice.new) }
{
    if !node.is_multiline() {
        return Ok(());
    }
    say_line(alloc, voice, node, now.line)
}

/// The text, if it is that of the node, and was a password then if it is one now.
fn of_node(held: Option<FocusedText>, id: FullNodeId, is_password: bool) -> Option<FocusedText>
    ensures { result ≡ held_of id is_password held }
{
    let held = held?;
    if is_same(held.id, id) && held.is_password == is_password {
        Some(held)
    } else {
        None
    }
}

/// Says what changed in a text, given what was last said of it.
fn say_text_of(
    alloc: Global,
    voice: &mut Voice,
    node: NodeRef,
    before: Option<FocusedText>,
    now: &FocusedText,
) -> Result<(), AllocError>
    ensures { let n = node.entry in
        OnOk result (SaysTextOf (world_at n) (id_at n) before now.now voice.old voice.new) }
{
    match before {
        Some(before) => say_edit(alloc, voice, node, &before, now),
        None => say_arrival(alloc, voice, node, now),
    }
}

/// Reads the text of a node and says what changed in it.
fn say_edited(
    alloc: Global,
    voice: &mut Voice,
    held: Option<FocusedText>,
    node: NodeRef,
) -> Result<FocusedText, AllocError>
    ensures { let n = node.entry in
        IfOk result (λ now. SaysEdited (world_at n) (id_at n) held now voice.old voice.new) }
{
    let now = read(alloc, node)?;
    let before = of_node(held, now.id, now.is_password);
    say_text_of(alloc, voice, node, before, &now)?;
    Ok(now)
}

/// The focused node, if typing in it is said as edits of its text.
fn edited_node<'a>(state: StateRef<'a>, focus: Option<FullNodeId>) -> Option<NodeRef<'a>>
    ensures world { IfSome result (λ node. world_at node ≡ world_of state.entry) }
    ensures node { IsEdited (world_of state.entry) focus (option_map id_at result) }
{
    let node = state.node_by_id(focus?)?;
    if is_edited(node) { Some(node) } else { None }
}

/// Says what changed in the focused text, if there is one, and returns that text.
fn say_focused(
    alloc: Global,
    voice: &mut Voice,
    held: Option<FocusedText>,
    state: StateRef,
    focus: Option<FullNodeId>,
) -> Result<Option<FocusedText>, AllocError>
    ensures { let w = world_of state.entry in
        IfOk result (λ now. SaysFocused w focus held now voice.old voice.new) }
{
    let Some(node) = edited_node(state, focus) else {
        return Ok(None);
    };
    Ok(Some(say_edited(alloc, voice, held, node)?))
}

/// Says what changed in the focused text, and what is new in live regions, and returns the text.
///
/// # Errors
///
/// Returns `AllocError` if memory runs out.
pub(crate) fn say_end(
    alloc: Global,
    voice: &mut Voice,
    held: Option<FocusedText>,
    noted: &News,
    state: StateRef,
    focus: Option<FullNodeId>,
) -> Result<Option<FocusedText>, AllocError>
    ensures { let w = world_of state.entry in
        IfOk result (λ now. SaysEnd w focus noted.now held now voice.old voice.new) }
{
    let now = say_focused(alloc, voice, held, state, focus)?;
    say_news(alloc, voice, state, noted)?;
    voice.say_waiting()?;
    Ok(now)
}
