//! Speech for a focused node.
ghost use Rattle.std.specs.Prelude.{◌≡◌, None, IfOk, OnOk, option_map, option_copied, string_bytes, if◌then◌else◌};
ghost use Rattle.hidden_texts.specs.Shown.{shown_label};
ghost use Rattle.phrases.specs.News.{news};
ghost use Rattle.views.specs.Nodes.{world_at, id_at, data_at, seen_node};
ghost use Rattle.speaking.specs.Dialogs.{SaysFocus};
ghost use Rattle.speaking.specs.NodeTexts.{instead, value_said, placeholder_said, is_said_by_line, ShowsFocus};

use crate::levels::level_of;
use crate::reading::{
    description_said, is_said_by_line, place_of, placeholder_said, state_of, value_said,
};
use accesskit_consumer::NodeRef;
use hidden_texts::{hides_label, hides_value, shown_label};
use phrases::{Focus, Saying, Voice, news, role_word};
use std::alloc::{AllocError, Global};

/// The texts of a focused node that aren't hidden.
#[derive(Drop)]
struct Texts {
    label: Option<String>,
    /// The value that is said.
    value: Option<String>,
}

/// The texts of a node.
fn texts_of(alloc: Global, node: NodeRef) -> Result<Texts, AllocError>
    ensures label { IfOk result (λ t. option_map string_bytes t.label ≡ shown_label (world_at node.entry) (id_at node.entry)) }
    ensures value { let n = node.entry in
        IfOk result (λ t. option_map string_bytes t.value ≡ value_said (world_at n) (id_at n) (data_at n)) }
{
    let label = shown_label(alloc, &node)?;
    let value = value_said(alloc, node)?;
    Ok(Texts { label, value })
}

/// The placeholder of a node without a value, unless it is empty.
fn placeholder_of<'a>(node: NodeRef<'a>, texts: &Texts) -> Option<&'a str>
    ensures { let n = node.entry in
        option_copied result ≡ instead (option_map string_bytes texts.now.value) (news None (placeholder_said (world_at n) (id_at n))) }
{
    if texts.value.is_some() {
        return None;
    }
    news(None, placeholder_said(node))
}

/// The value, unless the line of the caret is said.
fn value_of<'a>(node: NodeRef, texts: &'a Texts) -> Option<&'a str>
    ensures { let n = node.entry in
        let by_line = is_said_by_line (world_at n) (id_at n) (data_at n) in
        option_copied result ≡ (if by_line then None else option_map string_bytes texts.now.value) }
{
    if is_said_by_line(node) {
        return None;
    }
    texts.value.as_deref()
}

/// What is said of a focused node with these texts.
fn focus_of<'a>(node: NodeRef<'a>, texts: &'a Texts) -> Focus<'a>
    requires label { option_map string_bytes texts.now.label ≡ shown_label (world_at node) (id_at node) }
    requires value { option_map string_bytes texts.now.value ≡ value_said (world_at node) (id_at node) (data_at node) }
    ensures { ShowsFocus (world_at node.entry) (id_at node.entry) (data_at node.entry) result }
{
    Focus {
        role: role_word(node.role()),
        label: news(None, texts.label.as_deref()),
        is_label_hidden: hides_label(&node),
        value: value_of(node, texts),
        is_value_hidden: hides_value(&node),
        placeholder: placeholder_of(node, texts),
        state: state_of(node),
        popup: node.has_popup(),
        level: level_of(node),
        place: place_of(node),
        description: news(None, description_said(node)),
    }
}

/// Says a focused node.
///
/// # Errors
///
/// Returns `AllocError` if memory runs out.
pub(crate) fn say_focus(alloc: Global, voice: &mut Voice, node: NodeRef) -> Result<(), AllocError>
    ensures { OnOk result (SaysFocus (seen_node node.entry) voice.old voice.new) }
{
    let texts = texts_of(alloc, node)?;
    voice.say_later(Saying::Focused(focus_of(node, &texts)))
}
