//! Reading the properties of a node that are said.
ghost use Rattle.std.specs.Prelude.{◌≡◌, IfOk, option_map, option_copied, string_bytes};
ghost use Rattle.model.specs.Filters.{is_transparent};
ghost use Rattle.model.specs.Views.{computed_size_of_set as size_of, computed_position_in_set as position_in};
ghost use Rattle.phrases.specs.Numbers.{thousandths};
ghost use Rattle.views.specs.Nodes.{world_at, id_at, data_at};
ghost use Rattle.speaking.specs.NodeTexts.{filled, shown, number_said, value_said, placeholder_said, description_said, state_said, listed_answer, place_said, is_edited, is_said_by_line};

use crate::edits::caret_said;
use accesskit_consumer::NodeRef;
use accesskit_consumer::filters::FilterResult;
use hidden_texts::{hides_text, hides_value, is_in_password, shown_value};
use phrases::{Place, State, Thousandths, toggling_of};
use schema::Role;
use std::alloc::{AllocError, Global};

/// A text, unless it is empty.
fn filled(text: String) -> Option<String>
    ensures { option_map string_bytes result ≡ filled (string_bytes text) }
{
    if text.is_empty() { None } else { Some(text) }
}

/// A number in thousandths as text, if there is one.
fn number_text(alloc: Global, number: Option<i64>) -> Result<Option<String>, AllocError>
    ensures { IfOk result (λ text. option_map string_bytes text ≡ option_map thousandths number) }
{
    match number {
        Some(number) => Ok(Some(Thousandths(number).to_string(alloc)?)),
        None => Ok(None),
    }
}

/// The number that is said as a value: none of a password, and none where the value is hidden.
fn number_said(node: NodeRef) -> Option<i64>
    ensures { result ≡ number_said (world_at node.entry) (id_at node.entry) (data_at node.entry) }
{
    if hides_value(&node) || node.is_password_input() {
        return None;
    }
    node.numeric_value()
}

/// The value that is said: the text, or else the number. `None` if the text is empty, or the value hidden.
pub(crate) fn value_said(alloc: Global, node: NodeRef) -> Result<Option<String>, AllocError>
    ensures { let n = node.entry in
        IfOk result (λ text. option_map string_bytes text ≡ value_said (world_at n) (id_at n) (data_at n)) }
{
    match shown_value(alloc, &node)? {
        Some(text) => Ok(filled(text)),
        None => number_text(alloc, number_said(node)),
    }
}

/// The placeholder, unless the text is hidden whose lack it shows.
pub(crate) fn placeholder_said<'a>(node: NodeRef<'a>) -> Option<&'a str>
    ensures { option_copied result ≡ placeholder_said (world_at node.entry) (id_at node.entry) }
{
    if hides_text(&node) {
        return None;
    }
    node.placeholder()
}

/// Whether the node is read-only, if the read-only state applies to it.
fn is_read_only(node: NodeRef) -> bool
    ensures { result ≡ (state_said (data_at node.entry)).is_read_only }
{
    node.is_read_only_supported() && node.is_read_only()
}

/// The description, but not of a node in a password.
pub(crate) fn description_said<'a>(node: NodeRef<'a>) -> Option<&'a str>
    ensures { option_copied result ≡ description_said (world_at node.entry) (id_at node.entry) (data_at node.entry) }
{
    if is_in_password(&node) {
        return None;
    }
    node.data().description()
}

/// The parts of the state that are said.
pub(crate) fn state_of(node: NodeRef) -> State
    ensures { result ≡ state_said (data_at node.entry) }
{
    State {
        toggling: toggling_of(node.role()),
        toggled: node.toggled(),
        expanded: node.data().is_expanded(),
        selected: node.is_selected(),
        is_disabled: node.is_disabled(),
        is_read_only: is_read_only(node),
        is_required: node.is_required(),
    }
}

/// Whether the node is a graft, a container or a run of a text, in which others are listed.
fn is_transparent(node: &NodeRef) -> bool
    ensures { result ≡ is_transparent (world_at node.now) (id_at node.now) }
{
    node.data().tree_id().is_some() || matches!(node.role(), Role::GenericContainer | Role::TextRun)
}

/// The filter that includes what isn't hidden, scrolled out or not, and passes through grafts, containers and runs.
pub(crate) fn listed(node: &NodeRef<'_>) -> FilterResult
    ensures { result ≡ listed_answer (world_at node.now) (id_at node.now) }
{
    if node.is_hidden() {
        return FilterResult::ExcludeSubtree;
    }
    if is_transparent(node) {
        return FilterResult::ExcludeNode;
    }
    FilterResult::Include
}

/// The size of the node's set, with what is scrolled out.
pub(crate) fn set_size(node: NodeRef) -> Option<usize>
    ensures { let w = world_at node.entry in result ≡ size_of (listed_answer w) w (id_at node.entry) }
{
    node.computed_size_of_set(&listed)
}

/// The position in that set, counted from 0.
fn set_position(node: NodeRef) -> Option<usize>
    ensures { let w = world_at node.entry in result ≡ position_in (listed_answer w) w (id_at node.entry) }
{
    node.computed_position_in_set(&listed)
}

/// The node's position in its set, if it has one.
pub(crate) fn place_of(node: NodeRef) -> Option<Place>
    ensures { result ≡ place_said (world_at node.entry) (id_at node.entry) }
{
    let size = set_size(node)?;
    let position = set_position(node)?;
    Some(Place { position, size })
}

/// Whether typing in the node is said as edits of its text. For a number the value is said instead, and where the text
/// is hidden the value, if that isn't.
pub(crate) fn is_edited(node: NodeRef) -> bool
    ensures { result ≡ is_edited (world_at node.entry) (id_at node.entry) (data_at node.entry) }
{
    node.is_text_input() && node.numeric_value().is_none() && !hides_text(&node)
}

/// Whether the line of the node's caret is said where the focus comes to it, and not its whole value.
pub(crate) fn is_said_by_line(node: NodeRef) -> bool
    ensures { result ≡ is_said_by_line (world_at node.entry) (id_at node.entry) (data_at node.entry) }
{
    is_edited(node) && node.is_multiline() && caret_said(node).is_some()
}
