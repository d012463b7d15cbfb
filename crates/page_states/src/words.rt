//! The texts and words that a page shows for a node. Of a password it shows bullets at most.
ghost use Rattle.std.specs.Prelude.{◌≡◌, IfOk, map, option_copied, option_map, string_bytes};
ghost use Rattle.views.specs.Nodes.{world_at, id_at, data_at};
ghost use Rattle.page_states.specs.Said.{label_shown, value_shown, caption_shown, hidden_label_word, hidden_value_word, state_words};

use crate::secrets::Hidden;
use hidden_texts::shown_value as value_of_password;
use phrases::{expanded_word, selected_word, switched_word, where_it_is};
use std::alloc::{AllocError, Global};
use views::NodeRef;

/// The node's label, if it isn't hidden.
pub(crate) fn shown_label(
    alloc: Global,
    node: &NodeRef,
    is_label_hidden: bool,
) -> Result<Option<String>, AllocError>
    ensures { IfOk result (λ label. option_map string_bytes label ≡ label_shown is_label_hidden (world_at node.now) (id_at node.now)) }
{
    if is_label_hidden {
        return Ok(None);
    }
    node.label(alloc)
}

/// The node's value, if it isn't hidden; that of a password as bullets.
pub(crate) fn shown_value(
    alloc: Global,
    node: &NodeRef,
    is_value_hidden: bool,
) -> Result<Option<String>, AllocError>
    ensures { IfOk result (λ value. option_map string_bytes value ≡ value_shown is_value_hidden (world_at node.now) (id_at node.now)) }
{
    if node.is_password_input() {
        return value_of_password(alloc, node);
    }
    if is_value_hidden {
        return Ok(None);
    }
    node.value(alloc)
}

/// The node's label, or else its value, each if it isn't hidden.
pub(crate) fn caption(
    alloc: Global,
    node: &NodeRef,
    hidden: Hidden,
) -> Result<Option<String>, AllocError>
    ensures { IfOk result (λ text. option_map string_bytes text ≡ caption_shown hidden (world_at node.now) (id_at node.now)) }
{
    match shown_label(alloc, node, hidden.label)? {
        Some(label) => Ok(Some(label)),
        None => shown_value(alloc, node, hidden.value),
    }
}

/// What is said in place of a label that is hidden.
pub(crate) fn hidden_label_word(is_hidden: bool) -> Option<&'static str>
    ensures { option_copied result ≡ hidden_label_word is_hidden }
{
    where_it_is(is_hidden, "label hidden")
}

/// What is said in place of a value that is hidden.
pub(crate) fn hidden_value_word(is_hidden: bool) -> Option<&'static str>
    ensures { option_copied result ≡ hidden_value_word is_hidden }
{
    where_it_is(is_hidden, "value hidden")
}

/// The words for the node's state.
pub(crate) fn state_words(node: &NodeRef) -> [Option<&'static str>; 8]
    ensures { map option_copied result ≡ state_words (data_at node.now) }
{
    let is_read_only = node.is_read_only_supported() && node.is_read_only();
    [
        node.toggled().map(|toggled| switched_word(toggled)),
        node.data().is_expanded().map(|is| expanded_word(is)),
        node.is_selected().map(|is| selected_word(is)),
        where_it_is(node.is_disabled(), "disabled"),
        where_it_is(is_read_only, "read-only"),
        where_it_is(node.is_required(), "required"),
        where_it_is(node.is_busy(), "busy"),
        where_it_is(node.is_modal(), "modal"),
    ]
}
