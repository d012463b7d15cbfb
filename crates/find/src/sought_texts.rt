//! Whether a node has the texts that are searched for.

ghost use Rattle.std.specs.Prelude.{◌≡◌, IfOk, None, Some, if◌then◌else◌, option_copied, option_map, string_bytes};
ghost use Rattle.views.specs.Nodes.{world_at, id_at};
ghost use Rattle.hidden_texts.specs.Hidden.{hides_value, is_in_password};
ghost use Rattle.hidden_texts.specs.Known.{AreRight};
ghost use Rattle.hidden_texts.specs.Shown.{shown_label, shown_value};
ghost use Rattle.find.specs.Wanted.{has_any_text, has_texts, is_text, sent_text, sought_of};

use crate::wanted::Wanted;
use accesskit_consumer::node::NodeRef;
use hidden_texts::{Passwords, hides_value, is_in_password, shown_value};
use matching::Matching;
use std::alloc::{AllocError, Global};

/// Whether a text that is there is the sought one, if one is sought.
fn is_text(
    alloc: Global,
    how: Matching,
    sought: Option<&str>,
    own: Option<&str>,
) -> Result<bool, AllocError>
    ensures { IfOk result (λ is. is ≡ is_text how (option_copied sought.entry) (option_copied own.entry)) }
{
    match (sought, own) {
        (None, _) => Ok(true),
        (Some(sought), Some(own)) => how.is_match(alloc, sought, own),
        (Some(_), None) => Ok(false),
    }
}

/// Whether the node has this label, if one is sought. A hidden label is never found.
fn has_label(
    alloc: Global,
    passwords: &Passwords,
    node: NodeRef,
    how: Matching,
    sought: Option<&str>,
) -> Result<bool, AllocError>
    requires { AreRight (world_at node) passwords.now }
    ensures { IfOk result (λ has. has ≡ is_text how (option_copied sought.entry) (shown_label (world_at node.entry) (id_at node.entry))) }
{
    let Some(sought) = sought else {
        return Ok(true);
    };
    let own = passwords.shown_label(alloc, &node)?;
    is_text(alloc, how, Some(sought), own.as_deref())
}

/// Whether the node has this value, if one is sought. A hidden value is never found.
fn has_value(
    alloc: Global,
    node: NodeRef,
    how: Matching,
    sought: Option<&str>,
) -> Result<bool, AllocError>
    ensures { IfOk result (λ has. has ≡ is_text how (option_copied sought.entry) (shown_value (world_at node.entry) (id_at node.entry))) }
{
    let Some(sought) = sought else {
        return Ok(true);
    };
    let own = value_shown(alloc, node)?;
    is_text(alloc, how, Some(sought), own.as_deref())
}

/// The value, unless it is hidden. Of a node without a value no node above is looked at.
pub(crate) fn value_shown(alloc: Global, node: NodeRef) -> Result<Option<String>, AllocError>
    ensures { IfOk result (λ value. option_map string_bytes value ≡ shown_value (world_at node.entry) (id_at node.entry)) }
{
    if node.is_password_input() {
        return shown_value(alloc, &node);
    }
    match node.value(alloc)? {
        Some(own) => Ok(unless_hidden(node, own)),
        None => Ok(None),
    }
}

/// The value of a node that is no password input, unless it is hidden.
fn unless_hidden(node: NodeRef, own: String) -> Option<String>
    ensures { let hides = hides_value (world_at node.entry) (id_at node.entry) in
        option_map string_bytes result ≡ (if hides then None else Some (string_bytes own)) }
{
    if hides_value(&node) {
        return None;
    }
    Some(own)
}

/// A text that was sent of the node, unless the node is in a password. If it has no such text, no node above is looked at.
fn unless_in_password<'a>(node: NodeRef, text: Option<&'a str>) -> Option<&'a str>
    ensures { let is_in = is_in_password (world_at node.entry) (id_at node.entry) in
        option_copied result ≡ (if is_in then None else option_copied text.entry) }
{
    match text {
        Some(text) => text_unless(is_in_password(&node), text),
        None => None,
    }
}

/// The text, unless it is hidden.
fn text_unless<'a>(is_hidden: bool, text: &'a str) -> Option<&'a str>
    ensures { option_copied result ≡ (if is_hidden then None else Some text.now) }
{
    if is_hidden { None } else { Some(text) }
}

/// The placeholder, unless the node is in a password.
fn placeholder<'a>(node: NodeRef<'a>) -> Option<&'a str>
    ensures { option_copied result ≡ sent_text (λ d. d.placeholder) (world_at node.entry) (id_at node.entry) }
{
    unless_in_password(node, node.data().placeholder())
}

/// The description, unless the node is in a password.
fn description<'a>(node: NodeRef<'a>) -> Option<&'a str>
    ensures { option_copied result ≡ sent_text (λ d. d.description) (world_at node.entry) (id_at node.entry) }
{
    unless_in_password(node, node.data().description())
}

/// Whether the node has this label, value, placeholder or description, if one is sought.
fn has_any_text(
    alloc: Global,
    passwords: &Passwords,
    node: NodeRef,
    how: Matching,
    sought: Option<&str>,
) -> Result<bool, AllocError>
    requires { AreRight (world_at node) passwords.now }
    ensures { IfOk result (λ has. has ≡ has_any_text how (option_copied sought.entry) (world_at node.entry) (id_at node.entry)) }
{
    Ok(
        has_label(alloc, passwords, node, how, sought)?
            || has_value(alloc, node, how, sought)?
            || is_text(alloc, how, sought, placeholder(node))?
            || is_text(alloc, how, sought, description(node))?,
    )
}

/// Whether the node has the texts. What is hidden of it is never found.
pub(crate) fn has_texts(
    alloc: Global,
    passwords: &Passwords,
    node: NodeRef,
    wanted: &Wanted,
) -> Result<bool, AllocError>
    requires { AreRight (world_at node) passwords.now }
    ensures { IfOk result (λ has. has ≡ has_texts (sought_of wanted.now) (world_at node.entry) (id_at node.entry)) }
{
    let how = wanted.matching;
    Ok(
        has_label(alloc, passwords, node, how, wanted.label.as_deref())?
            && has_value(alloc, node, how, wanted.text.as_deref())?
            && has_any_text(alloc, passwords, node, how, wanted.any.as_deref())?,
    )
}
