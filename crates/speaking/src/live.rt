//! The texts of live regions, whose changes are announced wherever the focus is.
ghost use Rattle.std.specs.Prelude.{◌≡◌, OnOk, option_copied};
ghost use Rattle.std.specs.Option.{option_or};
ghost use Rattle.schema.specs.Roles.{same_role};
ghost use Rattle.schema.specs.declared.Role.TheVariants.{TextRun};
ghost use Rattle.views.specs.Nodes.{world_at, data_at, seen_node};
ghost use Rattle.speaking.specs.Above.{AreRight, IsReady};
ghost use Rattle.speaking.specs.LiveTexts.{is_live, is_told, own_text, is_space, says_something, unless_blank, told_text, TellsNew, TellsChange};

use crate::above::{Above, LookUps, look_up};
use crate::news::News;
use accesskit_consumer::NodeRef;
use phrases::news;
use schema::{Live, Role};
use std::alloc::{AllocError, Global};

/// Whether changes are announced at all.
fn is_live(live: Live) -> bool
    ensures { result ≡ is_live live }
{
    match live {
        Live::Off => false,
        Live::Polite | Live::Assertive => true,
    }
}

/// Whether a change of the node is announced: it is in a live region, is shown, isn't busy, also by no node above it, isn't
/// edited by typing, and isn't in a password.
fn is_told(node: NodeRef, above: Above) -> bool
    ensures { result ≡ is_told above (data_at node.entry) }
{
    is_live(above.live)
        && !node.is_text_input()
        && !above.is_hidden
        && !above.is_busy
        && !above.is_in_password
}

/// Whether the node is a run of a text.
fn is_run(node: NodeRef) -> bool
    ensures { result ≡ same_role (data_at node.entry).role TextRun }
{
    node.role() == Role::TextRun
}

/// The value as sent in the update, or else the node's own label.
fn value_or_label<'a>(node: NodeRef<'a>) -> Option<&'a str>
    ensures { let d = data_at node.entry in option_copied result ≡ option_or d.value d.label }
{
    match node.raw_value() {
        Some(value) => Some(value),
        None => node.data().label(),
    }
}

/// The text to announce for a node: of a run its text, unless an ancestor is announced in its place.
fn own_text<'a>(node: NodeRef<'a>, above: Above) -> Option<&'a str>
    ensures { option_copied result ≡ own_text above (data_at node.entry) }
{
    if !is_run(node) {
        return value_or_label(node);
    }
    if above.is_held {
        return None;
    }
    node.raw_value()
}

/// Whether a byte is a space, a tab or part of a line end.
pub(crate) fn is_space(byte: u8) -> bool
    ensures { result ≡ is_space byte }
{
    matches!(byte, b' ' | b'\t' | b'\n' | b'\r')
}

/// Whether there is more in the text than spaces, tabs and line ends.
fn says_something(text: &str) -> bool
    ensures { result ≡ says_something text.now }
{
    text.as_bytes().iter().any(|byte| !is_space(*byte))
}

/// The text, unless it is made of spaces, tabs and line ends alone.
fn unless_blank<'a>(text: Option<&'a str>) -> Option<&'a str>
    ensures { option_copied result ≡ unless_blank (option_copied text.entry) }
{
    match text {
        Some(text) if says_something(text) => Some(text),
        _ => None,
    }
}

/// The text to announce for a node, if its changes are announced.
pub(crate) fn told_text<'a>(node: NodeRef<'a>, above: Above) -> Option<&'a str>
    ensures { option_copied result ≡ told_text above (data_at node.entry) }
{
    if !is_told(node, above) {
        return None;
    }
    unless_blank(own_text(node, above))
}

/// Notes a new node in a live region.
///
/// # Errors
///
/// Returns `AllocError` if memory runs out.
pub(crate) fn tell_new(
    alloc: Global,
    noted: &mut News,
    looks: &mut LookUps,
    node: NodeRef,
) -> Result<(), AllocError>
    ensures tells { AreRight (world_at node.entry) looks.old.after → OnOk result (TellsNew (seen_node node.entry) noted.old noted.new) }
    ensures known { AreRight (world_at node.entry) looks.old.after → OnOk result (AreRight (world_at node.entry) looks.new.after) }
    ensures before { looks.new.before ≡ looks.old.before }
{
    let above = look_up(alloc, &mut looks.after, node)?;
    noted.note(node.id(), above.region, news(None, told_text(node, above)))
}

/// Notes a node in a live region whose text has changed.
///
/// # Errors
///
/// Returns `AllocError` if memory runs out.
pub(crate) fn tell_change(
    alloc: Global,
    noted: &mut News,
    looks: &mut LookUps,
    old: NodeRef,
    new: NodeRef,
) -> Result<(), AllocError>
    ensures tells { let o = old.entry in let n = new.entry in
        IsReady (world_at o) (world_at n) looks.old → OnOk result (TellsChange (seen_node o) (seen_node n) noted.old noted.new) }
    ensures known { let o = world_at old.entry in let n = world_at new.entry in
        IsReady o n looks.old → OnOk result (IsReady o n looks.new) }
{
    let before = look_up(alloc, &mut looks.before, old)?;
    let after = look_up(alloc, &mut looks.after, new)?;
    let said = news(told_text(old, before), told_text(new, after));
    noted.note(new.id(), after.region, said)
}
