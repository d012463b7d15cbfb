//! What may be shown of a value and a label: of a password a bullet for each character.
ghost use Rattle.std.specs.Prelude.{◌≡◌, ◌+◌, ◌<◌, ◌^◌, true, IfOk, OnOk, option_map, string_bytes};
ghost use Rattle.model.specs.Values.{bullets};
ghost use Rattle.views.specs.Nodes.{world_at, id_at};
ghost use Rattle.views.specs.RunTexts.{shown_text};
ghost use Rattle.views.specs.Writes.{IsWritten};
ghost use Rattle.hidden_texts.specs.Hidden.{hides_label};
ghost use Rattle.hidden_texts.specs.Known.{AreRight};
ghost use Rattle.hidden_texts.specs.Shown.{password_value, shown_label, shown_value};

use crate::hiding::{hides_label, hides_label_by, hides_value};
use crate::passwords::Passwords;
use schema::{TextBuffer, TextFault, TextWrite};
use std::alloc::{AllocError, Global};
use views::NodeRef;
use views::node::masking::{scalar_count, write_bullets};
use views::runs::Run;

/// Writes a bullet for each character of the node's runs.
fn write_masked<W: TextWrite>(root: NodeRef<'_>, writer: &mut W) -> Result<(), TextFault>
    requires { W.faults writer.old + 1 < 2 ^ 128 }
    ensures { let text = shown_text true (world_at root.entry) (id_at root.entry) in
        OnOk result (IsWritten W.received W.faults text writer.old writer.new) }
{
    let mut rest = Run::first(root);
    while let Some(run) = rest {
        write_bullets(run.character_count(), writer)?;
        rest = run.next();
    }
    Ok(())
}

/// A text of a bullet for each character of the node's runs.
fn masked_text(alloc: Global, root: NodeRef<'_>) -> Result<String, AllocError>
    ensures { IfOk result (λ text. string_bytes text ≡ shown_text true (world_at root.entry) (id_at root.entry)) }
{
    let mut buffer = TextBuffer::new(alloc);
    match write_masked(root, &mut buffer) {
        Ok(()) => Ok(buffer.into_string()),
        Err(_) => Err(AllocError),
    }
}

/// A text of this many bullets.
fn bullet_text(alloc: Global, count: usize) -> Result<String, AllocError>
    ensures { IfOk result (λ text. string_bytes text ≡ bullets count) }
{
    let mut buffer = TextBuffer::new(alloc);
    match write_bullets(count, &mut buffer) {
        Ok(()) => Ok(buffer.into_string()),
        Err(_) => Err(AllocError),
    }
}

/// Of a password: a bullet for each character of its text, also if all are the same; without a text, for each scalar of
/// its own value; or `None` if it has neither.
fn password_value(alloc: Global, node: &NodeRef) -> Result<Option<String>, AllocError>
    ensures { IfOk result (λ value. option_map string_bytes value ≡ password_value (world_at node.now) (id_at node.now)) }
{
    if node.supports_text_ranges() {
        let text = masked_text(alloc, *node)?;
        return Ok(Some(text));
    }
    let Some(value) = node.raw_value() else {
        return Ok(None);
    };
    let text = bullet_text(alloc, scalar_count(value))?;
    Ok(Some(text))
}

/// The node's value, or `None` if it has no value or [`hides_value`] holds. Of a password it is a bullet for each character
/// of its text, also if all are the same; without a text, for each scalar of its own value.
///
/// # Errors
///
/// Returns `AllocError` if memory runs out.
pub fn shown_value(alloc: Global, node: &NodeRef) -> Result<Option<String>, AllocError>
    ensures { IfOk result (λ value. option_map string_bytes value ≡ shown_value (world_at node.now) (id_at node.now)) }
{
    if hides_value(node) {
        return Ok(None);
    }
    if node.is_password_input() {
        return password_value(alloc, node);
    }
    node.value(alloc)
}

/// The node's label, or `None` if it has no label or [`hides_label`] holds.
///
/// # Errors
///
/// Returns `AllocError` if memory runs out.
pub fn shown_label(alloc: Global, node: &NodeRef) -> Result<Option<String>, AllocError>
    ensures { IfOk result (λ label. option_map string_bytes label ≡ shown_label (world_at node.now) (id_at node.now)) }
{
    if hides_label(node) {
        return Ok(None);
    }
    node.label(alloc)
}

impl Passwords {
    /// The same as [`hides_label`](crate::hides_label), of a node of the state of which this is known.
    pub fn hides_label(&self, node: &NodeRef) -> bool
        requires { AreRight (world_at node.now) self.now }
        ensures { result ≡ hides_label (world_at node.now) (id_at node.now) }
    {
        hides_label_by(node, Some(self))
    }

    /// The same as [`shown_label`](crate::shown_label), of a node of the state of which this is known.
    ///
    /// # Errors
    ///
    /// Returns `AllocError` if memory runs out.
    pub fn shown_label(&self, alloc: Global, node: &NodeRef) -> Result<Option<String>, AllocError>
        requires { AreRight (world_at node.now) self.now }
        ensures { IfOk result (λ label. option_map string_bytes label ≡ shown_label (world_at node.now) (id_at node.now)) }
    {
        if self.hides_label(node) {
            return Ok(None);
        }
        node.label(alloc)
    }
}
