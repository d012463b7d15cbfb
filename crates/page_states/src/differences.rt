//! Writing how two states of a node differ: its role, its place, each of its fields, and its box.
ghost use Rattle.std.specs.Prelude.{◌≡◌, ◌↔◌, IfOk, IsTrue, OnOk, length, option_copied, option_map};
ghost use Rattle.std.specs.Io.KnownBytes.{Appends};
ghost use Rattle.model.specs.Forest.{place_of};
ghost use Rattle.script_nodes.specs.FieldKinds.{field_name};
ghost use Rattle.script_nodes.specs.NodeText.{piece};
ghost use Rattle.views.specs.Nodes.{world_at, id_at, data_at};
ghost use Rattle.page_states.specs.Differences.{
  box_change,
  box_or_none,
  change_text,
  element_of,
  field_shown,
  flag_word,
  hides_field,
  is_flag,
  is_label,
  is_measured,
  is_text,
  is_value,
  label_of_state,
  other_field,
  place_change,
  place_or_none,
  role_change,
  sent_value,
  text_in,
  text_or_none,
  value_after,
  value_of_state,
  TellsBox,
  TellsDifferences,
  TellsField,
  TellsFields,
  TellsPlace,
  TellsRole,
  TellsText,
};

use crate::faults::Fault;
use crate::found::View;
use crate::looks::is_same_text;
use crate::names::write_role;
use crate::words::{shown_label, shown_value};
use html::write_escaped_bytes;
use schema::{Node, WideRect};
use script_nodes::{Field, TextField, named_fields, write_field};
use script_words::sides::write_sides;
use std::alloc::{AllocError, Global};
use std::io::{self, Write};
use views::{FullNodeId, NodeRef};

/// Writes how two states of a node differ, as far as a page shows it.
///
/// # Errors
///
/// Returns `Fault::Memory` if memory runs out, and `Fault::Output` if the output has an error.
pub fn write_differences<O: Write>(
    alloc: Global,
    old: View,
    new: View,
    out: &mut O,
) -> Result<(), Fault>
    ensures { OnOk result (TellsDifferences old.entry new.entry (O.contents out.old) (O.contents out.new)) }
{
    write_role_difference(&old.node, &new.node, out)?;
    write_place_difference(&old.node, &new.node, out)?;
    write_field_differences(alloc, &old, &new, out)?;
    write_box_difference(old.facts.rect, new.facts.rect, out)?;
    Ok(())
}

/// Writes the roles of two states of a node, if they differ.
fn write_role_difference<O: Write>(old: &NodeRef, new: &NodeRef, out: &mut O) -> io::Result<()>
    ensures { OnOk result (TellsRole old.now new.now (O.contents out.old) (O.contents out.new)) }
{
    if old.role() == new.role() {
        return Ok(());
    }
    write_role_change(old, new, out)
}

/// Writes that a role was the one and is the other.
fn write_role_change<O: Write>(old: &NodeRef, new: &NodeRef, out: &mut O) -> io::Result<()>
    ensures { OnOk result (Appends (O.contents out.old) (O.contents out.new) (role_change (data_at old.now).role (data_at new.now).role)) }
{
    out.write_all(b"; role ")?;
    write_role(old, out)?;
    out.write_all(" → ".as_bytes())?;
    write_role(new, out)
}

/// Writes where a node was and is, if that differs.
fn write_place_difference<O: Write>(old: &NodeRef, new: &NodeRef, out: &mut O) -> io::Result<()>
    ensures { OnOk result (TellsPlace old.now new.now (O.contents out.old) (O.contents out.new)) }
{
    let was = place_of(*old);
    let is = place_of(*new);
    if is_same_place(was, is) {
        return Ok(());
    }
    write_place_change(was, is, out)
}

/// The node's parent, and the node's index among its children.
fn place_of(node: NodeRef) -> Option<(FullNodeId, usize)>
    ensures { result ≡ place_of (world_at node.entry) (id_at node.entry) }
{
    match node.parent_and_index() {
        Some((parent, index)) => Some((parent.id(), index)),
        None => None,
    }
}

/// Whether two places are one, or there is neither.
fn is_same_place(a: Option<(FullNodeId, usize)>, b: Option<(FullNodeId, usize)>) -> bool
    ensures { IsTrue result ↔ (a ≡ b) }
{
    match (a, b) {
        (Some(a), Some(b)) => a.0 == b.0 && a.1 == b.1,
        (None, None) => true,
        (Some(_), None) => false,
        (None, Some(_)) => false,
    }
}

/// Writes that a place was the one and is the other.
fn write_place_change<O: Write>(
    old: Option<(FullNodeId, usize)>,
    new: Option<(FullNodeId, usize)>,
    out: &mut O,
) -> io::Result<()>
    ensures { OnOk result (Appends (O.contents out.old) (O.contents out.new) (place_change old new)) }
{
    out.write_all(b"; place ")?;
    write_place_or_none(old, out)?;
    out.write_all(" → ".as_bytes())?;
    write_place_or_none(new, out)
}

/// Writes a parent's id with an index among its children, or that there is no parent.
fn write_place_or_none<O: Write>(place: Option<(FullNodeId, usize)>, out: &mut O) -> io::Result<()>
    ensures { OnOk result (Appends (O.contents out.old) (O.contents out.new) (place_or_none place)) }
{
    let Some((parent, index)) = place else {
        return out.write_all(b"<i>none</i>");
    };
    let tree = parent.tree;
    let node = parent.node.0;
    write!(out, "<code>{tree}:{node}/{index}</code>")
}

/// Writes each field of two states of a node that differs.
fn write_field_differences<O: Write>(
    alloc: Global,
    old: &View,
    new: &View,
    out: &mut O,
) -> Result<(), Fault>
    ensures { OnOk result (TellsFields old.now new.now (O.contents out.old) (O.contents out.new)) }
{
    for (name, field) in named_fields() {
        write_field_difference(alloc, name, *field, old, new, out)?;
    }
    Ok(())
}

/// Writes a field with this name of two states of a node, if what is shown of it differs.
fn write_field_difference<O: Write>(
    alloc: Global,
    name: &str,
    field: Field,
    old: &View,
    new: &View,
    out: &mut O,
) -> Result<(), Fault>
    requires { name.now ≡ field_name field }
    ensures { OnOk result (TellsField old.now new.now (O.contents out.old) field (O.contents out.new)) }
{
    let was = shown_field(alloc, name, field, old)?;
    let is = shown_field(alloc, name, field, new)?;
    write_difference(name, element_of(field), was.as_deref(), is.as_deref(), out)?;
    Ok(())
}

/// What a page shows of a field with this name of a node.
fn shown_field(
    alloc: Global,
    name: &str,
    field: Field,
    view: &View,
) -> Result<Option<Vec<u8>>, AllocError>
    requires { name.now ≡ field_name field }
    ensures { IfOk result (λ text. option_map (λ bytes. bytes.items) text ≡ field_shown view.now field) }
{
    if is_label(field) {
        return label_bytes(alloc, view);
    }
    if is_value(field) {
        return value_bytes(alloc, view);
    }
    other_field(alloc, name, field, view)
}

/// What a page shows of a field with this name of a node, other than the label and the value.
fn other_field(
    alloc: Global,
    name: &str,
    field: Field,
    view: &View,
) -> Result<Option<Vec<u8>>, AllocError>
    requires { name.now ≡ field_name field }
    ensures { let within = view.now.facts.is_in_password in
        IfOk result (λ text. option_map (λ bytes. bytes.items) text ≡ other_field within (data_at view.now.node) field) }
{
    if hides_field(view, field) {
        return Ok(None);
    }
    sent_value(alloc, name, field, view.node.data())
}

/// Whether the field is the label, which is written as the page shows it.
fn is_label(field: Field) -> bool
    ensures { result ≡ is_label field }
{
    matches!(field, Field::Text(TextField::Label))
}

/// Whether the field is the value, which is written as the page shows it.
fn is_value(field: Field) -> bool
    ensures { result ≡ is_value field }
{
    matches!(field, Field::Text(TextField::Value))
}

/// Whether the field is a text.
fn is_text(field: Field) -> bool
    ensures { result ≡ is_text field }
{
    matches!(field, Field::Text(_))
}

/// Whether the field measures the characters of a text.
fn is_measured(field: Field) -> bool
    ensures { result ≡ is_measured field }
{
    matches!(field, Field::Numbers(_) | Field::Units(_))
}

/// Whether the field is a flag.
fn is_flag(field: Field) -> bool
    ensures { result ≡ is_flag field }
{
    matches!(field, Field::Flag(_))
}

/// The label that a page shows of a node.
fn label_bytes(alloc: Global, view: &View) -> Result<Option<Vec<u8>>, AllocError>
    ensures { IfOk result (λ text. option_map (λ bytes. bytes.items) text ≡ label_of_state view.now) }
{
    match shown_label(alloc, &view.node, view.facts.hidden.label)? {
        Some(label) => Ok(Some(label.into_bytes())),
        None => Ok(None),
    }
}

/// The value that a page shows of a node.
fn value_bytes(alloc: Global, view: &View) -> Result<Option<Vec<u8>>, AllocError>
    ensures { IfOk result (λ text. option_map (λ bytes. bytes.items) text ≡ value_of_state view.now) }
{
    match shown_value(alloc, &view.node, view.facts.hidden.value)? {
        Some(value) => Ok(Some(value.into_bytes())),
        None => Ok(None),
    }
}

/// Whether the field may show what is typed into a password: a text of a node in one, or what is measured of characters, also of
/// the password itself.
fn hides_field(view: &View, field: Field) -> bool
    ensures { result ≡ hides_field view.now.facts.is_in_password (data_at view.now.node) field }
{
    if view.facts.is_in_password {
        return is_text(field) || is_measured(field);
    }
    view.node.is_password_input() && is_measured(field)
}

/// A field with this name as a script has it: its value, if it is set, or of a flag whether it is set.
fn sent_value(
    alloc: Global,
    name: &str,
    field: Field,
    node: &Node,
) -> Result<Option<Vec<u8>>, AllocError>
    requires { name.now ≡ field_name field }
    ensures { IfOk result (λ text. option_map (λ bytes. bytes.items) text ≡ sent_value node.now field) }
{
    let written = written_field(alloc, name, field, node)?;
    if is_flag(field) {
        let word = flag_word(&written);
        return Ok(Some(Vec::from_slice(alloc, word.as_bytes())?));
    }
    value_after(alloc, name, &written)
}

/// A field with this name in a node's line; empty if it isn't set.
fn written_field(
    alloc: Global,
    name: &str,
    field: Field,
    node: &Node,
) -> Result<Vec<u8>, AllocError>
    requires { name.now ≡ field_name field }
    ensures { IfOk result (λ text. text.items ≡ piece node.now field) }
{
    let mut written = Vec::new(alloc);
    // A vector has no other error than lack of memory.
    match write_field(alloc, node, name, field, &mut written) {
        Ok(()) => Ok(written),
        Err(_) => Err(AllocError),
    }
}

/// The word for a flag that is written so in a node's line: nothing if it isn't set.
fn flag_word(written: &[u8]) -> &'static str
    ensures { result.now ≡ flag_word written.now }
{
    match written.first() {
        Some(_) => "yes",
        None => "no",
    }
}

/// The value of a field that is written so in a node's line, after its name.
fn value_after(alloc: Global, name: &str, written: &[u8]) -> Result<Option<Vec<u8>>, AllocError>
    ensures { IfOk result (λ value. option_map (λ bytes. bytes.items) value ≡ value_after (length name.now) written.now) }
{
    // After a space, the name, and a sign.
    let start = name.len().saturating_add(2);
    if written.len() < start {
        return Ok(None);
    }
    let value = Vec::from_slice(alloc, &written[start..])?;
    Ok(Some(value))
}

/// The name of the element in which a field's values are shown.
fn element_of(field: Field) -> &'static str
    ensures { result.now ≡ element_of field }
{
    if is_label(field) || is_value(field) {
        return "q";
    }
    "code"
}

/// Writes two texts in such elements, if they differ.
fn write_difference<O: Write>(
    what: &str,
    element: &str,
    old: Option<&[u8]>,
    new: Option<&[u8]>,
    out: &mut O,
) -> io::Result<()>
    ensures { let was = option_copied old.entry in let is = option_copied new.entry in
        OnOk result (TellsText what.now element.now was is (O.contents out.old) (O.contents out.new)) }
{
    if are_same_texts(old, new) {
        return Ok(());
    }
    write_change(what, element, old, new, out)
}

/// Whether two texts are equal, or there is neither.
fn are_same_texts(a: Option<&[u8]>, b: Option<&[u8]>) -> bool
    ensures { IsTrue result ↔ (option_copied a.entry ≡ option_copied b.entry) }
{
    match (a, b) {
        (Some(a), Some(b)) => is_same_text(a, b),
        (None, None) => true,
        (Some(_), None) => false,
        (None, Some(_)) => false,
    }
}

/// Writes that a text was the one and is the other.
fn write_change<O: Write>(
    what: &str,
    element: &str,
    old: Option<&[u8]>,
    new: Option<&[u8]>,
    out: &mut O,
) -> io::Result<()>
    ensures { let text = change_text what.now element.now (option_copied old.entry) (option_copied new.entry) in
        OnOk result (Appends (O.contents out.old) (O.contents out.new) text) }
{
    write!(out, "; {what} ")?;
    write_text_or_none(element, old, out)?;
    out.write_all(" → ".as_bytes())?;
    write_text_or_none(element, new, out)
}

/// Writes a text in such an element, or that there isn't one.
fn write_text_or_none<O: Write>(element: &str, text: Option<&[u8]>, out: &mut O) -> io::Result<()>
    ensures { OnOk result (Appends (O.contents out.old) (O.contents out.new) (text_or_none element.now (option_copied text.entry))) }
{
    match text {
        Some(text) => write_text_in(element, text, out),
        None => out.write_all(b"<i>none</i>"),
    }
}

/// Writes a text in such an element.
fn write_text_in<O: Write>(element: &str, text: &[u8], out: &mut O) -> io::Result<()>
    ensures { OnOk result (Appends (O.contents out.old) (O.contents out.new) (text_in element.now text.now)) }
{
    write!(out, "<{element}>")?;
    write_escaped_bytes(text, out)?;
    write!(out, "</{element}>")
}

/// Writes the boxes of two states of a node, if they differ.
fn write_box_difference<O: Write>(
    old: Option<WideRect>,
    new: Option<WideRect>,
    out: &mut O,
) -> io::Result<()>
    ensures { OnOk result (TellsBox old new (O.contents out.old) (O.contents out.new)) }
{
    if is_same_box(old, new) {
        return Ok(());
    }
    write_box_change(old, new, out)
}

/// Writes that a box was the one and is the other.
fn write_box_change<O: Write>(
    old: Option<WideRect>,
    new: Option<WideRect>,
    out: &mut O,
) -> io::Result<()>
    ensures { OnOk result (Appends (O.contents out.old) (O.contents out.new) (box_change old new)) }
{
    out.write_all(b"; box ")?;
    write_box_or_none(old, out)?;
    out.write_all(" → ".as_bytes())?;
    write_box_or_none(new, out)
}

/// Writes a box's left, top, right and bottom, or that there isn't one.
fn write_box_or_none<O: Write>(rect: Option<WideRect>, out: &mut O) -> io::Result<()>
    ensures { OnOk result (Appends (O.contents out.old) (O.contents out.new) (box_or_none rect)) }
{
    match rect {
        Some(rect) => write_sides(rect, out),
        None => out.write_all(b"<i>none</i>"),
    }
}

/// Whether two boxes are equal, or there is neither.
fn is_same_box(a: Option<WideRect>, b: Option<WideRect>) -> bool
    ensures { IsTrue result ↔ (a ≡ b) }
{
    a == b
}
