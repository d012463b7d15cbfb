//! Writing what is shown of a node.
ghost use Rattle.std.specs.Prelude.{◌≡◌, OnOk, IfOk, flat_map, option_copied};
ghost use Rattle.std.specs.Io.KnownBytes.{Appends};
ghost use Rattle.model.specs.Lists.{ancestors};
ghost use Rattle.script_nodes.specs.FieldKinds.{field_name};
ghost use Rattle.views.specs.Nodes.{world_at, id_at, data_at};
ghost use Rattle.compare.specs.Rows.{fields_text, indent, is_told, label_text, quoted_after, row_seen, row_text, told_piece, value_text};

use accesskit_consumer::filters::{FilterResult, common_filter};
use accesskit_consumer::node::NodeRef;
use hidden_texts::{hides_label, hides_value, is_in_password, shown_label, shown_value};
use role_names::RoleName;
use schema::Node;
use script_lines::{Stop, write_quoted};
use script_nodes::{Field, TextField, named_fields, write_field};
use std::alloc::{AllocError, Global};
use std::io::{self, Write};

/// What is shown of a node in one line, without its end.
pub(crate) fn row_text(alloc: Global, node: NodeRef) -> Result<Vec<u8>, AllocError>
    ensures { IfOk result (λ text. text.items ≡ row_text (world_at node.entry) (id_at node.entry)) }
{
    let mut text = Vec::new(alloc);
    match write_row(alloc, node, &mut text) {
        Ok(()) => Ok(text),
        Err(_) => Err(AllocError),
    }
}

/// Writes two spaces for each node above that is shown, the node's role, label and value, and its other fields.
fn write_row<O: Write>(alloc: Global, node: NodeRef, out: &mut O) -> Result<(), Stop>
    ensures { OnOk result (Appends (O.contents out.old) (O.contents out.new) (row_seen node.entry)) }
{
    write_indent(node, out)?;
    let role = RoleName(node.role());
    write!(out, "{role}")?;
    write_label(alloc, node, out)?;
    write_value(alloc, node, out)?;
    write_fields(alloc, is_in_password(&node), node.data(), out)
}

/// Writes two spaces for each node above that the common filter shows.
fn write_indent<O: Write>(node: NodeRef, out: &mut O) -> io::Result<()>
    ensures { let w = world_at node.entry in
        OnOk result (Appends (O.contents out.old) (O.contents out.new) (flat_map (indent w) (ancestors w (id_at node.entry)))) }
{
    node.tree_state().know();
    let mut current = node;
    while let Some(parent) = current.parent() {
        write_step(parent, out)?;
        current = parent;
    }
    Ok(())
}

/// Writes two spaces if the common filter shows the node.
fn write_step<O: Write>(node: NodeRef, out: &mut O) -> io::Result<()>
    ensures { OnOk result (Appends (O.contents out.old) (O.contents out.new) (indent (world_at node.entry) (id_at node.entry))) }
{
    if common_filter(&node) == FilterResult::Include {
        return out.write_all(b"  ");
    }
    Ok(())
}

/// Writes a word and the text in quotes, if there is one.
fn write_after<O: Write>(word: &[u8], text: Option<&str>, out: &mut O) -> io::Result<()>
    ensures { OnOk result (Appends (O.contents out.old) (O.contents out.new) (quoted_after word.now (option_copied text.entry))) }
{
    let Some(text) = text else {
        return Ok(());
    };
    out.write_all(word)?;
    out.write_all(b"\"")?;
    write_quoted(text.as_bytes(), out)?;
    out.write_all(b"\"")
}

/// Writes the node's label, if there is one, or that it is hidden.
fn write_label<O: Write>(alloc: Global, node: NodeRef, out: &mut O) -> Result<(), Stop>
    ensures { OnOk result (Appends (O.contents out.old) (O.contents out.new) (label_text (world_at node.entry) (id_at node.entry))) }
{
    if hides_label(&node) {
        out.write_all(b" label hidden")?;
        return Ok(());
    }
    let label = shown_label(alloc, &node)?;
    write_after(b" ", label.as_deref(), out)?;
    Ok(())
}

/// Writes the node's value, if there is one, or that it is hidden.
fn write_value<O: Write>(alloc: Global, node: NodeRef, out: &mut O) -> Result<(), Stop>
    ensures { OnOk result (Appends (O.contents out.old) (O.contents out.new) (value_text (world_at node.entry) (id_at node.entry))) }
{
    if hides_value(&node) {
        out.write_all(b" value hidden")?;
        return Ok(());
    }
    let value = shown_value(alloc, &node)?;
    write_after(b" value=", value.as_deref(), out)?;
    Ok(())
}

/// Writes the other fields of a node that are compared, each as in a script, for a node that is in a password or isn't.
fn write_fields<O: Write>(
    alloc: Global,
    is_within: bool,
    node: &Node,
    out: &mut O,
) -> Result<(), Stop>
    ensures { OnOk result (Appends (O.contents out.old) (O.contents out.new) (fields_text is_within node.now)) }
{
    for (name, field) in named_fields() {
        write_told(alloc, is_within, node, name, *field, out)?;
    }
    Ok(())
}

/// Writes a field, which has this name, if it is compared.
fn write_told<O: Write>(
    alloc: Global,
    is_within: bool,
    node: &Node,
    name: &str,
    field: Field,
    out: &mut O,
) -> Result<(), Stop>
    requires { name.now ≡ field_name field }
    ensures { OnOk result (Appends (O.contents out.old) (O.contents out.new) (told_piece is_within node.now field)) }
{
    if is_told(is_within, field) {
        return write_field(alloc, node, name, field, out);
    }
    Ok(())
}

/// Whether the field is compared: no id, box or measure is; the label and the value are those that are shown; and of a node in a password
/// no text is.
fn is_told(is_within: bool, field: Field) -> bool
    ensures { result ≡ is_told is_within field }
{
    match field {
        Field::Ids(_) | Field::Id(_) => false,
        Field::Numbers(_) | Field::Units(_) => false,
        Field::Text(TextField::Label) | Field::Text(TextField::Value) => false,
        Field::Text(_) => !is_within,
        Field::Tree | Field::Bounds | Field::Transform | Field::Selection => false,
        _ => true,
    }
}
