//! Printing a node's role and label, and those of the nodes above it.
ghost use Rattle.std.specs.Prelude.{◌≡◌, All, OnOk, IfOk, map, flat_map, reverse, option_copied};
ghost use Rattle.std.specs.Io.KnownBytes.{Appends};
ghost use Rattle.model.specs.Upward.{upward};
ghost use Rattle.views.specs.Nodes.{world_at, id_at};
ghost use Rattle.views.specs.PlainWalks.{node_in, node_of};
ghost use Rattle.find.specs.Printed.{quoted, label_text, path_line};
ghost use Rattle.hidden_texts.specs.Known.{AreRight};
ghost use Rattle.find.specs.Viewed.{name_seen, later_seen, names_seen, IsKnownOf};

use accesskit_consumer::node::NodeRef;
use atree_script::{Stop, write_quoted};
use hidden_texts::Passwords;
use role_names::RoleName;
use std::alloc::{AllocError, Global};
use std::io::{self, Write};

/// Writes a space, and the text in quotes, if there is one.
pub(crate) fn write_in_quotes<O: Write>(text: Option<&str>, out: &mut O) -> io::Result<()>
    ensures { OnOk result (Appends (O.contents out.old) (O.contents out.new) (quoted (option_copied text.entry))) }
{
    let Some(text) = text else {
        return Ok(());
    };
    out.write_all(b" \"")?;
    write_quoted(text.as_bytes(), out)?;
    out.write_all(b"\"")
}

/// Writes the node's label, if there is one, or that it is hidden.
fn write_label<O: Write>(
    alloc: Global,
    passwords: &Passwords,
    node: NodeRef,
    out: &mut O,
) -> Result<(), Stop>
    requires { AreRight (world_at node) passwords.now }
    ensures { OnOk result (Appends (O.contents out.old) (O.contents out.new) (label_text (world_at node.entry) (id_at node.entry))) }
{
    if passwords.hides_label(&node) {
        out.write_all(b" label hidden")?;
        return Ok(());
    }
    let label = node.label(alloc)?;
    write_in_quotes(label.as_deref(), out)?;
    Ok(())
}

/// Writes a space, the node's role, and its label.
pub(crate) fn write_name<O: Write>(
    alloc: Global,
    passwords: &Passwords,
    node: NodeRef,
    out: &mut O,
) -> Result<(), Stop>
    requires { AreRight (world_at node) passwords.now }
    ensures { OnOk result (Appends (O.contents out.old) (O.contents out.new) (name_seen node.entry)) }
{
    let role = RoleName(node.role());
    write!(out, " {role}")?;
    write_label(alloc, passwords, node, out)
}

/// The node, its parent, and so on up to the root.
fn nodes_upward<'a>(alloc: Global, node: NodeRef<'a>) -> Result<Vec<NodeRef<'a>>, AllocError>
    ensures { let w = world_at node.entry in
        IfOk result (λ nodes. map node_of nodes.items ≡ map (node_in w) (upward w (id_at node.entry))) }
{
    node.tree_state().know();
    let mut nodes = Vec::new(alloc);
    nodes.push(node)?;
    let mut current = node;
    while let Some(parent) = current.parent() {
        nodes.push(parent)?;
        current = parent;
    }
    Ok(nodes)
}

/// Writes the names of these nodes from the last, which is the root, to the first, with a sign between each two.
fn write_names<O: Write>(
    alloc: Global,
    passwords: &Passwords,
    nodes: Vec<NodeRef>,
    out: &mut O,
) -> Result<(), Stop>
    requires { All (IsKnownOf passwords.now) nodes.items }
    ensures { OnOk result (Appends (O.contents out.old) (O.contents out.new) (names_seen (reverse nodes.entry.items))) }
{
    let mut left = nodes;
    let Some(root) = left.pop() else {
        return Ok(());
    };
    write_name(alloc, passwords, root, out)?;
    write_later(alloc, passwords, left, out)
}

/// Writes the names of these nodes from the last to the first, each after a sign.
fn write_later<O: Write>(
    alloc: Global,
    passwords: &Passwords,
    nodes: Vec<NodeRef>,
    out: &mut O,
) -> Result<(), Stop>
    requires { All (IsKnownOf passwords.now) nodes.items }
    ensures { OnOk result (Appends (O.contents out.old) (O.contents out.new) (flat_map later_seen (reverse nodes.entry.items))) }
{
    let mut left = nodes;
    while let Some(node) = left.pop() {
        write_next(alloc, passwords, node, out)?;
    }
    Ok(())
}

/// Writes a sign and a node's name.
fn write_next<O: Write>(
    alloc: Global,
    passwords: &Passwords,
    node: NodeRef,
    out: &mut O,
) -> Result<(), Stop>
    requires { AreRight (world_at node) passwords.now }
    ensures { OnOk result (Appends (O.contents out.old) (O.contents out.new) (later_seen node.entry)) }
{
    out.write_all(b" >")?;
    write_name(alloc, passwords, node, out)
}

/// Writes the node's path: the role and label of each node from the root to it.
pub(crate) fn write_path<O: Write>(
    alloc: Global,
    passwords: &Passwords,
    node: NodeRef,
    out: &mut O,
) -> Result<(), Stop>
    requires { AreRight (world_at node) passwords.now }
    ensures { OnOk result (Appends (O.contents out.old) (O.contents out.new) (path_line (world_at node.entry) (id_at node.entry))) }
{
    let nodes = nodes_upward(alloc, node)?;
    out.write_all(b"  path")?;
    write_names(alloc, passwords, nodes, out)?;
    out.write_all(b"\n")?;
    Ok(())
}
