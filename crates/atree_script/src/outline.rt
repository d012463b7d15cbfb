//! Printing a tree as an outline.
ghost use Rattle.std.specs.Prelude.{◌≡◌, OnOk, flat_map};
ghost use Rattle.std.specs.Io.KnownBytes.{Appends};
ghost use Rattle.model.specs.FocusFound.{is_focused};
ghost use Rattle.model.specs.Lists.{ancestors};
ghost use Rattle.schema.specs.RoleNames.{role_text};
ghost use Rattle.views.specs.Nodes.{world_at, id_at, data_at};
ghost use Rattle.views.specs.Descendants.{descendants};
ghost use Rattle.views.specs.ShownWorlds.{world_of};
ghost use Rattle.atree_script.specs.Outline.{spaces_for, focus_mark, named_line, node_line, tree_text};

use crate::printer::ShownId;
use accesskit_consumer::node::NodeRef;
use accesskit_consumer::tree::StateRef;
use std::io::{self, Write};

/// Prints each node on a line, a parent before its children, with two spaces for each level below the root.
pub(crate) fn print_outline<O: Write>(state: StateRef, out: &mut O) -> io::Result<()>
    ensures { OnOk result (Appends (O.contents out.old) (O.contents out.new) (tree_text (world_of state.entry))) }
{
    let root = state.root();
    print_node(root, out)?;
    print_below(root, out)
}

/// Prints each node below a node.
fn print_below<O: Write>(top: NodeRef, out: &mut O) -> io::Result<()>
    ensures { let w = world_at top.entry in
        OnOk result (Appends (O.contents out.old) (O.contents out.new) (flat_map (node_line w) (descendants w (id_at top.entry)))) }
{
    for node in top.descendants() {
        print_node(node, out)?;
    }
    Ok(())
}

/// Prints a node's line.
fn print_node<O: Write>(node: NodeRef, out: &mut O) -> io::Result<()>
    ensures { OnOk result (Appends (O.contents out.old) (O.contents out.new) (node_line (world_at node.entry) (id_at node.entry))) }
{
    print_indent(node, out)?;
    print_name(node, out)
}

/// Prints the node's id and role, and a star if it is focused.
fn print_name<O: Write>(node: NodeRef, out: &mut O) -> io::Result<()>
    ensures { let w = world_at node.entry in let id = id_at node.entry in
        OnOk result (Appends (O.contents out.old) (O.contents out.new)
        (named_line id (role_text (data_at node.entry).role) (focus_mark w id))) }
{
    let id = ShownId(node.id());
    let role = node.role();
    let mark = focus_mark(node);
    writeln!(out, "{id} {role}{mark}")
}

/// Prints two spaces for each ancestor of the node.
fn print_indent<O: Write>(node: NodeRef, out: &mut O) -> io::Result<()>
    ensures { OnOk result (Appends (O.contents out.old) (O.contents out.new)
        (spaces_for (ancestors (world_at node.entry) (id_at node.entry)))) }
{
    node.tree_state().know();
    let mut current = node;
    while let Some(parent) = current.parent() {
        out.write_all(b"  ")?;
        current = parent;
    }
    Ok(())
}

/// A star if the node is focused.
fn focus_mark(node: NodeRef) -> &'static str
    ensures { result.now ≡ focus_mark (world_at node.entry) (id_at node.entry) }
{
    if is_focused(node) { " *" } else { "" }
}

/// Whether the node is focused.
fn is_focused(node: NodeRef) -> bool
    ensures { result ≡ is_focused (world_at node.entry) (id_at node.entry) }
{
    node.tree_state().know();
    node.is_focused()
}
