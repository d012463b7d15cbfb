//! Printing a node that was found.
mod middle;
pub(crate) mod names;

ghost use Rattle.std.specs.Prelude.{◌≡◌, OnOk};
ghost use Rattle.std.specs.Io.KnownBytes.{Appends};
ghost use Rattle.model.specs.Geometry.{bounding_box};
ghost use Rattle.views.specs.Nodes.{world_at, id_at};
ghost use Rattle.hidden_texts.specs.Known.{AreRight};
ghost use Rattle.find.specs.Printed.{value_line, place_text, hit_text, middle_line, sides_line, box_text, node_text};

use self::middle::at_middle;
use self::names::{write_name, write_path};
use accesskit_consumer::node::NodeRef;
use atree_script::{ShownId, Stop, write_sides, write_text};
use hidden_texts::{Passwords, hides_value, shown_value};
use model::is_same;
use schema::WideRect;
use std::alloc::Global;
use std::io::{self, Write};

/// Prints a node below the top: its id, value, path and bounds, and the node at its centre.
pub(crate) fn report<O: Write>(
    alloc: Global,
    passwords: &Passwords,
    top: NodeRef,
    node: NodeRef,
    out: &mut O,
) -> Result<(), Stop>
    requires world { world_at node ≡ world_at top }
    requires known { AreRight (world_at node) passwords.now }
    ensures { let w = world_at node.entry in
        OnOk result (Appends (O.contents out.old) (O.contents out.new) (node_text w (id_at top.entry) (id_at node.entry))) }
{
    let id = ShownId(node.id());
    writeln!(out, "{id}")?;
    write_value(alloc, node, out)?;
    write_path(alloc, passwords, node, out)?;
    write_box(alloc, passwords, top, node, out)
}

/// Writes the node's value, or that it is hidden.
fn write_value<O: Write>(alloc: Global, node: NodeRef, out: &mut O) -> Result<(), Stop>
    ensures { OnOk result (Appends (O.contents out.old) (O.contents out.new) (value_line (world_at node.entry) (id_at node.entry))) }
{
    out.write_all(b"  value ")?;
    if hides_value(&node) {
        out.write_all(b"hidden\n")?;
        return Ok(());
    }
    let value = shown_value(alloc, &node)?;
    write_text(value.as_deref(), out)?;
    Ok(())
}

/// Writes the node's bounds, and which node is at their centre.
fn write_box<O: Write>(
    alloc: Global,
    passwords: &Passwords,
    top: NodeRef,
    node: NodeRef,
    out: &mut O,
) -> Result<(), Stop>
    requires world { world_at node ≡ world_at top }
    requires known { AreRight (world_at node) passwords.now }
    ensures { let w = world_at node.entry in let id = id_at node.entry in
        OnOk result (Appends (O.contents out.old) (O.contents out.new) (box_text w (id_at top.entry) id (bounding_box w id))) }
{
    let Some(bounds) = node.bounding_box() else {
        out.write_all(b"  bounds none\n")?;
        return Ok(());
    };
    write_bounds(bounds, out)?;
    write_middle(alloc, passwords, top, node, bounds, out)
}

/// Writes the line of the bounds' sides.
fn write_bounds<O: Write>(bounds: WideRect, out: &mut O) -> io::Result<()>
    ensures { OnOk result (Appends (O.contents out.old) (O.contents out.new) (sides_line bounds)) }
{
    out.write_all(b"  bounds ")?;
    write_sides(bounds, out)?;
    out.write_all(b"\n")
}

/// Writes which node is at the centre of the node: the node itself, another one within it, one that covers it, or none.
fn write_middle<O: Write>(
    alloc: Global,
    passwords: &Passwords,
    top: NodeRef,
    node: NodeRef,
    bounds: WideRect,
    out: &mut O,
) -> Result<(), Stop>
    requires world { world_at node ≡ world_at top }
    requires known { AreRight (world_at node) passwords.now }
    ensures { let w = world_at node.entry in
        OnOk result (Appends (O.contents out.old) (O.contents out.new) (middle_line w (id_at top.entry) (id_at node.entry) bounds)) }
{
    out.write_all(b"  middle ")?;
    let Some(hit) = at_middle(top, bounds) else {
        out.write_all(b"none\n")?;
        return Ok(());
    };
    write_hit(alloc, passwords, node, hit, out)
}

/// Writes which node it is.
fn write_hit<O: Write>(
    alloc: Global,
    passwords: &Passwords,
    node: NodeRef,
    hit: NodeRef,
    out: &mut O,
) -> Result<(), Stop>
    requires world { world_at hit ≡ world_at node }
    requires known { AreRight (world_at hit) passwords.now }
    ensures { let w = world_at node.entry in
        OnOk result (Appends (O.contents out.old) (O.contents out.new) (hit_text w (id_at node.entry) (id_at hit.entry))) }
{
    if is_same(hit.id(), node.id()) {
        out.write_all(b"itself\n")?;
        return Ok(());
    }
    let how = place_of(node, hit);
    let id = ShownId(hit.id());
    write!(out, "{how} {id}")?;
    write_name(alloc, passwords, hit, out)?;
    out.write_all(b"\n")?;
    Ok(())
}

/// Where the node that is hit is: within the node, or not.
fn place_of(node: NodeRef, hit: NodeRef) -> &'static str
    requires { world_at hit ≡ world_at node }
    ensures { result.now ≡ place_text (world_at node.entry) (id_at node.entry) (id_at hit.entry) }
{
    if hit.is_descendant_of(&node) {
        "within"
    } else {
        "perhaps covered by"
    }
}
