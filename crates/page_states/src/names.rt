//! Writing the identification of a node.
ghost use Rattle.std.specs.Prelude.{OnOk, option_copied};
ghost use Rattle.std.specs.Io.KnownBytes.{Appends};
ghost use Rattle.views.specs.Nodes.{data_at};
ghost use Rattle.page_states.specs.Named.{role_bold, name_text, link_begun, linked_id, linked_text, role_and_text};
ghost use Rattle.page_states.specs.Written.{anchor_text, small_id, word_text};

use crate::faults::Fault;
use crate::found::View;
use crate::words::{caption, hidden_label_word};
use html::write_element;
use role_names::RoleName;
use std::alloc::Global;
use std::io::{self, Write};
use views::{FullNodeId, NodeRef};

/// Writes the node's role, its label or else its value, and its id.
///
/// # Errors
///
/// Returns `Fault::Memory` if memory runs out, and `Fault::Output` if the output has an error.
pub fn write_name<O: Write>(alloc: Global, view: View, out: &mut O) -> Result<(), Fault>
    ensures { OnOk result (Appends (O.contents out.old) (O.contents out.new) (name_text view.entry)) }
{
    write_role_and_text(alloc, view, out)?;
    out.write_all(b" ")?;
    write_id(view.node.id(), out)?;
    Ok(())
}

/// Writes the same, with the id as a link to where a state shows the node.
///
/// # Errors
///
/// Returns `Fault::Memory` if memory runs out, and `Fault::Output` if the output has an error.
pub fn write_linked_name<O: Write>(
    alloc: Global,
    state: u64,
    view: View,
    out: &mut O,
) -> Result<(), Fault>
    ensures { OnOk result (Appends (O.contents out.old) (O.contents out.new) (linked_text state view.entry)) }
{
    write_role_and_text(alloc, view, out)?;
    out.write_all(b" ")?;
    write_linked_id(state, view.node.id(), out)?;
    Ok(())
}

/// Writes a node's id, as a link to where a state shows the node.
fn write_linked_id<O: Write>(state: u64, id: FullNodeId, out: &mut O) -> io::Result<()>
    ensures { OnOk result (Appends (O.contents out.old) (O.contents out.new) (linked_id state id)) }
{
    begin_link(state, id, out)?;
    write_id(id, out)?;
    out.write_all(b"</a>")
}

/// Begins a link to where a state shows the node.
fn begin_link<O: Write>(state: u64, id: FullNodeId, out: &mut O) -> io::Result<()>
    ensures { OnOk result (Appends (O.contents out.old) (O.contents out.new) (link_begun state id)) }
{
    out.write_all(b"<a href=\"#")?;
    write_anchor(state, id, out)?;
    out.write_all(b"\">")
}

/// Writes the node's role, its label or else its value, if it has one, and that its label is hidden, if it is.
fn write_role_and_text<O: Write>(alloc: Global, view: View, out: &mut O) -> Result<(), Fault>
    ensures { OnOk result (Appends (O.contents out.old) (O.contents out.new) (role_and_text view.entry)) }
{
    write_role(&view.node, out)?;
    let hidden = view.facts.hidden;
    let text = caption(alloc, &view.node, hidden)?;
    write_word("q", "l", text.as_deref(), out)?;
    write_word("i", "w", hidden_label_word(hidden.label), out)?;
    Ok(())
}

/// Writes the node's role.
pub(crate) fn write_role<O: Write>(node: &NodeRef, out: &mut O) -> io::Result<()>
    ensures { OnOk result (Appends (O.contents out.old) (O.contents out.new) (role_bold (data_at node.now).role)) }
{
    let role = RoleName(node.role());
    write!(out, "<b>{role}</b>")
}

/// Writes a space and a text in an element, if there is one.
pub(crate) fn write_word<O: Write>(
    name: &str,
    class: &str,
    word: Option<&str>,
    out: &mut O,
) -> io::Result<()>
    ensures { OnOk result (Appends (O.contents out.old) (O.contents out.new) (word_text name.now class.now (option_copied word.entry))) }
{
    let Some(word) = word else {
        return Ok(());
    };
    out.write_all(b" ")?;
    write_element(name, class, word, out)
}

/// Writes a node's id, for example as `1:2`: the index of its tree, and its id in the tree.
pub(crate) fn write_id<O: Write>(id: FullNodeId, out: &mut O) -> io::Result<()>
    ensures { OnOk result (Appends (O.contents out.old) (O.contents out.new) (small_id id)) }
{
    let tree = id.tree;
    let node = id.node.0;
    write!(out, "<small>{tree}:{node}</small>")
}

/// Writes the anchor of a node in a state, which is unique in the page.
pub(crate) fn write_anchor<O: Write>(state: u64, id: FullNodeId, out: &mut O) -> io::Result<()>
    ensures { OnOk result (Appends (O.contents out.old) (O.contents out.new) (anchor_text state id)) }
{
    let tree = id.tree;
    let node = id.node.0;
    write!(out, "s{state}-{tree}-{node}")
}
