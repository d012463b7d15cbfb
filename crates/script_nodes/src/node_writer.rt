//! Writing a node's line.
ghost use Rattle.std.specs.Prelude.{◌≡◌, IfErr, IfOk, OnOk};
ghost use Rattle.std.specs.Io.KnownBytes.{Appends};
ghost use Rattle.script_nodes.specs.FieldKinds.{field_name};
ghost use Rattle.script_nodes.specs.NodeText.{StopsWriting, fields_text, node_head, node_line, piece};

use crate::field_kinds::{Field, named_fields};
use schema::{Node, NodeId, Role};
use script_words::called::{
    aria_current_name, has_popup_name, live_name, orientation_name, sort_direction_name,
    text_align_name, text_direction_name, toggled_name, truth_name, vertical_offset_name,
};
use script_words::stops::Stop;
use script_words::write_parts::{
    write_actions, write_color, write_count, write_decoration, write_flag, write_id, write_ids,
    write_narrow, write_number, write_numbers, write_quoted_field, write_rect, write_selection,
    write_short, write_translation, write_tree, write_unit_list, write_word,
};
use std::alloc::{AllocError, Global};
use std::io::{self, Write};

/// Writes `node ID ROLE` and the fields of a node on a line.
#[tactic(auto, unfolding(crate::specs::NodeText::node_text, crate::specs::NodeText::node_line))]
pub fn write_node<O: Write>(alloc: Global, id: NodeId, node: &Node, out: &mut O) -> Result<(), Stop>
    ensures written { OnOk result (Appends (O.contents out.old) (O.contents out.new) (node_line id node.now)) }
    ensures stops { IfErr result StopsWriting }
{
    write_node_head(id, node.role(), out)?;
    write_fields(alloc, node, out)?;
    out.write_all(b"\n")?;
    Ok(())
}

/// Writes the beginning of a node's line.
#[tactic(auto, unfolding(crate::specs::NodeText::node_head))]
fn write_node_head<O: Write>(id: NodeId, role: Role, out: &mut O) -> io::Result<()>
    ensures { OnOk result (Appends (O.contents out.old) (O.contents out.new) (node_head id role)) }
{
    write!(out, "node {id} {role}")
}

/// Writes the fields of a node that are set.
fn write_fields<O: Write>(alloc: Global, node: &Node, out: &mut O) -> Result<(), Stop>
    ensures written { OnOk result (Appends (O.contents out.old) (O.contents out.new) (fields_text node.now)) }
    ensures stops { IfErr result StopsWriting }
{
    for (name, field) in named_fields() {
        write_field(alloc, node, name, *field, out)?;
    }
    Ok(())
}

/// Writes a space and a field, which has this name, as on a node's line, if it is set.
///
/// # Errors
///
/// Returns `Stop` if the output has an error, or if memory runs out.
pub fn write_field<O: Write>(
    alloc: Global,
    node: &Node,
    name: &str,
    field: Field,
    out: &mut O,
) -> Result<(), Stop>
    requires { name.now ≡ field_name field }
    ensures written { OnOk result (Appends (O.contents out.old) (O.contents out.new) (piece node.now field)) }
    ensures stops { IfErr result StopsWriting }
{
    Ok(write_by_kind(alloc, node, name, field, out)??)
}

/// Writes the field with this name, if it is set and memory for its list of actions doesn't run out.
fn write_by_kind<O: Write>(
    alloc: Global,
    node: &Node,
    name: &str,
    field: Field,
    out: &mut O,
) -> Result<io::Result<()>, AllocError>
    requires { name.now ≡ field_name field }
    ensures { IfOk result (λ written. OnOk written (Appends (O.contents out.old) (O.contents out.new) (piece node.now field))) }
{
    match field {
        Field::Ids(which) => Ok(write_ids(name, which.of(node), out)),
        Field::Id(which) => Ok(write_id(name, which.of(node), out)),
        Field::Text(which) => Ok(write_quoted_field(name, which.of(node), out)),
        Field::Flag(which) => Ok(write_flag(name, which.is_in(node), out)),
        Field::Numbers(which) => Ok(write_numbers(name, which.of(node), out)),
        Field::Units(which) => Ok(write_unit_list(name, which.of(node), out)),
        Field::Bool(which) => Ok(write_word(name, truth_name(which.of(node)), out)),
        Field::Color(which) => Ok(write_color(name, which.of(node), out)),
        Field::Decoration(which) => Ok(write_decoration(name, which.of(node), out)),
        Field::Number(which) => Ok(write_number(name, which.of(node), out)),
        Field::Count(which) => Ok(write_count(name, which.of(node), out)),
        Field::Actions(which) => Ok(write_actions(name, &which.of(alloc, node)?, out)),
        Field::Tree => Ok(write_tree(name, node.tree_id(), out)),
        Field::Bounds => Ok(write_rect(name, node.bounds(), out)),
        Field::Transform => Ok(write_translation(name, node.transform(), out)),
        Field::Selection => Ok(write_selection(name, node.text_selection(), out)),
        Field::Toggled => Ok(write_word(name, toggled_name(node.toggled()), out)),
        Field::Live => Ok(write_word(name, live_name(node.live()), out)),
        Field::Orientation => Ok(write_word(name, orientation_name(node.orientation()), out)),
        Field::SortDirection => Ok(write_word(
            name,
            sort_direction_name(node.sort_direction()),
            out,
        )),
        Field::AriaCurrent => Ok(write_word(name, aria_current_name(node.aria_current()), out)),
        Field::HasPopup => Ok(write_word(name, has_popup_name(node.has_popup()), out)),
        Field::FontSize => Ok(write_narrow(name, node.font_size(), out)),
        Field::FontWeight => Ok(write_short(name, node.font_weight(), out)),
        Field::TextDirection => Ok(write_word(
            name,
            text_direction_name(node.text_direction()),
            out,
        )),
        Field::TextAlign => Ok(write_word(name, text_align_name(node.text_align()), out)),
        Field::VerticalOffset => Ok(write_word(
            name,
            vertical_offset_name(node.vertical_offset()),
            out,
        )),
    }
}
