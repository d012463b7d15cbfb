//! Writing commands as lines of a script.
ghost use Rattle.std.specs.Prelude.{◌≡◌, IfErr, IfOk, OnErr, OnOk, flat_map};
ghost use Rattle.std.specs.Io.KnownBytes.{Appends};
ghost use Rattle.schema.specs.UpdateData.{info_data, update_data};
ghost use Rattle.script_lines.specs.Lines.{AppendsBeginning, command_lines, entry_line, host_line, info_text, update_head, update_lines};
ghost use Rattle.script_nodes.specs.NodeText.{StopsWriting, node_line};
ghost use Rattle.script_lines.specs.Questions.{question_line};
ghost use Rattle.script_words.specs.declared.stops.Stop.TheVariants as stop_;

use crate::reader::ScriptCommand;
use crate::write_questions::write_question;
use model::Query;
use schema::{Node, NodeId, TreeInfo, TreeUpdate};
use script_nodes::write_node;
use script_words::stops::Stop;
use script_words::write_parts::{ShownTree, write_quoted_field};
use std::alloc::Global;
use std::io::{self, ErrorKind, Write};

/// Writes a command as lines of a script.
///
/// An update is a line for its head, one for each node and one for its end; any other command is one line. The fields
/// of a node are in a fixed order, and numbers have no leading zeros.
///
/// # Errors
///
/// Returns `Stop::WriteFault` for an error of the output, and `Stop::Memory` if memory for a line runs out. A beginning
/// of the lines, which may be empty, has then been written.
pub fn write_command<O: Write>(
    alloc: Global,
    command: &ScriptCommand,
    out: &mut O,
) -> Result<(), Stop>
    ensures written { OnOk result (Appends (O.contents out.old) (O.contents out.new) (command_lines command.now)) }
    ensures begun { OnErr result (AppendsBeginning (O.contents out.old) (O.contents out.new) (command_lines command.now)) }
    ensures stops { IfErr result StopsWriting }
{
    match command {
        ScriptCommand::Update(update) => write_update(alloc, update, out),
        ScriptCommand::HostFocus(is_host_focused) => {
            write_bytes(host_bytes(*is_host_focused), out)
        }
        ScriptCommand::Print => write_bytes(b"print\n", out),
        ScriptCommand::Query(query) => {
            let line = question_bytes(alloc, *query)?;
            write_bytes(&line, out)
        }
    }
}

/// Writes an update as lines of a script: its head, its nodes and its end.
///
/// # Errors
///
/// As for [`write_command`].
pub fn write_update<O: Write>(alloc: Global, update: &TreeUpdate, out: &mut O) -> Result<(), Stop>
    ensures written { OnOk result (Appends (O.contents out.old) (O.contents out.new) (update_lines (update_data update.now))) }
    ensures begun { OnErr result (AppendsBeginning (O.contents out.old) (O.contents out.new) (update_lines (update_data update.now))) }
    ensures stops { IfErr result StopsWriting }
{
    let head = head_bytes(alloc, update)?;
    write_bytes(&head, out)?;
    write_nodes(alloc, &update.nodes, out)?;
    write_bytes(b"end\n", out)
}

/// Writes whether the host is focused.
fn host_bytes(is_host_focused: bool) -> &'static [u8]
    ensures { result.now ≡ host_line is_host_focused }
{
    if is_host_focused {
        b"host on\n"
    } else {
        b"host off\n"
    }
}

/// The line of a question.
fn question_bytes(alloc: Global, query: Query) -> Result<Vec<u8>, Stop>
    ensures line { IfOk result (λ line. line.items ≡ question_line query) }
    ensures stops { IfErr result (λ stop. stop ≡ stop_.Memory) }
{
    let mut line = Vec::new(alloc);
    match write_question(query, &mut line) {
        Ok(()) => Ok(line),
        Err(_) => Err(Stop::Memory),
    }
}

/// The line that begins an update.
fn head_bytes(alloc: Global, update: &TreeUpdate) -> Result<Vec<u8>, Stop>
    ensures line { IfOk result (λ line. line.items ≡ update_head (update_data update.now)) }
    ensures stops { IfErr result (λ stop. stop ≡ stop_.Memory) }
{
    let mut line = Vec::new(alloc);
    match write_head(update, &mut line) {
        Ok(()) => Ok(line),
        Err(_) => Err(Stop::Memory),
    }
}

/// The line of a node, in place of what these bytes were.
fn set_node_bytes(alloc: Global, id: NodeId, node: &Node, line: &mut Vec<u8>) -> Result<(), Stop>
    ensures line { OnOk result (line.new.items ≡ node_line id node.now) }
    ensures stops { IfErr result (λ stop. stop ≡ stop_.Memory) }
{
    line.clear();
    match write_node(alloc, id, node, line) {
        Ok(()) => Ok(()),
        Err(_) => Err(Stop::Memory),
    }
}

/// Writes the line that begins an update.
fn write_head<O: Write>(update: &TreeUpdate, out: &mut O) -> io::Result<()>
    ensures { OnOk result (Appends (O.contents out.old) (O.contents out.new) (update_head (update_data update.now))) }
{
    let tree = ShownTree(update.tree_id);
    let focus = update.focus;
    write!(out, "update {tree} focus={focus}")?;
    if let Some(info) = &update.tree {
        write_info(info, out)?;
    }
    out.write_all(b"\n")
}

/// Writes an update's tree info.
fn write_info<O: Write>(info: &TreeInfo, out: &mut O) -> io::Result<()>
    ensures { OnOk result (Appends (O.contents out.old) (O.contents out.new) (info_text (info_data info.now))) }
{
    let root = info.root;
    write!(out, " root={root}")?;
    write_quoted_field("toolkit", info.toolkit_name.as_deref(), out)?;
    write_quoted_field("version", info.toolkit_version.as_deref(), out)
}

/// Writes the lines of nodes.
fn write_nodes<O: Write>(alloc: Global, nodes: &[(NodeId, Node)], out: &mut O) -> Result<(), Stop>
    ensures written { OnOk result (Appends (O.contents out.old) (O.contents out.new) (flat_map entry_line nodes.now)) }
    ensures begun { OnErr result (AppendsBeginning (O.contents out.old) (O.contents out.new) (flat_map entry_line nodes.now)) }
    ensures stops { IfErr result StopsWriting }
{
    let mut line = Vec::new(alloc);
    for entry in nodes {
        set_node_bytes(alloc, entry.0, &entry.1, &mut line)?;
        write_bytes(&line, out)?;
    }
    Ok(())
}

/// Writes bytes. Where the output gives an error, a beginning of them is written.
fn write_bytes<O: Write>(bytes: &[u8], out: &mut O) -> Result<(), Stop>
    ensures written { OnOk result (Appends (O.contents out.old) (O.contents out.new) bytes.now) }
    ensures begun { OnErr result (AppendsBeginning (O.contents out.old) (O.contents out.new) bytes.now) }
    ensures stops { IfErr result (λ stop. stop ≡ stop_.WriteFault) }
{
    let mut written = 0;
    for _ in 0..u64::MAX {
        if written == bytes.len() {
            return Ok(());
        }
        match out.write(&bytes[written..]) {
            Ok(0) => break,
            Ok(count) => written += count,
            Err(error) if error.kind() == ErrorKind::Interrupted => {}
            Err(_) => break,
        }
    }
    Err(Stop::WriteFault)
}
