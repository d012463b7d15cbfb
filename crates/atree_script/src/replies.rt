//! Printing replies.
ghost use Rattle.std.specs.Prelude.{◌≡◌, OnOk, Some, flat_map, option_copied};
ghost use Rattle.std.specs.Io.KnownBytes.{Appends};
ghost use Rattle.script_words.specs.Quoted.{quoted_byte};
ghost use Rattle.atree_script.specs.Replies.{spaced_id, ids_line, found_line, count_text, set_line, text_line, position_line, reply_line};

use crate::printer::ShownId;
use crate::refusals::write_refusal;
use accesskit_consumer::node::FullNodeId;
use schema::TextPosition;
use script_lines::write_quoted;
use session::Reply;
use std::fmt;
use std::io::{self, Write};

/// Ids, each after a space.
#[derive(Clone, Copy)]
struct SpacedIds<'a>(&'a [FullNodeId]);

impl fmt::Display for SpacedIds<'_> {
    ghost output = { λ s. Some (flat_map spaced_id s.0.now) };

    fn fmt<W: fmt::Write>(&self, f: &mut fmt::Formatter<W>) -> fmt::Result {
        for id in self.0 {
            let id = ShownId(*id);
            write!(f, " {id}")?;
        }
        Ok(())
    }
}

/// A number, or `-` if there isn't one.
#[derive(Clone, Copy)]
struct ShownCount(Option<usize>);

impl fmt::Display for ShownCount {
    ghost output = { λ s. Some (count_text s.0) };

    fn fmt<W: fmt::Write>(&self, f: &mut fmt::Formatter<W>) -> fmt::Result {
        match self.0 {
            Some(count) => write!(f, "{count}"),
            None => f.write_str("-"),
        }
    }
}

/// Writes ids with one space between them, or `-` if there aren't any.
fn write_ids<O: Write>(ids: &[FullNodeId], out: &mut O) -> io::Result<()>
    ensures { OnOk result (Appends (O.contents out.old) (O.contents out.new) (ids_line ids.now)) }
{
    let Some((first, others)) = ids.split_first() else {
        return writeln!(out, "-");
    };
    let first = ShownId(*first);
    let others = SpacedIds(others);
    writeln!(out, "{first}{others}")
}

/// Writes the id, or `none`.
fn write_found<O: Write>(found: Option<FullNodeId>, out: &mut O) -> io::Result<()>
    ensures { OnOk result (Appends (O.contents out.old) (O.contents out.new) (found_line found)) }
{
    match found {
        Some(id) => {
            let id = ShownId(id);
            writeln!(out, "{id}")
        }
        None => writeln!(out, "none"),
    }
}

/// Writes the size of a set and the position in it, each as `-` if there isn't one.
fn write_set<O: Write>(size: Option<usize>, position: Option<usize>, out: &mut O) -> io::Result<()>
    ensures { OnOk result (Appends (O.contents out.old) (O.contents out.new) (set_line size position)) }
{
    let size = ShownCount(size);
    let position = ShownCount(position);
    writeln!(out, "{size} {position}")
}

/// Writes a text in quotes, or `none`. A quote, a backslash and a newline in it are written as `\"`, `\\` and `\n`.
pub fn write_text<O: Write>(text: Option<&str>, out: &mut O) -> io::Result<()>
    ensures { OnOk result (Appends (O.contents out.old) (O.contents out.new) (text_line (option_copied text.entry))) }
{
    let Some(text) = text else {
        return writeln!(out, "none");
    };
    out.write_all(b"\"")?;
    write_quoted(text.as_bytes(), out)?;
    out.write_all(b"\"\n")
}

/// Writes a position: the id of its run in its tree, and the index there; `none` if there isn't one.
fn write_position<O: Write>(position: Option<TextPosition>, out: &mut O) -> io::Result<()>
    ensures { OnOk result (Appends (O.contents out.old) (O.contents out.new) (position_line position)) }
{
    let Some(position) = position else {
        return writeln!(out, "none");
    };
    let node = position.node;
    let index = position.character_index;
    writeln!(out, "{node} {index}")
}

/// Writes a reply on a line.
pub(crate) fn write_reply<O: Write>(reply: &Reply, out: &mut O) -> io::Result<()>
    ensures { OnOk result (Appends (O.contents out.old) (O.contents out.new) (reply_line reply.now)) }
{
    match reply {
        Reply::Accepted => out.write_all(b"ok\n"),
        Reply::Refused(refusal) => write_refusal(*refusal, out),
        Reply::Ids(ids) => write_ids(ids, out),
        Reply::Text(text) => write_text(text.as_deref(), out),
        Reply::Set { size, position } => write_set(*size, *position, out),
        Reply::Node(node) => write_found(*node, out),
        Reply::Position(position) => write_position(*position, out),
        Reply::Indexes { usv, utf16, line } => writeln!(out, "{usv} {utf16} {line}"),
        Reply::NoNode => out.write_all(b"no node\n"),
        Reply::NotText => out.write_all(b"no text\n"),
    }
}
