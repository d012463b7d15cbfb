//! The lines of a script.

ghost use Rattle.std.specs.Prelude.{◌≡◌, ◌≢◌, ◌↔◌, IsTrue, Ok, codes};
ghost use Rattle.script_lines.specs.InputLines.{IsBlank};
ghost use Rattle.script_lines.specs.HeadMeaning.{ReadsUpdate, update_means};
ghost use Rattle.script_lines.specs.LineMeaning.{ReadsPlain, host_means, is_blank, plain_means};
ghost use Rattle.script_lines.specs.LineReading.{BeginsUpdate};
ghost use Rattle.script_lines.specs.NodeMeaning.{IsNodeLine, ReadsNode};
ghost use Rattle.script_nodes.specs.FieldMeaning.{node_means};
ghost use Rattle.script_words.specs.Meaning.{Answers, Gives};
ghost use Rattle.script_words.specs.Reading.{unread};
ghost use Rattle.script_lines.specs.declared.lines.Line.TheVariants as says;

use crate::heads::update_line;
use crate::questions::question;
use model::Query;
use schema::{Node, NodeId, TreeUpdate};
use script_nodes::node_line;
use script_words::stops::Stop;
use script_words::words::Words;
use std::alloc::Global;

/// The meaning of a line.
#[derive(Drop)]
pub(crate) enum Line {
    /// An empty line or a comment.
    Nothing,
    /// Begins an update, still without nodes.
    Update(TreeUpdate),
    /// A node of the update.
    Node(NodeId, Node),
    /// Ends the update and sends it.
    End,
    /// Sets whether the host is focused.
    HostFocus(bool),
    /// Prints the tree.
    Print,
    /// Asks a query.
    Query(Query),
}

/// Reads a line, without its line end.
pub(crate) fn read_line(alloc: Global, line: &str) -> Result<Line, Stop>
    ensures nothing { (result ≡ Ok says.Nothing) ↔ IsBlank line.now }
    ensures node { ReadsNode line.now result }
    ensures means { ReadsPlain line.now result }
    ensures update { ReadsUpdate line.now result }
{
    if says_nothing(line) {
        return Ok(Line::Nothing);
    }
    let mut words = Words { rest: Some(line) };
    let word = words.word()?;
    line_by_word(alloc, word, words)
}

/// Whether the line is empty or a comment.
fn says_nothing(line: &str) -> bool
    ensures exact { IsTrue result ↔ IsBlank line.now }
    ensures blank { result ≡ is_blank line.now }
{
    line.is_empty() || line.starts_with('#')
}

/// The line that begins with this word, from the next word on.
fn line_by_word(alloc: Global, word: &str, words: Words) -> Result<Line, Stop>
    ensures something { result ≢ Ok says.Nothing }
    ensures node { word.now ≡ codes "node" → Answers (node_means (unread words.entry)) result IsNodeLine }
    ensures means { word.now ≢ codes "update" → word.now ≢ codes "node" → Gives (plain_means word.now (unread words.entry)) result }
    ensures update { word.now ≡ codes "update" → Answers (update_means (unread words.entry)) result BeginsUpdate }
{
    match word {
        "update" => Ok(Line::Update(update_line(alloc, words)?)),
        "node" => {
            let (id, node) = node_line(alloc, words)?;
            Ok(Line::Node(id, node))
        }
        "host" => host_line(words),
        "end" => {
            words.end()?;
            Ok(Line::End)
        }
        "print" => {
            words.end()?;
            Ok(Line::Print)
        }
        asking => Ok(Line::Query(question(asking, words)?)),
    }
}

/// `host on` or `host off`, from the second word on.
fn host_line(mut words: Words) -> Result<Line, Stop>
    ensures something { result ≢ Ok says.Nothing }
    ensures means { Gives (host_means (unread words.entry)) result }
{
    match words.last_word()? {
        "on" => Ok(Line::HostFocus(true)),
        "off" => Ok(Line::HostFocus(false)),
        _ => Err(Stop::BadLine),
    }
}
