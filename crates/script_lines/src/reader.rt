//! Reading a script's commands from its input, line by line.

ghost use Rattle.std.specs.Prelude.{◌≡◌, ◌≢◌, ◌++◌, ◌∷◌, [], All, Err, IfSome, List, MatchOption, None, Ok, OnOk, Some, is_some};
ghost use Rattle.line_faults.specs.Faults.{Explains};
ghost use Rattle.schema.specs.UpdateData.{update_data};
ghost use Rattle.script_lines.specs.Commands.{Said};
ghost use Rattle.script_lines.specs.declared.lines.Line.TheVariants as says;
ghost use Rattle.script_lines.specs.Comments.{comment_after};
ghost use Rattle.script_words.specs.Reading.{Reads};
ghost use Rattle.script_lines.specs.ReadingBack.{IsSaid, ReadsBack, script_text};
ghost use Rattle.script_lines.specs.ScriptReading.{GoesTo, IsPlace, Place, ReadsTo, place};
ghost use Rattle.script_lines.specs.Taking.{FaultHasCause, IsNodeLine, TakesAs, begun_of, comment_of, failures_of, last_line, number_of, taken};
ghost use Rattle.script_words.specs.declared.stops.Stop.TheVariants as stop_;

use crate::comments::add_line;
use crate::line_reader::{LineReader, without_end_of_line};
use crate::lines::Line;
use line_faults::{LineFault, explain, input_ended};
use model::Query;
use schema::{Node, NodeId, TreeUpdate};
use script_words::stops::Stop;
use std::alloc::Global;
use std::io::BufRead;

/// A whole command, from one line or several.
#[derive(Drop)]
pub enum ScriptCommand {
    /// Send this update, whose nodes and end were on further lines.
    Update(TreeUpdate),
    /// Set whether the host is focused.
    HostFocus(bool),
    /// Print the tree.
    Print,
    /// Answer this query.
    Query(Query),
}

/// A script, read up to some line.
#[derive(Drop)]
pub struct ScriptReader {
    lines: LineReader,
    /// The update whose nodes are being read, if any.
    begun: Option<TreeUpdate>,
    /// The comment before the next command, or before the last one if no line was read since.
    comment: Vec<u8>,
}

impl ScriptReader {
    /// A script of which nothing has been read.
    pub fn new(alloc: Global) -> ScriptReader
        ensures begun { begun_of result ≡ None }
        ensures comment { comment_of result ≡ [] }
        ensures number { number_of result ≡ 0 }
        ensures failures { failures_of result ≡ 0 }
    {
        ScriptReader {
            lines: LineReader::new(alloc),
            begun: None,
            comment: Vec::new(alloc),
        }
    }

    /// The comment before the last command: the texts of the comment lines right before it, with one space between them. An empty
    /// line ends a comment, so what is before it is left out, and so are comments inside of an update.
    ///
    /// A comment's text comes after the signs `#` that begin its line, and has no white space around it. It is UTF-8.
    pub fn comment(&self) -> &[u8]
        ensures { result.now ≡ comment_of self.now }
    {
        &self.comment
    }

    /// The number of the last line that was read, counted from 1; 0 before there is one.
    pub fn line_number(&self) -> u64
        ensures { result ≡ number_of self.now }
    {
        self.lines.number
    }

    /// How often the input gave an error.
    pub fn input_failures(&self) -> u64
        ensures { result ≡ failures_of self.now }
    {
        self.lines.looks.failures
    }

    /// The last line that was read, without its line end; empty at the end of the input.
    pub fn last_line(&self) -> &[u8]
        ensures { result.now ≡ last_line self.now }
    {
        without_end_of_line(&self.lines.bytes)
    }

    /// What is wrong in the last line, if it was refused as a bad line.
    ///
    /// A field with an unknown name and an unknown role come before other faults of the line. At the end of the input, the
    /// fault is that it ends inside an update.
    pub fn fault(&self) -> LineFault
        ensures { Explains (is_some self.now.begun) (last_line self.now) result }
    {
        let line = self.last_line();
        if line.is_empty() {
            return input_ended();
        }
        explain(line, self.begun.is_some())
    }

    /// Reads the next command and returns it; `None` at the end of the input.
    ///
    /// # Errors
    ///
    /// Returns `Stop` if a line is malformed or out of place, if the input ends inside an update or has an error, or if
    /// memory runs out. Nothing more can be read then. [`ScriptReader::fault`] says what is wrong in a bad line.
    /// `Stop::ReadFault` is for an error of the input alone, which [`ScriptReader::input_failures`] counts, or for an input of
    /// 2⁶⁴ − 1 lines, or of as many parts of one line.
    pub fn next_command<R: BufRead>(&mut self, input: &mut R) -> Result<Option<ScriptCommand>, Stop>
        ensures reads { IfSome (R.remaining input.old)
            (λ bytes. (next : Place) × ReadsTo (place self.old bytes) result next × IsPlace next result self.new (R.remaining input.new)) }
        ensures whole { OnOk result (begun_of self.new ≡ None) }
        ensures reads_back { (commands : List Said) → All IsSaid commands → begun_of self.old ≡ None →
            R.remaining input.old ≡ Some (script_text commands) → ReadsBack commands result (R.remaining input.new) }
        ensures fault { result ≡ Err stop_.ReadFault → FaultHasCause self.old self.new }
    {
        self.comment.clear();
        self.read_on(input)
    }

    /// Reads lines up to the next command, whose comment may have begun.
    fn read_on<R: BufRead>(&mut self, input: &mut R) -> Result<Option<ScriptCommand>, Stop>
        ensures reads { IfSome (R.remaining input.old)
            (λ bytes. (next : Place) × GoesTo (place self.old bytes) result next × IsPlace next result self.new (R.remaining input.new)) }
        ensures whole { OnOk result (begun_of self.new ≡ None) }
        ensures reads_back { (commands : List Said) → All IsSaid commands → begun_of self.old ≡ None →
            R.remaining input.old ≡ Some (script_text commands) → ReadsBack commands result (R.remaining input.new) }
        ensures fault { result ≡ Err stop_.ReadFault → FaultHasCause self.old self.new }
    {
        'reading: while self.lines.number < u64::MAX {
            let Some(line) = self.lines.next(input)? else {
                return self.end();
            };
            self.note_comment()?;
            if let Some(command) = self.take(line)? {
                return Ok(Some(command));
            }
        }
        Err(Stop::ReadFault)
    }

    /// The end of the input, which is not in place inside an update.
    fn end(&self) -> Result<Option<ScriptCommand>, Stop>
        ensures { MatchOption (begun_of self.now) (result ≡ Ok None) (λ _. result ≡ Err stop_.BadLine) }
    {
        match self.begun {
            Some(_) => Err(Stop::BadLine),
            None => Ok(None),
        }
    }

    /// Keeps what the last line is to the comment before the next command.
    fn note_comment(&mut self) -> Result<(), Stop>
        ensures noted { Reads result (λ _. comment_of self.new
            ≡ comment_after (begun_of self.old) (comment_of self.old) (last_line self.old)) }
        ensures lines { self.new.lines ≡ self.old.lines }
        ensures begun { self.new.begun ≡ self.old.begun }
    {
        if self.begun.is_some() {
            return Ok(());
        }
        add_line(&mut self.comment, without_end_of_line(&self.lines.bytes))
    }

    /// The command that a line completes, if it does. Inside an update only its nodes and its end are allowed.
    fn take(&mut self, line: Line) -> Result<Option<ScriptCommand>, Stop>
        ensures takes { TakesAs (taken (begun_of self.old) line) result (begun_of self.new) }
        ensures memory { result ≡ Err stop_.Memory → IsNodeLine line }
        ensures lines { self.new.lines ≡ self.old.lines }
        ensures comment { self.new.comment ≡ self.old.comment }
    {
        match line {
            Line::Nothing => Ok(None),
            Line::Node(id, node) => self.take_node(id, node),
            Line::End => self.take_end(),
            _ if self.begun.is_some() => Err(Stop::BadLine),
            Line::Update(update) => {
                self.begun = Some(update);
                Ok(None)
            }
            Line::HostFocus(is_host_focused) => Ok(Some(ScriptCommand::HostFocus(is_host_focused))),
            Line::Print => Ok(Some(ScriptCommand::Print)),
            Line::Query(query) => Ok(Some(ScriptCommand::Query(query))),
        }
    }

    /// Adds the node of a line to the update that is begun.
    fn take_node(&mut self, id: NodeId, node: Node) -> Result<Option<ScriptCommand>, Stop>
        ensures takes { TakesAs (taken (begun_of self.old) (says.Node id node)) result (begun_of self.new) }
        ensures lines { self.new.lines ≡ self.old.lines }
        ensures comment { self.new.comment ≡ self.old.comment }
    {
        let Some(update) = self.begun.take() else {
            return Err(Stop::BadLine);
        };
        self.begun = Some(with_node(update, id, node)?);
        Ok(None)
    }

    /// The update that is begun, which the line ends.
    fn take_end(&mut self) -> Result<Option<ScriptCommand>, Stop>
        ensures takes { TakesAs (taken (begun_of self.old) says.End) result (begun_of self.new) }
        ensures memory { result ≢ Err stop_.Memory }
        ensures lines { self.new.lines ≡ self.old.lines }
        ensures comment { self.new.comment ≡ self.old.comment }
    {
        let Some(update) = self.begun.take() else {
            return Err(Stop::BadLine);
        };
        Ok(Some(ScriptCommand::Update(update)))
    }
}

/// The update with one more node.
fn with_node(mut update: TreeUpdate, id: NodeId, node: Node) -> Result<TreeUpdate, Stop>
    ensures { Reads result (λ more. update_data more ≡ record (update_data update) { nodes = update.nodes.items ++ (id, node) ∷ [] }) }
{
    update.nodes.push((id, node))?;
    Ok(update)
}
