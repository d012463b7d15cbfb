//! Writing queries.
ghost use Rattle.std.specs.Prelude.{OnOk, Some};
ghost use Rattle.std.specs.Io.KnownBytes.{Appends};
ghost use Rattle.script_lines.specs.Questions.{question_line, asked_line, asked_by_filter_line, hit_line, move_line, indexes_line, between_line};
ghost use Rattle.script_words.specs.Parts.{name_text, at_text, point_text};

use model::{At, Move, NamedFilter, NodeName, Query};
use schema::Point;
use script_words::called::{filter_name, move_name, side_name};
use script_words::write_parts::ShownTree;
use std::fmt;
use std::io::{self, Write};

/// A node's id and its tree's id.
#[derive(Clone, Copy)]
struct ShownName(NodeName);

impl fmt::Display for ShownName {
    ghost output = { λ n. Some (name_text n.0) };

    fn fmt<W: fmt::Write>(&self, f: &mut fmt::Formatter<W>) -> fmt::Result {
        let (node, tree) = self.0;
        let tree = ShownTree(tree);
        write!(f, "{node} {tree}")
    }
}

/// A position in a text: its index and its side.
#[derive(Clone, Copy)]
struct ShownAt(At);

impl fmt::Display for ShownAt {
    ghost output = { λ a. Some (at_text a.0) };

    fn fmt<W: fmt::Write>(&self, f: &mut fmt::Formatter<W>) -> fmt::Result {
        let index = self.0.index;
        let side = side_name(self.0.side);
        write!(f, "{index} {side}")
    }
}

/// A point, as `X Y`.
#[derive(Clone, Copy)]
struct ShownPoint(Point);

impl fmt::Display for ShownPoint {
    ghost output = { λ p. Some (point_text p.0) };

    #[tactic(auto, unfolding(script_words::specs::Parts::point_text))]
    fn fmt<W: fmt::Write>(&self, f: &mut fmt::Formatter<W>) -> fmt::Result {
        let x = self.0.x;
        let y = self.0.y;
        write!(f, "{x} {y}")
    }
}

/// Writes a query about a node.
fn write_asked<O: Write>(word: &str, name: NodeName, out: &mut O) -> io::Result<()>
    ensures { OnOk result (Appends (O.contents out.old) (O.contents out.new) (asked_line word.now name)) }
{
    let name = ShownName(name);
    writeln!(out, "{word} {name}")
}

/// Writes a query about a node with a filter.
fn write_asked_by_filter<O: Write>(
    word: &str,
    name: NodeName,
    filter: NamedFilter,
    out: &mut O,
) -> io::Result<()>
    ensures { OnOk result (Appends (O.contents out.old) (O.contents out.new) (asked_by_filter_line word.now name filter)) }
{
    let name = ShownName(name);
    let filter = filter_name(filter);
    writeln!(out, "{word} {name} {filter}")
}

/// Writes the query for the hit at a point.
fn write_hit<O: Write>(
    name: NodeName,
    point: Point,
    filter: NamedFilter,
    out: &mut O,
) -> io::Result<()>
    ensures { OnOk result (Appends (O.contents out.old) (O.contents out.new) (hit_line name point filter)) }
{
    let name = ShownName(name);
    let point = ShownPoint(point);
    let filter = filter_name(filter);
    writeln!(out, "hit {name} {point} {filter}")
}

/// Writes the query for a caret movement.
fn write_move<O: Write>(name: NodeName, at: At, movement: Move, out: &mut O) -> io::Result<()>
    ensures { OnOk result (Appends (O.contents out.old) (O.contents out.new) (move_line name at movement)) }
{
    let name = ShownName(name);
    let at = ShownAt(at);
    let movement = move_name(movement);
    writeln!(out, "move {name} {at} {movement}")
}

/// Writes the query for the indexes of a position.
fn write_indexes<O: Write>(name: NodeName, at: At, out: &mut O) -> io::Result<()>
    ensures { OnOk result (Appends (O.contents out.old) (O.contents out.new) (indexes_line name at)) }
{
    let name = ShownName(name);
    let at = ShownAt(at);
    writeln!(out, "indexes {name} {at}")
}

/// Writes the query for the text between two positions.
fn write_between<O: Write>(name: NodeName, from: At, to: At, out: &mut O) -> io::Result<()>
    ensures { OnOk result (Appends (O.contents out.old) (O.contents out.new) (between_line name from to)) }
{
    let name = ShownName(name);
    let from = ShownAt(from);
    let to = ShownAt(to);
    writeln!(out, "between {name} {from} {to}")
}

/// Writes a query on a line.
pub(crate) fn write_question<O: Write>(query: Query, out: &mut O) -> io::Result<()>
    ensures { OnOk result (Appends (O.contents out.old) (O.contents out.new) (question_line query)) }
{
    match query {
        Query::Children(name) => write_asked("children", name, out),
        Query::FollowingSiblings(name) => write_asked("following", name, out),
        Query::PrecedingSiblings(name) => write_asked("preceding", name, out),
        Query::FilteredChildren(name, filter) => {
            write_asked_by_filter("filtered", name, filter, out)
        }
        Query::FollowingFiltered(name, filter) => {
            write_asked_by_filter("following_filtered", name, filter, out)
        }
        Query::PrecedingFiltered(name, filter) => {
            write_asked_by_filter("preceding_filtered", name, filter, out)
        }
        Query::Label(name) => write_asked("label", name, out),
        Query::Value(name) => write_asked("value", name, out),
        Query::Set(name, filter) => write_asked_by_filter("set", name, filter, out),
        Query::Text(name) => write_asked("text", name, out),
        Query::Hit(name, point, filter) => write_hit(name, point, filter, out),
        Query::Focus => out.write_all(b"focus\n"),
        Query::Move(name, at, movement) => write_move(name, at, movement, out),
        Query::Indexes(name, at) => write_indexes(name, at, out),
        Query::RangeText(name, from, to) => write_between(name, from, to, out),
    }
}
