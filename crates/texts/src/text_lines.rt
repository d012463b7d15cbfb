//! The lines of a text by their numbers, with each search continuing from the last line found.
ghost use Rattle.std.specs.Prelude.{◌≡◌, ◌+◌, ◌<◌, true, option_map};
ghost use Rattle.model.specs.TextRuns.{supports_text_ranges};
ghost use Rattle.views.specs.Nodes.{world_at, id_at};
ghost use Rattle.views.specs.RunPlaces.{IsRunPlace, IsRunPlace-prop};
ghost use Rattle.views.specs.Runs.{text_root_of, run_world, root_id};
ghost use Rattle.texts.specs.TextRoots.{HasText, HasText-prop};
ghost use Rattle.text_boundaries.specs.RunNumbers.{number_in, text_around};
ghost use Rattle.texts.specs.Positions.{node_text};
ghost use Rattle.texts.specs.Lines.{number_at, BeginsLine, BeginsLine-prop, EndsLine, EndsLine-prop};
ghost use Rattle.texts.specs.TextRanges.{range_at};
ghost use Rattle.texts.specs.FoundRanges.{IsRangeFound, range_of_line};
ghost use Rattle.texts.specs.Secrets.{InEachText};

use crate::line_ranges::{range_past, range_to};
use crate::range::TextRange;
use text_boundaries::{Mark, last_of};
use views::NodeRef;
use views::runs::Run;
use views::walks::spot::Spot;

/// The lines of a node's text, by their numbers from 0.
///
/// A search for a line continues from the line found last, unless the line comes before that one. So reading the ranges
/// of lines in order takes as long as one walk through the text.
#[derive(Clone, Copy)]
pub struct TextLines<'a> {
    root: NodeRef<'a>,
    line: usize,
    first: Spot<'a>,
    last: Spot<'a>,
    ghost text: { HasText root } by { HasText-prop root },
    ghost starts: { IsRunPlace (world_at root) (id_at root) first } by { IsRunPlace-prop (world_at root) (id_at root) first },
    ghost ends: { IsRunPlace (world_at root) (id_at root) last } by { IsRunPlace-prop (world_at root) (id_at root) last },
    ghost begins_line: { BeginsLine (node_text root) line (number_at root first) } by { BeginsLine-prop (node_text root) line (number_at root first) },
    ghost ends_line: { EndsLine (node_text root) (number_at root first) (number_at root last) } by { EndsLine-prop (node_text root) (number_at root first) (number_at root last) },
}

impl<'a> TextLines<'a> {
    ghost use Rattle.texts.specs.LineWalks.{lines_root, IsAtLastLine, IsNearest};

    /// The lines of a node's text. The first search starts at the first line. Requires that the node supports text
    /// ranges.
    pub(crate) fn new(root: NodeRef<'a>) -> TextLines<'a>
        requires { supports_text_ranges (world_at root) (id_at root) ≡ true }
        ensures { lines_root result ≡ root.entry }
    {
        TextLines::first_line(root)
    }

    /// The node that has the text.
    pub fn node(&self) -> NodeRef<'a>
        ensures { result ≡ lines_root self.now }
    {
        self.root
    }

    /// The range of a line by its number.
    ///
    /// If there are several lines and the last one isn't empty, there is one more line after it, for the caret at the
    /// end. The result equals that of [`crate::TextPlaces::line_range_from_index`].
    #[tactic(auto, using(model::proofs::Text::Secrets::one_text))]
    pub fn line(&mut self, index: usize) -> Option<TextRange<'a>>
        ensures same { lines_root self.new ≡ lines_root self.old }
        ensures found { let root = lines_root self.old in let range = range_of_line (node_text root) index in
            IsRangeFound (world_at root) (id_at root) range result }
        ensures secret { InEachText (lines_root self.old) (λ t. option_map range_at result ≡ range_of_line t index) }
    {
        let found = self.nearest(index);
        *self = found;
        found.range(index)
    }

    /// The first line of a node's text. Requires that the node supports text ranges.
    fn first_line(root: NodeRef<'a>) -> TextLines<'a>
        requires { supports_text_ranges (world_at root) (id_at root) ≡ true }
        ensures root { lines_root result ≡ root.entry }
        ensures line { result.line ≡ 0 }
    {
        TextLines::beginning(Run::first(root).unwrap(), 0)
    }

    /// The line with this number, which begins with this run.
    fn beginning(first: Run<'a>, line: usize) -> TextLines<'a>
        requires text { supports_text_ranges (run_world first) (root_id first) ≡ true }
        requires begins { BeginsLine (text_around first) line (number_in first) }
        ensures root { lines_root result ≡ text_root_of first.entry }
        ensures line { result.line ≡ line }
    {
        let last = last_of(first, Mark::Line);
        TextLines {
            root: first.root,
            line,
            first: first.spot,
            last: last.spot,
        }
    }

    /// The line with this number, or the last one if there are fewer lines.
    fn nearest(self, index: usize) -> TextLines<'a>
        ensures same { lines_root result ≡ lines_root self.entry }
        ensures near { IsNearest index result }
    {
        let mut found = if index < self.line {
            TextLines::first_line(self.root)
        } else {
            self
        };
        while found.line < index {
            let Some(next) = run_at(found.root, found.last).next() else {
                return found;
            };
            found = TextLines::beginning(next, found.line + 1);
        }
        found
    }

    /// The range of the line with this number, which is the line found, or is past it and the line found is the last
    /// one.
    fn range(self, index: usize) -> Option<TextRange<'a>>
        requires { IsNearest index self }
        ensures { let root = lines_root self.entry in let range = range_of_line (node_text root) index in
            IsRangeFound (world_at root) (id_at root) range result }
    {
        if self.line < index {
            return range_past(run_at(self.root, self.first), self.line, index);
        }
        let first = run_at(self.root, self.first);
        let last = run_at(self.root, self.last);
        Some(range_to(first, last))
    }
}

/// The run of a root's text at a place.
fn run_at<'a>(root: NodeRef<'a>, spot: Spot<'a>) -> Run<'a>
    requires { IsRunPlace (world_at root) (id_at root) spot }
    ensures root { text_root_of result ≡ root.entry }
    ensures spot { result.spot ≡ spot.entry }
{
    Run { root, spot }
}
