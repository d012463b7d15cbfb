//! The range of a line.
ghost use Rattle.std.specs.Prelude.{◌≡◌, ◌≤◌, ◌<◌, ◌+◌, ◌-◌, true, nat_lt, Some, None, length, slice_get, if◌then◌else◌};
ghost use Rattle.model.specs.TextRuns.{supports_text_ranges};
ghost use Rattle.model.specs.FlatText.{total, start_of, start_at, end_at, document_end, lines};
ghost use Rattle.views.specs.Nodes.{world_at, id_at};
ghost use Rattle.texts.specs.Positions.{node_text};
ghost use Rattle.views.specs.Runs.{text_root_of, run_world, root_id};
ghost use Rattle.text_boundaries.specs.RunNumbers.{number_in, text_around};
ghost use Rattle.texts.specs.LineWalks.{IsLineStep};
ghost use Rattle.texts.specs.TextRanges.{IsRangeOf};
ghost use Rattle.texts.specs.FoundRanges.{IsRangeFound, range_of_line};

use crate::ends::document_end;
use crate::position::TextPosition;
use crate::range::TextRange;
use text_boundaries::{Mark, ends_line, last_of};
use views::NodeRef;
use views::runs::Run;

/// The range from the start of a run to the end of another one that isn't before it.
pub(crate) fn range_to<'a>(first: Run<'a>, last: Run<'a>) -> TextRange<'a>
    requires text { supports_text_ranges (run_world first) (root_id first) ≡ true }
    requires same { text_root_of last ≡ text_root_of first }
    requires order { number_in first ≤ number_in last }
    ensures { let start = start_at (number_in first.entry) in
        let end = end_at (text_around first.entry) (number_in last.entry) in
        IsRangeOf (run_world first.entry) (root_id first.entry) (record { start = start; end = end }) result }
{
    let start = TextPosition {
        run: first,
        index: 0,
    };
    let end = TextPosition {
        run: last,
        index: last.character_count(),
    };
    TextRange::over(start, end)
}

/// The caret past the last line, which begins with this run; `None` if that line is empty.
fn caret_past<'a>(run: Run<'a>) -> Option<TextRange<'a>>
    requires text { supports_text_ranges (run_world run) (root_id run) ≡ true }
    ensures { let t = text_around run.entry in
        IsRangeFound (run_world run.entry) (root_id run.entry)
        (if nat_lt (start_of t (number_in run.entry)) (total t)
        then Some (record { start = document_end t; end = document_end t }) else None) result }
{
    if run.character_count() == 0 {
        return None;
    }
    Some(document_end(run.root()).to_degenerate_range())
}

/// The answer for a line number past the last line, which begins with this run: given the number of that line and a
/// number above it.
pub(crate) fn range_past<'a>(run: Run<'a>, line: usize, index: usize) -> Option<TextRange<'a>>
    requires text { supports_text_ranges (run_world run) (root_id run) ≡ true }
    requires size { length (lines (text_around run)) ≡ line + 1 }
    requires last { let t = text_around run in
        slice_get (lines t) line ≡ Some (number_in run, length t - 1) }
    requires past { line < index }
    ensures { let range = range_of_line (text_around run.entry) index in
        IsRangeFound (run_world run.entry) (root_id run.entry) range result }
{
    if line < 1 {
        return None;
    }
    if line + 1 < index {
        return None;
    }
    caret_past(run)
}

/// Goes on to the first run of the next line, and returns whether there is one; if not, it has gone to the last run.
fn step_line(run: &mut Run<'_>) -> bool
    requires { supports_text_ranges (run_world run.old) (root_id run.old) ≡ true }
    ensures { IsLineStep result run.old run.new }
{
    loop {
        let ends = ends_line(*run);
        if !run.step() {
            return false;
        }
        if ends {
            return true;
        }
    }
}

/// The range of a line of a node's text, by its number from 0. Requires that the node supports text ranges.
pub(crate) fn line_range_of<'a>(root: NodeRef<'a>, index: usize) -> Option<TextRange<'a>>
    requires { supports_text_ranges (world_at root) (id_at root) ≡ true }
    ensures { let range = range_of_line (node_text root.entry) index in
        IsRangeFound (world_at root.entry) (id_at root.entry) range result }
{
    let mut first = Run::first(root).unwrap();
    let mut line = 0usize;
    loop {
        if line >= index {
            return Some(range_to(first, last_of(first, Mark::Line)));
        }
        let mut next = first;
        if !step_line(&mut next) {
            return range_past(first, line, index);
        }
        line += 1;
        first = next;
    }
}
