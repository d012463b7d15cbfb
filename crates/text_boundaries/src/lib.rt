//! Where lines and paragraphs of a text begin and end, by a run and its neighbours.
#![tactic(auto)]

ghost use Rattle.std.specs.Prelude.{◌≡◌, ◌+◌, ◌==◌, true, Some, length};
ghost use Rattle.model.specs.TextRuns.{supports_text_ranges};
ghost use Rattle.model.specs.FlatText.{first_run, last_run, begins_line, ends_line, begins_paragraph, ends_paragraph, closes_paragraph};
ghost use Rattle.views.specs.Runs.{text_root_of, run_world, root_id, IsAfter};
ghost use Rattle.text_boundaries.specs.RunNumbers.{number_in, text_around};
ghost use Rattle.text_boundaries.specs.Marks.{begins_at, ends_at, closes_at};

use views::runs::Run;

/// A part of a text that consists of whole runs.
#[derive(Clone, Copy)]
pub enum Mark {
    /// A line.
    Line,
    /// A paragraph: it ends with a newline, or with the text.
    Paragraph,
}

/// Whether a line ends with the run.
pub fn ends_line(run: Run<'_>) -> bool
    ensures { result ≡ ends_line (text_around run.entry) (number_in run.entry) }
{
    run.node().next_on_line().is_none()
}

/// Whether a line ends with the run, by a newline.
pub fn closes_paragraph(run: Run<'_>) -> bool
    ensures { result ≡ closes_paragraph (text_around run.entry) (number_in run.entry) }
{
    ends_line(run) && run.ends_with_newline()
}

/// Whether a line begins with the run.
pub fn begins_line(run: Run<'_>) -> bool
    ensures { result ≡ begins_line (text_around run.entry) (number_in run.entry) }
{
    run.node().previous_on_line().is_none()
}

/// Whether it is the first run.
pub fn is_first(run: Run<'_>) -> bool
    ensures { result ≡ (number_in run.entry == 0) }
{
    let Some(_previous) = run.previous() else {
        return true;
    };
    false
}

/// Whether it is the last run.
pub fn is_last(run: Run<'_>) -> bool
    ensures { result ≡ (number_in run.entry + 1 == length (text_around run.entry)) }
{
    let Some(_next) = run.next() else {
        return true;
    };
    false
}

/// Whether a paragraph begins with the run.
pub fn begins_paragraph(run: Run<'_>) -> bool
    ensures { result ≡ begins_paragraph (text_around run.entry) (number_in run.entry) }
{
    let Some(previous) = run.previous() else {
        return true;
    };
    begins_after(run, Mark::Paragraph, previous)
}

/// Whether a paragraph ends with the run.
pub fn ends_paragraph(run: Run<'_>) -> bool
    ensures { result ≡ ends_paragraph (text_around run.entry) (number_in run.entry) }
{
    is_last(run) || closes_paragraph(run)
}

/// Whether the run itself ends a line or a paragraph.
fn closes(run: Run<'_>, mark: Mark) -> bool
    ensures { result ≡ closes_at mark (text_around run.entry) (number_in run.entry) }
{
    match mark {
        Mark::Line => ends_line(run),
        Mark::Paragraph => closes_paragraph(run),
    }
}

/// Whether a line or a paragraph begins with the run, which follows another one.
pub fn begins_after<'a>(run: Run<'a>, mark: Mark, previous: Run<'a>) -> bool
    requires { IsAfter previous run }
    ensures { result ≡ begins_at mark (text_around run.entry) (number_in run.entry) }
{
    match mark {
        Mark::Line => begins_line(run),
        Mark::Paragraph => closes_paragraph(previous),
    }
}

/// The first run, from this one on, that ends a line or a paragraph.
#[inline(always)]
pub fn last_of<'a>(start: Run<'a>, mark: Mark) -> Run<'a>
    requires { supports_text_ranges (run_world start) (root_id start) ≡ true }
    ensures same { text_root_of result ≡ text_root_of start.entry }
    ensures found { let t = text_around start.entry in
        first_run t (number_in start.entry) (ends_at mark t) ≡ Some (number_in result) }
{
    let mut run = start;
    loop {
        if closes(run, mark) {
            return run;
        }
        if !run.step() {
            return run;
        }
    }
}

/// The last run, up to this one, that begins a line or a paragraph.
pub fn first_of<'a>(start: Run<'a>, mark: Mark) -> Run<'a>
    requires { supports_text_ranges (run_world start) (root_id start) ≡ true }
    ensures same { text_root_of result ≡ text_root_of start.entry }
    ensures found { let t = text_around start.entry in
        last_run t (number_in start.entry + 1) (begins_at mark t) ≡ Some (number_in result) }
{
    let mut run = start;
    loop {
        let Some(previous) = run.previous() else {
            return run;
        };
        if begins_after(run, mark, previous) {
            return run;
        }
        run = previous;
    }
}
