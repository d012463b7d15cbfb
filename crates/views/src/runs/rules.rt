//! What is wrong with a run of a text, by itself and beside the next one.
ghost use Rattle.std.specs.Prelude.{◌≡◌, Some, None};
ghost use Rattle.model.specs.TextRuns.{is_enough as is_enough_for};
ghost use Rattle.views.specs.Runs.{sent_as};
ghost use Rattle.views.specs.TextDefects.{at_run, back_defect, metrics_defect, onward_defect, own_defect};
ghost use Rattle.views.specs.DefectWalks.{defect_between};

use crate::runs::defects::{RunDefect, TextDefect};
use crate::walks::spot::Member;

/// Whether there are enough numbers for the characters: one for each, or for a password at least one.
fn is_enough(password: bool, count: usize, given: usize) -> bool
    ensures { result ≡ is_enough_for password count given }
{
    let least = if password { count.min(1) } else { count };
    given <= count && least <= given
}

/// What is wrong with the numbers of a run's positions and widths, if it has any.
fn metrics_defect(run: Member<'_>, password: bool) -> Option<RunDefect>
    ensures { result ≡ metrics_defect password (sent_as run.entry) }
{
    let count = run.character_count();
    if let Some(positions) = run.node.character_positions() {
        if !is_enough(password, count, positions.len()) {
            return Some(RunDefect::CharacterPositions);
        }
    }
    if let Some(widths) = run.node.character_widths() {
        if !is_enough(password, count, widths.len()) {
            return Some(RunDefect::CharacterWidths);
        }
    }
    None
}

/// What is wrong with the run itself.
pub(crate) fn own_defect(run: Member<'_>, tree: u32, password: bool) -> Option<RunDefect>
    ensures { result ≡ own_defect tree password (sent_as run.entry) }
{
    if run.id.tree != tree {
        return Some(RunDefect::Tree);
    }
    if run.node.is_known_to_fit() {
        return None;
    }
    if !run.node.has_fitting_lengths() {
        return Some(RunDefect::CharacterLengths);
    }
    if !run.node.has_rising_word_starts() {
        return Some(RunDefect::WordStarts);
    }
    metrics_defect(run, password)
}

/// What is wrong with the link of a run to the next one.
fn onward_defect(run: Member<'_>, next: Member<'_>) -> Option<RunDefect>
    ensures { result ≡ onward_defect (sent_as run.entry) (Some (sent_as next.entry)) }
{
    let link = run.node.next_on_line()?;
    if link.0 != next.id.node.0 {
        return Some(RunDefect::NextLink(link));
    }
    match next.node.previous_on_line() {
        Some(_) => None,
        None => Some(RunDefect::NextUnanswered),
    }
}

/// What is wrong with the link of a run to the one before it.
fn back_defect(previous: Member<'_>, run: Member<'_>) -> Option<RunDefect>
    ensures { result ≡ back_defect (Some (sent_as previous.entry)) (sent_as run.entry) }
{
    let link = run.node.previous_on_line()?;
    if link.0 != previous.id.node.0 {
        return Some(RunDefect::PreviousLink(link));
    }
    match previous.node.next_on_line() {
        Some(_) => None,
        None => Some(RunDefect::PreviousUnanswered),
    }
}

/// What is wrong between two neighbours.
pub(crate) fn defect_between(a: Member<'_>, b: Member<'_>) -> Option<TextDefect>
    ensures { result ≡ defect_between (sent_as a.entry) (sent_as b.entry) }
{
    if a.character_count() == 0 {
        return Some(TextDefect::Run {
            id: a.id,
            defect: RunDefect::Empty,
        });
    }
    if let Some(defect) = onward_defect(a, b) {
        return Some(TextDefect::Run { id: a.id, defect });
    }
    match back_defect(a, b) {
        Some(defect) => Some(TextDefect::Run { id: b.id, defect }),
        None => None,
    }
}

/// What is wrong with the last run, after which no run comes.
pub(crate) fn last_defect(run: Member<'_>) -> Option<TextDefect>
    ensures { result ≡ at_run (sent_as run.entry) (onward_defect (sent_as run.entry) None) }
{
    match run.node.next_on_line() {
        Some(link) => Some(TextDefect::Run {
            id: run.id,
            defect: RunDefect::NextLink(link),
        }),
        None => None,
    }
}
