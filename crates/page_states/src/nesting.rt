//! How many lists of an outline, or groups of a picture, hold a row, and how those are ended that don't hold the next one.
ghost use Rattle.std.specs.Prelude.{◌≡◌, OnOk};
ghost use Rattle.std.specs.Io.KnownBytes.{Appends};
ghost use Rattle.page_states.specs.Nesting.{folds, levels_after, times, within};

use crate::again::Way;
use crate::rows::Row;
use std::io::{self, Write};

/// The greatest number of lists, or of groups, in one another. Browsers keep no more than some hundred elements in one another.
pub(crate) const MOST_LISTS: usize = 100;

/// The number of lists that hold a row.
pub(crate) fn within(row: &Row) -> usize
    ensures { result ≡ within row.now }
{
    row.shown.place.depth.min(MOST_LISTS)
}

/// Whether a row begins a list, of the rows of its children.
pub(crate) fn folds(row: &Row) -> bool
    ensures { result ≡ folds row.now }
{
    within(row) < MOST_LISTS && !row.shown.look.children.is_empty()
}

/// The number of lists that are begun after a row that is shown in this way, where so many were.
pub(crate) fn levels_after(row: &Row, way: Way, levels: usize) -> usize
    ensures { result ≡ levels_after levels row.now way }
{
    match way {
        Way::Folded(_) => levels,
        Way::Again(_) => within(row),
        Way::Whole => levels_with(row),
    }
}

/// The number of lists that are begun after a row that is written out.
fn levels_with(row: &Row) -> usize
    ensures { result ≡ levels_after 0 row.now Way.Whole }
{
    if folds(row) {
        return within(row).saturating_add(1);
    }
    within(row)
}

/// Writes a text so many times.
pub(crate) fn write_times<O: Write>(text: &[u8], count: usize, out: &mut O) -> io::Result<()>
    ensures { OnOk result (Appends (O.contents out.old) (O.contents out.new) (times count text.now)) }
{
    for _ in 0..count {
        out.write_all(text)?;
    }
    Ok(())
}
