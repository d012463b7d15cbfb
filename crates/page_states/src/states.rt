//! Writing a state: its outline, and its picture beside it.

ghost use Rattle.std.specs.Prelude.{OnOk};
ghost use Rattle.views.specs.ShownWorlds.{world_of};
ghost use Rattle.page_states.specs.States.{WritesRows, WritesState};

use crate::again::{Kept, kept_of, rows_of};
use crate::boxes::Frame;
use crate::faults::Fault;
use crate::looks::shown_of;
use crate::marks::Marks;
use crate::outline::write_outline;
use crate::picture::{frame_of, write_picture};
use crate::places::places;
use crate::rows::Row;
use std::alloc::Global;
use std::io::{self, Write};
use views::StateRef;

/// Writes the outline of a state, and its picture beside it, and keeps what is shown.
///
/// # Errors
///
/// Returns `Fault::Memory` if memory runs out, and `Fault::Output` if the output has an error.
pub fn write_state<O: Write>(
    alloc: Global,
    number: u64,
    state: StateRef,
    marks: &Marks,
    kept: &mut Kept,
    output: &mut O,
) -> Result<(), Fault>
    ensures { OnOk result (WritesState number (world_of state.entry) marks.now
        (kept.old, O.contents output.old) (kept.new, O.contents output.new)) }
{
    let places = places(alloc, state, marks)?;
    let frame = frame_of(&places);
    let shown = shown_of(alloc, state, frame, &places)?;
    let rows = rows_of(alloc, kept, shown)?;
    write_rows(number, state, frame, &rows, output)?;
    let last = kept_of(alloc, number, frame.is_some(), rows)?;
    *kept = last;
    Ok(())
}

/// Writes the outline of these nodes of a state, and its picture beside it.
fn write_rows<O: Write>(
    number: u64,
    state: StateRef,
    frame: Option<Frame>,
    rows: &[Row],
    output: &mut O,
) -> io::Result<()>
    ensures { OnOk result (WritesRows number (world_of state.entry) frame rows.now (O.contents output.old) (O.contents output.new)) }
{
    output.write_all(b"<div class=\"state\">\n")?;
    write_outline(number, rows, output)?;
    write_picture(number, frame, rows, state.focus(), output)?;
    output.write_all(b"</div>\n")
}
