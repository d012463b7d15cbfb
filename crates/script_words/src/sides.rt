//! The sides of a box, as programs print them.
ghost use Rattle.std.specs.Prelude.{OnOk};
ghost use Rattle.std.specs.Io.KnownBytes.{Appends};
ghost use Rattle.script_words.specs.Parts.{corners_text, pair_text};

use schema::WideRect;
use std::io::{self, Write};

/// Writes a box's left, top, right and bottom in units, with commas between them, as a script's line gives them.
#[tactic(auto, unfolding(crate::specs::Parts::corners_text))]
pub fn write_sides<O: Write>(rect: WideRect, out: &mut O) -> io::Result<()>
    ensures { OnOk result (Appends (O.contents out.old) (O.contents out.new) (corners_text rect.x0 rect.y0 rect.x1 rect.y1)) }
{
    write_start(rect, out)?;
    out.write_all(b",")?;
    write_end(rect, out)
}

/// Writes the left and the top.
#[tactic(auto, unfolding(crate::specs::Parts::pair_text))]
fn write_start<O: Write>(rect: WideRect, out: &mut O) -> io::Result<()>
    ensures { OnOk result (Appends (O.contents out.old) (O.contents out.new) (pair_text rect.x0 rect.y0)) }
{
    write!(out, "{},{}", rect.x0, rect.y0)
}

/// Writes the right and the bottom.
#[tactic(auto, unfolding(crate::specs::Parts::pair_text))]
fn write_end<O: Write>(rect: WideRect, out: &mut O) -> io::Result<()>
    ensures { OnOk result (Appends (O.contents out.old) (O.contents out.new) (pair_text rect.x1 rect.y1)) }
{
    write!(out, "{},{}", rect.x1, rect.y1)
}
