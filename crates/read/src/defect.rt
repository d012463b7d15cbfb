//! Why a node has no text.
ghost use Rattle.std.specs.Prelude.{OnOk};
ghost use Rattle.std.specs.Io.KnownBytes.{Appends};
ghost use Rattle.read.specs.NoText.{no_text_line};

use accesskit_consumer::TextDefect;
use std::io::{self, Write};

/// Prints why a node has no text: what is wrong with its runs, or that there are no runs.
pub(crate) fn tell_defect<O: Write>(defect: Option<TextDefect>, out: &mut O) -> io::Result<()>
    ensures { OnOk result (Appends (O.contents out.old) (O.contents out.new) (no_text_line defect)) }
{
    match defect {
        Some(defect) => writeln!(out, "no text: {defect}"),
        None => out.write_all(b"no text: it has no runs\n"),
    }
}
