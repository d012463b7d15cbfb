//! The selection in a text.
ghost use Rattle.std.specs.Prelude.{◌≡◌, min, max, codes, IfOk, OnOk};
ghost use Rattle.std.specs.Io.KnownBytes.{Appends};
ghost use Rattle.texts.specs.NodeTexts.{root_of};
ghost use Rattle.texts.specs.RangeCuts.{located};
ghost use Rattle.views.specs.Nodes.{world_at, id_at};
ghost use Rattle.read.specs.Lines.{is_selected, star, ends_line, selection_text, selected};
ghost use Rattle.read.specs.Spans.{span_of};

use crate::reading::shown::{shown_index, shown_text};
use accesskit_consumer::text::{Text, TextRange};
use atree_script::{Stop, write_text};
use std::alloc::Global;
use std::io::Write;

/// The start and the end of a selection, in UTF-16 code units.
#[derive(Clone, Copy)]
pub(crate) struct Selected {
    from: usize,
    to: usize,
}

impl Selected {
    /// Whether the index is selected.
    fn has(self, index: usize) -> bool
        ensures { result ≡ is_selected (span_of self) index }
    {
        self.from <= index && index < self.to
    }

    /// A star if the index is selected.
    pub(crate) fn star(self, index: usize) -> &'static str
        ensures { result.now ≡ star (span_of self) index }
    {
        if self.has(index) { "*" } else { "" }
    }
}

/// Prints that there is no selection.
fn tell_none<O: Write>(out: &mut O) -> Result<Selected, Stop>
    ensures printed { OnOk result (Appends (O.contents out.old) (O.contents out.new) (codes "selection none\n")) }
    ensures span { IfOk result (λ none. span_of none ≡ (0, 0)) }
{
    out.write_all(b"selection none\n")?;
    Ok(Selected { from: 0, to: 0 })
}

/// Prints the selection: its anchor, its focus, and the selected text. Returns its indexes.
pub(crate) fn tell_selection<O: Write>(
    alloc: Global,
    text: Text,
    out: &mut O,
) -> Result<Selected, Stop>
    ensures printed { let root = root_of text.entry in
        OnOk result (Appends (O.contents out.old) (O.contents out.new) (selection_text (world_at root) (id_at root))) }
    ensures span { let root = root_of text.entry in
        IfOk result (λ found. span_of found ≡ selected (world_at root) (id_at root)) }
{
    let Some(range) = text.selection() else {
        return tell_none(out);
    };
    let Some(anchor) = text.selection_anchor() else {
        return tell_none(out);
    };
    let Some(focus) = text.selection_focus() else {
        return tell_none(out);
    };
    tell_range(
        alloc,
        shown_index(text, anchor),
        shown_index(text, focus),
        range,
        out,
    )
}

/// Prints a selection by the indexes of its ends, and its text.
fn tell_range<O: Write>(
    alloc: Global,
    anchor: usize,
    focus: usize,
    range: TextRange,
    out: &mut O,
) -> Result<Selected, Stop>
    ensures printed { OnOk result (Appends (O.contents out.old) (O.contents out.new) (ends_line anchor focus (located range.entry))) }
    ensures span { IfOk result (λ found. span_of found ≡ (min anchor focus, max anchor focus)) }
{
    write!(out, "selection {anchor} {focus} ")?;
    let written = shown_text(alloc, range)?;
    write_text(Some(&written), out)?;
    Ok(Selected {
        from: anchor.min(focus),
        to: anchor.max(focus),
    })
}
