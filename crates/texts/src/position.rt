//! Positions in a text.
ghost use Rattle.std.specs.Prelude.{◌≤◌};
ghost use Rattle.model.specs.TextRuns.{said_count};
ghost use Rattle.views.specs.Runs.{text_root_of, sent_of};
ghost use Rattle.texts.specs.TextRoots.{HasText, HasText-prop};

use views::runs::Run;

/// A position in a text: a run, and the number of its characters before the position.
///
/// Where two runs meet there are two positions, the end of the first run (the end side) and the start of the second
/// (the start side).
#[derive(Clone, Copy)]
pub struct TextPosition<'a> {
    pub(crate) run: Run<'a>,
    pub(crate) index: usize,
    ghost text: { HasText (text_root_of run) } by { HasText-prop (text_root_of run) },
    ghost within: { index ≤ said_count (sent_of run) },
}
