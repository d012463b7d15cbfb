//! Where formats begin, and movements by format. A format consists of neighbouring runs with the same style.
ghost use Rattle.std.specs.Prelude.{◌≡◌, ◌+◌};
ghost use Rattle.model.specs.Styles.{same_style};
ghost use Rattle.model.specs.FlatText.{begins_format, is_format_start};
ghost use Rattle.model.specs.Moves.{start_before, forward_to_format_start, forward_to_format_end, backward_to_format_start};
ghost use Rattle.views.specs.Nodes.{world_at};
ghost use Rattle.texts.specs.Formats.{style_at};
ghost use Rattle.views.specs.Runs.{IsAfter};
ghost use Rattle.text_boundaries.specs.RunNumbers.{number_in, text_around};
ghost use Rattle.texts.specs.Positions.{IsMoved, position_text, flat_position};
ghost use Rattle.texts.specs.Secrets.{IsMovedInEach};

use crate::looks::{Look, are_same};
use crate::position::TextPosition;
use views::NodeRef;
use views::runs::Run;

/// The properties that make up a format.
const FORMAT: [Look; 11] = [
    Look::FontFamily,
    Look::Language,
    Look::FontSize,
    Look::FontWeight,
    Look::BackgroundColor,
    Look::ForegroundColor,
    Look::Overline,
    Look::Strikethrough,
    Look::Underline,
    Look::Alignment,
    Look::Offset,
];

/// Whether the texts of two nodes of a state have the same format.
fn has_same_format(a: NodeRef<'_>, b: NodeRef<'_>) -> bool
    requires { world_at a ≡ world_at b }
    ensures { result ≡ same_style (style_at a.entry) (style_at b.entry) }
{
    for what in &FORMAT {
        if !are_same(*what, a, b) {
            return false;
        }
    }
    true
}

/// Whether a format begins with the run, which follows another one.
fn begins_format_after<'a>(run: Run<'a>, previous: Run<'a>) -> bool
    requires { IsAfter previous run }
    ensures { result ≡ begins_format (text_around run.entry) (number_in run.entry) }
{
    !has_same_format(previous.view(), run.view())
}

/// Whether a format begins with the run.
fn begins_format(run: Run<'_>) -> bool
    ensures { result ≡ begins_format (text_around run.entry) (number_in run.entry) }
{
    let Some(previous) = run.previous() else {
        return true;
    };
    begins_format_after(run, previous)
}

impl<'a> TextPosition<'a> {
    /// Whether a format starts at the position.
    pub fn is_format_start(&self) -> bool
        ensures { result ≡ is_format_start (position_text self.now) (flat_position self.now) }
    {
        let position = *self;
        position.index == 0 && begins_format(position.run)
    }

    /// The start of the format of the position's run.
    fn start_of_format(self) -> TextPosition<'a>
        ensures { IsMoved (λ t p. start_before t (p.run + 1) (begins_format t)) self.entry result }
    {
        let mut run = self.run;
        loop {
            let Some(previous) = run.previous() else {
                return TextPosition { run, index: 0 };
            };
            if begins_format_after(run, previous) {
                return TextPosition { run, index: 0 };
            }
            run = previous;
        }
    }

    /// The start of the next format, or the end of the text if there isn't one.
    pub fn forward_to_format_start(&self) -> TextPosition<'a>
        ensures moved { IsMoved forward_to_format_start self.now result }
        ensures secret { IsMovedInEach forward_to_format_start self.now result }
    {
        let position = *self;
        let mut run = position.run;
        loop {
            let Some(next) = run.next() else {
                return TextPosition {
                    run,
                    index: run.character_count(),
                };
            };
            if begins_format_after(next, run) {
                return TextPosition {
                    run: next,
                    index: 0,
                };
            }
            run = next;
        }
    }

    /// The start of the next format, as the end of the run before it, or the end of the text if there isn't one.
    pub fn forward_to_format_end(&self) -> TextPosition<'a>
        ensures moved { IsMoved forward_to_format_end self.now result }
        ensures secret { IsMovedInEach forward_to_format_end self.now result }
    {
        self.forward_to_format_start().biased_to_end()
    }

    /// The start of the format of the position's run. From the start of a run, it is the start of the format of the
    /// previous run, if there is one.
    pub fn backward_to_format_start(&self) -> TextPosition<'a>
        ensures moved { IsMoved backward_to_format_start self.now result }
        ensures secret { IsMovedInEach backward_to_format_start self.now result }
    {
        self.biased_to_end().start_of_format()
    }
}
