//! The number of the line that a position, such as a caret, is in.
ghost use Rattle.std.specs.Prelude.{◌≡◌};
ghost use Rattle.model.specs.Moves.{to_line_index};
ghost use Rattle.texts.specs.Positions.{root_at, position_text, flat_position};
ghost use Rattle.texts.specs.Secrets.{InEachText};

use crate::position::TextPosition;
use text_boundaries::ends_line;

impl TextPosition<'_> {
    /// The number of the position's line, counted from 0: the number of lines that end before the position's run.
    #[tactic(auto, using(model::proofs::Text::Secrets::one_text))]
    pub fn to_line_index(&self) -> usize
        ensures index { result ≡ to_line_index (position_text self.now) (flat_position self.now) }
        ensures secret { InEachText (root_at self.now) (λ t. result ≡ to_line_index t (flat_position self.now)) }
    {
        let position = *self;
        let mut run = position.run;
        let mut lines = 0usize;
        while let Some(previous) = run.previous() {
            run = previous;
            if ends_line(previous) {
                lines += 1;
            }
        }
        lines
    }
}
