//! Movements by character.
ghost use Rattle.std.specs.Prelude.{◌≡◌, ◌<◌, option_map};
ghost use Rattle.model.specs.FlatText.{offset, total};
ghost use Rattle.model.specs.Moves.{forward_to_character_start, forward_to_character_end, backward_to_character_start};
ghost use Rattle.texts.specs.Characters.{has_character_after, has_character_before, next_character, previous_character};
ghost use Rattle.texts.specs.FoundRanges.{IsAtFound};
ghost use Rattle.texts.specs.Positions.{IsMoved, root_at, position_text, flat_position};
ghost use Rattle.texts.specs.Secrets.{InEachText, IsMovedInEach};

use crate::position::TextPosition;

impl<'a> TextPosition<'a> {
    /// Whether there is a character after the position. If the last run is empty, this is already `false` before that
    /// run, though the text ends only in it.
    pub fn has_character_after(&self) -> bool
        ensures { result ≡ has_character_after (position_text self.now) (flat_position self.now) }
    {
        let start = self.biased_to_start();
        start.index < start.run.character_count()
    }

    /// Whether there is a character before the position.
    pub fn has_character_before(&self) -> bool
        ensures { result ≡ has_character_before (position_text self.now) (flat_position self.now) }
    {
        self.biased_to_end().index > 0
    }

    /// The position after the next character, on the start side where two runs meet; `None` if there is no character
    /// left.
    #[tactic(auto, using(model::proofs::Text::Secrets::one_text))]
    pub fn next_character(&self) -> Option<TextPosition<'a>>
        ensures found { let to = next_character (position_text self.now) (flat_position self.now) in
            IsAtFound (root_at self.now) to result }
        ensures secret { InEachText (root_at self.now) (λ t. option_map flat_position result ≡ next_character t (flat_position self.now)) }
    {
        if !self.has_character_after() {
            return None;
        }
        Some(self.forward_to_character_start())
    }

    /// The position before the previous character, on the start side where two runs meet; `None` at the start of the
    /// text.
    #[tactic(auto, using(model::proofs::Text::Secrets::one_text))]
    pub fn previous_character(&self) -> Option<TextPosition<'a>>
        ensures found { let to = previous_character (position_text self.now) (flat_position self.now) in
            IsAtFound (root_at self.now) to result }
        ensures secret { InEachText (root_at self.now)
            (λ t. option_map flat_position result ≡ previous_character t (flat_position self.now)) }
    {
        if !self.has_character_before() {
            return None;
        }
        Some(self.backward_to_character_start())
    }

    /// The position after the next character, on the start side where two runs meet. Requires a character after the
    /// position.
    ///
    /// A loop until `is_document_end` goes too far in a text whose last run is empty: before that run there is no
    /// character left, but the position isn't the end of the text. Loop with [`TextPosition::next_character`] until it
    /// returns `None`, or over [`TextRange::characters`].
    pub fn forward_to_character_start(&self) -> TextPosition<'a>
        requires { offset (position_text self.now) (flat_position self.now) < total (position_text self.now) }
        ensures moved { IsMoved forward_to_character_start self.now result }
        ensures secret { IsMovedInEach forward_to_character_start self.now result }
    {
        self.forward_to_character_end().biased_to_start()
    }

    /// The position after the next character, on the end side where two runs meet. Requires a character after the
    /// position.
    ///
    /// A loop until `is_document_end` goes too far in a text whose last run is empty: before that run there is no
    /// character left, but the position isn't the end of the text. This loop ends with the last character: `while
    /// at.has_character_after() { at = at.forward_to_character_end(); }`.
    pub fn forward_to_character_end(&self) -> TextPosition<'a>
        requires { offset (position_text self.now) (flat_position self.now) < total (position_text self.now) }
        ensures moved { IsMoved forward_to_character_end self.now result }
        ensures secret { IsMovedInEach forward_to_character_end self.now result }
    {
        let start = self.biased_to_start();
        let _count = start.run.character_count();
        TextPosition {
            run: start.run,
            index: start.index + 1,
        }
    }

    /// The position before the previous character. Requires a character before the position.
    pub fn backward_to_character_start(&self) -> TextPosition<'a>
        requires { 0 < offset (position_text self.now) (flat_position self.now) }
        ensures moved { IsMoved backward_to_character_start self.now result }
        ensures secret { IsMovedInEach backward_to_character_start self.now result }
    {
        let end = self.biased_to_end();
        TextPosition {
            run: end.run,
            index: end.index - 1,
        }
    }
}
