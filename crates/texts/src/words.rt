//! Where words begin, and movements by word.
ghost use Rattle.std.specs.Prelude.{◌≡◌, ◌==◌, nat_lt, reverse, find};
ghost use Rattle.std.specs.List.{list_any};
ghost use Rattle.model.specs.FlatText.{biased_to_start, biased_to_end, words_in, is_word_start};
ghost use Rattle.model.specs.Moves.{forward_to_word_start, forward_to_word_end, backward_to_word_start};
ghost use Rattle.text_boundaries.specs.RunNumbers.{number_in, text_around};
ghost use Rattle.texts.specs.Positions.{IsMoved, position_text, flat_position};
ghost use Rattle.texts.specs.Secrets.{IsMovedInEach};

use crate::position::TextPosition;
use text_boundaries::{Mark, begins_after};
use views::runs::Run;

/// Whether a number is among these.
fn is_among(numbers: &[u16], sought: usize) -> bool
    ensures { result ≡ list_any (λ k. k == sought) numbers.now }
{
    for number in numbers {
        if usize::from(*number) == sought {
            return true;
        }
    }
    false
}

/// The first of these numbers that is above another number.
fn first_above(numbers: &[u16], other: usize) -> Option<usize>
    ensures { result ≡ find (λ k. nat_lt other k) numbers.now }
{
    for number in numbers {
        let number = usize::from(*number);
        if number > other {
            return Some(number);
        }
    }
    None
}

/// The last of these numbers that is below another number.
fn last_below(numbers: &[u16], other: usize) -> Option<usize>
    ensures { result ≡ find (λ k. nat_lt k other) (reverse numbers.now) }
{
    let mut found = None;
    for number in numbers {
        let number = usize::from(*number);
        if number < other {
            found = Some(number);
        }
    }
    found
}

/// The indexes at which words begin in the run, as shown. A password has no such indexes.
fn shown_words<'a>(run: Run<'a>) -> &'a [u16]
    ensures { result.now ≡ words_in (text_around run.entry) (number_in run.entry) }
{
    if run.root().is_password_input() {
        return &[];
    }
    run.node().word_starts()
}

impl<'a> TextPosition<'a> {
    /// Whether a word begins at the position, or a paragraph.
    pub fn is_word_start(&self) -> bool
        ensures { result ≡ is_word_start (position_text self.now) (flat_position self.now) }
    {
        let position = *self;
        position.is_paragraph_start() || is_among(shown_words(position.run), position.index)
    }

    /// The start of the next word or paragraph, from a position that isn't at the end of a run with a run after it.
    fn word_after(self) -> TextPosition<'a>
        requires { biased_to_start (position_text self) (flat_position self) ≡ flat_position self }
        ensures { IsMoved forward_to_word_start self.entry result }
    {
        if let Some(index) = first_above(shown_words(self.run), self.index) {
            return TextPosition {
                run: self.run,
                index,
            };
        }
        let mut run = self.run;
        loop {
            let Some(next) = run.next() else {
                return TextPosition {
                    run,
                    index: run.character_count(),
                };
            };
            if begins_after(next, Mark::Paragraph, run) {
                return TextPosition {
                    run: next,
                    index: 0,
                };
            }
            if let Some(first) = shown_words(next).first() {
                return TextPosition {
                    run: next,
                    index: usize::from(*first),
                };
            }
            run = next;
        }
    }

    /// The start of the previous word or paragraph, from a position that isn't at the start of a run with a run before
    /// it.
    fn word_before(self) -> TextPosition<'a>
        requires { biased_to_end (position_text self) (flat_position self) ≡ flat_position self }
        ensures { IsMoved backward_to_word_start self.entry result }
    {
        if let Some(index) = last_below(shown_words(self.run), self.index) {
            return TextPosition {
                run: self.run,
                index,
            };
        }
        let mut run = self.run;
        loop {
            let Some(previous) = run.previous() else {
                return TextPosition { run, index: 0 };
            };
            if begins_after(run, Mark::Paragraph, previous) {
                return TextPosition { run, index: 0 };
            }
            if let Some(index) = last_below(shown_words(previous), previous.character_count()) {
                return TextPosition {
                    run: previous,
                    index,
                };
            }
            run = previous;
        }
    }

    /// The start of the next word or paragraph, or the end of the text if there isn't one.
    #[tactic(auto, using(crate::proofs::RunWords::start_stays))]
    pub fn forward_to_word_start(&self) -> TextPosition<'a>
        ensures moved { IsMoved forward_to_word_start self.now result }
        ensures secret { IsMovedInEach forward_to_word_start self.now result }
    {
        self.biased_to_start().word_after()
    }

    /// The start of the next word or paragraph, on the end side where two runs meet, or the end of the text if there
    /// isn't one.
    pub fn forward_to_word_end(&self) -> TextPosition<'a>
        ensures moved { IsMoved forward_to_word_end self.now result }
        ensures secret { IsMovedInEach forward_to_word_end self.now result }
    {
        self.forward_to_word_start().biased_to_end()
    }

    /// The start of the previous word or paragraph, or the start of the text if there isn't one.
    #[tactic(auto, using(crate::proofs::RunWords::end_stays))]
    pub fn backward_to_word_start(&self) -> TextPosition<'a>
        ensures moved { IsMoved backward_to_word_start self.now result }
        ensures secret { IsMovedInEach backward_to_word_start self.now result }
    {
        self.biased_to_end().word_before()
    }
}
