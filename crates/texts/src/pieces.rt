//! The pieces of a range, run by run.
ghost use Rattle.std.specs.Prelude.{◌≡◌, [], MatchOption, true, false};
ghost use Rattle.model.specs.Ranges.{is_degenerate, piece_in, pieces};
ghost use Rattle.views.specs.Runs.{text_root_of};
ghost use Rattle.text_boundaries.specs.RunNumbers.{number_in};
ghost use Rattle.texts.specs.TextRanges.{text_in, range_at};
ghost use Rattle.texts.specs.Pieces.{IsLastPassed, IsNextPiece, IsUpTo, piece_data, pieces_past};

use crate::range::TextRange;
use model::{FullNodeId, is_same};
use views::runs::Run;

/// A part of a run: its characters from one index to before another.
#[derive(Clone, Copy)]
pub(crate) struct Piece<'a> {
    pub(crate) run: Run<'a>,
    pub(crate) from: usize,
    pub(crate) to: usize,
}

impl<'a> TextRange<'a> {
    /// The part of one run that is in the range.
    #[inline(always)]
    fn piece_in(self, run: Run<'a>) -> Piece<'a>
        requires { text_root_of run ≡ self.root }
        ensures run { result.run ≡ run.entry }
        ensures is { let range = range_at self.entry in
            piece_data result ≡ piece_in (text_in self.entry) range (number_in run.entry) }
    {
        let mut from = 0;
        if is_same(run.id(), self.first.spot.member.id) {
            from = self.first.index;
        }
        let mut to = run.character_count();
        if is_same(run.id(), self.last.spot.member.id) {
            to = self.last.index;
        }
        Piece { run, from, to }
    }

    /// The first piece, and the id of the last one's run. An empty range has one empty piece.
    ///
    /// To find whether the range is empty, and on which side of a run its end is, all that follows the range may have
    /// to be searched. So this is done once and not for each piece.
    pub(crate) fn first_and_last(self) -> (Piece<'a>, FullNodeId)
        ensures first { let all = pieces (text_in self.entry) (range_at self.entry) in
            IsNextPiece self.entry all result.0 }
        ensures last { IsLastPassed self.entry result.1 }
    {
        if self.is_degenerate() {
            return self.caret();
        }
        (self.first_piece(), self.last_id())
    }

    /// The piece of an empty range, and the id of its run.
    #[inline(always)]
    fn caret(self) -> (Piece<'a>, FullNodeId)
        requires { is_degenerate (text_in self) (range_at self) ≡ true }
        ensures first { let all = pieces (text_in self.entry) (range_at self.entry) in
            IsNextPiece self.entry all result.0 }
        ensures last { IsLastPassed self.entry result.1 }
    {
        let start = self.start();
        let caret = Piece {
            run: start.run,
            from: start.index,
            to: start.index,
        };
        (caret, start.run.id())
    }

    /// The first piece of a range that isn't empty.
    #[inline(always)]
    fn first_piece(self) -> Piece<'a>
        requires { is_degenerate (text_in self) (range_at self) ≡ false }
        ensures { let all = pieces (text_in self.entry) (range_at self.entry) in
            IsNextPiece self.entry all result }
    {
        let start = self.start();
        self.piece_in(start.biased_to_start().run)
    }

    /// The id of the last piece's run, of a range that isn't empty.
    #[inline(always)]
    fn last_id(self) -> FullNodeId
        requires { is_degenerate (text_in self) (range_at self) ≡ false }
        ensures { IsLastPassed self.entry result }
    {
        let end = self.end();
        end.biased_to_end().run.id()
    }

    /// The next piece after the one in this run, if there is one.
    #[inline(always)]
    pub(crate) fn next_piece(self, run: Run<'a>, last: FullNodeId) -> Option<Piece<'a>>
        requires same { text_root_of run ≡ self.root }
        requires reached { IsUpTo self run }
        requires ends { IsLastPassed self last }
        ensures { let k = number_in run.entry in
            let left = pieces_past (text_in self.entry) (range_at self.entry) k in
            MatchOption result (left ≡ []) (IsNextPiece self.entry left) }
    {
        if is_same(run.id(), last) {
            return None;
        }
        let next = run.next()?;
        Some(self.piece_in(next))
    }
}
