//! The positions of a run's characters along the run.
ghost use Rattle.std.specs.Prelude.{◌≡◌, ◌<◌, ◌+ℤ◌, ◌*ℤ◌, pos, length, FitsSigned, IfSome, option_map};
ghost use Rattle.std.specs.Int.{w32};
ghost use Rattle.model.specs.Geometry.{is_between};
ghost use Rattle.model.specs.Points.{character_at};
ghost use Rattle.model.specs.Ranges.{number_at, width, step, place, reach_from, reach_to};
ghost use Rattle.texts.specs.Pieces.{piece_data};
ghost use Rattle.texts.specs.Measures.{measures, shown_in, IsMetricStep, IsAlong};

use crate::pieces::Piece;
use views::runs::Run;

/// The positions of a run's characters along the run, and their widths. Those of a password are reported as if all
/// characters were the same.
#[derive(Clone, Copy)]
pub(crate) struct Metrics<'a> {
    positions: &'a [i32],
    widths: &'a [i32],
    are_alike: bool,
}

/// The number at this index, or 0 past the end.
fn number_at(numbers: &[i32], index: usize) -> i128
    ensures exact { result ≡ number_at numbers.now index }
    ensures narrow { FitsSigned w32 result }
{
    match numbers.get(index) {
        Some(number) => i128::from(*number),
        None => 0,
    }
}

/// The length of this many steps.
fn times(count: usize, step: i128) -> i128
    requires { IsMetricStep step }
    ensures exact { result ≡ pos count *ℤ step }
    ensures along { IsAlong 0 result }
{
    count as i128 * step
}

/// Whether the number lies in a span, from its start to before its end.
pub(crate) fn is_between(low: i128, high: i128, number: i128) -> bool
    ensures { result ≡ is_between low high number }
{
    low <= number && number < high
}

/// The metrics of the run's characters, if both lists were sent.
pub(crate) fn metrics_of<'a>(run: Run<'a>) -> Option<Metrics<'a>>
    ensures { option_map measures result ≡ (shown_in run.entry).metrics }
{
    let positions = run.node().character_positions()?;
    let widths = run.node().character_widths()?;
    Some(Metrics {
        positions,
        widths,
        are_alike: run.root().is_password_input(),
    })
}

impl Metrics<'_> {
    /// The width of the character with this index.
    fn width(self, index: usize) -> i128
        ensures exact { result ≡ width (measures self.entry) index }
        ensures narrow { FitsSigned w32 result }
    {
        if self.are_alike {
            return number_at(self.widths, 0);
        }
        number_at(self.widths, index)
    }

    /// The distance from one character of a password to the next.
    fn step(self) -> i128
        ensures exact { result ≡ step (measures self.entry) }
        ensures near { IsMetricStep result }
    {
        if self.positions.len() > 1 {
            return number_at(self.positions, 1) - number_at(self.positions, 0);
        }
        number_at(self.widths, 0)
    }

    /// The distance at which the character with this index begins.
    pub(crate) fn place(self, index: usize) -> i128
        ensures exact { result ≡ place (measures self.entry) index }
        ensures along { IsAlong 1 result }
    {
        if !self.are_alike {
            return number_at(self.positions, index);
        }
        number_at(self.positions, 0) + times(index, self.step())
    }

    /// The distance at which the character with this index ends.
    pub(crate) fn end(self, index: usize) -> i128
        ensures exact { let m = measures self.entry in result ≡ place m index +ℤ width m index }
        ensures along { IsAlong 2 result }
    {
        self.place(index) + self.width(index)
    }

    /// The distance into a run with this many characters at which a piece from this index on begins.
    pub(crate) fn reach_from(self, count: usize, index: usize) -> i128
        ensures exact { result ≡ reach_from (measures self.entry) count index }
        ensures along { IsAlong 2 result }
    {
        if index < count {
            return self.place(index);
        }
        self.end(index.saturating_sub(1))
    }

    /// The distance into a run with this many characters at which a piece ends.
    pub(crate) fn reach_to(self, count: usize, piece: Piece<'_>) -> i128
        ensures exact { result ≡ reach_to (measures self.entry) count (piece_data piece.entry) }
        ensures along { IsAlong 2 result }
    {
        if piece.from == piece.to {
            return self.reach_from(count, piece.from);
        }
        self.end(piece.to.saturating_sub(1))
    }

    /// Whether the character with this index covers this distance along the run.
    fn lies_at(self, index: usize, distance: i128) -> bool
        ensures { let m = measures self.entry in
            result ≡ is_between (place m index) (place m index +ℤ width m index) distance }
    {
        is_between(self.place(index), self.end(index), distance)
    }

    /// The last character that covers this distance along the run, of those whose position and width are known.
    pub(crate) fn character_at(self, distance: i128) -> Option<usize>
        ensures exact { result ≡ character_at (measures self.entry) distance }
        ensures within { IfSome result (λ index. index < length (measures self.entry).positions) }
    {
        let mut left = self.positions.len().min(self.widths.len());
        while left > 0 {
            left -= 1;
            if self.lies_at(left, distance) {
                return Some(left);
            }
        }
        None
    }
}
