//! The offset of a position, and the order of positions.
ghost use Rattle.std.specs.Prelude.{◌≡◌, ◌≢◌, Some, None, MatchBool, nat_lt};
ghost use Rattle.model.specs.Forest.{is_same as is_same_id};
ghost use Rattle.model.specs.FlatText.{offset, position_cmp};
ghost use Rattle.views.specs.Nodes.{world_at, id_at};
ghost use Rattle.views.specs.Runs.{run_world, root_id, run_id};
ghost use Rattle.text_boundaries.specs.RunNumbers.{number_in};
ghost use Rattle.texts.specs.Positions.{root_at, position_text, flat_position};

use crate::position::TextPosition;
use model::is_same;
use std::cmp::Ordering;
use views::runs::Run;

/// Whether a run comes before another one of its root, in the same state.
///
/// It searches from the run to both sides in turn, so its cost depends on how far apart the runs are.
fn is_before(run: Run<'_>, other: Run<'_>) -> bool
    requires world { run_world other ≡ run_world run }
    requires root { root_id other ≡ root_id run }
    requires apart { run_id other ≢ run_id run }
    ensures { result ≡ nat_lt (number_in run.entry) (number_in other.entry) }
{
    let mut ahead = run.next();
    let mut behind = run.previous();
    loop {
        let Some(next) = ahead else {
            return false;
        };
        let Some(previous) = behind else {
            return true;
        };
        if is_same(next.id(), other.id()) {
            return true;
        }
        if is_same(previous.id(), other.id()) {
            return false;
        }
        ahead = next.next();
        behind = previous.previous();
    }
}

impl TextPosition<'_> {
    /// The number of characters of the text before the position.
    pub(crate) fn offset(self) -> usize
        ensures { result ≡ offset (position_text self.entry) (flat_position self.entry) }
    {
        let mut run = self.run;
        let mut before = self.index;
        while let Some(previous) = run.previous() {
            before += previous.character_count();
            run = previous;
        }
        before
    }

    /// The order of two positions of one root in one state, by the number of characters before each.
    ///
    /// It only looks at what is between them, and as far to the other side.
    pub(crate) fn order(self, other: TextPosition<'_>) -> Ordering
        requires world { world_at (root_at other) ≡ world_at (root_at self) }
        requires root { id_at (root_at other) ≡ id_at (root_at self) }
        ensures { let p = self.entry in
            let q = other.entry in
            result ≡ position_cmp (position_text p) (flat_position p) (position_text q) (flat_position q) }
    {
        let first = self.biased_to_start();
        let second = other.biased_to_start();
        if is_same(first.run.id(), second.run.id()) {
            return first.index.cmp(&second.index);
        }
        if is_before(first.run, second.run) {
            return Ordering::Less;
        }
        Ordering::Greater
    }

    /// The order of two positions, by the number of characters before each; `None` if their roots differ.
    ///
    /// The positions may be of different states, so it counts all characters before each.
    pub fn compare(&self, other: &TextPosition<'_>) -> Option<Ordering>
        ensures { let p = self.now in
            let q = other.now in
            MatchBool (is_same_id (id_at (root_at p)) (id_at (root_at q)))
            (result ≡ Some (position_cmp (position_text p) (flat_position p) (position_text q) (flat_position q)))
            (result ≡ None) }
    {
        let (position, other) = (*self, *other);
        if !is_same(position.run.root().id(), other.run.root().id()) {
            return None;
        }
        let before = position.offset();
        let before_other = other.offset();
        Some(before.cmp(&before_other))
    }
}
