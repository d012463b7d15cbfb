//! The boxes of a range, one for each run.
ghost use Rattle.std.specs.Prelude.{◌≡◌, ◌==◌, ◌&&◌, ◌+ℤ◌, ◌-ℤ◌, IfOk};
ghost use Rattle.model.specs.TextRuns.{said_count};
ghost use Rattle.model.specs.Geometry.{whole_rect, moved_rect};
ghost use Rattle.model.specs.Ranges.{cut_along, piece_rect, piece_box, bounding_boxes};
ghost use Rattle.views.specs.Reach.{IsInReach};
ghost use Rattle.views.specs.Runs.{sent_of};
ghost use Rattle.text_boundaries.specs.RunNumbers.{text_around};
ghost use Rattle.texts.specs.TextRanges.{text_in, range_at};
ghost use Rattle.texts.specs.Pieces.{piece_data};
ghost use Rattle.texts.specs.Measures.{measures, IsAlong};
ghost use Rattle.texts.specs.Boxes.{box_of, cut_of, IsOnRun};
ghost use Rattle.texts.specs.Secrets.{InEachText};

use crate::metrics::{Metrics, metrics_of};
use crate::pieces::Piece;
use crate::points::direction_of;
use crate::range::TextRange;
use schema::{Rect, TextDirection, WideRect, WideTranslation};
use std::alloc::{AllocError, Global};
use views::node::geometry::ordered;

/// A coordinate this far past an edge.
fn past(edge: i32, reach: i128) -> i128
    requires { IsAlong 2 reach }
    ensures exact { result ≡ edge +ℤ reach }
    ensures along { IsAlong 3 result }
{
    i128::from(edge) + reach
}

/// A coordinate this far before an edge.
fn before(edge: i32, reach: i128) -> i128
    requires { IsAlong 2 reach }
    ensures exact { result ≡ edge -ℤ reach }
    ensures along { IsAlong 3 result }
{
    i128::from(edge) - reach
}

/// An edge as a wide number.
fn wide(edge: i32) -> i128
    ensures exact { result ≡ edge }
    ensures along { IsAlong 3 result }
{
    i128::from(edge)
}

/// The whole rectangle.
fn whole_rect(rect: Rect) -> WideRect
    ensures exact { result ≡ whole_rect rect }
    ensures near { IsOnRun result }
{
    WideRect {
        x0: wide(rect.x0),
        y0: wide(rect.y0),
        x1: wide(rect.x1),
        y1: wide(rect.y1),
    }
}

/// The rectangle between two other horizontal coordinates.
fn across(rect: WideRect, x0: i128, x1: i128) -> WideRect
    ensures { result ≡ record rect { x0 = x0; x1 = x1 } }
{
    WideRect { x0, x1, ..rect }
}

/// The rectangle between two other vertical coordinates.
fn down(rect: WideRect, y0: i128, y1: i128) -> WideRect
    ensures { result ≡ record rect { y0 = y0; y1 = y1 } }
{
    WideRect { y0, y1, ..rect }
}

/// The part of a rectangle between two distances along it.
fn cut_along(direction: TextDirection, rect: Rect, from: i128, to: i128) -> WideRect
    requires starts { IsAlong 2 from }
    requires ends { IsAlong 2 to }
    ensures exact { result ≡ cut_along direction rect from to }
    ensures near { IsOnRun result }
{
    let whole = whole_rect(rect);
    match direction {
        TextDirection::LeftToRight => across(whole, past(rect.x0, from), past(rect.x0, to)),
        TextDirection::RightToLeft => across(whole, before(rect.x1, to), before(rect.x1, from)),
        TextDirection::TopToBottom => down(whole, past(rect.y0, from), past(rect.y0, to)),
        TextDirection::BottomToTop => down(whole, before(rect.y1, to), before(rect.y1, from)),
    }
}

/// A coordinate plus a translation.
fn plus(number: i128, by: i128) -> i128
    requires along { IsAlong 3 number }
    requires moved { IsInReach by }
    ensures { result ≡ number +ℤ by }
{
    number + by
}

/// The rectangle after a translation.
fn moved(rect: WideRect, by: WideTranslation) -> WideRect
    requires near { IsOnRun rect }
    requires across { IsInReach by.x }
    requires along { IsInReach by.y }
    ensures { result ≡ moved_rect rect by }
{
    WideRect {
        x0: plus(rect.x0, by.x),
        y0: plus(rect.y0, by.y),
        x1: plus(rect.x1, by.x),
        y1: plus(rect.y1, by.y),
    }
}

impl Piece<'_> {
    /// Whether the piece is the whole run.
    fn is_whole(self) -> bool
        ensures { let count = said_count (sent_of self.entry.run) in
            result ≡ (self.entry.from == 0 && self.entry.to == count) }
    {
        self.from == 0 && self.to == self.run.character_count()
    }

    /// The part of the run's rectangle that the piece covers.
    fn cut(self, rect: Rect, metrics: Metrics<'_>, direction: TextDirection) -> WideRect
        ensures exact { result ≡ cut_of self.entry rect (measures metrics.entry) direction }
        ensures near { IsOnRun result }
    {
        let count = self.run.character_count();
        let from = metrics.reach_from(count, self.from);
        let to = metrics.reach_to(count, self);
        cut_along(direction, rect, from, to)
    }

    /// The part of the run's rectangle that the piece covers; all of it if the piece is the whole run.
    fn rect_in_run(self, rect: Rect, metrics: Metrics<'_>, direction: TextDirection) -> WideRect
        ensures exact { let count = said_count (sent_of self.entry.run) in
            let piece = piece_data self.entry in
            result ≡ piece_rect rect (measures metrics.entry) direction count piece }
        ensures near { IsOnRun result }
    {
        if self.is_whole() {
            return whole_rect(rect);
        }
        self.cut(rect, metrics, direction)
    }

    /// The box of the piece, from its run's data.
    fn placed(self, rect: Rect, metrics: Metrics<'_>, direction: TextDirection) -> WideRect
        ensures { result ≡ box_of self.entry rect (measures metrics.entry) direction }
    {
        let in_run = self.rect_in_run(rect, metrics, direction);
        ordered(moved(in_run, self.run.whole_move()))
    }

    /// The box of the piece, if its run has a rectangle, metrics and a direction.
    fn bounding_box(self) -> Option<WideRect>
        ensures { result ≡ piece_box (text_around self.entry.run) (piece_data self.entry) }
    {
        let rect = self.run.node().bounds()?;
        let metrics = metrics_of(self.run)?;
        let direction = direction_of(self.run)?;
        Some(self.placed(rect, metrics, direction))
    }
}

impl TextRange<'_> {
    /// The boxes of the range, in units of 1/64 pixel, after the translations of the runs and all their ancestors: one
    /// for each run that the range covers, in order. An empty range has one box, at its position. The list is empty if
    /// one of the runs has no rectangle, no positions or widths of characters, or no direction. Allocates the list.
    ///
    /// # Errors
    ///
    /// Returns `AllocError` if memory runs out.
    #[tactic(auto, using(model::proofs::Text::Secrets::one_text))]
    pub fn bounding_boxes(&self, alloc: Global) -> Result<Vec<WideRect>, AllocError>
        ensures boxes { let all = bounding_boxes (text_in self.now) (range_at self.now) in
            IfOk result (λ boxes. boxes.items ≡ all) }
        ensures secret { IfOk result (λ boxes. InEachText self.now.root (λ t. boxes.items ≡ bounding_boxes t (range_at self.now))) }
    {
        let range = *self;
        let mut boxes = Vec::new(alloc);
        let (mut piece, last) = range.first_and_last();
        loop {
            let Some(shown) = piece.bounding_box() else {
                return Ok(Vec::new(alloc));
            };
            boxes.push(shown)?;
            let Some(next) = range.next_piece(piece.run, last) else {
                return Ok(boxes);
            };
            piece = next;
        }
    }
}
