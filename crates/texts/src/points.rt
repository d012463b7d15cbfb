//! The position of a text at a point.
ghost use Rattle.std.specs.Prelude.{◌≡◌, ◌≤◌, ◌||◌, ◌-ℤ◌, true, false, None, int_lt, IfSome, option_map};
ghost use Rattle.model.specs.TextRuns.{said_count, supports_text_ranges};
ghost use Rattle.model.specs.FlatText.{count, run_has};
ghost use Rattle.model.specs.Geometry.{seen_from};
ghost use Rattle.model.specs.Points.{is_in_run, distance, index_at, box_in_root, is_ahead_of, is_past_box, is_past, position_at_point};
ghost use Rattle.views.specs.Nodes.{world_at, id_at};
ghost use Rattle.views.specs.Reach.{IsInReach};
ghost use Rattle.views.specs.Runs.{text_root_of, run_world, root_id, sent_of};
ghost use Rattle.text_boundaries.specs.RunNumbers.{number_in};
ghost use Rattle.texts.specs.Positions.{IsPositionAt, node_text};
ghost use Rattle.views.specs.SeenPoints.{wide_of};
ghost use Rattle.texts.specs.Measures.{shown_in};
ghost use Rattle.texts.specs.declared.points.PointTest.TheVariants.{Inside};
ghost use Rattle.texts.specs.PointTests.{passes, last_passing, IsSeen};

use crate::ends::document_end;
use crate::metrics::{is_between, metrics_of};
use crate::position::TextPosition;
use schema::{Point, Rect, TextDirection, WideRect, WideTranslation};
use views::NodeRef;
use views::node::geometry::{moved_rect, ordered};
use views::runs::Run;
use views::walks::hits::{SeenPoint, contains};

/// The relation of a point to a run: in the run's own rectangle, or beside its box, on the side where its text ends.
#[derive(Clone, Copy)]
enum PointTest {
    Inside,
    Past,
}

/// A coordinate minus a translation.
fn less(number: i64, by: i128) -> i128
    requires { IsInReach by }
    ensures exact { result ≡ number -ℤ by }
    ensures seen { IsSeen result }
{
    i128::from(number) - by
}

/// The point in the coordinates of something that was translated.
fn seen_from(by: WideTranslation, point: Point) -> SeenPoint
    requires across { IsInReach by.x }
    requires along { IsInReach by.y }
    ensures exact { wide_of result ≡ seen_from by point }
    ensures across { IsSeen result.x }
    ensures along { IsSeen result.y }
{
    SeenPoint {
        x: less(point.x, by.x),
        y: less(point.y, by.y),
    }
}

/// The distance from the edge up to the coordinate.
fn from_edge(edge: i32, seen: i128) -> i128
    requires { IsSeen seen }
    ensures { result ≡ seen -ℤ edge }
{
    seen - i128::from(edge)
}

/// The distance from the coordinate up to the edge.
fn to_edge(edge: i32, seen: i128) -> i128
    requires { IsSeen seen }
    ensures { result ≡ edge -ℤ seen }
{
    i128::from(edge) - seen
}

/// The distance of the point along the rectangle.
fn distance(direction: TextDirection, rect: Rect, seen: SeenPoint) -> i128
    requires across { IsSeen seen.x }
    requires along { IsSeen seen.y }
    ensures { result ≡ distance direction rect (wide_of seen) }
{
    match direction {
        TextDirection::LeftToRight => from_edge(rect.x0, seen.x),
        TextDirection::RightToLeft => to_edge(rect.x1, seen.x),
        TextDirection::TopToBottom => from_edge(rect.y0, seen.y),
        TextDirection::BottomToTop => to_edge(rect.y1, seen.y),
    }
}

/// Whether the point is left of or above the box.
fn is_ahead_of_box(point: Point, around: WideRect) -> bool
    ensures { result ≡ (int_lt point.x around.x0 || int_lt point.y around.y0) }
{
    i128::from(point.x) < around.x0 || i128::from(point.y) < around.y0
}

/// Whether the point is beside the box, on the side where its text ends.
fn is_past_box(point: Point, direction: TextDirection, around: WideRect) -> bool
    ensures { result ≡ is_past_box point direction around }
{
    let x = i128::from(point.x);
    let y = i128::from(point.y);
    match direction {
        TextDirection::LeftToRight => is_between(around.y0, around.y1, y) && around.x1 <= x,
        TextDirection::RightToLeft => is_between(around.y0, around.y1, y) && x < around.x0,
        TextDirection::TopToBottom => is_between(around.x0, around.x1, x) && around.y1 <= y,
        TextDirection::BottomToTop => is_between(around.x0, around.x1, x) && y < around.y0,
    }
}

/// The direction of the run's text.
pub(crate) fn direction_of(run: Run<'_>) -> Option<TextDirection>
    ensures { result ≡ (shown_in run.entry).direction }
{
    run.view().text_direction()
}

/// The number of characters that the run shows.
fn shown_count(run: Run<'_>) -> usize
    ensures exact { result ≡ count (shown_in run.entry) }
    ensures said { result ≡ said_count (sent_of run.entry) }
{
    run.character_count()
}

/// The run's rectangle in the root's coordinates.
fn box_in_root(run: Run<'_>) -> Option<WideRect>
    ensures { result ≡ box_in_root (shown_in run.entry) }
{
    let rect = run.node().bounds()?;
    Some(ordered(moved_rect(rect, run.move_in_root())))
}

/// Whether the point is in the run's own rectangle, translated as the run is.
fn is_around(run: Run<'_>, point: Point) -> bool
    ensures { result ≡ is_in_run point (shown_in run.entry) }
{
    match run.node().bounds() {
        Some(rect) => contains(rect, seen_from(run.move_in_root(), point)),
        None => false,
    }
}

/// Whether the point is left of or above the run's box.
fn is_after(run: Run<'_>, point: Point) -> bool
    ensures { result ≡ is_ahead_of point (shown_in run.entry) }
{
    match box_in_root(run) {
        Some(around) => is_ahead_of_box(point, around),
        None => false,
    }
}

/// Whether the point is beside the run's box, on the side where its text ends.
fn ends_before(run: Run<'_>, point: Point) -> bool
    ensures { result ≡ is_past point (shown_in run.entry) }
{
    let Some(around) = box_in_root(run) else {
        return false;
    };
    let Some(direction) = direction_of(run) else {
        return false;
    };
    is_past_box(point, direction, around)
}

/// Whether the point has this relation to the run.
fn passes(run: Run<'_>, test: PointTest, point: Point) -> bool
    ensures { result ≡ passes test point (shown_in run.entry) }
{
    match test {
        PointTest::Inside => is_around(run, point),
        PointTest::Past => ends_before(run, point),
    }
}

/// The last run of a root to which the point has this relation.
fn last_at<'a>(root: NodeRef<'a>, test: PointTest, point: Point) -> Option<Run<'a>>
    ensures same { IfSome result (λ r. text_root_of r ≡ root.entry) }
    ensures found { option_map number_in result ≡ last_passing root.entry test point }
{
    let mut run = Run::last(root)?;
    loop {
        if passes(run, test, point) {
            return Some(run);
        }
        let Some(previous) = run.previous() else {
            return None;
        };
        run = previous;
    }
}

/// The index at a point in a run: 0 if the run has no metrics, and the run's end if no character covers the point.
fn index_at(run: Run<'_>, point: Point) -> usize
    requires { supports_text_ranges (run_world run) (root_id run) ≡ true }
    ensures exact { result ≡ index_at point (shown_in run.entry) }
    ensures within { result ≤ said_count (sent_of run.entry) }
{
    let Some(rect) = run.node().bounds() else {
        return 0;
    };
    let Some(metrics) = metrics_of(run) else {
        return 0;
    };
    let Some(direction) = direction_of(run) else {
        return 0;
    };
    let along = distance(direction, rect, seen_from(run.move_in_root(), point));
    match metrics.character_at(along) {
        Some(index) => index,
        None => shown_count(run),
    }
}

/// The position at a point that is in no run and not left of or above the first one.
fn position_past<'a>(root: NodeRef<'a>, point: Point) -> TextPosition<'a>
    requires text { supports_text_ranges (world_at root) (id_at root) ≡ true }
    requires outside { last_passing root Inside point ≡ None }
    requires beyond { run_has (is_ahead_of point) (node_text root) 0 ≡ false }
    ensures { IsPositionAt root.entry (position_at_point (node_text root.entry) point) result }
{
    let Some(run) = last_at(root, PointTest::Past, point) else {
        return document_end(root);
    };
    TextPosition {
        run,
        index: shown_count(run),
    }
}

/// The position at a point that is in no run.
fn position_beside<'a>(root: NodeRef<'a>, point: Point) -> TextPosition<'a>
    requires text { supports_text_ranges (world_at root) (id_at root) ≡ true }
    requires outside { last_passing root Inside point ≡ None }
    ensures { IsPositionAt root.entry (position_at_point (node_text root.entry) point) result }
{
    let first = Run::first(root).unwrap();
    if is_after(first, point) {
        return TextPosition {
            run: first,
            index: 0,
        };
    }
    position_past(root, point)
}

/// The position at a point of a node's text. Requires that the node supports text ranges.
pub(crate) fn position_at<'a>(root: NodeRef<'a>, point: Point) -> TextPosition<'a>
    requires { supports_text_ranges (world_at root) (id_at root) ≡ true }
    ensures { IsPositionAt root.entry (position_at_point (node_text root.entry) point) result }
{
    let Some(run) = last_at(root, PointTest::Inside, point) else {
        return position_beside(root, point);
    };
    TextPosition {
        run,
        index: index_at(run, point),
    }
}
