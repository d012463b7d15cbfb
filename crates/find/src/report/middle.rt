//! The node at the middle of a rectangle.
ghost use Rattle.std.specs.Prelude.{◌≡◌, ◌-ℤ◌, FitsSigned, IfSome, option_map};
ghost use Rattle.std.specs.Int.{w64};
ghost use Rattle.std.specs.Option.{SomeIff};
ghost use Rattle.views.specs.Nodes.{world_at, id_at};
ghost use Rattle.find.specs.Middle.{middle_of, seen_from, middle_seen, node_at_middle};

use accesskit_consumer::filters::common_filter;
use accesskit_consumer::node::NodeRef;
use schema::{Point, Translation, WideRect};

/// The node that the common filter shows at the middle of a rectangle.
pub(crate) fn at_middle<'a>(top: NodeRef<'a>, bounds: WideRect) -> Option<NodeRef<'a>>
    ensures world { IfSome result (λ hit. world_at hit ≡ world_at top.entry) }
    ensures node { option_map id_at result ≡ node_at_middle (world_at top.entry) (id_at top.entry) bounds }
{
    let point = middle_seen(top.direct_transform(), bounds)?;
    top.node_at_point(point, &common_filter)
}

/// The middle of a rectangle in the coordinates of a node with this translation of its own.
fn middle_seen(own: Translation, bounds: WideRect) -> Option<Point>
    ensures { result ≡ middle_seen own bounds }
{
    let middle = middle_of(bounds)?;
    seen_from(own, middle)
}

/// The middle of a rectangle, if both of its numbers are coordinates.
fn middle_of(bounds: WideRect) -> Option<Point>
    ensures { result ≡ middle_of bounds }
{
    bounds.center()
}

/// A point without a translation, if both numbers are coordinates.
fn seen_from(own: Translation, point: Point) -> Option<Point>
    ensures { result ≡ seen_from own point }
{
    moved_back(own, point)
}

/// The same, said by the numbers.
fn moved_back(own: Translation, point: Point) -> Option<Point>
    ensures { SomeIff result (FitsSigned w64 (point.x -ℤ own.x) × FitsSigned w64 (point.y -ℤ own.y))
        (record { x = point.x -ℤ own.x; y = point.y -ℤ own.y }) }
{
    let x = difference(point.x, own.x)?;
    let y = difference(point.y, own.y)?;
    Some(Point { x, y })
}

/// A number less another one, if that is a coordinate.
fn difference(number: i64, other: i32) -> Option<i64>
    ensures { SomeIff result (FitsSigned w64 (number -ℤ other)) (number -ℤ other) }
{
    number.checked_sub(i64::from(other))
}
