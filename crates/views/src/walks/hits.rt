//! Hit tests: the node at a point.
ghost use Rattle.std.specs.Prelude.{◌≡◌, ◌||◌, ℕ, ◌+◌, ◌^◌, ◌+ℤ◌, ◌-ℤ◌, false, IfSome, FitsSigned, option_map, if◌then◌else◌};
ghost use Rattle.std.specs.Fn.{FnReturnsAt};
ghost use Rattle.std.specs.Int.{w32};
ghost use Rattle.std.specs.Option.{option_map_or};
ghost use Rattle.model.specs.declared.FullNodeId.{FullNodeId};
ghost use Rattle.model.specs.declared.filters.FilterResult.{FilterResult};
ghost use Rattle.model.specs.Upward.{field_at};
ghost use Rattle.model.specs.Covers.{is_cut_off};
ghost use Rattle.model.specs.Geometry.{is_between, contains_point, direct_transform, hit as hit_of};
ghost use Rattle.model.specs.Hits.{wide_point, seen_by_child, seen_by_parent, is_hit, hit_seen};
ghost use Rattle.views.specs.Nodes.{world_at, id_at};
ghost use Rattle.views.specs.Follows.{Follows};
ghost use Rattle.views.specs.SeenPoints.{IsNear, AreNear, wide_of, is_bare_miss};

use crate::node::NodeRef;
use crate::node::kin::is_included;
use crate::walks::filter::{ByRef, Filter};
use crate::walks::spot::Member;
use model::filters::FilterResult;
use model::is_same;
use schema::{Point, Rect, Translation};

/// A point in a node's coordinates, in wide numbers.
#[derive(Clone, Copy)]
pub struct SeenPoint {
    pub x: i128,
    pub y: i128,
}

/// By how much a node shifts itself and its subtree.
fn own_move(node: NodeRef<'_>) -> Translation
    ensures exact { result ≡ direct_transform (world_at node.entry) (id_at node.entry) }
    ensures across { FitsSigned w32 result.x }
    ensures along { FitsSigned w32 result.y }
{
    match node.node.transform() {
        Some(own) => own,
        None => Translation { x: 0, y: 0 },
    }
}

/// A coordinate as a wide number.
fn wide(number: i64) -> i128
    ensures is { result ≡ number }
    ensures near { IsNear 0 result }
{
    i128::from(number)
}

/// A point before any translation.
fn unmoved(point: Point) -> SeenPoint
    ensures is { wide_of result ≡ wide_point point }
    ensures near { AreNear 0 result }
{
    SeenPoint {
        x: wide(point.x),
        y: wide(point.y),
    }
}

/// A coordinate minus a translation.
fn minus(seen: i128, own: i32) -> i128
    requires { IsNear (2 ^ 90) seen }
    ensures is { result ≡ seen -ℤ own }
    ensures near { (n : ℕ) → IsNear n seen → IsNear (n + 1) result }
{
    seen - i128::from(own)
}

/// A coordinate plus a translation.
fn plus(seen: i128, own: i32) -> i128
    requires { IsNear (2 ^ 90) seen }
    ensures is { result ≡ seen +ℤ own }
    ensures near { (n : ℕ) → IsNear n seen → IsNear (n + 1) result }
{
    seen + i128::from(own)
}

/// The point in the coordinates of a child, from those of its parent; or in the parent's, from those of the child.
fn seen_across(seen: SeenPoint, child: NodeRef<'_>, is_into: bool) -> SeenPoint
    requires { AreNear (2 ^ 90) seen }
    ensures is { let w = world_at child.entry in
        let turned = if is_into then seen_by_child else seen_by_parent in
        wide_of result ≡ turned w (id_at child.entry) (wide_of seen) }
    ensures near { (n : ℕ) → AreNear n seen → AreNear (n + 1) result }
{
    let own = own_move(child);
    if is_into {
        return SeenPoint {
            x: minus(seen.x, own.x),
            y: minus(seen.y, own.y),
        };
    }
    SeenPoint {
        x: plus(seen.x, own.x),
        y: plus(seen.y, own.y),
    }
}

/// Whether a number lies in a span, from its start to before its end.
fn is_in_span(low: i32, high: i32, seen: i128) -> bool
    ensures { result ≡ is_between low high seen }
{
    i128::from(low) <= seen && seen < i128::from(high)
}

/// Whether a rectangle contains the point. A reversed one contains nothing.
pub fn contains(rect: Rect, seen: SeenPoint) -> bool
    ensures { result ≡ contains_point rect (wide_of seen) }
{
    is_in_span(rect.x0, rect.x1, seen.x) && is_in_span(rect.y0, rect.y1, seen.y)
}

/// Whether the node has a rectangle that contains the point.
fn is_at(node: NodeRef<'_>, seen: SeenPoint) -> bool
    ensures { let bounds = field_at (λ d. d.bounds) (world_at node.entry) (id_at node.entry) in
        result ≡ option_map_or (λ r. contains_point r (wide_of seen)) bounds false }
{
    match node.node.bounds() {
        Some(rect) => contains(rect, seen),
        None => false,
    }
}

/// Whether a node with this many children has no child and doesn't contain the point itself.
fn is_bare_miss(node: NodeRef<'_>, count: usize, seen: SeenPoint) -> bool
    ensures { result ≡ is_bare_miss (world_at node.entry) (id_at node.entry) count (wide_of seen) }
{
    count == 0 && !is_at(node, seen)
}

/// Whether the filter excludes a node with its subtree.
pub(crate) fn is_cut<F: Filter>(node: NodeRef<'_>, filter: &F) -> bool
    requires { F.can_answer filter.now }
    ensures { let w = world_at node.entry in
        (f : FullNodeId → FilterResult) → Follows (F.answers filter.now) w f →
        result ≡ is_cut_off (f (id_at node.entry)) }
{
    match filter.answer(&node) {
        FilterResult::Include => false,
        FilterResult::ExcludeNode => false,
        FilterResult::ExcludeSubtree => true,
    }
}

/// Whether the node itself is hit.
fn is_hit_itself<F: Filter>(node: NodeRef<'_>, seen: SeenPoint, filter: &F) -> bool
    requires { F.can_answer filter.now }
    ensures { let w = world_at node.entry in
        (f : FullNodeId → FilterResult) → Follows (F.answers filter.now) w f →
        result ≡ is_hit f w (id_at node.entry) (wide_of seen) }
{
    is_at(node, seen) && is_included(filter.answer(&node))
}

/// Whether a node with this many children can be skipped: the filter excludes its subtree, or it has no child and
/// doesn't contain the point.
fn is_missed<F: Filter>(node: NodeRef<'_>, count: usize, seen: SeenPoint, filter: &F) -> bool
    requires { F.can_answer filter.now }
    ensures { let w = world_at node.entry in
        (f : FullNodeId → FilterResult) → Follows (F.answers filter.now) w f →
        let id = id_at node.entry in
        result ≡ (is_cut_off (f id) || is_bare_miss w id count (wide_of seen)) }
{
    is_bare_miss(node, count, seen) || is_cut(node, filter)
}

/// The node hit at a point in the coordinates of `top`: the last one in pre-order.
fn hit_below<'a, F: Filter>(top: NodeRef<'a>, at: SeenPoint, filter: &F) -> Option<NodeRef<'a>>
    requires can { F.can_answer filter.now }
    requires near { AreNear 0 at }
    ensures world { IfSome result (λ n. world_at n ≡ world_at top.entry) }
    ensures exact { let w = world_at top.entry in
        (f : FullNodeId → FilterResult) → Follows (F.answers filter.now) w f →
        option_map id_at result ≡ hit_seen f w (id_at top.entry) (wide_of at) }
{
    let state = top.state;
    state.know();
    state.know_count();
    let _root = state.root_id();
    if is_cut(top, filter) {
        return None;
    }
    let mut parent = Member {
        id: top.id,
        node: top.node,
        place: top.place,
    };
    let mut index = state.child_count(parent);
    let mut seen = at;
    loop {
        if index > 0 {
            let Some(child) = state.child(parent, index - 1) else {
                return None;
            };
            let node = NodeRef {
                state,
                id: child.member.id,
                node: child.member.node,
                place: child.member.place,
            };
            let below = seen_across(seen, node, true);
            let count = state.child_count(child.member);
            if is_missed(node, count, below, filter) {
                index -= 1;
            } else {
                parent = child.member;
                index = count;
                seen = below;
            }
        } else {
            let node = NodeRef {
                state,
                id: parent.id,
                node: parent.node,
                place: parent.place,
            };
            if is_hit_itself(node, seen, filter) {
                return Some(node);
            }
            if is_same(top.id, parent.id) {
                return None;
            }
            let Some(above) = state.spot(parent) else {
                return None;
            };
            seen = seen_across(seen, node, false);
            parent = above.parent;
            index = above.index;
        }
    }
}

impl<'a> NodeRef<'a> {
    /// The node at a point, given in this node's coordinates and in units of 1/64 pixel. It is the last node in
    /// pre-order, among this node and those below it, that the filter includes and whose own rectangle contains the
    /// point. Subtrees that the filter excludes are skipped.
    pub fn node_at_point<F: Fn(&NodeRef<'_>) -> FilterResult>(
        &self,
        point: Point,
        filter: &F,
    ) -> Option<NodeRef<'a>>
        requires { F.IsAlwaysCallable filter.now }
        ensures world { IfSome result (λ n. world_at n ≡ world_at self.now) }
        ensures exact { let w = world_at self.now in
            (f : FullNodeId → FilterResult) → Follows (FnReturnsAt F.Fn filter.now) w f →
            option_map id_at result ≡ hit_of f w (id_at self.now) point }
    {
        hit_below(*self, unmoved(point), &ByRef { f: filter })
    }
}
