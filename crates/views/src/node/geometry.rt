//! Where a node lies.
ghost use Rattle.std.specs.Prelude.{◌≡◌, is_some, ◌+ℤ◌, int_lt, FitsSigned};
ghost use Rattle.std.specs.Int.{int_min, int_max, w32};
ghost use Rattle.model.specs.Geometry.{direct_transform, transform, bounding_box, meets, whole_rect, moved_rect, ordered_rect};
ghost use Rattle.views.specs.Nodes.{world_at, id_at, data_at};
ghost use Rattle.views.specs.Reach.{is_top, transform_to_top, IsInReach};

use crate::node::NodeRef;
use model::{FullNodeId, is_same};
use schema::{Rect, Translation, WideRect, WideTranslation};

impl NodeRef<'_> {
    /// The node's rectangle as sent in the update, before any translation, in units of 1/64 pixel.
    pub fn raw_bounds(&self) -> Option<Rect>
        ensures { result ≡ (data_at self.now).bounds }
    {
        self.node.bounds()
    }

    /// Whether the node has a rectangle.
    pub fn has_bounds(&self) -> bool
        ensures { result ≡ is_some (data_at self.now).bounds }
    {
        self.node.bounds().is_some()
    }

    /// By how much the node shifts itself and its subtree, in units of 1/64 pixel.
    pub fn direct_transform(&self) -> Translation
        ensures { result ≡ direct_transform (world_at self.now) (id_at self.now) }
    {
        match self.node.transform() {
            Some(translation) => translation,
            None => Translation { x: 0, y: 0 },
        }
    }

    /// By how much the node is shifted: the sum of its own translation and those of all its ancestors, across grafts,
    /// in units of 1/64 pixel.
    pub fn transform(&self) -> WideTranslation
        ensures { result ≡ transform (world_at self.now) (id_at self.now) }
    {
        self.whole_move()
    }

    /// The node's own translation, as narrow numbers.
    fn own_move(self) -> Translation
        ensures exact { result ≡ direct_transform (world_at self.entry) (id_at self.entry) }
        ensures across { FitsSigned w32 result.x }
        ensures along { FitsSigned w32 result.y }
    {
        self.direct_transform()
    }

    /// The sum of the translations of the node and its ancestors, up to the one below `top` if there is a top. Adding a
    /// rectangle to it doesn't overflow.
    pub(crate) fn move_to_top(self, top: Option<FullNodeId>) -> WideTranslation
        ensures exact { result ≡ transform_to_top (world_at self.entry) top (id_at self.entry) }
        ensures across { IsInReach result.x }
        ensures along { IsInReach result.y }
    {
        self.state.know();
        self.state.know_count();
        let mut sum = WideTranslation { x: 0, y: 0 };
        let mut current = self;
        while !is_top(top, current.id) {
            sum = added(sum, current.own_move());
            let Some(parent) = current.parent() else {
                return sum;
            };
            current = parent;
        }
        sum
    }

    /// By how much the node is shifted. Adding a rectangle to it doesn't overflow.
    pub(crate) fn whole_move(self) -> WideTranslation
        ensures exact { result ≡ transform (world_at self.entry) (id_at self.entry) }
        ensures across { IsInReach result.x }
        ensures along { IsInReach result.y }
    {
        self.move_to_top(None)
    }

    /// The node's rectangle after all translations, in units of 1/64 pixel; on each axis it goes from the lower to the
    /// higher coordinate.
    pub fn bounding_box(&self) -> Option<WideRect>
        ensures { result ≡ bounding_box (world_at self.now) (id_at self.now) }
    {
        let rect = self.node.bounds()?;
        Some(ordered(moved_rect(rect, self.whole_move())))
    }
}

/// Whether the node is the top, if there is one.
fn is_top(top: Option<FullNodeId>, id: FullNodeId) -> bool
    ensures { result ≡ is_top top id }
{
    match top {
        Some(top) => is_same(top, id),
        None => false,
    }
}

/// A sum with one more translation.
fn one_more(sum: i128, own: i32) -> i128
    requires { IsInReach (sum +ℤ own) }
    ensures { result ≡ sum +ℤ own }
{
    sum + i128::from(own)
}

/// A sum with one more translation.
fn added(sum: WideTranslation, own: Translation) -> WideTranslation
    requires across { IsInReach (sum.x +ℤ own.x) }
    requires along { IsInReach (sum.y +ℤ own.y) }
    ensures sum { result ≡ record { x = sum.x +ℤ own.x; y = sum.y +ℤ own.y } }
    ensures across { IsInReach result.x }
    ensures along { IsInReach result.y }
{
    WideTranslation {
        x: one_more(sum.x, own.x),
        y: one_more(sum.y, own.y),
    }
}

/// The sum of an edge and a translation.
fn plus(edge: i32, by: i128) -> i128
    requires { IsInReach by }
    ensures { result ≡ edge +ℤ by }
{
    i128::from(edge) + by
}

/// The rectangle after a translation.
pub fn moved_rect(rect: Rect, by: WideTranslation) -> WideRect
    requires across { IsInReach by.x }
    requires along { IsInReach by.y }
    ensures { result ≡ moved_rect (whole_rect rect) by }
{
    WideRect {
        x0: plus(rect.x0, by.x),
        y0: plus(rect.y0, by.y),
        x1: plus(rect.x1, by.x),
        y1: plus(rect.y1, by.y),
    }
}

/// The rectangle, on each axis from the lower to the higher coordinate.
pub fn ordered(rect: WideRect) -> WideRect
    ensures { result ≡ ordered_rect rect }
{
    WideRect {
        x0: rect.x0.min(rect.x1),
        y0: rect.y0.min(rect.y1),
        x1: rect.x0.max(rect.x1),
        y1: rect.y0.max(rect.y1),
    }
}

/// Whether the rectangles overlap on the first axis: the higher start is below the lower end.
fn meets_across(a: WideRect, b: WideRect) -> bool
    ensures { result ≡ int_lt (int_max a.x0 b.x0) (int_min a.x1 b.x1) }
{
    a.x0.max(b.x0) < a.x1.min(b.x1)
}

/// Whether the rectangles overlap on the second axis.
fn meets_along(a: WideRect, b: WideRect) -> bool
    ensures { result ≡ int_lt (int_max a.y0 b.y0) (int_min a.y1 b.y1) }
{
    a.y0.max(b.y0) < a.y1.min(b.y1)
}

/// Whether the rectangles overlap.
pub fn meets(a: WideRect, b: WideRect) -> bool
    ensures { result ≡ meets a b }
{
    meets_across(a, b) && meets_along(a, b)
}
