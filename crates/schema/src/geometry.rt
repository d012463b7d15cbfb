//! Rectangles, points and translations.
//!
//! All lengths are in units of 1/64 pixel. A node stores narrow numbers; sums over a whole tree are wide, so that no
//! sum overflows.

ghost use Rattle.std.specs.Prelude.{◌≡◌, true, ℤ, pos, ◌*ℤ◌, ◌<ℤ◌, SomeIff, IfSome, FitsSigned};
ghost use Rattle.std.specs.Int.{int_gap, saturate_signed, w32, w64};
ghost use Rattle.schema.specs.Boxes.{has_point, is_between, middle, wide_has_point};

/// How many units a pixel has.
const UNITS_OF_PIXEL: i32 = 64;

/// A rectangle, from `(x0, y0)` to `(x1, y1)`, in units of 1/64 pixel. A rectangle can be empty or reversed.
#[derive(Clone, Copy, Debug, PartialEq, Eq, Hash)]
pub struct Rect {
    pub x0: i32,
    pub y0: i32,
    pub x1: i32,
    pub y1: i32,
}

impl Rect {
    /// The rectangle from `(x0, y0)` to `(x1, y1)`.
    pub fn new(x0: i32, y0: i32, x1: i32, y1: i32) -> Rect
        ensures { result ≡ record { x0 = x0; y0 = y0; x1 = x1; y1 = y1 } }
    {
        Rect { x0, y0, x1, y1 }
    }

    /// The rectangle with these corners in pixels. Values beyond the range of a rectangle (more than 33 million pixels)
    /// are clamped to it.
    pub fn from_pixels(x0: i32, y0: i32, x1: i32, y1: i32) -> Rect
        ensures { result ≡ record {
          x0 = saturate_signed w32 (x0 *ℤ pos 64);
          y0 = saturate_signed w32 (y0 *ℤ pos 64);
          x1 = saturate_signed w32 (x1 *ℤ pos 64);
          y1 = saturate_signed w32 (y1 *ℤ pos 64);
        } }
    {
        Rect {
            x0: x0.saturating_mul(UNITS_OF_PIXEL),
            y0: y0.saturating_mul(UNITS_OF_PIXEL),
            x1: x1.saturating_mul(UNITS_OF_PIXEL),
            y1: y1.saturating_mul(UNITS_OF_PIXEL),
        }
    }

    /// The width, in units of 1/64 pixel. A reversed rectangle is empty and has the width 0.
    pub fn width(&self) -> u32
        ensures { result ≡ int_gap self.now.x0 self.now.x1 }
    {
        distance(self.x0, self.x1)
    }

    /// The height, in units of 1/64 pixel. A reversed rectangle is empty and has the height 0.
    pub fn height(&self) -> u32
        ensures { result ≡ int_gap self.now.y0 self.now.y1 }
    {
        distance(self.y0, self.y1)
    }

    /// The point in the middle, rounded down. It lies in the rectangle unless the rectangle is empty.
    pub fn center(&self) -> Point
        ensures value { result ≡ record {
          x = middle self.now.x0 self.now.x1;
          y = middle self.now.y0 self.now.y1;
        } }
        ensures inside { self.now.x0 <ℤ self.now.x1 → self.now.y0 <ℤ self.now.y1 → has_point self.now result ≡ true }
    {
        Point {
            x: middle_of(self.x0, self.x1),
            y: middle_of(self.y0, self.y1),
        }
    }

    /// Whether the rectangle contains the point. The left and the upper side belong to it, the right and the lower side
    /// don't; a reversed rectangle contains nothing.
    pub fn contains(&self, point: Point) -> bool
        ensures { result ≡ has_point self.now point }
    {
        is_in_span(self.x0, self.x1, point.x) && is_in_span(self.y0, self.y1, point.y)
    }
}

/// A point, in units of 1/64 pixel.
#[derive(Clone, Copy, Debug, PartialEq, Eq, Hash)]
pub struct Point {
    pub x: i64,
    pub y: i64,
}

impl Point {
    /// The point `(x, y)`.
    pub fn new(x: i64, y: i64) -> Point
        ensures { result ≡ record { x = x; y = y } }
    {
        Point { x, y }
    }

    /// The point with these coordinates in pixels.
    pub fn from_pixels(x: i32, y: i32) -> Point
        ensures { result ≡ record { x = x *ℤ pos 64; y = y *ℤ pos 64 } }
    {
        Point {
            x: x as i64 * UNITS_OF_PIXEL as i64,
            y: y as i64 * UNITS_OF_PIXEL as i64,
        }
    }
}

/// By how much a node and its subtree are shifted, in units of 1/64 pixel.
#[derive(Clone, Copy, Debug, PartialEq, Eq, Hash)]
pub struct Translation {
    pub x: i32,
    pub y: i32,
}

impl Translation {
    /// A shift to the right by `x` and down by `y`.
    pub fn new(x: i32, y: i32) -> Translation
        ensures { result ≡ record { x = x; y = y } }
    {
        Translation { x, y }
    }
}

/// A rectangle after a sum of translations, in units of 1/64 pixel.
#[derive(Clone, Copy, Debug, PartialEq, Eq, Hash)]
pub struct WideRect {
    pub x0: i128,
    pub y0: i128,
    pub x1: i128,
    pub y1: i128,
}

impl WideRect {
    /// The width, in units of 1/64 pixel. A reversed rectangle is empty and has the width 0.
    pub fn width(&self) -> u128
        ensures { result ≡ int_gap self.now.x0 self.now.x1 }
    {
        distance_of_wide(self.x0, self.x1)
    }

    /// The height, in units of 1/64 pixel. A reversed rectangle is empty and has the height 0.
    pub fn height(&self) -> u128
        ensures { result ≡ int_gap self.now.y0 self.now.y1 }
    {
        distance_of_wide(self.y0, self.y1)
    }

    /// The point in the middle, as [`Rect::center`] gives it; `None` if it is out of range for a [`Point`].
    pub fn center(&self) -> Option<Point>
        ensures value { let x : ℤ = middle self.now.x0 self.now.x1 in let y : ℤ = middle self.now.y0 self.now.y1 in
            SomeIff result (FitsSigned w64 x × FitsSigned w64 y) (record { x = x; y = y }) }
        ensures inside { IfSome result (λ p.
            self.now.x0 <ℤ self.now.x1 → self.now.y0 <ℤ self.now.y1 → wide_has_point self.now p ≡ true) }
    {
        let x = middle_of_wide(self.x0, self.x1)?;
        let y = middle_of_wide(self.y0, self.y1)?;
        Some(Point { x, y })
    }

    /// Whether the rectangle contains the point, by the rule of [`Rect::contains`].
    pub fn contains(&self, point: Point) -> bool
        ensures { result ≡ wide_has_point self.now point }
    {
        is_in_wide_span(self.x0, self.x1, point.x) && is_in_wide_span(self.y0, self.y1, point.y)
    }
}

/// A sum of translations, in units of 1/64 pixel.
#[derive(Clone, Copy, Debug, PartialEq, Eq, Hash)]
pub struct WideTranslation {
    pub x: i128,
    pub y: i128,
}

/// How far the second number is above the first.
fn distance(low: i32, high: i32) -> u32
    ensures { result ≡ int_gap low high }
{
    if low < high { high.abs_diff(low) } else { 0 }
}

/// How far the second number is above the first.
fn distance_of_wide(low: i128, high: i128) -> u128
    ensures { result ≡ int_gap low high }
{
    if low < high { high.abs_diff(low) } else { 0 }
}

/// Whether a number lies in a span, from its start to before its end.
fn is_in_span(low: i32, high: i32, number: i64) -> bool
    ensures { result ≡ is_between low high number }
{
    i64::from(low) <= number && number < i64::from(high)
}

/// Whether a number lies in a span, from its start to before its end.
fn is_in_wide_span(low: i128, high: i128, number: i64) -> bool
    ensures { result ≡ is_between low high number }
{
    low <= i128::from(number) && i128::from(number) < high
}

/// The middle of a span.
fn middle_of(low: i32, high: i32) -> i64
    ensures value { result ≡ middle low high }
    ensures inside { low <ℤ high → is_between low high result ≡ true }
{
    (i64::from(low) + i64::from(high)).div_euclid(2)
}

/// The middle of a span, if it fits a point.
fn middle_of_wide(low: i128, high: i128) -> Option<i64>
    ensures value { SomeIff result (FitsSigned w64 (middle low high)) (middle low high) }
    ensures inside { IfSome result (λ m. low <ℤ high → is_between low high m ≡ true) }
{
    let sum = low.checked_add(high)?;
    i64::try_from(sum.div_euclid(2)).ok()
}
