//! The rectangles of a picture, computed. `picture` writes them.

ghost use Rattle.std.specs.Prelude.{◌≡◌, option_map};
ghost use Rattle.page_states.specs.Boxes.{around, by_so_much, drawn_frame, extent, frame_of, frame_height, frame_width, grown, higher, longer_side, lower, near, near_shown, shown_frame, widened, within};

use crate::places::{Place, drawn_rect};
use schema::WideRect;
use views::filters::FilterResult;

/// A rectangle in units of 1/64 pixel, on each axis from the lower to the higher coordinate.
#[derive(Clone, Copy, Debug, PartialEq, Eq)]
pub(crate) struct Frame {
    pub x0: i64,
    pub y0: i64,
    pub x1: i64,
    pub y1: i64,
}

impl Frame {
    /// The rectangle of a node, clamped to 64 bits.
    pub(crate) fn of(rect: WideRect) -> Frame
        ensures { result ≡ frame_of rect }
    {
        Frame {
            x0: near(rect.x0),
            y0: near(rect.y0),
            x1: near(rect.x1),
            y1: near(rect.y1),
        }
    }

    /// The width, at least 1, so that it is visible.
    pub(crate) fn width(self) -> u64
        ensures { result ≡ frame_width self }
    {
        self.x1.abs_diff(self.x0).max(1)
    }

    /// The height, at least 1, so that it is visible.
    pub(crate) fn height(self) -> u64
        ensures { result ≡ frame_height self }
    {
        self.y1.abs_diff(self.y0).max(1)
    }

    /// The smallest rectangle that contains both.
    fn around(self, other: Frame) -> Frame
        ensures { result ≡ around self other }
    {
        Frame {
            x0: lower(self.x0, other.x0),
            y0: lower(self.y0, other.y0),
            x1: higher(self.x1, other.x1),
            y1: higher(self.y1, other.y1),
        }
    }

    /// The intersection of both.
    fn within(self, other: Frame) -> Frame
        ensures { result ≡ within self other }
    {
        Frame {
            x0: higher(self.x0, other.x0),
            y0: higher(self.y0, other.y0),
            x1: lower(self.x1, other.x1),
            y1: lower(self.y1, other.y1),
        }
    }

    /// The rectangle with this much more on each side.
    pub(crate) fn widened(self, by: u64) -> Frame
        ensures { result ≡ widened by self }
    {
        let by = by_so_much(by);
        Frame {
            x0: self.x0.saturating_sub(by),
            y0: self.y0.saturating_sub(by),
            x1: self.x1.saturating_add(by),
            y1: self.y1.saturating_add(by),
        }
    }

    /// The longer side.
    pub(crate) fn longer_side(self) -> u64
        ensures { result ≡ longer_side self }
    {
        self.width().max(self.height())
    }
}

/// The lower of two coordinates.
fn lower(a: i64, b: i64) -> i64
    ensures { result ≡ lower a b }
{
    a.min(b)
}

/// The higher of two coordinates.
fn higher(a: i64, b: i64) -> i64
    ensures { result ≡ higher a b }
{
    a.max(b)
}

/// A distance, clamped to 63 bits.
fn by_so_much(by: u64) -> i64
    ensures { result ≡ by_so_much by }
{
    match i64::try_from(by) {
        Ok(by) => by,
        Err(_) => i64::MAX,
    }
}

/// The number, clamped to 64 bits.
fn near(number: i128) -> i64
    ensures { result ≡ near number }
{
    match i64::try_from(number) {
        Ok(number) => number,
        Err(_) if number < 0 => i64::MIN,
        Err(_) => i64::MAX,
    }
}

/// The extents of the boxes that are drawn.
#[derive(Clone, Copy, Debug, PartialEq, Eq)]
struct Extents {
    /// The extent of the boxes of nodes that the common filter includes.
    shown: Option<Frame>,
    /// The extent of all that are drawn.
    all: Option<Frame>,
}

impl Extents {
    /// The extent with another node's box.
    fn with(self, place: &Place) -> Extents
        ensures shown { result.shown ≡ grown self.shown (shown_frame place.now) }
        ensures all { result.all ≡ grown self.all (drawn_frame place.now) }
    {
        Extents {
            shown: grown(self.shown, shown_frame(place)),
            all: grown(self.all, drawn_frame(place)),
        }
    }

    /// The frame of a picture: all boxes of included nodes, and others as far as they lie near those.
    fn picture(self) -> Option<Frame>
        ensures { result ≡ option_map (near_shown self.shown) self.all }
    {
        let all = self.all?;
        Some(near_shown(self.shown, all))
    }
}

/// What of a rectangle lies near the boxes of included nodes, if there are such.
fn near_shown(shown: Option<Frame>, all: Frame) -> Frame
    ensures { result ≡ near_shown shown all }
{
    match shown {
        Some(shown) => all.within(shown.widened(shown.longer_side() / 8)),
        None => all,
    }
}

/// The box of a node that is drawn.
fn drawn_frame(place: &Place) -> Option<Frame>
    ensures { result ≡ drawn_frame place.now }
{
    match drawn_rect(place) {
        Some(rect) => Some(Frame::of(rect)),
        None => None,
    }
}

/// The box of a node that is drawn and that the common filter includes.
fn shown_frame(place: &Place) -> Option<Frame>
    ensures { result ≡ shown_frame place.now }
{
    match place.answer {
        FilterResult::Include => drawn_frame(place),
        FilterResult::ExcludeNode | FilterResult::ExcludeSubtree => None,
    }
}

/// The smallest rectangle that contains both, if both are there, and otherwise the one that is.
fn grown(so_far: Option<Frame>, other: Option<Frame>) -> Option<Frame>
    ensures { result ≡ grown so_far other }
{
    match (so_far, other) {
        (Some(so_far), Some(other)) => Some(so_far.around(other)),
        (None, Some(other)) => Some(other),
        (so_far, None) => so_far,
    }
}

/// The extent of the boxes of these nodes that a picture shows, if it draws a box.
pub(crate) fn extent(places: &[Place]) -> Option<Frame>
    ensures { result ≡ extent places.now }
{
    let mut extents = Extents {
        shown: None,
        all: None,
    };
    for place in places {
        extents = extents.with(place);
    }
    extents.picture()
}
