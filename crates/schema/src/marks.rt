//! Which fields of a node are set, a bit each, and its boolean fields.

ghost use Rattle.std.specs.Prelude.{◌≡◌, ◌<◌, ◌==◌, IsTrue, ◌↔◌, true, false};
ghost use Rattle.std.specs.Int.{bit_at};
ghost use Rattle.schema.specs.Marks.{mark_number, has_mark, put_mark, no_marks};
ghost use Rattle.schema.specs.declared.marks.Mark.{Mark};

use std::marker::Model;

/// A boolean field of a node, or one that may be unset, by the number of its bit.
#[derive(Clone, Copy)]
pub(crate) enum Mark {
    Hidden,
    Disabled,
    ReadOnly,
    Busy,
    LiveAtomic,
    Modal,
    Multiselectable,
    Required,
    TouchTransparent,
    Italic,
    ClipsChildren,
    ActiveDescendant,
    PreviousOnLine,
    NextOnLine,
    Level,
    SizeOfSet,
    PositionInSet,
    NumericValue,
    MinNumericValue,
    MaxNumericValue,
    NumericValueStep,
    NumericValueJump,
    ScrollX,
    ScrollXMin,
    ScrollXMax,
    ScrollY,
    ScrollYMin,
    ScrollYMax,
    TextSelection,
    TreeId,
    Bounds,
    Transform,
    BackgroundColor,
    ForegroundColor,
    FontSize,
    FontWeight,
    Overline,
    Strikethrough,
    Underline,
    Expanded,
    Selected,
    Toggled,
    Orientation,
    SortDirection,
    AriaCurrent,
    HasPopup,
    Live,
    TextDirection,
    TextAlign,
    VerticalOffset,
    Label,
}

impl Mark {
    /// The number of its bit.
    #[inline(always)]
    fn number(self) -> u8
        ensures value { result ≡ mark_number self }
        ensures small { result < 51 }
    {
        self as u8
    }
}

/// The boolean fields that are true, and the other fields that are set.
#[derive(Drop)]
pub(crate) struct Marks {
    bits: u64,
}

impl Model for Marks {
    ghost use Rattle.std.specs.Prelude.{◌<◌, ◌^◌};
    ghost use Rattle.schema.specs.Marks.{MarkSet, mark_data};

    ghost Value = { MarkSet };

    ghost view = { λ a. mark_data a.bits };

    ghost invariant = { λ a. a.bits < 2 ^ 51 };
}

impl Marks {
    /// No field.
    pub(crate) fn new() -> Marks
        ensures { result ≡ no_marks }
    {
        Marks { bits: 0 }
    }

    /// Returns a copy of the marks.
    pub(crate) fn copy(&self) -> Marks
        ensures { result ≡ self.now }
    {
        Marks { bits: self.bits }
    }

    /// Whether a field is set.
    #[inline(always)]
    pub(crate) fn has(&self, mark: Mark) -> bool
        ensures { result ≡ has_mark mark self.now }
    {
        (self.bits >> mark.number()) & 1 == 1
    }

    /// Adds a field.
    #[inline(always)]
    pub(crate) fn add(&mut self, mark: Mark)
        ensures { self.new ≡ put_mark mark true self.old }
    {
        self.bits |= 1 << mark.number();
    }

    /// Takes a field out.
    #[inline(always)]
    pub(crate) fn remove(&mut self, mark: Mark)
        ensures { self.new ≡ put_mark mark false self.old }
    {
        self.bits &= !(1 << mark.number());
    }

    /// Whether both have the same fields.
    #[inline(always)]
    pub(crate) fn same(&self, other: &Marks) -> bool
        ensures { IsTrue result ↔ (self.now ≡ other.now) }
    {
        self.bits == other.bits
    }

    /// Whether neither has a field of a group, which has the bits of its fields.
    #[inline(always)]
    pub(crate) fn share_none(&self, other: &Marks, group: u64) -> bool
        ensures { IsTrue result → (mark : Mark) → IsTrue (bit_at group (mark_number mark) == 1) →
            (has_mark mark self.now ≡ false) × (has_mark mark other.now ≡ false) }
    {
        (self.bits | other.bits) & group == 0
    }
}
