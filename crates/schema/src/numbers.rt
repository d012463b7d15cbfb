//! The numbers and the place of a node.
//!
//! Lengths are in units of 1/64 pixel.

ghost use Rattle.std.specs.Prelude.{◌≡◌, None, Some};

use crate::marks::Mark;
use crate::{Node, Rect, Translation};

impl Node {
    /// The level in a hierarchy, such as that of a heading.
    pub fn level(&self) -> Option<usize>
        ensures { result ≡ self.now.level }
    {
        self.marks.has(Mark::Level).then_some(self.plain.level)
    }

    /// Sets [`Node::level`].
    pub fn set_level(&mut self, value: usize)
        ensures { self.new ≡ record self.old { level = Some value } }
    {
        self.plain.level = value;
        self.marks.add(Mark::Level);
    }

    /// Clears [`Node::level`].
    pub fn clear_level(&mut self)
        ensures { self.new ≡ record self.old { level = None } }
    {
        self.marks.remove(Mark::Level);
    }

    /// How many items the node's set has.
    pub fn size_of_set(&self) -> Option<usize>
        ensures { result ≡ self.now.size_of_set }
    {
        self.marks
            .has(Mark::SizeOfSet)
            .then_some(self.plain.size_of_set)
    }

    /// Sets [`Node::size_of_set`].
    pub fn set_size_of_set(&mut self, value: usize)
        ensures { self.new ≡ record self.old { size_of_set = Some value } }
    {
        self.plain.size_of_set = value;
        self.marks.add(Mark::SizeOfSet);
    }

    /// Clears [`Node::size_of_set`].
    pub fn clear_size_of_set(&mut self)
        ensures { self.new ≡ record self.old { size_of_set = None } }
    {
        self.marks.remove(Mark::SizeOfSet);
    }

    /// The position among the items of the set, counted from 0.
    pub fn position_in_set(&self) -> Option<usize>
        ensures { result ≡ self.now.position_in_set }
    {
        self.marks
            .has(Mark::PositionInSet)
            .then_some(self.plain.position_in_set)
    }

    /// Sets [`Node::position_in_set`].
    pub fn set_position_in_set(&mut self, value: usize)
        ensures { self.new ≡ record self.old { position_in_set = Some value } }
    {
        self.plain.position_in_set = value;
        self.marks.add(Mark::PositionInSet);
    }

    /// Clears [`Node::position_in_set`].
    pub fn clear_position_in_set(&mut self)
        ensures { self.new ≡ record self.old { position_in_set = None } }
    {
        self.marks.remove(Mark::PositionInSet);
    }

    /// The value as a number, in thousandths.
    pub fn numeric_value(&self) -> Option<i64>
        ensures { result ≡ self.now.numeric_value }
    {
        self.marks
            .has(Mark::NumericValue)
            .then_some(self.plain.numeric_value)
    }

    /// Sets [`Node::numeric_value`].
    pub fn set_numeric_value(&mut self, value: i64)
        ensures { self.new ≡ record self.old { numeric_value = Some value } }
    {
        self.plain.numeric_value = value;
        self.marks.add(Mark::NumericValue);
    }

    /// Clears [`Node::numeric_value`].
    pub fn clear_numeric_value(&mut self)
        ensures { self.new ≡ record self.old { numeric_value = None } }
    {
        self.marks.remove(Mark::NumericValue);
    }

    /// The minimum of the numeric value, in thousandths.
    pub fn min_numeric_value(&self) -> Option<i64>
        ensures { result ≡ self.now.min_numeric_value }
    {
        self.marks
            .has(Mark::MinNumericValue)
            .then_some(self.plain.min_numeric_value)
    }

    /// Sets [`Node::min_numeric_value`].
    pub fn set_min_numeric_value(&mut self, value: i64)
        ensures { self.new ≡ record self.old { min_numeric_value = Some value } }
    {
        self.plain.min_numeric_value = value;
        self.marks.add(Mark::MinNumericValue);
    }

    /// Clears [`Node::min_numeric_value`].
    pub fn clear_min_numeric_value(&mut self)
        ensures { self.new ≡ record self.old { min_numeric_value = None } }
    {
        self.marks.remove(Mark::MinNumericValue);
    }

    /// The maximum of the numeric value, in thousandths.
    pub fn max_numeric_value(&self) -> Option<i64>
        ensures { result ≡ self.now.max_numeric_value }
    {
        self.marks
            .has(Mark::MaxNumericValue)
            .then_some(self.plain.max_numeric_value)
    }

    /// Sets [`Node::max_numeric_value`].
    pub fn set_max_numeric_value(&mut self, value: i64)
        ensures { self.new ≡ record self.old { max_numeric_value = Some value } }
    {
        self.plain.max_numeric_value = value;
        self.marks.add(Mark::MaxNumericValue);
    }

    /// Clears [`Node::max_numeric_value`].
    pub fn clear_max_numeric_value(&mut self)
        ensures { self.new ≡ record self.old { max_numeric_value = None } }
    {
        self.marks.remove(Mark::MaxNumericValue);
    }

    /// By how much one step changes the numeric value, in thousandths.
    pub fn numeric_value_step(&self) -> Option<i64>
        ensures { result ≡ self.now.numeric_value_step }
    {
        self.marks
            .has(Mark::NumericValueStep)
            .then_some(self.plain.numeric_value_step)
    }

    /// Sets [`Node::numeric_value_step`].
    pub fn set_numeric_value_step(&mut self, value: i64)
        ensures { self.new ≡ record self.old { numeric_value_step = Some value } }
    {
        self.plain.numeric_value_step = value;
        self.marks.add(Mark::NumericValueStep);
    }

    /// Clears [`Node::numeric_value_step`].
    pub fn clear_numeric_value_step(&mut self)
        ensures { self.new ≡ record self.old { numeric_value_step = None } }
    {
        self.marks.remove(Mark::NumericValueStep);
    }

    /// By how much a large step changes the numeric value, in thousandths.
    pub fn numeric_value_jump(&self) -> Option<i64>
        ensures { result ≡ self.now.numeric_value_jump }
    {
        self.marks
            .has(Mark::NumericValueJump)
            .then_some(self.plain.numeric_value_jump)
    }

    /// Sets [`Node::numeric_value_jump`].
    pub fn set_numeric_value_jump(&mut self, value: i64)
        ensures { self.new ≡ record self.old { numeric_value_jump = Some value } }
    {
        self.plain.numeric_value_jump = value;
        self.marks.add(Mark::NumericValueJump);
    }

    /// Clears [`Node::numeric_value_jump`].
    pub fn clear_numeric_value_jump(&mut self)
        ensures { self.new ≡ record self.old { numeric_value_jump = None } }
    {
        self.marks.remove(Mark::NumericValueJump);
    }

    /// The horizontal scroll position, in units of 1/64 pixel.
    pub fn scroll_x(&self) -> Option<i64>
        ensures { result ≡ self.now.scroll_x }
    {
        self.marks.has(Mark::ScrollX).then_some(self.plain.scroll_x)
    }

    /// Sets [`Node::scroll_x`].
    pub fn set_scroll_x(&mut self, value: i64)
        ensures { self.new ≡ record self.old { scroll_x = Some value } }
    {
        self.plain.scroll_x = value;
        self.marks.add(Mark::ScrollX);
    }

    /// Clears [`Node::scroll_x`].
    pub fn clear_scroll_x(&mut self)
        ensures { self.new ≡ record self.old { scroll_x = None } }
    {
        self.marks.remove(Mark::ScrollX);
    }

    /// The minimum of the horizontal scroll position, in units of 1/64 pixel.
    pub fn scroll_x_min(&self) -> Option<i64>
        ensures { result ≡ self.now.scroll_x_min }
    {
        self.marks
            .has(Mark::ScrollXMin)
            .then_some(self.plain.scroll_x_min)
    }

    /// Sets [`Node::scroll_x_min`].
    pub fn set_scroll_x_min(&mut self, value: i64)
        ensures { self.new ≡ record self.old { scroll_x_min = Some value } }
    {
        self.plain.scroll_x_min = value;
        self.marks.add(Mark::ScrollXMin);
    }

    /// Clears [`Node::scroll_x_min`].
    pub fn clear_scroll_x_min(&mut self)
        ensures { self.new ≡ record self.old { scroll_x_min = None } }
    {
        self.marks.remove(Mark::ScrollXMin);
    }

    /// The maximum of the horizontal scroll position, in units of 1/64 pixel.
    pub fn scroll_x_max(&self) -> Option<i64>
        ensures { result ≡ self.now.scroll_x_max }
    {
        self.marks
            .has(Mark::ScrollXMax)
            .then_some(self.plain.scroll_x_max)
    }

    /// Sets [`Node::scroll_x_max`].
    pub fn set_scroll_x_max(&mut self, value: i64)
        ensures { self.new ≡ record self.old { scroll_x_max = Some value } }
    {
        self.plain.scroll_x_max = value;
        self.marks.add(Mark::ScrollXMax);
    }

    /// Clears [`Node::scroll_x_max`].
    pub fn clear_scroll_x_max(&mut self)
        ensures { self.new ≡ record self.old { scroll_x_max = None } }
    {
        self.marks.remove(Mark::ScrollXMax);
    }

    /// The vertical scroll position, in units of 1/64 pixel.
    pub fn scroll_y(&self) -> Option<i64>
        ensures { result ≡ self.now.scroll_y }
    {
        self.marks.has(Mark::ScrollY).then_some(self.plain.scroll_y)
    }

    /// Sets [`Node::scroll_y`].
    pub fn set_scroll_y(&mut self, value: i64)
        ensures { self.new ≡ record self.old { scroll_y = Some value } }
    {
        self.plain.scroll_y = value;
        self.marks.add(Mark::ScrollY);
    }

    /// Clears [`Node::scroll_y`].
    pub fn clear_scroll_y(&mut self)
        ensures { self.new ≡ record self.old { scroll_y = None } }
    {
        self.marks.remove(Mark::ScrollY);
    }

    /// The minimum of the vertical scroll position, in units of 1/64 pixel.
    pub fn scroll_y_min(&self) -> Option<i64>
        ensures { result ≡ self.now.scroll_y_min }
    {
        self.marks
            .has(Mark::ScrollYMin)
            .then_some(self.plain.scroll_y_min)
    }

    /// Sets [`Node::scroll_y_min`].
    pub fn set_scroll_y_min(&mut self, value: i64)
        ensures { self.new ≡ record self.old { scroll_y_min = Some value } }
    {
        self.plain.scroll_y_min = value;
        self.marks.add(Mark::ScrollYMin);
    }

    /// Clears [`Node::scroll_y_min`].
    pub fn clear_scroll_y_min(&mut self)
        ensures { self.new ≡ record self.old { scroll_y_min = None } }
    {
        self.marks.remove(Mark::ScrollYMin);
    }

    /// The maximum of the vertical scroll position, in units of 1/64 pixel.
    pub fn scroll_y_max(&self) -> Option<i64>
        ensures { result ≡ self.now.scroll_y_max }
    {
        self.marks
            .has(Mark::ScrollYMax)
            .then_some(self.plain.scroll_y_max)
    }

    /// Sets [`Node::scroll_y_max`].
    pub fn set_scroll_y_max(&mut self, value: i64)
        ensures { self.new ≡ record self.old { scroll_y_max = Some value } }
    {
        self.plain.scroll_y_max = value;
        self.marks.add(Mark::ScrollYMax);
    }

    /// Clears [`Node::scroll_y_max`].
    pub fn clear_scroll_y_max(&mut self)
        ensures { self.new ≡ record self.old { scroll_y_max = None } }
    {
        self.marks.remove(Mark::ScrollYMax);
    }

    /// The node's rectangle, in units of 1/64 pixel, before any translation.
    pub fn bounds(&self) -> Option<Rect>
        ensures { result ≡ self.now.bounds }
    {
        self.marks.has(Mark::Bounds).then_some(self.plain.bounds)
    }

    /// Sets [`Node::bounds`].
    pub fn set_bounds(&mut self, value: Rect)
        ensures { self.new ≡ record self.old { bounds = Some value } }
    {
        self.plain.bounds = value;
        self.marks.add(Mark::Bounds);
    }

    /// Clears [`Node::bounds`].
    pub fn clear_bounds(&mut self)
        ensures { self.new ≡ record self.old { bounds = None } }
    {
        self.marks.remove(Mark::Bounds);
    }

    /// By how much the node and its subtree are shifted, in units of 1/64 pixel.
    pub fn transform(&self) -> Option<Translation>
        ensures { result ≡ self.now.transform }
    {
        self.marks
            .has(Mark::Transform)
            .then_some(self.plain.transform)
    }

    /// Sets [`Node::transform`].
    pub fn set_transform(&mut self, value: Translation)
        ensures { self.new ≡ record self.old { transform = Some value } }
    {
        self.plain.transform = value;
        self.marks.add(Mark::Transform);
    }

    /// Clears [`Node::transform`].
    pub fn clear_transform(&mut self)
        ensures { self.new ≡ record self.old { transform = None } }
    {
        self.marks.remove(Mark::Transform);
    }
}
