//! How the text of a node looks, and what kind of control it is.

ghost use Rattle.std.specs.Prelude.{◌≡◌, None, Some};

use crate::Node;
use crate::marks::Mark;
use crate::values::{
    AriaCurrent, Color, HasPopup, Live, Orientation, SortDirection, TextAlign, TextDecoration,
    TextDirection, Toggled, VerticalOffset,
};

impl Node {
    /// The size of the font, in hundredths of a pixel.
    pub fn font_size(&self) -> Option<u32>
        ensures { result ≡ self.now.font_size }
    {
        self.marks
            .has(Mark::FontSize)
            .then_some(self.plain.font_size)
    }

    /// Sets [`Node::font_size`].
    pub fn set_font_size(&mut self, value: u32)
        ensures { self.new ≡ record self.old { font_size = Some value } }
    {
        self.plain.font_size = value;
        self.marks.add(Mark::FontSize);
    }

    /// Clears [`Node::font_size`].
    pub fn clear_font_size(&mut self)
        ensures { self.new ≡ record self.old { font_size = None } }
    {
        self.marks.remove(Mark::FontSize);
    }

    /// The weight of the font: 400 is regular, 700 bold.
    pub fn font_weight(&self) -> Option<u16>
        ensures { result ≡ self.now.font_weight }
    {
        self.marks
            .has(Mark::FontWeight)
            .then_some(self.plain.font_weight)
    }

    /// Sets [`Node::font_weight`].
    pub fn set_font_weight(&mut self, value: u16)
        ensures { self.new ≡ record self.old { font_weight = Some value } }
    {
        self.plain.font_weight = value;
        self.marks.add(Mark::FontWeight);
    }

    /// Clears [`Node::font_weight`].
    pub fn clear_font_weight(&mut self)
        ensures { self.new ≡ record self.old { font_weight = None } }
    {
        self.marks.remove(Mark::FontWeight);
    }

    /// The colour behind the text.
    pub fn background_color(&self) -> Option<Color>
        ensures { result ≡ self.now.background_color }
    {
        self.marks
            .has(Mark::BackgroundColor)
            .then_some(self.plain.background_color)
    }

    /// Sets [`Node::background_color`].
    pub fn set_background_color(&mut self, value: Color)
        ensures { self.new ≡ record self.old { background_color = Some value } }
    {
        self.plain.background_color = value;
        self.marks.add(Mark::BackgroundColor);
    }

    /// Clears [`Node::background_color`].
    pub fn clear_background_color(&mut self)
        ensures { self.new ≡ record self.old { background_color = None } }
    {
        self.marks.remove(Mark::BackgroundColor);
    }

    /// The colour of the text.
    pub fn foreground_color(&self) -> Option<Color>
        ensures { result ≡ self.now.foreground_color }
    {
        self.marks
            .has(Mark::ForegroundColor)
            .then_some(self.plain.foreground_color)
    }

    /// Sets [`Node::foreground_color`].
    pub fn set_foreground_color(&mut self, value: Color)
        ensures { self.new ≡ record self.old { foreground_color = Some value } }
    {
        self.plain.foreground_color = value;
        self.marks.add(Mark::ForegroundColor);
    }

    /// Clears [`Node::foreground_color`].
    pub fn clear_foreground_color(&mut self)
        ensures { self.new ≡ record self.old { foreground_color = None } }
    {
        self.marks.remove(Mark::ForegroundColor);
    }

    /// The line above the text.
    pub fn overline(&self) -> Option<TextDecoration>
        ensures { result ≡ self.now.overline }
    {
        self.marks
            .has(Mark::Overline)
            .then_some(self.plain.overline)
    }

    /// Sets [`Node::overline`].
    pub fn set_overline(&mut self, value: TextDecoration)
        ensures { self.new ≡ record self.old { overline = Some value } }
    {
        self.plain.overline = value;
        self.marks.add(Mark::Overline);
    }

    /// Clears [`Node::overline`].
    pub fn clear_overline(&mut self)
        ensures { self.new ≡ record self.old { overline = None } }
    {
        self.marks.remove(Mark::Overline);
    }

    /// The line through the text.
    pub fn strikethrough(&self) -> Option<TextDecoration>
        ensures { result ≡ self.now.strikethrough }
    {
        self.marks
            .has(Mark::Strikethrough)
            .then_some(self.plain.strikethrough)
    }

    /// Sets [`Node::strikethrough`].
    pub fn set_strikethrough(&mut self, value: TextDecoration)
        ensures { self.new ≡ record self.old { strikethrough = Some value } }
    {
        self.plain.strikethrough = value;
        self.marks.add(Mark::Strikethrough);
    }

    /// Clears [`Node::strikethrough`].
    pub fn clear_strikethrough(&mut self)
        ensures { self.new ≡ record self.old { strikethrough = None } }
    {
        self.marks.remove(Mark::Strikethrough);
    }

    /// The line below the text.
    pub fn underline(&self) -> Option<TextDecoration>
        ensures { result ≡ self.now.underline }
    {
        self.marks
            .has(Mark::Underline)
            .then_some(self.plain.underline)
    }

    /// Sets [`Node::underline`].
    pub fn set_underline(&mut self, value: TextDecoration)
        ensures { self.new ≡ record self.old { underline = Some value } }
    {
        self.plain.underline = value;
        self.marks.add(Mark::Underline);
    }

    /// Clears [`Node::underline`].
    pub fn clear_underline(&mut self)
        ensures { self.new ≡ record self.old { underline = None } }
    {
        self.marks.remove(Mark::Underline);
    }

    /// The state of a control that can be toggled.
    pub fn toggled(&self) -> Option<Toggled>
        ensures { result ≡ self.now.toggled }
    {
        self.marks.has(Mark::Toggled).then_some(self.plain.toggled)
    }

    /// Sets [`Node::toggled`].
    pub fn set_toggled(&mut self, value: Toggled)
        ensures { self.new ≡ record self.old { toggled = Some value } }
    {
        self.plain.toggled = value;
        self.marks.add(Mark::Toggled);
    }

    /// Clears [`Node::toggled`].
    pub fn clear_toggled(&mut self)
        ensures { self.new ≡ record self.old { toggled = None } }
    {
        self.marks.remove(Mark::Toggled);
    }

    /// The axis along which the node is laid out.
    pub fn orientation(&self) -> Option<Orientation>
        ensures { result ≡ self.now.orientation }
    {
        self.marks
            .has(Mark::Orientation)
            .then_some(self.plain.orientation)
    }

    /// Sets [`Node::orientation`].
    pub fn set_orientation(&mut self, value: Orientation)
        ensures { self.new ≡ record self.old { orientation = Some value } }
    {
        self.plain.orientation = value;
        self.marks.add(Mark::Orientation);
    }

    /// Clears [`Node::orientation`].
    pub fn clear_orientation(&mut self)
        ensures { self.new ≡ record self.old { orientation = None } }
    {
        self.marks.remove(Mark::Orientation);
    }

    /// How a column or row is sorted.
    pub fn sort_direction(&self) -> Option<SortDirection>
        ensures { result ≡ self.now.sort_direction }
    {
        self.marks
            .has(Mark::SortDirection)
            .then_some(self.plain.sort_direction)
    }

    /// Sets [`Node::sort_direction`].
    pub fn set_sort_direction(&mut self, value: SortDirection)
        ensures { self.new ≡ record self.old { sort_direction = Some value } }
    {
        self.plain.sort_direction = value;
        self.marks.add(Mark::SortDirection);
    }

    /// Clears [`Node::sort_direction`].
    pub fn clear_sort_direction(&mut self)
        ensures { self.new ≡ record self.old { sort_direction = None } }
    {
        self.marks.remove(Mark::SortDirection);
    }

    /// Which kind of current item the node is, as by `aria-current`.
    pub fn aria_current(&self) -> Option<AriaCurrent>
        ensures { result ≡ self.now.aria_current }
    {
        self.marks
            .has(Mark::AriaCurrent)
            .then_some(self.plain.aria_current)
    }

    /// Sets [`Node::aria_current`].
    pub fn set_aria_current(&mut self, value: AriaCurrent)
        ensures { self.new ≡ record self.old { aria_current = Some value } }
    {
        self.plain.aria_current = value;
        self.marks.add(Mark::AriaCurrent);
    }

    /// Clears [`Node::aria_current`].
    pub fn clear_aria_current(&mut self)
        ensures { self.new ≡ record self.old { aria_current = None } }
    {
        self.marks.remove(Mark::AriaCurrent);
    }

    /// The kind of popup that the node opens.
    pub fn has_popup(&self) -> Option<HasPopup>
        ensures { result ≡ self.now.has_popup }
    {
        self.marks
            .has(Mark::HasPopup)
            .then_some(self.plain.has_popup)
    }

    /// Sets [`Node::has_popup`].
    pub fn set_has_popup(&mut self, value: HasPopup)
        ensures { self.new ≡ record self.old { has_popup = Some value } }
    {
        self.plain.has_popup = value;
        self.marks.add(Mark::HasPopup);
    }

    /// Clears [`Node::has_popup`].
    pub fn clear_has_popup(&mut self)
        ensures { self.new ≡ record self.old { has_popup = None } }
    {
        self.marks.remove(Mark::HasPopup);
    }

    /// How changes of the node are announced.
    pub fn live(&self) -> Option<Live>
        ensures { result ≡ self.now.live }
    {
        self.marks.has(Mark::Live).then_some(self.plain.live)
    }

    /// Sets [`Node::live`].
    pub fn set_live(&mut self, value: Live)
        ensures { self.new ≡ record self.old { live = Some value } }
    {
        self.plain.live = value;
        self.marks.add(Mark::Live);
    }

    /// Clears [`Node::live`].
    pub fn clear_live(&mut self)
        ensures { self.new ≡ record self.old { live = None } }
    {
        self.marks.remove(Mark::Live);
    }

    /// The direction of the text.
    pub fn text_direction(&self) -> Option<TextDirection>
        ensures { result ≡ self.now.text_direction }
    {
        self.marks
            .has(Mark::TextDirection)
            .then_some(self.plain.text_direction)
    }

    /// Sets [`Node::text_direction`].
    pub fn set_text_direction(&mut self, value: TextDirection)
        ensures { self.new ≡ record self.old { text_direction = Some value } }
    {
        self.plain.text_direction = value;
        self.marks.add(Mark::TextDirection);
    }

    /// Clears [`Node::text_direction`].
    pub fn clear_text_direction(&mut self)
        ensures { self.new ≡ record self.old { text_direction = None } }
    {
        self.marks.remove(Mark::TextDirection);
    }

    /// How the text is aligned.
    pub fn text_align(&self) -> Option<TextAlign>
        ensures { result ≡ self.now.text_align }
    {
        self.marks
            .has(Mark::TextAlign)
            .then_some(self.plain.text_align)
    }

    /// Sets [`Node::text_align`].
    pub fn set_text_align(&mut self, value: TextAlign)
        ensures { self.new ≡ record self.old { text_align = Some value } }
    {
        self.plain.text_align = value;
        self.marks.add(Mark::TextAlign);
    }

    /// Clears [`Node::text_align`].
    pub fn clear_text_align(&mut self)
        ensures { self.new ≡ record self.old { text_align = None } }
    {
        self.marks.remove(Mark::TextAlign);
    }

    /// Whether the text is superscript or subscript.
    pub fn vertical_offset(&self) -> Option<VerticalOffset>
        ensures { result ≡ self.now.vertical_offset }
    {
        self.marks
            .has(Mark::VerticalOffset)
            .then_some(self.plain.vertical_offset)
    }

    /// Sets [`Node::vertical_offset`].
    pub fn set_vertical_offset(&mut self, value: VerticalOffset)
        ensures { self.new ≡ record self.old { vertical_offset = Some value } }
    {
        self.plain.vertical_offset = value;
        self.marks.add(Mark::VerticalOffset);
    }

    /// Clears [`Node::vertical_offset`].
    pub fn clear_vertical_offset(&mut self)
        ensures { self.new ≡ record self.old { vertical_offset = None } }
    {
        self.marks.remove(Mark::VerticalOffset);
    }
}
