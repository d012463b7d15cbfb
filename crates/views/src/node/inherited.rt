//! Properties that a node inherits across grafts: the value is that of the nearest node, from the node upwards, that
//! has one.
ghost use Rattle.std.specs.Prelude.{◌≡◌, option_copied};
ghost use Rattle.model.specs.Views.{is_italic, live};
ghost use Rattle.model.specs.Filters.{is_hidden};
ghost use Rattle.views.specs.Nodes.{world_at, id_at};
ghost use Rattle.views.specs.Inherited.{inherited_at};

use crate::node::NodeRef;
use schema::{Color, Live, TextAlign, TextDecoration, TextDirection, VerticalOffset};

impl<'a> NodeRef<'a> {
    /// The direction of the text.
    pub fn text_direction(&self) -> Option<TextDirection>
        ensures { result ≡ inherited_at (λ d. d.text_direction) self.now }
    {
        self.nearest(|node| node.text_direction().is_some())?
            .node
            .text_direction()
    }

    /// The name of the font.
    pub fn font_family(&self) -> Option<&'a str>
        ensures { option_copied result ≡ inherited_at (λ d. d.font_family) self.now }
    {
        self.nearest(|node| node.font_family().is_some())?
            .node
            .font_family()
    }

    /// The language of the text.
    pub fn language(&self) -> Option<&'a str>
        ensures { option_copied result ≡ inherited_at (λ d. d.language) self.now }
    {
        self.nearest(|node| node.language().is_some())?
            .node
            .language()
    }

    /// The size of the font, in hundredths of a pixel.
    pub fn font_size(&self) -> Option<u32>
        ensures { result ≡ inherited_at (λ d. d.font_size) self.now }
    {
        self.nearest(|node| node.font_size().is_some())?
            .node
            .font_size()
    }

    /// The weight of the font.
    pub fn font_weight(&self) -> Option<u16>
        ensures { result ≡ inherited_at (λ d. d.font_weight) self.now }
    {
        self.nearest(|node| node.font_weight().is_some())?
            .node
            .font_weight()
    }

    /// The colour behind the text.
    pub fn background_color(&self) -> Option<Color>
        ensures { result ≡ inherited_at (λ d. d.background_color) self.now }
    {
        self.nearest(|node| node.background_color().is_some())?
            .node
            .background_color()
    }

    /// The colour of the text.
    pub fn foreground_color(&self) -> Option<Color>
        ensures { result ≡ inherited_at (λ d. d.foreground_color) self.now }
    {
        self.nearest(|node| node.foreground_color().is_some())?
            .node
            .foreground_color()
    }

    /// The line above the text.
    pub fn overline(&self) -> Option<TextDecoration>
        ensures { result ≡ inherited_at (λ d. d.overline) self.now }
    {
        self.nearest(|node| node.overline().is_some())?
            .node
            .overline()
    }

    /// The line through the text.
    pub fn strikethrough(&self) -> Option<TextDecoration>
        ensures { result ≡ inherited_at (λ d. d.strikethrough) self.now }
    {
        self.nearest(|node| node.strikethrough().is_some())?
            .node
            .strikethrough()
    }

    /// The line below the text.
    pub fn underline(&self) -> Option<TextDecoration>
        ensures { result ≡ inherited_at (λ d. d.underline) self.now }
    {
        self.nearest(|node| node.underline().is_some())?
            .node
            .underline()
    }

    /// How the text is aligned.
    pub fn text_align(&self) -> Option<TextAlign>
        ensures { result ≡ inherited_at (λ d. d.text_align) self.now }
    {
        self.nearest(|node| node.text_align().is_some())?
            .node
            .text_align()
    }

    /// Whether the text is superscript or subscript.
    pub fn vertical_offset(&self) -> Option<VerticalOffset>
        ensures { result ≡ inherited_at (λ d. d.vertical_offset) self.now }
    {
        self.nearest(|node| node.vertical_offset().is_some())?
            .node
            .vertical_offset()
    }

    /// Whether the node or an ancestor is italic.
    pub fn is_italic(&self) -> bool
        ensures { result ≡ is_italic (world_at self.now) (id_at self.now) }
    {
        self.nearest(|node| node.is_italic()).is_some()
    }

    /// Whether the node or an ancestor is hidden.
    pub fn is_hidden(&self) -> bool
        ensures { result ≡ is_hidden (world_at self.now) (id_at self.now) }
    {
        self.nearest(|node| node.is_hidden()).is_some()
    }

    /// How changes of the node are announced; `Off` if neither the node nor an ancestor says.
    pub fn live(&self) -> Live
        ensures { result ≡ live (world_at self.now) (id_at self.now) }
    {
        let Some(found) = self.nearest(|node| node.live().is_some()) else {
            return Live::Off;
        };
        found.node.live().unwrap_or(Live::Off)
    }
}
