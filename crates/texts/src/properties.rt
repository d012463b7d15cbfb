//! The style of a position's run: each property is that of the nearest node, from the run upwards, that has it.
ghost use Rattle.std.specs.Prelude.{◌≡◌, option_copied};
ghost use Rattle.model.specs.Views.{is_italic};
ghost use Rattle.views.specs.Runs.{run_world, run_id};
ghost use Rattle.texts.specs.RunLooks.{run_inherits};

use crate::position::TextPosition;
use schema::{Color, TextAlign, TextDecoration, TextDirection, VerticalOffset};

impl<'a> TextPosition<'a> {
    /// The direction of the text.
    pub fn text_direction(&self) -> Option<TextDirection>
        ensures { result ≡ run_inherits (λ d. d.text_direction) self.now }
    {
        let position = *self;
        position.run.view().text_direction()
    }

    /// The name of the font.
    pub fn font_family(&self) -> Option<&'a str>
        ensures { option_copied result ≡ run_inherits (λ d. d.font_family) self.now }
    {
        let position = *self;
        position.run.view().font_family()
    }

    /// The language of the text.
    pub fn language(&self) -> Option<&'a str>
        ensures { option_copied result ≡ run_inherits (λ d. d.language) self.now }
    {
        let position = *self;
        position.run.view().language()
    }

    /// The size of the font, in hundredths of a pixel.
    pub fn font_size(&self) -> Option<u32>
        ensures { result ≡ run_inherits (λ d. d.font_size) self.now }
    {
        let position = *self;
        position.run.view().font_size()
    }

    /// The weight of the font.
    pub fn font_weight(&self) -> Option<u16>
        ensures { result ≡ run_inherits (λ d. d.font_weight) self.now }
    {
        let position = *self;
        position.run.view().font_weight()
    }

    /// The colour behind the text.
    pub fn background_color(&self) -> Option<Color>
        ensures { result ≡ run_inherits (λ d. d.background_color) self.now }
    {
        let position = *self;
        position.run.view().background_color()
    }

    /// The colour of the text.
    pub fn foreground_color(&self) -> Option<Color>
        ensures { result ≡ run_inherits (λ d. d.foreground_color) self.now }
    {
        let position = *self;
        position.run.view().foreground_color()
    }

    /// The line above the text.
    pub fn overline(&self) -> Option<TextDecoration>
        ensures { result ≡ run_inherits (λ d. d.overline) self.now }
    {
        let position = *self;
        position.run.view().overline()
    }

    /// The line through the text.
    pub fn strikethrough(&self) -> Option<TextDecoration>
        ensures { result ≡ run_inherits (λ d. d.strikethrough) self.now }
    {
        let position = *self;
        position.run.view().strikethrough()
    }

    /// The line below the text.
    pub fn underline(&self) -> Option<TextDecoration>
        ensures { result ≡ run_inherits (λ d. d.underline) self.now }
    {
        let position = *self;
        position.run.view().underline()
    }

    /// How the text is aligned.
    pub fn text_align(&self) -> Option<TextAlign>
        ensures { result ≡ run_inherits (λ d. d.text_align) self.now }
    {
        let position = *self;
        position.run.view().text_align()
    }

    /// Whether the text is superscript or subscript.
    pub fn vertical_offset(&self) -> Option<VerticalOffset>
        ensures { result ≡ run_inherits (λ d. d.vertical_offset) self.now }
    {
        let position = *self;
        position.run.view().vertical_offset()
    }

    /// Whether the run or an ancestor is italic.
    pub fn is_italic(&self) -> bool
        ensures { result ≡ is_italic (run_world self.now.run) (run_id self.now.run) }
    {
        let position = *self;
        position.run.view().is_italic()
    }
}
