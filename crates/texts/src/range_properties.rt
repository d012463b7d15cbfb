//! The style that the runs of a range have in common.
ghost use Rattle.std.specs.Prelude.{MatchOption, option_copied};
ghost use Rattle.texts.specs.RangeProperties.{SomeDiffer, IsSample, IsInherited, IsItalic, TakesValue, MapsValue};

use crate::looks::{Look, are_same};
use crate::range::TextRange;
use schema::{Color, TextAlign, TextDecoration, TextDirection, VerticalOffset};
use views::NodeRef;

/// A property of a range: the value that all of its runs have, or `Mixed` if they differ.
#[derive(PartialEq, Drop)]
pub enum TextRangePropertyValue<T> {
    Single(T),
    Mixed,
}

impl<T> TextRangePropertyValue<Option<T>> {
    /// Applies the function to the value that all runs have, if there is one.
    pub fn map<U, F: FnOnce(T) -> U>(self, f: F) -> TextRangePropertyValue<Option<U>>
        requires { TakesValue (F.pre f) self }
        ensures { MapsValue (F.post f) self result }
    {
        match self {
            TextRangePropertyValue::Single(value) => TextRangePropertyValue::Single(value.map(f)),
            TextRangePropertyValue::Mixed => TextRangePropertyValue::Mixed,
        }
    }
}

impl<'a> TextRange<'a> {
    /// A node with the same value of the property as all runs, if they agree.
    fn sample(self, what: Look) -> Option<NodeRef<'a>>
        ensures { MatchOption result (SomeDiffer what self.entry) (IsSample what self.entry) }
    {
        let (mut piece, last) = self.first_and_last();
        let node = piece.run.view();
        loop {
            if !are_same(what, piece.run.view(), node) {
                return None;
            }
            let Some(next) = self.next_piece(piece.run, last) else {
                return Some(node);
            };
            piece = next;
        }
    }

    /// The direction of the text.
    pub fn text_direction(&self) -> TextRangePropertyValue<Option<TextDirection>>
        ensures { IsInherited (λ d. d.text_direction) (λ v. v) self.now result }
    {
        match (*self).sample(Look::Direction) {
            Some(node) => TextRangePropertyValue::Single(node.text_direction()),
            None => TextRangePropertyValue::Mixed,
        }
    }

    /// The name of the font.
    pub fn font_family(&self) -> TextRangePropertyValue<Option<&'a str>>
        ensures { IsInherited (λ d. d.font_family) option_copied self.now result }
    {
        match (*self).sample(Look::FontFamily) {
            Some(node) => TextRangePropertyValue::Single(node.font_family()),
            None => TextRangePropertyValue::Mixed,
        }
    }

    /// The language of the text.
    pub fn language(&self) -> TextRangePropertyValue<Option<&'a str>>
        ensures { IsInherited (λ d. d.language) option_copied self.now result }
    {
        match (*self).sample(Look::Language) {
            Some(node) => TextRangePropertyValue::Single(node.language()),
            None => TextRangePropertyValue::Mixed,
        }
    }

    /// The size of the font, in hundredths of a pixel.
    pub fn font_size(&self) -> TextRangePropertyValue<Option<u32>>
        ensures { IsInherited (λ d. d.font_size) (λ v. v) self.now result }
    {
        match (*self).sample(Look::FontSize) {
            Some(node) => TextRangePropertyValue::Single(node.font_size()),
            None => TextRangePropertyValue::Mixed,
        }
    }

    /// The weight of the font.
    pub fn font_weight(&self) -> TextRangePropertyValue<Option<u16>>
        ensures { IsInherited (λ d. d.font_weight) (λ v. v) self.now result }
    {
        match (*self).sample(Look::FontWeight) {
            Some(node) => TextRangePropertyValue::Single(node.font_weight()),
            None => TextRangePropertyValue::Mixed,
        }
    }

    /// The colour behind the text.
    pub fn background_color(&self) -> TextRangePropertyValue<Option<Color>>
        ensures { IsInherited (λ d. d.background_color) (λ v. v) self.now result }
    {
        match (*self).sample(Look::BackgroundColor) {
            Some(node) => TextRangePropertyValue::Single(node.background_color()),
            None => TextRangePropertyValue::Mixed,
        }
    }

    /// The colour of the text.
    pub fn foreground_color(&self) -> TextRangePropertyValue<Option<Color>>
        ensures { IsInherited (λ d. d.foreground_color) (λ v. v) self.now result }
    {
        match (*self).sample(Look::ForegroundColor) {
            Some(node) => TextRangePropertyValue::Single(node.foreground_color()),
            None => TextRangePropertyValue::Mixed,
        }
    }

    /// The line above the text.
    pub fn overline(&self) -> TextRangePropertyValue<Option<TextDecoration>>
        ensures { IsInherited (λ d. d.overline) (λ v. v) self.now result }
    {
        match (*self).sample(Look::Overline) {
            Some(node) => TextRangePropertyValue::Single(node.overline()),
            None => TextRangePropertyValue::Mixed,
        }
    }

    /// The line through the text.
    pub fn strikethrough(&self) -> TextRangePropertyValue<Option<TextDecoration>>
        ensures { IsInherited (λ d. d.strikethrough) (λ v. v) self.now result }
    {
        match (*self).sample(Look::Strikethrough) {
            Some(node) => TextRangePropertyValue::Single(node.strikethrough()),
            None => TextRangePropertyValue::Mixed,
        }
    }

    /// The line below the text.
    pub fn underline(&self) -> TextRangePropertyValue<Option<TextDecoration>>
        ensures { IsInherited (λ d. d.underline) (λ v. v) self.now result }
    {
        match (*self).sample(Look::Underline) {
            Some(node) => TextRangePropertyValue::Single(node.underline()),
            None => TextRangePropertyValue::Mixed,
        }
    }

    /// How the text is aligned.
    pub fn text_align(&self) -> TextRangePropertyValue<Option<TextAlign>>
        ensures { IsInherited (λ d. d.text_align) (λ v. v) self.now result }
    {
        match (*self).sample(Look::Alignment) {
            Some(node) => TextRangePropertyValue::Single(node.text_align()),
            None => TextRangePropertyValue::Mixed,
        }
    }

    /// Whether the text is superscript or subscript.
    pub fn vertical_offset(&self) -> TextRangePropertyValue<Option<VerticalOffset>>
        ensures { IsInherited (λ d. d.vertical_offset) (λ v. v) self.now result }
    {
        match (*self).sample(Look::Offset) {
            Some(node) => TextRangePropertyValue::Single(node.vertical_offset()),
            None => TextRangePropertyValue::Mixed,
        }
    }

    /// Whether the text is italic.
    pub fn is_italic(&self) -> TextRangePropertyValue<bool>
        ensures { IsItalic self.now result }
    {
        match (*self).sample(Look::Italic) {
            Some(node) => TextRangePropertyValue::Single(node.is_italic()),
            None => TextRangePropertyValue::Mixed,
        }
    }
}
