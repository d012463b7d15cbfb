//! How the text of nodes looks: each property of it is that of the nearest node, from the node upwards, that has one.
ghost use Rattle.std.specs.Prelude.{◌≡◌, IfOk, option_map, string_bytes};
ghost use Rattle.views.specs.Nodes.{world_at, id_at};
ghost use Rattle.fed_tree.specs.Reads.{read_of};
ghost use Rattle.fed_tree.specs.Styles.{style_at, style_text_at};

use crate::feeding::FedTree;
use crate::whole::copied;
use model::FullNodeId;
use schema::{Color, TextAlign, TextDecoration, TextDirection, VerticalOffset};
use std::alloc::{AllocError, Global};
use views::NodeRef;

/// A property of how text looks.
#[derive(Clone, Copy)]
pub enum Style {
    TextDirection,
    /// A text, as `Language` is.
    FontFamily,
    Language,
    /// In hundredths of a pixel.
    FontSize,
    FontWeight,
    BackgroundColor,
    ForegroundColor,
    Overline,
    Strikethrough,
    Underline,
    TextAlign,
    VerticalOffset,
    Italic,
}

/// The value of such a property that isn't a text.
#[derive(Clone, Copy)]
pub enum StyleValue {
    Direction(TextDirection),
    Size(u32),
    Weight(u16),
    Color(Color),
    Line(TextDecoration),
    Align(TextAlign),
    Offset(VerticalOffset),
    Italic(bool),
}

impl FedTree {
    /// The node's value of the property; `None` if it doesn't have one, if that is a text, or if the tree doesn't have the node.
    #[tactic(auto, using(crate::proofs::Found::read_found, crate::proofs::Found::read_missing))]
    pub fn style(&self, id: FullNodeId, style: Style) -> Option<StyleValue>
        ensures { result ≡ read_of self.now.world id (λ w node. style_at style w id) }
    {
        style_of(self.node(id)?, style)
    }

    /// The node's value of the property, if that is a text; `None` if it doesn't have one, if that isn't a text, or if the tree doesn't have the
    /// node.
    ///
    /// # Errors
    ///
    /// Returns `AllocError` if memory runs out.
    #[tactic(auto, using(crate::proofs::Found::read_found, crate::proofs::Found::read_missing))]
    pub fn style_text(&self, id: FullNodeId, style: Style) -> Result<Option<String>, AllocError>
        ensures { IfOk result (λ text. option_map string_bytes text ≡ read_of self.now.world id (λ w node. style_text_at style w id)) }
    {
        match self.node(id) {
            Some(node) => style_text_of(self.alloc, node, style),
            None => Ok(None),
        }
    }
}

/// The node's value of the property, if that isn't a text.
pub(crate) fn style_of(node: NodeRef<'_>, style: Style) -> Option<StyleValue>
    ensures { result ≡ style_at style (world_at node.entry) (id_at node.entry) }
{
    match style {
        Style::TextDirection => Some(StyleValue::Direction(node.text_direction()?)),
        Style::FontFamily | Style::Language => None,
        Style::FontSize => Some(StyleValue::Size(node.font_size()?)),
        Style::FontWeight => Some(StyleValue::Weight(node.font_weight()?)),
        Style::BackgroundColor => Some(StyleValue::Color(node.background_color()?)),
        Style::ForegroundColor => Some(StyleValue::Color(node.foreground_color()?)),
        Style::Overline => Some(StyleValue::Line(node.overline()?)),
        Style::Strikethrough => Some(StyleValue::Line(node.strikethrough()?)),
        Style::Underline => Some(StyleValue::Line(node.underline()?)),
        Style::TextAlign => Some(StyleValue::Align(node.text_align()?)),
        Style::VerticalOffset => Some(StyleValue::Offset(node.vertical_offset()?)),
        Style::Italic => Some(StyleValue::Italic(node.is_italic())),
    }
}

/// The node's value of the property, if that is a text.
pub(crate) fn style_text_of(
    alloc: Global,
    node: NodeRef<'_>,
    style: Style,
) -> Result<Option<String>, AllocError>
    ensures { IfOk result (λ text. option_map string_bytes text ≡ style_text_at style (world_at node.entry) (id_at node.entry)) }
{
    match style {
        Style::FontFamily => copied(alloc, node.font_family()),
        Style::Language => copied(alloc, node.language()),
        _ => Ok(None),
    }
}
