//! How texts look at their positions, and whether that differs over a part of a text.
ghost use Rattle.std.specs.Prelude.{◌≡◌, IfOk, option_map, string_bytes};
ghost use Rattle.views.specs.Nodes.{world_at, id_at};
ghost use Rattle.texts.specs.TextRanges.{world_in, text_in, range_at};
ghost use Rattle.fed_tree.specs.Looks.{DiffersBetween, DiffersIn, DiffersOver, is_mixed_value, style_in_text, style_text_in_text};
ghost use Rattle.fed_tree.specs.Reads.{read_of};

use crate::feeding::FedTree;
use crate::spans::part_between;
use crate::spots::{Spot, found};
use crate::styles::{Style, StyleValue, style_of, style_text_of};
use model::FullNodeId;
use std::alloc::{AllocError, Global};
use texts::{TextRange, TextRangePropertyValue};
use views::NodeRef;

impl FedTree {
    /// The property at a position of the node's text, as its run has it; `None` if the run doesn't have one, if that is a text, if the position
    /// isn't there, if the node has no text, or if the tree doesn't have the node.
    #[tactic(auto, using(crate::proofs::Found::read_found, crate::proofs::Found::read_missing))]
    pub fn text_style(&self, id: FullNodeId, spot: Spot, style: Style) -> Option<StyleValue>
        ensures { result ≡ read_of self.now.world id (λ w node. style_in_text spot style w id) }
    {
        style_at(self.node(id)?, spot, style)
    }

    /// The same of a property that is a text.
    ///
    /// # Errors
    ///
    /// Returns `AllocError` if memory runs out.
    #[tactic(auto, using(crate::proofs::Found::read_found, crate::proofs::Found::read_missing))]
    pub fn text_style_text(
        &self,
        id: FullNodeId,
        spot: Spot,
        style: Style,
    ) -> Result<Option<String>, AllocError>
        ensures { IfOk result (λ text. option_map string_bytes text
            ≡ read_of self.now.world id (λ w node. style_text_in_text spot style w id)) }
    {
        match self.node(id) {
            Some(node) => style_text_at(self.alloc, node, spot, style),
            None => Ok(None),
        }
    }

    /// Whether two runs of the text from one position up to another have different values of the property; `None` if a position isn't there,
    /// if the node has no text, or if the tree doesn't have the node.
    #[tactic(auto, using(crate::proofs::Looking::differs_there, crate::proofs::Looking::differs_nowhere))]
    pub fn differs(&self, id: FullNodeId, from: Spot, to: Spot, style: Style) -> Option<bool>
        ensures { DiffersBetween self.now.world id from to style result }
    {
        differs_between(self.node(id)?, from, to, style)
    }
}

/// The property at a position of the node's text.
fn style_at(node: NodeRef<'_>, spot: Spot, style: Style) -> Option<StyleValue>
    ensures { result ≡ style_in_text spot style (world_at node.entry) (id_at node.entry) }
{
    let position = found(node, spot)?;
    style_of(position.inner_node(), style)
}

/// The property at a position of the node's text, if that is a text.
fn style_text_at(
    alloc: Global,
    node: NodeRef<'_>,
    spot: Spot,
    style: Style,
) -> Result<Option<String>, AllocError>
    ensures { IfOk result (λ text. option_map string_bytes text
        ≡ style_text_in_text spot style (world_at node.entry) (id_at node.entry)) }
{
    match found(node, spot) {
        Some(position) => style_text_of(alloc, position.inner_node(), style),
        None => Ok(None),
    }
}

/// Whether the runs of a range differ in a property.
fn is_mixed<T: Drop>(value: TextRangePropertyValue<T>) -> bool
    ensures { result ≡ is_mixed_value value }
{
    match value {
        TextRangePropertyValue::Single(_) => false,
        TextRangePropertyValue::Mixed => true,
    }
}

/// Whether the runs of a range differ in the property.
#[tactic(auto, using(crate::proofs::Looking::differs_in, crate::proofs::Looking::differs_in_italics))]
fn differs_over(range: TextRange<'_>, style: Style) -> bool
    ensures { let r = range.entry in DiffersOver style (world_in r) (text_in r) (range_at r) result }
{
    match style {
        Style::TextDirection => is_mixed(range.text_direction()),
        Style::FontFamily => is_mixed(range.font_family()),
        Style::Language => is_mixed(range.language()),
        Style::FontSize => is_mixed(range.font_size()),
        Style::FontWeight => is_mixed(range.font_weight()),
        Style::BackgroundColor => is_mixed(range.background_color()),
        Style::ForegroundColor => is_mixed(range.foreground_color()),
        Style::Overline => is_mixed(range.overline()),
        Style::Strikethrough => is_mixed(range.strikethrough()),
        Style::Underline => is_mixed(range.underline()),
        Style::TextAlign => is_mixed(range.text_align()),
        Style::VerticalOffset => is_mixed(range.vertical_offset()),
        Style::Italic => is_mixed(range.is_italic()),
    }
}

/// Whether the runs of a part of the node's text differ in the property.
#[tactic(auto, using(crate::proofs::Looking::differs_found, crate::proofs::Looking::differs_missing))]
fn differs_between(node: NodeRef<'_>, from: Spot, to: Spot, style: Style) -> Option<bool>
    ensures { let w = world_at node.entry in DiffersIn w (id_at node.entry) from to style result }
{
    let range = part_between(node, from, to)?;
    Some(differs_over(range, style))
}
