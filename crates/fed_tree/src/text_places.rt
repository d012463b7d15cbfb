//! Positions in the texts of nodes, movements of the caret, and parts of a text.
ghost use Rattle.std.specs.Prelude.{◌≡◌, Some, IfOk, option_and_then, option_map, string_bytes};
ghost use Rattle.model.specs.Ranges.{selection_anchor, selection_focus};
ghost use Rattle.model.specs.Queries.{moved as position_after};
ghost use Rattle.views.specs.Nodes.{world_at, id_at};
ghost use Rattle.session.specs.Texts.{in_text, text_from};
ghost use Rattle.texts.specs.Positions.{position_text, flat_position};
ghost use Rattle.fed_tree.specs.Reads.{read_of};
ghost use Rattle.fed_tree.specs.Texts.{side_of, place_of, place_at, place_after, place_found};

use crate::feeding::FedTree;
use model::{At, FullNodeId, Move, Side};
use session::{moved, position_of, text_in};
use std::alloc::{AllocError, Global};
use texts::{TextIndexes, TextPosition, TextSelections};
use views::NodeRef;

/// A position in the text of a node, by all its names.
#[derive(Clone, Copy)]
pub struct TextPlace {
    /// Its run, by the id in the node's tree, and how many of the run's characters are before it.
    pub name: schema::TextPosition,
    /// How many scalars of the text are before it.
    pub index: usize,
    /// How many UTF-16 code units of the text are before it.
    pub utf16_index: usize,
    /// The number of its line, counted from 0.
    pub line: usize,
    /// The end of a run that another follows, or the start side. With `index` it names the position.
    pub side: Side,
}

impl FedTree {
    /// The position in the node's text with this index, on this side; `None` past the end of the text, if the node has no text,
    /// or if the tree doesn't have the node.
    #[tactic(auto, using(crate::proofs::Found::read_found, crate::proofs::Found::read_missing))]
    pub fn text_place(&self, id: FullNodeId, at: At) -> Option<TextPlace>
        ensures { result ≡ read_of self.now.world id (λ w node. in_text (place_at at) w id) }
    {
        place_in(self.node(id)?, at)
    }

    /// Where a movement of the caret from that position ends; `None` also for a movement by a character past an end of the text.
    #[tactic(auto, using(crate::proofs::Found::read_found, crate::proofs::Found::read_missing))]
    pub fn text_place_after(&self, id: FullNodeId, at: At, by: Move) -> Option<TextPlace>
        ensures { result ≡ read_of self.now.world id (λ w node. in_text (place_after at by) w id) }
    {
        place_moved(self.node(id)?, at, by)
    }

    /// The fixed end of the selection in the node's text; `None` without a selection, if the end isn't in one of the node's own
    /// runs, if the node has no text, or if the tree doesn't have the node.
    #[tactic(auto, using(crate::proofs::Found::read_found, crate::proofs::Found::read_missing))]
    pub fn text_selection_anchor(&self, id: FullNodeId) -> Option<TextPlace>
        ensures { result ≡ read_of self.now.world id (λ w node. place_found w id (selection_anchor w id)) }
    {
        anchor_of(self.node(id)?)
    }

    /// The moving end of the selection, where the caret is; `None` as for the fixed end.
    #[tactic(auto, using(crate::proofs::Found::read_found, crate::proofs::Found::read_missing))]
    pub fn text_selection_focus(&self, id: FullNodeId) -> Option<TextPlace>
        ensures { result ≡ read_of self.now.world id (λ w node. place_found w id (selection_focus w id)) }
    {
        focus_of(self.node(id)?)
    }

    /// The node's text from one position up to another; `None` if one of them is past the end of the text, if the node has no
    /// text, or if the tree doesn't have the node.
    ///
    /// # Errors
    ///
    /// Returns `AllocError` if memory runs out.
    #[tactic(auto, using(crate::proofs::Found::read_found, crate::proofs::Found::read_missing))]
    pub fn text_between(
        &self,
        id: FullNodeId,
        from: At,
        to: At,
    ) -> Result<Option<String>, AllocError>
        ensures { IfOk result (λ text. option_map string_bytes text
            ≡ read_of self.now.world id (λ w node. in_text (text_from from to) w id)) }
    {
        match self.node(id) {
            Some(node) => text_in(self.alloc, node, from, to),
            None => Ok(None),
        }
    }
}

/// The side of the place where two runs meet, if the position is there.
pub(crate) fn side_of(position: TextPosition<'_>) -> Side
    ensures { result ≡ side_of (position_text position.entry) (flat_position position.entry) }
{
    let start = position.biased_to_start().to_raw();
    if start.character_index == position.to_raw().character_index {
        Side::Start
    } else {
        Side::End
    }
}

/// The position by all its names.
#[tactic(auto, using(crate::proofs::Places::place_named))]
fn place_of(position: TextPosition<'_>) -> TextPlace
    ensures { place_of (position_text position.entry) (flat_position position.entry) ≡ Some result }
{
    TextPlace {
        name: position.to_raw(),
        index: position.to_global_usv_index(),
        utf16_index: position.to_global_utf16_index(),
        line: position.to_line_index(),
        side: side_of(position),
    }
}

/// The fixed end of the selection in the node's text.
fn anchor_of(node: NodeRef<'_>) -> Option<TextPlace>
    ensures { let w = world_at node.entry in let id = id_at node.entry in
        result ≡ place_found w id (selection_anchor w id) }
{
    let anchor = node.text_selection_anchor()?;
    Some(place_of(anchor))
}

/// The moving end of the selection in the node's text.
fn focus_of(node: NodeRef<'_>) -> Option<TextPlace>
    ensures { let w = world_at node.entry in let id = id_at node.entry in
        result ≡ place_found w id (selection_focus w id) }
{
    let focus = node.text_selection_focus()?;
    Some(place_of(focus))
}

/// The position with this index, on this side, if the node has a text.
fn place_in(node: NodeRef<'_>, at: At) -> Option<TextPlace>
    ensures { result ≡ in_text (place_at at) (world_at node.entry) (id_at node.entry) }
{
    let position = position_of(node, at)?;
    Some(place_of(position))
}

/// Where a movement from the position ends, by all its names.
fn place_from(position: TextPosition<'_>, by: Move) -> Option<TextPlace>
    ensures { let t = position_text position.entry in
        result ≡ option_and_then (place_of t) (position_after t (flat_position position.entry) by) }
{
    let to = moved(position, by)?;
    Some(place_of(to))
}

/// Where a movement from a position in the node's text ends.
fn place_moved(node: NodeRef<'_>, at: At, by: Move) -> Option<TextPlace>
    ensures { result ≡ in_text (place_after at by) (world_at node.entry) (id_at node.entry) }
{
    let position = position_of(node, at)?;
    place_from(position, by)
}
