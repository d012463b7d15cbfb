//! Positions in the texts of nodes, however they are named, by those of their names that are asked for.
ghost use Rattle.std.specs.Prelude.{◌≡◌, true, Some, IfSome, IsSome, option_and_then, option_map, if◌then◌else◌};
ghost use Rattle.model.specs.TextRuns.{supports_text_ranges};
ghost use Rattle.model.specs.Moves.{to_global_usv_index, to_global_utf16_index, to_line_index};
ghost use Rattle.model.specs.Queries.{on_side, position_at, moved as position_after};
ghost use Rattle.views.specs.Nodes.{world_at, id_at};
ghost use Rattle.views.specs.TextDefects.{text_defect};
ghost use Rattle.session.specs.Texts.{in_text};
ghost use Rattle.texts.specs.NodeTexts.{root_of};
ghost use Rattle.texts.specs.Positions.{root_at, node_text, position_text, flat_position};
ghost use Rattle.fed_tree.specs.Reads.{read_of};
ghost use Rattle.fed_tree.specs.Spots.{found_at, moved_place, place_of, position_in, spot_place, test_at, tests, text_length};

use crate::feeding::FedTree;
use crate::text_places::{TextPlace, side_of};
use model::{At, FullNodeId, Move, Side};
use schema::Point;
use session::moved;
use texts::{NodeText, Text, TextPosition};
use views::NodeRef;
use views::runs::TextDefect;

/// A position in the text of a node, by any of its names.
#[derive(Clone, Copy)]
pub enum Spot {
    /// By how many scalars are before it, on this side where two runs meet.
    Index(At),
    /// By how many UTF-16 code units are before it, on the start side.
    Utf16Index(usize),
    /// By its run, and how many of the run's characters are before it.
    Name(schema::TextPosition),
    /// At a point, given in the node's coordinates and in units of 1/64 pixel.
    Point(Point),
    /// The end of the text.
    End,
    /// The fixed end of the selection.
    SelectionAnchor,
    /// The moving end of the selection, where the caret is.
    SelectionFocus,
}

/// Which numbers of a position are asked for: nothing is counted for the others.
#[derive(Clone, Copy)]
pub struct Wanted {
    /// How many scalars are before it.
    pub index: bool,
    /// How many UTF-16 code units are before it.
    pub utf16_index: bool,
    /// The number of its line.
    pub line: bool,
}

/// A test of a position.
#[derive(Clone, Copy)]
pub enum SpotTest {
    CharacterAfter,
    CharacterBefore,
    FormatStart,
    WordStart,
    LineStart,
    LineEnd,
    ParagraphStart,
    ParagraphEnd,
    /// The next character ends a paragraph that isn't the last one.
    ParagraphSeparator,
    DocumentStart,
    DocumentEnd,
}

impl FedTree {
    /// The position, by its run and those numbers that are asked for, with 0 for the others; `None` if it isn't there, if the node has no text,
    /// or if the tree doesn't have the node.
    #[tactic(auto, using(crate::proofs::Found::read_found, crate::proofs::Found::read_missing))]
    pub fn spot(&self, id: FullNodeId, spot: Spot, wanted: Wanted) -> Option<TextPlace>
        ensures { result ≡ read_of self.now.world id (λ w node. spot_place spot wanted w id) }
    {
        spot_place(self.node(id)?, spot, wanted)
    }

    /// Where a movement of the caret from that position ends; `None` also for a movement by a character past an end of the text.
    #[tactic(auto, using(crate::proofs::Found::read_found, crate::proofs::Found::read_missing))]
    pub fn spot_after(
        &self,
        id: FullNodeId,
        spot: Spot,
        by: Move,
        wanted: Wanted,
    ) -> Option<TextPlace>
        ensures { result ≡ read_of self.now.world id (λ w node. moved_place spot by wanted w id) }
    {
        moved_place(self.node(id)?, spot, by, wanted)
    }

    /// Whether the test holds of the position; `None` as for [`FedTree::spot`].
    #[tactic(auto, using(crate::proofs::Found::read_found, crate::proofs::Found::read_missing))]
    pub fn spot_test(&self, id: FullNodeId, spot: Spot, test: SpotTest) -> Option<bool>
        ensures { result ≡ read_of self.now.world id (λ w node. test_at spot test w id) }
    {
        let node = self.node(id)?;
        tested(node, spot, test)
    }

    /// How many scalars the node's text has; `None` if it has no text, or if the tree doesn't have the node.
    #[tactic(auto, using(crate::proofs::Found::read_found, crate::proofs::Found::read_missing))]
    pub fn text_length(&self, id: FullNodeId) -> Option<usize>
        ensures { result ≡ read_of self.now.world id (λ w node. in_text text_length w id) }
    {
        length_of(self.node(id)?)
    }

    /// Why the node's runs make no text; `None` if they make one, if it has no runs, or if the tree doesn't have the node.
    #[tactic(auto, using(crate::proofs::Found::read_found, crate::proofs::Found::read_missing))]
    pub fn text_defect(&self, id: FullNodeId) -> Option<TextDefect>
        ensures { result ≡ read_of self.now.world id (λ w node. text_defect w id) }
    {
        self.node(id)?.text_defect()
    }
}

/// The position on this side of its place.
fn on_side(position: TextPosition<'_>, side: Side) -> TextPosition<'_>
    ensures at { let p = position.entry in flat_position result ≡ on_side (position_text p) side (flat_position p) }
    ensures same { root_at result ≡ root_at position.entry }
{
    match side {
        Side::Start => position,
        Side::End => position.biased_to_end(),
    }
}

/// The position with this index, on this side.
fn indexed<'a>(text: Text<'a>, at: At) -> Option<TextPosition<'a>>
    ensures at { option_map flat_position result ≡ position_at (node_text (root_of text.entry)) at }
    ensures same { IfSome result (λ p. root_at p ≡ root_of text.entry) }
{
    let start = text.position_from_usv_index(at.index)?;
    Some(on_side(start, at.side))
}

/// The position in the text, if it is there.
fn spotted<'a>(text: Text<'a>, spot: Spot) -> Option<TextPosition<'a>>
    ensures at { let root = root_of text.entry in
        option_map flat_position result ≡ position_in spot (world_at root) (id_at root) (node_text root) }
    ensures same { IfSome result (λ p. root_at p ≡ root_of text.entry) }
{
    match spot {
        Spot::Index(at) => indexed(text, at),
        Spot::Utf16Index(index) => text.position_from_utf16_index(index),
        Spot::Name(raw) => text.position_from_raw(raw),
        Spot::Point(point) => Some(text.position_at_point(point)),
        Spot::End => Some(text.end()),
        Spot::SelectionAnchor => text.selection_anchor(),
        Spot::SelectionFocus => text.selection_focus(),
    }
}

/// The position in the node's text, if the node has a text and the position is there.
pub(crate) fn found<'a>(node: NodeRef<'a>, spot: Spot) -> Option<TextPosition<'a>>
    ensures at { option_map flat_position result ≡ found_at spot (world_at node.entry) (id_at node.entry) }
    ensures text { IsSome result → supports_text_ranges (world_at node.entry) (id_at node.entry) ≡ true }
    ensures same { IfSome result (λ p. root_at p ≡ node.entry) }
{
    let text = node.text()?;
    spotted(text, spot)
}

/// The position, by its run and the numbers that are asked for.
#[tactic(auto, using(crate::proofs::Spotting::place_wanted))]
pub(crate) fn place_of(position: TextPosition<'_>, wanted: Wanted) -> TextPlace
    ensures { place_of wanted (position_text position.entry) (flat_position position.entry) ≡ Some result }
{
    TextPlace {
        name: position.to_raw(),
        index: index_of(position, wanted.index),
        utf16_index: utf16_index_of(position, wanted.utf16_index),
        line: line_of(position, wanted.line),
        side: side_of(position),
    }
}

/// How many scalars are before the position, if that is asked for.
fn index_of(position: TextPosition<'_>, is_wanted: bool) -> usize
    ensures { let p = position.entry in
        result ≡ (if is_wanted then to_global_usv_index (position_text p) (flat_position p) else 0) }
{
    if is_wanted {
        position.to_global_usv_index()
    } else {
        0
    }
}

/// How many UTF-16 code units are before the position, if that is asked for.
fn utf16_index_of(position: TextPosition<'_>, is_wanted: bool) -> usize
    ensures { let p = position.entry in
        result ≡ (if is_wanted then to_global_utf16_index (position_text p) (flat_position p) else 0) }
{
    if is_wanted {
        position.to_global_utf16_index()
    } else {
        0
    }
}

/// The number of the position's line, if that is asked for.
fn line_of(position: TextPosition<'_>, is_wanted: bool) -> usize
    ensures { let p = position.entry in
        result ≡ (if is_wanted then to_line_index (position_text p) (flat_position p) else 0) }
{
    if is_wanted {
        position.to_line_index()
    } else {
        0
    }
}

/// The position in the node's text, by its run and the numbers that are asked for.
fn spot_place(node: NodeRef<'_>, spot: Spot, wanted: Wanted) -> Option<TextPlace>
    ensures { result ≡ spot_place spot wanted (world_at node.entry) (id_at node.entry) }
{
    let position = found(node, spot)?;
    Some(place_of(position, wanted))
}

/// Where a movement from the position ends.
fn place_after(position: TextPosition<'_>, by: Move, wanted: Wanted) -> Option<TextPlace>
    ensures { let t = position_text position.entry in
        result ≡ option_and_then (place_of wanted t) (position_after t (flat_position position.entry) by) }
{
    let to = moved(position, by)?;
    Some(place_of(to, wanted))
}

/// Where a movement from a position in the node's text ends.
fn moved_place(node: NodeRef<'_>, spot: Spot, by: Move, wanted: Wanted) -> Option<TextPlace>
    ensures { result ≡ moved_place spot by wanted (world_at node.entry) (id_at node.entry) }
{
    let position = found(node, spot)?;
    place_after(position, by, wanted)
}

/// Whether the test holds of a position.
fn tests(position: TextPosition<'_>, test: SpotTest) -> bool
    ensures { result ≡ tests test (position_text position.entry) (flat_position position.entry) }
{
    match test {
        SpotTest::CharacterAfter => position.has_character_after(),
        SpotTest::CharacterBefore => position.has_character_before(),
        SpotTest::FormatStart => position.is_format_start(),
        SpotTest::WordStart => position.is_word_start(),
        SpotTest::LineStart => position.is_line_start(),
        SpotTest::LineEnd => position.is_line_end(),
        SpotTest::ParagraphStart => position.is_paragraph_start(),
        SpotTest::ParagraphEnd => position.is_paragraph_end(),
        SpotTest::ParagraphSeparator => position.is_paragraph_separator(),
        SpotTest::DocumentStart => position.is_document_start(),
        SpotTest::DocumentEnd => position.is_document_end(),
    }
}

/// Whether the test holds of a position in the node's text.
fn tested(node: NodeRef<'_>, spot: Spot, test: SpotTest) -> Option<bool>
    ensures { result ≡ test_at spot test (world_at node.entry) (id_at node.entry) }
{
    let position = found(node, spot)?;
    Some(tests(position, test))
}

/// How many scalars the node's text has.
fn length_of(node: NodeRef<'_>) -> Option<usize>
    ensures { result ≡ in_text text_length (world_at node.entry) (id_at node.entry) }
{
    let end = found(node, Spot::End)?;
    Some(end.to_global_usv_index())
}
