//! The exports that ask about positions in the text of a node, however they are named, and about its length and its defects.
ghost use Rattle.std.specs.Prelude.{◌≡◌, ◌&&◌, is_some};
ghost use Rattle.fed_tree_c.specs.Answers.{Answers, lack_at, lack_where};
ghost use Rattle.fed_tree_c.specs.Records.{node_id, position_of};
ghost use Rattle.fed_tree_c.specs.Kinds.{all_tests};
ghost use Rattle.fed_tree_c.specs.Numbers.{all_moves};
ghost use Rattle.fed_tree_c.specs.Spotting.{defect_in, defect_of, lack_said, length_in, moved_in, place_in, rule_of, spot_said, test_in, wanted_said};

use crate::found::give_at;
use crate::handle::Handle;
use crate::kinds::test_numbered;
use crate::node_texts::position_of;
use crate::numbers::{at_index, move_numbered};
use crate::records::{AkPosition, CLOSED, node_id};
use fed_tree::{FedTree, Spot, Wanted};
use model::FullNodeId;
use schema::{NodeId, Point, TextPosition};
use std::alloc::Global;
use views::runs::{RunDefect, TextDefect};

/// A position in the text of a node, by one of its names: `kind` says by which, and so what of the rest counts.
#[repr(C)]
#[derive(Clone, Copy)]
pub struct AkSpot {
    /// 0 by `index`, which counts scalars, and `is_end`; 1 by `index`, which counts UTF-16 code units; 2 by `run` and `index`, which
    /// counts the run's characters; 3 at the point `x` and `y`; 4 the end of the text; 5 the fixed end of the selection, and 6 the
    /// moving one.
    pub kind: u32,
    pub is_end: bool,
    pub run: u64,
    pub index: usize,
    pub x: i64,
    pub y: i64,
}

/// Why runs make no text: the rule that one breaks, and the run.
#[repr(C)]
#[derive(Clone, Copy)]
pub struct AkDefect {
    /// The run, by its id in its tree, and the index of that; 0 for the role of the node.
    pub run: u64,
    /// The node that a link leads to, where that is the rule; else 0.
    pub link: u64,
    pub run_tree: u32,
    /// 0 for the role of the node; else the number of the rule, from 1.
    pub rule: u8,
}

/// The position that C says.
#[tactic(auto, unfolding(crate::specs::Spotting::spot_by))]
pub(crate) fn spot_said(spot: &AkSpot) -> Option<Spot>
    ensures { result ≡ spot_said spot.now }
{
    match spot.kind {
        0 => Some(Spot::Index(at_index(spot.index, spot.is_end))),
        1 => Some(Spot::Utf16Index(spot.index)),
        2 => Some(Spot::Name(TextPosition {
            node: NodeId(spot.run),
            character_index: spot.index,
        })),
        3 => Some(Spot::Point(Point {
            x: spot.x,
            y: spot.y,
        })),
        4 => Some(Spot::End),
        5 => Some(Spot::SelectionAnchor),
        6 => Some(Spot::SelectionFocus),
        _ => None,
    }
}

/// Whether the position has a kind that there is.
pub(crate) fn is_spot(spot: &AkSpot) -> bool
    ensures { result ≡ is_some (spot_said spot.now) }
{
    spot_said(spot).is_some()
}

/// Whether both are so.
pub(crate) fn both(first: bool, second: bool) -> bool
    ensures { result ≡ (first && second) }
{
    first && second
}

/// The numbers of a position that C asks for: bit by bit the index, the UTF-16 index and the line.
pub(crate) fn wanted_said(bits: u32) -> Wanted
    ensures { result ≡ wanted_said bits }
{
    Wanted {
        index: bits % 2 == 1,
        utf16_index: bits / 2 % 2 == 1,
        line: bits / 4 % 2 == 1,
    }
}

/// The position in the node's text.
fn place_in(fed: &FedTree, spot: &AkSpot, wanted: u32, id: FullNodeId) -> Option<AkPosition>
    ensures { result ≡ place_in spot.now wanted id fed.now }
{
    let spot = spot_said(spot)?;
    let place = fed.spot(id, spot, wanted_said(wanted))?;
    Some(position_of(place))
}

/// Where the movement with this number ends.
fn moved_in(
    fed: &FedTree,
    spot: &AkSpot,
    number: u32,
    wanted: u32,
    id: FullNodeId,
) -> Option<AkPosition>
    ensures { result ≡ moved_in spot.now number wanted id fed.now }
{
    let spot = spot_said(spot)?;
    let by = move_numbered(number)?;
    let place = fed.spot_after(id, spot, by, wanted_said(wanted))?;
    Some(position_of(place))
}

/// Whether the test with this number holds.
fn test_in(fed: &FedTree, spot: &AkSpot, number: u32, id: FullNodeId) -> Option<bool>
    ensures { result ≡ test_in spot.now number id fed.now }
{
    let spot = spot_said(spot)?;
    let test = test_numbered(number)?;
    fed.spot_test(id, spot, test)
}

/// The number of the rule that a run breaks, and the node that a link leads to.
fn rule_of(defect: RunDefect) -> (u8, u64)
    ensures { result ≡ rule_of defect }
{
    match defect {
        RunDefect::PreviousLink(node) => (1, node.0),
        RunDefect::PreviousUnanswered => (2, 0),
        RunDefect::Tree => (3, 0),
        RunDefect::CharacterLengths => (4, 0),
        RunDefect::WordStarts => (5, 0),
        RunDefect::CharacterPositions => (6, 0),
        RunDefect::CharacterWidths => (7, 0),
        RunDefect::TooLong => (8, 0),
        RunDefect::Empty => (9, 0),
        RunDefect::NextLink(node) => (10, node.0),
        RunDefect::NextUnanswered => (11, 0),
    }
}

/// The defect, as C sees it.
fn defect_of(defect: TextDefect) -> AkDefect
    ensures { result ≡ defect_of defect }
{
    match defect {
        TextDefect::Role => AkDefect {
            run: 0,
            link: 0,
            run_tree: 0,
            rule: 0,
        },
        TextDefect::Run { id, defect } => {
            let (rule, link) = rule_of(defect);
            AkDefect {
                run: id.node.0,
                link,
                run_tree: id.tree,
                rule,
            }
        }
    }
}

/// Why the node's runs make no text.
fn defect_in(fed: &FedTree, id: FullNodeId) -> Option<AkDefect>
    ensures { result ≡ defect_in id fed.now }
{
    let defect = fed.text_defect(id)?;
    Some(defect_of(defect))
}

/// The position in the node's text, by its run and the numbers that are asked for.
#[unsafe(no_mangle)]
pub extern "C" fn ak_text_place(
    alloc: Global,
    tree: &mut Handle,
    node: u64,
    tree_index: u32,
    spot: &AkSpot,
    wanted: u32,
    position: &mut AkPosition,
) -> u8
    ensures kept { tree.new.block.fed ≡ tree.old.block.fed }
    ensures answer { Answers tree.old.block.fed (lack_where (is_some (spot_said spot.now)) (node_id node tree_index))
        (place_in spot.now wanted (node_id node tree_index)) result position.old position.new }
{
    let id = node_id(node, tree_index);
    let taken = tree.take(alloc);
    let status = match &taken {
        Some(fed) => give_at(
            fed,
            id,
            is_spot(spot),
            place_in(fed, spot, wanted, id),
            position,
        ),
        None => CLOSED,
    };
    tree.put(alloc, taken);
    status
}

/// Where the movement with this number from a position in the node's text ends, by its run and the numbers that are asked for.
#[unsafe(no_mangle)]
pub extern "C" fn ak_text_moved(
    alloc: Global,
    tree: &mut Handle,
    node: u64,
    tree_index: u32,
    spot: &AkSpot,
    movement: u32,
    wanted: u32,
    position: &mut AkPosition,
) -> u8
    ensures kept { tree.new.block.fed ≡ tree.old.block.fed }
    ensures answer { Answers tree.old.block.fed (lack_said spot.now all_moves movement (node_id node tree_index))
        (moved_in spot.now movement wanted (node_id node tree_index)) result position.old position.new }
{
    let id = node_id(node, tree_index);
    let taken = tree.take(alloc);
    let status = match &taken {
        Some(fed) => give_at(
            fed,
            id,
            both(is_spot(spot), move_numbered(movement).is_some()),
            moved_in(fed, spot, movement, wanted, id),
            position,
        ),
        None => CLOSED,
    };
    tree.put(alloc, taken);
    status
}

/// Whether the test with this number holds of a position in the node's text.
#[unsafe(no_mangle)]
pub extern "C" fn ak_text_test(
    alloc: Global,
    tree: &mut Handle,
    node: u64,
    tree_index: u32,
    spot: &AkSpot,
    test: u32,
    holds: &mut bool,
) -> u8
    ensures kept { tree.new.block.fed ≡ tree.old.block.fed }
    ensures answer { Answers tree.old.block.fed (lack_said spot.now all_tests test (node_id node tree_index))
        (test_in spot.now test (node_id node tree_index)) result holds.old holds.new }
{
    let id = node_id(node, tree_index);
    let taken = tree.take(alloc);
    let status = match &taken {
        Some(fed) => give_at(
            fed,
            id,
            both(is_spot(spot), test_numbered(test).is_some()),
            test_in(fed, spot, test, id),
            holds,
        ),
        None => CLOSED,
    };
    tree.put(alloc, taken);
    status
}

/// How many scalars the node's text has.
#[unsafe(no_mangle)]
pub extern "C" fn ak_text_length(
    alloc: Global,
    tree: &mut Handle,
    node: u64,
    tree_index: u32,
    length: &mut usize,
) -> u8
    ensures kept { tree.new.block.fed ≡ tree.old.block.fed }
    ensures answer { Answers tree.old.block.fed (lack_at (node_id node tree_index))
        (length_in (node_id node tree_index)) result length.old length.new }
{
    let id = node_id(node, tree_index);
    let taken = tree.take(alloc);
    let status = match &taken {
        Some(fed) => give_at(fed, id, true, fed.text_length(id), length),
        None => CLOSED,
    };
    tree.put(alloc, taken);
    status
}

/// Why the node's runs make no text.
#[unsafe(no_mangle)]
pub extern "C" fn ak_text_defect(
    alloc: Global,
    tree: &mut Handle,
    node: u64,
    tree_index: u32,
    defect: &mut AkDefect,
) -> u8
    ensures kept { tree.new.block.fed ≡ tree.old.block.fed }
    ensures answer { Answers tree.old.block.fed (lack_at (node_id node tree_index))
        (defect_in (node_id node tree_index)) result defect.old defect.new }
{
    let id = node_id(node, tree_index);
    let taken = tree.take(alloc);
    let status = match &taken {
        Some(fed) => give_at(fed, id, true, defect_in(fed, id), defect),
        None => CLOSED,
    };
    tree.put(alloc, taken);
    status
}
