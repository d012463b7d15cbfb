//! Which parts of a state are as in an earlier one.
ghost use Rattle.std.specs.Prelude.{◌≡◌, [], ◌∷◌, true, None, nat_lt, is_some, reverse, IfOk, MatchOption, OnOk, map, if◌then◌else◌};
ghost use Rattle.std.specs.List.{FoldsTo};
ghost use Rattle.page_states.specs.Again.{last_of, row_shown, state_of, top_after, way_of, AreLed, Finds, HasSameBox, HasSameRow, IsBoxIn, IsRowIn, KeepsRows, Puts};
ghost use Rattle.page_states.specs.Subtrees.{has_box, has_row, if_all, subtrees_after, subtrees_below, AreSames};

use crate::looks::{Look, are_same_nodes, is_same_text};
use crate::marks::Mark;
use crate::nesting::MOST_LISTS;
use crate::rows::{Row, Shown};
use std::alloc::{AllocError, Global};
use std::collections::BTreeMap;
use views::FullNodeId;

/// What was last shown of a node.
#[derive(Drop)]
pub struct Last {
    pub look: Look,
    /// The state in which its row was last written out.
    pub row: u64,
    /// The state in which its box was last drawn, if it can be drawn again from there: it had no mark, and it began a group.
    pub drawn: Option<u64>,
}

/// What was last shown of each node of a state.
pub type Kept = BTreeMap<FullNodeId, Last>;

/// The earlier states in which a node was shown in the same way, if there are such.
#[derive(Clone, Copy, Debug, PartialEq, Eq)]
pub(crate) struct Same {
    pub row: Option<u64>,
    pub drawn: Option<u64>,
}

/// No state.
const NOWHERE: Same = Same {
    row: None,
    drawn: None,
};

/// How a part of a state is shown.
#[derive(Clone, Copy, Debug, PartialEq, Eq)]
pub(crate) enum Way {
    /// It is written out.
    Whole,
    /// It is, with all below it, as in this earlier state, which one line or one element names.
    Again(u64),
    /// It is below such a node. This is the state in which it was last written out.
    Folded(u64),
}

/// How a node's row and box are shown.
#[derive(Clone, Copy, Debug, PartialEq, Eq)]
pub(crate) struct Ways {
    pub row: Way,
    pub drawn: Way,
}

/// Each of these nodes with how it is shown, by what was shown of them before.
pub(crate) fn rows_of<'a>(
    alloc: Global,
    kept: &Kept,
    shown: Vec<Shown<'a>>,
) -> Result<Vec<Row<'a>>, AllocError>
    ensures shown { IfOk result (λ rows. map row_shown rows.items ≡ shown.entry.items) }
    ensures ways { IfOk result (λ rows. AreLed kept.now shown.entry.items rows.items) }
{
    let mut sames = sames_of(alloc, kept, &shown)?;
    let mut rows = Vec::new(alloc);
    let mut folds = Folds {
        row: None,
        drawn: None,
    };
    for one in shown {
        // Each node has one.
        let Some(same) = sames.pop() else {
            return Err(AllocError);
        };
        let ways = folds.next(one.place.depth, same);
        folds = folds.after(one.place.depth, ways);
        rows.push(Row { shown: one, ways })?;
    }
    Ok(rows)
}

/// The depths of the nodes below which nothing is written out, if there are such.
#[derive(Clone, Copy, Debug, PartialEq, Eq)]
struct Folds {
    row: Option<usize>,
    drawn: Option<usize>,
}

impl Folds {
    /// How the next node is shown.
    fn next(self, depth: usize, same: Same) -> Ways
        ensures row { result.row ≡ way_of self.row depth same.row }
        ensures drawn { result.drawn ≡ way_of self.drawn depth same.drawn }
    {
        Ways {
            row: way_of(self.row, depth, same.row),
            drawn: way_of(self.drawn, depth, same.drawn),
        }
    }

    /// The same after that node.
    fn after(self, depth: usize, ways: Ways) -> Folds
        ensures row { result.row ≡ top_after self.row depth ways.row }
        ensures drawn { result.drawn ≡ top_after self.drawn depth ways.drawn }
    {
        Folds {
            row: top_after(self.row, depth, ways.row),
            drawn: top_after(self.drawn, depth, ways.drawn),
        }
    }
}

/// How a node is shown that is the same as in this state, after a node of this depth that was folded.
fn way_of(top: Option<usize>, depth: usize, same: Option<u64>) -> Way
    ensures { result ≡ way_of top depth same }
{
    let Some(state) = same else {
        return Way::Whole;
    };
    match top {
        Some(top) if top < depth => Way::Folded(state),
        _ => Way::Again(state),
    }
}

/// The depth of the node that folds what comes after this one.
fn top_after(top: Option<usize>, depth: usize, way: Way) -> Option<usize>
    ensures { result ≡ top_after top depth way }
{
    match way {
        Way::Whole => None,
        Way::Again(_) => Some(depth),
        Way::Folded(_) => top,
    }
}

/// A subtree, by the depth of its top, and where it was shown in the same way.
#[derive(Clone, Copy, Debug, PartialEq, Eq)]
struct Subtree {
    depth: usize,
    same: Same,
}

/// Where each node was shown, with all below it, in the same way: from the last node to the first.
fn sames_of(alloc: Global, kept: &Kept, shown: &[Shown]) -> Result<Vec<Same>, AllocError>
    ensures { IfOk result (λ sames. AreSames kept.now shown.now (reverse sames.items)) }
{
    let mut later = Vec::new(alloc);
    let mut sames = Vec::new(alloc);
    let count = shown.len();
    for step in 0..count {
        let next = &shown[count - 1 - step];
        let depth = next.place.depth;
        let same = with_children(own_same(kept, next), depth, &mut later);
        later.push(Subtree { depth, same })?;
        sames.push(same)?;
    }
    Ok(sames)
}

/// The same of a node with all below it. The subtrees of its children are the last of the list, and are taken from it.
fn with_children(own: Same, depth: usize, later: &mut Vec<Subtree>) -> Same
    ensures left { reverse later.new.items ≡ subtrees_after depth later.old.items }
    ensures row { result.row ≡ if_all has_row (subtrees_below depth later.old.items) own.row }
    ensures drawn { result.drawn ≡ if_all has_box (subtrees_below depth later.old.items) own.drawn }
{
    let mut same = own;
    while let Some(child) = next_below(depth, later) {
        same = with_child(same, child.same);
    }
    same
}

/// Takes the last subtree from the list, if it is below a node of this depth.
fn next_below(depth: usize, later: &mut Vec<Subtree>) -> Option<Subtree>
    ensures { MatchOption result
        ((later.new.items ≡ later.old.items) × (subtrees_below depth later.old.items ≡ [])
        × (subtrees_after depth later.old.items ≡ reverse later.old.items))
        (λ child. (reverse later.old.items ≡ child ∷ reverse later.new.items) × (nat_lt depth child.depth ≡ true)) }
{
    let last = later.last().copied()?;
    if last.depth <= depth {
        return None;
    }
    later.pop()
}

/// The same of a node with this child too.
fn with_child(same: Same, child: Same) -> Same
    ensures row { result.row ≡ (if is_some child.row then same.row else None) }
    ensures drawn { result.drawn ≡ (if is_some child.drawn then same.drawn else None) }
{
    Same {
        row: if_also(same.row, child.row),
        drawn: if_also(same.drawn, child.drawn),
    }
}

/// The first state, if there is a second.
fn if_also(state: Option<u64>, other: Option<u64>) -> Option<u64>
    ensures { result ≡ (if is_some other then state else None) }
{
    match other {
        Some(_) => state,
        None => None,
    }
}

/// Where a node was shown in the same way, whatever is below it.
fn own_same(kept: &Kept, shown: &Shown) -> Same
    ensures row { Finds (IsRowIn kept.now shown.now) result.row }
    ensures drawn { Finds (IsBoxIn kept.now shown.now) result.drawn }
{
    match kept.get(&shown.place.node.id()) {
        Some(last) => Same {
            row: same_row(&shown.look, last, shown.place.mark),
            drawn: same_box(&shown.look, last, shown.place.mark),
        },
        None => NOWHERE,
    }
}

/// The state in which the same row was written for the node, if it has no mark.
fn same_row(look: &Look, last: &Last, mark: Option<Mark>) -> Option<u64>
    ensures { Finds (HasSameRow look.now last.now mark) result }
{
    if mark.is_some() || !is_same_text(&look.row, &last.look.row) {
        return None;
    }
    if !are_same_nodes(&look.children, &last.look.children) {
        return None;
    }
    Some(last.row)
}

/// The state in which the same box was drawn for the node, if it has no mark now and had no mark there.
fn same_box(look: &Look, last: &Last, mark: Option<Mark>) -> Option<u64>
    ensures { Finds (HasSameBox look.now last.now mark) result }
{
    if mark.is_some() || !is_same_text(&look.drawn, &last.look.drawn) {
        return None;
    }
    if !are_same_nodes(&look.children, &last.look.children) {
        return None;
    }
    last.drawn
}

/// What is shown of these nodes in the state with this number, to be kept until the next one. The state may have no picture.
pub(crate) fn kept_of(
    alloc: Global,
    number: u64,
    has_picture: bool,
    rows: Vec<Row>,
) -> Result<Kept, AllocError>
    ensures { IfOk result (KeepsRows number has_picture rows.entry.items) }
{
    let mut kept = BTreeMap::new(alloc);
    keep_all(number, has_picture, rows, &mut kept)?;
    Ok(kept)
}

/// Keeps what is shown of these nodes.
fn keep_all(
    number: u64,
    has_picture: bool,
    rows: Vec<Row>,
    kept: &mut Kept,
) -> Result<(), AllocError>
    ensures { OnOk result (FoldsTo (Puts number has_picture) kept.old rows.entry.items kept.new) }
{
    for row in rows {
        keep(number, has_picture, row, kept)?;
    }
    Ok(())
}

/// Keeps what is shown of a node.
fn keep(number: u64, has_picture: bool, row: Row, kept: &mut Kept) -> Result<(), AllocError>
    ensures { OnOk result (Puts number has_picture kept.old row.entry kept.new) }
{
    let id = row.shown.place.node.id();
    kept.insert(id, last_of(number, has_picture, row))?;
    Ok(())
}

/// What is shown of a node in the state with this number.
fn last_of(number: u64, has_picture: bool, row: Row) -> Last
    ensures { result ≡ last_of number has_picture row.entry }
{
    let place = row.shown.place;
    let is_group = has_picture && place.mark.is_none() && place.depth < MOST_LISTS;
    let drawn = match row.ways.drawn {
        Way::Whole if is_group => Some(number),
        Way::Whole => None,
        Way::Again(state) | Way::Folded(state) => Some(state),
    };
    Last {
        look: row.shown.look,
        row: state_of(number, row.ways.row),
        drawn,
    }
}

/// The state that has a row which the state with this number shows in this way.
fn state_of(number: u64, way: Way) -> u64
    ensures { result ≡ state_of number way }
{
    match way {
        Way::Whole => number,
        Way::Again(state) | Way::Folded(state) => state,
    }
}
