//! For which nodes a walk asks its filter, and how many nodes a walk says that it has left.

use crate::sketches::Has::Children;
use crate::sketches::{Sketch, planted, root_of, shown};
use schema::NodeId;
use schema::Role::{GenericContainer, Label, ListItem, Window};
use std::alloc::Global;
use std::cell::Cell;
use std::test::Fail;
use views::NodeRef;
use views::walks::FilterResult::{self, ExcludeNode, ExcludeSubtree, Include};

/// A row whose second child is passed over and has children, and whose fourth is cut off and has children.
const FAMILY: &[Sketch] = &[
    Sketch(0, Window, &[Children(&[1, 2, 3, 4])]),
    Sketch(1, ListItem, &[Children(&[9])]),
    Sketch(2, GenericContainer, &[Children(&[5, 6])]),
    Sketch(3, GenericContainer, &[]),
    Sketch(4, GenericContainer, &[Children(&[7, 8])]),
    Sketch(5, ListItem, &[]),
    Sketch(6, Label, &[]),
    Sketch(7, ListItem, &[]),
    Sketch(8, ListItem, &[]),
    Sketch(9, ListItem, &[]),
];

/// Items in items: one that is passed over, with one in it, one that is cut off, with one in it, and a window with one.
const NESTED: &[Sketch] = &[
    Sketch(0, Window, &[Children(&[2, 3, 4])]),
    Sketch(1, ListItem, &[]),
    Sketch(2, ListItem, &[Children(&[1])]),
    Sketch(3, Window, &[Children(&[5])]),
    Sketch(4, ListItem, &[Children(&[6])]),
    Sketch(5, ListItem, &[]),
    Sketch(6, ListItem, &[]),
];

/// Passes node 2 over, cuts node 4 off, and notes by a bit for which nodes it is asked.
fn answer(asked: &Cell<u64>, id: NodeId) -> FilterResult {
    let number = u32::try_from(id.0).unwrap_or(64);
    asked.set(asked.get() | 1u64.checked_shl(number).unwrap_or(0));
    match id.0 {
        2 => ExcludeNode,
        4 => ExcludeSubtree,
        _ => Include,
    }
}

/// Takes more than there are, all from one end.
fn take<'a, I: DoubleEndedIterator<Item = NodeRef<'a>> + Drop>(mut walk: I, is_from_back: bool)
    requires front { (walk : I) → I.can_next walk }
    requires back { (walk : I) → I.can_next_back walk }
{
    for _ in 0..7u32 {
        let _item = if is_from_back {
            walk.next_back()
        } else {
            walk.next()
        };
    }
}

fn take_items(root: &NodeRef, asked: &Cell<u64>, is_from_back: bool) {
    let items = root.items(|node: &NodeRef<'_>| answer(asked, node.id().node));
    take(items, is_from_back);
}

/// The bits of the nodes for which the filter is asked.
fn asked(alloc: Global, nodes: &[Sketch], is_from_back: bool) -> Result<u64, Fail> {
    let tree = planted(alloc, nodes)?;
    let asked = Cell::new(0u64);
    take_items(&root_of(&tree), &asked, is_from_back);
    Ok(asked.get())
}

/// A tree, and the bits of its nodes that may hold an item.
static ASKED: [(&[Sketch], u64); 2] = [(FAMILY, 0b0111_1110), (NESTED, 0b0011_1110)];

/// A filter is asked neither for the root nor for what is in an item that is given or in what is cut off.
#[test]
fn items_ask_for_what_may_hold_an_item(rt: HostRuntime) -> Result<(), Fail> {
    for (row, (nodes, wanted)) in ASKED.iter().enumerate() {
        let front = asked(rt.alloc(), nodes, false)?;
        let back = asked(rt.alloc(), nodes, true)?;
        assert!(rt; front == *wanted && back == *wanted, "row {row}");
    }
    Ok(())
}

/// How many nodes or ids a walk says that it has left: at least so many, and at most.
type Hint = (usize, Option<usize>);

fn ids_below(node: &NodeRef) -> Hint {
    node.child_ids().size_hint()
}

fn ids_after(node: &NodeRef) -> Hint {
    node.following_sibling_ids().size_hint()
}

fn ids_before(node: &NodeRef) -> Hint {
    node.preceding_sibling_ids().size_hint()
}

fn below(node: &NodeRef) -> Hint {
    node.children().size_hint()
}

fn after(node: &NodeRef) -> Hint {
    node.following_siblings().size_hint()
}

fn before(node: &NodeRef) -> Hint {
    node.preceding_siblings().size_hint()
}

fn is_exact(hint: Hint, left: usize) -> bool {
    hint == (left, Some(left))
}

/// Whether the walks from the second of four children, over its two children, what is after it and what is before it, say
/// how many they have left.
fn are_exact(node: &NodeRef) -> bool {
    is_exact(ids_below(node), 2)
        && is_exact(below(node), 2)
        && is_exact(ids_after(node), 2)
        && is_exact(after(node), 2)
        && is_exact(ids_before(node), 1)
        && is_exact(before(node), 1)
}

#[test]
fn plain_walks_say_how_many_are_left(rt: HostRuntime) -> Result<(), Fail> {
    let tree = planted(rt.alloc(), FAMILY)?;
    assert!(rt; are_exact(&shown(&tree, 0, 2)?));
    Ok(())
}
