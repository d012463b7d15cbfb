//! Ranges that are kept, and looked for in states.

use crate::sketches::Has::{Children, Lengths, Value, Words};
use crate::sketches::small_texts::{MEETING, NOTHING, OWN_VALUE, SmallText};
use crate::sketches::{Sketch, planted, root_of};
use crate::text_tests::asking::Span::Between;
use crate::text_tests::asking::range;
use accesskit_consumer::WeakTextRange;
use accesskit_consumer::node::NodeRef;
use accesskit_consumer::text::{TextPosition, TextRange};
use accesskit_consumer::tree::Tree;
use schema::Role;
use std::alloc::Global;
use std::test::Fail;

/// Three letters.
const LONG: SmallText = &[
    Sketch(0, Role::TextInput, &[Children(&[1])]),
    Sketch(
        1,
        Role::TextRun,
        &[Value("abc"), Lengths(&[1, 1, 1]), Words(&[])],
    ),
];

/// A position by the id of its run's node, and the index.
type Spot = (u64, usize);

/// The first two letters.
fn first_two(alloc: Global, root: &NodeRef) -> Result<WeakTextRange, Fail> {
    match range(root, &Between(0, 2)) {
        Some(range) => Ok(range.downgrade(alloc)?),
        None => Err("no range".into()),
    }
}

/// A position as a plain value.
fn named(position: TextPosition) -> Spot {
    let raw = position.to_raw();
    (raw.node.0, raw.character_index)
}

fn both_ends(range: &TextRange) -> (Spot, Spot) {
    (named(range.start()), named(range.end()))
}

/// The ends of the range in the state of a tree, which is given as itself.
fn upgraded(weak: &WeakTextRange, tree: &Tree) -> Option<(Spot, Spot)> {
    match weak.upgrade(tree.state()) {
        Some(range) => Some(both_ends(&range)),
        None => None,
    }
}

fn has_node(weak: &WeakTextRange, tree: &Tree) -> bool {
    weak.upgrade_node(tree.state()).is_some()
}

/// The first two letters, kept.
fn kept(alloc: Global) -> Result<WeakTextRange, Fail> {
    let tree = planted(alloc, LONG)?;
    first_two(alloc, &root_of(&tree))
}

/// Another tree, where it has the first two letters, by the ids of runs and not past their ends, and whether it has their
/// text.
static ELSEWHERE: [(SmallText, Option<(Spot, Spot)>, bool); 4] = [
    (LONG, Some(((1, 0), (1, 2))), true),
    (MEETING, Some(((1, 0), (1, 2))), true),
    (NOTHING, None, true),
    (OWN_VALUE, None, false),
];

/// Whether the tree has the range and its text so.
fn is_right(weak: &WeakTextRange, tree: &Tree, ends: Option<(Spot, Spot)>, has: bool) -> bool {
    upgraded(weak, tree) == ends && has_node(weak, tree) == has
}

#[test]
fn weak_ranges_are_found_in_other_states(rt: HostRuntime) -> Result<(), Fail> {
    let weak = kept(rt.alloc())?;
    for (row, (text, ends, has)) in ELSEWHERE.iter().enumerate() {
        let tree = planted(rt.alloc(), text)?;
        assert!(rt; is_right(&weak, &tree, *ends, *has), "row {row}");
    }
    Ok(())
}
