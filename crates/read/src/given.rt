//! The node that arguments name.

ghost use Rattle.std.specs.Prelude.{◌≡◌, map};
ghost use Rattle.read.specs.Given.{GivesId, GivesTree, NamesNoTree, tree_names};

use atree_script::{ArgumentError, ArgumentKind, number, tree_named, unknown_word};
use line_text::nearest;
use schema::{NodeId, TreeId};
use std::alloc::Global;

static TREE_NAMES: [&str; 1] = ["root"];

/// The id that this word says, or the error that it is no number.
pub(crate) fn id_given(alloc: Global, word: &str) -> Result<NodeId, ArgumentError>
    ensures { GivesId word.now result }
{
    match number(word) {
        Some(id) => Ok(NodeId(id)),
        None => Err(unknown_word(alloc, ArgumentKind::Number, word, None)),
    }
}

/// The tree that this word names, or the error that there is none. Only `root` has a name: the others are UUIDs.
pub(crate) fn tree_given(alloc: Global, word: &str) -> Result<TreeId, ArgumentError>
    ensures { GivesTree word.now result }
{
    match tree_named(word) {
        Some(tree) => Ok(tree),
        None => Err(no_tree(alloc, word)),
    }
}

/// The error that this word names no tree.
fn no_tree(alloc: Global, word: &str) -> ArgumentError
    ensures { NamesNoTree word.now result }
{
    let near = nearest(word.as_bytes(), tree_names());
    unknown_word(alloc, ArgumentKind::Tree, word, near)
}

/// The names of trees.
fn tree_names() -> &'static [&'static str]
    ensures { map (λ name. name.now) result.now ≡ tree_names }
{
    &TREE_NAMES
}
