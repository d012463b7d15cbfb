//! Whether a word names a node, a tree or a role.

ghost use Rattle.std.specs.Prelude.{◌↔◌, IsTrue};
ghost use Rattle.line_faults.specs.Known.{IsIdWord, IsRoleWord, IsTreeWord};

use script_words::names::role_named;
use script_words::words::{number, tree_named};
use std::str;

/// Whether the word is a node's id.
pub(crate) fn is_id(word: &[u8]) -> bool
    ensures { IsTrue result ↔ IsIdWord word.now }
{
    let Ok(text) = str::from_utf8(word) else {
        return false;
    };
    number(text).is_some()
}

/// Whether the word is a tree's id.
pub(crate) fn is_tree(word: &[u8]) -> bool
    ensures { IsTrue result ↔ IsTreeWord word.now }
{
    let Ok(text) = str::from_utf8(word) else {
        return false;
    };
    tree_named(text).is_some()
}

/// Whether the word is a role's name.
pub(crate) fn is_role(word: &[u8]) -> bool
    ensures { IsTrue result ↔ IsRoleWord word.now }
{
    let Ok(text) = str::from_utf8(word) else {
        return false;
    };
    role_named(text).is_some()
}
