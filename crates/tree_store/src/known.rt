//! The known trees, by index.
ghost use Rattle.std.specs.Prelude.{◌≡◌, ◌<◌, true, ℕ, [], ◌∷◌, ◌++◌, All, IfSome, length, option_map, slice_get, cond};
ghost use Rattle.std.specs.Ordering.{nat_cmp, eq_by_cmp};
ghost use Rattle.std.specs.Vec.{vec_len, vec_capacity};
ghost use Rattle.tree_changes.specs.Changes.{tree_from, put_tree, put_trees};
ghost use Rattle.tree_store.specs.Stored.{tree_of, names_shown, trees_shown, tree_in};
ghost use Rattle.tree_store.specs.Commits.{with_name};

use crate::records::{KnownTree, PresentTree};
use schema::TreeId;
use tree_changes::TreeRecord;

/// Adds a tree id whose tree isn't present yet. Room for it was reserved.
pub(crate) fn add_name(known: &mut Vec<KnownTree>, name: TreeId)
    requires { vec_len known.old < vec_capacity known.old }
    ensures names { names_shown known.new.items ≡ names_shown known.old.items ++ name ∷ [] }
    ensures trees { trees_shown 0 known.new.items ≡ trees_shown 0 known.old.items }
{
    if known.push(KnownTree { name, tree: None }).is_err() {
        unreachable!()
    }
}

/// Writes the changes of trees, after a new tree id is added.
pub(crate) fn write_known(
    known: &mut Vec<KnownTree>,
    is_new: bool,
    name: TreeId,
    records: &[TreeRecord],
)
    requires room { is_new ≡ true → vec_len known.old < vec_capacity known.old }
    requires known { All (λ r. IfSome r.index (λ i. i < length (with_name is_new (names_shown known.old.items) name))) records.now }
    ensures names { names_shown known.new.items ≡ with_name is_new (names_shown known.old.items) name }
    ensures trees { trees_shown 0 known.new.items ≡ put_trees (trees_shown 0 known.old.items) records.now }
{
    if is_new {
        add_name(known, name);
    }
    write_trees(known, records);
}

/// Writes the changes of trees.
pub(crate) fn write_trees(known: &mut Vec<KnownTree>, records: &[TreeRecord])
    requires { All (λ r. IfSome r.index (λ i. i < length known.old.items)) records.now }
    ensures names { names_shown known.new.items ≡ names_shown known.old.items }
    ensures trees { trees_shown 0 known.new.items ≡ put_trees (trees_shown 0 known.old.items) records.now }
{
    for record in records {
        write_tree(known, record);
    }
}

fn write_tree(known: &mut Vec<KnownTree>, changed: &TreeRecord)
    requires { IfSome changed.now.index (λ i. i < length known.old.items) }
    ensures names { names_shown known.new.items ≡ names_shown known.old.items }
    ensures trees { trees_shown 0 known.new.items ≡ put_tree (trees_shown 0 known.old.items) changed.now }
    ensures count { length known.new.items ≡ length known.old.items }
{
    let Some(index) = changed.index else {
        return;
    };
    set_tree(known, index as usize, present_in(changed));
}

fn set_tree(known: &mut Vec<KnownTree>, index: usize, tree: Option<PresentTree>)
    requires { index < length known.old.items }
    ensures names { names_shown known.new.items ≡ names_shown known.old.items }
    ensures trees { (q : ℕ) → tree_in (slice_get known.new.items q)
        ≡ cond (eq_by_cmp nat_cmp q index) (option_map tree_of tree) (tree_in (slice_get known.old.items q)) }
    ensures count { length known.new.items ≡ length known.old.items }
{
    known[index].tree = tree;
}

// the tree of a record, if it is present
fn present_in(changed: &TreeRecord) -> Option<PresentTree>
    ensures { option_map tree_of result ≡ tree_from changed.now.root changed.now.focus }
{
    let root = changed.root?;
    let focus = changed.focus?;
    Some(PresentTree { root, focus })
}
