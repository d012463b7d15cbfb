//! Records by look-ups.
ghost use Rattle.std.specs.Prelude.{◌≡◌, None};
ghost use Rattle.tree_changes.specs.LookUps.{raised_count};
ghost use Rattle.tree_plan.specs.Passes.{IsOfName};

use schema::TreeId;
use tree_changes::{LookUps, TreeRecord};

/// The record of a tree, or an empty one if there isn't one.
pub(crate) fn tree_record<L: LookUps>(look_ups: &mut L, name: &TreeId) -> TreeRecord
    ensures world { L.world look_ups.new ≡ L.world look_ups.old }
    ensures counts { L.asked look_ups.new ≡ raised_count (L.asked look_ups.old) }
    ensures record { IsOfName (L.world look_ups.old) name.now result }
{
    match look_ups.tree(*name) {
        Some(record) => record,
        None => no_record(*name),
    }
}

/// An empty record of a tree.
pub(crate) fn no_record(id: TreeId) -> TreeRecord
    ensures { result ≡ record { id = id; index = None; graft = None; root = None; focus = None } }
{
    TreeRecord {
        id,
        index: None,
        graft: None,
        root: None,
        focus: None,
    }
}
