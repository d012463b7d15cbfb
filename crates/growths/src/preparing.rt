//! An update that is prepared, and given up or carried out.

use crate::planning::{BUTTON, NEW_TOOLBAR, TOOLBAR, WINDOW, first, second};
use accesskit_consumer::node::FullNodeId;
use accesskit_consumer::tree::{Prepared, StateRef, Tree, UpdateError};
use schema::NodeId;
use std::alloc::Global;

/// Whether the root tree has one of these toolbars, and not the other, and this focus.
fn has_toolbar(state: StateRef, toolbar: NodeId, other: NodeId, focus: NodeId) -> bool {
    let id = |node: NodeId| FullNodeId { tree: 0, node };
    state.has_node(id(toolbar))
        && !state.has_node(id(other))
        && state.focus_id_in_tree() == id(focus)
}

/// Whether the state is that after the first update;
fn is_first(state: StateRef) -> bool {
    has_toolbar(state, TOOLBAR, NEW_TOOLBAR, WINDOW)
}

/// or after the second.
fn is_second(state: StateRef) -> bool {
    has_toolbar(state, NEW_TOOLBAR, TOOLBAR, BUTTON)
}

/// The tree of the first update, prepared for the second. `None` if memory runs out and the tree has changed.
fn prepared(alloc: Global, tree: Tree) -> Result<Option<Prepared>, UpdateError> {
    match tree.prepare(second(alloc)?) {
        Ok(prepared) => Ok(Some(prepared)),
        Err(refused) if is_first(refused.tree.state().view()) => Err(refused.why),
        Err(_) => Ok(None),
    }
}

/// Whether the second update shows both states while it is prepared, and then leaves the old one, or the new one.
pub fn is_prepared(alloc: Global) -> Result<bool, UpdateError> {
    let tree = Tree::new(alloc, first(alloc)?, true)?;
    let Some(given_up) = prepared(alloc, tree)? else {
        return Ok(false);
    };
    let are_shown = is_first(given_up.old()) && is_second(given_up.new().view());
    let tree = given_up.give_up();
    let is_kept = is_first(tree.state().view());
    let Some(carried_out) = prepared(alloc, tree)? else {
        return Ok(false);
    };
    let is_whole = carried_out.events().len() == 6;
    let tree = carried_out.commit();
    Ok(are_shown && is_kept && is_whole && is_second(tree.state().view()))
}
