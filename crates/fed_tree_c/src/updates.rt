//! The exports that begin an update, and send it.
ghost use Rattle.std.specs.Prelude.{◌≡◌};
ghost use Rattle.fed_tree.specs.Begun.{with_new_node, with_root, with_toolkit_name, with_toolkit_version};
ghost use Rattle.fed_tree_c.specs.Updates.{BeginsHeld, BeginsNodeHeld, BuildsHeld, LeavesHeld, SendsHeld, SetsHostFocusHeld, build_status, node_numbered, tree_said};

use crate::feed::{status_of, stop_of};
use crate::handle::Handle;
use crate::numbers::role_numbered;
use crate::records::{AkStop, CLOSED, DONE, NO_MEMORY, NO_SUCH, OUT_OF_PLACE};
use fed_tree::BuildError;
use schema::{NodeId, Role, TreeId};
use std::alloc::Global;
use uuid::Uuid;

/// The tree that these bytes name: none of them the root tree, and sixteen that with this id.
pub(crate) fn tree_said(bytes: &[u8]) -> Option<TreeId>
    ensures { result ≡ tree_said bytes.now }
{
    if bytes.is_empty() {
        return Some(TreeId::root());
    }
    match Uuid::from_slice(bytes) {
        Ok(name) => Some(TreeId(name)),
        Err(_) => None,
    }
}

/// The number of the answer to a part of an update.
pub(crate) fn build_status(built: Result<(), BuildError>) -> u8
    ensures { result ≡ build_status built }
{
    match built {
        Ok(()) => DONE,
        Err(BuildError::OutOfPlace) => OUT_OF_PLACE,
        Err(BuildError::NoSuch) => NO_SUCH,
        Err(BuildError::Memory) => NO_MEMORY,
    }
}

/// Begins an update of the tree with this id, or of the root tree where there are no bytes. One that was begun before is forgotten.
#[unsafe(no_mangle)]
pub extern "C" fn ak_update_begin(
    alloc: Global,
    tree: &mut Handle,
    tree_id: &[u8],
    focus: u64,
) -> u8
    ensures { BeginsHeld tree_id.now focus tree.old.block.fed result tree.new.block.fed }
{
    let mut taken = tree.take(alloc);
    let status = match (&mut taken, tree_said(tree_id)) {
        (Some(fed), Some(name)) => {
            fed.begin_update(name, NodeId(focus));
            DONE
        }
        (Some(_), None) => NO_SUCH,
        (None, _) => CLOSED,
    };
    tree.put(alloc, taken);
    status
}

/// Says the tree's root, without a toolkit.
#[tactic(auto, using(crate::proofs::Built::said_held))]
#[unsafe(no_mangle)]
pub extern "C" fn ak_update_root(alloc: Global, tree: &mut Handle, root: u64) -> u8
    ensures { BuildsHeld (with_root (node_numbered root)) tree.old.block.fed result tree.new.block.fed }
{
    let mut taken = tree.take(alloc);
    let status = match &mut taken {
        Some(fed) => build_status(fed.set_root(NodeId(root))),
        None => CLOSED,
    };
    tree.put(alloc, taken);
    status
}

/// Says the name of the tree's toolkit.
#[tactic(auto, using(crate::proofs::Built::built_held))]
#[unsafe(no_mangle)]
pub extern "C" fn ak_update_toolkit_name(alloc: Global, tree: &mut Handle, text: &[u8]) -> u8
    ensures { BuildsHeld (with_toolkit_name text.now) tree.old.block.fed result tree.new.block.fed }
{
    let mut taken = tree.take(alloc);
    let status = match &mut taken {
        Some(fed) => build_status(fed.set_toolkit_name(text)),
        None => CLOSED,
    };
    tree.put(alloc, taken);
    status
}

/// Says the version of the tree's toolkit.
#[tactic(auto, using(crate::proofs::Built::built_held))]
#[unsafe(no_mangle)]
pub extern "C" fn ak_update_toolkit_version(alloc: Global, tree: &mut Handle, text: &[u8]) -> u8
    ensures { BuildsHeld (with_toolkit_version text.now) tree.old.block.fed result tree.new.block.fed }
{
    let mut taken = tree.take(alloc);
    let status = match &mut taken {
        Some(fed) => build_status(fed.set_toolkit_version(text)),
        None => CLOSED,
    };
    tree.put(alloc, taken);
    status
}

/// Begins a node, which has this role alone.
#[tactic(auto, using(crate::proofs::Built::built_held))]
fn begin_node(alloc: Global, tree: &mut Handle, id: NodeId, role: Role) -> u8
    ensures { BuildsHeld (with_new_node id role) tree.old.block.fed result tree.new.block.fed }
{
    let mut taken = tree.take(alloc);
    let status = match &mut taken {
        Some(fed) => build_status(fed.begin_node(id, role)),
        None => CLOSED,
    };
    tree.put(alloc, taken);
    status
}

/// Answers that a number means nothing.
fn leave(alloc: Global, tree: &mut Handle) -> u8
    ensures { LeavesHeld tree.old.block.fed result tree.new.block.fed }
{
    let taken = tree.take(alloc);
    let status = if taken.is_some() { NO_SUCH } else { CLOSED };
    tree.put(alloc, taken);
    status
}

/// Begins a node, which has the role with this number alone.
#[unsafe(no_mangle)]
pub extern "C" fn ak_update_node(alloc: Global, tree: &mut Handle, node: u64, role: u32) -> u8
    ensures { BeginsNodeHeld role (node_numbered node) tree.old.block.fed result tree.new.block.fed }
{
    match role_numbered(role) {
        Some(role) => begin_node(alloc, tree, NodeId(node), role),
        None => leave(alloc, tree),
    }
}

/// Carries out the begun update, as `ak_tree_feed` carries out one. None is begun then.
#[tactic(auto, using(crate::proofs::Built::sent_held, crate::proofs::Built::unsent_held))]
#[unsafe(no_mangle)]
pub extern "C" fn ak_update_send(alloc: Global, tree: &mut Handle, stop: &mut AkStop) -> u8
    ensures { SendsHeld tree.old.block.fed result tree.new.block.fed stop.old stop.new }
{
    let mut taken = tree.take(alloc);
    let status = match &mut taken {
        Some(fed) => match fed.send() {
            Some(result) => {
                *stop = stop_of(&result);
                status_of(&result)
            }
            None => OUT_OF_PLACE,
        },
        None => CLOSED,
    };
    tree.put(alloc, taken);
    status
}

/// Says whether the host has the focus, as the lines `host on` and `host off` do.
#[tactic(auto, using(crate::proofs::Built::focused_held))]
#[unsafe(no_mangle)]
pub extern "C" fn ak_tree_host_focus(alloc: Global, tree: &mut Handle, is_focused: bool) -> u8
    ensures { SetsHostFocusHeld tree.old.block.fed is_focused result tree.new.block.fed }
{
    let mut taken = tree.take(alloc);
    let status = match &mut taken {
        Some(fed) => status_of(&fed.set_host_focus(is_focused)),
        None => CLOSED,
    };
    tree.put(alloc, taken);
    status
}
