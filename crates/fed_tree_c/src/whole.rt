//! The exports that ask about the focus, the toolkit, and the ids of trees.
ghost use Rattle.std.specs.Prelude.{◌≡◌, IfOk, MatchResult, Option, option_map, string_bytes};
ghost use Rattle.model.specs.declared.FullNodeId.{FullNodeId as AFullId};
ghost use Rattle.fed_tree_c.specs.Answers.{Answers, AnswersList, Gives, GivesList, IsNoMemory, NOTHING as ANothing, lack_at, nothing};
ghost use Rattle.fed_tree_c.specs.Computing.{AnswersBytes, IsDialogIn, declared_focus_in, host_in, lack_named, subtree_root_in, tree_id_in, toolkit_name_in, toolkit_version_in};
ghost use Rattle.fed_tree_c.specs.Records.{id_of, node_id};

use crate::buffers::fill;
use crate::found::lack_where;
use crate::handle::Handle;
use crate::records::{
    AkId, CLOSED, DONE, NO_MEMORY, NO_SUCH, NOTHING, give, give_id, id_of, node_id,
};
use crate::updates::tree_said;
use fed_tree::FedTree;
use model::FullNodeId;
use schema::TreeId;
use std::alloc::{AllocError, Global};

/// Writes a text of the whole tree, if there is one and memory sufficed for it.
fn give_text(text: Result<Option<String>, AllocError>, buffer: &mut [u8], length: &mut usize) -> u8
    ensures { MatchResult text (λ found. GivesList ANothing (option_map string_bytes found)
        result buffer.old buffer.new length.old length.new)
        (λ wanting. IsNoMemory result buffer.old buffer.new length.old length.new) }
{
    match text {
        Ok(Some(text)) => {
            fill(buffer, text.as_bytes());
            *length = text.len();
            DONE
        }
        Ok(None) => NOTHING,
        Err(_) => NO_MEMORY,
    }
}

/// Writes the bytes of the UUID of the node's tree, if the tree has the node.
fn give_name(fed: &FedTree, id: FullNodeId, buffer: &mut [u8], length: &mut usize) -> u8
    ensures { GivesList (lack_at id fed.now) (tree_id_in id fed.now) result buffer.old buffer.new length.old length.new }
{
    match fed.tree_id(id) {
        Some(TreeId(name)) => {
            let bytes = name.as_bytes();
            fill(buffer, bytes);
            *length = bytes.len();
            DONE
        }
        None => lack_where(fed, id, true),
    }
}

/// The root of the tree that these bytes name.
fn subtree_root_in(fed: &FedTree, tree_id: &[u8]) -> Option<AkId>
    ensures { result ≡ subtree_root_in tree_id.now fed.now }
{
    let name = tree_said(tree_id)?;
    let root = fed.subtree_root(name)?;
    Some(id_of(root))
}

/// Writes the root of the tree that these bytes name, if they name one and it is there.
fn give_root(fed: &FedTree, tree_id: &[u8], root: &mut AkId) -> u8
    ensures { Gives (lack_named tree_id.now fed.now) (subtree_root_in tree_id.now fed.now) result root.old root.new }
{
    match subtree_root_in(fed, tree_id) {
        Some(found) => {
            *root = found;
            DONE
        }
        None if tree_said(tree_id).is_some() => NOTHING,
        None => NO_SUCH,
    }
}

/// The node that the trees declare focused, whether or not the host has the focus.
#[unsafe(no_mangle)]
pub extern "C" fn ak_tree_declared_focus(alloc: Global, tree: &mut Handle, focus: &mut AkId) -> u8
    ensures kept { tree.new.block.fed ≡ tree.old.block.fed }
    ensures answer { Answers tree.old.block.fed nothing declared_focus_in result focus.old focus.new }
{
    let taken = tree.take(alloc);
    let status = match &taken {
        Some(fed) => give_id(fed.focus_in_tree(), focus),
        None => CLOSED,
    };
    tree.put(alloc, taken);
    status
}

/// Whether the host has the focus.
#[unsafe(no_mangle)]
pub extern "C" fn ak_tree_is_host_focused(
    alloc: Global,
    tree: &mut Handle,
    is_focused: &mut bool,
) -> u8
    ensures kept { tree.new.block.fed ≡ tree.old.block.fed }
    ensures answer { Answers tree.old.block.fed nothing host_in result is_focused.old is_focused.new }
{
    let taken = tree.take(alloc);
    let status = match &taken {
        Some(fed) => give(fed.is_host_focused(), is_focused),
        None => CLOSED,
    };
    tree.put(alloc, taken);
    status
}

/// The nearest dialog among the focused node and its ancestors.
#[tactic(auto, using(crate::proofs::Computing::dialog_answered, crate::proofs::Computing::dialog_closed))]
#[unsafe(no_mangle)]
pub extern "C" fn ak_tree_active_dialog(alloc: Global, tree: &mut Handle, dialog: &mut AkId) -> u8
    ensures kept { tree.new.block.fed ≡ tree.old.block.fed }
    ensures answer { (found : Option AFullId) × IsDialogIn tree.old.block.fed found ×
        Answers tree.old.block.fed nothing (λ _. option_map id_of found) result dialog.old dialog.new }
{
    let taken = tree.take(alloc);
    let status = match &taken {
        Some(fed) => give_id(fed.active_dialog(), dialog),
        None => CLOSED,
    };
    tree.put(alloc, taken);
    status
}

/// The toolkit's name, as far as there is room for it, and its length.
#[tactic(auto, using(crate::proofs::Asked::text_answered))]
#[unsafe(no_mangle)]
pub extern "C" fn ak_tree_toolkit_name(
    alloc: Global,
    tree: &mut Handle,
    buffer: &mut [u8],
    length: &mut usize,
) -> u8
    ensures kept { tree.new.block.fed ≡ tree.old.block.fed }
    ensures answer { AnswersList tree.old.block.fed nothing toolkit_name_in result buffer.old buffer.new length.old length.new }
{
    let taken = tree.take(alloc);
    let status = match &taken {
        Some(fed) => give_text(fed.toolkit_name(), buffer, length),
        None => CLOSED,
    };
    tree.put(alloc, taken);
    status
}

/// The toolkit's version, as far as there is room for it, and its length.
#[tactic(auto, using(crate::proofs::Asked::text_answered))]
#[unsafe(no_mangle)]
pub extern "C" fn ak_tree_toolkit_version(
    alloc: Global,
    tree: &mut Handle,
    buffer: &mut [u8],
    length: &mut usize,
) -> u8
    ensures kept { tree.new.block.fed ≡ tree.old.block.fed }
    ensures answer { AnswersList tree.old.block.fed nothing toolkit_version_in result buffer.old buffer.new length.old length.new }
{
    let taken = tree.take(alloc);
    let status = match &taken {
        Some(fed) => give_text(fed.toolkit_version(), buffer, length),
        None => CLOSED,
    };
    tree.put(alloc, taken);
    status
}

/// The root of the tree that these bytes name: none of them the root tree, and sixteen that with this UUID.
#[unsafe(no_mangle)]
pub extern "C" fn ak_tree_subtree_root(
    alloc: Global,
    tree: &mut Handle,
    tree_id: &[u8],
    root: &mut AkId,
) -> u8
    ensures kept { tree.new.block.fed ≡ tree.old.block.fed }
    ensures answer { Answers tree.old.block.fed (lack_named tree_id.now) (subtree_root_in tree_id.now) result root.old root.new }
{
    let taken = tree.take(alloc);
    let status = match &taken {
        Some(fed) => give_root(fed, tree_id, root),
        None => CLOSED,
    };
    tree.put(alloc, taken);
    status
}

/// The 16 bytes of the UUID of the node's tree, as far as there is room for them, and their number.
#[unsafe(no_mangle)]
pub extern "C" fn ak_node_tree_id(
    alloc: Global,
    tree: &mut Handle,
    node: u64,
    tree_index: u32,
    buffer: &mut [u8],
    length: &mut usize,
) -> u8
    ensures kept { tree.new.block.fed ≡ tree.old.block.fed }
    ensures answer { AnswersBytes tree.old.block.fed (node_id node tree_index) result buffer.old buffer.new length.old length.new }
{
    let id = node_id(node, tree_index);
    let taken = tree.take(alloc);
    let status = match &taken {
        Some(fed) => give_name(fed, id, buffer, length),
        None => CLOSED,
    };
    tree.put(alloc, taken);
    status
}
