//! The exports that open and close a tree, and that ask about the whole of it.
ghost use Rattle.std.specs.Prelude.{◌≡◌, None, Option, option_map};
ghost use Rattle.model.specs.declared.FullNodeId.{FullNodeId as AFullId};
ghost use Rattle.fed_tree_c.specs.Answers.{Answers, nothing};
ghost use Rattle.fed_tree_c.specs.Records.{id_of};
ghost use Rattle.fed_tree_c.specs.Stops.{Opens};
ghost use Rattle.fed_tree_c.specs.Questions.{IsFocusIn, root_in};

use crate::handle::Handle;
use crate::records::{AkId, CLOSED, DONE, NO_MEMORY, give_id};
use fed_tree::FedTree;
use std::alloc::Global;

/// Opens a handle on no tree yet. What it held before is freed.
#[unsafe(no_mangle)]
pub extern "C" fn ak_tree_open(alloc: Global, tree: &mut Handle) -> u8
    ensures { Opens tree.old.block.fed result tree.new.block.fed }
{
    match Box::new(alloc, FedTree::new(alloc)) {
        Ok(opened) => {
            tree.put(alloc, Some(opened));
            DONE
        }
        Err(_) => NO_MEMORY,
    }
}

/// Closes the handle, and frees what it held. One that is closed stays so.
#[unsafe(no_mangle)]
pub extern "C" fn ak_tree_close(alloc: Global, tree: &mut Handle)
    ensures { tree.new.block.fed ≡ None }
{
    tree.put(alloc, None);
}

/// The root tree's root.
#[unsafe(no_mangle)]
pub extern "C" fn ak_tree_root(alloc: Global, tree: &mut Handle, root: &mut AkId) -> u8
    ensures kept { tree.new.block.fed ≡ tree.old.block.fed }
    ensures answer { Answers tree.old.block.fed nothing root_in result root.old root.new }
{
    let taken = tree.take(alloc);
    let status = match &taken {
        Some(fed) => give_id(fed.root(), root),
        None => CLOSED,
    };
    tree.put(alloc, taken);
    status
}

/// The focus, while the host has it.
#[tactic(auto, using(crate::proofs::Asked::focus_answered, crate::proofs::Asked::focus_closed))]
#[unsafe(no_mangle)]
pub extern "C" fn ak_tree_focus(alloc: Global, tree: &mut Handle, focus: &mut AkId) -> u8
    ensures kept { tree.new.block.fed ≡ tree.old.block.fed }
    ensures answer { (found : Option AFullId) × IsFocusIn tree.old.block.fed found ×
        Answers tree.old.block.fed nothing (λ _. option_map id_of found) result focus.old focus.new }
{
    let taken = tree.take(alloc);
    let status = match &taken {
        Some(fed) => give_id(fed.focus(), focus),
        None => CLOSED,
    };
    tree.put(alloc, taken);
    status
}
