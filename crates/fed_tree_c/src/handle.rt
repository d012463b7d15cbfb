//! A tree as C holds it.
ghost use Rattle.std.specs.Prelude.{◌≡◌, None, option_map, is_some};

use crate::block::Block;
use crate::opened::Opened;
use fed_tree::FedTree;
use std::alloc::Global;
use std::mem;

/// A tree, or none.
#[repr(C)]
pub struct Handle {
    pub block: Block,
    is_there: bool,
    ghost agrees: { is_there ≡ is_some block.fed },
}

impl Handle {
    /// A handle on nothing.
    fn closed() -> Handle
        ensures { result.block.fed ≡ None }
    {
        Handle {
            block: Block::empty(),
            is_there: false,
        }
    }

    /// A handle on the tree that was in the box.
    fn of_box(tree: Box<FedTree>) -> Handle
        ensures { option_map (λ tree. tree.value) (Some tree) ≡ result.block.fed }
    {
        Handle {
            block: Block::of_opened(Opened::of_box(tree)),
            is_there: true,
        }
    }

    /// The tree, if there is one.
    fn into_box(self, alloc: Global) -> Option<Box<FedTree>>
        ensures { option_map (λ tree. tree.value) result ≡ self.block.fed }
    {
        let Handle { block, is_there } = self;
        if is_there {
            Some(block.into_opened().into_box(alloc))
        } else {
            block.discard();
            None
        }
    }

    /// Takes the tree, and leaves none.
    pub(crate) fn take(&mut self, alloc: Global) -> Option<Box<FedTree>>
        ensures taken { option_map (λ tree. tree.value) result ≡ self.old.block.fed }
        ensures left { self.new.block.fed ≡ None }
    {
        mem::replace(self, Handle::closed()).into_box(alloc)
    }

    /// Puts a tree, or none, in place of what is there, which is freed.
    pub(crate) fn put(&mut self, alloc: Global, tree: Option<Box<FedTree>>)
        ensures { self.new.block.fed ≡ option_map (λ tree. tree.value) tree }
    {
        let handle = match tree {
            Some(tree) => Handle::of_box(tree),
            None => Handle::closed(),
        };
        let _freed = mem::replace(self, handle).into_box(alloc);
    }
}
