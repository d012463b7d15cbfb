//! A block of the heap with a tree in it, as C holds it.
ghost use Rattle.std.specs.Prelude.{◌≡◌, None, Some, Option, is_some, true};
ghost use Rattle.std.specs.Coded.{coded_option};
ghost use Rattle.fed_tree.specs.Fed.{Fed};
ghost use Rattle.fed_tree.specs.FedCodes.{coded_fed};
ghost use Rattle.fed_tree_c.specs.Held.{holds};

use crate::opened::Opened;
use fed_tree::FedTree;
use std::marker::Model;
use std::ptr;

/// Where a tree lies, and the right to free its block; or nothing.
#[repr(C)]
pub struct Block {
    at: *mut u8,
    pub ghost fed: { Option Fed } by { coded_option coded_fed },
}

impl Model for Block {
    ghost also_owns = { λ block. holds block.at block.fed };
}

impl Block {
    /// Without a tree.
    pub(crate) fn empty() -> Block
        ensures { result.fed ≡ None }
    {
        Block {
            at: ptr::null_mut(),
        }
    }

    /// Lets go of a block without a tree, which owns nothing.
    pub(crate) fn discard(self)
        requires { self.fed ≡ None }
    {
        let Block { at: _ } = self;
    }

    /// With the tree that was in the box.
    pub(crate) fn of_opened(opened: Opened<FedTree>) -> Block
        ensures { result.fed ≡ Some opened.value }
    {
        let Opened { at } = opened;
        Block { at: at as *mut u8 }
    }

    /// The tree, in its box.
    pub(crate) fn into_opened(self) -> Opened<FedTree>
        requires { is_some self.fed ≡ true }
        ensures { Some result.value ≡ self.fed }
    {
        let Block { at } = self;
        Opened {
            at: at as *mut FedTree,
        }
    }
}
