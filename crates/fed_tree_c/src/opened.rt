//! A box taken apart: where its value lies.
ghost use Rattle.std.specs.Prelude.{◌≡◌};
ghost use Rattle.fed_tree_c.specs.Held.{lies_boxed};

use std::alloc::Global;
use std::marker::Model;

/// Where the value of a box lies, and the right to free its block.
pub(crate) struct Opened<T> {
    pub(crate) at: *mut T,
    pub(crate) ghost value: { T },
}

impl<T> Model for Opened<T> {
    ghost also_owns = { λ opened. lies_boxed T.row opened.at opened.value };
}

impl<T> Opened<T> {
    /// The box, taken apart.
    pub(crate) fn of_box(boxed: Box<T>) -> Opened<T>
    where
        T: Drop,
        ensures { result.value ≡ boxed.value }
    {
        let at = Box::into_raw(boxed);
        Opened { at }
    }

    /// The box again.
    pub(crate) fn into_box(self, alloc: Global) -> Box<T>
        ensures { result.value ≡ self.value }
    {
        let Opened { at } = self;
        unsafe { Box::from_raw(alloc, at) }
    }
}
