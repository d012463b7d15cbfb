//! The node of a view, without its state.
ghost use Rattle.std.specs.Prelude.{◌≡◌};
ghost use Rattle.views.specs.Nodes.{world_at, id_at};
ghost use Rattle.views.specs.Spots.{IsMember};

use crate::node::NodeRef;
use crate::walks::spot::Member;

impl<'a> NodeRef<'a> {
    /// The node without its state.
    #[inline(always)]
    pub(crate) fn member(self) -> Member<'a>
        ensures is { result.id ≡ id_at self.entry }
        ensures known { IsMember (world_at self.entry) result }
    {
        Member {
            id: self.id,
            node: self.node,
            place: self.place,
        }
    }
}
