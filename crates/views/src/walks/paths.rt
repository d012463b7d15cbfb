//! Index paths.
ghost use Rattle.std.specs.Prelude.{◌≡◌, IfOk};
ghost use Rattle.model.specs.Lists.{IsWithin};
ghost use Rattle.model.specs.Paths.{index_path as path_of, relative_index_path as path_from};
ghost use Rattle.views.specs.Nodes.{world_at, id_at};

use crate::node::NodeRef;
use model::{FullNodeId, is_same};
use std::alloc::{AllocError, Global};

impl<'a> NodeRef<'a> {
    /// The index of each child on the way from the root tree's root to the node. Allocates the list.
    ///
    /// # Errors
    ///
    /// Returns `AllocError` if memory runs out.
    pub fn index_path(&self, alloc: Global) -> Result<Vec<usize>, AllocError>
        ensures { IfOk result (λ path. path.items ≡ path_of (world_at self.now) (id_at self.now)) }
    {
        let state = self.state;
        state.know();
        let mut current = self.member();
        let mut path = Vec::new(alloc);
        while let Some(spot) = state.spot(current) {
            path.push(spot.index)?;
            current = spot.parent;
        }
        path.reverse();
        Ok(path)
    }

    /// The index of each child on the way from an ancestor, or from the node itself, to the node. Allocates the list.
    ///
    /// # Errors
    ///
    /// Returns `AllocError` if memory runs out.
    pub fn relative_index_path(
        &self,
        alloc: Global,
        ancestor: FullNodeId,
    ) -> Result<Vec<usize>, AllocError>
        requires { IsWithin (world_at self.now) ancestor (id_at self.now) }
        ensures { let way = path_from (world_at self.now) ancestor (id_at self.now) in
            IfOk result (λ path. path.items ≡ way) }
    {
        let state = self.state;
        state.know();
        let mut current = self.member();
        let mut path = Vec::new(alloc);
        while !is_same(ancestor, current.id) {
            let Some(spot) = state.spot(current) else {
                break;
            };
            path.push(spot.index)?;
            current = spot.parent;
        }
        path.reverse();
        Ok(path)
    }
}
