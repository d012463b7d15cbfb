//! Where nodes lie, and which of them filters show.
ghost use Rattle.std.specs.Prelude.{◌≡◌, IfOk, Some, option_map};
ghost use Rattle.model.specs.Frontier.{filtered_children};
ghost use Rattle.model.specs.Covers.{filtered_parent};
ghost use Rattle.model.specs.Filters.{filter_named};
ghost use Rattle.model.specs.Geometry.{bounding_box, hit};
ghost use Rattle.views.specs.Nodes.{world_at, id_at};
ghost use Rattle.fed_tree.specs.Reads.{read_of};

use crate::feeding::FedTree;
use model::filters::FilterResult;
use model::{FullNodeId, NamedFilter};
use schema::{Point, WideRect};
use session::{answer_by, filtered_ids, hit_id};
use std::alloc::{AllocError, Global};
use views::NodeRef;

impl FedTree {
    /// The node's rectangle after all translations, in units of 1/64 pixel; `None` if it wasn't sent with a rectangle, or if the
    /// tree doesn't have the node.
    #[tactic(auto, using(crate::proofs::Found::read_found, crate::proofs::Found::read_missing))]
    pub fn bounding_box(&self, id: FullNodeId) -> Option<WideRect>
        ensures { result ≡ read_of self.now.world id (λ w node. bounding_box w id) }
    {
        self.node(id)?.bounding_box()
    }

    /// The node at a point, given in the coordinates of the node with this id and in units of 1/64 pixel: the last one in
    /// pre-order, among that node and those below it, that the filter includes and whose rectangle contains the point. `None` if
    /// no node is hit, or if the tree doesn't have the node.
    #[tactic(auto, using(crate::proofs::Found::read_found, crate::proofs::Found::read_missing))]
    pub fn hit(&self, id: FullNodeId, point: Point, filter: NamedFilter) -> Option<FullNodeId>
        ensures { result ≡ read_of self.now.world id (λ w node. hit (filter_named filter w) w id point) }
    {
        hit_id(self.node(id)?, point, filter)
    }

    /// The filter's answer for the node; `None` if the tree doesn't have the node.
    #[tactic(auto, using(crate::proofs::Found::read_found, crate::proofs::Found::read_missing))]
    pub fn filter_answer(&self, id: FullNodeId, filter: NamedFilter) -> Option<FilterResult>
        ensures { result ≡ read_of self.now.world id (λ w node. Some (filter_named filter w id)) }
    {
        let node = self.node(id)?;
        Some(answer_by(filter, &node))
    }

    /// The nearest ancestor that the filter includes; `None` if it includes no ancestor, or if the tree doesn't have the node.
    #[tactic(auto, using(crate::proofs::Found::read_found, crate::proofs::Found::read_missing))]
    pub fn filtered_parent(&self, id: FullNodeId, filter: NamedFilter) -> Option<FullNodeId>
        ensures { result ≡ read_of self.now.world id (λ w node. filtered_parent (filter_named filter w) w id) }
    {
        filtered_parent_id(self.node(id)?, filter)
    }

    /// The nodes that the filter shows in place of the node's children; `None` if the tree doesn't have the node.
    ///
    /// # Errors
    ///
    /// Returns `AllocError` if memory runs out.
    #[tactic(auto, using(crate::proofs::Found::read_found, crate::proofs::Found::read_missing))]
    pub fn filtered_children(
        &self,
        id: FullNodeId,
        filter: NamedFilter,
    ) -> Result<Option<Vec<FullNodeId>>, AllocError>
        ensures { IfOk result (λ ids. option_map (λ found. found.items) ids
            ≡ read_of self.now.world id (λ w node. Some (filtered_children (filter_named filter w) w id))) }
    {
        match self.node(id) {
            Some(node) => Ok(Some(filtered_ids(self.alloc, node, filter)?)),
            None => Ok(None),
        }
    }
}

/// The id of the nearest ancestor that the filter includes.
fn filtered_parent_id(node: NodeRef<'_>, filter: NamedFilter) -> Option<FullNodeId>
    ensures { let w = world_at node.entry in
        result ≡ filtered_parent (filter_named filter w) w (id_at node.entry) }
{
    let found = node.filtered_parent(&move |seen: &NodeRef<'_>| answer_by(filter, seen))?;
    Some(found.id())
}
