//! The data of nodes, as updates set it.
ghost use Rattle.std.specs.Prelude.{◌≡◌, is_some, option_map};
ghost use Rattle.fed_tree.specs.Reads.{data_in};

use crate::feeding::FedTree;
use model::FullNodeId;
use schema::Node;

impl FedTree {
    /// The node's data, as the last update of it set it; `None` if the tree doesn't have the node. Of a password these are the texts that
    /// were sent.
    #[tactic(auto, using(crate::proofs::Found::data_found))]
    pub fn data(&self, id: FullNodeId) -> Option<&Node>
        ensures { option_map (λ node. node.now) result ≡ data_in self.now.world id }
    {
        match self.node(id) {
            Some(node) => Some(node.data()),
            None => None,
        }
    }

    /// Whether the tree has the node.
    pub fn has_node(&self, id: FullNodeId) -> bool
        ensures { result ≡ is_some (data_in self.now.world id) }
    {
        self.data(id).is_some()
    }
}
