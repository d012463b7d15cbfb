//! The states of nodes that have few values, by how much nodes are shifted, and several flags of a node at once.
ghost use Rattle.std.specs.Prelude.{◌≡◌, ◌≤◌, Some};
ghost use Rattle.model.specs.Geometry.{transform};
ghost use Rattle.model.specs.Views.{live, orientation};
ghost use Rattle.views.specs.Nodes.{world_at, id_at, data_at};
ghost use Rattle.fed_tree.specs.Flags.{said_bits, says};
ghost use Rattle.fed_tree.specs.Reads.{read_of};

use crate::feeding::FedTree;
use crate::flags::{Flag, says};
use model::FullNodeId;
use schema::{Live, Orientation, Toggled, WideTranslation};
use views::NodeRef;

impl FedTree {
    /// The state of a node that can be toggled; `None` if it can't be, or if the tree doesn't have the node.
    #[tactic(auto, using(crate::proofs::Found::read_found, crate::proofs::Found::read_missing))]
    pub fn toggled(&self, id: FullNodeId) -> Option<Toggled>
        ensures { result ≡ read_of self.now.world id (λ w node. node.toggled) }
    {
        self.node(id)?.toggled()
    }

    /// Whether the node is selected; `None` if it can't be, or if the tree doesn't have the node.
    #[tactic(auto, using(crate::proofs::Found::read_found, crate::proofs::Found::read_missing))]
    pub fn is_selected(&self, id: FullNodeId) -> Option<bool>
        ensures { result ≡ read_of self.now.world id (λ w node. node.selected) }
    {
        self.node(id)?.is_selected()
    }

    /// The axis along which the node is laid out: as sent, or else by its role; `None` if neither says, or if the tree doesn't have the
    /// node.
    #[tactic(auto, using(crate::proofs::Found::read_found, crate::proofs::Found::read_missing))]
    pub fn orientation(&self, id: FullNodeId) -> Option<Orientation>
        ensures { result ≡ read_of self.now.world id (λ w node. orientation node) }
    {
        self.node(id)?.orientation()
    }

    /// How changes of the node are announced, by the node or the nearest ancestor that says; `None` if the tree doesn't have the node.
    #[tactic(auto, using(crate::proofs::Found::read_found, crate::proofs::Found::read_missing))]
    pub fn live(&self, id: FullNodeId) -> Option<Live>
        ensures { result ≡ read_of self.now.world id (λ w node. Some (live w id)) }
    {
        let node = self.node(id)?;
        Some(node.live())
    }

    /// By how much the node is shifted, with all its ancestors, in units of 1/64 pixel; `None` if the tree doesn't have the node.
    #[tactic(auto, using(crate::proofs::Found::read_found, crate::proofs::Found::read_missing))]
    pub fn transform(&self, id: FullNodeId) -> Option<WideTranslation>
        ensures { result ≡ read_of self.now.world id (λ w node. Some (transform w id)) }
    {
        let node = self.node(id)?;
        Some(node.transform())
    }

    /// Several flags at once: a bit of the answer is set if that bit of `wanted` is, and the node is what the flag at that place of the
    /// list says. No other flag is computed. `None` if the tree doesn't have the node.
    #[tactic(auto, using(crate::proofs::Found::read_found, crate::proofs::Found::read_missing))]
    pub fn flags(&self, id: FullNodeId, flags: &[Flag], wanted: u64) -> Option<u64>
        ensures { result ≡ read_of self.now.world id (λ w node. Some (said_bits (λ flag. says flag w id node) flags.now wanted)) }
    {
        let node = self.node(id)?;
        Some(said_bits(&node, flags, wanted))
    }
}

/// The bits of the flags that are asked for that the node is.
fn said_bits(node: &NodeRef<'_>, flags: &[Flag], wanted: u64) -> u64
    ensures said { result ≡ said_bits (λ flag. says flag (world_at node.now) (id_at node.now) (data_at node.now)) flags.now wanted }
    ensures within { result ≤ wanted }
{
    let Some((flag, others)) = flags.split_first() else {
        return 0;
    };
    let above = 2 * said_bits(node, others, wanted / 2);
    if wanted % 2 == 1 && says(node, *flag) {
        above + 1
    } else {
        above
    }
}
