//! Searches from a node upwards, across grafts.
ghost use Rattle.std.specs.Prelude.{◌≡◌, Bool, find, IfSome, option_map};
ghost use Rattle.std.specs.Fn.{FnReturnsAt};
ghost use Rattle.schema.specs.NodeData.{NodeData};
ghost use Rattle.model.specs.declared.FullNodeId.{FullNodeId};
ghost use Rattle.model.specs.Lists.{ancestors};
ghost use Rattle.model.specs.Upward.{says, upward};
ghost use Rattle.views.specs.Nodes.{world_at, id_at};
ghost use Rattle.views.specs.Tests.{TestsNodes, TestsData};

use crate::node::NodeRef;
use schema::Node;

impl<'a> NodeRef<'a> {
    /// The nearest ancestor that passes the test.
    pub(crate) fn nearest_ancestor<F: Fn(&NodeRef<'_>) -> bool>(
        self,
        test: F,
    ) -> Option<NodeRef<'a>>
        requires { F.IsAlwaysCallable test }
        ensures world { IfSome result (λ node. world_at node ≡ world_at self.entry) }
        ensures node { let w = world_at self.entry in
            (p : FullNodeId → Bool) → TestsNodes (FnReturnsAt F.Fn test) w p →
            option_map id_at result ≡ find p (ancestors w (id_at self.entry)) }
    {
        self.state.know();
        let mut current = self;
        while let Some(parent) = current.parent() {
            if test(&parent) {
                return Some(parent);
            }
            current = parent;
        }
        None
    }

    /// The nearest node, from this one upwards, whose data passes the test.
    pub(crate) fn nearest<F: Fn(&Node) -> bool>(self, test: F) -> Option<NodeRef<'a>>
        requires { F.IsAlwaysCallable test }
        ensures world { IfSome result (λ node. world_at node ≡ world_at self.entry) }
        ensures node { let w = world_at self.entry in
            (p : NodeData → Bool) → TestsData (FnReturnsAt F.Fn test) p →
            option_map id_at result ≡ find (says p w) (upward w (id_at self.entry)) }
    {
        self.state.know();
        let mut current = self;
        loop {
            if test(current.node) {
                return Some(current);
            }
            let Some(parent) = current.parent() else {
                return None;
            };
            current = parent;
        }
    }
}
