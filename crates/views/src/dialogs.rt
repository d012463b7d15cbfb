//! The active dialog.
ghost use Rattle.std.specs.Prelude.{IfSome, option_map, ◌≡◌};
ghost use Rattle.model.specs.RoleClasses.{is_dialog};
ghost use Rattle.model.specs.Focus.{IsActiveDialog};
ghost use Rattle.views.specs.ShownWorlds.{world_of};
ghost use Rattle.views.specs.Nodes.{world_at, id_at};

use crate::StateRef;
use crate::node::NodeRef;
use schema::{Node, Role};

/// Whether it is a dialog.
fn is_dialog(node: &Node) -> bool
    ensures { result ≡ is_dialog node.now.role }
{
    matches!(node.role(), Role::AlertDialog | Role::Dialog)
}

impl<'a> StateRef<'a> {
    /// The active dialog: the nearest dialog among the focused node ([`StateRef::focus`]) and its ancestors.
    pub fn active_dialog(&self) -> Option<NodeRef<'a>>
        ensures world { IfSome result (λ node. world_at node ≡ world_of self.now) }
        ensures node { IsActiveDialog (world_of self.now) (option_map id_at result) }
    {
        let state = *self;
        state.know();
        let Some(focus) = state.focus() else {
            return None;
        };
        focus.nearest(is_dialog)
    }
}
