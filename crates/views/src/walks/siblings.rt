//! The nearest filtered sibling of a node, on either side.
ghost use Rattle.std.specs.Prelude.{◌≡◌, IfSome, slice_get, option_map};
ghost use Rattle.model.specs.declared.FullNodeId.{FullNodeId};
ghost use Rattle.model.specs.declared.filters.FilterResult.{FilterResult};
ghost use Rattle.views.specs.Nodes.{world_at, id_at};
ghost use Rattle.views.specs.ShownWorlds.{world_of};
ghost use Rattle.views.specs.Spots.{IsSpot};
ghost use Rattle.views.specs.Follows.{Follows};
ghost use Rattle.views.specs.Sides.{siblings_beside};

use crate::StateRef;
use crate::node::NodeRef;
use crate::walks::ends::{cover, following, preceding};
use crate::walks::filter::Filter;
use crate::walks::spot::Spot;

/// The view of a node, if there is one.
fn viewed<'a>(state: StateRef<'a>, found: Option<Spot<'a>>) -> Option<NodeRef<'a>>
    requires { IfSome found (IsSpot (world_of state)) }
    ensures world { IfSome result (λ n. world_at n ≡ world_of state.entry) }
    ensures id { option_map id_at result ≡ option_map (λ s. s.member.id) found.entry }
{
    match found {
        Some(spot) => Some(spot.view(state)),
        None => None,
    }
}

impl<'a> NodeRef<'a> {
    /// The nearest node that the filter shows before this one or after it, below its cover.
    pub(crate) fn nearest_sibling<F: Filter>(self, before: bool, filter: &F) -> Option<NodeRef<'a>>
        requires { F.can_answer filter.now }
        ensures world { IfSome result (λ r. world_at r ≡ world_at self.entry) }
        ensures exact { let w = world_at self.entry in
            (f : FullNodeId → FilterResult) → Follows (F.answers filter.now) w f →
            option_map id_at result ≡ slice_get (siblings_beside before f w (id_at self.entry)) 0 }
    {
        let state = self.state;
        state.know();
        let member = self.member();
        let Some(spot) = state.spot(member) else {
            return None;
        };
        let Some(top) = cover(state, member, filter) else {
            return None;
        };
        if before {
            return viewed(state, preceding(state, top.id, spot, filter));
        }
        viewed(state, following(state, top.id, spot, filter))
    }
}
