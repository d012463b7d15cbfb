//! Steps in pre-order over what a filter shows below a node, from either end.
ghost use Rattle.std.specs.Prelude.{◌≡◌, ◌<◌, ◌≤◌, [], ◌∷◌, ◌++◌, length, true, IfSome, MatchOption};
ghost use Rattle.model.specs.declared.FullNodeId.{FullNodeId};
ghost use Rattle.model.specs.declared.filters.FilterResult.{FilterResult};
ghost use Rattle.model.specs.World.{children};
ghost use Rattle.model.specs.Forest.{above};
ghost use Rattle.model.specs.Upward.{is_within};
ghost use Rattle.model.specs.Beside.{is_below, work_from, work_until, work_before};
ghost use Rattle.views.specs.ShownWorlds.{world_of};
ghost use Rattle.views.specs.Spots.{IsMember, IsSpot};
ghost use Rattle.views.specs.Follows.{Follows};
ghost use Rattle.views.specs.Courses.{AreEnds};
ghost use Rattle.views.specs.Descendants.{filtered_descendants};
ghost use Rattle.views.specs.Descents.{earlier_in, earlier_at, later_in, SpansAllEnds, all_between_ends, work_inside};

use crate::StateRef;
use crate::node::kin::is_included;
use crate::walks::ends::Ends;
use crate::walks::filter::Filter;
use crate::walks::hits::is_cut;
use crate::walks::searches::next_shown;
use crate::walks::spot::{Member, Spot};
use model::{FullNodeId, is_same};

/// What is shown next below `top` after a node: the first below the node, or else after it.
pub(crate) fn next_descendant<'a, F: Filter>(
    state: StateRef<'a>,
    top: FullNodeId,
    node: Spot<'a>,
    filter: &F,
) -> Option<Spot<'a>>
    requires can { F.can_answer filter.now }
    requires known { IsSpot (world_of state) node }
    requires below { is_below (world_of state) top node.member.id ≡ true }
    ensures there { IfSome result (IsSpot (world_of state.entry)) }
    ensures below { IfSome result (λ r. is_below (world_of state.entry) top r.member.id ≡ true) }
    ensures nearer { let w = world_of state.entry in
        let left = work_from w top (node.entry.member.id, 0) in
        IfSome result (λ r. work_from w top (r.member.id, 0) < left) }
    ensures exact { let w = world_of state.entry in
        (f : FullNodeId → FilterResult) → Follows (F.answers filter.now) w f →
        let left = later_in f w top node.entry.member.id in
        MatchOption result (left ≡ []) (λ r. left ≡ r.member.id ∷ later_in f w top r.member.id) }
{
    state.know();
    next_shown(state, top, node.member, 0, filter)
}

/// What is shown last below `top` before a place: the last inside an earlier child that isn't cut off, or else the
/// parent, or what is before that.
pub(crate) fn previous_descendant<'a, F: Filter>(
    state: StateRef<'a>,
    top: FullNodeId,
    start: Member<'a>,
    start_index: usize,
    filter: &F,
) -> Option<Spot<'a>>
    requires can { F.can_answer filter.now }
    requires known { IsMember (world_of state) start }
    requires in_it { start_index ≤ length (children (world_of state) start.id) }
    requires within { is_within (world_of state) top start.id ≡ true }
    ensures there { IfSome result (IsSpot (world_of state.entry)) }
    ensures below { IfSome result (λ r. is_below (world_of state.entry) top r.member.id ≡ true) }
    ensures nearer { let w = world_of state.entry in
        let left = work_until w top (start.entry.id, start_index) in
        IfSome result (λ r. work_before w top (above w r.member.id) < left) }
    ensures exact { let w = world_of state.entry in
        (f : FullNodeId → FilterResult) → Follows (F.answers filter.now) w f →
        let left = earlier_at f w top (start.entry.id, start_index) in
        MatchOption result (left ≡ [])
        (λ r. left ≡ earlier_in f w top r.member.id ++ r.member.id ∷ []) }
{
    state.know();
    let mut parent = start;
    let mut index = start_index;
    loop {
        if index > 0 {
            let Some(child) = state.child(parent, index - 1) else {
                return None;
            };
            if is_cut(child.view(state), filter) {
                index -= 1;
            } else {
                index = state.child_count(child.member);
                parent = child.member;
            }
        } else {
            if is_same(top, parent.id) {
                return None;
            }
            let Some(above) = state.spot(parent) else {
                return None;
            };
            if is_included(filter.answer(&above.view(state))) {
                return Some(above);
            }
            parent = above.parent;
            index = above.index;
        }
    }
}

/// The ends that are left without the front, if there is more than that.
pub(crate) fn without_first<'a, F: Filter>(
    state: StateRef<'a>,
    top: FullNodeId,
    ends: Ends<'a>,
    filter: &F,
) -> Option<Ends<'a>>
    requires can { F.can_answer filter.now }
    requires known { AreEnds (world_of state) top ends }
    ensures there { IfSome result (AreEnds (world_of state.entry) top) }
    ensures nearer { let w = world_of state.entry in
        IfSome result (λ e. work_inside w top e < work_inside w top ends.entry) }
    ensures exact { let w = world_of state.entry in
        (f : FullNodeId → FilterResult) → Follows (F.answers filter.now) w f →
        SpansAllEnds f w top ends.entry →
        MatchOption result (all_between_ends f w top ends.entry ≡ ends.entry.front.member.id ∷ [])
        (λ e. SpansAllEnds f w top e ×
        (all_between_ends f w top ends.entry ≡
        ends.entry.front.member.id ∷ all_between_ends f w top e)) }
{
    state.know();
    if is_same(ends.front.member.id, ends.back.member.id) {
        return None;
    }
    match next_descendant(state, top, ends.front, filter) {
        Some(front) => Some(Ends {
            front,
            back: ends.back,
        }),
        None => None,
    }
}

/// The ends that are left without the back, if there is more than that.
pub(crate) fn without_last<'a, F: Filter>(
    state: StateRef<'a>,
    top: FullNodeId,
    ends: Ends<'a>,
    filter: &F,
) -> Option<Ends<'a>>
    requires can { F.can_answer filter.now }
    requires known { AreEnds (world_of state) top ends }
    ensures there { IfSome result (AreEnds (world_of state.entry) top) }
    ensures nearer { let w = world_of state.entry in
        IfSome result (λ e. work_inside w top e < work_inside w top ends.entry) }
    ensures exact { let w = world_of state.entry in
        (f : FullNodeId → FilterResult) → Follows (F.answers filter.now) w f →
        SpansAllEnds f w top ends.entry →
        MatchOption result (all_between_ends f w top ends.entry ≡ [] ++ ends.entry.back.member.id ∷ [])
        (λ e. SpansAllEnds f w top e ×
        (all_between_ends f w top ends.entry ≡
        all_between_ends f w top e ++ ends.entry.back.member.id ∷ [])) }
{
    state.know();
    if is_same(ends.front.member.id, ends.back.member.id) {
        return None;
    }
    let back = ends.back;
    match previous_descendant(state, top, back.parent, back.index, filter) {
        Some(back) => Some(Ends {
            front: ends.front,
            back,
        }),
        None => None,
    }
}

/// The ends of all that is shown below a node.
pub(crate) fn all_inside<'a, F: Filter>(
    state: StateRef<'a>,
    top: Member<'a>,
    filter: &F,
) -> Option<Ends<'a>>
    requires can { F.can_answer filter.now }
    requires known { IsMember (world_of state) top }
    ensures there { IfSome result (AreEnds (world_of state.entry) top.entry.id) }
    ensures exact { let w = world_of state.entry in
        (f : FullNodeId → FilterResult) → Follows (F.answers filter.now) w f →
        MatchOption result (filtered_descendants f w top.entry.id ≡ [])
        (λ e. SpansAllEnds f w top.entry.id e ×
        (all_between_ends f w top.entry.id e ≡ filtered_descendants f w top.entry.id)) }
{
    state.know();
    let count = state.child_count(top);
    let Some(front) = next_shown(state, top.id, top, 0, filter) else {
        return None;
    };
    let Some(back) = previous_descendant(state, top.id, top, count, filter) else {
        return None;
    };
    Some(Ends { front, back })
}
