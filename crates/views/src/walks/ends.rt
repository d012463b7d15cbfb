//! The ends of walks over what a filter shows.
ghost use Rattle.std.specs.Prelude.{◌≡◌, ◌<◌, [], ◌∷◌, ◌++◌, reverse, true, IfSome, MatchOption, option_map};
ghost use Rattle.model.specs.declared.FullNodeId.{FullNodeId};
ghost use Rattle.model.specs.declared.filters.FilterResult.{FilterResult};
ghost use Rattle.model.specs.Forest.{above};
ghost use Rattle.model.specs.Frontier.{filtered_children};
ghost use Rattle.model.specs.Covers.{cover as cover_of, following_filtered_siblings, preceding_filtered_siblings};
ghost use Rattle.model.specs.Beside.{is_below, after_in, before_in, work_after, work_before};
ghost use Rattle.views.specs.ShownWorlds.{world_of};
ghost use Rattle.views.specs.Spots.{IsMember, IsSpot};
ghost use Rattle.views.specs.Follows.{Follows};
ghost use Rattle.views.specs.Courses.{AreEnds, SpansEnds, between_ends, work_of_ends};

use crate::StateRef;
use crate::walks::filter::Filter;
use crate::walks::searches::{next_shown, previous_shown};
use crate::walks::spot::{Member, Spot};
use model::filters::FilterResult;
use model::{FullNodeId, is_same};

/// The next nodes of a walk from either end.
#[derive(Clone, Copy)]
pub(crate) struct Ends<'a> {
    pub(crate) front: Spot<'a>,
    pub(crate) back: Spot<'a>,
}

/// The item below `top` after a node.
pub(crate) fn following<'a, F: Filter>(
    state: StateRef<'a>,
    top: FullNodeId,
    node: Spot<'a>,
    filter: &F,
) -> Option<Spot<'a>>
    requires can { F.can_answer filter.now }
    requires known { IsSpot (world_of state) node }
    requires below { is_below (world_of state) top node.member.id ≡ true }
    ensures there { IfSome result (IsSpot (world_of state.entry)) }
    ensures below { IfSome result (λ r. is_below (world_of state.entry) top r.member.id ≡ true) }
    ensures nearer { let w = world_of state.entry in
        let left = work_after w top (above w node.entry.member.id) in
        IfSome result (λ r. work_after w top (above w r.member.id) < left) }
    ensures exact { let w = world_of state.entry in
        (f : FullNodeId → FilterResult) → Follows (F.answers filter.now) w f →
        MatchOption result (after_in f w top node.entry.member.id ≡ [])
        (λ r. after_in f w top node.entry.member.id ≡ r.member.id ∷ after_in f w top r.member.id) }
{
    state.know();
    let _count = state.child_count(node.parent);
    next_shown(state, top, node.parent, node.index + 1, filter)
}

/// The item below `top` before a node.
pub(crate) fn preceding<'a, F: Filter>(
    state: StateRef<'a>,
    top: FullNodeId,
    node: Spot<'a>,
    filter: &F,
) -> Option<Spot<'a>>
    requires can { F.can_answer filter.now }
    requires known { IsSpot (world_of state) node }
    requires below { is_below (world_of state) top node.member.id ≡ true }
    ensures there { IfSome result (IsSpot (world_of state.entry)) }
    ensures below { IfSome result (λ r. is_below (world_of state.entry) top r.member.id ≡ true) }
    ensures nearer { let w = world_of state.entry in
        let left = work_before w top (above w node.entry.member.id) in
        IfSome result (λ r. work_before w top (above w r.member.id) < left) }
    ensures exact { let w = world_of state.entry in
        (f : FullNodeId → FilterResult) → Follows (F.answers filter.now) w f →
        MatchOption result (before_in f w top node.entry.member.id ≡ [])
        (λ r. before_in f w top node.entry.member.id ≡
        before_in f w top r.member.id ++ r.member.id ∷ []) }
{
    state.know();
    previous_shown(state, top, node.parent, node.index, filter)
}

/// The ends that are left without the front, if there is more than that.
pub(crate) fn without_front<'a, F: Filter>(
    state: StateRef<'a>,
    top: FullNodeId,
    ends: Ends<'a>,
    filter: &F,
) -> Option<Ends<'a>>
    requires can { F.can_answer filter.now }
    requires known { AreEnds (world_of state) top ends }
    ensures there { IfSome result (AreEnds (world_of state.entry) top) }
    ensures nearer { let w = world_of state.entry in
        IfSome result (λ e. work_of_ends w top e < work_of_ends w top ends.entry) }
    ensures exact { let w = world_of state.entry in
        (f : FullNodeId → FilterResult) → Follows (F.answers filter.now) w f →
        SpansEnds f w top ends.entry →
        MatchOption result (between_ends f w top ends.entry ≡ ends.entry.front.member.id ∷ [])
        (λ e. SpansEnds f w top e ×
        (between_ends f w top ends.entry ≡ ends.entry.front.member.id ∷ between_ends f w top e)) }
{
    state.know();
    if is_same(ends.front.member.id, ends.back.member.id) {
        return None;
    }
    match following(state, top, ends.front, filter) {
        Some(front) => Some(Ends {
            front,
            back: ends.back,
        }),
        None => None,
    }
}

/// The ends that are left without the back, if there is more than that.
pub(crate) fn without_back<'a, F: Filter>(
    state: StateRef<'a>,
    top: FullNodeId,
    ends: Ends<'a>,
    filter: &F,
) -> Option<Ends<'a>>
    requires can { F.can_answer filter.now }
    requires known { AreEnds (world_of state) top ends }
    ensures there { IfSome result (AreEnds (world_of state.entry) top) }
    ensures nearer { let w = world_of state.entry in
        IfSome result (λ e. work_of_ends w top e < work_of_ends w top ends.entry) }
    ensures exact { let w = world_of state.entry in
        (f : FullNodeId → FilterResult) → Follows (F.answers filter.now) w f →
        SpansEnds f w top ends.entry →
        MatchOption result (between_ends f w top ends.entry ≡ [] ++ ends.entry.back.member.id ∷ [])
        (λ e. SpansEnds f w top e ×
        (between_ends f w top ends.entry ≡
        between_ends f w top e ++ ends.entry.back.member.id ∷ [])) }
{
    state.know();
    if is_same(ends.front.member.id, ends.back.member.id) {
        return None;
    }
    match preceding(state, top, ends.back, filter) {
        Some(back) => Some(Ends {
            front: ends.front,
            back,
        }),
        None => None,
    }
}

/// The ends of all that is shown below a node.
pub(crate) fn all_ends<'a, F: Filter>(
    state: StateRef<'a>,
    top: Member<'a>,
    filter: &F,
) -> Option<Ends<'a>>
    requires can { F.can_answer filter.now }
    requires known { IsMember (world_of state) top }
    ensures there { IfSome result (AreEnds (world_of state.entry) top.entry.id) }
    ensures exact { let w = world_of state.entry in
        (f : FullNodeId → FilterResult) → Follows (F.answers filter.now) w f →
        MatchOption result (filtered_children f w top.entry.id ≡ [])
        (λ e. SpansEnds f w top.entry.id e ×
        (between_ends f w top.entry.id e ≡ filtered_children f w top.entry.id)) }
{
    state.know();
    let count = state.child_count(top);
    let Some(front) = next_shown(state, top.id, top, 0, filter) else {
        return None;
    };
    let Some(back) = previous_shown(state, top.id, top, count, filter) else {
        return None;
    };
    Some(Ends { front, back })
}

/// The nearest node above that isn't excluded alone, if it is included.
pub(crate) fn cover<'a, F: Filter>(
    state: StateRef<'a>,
    node: Member<'a>,
    filter: &F,
) -> Option<Member<'a>>
    requires can { F.can_answer filter.now }
    requires known { IsMember (world_of state) node }
    ensures there { IfSome result (IsMember (world_of state.entry)) }
    ensures below { IfSome result (λ r. is_below (world_of state.entry) r.id node.entry.id ≡ true) }
    ensures exact { let w = world_of state.entry in
        (f : FullNodeId → FilterResult) → Follows (F.answers filter.now) w f →
        option_map (λ r. r.id) result ≡ cover_of f w node.entry.id }
{
    state.know();
    let mut current = node;
    loop {
        let Some(spot) = state.spot(current) else {
            return None;
        };
        match filter.answer(&state.view(spot.parent)) {
            FilterResult::Include => return Some(spot.parent),
            FilterResult::ExcludeNode => current = spot.parent,
            FilterResult::ExcludeSubtree => return None,
        }
    }
}

/// The cover of a node, and the ends of the siblings after the node.
pub(crate) fn following_ends<'a, F: Filter>(
    state: StateRef<'a>,
    node: Member<'a>,
    filter: &F,
) -> Option<(FullNodeId, Ends<'a>)>
    requires can { F.can_answer filter.now }
    requires known { IsMember (world_of state) node }
    ensures there { IfSome result (λ r. AreEnds (world_of state.entry) r.0 r.1) }
    ensures exact { let w = world_of state.entry in
        (f : FullNodeId → FilterResult) → Follows (F.answers filter.now) w f →
        MatchOption result (following_filtered_siblings f w node.entry.id ≡ [])
        (λ r. SpansEnds f w r.0 r.1 ×
        (between_ends f w r.0 r.1 ≡ following_filtered_siblings f w node.entry.id)) }
{
    state.know();
    let Some(spot) = state.spot(node) else {
        return None;
    };
    let Some(top) = cover(state, node, filter) else {
        return None;
    };
    let Some(front) = following(state, top.id, spot, filter) else {
        return None;
    };
    let count = state.child_count(top);
    let Some(back) = previous_shown(state, top.id, top, count, filter) else {
        return None;
    };
    Some((top.id, Ends { front, back }))
}

/// The cover of a node, and the ends of the siblings before the node, the farthest first.
pub(crate) fn preceding_ends<'a, F: Filter>(
    state: StateRef<'a>,
    node: Member<'a>,
    filter: &F,
) -> Option<(FullNodeId, Ends<'a>)>
    requires can { F.can_answer filter.now }
    requires known { IsMember (world_of state) node }
    ensures there { IfSome result (λ r. AreEnds (world_of state.entry) r.0 r.1) }
    ensures exact { let w = world_of state.entry in
        (f : FullNodeId → FilterResult) → Follows (F.answers filter.now) w f →
        MatchOption result (preceding_filtered_siblings f w node.entry.id ≡ [])
        (λ r. SpansEnds f w r.0 r.1 ×
        (reverse (between_ends f w r.0 r.1) ≡ preceding_filtered_siblings f w node.entry.id)) }
{
    state.know();
    let Some(spot) = state.spot(node) else {
        return None;
    };
    let Some(top) = cover(state, node, filter) else {
        return None;
    };
    let Some(back) = preceding(state, top.id, spot, filter) else {
        return None;
    };
    let Some(front) = next_shown(state, top.id, top, 0, filter) else {
        return None;
    };
    Some((top.id, Ends { front, back }))
}
