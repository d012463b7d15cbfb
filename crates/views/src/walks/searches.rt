//! The next item of a walk from a place on, and the last one before a place.
ghost use Rattle.std.specs.Prelude.{◌≡◌, ◌<◌, ◌≤◌, [], ◌∷◌, ◌++◌, length, true, IfSome, MatchOption};
ghost use Rattle.model.specs.declared.FullNodeId.{FullNodeId};
ghost use Rattle.model.specs.declared.filters.FilterResult.{FilterResult};
ghost use Rattle.model.specs.World.{children};
ghost use Rattle.model.specs.Forest.{above, is_same as is_same_id};
ghost use Rattle.model.specs.Upward.{is_within};
ghost use Rattle.model.specs.Beside.{left_at, after_in, is_below, work_from, work_after, prior_at, before_in, work_until, work_before};
ghost use Rattle.views.specs.ShownWorlds.{world_of};
ghost use Rattle.views.specs.Spots.{IsMember, IsSpot, place_at};
ghost use Rattle.views.specs.Follows.{Follows};

use crate::StateRef;
use crate::walks::filter::Filter;
use crate::walks::spot::{Member, Spot};
use model::filters::FilterResult;
use model::{FullNodeId, is_same};

/// The first item below `top` from a place on.
pub(crate) fn next_shown<'a, F: Filter>(
    state: StateRef<'a>,
    top: FullNodeId,
    start: Member<'a>,
    start_index: usize,
    filter: &F,
) -> Option<Spot<'a>>
    requires can { F.can_answer filter.now }
    requires known { IsMember (world_of state) start }
    requires in_it { start_index ≤ length (children (world_of state) start.id) }
    requires within { is_within (world_of state) top start.id ≡ true }
    ensures there { IfSome result (IsSpot (world_of state.entry)) }
    ensures below { IfSome result (λ r. is_below (world_of state.entry) top r.member.id ≡ true) }
    ensures nearer { let w = world_of state.entry in
        let left = work_from w top (start.entry.id, start_index) in
        IfSome result (λ r. work_after w top (above w r.member.id) < left) }
    ensures ahead { let w = world_of state.entry in
        let left = work_from w top (start.entry.id, start_index) in
        IfSome result (λ r. work_from w top (place_at r) ≤ left) }
    ensures exact { let w = world_of state.entry in
        (f : FullNodeId → FilterResult) → Follows (F.answers filter.now) w f →
        let shown = left_at f w (is_same_id top) (start.entry.id, start_index) in
        MatchOption result (shown ≡ [])
        (λ r. shown ≡ r.member.id ∷ after_in f w top r.member.id) }
{
    state.know();
    let mut parent = start;
    let mut index = start_index;
    loop {
        match state.child(parent, index) {
            Some(child) => match filter.answer(&child.view(state)) {
                FilterResult::Include => return Some(child),
                FilterResult::ExcludeNode => {
                    parent = child.member;
                    index = 0;
                }
                FilterResult::ExcludeSubtree => index += 1,
            },
            None => {
                if is_same(top, parent.id) {
                    return None;
                }
                let Some(above) = state.spot(parent) else {
                    return None;
                };
                parent = above.parent;
                index = above.index + 1;
            }
        }
    }
}

/// The last item below `top` before a place.
pub(crate) fn previous_shown<'a, F: Filter>(
    state: StateRef<'a>,
    top: FullNodeId,
    start: Member<'a>,
    start_index: usize,
    filter: &F,
) -> Option<Spot<'a>>
    requires can { F.can_answer filter.now }
    requires known { IsMember (world_of state) start }
    requires in_it { start_index ≤ length (children (world_of state) start.id) }
    requires within { is_within (world_of state) top start.id ≡ true }
    ensures there { IfSome result (IsSpot (world_of state.entry)) }
    ensures below { IfSome result (λ r. is_below (world_of state.entry) top r.member.id ≡ true) }
    ensures nearer { let w = world_of state.entry in
        let left = work_until w top (start.entry.id, start_index) in
        IfSome result (λ r. work_before w top (above w r.member.id) < left) }
    ensures exact { let w = world_of state.entry in
        (f : FullNodeId → FilterResult) → Follows (F.answers filter.now) w f →
        let shown = prior_at f w (is_same_id top) (start.entry.id, start_index) in
        MatchOption result (shown ≡ [])
        (λ r. shown ≡ before_in f w top r.member.id ++ r.member.id ∷ []) }
{
    state.know();
    let mut parent = start;
    let mut index = start_index;
    loop {
        if index > 0 {
            let Some(child) = state.child(parent, index - 1) else {
                return None;
            };
            match filter.answer(&child.view(state)) {
                FilterResult::Include => return Some(child),
                FilterResult::ExcludeNode => {
                    index = state.child_count(child.member);
                    parent = child.member;
                }
                FilterResult::ExcludeSubtree => index -= 1,
            }
        } else {
            if is_same(top, parent.id) {
                return None;
            }
            let Some(above) = state.spot(parent) else {
                return None;
            };
            parent = above.parent;
            index = above.index;
        }
    }
}
