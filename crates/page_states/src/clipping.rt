//! Whether a node that the common filter excludes alone lies outside of what clips it.
ghost use Rattle.std.specs.Prelude.{◌≡◌};
ghost use Rattle.model.specs.Filters.{base_filter, common_filter};
ghost use Rattle.model.specs.Geometry.{bounding_box};
ghost use Rattle.views.specs.Nodes.{world_at, id_at};
ghost use Rattle.page_states.specs.Known.{clip_of, is_along, is_beyond, is_excluded_alone, is_in_frame, is_out_of_clip, IsStepAbove};

use crate::carried::{Step, clip_frame, is_focused, is_transparent};
use schema::WideRect;
use views::NodeRef;
use views::filters::FilterResult;

/// Whether a node that the common filter excludes alone lies wholly outside of what clips it.
pub(crate) fn is_out_of_clip(
    node: NodeRef,
    answer: FilterResult,
    rect: Option<WideRect>,
    above: Option<Step>,
) -> bool
    requires answer { answer ≡ common_filter (world_at node) (id_at node) }
    requires rect { rect ≡ bounding_box (world_at node) (id_at node) }
    requires above { IsStepAbove (world_at node) (id_at node) above }
    ensures { result ≡ is_out_of_clip (world_at node.entry) (id_at node.entry) }
{
    if is_excluded_alone(answer) {
        return is_beyond(clip_of(node, above), rect);
    }
    false
}

/// Whether a node with this answer is excluded without its subtree.
fn is_excluded_alone(answer: FilterResult) -> bool
    ensures { result ≡ is_excluded_alone answer }
{
    match answer {
        FilterResult::Include => false,
        FilterResult::ExcludeNode => true,
        FilterResult::ExcludeSubtree => false,
    }
}

/// What clips a node.
fn clip_of(node: NodeRef, above: Option<Step>) -> Option<WideRect>
    requires { IsStepAbove (world_at node) (id_at node) above }
    ensures { result ≡ clip_of (world_at node.entry) (id_at node.entry) }
{
    node.tree_state().know();
    let Some(step) = above else {
        return searched_clip(node);
    };
    match step.known.frame {
        Some(frame) => frame,
        None => searched_clip(node),
    }
}

/// The same, asked of each ancestor.
fn searched_clip(node: NodeRef) -> Option<WideRect>
    ensures { result ≡ clip_of (world_at node.entry) (id_at node.entry) }
{
    let parent = node.filtered_parent(&base_filter)?;
    clip_frame(parent, parent.bounding_box())
}

/// The filter that includes each node but those that are hidden and, unless one has the focus, grafts, containers and runs.
fn base_filter(node: &NodeRef<'_>) -> FilterResult
    ensures { result ≡ base_filter (world_at node.now) (id_at node.now) }
{
    if is_focused(*node) {
        return FilterResult::Include;
    }
    if node.is_hidden() {
        return FilterResult::ExcludeSubtree;
    }
    if is_transparent(*node) {
        return FilterResult::ExcludeNode;
    }
    FilterResult::Include
}

/// Whether a box and a frame are there, and the box isn't in the frame.
fn is_beyond(frame: Option<WideRect>, rect: Option<WideRect>) -> bool
    ensures { result ≡ is_beyond frame rect }
{
    match (frame, rect) {
        (Some(frame), Some(rect)) => !is_in_frame(frame, rect),
        (Some(_), None) => false,
        (None, _) => false,
    }
}

/// Whether the start of a box, or a part of it, is in a frame.
fn is_in_frame(frame: WideRect, rect: WideRect) -> bool
    ensures { result ≡ is_in_frame frame rect }
{
    is_across(frame, rect) && is_upright(frame, rect)
}

/// So from left to right.
fn is_across(frame: WideRect, rect: WideRect) -> bool
    ensures { result ≡ is_along rect.x0 rect.x1 frame.x0 frame.x1 }
{
    is_along(rect.x0, rect.x1, frame.x0, frame.x1)
}

/// So from the top to the bottom.
fn is_upright(frame: WideRect, rect: WideRect) -> bool
    ensures { result ≡ is_along rect.y0 rect.y1 frame.y0 frame.y1 }
{
    is_along(rect.y0, rect.y1, frame.y0, frame.y1)
}

/// Whether on one axis the start of a box, which may have no length, or a part of it is in a frame.
fn is_along(start: i128, end: i128, from: i128, to: i128) -> bool
    ensures { result ≡ is_along start end from to }
{
    (from < to && start < to) && (from <= start || from < end)
}
