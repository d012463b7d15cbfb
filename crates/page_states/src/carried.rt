//! Properties of a node that are computed from its parent's, so that a walk down a tree needn't climb from each node.
ghost use Rattle.std.specs.Prelude.{◌≡◌, ◌+ℤ◌, None, Some, IfSome};
ghost use Rattle.model.specs.Geometry.{transform, bounding_box, whole_rect, moved_rect};
ghost use Rattle.model.specs.Filters.{is_hidden as is_hidden_in, is_transparent, first_answer, base_filter, common_filter};
ghost use Rattle.model.specs.FocusFound.{is_focused};
ghost use Rattle.model.specs.Covers.{is_included, is_cut_off};
ghost use Rattle.views.specs.Nodes.{world_at, id_at};
ghost use Rattle.hidden_texts.specs.Hidden.{is_in_password};
ghost use Rattle.page_states.specs.Known.{clip_frame, depth_at, frame_below, is_below_left_out, is_clear, is_left_out, left_out_filter, IsKnown, IsStepAbove, sum_of};
ghost use Rattle.page_states.specs.Places.{IsOpenUnless};

use crate::clipping::is_out_of_clip;
use crate::sources::{Source, source_of};
use hidden_texts::is_in_password;
use schema::{Rect, Role, Translation, WideRect, WideTranslation};
use views::filters::{FilterResult, common_filter};
use views::node::geometry::{meets, ordered};
use views::{FullNodeId, NodeRef};

/// The properties of a node that the page shows or that the nodes below it need.
#[derive(Clone, Copy)]
pub(crate) struct Known {
    /// The number of the node's ancestors.
    pub depth: usize,
    /// By how much the node is shifted.
    pub shift: WideTranslation,
    /// The node's box, if it has one.
    pub rect: Option<WideRect>,
    /// Whether the node or an ancestor is hidden.
    pub is_hidden: bool,
    /// Whether an ancestor is a password input.
    pub is_in_password: bool,
    /// Whether the node or an ancestor is a password input.
    pub is_secret: bool,
    /// The common filter's answer for the node.
    pub answer: FilterResult,
    /// Whether the common filter excludes the node, or an ancestor, with its subtree.
    pub is_left_out: bool,
    /// Whether the common filter excludes the node alone, and it lies outside of what clips it.
    pub is_out_of_clip: bool,
    /// What clips the nodes below it, if that is known: the box of the nearest node, from this one upwards, that the
    /// base filter includes, if it clips its children.
    pub frame: Option<Option<WideRect>>,
    /// The node whose runs it has, if that is known.
    pub source: Option<Source>,
}

/// A node with these properties.
#[derive(Clone, Copy)]
pub(crate) struct Step {
    pub id: FullNodeId,
    pub known: Known,
}

/// The properties of a node, computed from its parent's if they are given. It is known whether the state has a password.
pub(crate) fn known_of(node: NodeRef, has_password: bool, above: Option<Step>) -> Known
    requires open { IsOpenUnless has_password (world_at node) }
    requires above { IsStepAbove (world_at node) (id_at node) above }
    ensures { IsKnown (world_at node.entry) (id_at node.entry) result }
{
    let shift = shift_of(node, above);
    let rect = rect_of(node, shift);
    let is_hidden = is_hidden_at(node, above);
    let is_in_password = is_in_password_at(node, above);
    let answer = answer_of(node, is_hidden, rect, above);
    Known {
        depth: depth_of(node, above),
        shift,
        rect,
        is_hidden,
        is_in_password,
        is_secret: node.is_password_input() || is_in_password,
        answer,
        is_left_out: is_left_out_at(node, answer, above),
        is_out_of_clip: is_out_of_clip(node, answer, rect, above),
        frame: frame_of(node, is_hidden, rect, above),
        source: source_of(node, has_password, above),
    }
}

/// The number of the node's ancestors.
fn depth_of(node: NodeRef, above: Option<Step>) -> usize
    requires { IsStepAbove (world_at node) (id_at node) above }
    ensures { result ≡ depth_at (world_at node.entry) (id_at node.entry) }
{
    node.tree_state().know();
    match above {
        Some(step) => step.known.depth.saturating_add(1),
        None => counted_depth(node),
    }
}

/// The same, counted on the way up to the root.
fn counted_depth(node: NodeRef) -> usize
    ensures { result ≡ depth_at (world_at node.entry) (id_at node.entry) }
{
    node.tree_state().know();
    let mut depth = 0usize;
    let mut current = node;
    while let Some(parent) = current.parent() {
        depth = depth.saturating_add(1);
        current = parent;
    }
    depth
}

/// By how much the node is shifted.
fn shift_of(node: NodeRef, above: Option<Step>) -> WideTranslation
    requires { IsStepAbove (world_at node) (id_at node) above }
    ensures { result ≡ transform (world_at node.entry) (id_at node.entry) }
{
    node.tree_state().know();
    let Some(step) = above else {
        return node.transform();
    };
    match sum_of(node.direct_transform(), step.known.shift) {
        Some(shift) => shift,
        None => node.transform(),
    }
}

/// The sum of both translations, if it fits.
fn sum_of(own: Translation, above: WideTranslation) -> Option<WideTranslation>
    ensures { IfSome result (λ sum. sum ≡ sum_of own above) }
{
    let x = plus(own.x, above.x)?;
    let y = plus(own.y, above.y)?;
    Some(WideTranslation { x, y })
}

/// The sum, if it fits.
fn plus(edge: i32, by: i128) -> Option<i128>
    ensures { IfSome result (λ sum. sum ≡ edge +ℤ by) }
{
    i128::from(edge).checked_add(by)
}

/// The node's box, if the node is shifted by this much.
fn rect_of(node: NodeRef, shift: WideTranslation) -> Option<WideRect>
    requires { shift ≡ transform (world_at node) (id_at node) }
    ensures { result ≡ bounding_box (world_at node.entry) (id_at node.entry) }
{
    match moved(node.raw_bounds()?, shift) {
        Some(rect) => Some(ordered(rect)),
        None => node.bounding_box(),
    }
}

/// The rectangle shifted by this much, if it fits.
fn moved(rect: Rect, by: WideTranslation) -> Option<WideRect>
    ensures { IfSome result (λ it. it ≡ moved_rect (whole_rect rect) by) }
{
    let x0 = plus(rect.x0, by.x)?;
    let y0 = plus(rect.y0, by.y)?;
    let x1 = plus(rect.x1, by.x)?;
    let y1 = plus(rect.y1, by.y)?;
    Some(WideRect { x0, y0, x1, y1 })
}

/// Whether the node or an ancestor is hidden.
fn is_hidden_at(node: NodeRef, above: Option<Step>) -> bool
    requires { IsStepAbove (world_at node) (id_at node) above }
    ensures { result ≡ is_hidden_in (world_at node.entry) (id_at node.entry) }
{
    node.tree_state().know();
    match above {
        Some(step) => node.data().is_hidden() || step.known.is_hidden,
        None => node.is_hidden(),
    }
}

/// Whether an ancestor of the node is a password input.
fn is_in_password_at(node: NodeRef, above: Option<Step>) -> bool
    requires { IsStepAbove (world_at node) (id_at node) above }
    ensures { result ≡ is_in_password (world_at node.entry) (id_at node.entry) }
{
    node.tree_state().know();
    match above {
        Some(step) => step.known.is_secret,
        None => is_in_password(&node),
    }
}

/// Whether the node is focused in the sense of the common filter.
pub(crate) fn is_focused(node: NodeRef) -> bool
    ensures { result ≡ is_focused (world_at node.entry) (id_at node.entry) }
{
    node.tree_state().know();
    node.is_focused()
}

/// Whether the node is a graft, a container or a text run.
pub(crate) fn is_transparent(node: NodeRef) -> bool
    ensures { result ≡ is_transparent (world_at node.entry) (id_at node.entry) }
{
    node.is_graft() || matches!(node.role(), Role::GenericContainer | Role::TextRun)
}

/// The common filter's answer for the node, computed from its answer for the parent and from what clips the nodes below
/// that.
fn answer_of(
    node: NodeRef,
    is_hidden: bool,
    rect: Option<WideRect>,
    above: Option<Step>,
) -> FilterResult
    requires hidden { is_hidden ≡ is_hidden_in (world_at node) (id_at node) }
    requires rect { rect ≡ bounding_box (world_at node) (id_at node) }
    requires above { IsStepAbove (world_at node) (id_at node) above }
    ensures { result ≡ common_filter (world_at node.entry) (id_at node.entry) }
{
    if is_focused(node) {
        return FilterResult::Include;
    }
    if is_hidden {
        return FilterResult::ExcludeSubtree;
    }
    if is_transparent(node) {
        return FilterResult::ExcludeNode;
    }
    match above {
        Some(step) => answer_below(node, rect, step),
        None => common_filter(&node),
    }
}

/// The common filter's answer for a node that doesn't decide its own, computed from the parent.
fn answer_below(node: NodeRef, rect: Option<WideRect>, above: Step) -> FilterResult
    requires open { first_answer (world_at node) (id_at node) ≡ None }
    requires rect { rect ≡ bounding_box (world_at node) (id_at node) }
    requires above { IsStepAbove (world_at node) (id_at node) (Some above) }
    ensures { result ≡ common_filter (world_at node.entry) (id_at node.entry) }
{
    node.tree_state().know();
    if is_cut_off(above.known.answer) {
        return FilterResult::ExcludeSubtree;
    }
    if is_clear(above.known.frame, rect) {
        return FilterResult::Include;
    }
    common_filter(&node)
}

/// Whether a node with this answer is excluded with its subtree.
fn is_cut_off(answer: FilterResult) -> bool
    ensures { result ≡ is_cut_off answer }
{
    match answer {
        FilterResult::Include => false,
        FilterResult::ExcludeNode => false,
        FilterResult::ExcludeSubtree => true,
    }
}

/// Whether the common filter excludes the node, or an ancestor, with its subtree.
fn is_left_out_at(node: NodeRef, answer: FilterResult, above: Option<Step>) -> bool
    requires answer { answer ≡ common_filter (world_at node) (id_at node) }
    requires above { IsStepAbove (world_at node) (id_at node) above }
    ensures { result ≡ is_left_out (world_at node.entry) (id_at node.entry) }
{
    if is_cut_off(answer) {
        return true;
    }
    is_below_left_out_at(node, above)
}

/// Whether the common filter excludes an ancestor with its subtree.
fn is_below_left_out_at(node: NodeRef, above: Option<Step>) -> bool
    requires { IsStepAbove (world_at node) (id_at node) above }
    ensures { result ≡ is_below_left_out (world_at node.entry) (id_at node.entry) }
{
    node.tree_state().know();
    match above {
        Some(step) => step.known.is_left_out,
        None => is_below_left_out(&node),
    }
}

/// The same, asked of each ancestor.
fn is_below_left_out(node: &NodeRef) -> bool
    ensures { result ≡ is_below_left_out (world_at node.now) (id_at node.now) }
{
    node.filtered_parent(&left_out).is_some()
}

/// The filter that includes the nodes that the common filter excludes with their subtrees.
fn left_out(node: &NodeRef<'_>) -> FilterResult
    ensures { result ≡ left_out_filter (world_at node.now) (id_at node.now) }
{
    if is_cut_off(common_filter(node)) {
        return FilterResult::Include;
    }
    FilterResult::ExcludeNode
}

/// Whether it is known that a node with this box isn't clipped by what clips the nodes below its parent.
fn is_clear(frame: Option<Option<WideRect>>, rect: Option<WideRect>) -> bool
    ensures { result ≡ is_clear frame rect }
{
    match (frame, rect) {
        (None, _) => false,
        (Some(None), _) => true,
        (Some(Some(_)), None) => true,
        (Some(Some(frame)), Some(rect)) => meets(rect, frame),
    }
}

/// What clips the nodes below a node, if that is known.
fn frame_of(
    node: NodeRef,
    is_hidden: bool,
    rect: Option<WideRect>,
    above: Option<Step>,
) -> Option<Option<WideRect>>
    requires hidden { is_hidden ≡ is_hidden_in (world_at node) (id_at node) }
    requires rect { rect ≡ bounding_box (world_at node) (id_at node) }
    requires above { IsStepAbove (world_at node) (id_at node) above }
    ensures { IfSome result (λ frame. frame ≡ frame_below (world_at node.entry) (id_at node.entry)) }
{
    node.tree_state().know();
    if is_shown(node, is_hidden) {
        return Some(clip_frame(node, rect));
    }
    match above {
        Some(step) => step.known.frame,
        None if node.parent_id().is_none() => Some(None),
        None => None,
    }
}

/// Whether the base filter includes the node.
fn is_shown(node: NodeRef, is_hidden: bool) -> bool
    requires { is_hidden ≡ is_hidden_in (world_at node) (id_at node) }
    ensures { result ≡ is_included (base_filter (world_at node.entry) (id_at node.entry)) }
{
    is_focused(node) || (!is_hidden && !is_transparent(node))
}

/// The box by which the node clips the nodes below it.
pub(crate) fn clip_frame(node: NodeRef, rect: Option<WideRect>) -> Option<WideRect>
    requires { rect ≡ bounding_box (world_at node) (id_at node) }
    ensures { result ≡ clip_frame (world_at node.entry) (id_at node.entry) }
{
    if node.clips_children() { rect } else { None }
}
