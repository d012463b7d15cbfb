//! The common filters.
ghost use Rattle.std.specs.Prelude.{◌≡◌, ◌||◌, false, None, IfSome, option_map};
ghost use Rattle.std.specs.Option.{option_map_or};
ghost use Rattle.model.specs.Forest.{is_same};
ghost use Rattle.model.specs.Upward.{upward, says_upward};
ghost use Rattle.model.specs.Covers.{filtered_parent};
ghost use Rattle.model.specs.Geometry.{bounding_box, meets};
ghost use Rattle.model.specs.Filters.{is_hidden, is_transparent, first_answer, base_filter, is_outside, is_far_outside, is_clipped_by, common_filter, common_filter_with_root_exception};
ghost use Rattle.views.specs.ShownWorlds.{world_of};
ghost use Rattle.views.specs.Nodes.{world_at, id_at};
ghost use Rattle.views.specs.FocusedOne.{IsFocusedOne, is_passed, clipped_from};

use crate::StateRef;
use crate::node::NodeRef;
use crate::node::geometry::meets;
use crate::walks::filter::Filter;
pub use model::filters::FilterResult;
use model::{FullNodeId, is_same};
use schema::{Node, Role, WideRect};

/// The id of the node that is focused, if there is one.
fn focused_id(state: StateRef<'_>) -> Option<FullNodeId>
    ensures { IsFocusedOne (world_of state.entry) result }
{
    state.know();
    if !state.is_host_focused() {
        return None;
    }
    let focus = state.focus_in_tree();
    let Some(active) = focus.active_descendant() else {
        return Some(focus.id);
    };
    if is_same(active.id, focus.id) {
        return None;
    }
    Some(active.id)
}

/// Whether the id is the focused one.
fn is_focused_one(id: FullNodeId, focused: Option<FullNodeId>) -> bool
    ensures { result ≡ option_map_or (is_same id) focused false }
{
    match focused {
        Some(focused) => is_same(id, focused),
        None => false,
    }
}

/// Whether the node is a graft, a container or a text run.
fn is_transparent(node: &NodeRef<'_>) -> bool
    ensures { result ≡ is_transparent (world_at node.now) (id_at node.now) }
{
    node.is_graft() || matches!(node.role(), Role::GenericContainer | Role::TextRun)
}

/// Whether the node is transparent and not focused. Such a node is excluded alone, unless it is hidden.
fn is_passed(node: &NodeRef<'_>, focused: Option<FullNodeId>) -> bool
    ensures { IsFocusedOne (world_at node.now) focused → result ≡ is_passed (world_at node.now) (id_at node.now) }
{
    !is_focused_one(node.id, focused) && is_transparent(node)
}

/// The filter's answer, if the node alone decides it.
fn settled(node: &NodeRef<'_>, focused: Option<FullNodeId>) -> Option<FilterResult>
    ensures { IsFocusedOne (world_at node.now) focused → result ≡ first_answer (world_at node.now) (id_at node.now) }
{
    if is_focused_one(node.id, focused) {
        return Some(FilterResult::Include);
    }
    if node.is_hidden() {
        return Some(FilterResult::ExcludeSubtree);
    }
    if is_transparent(node) {
        return Some(FilterResult::ExcludeNode);
    }
    None
}

/// The base filter, which the clipping rule uses to look for siblings.
#[derive(Drop)]
struct BaseFilter {
    focused: Option<FullNodeId>,
}

impl Filter for BaseFilter {
    ghost use Rattle.std.specs.Prelude.{◌≡◌, ⊤};
    ghost use Rattle.model.specs.Filters.{base_filter};
    ghost use Rattle.views.specs.Nodes.{world_at, id_at};
    ghost use Rattle.views.specs.FocusedOne.{IsFocusedOne};

    ghost can_answer = { λ _. ⊤ };

    ghost answers = { λ s n r. IsFocusedOne (world_at n) s.focused → r ≡ base_filter (world_at n) (id_at n) };

    fn answer(&self, node: &NodeRef<'_>) -> FilterResult {
        settled(node, self.focused).unwrap_or(FilterResult::Include)
    }
}

/// The nearest ancestor, included by the base filter, of a node that isn't hidden.
fn shown_parent<'a>(node: NodeRef<'a>, focused: Option<FullNodeId>) -> Option<NodeRef<'a>>
    requires focus { IsFocusedOne (world_at node) focused }
    requires seen { is_hidden (world_at node) (id_at node) ≡ false }
    ensures world { IfSome result (λ it. world_at it ≡ world_at node.entry) }
    ensures node { option_map id_at result ≡ filtered_parent (base_filter (world_at node.entry)) (world_at node.entry) (id_at node.entry) }
{
    node.state.know();
    let mut current = node;
    while let Some(parent) = current.parent() {
        if !is_passed(&parent, focused) {
            return Some(parent);
        }
        current = parent;
    }
    None
}

/// Whether the node has a box and it lies outside the frame.
fn is_outside(node: &NodeRef<'_>, frame: WideRect) -> bool
    ensures { result ≡ is_outside (world_at node.now) frame (id_at node.now) }
{
    match node.bounding_box() {
        Some(found) => !meets(found, frame),
        None => false,
    }
}

/// Whether the node exists and has a box that meets the frame.
fn is_inside(node: Option<NodeRef<'_>>, frame: WideRect) -> bool
    ensures { result ≡ option_map_or (λ n. option_map_or (λ box. meets box frame)
        (bounding_box (world_at n) (id_at n)) false) node.entry false }
{
    let Some(node) = node else {
        return false;
    };
    match node.bounding_box() {
        Some(found) => meets(found, frame),
        None => false,
    }
}

/// Whether the node lies outside the frame, and so do its nearest siblings on both sides that have boxes.
fn is_far_outside(node: NodeRef<'_>, frame: WideRect, focused: Option<FullNodeId>) -> bool
    requires { IsFocusedOne (world_at node) focused }
    ensures { result ≡ is_far_outside (world_at node.entry) frame (id_at node.entry) }
{
    if !is_outside(&node, frame) {
        return false;
    }
    let base = BaseFilter { focused };
    let following = node.nearest_sibling(false, &base);
    if is_inside(following, frame) {
        return false;
    }
    let preceding = node.nearest_sibling(true, &base);
    !is_inside(preceding, frame)
}

/// Whether the parent clips its children and has a box, and the node lies far outside that box.
fn is_clipped_by(node: NodeRef<'_>, parent: NodeRef<'_>, focused: Option<FullNodeId>) -> bool
    requires focus { IsFocusedOne (world_at node) focused }
    requires world { world_at parent ≡ world_at node }
    ensures { result ≡ is_clipped_by (world_at node.entry) (id_at parent.entry) (id_at node.entry) }
{
    if !parent.clips_children() {
        return false;
    }
    match parent.bounding_box() {
        Some(frame) => is_far_outside(node, frame, focused),
        None => false,
    }
}

/// Whether this node or an ancestor is clipped, up to the first node whose answer is decided by itself.
fn is_clipped_on_the_way(node: NodeRef<'_>, focused: Option<FullNodeId>) -> bool
    requires focus { IsFocusedOne (world_at node) focused }
    requires unsettled { first_answer (world_at node) (id_at node) ≡ None }
    ensures { result ≡ clipped_from (world_at node.entry) (upward (world_at node.entry) (id_at node.entry)) }
{
    node.state.know();
    let mut current = node;
    while let Some(parent) = current.parent() {
        if is_passed(&parent, focused) {
            let Some(frame) = shown_parent(parent, focused) else {
                return false;
            };
            return is_clipped_by(current, frame, focused);
        }
        if is_clipped_by(current, parent, focused) {
            return true;
        }
        if is_focused_one(parent.id, focused) {
            return false;
        }
        current = parent;
    }
    false
}

/// Whether a node with this data is hidden or clips its children.
fn is_restricting(node: &Node) -> bool
    ensures { result ≡ (node.now.hidden || node.now.clips_children) }
{
    node.is_hidden() || node.clips_children()
}

/// Whether the node or one above it is hidden or clips its children.
fn is_restricted(node: &NodeRef<'_>) -> bool
    ensures { result ≡ says_upward (λ d. d.hidden || d.clips_children) (world_at node.now) (id_at node.now) }
{
    node.nearest(|data| is_restricting(data)).is_some()
}

/// The filter's answer if neither the node nor an ancestor is hidden or clips its children.
fn unrestricted_answer(node: &NodeRef<'_>, focused: Option<FullNodeId>) -> FilterResult
    requires focus { IsFocusedOne (world_at node.now) focused }
    requires free { says_upward (λ d. d.hidden || d.clips_children) (world_at node.now) (id_at node.now) ≡ false }
    ensures { result ≡ common_filter (world_at node.now) (id_at node.now) }
{
    node.state.know();
    if is_passed(node, focused) {
        return FilterResult::ExcludeNode;
    }
    FilterResult::Include
}

/// The filter that platform adapters use. The first rule that applies decides: the focused node is included; a node
/// that is hidden, or has a hidden ancestor, is excluded with its subtree; a graft, a container or a text run is
/// excluded alone; a node whose parent is excluded with its subtree is so too; a node far outside the ancestor that
/// clips it is excluded with its subtree; any other node is included.
pub fn common_filter(node: &NodeRef<'_>) -> FilterResult
    ensures { result ≡ common_filter (world_at node.now) (id_at node.now) }
{
    node.state.know();
    let focused = focused_id(node.state);
    if !is_restricted(node) {
        return unrestricted_answer(node, focused);
    }
    if let Some(answer) = settled(node, focused) {
        return answer;
    }
    if is_clipped_on_the_way(*node, focused) {
        return FilterResult::ExcludeSubtree;
    }
    FilterResult::Include
}

/// Like [`common_filter`], but the root tree's root is always included.
pub fn common_filter_with_root_exception(node: &NodeRef<'_>) -> FilterResult
    ensures { result ≡ common_filter_with_root_exception (world_at node.now) (id_at node.now) }
{
    if node.is_root() {
        return FilterResult::Include;
    }
    common_filter(node)
}
