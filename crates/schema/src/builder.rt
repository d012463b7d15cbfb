//! A builder of nodes that reports a failed allocation once, at the end.

ghost use Rattle.std.specs.Prelude.{◌≡◌, Some, None, true, MatchResult, ◌++◌, [], ◌∷◌};
ghost use Rattle.schema.specs.Actions.{with_action};
ghost use Rattle.schema.specs.Drafts.{changed, IsChangedOrRefused};
ghost use Rattle.schema.specs.NodeData.{empty_node};

use crate::{
    Action, AriaCurrent, HasPopup, Live, Node, NodeId, Orientation, Rect, Role, TextDirection,
    TextSelection, Toggled, Translation, TreeId,
};
use std::alloc::{AllocError, Global};
use std::marker::Model;

/// Builds a node: start with [`NodeBuilder::new`], set each field by a call, and end with [`NodeBuilder::build`], the
/// only call that reports a failed allocation.
///
/// Contracts see the node built so far, or `None` once an allocation has failed.
#[derive(Drop)]
pub struct NodeBuilder {
    node: Node,
    is_refused: bool,
}

impl Model for NodeBuilder {
    ghost use Rattle.std.specs.Prelude.{Option, cond, Some, None};
    ghost use Rattle.schema.specs.NodeData.{NodeData};

    ghost Value = { Option NodeData };

    ghost view = { λ b. cond b.is_refused None (Some b.node) };
}

impl NodeBuilder {
    /// Starts a node with this role and all other fields empty. Texts and lists that are set later are allocated from
    /// `alloc`.
    pub fn new(alloc: Global, role: Role) -> NodeBuilder
        ensures { result ≡ Some (empty_node role) }
    {
        NodeBuilder {
            node: Node::new(alloc, role),
            is_refused: false,
        }
    }

    /// Returns the finished node.
    ///
    /// # Errors
    ///
    /// Returns `AllocError` if memory ran out in any of the calls.
    pub fn build(self) -> Result<Node, AllocError>
        ensures { MatchResult result (λ node. self ≡ Some node) (λ _. self ≡ None) }
    {
        if self.is_refused {
            return Err(AllocError);
        }
        Ok(self.node)
    }

    /// Sets [`Node::label`] to a copy of the argument. If memory runs out, [`NodeBuilder::build`] fails.
    pub fn label(mut self, text: &str) -> NodeBuilder
        ensures { IsChangedOrRefused (λ d. record d { label = Some text.now }) self result }
    {
        self.is_refused |= self.node.set_label(text).is_err();
        self
    }

    /// Sets [`Node::value`] to a copy of the argument. If memory runs out, [`NodeBuilder::build`] fails.
    pub fn value(mut self, text: &str) -> NodeBuilder
        ensures { IsChangedOrRefused (λ d. record d { value = Some text.now }) self result }
    {
        self.is_refused |= self.node.set_value(text).is_err();
        self
    }

    /// Sets [`Node::description`] to a copy of the argument. If memory runs out, [`NodeBuilder::build`] fails.
    pub fn description(mut self, text: &str) -> NodeBuilder
        ensures { IsChangedOrRefused (λ d. record d { description = Some text.now }) self result }
    {
        self.is_refused |= self.node.set_description(text).is_err();
        self
    }

    /// Sets [`Node::role_description`] to a copy of the argument. If memory runs out, [`NodeBuilder::build`] fails.
    pub fn role_description(mut self, text: &str) -> NodeBuilder
        ensures { IsChangedOrRefused (λ d. record d { role_description = Some text.now }) self result }
    {
        self.is_refused |= self.node.set_role_description(text).is_err();
        self
    }

    /// Sets [`Node::placeholder`] to a copy of the argument. If memory runs out, [`NodeBuilder::build`] fails.
    pub fn placeholder(mut self, text: &str) -> NodeBuilder
        ensures { IsChangedOrRefused (λ d. record d { placeholder = Some text.now }) self result }
    {
        self.is_refused |= self.node.set_placeholder(text).is_err();
        self
    }

    /// Sets [`Node::url`] to a copy of the argument. If memory runs out, [`NodeBuilder::build`] fails.
    pub fn url(mut self, text: &str) -> NodeBuilder
        ensures { IsChangedOrRefused (λ d. record d { url = Some text.now }) self result }
    {
        self.is_refused |= self.node.set_url(text).is_err();
        self
    }

    /// Sets [`Node::author_id`] to a copy of the argument. If memory runs out, [`NodeBuilder::build`] fails.
    pub fn author_id(mut self, text: &str) -> NodeBuilder
        ensures { IsChangedOrRefused (λ d. record d { author_id = Some text.now }) self result }
    {
        self.is_refused |= self.node.set_author_id(text).is_err();
        self
    }

    /// Sets [`Node::language`] to a copy of the argument. If memory runs out, [`NodeBuilder::build`] fails.
    pub fn language(mut self, text: &str) -> NodeBuilder
        ensures { IsChangedOrRefused (λ d. record d { language = Some text.now }) self result }
    {
        self.is_refused |= self.node.set_language(text).is_err();
        self
    }

    /// Sets [`Node::children`] to a copy of the argument. If memory runs out, [`NodeBuilder::build`] fails.
    pub fn children(mut self, ids: &[NodeId]) -> NodeBuilder
        ensures { IsChangedOrRefused (λ d. record d { children = ids.now }) self result }
    {
        self.is_refused |= self.node.set_children(ids).is_err();
        self
    }

    /// Sets [`Node::labelled_by`] to a copy of the argument. If memory runs out, [`NodeBuilder::build`] fails.
    pub fn labelled_by(mut self, ids: &[NodeId]) -> NodeBuilder
        ensures { IsChangedOrRefused (λ d. record d { labelled_by = ids.now }) self result }
    {
        self.is_refused |= self.node.set_labelled_by(ids).is_err();
        self
    }

    /// Sets [`Node::controls`] to a copy of the argument. If memory runs out, [`NodeBuilder::build`] fails.
    pub fn controls(mut self, ids: &[NodeId]) -> NodeBuilder
        ensures { IsChangedOrRefused (λ d. record d { controls = ids.now }) self result }
    {
        self.is_refused |= self.node.set_controls(ids).is_err();
        self
    }

    /// Adds an id at the end of [`Node::children`]. If memory runs out, [`NodeBuilder::build`] fails.
    pub fn child(mut self, id: NodeId) -> NodeBuilder
        ensures { IsChangedOrRefused (λ d. record d { children = d.children ++ id ∷ [] }) self result }
    {
        self.is_refused |= self.node.push_child(id).is_err();
        self
    }

    /// Sets [`Node::character_lengths`] to a copy of the argument. If memory runs out, [`NodeBuilder::build`] fails.
    pub fn character_lengths(mut self, lengths: &[u16]) -> NodeBuilder
        ensures { IsChangedOrRefused (λ d. record d { character_lengths = lengths.now }) self result }
    {
        self.is_refused |= self.node.set_character_lengths(lengths).is_err();
        self
    }

    /// Sets [`Node::word_starts`] to a copy of the argument. If memory runs out, [`NodeBuilder::build`] fails.
    pub fn word_starts(mut self, starts: &[u16]) -> NodeBuilder
        ensures { IsChangedOrRefused (λ d. record d { word_starts = starts.now }) self result }
    {
        self.is_refused |= self.node.set_word_starts(starts).is_err();
        self
    }

    /// Sets [`Node::character_lengths`] to a copy of the argument. If memory runs out, [`NodeBuilder::build`] fails.
    pub fn character_lengths_u8(mut self, lengths: &[u8]) -> NodeBuilder
        ensures { IsChangedOrRefused (λ d. record d { character_lengths = lengths.now }) self result }
    {
        self.is_refused |= self.node.set_character_lengths_u8(lengths).is_err();
        self
    }

    /// Sets [`Node::word_starts`] to a copy of the argument. If memory runs out, [`NodeBuilder::build`] fails.
    pub fn word_starts_u8(mut self, starts: &[u8]) -> NodeBuilder
        ensures { IsChangedOrRefused (λ d. record d { word_starts = starts.now }) self result }
    {
        self.is_refused |= self.node.set_word_starts_u8(starts).is_err();
        self
    }

    /// Sets [`Node::character_positions`] to a copy of the argument. If memory runs out, [`NodeBuilder::build`] fails.
    pub fn character_positions(mut self, positions: &[i32]) -> NodeBuilder
        ensures { IsChangedOrRefused (λ d. record d { character_positions = Some positions.now }) self result }
    {
        self.is_refused |= self.node.set_character_positions(positions).is_err();
        self
    }

    /// Sets [`Node::character_widths`] to a copy of the argument. If memory runs out, [`NodeBuilder::build`] fails.
    pub fn character_widths(mut self, widths: &[i32]) -> NodeBuilder
        ensures { IsChangedOrRefused (λ d. record d { character_widths = Some widths.now }) self result }
    {
        self.is_refused |= self.node.set_character_widths(widths).is_err();
        self
    }

    /// Sets [`Node::is_hidden`].
    pub fn hidden(mut self) -> NodeBuilder
        ensures { result ≡ changed (λ d. record d { hidden = true }) self }
    {
        self.node.set_hidden();
        self
    }

    /// Sets [`Node::is_disabled`].
    pub fn disabled(mut self) -> NodeBuilder
        ensures { result ≡ changed (λ d. record d { disabled = true }) self }
    {
        self.node.set_disabled();
        self
    }

    /// Sets [`Node::is_read_only`].
    pub fn read_only(mut self) -> NodeBuilder
        ensures { result ≡ changed (λ d. record d { read_only = true }) self }
    {
        self.node.set_read_only();
        self
    }

    /// Sets [`Node::is_busy`].
    pub fn busy(mut self) -> NodeBuilder
        ensures { result ≡ changed (λ d. record d { busy = true }) self }
    {
        self.node.set_busy();
        self
    }

    /// Sets [`Node::is_live_atomic`].
    pub fn live_atomic(mut self) -> NodeBuilder
        ensures { result ≡ changed (λ d. record d { live_atomic = true }) self }
    {
        self.node.set_live_atomic();
        self
    }

    /// Sets [`Node::is_modal`].
    pub fn modal(mut self) -> NodeBuilder
        ensures { result ≡ changed (λ d. record d { modal = true }) self }
    {
        self.node.set_modal();
        self
    }

    /// Sets [`Node::is_multiselectable`].
    pub fn multiselectable(mut self) -> NodeBuilder
        ensures { result ≡ changed (λ d. record d { multiselectable = true }) self }
    {
        self.node.set_multiselectable();
        self
    }

    /// Sets [`Node::is_required`].
    pub fn required(mut self) -> NodeBuilder
        ensures { result ≡ changed (λ d. record d { required = true }) self }
    {
        self.node.set_required();
        self
    }

    /// Sets [`Node::clips_children`].
    pub fn clips_children(mut self) -> NodeBuilder
        ensures { result ≡ changed (λ d. record d { clips_children = true }) self }
    {
        self.node.set_clips_children();
        self
    }

    /// Sets [`Node::is_expanded`].
    pub fn expanded(mut self, value: bool) -> NodeBuilder
        ensures { result ≡ changed (λ d. record d { expanded = Some value }) self }
    {
        self.node.set_expanded(value);
        self
    }

    /// Sets [`Node::is_selected`].
    pub fn selected(mut self, value: bool) -> NodeBuilder
        ensures { result ≡ changed (λ d. record d { selected = Some value }) self }
    {
        self.node.set_selected(value);
        self
    }

    /// Sets [`Node::toggled`].
    pub fn toggled(mut self, value: Toggled) -> NodeBuilder
        ensures { result ≡ changed (λ d. record d { toggled = Some value }) self }
    {
        self.node.set_toggled(value);
        self
    }

    /// Sets [`Node::live`].
    pub fn live(mut self, value: Live) -> NodeBuilder
        ensures { result ≡ changed (λ d. record d { live = Some value }) self }
    {
        self.node.set_live(value);
        self
    }

    /// Sets [`Node::orientation`].
    pub fn orientation(mut self, value: Orientation) -> NodeBuilder
        ensures { result ≡ changed (λ d. record d { orientation = Some value }) self }
    {
        self.node.set_orientation(value);
        self
    }

    /// Sets [`Node::aria_current`].
    pub fn aria_current(mut self, value: AriaCurrent) -> NodeBuilder
        ensures { result ≡ changed (λ d. record d { aria_current = Some value }) self }
    {
        self.node.set_aria_current(value);
        self
    }

    /// Sets [`Node::has_popup`].
    pub fn has_popup(mut self, value: HasPopup) -> NodeBuilder
        ensures { result ≡ changed (λ d. record d { has_popup = Some value }) self }
    {
        self.node.set_has_popup(value);
        self
    }

    /// Sets [`Node::level`].
    pub fn level(mut self, value: usize) -> NodeBuilder
        ensures { result ≡ changed (λ d. record d { level = Some value }) self }
    {
        self.node.set_level(value);
        self
    }

    /// Sets [`Node::size_of_set`].
    pub fn size_of_set(mut self, value: usize) -> NodeBuilder
        ensures { result ≡ changed (λ d. record d { size_of_set = Some value }) self }
    {
        self.node.set_size_of_set(value);
        self
    }

    /// Sets [`Node::position_in_set`].
    pub fn position_in_set(mut self, value: usize) -> NodeBuilder
        ensures { result ≡ changed (λ d. record d { position_in_set = Some value }) self }
    {
        self.node.set_position_in_set(value);
        self
    }

    /// Sets [`Node::numeric_value`].
    pub fn numeric_value(mut self, value: i64) -> NodeBuilder
        ensures { result ≡ changed (λ d. record d { numeric_value = Some value }) self }
    {
        self.node.set_numeric_value(value);
        self
    }

    /// Sets [`Node::min_numeric_value`].
    pub fn min_numeric_value(mut self, value: i64) -> NodeBuilder
        ensures { result ≡ changed (λ d. record d { min_numeric_value = Some value }) self }
    {
        self.node.set_min_numeric_value(value);
        self
    }

    /// Sets [`Node::max_numeric_value`].
    pub fn max_numeric_value(mut self, value: i64) -> NodeBuilder
        ensures { result ≡ changed (λ d. record d { max_numeric_value = Some value }) self }
    {
        self.node.set_max_numeric_value(value);
        self
    }

    /// Sets [`Node::numeric_value_step`].
    pub fn numeric_value_step(mut self, value: i64) -> NodeBuilder
        ensures { result ≡ changed (λ d. record d { numeric_value_step = Some value }) self }
    {
        self.node.set_numeric_value_step(value);
        self
    }

    /// Sets [`Node::bounds`].
    pub fn bounds(mut self, value: Rect) -> NodeBuilder
        ensures { result ≡ changed (λ d. record d { bounds = Some value }) self }
    {
        self.node.set_bounds(value);
        self
    }

    /// Sets [`Node::transform`].
    pub fn transform(mut self, value: Translation) -> NodeBuilder
        ensures { result ≡ changed (λ d. record d { transform = Some value }) self }
    {
        self.node.set_transform(value);
        self
    }

    /// Sets [`Node::active_descendant`].
    pub fn active_descendant(mut self, id: NodeId) -> NodeBuilder
        ensures { result ≡ changed (λ d. record d { active_descendant = Some id }) self }
    {
        self.node.set_active_descendant(id);
        self
    }

    /// Sets [`Node::previous_on_line`].
    pub fn previous_on_line(mut self, id: NodeId) -> NodeBuilder
        ensures { result ≡ changed (λ d. record d { previous_on_line = Some id }) self }
    {
        self.node.set_previous_on_line(id);
        self
    }

    /// Sets [`Node::next_on_line`].
    pub fn next_on_line(mut self, id: NodeId) -> NodeBuilder
        ensures { result ≡ changed (λ d. record d { next_on_line = Some id }) self }
    {
        self.node.set_next_on_line(id);
        self
    }

    /// Sets [`Node::tree_id`].
    pub fn tree_id(mut self, id: TreeId) -> NodeBuilder
        ensures { result ≡ changed (λ d. record d { tree_id = Some id }) self }
    {
        self.node.set_tree_id(id);
        self
    }

    /// Sets [`Node::text_selection`].
    pub fn text_selection(mut self, value: TextSelection) -> NodeBuilder
        ensures { result ≡ changed (λ d. record d { text_selection = Some value }) self }
    {
        self.node.set_text_selection(value);
        self
    }

    /// Sets [`Node::text_direction`].
    pub fn text_direction(mut self, value: TextDirection) -> NodeBuilder
        ensures { result ≡ changed (λ d. record d { text_direction = Some value }) self }
    {
        self.node.set_text_direction(value);
        self
    }

    /// Adds an action that the node supports, as [`Node::add_action`] does.
    pub fn action(mut self, action: Action) -> NodeBuilder
        ensures { result ≡ changed (λ d. record d { actions = with_action d.actions action }) self }
    {
        self.node.add_action(action);
        self
    }

    /// Adds an action that each child supports, as [`Node::add_child_action`] does.
    pub fn child_action(mut self, action: Action) -> NodeBuilder
        ensures { result ≡ changed (λ d. record d { child_actions = with_action d.child_actions action }) self }
    {
        self.node.add_child_action(action);
        self
    }
}
