//! What is computed of a node: numbers, other nodes, and whether it supports an action.
ghost use Rattle.std.specs.Prelude.{◌≡◌, Some, option_map};
ghost use Rattle.model.specs.Filters.{filter_named};
ghost use Rattle.model.specs.FocusFound.{active_descendant};
ghost use Rattle.model.specs.Forest.{place_of};
ghost use Rattle.model.specs.Views.{selection_container, supports_action};
ghost use Rattle.views.specs.Counted.{filtered_child};
ghost use Rattle.views.specs.Nodes.{world_at, id_at};
ghost use Rattle.fed_tree.specs.Reads.{read_of};
ghost use Rattle.fed_tree.specs.Computed.{count_of, relative_of};

use crate::feeding::FedTree;
use model::{FullNodeId, NamedFilter};
use schema::Action;
use session::answer_by;
use views::NodeRef;

/// A number that is computed of a node. Those by a filter say so.
#[derive(Clone, Copy)]
pub enum Count {
    /// How many children it has.
    Children,
    /// Its index among the children of its parent, counted from 0.
    Index,
    /// How many nodes the filter shows in place of its children.
    FilteredChildren,
    /// Its index, counted from 0, among those that the filter shows in place of the children of its filtered parent.
    FilteredIndex,
    /// The size of its set: as sent, or else how many nodes of its role the filter shows beside it, itself included.
    SetSize,
    /// Its position in its set, counted from 0: as sent, or else how many of those are before it.
    SetPosition,
    /// The size of the set, from the nearest ancestor that the filter includes and that has one.
    ContainerSetSize,
}

/// Another node that is found from a node. Those by a filter say so.
#[derive(Clone, Copy)]
pub enum Relative {
    /// The node that it names as its active descendant, if that exists.
    ActiveDescendant,
    /// Its first child, the first child of that, and so on.
    DeepestFirstChild,
    /// Its last child, the last child of that, and so on.
    DeepestLastChild,
    /// The nearest ancestor that the filter includes and whose children can be selected.
    SelectionContainer,
}

impl FedTree {
    /// The number; `None` if the node has no such number, or if the tree doesn't have the node.
    #[tactic(auto, using(crate::proofs::Found::read_found, crate::proofs::Found::read_missing))]
    pub fn count(&self, id: FullNodeId, count: Count, filter: NamedFilter) -> Option<usize>
        ensures { result ≡ read_of self.now.world id (λ w node. count_of count (filter_named filter w) w id) }
    {
        count_of(self.node(id)?, count, filter)
    }

    /// The other node; `None` if it doesn't exist, or if the tree doesn't have the node.
    #[tactic(auto, using(crate::proofs::Found::read_found, crate::proofs::Found::read_missing))]
    pub fn relative(
        &self,
        id: FullNodeId,
        relative: Relative,
        filter: NamedFilter,
    ) -> Option<FullNodeId>
        ensures { result ≡ read_of self.now.world id (λ w node. relative_of relative (filter_named filter w) w id) }
    {
        relative_of(self.node(id)?, relative, filter)
    }

    /// The node at an index, counted from 0, among those that the filter shows in place of the node's children; `None` past their end,
    /// or if the tree doesn't have the node.
    #[tactic(auto, using(crate::proofs::Found::read_found, crate::proofs::Found::read_missing))]
    pub fn filtered_child(
        &self,
        id: FullNodeId,
        index: usize,
        filter: NamedFilter,
    ) -> Option<FullNodeId>
        ensures { result ≡ read_of self.now.world id (λ w node. filtered_child index (filter_named filter w) w id) }
    {
        child_id(self.node(id)?, index, filter)
    }

    /// Whether the node supports the action, or its filtered parent supports it for its children; `None` if the tree doesn't have the
    /// node.
    #[tactic(auto, using(crate::proofs::Found::read_found, crate::proofs::Found::read_missing))]
    pub fn supports_action(
        &self,
        id: FullNodeId,
        action: Action,
        filter: NamedFilter,
    ) -> Option<bool>
        ensures { result ≡ read_of self.now.world id (λ w node. Some (supports_action action (filter_named filter w) w id)) }
    {
        let node = self.node(id)?;
        Some(supports(node, action, filter))
    }
}

/// The number of a node.
fn count_of(node: NodeRef<'_>, count: Count, filter: NamedFilter) -> Option<usize>
    ensures { let w = world_at node.entry in
        result ≡ count_of count (filter_named filter w) w (id_at node.entry) }
{
    let shown = move |seen: &NodeRef<'_>| answer_by(filter, seen);
    match count {
        Count::Children => Some(node.child_ids().len()),
        Count::Index => index_of(node),
        Count::FilteredChildren => Some(node.filtered_child_count(&shown)),
        Count::FilteredIndex => node.filtered_index(&shown),
        Count::SetSize => node.computed_size_of_set(&shown),
        Count::SetPosition => node.computed_position_in_set(&shown),
        Count::ContainerSetSize => node.size_of_set_from_container(&shown),
    }
}

/// The node's index among the children of its parent.
fn index_of(node: NodeRef<'_>) -> Option<usize>
    ensures { let w = world_at node.entry in result ≡ option_map (λ place. place.1) (place_of w (id_at node.entry)) }
{
    let (_, index) = node.parent_and_index()?;
    Some(index)
}

/// The id of another node.
fn relative_of(node: NodeRef<'_>, relative: Relative, filter: NamedFilter) -> Option<FullNodeId>
    ensures { let w = world_at node.entry in
        result ≡ relative_of relative (filter_named filter w) w (id_at node.entry) }
{
    match relative {
        Relative::ActiveDescendant => active_id(node),
        Relative::DeepestFirstChild => Some(node.deepest_first_child()?.id()),
        Relative::DeepestLastChild => Some(node.deepest_last_child()?.id()),
        Relative::SelectionContainer => container_id(node, filter),
    }
}

/// The id of the active descendant.
#[tactic(auto, using(crate::proofs::Focusing::active_missing))]
fn active_id(node: NodeRef<'_>) -> Option<FullNodeId>
    ensures { result ≡ active_descendant (world_at node.entry) (id_at node.entry) }
{
    let found = node.active_descendant()?;
    Some(found.id())
}

/// The id of the selection container.
fn container_id(node: NodeRef<'_>, filter: NamedFilter) -> Option<FullNodeId>
    ensures { let w = world_at node.entry in
        result ≡ selection_container (filter_named filter w) w (id_at node.entry) }
{
    let found = node.selection_container(&move |seen: &NodeRef<'_>| answer_by(filter, seen))?;
    Some(found.id())
}

/// The id of the node at an index among those that the filter shows.
fn child_id(node: NodeRef<'_>, index: usize, filter: NamedFilter) -> Option<FullNodeId>
    ensures { let w = world_at node.entry in
        result ≡ filtered_child index (filter_named filter w) w (id_at node.entry) }
{
    let found = node.filtered_child(index, &move |seen: &NodeRef<'_>| answer_by(filter, seen))?;
    Some(found.id())
}

/// Whether the node supports the action.
fn supports(node: NodeRef<'_>, action: Action, filter: NamedFilter) -> bool
    ensures { let w = world_at node.entry in
        result ≡ supports_action action (filter_named filter w) w (id_at node.entry) }
{
    node.supports_action(action, &move |seen: &NodeRef<'_>| answer_by(filter, seen))
}
