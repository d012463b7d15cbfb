//! Answers to queries, one function for each kind.
ghost use Rattle.std.specs.Prelude.{◌≡◌, IsTrue, IfOk, OnErr, IfSome, option_map};
ghost use Rattle.model.specs.State.{IsState};
ghost use Rattle.model.specs.Geometry.{hit};
ghost use Rattle.model.specs.Filters.{filter_named};
ghost use Rattle.model.specs.FocusFound.{shown_focus};
ghost use Rattle.model.specs.Queries.{node_named, takes_memory};
ghost use Rattle.model.specs.declared.queries.Query.TheVariants.{Set as ToSet};
ghost use Rattle.views.specs.ShownWorlds.{world_of};
ghost use Rattle.views.specs.Nodes.{world_at, id_at};
ghost use Rattle.session.specs.Replied.{subject, IsAbout, IsAnswer, IsAnswerAt};

use crate::commands::Reply;
use crate::named::answer_by;
use crate::text_answers::{indexes, movement, range_text, text_in_runs};
use crate::walked::{
    child_ids, filtered_ids, following_filtered_ids, following_ids, preceding_filtered_ids,
    preceding_ids,
};
use accesskit_consumer::{NodeRef, StateRef};
use model::{FullNodeId, NamedFilter, NodeName, Query};
use schema::Point;
use std::alloc::{AllocError, Global};

/// The node with this name, if it is in the state.
#[tactic(auto, using(crate::proofs::Naming::found_is_named))]
fn named_node<'a>(state: StateRef<'a>, name: NodeName) -> Option<NodeRef<'a>>
    requires { IsState (world_of state) }
    ensures world { IfSome result (λ node. world_at node ≡ world_of state.entry) }
    ensures node { option_map id_at result ≡ node_named (world_of state.entry) name }
{
    state.node_by_tree_local_id(name.0, name.1)
}

/// The id of the focus.
#[tactic(auto, using(crate::proofs::Naming::focus_is_shown))]
fn focus_id(state: StateRef) -> Option<FullNodeId>
    requires { IsState (world_of state) }
    ensures { result ≡ shown_focus (world_of state.entry) }
{
    state.focus().map(|node| node.id())
}

/// The id of the node hit at a point, given in the coordinates of the node and in units of 1/64 pixel: the last one in pre-order, among
/// the node and those below it, that the filter includes and whose rectangle contains the point.
pub fn hit_id(node: NodeRef, point: Point, filter: NamedFilter) -> Option<FullNodeId>
    ensures { let w = world_at node.entry in
        result ≡ hit (filter_named filter w) w (id_at node.entry) point }
{
    let found = node.node_at_point(point, &move |seen: &NodeRef<'_>| answer_by(filter, seen))?;
    Some(found.id())
}

/// The size of the node's set, and the position in it.
fn counted_set(node: NodeRef, filter: NamedFilter) -> Reply
    ensures { IsAnswerAt (world_at node.entry) (id_at node.entry) (λ name. ToSet name filter) result }
{
    let shown = move |seen: &NodeRef<'_>| answer_by(filter, seen);
    Reply::Set {
        size: node.computed_size_of_set(&shown),
        position: node.computed_position_in_set(&shown),
    }
}

/// The name of the node that a query is about; `None` for the query about the focus.
fn subject_of(query: &Query) -> Option<NodeName>
    ensures { result ≡ subject query.now }
{
    match query {
        Query::Focus => None,
        Query::Children(name)
        | Query::FollowingSiblings(name)
        | Query::PrecedingSiblings(name)
        | Query::FilteredChildren(name, _)
        | Query::FollowingFiltered(name, _)
        | Query::PrecedingFiltered(name, _)
        | Query::Label(name)
        | Query::Value(name)
        | Query::Set(name, _)
        | Query::Text(name)
        | Query::Hit(name, _, _)
        | Query::Move(name, _, _)
        | Query::Indexes(name, _)
        | Query::RangeText(name, _, _) => Some(*name),
    }
}

/// Answers a query about the node.
///
/// # Errors
///
/// Returns `AllocError` if memory for the answer runs out.
fn answer_about(alloc: Global, node: NodeRef, query: Query) -> Result<Reply, AllocError>
    requires { IsAbout (world_at node) (id_at node) query }
    ensures ok { IfOk result (IsAnswer (world_at node.entry) query) }
    ensures err { OnErr result (IsTrue (takes_memory query)) }
{
    match query {
        Query::Children(_) => Ok(Reply::Ids(child_ids(alloc, node)?)),
        Query::FollowingSiblings(_) => Ok(Reply::Ids(following_ids(alloc, node)?)),
        Query::PrecedingSiblings(_) => Ok(Reply::Ids(preceding_ids(alloc, node)?)),
        Query::FilteredChildren(_, filter) => Ok(Reply::Ids(filtered_ids(alloc, node, filter)?)),
        Query::FollowingFiltered(_, filter) => {
            Ok(Reply::Ids(following_filtered_ids(alloc, node, filter)?))
        }
        Query::PrecedingFiltered(_, filter) => {
            Ok(Reply::Ids(preceding_filtered_ids(alloc, node, filter)?))
        }
        Query::Label(_) => Ok(Reply::Text(node.label(alloc)?)),
        Query::Value(_) => Ok(Reply::Text(node.value(alloc)?)),
        Query::Set(_, filter) => Ok(counted_set(node, filter)),
        Query::Text(_) => Ok(Reply::Text(text_in_runs(alloc, node)?)),
        Query::Hit(_, point, filter) => Ok(Reply::Node(hit_id(node, point, filter))),
        Query::Move(_, at, by) => Ok(movement(node, at, by)),
        Query::Indexes(_, at) => Ok(indexes(node, at)),
        Query::RangeText(_, from, to) => range_text(alloc, node, from, to),
        Query::Focus => unreachable!(),
    }
}

/// Answers a query about a state.
///
/// # Errors
///
/// Returns `AllocError` if memory for the answer runs out.
pub(crate) fn answer(alloc: Global, state: StateRef, query: Query) -> Result<Reply, AllocError>
    requires { IsState (world_of state) }
    ensures ok { IfOk result (IsAnswer (world_of state.entry) query) }
    ensures err { OnErr result (IsTrue (takes_memory query)) }
{
    let Some(name) = subject_of(&query) else {
        return Ok(Reply::Node(focus_id(state)));
    };
    let Some(node) = named_node(state, name) else {
        return Ok(Reply::NoNode);
    };
    answer_about(alloc, node, query)
}
