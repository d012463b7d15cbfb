//! Nodes whose value is that of a node above them. Where nodes that show the text of their runs are in one another, each the
//! only child of the one before, all of them have the runs of the first: it alone is asked for them.
ghost use Rattle.std.specs.Prelude.{◌≡◌, ◌||◌, ◌↔◌, [], ◌∷◌, Some, true, IfSome, IsTrue, option_map};
ghost use Rattle.model.specs.World.{children as children_of};
ghost use Rattle.model.specs.Forest.{place_of};
ghost use Rattle.model.specs.TextRuns.{is_password, is_run};
ghost use Rattle.views.specs.Nodes.{world_at, id_at, data_at};
ghost use Rattle.views.specs.PlainWalks.{child_ids_left};
ghost use Rattle.hidden_texts.specs.Hidden.{hides_value};
ghost use Rattle.page_states.specs.Known.{IsStepAbove};
ghost use Rattle.page_states.specs.Places.{IsOpenUnless};
ghost use Rattle.page_states.specs.Sources.{reads_runs as reads_its_runs, HasValueOf, IsCarried, IsPassed};

use crate::carried::Step;
use crate::secrets::may_hold_text;
use hidden_texts::hides_value;
use schema::Role;
use views::walks::ChildIds;
use views::{FullNodeId, NodeRef};

/// A node whose runs are those of another one below it, with what that hands on to its child.
#[derive(Clone, Copy)]
pub(crate) struct Source {
    pub id: FullNodeId,
    /// Whether the value of the source is hidden.
    pub is_hidden: bool,
    /// The only child of the node that has this source, if it has no other.
    pub only_child: Option<FullNodeId>,
}

/// The source of a node: that of its parent, or else the node itself, if it shows the text of its runs.
pub(crate) fn source_of(node: NodeRef, has_password: bool, above: Option<Step>) -> Option<Source>
    requires open { IsOpenUnless has_password (world_at node) }
    requires above { IsStepAbove (world_at node) (id_at node) above }
    ensures { IfSome result (IsCarried (world_at node.entry) (id_at node.entry)) }
{
    match passed_on(node, above) {
        Some(source) => Some(source),
        None => own_source(node, has_password),
    }
}

/// The source of the node's parent, if that is the node's too.
fn passed_on(node: NodeRef, above: Option<Step>) -> Option<Source>
    requires { IsStepAbove (world_at node) (id_at node) above }
    ensures { IfSome result (IsCarried (world_at node.entry) (id_at node.entry)) }
{
    match above {
        Some(step) => passed_by(node, step),
        None => None,
    }
}

/// The source of this step to the node's parent, if that is the node's too.
fn passed_by(node: NodeRef, above: Step) -> Option<Source>
    requires { IsStepAbove (world_at node) (id_at node) (Some above) }
    ensures { IfSome result (IsCarried (world_at node.entry) (id_at node.entry)) }
{
    match above.known.source {
        Some(source) => taken_on(node, above.id, source),
        None => None,
    }
}

/// The source of the node's parent, if that is the node's too.
fn taken_on(node: NodeRef, parent: FullNodeId, source: Source) -> Option<Source>
    requires parent { Some parent ≡ option_map (λ p. p.0) (place_of (world_at node) (id_at node)) }
    requires source { IsCarried (world_at node) parent source }
    ensures { IfSome result (IsCarried (world_at node.entry) (id_at node.entry)) }
{
    node.tree_state().know();
    if !is_passed(node, source) {
        return None;
    }
    Some(Source {
        id: source.id,
        is_hidden: source.is_hidden,
        only_child: only_child(node),
    })
}

/// Whether a node is the only child to which this source is handed on, in the same tree, and neither a run nor a password.
fn is_passed(node: NodeRef, source: Source) -> bool
    ensures { result ≡ true → IsPassed (world_at node.entry) (id_at node.entry) source }
{
    let id = node.id();
    if !is_that(source.only_child, id) {
        return false;
    }
    if !is_in_tree(id, source.id) {
        return false;
    }
    !ends_source(node)
}

/// Whether there is a node, and it is this one.
pub(crate) fn is_that(one: Option<FullNodeId>, id: FullNodeId) -> bool
    ensures { IsTrue result ↔ (one ≡ Some id) }
{
    match one {
        Some(one) => one == id,
        None => false,
    }
}

/// Whether the nodes are in one tree.
fn is_in_tree(one: FullNodeId, other: FullNodeId) -> bool
    ensures { IsTrue result ↔ (one.tree ≡ other.tree) }
{
    one.tree == other.tree
}

/// Whether a node is a run or a password, below which other nodes may be hidden, or have other runs.
fn ends_source(node: NodeRef) -> bool
    ensures { result ≡ (is_run (world_at node.entry) (id_at node.entry) || is_password (world_at node.entry) (id_at node.entry)) }
{
    matches!(node.role(), Role::TextRun) || node.is_password_input()
}

/// The node as its own source, if it shows the text of its runs.
fn own_source(node: NodeRef, has_password: bool) -> Option<Source>
    requires { IsOpenUnless has_password (world_at node) }
    ensures { IfSome result (IsCarried (world_at node.entry) (id_at node.entry)) }
{
    if !reads_runs(&node) {
        return None;
    }
    Some(Source {
        id: node.id(),
        is_hidden: is_hidden(&node, has_password),
        only_child: only_child(node),
    })
}

/// Whether the value of a node is hidden, in a state of which it is known whether it has a password.
fn is_hidden(node: &NodeRef, has_password: bool) -> bool
    requires { IsOpenUnless has_password (world_at node.now) }
    ensures { result ≡ hides_value (world_at node.now) (id_at node.now) }
{
    if has_password {
        return hides_value(node);
    }
    false
}

/// The child of a node that has no other.
fn only_child(node: NodeRef) -> Option<FullNodeId>
    ensures { IfSome result (λ child. children_of (world_at node.entry) (id_at node.entry) ≡ child ∷ []) }
{
    only_one(node.child_ids())
}

/// The id that the walk has, if it has no other.
fn only_one(ids: ChildIds<'_>) -> Option<FullNodeId>
    ensures { IfSome result (λ id. child_ids_left ids.entry ≡ id ∷ []) }
{
    let mut rest = ids;
    match rest.next() {
        Some(first) => one_if_last(first, rest),
        None => None,
    }
}

/// The id, if the walk has no other.
fn one_if_last(id: FullNodeId, others: ChildIds<'_>) -> Option<FullNodeId>
    ensures { IfSome result (λ one. (one ≡ id) × (child_ids_left others.entry ≡ [])) }
{
    let mut rest = others;
    match rest.next() {
        None => Some(id),
        Some(_) => None,
    }
}

/// Whether the value of a node is the text of its runs, if they make one, and is neither a password's nor of several lines.
pub(crate) fn reads_runs(node: &NodeRef) -> bool
    ensures { result ≡ reads_its_runs (data_at node.now) }
{
    (may_hold_text(node) && node.raw_value().is_none())
        && !(node.is_password_input() || node.is_multiline())
}

/// The node whose value is that of a node with this source, if there is one.
pub(crate) fn value_source(node: &NodeRef, source: Option<Source>) -> Option<FullNodeId>
    requires { IfSome source (IsCarried (world_at node.now) (id_at node.now)) }
    ensures { IfSome result (HasValueOf (world_at node.now) (id_at node.now)) }
{
    match source {
        Some(source) => source_if_read(node, source),
        None => None,
    }
}

/// The source of the node, if the node has its value.
fn source_if_read(node: &NodeRef, source: Source) -> Option<FullNodeId>
    requires { IsCarried (world_at node.now) (id_at node.now) source }
    ensures { IfSome result (HasValueOf (world_at node.now) (id_at node.now)) }
{
    if reads_runs(node) {
        return Some(source.id);
    }
    None
}
