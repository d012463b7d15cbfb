//! What of a node's texts may show what is typed into a password.
ghost use Rattle.std.specs.Prelude.{◌≡◌, ◌||◌, [], false, IfSome};
ghost use Rattle.std.specs.List.{list_any};
ghost use Rattle.model.specs.RoleClasses.{holds_text, is_document as is_document_role};
ghost use Rattle.hidden_texts.specs.Hidden.{is_in_password as stands_in_password, hides_label, hides_value};
ghost use Rattle.views.specs.LabelWalks.{labels_left};
ghost use Rattle.views.specs.Nodes.{world_at, id_at, data_at};
ghost use Rattle.page_states.specs.Laws.{TextsMayBeShown, TypingSaysTheSame};
ghost use Rattle.page_states.specs.Places.{IsOpenUnless, is_password_at};
ghost use Rattle.page_states.specs.Said.{hidden_at};
ghost use Rattle.page_states.specs.Sources.{IsCarried};

use crate::sources::{Source, reads_runs};
use hidden_texts::{hides_label, hides_value, is_in_password};
use schema::Role;
use views::NodeRef;
use views::walks::LabelledBy;

/// Which of a node's texts are hidden, since they may show what is typed into a password.
#[derive(Clone, Copy)]
pub struct Hidden {
    pub label: bool,
    pub value: bool,
}

/// Which of the node's texts are hidden.
pub(crate) fn hidden_of(node: &NodeRef) -> Hidden
    ensures { result ≡ hidden_at (world_at node.now) (id_at node.now) }
{
    hidden_below(node, is_in_password(node), None)
}

/// Whether one of these nodes is a password input.
pub(crate) fn has_password(nodes: &[NodeRef<'_>]) -> bool
    ensures { result ≡ list_any is_password_at nodes.now }
{
    let mut has_one = false;
    for node in nodes {
        has_one = either(has_one, node.is_password_input());
    }
    has_one
}

/// Whether one of these holds.
fn either(one: bool, other: bool) -> bool
    ensures { result ≡ (one || other) }
{
    one || other
}

/// The same of a node of which it is known whether an ancestor is a password input, and whether its state has any: where it
/// has no password, nothing is hidden. Its source may be known.
pub(crate) fn hidden_where(
    node: &NodeRef,
    has_password: bool,
    is_in_password: bool,
    source: Option<Source>,
) -> Hidden
    requires open { IsOpenUnless has_password (world_at node.now) }
    requires within { is_in_password ≡ stands_in_password (world_at node.now) (id_at node.now) }
    requires source { IfSome source (IsCarried (world_at node.now) (id_at node.now)) }
    ensures { result ≡ hidden_at (world_at node.now) (id_at node.now) }
{
    if has_password {
        return hidden_below(node, is_in_password, source);
    }
    Hidden {
        label: false,
        value: false,
    }
}

/// The same of a node of which it is known whether an ancestor is a password input.
fn hidden_below(node: &NodeRef, is_in_password: bool, source: Option<Source>) -> Hidden
    requires within { is_in_password ≡ stands_in_password (world_at node.now) (id_at node.now) }
    requires source { IfSome source (IsCarried (world_at node.now) (id_at node.now)) }
    ensures { result ≡ hidden_at (world_at node.now) (id_at node.now) }
{
    if is_in_password {
        return Hidden {
            label: true,
            value: true,
        };
    }
    Hidden {
        label: hides_label_outside(node),
        value: hides_value_outside(node, source),
    }
}

/// Whether the label of a node that isn't in a password is hidden. Only that of a node with others that label it can be.
fn hides_label_outside(node: &NodeRef) -> bool
    requires { stands_in_password (world_at node.now) (id_at node.now) ≡ false }
    ensures { result ≡ hides_label (world_at node.now) (id_at node.now) }
{
    if has_label_node(node.labelled_by()) {
        return hides_label(node);
    }
    false
}

/// Whether the walk has a node.
fn has_label_node(labels: LabelledBy<'_>) -> bool
    ensures { result ≡ false → labels_left labels.entry ≡ [] }
{
    let mut nodes = labels;
    match nodes.next() {
        Some(_) => true,
        None => false,
    }
}

/// Whether the value of a node that isn't in a password is hidden. Only that of a node with a text of runs can be. Where the
/// node has the value of its source, it is hidden if that of the source is.
fn hides_value_outside(node: &NodeRef, source: Option<Source>) -> bool
    requires outside { stands_in_password (world_at node.now) (id_at node.now) ≡ false }
    requires source { IfSome source (IsCarried (world_at node.now) (id_at node.now)) }
    ensures { result ≡ hides_value (world_at node.now) (id_at node.now) }
{
    if may_hold_text(node) {
        return hides_value_by(node, source);
    }
    false
}

/// Whether the value of a node is hidden, by that of its source if it is known.
fn hides_value_by(node: &NodeRef, source: Option<Source>) -> bool
    requires { IfSome source (IsCarried (world_at node.now) (id_at node.now)) }
    ensures { result ≡ hides_value (world_at node.now) (id_at node.now) }
{
    match source {
        Some(source) => hides_with(node, source),
        None => hides_value(node),
    }
}

/// Whether the value of a node with this source is hidden.
fn hides_with(node: &NodeRef, source: Source) -> bool
    requires { IsCarried (world_at node.now) (id_at node.now) source }
    ensures { result ≡ hides_value (world_at node.now) (id_at node.now) }
{
    if reads_runs(node) {
        return source.is_hidden;
    }
    hides_value(node)
}

/// Whether the runs of a node with this role can make a text.
pub(crate) fn may_hold_text(node: &NodeRef) -> bool
    ensures { result ≡ holds_text (data_at node.now).role }
{
    node.is_text_input() || is_document(node) || node.label_comes_from_value()
}

/// Whether the node holds text that is read and not edited.
fn is_document(node: &NodeRef) -> bool
    ensures { result ≡ is_document_role (data_at node.now).role }
{
    matches!(node.role(), Role::Document | Role::Terminal)
}

/// A law: a page shows the label and the value of a node that `hidden_texts` lets it show.
#[tactic(auto, using(crate::proofs::SaidAlike::texts_may_be_shown))]
pub(crate) fn texts_may_be_shown()
    ensures { TextsMayBeShown }
{}

/// A law: a page says the same of each node of two worlds that differ in what is typed into a password alone.
pub(crate) fn typing_says_the_same()
    ensures { TypingSaysTheSame }
{}
