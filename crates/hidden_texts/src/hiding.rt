//! Whether a text, a value or a label may show what is typed into a password.
ghost use Rattle.std.specs.Prelude.{◌≡◌, All};
ghost use Rattle.std.specs.List.{list_any};
ghost use Rattle.model.specs.RoleClasses.{holds_text, is_document};
ghost use Rattle.model.specs.TextRuns.{has_runs, sent_runs};
ghost use Rattle.views.specs.AllNodes.{descendants_left};
ghost use Rattle.views.specs.LabelWalks.{labels_left};
ghost use Rattle.views.specs.Nodes.{world_at, id_at, data_at};
ghost use Rattle.hidden_texts.specs.Hidden.{password_filter, is_in_password, holds_password, hides_text, is_valued_by_runs, hides_value, hides_part, hides_label};
ghost use Rattle.hidden_texts.specs.Known.{AreRightIf, IsKnownAt};
ghost use Rattle.hidden_texts.specs.Walked.{is_password_node, hides_part_of};

use crate::passwords::{Passwords, is_within};
use schema::Role;
use views::NodeRef;
use views::runs::Run;
use views::walks::{Descendants, FilterResult, LabelledBy};

/// The filter that includes password inputs alone.
fn password_inputs(node: &NodeRef<'_>) -> FilterResult
    ensures { result ≡ password_filter (world_at node.now) (id_at node.now) }
{
    if node.is_password_input() {
        return FilterResult::Include;
    }
    FilterResult::ExcludeNode
}

/// Whether an ancestor of the node is a password input.
pub fn is_in_password(node: &NodeRef) -> bool
    ensures { result ≡ is_in_password (world_at node.now) (id_at node.now) }
{
    node.filtered_parent(&password_inputs).is_some()
}

/// Whether one of these nodes is a password input.
fn has_password_input(below: Descendants<'_>) -> bool
    ensures { result ≡ list_any is_password_node (descendants_left below.entry) }
{
    let mut nodes = below;
    while let Some(node) = nodes.next() {
        if node.is_password_input() {
            return true;
        }
    }
    false
}

/// Whether the node holds text that is read and not edited.
fn is_document(node: &NodeRef) -> bool
    ensures { result ≡ is_document (data_at node.now).role }
{
    matches!(node.role(), Role::Document | Role::Terminal)
}

/// Whether the node's role is one whose runs can make a text.
fn holds_text(node: &NodeRef) -> bool
    ensures { result ≡ holds_text (data_at node.now).role }
{
    node.is_text_input() || is_document(node) || node.label_comes_from_value()
}

/// Whether the node's role is such, and it has a run.
fn has_runs(node: &NodeRef) -> bool
    ensures { let w = world_at node.now in let id = id_at node.now in
        result ≡ has_runs w id (sent_runs w id) }
{
    holds_text(node) && Run::first(*node).is_some()
}

/// Whether the runs of a password may be among the node's runs.
fn holds_password(node: &NodeRef) -> bool
    ensures { result ≡ holds_password (world_at node.now) (id_at node.now) }
{
    has_runs(node) && has_password_input(node.descendants())
}

/// Whether the text of the node's runs may show what is typed into a password: it is in one, or one is in it. Of the text
/// of a password itself a bullet may be shown for each character.
pub fn hides_text(node: &NodeRef) -> bool
    ensures { result ≡ hides_text (world_at node.now) (id_at node.now) }
{
    is_in_password(node) || holds_password(node)
}

/// Whether the node's value is that of its runs, if they make one.
fn is_valued_by_runs(node: &NodeRef) -> bool
    ensures { result ≡ is_valued_by_runs (world_at node.now) (id_at node.now) }
{
    node.is_password_input() || node.raw_value().is_none()
}

/// Whether the node's value may show what is typed into a password: it is in one, or one is in it and the value is that
/// of its runs. Of the value of a password itself a bullet may be shown for each character.
pub fn hides_value(node: &NodeRef) -> bool
    ensures { result ≡ hides_value (world_at node.now) (id_at node.now) }
{
    hides_value_by(node, None)
}

/// The same, by what is known of its state, if something is.
fn hides_value_by(node: &NodeRef, known: Option<&Passwords>) -> bool
    requires { AreRightIf (world_at node.now) known }
    ensures { result ≡ hides_value (world_at node.now) (id_at node.now) }
{
    is_within(node, known) || (is_valued_by_runs(node) && holds_password(node))
}

/// Whether the node's part of another node's label may show what is typed into a password.
fn hides_part(node: &NodeRef, known: Option<&Passwords>) -> bool
    requires { AreRightIf (world_at node.now) known }
    ensures { result ≡ hides_part (world_at node.now) (id_at node.now) }
{
    if node.label_comes_from_value() {
        return hides_value_by(node, known);
    }
    is_within(node, known)
}

/// Whether the part of one of these nodes may show it.
fn has_hidden_part(labels: LabelledBy<'_>, known: Option<&Passwords>) -> bool
    requires { All (IsKnownAt known) (labels_left labels) }
    ensures { result ≡ list_any hides_part_of (labels_left labels.entry) }
{
    let mut nodes = labels;
    while let Some(node) = nodes.next() {
        if hides_part(&node, known) {
            return true;
        }
    }
    false
}

/// Whether the node's label may show what is typed into a password: it is in one, or has no label of its own and a node
/// that labels it is in one, or is a label whose value may show it.
pub fn hides_label(node: &NodeRef) -> bool
    ensures { result ≡ hides_label (world_at node.now) (id_at node.now) }
{
    hides_label_by(node, None)
}

/// The same, by what is known of its state, if something is.
pub(crate) fn hides_label_by(node: &NodeRef, known: Option<&Passwords>) -> bool
    requires { AreRightIf (world_at node.now) known }
    ensures { result ≡ hides_label (world_at node.now) (id_at node.now) }
{
    if is_within(node, known) {
        return true;
    }
    if node.data().label().is_some() {
        return false;
    }
    has_hidden_part(node.labelled_by(), known)
}
