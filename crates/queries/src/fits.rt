//! Whether a node has what was asked for.
ghost use Rattle.std.specs.Prelude.{◌≡◌, ◌&&◌, true, IfOk, option_map, string_bytes};
ghost use Rattle.matching.specs.Matches.{is_match};
ghost use Rattle.views.specs.Nodes.{world_at, id_at, data_at};
ghost use Rattle.model.specs.Labels.{label_of};
ghost use Rattle.model.specs.Values.{value_of};
ghost use Rattle.queries.specs.Found.{text_of, holds_of, description_of, has_role, has_texts, fits};

use crate::by::Wanted;
use accesskit_consumer::node::NodeRef;
use matching::Matching;
use schema::Role;
use std::alloc::{AllocError, Global};

/// The text that the node shows: the value of a Label, and the label of any other node.
pub(crate) fn text_of(alloc: Global, node: NodeRef<'_>) -> Result<Option<String>, AllocError>
    ensures { IfOk result (λ text. option_map string_bytes text ≡ text_of (world_at node.entry) (id_at node.entry)) }
{
    if node.role() == Role::Label {
        node.value(alloc)
    } else {
        node.label(alloc)
    }
}

/// Whether the sought text, if one is sought, is the text that is there, so compared.
fn is_text(
    alloc: Global,
    how: Matching,
    sought: Option<&str>,
    own: &Option<String>,
) -> Result<bool, AllocError>
    ensures { IfOk result (λ is. is ≡ holds_of (is_match how) sought.entry (option_map string_bytes own.now)) }
{
    match (sought, own) {
        (None, _) => Ok(true),
        (Some(sought), Some(own)) => how.is_match(alloc, sought, own.as_str()),
        (Some(_), None) => Ok(false),
    }
}

/// The same comparison, for which a part is enough.
fn partly(how: Matching) -> Matching
    ensures { result ≡ record how { is_part = true } }
{
    let mut how = how;
    how.is_part = true;
    how
}

/// Whether the node has the role, if one is asked for.
pub(crate) fn has_role(node: NodeRef<'_>, role: Option<Role>) -> bool
    ensures { result ≡ has_role role (world_at node.entry) (id_at node.entry) }
{
    match role {
        Some(role) => node.role() == role,
        None => true,
    }
}

/// Whether the node has the label and the part of a label that are asked for. It isn't asked for its label otherwise.
fn has_label(alloc: Global, node: NodeRef<'_>, wanted: &Wanted<'_>) -> Result<bool, AllocError>
    ensures { let label = label_of (world_at node.entry) (id_at node.entry) in let how = wanted.now.matching in
        IfOk result (λ has. has ≡ holds_of (is_match how) wanted.now.label label
        && holds_of (is_match (record how { is_part = true })) wanted.now.label_part label) }
{
    if wanted.label.is_none() && wanted.label_part.is_none() {
        return Ok(true);
    }
    let own = node.label(alloc)?;
    let how = wanted.matching;
    Ok(
        is_text(alloc, how, wanted.label, &own)?
            && is_text(alloc, partly(how), wanted.label_part, &own)?,
    )
}

/// Whether the node shows the text, if one is asked for.
fn has_text(alloc: Global, node: NodeRef<'_>, wanted: &Wanted<'_>) -> Result<bool, AllocError>
    ensures { IfOk result (λ has. has ≡ holds_of (is_match wanted.now.matching) wanted.now.text (text_of (world_at node.entry) (id_at node.entry))) }
{
    Ok(
        wanted.text.is_none()
            || is_text(alloc, wanted.matching, wanted.text, &text_of(alloc, node)?)?,
    )
}

/// Whether the node has the value, if one is asked for.
fn has_value(alloc: Global, node: NodeRef<'_>, wanted: &Wanted<'_>) -> Result<bool, AllocError>
    ensures { IfOk result (λ has. has ≡ holds_of (is_match wanted.now.matching) wanted.now.value (value_of (world_at node.entry) (id_at node.entry))) }
{
    Ok(
        wanted.value.is_none()
            || is_text(alloc, wanted.matching, wanted.value, &node.value(alloc)?)?,
    )
}

/// Whether the node has the description, if one is asked for.
fn has_description(
    alloc: Global,
    node: NodeRef<'_>,
    wanted: &Wanted<'_>,
) -> Result<bool, AllocError>
    ensures { let description = description_of (world_at node.entry) (id_at node.entry) in
        IfOk result (λ has. has ≡ holds_of (is_match wanted.now.matching) wanted.now.description description) }
{
    Ok(
        wanted.description.is_none()
            || is_text(
                alloc,
                wanted.matching,
                wanted.description,
                &node.description(alloc)?,
            )?,
    )
}

/// Whether the node has the texts that are asked for.
fn has_texts(alloc: Global, node: NodeRef<'_>, wanted: &Wanted<'_>) -> Result<bool, AllocError>
    ensures { IfOk result (λ has. has ≡ has_texts wanted.now (world_at node.entry) (id_at node.entry)) }
{
    Ok(
        has_label(alloc, node, wanted)?
            && has_text(alloc, node, wanted)?
            && has_value(alloc, node, wanted)?
            && has_description(alloc, node, wanted)?,
    )
}

/// Whether the node has the role and the texts that are asked for.
pub(crate) fn fits(
    alloc: Global,
    node: NodeRef<'_>,
    wanted: &Wanted<'_>,
) -> Result<bool, AllocError>
    ensures { IfOk result (λ fit. fit ≡ fits wanted.now (world_at node.entry) (id_at node.entry)) }
{
    if !has_role(node, wanted.role) {
        return Ok(false);
    }
    has_texts(alloc, node, wanted)
}
