//! What helps to find a node: the labels of a role, and the roles that there are.
ghost use Rattle.std.specs.Prelude.{◌≡◌, ◌++◌, IfOk, Some, map, option_map, string_bytes};
ghost use Rattle.std.specs.Option.{option_to_list};
ghost use Rattle.queries.specs.Near.{label_by, labels_of, roles_of, with_role, IsNear};

use crate::error::Near;
use crate::fits::has_role;
use accesskit_consumer::node::NodeRef;
use schema::Role;
use std::alloc::{AllocError, Global};

/// The node's label, if it has the role.
fn label_by(alloc: Global, node: NodeRef<'_>, role: Role) -> Result<Option<String>, AllocError>
    ensures { IfOk result (λ label. option_map string_bytes label ≡ label_by role node.entry) }
{
    if has_role(node, Some(role)) {
        node.label(alloc)
    } else {
        Ok(None)
    }
}

/// Adds the label, if there is one.
fn add_label(labels: &mut Vec<String>, label: Option<String>) -> Result<(), AllocError>
    ensures { IfOk result (λ _. labels.new.items ≡ labels.old.items ++ option_to_list label) }
{
    match label {
        Some(label) => Ok(labels.push(label)?),
        None => Ok(()),
    }
}

/// The labels of those of these nodes that have the role and a label, in order.
fn labels_of(alloc: Global, nodes: &[NodeRef<'_>], role: Role) -> Result<Vec<String>, AllocError>
    ensures { IfOk result (λ labels. map string_bytes labels.items ≡ labels_of (Some role) nodes.now) }
{
    let mut labels = Vec::new(alloc);
    for node in nodes {
        let label = label_by(alloc, *node, role)?;
        add_label(&mut labels, label)?;
    }
    Ok(labels)
}

/// Adds the role, if it isn't among these.
fn add_role(roles: &mut Vec<Role>, role: Role) -> Result<(), AllocError>
    ensures { IfOk result (λ _. roles.new.items ≡ with_role roles.old.items role) }
{
    if !roles.contains(&role) {
        roles.push(role)?;
    }
    Ok(())
}

/// The roles of these nodes, each once, in the order in which they first come.
fn roles_of(alloc: Global, nodes: &[NodeRef<'_>]) -> Result<Vec<Role>, AllocError>
    ensures { IfOk result (λ roles. roles.items ≡ roles_of nodes.now) }
{
    let mut roles = Vec::new(alloc);
    for node in nodes {
        add_role(&mut roles, node.role())?;
    }
    Ok(roles)
}

/// The labels of the role if one of these nodes has it, and else their roles.
pub(crate) fn near(
    alloc: Global,
    nodes: &[NodeRef<'_>],
    role: Option<Role>,
) -> Result<Near, AllocError>
    ensures { IfOk result (λ near. IsNear role nodes.now near) }
{
    let roles = roles_of(alloc, nodes)?;
    let Some(role) = role else {
        return Ok(Near::Roles(roles));
    };
    if roles.contains(&role) {
        Ok(Near::Labels(labels_of(alloc, nodes, role)?))
    } else {
        Ok(Near::Roles(roles))
    }
}
