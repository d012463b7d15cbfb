//! What is searched for, and whether a node has it.

ghost use Rattle.std.specs.Prelude.{◌≡◌};
ghost use Rattle.views.specs.Nodes.{data_at};
ghost use Rattle.find.specs.Wanted.{has_role, is_level, is_role, sought_of};

use accesskit_consumer::node::NodeRef;
use aria_roles::has_aria_name;
use matching::Matching;
use schema::Role;

/// The roles that are searched for.
#[derive(Clone, Copy)]
pub(crate) enum Roles {
    /// This role.
    One(Role),
    /// Each role that has this name in ARIA.
    Aria(&'static str),
    /// Each role.
    Any,
}

/// In which of a script's trees is searched.
#[derive(Clone, Copy)]
pub(crate) enum When {
    /// In the one that the script leaves.
    AtEnd,
    /// In the one after the update with this number.
    After(u64),
    /// In the one after each update.
    Each,
}

/// What is searched for: what a node has to have. Of what isn't asked for it is `None`.
#[derive(Drop)]
pub(crate) struct Wanted {
    pub(crate) roles: Roles,
    /// The level in a hierarchy, as that of a heading.
    pub(crate) level: Option<usize>,
    pub(crate) label: Option<String>,
    /// The value, which may be made of the node's runs.
    pub(crate) text: Option<String>,
    /// One of the label, the value, the placeholder and the description.
    pub(crate) any: Option<String>,
    /// How these texts are compared with those of a node.
    pub(crate) matching: Matching,
    /// Whether one or more nodes may be found, in place of exactly one.
    pub(crate) any_number: bool,
    pub(crate) when: When,
}

/// Whether a role is one of these.
fn is_role(roles: Roles, role: Role) -> bool
    ensures { result ≡ is_role roles role }
{
    match roles {
        Roles::One(sought) => role == sought,
        Roles::Aria(name) => has_aria_name(role, name),
        Roles::Any => true,
    }
}

/// Whether a level is the sought one, if one is sought.
fn is_level(sought: Option<usize>, own: Option<usize>) -> bool
    ensures { result ≡ is_level sought own }
{
    match (sought, own) {
        (None, _) => true,
        (Some(sought), Some(own)) => own == sought,
        (Some(_), None) => false,
    }
}

/// Whether the node has the role and the level.
pub(crate) fn has_role(node: NodeRef, wanted: &Wanted) -> bool
    ensures { result ≡ has_role (sought_of wanted.now) (data_at node.entry) }
{
    is_role(wanted.roles, node.role()) && is_level(wanted.level, node.data().level())
}
