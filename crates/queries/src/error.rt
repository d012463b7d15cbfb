//! Why a query didn't find its node, with what helps to find it.
ghost use Rattle.std.specs.Prelude.{◌≡◌, IfOk, Some, flat_map, option_map, string_bytes};
ghost use Rattle.queries.specs.declared.error.QueryError.TheVariants.{Memory};
ghost use Rattle.queries.specs.Messages.{what_text, asked_text, sought_text, spaced_label, spaced_role, spaced_id, near_text, error_text};
ghost use Rattle.queries.specs.Outcomes.{IsCopy, Tells};

use crate::by::Wanted;
use accesskit_consumer::node::FullNodeId;
use phrases::Quoted;
use schema::Role;
use std::alloc::{AllocError, Global};
use std::error::Error;
use std::fmt;

/// What a query asked for.
#[derive(Debug, Drop)]
pub struct Sought {
    pub role: Option<Role>,
    pub label: Option<String>,
    pub label_part: Option<String>,
    pub text: Option<String>,
    pub value: Option<String>,
    pub description: Option<String>,
}

/// What there is in place of a node that wasn't found.
#[derive(Debug, Drop)]
pub enum Near {
    /// The labels of the searched nodes that have the role that was asked for, in order. There is at least one such node.
    Labels(Vec<String>),
    /// The roles of the searched nodes, each once, in the order in which they first come.
    Roles(Vec<Role>),
}

/// Why a query gives no node.
#[derive(Debug, Drop)]
pub enum QueryError {
    /// No searched node fits.
    NotFound {
        sought: Sought,
        near: Near,
    },
    /// More than one node fits: these.
    Several {
        sought: Sought,
        found: Vec<FullNodeId>,
    },
    /// Memory ran out.
    Memory,
}

impl From<AllocError> for QueryError {
    ghost from_gives = { λ _ e. e ≡ Memory };

    fn from(_error: AllocError) -> QueryError {
        QueryError::Memory
    }
}

/// A copy of a text, if there is one.
fn copied(alloc: Global, text: Option<&str>) -> Result<Option<String>, AllocError>
    ensures { IfOk result (λ copy. IsCopy text.entry copy) }
{
    match text {
        Some(text) => Ok(Some(String::from_str(alloc, text)?)),
        None => Ok(None),
    }
}

impl Sought {
    /// A copy of what is wanted.
    pub(crate) fn of(alloc: Global, wanted: &Wanted<'_>) -> Result<Sought, AllocError>
        ensures { IfOk result (λ sought. Tells wanted.now sought) }
    {
        Ok(Sought {
            role: wanted.role,
            label: copied(alloc, wanted.label)?,
            label_part: copied(alloc, wanted.label_part)?,
            text: copied(alloc, wanted.text)?,
            value: copied(alloc, wanted.value)?,
            description: copied(alloc, wanted.description)?,
        })
    }
}

/// The name of a role, or `node` if none is asked for.
#[derive(Clone, Copy)]
struct What(Option<Role>);

impl fmt::Display for What {
    ghost output = { λ s. Some (what_text s.0) };

    fn fmt<W: fmt::Write>(&self, f: &mut fmt::Formatter<W>) -> fmt::Result {
        match self.0 {
            Some(role) => write!(f, "{role}"),
            None => f.write_str("node"),
        }
    }
}

/// A text in quotes with a word for what it is, after a comma, if there is one.
#[derive(Clone, Copy)]
struct Asked<'a> {
    what: &'static str,
    text: &'a Option<String>,
}

impl fmt::Display for Asked<'_> {
    ghost output = { λ s. Some (asked_text s.what.now (option_map string_bytes s.text.now)) };

    fn fmt<W: fmt::Write>(&self, f: &mut fmt::Formatter<W>) -> fmt::Result {
        match self.text {
            Some(text) => {
                let what = self.what;
                let text = Quoted(text.as_str());
                write!(f, ", {what} {text}")
            }
            None => Ok(()),
        }
    }
}

impl fmt::Display for Sought {
    ghost output = { λ s. Some (sought_text s) };

    fn fmt<W: fmt::Write>(&self, f: &mut fmt::Formatter<W>) -> fmt::Result {
        let what = What(self.role);
        let label = Asked {
            what: "label",
            text: &self.label,
        };
        let part = Asked {
            what: "label with",
            text: &self.label_part,
        };
        let text = Asked {
            what: "text",
            text: &self.text,
        };
        let value = Asked {
            what: "value",
            text: &self.value,
        };
        let description = Asked {
            what: "description",
            text: &self.description,
        };
        write!(f, "{what}{label}{part}{text}{value}{description}")
    }
}

/// Labels in quotes, each after a space.
#[derive(Clone, Copy)]
struct SpacedLabels<'a>(&'a [String]);

impl fmt::Display for SpacedLabels<'_> {
    ghost output = { λ s. Some (flat_map spaced_label s.0.now) };

    fn fmt<W: fmt::Write>(&self, f: &mut fmt::Formatter<W>) -> fmt::Result {
        for label in self.0 {
            let label = Quoted(label.as_str());
            write!(f, " {label}")?;
        }
        Ok(())
    }
}

/// Roles, each after a space.
#[derive(Clone, Copy)]
struct SpacedRoles<'a>(&'a [Role]);

impl fmt::Display for SpacedRoles<'_> {
    ghost output = { λ s. Some (flat_map spaced_role s.0.now) };

    fn fmt<W: fmt::Write>(&self, f: &mut fmt::Formatter<W>) -> fmt::Result {
        for role in self.0 {
            let role = *role;
            write!(f, " {role}")?;
        }
        Ok(())
    }
}

/// The numbers of nodes, each after a space.
#[derive(Clone, Copy)]
struct SpacedIds<'a>(&'a [FullNodeId]);

impl fmt::Display for SpacedIds<'_> {
    ghost output = { λ s. Some (flat_map spaced_id s.0.now) };

    fn fmt<W: fmt::Write>(&self, f: &mut fmt::Formatter<W>) -> fmt::Result {
        for id in self.0 {
            let node = id.node;
            write!(f, " {node}")?;
        }
        Ok(())
    }
}

impl fmt::Display for Near {
    ghost output = { λ s. Some (near_text s) };

    fn fmt<W: fmt::Write>(&self, f: &mut fmt::Formatter<W>) -> fmt::Result {
        match self {
            Near::Labels(labels) => {
                let labels = SpacedLabels(labels);
                write!(f, "the labels of this role are{labels}")
            }
            Near::Roles(roles) => {
                let roles = SpacedRoles(roles);
                write!(f, "the roles are{roles}")
            }
        }
    }
}

/// Says in one line what was asked for, and what there is in its place.
impl fmt::Display for QueryError {
    ghost output = { λ s. Some (error_text s) };

    fn fmt<W: fmt::Write>(&self, f: &mut fmt::Formatter<W>) -> fmt::Result {
        match self {
            QueryError::NotFound { sought, near } => write!(f, "no {sought}; {near}"),
            QueryError::Several { sought, found } => {
                let count = found.len();
                let ids = SpacedIds(found);
                write!(f, "{count} nodes fit {sought}:{ids}")
            }
            QueryError::Memory => f.write_str("memory ran out"),
        }
    }
}

impl Error for QueryError {}
