//! What is searched for.
ghost use Rattle.std.specs.Prelude.{◌≡◌, true, false, Some, None};

use crate::condition::{AnyNode, CommonFilter, Meeting};
use accesskit_consumer::filters::FilterResult;
use accesskit_consumer::node::NodeRef;
use accesskit_consumer::walks::ByFn;
use matching::Matching;
use schema::Role;

/// The role and texts that a node has to have. What isn't asked for is `None`.
#[derive(Clone, Copy)]
pub(crate) struct Wanted<'t> {
    pub(crate) role: Option<Role>,
    pub(crate) label: Option<&'t str>,
    pub(crate) label_part: Option<&'t str>,
    pub(crate) text: Option<&'t str>,
    pub(crate) value: Option<&'t str>,
    pub(crate) description: Option<&'t str>,
    /// How these texts are compared with those of a node.
    pub(crate) matching: Matching,
}

/// A query: which nodes are searched, and what a node has to have. A node fits if it has all of what was asked for. Of two calls of
/// the same method the later one counts. Texts are compared as wholes, in their case, with spaces folded: any spaces, tabs and line
/// ends between two words are one space, and those at either end are none.
#[derive(Drop)]
pub struct By<'t, F, C> {
    pub(crate) wanted: Wanted<'t>,
    pub(crate) filter: F,
    pub(crate) condition: C,
}

impl<'t> By<'t, CommonFilter, AnyNode> {
    /// The query that each node fits, of those that the common filter shows.
    pub fn new() -> By<'t, CommonFilter, AnyNode>
        ensures texts { result.wanted ≡ record {
          role = None;
          label = None;
          label_part = None;
          text = None;
          value = None;
          description = None;
          matching = record { is_part = false; ignores_case = false; is_exact = false };
        } }
    {
        By {
            wanted: Wanted {
                role: None,
                label: None,
                label_part: None,
                text: None,
                value: None,
                description: None,
                matching: Matching::whole(),
            },
            filter: CommonFilter,
            condition: AnyNode,
        }
    }
}

impl<'t, F: Drop, C: Drop> By<'t, F, C> {
    /// The same query, which asks for this role and these texts.
    fn with(self, wanted: Wanted<'t>) -> By<'t, F, C>
        ensures { result ≡ record self.entry { wanted = wanted.entry } }
    {
        let By {
            wanted: _,
            filter,
            condition,
        } = self;
        By {
            wanted,
            filter,
            condition,
        }
    }

    /// A node has this role.
    pub fn role(self, role: Role) -> By<'t, F, C>
        ensures wanted { result.wanted ≡ record self.entry.wanted { role = Some role } }
        ensures filter { result.filter ≡ self.entry.filter }
        ensures condition { result.condition ≡ self.entry.condition }
    {
        let mut wanted = self.wanted;
        wanted.role = Some(role);
        self.with(wanted)
    }

    /// A node has this label. A Label's text is its value: [`By::text`] finds that.
    pub fn label(self, label: &'t str) -> By<'t, F, C>
        ensures wanted { result.wanted ≡ record self.entry.wanted { label = Some label.entry } }
        ensures filter { result.filter ≡ self.entry.filter }
        ensures condition { result.condition ≡ self.entry.condition }
    {
        let mut wanted = self.wanted;
        wanted.label = Some(label);
        self.with(wanted)
    }

    /// This part is in a node's label.
    pub fn label_contains(self, part: &'t str) -> By<'t, F, C>
        ensures wanted { result.wanted ≡ record self.entry.wanted { label_part = Some part.entry } }
        ensures filter { result.filter ≡ self.entry.filter }
        ensures condition { result.condition ≡ self.entry.condition }
    {
        let mut wanted = self.wanted;
        wanted.label_part = Some(part);
        self.with(wanted)
    }

    /// A node shows this text: a Label by its value, any other node by its label.
    pub fn text(self, text: &'t str) -> By<'t, F, C>
        ensures wanted { result.wanted ≡ record self.entry.wanted { text = Some text.entry } }
        ensures filter { result.filter ≡ self.entry.filter }
        ensures condition { result.condition ≡ self.entry.condition }
    {
        let mut wanted = self.wanted;
        wanted.text = Some(text);
        self.with(wanted)
    }

    /// A node has this value. A password's value is a bullet for each character, if two of them differ.
    pub fn value(self, value: &'t str) -> By<'t, F, C>
        ensures wanted { result.wanted ≡ record self.entry.wanted { value = Some value.entry } }
        ensures filter { result.filter ≡ self.entry.filter }
        ensures condition { result.condition ≡ self.entry.condition }
    {
        let mut wanted = self.wanted;
        wanted.value = Some(value);
        self.with(wanted)
    }

    /// A node has this description.
    pub fn description(self, description: &'t str) -> By<'t, F, C>
        ensures wanted { result.wanted ≡ record self.entry.wanted { description = Some description.entry } }
        ensures filter { result.filter ≡ self.entry.filter }
        ensures condition { result.condition ≡ self.entry.condition }
    {
        let mut wanted = self.wanted;
        wanted.description = Some(description);
        self.with(wanted)
    }

    /// The texts that are asked for may be parts of a node's.
    pub fn partly(self) -> By<'t, F, C>
        ensures wanted { result.wanted ≡ record self.entry.wanted { matching = record self.entry.wanted.matching { is_part = true } } }
        ensures filter { result.filter ≡ self.entry.filter }
        ensures condition { result.condition ≡ self.entry.condition }
    {
        let mut wanted = self.wanted;
        wanted.matching.is_part = true;
        self.with(wanted)
    }

    /// Upper-case letters of the texts are the same as their lower-case ones.
    pub fn ignoring_case(self) -> By<'t, F, C>
        ensures wanted { result.wanted ≡ record self.entry.wanted { matching = record self.entry.wanted.matching { ignores_case = true } } }
        ensures filter { result.filter ≡ self.entry.filter }
        ensures condition { result.condition ≡ self.entry.condition }
    {
        let mut wanted = self.wanted;
        wanted.matching.ignores_case = true;
        self.with(wanted)
    }

    /// Each space of the texts counts.
    pub fn exactly(self) -> By<'t, F, C>
        ensures wanted { result.wanted ≡ record self.entry.wanted { matching = record self.entry.wanted.matching { is_exact = true } } }
        ensures filter { result.filter ≡ self.entry.filter }
        ensures condition { result.condition ≡ self.entry.condition }
    {
        let mut wanted = self.wanted;
        wanted.matching.is_exact = true;
        self.with(wanted)
    }

    /// Searches what this filter shows.
    pub fn filter<G: Fn(&NodeRef<'_>) -> FilterResult + Drop>(self, filter: G) -> By<'t, ByFn<G>, C>
        ensures wanted { result.wanted ≡ self.entry.wanted }
        ensures filter { result.filter.f ≡ filter }
        ensures condition { result.condition ≡ self.entry.condition }
    {
        let By {
            wanted,
            filter: _,
            condition,
        } = self;
        By {
            wanted,
            filter: ByFn::new(filter),
            condition,
        }
    }

    /// A node meets this condition.
    pub fn meets<D: Fn(&NodeRef<'_>) -> bool + Drop>(self, condition: D) -> By<'t, F, Meeting<D>>
        ensures wanted { result.wanted ≡ self.entry.wanted }
        ensures filter { result.filter ≡ self.entry.filter }
        ensures condition { result.condition.f ≡ condition }
    {
        let By {
            wanted,
            filter,
            condition: _,
        } = self;
        By {
            wanted,
            filter,
            condition: Meeting::new(condition),
        }
    }
}
