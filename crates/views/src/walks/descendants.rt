//! Walks over all nodes below a node, in pre-order and from both ends. They do not allocate.
ghost use Rattle.std.specs.Prelude.{◌≡◌, ⊤, map};
ghost use Rattle.std.specs.Iterator.{YieldsFirstBy, YieldsLastBy, item_count, at_most};
ghost use Rattle.model.specs.declared.filters.FilterResult.TheVariants.{Include};
ghost use Rattle.views.specs.Nodes.{world_at, id_at};
ghost use Rattle.views.specs.PlainWalks.{node_in, node_of};
ghost use Rattle.views.specs.FilteredWalks.{BeginsWalk, GivesFirst, GivesLast, descendants_walk};
ghost use Rattle.views.specs.Descendants.{descendants, filtered_descendants, ShownBelowIsOfFilteredChildren, AllIncludedAreDescendants};
ghost use Rattle.views.specs.Descents.{IsOnDescent, IsOnDescent-prop, descent_work};

use crate::node::NodeRef;
use crate::walks::course::Course;
use crate::walks::filter::Filter;
use model::filters::FilterResult;
use std::iter::FusedIterator;

/// The filter that includes each node.
#[derive(Drop)]
struct AllNodes;

impl Filter for AllNodes {
    ghost can_answer = { λ _. ⊤ };

    ghost answers = { λ _ n r. r ≡ Include };

    fn answer(&self, _node: &NodeRef<'_>) -> FilterResult {
        FilterResult::Include
    }
}

/// A walk over all nodes below a node, in pre-order.
#[derive(Drop)]
pub struct Descendants<'a> {
    course: Course<'a>,
    ghost known: { IsOnDescent (λ _. Include) course } by { IsOnDescent-prop (λ _. Include) course },
}

impl<'a> Descendants<'a> {
    ghost use Rattle.views.specs.AllNodes.{descendants_left};

    pub(crate) fn new(node: NodeRef<'a>) -> Descendants<'a>
        ensures { let w = world_at node.entry in
            descendants_left result ≡ map (node_in w) (descendants w (id_at node.entry)) }
    {
        Descendants {
            course: Course::inside(node, &AllNodes),
        }
    }

    /// Takes the first node, if one is left.
    fn take_first(&mut self) -> Option<NodeRef<'a>>
        ensures { YieldsFirstBy node_of descendants_left self.old result self.new }
    {
        let mut course = self.course;
        let found = course.take_first(&AllNodes);
        *self = Descendants { course };
        found
    }

    /// Takes the last node, if one is left.
    fn take_last(&mut self) -> Option<NodeRef<'a>>
        ensures { YieldsLastBy node_of descendants_left self.old result self.new }
    {
        let mut course = self.course;
        let found = course.take_last(&AllNodes);
        *self = Descendants { course };
        found
    }
}

impl<'a> Iterator for Descendants<'a> {
    ghost use Rattle.views.specs.AllNodes.{descendants_left};

    type Item = NodeRef<'a>;

    ghost next_gives = { YieldsFirstBy node_of descendants_left };

    ghost remaining = { item_count descendants_left };

    fn next(&mut self) -> Option<NodeRef<'a>> {
        self.take_first()
    }
}

impl<'a> DoubleEndedIterator for Descendants<'a> {
    ghost use Rattle.views.specs.AllNodes.{descendants_left};

    ghost next_back_gives = { YieldsLastBy node_of descendants_left };

    fn next_back(&mut self) -> Option<NodeRef<'a>> {
        self.take_last()
    }
}

impl FusedIterator for Descendants<'_> {}

/// A walk over the nodes that a filter shows below a node, in pre-order: each filtered child, then those below it.
#[derive(Drop)]
pub struct FilteredDescendants<'a, F> {
    course: Course<'a>,
    filter: F,
}

impl<'a, F: Filter> FilteredDescendants<'a, F> {
    pub(crate) fn new(node: NodeRef<'a>, filter: F) -> FilteredDescendants<'a, F>
        requires { F.can_answer filter }
        ensures filter { result.filter ≡ filter }
        ensures begins { let w = world_at node.entry in
            BeginsWalk (F.answers filter) descendants_walk w
            (λ f. filtered_descendants f w (id_at node.entry)) result }
    {
        FilteredDescendants {
            course: Course::inside(node, &filter),
            filter,
        }
    }
}

impl<'a, F: Filter> Iterator for FilteredDescendants<'a, F> {
    type Item = NodeRef<'a>;

    ghost can_next = { λ s. F.can_answer s.filter };

    ghost next_gives = { GivesFirst F.answers descendants_walk };

    ghost remaining = { λ s. at_most (descent_work s.course) };

    fn next(&mut self) -> Option<NodeRef<'a>> {
        self.course.take_first(&self.filter)
    }
}

impl<'a, F: Filter> DoubleEndedIterator for FilteredDescendants<'a, F> {
    ghost can_next_back = { λ s. F.can_answer s.filter };

    ghost next_back_gives = { GivesLast F.answers descendants_walk };

    fn next_back(&mut self) -> Option<NodeRef<'a>> {
        self.course.take_last(&self.filter)
    }
}

impl<F: Filter> FusedIterator for FilteredDescendants<'_, F> {}

/// What is shown below a node are its filtered children, each with what is shown below it; and a filter that includes
/// each node shows all that is below.
fn descendants_are_lists()
    ensures filtered { ShownBelowIsOfFilteredChildren }
    ensures all { AllIncludedAreDescendants }
{}
