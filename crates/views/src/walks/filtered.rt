//! Walks over the nodes that a filter shows, from both ends. They do not allocate.
ghost use Rattle.std.specs.Prelude.{◌≡◌};
ghost use Rattle.std.specs.Iterator.{at_most};
ghost use Rattle.model.specs.Frontier.{filtered_children};
ghost use Rattle.model.specs.Covers.{following_filtered_siblings, preceding_filtered_siblings};
ghost use Rattle.views.specs.Nodes.{world_at, id_at};
ghost use Rattle.views.specs.Walks.{work_of};
ghost use Rattle.views.specs.FilteredWalks.{BeginsWalk, GivesFirst, GivesLast, children_walk, following_walk, preceding_walk};

use crate::node::NodeRef;
use crate::walks::course::Course;
use crate::walks::filter::Filter;
use std::iter::FusedIterator;

/// A walk over the filtered children of a node. A child that the filter excludes alone is replaced by its own filtered
/// children.
#[derive(Drop)]
pub struct FilteredChildren<'a, F> {
    course: Course<'a>,
    filter: F,
}

impl<'a, F: Filter> FilteredChildren<'a, F> {
    pub(crate) fn new(node: NodeRef<'a>, filter: F) -> FilteredChildren<'a, F>
        requires { F.can_answer filter }
        ensures filter { result.filter ≡ filter }
        ensures begins { let w = world_at node.entry in
            BeginsWalk (F.answers filter) children_walk w
            (λ f. filtered_children f w (id_at node.entry)) result }
    {
        FilteredChildren {
            course: Course::below(node, &filter),
            filter,
        }
    }
}

impl<'a, F: Filter> Iterator for FilteredChildren<'a, F> {
    type Item = NodeRef<'a>;

    ghost can_next = { λ s. F.can_answer s.filter };

    ghost next_gives = { GivesFirst F.answers children_walk };

    ghost remaining = { λ s. at_most (work_of s.course) };

    fn next(&mut self) -> Option<NodeRef<'a>> {
        self.course.take_front(&self.filter)
    }
}

impl<'a, F: Filter> DoubleEndedIterator for FilteredChildren<'a, F> {
    ghost can_next_back = { λ s. F.can_answer s.filter };

    ghost next_back_gives = { GivesLast F.answers children_walk };

    fn next_back(&mut self) -> Option<NodeRef<'a>> {
        self.course.take_back(&self.filter)
    }
}

impl<F: Filter> FusedIterator for FilteredChildren<'_, F> {}

/// A walk over the filtered siblings after a node, below the nearest ancestor that isn't excluded alone.
#[derive(Drop)]
pub struct FollowingFilteredSiblings<'a, F> {
    course: Course<'a>,
    filter: F,
}

impl<'a, F: Filter> FollowingFilteredSiblings<'a, F> {
    pub(crate) fn new(node: NodeRef<'a>, filter: F) -> FollowingFilteredSiblings<'a, F>
        requires { F.can_answer filter }
        ensures filter { result.filter ≡ filter }
        ensures begins { let w = world_at node.entry in
            BeginsWalk (F.answers filter) following_walk w
            (λ f. following_filtered_siblings f w (id_at node.entry)) result }
    {
        FollowingFilteredSiblings {
            course: Course::after(node, &filter),
            filter,
        }
    }
}

impl<'a, F: Filter> Iterator for FollowingFilteredSiblings<'a, F> {
    type Item = NodeRef<'a>;

    ghost can_next = { λ s. F.can_answer s.filter };

    ghost next_gives = { GivesFirst F.answers following_walk };

    ghost remaining = { λ s. at_most (work_of s.course) };

    fn next(&mut self) -> Option<NodeRef<'a>> {
        self.course.take_front(&self.filter)
    }
}

impl<'a, F: Filter> DoubleEndedIterator for FollowingFilteredSiblings<'a, F> {
    ghost can_next_back = { λ s. F.can_answer s.filter };

    ghost next_back_gives = { GivesLast F.answers following_walk };

    fn next_back(&mut self) -> Option<NodeRef<'a>> {
        self.course.take_back(&self.filter)
    }
}

impl<F: Filter> FusedIterator for FollowingFilteredSiblings<'_, F> {}

/// A walk over the filtered siblings before a node, nearest first, below the nearest ancestor that isn't excluded
/// alone.
#[derive(Drop)]
pub struct PrecedingFilteredSiblings<'a, F> {
    course: Course<'a>,
    filter: F,
}

impl<'a, F: Filter> PrecedingFilteredSiblings<'a, F> {
    pub(crate) fn new(node: NodeRef<'a>, filter: F) -> PrecedingFilteredSiblings<'a, F>
        requires { F.can_answer filter }
        ensures filter { result.filter ≡ filter }
        ensures begins { let w = world_at node.entry in
            BeginsWalk (F.answers filter) preceding_walk w
            (λ f. preceding_filtered_siblings f w (id_at node.entry)) result }
    {
        PrecedingFilteredSiblings {
            course: Course::before(node, &filter),
            filter,
        }
    }
}

impl<'a, F: Filter> Iterator for PrecedingFilteredSiblings<'a, F> {
    type Item = NodeRef<'a>;

    ghost can_next = { λ s. F.can_answer s.filter };

    ghost next_gives = { GivesFirst F.answers preceding_walk };

    ghost remaining = { λ s. at_most (work_of s.course) };

    fn next(&mut self) -> Option<NodeRef<'a>> {
        self.course.take_back(&self.filter)
    }
}

impl<'a, F: Filter> DoubleEndedIterator for PrecedingFilteredSiblings<'a, F> {
    ghost can_next_back = { λ s. F.can_answer s.filter };

    ghost next_back_gives = { GivesLast F.answers preceding_walk };

    fn next_back(&mut self) -> Option<NodeRef<'a>> {
        self.course.take_front(&self.filter)
    }
}

impl<F: Filter> FusedIterator for PrecedingFilteredSiblings<'_, F> {}
