//! The state of a walk over the nodes that a filter shows.
ghost use Rattle.views.specs.Courses.{AreEndsIf, AreEndsIf-prop};
ghost use Rattle.views.specs.ShownWorlds.{world_of};

use crate::StateRef;
use crate::node::NodeRef;
use crate::walks::descents::{all_inside, without_first, without_last};
use crate::walks::ends::{
    Ends, all_ends, following_ends, preceding_ends, without_back, without_front,
};
use crate::walks::filter::Filter;
use model::FullNodeId;

/// The nodes that a walk has left: those that a filter shows below `top`, from one end to the other. Without ends the
/// walk is over.
#[derive(Clone, Copy)]
pub(crate) struct Course<'a> {
    state: StateRef<'a>,
    top: FullNodeId,
    ends: Option<Ends<'a>>,
    ghost known: { AreEndsIf (world_of state) top ends } by { AreEndsIf-prop (world_of state) top ends },
}

impl<'a> Course<'a> {
    ghost use Rattle.std.specs.Prelude.{◌≡◌, ◌<◌, IfSome, reverse};
    ghost use Rattle.model.specs.Frontier.{filtered_children};
    ghost use Rattle.model.specs.Covers.{following_filtered_siblings, preceding_filtered_siblings};
    ghost use Rattle.views.specs.Nodes.{world_at, id_at};
    ghost use Rattle.views.specs.Walks.{HasIdsLeft, TakesFront, TakesBack, work_of};
    ghost use Rattle.views.specs.Descendants.{filtered_descendants};
    ghost use Rattle.views.specs.Descents.{BeginsDescent, TakesFirst, TakesLast, descent_work};

    /// All that the filter shows below a node.
    pub(crate) fn below<F: Filter>(node: NodeRef<'a>, filter: &F) -> Course<'a>
        requires { F.can_answer filter.now }
        ensures { let w = world_at node.entry in
            HasIdsLeft (F.answers filter.now) w (λ f. filtered_children f w (id_at node.entry)) result }
    {
        let top = node.member();
        Course {
            state: node.state,
            top: node.id,
            ends: all_ends(node.state, top, filter),
        }
    }

    /// What the filter shows after a node, below its cover.
    pub(crate) fn after<F: Filter>(node: NodeRef<'a>, filter: &F) -> Course<'a>
        requires { F.can_answer filter.now }
        ensures { let w = world_at node.entry in
            HasIdsLeft (F.answers filter.now) w
            (λ f. following_filtered_siblings f w (id_at node.entry)) result }
    {
        let member = node.member();
        match following_ends(node.state, member, filter) {
            Some((top, ends)) => Course {
                state: node.state,
                top,
                ends: Some(ends),
            },
            None => Course {
                state: node.state,
                top: node.id,
                ends: None,
            },
        }
    }

    /// What the filter shows before a node, below its cover, the farthest first.
    pub(crate) fn before<F: Filter>(node: NodeRef<'a>, filter: &F) -> Course<'a>
        requires { F.can_answer filter.now }
        ensures { let w = world_at node.entry in
            HasIdsLeft (F.answers filter.now) w
            (λ f. reverse (preceding_filtered_siblings f w (id_at node.entry))) result }
    {
        let member = node.member();
        match preceding_ends(node.state, member, filter) {
            Some((top, ends)) => Course {
                state: node.state,
                top,
                ends: Some(ends),
            },
            None => Course {
                state: node.state,
                top: node.id,
                ends: None,
            },
        }
    }

    /// Takes the node at the front, if one is left.
    pub(crate) fn take_front<F: Filter>(&mut self, filter: &F) -> Option<NodeRef<'a>>
        requires { F.can_answer filter.now }
        ensures steps { TakesFront (F.answers filter.now) self.old result self.new }
        ensures less { IfSome result (λ _. work_of self.new < work_of self.old) }
    {
        let Some(ends) = self.ends else {
            return None;
        };
        self.ends = without_front(self.state, self.top, ends, filter);
        Some(ends.front.view(self.state))
    }

    /// Takes the node at the back, if one is left.
    pub(crate) fn take_back<F: Filter>(&mut self, filter: &F) -> Option<NodeRef<'a>>
        requires { F.can_answer filter.now }
        ensures steps { TakesBack (F.answers filter.now) self.old result self.new }
        ensures less { IfSome result (λ _. work_of self.new < work_of self.old) }
    {
        let Some(ends) = self.ends else {
            return None;
        };
        self.ends = without_back(self.state, self.top, ends, filter);
        Some(ends.back.view(self.state))
    }

    /// All that the filter shows below a node, at any depth.
    pub(crate) fn inside<F: Filter>(node: NodeRef<'a>, filter: &F) -> Course<'a>
        requires { F.can_answer filter.now }
        ensures { let w = world_at node.entry in
            BeginsDescent (F.answers filter.now) w
            (λ f. filtered_descendants f w (id_at node.entry)) result }
    {
        let top = node.member();
        Course {
            state: node.state,
            top: node.id,
            ends: all_inside(node.state, top, filter),
        }
    }

    /// Takes the node at the front of a walk in pre-order, if one is left.
    pub(crate) fn take_first<F: Filter>(&mut self, filter: &F) -> Option<NodeRef<'a>>
        requires { F.can_answer filter.now }
        ensures steps { TakesFirst (F.answers filter.now) self.old result self.new }
        ensures less { IfSome result (λ _. descent_work self.new < descent_work self.old) }
    {
        let Some(ends) = self.ends else {
            return None;
        };
        self.ends = without_first(self.state, self.top, ends, filter);
        Some(ends.front.view(self.state))
    }

    /// Takes the node at the back of a walk in pre-order, if one is left.
    pub(crate) fn take_last<F: Filter>(&mut self, filter: &F) -> Option<NodeRef<'a>>
        requires { F.can_answer filter.now }
        ensures steps { TakesLast (F.answers filter.now) self.old result self.new }
        ensures less { IfSome result (λ _. descent_work self.new < descent_work self.old) }
    {
        let Some(ends) = self.ends else {
            return None;
        };
        self.ends = without_last(self.state, self.top, ends, filter);
        Some(ends.back.view(self.state))
    }
}
