//! The items below a node. The walk does not allocate.
ghost use Rattle.std.specs.Prelude.{◌≡◌};
ghost use Rattle.std.specs.Iterator.{at_most};
ghost use Rattle.model.specs.RoleClasses.{is_item_like};
ghost use Rattle.model.specs.Views.{items as items_of};
ghost use Rattle.views.specs.Nodes.{world_at, id_at};
ghost use Rattle.views.specs.Walks.{work_of};
ghost use Rattle.views.specs.FilteredWalks.{BeginsWalk, GivesFirst, GivesLast, items_walk};

use crate::node::NodeRef;
use crate::walks::course::Course;
use crate::walks::filter::Filter;
use model::filters::FilterResult;
use schema::Role;
use std::iter::FusedIterator;

/// Whether a node of this role can be an item of a set.
pub(crate) fn is_item(role: Role) -> bool
    ensures { result ≡ is_item_like role }
{
    matches!(
        role,
        Role::Article
            | Role::Comment
            | Role::ListItem
            | Role::MenuItem
            | Role::MenuItemRadio
            | Role::Tab
            | Role::MenuItemCheckBox
            | Role::TreeItem
            | Role::ListBoxOption
            | Role::MenuListOption
            | Role::RadioButton
            | Role::Term
    )
}

/// Like another filter, but nodes that it includes and that are no items are excluded alone.
#[derive(Drop)]
pub(crate) struct ItemFilter<F> {
    filter: F,
}

impl<F: Filter> Filter for ItemFilter<F> {
    ghost use Rattle.views.specs.ItemAnswers.{AnswersItems};

    ghost can_answer = { λ s. F.can_answer s.filter };

    ghost answers = { λ s. AnswersItems (F.answers s.filter) };

    fn answer(&self, node: &NodeRef<'_>) -> FilterResult {
        let given = self.filter.answer(node);
        if given == FilterResult::Include && !is_item(node.role()) {
            return FilterResult::ExcludeNode;
        }
        given
    }
}

/// A walk over the items that a filter shows below a node.
#[derive(Drop)]
pub struct Items<'a, F> {
    course: Course<'a>,
    filter: ItemFilter<F>,
}

impl<'a, F: Filter> Items<'a, F> {
    pub(crate) fn new(node: NodeRef<'a>, filter: F) -> Items<'a, F>
        requires { F.can_answer filter }
        ensures filter { result.filter.filter ≡ filter }
        ensures begins { let w = world_at node.entry in
            BeginsWalk (F.answers filter) items_walk w (λ f. items_of f w (id_at node.entry)) result }
    {
        let filter = ItemFilter { filter };
        Items {
            course: Course::below(node, &filter),
            filter,
        }
    }
}

impl<'a, F: Filter> Iterator for Items<'a, F> {
    type Item = NodeRef<'a>;

    ghost can_next = { λ s. F.can_answer s.filter.filter };

    ghost next_gives = { GivesFirst F.answers items_walk };

    ghost remaining = { λ s. at_most (work_of s.course) };

    fn next(&mut self) -> Option<NodeRef<'a>> {
        self.course.take_front(&self.filter)
    }
}

impl<'a, F: Filter> DoubleEndedIterator for Items<'a, F> {
    ghost can_next_back = { λ s. F.can_answer s.filter.filter };

    ghost next_back_gives = { GivesLast F.answers items_walk };

    fn next_back(&mut self) -> Option<NodeRef<'a>> {
        self.course.take_back(&self.filter)
    }
}

impl<F: Filter> FusedIterator for Items<'_, F> {}
