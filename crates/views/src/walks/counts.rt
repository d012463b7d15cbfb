//! How many nodes a filter shows in place of a node's children, the one at an index, and the index of one. The walks do not
//! allocate.
ghost use Rattle.std.specs.Prelude.{◌≡◌, length, position, slice_get, IfSome, option_map};
ghost use Rattle.std.specs.Fn.{FnReturnsAt};
ghost use Rattle.model.specs.declared.FullNodeId.{FullNodeId};
ghost use Rattle.model.specs.declared.filters.FilterResult.{FilterResult};
ghost use Rattle.model.specs.Forest.{is_same as is_same_id};
ghost use Rattle.model.specs.Frontier.{filtered_children};
ghost use Rattle.views.specs.Nodes.{world_at, id_at};
ghost use Rattle.views.specs.Follows.{Follows};
ghost use Rattle.views.specs.FilterValues.{IsBy};
ghost use Rattle.views.specs.Counted.{filtered_count, filtered_child, filtered_index};

use crate::node::NodeRef;
use crate::walks::course::Course;
use crate::walks::filter::{ByRef, Filter};
use model::filters::FilterResult;
use model::{FullNodeId, is_same};

/// How many nodes the filter shows below a node.
fn count_below<'a, F: Filter>(top: NodeRef<'a>, filter: &F) -> usize
    requires { F.can_answer filter.now }
    ensures { let w = world_at top.entry in
        (f : FullNodeId → FilterResult) → Follows (F.answers filter.now) w f →
        result ≡ length (filtered_children f w (id_at top.entry)) }
{
    top.state.know();
    top.state.know_count();
    let _root = top.state.root_id();
    let mut course = Course::below(top, filter);
    let mut count = 0usize;
    while let Some(_) = course.take_front(filter) {
        count = count.saturating_add(1);
    }
    count
}

/// The node at an index among those that the filter shows below a node.
fn shown_at<'a, F: Filter>(top: NodeRef<'a>, index: usize, filter: &F) -> Option<NodeRef<'a>>
    requires { F.can_answer filter.now }
    ensures world { IfSome result (λ node. world_at node ≡ world_at top.entry) }
    ensures node { let w = world_at top.entry in
        (f : FullNodeId → FilterResult) → Follows (F.answers filter.now) w f →
        option_map id_at result ≡ slice_get (filtered_children f w (id_at top.entry)) index }
{
    let mut course = Course::below(top, filter);
    let mut left = index;
    while let Some(node) = course.take_front(filter) {
        if left == 0 {
            return Some(node);
        }
        left -= 1;
    }
    None
}

/// The index of a node among those that the filter shows below another node.
fn index_below<'a, F: Filter>(top: NodeRef<'a>, id: FullNodeId, filter: &F) -> Option<usize>
    requires { F.can_answer filter.now }
    ensures { let w = world_at top.entry in
        (f : FullNodeId → FilterResult) → Follows (F.answers filter.now) w f →
        result ≡ position (is_same_id id) (filtered_children f w (id_at top.entry)) }
{
    top.state.know();
    top.state.know_count();
    let _root = top.state.root_id();
    let mut course = Course::below(top, filter);
    let mut index = 0usize;
    while let Some(node) = course.take_front(filter) {
        if is_same(id, node.id) {
            return Some(index);
        }
        index = index.saturating_add(1);
    }
    None
}

impl<'a> NodeRef<'a> {
    /// The number of nodes that the filter shows in place of the node's children.
    pub fn filtered_child_count<F: Fn(&NodeRef<'_>) -> FilterResult>(&self, filter: &F) -> usize
        requires { F.IsAlwaysCallable filter.now }
        ensures { IsBy (FnReturnsAt F.Fn filter.now) self.now filtered_count result }
    {
        count_below(*self, &ByRef { f: filter })
    }

    /// The node at an index, counted from 0, among those that the filter shows in place of the node's children.
    pub fn filtered_child<F: Fn(&NodeRef<'_>) -> FilterResult>(
        &self,
        index: usize,
        filter: &F,
    ) -> Option<NodeRef<'a>>
        requires { F.IsAlwaysCallable filter.now }
        ensures world { IfSome result (λ node. world_at node ≡ world_at self.now) }
        ensures node { IsBy (FnReturnsAt F.Fn filter.now) self.now (filtered_child index) (option_map id_at result) }
    {
        shown_at(*self, index, &ByRef { f: filter })
    }

    /// The node's index, counted from 0, among those that the filter shows in place of the children of its filtered parent. `None` if it
    /// has no filtered parent, or isn't one of them.
    pub fn filtered_index<F: Fn(&NodeRef<'_>) -> FilterResult>(&self, filter: &F) -> Option<usize>
        requires { F.IsAlwaysCallable filter.now }
        ensures { IsBy (FnReturnsAt F.Fn filter.now) self.now filtered_index result }
    {
        let parent = self.filtered_parent(filter)?;
        index_below(parent, self.id, &ByRef { f: filter })
    }
}
