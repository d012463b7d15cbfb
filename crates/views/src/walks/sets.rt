//! The size of a node's set and the node's position in it, computed if they weren't sent.
ghost use Rattle.std.specs.Prelude.{◌≡◌, length, slice_get, Contains, None, Some, IfSome, MatchOption};
ghost use Rattle.std.specs.Fn.{FnReturnsAt};
ghost use Rattle.schema.specs.Roles.{same_role};
ghost use Rattle.model.specs.declared.FullNodeId.{FullNodeId};
ghost use Rattle.model.specs.declared.filters.FilterResult.{FilterResult};
ghost use Rattle.model.specs.Frontier.{filtered_children};
ghost use Rattle.model.specs.Views.{set_of, computed_size_of_set as size_of, computed_position_in_set as position_in};
ghost use Rattle.views.specs.Nodes.{world_at, id_at, data_at};
ghost use Rattle.views.specs.Spots.{IsMember};
ghost use Rattle.views.specs.Follows.{Follows};
ghost use Rattle.views.specs.RoleSets.{of_role};

use crate::node::NodeRef;
use crate::walks::course::Course;
use crate::walks::ends::cover;
use crate::walks::filter::{ByRef, Filter};
use crate::walks::items::is_item;
use crate::walks::spot::Member;
use model::filters::FilterResult;
use model::{FullNodeId, is_same};
use schema::Role;

/// The node whose filtered children are a node's set, if the node has a set.
fn set_top<'a, F: Filter>(node: NodeRef<'a>, filter: &F) -> Option<Member<'a>>
    requires { F.can_answer filter.now }
    ensures known { IfSome result (IsMember (world_at node.entry)) }
    ensures exact { let w = world_at node.entry in
        (f : FullNodeId → FilterResult) → Follows (F.answers filter.now) w f →
        MatchOption result (set_of f w (id_at node.entry) ≡ None)
        (λ top. let role = (data_at node.entry).role in
        set_of f w (id_at node.entry) ≡ Some (of_role w role (filtered_children f w top.id))) }
{
    if !is_item(node.node.role()) {
        return None;
    }
    match filter.answer(&node) {
        FilterResult::Include => {}
        FilterResult::ExcludeNode => return None,
        FilterResult::ExcludeSubtree => return None,
    }
    let member = node.member();
    cover(node.state, member, filter)
}

/// Whether the node has the role.
fn has_role(node: NodeRef<'_>, role: Role) -> bool
    ensures { result ≡ same_role (data_at node.entry).role role }
{
    node.node.role() == role
}

/// How many nodes of a role the filter shows below a node.
fn count_shown<'a, F: Filter>(top: NodeRef<'a>, role: Role, filter: &F) -> usize
    requires { F.can_answer filter.now }
    ensures { let w = world_at top.entry in
        (f : FullNodeId → FilterResult) → Follows (F.answers filter.now) w f →
        result ≡ length (of_role w role (filtered_children f w (id_at top.entry))) }
{
    top.state.know();
    top.state.know_count();
    let _root = top.state.root_id();
    let mut course = Course::below(top, filter);
    let mut count = 0usize;
    while let Some(node) = course.take_front(filter) {
        if has_role(node, role) {
            count = count.saturating_add(1);
        }
    }
    count
}

/// The index of a node among those of a role that the filter shows below another node.
fn index_shown<'a, F: Filter>(top: NodeRef<'a>, role: Role, id: FullNodeId, filter: &F) -> usize
    requires { F.can_answer filter.now }
    ensures { let w = world_at top.entry in
        (f : FullNodeId → FilterResult) → Follows (F.answers filter.now) w f →
        Contains (of_role w role (filtered_children f w (id_at top.entry))) id →
        slice_get (of_role w role (filtered_children f w (id_at top.entry))) result ≡ Some id }
{
    top.state.know();
    top.state.know_count();
    let _root = top.state.root_id();
    let mut course = Course::below(top, filter);
    let mut index = 0usize;
    while let Some(node) = course.take_front(filter) {
        if !has_role(node, role) {
            continue;
        }
        if is_same(node.id, id) {
            return index;
        }
        index = index.saturating_add(1);
    }
    index
}

impl<'a> NodeRef<'a> {
    /// The size of the node's set: as sent in the update, or else the number of nodes of its role that the filter shows
    /// below its cover (the nearest ancestor that isn't excluded alone). Returns `None` if neither is there: the latter
    /// needs a node that the filter includes and that can be an item of a set.
    pub fn computed_size_of_set<F: Fn(&NodeRef<'_>) -> FilterResult>(
        &self,
        filter: &F,
    ) -> Option<usize>
        requires { F.IsAlwaysCallable filter.now }
        ensures { let w = world_at self.now in
            (f : FullNodeId → FilterResult) → Follows (FnReturnsAt F.Fn filter.now) w f →
            result ≡ size_of f w (id_at self.now) }
    {
        if let Some(size) = self.node.size_of_set() {
            return Some(size);
        }
        let filter = ByRef { f: filter };
        let top = set_top(*self, &filter)?;
        Some(count_shown(self.state.view(top), self.node.role(), &filter))
    }

    /// The node's position in its set, counted from 0: as sent in the update, or else the number of nodes of its set
    /// before it.
    pub fn computed_position_in_set<F: Fn(&NodeRef<'_>) -> FilterResult>(
        &self,
        filter: &F,
    ) -> Option<usize>
        requires { F.IsAlwaysCallable filter.now }
        ensures { let w = world_at self.now in
            (f : FullNodeId → FilterResult) → Follows (FnReturnsAt F.Fn filter.now) w f →
            result ≡ position_in f w (id_at self.now) }
    {
        self.state.know();
        if let Some(position) = self.node.position_in_set() {
            return Some(position);
        }
        let filter = ByRef { f: filter };
        let top = set_top(*self, &filter)?;
        Some(index_shown(self.state.view(top), self.node.role(), self.id, &filter))
    }
}
