//! A node's relatives, as a caller's filter shows them.
ghost use Rattle.std.specs.Prelude.{◌≡◌, is_some, Contains, IfSome, option_map};
ghost use Rattle.std.specs.Fn.{FnReturnsAt};
ghost use Rattle.model.specs.Lists.{ancestors};
ghost use Rattle.model.specs.Upward.{is_within};
ghost use Rattle.model.specs.Covers.{is_included, filtered_parent};
ghost use Rattle.model.specs.Views.{size_of_set_from_container, selection_container};
ghost use Rattle.views.specs.Nodes.{world_at, id_at, data_at};
ghost use Rattle.views.specs.FilterValues.{IsBy};

use crate::node::NodeRef;
use model::filters::FilterResult;
use model::is_same;

/// Whether a node with this answer is included.
pub(crate) fn is_included(answer: FilterResult) -> bool
    ensures { result ≡ is_included answer }
{
    match answer {
        FilterResult::Include => true,
        FilterResult::ExcludeNode => false,
        FilterResult::ExcludeSubtree => false,
    }
}

impl<'a> NodeRef<'a> {
    /// Whether a tree is grafted here.
    pub fn is_graft(&self) -> bool
        ensures { result ≡ is_some (data_at self.now).tree_id }
    {
        self.node.tree_id().is_some()
    }

    /// Whether `ancestor` is this node or an ancestor of it.
    pub fn is_descendant_of(&self, ancestor: &NodeRef<'_>) -> bool
        ensures { result ≡ is_within (world_at self.now) (id_at ancestor.now) (id_at self.now) }
    {
        let top = ancestor.id;
        is_same(top, self.id)
            || self
                .nearest_ancestor(|node| is_same(top, node.id))
                .is_some()
    }

    /// The nearest ancestor that the filter includes, whatever it answers for the nodes between.
    pub fn filtered_parent<F: Fn(&NodeRef<'_>) -> FilterResult>(
        &self,
        filter: &F,
    ) -> Option<NodeRef<'a>>
        requires { F.IsAlwaysCallable filter.now }
        ensures world { IfSome result (λ node. world_at node ≡ world_at self.now) }
        ensures above { let w = world_at self.now in
            IfSome result (λ node. Contains (ancestors w (id_at self.now)) (id_at node)) }
        ensures node { IsBy (FnReturnsAt F.Fn filter.now) self.now filtered_parent (option_map id_at result) }
    {
        self.state.know();
        let mut current = *self;
        while let Some(parent) = current.parent() {
            if is_included(filter(&parent)) {
                return Some(parent);
            }
            current = parent;
        }
        None
    }

    /// The nearest ancestor that the filter includes and whose children can be selected.
    pub fn selection_container<F: Fn(&NodeRef<'_>) -> FilterResult>(
        &self,
        filter: &F,
    ) -> Option<NodeRef<'a>>
        requires { F.IsAlwaysCallable filter.now }
        ensures world { IfSome result (λ node. world_at node ≡ world_at self.now) }
        ensures node { IsBy (FnReturnsAt F.Fn filter.now) self.now selection_container (option_map id_at result) }
    {
        self.state.know();
        let mut current = *self;
        while let Some(container) = current.filtered_parent(filter) {
            if container.is_container_with_selectable_children() {
                return Some(container);
            }
            current = container;
        }
        None
    }

    /// The size of the set, from the nearest ancestor that the filter includes and that has one.
    pub fn size_of_set_from_container<F: Fn(&NodeRef<'_>) -> FilterResult>(
        &self,
        filter: &F,
    ) -> Option<usize>
        requires { F.IsAlwaysCallable filter.now }
        ensures { IsBy (FnReturnsAt F.Fn filter.now) self.now size_of_set_from_container result }
    {
        self.state.know();
        let mut current = *self;
        while let Some(container) = current.filtered_parent(filter) {
            if let Some(size) = container.size_of_set() {
                return Some(size);
            }
            current = container;
        }
        None
    }
}
