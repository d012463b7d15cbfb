//! The calls that start a walk.
ghost use Rattle.std.specs.Prelude.{◌≡◌, map};
ghost use Rattle.std.specs.Fn.{FnReturnsAt};
ghost use Rattle.model.specs.World.{children as children_of};
ghost use Rattle.model.specs.Lists.{following_siblings as later_siblings, preceding_siblings as earlier_siblings};
ghost use Rattle.model.specs.Frontier.{filtered_children as shown_children};
ghost use Rattle.model.specs.Covers.{following_filtered_siblings as shown_after, preceding_filtered_siblings as shown_before};
ghost use Rattle.model.specs.Views.{items as items_of, controls as controls_of};
ghost use Rattle.views.specs.Nodes.{world_at, id_at};
ghost use Rattle.views.specs.PlainWalks.{node_in, child_ids_left, following_ids_left, preceding_ids_left, children_left, following_left, preceding_left};
ghost use Rattle.views.specs.Controlled.{controls_left};
ghost use Rattle.views.specs.FilteredWalks.{BeginsWalk, children_walk, following_walk, preceding_walk, items_walk, descendants_walk};
ghost use Rattle.views.specs.Descendants.{descendants as descendants_of, filtered_descendants as shown_below};
ghost use Rattle.views.specs.AllNodes.{descendants_left};

use crate::node::NodeRef;
use crate::walks::controls::Controls;
use crate::walks::descendants::{Descendants, FilteredDescendants};
use crate::walks::filter::ByFn;
use crate::walks::filtered::{
    FilteredChildren, FollowingFilteredSiblings, PrecedingFilteredSiblings,
};
use crate::walks::items::Items;
use crate::walks::plain::{
    ChildIds, Children, FollowingSiblingNodes, FollowingSiblings, PrecedingSiblingNodes,
    PrecedingSiblings,
};
use model::filters::FilterResult;

impl<'a> NodeRef<'a> {
    /// The ids of the children. The only child of a graft is the root of the grafted tree, if that is present.
    pub fn child_ids(&self) -> ChildIds<'a>
        ensures { child_ids_left result ≡ children_of (world_at self.now) (id_at self.now) }
    {
        ChildIds::new(*self)
    }

    /// The ids of the later siblings, in order.
    pub fn following_sibling_ids(&self) -> FollowingSiblings<'a>
        ensures { following_ids_left result ≡ later_siblings (world_at self.now) (id_at self.now) }
    {
        FollowingSiblings::new(*self)
    }

    /// The ids of the earlier siblings, nearest first.
    pub fn preceding_sibling_ids(&self) -> PrecedingSiblings<'a>
        ensures { let w = world_at self.now in
            preceding_ids_left result ≡ earlier_siblings w (id_at self.now) }
    {
        PrecedingSiblings::new(*self)
    }

    /// The children.
    #[inline(always)]
    pub fn children(&self) -> Children<'a>
        ensures { let w = world_at self.now in
            children_left result ≡ map (node_in w) (children_of w (id_at self.now)) }
    {
        Children::new(*self)
    }

    /// The later siblings, in order.
    pub fn following_siblings(&self) -> FollowingSiblingNodes<'a>
        ensures { let w = world_at self.now in
            following_left result ≡ map (node_in w) (later_siblings w (id_at self.now)) }
    {
        FollowingSiblingNodes::new(*self)
    }

    /// The earlier siblings, nearest first.
    pub fn preceding_siblings(&self) -> PrecedingSiblingNodes<'a>
        ensures { let w = world_at self.now in
            preceding_left result ≡ map (node_in w) (earlier_siblings w (id_at self.now)) }
    {
        PrecedingSiblingNodes::new(*self)
    }

    /// The filtered children, in order: an included child itself, the filtered children of a child that is excluded
    /// alone, and nothing of a child that is excluded with its subtree.
    pub fn filtered_children<F: Fn(&NodeRef<'_>) -> FilterResult + Drop>(
        &self,
        filter: F,
    ) -> FilteredChildren<'a, ByFn<F>>
        requires { F.IsAlwaysCallable filter }
        ensures filter { (children_walk.filter result).f ≡ filter }
        ensures begins { let w = world_at self.now in
            BeginsWalk (FnReturnsAt F.Fn filter) children_walk w
            (λ f. shown_children f w (id_at self.now)) result }
    {
        FilteredChildren::new(*self, ByFn { f: filter })
    }

    /// The filtered siblings after the node: what the filter shows after it below its cover, the nearest ancestor that
    /// isn't excluded alone. The walk is empty if that ancestor isn't included.
    pub fn following_filtered_siblings<F: Fn(&NodeRef<'_>) -> FilterResult + Drop>(
        &self,
        filter: F,
    ) -> FollowingFilteredSiblings<'a, ByFn<F>>
        requires { F.IsAlwaysCallable filter }
        ensures filter { (following_walk.filter result).f ≡ filter }
        ensures begins { let w = world_at self.now in
            BeginsWalk (FnReturnsAt F.Fn filter) following_walk w
            (λ f. shown_after f w (id_at self.now)) result }
    {
        FollowingFilteredSiblings::new(*self, ByFn { f: filter })
    }

    /// The filtered siblings before the node, nearest first: what the filter shows before it below its cover, as for
    /// [`NodeRef::following_filtered_siblings`].
    pub fn preceding_filtered_siblings<F: Fn(&NodeRef<'_>) -> FilterResult + Drop>(
        &self,
        filter: F,
    ) -> PrecedingFilteredSiblings<'a, ByFn<F>>
        requires { F.IsAlwaysCallable filter }
        ensures filter { (preceding_walk.filter result).f ≡ filter }
        ensures begins { let w = world_at self.now in
            BeginsWalk (FnReturnsAt F.Fn filter) preceding_walk w
            (λ f. shown_before f w (id_at self.now)) result }
    {
        PrecedingFilteredSiblings::new(*self, ByFn { f: filter })
    }

    /// All nodes below the node, in pre-order: each child, followed by all nodes below it.
    pub fn descendants(&self) -> Descendants<'a>
        ensures { let w = world_at self.now in
            descendants_left result ≡ map (node_in w) (descendants_of w (id_at self.now)) }
    {
        Descendants::new(*self)
    }

    /// The nodes that the filter shows below the node, in pre-order: each filtered child, followed by those below it.
    pub fn filtered_descendants<F: Fn(&NodeRef<'_>) -> FilterResult + Drop>(
        &self,
        filter: F,
    ) -> FilteredDescendants<'a, ByFn<F>>
        requires { F.IsAlwaysCallable filter }
        ensures filter { (descendants_walk.filter result).f ≡ filter }
        ensures begins { let w = world_at self.now in
            BeginsWalk (FnReturnsAt F.Fn filter) descendants_walk w
            (λ f. shown_below f w (id_at self.now)) result }
    {
        FilteredDescendants::new(*self, ByFn { f: filter })
    }

    /// The items that the filter shows below the node. Nodes that it includes and that are no items are looked into.
    pub fn items<F: Fn(&NodeRef<'_>) -> FilterResult + Drop>(&self, filter: F) -> Items<'a, ByFn<F>>
        requires { F.IsAlwaysCallable filter }
        ensures filter { (items_walk.filter result).f ≡ filter }
        ensures begins { let w = world_at self.now in
            BeginsWalk (FnReturnsAt F.Fn filter) items_walk w
            (λ f. items_of f w (id_at self.now)) result }
    {
        Items::new(*self, ByFn { f: filter })
    }

    /// The nodes that this node controls, skipping those that aren't in the state.
    pub fn controls(&self) -> Controls<'a>
        ensures { let w = world_at self.now in
            controls_left result ≡ map (node_in w) (controls_of w (id_at self.now)) }
    {
        Controls::new(*self)
    }
}
