//! The update's nodes compared with their old records.
ghost use Rattle.std.specs.Prelude.{◌≡◌, ◌≢◌, ◌<◌, ◌+◌, ◌↔◌, IsTrue, IfOk, IfErr, OnOk, Some, None, IsSome, ◌++◌, ◌∷◌, [], IfSome, length, map, option_map, option_to_list, slice_get};
ghost use Rattle.schema.specs.UpdateData.{update_data};
ghost use Rattle.model.specs.World.{in_tree};
ghost use Rattle.model.specs.Surgery.{IsOld};
ghost use Rattle.tree_changes.specs.LookUps.{IsRaisedBy};
ghost use Rattle.tree_changes.specs.declared.error.UpdateError.TheVariants.{Memory};
ghost use Rattle.tree_changes.specs.Refusals.{IsRefusal};
ghost use Rattle.tree_plan.specs.Passes.{at, at_name, HoldsOpened, HoldsCompared};
ghost use Rattle.tree_plan.specs.Comparisons.{AreEntriesTaken, IsNamedTwice, Gathers, Leaves, OnlyPlain, OnlyAt, OnlyIn, spots_of, ids_before, ids_after, arrival_at, ComparesChild, TakesGraft, IsGraftFault, ChangesGraft, ComparesData, ComparesNode, BeginsComparing, SettlesLists, IsEnteredTwice};

use crate::opening::is_root_tree;
use crate::passes::{Arrival, Compared, Comparing, Named, Opened};
use model::{FullNodeId, Place};
use schema::{Node, NodeId, TreeId, TreeUpdate};
use std::alloc::Global;
use std::collections::BTreeMap;
use tree_changes::{LookUps, UpdateError};
use values_by_id::{RowList, SortedRows};

/// A node of the tree with this index.
pub(crate) fn full_id(index: u32, node: NodeId) -> FullNodeId
    ensures { result ≡ in_tree index node }
{
    FullNodeId { tree: index, node }
}

/// The update's nodes, each with its entry and marked as new.
pub(crate) fn take(
    alloc: Global,
    index: u32,
    update: &TreeUpdate,
) -> Result<SortedRows<Named>, UpdateError>
    ensures ok { IfOk result (λ named.
        AreEntriesTaken index (update_data update.now) (length update.now.nodes.items) named) }
    ensures err { IfErr result (λ e. IsNamedTwice (update_data update.now) e) }
{
    let mut list = RowList::with_capacity(alloc, update.nodes.len())?;
    for (entry, item) in update.nodes.iter().enumerate() {
        let as_new = Named {
            entry,
            was: None,
            is_news: true,
        };
        list.push(full_id(index, item.0), as_new)?;
    }
    match list.settle() {
        Ok(named) => Ok(named),
        Err(id) => Err(UpdateError::NamedTwice(id.node)),
    }
}

/// Among so many nodes a search takes less than a list of where each is.
const FEW: usize = 16;

/// Whether the update's nodes ascend by their ids.
fn are_in_order(named: &[(FullNodeId, Named)]) -> bool {
    for (row, item) in named.iter().enumerate() {
        if item.1.entry != row {
            return false;
        }
    }
    true
}

/// Of each entry of the update's nodes, its index among those sorted by id; none if they are in one order, or few.
fn rows_of(alloc: Global, named: &[(FullNodeId, Named)]) -> Result<Vec<usize>, UpdateError>
    ensures err { IfErr result (λ e. e ≡ Memory) }
{
    let mut rows = Vec::new(alloc);
    if named.len() <= FEW || are_in_order(named) {
        return Ok(rows);
    }
    rows.resize(named.len(), 0)?;
    for (row, item) in named.iter().enumerate() {
        if let Some(found) = rows.get_mut(item.1.entry) {
            *found = row;
        }
    }
    Ok(rows)
}

/// The child at an index of a list.
pub(crate) fn child_at(parent: FullNodeId, children: &[NodeId], index: usize) -> Option<FullNodeId>
    ensures { result ≡ slice_get (map (in_tree parent.tree) children.now) index }
{
    children
        .get(index)
        .map(|child| full_id(parent.tree, *child))
}

/// Whether a node's data differs from before.
fn is_news(old: &Node, node: &Node) -> bool
    ensures { IsTrue result ↔ (old.now ≢ node.now) }
{
    // the contract of `==` is exact, that of `!=` isn't
    !(*old == *node)
}

/// Adds a node at a spot, if there is a node.
fn push_spot(
    list: &mut RowList<Option<Place>>,
    node: Option<FullNodeId>,
    spot: Option<Place>,
) -> Result<(), UpdateError>
    ensures ok { OnOk result (list.new ≡ list.old ++ option_to_list (option_map (λ id. (id, spot)) node)) }
    ensures err { IfErr result (λ e. e ≡ Memory) }
{
    if let Some(id) = node {
        list.push(id, spot)?;
    }
    Ok(())
}

/// Whether this child is at an index of a list.
fn is_at(children: &[NodeId], index: usize, child: NodeId) -> bool
    ensures { IsTrue result ↔ (slice_get children.now index ≡ Some child) }
{
    match children.get(index) {
        Some(other) => *other == child,
        None => false,
    }
}

/// How many new children are at an index where there was another child, or none.
fn count_of_entering(before: &[NodeId], after: &[NodeId]) -> usize {
    let mut count = 0usize;
    for (index, child) in after.iter().enumerate() {
        if !is_at(before, index, *child) {
            count = count.saturating_add(1);
        }
    }
    count
}

/// For how many more nodes that enter there is room than for those of one list.
const BESIDE: usize = 256;

/// How many old children a search for a new one looks at.
const NEARBY: usize = 64;

/// The old index of a child that is no longer there, if it is among the next few indexes from `from` on.
fn find_shifted(old: &[NodeId], new: &[NodeId], from: usize, child: NodeId) -> Option<usize>
    ensures found { IfSome result (λ index. (slice_get old.now index ≡ Some child) × (slice_get new.now index ≢ Some child)) }
    ensures bound { IfSome result (λ index. index < length old.now) }
{
    for index in from..old.len().min(from.saturating_add(NEARBY)) {
        if old[index] == child && !is_at(new, index, child) {
            return Some(index);
        }
    }
    None
}

/// The lists of a node's children, before the update and after it.
#[derive(Clone, Copy)]
pub(crate) struct Lists<'a> {
    pub(crate) parent: FullNodeId,
    pub(crate) before: &'a [NodeId],
    pub(crate) after: &'a [NodeId],
}

/// What a node listed and grafted before the update.
#[derive(Clone, Copy)]
struct Held<'a> {
    children: &'a [NodeId],
    graft: Option<TreeId>,
}

impl Comparing {
    /// Adds a node that entered a spot.
    fn arrive(
        &mut self,
        id: FullNodeId,
        spot: Option<Place>,
        is_shifted: bool,
    ) -> Result<(), UpdateError>
        ensures ok { OnOk result (self.new.entered ≡ self.old.entered ++ (id, arrival_at spot is_shifted) ∷ []) }
        ensures rest { self.new ≡ record self.old { entered = self.new.entered } }
        ensures err { IfErr result (λ e. e ≡ Memory) }
    {
        let arrival = Arrival { spot, is_shifted };
        self.entered.push(id, arrival)?;
        Ok(())
    }

    /// Compares the old root with the new one.
    fn compare_roots(&mut self, old: Option<FullNodeId>, new: FullNodeId) -> Result<(), UpdateError>
        ensures left { OnOk result (Gathers (OnlyAt None old (Some new)) self.old.left self.new.left) }
        ensures entered { OnOk result
            (Gathers (OnlyAt None (Some new) old) (spots_of self.old.entered) (spots_of self.new.entered)) }
        ensures unshifted { OnOk result (OnlyPlain self.old.entered self.new.entered) }
        ensures rest { self.new ≡ record self.old {
          left = self.new.left;
          entered = self.new.entered;
        } }
        ensures err { IfErr result (λ e. e ≡ Memory) }
    {
        if old == Some(new) {
            return Ok(());
        }
        push_spot(&mut self.left, old, None)?;
        self.arrive(new, None, false)
    }

    /// Adds the old child at an index to those that left, unless it is still there.
    fn leave_one(&mut self, lists: &Lists<'_>, index: usize) -> Result<(), UpdateError>
        ensures left { OnOk result (Leaves lists.now.parent
            (ids_before lists.now) (ids_after lists.now) index (index + 1)
            self.old.left self.new.left self.old.entered self.new.entered) }
        ensures rest { self.new ≡ record self.old { left = self.new.left } }
        ensures err { IfErr result (λ e. e ≡ Memory) }
    {
        let was = child_at(lists.parent, lists.before, index);
        let is = child_at(lists.parent, lists.after, index);
        if was == is {
            return Ok(());
        }
        push_spot(&mut self.left, was, Some((lists.parent, index)))
    }

    /// Adds the old children in a range of indexes to those that left, but for those that are still there.
    fn leave(&mut self, lists: &Lists<'_>, from: usize, to: usize) -> Result<(), UpdateError>
        ensures left { OnOk result (Leaves lists.now.parent
            (ids_before lists.now) (ids_after lists.now) from to
            self.old.left self.new.left self.old.entered self.new.entered) }
        ensures rest { self.new ≡ record self.old { left = self.new.left } }
        ensures err { IfErr result (λ e. e ≡ Memory) }
    {
        for index in from..to {
            self.leave_one(lists, index)?;
        }
        Ok(())
    }

    /// Compares the new child at an index. The old children before `next` have been handled; the result is up to which
    /// index they are handled then.
    fn compare_child(
        &mut self,
        lists: &Lists<'_>,
        index: usize,
        next: usize,
    ) -> Result<usize, UpdateError>
        requires { index < length lists.now.after.now }
        ensures ok { IfOk result (λ end. ComparesChild lists.now.parent
            (ids_before lists.now) (ids_after lists.now) index next end self.old self.new) }
        ensures rest { self.new ≡ record self.old {
          left = self.new.left;
          entered = self.new.entered;
        } }
        ensures err { IfErr result (λ e. e ≡ Memory) }
    {
        let child = lists.after[index];
        if is_at(lists.before, index, child) {
            self.leave(lists, next, index)?;
            return Ok(next.max(index + 1));
        }
        let id = full_id(lists.parent.tree, child);
        let Some(place) = find_shifted(lists.before, lists.after, next, child) else {
            self.arrive(id, Some((lists.parent, index)), false)?;
            return Ok(next);
        };
        self.leave(lists, next, place)?;
        self.arrive(id, Some((lists.parent, index)), true)?;
        Ok(place + 1)
    }

    /// Makes room for the children that enter a list, and with those of a long list for those of others, which are often few.
    fn make_room(&mut self, lists: &Lists<'_>) -> Result<(), UpdateError>
        ensures same { self.new ≡ self.old }
        ensures err { IfErr result (λ e. e ≡ Memory) }
    {
        let entering = count_of_entering(lists.before, lists.after);
        if entering == 0 {
            return Ok(());
        }
        let beside = entering.min(BESIDE);
        self.entered.reserve(entering.saturating_add(beside))?;
        Ok(())
    }

    /// Compares a node's child lists, old and new. A pointer into the old list goes along, so that children that have
    /// only shifted are found near it.
    fn compare_lists(&mut self, lists: &Lists<'_>) -> Result<(), UpdateError>
        ensures left { OnOk result (Leaves lists.now.parent
            (ids_before lists.now) (ids_after lists.now) 0 (length lists.now.before.now)
            self.old.left self.new.left self.old.entered self.new.entered) }
        ensures entered { OnOk result (Gathers
            (OnlyIn lists.now.parent (ids_after lists.now) (ids_before lists.now))
            (spots_of self.old.entered) (spots_of self.new.entered)) }
        ensures rest { self.new ≡ record self.old {
          left = self.new.left;
          entered = self.new.entered;
        } }
        ensures err { IfErr result (λ e. e ≡ Memory) }
    {
        self.make_room(lists)?;
        let mut next = 0;
        for index in 0..lists.after.len() {
            next = self.compare_child(lists, index, next)?;
        }
        self.leave(lists, next, lists.before.len())
    }

    /// Refuses a graft with children, one of the root tree, and one of a tree that another node of the update is a graft of.
    fn take_graft(&mut self, id: FullNodeId, node: &Node) -> Result<(), UpdateError>
        ensures ok { OnOk result
            (TakesGraft id node.now (at_name self.old.grafted) (at_name self.new.grafted)) }
        ensures rest { self.new ≡ record self.old { grafted = self.new.grafted } }
        ensures err { IfErr result (λ e. IsGraftFault id node.now (at_name self.old.grafted) e) }
    {
        let Some(name) = node.tree_id() else {
            return Ok(());
        };
        if is_root_tree(&name) {
            return Err(UpdateError::RootTreeGrafted(id.node));
        }
        if !node.children().is_empty() {
            return Err(UpdateError::GraftWithChildren(id.node));
        }
        if self.grafted.contains_key(&name) {
            return Err(UpdateError::GraftedTwice(name));
        }
        self.grafted.insert(name, id)?;
        Ok(())
    }

    /// Compares the trees that a node grafts, before and after.
    fn compare_grafts(
        &mut self,
        old: Option<TreeId>,
        new: Option<TreeId>,
    ) -> Result<(), UpdateError>
        ensures ok { OnOk result (ChangesGraft old new self.old self.new) }
        ensures rest { self.new ≡ record self.old {
          lost = self.new.lost;
          gained = self.new.gained;
        } }
        ensures err { IfErr result (λ e. e ≡ Memory) }
    {
        if old == new {
            return Ok(());
        }
        if let Some(name) = old {
            self.lost.push(name)?;
        }
        if let Some(name) = new {
            self.gained.push(name)?;
        }
        Ok(())
    }

    /// Where the search for the node of an entry starts.
    fn row_of(&self, entry: usize) -> usize {
        match self.rows.get(entry) {
            Some(row) => *row,
            None => entry,
        }
    }

    /// Compares a node's data with what it listed and grafted before.
    fn compare_data(
        &mut self,
        id: FullNodeId,
        named: Named,
        held: &Held<'_>,
        node: &Node,
    ) -> Result<(), UpdateError>
        requires there { IsSome (at self.old.named id) }
        ensures ok { OnOk result (ComparesData id named
            (map (in_tree id.tree) held.now.children.now) held.now.graft node.now self.old self.new) }
        ensures rest { self.new.grafted ≡ self.old.grafted }
        ensures err { IfErr result (λ e. e ≡ Memory) }
    {
        let mut near = self.row_of(named.entry);
        self.named.change_near(id, named, &mut near);
        let lists = Lists {
            parent: id,
            before: held.children,
            after: node.children(),
        };
        self.compare_lists(&lists)?;
        self.compare_grafts(held.graft, node.tree_id())
    }

    /// Compares a node of the update with its old record.
    fn compare_node<L: LookUps>(
        &mut self,
        look_ups: &mut L,
        id: FullNodeId,
        entry: usize,
        node: &Node,
    ) -> Result<(), UpdateError>
        requires there { IsSome (at self.old.named id) }
        ensures world { L.world look_ups.new ≡ L.world look_ups.old }
        ensures count { OnOk result (IsRaisedBy (L.asked look_ups.old) 1 (L.asked look_ups.new)) }
        ensures ok { OnOk result
            (ComparesNode (L.world look_ups.old) id entry node.now self.old self.new) }
        ensures err { IfErr result (λ e. IsGraftFault id node.now (at_name self.old.grafted) e) }
    {
        self.take_graft(id, node)?;
        let Some(old) = look_ups.node(id) else {
            let named = Named {
                entry,
                was: None,
                is_news: true,
            };
            let held = Held {
                children: &[],
                graft: None,
            };
            return self.compare_data(id, named, &held, node);
        };
        let named = Named {
            entry,
            was: Some(old.place),
            is_news: is_news(old.node, node),
        };
        let held = Held {
            children: old.node.children(),
            graft: old.node.tree_id(),
        };
        self.compare_data(id, named, &held, node)
    }

    /// Compares the root with the old one.
    fn begin(
        alloc: Global,
        named: SortedRows<Named>,
        opened: &Opened,
    ) -> Result<Comparing, UpdateError>
        ensures ok { IfOk result (λ c. BeginsComparing opened.now named c) }
        ensures err { IfErr result (λ e. e ≡ Memory) }
    {
        let rows = rows_of(alloc, named.entries())?;
        let mut comparing = Comparing {
            named,
            rows,
            left: RowList::new(alloc),
            entered: RowList::new(alloc),
            grafted: BTreeMap::new(alloc),
            lost: Vec::new(alloc),
            gained: Vec::new(alloc),
        };
        let root = full_id(opened.index, opened.root);
        let old_root = opened.record.root.map(|root| full_id(opened.index, root));
        comparing.compare_roots(old_root, root)?;
        Ok(comparing)
    }

    /// Sorts the lists, and refuses the update if a node entered two spots.
    fn settle_lists(self) -> Result<Compared, UpdateError>
        ensures ok { IfOk result (λ c. SettlesLists self c) }
        ensures err { IfErr result (λ e. IsEnteredTwice self e) }
    {
        let Comparing {
            named,
            rows: _,
            left,
            entered,
            grafted,
            lost,
            gained,
        } = self;
        match entered.settle() {
            Ok(entered) => Ok(Compared {
                named,
                left: left.settle_each(),
                entered,
                grafted,
                lost,
                gained,
            }),
            Err(id) => Err(UpdateError::ListedTwice(id.node)),
        }
    }
}

/// Compares the update's nodes, and the tree's root, with the old ones.
pub(crate) fn compare<L: LookUps>(
    alloc: Global,
    look_ups: &mut L,
    update: &TreeUpdate,
    opened: &Opened,
) -> Result<Compared, UpdateError>
    requires old { IsOld (L.world look_ups.old) }
    requires opened { HoldsOpened (L.world look_ups.old) (update_data update.now) opened.now }
    ensures world { L.world look_ups.new ≡ L.world look_ups.old }
    ensures count { OnOk result
        (IsRaisedBy (L.asked look_ups.old) (length update.now.nodes.items) (L.asked look_ups.new)) }
    ensures ok { IfOk result (λ c. HoldsCompared (L.world look_ups.old) (update_data update.now) c) }
    ensures err { IfErr result (λ e. IsRefusal (L.world look_ups.old) (update_data update.now) e) }
{
    let named = take(alloc, opened.index, update)?;
    let mut comparing = Comparing::begin(alloc, named, opened)?;
    for (entry, item) in update.nodes.iter().enumerate() {
        let id = full_id(opened.index, item.0);
        comparing.compare_node(look_ups, id, entry, &item.1)?;
    }
    let compared = comparing.settle_lists()?;
    Ok(compared)
}
