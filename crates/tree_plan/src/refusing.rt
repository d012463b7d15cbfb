//! Refuses nodes that are listed nowhere, or at a new place and one that they keep.
ghost use Rattle.std.specs.Prelude.{◌≡◌, ◌↔◌, ◌∷◌, [], map, IsTrue, Some, OnOk, IfOk, IfErr};
ghost use Rattle.model.specs.declared.FullNodeId.{FullNodeId};
ghost use Rattle.model.specs.World.{Place, in_tree, listed_ids};
ghost use Rattle.model.specs.Update.{merged_world};
ghost use Rattle.model.specs.Surgery.{IsRefined};
ghost use Rattle.tree_changes.specs.Refusals.{IsRefusal};
ghost use Rattle.tree_changes.specs.declared.error.UpdateError.TheVariants.{Memory};
ghost use Rattle.tree_plan.specs.Passes.{at, HoldsSettled, HoldsRemoved};
ghost use Rattle.tree_plan.specs.Cases.{IsCase, sent};
ghost use Rattle.tree_plan.specs.Refusing.{IsNowhere, AreListed, IsOfUnlisted, IsKept, IsListedStill, IsSearch, Enqueues, HasReached, SearchesAll, Explains};

use crate::passes::{Case, Compared, Named, Removed, Settled};
use model::{FullNodeId, Place};
use schema::NodeId;
use std::collections::BTreeSet;
use tree_changes::{LookUps, UpdateError};

/// Whether a node of the update is new and entered no spot. The search among the nodes that entered starts at `near`.
fn is_nowhere(compared: &Compared, id: FullNodeId, named: &Named, near: &mut usize) -> bool
    ensures { IsTrue result ↔ IsNowhere compared.now id named.now }
{
    named.was.is_none() && compared.entered.get_near(id, near).is_none()
}

/// Refuses the update if a new node of it entered no spot.
fn refuse_unlisted(compared: &Compared) -> Result<(), UpdateError>
    ensures ok { OnOk result (AreListed compared.now) }
    ensures err { IfErr result (IsOfUnlisted compared.now) }
{
    let mut near = 0;
    for item in compared.named.entries() {
        if is_nowhere(compared, item.0, &item.1, &mut near) {
            return Err(UpdateError::NotReached(item.0.node));
        }
    }
    Ok(())
}

/// Whether a place is in the list of a node that isn't removed.
fn is_kept(removed: &Removed, place: Place) -> bool
    ensures { IsTrue result ↔ IsKept removed.now place }
{
    let (parent, _) = place;
    !removed.gone.contains(&parent)
}

/// The nodes that a search has found, also in the order in which it found them.
#[derive(Drop)]
struct Search {
    seen: BTreeSet<FullNodeId>,
    queue: Vec<FullNodeId>,
}

/// Adds a node.
fn add(search: &mut Search, id: FullNodeId) -> Result<(), UpdateError>
    requires search { IsSearch search.old }
    ensures ok { OnOk result (Enqueues (id ∷ []) search.old search.new) }
    ensures err { IfErr result (λ e. e ≡ Memory) }
{
    if search.seen.contains(&id) {
        return Ok(());
    }
    search.seen.insert(id)?;
    search.queue.push(id)?;
    Ok(())
}

/// Adds a node's children.
fn add_children(
    search: &mut Search,
    parent: FullNodeId,
    children: &[NodeId],
) -> Result<(), UpdateError>
    requires search { IsSearch search.old }
    ensures ok { OnOk result (Enqueues (map (in_tree parent.tree) children.now) search.old search.new) }
    ensures err { IfErr result (λ e. e ≡ Memory) }
{
    for child in children {
        let id = FullNodeId {
            tree: parent.tree,
            node: *child,
        };
        add(search, id)?;
    }
    Ok(())
}

/// Visits a node: adds what it lists after the update.
fn visit<L: LookUps>(
    search: &mut Search,
    look_ups: &mut L,
    case: &Case<'_>,
    id: FullNodeId,
) -> Result<(), UpdateError>
    requires case { IsCase (L.world look_ups.old) case.now }
    requires search { IsSearch search.old }
    ensures world { L.world look_ups.new ≡ L.world look_ups.old }
    ensures ok { OnOk result (Enqueues
        (listed_ids (merged_world (L.world look_ups.old) (sent case.now)) id) search.old search.new) }
    ensures err { IfErr result (λ e. e ≡ Memory) }
{
    if let Some(named) = case.compared.named.get(&id) {
        return add_children(search, id, case.update.nodes[named.entry].1.children());
    }
    let Some(record) = look_ups.node(id) else {
        return Ok(());
    };
    add_children(search, id, record.node.children())
}

/// Continues until there is nothing new to find.
fn work_off<L: LookUps>(
    search: &mut Search,
    look_ups: &mut L,
    case: &Case<'_>,
) -> Result<(), UpdateError>
    requires case { IsCase (L.world look_ups.old) case.now }
    requires search { IsSearch search.old }
    ensures world { L.world look_ups.new ≡ L.world look_ups.old }
    ensures ok { OnOk result
        (SearchesAll (L.world look_ups.old) (sent case.now) search.old search.new) }
    ensures err { IfErr result (λ e. e ≡ Memory) }
{
    for position in 0..usize::MAX {
        if position >= search.queue.len() {
            return Ok(());
        }
        let id = search.queue[position];
        visit(search, look_ups, case, id)?;
    }
    Ok(())
}

/// The nodes of the named tree that are reached after the update.
fn find_reached<L: LookUps>(
    look_ups: &mut L,
    case: &Case<'_>,
) -> Result<BTreeSet<FullNodeId>, UpdateError>
    requires case { IsCase (L.world look_ups.old) case.now }
    ensures world { L.world look_ups.new ≡ L.world look_ups.old }
    ensures ok { IfOk result (HasReached (L.world look_ups.old) (sent case.now)) }
    ensures err { IfErr result (λ e. e ≡ Memory) }
{
    let mut search = Search {
        seen: BTreeSet::new(case.alloc),
        queue: Vec::new(case.alloc),
    };
    let root = FullNodeId {
        tree: case.opened.index,
        node: case.opened.root,
    };
    add(&mut search, root)?;
    work_off(&mut search, look_ups, case)?;
    Ok(search.seen)
}

/// The broken rule if a node is listed twice: either a node of the update isn't reached, or the node is listed twice.
fn fault_of_double(
    compared: &Compared,
    reached: &BTreeSet<FullNodeId>,
    double: FullNodeId,
) -> UpdateError
    ensures { Explains compared.now reached.now double result }
{
    for item in compared.named.entries() {
        if !reached.contains(&item.0) {
            return UpdateError::NotReached(item.0.node);
        }
    }
    UpdateError::ListedTwice(double.node)
}

/// The reason to refuse an update that lists a node at a second place.
fn explain<L: LookUps>(
    look_ups: &mut L,
    case: &Case<'_>,
    removed: &Removed,
    double: FullNodeId,
) -> UpdateError
    requires case { IsCase (L.world look_ups.old) case.now }
    requires removal { HoldsRemoved (L.world look_ups.old) (sent case.now) removed.now }
    requires double { IsListedStill (L.world look_ups.old) (sent case.now) double }
    ensures world { L.world look_ups.new ≡ L.world look_ups.old }
    ensures stands { IsRefusal (L.world look_ups.old) (sent case.now) result }
{
    match find_reached(look_ups, case) {
        Ok(reached) => fault_of_double(case.compared, &reached, double),
        Err(refusal) => refusal,
    }
}

/// Refuses an update that lists one of its nodes nowhere, or a node twice.
pub(crate) fn refuse_misplaced<L: LookUps>(
    look_ups: &mut L,
    case: &Case<'_>,
    settled: &Settled,
    removed: &Removed,
) -> Result<(), UpdateError>
    requires case { IsCase (L.world look_ups.old) case.now }
    requires settlement { HoldsSettled (L.world look_ups.old) (sent case.now) settled.now }
    requires removal { HoldsRemoved (L.world look_ups.old) (sent case.now) removed.now }
    ensures world { L.world look_ups.new ≡ L.world look_ups.old }
    ensures count { OnOk result (L.asked look_ups.new ≡ L.asked look_ups.old) }
    ensures ok { OnOk result (IsRefined (L.world look_ups.old) (sent case.now)) }
    ensures err { IfErr result (λ e. IsRefusal (L.world look_ups.old) (sent case.now) e) }
{
    refuse_unlisted(case.compared)?;
    for item in settled.doubles.iter() {
        if is_kept(removed, item.1) {
            return Err(explain(look_ups, case, removed, item.0));
        }
    }
    Ok(())
}
