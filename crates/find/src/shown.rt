//! What the common filter shows of a state. Which nodes nothing restricts is found out once for all of them.
ghost use Rattle.std.specs.Prelude.{◌≡◌, ◌||◌, true, false, IfOk, OnOk, Some};
ghost use Rattle.model.specs.Filters.{is_transparent, common_filter};
ghost use Rattle.model.specs.FocusFound.{is_focused};
ghost use Rattle.model.specs.World.{World};
ghost use Rattle.values_by_id.specs.Cells.{value_at};
ghost use Rattle.views.specs.FocusedOne.{is_passed};
ghost use Rattle.views.specs.Nodes.{world_at, id_at, data_at};
ghost use Rattle.find.specs.Free.{AreFree, is_restricted, restricts};

use accesskit_consumer::filters::{FilterResult, common_filter};
use accesskit_consumer::node::{FullNodeId, NodeRef};
use schema::Role;
use std::alloc::{AllocError, Global};
use values_by_id::IdIndex;

/// Which nodes of a state are free: neither they nor a node above them is hidden or clips its children. Of these the common filter's
/// answer needs no look at the nodes above.
#[derive(Drop)]
pub(crate) struct Free {
    known: IdIndex<bool>,
}

impl Free {
    /// The nodes from one on down.
    pub(crate) fn below(alloc: Global, top: NodeRef) -> Result<Free, AllocError>
        ensures { IfOk result (AreFree (world_at top.entry)) }
    {
        let mut free = Free {
            known: IdIndex::new(alloc),
        };
        free.note(&top)?;
        let mut nodes = top.descendants();
        while let Some(node) = nodes.next() {
            free.note(&node)?;
        }
        Ok(free)
    }

    /// Notes whether the node is free.
    fn note(&mut self, node: &NodeRef) -> Result<(), AllocError>
        ensures { (w : World) → world_at node.now ≡ w → AreFree w self.old → OnOk result (AreFree w self.new) }
    {
        let is_free = self.is_free_below(node);
        self.known.insert(node.id(), is_free)?;
        Ok(())
    }

    /// Whether the node is free, by what is known of its parent.
    fn is_free_below(&self, node: &NodeRef) -> bool
        ensures { AreFree (world_at node.now) self.now → result ≡ true →
            is_restricted (world_at node.now) (id_at node.now) ≡ false }
    {
        if restricts(node) {
            return false;
        }
        self.has_parent_of(node)
    }

    /// Whether the node has no parent, or one that is known to be free.
    fn has_parent_of(&self, node: &NodeRef) -> bool
        ensures { AreFree (world_at node.now) self.now → result ≡ true → restricts (data_at node.now) ≡ false →
            is_restricted (world_at node.now) (id_at node.now) ≡ false }
    {
        node.tree_state().know();
        match node.parent() {
            Some(parent) => self.has(parent.id()),
            None => true,
        }
    }

    /// Whether the node with this id is known to be free.
    fn has(&self, id: FullNodeId) -> bool
        ensures { result ≡ true → value_at self.now.known id ≡ Some true }
    {
        match self.known.get(&id) {
            Some(is_free) => *is_free,
            None => false,
        }
    }

    /// The common filter's answer for the node.
    pub(crate) fn answer(&self, node: &NodeRef<'_>) -> FilterResult
        ensures { AreFree (world_at node.now) self.now → result ≡ common_filter (world_at node.now) (id_at node.now) }
    {
        if self.has(node.id()) {
            return free_answer(node);
        }
        common_filter(node)
    }
}

/// Whether the node is hidden or clips its children.
fn restricts(node: &NodeRef) -> bool
    ensures { result ≡ restricts (data_at node.now) }
{
    node.data().is_hidden() || node.data().clips_children()
}

/// The common filter's answer for a node that is free.
fn free_answer(node: &NodeRef<'_>) -> FilterResult
    ensures { is_restricted (world_at node.now) (id_at node.now) ≡ false → result ≡ common_filter (world_at node.now) (id_at node.now) }
{
    node.tree_state().know();
    if is_passed(node) {
        return FilterResult::ExcludeNode;
    }
    FilterResult::Include
}

/// Whether the node is transparent and not focused. Such a node is excluded alone, unless it is hidden.
fn is_passed(node: &NodeRef) -> bool
    ensures { result ≡ is_passed (world_at node.now) (id_at node.now) }
{
    !is_focused(node) && is_transparent(node)
}

/// Whether the node is focused in the sense of the common filter.
fn is_focused(node: &NodeRef) -> bool
    ensures { result ≡ is_focused (world_at node.now) (id_at node.now) }
{
    node.tree_state().know();
    node.is_focused()
}

/// Whether the node is a graft, a container or a text run.
fn is_transparent(node: &NodeRef) -> bool
    ensures { result ≡ is_transparent (world_at node.now) (id_at node.now) }
{
    node.is_graft() || matches!(node.role(), Role::GenericContainer | Role::TextRun)
}
