//! The nodes that a query finds.
ghost use Rattle.std.specs.Prelude.{◌≡◌, ◌∷◌, ◌++◌, [], All, IfOk, map, if◌then◌else◌};
ghost use Rattle.std.specs.Iterator.{IsFinite, Drains};
ghost use Rattle.model.specs.World.{World};
ghost use Rattle.model.specs.Covers.{is_included};
ghost use Rattle.views.specs.Nodes.{world_at, id_at};
ghost use Rattle.views.specs.ShownWorlds.{world_of};
ghost use Rattle.queries.specs.Found.{AreShown, AreSought, IsSought, searched_below, searched_from, searched_in, AreFound};
ghost use Rattle.queries.specs.Outcomes.{IsOptional, IsOne};

use crate::by::By;
use crate::condition::Condition;
use crate::error::{QueryError, Sought};
use crate::fits::fits;
use crate::listed::near;
use accesskit_consumer::filters::FilterResult;
use accesskit_consumer::node::{FullNodeId, NodeRef};
use accesskit_consumer::tree::StateRef;
use accesskit_consumer::walks::Filter;
use std::alloc::{AllocError, Global};

/// A place in which queries find nodes: a whole state, or what is below a node. Implemented by `StateRef` and `NodeRef`.
///
/// Searched is what the query's filter shows, in pre-order. In a state that includes the root, if the filter includes it; below a node
/// the node itself isn't searched. The common filter leaves out what is hidden, and what is scrolled out of the ancestor that clips
/// it, but for the nearest nodes on either side.
pub trait Queries<'a> {
    ghost use Rattle.std.specs.Prelude.{List};
    ghost use Rattle.model.specs.World.{World};
    ghost use Rattle.model.specs.declared.FullNodeId.{FullNodeId};
    ghost use Rattle.model.specs.declared.filters.FilterResult.{FilterResult};

    /// The world that is read.
    ghost world: { Self → World };

    /// What is searched with a filter that answers so, in order.
    ghost searched: { Self → (FullNodeId → FilterResult) → List FullNodeId };

    /// Each node that fits, in order.
    ///
    /// # Errors
    ///
    /// Returns `AllocError` if memory runs out.
    fn find_all<F: Filter, C: Condition>(
        &self,
        alloc: Global,
        by: &By<'_, F, C>,
    ) -> Result<Vec<NodeRef<'a>>, AllocError>
        requires filter { F.can_answer by.now.filter }
        requires condition { C.can_ask by.now.condition }
        ensures { let shows = F.answers by.now.filter in let answers = C.answers by.now.condition in
            IfOk result (λ found. AreFound by.now.wanted shows answers (world self.now) (searched self.now) found.items) };

    /// The only node that fits, or `None` if no node fits.
    ///
    /// # Errors
    ///
    /// Returns `QueryError::Several` if more than one fits, and `QueryError::Memory` if memory runs out.
    fn find_optional<F: Filter, C: Condition>(
        &self,
        alloc: Global,
        by: &By<'_, F, C>,
    ) -> Result<Option<NodeRef<'a>>, QueryError>
        requires filter { F.can_answer by.now.filter }
        requires condition { C.can_ask by.now.condition }
        ensures { let shows = F.answers by.now.filter in let answers = C.answers by.now.condition in
            IsOptional by.now.wanted (AreFound by.now.wanted shows answers (world self.now) (searched self.now)) result };

    /// The only node that fits.
    ///
    /// # Errors
    ///
    /// Returns `QueryError::NotFound` if none fits, `QueryError::Several` if more than one fits, and `QueryError::Memory` if memory
    /// runs out.
    fn find_one<F: Filter, C: Condition>(
        &self,
        alloc: Global,
        by: &By<'_, F, C>,
    ) -> Result<NodeRef<'a>, QueryError>
        requires filter { F.can_answer by.now.filter }
        requires condition { C.can_ask by.now.condition }
        ensures { let shows = F.answers by.now.filter in let answers = C.answers by.now.condition in
            IsOne by.now.wanted (AreShown shows (world self.now) (searched self.now))
            (AreFound by.now.wanted shows answers (world self.now) (searched self.now)) result };
}

/// The nodes of a walk, in order.
fn nodes_of<'a, W: Iterator<Item = NodeRef<'a>> + Drop>(
    alloc: Global,
    walk: W,
) -> Result<Vec<NodeRef<'a>>, AllocError>
    requires can { W.can_next walk }
    requires ends { IsFinite (W.remaining walk) }
    ensures { IfOk result (λ nodes. Drains W.next_gives walk nodes.items) }
{
    let mut nodes = Vec::new(alloc);
    for node in walk {
        nodes.push(node)?;
    }
    Ok(nodes)
}

/// The nodes that the filter shows below a node, in pre-order.
fn shown_below<'a, F: Filter>(
    alloc: Global,
    top: NodeRef<'a>,
    filter: &F,
) -> Result<Vec<NodeRef<'a>>, AllocError>
    requires { F.can_answer filter.now }
    ensures { let w = world_at top.entry in
        IfOk result (λ nodes. AreShown (F.answers filter.now) w (λ f. searched_below f w (id_at top.entry)) nodes.items) }
{
    let shown = |node: &NodeRef<'_>| filter.answer(node);
    nodes_of(alloc, top.filtered_descendants(shown))
}

/// These nodes, after the top if the filter's answer for it includes it.
fn with_top<'a>(
    mut nodes: Vec<NodeRef<'a>>,
    top: NodeRef<'a>,
    answer: FilterResult,
) -> Result<Vec<NodeRef<'a>>, AllocError>
    ensures { IfOk result (λ all. all.items ≡ (if is_included answer then top.entry ∷ nodes.entry.items else nodes.entry.items)) }
{
    if answer == FilterResult::Include {
        nodes.insert(0, top)?;
    }
    Ok(nodes)
}

/// The nodes that the filter shows from a node on, in pre-order.
fn shown_from<'a, F: Filter>(
    alloc: Global,
    top: NodeRef<'a>,
    filter: &F,
) -> Result<Vec<NodeRef<'a>>, AllocError>
    requires { F.can_answer filter.now }
    ensures { let w = world_at top.entry in
        IfOk result (λ nodes. AreShown (F.answers filter.now) w (λ f. searched_from f w (id_at top.entry)) nodes.items) }
{
    let nodes = shown_below(alloc, top, filter)?;
    with_top(nodes, top, filter.answer(&top))
}

/// The nodes that the filter shows in a whole state, in pre-order.
fn shown_in<'a, F: Filter>(
    alloc: Global,
    state: StateRef<'a>,
    filter: &F,
) -> Result<Vec<NodeRef<'a>>, AllocError>
    requires { F.can_answer filter.now }
    ensures { let w = world_of state.entry in
        IfOk result (λ nodes. AreShown (F.answers filter.now) w (λ f. searched_in f w) nodes.items) }
{
    shown_from(alloc, state.root(), filter)
}

/// Whether a node has what was asked for, and meets the condition.
fn is_found<F, C: Condition>(
    alloc: Global,
    node: NodeRef<'_>,
    by: &By<'_, F, C>,
) -> Result<bool, AllocError>
    requires { C.can_ask by.now.condition }
    ensures { IfOk result (λ is. IsSought by.now.wanted (C.answers by.now.condition) node.entry is) }
{
    Ok(fits(alloc, node, &by.wanted)? && by.condition.is_met(&node))
}

/// Adds the node if it fits.
fn keep_if<'a>(
    found: &mut Vec<NodeRef<'a>>,
    node: NodeRef<'a>,
    fits: bool,
) -> Result<(), AllocError>
    ensures { IfOk result (λ _. found.new.items ≡ (if fits then found.old.items ++ node.entry ∷ [] else found.old.items)) }
{
    if fits {
        found.push(node)?;
    }
    Ok(())
}

/// Those of these nodes that fit.
fn fitting<'a, F, C: Condition>(
    alloc: Global,
    nodes: &[NodeRef<'a>],
    by: &By<'_, F, C>,
) -> Result<Vec<NodeRef<'a>>, AllocError>
    requires { C.can_ask by.now.condition }
    ensures { (w : World) → All (λ n. world_at n ≡ w) nodes.now →
        IfOk result (λ found. AreSought by.now.wanted (C.answers by.now.condition) w nodes.now found.items) }
{
    let mut found = Vec::new(alloc);
    for node in nodes {
        let fits = is_found(alloc, *node, by)?;
        keep_if(&mut found, *node, fits)?;
    }
    Ok(found)
}

/// The ids of nodes, in order.
fn ids_of(alloc: Global, nodes: &[NodeRef<'_>]) -> Result<Vec<FullNodeId>, AllocError>
    ensures { IfOk result (λ ids. ids.items ≡ map id_at nodes.now) }
{
    let mut ids = Vec::new(alloc);
    for node in nodes {
        ids.push(node.id())?;
    }
    Ok(ids)
}

/// The only node of those that were found, if there is one.
fn at_most_one<'a, F, C>(
    alloc: Global,
    found: &[NodeRef<'a>],
    by: &By<'_, F, C>,
) -> Result<Option<NodeRef<'a>>, QueryError>
    ensures { IsOptional by.now.wanted (λ those. those ≡ found.now) result }
{
    if found.len() > 1 {
        return Err(QueryError::Several {
            sought: Sought::of(alloc, &by.wanted)?,
            found: ids_of(alloc, found)?,
        });
    }
    Ok(found.first().copied())
}

/// The only node of those searched that fits, or why there isn't one.
fn only_one<'a, F, C: Condition>(
    alloc: Global,
    searched: &[NodeRef<'a>],
    by: &By<'_, F, C>,
) -> Result<NodeRef<'a>, QueryError>
    requires { C.can_ask by.now.condition }
    ensures { (w : World) → All (λ n. world_at n ≡ w) searched.now →
        IsOne by.now.wanted (λ those. those ≡ searched.now) (AreSought by.now.wanted (C.answers by.now.condition) w searched.now) result }
{
    let found = fitting(alloc, searched, by)?;
    match at_most_one(alloc, &found, by)? {
        Some(node) => Ok(node),
        None => Err(QueryError::NotFound {
            sought: Sought::of(alloc, &by.wanted)?,
            near: near(alloc, searched, by.wanted.role)?,
        }),
    }
}

impl<'a> Queries<'a> for NodeRef<'a> {
    ghost world = { λ n. world_at n };

    ghost searched = { λ n f. searched_below f (world_at n) (id_at n) };

    fn find_all<F: Filter, C: Condition>(
        &self,
        alloc: Global,
        by: &By<'_, F, C>,
    ) -> Result<Vec<NodeRef<'a>>, AllocError> {
        let searched = shown_below(alloc, *self, &by.filter)?;
        fitting(alloc, &searched, by)
    }

    fn find_optional<F: Filter, C: Condition>(
        &self,
        alloc: Global,
        by: &By<'_, F, C>,
    ) -> Result<Option<NodeRef<'a>>, QueryError> {
        let found = self.find_all(alloc, by)?;
        at_most_one(alloc, &found, by)
    }

    fn find_one<F: Filter, C: Condition>(
        &self,
        alloc: Global,
        by: &By<'_, F, C>,
    ) -> Result<NodeRef<'a>, QueryError> {
        let searched = shown_below(alloc, *self, &by.filter)?;
        only_one(alloc, &searched, by)
    }
}

impl<'a> Queries<'a> for StateRef<'a> {
    ghost world = { λ s. world_of s };

    ghost searched = { λ s f. searched_in f (world_of s) };

    fn find_all<F: Filter, C: Condition>(
        &self,
        alloc: Global,
        by: &By<'_, F, C>,
    ) -> Result<Vec<NodeRef<'a>>, AllocError> {
        let searched = shown_in(alloc, *self, &by.filter)?;
        fitting(alloc, &searched, by)
    }

    fn find_optional<F: Filter, C: Condition>(
        &self,
        alloc: Global,
        by: &By<'_, F, C>,
    ) -> Result<Option<NodeRef<'a>>, QueryError> {
        let found = self.find_all(alloc, by)?;
        at_most_one(alloc, &found, by)
    }

    fn find_one<F: Filter, C: Condition>(
        &self,
        alloc: Global,
        by: &By<'_, F, C>,
    ) -> Result<NodeRef<'a>, QueryError> {
        let searched = shown_in(alloc, *self, &by.filter)?;
        only_one(alloc, &searched, by)
    }
}
