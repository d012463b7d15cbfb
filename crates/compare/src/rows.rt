//! What is shown of a tree: a line for each node that the common filter shows.
ghost use Rattle.std.specs.Prelude.{◌≡◌, ◌∷◌, IfOk, map, if◌then◌else◌};
ghost use Rattle.model.specs.Covers.{is_included};
ghost use Rattle.std.specs.Iterator.{IsFinite, Drains};
ghost use Rattle.model.specs.Filters.{common_filter as common};
ghost use Rattle.views.specs.Descendants.{filtered_descendants};
ghost use Rattle.views.specs.Nodes.{world_at, id_at};
ghost use Rattle.compare.specs.Rows.{row_at, rows_from, rows_of, shown_from, whole};
ghost use Rattle.compare.specs.Compared.{AreNodesOf, text_of};

use crate::row::row_text;
use accesskit_consumer::filters::{FilterResult, common_filter};
use accesskit_consumer::node::NodeRef;
use session::Session;
use std::alloc::{AllocError, Global};

/// A node with the line that shows it.
#[derive(Drop)]
pub(crate) struct Row<'a> {
    pub node: NodeRef<'a>,
    pub text: Vec<u8>,
}

/// A row for each node that is shown of the tree; none if there is no tree.
pub(crate) fn rows_of<'a>(
    alloc: Global,
    session: &'a Option<Session>,
) -> Result<Vec<Row<'a>>, AllocError>
    ensures { IfOk result (λ rows. map text_of rows.items ≡ rows_of session.now) }
{
    match session {
        Some(session) => rows_from(alloc, session.tree().state().root()),
        None => Ok(Vec::new(alloc)),
    }
}

/// A row for each node that is shown, from a node on.
fn rows_from<'a>(alloc: Global, top: NodeRef<'a>) -> Result<Vec<Row<'a>>, AllocError>
    ensures { IfOk result (λ rows. map text_of rows.items ≡ rows_from (world_at top.entry) (id_at top.entry)) }
{
    let nodes = shown_from(alloc, top)?;
    rows_for(alloc, &nodes)
}

/// A row for each of these nodes.
fn rows_for<'a>(alloc: Global, nodes: &[NodeRef<'a>]) -> Result<Vec<Row<'a>>, AllocError>
    ensures { IfOk result (λ rows. map text_of rows.items ≡ map row_at nodes.now) }
{
    let mut rows = Vec::new(alloc);
    for node in nodes {
        let text = row_text(alloc, *node)?;
        rows.push(Row { node: *node, text })?;
    }
    Ok(rows)
}

/// The nodes that the common filter shows, from a node on.
fn shown_from<'a>(alloc: Global, top: NodeRef<'a>) -> Result<Vec<NodeRef<'a>>, AllocError>
    ensures { let w = world_at top.entry in
        IfOk result (λ nodes. AreNodesOf w (shown_from w (id_at top.entry)) nodes.items) }
{
    let nodes = shown_below(alloc, top)?;
    with_top(nodes, top, common_filter(&top))
}

/// These nodes, after the top if this answer of the filter includes it.
fn with_top<'a>(
    nodes: Vec<NodeRef<'a>>,
    top: NodeRef<'a>,
    answer: FilterResult,
) -> Result<Vec<NodeRef<'a>>, AllocError>
    ensures { IfOk result (λ all. all.items ≡ (if is_included answer then top.entry ∷ nodes.entry.items else nodes.entry.items)) }
{
    let mut all = nodes;
    if answer == FilterResult::Include {
        all.insert(0, top)?;
    }
    Ok(all)
}

/// The nodes that the common filter shows below a node.
fn shown_below<'a>(alloc: Global, top: NodeRef<'a>) -> Result<Vec<NodeRef<'a>>, AllocError>
    ensures { let w = world_at top.entry in
        IfOk result (λ nodes. AreNodesOf w (filtered_descendants (common w) w (id_at top.entry)) nodes.items) }
{
    let shown = move |shown: &NodeRef<'_>| common_filter(shown);
    nodes_of(alloc, top.filtered_descendants(shown))
}

/// The nodes of a walk, in order.
fn nodes_of<'a, W: Iterator<Item = NodeRef<'a>> + Drop>(
    alloc: Global,
    walk: W,
) -> Result<Vec<NodeRef<'a>>, AllocError>
    requires can { W.can_next walk }
    requires ends { IsFinite (W.remaining walk) }
    ensures { IfOk result (λ nodes. Drains W.next_gives walk nodes.items) }
{
    let mut nodes = Vec::new(alloc);
    for node in walk {
        nodes.push(node)?;
    }
    Ok(nodes)
}

/// All that is shown: the text of each row, with its end.
pub(crate) fn whole(alloc: Global, rows: &[Row]) -> Result<Vec<u8>, AllocError>
    ensures { IfOk result (λ made. made.items ≡ whole (map text_of rows.now)) }
{
    let mut text = Vec::new(alloc);
    for row in rows {
        text.extend_from_slice(&row.text)?;
        text.push(b'\n')?;
    }
    Ok(text)
}
