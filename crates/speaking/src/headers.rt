//! Speech for the headers of a table's cell to which the focus comes.
ghost use Rattle.std.specs.Prelude.{◌≡◌, IfSome, OnOk, codes, option_map, slice_get};
ghost use Rattle.model.specs.Covers.{filtered_parent};
ghost use Rattle.model.specs.Frontier.{filtered_children};
ghost use Rattle.views.specs.Nodes.{world_at, id_at, data_at, seen_node, seen_through};
ghost use Rattle.speaking.specs.Headers.{is_said_as, is_cell, is_row, is_of_rows, cell_answer, table_answer, row_answer, cell_around, place_in_row, child_at, if_header, first_row, header_of_column, header_of_row, column_header, row_header, was_header, header_said, headers_said};

use crate::groups::say_named;
use accesskit_consumer::filters::FilterResult;
use accesskit_consumer::{FullNodeId, NodeRef};
use model::is_same;
use phrases::{Voice, role_word};
use schema::Role;
use std::alloc::{AllocError, Global};

/// Whether the node's role is said by this word.
fn is_said_as(node: &NodeRef, word: &str) -> bool
    ensures { result ≡ is_said_as word.now (data_at node.now) }
{
    role_word(node.role()) == word
}

/// Whether the node is a cell of a table, or a header.
fn is_cell(node: &NodeRef) -> bool
    ensures { result ≡ is_cell (data_at node.now) }
{
    is_said_as(node, "cell") || is_said_as(node, "row header") || is_said_as(node, "column header")
}

/// Whether the node may be between a table and its rows: a group of rows, or a container.
fn is_of_rows(node: &NodeRef) -> bool
    ensures { result ≡ is_of_rows (data_at node.now) }
{
    is_said_as(node, "row group") || node.role() == Role::GenericContainer
}

/// The filter that includes cells.
fn cells(node: &NodeRef<'_>) -> FilterResult
    ensures { result ≡ cell_answer (world_at node.now) (id_at node.now) }
{
    if is_cell(node) {
        FilterResult::Include
    } else {
        FilterResult::ExcludeNode
    }
}

/// The filter that passes over groups of rows.
fn tables(node: &NodeRef<'_>) -> FilterResult
    ensures { result ≡ table_answer (world_at node.now) (id_at node.now) }
{
    if is_of_rows(node) {
        FilterResult::ExcludeNode
    } else {
        FilterResult::Include
    }
}

/// The filter that includes rows, also those in groups of rows.
fn rows(node: &NodeRef<'_>) -> FilterResult
    ensures { result ≡ row_answer (world_at node.now) (id_at node.now) }
{
    if is_said_as(node, "row") {
        return FilterResult::Include;
    }
    if is_of_rows(node) {
        return FilterResult::ExcludeNode;
    }
    FilterResult::ExcludeSubtree
}

/// The node if it is a cell, or else the nearest cell above it.
#[tactic(auto, using(views::proofs::Climbing::says_shown))]
fn cell_around<'a>(node: NodeRef<'a>) -> Option<NodeRef<'a>>
    ensures world { IfSome result (λ cell. world_at cell ≡ world_at node.entry) }
    ensures cell { option_map id_at result ≡ cell_around (world_at node.entry) (id_at node.entry) }
{
    if is_cell(&node) {
        return Some(node);
    }
    node.filtered_parent(&cells)
}

/// The row of a cell, and its number in that.
#[tactic(auto, using(views::proofs::Climbing::says_shown))]
fn place_in_row<'a>(cell: NodeRef<'a>) -> Option<(NodeRef<'a>, usize)>
    ensures world { IfSome result (λ it. world_at it.0 ≡ world_at cell.entry) }
    ensures place { option_map (λ it. (id_at it.0, it.1)) result ≡ place_in_row (world_at cell.entry) (id_at cell.entry) }
{
    let (row, index) = cell.parent_and_index()?;
    if is_said_as(&row, "row") {
        Some((row, index))
    } else {
        None
    }
}

/// The child at this index.
fn child_at<'a>(node: NodeRef<'a>, index: usize) -> Option<NodeRef<'a>>
    ensures world { IfSome result (λ child. world_at child ≡ world_at node.entry) }
    ensures child { option_map id_at result ≡ child_at (world_at node.entry) (id_at node.entry) index }
{
    let child = *node.data().children().get(index)?;
    node.tree_state().node_by_id(FullNodeId {
        tree: node.id().tree,
        node: child,
    })
}

/// The first row of a table.
fn first_of<'a>(table: NodeRef<'a>) -> Option<NodeRef<'a>>
    ensures world { IfSome result (λ row. world_at row ≡ world_at table.entry) }
    ensures row { let w = world_at table.entry in
        option_map id_at result ≡ slice_get (filtered_children (row_answer w) w (id_at table.entry)) 0 }
{
    let shown = move |node: &NodeRef<'_>| rows(node);
    let mut found = table.filtered_children(shown);
    found.next()
}

/// The first row of the table in which a row is.
fn first_row<'a>(row: NodeRef<'a>) -> Option<NodeRef<'a>>
    ensures world { IfSome result (λ first. world_at first ≡ world_at row.entry) }
    ensures row { option_map id_at result ≡ first_row (world_at row.entry) (id_at row.entry) }
{
    let table = row.filtered_parent(&tables)?;
    first_of(table)
}

/// A node that is said by this word, unless it is the cell itself.
#[tactic(auto, using(views::proofs::Climbing::says_shown))]
fn if_header<'a>(node: NodeRef<'a>, cell: FullNodeId, word: &str) -> Option<NodeRef<'a>>
    ensures world { IfSome result (λ header. world_at header ≡ world_at node.entry) }
    ensures header { option_map id_at result ≡ if_header (world_at node.entry) word.now cell (id_at node.entry) }
{
    if is_said_as(&node, word) && !is_same(node.id(), cell) {
        Some(node)
    } else {
        None
    }
}

/// The cell at an index of the first row, if it is a column's header.
fn header_of_column<'a>(cell: NodeRef<'a>, row: NodeRef<'a>, index: usize) -> Option<NodeRef<'a>>
    requires { world_at row ≡ world_at cell }
    ensures world { IfSome result (λ header. world_at header ≡ world_at cell.entry) }
    ensures header { let w = world_at cell.entry in
        option_map id_at result ≡ header_of_column w (id_at cell.entry) (id_at row.entry, index) }
{
    let first = first_row(row)?;
    if_header(child_at(first, index)?, cell.id(), "column header")
}

/// The first cell of a row, if it is the row's header.
fn header_of_row<'a>(cell: NodeRef<'a>, row: NodeRef<'a>) -> Option<NodeRef<'a>>
    requires { world_at row ≡ world_at cell }
    ensures world { IfSome result (λ header. world_at header ≡ world_at cell.entry) }
    ensures header { let w = world_at cell.entry in
        option_map id_at result ≡ header_of_row w (id_at cell.entry) (id_at row.entry) }
{
    if_header(child_at(row, 0)?, cell.id(), "row header")
}

/// The header of the column of the cell around a node.
fn column_header<'a>(node: NodeRef<'a>) -> Option<NodeRef<'a>>
    ensures world { IfSome result (λ header. world_at header ≡ world_at node.entry) }
    ensures header { option_map id_at result ≡ column_header (world_at node.entry) (id_at node.entry) }
{
    let cell = cell_around(node)?;
    let (row, index) = place_in_row(cell)?;
    header_of_column(cell, row, index)
}

/// The header of the row of the cell around a node.
fn row_header<'a>(node: NodeRef<'a>) -> Option<NodeRef<'a>>
    ensures world { IfSome result (λ header. world_at header ≡ world_at node.entry) }
    ensures header { option_map id_at result ≡ row_header (world_at node.entry) (id_at node.entry) }
{
    let cell = cell_around(node)?;
    let (row, _) = place_in_row(cell)?;
    header_of_row(cell, row)
}

/// Whether this was the header of the old focus's column too.
fn was_column_header(old: Option<&NodeRef<'_>>, header: NodeRef) -> bool
    ensures { result ≡ was_header column_header (seen_through old.entry) (id_at header.entry) }
{
    let Some(node) = old else {
        return false;
    };
    match column_header(*node) {
        Some(before) => is_same(header.id(), before.id()),
        None => false,
    }
}

/// Whether this was the header of the old focus's row too.
fn was_row_header(old: Option<&NodeRef<'_>>, header: NodeRef) -> bool
    ensures { result ≡ was_header row_header (seen_through old.entry) (id_at header.entry) }
{
    let Some(node) = old else {
        return false;
    };
    match row_header(*node) {
        Some(before) => is_same(header.id(), before.id()),
        None => false,
    }
}

/// Says the header of the new focus's column, unless it was the old focus's too.
fn say_column(
    alloc: Global,
    voice: &mut Voice,
    old: Option<&NodeRef>,
    new: NodeRef,
) -> Result<(), AllocError>
    ensures { OnOk result (voice.new ≡ header_said column_header (seen_through old.entry) (seen_node new.entry) voice.old) }
{
    let Some(header) = column_header(new) else {
        return Ok(());
    };
    if was_column_header(old, header) {
        return Ok(());
    }
    say_named(alloc, voice, header)
}

/// Says the header of the new focus's row, unless it was the old focus's too.
fn say_row(
    alloc: Global,
    voice: &mut Voice,
    old: Option<&NodeRef>,
    new: NodeRef,
) -> Result<(), AllocError>
    ensures { OnOk result (voice.new ≡ header_said row_header (seen_through old.entry) (seen_node new.entry) voice.old) }
{
    let Some(header) = row_header(new) else {
        return Ok(());
    };
    if was_row_header(old, header) {
        return Ok(());
    }
    say_named(alloc, voice, header)
}

/// Says the headers of the cell to which the focus has come: of its row and of its column, unless they were the old focus's too.
///
/// # Errors
///
/// Returns `AllocError` if memory runs out.
pub(crate) fn say_headers(
    alloc: Global,
    voice: &mut Voice,
    old: Option<&NodeRef>,
    new: NodeRef,
) -> Result<(), AllocError>
    ensures { OnOk result (voice.new ≡ headers_said (seen_through old.entry) (seen_node new.entry) voice.old) }
{
    say_row(alloc, voice, old, new)?;
    say_column(alloc, voice, old, new)
}
