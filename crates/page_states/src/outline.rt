//! Writing a tree as an outline.
ghost use Rattle.std.specs.Prelude.{◌≡◌, ◌-◌, OnOk, IfOk, map, option_copied};
ghost use Rattle.std.specs.Io.KnownBytes.{Appends};
ghost use Rattle.std.specs.List.{FoldsTo};
ghost use Rattle.model.specs.FocusFound.{is_focused_in_tree};
ghost use Rattle.views.specs.Nodes.{world_at, id_at};
ghost use Rattle.page_states.specs.Nesting.{within};
ghost use Rattle.page_states.specs.Rows.{again_text, as_in_text, begun_list, class_if, ends_text, focus_word, item_text, left_out_word, level_text, mark_text, row_begun, row_class, row_end, row_text, whole_text, words_text, WritesItem, WritesOutline};
ghost use Rattle.page_states.specs.Said.{label_texts, row_texts, value_texts};
ghost use Rattle.page_states.specs.Texts.{IsShown};

use crate::again::Way;
use crate::carried::is_focused;
use crate::marks::Mark;
use crate::names::{write_anchor, write_id, write_role, write_word};
use crate::nesting::{folds, levels_after, within, write_times};
use crate::places::Place;
use crate::rows::Row;
use crate::shown_texts::Texts;
use crate::words::{hidden_label_word, hidden_value_word, state_words};
use html::write_element;
use std::io::{self, Write};
use views::NodeRef;

/// The number of lists in one another that are indented.
const INDENTED: usize = 24;

/// Writes each node as a list item, in order. The item of a node with children folds, and has the items of those below it. A
/// node that was shown, with all below it, in an earlier state has one item alone, which leads to that state.
pub(crate) fn write_outline<O: Write>(number: u64, rows: &[Row], out: &mut O) -> io::Result<()>
    ensures { OnOk result (WritesOutline number rows.now (O.contents out.old) (O.contents out.new)) }
{
    out.write_all(b"<ul class=\"outline\">\n")?;
    let lists = write_items(number, rows, out)?;
    end_lists(lists, out)?;
    out.write_all(b"</ul>\n")
}

/// Writes the items of these rows. Returns the number of lists that are begun after them.
fn write_items<O: Write>(number: u64, rows: &[Row], out: &mut O) -> io::Result<usize>
    ensures { IfOk result (λ lists. FoldsTo (WritesItem number) (0, O.contents out.old) rows.now (lists, O.contents out.new)) }
{
    let mut lists = 0;
    for row in rows {
        let after = write_item(number, row, lists, out)?;
        lists = after;
    }
    Ok(lists)
}

/// Writes a node's item after one that is within so many lists. Returns the number of lists.
fn write_item<O: Write>(number: u64, row: &Row, lists: usize, out: &mut O) -> io::Result<usize>
    ensures { IfOk result (λ after. WritesItem number (lists, O.contents out.old) row.now (after, O.contents out.new)) }
{
    let way = row.ways.row;
    write_item_as(number, row, way, lists, out)?;
    Ok(levels_after(row, way, lists))
}

/// Writes a node's item, which is shown in this way, after one that is within so many lists.
fn write_item_as<O: Write>(
    number: u64,
    row: &Row,
    way: Way,
    lists: usize,
    out: &mut O,
) -> io::Result<()>
    ensures { OnOk result (Appends (O.contents out.old) (O.contents out.new) (item_text number lists row.now way)) }
{
    match way {
        Way::Folded(_) => Ok(()),
        Way::Again(state) => {
            end_lists_for(row, lists, out)?;
            write_again(number, row, state, out)
        }
        Way::Whole => {
            end_lists_for(row, lists, out)?;
            write_row(number, row, out)
        }
    }
}

/// Ends those of so many lists that don't hold a row.
fn end_lists_for<O: Write>(row: &Row, lists: usize, out: &mut O) -> io::Result<()>
    ensures { OnOk result (Appends (O.contents out.old) (O.contents out.new) (ends_text (lists - within row.now))) }
{
    end_lists(lists.saturating_sub(within(row)), out)
}

/// Ends so many lists.
fn end_lists<O: Write>(count: usize, out: &mut O) -> io::Result<()>
    ensures { OnOk result (Appends (O.contents out.old) (O.contents out.new) (ends_text count)) }
{
    write_times(b"</ul></details></li>\n", count, out)
}

/// Writes the item of a node that is, with all below it, as in an earlier state, with a link to its item there.
fn write_again<O: Write>(number: u64, row: &Row, state: u64, out: &mut O) -> io::Result<()>
    ensures { OnOk result (Appends (O.contents out.old) (O.contents out.new) (again_text number row.now state)) }
{
    let place = &row.shown.place;
    begin_row(number, place, false, out)?;
    out.write_all(&row.shown.look.row)?;
    out.write_all(b" <a href=\"#")?;
    write_anchor(state, place.node.id(), out)?;
    end_again(state, out)
}

/// Ends a link to an earlier state, and its row.
fn end_again<O: Write>(state: u64, out: &mut O) -> io::Result<()>
    ensures { OnOk result (Appends (O.contents out.old) (O.contents out.new) (as_in_text state)) }
{
    write!(out, "\">as in state {state}</a></li>\n")
}

/// Writes a row: its node's mark, and what is shown of it. If the node has children, it begins a list of them.
fn write_row<O: Write>(number: u64, row: &Row, out: &mut O) -> io::Result<()>
    ensures { OnOk result (Appends (O.contents out.old) (O.contents out.new) (whole_text number row.now)) }
{
    let place = &row.shown.place;
    let is_folding = folds(row);
    begin_row(number, place, is_folding, out)?;
    write_mark(place.mark, out)?;
    out.write_all(&row.shown.look.row)?;
    out.write_all(row_end(is_folding, within(row)).as_bytes())
}

/// The end of a row's line within so many lists, and of its item unless that folds.
fn row_end(is_folding: bool, within: usize) -> &'static str
    ensures { result.now ≡ row_end is_folding within }
{
    if is_folding {
        return begun_list(within);
    }
    "</li>\n"
}

/// Ends the line of an item that folds, and begins the list in it, within so many others.
fn begun_list(within: usize) -> &'static str
    ensures { result.now ≡ begun_list within }
{
    if within < INDENTED {
        "</summary><ul class=\"in\">\n"
    } else {
        "</summary><ul>\n"
    }
}

/// Begins a row's item.
fn begin_row<O: Write>(number: u64, place: &Place, is_folding: bool, out: &mut O) -> io::Result<()>
    ensures { OnOk result (Appends (O.contents out.old) (O.contents out.new) (row_begun number place.now is_folding)) }
{
    out.write_all(b"<li id=\"")?;
    write_anchor(number, place.node.id(), out)?;
    write_level(row_class(place), place.depth, is_folding, out)
}

/// Ends the tag of a row's item with its classes and its level, which counts from 1, and begins its line if it folds.
fn write_level<O: Write>(class: &str, depth: usize, is_folding: bool, out: &mut O) -> io::Result<()>
    ensures { OnOk result (Appends (O.contents out.old) (O.contents out.new) (level_text class.now depth is_folding)) }
{
    let level = depth.saturating_add(1);
    if is_folding {
        return write!(
            out,
            "\" class=\"{class}\" aria-level=\"{level}\"><details open><summary>"
        );
    }
    write!(out, "\" class=\"{class} e\" aria-level=\"{level}\">")
}

/// Writes what an update did to a node, if it did anything.
fn write_mark<O: Write>(mark: Option<Mark>, out: &mut O) -> io::Result<()>
    ensures { OnOk result (Appends (O.contents out.old) (O.contents out.new) (mark_text mark)) }
{
    let Some(mark) = mark else {
        return Ok(());
    };
    write_element("em", mark.class(), mark.word(), out)?;
    out.write_all(b" ")
}

/// The classes of a row.
fn row_class(place: &Place) -> &'static str
    ensures { result.now ≡ row_class place.now }
{
    class_if(place.is_left_out, place.mark)
}

/// The classes of a row that is left out or isn't, and has a mark or hasn't.
fn class_if(is_left_out: bool, mark: Option<Mark>) -> &'static str
    ensures { result.now ≡ class_if is_left_out mark }
{
    match (is_left_out, mark) {
        (false, None) => "n",
        (false, Some(mark)) => mark.class(),
        (true, None) => "x",
        (true, Some(Mark::Added)) => "x a",
        (true, Some(Mark::Updated)) => "x u",
    }
}

/// Writes a row without its mark and links: the role, label, value and state of its node, whether it is focused or isn't
/// shown, and its id.
pub(crate) fn write_row_text<O: Write>(place: &Place, texts: Texts, out: &mut O) -> io::Result<()>
    requires { IsShown place.now texts }
    ensures { OnOk result (Appends (O.contents out.old) (O.contents out.new) (row_text place.now)) }
{
    write_role(&place.node, out)?;
    write_texts(place, texts, out)?;
    write_words(&state_words(&place.node), out)?;
    write_word("em", "f", focus_word(&place.node), out)?;
    write_word("em", "h", left_out_word(place), out)?;
    out.write_all(b" ")?;
    write_id(place.node.id(), out)
}

/// Writes a node's label and value, if it has them, and in place of each that is hidden, that it is.
fn write_texts<O: Write>(place: &Place, texts: Texts, out: &mut O) -> io::Result<()>
    requires { IsShown place.now texts }
    ensures { OnOk result (Appends (O.contents out.old) (O.contents out.new)
        (row_texts place.now.hidden (world_at place.now.node) (id_at place.now.node))) }
{
    write_label(place, texts, out)?;
    write_value(place, texts, out)
}

/// Writes a node's label, if it has one, and that it is hidden, if it is.
fn write_label<O: Write>(place: &Place, texts: Texts, out: &mut O) -> io::Result<()>
    requires { IsShown place.now texts }
    ensures { OnOk result (Appends (O.contents out.old) (O.contents out.new)
        (label_texts place.now.hidden.label (world_at place.now.node) (id_at place.now.node))) }
{
    write_word("q", "l", texts.label, out)?;
    write_word("i", "w", hidden_label_word(place.hidden.label), out)
}

/// Writes a node's value, if it has one, and that it is hidden, if it is.
fn write_value<O: Write>(place: &Place, texts: Texts, out: &mut O) -> io::Result<()>
    requires { IsShown place.now texts }
    ensures { OnOk result (Appends (O.contents out.old) (O.contents out.new)
        (value_texts place.now.hidden.value (world_at place.now.node) (id_at place.now.node))) }
{
    write_word("q", "v", texts.value, out)?;
    write_word("i", "w", hidden_value_word(place.hidden.value), out)
}

/// Writes each word, if it is set.
fn write_words<O: Write>(words: &[Option<&'static str>], out: &mut O) -> io::Result<()>
    ensures { OnOk result (Appends (O.contents out.old) (O.contents out.new) (words_text (map option_copied words.now))) }
{
    for word in words {
        write_word("i", "w", *word, out)?;
    }
    Ok(())
}

/// The word for a node that the common filter excludes with a subtree.
fn left_out_word(place: &Place) -> Option<&'static str>
    ensures { option_copied result ≡ left_out_word place.now }
{
    if !place.is_left_out {
        return None;
    }
    if place.is_hidden {
        return Some("hidden");
    }
    Some("clipped")
}

/// The word for the focused node, or for the effective focus while the host window isn't focused.
fn focus_word(node: &NodeRef) -> Option<&'static str>
    ensures { option_copied result ≡ focus_word (world_at node.now) (id_at node.now) }
{
    if is_focused(*node) {
        return Some("focus");
    }
    if is_tree_focus(*node) && !node.tree_state().is_host_focused() {
        return Some("focus in the tree");
    }
    None
}

/// Whether the node has the focus of its tree, which the host window may not have.
fn is_tree_focus(node: NodeRef) -> bool
    ensures { result ≡ is_focused_in_tree (world_at node.entry) (id_at node.entry) }
{
    node.tree_state().know();
    node.is_focused_in_tree()
}
