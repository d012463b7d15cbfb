//! Drawing the boxes of a state.

ghost use Rattle.std.specs.Prelude.{◌≡◌, ◌-◌, IfOk, OnOk, option_and_then};
ghost use Rattle.std.specs.Io.KnownBytes.{Appends};
ghost use Rattle.std.specs.List.{FoldsTo};
ghost use Rattle.model.specs.Geometry.{bounding_box};
ghost use Rattle.views.specs.Nodes.{world_at, id_at};
ghost use Rattle.page_states.specs.Boxes.{picture_frame};
ghost use Rattle.page_states.specs.Nesting.{within};
ghost use Rattle.page_states.specs.Pictures.{box_link, box_text, ends_groups, group_begun, group_closed, group_opened, group_text, is_empty_box, is_grouped, linked_box, part_text, picture_begun, rect_text, ring_around, ring_text, row_state, use_text, view_begun, view_box, WritesPart, WritesPicture};

use crate::again::Way;
use crate::boxes::{Frame, extent};
use crate::names::write_anchor;
use crate::nesting::{MOST_LISTS, levels_after, within, write_times};
use crate::places::Place;
use crate::rows::Row;
use schema::WideRect;
use std::io::{self, Write};
use views::{FullNodeId, NodeRef};

/// The frame of a picture of these nodes, if one of them has a box and is not left out.
pub(crate) fn frame_of(places: &[Place]) -> Option<Frame>
    ensures { result ≡ picture_frame places.now }
{
    let all = extent(places)?;
    Some(all.widened(all.longer_side() / 40 + 1))
}

/// Draws the box of each node that has one, unless it is hidden or clipped, in order, and a ring around the focus. So a box is
/// below those of later nodes, as in a hit test. The boxes of a node and of all below it are a group, and where an earlier
/// state drew the same ones, its group is drawn again.
pub(crate) fn write_picture<O: Write>(
    number: u64,
    frame: Option<Frame>,
    rows: &[Row],
    focus: Option<NodeRef>,
    out: &mut O,
) -> io::Result<()>
    ensures { let ring = option_and_then (λ node. bounding_box (world_at node) (id_at node)) focus.entry in
        OnOk result (WritesPicture number frame rows.now ring (O.contents out.old) (O.contents out.new)) }
{
    let Some(frame) = frame else {
        return out.write_all(b"<p class=\"note\">No box is shown.</p>\n");
    };
    begin_picture(number, frame, out)?;
    let groups = write_parts(number, rows, out)?;
    end_groups(groups, out)?;
    write_ring(focus, frame, out)?;
    out.write_all(b"</svg></figure>\n")
}

/// Draws the boxes of these rows. Returns the number of groups that are begun after them.
fn write_parts<O: Write>(number: u64, rows: &[Row], out: &mut O) -> io::Result<usize>
    ensures { IfOk result (λ groups. FoldsTo (WritesPart number) (0, O.contents out.old) rows.now (groups, O.contents out.new)) }
{
    let mut groups = 0;
    for row in rows {
        let after = write_part(number, row, groups, out)?;
        groups = after;
    }
    Ok(groups)
}

/// Draws a node's box after one that is within so many groups, and begins its group if it has children. Returns the number of
/// groups.
fn write_part<O: Write>(number: u64, row: &Row, groups: usize, out: &mut O) -> io::Result<usize>
    ensures { IfOk result (λ after. WritesPart number (groups, O.contents out.old) row.now (after, O.contents out.new)) }
{
    if is_empty(row) {
        return Ok(groups);
    }
    let way = row.ways.drawn;
    write_part_as(number, row, way, groups, out)?;
    Ok(levels_after(row, way, groups))
}

/// Draws a node's box, which is shown in this way, after one that is within so many groups.
fn write_part_as<O: Write>(
    number: u64,
    row: &Row,
    way: Way,
    groups: usize,
    out: &mut O,
) -> io::Result<()>
    ensures { OnOk result (Appends (O.contents out.old) (O.contents out.new) (part_text number groups row.now way)) }
{
    match way {
        Way::Folded(_) => Ok(()),
        Way::Again(state) => {
            end_groups_for(row, groups, out)?;
            write_use_of(row, state, out)
        }
        Way::Whole => {
            end_groups_for(row, groups, out)?;
            write_group(number, row, out)
        }
    }
}

/// Whether a node has no box that is drawn and no children.
fn is_empty(row: &Row) -> bool
    ensures { result ≡ is_empty_box row.now }
{
    row.shown.look.drawn.is_empty() && row.shown.look.children.is_empty()
}

/// Whether a node's box is in a group of its own.
fn is_grouped(row: &Row) -> bool
    ensures { result ≡ is_grouped row.now }
{
    within(row) < MOST_LISTS
}

/// Ends those of so many groups that don't hold a node's box.
fn end_groups_for<O: Write>(row: &Row, groups: usize, out: &mut O) -> io::Result<()>
    ensures { OnOk result (Appends (O.contents out.old) (O.contents out.new) (ends_groups (groups - within row.now))) }
{
    end_groups(groups.saturating_sub(within(row)), out)
}

/// Ends so many groups.
fn end_groups<O: Write>(count: usize, out: &mut O) -> io::Result<()>
    ensures { OnOk result (Appends (O.contents out.old) (O.contents out.new) (ends_groups count)) }
{
    write_times(b"</g>\n", count, out)
}

/// Draws again what a state has drawn of this node and all below it.
fn write_use_of<O: Write>(row: &Row, state: u64, out: &mut O) -> io::Result<()>
    ensures { OnOk result (Appends (O.contents out.old) (O.contents out.new) (use_text state (id_at row.now.shown.place.node))) }
{
    write_use(state, row.shown.place.node.id(), out)
}

/// Draws again what a state has drawn of a node and all below it.
fn write_use<O: Write>(state: u64, id: FullNodeId, out: &mut O) -> io::Result<()>
    ensures { OnOk result (Appends (O.contents out.old) (O.contents out.new) (use_text state id)) }
{
    out.write_all(b"<use href=\"#b")?;
    write_anchor(state, id, out)?;
    out.write_all(b"\"/>\n")
}

/// Draws a node's box, in a group of its own if that isn't too deep. The group is begun if the node has children.
fn write_group<O: Write>(number: u64, row: &Row, out: &mut O) -> io::Result<()>
    ensures { OnOk result (Appends (O.contents out.old) (O.contents out.new) (group_text number row.now)) }
{
    open_group(number, row, out)?;
    write_box(number, row, out)?;
    close_group(row, out)
}

/// Begins the group of a node, if its box is in one.
fn open_group<O: Write>(number: u64, row: &Row, out: &mut O) -> io::Result<()>
    ensures { OnOk result (Appends (O.contents out.old) (O.contents out.new) (group_opened number row.now)) }
{
    if is_grouped(row) {
        return begin_group(number, row.shown.place.node.id(), out);
    }
    Ok(())
}

/// Ends the line of a node's box, and its group if there is one that has no others in it.
fn close_group<O: Write>(row: &Row, out: &mut O) -> io::Result<()>
    ensures { OnOk result (Appends (O.contents out.old) (O.contents out.new) (group_closed row.now)) }
{
    if is_grouped(row) && row.shown.look.children.is_empty() {
        return out.write_all(b"</g>\n");
    }
    out.write_all(b"\n")
}

/// Begins the group of a node.
fn begin_group<O: Write>(number: u64, id: FullNodeId, out: &mut O) -> io::Result<()>
    ensures { OnOk result (Appends (O.contents out.old) (O.contents out.new) (group_begun number id)) }
{
    out.write_all(b"<g id=\"b")?;
    write_anchor(number, id, out)?;
    out.write_all(b"\">")
}

/// Draws a node's box, if it has one that is drawn, with a link to its row.
fn write_box<O: Write>(number: u64, row: &Row, out: &mut O) -> io::Result<()>
    ensures { OnOk result (Appends (O.contents out.old) (O.contents out.new) (box_text number row.now)) }
{
    if row.shown.look.drawn.is_empty() {
        return Ok(());
    }
    write_linked(number, row, out)
}

/// Draws what is drawn of a node, with a link to its row.
fn write_linked<O: Write>(number: u64, row: &Row, out: &mut O) -> io::Result<()>
    ensures { OnOk result (Appends (O.contents out.old) (O.contents out.new) (linked_box number row.now)) }
{
    begin_row_link(number, row, out)?;
    out.write_all(&row.shown.look.drawn)?;
    out.write_all(b"</a>")
}

/// Begins a link of a picture to the row to which the box of this node leads.
fn begin_row_link<O: Write>(number: u64, row: &Row, out: &mut O) -> io::Result<()>
    ensures { let state = row_state number row.now.ways.row in
        OnOk result (Appends (O.contents out.old) (O.contents out.new) (box_link state (id_at row.now.shown.place.node))) }
{
    begin_link(
        row_state(number, row.ways.row),
        row.shown.place.node.id(),
        out,
    )
}

/// The state with the row to which a box in the state with this number leads.
fn row_state(number: u64, row: Way) -> u64
    ensures { result ≡ row_state number row }
{
    match row {
        Way::Whole | Way::Again(_) => number,
        Way::Folded(state) => state,
    }
}

/// Begins a link of a picture to a node's row.
fn begin_link<O: Write>(state: u64, id: FullNodeId, out: &mut O) -> io::Result<()>
    ensures { OnOk result (Appends (O.contents out.old) (O.contents out.new) (box_link state id)) }
{
    out.write_all(b"<a tabindex=\"-1\" href=\"#")?;
    write_anchor(state, id, out)?;
    out.write_all(b"\">")
}

/// Begins a picture that shows this frame.
fn begin_picture<O: Write>(number: u64, frame: Frame, out: &mut O) -> io::Result<()>
    ensures { OnOk result (Appends (O.contents out.old) (O.contents out.new) (picture_begun number frame)) }
{
    write!(
        out,
        "<figure><figcaption>Boxes of state {number}</figcaption>\n"
    )?;
    begin_view(frame, out)
}

/// Begins the part of a picture in which the boxes are drawn.
fn begin_view<O: Write>(frame: Frame, out: &mut O) -> io::Result<()>
    ensures { OnOk result (Appends (O.contents out.old) (O.contents out.new) (view_begun frame)) }
{
    out.write_all(b"<svg aria-hidden=\"true\" viewBox=\"")?;
    write_view_box(frame, out)?;
    out.write_all(b"\">\n")
}

/// Writes a frame's left, top, width and height.
fn write_view_box<O: Write>(frame: Frame, out: &mut O) -> io::Result<()>
    ensures { OnOk result (Appends (O.contents out.old) (O.contents out.new) (view_box frame)) }
{
    let x = frame.x0;
    let y = frame.y0;
    let width = frame.width();
    let height = frame.height();
    write!(out, "{x} {y} {width} {height}")
}

/// Draws a rectangle.
pub(crate) fn write_rect<O: Write>(class: &str, rect: Frame, out: &mut O) -> io::Result<()>
    ensures { OnOk result (Appends (O.contents out.old) (O.contents out.new) (rect_text class.now rect)) }
{
    let x = rect.x0;
    let y = rect.y0;
    let width = rect.width();
    let height = rect.height();
    write!(
        out,
        "<rect class=\"{class}\" x=\"{x}\" y=\"{y}\" width=\"{width}\" height=\"{height}\"/>"
    )
}

/// Draws a ring around the focus, if it has a box.
fn write_ring<O: Write>(focus: Option<NodeRef>, frame: Frame, out: &mut O) -> io::Result<()>
    ensures { let ring = option_and_then (λ node. bounding_box (world_at node) (id_at node)) focus.entry in
        OnOk result (Appends (O.contents out.old) (O.contents out.new) (ring_text frame ring)) }
{
    let Some(node) = focus else {
        return Ok(());
    };
    let Some(rect) = node.bounding_box() else {
        return Ok(());
    };
    write_rect("ring", ring_around(rect, frame), out)
}

/// A ring around a box, in a picture that shows this frame.
fn ring_around(rect: WideRect, frame: Frame) -> Frame
    ensures { result ≡ ring_around rect frame }
{
    Frame::of(rect).widened(frame.longer_side() / 150)
}
