//! What a picture draws of a node: its box, and a text in it.
ghost use Rattle.std.specs.Prelude.{◌≡◌, OnOk, option_copied, option_map};
ghost use Rattle.std.specs.Io.KnownBytes.{Appends};
ghost use Rattle.model.specs.Lists.{first_child as first_child_of};
ghost use Rattle.views.specs.Nodes.{world_at, id_at};
ghost use Rattle.views.specs.PlainWalks.{node_in, node_of};
ghost use Rattle.page_states.specs.Drawn.{begins_with_run, box_class, caption_begun, caption_in, caption_place, caption_size, caption_tag, clip_begun, drawn_at, fitting_size, heading_begun, heading_size, heading_tag, included_class, is_leaf, is_run_with_box, size_text, text_begun, text_in_box, transparent_class};
ghost use Rattle.page_states.specs.Texts.{IsShown};

use crate::boxes::Frame;
use crate::marks::Mark;
use crate::picture::write_rect;
use crate::places::Place;
use crate::shown_texts::{Texts, caption_text};
use html::write_escaped;
use schema::Role;
use std::io::{self, Write};
use views::NodeRef;
use views::filters::FilterResult;

/// Draws a node's box, with the node's label or value in it: of a node with children at the top.
pub(crate) fn write_drawn<O: Write>(
    frame: Frame,
    rect: Frame,
    place: &Place,
    texts: Texts,
    out: &mut O,
) -> io::Result<()>
    requires { IsShown place.now texts }
    ensures { OnOk result (Appends (O.contents out.old) (O.contents out.new) (drawn_at frame rect place.now)) }
{
    write_rect(box_class(place), rect, out)?;
    let is_leaf = is_leaf(place);
    write_caption(frame, rect, is_leaf, text_in_box(place, texts), out)
}

/// The classes of a box.
fn box_class(place: &Place) -> &'static str
    ensures { result.now ≡ box_class place.now }
{
    match place.answer {
        FilterResult::Include => included_class(place.mark),
        FilterResult::ExcludeNode | FilterResult::ExcludeSubtree => transparent_class(place.mark),
    }
}

/// The classes of the box of a node that is included.
fn included_class(mark: Option<Mark>) -> &'static str
    ensures { result.now ≡ included_class mark }
{
    match mark {
        None => "n",
        Some(mark) => mark.class(),
    }
}

/// The classes of the box of a node that is excluded alone.
fn transparent_class(mark: Option<Mark>) -> &'static str
    ensures { result.now ≡ transparent_class mark }
{
    match mark {
        None => "t",
        Some(Mark::Added) => "t a",
        Some(Mark::Updated) => "t u",
    }
}

/// Whether a node has no children.
fn is_leaf(place: &Place) -> bool
    ensures { result ≡ is_leaf place.now }
{
    let mut ids = place.node.child_ids();
    match ids.next() {
        Some(_) => false,
        None => true,
    }
}

/// What a node's box shows: its label, or else its value, unless its first run has a box, where that is shown.
fn text_in_box<'t>(place: &Place, texts: Texts<'t>) -> Option<&'t str>
    requires { IsShown place.now texts }
    ensures { option_copied result ≡ text_in_box place.now }
{
    if texts.label.is_none() && begins_with_run(place.node) {
        return None;
    }
    caption_text(texts)
}

/// Whether the first child of a node is a run that has a box.
fn begins_with_run(node: NodeRef) -> bool
    ensures { result ≡ begins_with_run (world_at node.entry) (id_at node.entry) }
{
    match first_child(node) {
        Some(child) => is_run_with_box(child),
        None => false,
    }
}

/// The first child of a node.
fn first_child<'a>(node: NodeRef<'a>) -> Option<NodeRef<'a>>
    ensures { let w = world_at node.entry in
        option_map node_of result ≡ option_map (node_in w) (first_child_of w (id_at node.entry)) }
{
    let mut children = node.children();
    children.next()
}

/// Whether a node is a run that has a box.
fn is_run_with_box(node: NodeRef) -> bool
    ensures { result ≡ is_run_with_box (world_at node.entry) (id_at node.entry) }
{
    matches!(node.role(), Role::TextRun) && node.has_bounds()
}

/// Writes what a box shows into it, if it shows a text.
fn write_caption<O: Write>(
    frame: Frame,
    rect: Frame,
    is_leaf: bool,
    text: Option<&str>,
    out: &mut O,
) -> io::Result<()>
    ensures { OnOk result (Appends (O.contents out.old) (O.contents out.new) (caption_in frame rect is_leaf (option_copied text.entry))) }
{
    let Some(text) = text else {
        return Ok(());
    };
    begin_text(frame, rect, is_leaf, text.len(), out)?;
    write_escaped(text, out)?;
    out.write_all(b"</text></svg>")
}

/// Begins a text of this length in its box, which clips it: of a node with children at the top.
fn begin_text<O: Write>(
    frame: Frame,
    rect: Frame,
    is_leaf: bool,
    length: usize,
    out: &mut O,
) -> io::Result<()>
    ensures { OnOk result (Appends (O.contents out.old) (O.contents out.new) (text_begun frame rect is_leaf length)) }
{
    if is_leaf {
        return begin_caption(frame, rect, length as u64, out);
    }
    begin_heading(frame, rect, out)
}

/// Begins a text in small letters at the top of its box, which clips it.
fn begin_heading<O: Write>(frame: Frame, rect: Frame, out: &mut O) -> io::Result<()>
    ensures { OnOk result (Appends (O.contents out.old) (O.contents out.new) (heading_begun frame rect)) }
{
    begin_clip(rect, out)?;
    write_heading(heading_size(frame, rect), out)
}

/// The size of a text at the top of its box.
fn heading_size(frame: Frame, rect: Frame) -> u64
    ensures { result ≡ heading_size frame rect }
{
    (rect.height() / 2).min(frame.width() / 60).max(1)
}

/// Begins a text of this size at the top of its box.
fn write_heading<O: Write>(size: u64, out: &mut O) -> io::Result<()>
    ensures { OnOk result (Appends (O.contents out.old) (O.contents out.new) (heading_tag size)) }
{
    write!(
        out,
        "<text class=\"l\" x=\"1%\" y=\"{size}\" font-size=\"{size}\">"
    )
}

/// Begins what a box clips.
fn begin_clip<O: Write>(rect: Frame, out: &mut O) -> io::Result<()>
    ensures { OnOk result (Appends (O.contents out.old) (O.contents out.new) (clip_begun rect)) }
{
    let x = rect.x0;
    let y = rect.y0;
    let width = rect.width();
    let height = rect.height();
    write!(
        out,
        "<svg x=\"{x}\" y=\"{y}\" width=\"{width}\" height=\"{height}\">"
    )
}

/// Begins a text of this length in its box, which clips it: centred, or at the left if it is too long.
fn begin_caption<O: Write>(frame: Frame, rect: Frame, length: u64, out: &mut O) -> io::Result<()>
    ensures { OnOk result (Appends (O.contents out.old) (O.contents out.new) (caption_begun frame rect length)) }
{
    begin_clip(rect, out)?;
    let size = caption_size(frame, rect, length);
    write_caption_tag(caption_place(fitting_size(rect, length), size), size, out)
}

/// The size of a text of this length in its box.
fn caption_size(frame: Frame, rect: Frame, length: u64) -> u64
    ensures { result ≡ caption_size frame rect length }
{
    let least = frame.width() / 60;
    let most = (rect.height() / 2).min(frame.width() / 26);
    fitting_size(rect, length).max(least).min(most).max(1)
}

/// Where a text of this size begins for which this size would be fitting.
fn caption_place(fitting: u64, size: u64) -> &'static str
    ensures { result.now ≡ caption_place fitting size }
{
    if fitting < size {
        "class=\"l\" x=\"1%\""
    } else {
        "x=\"50%\""
    }
}

/// Begins a text of this size.
fn write_caption_tag<O: Write>(place: &str, size: u64, out: &mut O) -> io::Result<()>
    ensures { OnOk result (Appends (O.contents out.old) (O.contents out.new) (caption_tag place.now size)) }
{
    out.write_all(b"<text ")?;
    out.write_all(place.as_bytes())?;
    write_size(size, out)
}

/// Writes the size of a text in the middle of its box.
fn write_size<O: Write>(size: u64, out: &mut O) -> io::Result<()>
    ensures { OnOk result (Appends (O.contents out.old) (O.contents out.new) (size_text size)) }
{
    write!(out, " y=\"50%\" font-size=\"{size}\">")
}

/// The font size at which a text of this length just fits into its box.
fn fitting_size(rect: Frame, length: u64) -> u64
    ensures { result ≡ fitting_size rect length }
{
    if length == 0 {
        return u64::MAX;
    }
    rect.width().saturating_mul(5) / length / 3
}
