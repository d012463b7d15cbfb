//! What a state shows of a node, in the bytes that are written.
ghost use Rattle.std.specs.Prelude.{◌≡◌, ◌↔◌, All, IfOk, IsTrue, map, option_copied};
ghost use Rattle.views.specs.Nodes.{world_at};
ghost use Rattle.views.specs.ShownWorlds.{world_of};
ghost use Rattle.page_states.specs.Found.{IsPlaceIn};
ghost use Rattle.page_states.specs.Drawn.{drawn_text};
ghost use Rattle.page_states.specs.Looks.{children_at, place_shown, IsLook, IsShownIn};
ghost use Rattle.page_states.specs.Rows.{row_text};
ghost use Rattle.page_states.specs.Places.{IsPlace};
ghost use Rattle.page_states.specs.Texts.{HasValue, IsShown, IsTold};

use crate::boxes::Frame;
use crate::drawn::write_drawn;
use crate::faults::Fault;
use crate::outline::write_row_text;
use crate::places::{Place, drawn_rect};
use crate::rows::Shown;
use crate::shown_texts::{Texts, Told, shown_source, tell_shared};
use crate::words::{shown_label, shown_value};
use std::alloc::{AllocError, Global};
use views::{FullNodeId, StateRef};

/// What a state shows of a node.
#[derive(Drop)]
pub struct Look {
    /// Its row in the outline, without its mark and links.
    pub row: Vec<u8>,
    /// Its box in the picture, without a link; empty if no box of it is drawn.
    pub drawn: Vec<u8>,
    /// Its children, in order.
    pub children: Vec<FullNodeId>,
}

/// Each of these nodes of the state with what an outline, and a picture with this frame, show of it.
pub(crate) fn shown_of<'a>(
    alloc: Global,
    state: StateRef<'a>,
    frame: Option<Frame>,
    places: &[Place<'a>],
) -> Result<Vec<Shown<'a>>, Fault>
    requires { All (IsPlaceIn (world_of state)) places.now }
    ensures places { IfOk result (λ shown. map place_shown shown.items ≡ places.now) }
    ensures looks { IfOk result (λ shown. All (IsShownIn frame) shown.items) }
{
    let mut told = Told {
        source: None,
        value: None,
    };
    let mut shown = Vec::new(alloc);
    for place in places {
        let look = next_look(alloc, frame, place, &mut told)?;
        shown.push(Shown {
            place: *place,
            look,
        })?;
    }
    Ok(shown)
}

/// What is shown of the next node, after those among which this value was read last.
fn next_look(
    alloc: Global,
    frame: Option<Frame>,
    place: &Place,
    told: &mut Told,
) -> Result<Look, Fault>
    requires place { IsPlace place.now }
    requires told { IsTold (world_at place.now.node) told.old }
    ensures told { IsTold (world_at place.now.node) told.new }
    ensures look { IfOk result (IsLook frame place.now) }
{
    match shown_source(place) {
        Some(source) => {
            tell_shared(alloc, place, source, told)?;
            look_of(alloc, frame, place, told.value.as_deref())
        }
        None => look_alone(alloc, frame, place),
    }
}

/// What is shown of a node whose value isn't that of a source.
fn look_alone(alloc: Global, frame: Option<Frame>, place: &Place) -> Result<Look, Fault>
    ensures { IfOk result (IsLook frame place.now) }
{
    let value = shown_value(alloc, &place.node, place.hidden.value)?;
    look_of(alloc, frame, place, value.as_deref())
}

/// What is shown of a node with this value.
fn look_of(
    alloc: Global,
    frame: Option<Frame>,
    place: &Place,
    value: Option<&str>,
) -> Result<Look, Fault>
    requires { HasValue place.now (option_copied value) }
    ensures { IfOk result (IsLook frame place.now) }
{
    let label = shown_label(alloc, &place.node, place.hidden.label)?;
    let texts = Texts {
        label: label.as_deref(),
        value,
    };
    let row = row_of(alloc, place, texts)?;
    let drawn = drawn_of(alloc, frame, place, texts)?;
    let children = children_of(alloc, place)?;
    Ok(Look {
        row,
        drawn,
        children,
    })
}

/// A node's children, in order.
fn children_of(alloc: Global, place: &Place) -> Result<Vec<FullNodeId>, AllocError>
    ensures { IfOk result (λ ids. ids.items ≡ children_at place.now) }
{
    let children: Vec<FullNodeId> = place.node.child_ids().collect(alloc)?;
    Ok(children)
}

/// A node's row in the outline, without its mark and links.
fn row_of(alloc: Global, place: &Place, texts: Texts) -> Result<Vec<u8>, AllocError>
    requires { IsShown place.now texts }
    ensures { IfOk result (λ row. row.items ≡ row_text place.now) }
{
    let mut row = Vec::new(alloc);
    // A vector has no other error than lack of memory.
    match write_row_text(place, texts, &mut row) {
        Ok(()) => Ok(row),
        Err(_) => Err(AllocError),
    }
}

/// A node's box in a picture with this frame, without a link; empty if no box of it is drawn.
fn drawn_of(
    alloc: Global,
    frame: Option<Frame>,
    place: &Place,
    texts: Texts,
) -> Result<Vec<u8>, AllocError>
    requires { IsShown place.now texts }
    ensures { IfOk result (λ drawn. drawn.items ≡ drawn_text frame place.now) }
{
    let mut drawn = Vec::new(alloc);
    let Some(frame) = frame else {
        return Ok(drawn);
    };
    let Some(rect) = drawn_rect(place) else {
        return Ok(drawn);
    };
    match write_drawn(frame, Frame::of(rect), place, texts, &mut drawn) {
        Ok(()) => Ok(drawn),
        Err(_) => Err(AllocError),
    }
}

/// Whether two texts are equal.
pub(crate) fn is_same_text(a: &[u8], b: &[u8]) -> bool
    ensures { IsTrue result ↔ (a.now ≡ b.now) }
{
    a == b
}

/// Whether two lists of nodes are equal.
pub(crate) fn are_same_nodes(a: &[FullNodeId], b: &[FullNodeId]) -> bool
    ensures { IsTrue result ↔ (a.now ≡ b.now) }
{
    a == b
}
