//! The texts that a state shows of a node, each asked for once.
ghost use Rattle.std.specs.Prelude.{◌≡◌, IfSome, OnOk, option_copied};
ghost use Rattle.std.specs.Option.{option_or};
ghost use Rattle.views.specs.Nodes.{world_at};
ghost use Rattle.page_states.specs.Places.{IsPlace};
ghost use Rattle.page_states.specs.Texts.{told_value, HasItsValue, HasValue, IsTold};

use crate::places::Place;
use crate::sources::is_that;
use crate::words::shown_value;
use std::alloc::{AllocError, Global};
use views::FullNodeId;

/// The label and the value of a node, each if it has one that is shown.
#[derive(Clone, Copy)]
pub(crate) struct Texts<'t> {
    pub label: Option<&'t str>,
    pub value: Option<&'t str>,
}

/// What a box shows: the label, or else the value.
pub(crate) fn caption_text<'t>(texts: Texts<'t>) -> Option<&'t str>
    ensures { option_copied result ≡ option_or (option_copied texts.entry.label) (option_copied texts.entry.value) }
{
    match texts.label {
        Some(label) => Some(label),
        None => texts.value,
    }
}

/// The value that was last asked for, with the source that it is the value of, if that is known.
#[derive(Drop)]
pub(crate) struct Told {
    pub source: Option<FullNodeId>,
    pub value: Option<String>,
}

/// Reads the value of a node that has the value of this source. Where that was read last, it isn't asked again.
pub(crate) fn tell_shared(
    alloc: Global,
    place: &Place,
    source: FullNodeId,
    told: &mut Told,
) -> Result<(), AllocError>
    requires shared { HasItsValue place.now source }
    requires told { IsTold (world_at place.now.node) told.old }
    ensures told { IsTold (world_at place.now.node) told.new }
    ensures value { OnOk result (HasValue place.now (told_value told.new)) }
{
    if is_that(told.source, source) {
        return Ok(());
    }
    tell_anew(alloc, place, Some(source), told)
}

/// Asks for the value of a node, which is that of this source if it has one.
fn tell_anew(
    alloc: Global,
    place: &Place,
    source: Option<FullNodeId>,
    told: &mut Told,
) -> Result<(), AllocError>
    requires shared { IfSome source (HasItsValue place.now) }
    requires told { IsTold (world_at place.now.node) told.old }
    ensures told { IsTold (world_at place.now.node) told.new }
    ensures value { OnOk result (HasValue place.now (told_value told.new)) }
{
    let value = shown_value(alloc, &place.node, place.hidden.value)?;
    *told = Told { source, value };
    Ok(())
}

/// The source of a node's value, unless that is hidden.
pub(crate) fn shown_source(place: &Place) -> Option<FullNodeId>
    requires { IsPlace place.now }
    ensures { IfSome result (HasItsValue place.now) }
{
    if place.hidden.value {
        return None;
    }
    place.source
}
