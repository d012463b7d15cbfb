//! Saying all of something, or nothing of it if memory runs out.
ghost use Rattle.std.specs.Prelude.{◌≡◌, IfOk, OnOk, OnErr};
ghost use Rattle.views.specs.Nodes.{seen_node, seen_through};
ghost use Rattle.views.specs.ShownWorlds.{world_of};
ghost use Rattle.speaking.specs.Changes.{SaysChange};
ghost use Rattle.speaking.specs.Edits.{SaysEnd};
ghost use Rattle.speaking.specs.Dialogs.{SaysMoved};

use crate::changes::say_change;
use crate::dialogs::say_move;
use crate::edits::{FocusedText, say_end};
use crate::news::News;
use accesskit_consumer::{FullNodeId, NodeRef, StateRef};
use phrases::Voice;
use std::alloc::{AllocError, Global};

/// Says what changed on a node that was focused before and still is.
///
/// # Errors
///
/// Returns `AllocError` if memory runs out; nothing is said then.
pub(crate) fn say_whole_change(
    alloc: Global,
    voice: &mut Voice,
    old: NodeRef,
    new: NodeRef,
) -> Result<(), AllocError>
    ensures says { OnOk result (SaysChange (seen_node old.entry) (seen_node new.entry) voice.old voice.new) }
    ensures kept { OnErr result (voice.new ≡ voice.old) }
{
    let before = voice.copied()?;
    match say_change(alloc, voice, old, new) {
        Ok(()) => Ok(()),
        Err(error) => {
            *voice = before;
            Err(error)
        }
    }
}

/// Says the new focus, if there is one.
///
/// # Errors
///
/// Returns `AllocError` if memory runs out; nothing is said then.
pub(crate) fn say_whole_move(
    alloc: Global,
    voice: &mut Voice,
    old: Option<&NodeRef>,
    new: Option<&NodeRef>,
) -> Result<(), AllocError>
    ensures says { OnOk result (SaysMoved (seen_through old.entry) (seen_through new.entry) voice.old voice.new) }
    ensures kept { OnErr result (voice.new ≡ voice.old) }
{
    let before = voice.copied()?;
    match say_move(alloc, voice, old, new) {
        Ok(()) => Ok(()),
        Err(error) => {
            *voice = before;
            Err(error)
        }
    }
}

/// Says what changed in the focused text, and what is new in live regions, and returns the text.
///
/// # Errors
///
/// Returns `AllocError` if memory runs out; nothing is said then.
pub(crate) fn say_whole_end(
    alloc: Global,
    voice: &mut Voice,
    held: Option<FocusedText>,
    noted: &News,
    state: StateRef,
    focus: Option<FullNodeId>,
) -> Result<Option<FocusedText>, AllocError>
    ensures says { let w = world_of state.entry in
        IfOk result (λ now. SaysEnd w focus noted.now held now voice.old voice.new) }
    ensures kept { OnErr result (voice.new ≡ voice.old) }
{
    let before = voice.copied()?;
    match say_end(alloc, voice, held, noted, state, focus) {
        Ok(now) => Ok(now),
        Err(error) => {
            *voice = before;
            Err(error)
        }
    }
}
