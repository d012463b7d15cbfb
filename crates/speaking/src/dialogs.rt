//! Speech for a moved focus: the dialog, the landmark, the group and the list that it enters, the headers of its cell, and the node.
ghost use Rattle.std.specs.Prelude.{◌≡◌, true, false, IfSome, OnOk, option_map, option_copied};
ghost use Rattle.model.specs.Focus.{IsActiveDialog};
ghost use Rattle.hidden_texts.specs.Shown.{shown_label};
ghost use Rattle.views.specs.Nodes.{world_at, id_at, data_at, seen_node, seen_through};
ghost use Rattle.speaking.specs.Dialogs.{WasInside, WasOutside, Enters, ShowsDialog, SaysDialog, SaysEntered, SaysMove, SaysMoved, around_said};

use crate::focus::say_focus;
use crate::groups::say_group;
use crate::headers::say_headers;
use crate::landmarks::{say_landmark, say_list};
use accesskit_consumer::{FullNodeId, NodeRef};
use hidden_texts::{hides_label, shown_label};
use model::is_same;
use phrases::{Dialog, Saying, Voice, news, role_word};
use std::alloc::{AllocError, Global};

/// The active dialog in the state of a node.
fn dialog_around<'a>(node: NodeRef<'a>) -> Option<NodeRef<'a>>
    ensures world { IfSome result (λ dialog. world_at dialog ≡ world_at node.entry) }
    ensures dialog { IsActiveDialog (world_at node.entry) (option_map id_at result) }
{
    node.tree_state().active_dialog()
}

/// Whether this was the active dialog before.
fn was_inside(old: Option<&NodeRef<'_>>, dialog: FullNodeId) -> bool
    ensures inside { result ≡ true → WasInside (seen_through old.entry) dialog }
    ensures outside { result ≡ false → WasOutside (seen_through old.entry) dialog }
{
    let Some(node) = old else {
        return false;
    };
    let Some(before) = dialog_around(*node) else {
        return false;
    };
    is_same(before.id(), dialog)
}

/// The dialog that the focus has entered. A dialog that is itself focused is said as the focused node instead.
fn entered<'a>(old: Option<&NodeRef<'_>>, new: NodeRef<'a>) -> Option<NodeRef<'a>>
    ensures world { IfSome result (λ dialog. world_at dialog ≡ world_at new.entry) }
    ensures enters { Enters (seen_through old.entry) (seen_node new.entry) (option_map id_at result) }
{
    let Some(dialog) = dialog_around(new) else {
        return None;
    };
    if is_same(dialog.id(), new.id()) {
        return None;
    }
    if was_inside(old, dialog.id()) {
        return None;
    }
    Some(dialog)
}

/// What is said of a dialog with this label, which may be empty.
fn dialog_of<'a>(node: NodeRef, label: Option<&'a str>) -> Dialog<'a>
    requires { option_copied label ≡ shown_label (world_at node) (id_at node) }
    ensures { ShowsDialog (world_at node.entry) (id_at node.entry) (data_at node.entry) result }
{
    Dialog {
        role: role_word(node.role()),
        label: news(None, label),
        is_label_hidden: hides_label(&node),
        is_modal: node.is_modal(),
    }
}

/// Says a dialog.
fn say_dialog(alloc: Global, voice: &mut Voice, node: NodeRef) -> Result<(), AllocError>
    ensures { OnOk result (SaysDialog (world_at node.entry) (id_at node.entry) voice.old voice.new) }
{
    let label = shown_label(alloc, &node)?;
    voice.say_later(Saying::InDialog(dialog_of(node, label.as_deref())))
}

/// Says the dialog that was entered, if there is one.
fn say_entered(
    alloc: Global,
    voice: &mut Voice,
    entered: Option<NodeRef>,
    new: NodeRef,
) -> Result<(), AllocError>
    requires { IfSome entered (λ dialog. world_at dialog ≡ world_at new) }
    ensures { let w = world_at new.entry in
        OnOk result (SaysEntered w (option_map id_at entered.entry) voice.old voice.new) }
{
    match entered {
        Some(dialog) => say_dialog(alloc, voice, dialog),
        None => Ok(()),
    }
}

/// Says the landmark, the group and the list that the new focus has entered, and the headers of its cell.
fn say_around(
    alloc: Global,
    voice: &mut Voice,
    old: Option<&NodeRef>,
    new: NodeRef,
) -> Result<(), AllocError>
    ensures { let o = seen_through old.entry in let n = seen_node new.entry in
        OnOk result (voice.new ≡ around_said o n voice.old) }
{
    say_landmark(alloc, voice, old, new)?;
    say_group(alloc, voice, old, new)?;
    say_list(alloc, voice, old, new)?;
    say_headers(alloc, voice, old, new)
}

/// Says the new focus: the dialog that it has entered, what is around it, and the node.
fn say_come(
    alloc: Global,
    voice: &mut Voice,
    old: Option<&NodeRef>,
    new: NodeRef,
) -> Result<(), AllocError>
    ensures { OnOk result (SaysMove (seen_through old.entry) (seen_node new.entry) voice.old voice.new) }
{
    say_entered(alloc, voice, entered(old, new), new)?;
    say_around(alloc, voice, old, new)?;
    say_focus(alloc, voice, new)
}

/// Says the new focus, if there is one.
///
/// # Errors
///
/// Returns `AllocError` if memory runs out.
pub(crate) fn say_move(
    alloc: Global,
    voice: &mut Voice,
    old: Option<&NodeRef>,
    new: Option<&NodeRef>,
) -> Result<(), AllocError>
    ensures { OnOk result (SaysMoved (seen_through old.entry) (seen_through new.entry) voice.old voice.new) }
{
    match new {
        Some(node) => say_come(alloc, voice, old, *node),
        None => Ok(()),
    }
}
