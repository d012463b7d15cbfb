//! The handler that turns events into speech.
ghost use Rattle.std.specs.Prelude.{◌≡◌, OnOk, OnErr};
ghost use Rattle.views.specs.Nodes.{seen_node, world_at};
ghost use Rattle.speaking.specs.Above.{AreRight, IsReady};
ghost use Rattle.speaking.specs.Events.{SaysAdded, SaysUpdated, Hears};

use crate::above::LookUps;
use crate::live::{tell_change, tell_new};
use crate::news::News;
use crate::speaker::Speaker;
use crate::whole::{say_whole_change, say_whole_move};
use accesskit_consumer::NodeRef;
use accesskit_consumer::tree::TreeChangeHandler;
use phrases::Voice;
use std::alloc::{AllocError, Global};

/// Says what is new of an updated node: of the focused node what changed on it. Of any other node it is noted if its text in a live
/// region is new. A newly focused node is said at the event of the moved focus.
fn say_updated(
    alloc: Global,
    voice: &mut Voice,
    noted: &mut News,
    looks: &mut LookUps,
    old: NodeRef,
    new: NodeRef,
) -> Result<(), AllocError>
    ensures says { let o = old.entry in let n = new.entry in
        IsReady (world_at o) (world_at n) looks.old
        → OnOk result (SaysUpdated (seen_node o) (seen_node n) voice.old voice.new noted.old noted.new) }
    ensures known { let o = world_at old.entry in let n = world_at new.entry in
        IsReady o n looks.old → OnOk result (IsReady o n looks.new) }
    ensures kept { OnErr result (voice.new ≡ voice.old) }
{
    if !new.is_focused() {
        return tell_change(alloc, noted, looks, old, new);
    }
    if !old.is_focused() {
        return Ok(());
    }
    say_whole_change(alloc, voice, old, new)
}

/// Notes the text of a new node in a live region, unless the node is focused.
fn note_added(
    alloc: Global,
    noted: &mut News,
    looks: &mut LookUps,
    node: NodeRef,
) -> Result<(), AllocError>
    ensures says { AreRight (world_at node.entry) looks.old.after → OnOk result (SaysAdded (seen_node node.entry) noted.old noted.new) }
    ensures known { AreRight (world_at node.entry) looks.old.after → OnOk result (AreRight (world_at node.entry) looks.new.after) }
    ensures before { looks.new.before ≡ looks.old.before }
{
    if node.is_focused() {
        return Ok(());
    }
    tell_new(alloc, noted, looks, node)
}

impl TreeChangeHandler for Speaker {
    ghost steps = { Hears };

    fn node_added(&mut self, node: &NodeRef) {
        if self.is_silent {
            return;
        }
        let noted = note_added(self.alloc, &mut self.news, &mut self.looks, *node);
        self.is_silent = noted.is_err();
    }

    fn node_updated(&mut self, old_node: &NodeRef, new_node: &NodeRef) {
        if self.is_silent {
            return;
        }
        let (old, new) = (*old_node, *new_node);
        let said = say_updated(
            self.alloc,
            &mut self.voice,
            &mut self.news,
            &mut self.looks,
            old,
            new,
        );
        self.is_silent = said.is_err();
    }

    fn focus_moved(&mut self, old_node: Option<&NodeRef>, new_node: Option<&NodeRef>) {
        if self.is_silent {
            return;
        }
        let said = say_whole_move(self.alloc, &mut self.voice, old_node, new_node);
        self.is_silent = said.is_err();
    }

    fn node_removed(&mut self, _node: &NodeRef) {}
}
