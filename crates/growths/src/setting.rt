//! Setters that allocate: one of each kind, and those that no script calls.

use schema::{Node, NodeId};
use std::alloc::AllocError;

/// A setter, or a call that adds an id.
#[derive(Clone, Copy, Debug)]
pub enum Setting {
    Label,
    Children,
    PushChild,
    PushLabelledBy,
    PushControls,
    CharacterLengths,
    CharacterLengthsInBytes,
    WordStartsInBytes,
    CharacterPositions,
}

pub static SETTINGS: [Setting; 9] = [
    Setting::Label,
    Setting::Children,
    Setting::PushChild,
    Setting::PushLabelledBy,
    Setting::PushControls,
    Setting::CharacterLengths,
    Setting::CharacterLengthsInBytes,
    Setting::WordStartsInBytes,
    Setting::CharacterPositions,
];

/// What is set.
struct Given {
    text: &'static str,
    ids: &'static [NodeId],
    shorts: &'static [u16],
    bytes: &'static [u8],
    numbers: &'static [i32],
}

static LITTLE: Given = Given {
    text: "a text",
    ids: &[NodeId(3)],
    shorts: &[1],
    bytes: &[4],
    numbers: &[7],
};

static MORE: Given = Given {
    text: "a longer text than before",
    ids: &[NodeId(1), NodeId(2)],
    shorts: &[1, 2, 3],
    bytes: &[4, 5, 6],
    numbers: &[7, 8, 9],
};

/// Adds an id.
fn push(node: &mut Node, setting: Setting) -> Result<(), AllocError> {
    match setting {
        Setting::PushChild => node.push_child(NodeId(9)),
        Setting::PushLabelledBy => node.push_labelled_by(NodeId(9)),
        _ => node.push_controls(NodeId(9)),
    }
}

/// Sets what a run has for each of its characters or words.
fn set_run(node: &mut Node, setting: Setting, given: &Given) -> Result<(), AllocError> {
    match setting {
        Setting::CharacterLengths => node.set_character_lengths(given.shorts),
        Setting::CharacterLengthsInBytes => node.set_character_lengths_u8(given.bytes),
        Setting::WordStartsInBytes => node.set_word_starts_u8(given.bytes),
        _ => node.set_character_positions(given.numbers),
    }
}

/// Makes the call, for the first time or again with more.
pub fn set(node: &mut Node, setting: Setting, is_again: bool) -> Result<(), AllocError> {
    let given = if is_again { &MORE } else { &LITTLE };
    match setting {
        Setting::Label => node.set_label(given.text),
        Setting::Children => node.set_children(given.ids),
        Setting::PushChild | Setting::PushLabelledBy | Setting::PushControls => push(node, setting),
        _ => set_run(node, setting, given),
    }
}
