//! What C sees of fields: records of numbers.
ghost use Rattle.std.specs.Prelude.{◌≡◌};
ghost use Rattle.fed_tree_c.specs.Fields.{action_number, color_seen, decoration_seen, rect_seen, selection_seen, translation_seen};

use crate::choice_numbers::decoration_style_number;
use schema::{Action, Color, Rect, TextDecoration, TextSelection, Translation};

/// A rectangle as it was sent, in units of 1/64 pixel.
#[repr(C)]
#[derive(Clone, Copy)]
pub struct AkRect {
    pub x0: i32,
    pub y0: i32,
    pub x1: i32,
    pub y1: i32,
}

/// By how much a node and its subtree are shifted, in units of 1/64 pixel.
#[repr(C)]
#[derive(Clone, Copy)]
pub struct AkTranslation {
    pub x: i32,
    pub y: i32,
}

/// A selection: its fixed end and the end that moves, each a run and how many of its characters are before it.
#[repr(C)]
#[derive(Clone, Copy)]
pub struct AkSelection {
    pub anchor: u64,
    pub anchor_character: usize,
    pub focus: u64,
    pub focus_character: usize,
}

/// A colour; `alpha` is the opacity.
#[repr(C)]
#[derive(Clone, Copy)]
pub struct AkColor {
    pub red: u8,
    pub green: u8,
    pub blue: u8,
    pub alpha: u8,
}

/// A line above, through or below text: the number of its style, and its colour.
#[repr(C)]
#[derive(Clone, Copy)]
pub struct AkDecoration {
    pub style: u32,
    pub color: AkColor,
}

/// The rectangle, as C sees it.
pub(crate) fn rect_seen(rect: Rect) -> AkRect
    ensures { result ≡ rect_seen rect }
{
    AkRect {
        x0: rect.x0,
        y0: rect.y0,
        x1: rect.x1,
        y1: rect.y1,
    }
}

/// The translation, as C sees it.
pub(crate) fn translation_seen(by: Translation) -> AkTranslation
    ensures { result ≡ translation_seen by }
{
    AkTranslation { x: by.x, y: by.y }
}

/// The selection, as C sees it.
pub(crate) fn selection_seen(selection: TextSelection) -> AkSelection
    ensures { result ≡ selection_seen selection }
{
    AkSelection {
        anchor: selection.anchor.node.0,
        anchor_character: selection.anchor.character_index,
        focus: selection.focus.node.0,
        focus_character: selection.focus.character_index,
    }
}

/// The colour, as C sees it.
pub(crate) fn color_seen(color: Color) -> AkColor
    ensures { result ≡ color_seen color }
{
    AkColor {
        red: color.red,
        green: color.green,
        blue: color.blue,
        alpha: color.alpha,
    }
}

/// The line, as C sees it.
pub(crate) fn decoration_seen(decoration: TextDecoration) -> AkDecoration
    ensures { result ≡ decoration_seen decoration }
{
    AkDecoration {
        style: decoration_style_number(decoration.style),
        color: color_seen(decoration.color),
    }
}

/// The action's number: its place, or from 256 on that of one without a name.
pub(crate) fn action_number(action: Action) -> u32
    ensures { result ≡ action_number action }
{
    match action {
        Action::Click => 0,
        Action::Focus => 1,
        Action::Increment => 2,
        Action::Decrement => 3,
        Action::Other(number) => 256 + u32::from(number),
    }
}
