//! The faults of fields whose names are known.

use crate::cutting::{Piece, Pieces, WordFault};
use crate::reasons::{FieldSet, Form, NumberRange, OtherReason, WordSet};
use crate::values::{
    actions_fault, decoration_fault, listed_fault, number_fault, numbers_fault, parts_fault,
    selection_fault, text_fault, tree_fault, units_fault,
};
use script_nodes::{Field, field_named};
use std::str;

/// What a field's value is.
#[derive(Clone, Copy)]
enum Kind {
    /// No value.
    Flag,
    Text,
    Number(NumberRange),
    Numbers(NumberRange),
    Units,
    Word(WordSet),
    Tree,
    Parts(Form),
    Decoration,
    Selection,
    Actions,
}

/// The fault of the fields that begin here, if all their names are known.
pub(crate) fn known_fields_fault(set: FieldSet, line: &[u8], at: usize) -> WordFault {
    let mut pieces = Pieces::from(line, at);
    for _ in 0..=line.len() {
        let Some(piece) = pieces.next_piece() else {
            break;
        };
        if let Some(fault) = piece_fault(set, line, at, piece) {
            return fault;
        }
    }
    lacking_fault(set, line, at)
}

/// The fault of a line whose fields are each in order: of an update's, that a field is missing.
fn lacking_fault(set: FieldSet, line: &[u8], at: usize) -> WordFault {
    let reason = match set {
        FieldSet::Update if !is_given(line, at, line.len(), b"focus") => OtherReason::NoFocus,
        FieldSet::Update if !is_given(line, at, line.len(), b"root") => OtherReason::NoRoot,
        _ => OtherReason::Unclear,
    };
    WordFault {
        start: line.len(),
        end: line.len(),
        reason,
    }
}

/// Whether a field before the end has this name.
fn is_given(line: &[u8], at: usize, end: usize, name: &[u8]) -> bool {
    let mut pieces = Pieces::from(line, at);
    for _ in 0..=line.len() {
        match pieces.next_piece() {
            Some(piece) if piece.start < end => {
                if piece.name == name {
                    return true;
                }
            }
            _ => return false,
        }
    }
    false
}

/// The fault of a field.
fn piece_fault(set: FieldSet, line: &[u8], at: usize, piece: Piece) -> Option<WordFault> {
    if piece.name.is_empty() {
        return Some(nameless_fault(piece));
    }
    if is_given(line, at, piece.start, piece.name) {
        return Some(name_fault(piece, OtherReason::GivenTwice));
    }
    let Ok(name) = str::from_utf8(piece.name) else {
        return None;
    };
    let kind = match set {
        FieldSet::Node => node_kind(name),
        FieldSet::Update => update_kind(name),
    };
    match piece.value {
        Some(value) => valued_fault(kind, piece, value),
        None => valueless_fault(kind, piece),
    }
}

/// The fault of a field's name.
fn name_fault(piece: Piece, reason: OtherReason) -> WordFault {
    WordFault {
        start: piece.start,
        end: piece.start.saturating_add(piece.name.len()),
        reason,
    }
}

/// The fault of a field without a name.
fn nameless_fault(piece: Piece) -> WordFault {
    if piece.value.is_some() {
        return name_fault(piece, OtherReason::NoName);
    }
    name_fault(piece, OtherReason::Space)
}

/// The fault of a field without a value, unless it is a flag.
fn valueless_fault(kind: Kind, piece: Piece) -> Option<WordFault> {
    if matches!(kind, Kind::Flag) {
        return None;
    }
    Some(name_fault(piece, OtherReason::NoValue))
}

/// The fault of a field with this value.
fn valued_fault(kind: Kind, piece: Piece, value: &[u8]) -> Option<WordFault> {
    if matches!(kind, Kind::Flag) {
        return Some(name_fault(piece, OtherReason::FlagWithValue));
    }
    let start = piece.start.saturating_add(piece.name.len());
    value_fault(kind, value, start.saturating_add(1))
}

/// The fault of a value that begins here in the line.
fn value_fault(kind: Kind, value: &[u8], start: usize) -> Option<WordFault> {
    match kind {
        Kind::Flag => None,
        Kind::Text => text_fault(value, start),
        Kind::Number(range) => number_fault(range, value, start),
        Kind::Numbers(range) => numbers_fault(range, b',', value, start),
        Kind::Units => units_fault(value, start),
        Kind::Word(set) => listed_fault(set, value, start),
        Kind::Tree => tree_fault(value, start),
        Kind::Parts(form) => parts_fault(form, value, start),
        Kind::Decoration => decoration_fault(value, start),
        Kind::Selection => selection_fault(value, start),
        Kind::Actions => actions_fault(value, start),
    }
}

/// What the value of a field of an update's line is.
fn update_kind(name: &str) -> Kind {
    match name {
        "focus" | "root" => Kind::Number(NumberRange::Count),
        _ => Kind::Text,
    }
}

/// What the value of a node's field is.
fn node_kind(name: &str) -> Kind {
    match field_named(name) {
        Some(field) => kind_of(field),
        None => Kind::Text,
    }
}

/// What the value of a field is, by its kind.
fn kind_of(field: Field) -> Kind {
    match field {
        Field::Ids(_) => Kind::Numbers(NumberRange::Count),
        Field::Id(_) => Kind::Number(NumberRange::Count),
        Field::Text(_) => Kind::Text,
        Field::Flag(_) => Kind::Flag,
        Field::Numbers(_) => Kind::Numbers(NumberRange::Short),
        Field::Units(_) => Kind::Units,
        Field::Bool(_) => Kind::Word(WordSet::Truths),
        Field::Color(_) => Kind::Parts(Form::Color),
        Field::Decoration(_) => Kind::Decoration,
        Field::Number(_) => Kind::Number(NumberRange::Signed),
        Field::Count(_) => Kind::Number(NumberRange::Count),
        Field::Actions(_) => Kind::Actions,
        Field::Tree => Kind::Tree,
        Field::Bounds => Kind::Parts(Form::Rect),
        Field::Transform => Kind::Parts(Form::Pair),
        Field::Selection => Kind::Selection,
        Field::Toggled => Kind::Word(WordSet::Toggles),
        Field::Live => Kind::Word(WordSet::Lives),
        Field::Orientation => Kind::Word(WordSet::Orientations),
        Field::SortDirection => Kind::Word(WordSet::SortDirections),
        Field::AriaCurrent => Kind::Word(WordSet::Currents),
        Field::HasPopup => Kind::Word(WordSet::Popups),
        Field::FontSize => Kind::Number(NumberRange::Narrow),
        Field::FontWeight => Kind::Number(NumberRange::Short),
        Field::TextDirection => Kind::Word(WordSet::TextDirections),
        Field::TextAlign => Kind::Word(WordSet::TextAligns),
        Field::VerticalOffset => Kind::Word(WordSet::VerticalOffsets),
    }
}
