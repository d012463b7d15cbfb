//! The faults of the words before fields, and of lines without fields.

use crate::cutting::{WordFault, fault_from};
use crate::names::words;
use crate::reasons::{NumberRange, OtherReason, WordSet};
use crate::values::{listed_fault, number_fault};
use crate::word_checks::is_tree;
use line_text::{is_among, next_word, word_at, word_end};
use std::str;

/// A word that a command needs.
#[derive(Clone, Copy)]
enum Argument {
    Id,
    Tree,
    Coordinate,
    Index,
    Listed(WordSet),
    /// A filter, which may be left out at the end of the line.
    Filter,
}

/// The fault of the word here, which is no node's id.
pub(crate) fn id_fault(line: &[u8], at: usize) -> WordFault {
    let word = word_at(line, at);
    match number_fault(NumberRange::Count, word, at) {
        Some(fault) if !word.is_empty() => fault,
        _ => fault_from(line, at, OtherReason::NoNumber),
    }
}

/// The fault of the word here, which is no tree's id.
pub(crate) fn tree_fault(line: &[u8], at: usize) -> WordFault {
    fault_from(line, at, OtherReason::NoTree)
}

/// The fault of a line that isn't that of a node inside an update, nor begins one outside.
pub(crate) fn command_fault(line: &[u8], is_inside: bool) -> WordFault {
    let word = word_at(line, 0);
    if !is_among(word, words(WordSet::Commands)) {
        return fault_from(line, 0, OtherReason::UnknownWord(WordSet::Commands));
    }
    let is_of_update = word == b"node".as_slice() || word == b"end".as_slice();
    if is_inside && !is_of_update {
        return fault_from(line, 0, OtherReason::Inside);
    }
    if !is_inside && is_of_update {
        return fault_from(line, 0, OtherReason::Outside);
    }
    arguments_fault(line, arguments(word))
}

static HOST: [Argument; 1] = [Argument::Listed(WordSet::HostStates)];

static NAMED: [Argument; 2] = [Argument::Id, Argument::Tree];

static FILTERED: [Argument; 3] = [Argument::Id, Argument::Tree, Argument::Filter];

static HIT: [Argument; 5] = [
    Argument::Id,
    Argument::Tree,
    Argument::Coordinate,
    Argument::Coordinate,
    Argument::Filter,
];

static MOVED: [Argument; 5] = [
    Argument::Id,
    Argument::Tree,
    Argument::Index,
    Argument::Listed(WordSet::Sides),
    Argument::Listed(WordSet::Moves),
];

static PLACED: [Argument; 4] = [
    Argument::Id,
    Argument::Tree,
    Argument::Index,
    Argument::Listed(WordSet::Sides),
];

static BETWEEN: [Argument; 6] = [
    Argument::Id,
    Argument::Tree,
    Argument::Index,
    Argument::Listed(WordSet::Sides),
    Argument::Index,
    Argument::Listed(WordSet::Sides),
];

/// The words that a command needs after the first.
fn arguments(word: &[u8]) -> &'static [Argument] {
    let Ok(word) = str::from_utf8(word) else {
        return &[];
    };
    match word {
        "host" => &HOST,
        "children" | "following" | "preceding" | "label" | "value" | "text" => &NAMED,
        "filtered" | "following_filtered" | "preceding_filtered" | "set" => &FILTERED,
        "hit" => &HIT,
        "move" => &MOVED,
        "indexes" => &PLACED,
        "between" => &BETWEEN,
        _ => &[],
    }
}

/// The fault of the words after the first.
fn arguments_fault(line: &[u8], arguments: &[Argument]) -> WordFault {
    let mut at = next_word(line, 0);
    for argument in arguments {
        if at > line.len() && matches!(argument, Argument::Filter) {
            break;
        }
        if let Some(fault) = argument_fault(*argument, line, at) {
            return fault;
        }
        at = next_word(line, at);
    }
    if at > line.len() {
        return WordFault {
            start: line.len(),
            end: line.len(),
            reason: OtherReason::Unclear,
        };
    }
    fault_from(line, at, OtherReason::TooMany)
}

/// The fault of the word here.
fn argument_fault(argument: Argument, line: &[u8], at: usize) -> Option<WordFault> {
    let word = word_at(line, at);
    if at >= word_end(line, at) {
        return Some(fault_from(line, at, OtherReason::EndsEarly));
    }
    match argument {
        Argument::Id | Argument::Index => number_fault(NumberRange::Count, word, at),
        Argument::Coordinate => number_fault(NumberRange::Signed, word, at),
        Argument::Tree if is_tree(word) => None,
        Argument::Tree => Some(tree_fault(line, at)),
        Argument::Listed(set) => listed_fault(set, word, at),
        Argument::Filter => listed_fault(WordSet::Filters, word, at),
    }
}
