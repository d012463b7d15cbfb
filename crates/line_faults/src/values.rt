//! The faults of values.

use crate::cutting::WordFault;
use crate::names::words;
use crate::reasons::{Form, NumberRange, OtherReason, WordSet};
use crate::word_checks::is_tree;
use line_text::{is_among, part_length};
use script_words::words::{byte, number, short, signed, units};
use std::str;

/// A fault of the whole word.
fn whole(word: &[u8], start: usize, reason: OtherReason) -> Option<WordFault> {
    Some(WordFault {
        start,
        end: start.saturating_add(word.len()),
        reason,
    })
}

/// The fault of a word of a list.
pub(crate) fn listed_fault(set: WordSet, word: &[u8], start: usize) -> Option<WordFault> {
    if is_among(word, words(set)) {
        return None;
    }
    whole(word, start, OtherReason::UnknownWord(set))
}

/// The fault of a tree's id.
pub(crate) fn tree_fault(word: &[u8], start: usize) -> Option<WordFault> {
    if is_tree(word) {
        return None;
    }
    whole(word, start, OtherReason::NoTree)
}

/// The fault of a number.
pub(crate) fn number_fault(range: NumberRange, word: &[u8], start: usize) -> Option<WordFault> {
    let Ok(text) = str::from_utf8(word) else {
        return whole(word, start, OtherReason::NoNumber);
    };
    if is_in_range(range, text) {
        return None;
    }
    let reason = if word.is_empty() {
        OtherReason::EmptyNumber
    } else if is_numeral(range, word) {
        OtherReason::OutOfRange(range)
    } else {
        OtherReason::NoNumber
    };
    whole(word, start, reason)
}

/// Whether the word is a number of this range.
fn is_in_range(range: NumberRange, word: &str) -> bool {
    match range {
        NumberRange::Byte => byte(word).is_some(),
        NumberRange::Short => short(word).is_some(),
        NumberRange::Narrow => match number(word) {
            Some(number) => number <= 0xFFFF_FFFF,
            None => false,
        },
        NumberRange::Count => number(word).is_some(),
        NumberRange::Units => units(word).is_some(),
        NumberRange::Signed => signed(word).is_some(),
    }
}

/// Whether the word is a number's digits, with a minus sign before them where the range has negative numbers.
fn is_numeral(range: NumberRange, word: &[u8]) -> bool {
    let is_signed = matches!(range, NumberRange::Units | NumberRange::Signed);
    let digits = match word.split_first() {
        Some((first, digits)) if is_signed && *first == b'-' => digits,
        _ => word,
    };
    !digits.is_empty() && digits.iter().all(|digit| digit.is_ascii_digit())
}

/// The fault of a value's parts with this byte between them: that of the first part that has one.
fn first_part_fault<F: Fn(&[u8], usize) -> Option<WordFault>>(
    mark: u8,
    value: &[u8],
    start: usize,
    fault_of: F,
) -> Option<WordFault>
    requires { F.IsAlwaysCallable fault_of }
{
    let mut from = 0;
    for _ in 0..=value.len() {
        let rest = &value[from..];
        let part = &rest[..part_length(rest, mark)];
        let fault = fault_of(part, start.saturating_add(from));
        if fault.is_some() {
            return fault;
        }
        if part.len() == rest.len() {
            break;
        }
        from += part.len() + 1;
    }
    None
}

/// The fault of numbers with this byte between them.
pub(crate) fn numbers_fault(
    range: NumberRange,
    mark: u8,
    value: &[u8],
    start: usize,
) -> Option<WordFault> {
    first_part_fault(mark, value, start, |part: &[u8], at: usize| {
        number_fault(range, part, at)
    })
}

/// The fault of a list of numbers in units of 1/64 pixel, or of `-`.
pub(crate) fn units_fault(value: &[u8], start: usize) -> Option<WordFault> {
    if value == b"-".as_slice() {
        return None;
    }
    numbers_fault(NumberRange::Units, b',', value, start)
}

/// The fault of a list of actions.
pub(crate) fn actions_fault(value: &[u8], start: usize) -> Option<WordFault> {
    first_part_fault(b',', value, start, action_fault)
}

/// The fault of an action.
fn action_fault(word: &[u8], start: usize) -> Option<WordFault> {
    match number_in_brackets(word) {
        Some(number) => number_fault(NumberRange::Byte, number, start.saturating_add(6)),
        None => listed_fault(WordSet::Actions, word, start),
    }
}

/// The number in the brackets of `Other()`.
fn number_in_brackets(word: &[u8]) -> Option<&[u8]> {
    let text = str::from_utf8(word).ok()?;
    let number = text.strip_prefix("Other(")?.strip_suffix(')')?;
    Some(number.as_bytes())
}

/// How many parts a value has, with this byte between them.
fn part_count(value: &[u8], mark: u8) -> usize {
    let mut count = 1;
    for byte in value {
        if *byte == mark {
            count += 1;
        }
    }
    count
}

/// The fault of a value of several numbers.
pub(crate) fn parts_fault(form: Form, value: &[u8], start: usize) -> Option<WordFault> {
    let (wanted, range) = match form {
        Form::Rect => (4, NumberRange::Units),
        Form::Pair => (2, NumberRange::Units),
        Form::Color | Form::Decoration => (4, NumberRange::Byte),
        Form::Selection | Form::Position => (2, NumberRange::Count),
    };
    let mark = match form {
        Form::Position => b':',
        _ => b',',
    };
    if part_count(value, mark) != wanted {
        return whole(value, start, OtherReason::Parts(form));
    }
    numbers_fault(range, mark, value, start)
}

/// The fault of a line above, through or below text: a style and a colour.
pub(crate) fn decoration_fault(value: &[u8], start: usize) -> Option<WordFault> {
    two_faults(Form::Decoration, 5, Form::Color, value, start)
}

/// The fault of a selection: two positions.
pub(crate) fn selection_fault(value: &[u8], start: usize) -> Option<WordFault> {
    two_faults(Form::Selection, 2, Form::Position, value, start)
}

/// The fault of a value of this form that has so many parts: the first one and, after a comma, a rest of another form.
fn two_faults(
    form: Form,
    parts: usize,
    of_rest: Form,
    value: &[u8],
    start: usize,
) -> Option<WordFault> {
    let end = part_length(value, b',');
    if part_count(value, b',') != parts || end == value.len() {
        return whole(value, start, OtherReason::Parts(form));
    }
    let fault = match form {
        Form::Decoration => listed_fault(WordSet::DecorationStyles, &value[..end], start),
        _ => parts_fault(of_rest, &value[..end], start),
    };
    if fault.is_some() {
        return fault;
    }
    let rest = start.saturating_add(end).saturating_add(1);
    parts_fault(of_rest, &value[end + 1..], rest)
}

/// The fault of a text in quotes.
pub(crate) fn text_fault(value: &[u8], start: usize) -> Option<WordFault> {
    let Some((first, inner)) = value.split_first() else {
        return whole(value, start, OtherReason::NoQuote);
    };
    if *first != b'"' {
        return whole(value, start, OtherReason::NoQuote);
    }
    let mut is_escaped = false;
    for (index, byte) in inner.iter().enumerate() {
        let at = start.saturating_add(index).saturating_add(1);
        match *byte {
            b'"' | b'\\' | b'n' if is_escaped => is_escaped = false,
            _ if is_escaped => return Some(escape_fault(at)),
            b'\\' => is_escaped = true,
            b'"' => return after_text(&inner[index + 1..], at.saturating_add(1)),
            _ => {}
        }
    }
    Some(WordFault {
        start,
        end: start,
        reason: OtherReason::OpenQuote,
    })
}

/// The fault of a backslash, before the character here.
fn escape_fault(at: usize) -> WordFault {
    let backslash = at.saturating_sub(1);
    WordFault {
        start: backslash,
        end: backslash,
        reason: OtherReason::Escape,
    }
}

/// The fault of what comes after a text's closing quote, up to the next space.
fn after_text(rest: &[u8], start: usize) -> Option<WordFault> {
    if rest.is_empty() {
        return None;
    }
    whole(rest, start, OtherReason::AfterQuote)
}
