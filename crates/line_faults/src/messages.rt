//! The message about a bad line, and the right word that may be meant.

ghost use Rattle.std.specs.Prelude.{ℕ, ◌≡◌, List, OnOk, Option, None, Some, codes, option_copied};
ghost use Rattle.std.specs.Io.KnownBytes.{Appends};
ghost use Rattle.line_faults.specs.Messages.{Suggests, column_of, end_text, fault_line, message_text, near_text, number_meant, word_of, word_text};

use crate::names::{field_names, role_names, words};
use crate::phrases::write_reason;
use crate::reasons::{LineFault, OtherReason, Reason};
use line_text::{column_after, nearest, write_shown};
use role_names::number_named;
use std::io::{self, Write};

/// Writes the fault of the line with this number, counted from 1: the line, the column in characters from 1, the reason,
/// the word at fault, and the nearest right word if one is near; of a role that is sent by a number, how a script writes it.
/// Control characters and byte order marks of the word are written by name; a word of more than 200 bytes isn't written.
///
/// The line is given without its line end.
pub fn write_fault<O: Write>(
    number: u64,
    line: &[u8],
    fault: LineFault,
    out: &mut O,
) -> io::Result<()>
    ensures { (near : Option (List ℕ)) × Suggests line.now fault near
        × OnOk result (Appends (O.contents out.old) (O.contents out.new) (fault_line number line.now fault near)) }
{
    let place = (number, column(line, fault));
    let near = suggestion(line, fault);
    write_message(place, fault.reason, word_of(line, fault), near, out)
}

/// Writes the message about a word, in the line and at the column of this place.
fn write_message<O: Write>(
    place: (u64, usize),
    reason: Reason,
    word: &[u8],
    near: Option<&str>,
    out: &mut O,
) -> io::Result<()>
    ensures { OnOk result (Appends (O.contents out.old) (O.contents out.new)
        (message_text place.0 place.1 reason word.now (option_copied near.entry))) }
{
    let (line, column) = place;
    write!(out, "line {line}, column {column}: ")?;
    write_reason(reason, out)?;
    write_end(reason, word, near, out)
}

/// Writes the end of a message: the word, and how a script writes the role that it names, if that is sent by a number, and
/// else the word that may be meant.
fn write_end<O: Write>(
    reason: Reason,
    word: &[u8],
    near: Option<&str>,
    out: &mut O,
) -> io::Result<()>
    ensures { OnOk result (Appends (O.contents out.old) (O.contents out.new) (end_text reason word.now (option_copied near.entry))) }
{
    write_word(word, out)?;
    match number_meant(reason, word) {
        Some(number) => write!(out, "; in a script it is Other({number})")?,
        None => write_near(near, out)?,
    }
    out.write_all(b"\n")
}

/// The number of the role that the word names, if the fault is an unknown role, and the role is sent by a number.
fn number_meant(reason: Reason, word: &[u8]) -> Option<u16>
    ensures { result ≡ number_meant reason word.now }
{
    match reason {
        Reason::UnknownRole => number_named(word),
        Reason::UnknownField(_) | Reason::Other(_) => None,
    }
}

/// The column of a fault, counted in characters (Unicode scalar values) from 1.
pub fn column(line: &[u8], fault: LineFault) -> usize
    ensures { result ≡ column_of line.now fault }
{
    column_after(&line[..fault.start.min(line.len())])
}

/// The right word that is nearest to the word at fault, if one is near.
pub fn suggestion(line: &[u8], fault: LineFault) -> Option<&'static str>
    ensures { Suggests line.now fault (option_copied result) }
{
    let word = word_of(line, fault);
    match fault.reason {
        Reason::UnknownField(set) => nearest(word, field_names(set)),
        Reason::UnknownRole => nearest(word, role_names()),
        Reason::Other(OtherReason::UnknownWord(set)) => nearest(word, words(set)),
        Reason::Other(_) => None,
    }
}

/// The word at fault; nothing if the fault isn't a word's, or if the word has more than 200 bytes.
fn word_of(line: &[u8], fault: LineFault) -> &[u8]
    ensures { result.now ≡ word_of line.now fault }
{
    if fault.start >= fault.end || fault.end > line.len() {
        return &[];
    }
    if fault.end - fault.start > 200 {
        return &[];
    }
    &line[fault.start..fault.end]
}

/// Writes a word in quotes, if there is one.
fn write_word<O: Write>(word: &[u8], out: &mut O) -> io::Result<()>
    ensures { OnOk result (Appends (O.contents out.old) (O.contents out.new) (word_text word.now)) }
{
    if word.is_empty() {
        return Ok(());
    }
    out.write_all(b" \"")?;
    write_shown(word, out)?;
    out.write_all(b"\"")
}

/// Writes the word that may be meant, if there is one.
fn write_near<O: Write>(near: Option<&str>, out: &mut O) -> io::Result<()>
    ensures { OnOk result (Appends (O.contents out.old) (O.contents out.new) (near_text (option_copied near.entry))) }
{
    let Some(name) = near else {
        return Ok(());
    };
    write!(out, "; did you mean \"{name}\"?")
}
