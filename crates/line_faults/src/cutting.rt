//! Parts of a line, and the faults of words.

ghost use Rattle.std.specs.Prelude.{◌≤◌, length};

use crate::reasons::OtherReason;
use line_text::{first_cut, name_length, word_end};

/// A fault of a word: its bytes in the line, and the reason.
#[derive(Clone, Copy)]
pub(crate) struct WordFault {
    pub(crate) start: usize,
    pub(crate) end: usize,
    pub(crate) reason: OtherReason,
}

/// The fault of the word that begins here, or of its absence: where there is no word, there is a space too many, or the
/// line ends early.
pub(crate) fn fault_from(line: &[u8], at: usize, reason: OtherReason) -> WordFault {
    let end = word_end(line, at);
    if at < end {
        return WordFault {
            start: at,
            end,
            reason,
        };
    }
    if at > line.len() {
        return WordFault {
            start: line.len(),
            end: line.len(),
            reason: OtherReason::EndsEarly,
        };
    }
    WordFault {
        start: at,
        end: at,
        reason: OtherReason::Space,
    }
}

/// A field: its name, and the value after the equals sign, if there is one.
#[derive(Clone, Copy)]
pub(crate) struct Piece<'a> {
    /// Where it begins in the line.
    pub(crate) start: usize,
    pub(crate) name: &'a [u8],
    pub(crate) value: Option<&'a [u8]>,
}

/// The fields of a line from some place on, one after another.
#[derive(Clone, Copy)]
pub(crate) struct Pieces<'a> {
    line: &'a [u8],
    /// Where the next field begins; past the end of the line if there is none.
    at: usize,
}

impl<'a> Pieces<'a> {
    /// The fields from here on.
    pub(crate) fn from(line: &'a [u8], at: usize) -> Pieces<'a> {
        Pieces { line, at }
    }

    /// The next field. A space too many leaves one without a name.
    pub(crate) fn next_piece(&mut self) -> Option<Piece<'a>> {
        let start = self.at;
        if start > self.line.len() {
            return None;
        }
        let rest = &self.line[start..];
        let piece = match first_cut(rest) {
            Some(end) => &rest[..end],
            None => rest,
        };
        self.at = start.saturating_add(piece.len()).saturating_add(1);
        let length = name_length(piece);
        let value = if length < piece.len() {
            Some(&piece[length + 1..])
        } else {
            None
        };
        Some(Piece {
            start,
            name: &piece[..length],
            value,
        })
    }
}
