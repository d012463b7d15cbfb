//! Reading quoted texts.
ghost use Rattle.std.specs.Prelude.{ℕ, ◌≡◌, ◌<◌, List, ◌++◌, codes, length, flat_map, IfOk};
ghost use Rattle.script_words.specs.Meaning.{Answers};
ghost use Rattle.script_words.specs.Quoted.{quoted_byte};
ghost use Rattle.script_words.specs.Reading.{Reads};
ghost use Rattle.script_words.specs.Texts.{step_of, unquoted};

use crate::stops::Stop;
use std::alloc::Global;

/// What a byte in quotes does.
#[derive(Clone, Copy)]
pub(crate) enum InQuotes {
    /// It escapes the next one.
    Escapes,
    /// It ends the text.
    Ends,
    /// It gives a byte of the text.
    Gives(u8),
}

/// What a byte in quotes does, after a backslash or not; none where it may not be.
fn step(is_escaped: bool, byte: u8) -> Option<InQuotes>
    ensures { result ≡ step_of is_escaped byte }
{
    match (is_escaped, byte) {
        (true, b'"' | b'\\') => Some(InQuotes::Gives(byte)),
        (true, b'n') => Some(InQuotes::Gives(b'\n')),
        (true, _) => None,
        (false, b'"') => Some(InQuotes::Ends),
        (false, b'\\') => Some(InQuotes::Escapes),
        (false, _) => Some(InQuotes::Gives(byte)),
    }
}

/// The text at the front, whose opening quote was read, and the number of bytes after its closing quote.
pub(crate) fn unquoted(alloc: Global, bytes: &[u8]) -> Result<(Vec<u8>, usize), Stop>
    ensures reads { (text more : List ℕ) → bytes.now ≡ flat_map quoted_byte text ++ codes "\"" ++ more
        → Reads result (λ read. (read.0.items ≡ text) × (read.1 ≡ length more)) }
    ensures shorter { IfOk result (λ read. read.1 < length bytes.now) }
    ensures means { Answers (unquoted bytes.now) result (λ text read. (read.0.items ≡ text.0) × (read.1 ≡ length text.1)) }
{
    let mut text = Vec::new(alloc);
    let mut left = bytes;
    let mut is_escaped = false;
    'taking: while let Some((byte, rest)) = left.split_first() {
        match step(is_escaped, *byte) {
            Some(InQuotes::Escapes) => is_escaped = true,
            Some(InQuotes::Ends) => return Ok((text, rest.len())),
            Some(InQuotes::Gives(byte)) => {
                is_escaped = false;
                text.push(byte)?;
            }
            None => return Err(Stop::BadLine),
        }
        left = rest;
    }
    Err(Stop::BadLine)
}
