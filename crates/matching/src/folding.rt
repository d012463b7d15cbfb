//! Folding the spaces of a text.
ghost use Rattle.std.specs.Prelude.{◌≡◌, ◌++◌, IfOk, OnOk};
ghost use Rattle.matching.specs.Matches.{begins_word, folded, piece, unled};

use std::alloc::{AllocError, Global};

/// The text with one space between its words, and none at either end.
pub(crate) fn folded(alloc: Global, text: &[u8]) -> Result<Vec<u8>, AllocError>
    ensures { IfOk result (λ made. made.items ≡ folded text.now) }
{
    let mut folded = Vec::new(alloc);
    let mut rest = unled(text);
    while let Some((byte, more)) = rest.split_first() {
        add(&mut folded, *byte, more)?;
        rest = more;
    }
    Ok(folded)
}

/// Adds what stays of a byte before these: of a space one, if a word follows.
fn add(folded: &mut Vec<u8>, byte: u8, more: &[u8]) -> Result<(), AllocError>
    ensures { OnOk result (folded.new.items ≡ folded.old.items ++ piece byte more.now) }
{
    if !byte.is_ascii_whitespace() {
        folded.push(byte)?;
    } else if begins_word(more) {
        folded.push(b' ')?;
    }
    Ok(())
}

/// Whether the text begins with something else than a space.
fn begins_word(text: &[u8]) -> bool
    ensures { result ≡ begins_word text.now }
{
    match text.first() {
        Some(byte) => !byte.is_ascii_whitespace(),
        None => false,
    }
}

/// The text without the spaces at its beginning.
fn unled(text: &[u8]) -> &[u8]
    ensures { result.now ≡ unled text.now }
{
    let mut rest = text;
    while let Some((byte, more)) = rest.split_first() {
        if !byte.is_ascii_whitespace() {
            break;
        }
        rest = more;
    }
    rest
}
