//! What is printed of a range's text, and the indexes of positions: of a password a bullet for each character.
ghost use Rattle.std.specs.Prelude.{◌≡◌, ◌+◌, min, length, IfOk, string_bytes};
ghost use Rattle.model.specs.Values.{bullets};
ghost use Rattle.texts.specs.Cuts.{character_ranges};
ghost use Rattle.texts.specs.NodeTexts.{root_of};
ghost use Rattle.texts.specs.Positions.{root_at, flat_position, node_text};
ghost use Rattle.texts.specs.RangeCuts.{located, characters_left};
ghost use Rattle.texts.specs.TextRanges.{text_in, range_at};
ghost use Rattle.views.specs.Nodes.{world_at, id_at};
ghost use Rattle.read.specs.Shown.{count_before, further, shown_index, shown_text};

use accesskit_consumer::text::{RangeCharacters, Text, TextPosition, TextRange};
use std::alloc::{AllocError, Global};

/// The character that is shown for each character of a password.
const BULLET: char = '\u{2022}';

/// A bullet for each character of a range.
fn bullets(alloc: Global, range: TextRange<'_>) -> Result<String, AllocError>
    ensures { let characters = character_ranges (text_in range.entry) (range_at range.entry) in
        IfOk result (λ text. string_bytes text ≡ bullets (length characters)) }
{
    let mut text = String::new(alloc);
    let mut left = range.characters();
    while let Some(_character) = left.next() {
        text.push(BULLET)?;
    }
    Ok(text)
}

/// The text of a range, of a password as bullets.
pub(crate) fn shown_text(alloc: Global, range: TextRange<'_>) -> Result<String, AllocError>
    ensures { IfOk result (λ text. string_bytes text ≡ shown_text (located range.entry)) }
{
    if range.node().is_password_input() {
        return bullets(alloc, range);
    }
    range.text(alloc)
}

/// How many characters these are, or the greatest number of this type.
fn count(characters: RangeCharacters<'_>) -> usize
    ensures { result ≡ further 0 (length (characters_left characters.entry)) }
{
    let mut left = characters;
    let mut count = 0usize;
    while let Some(_character) = left.next() {
        count = count.saturating_add(1);
    }
    count
}

/// How many characters of the text are before a position, or the greatest number of this type.
fn characters_before(text: Text<'_>, position: TextPosition<'_>) -> usize
    requires { root_at position ≡ root_of text }
    ensures { result ≡ further 0 (count_before (node_text (root_of text.entry)) (flat_position position.entry)) }
{
    let mut range = text.range();
    range.set_end(position);
    count(range.characters())
}

/// The index of a position of the text in UTF-16 code units, in a password the number of bullets before it.
pub(crate) fn shown_index(text: Text<'_>, position: TextPosition<'_>) -> usize
    requires { root_at position ≡ root_of text }
    ensures { let root = root_of text.entry in
        result ≡ shown_index (world_at root) (id_at root) (flat_position position.entry) }
{
    if text.node().is_password_input() {
        return characters_before(text, position);
    }
    position.to_global_utf16_index()
}
