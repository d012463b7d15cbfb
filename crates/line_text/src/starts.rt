//! The words of a line, and their names.

ghost use Rattle.std.specs.Prelude.{◌≡◌, ◌↔◌, ◌≤◌, IsTrue, length};
ghost use Rattle.line_text.specs.Starts.{IsCutAt, IsFirst, IsUnknown, IsUnknownAt, after_byte, ends_name, is_among, name_length};

/// Where a line is after some of its bytes.
#[derive(Clone, Copy)]
pub(crate) enum Spot {
    /// At the start of a word.
    Start,
    /// Within a word or after one.
    Word,
    /// In a text in quotes.
    Quoted,
    /// After a backslash in such a text.
    Escaped,
}

/// Where a line is after one more byte.
fn after_byte(spot: Spot, byte: u8) -> Spot
    ensures { result ≡ after_byte spot byte }
{
    match (spot, byte) {
        (Spot::Start | Spot::Word, b' ') => Spot::Start,
        (Spot::Start | Spot::Word, b'"') => Spot::Quoted,
        (Spot::Start | Spot::Word, _) => Spot::Word,
        (Spot::Quoted, b'"') => Spot::Word,
        (Spot::Quoted, b'\\') => Spot::Escaped,
        (Spot::Quoted | Spot::Escaped, _) => Spot::Quoted,
    }
}

/// Where the first word begins whose name is none of these. A word begins at the front, and after each space that isn't
/// in quotes; its name ends at an equals sign.
pub fn first_unknown(text: &[u8], names: &[&str]) -> Option<usize>
    ensures { IsFirst (IsUnknownAt (is_among names.now) text.now) result }
{
    let mut spot = Spot::Start;
    for (start, byte) in text.iter().enumerate() {
        if matches!(spot, Spot::Start) && is_unknown(&text[start..], names) {
            return Some(start);
        }
        spot = after_byte(spot, *byte);
    }
    None
}

/// Whether there is a name at the front that is none of these.
fn is_unknown(text: &[u8], names: &[&str]) -> bool
    ensures { IsTrue result ↔ IsUnknown (is_among names.now) text.now }
{
    let name = &text[..name_length(text)];
    !name.is_empty() && !is_among(name, names)
}

/// Where the first word ends: at the first space that isn't in quotes.
pub fn first_cut(text: &[u8]) -> Option<usize>
    ensures { IsFirst (IsCutAt text.now) result }
{
    let mut spot = Spot::Start;
    for (end, byte) in text.iter().enumerate() {
        spot = after_byte(spot, *byte);
        if matches!(spot, Spot::Start) {
            return Some(end);
        }
    }
    None
}

/// The length of the name at the front, which ends at an equals sign or a space.
#[tactic(auto, using(std::proofs::lemmas::List::Sums::position_or_len_is))]
pub fn name_length(text: &[u8]) -> usize
    ensures exact { result ≡ name_length text.now }
    ensures bound { result ≤ length text.now }
{
    for (end, byte) in text.iter().enumerate() {
        if ends_name(*byte) {
            return end;
        }
    }
    text.len()
}

/// Whether a name ends at this byte.
fn ends_name(byte: u8) -> bool
    ensures { result ≡ ends_name byte }
{
    byte == b'=' || byte == b' '
}

/// Whether the name is one of these.
pub fn is_among(name: &[u8], names: &[&str]) -> bool
    ensures { result ≡ is_among names.now name.now }
{
    names.iter().any(|known| known.as_bytes() == name)
}
