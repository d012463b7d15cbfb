//! Words with commas in them, and their meanings.

ghost use Rattle.std.specs.Prelude.{◌≡◌, ◌++◌, ◌∷◌, ℕ, ℤ, List, All, IfOk, IfSome, Some};
ghost use Rattle.std.specs.Fmt.{decimal};
ghost use Rattle.schema.specs.declared.NodeId.{NodeId};
ghost use Rattle.schema.specs.declared.values.Color.{Color};
ghost use Rattle.schema.specs.declared.values.TextDecoration.{TextDecoration};
ghost use Rattle.script_words.specs.Answering.{AnswersAs};
ghost use Rattle.script_words.specs.PartValues.{color_of, decoration_of, list_of, two_bytes_of, unit_list_of};
ghost use Rattle.script_words.specs.Parts.{color_text, decoration_text, ids_text, numbers_text, units_text};
ghost use Rattle.script_words.specs.Reading.{IsByte, IsColor, IsDecoration, IsId, IsShort, IsUnits, Reads};
ghost use Rattle.script_words.specs.SaysParts.{SaysBytes, SaysColor, SaysDecoration, SaysId, SaysItems, SaysShort, SaysUnitList};
ghost use Rattle.script_words.specs.WordValues.{id_of, short_of};

use crate::cutting::parts_at;
use crate::items::items;
use crate::names::decoration_style_named;
use crate::stops::Stop;
use crate::words::byte;
use schema::{Color, NodeId, TextDecoration};
use std::alloc::Global;

/// Node ids, separated by commas.
pub fn ids(alloc: Global, word: &str) -> Result<Vec<NodeId>, Stop>
    ensures reads { (id : NodeId) (others : List NodeId) → IsId id → All IsId others → word.now ≡ ids_text id others
        → Reads result (λ read. read.items ≡ id ∷ others) }
    ensures only { IfOk result (λ read. SaysItems SaysId (Some word.now) read.items) }
    ensures means { AnswersAs (list_of id_of word.now) result (λ read. read.items) }
{
    items(alloc, word)
}

/// Numbers below 65,536, separated by commas.
pub fn numbers(alloc: Global, word: &str) -> Result<Vec<u16>, Stop>
    ensures reads { (number : ℕ) (others : List ℕ) → IsShort number → All IsShort others → word.now ≡ numbers_text number others
        → Reads result (λ read. read.items ≡ number ∷ others) }
    ensures only { IfOk result (λ read. SaysItems SaysShort (Some word.now) read.items) }
    ensures means { AnswersAs (list_of short_of word.now) result (λ read. read.items) }
{
    items(alloc, word)
}

/// Numbers in units of 1/64 pixel, separated by commas, or `-` for an empty list.
pub fn unit_list(alloc: Global, word: &str) -> Result<Vec<i32>, Stop>
    ensures reads { (units : List ℤ) → All IsUnits units → word.now ≡ units_text units → Reads result (λ read. read.items ≡ units) }
    ensures only { IfOk result (λ read. SaysUnitList word.now read.items) }
    ensures means { AnswersAs (unit_list_of word.now) result (λ read. read.items) }
{
    if word == "-" {
        return Ok(Vec::new(alloc));
    }
    items(alloc, word)
}

/// A colour: `RED,GREEN,BLUE,ALPHA`.
#[tactic(auto, using(crate::proofs::CommaWords::byte_lacks_comma, crate::proofs::CommaWords::color_cut))]
pub fn color(word: &str) -> Option<Color>
    ensures reads { (c : Color) → IsColor c → word.now ≡ color_text c → result ≡ Some c }
    ensures only { IfSome result (λ c. IsColor c × SaysColor word.now c) }
    ensures means { result ≡ color_of word.now }
{
    let (red, rest) = parts_at(word, ',')?;
    let (green, rest) = parts_at(rest, ',')?;
    let (blue, alpha) = two_bytes(rest)?;
    Some(Color {
        red: byte(red)?,
        green: byte(green)?,
        blue,
        alpha,
    })
}

/// A line above, through or below text: `STYLE,RED,GREEN,BLUE,ALPHA`.
#[tactic(auto, using(crate::proofs::CommaWords::style_lacks_comma, crate::proofs::CommaWords::decoration_cut))]
pub fn decoration(word: &str) -> Option<TextDecoration>
    ensures reads { (d : TextDecoration) → IsDecoration d → word.now ≡ decoration_text d → result ≡ Some d }
    ensures only { IfSome result (λ d. IsDecoration d × SaysDecoration word.now d) }
    ensures means { result ≡ decoration_of word.now }
{
    let (style, rest) = parts_at(word, ',')?;
    Some(TextDecoration {
        style: decoration_style_named(style)?,
        color: color(rest)?,
    })
}

/// Two numbers of one byte, separated by a comma.
#[tactic(auto, using(crate::proofs::CommaWords::byte_lacks_comma))]
fn two_bytes(word: &str) -> Option<(u8, u8)>
    ensures reads { (first second : ℕ) → IsByte first → IsByte second → word.now ≡ decimal first ++ (44 ∷ decimal second)
        → result ≡ Some (first, second) }
    ensures only { IfSome result (λ read. IsByte read.0 × IsByte read.1 × SaysBytes word.now read.0 read.1) }
    ensures means { result ≡ two_bytes_of word.now }
{
    let (first, second) = parts_at(word, ',')?;
    Some((byte(first)?, byte(second)?))
}
