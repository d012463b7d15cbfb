//! The words of a line, and their meanings.
//!
//! Words are separated by one space. Numbers are decimal, those of units and points with a minus sign if they are
//! negative; a text is in double quotes.

ghost use Rattle.std.specs.Prelude.{ℕ, ℤ, ◌^◌, ◌++◌, ◌∷◌, MatchOption, MatchResult, codes, false, true, List, Option, Some, None, Ok, IsOkAnd, FitsSigned, IsSomeAnd, IfSome, ◌≡◌, ◌<◌, ◌≤◌, ◌↔◌, length, IfOk, OnOk, option_copied};
ghost use Rattle.std.specs.Str.{IsUtf8};
ghost use Rattle.std.specs.String.{string_bytes};
ghost use Rattle.script_words.specs.Quoted.{quoted};
ghost use mir.Syntax.{w32, w64};
ghost use Rattle.schema.specs.declared.NodeId.{NodeId};
ghost use Rattle.schema.specs.declared.TreeId.{TreeId};
ghost use Rattle.script_words.specs.Parts.{pair_text, rect_text, translation_text, place_text, selection_text, tree_text, name_text, at_text, point_text, id_text};
ghost use Rattle.script_words.specs.Names.{filter_name, move_name, side_name};
ghost use Rattle.model.specs.declared.queries.Side.{Side};
ghost use Rattle.model.specs.declared.queries.NamedFilter.{NamedFilter};
ghost use Rattle.model.specs.declared.queries.Move.{Move};
ghost use Rattle.model.specs.declared.queries.At.{At};
ghost use Rattle.schema.specs.declared.geometry.Point.{Point};
ghost use Rattle.script_words.specs.Reading.{IsWord, Lacks, Begins, IsTreeName, IsName, IsCount, IsNumber, IsFieldName, Reads, after, IsByte, IsShort, IsUnits, IsRect, IsTranslation, IsPosition, IsSelection, IsId, IsNarrow, ReadsAny, ReadsFit, unread};
ghost use Rattle.schema.specs.declared.geometry.Rect.{Rect};
ghost use Rattle.schema.specs.declared.geometry.Translation.{Translation};
ghost use Rattle.schema.specs.declared.values.TextPosition.{TextPosition};
ghost use Rattle.schema.specs.declared.values.TextSelection.{TextSelection};
ghost use Rattle.std.specs.Fmt.{decimal, signed_decimal};
ghost use Rattle.script_words.specs.Says.{SaysNumber, SaysSigned, SaysTree};
ghost use Rattle.script_words.specs.SaysParts.{SaysPair, SaysPlace, SaysRect, SaysSelection, SaysTranslation};
ghost use Rattle.script_words.specs.Words.{left};
ghost use Rattle.script_words.specs.Arguments.{next_at, next_filter, next_name, next_point};
ghost use Rattle.script_words.specs.Cuts.{part_before};
ghost use Rattle.script_words.specs.PartValues.{pair_of, place_of, rect_of, selection_of, translation_of};
ghost use Rattle.script_words.specs.Fields.{CutsField};
ghost use Rattle.script_words.specs.Texts.{behind_text, next_text, text_at};
ghost use Rattle.script_words.specs.declared.stops.Stop.TheVariants.{BadLine};
ghost use Rattle.script_words.specs.Meaning.{Answers, GivesWord, Takes, TakesWord, ended, last_word, next_as};
ghost use Rattle.script_words.specs.WordValues.{id_of, move_of, narrow_of, number_of, side_of, signed_of, tree_of};

use crate::cutting::{cut_at, parts_at};
use crate::names::{filter_named, move_named, side_named};
use crate::stops::Stop;
use crate::unquoting::unquoted;
use model::{At, Move, NamedFilter, NodeName, Side};
use schema::{NodeId, Point, Rect, TextPosition, TextSelection, Translation, TreeId};
use std::alloc::Global;
use uuid::Uuid;

/// The rest of a line: `None` at its end, and otherwise the text after a space.
#[derive(Drop)]
pub struct Words<'a> {
    pub rest: Option<&'a str>,
}

impl<'a> Words<'a> {
    /// The next word.
    #[tactic(auto, using(crate::proofs::WordCuts::is_some_word, crate::proofs::WordCuts::is_no_word))]
    pub fn word(&mut self) -> Result<&'a str, Stop>
        ensures reads { (text : List ℕ) (rest : Option (List ℕ)) → IsWord text → Begins (unread self.old) text rest
            → IsOkAnd result (λ word. word.now ≡ text) × (unread self.new ≡ rest) }
        ensures shorter { OnOk result (left (unread self.new) < left (unread self.old)) }
        ensures takes { TakesWord (unread self.old) result (unread self.new) }
    {
        let rest = self.rest.ok_or(Stop::BadLine)?;
        let (word, after) = cut_at(rest, ' ');
        self.rest = after;
        if word.is_empty() {
            return Err(Stop::BadLine);
        }
        Ok(word)
    }

    /// Reads the next word, which must be the last.
    pub fn last_word(&mut self) -> Result<&'a str, Stop>
        ensures reads { (text : List ℕ) → IsWord text → unread self.old ≡ Some text → IsOkAnd result (λ word. word.now ≡ text) }
        ensures gives { GivesWord (last_word (unread self.old)) result }
    {
        let word = self.word()?;
        self.end()?;
        Ok(word)
    }

    /// Reads the next word as a node's id.
    #[tactic(auto, using(crate::proofs::Decimals::decimal_is_word))]
    pub fn id(&mut self) -> Result<NodeId, Stop>
        ensures reads { ReadsFit IsId id_text self.old result self.new }
        ensures shorter { OnOk result (left (unread self.new) < left (unread self.old)) }
        ensures takes { Takes (next_as id_of (unread self.old)) result (unread self.new) }
    {
        let number = number(self.word()?).ok_or(Stop::BadLine)?;
        Ok(NodeId(number))
    }

    /// Reads the next word as a tree's id.
    #[tactic(auto, using(crate::proofs::TreeNames::tree_is_word))]
    pub fn tree(&mut self) -> Result<TreeId, Stop>
        ensures reads { ReadsFit IsTreeName tree_text self.old result self.new }
        ensures shorter { OnOk result (left (unread self.new) < left (unread self.old)) }
        ensures takes { Takes (next_as tree_of (unread self.old)) result (unread self.new) }
    {
        tree_named(self.word()?).ok_or(Stop::BadLine)
    }

    /// Reads the next two words as a node's id and its tree's id.
    #[tactic(auto, using(crate::proofs::Cuts::begins_two))]
    pub fn node_name(&mut self) -> Result<NodeName, Stop>
        ensures reads { ReadsFit IsName name_text self.old result self.new }
        ensures takes { Takes (next_name (unread self.old)) result (unread self.new) }
    {
        let node = self.id()?;
        let tree = self.tree()?;
        Ok((node, tree))
    }

    /// Reads the next word, if there is one, as a filter, which must be the last word. The default is the common
    /// filter.
    #[tactic(auto, using(crate::proofs::NamedWords::filter_is_word, crate::proofs::WordCuts::one_taken, crate::proofs::WordCuts::none_taken, crate::proofs::WordMeanings::filter_is))]
    pub fn filter(&mut self) -> Result<NamedFilter, Stop>
        ensures reads { ReadsAny filter_name self.old result self.new }
        ensures takes { Takes (next_filter (unread self.old)) result (unread self.new) }
    {
        if self.rest.is_none() {
            return Ok(NamedFilter::Common);
        }
        filter_named(self.word()?).ok_or(Stop::BadLine)
    }

    /// Reads the next word as a number, with a minus sign if it is negative.
    #[tactic(auto, using(crate::proofs::Decimals::signed_is_word))]
    pub fn signed(&mut self) -> Result<i64, Stop>
        ensures reads { ReadsFit IsNumber signed_decimal self.old result self.new }
        ensures shorter { OnOk result (left (unread self.new) < left (unread self.old)) }
        ensures takes { Takes (next_as signed_of (unread self.old)) result (unread self.new) }
    {
        signed(self.word()?).ok_or(Stop::BadLine)
    }

    /// Reads the next word as a count.
    #[tactic(auto, using(crate::proofs::Decimals::decimal_is_word))]
    pub fn index(&mut self) -> Result<usize, Stop>
        ensures reads { ReadsFit IsCount decimal self.old result self.new }
        ensures shorter { OnOk result (left (unread self.new) < left (unread self.old)) }
        ensures takes { Takes (next_as number_of (unread self.old)) result (unread self.new) }
    {
        index(self.word()?).ok_or(Stop::BadLine)
    }

    /// Reads the next word as a number of four bytes.
    #[tactic(auto, using(crate::proofs::Decimals::decimal_is_word))]
    pub fn narrow(&mut self) -> Result<u32, Stop>
        ensures reads { ReadsFit IsNarrow decimal self.old result self.new }
        ensures shorter { OnOk result (left (unread self.new) < left (unread self.old)) }
        ensures takes { Takes (next_as narrow_of (unread self.old)) result (unread self.new) }
    {
        let number = number(self.word()?).ok_or(Stop::BadLine)?;
        u32::try_from(number).or(Err(Stop::BadLine))
    }

    /// Reads the next word as a side.
    #[tactic(auto, using(crate::proofs::NamedWords::side_is_word))]
    pub fn side(&mut self) -> Result<Side, Stop>
        ensures reads { ReadsAny side_name self.old result self.new }
        ensures takes { Takes (next_as side_of (unread self.old)) result (unread self.new) }
    {
        side_named(self.word()?).ok_or(Stop::BadLine)
    }

    /// Reads the next two words as a point, in the node's coordinates.
    pub fn point(&mut self) -> Result<Point, Stop>
        ensures reads { (point : Point) (rest : Option (List ℕ)) → IsNumber point.x → IsNumber point.y
            → Begins (unread self.old) (point_text point) rest
            → (result ≡ Ok point) × (unread self.new ≡ rest) }
        ensures takes { Takes (next_point (unread self.old)) result (unread self.new) }
    {
        let x = self.signed()?;
        let y = self.signed()?;
        Ok(Point { x, y })
    }

    /// Reads the next two words as an index in a text, and the side to take where two runs meet.
    pub fn at(&mut self) -> Result<At, Stop>
        ensures reads { (at : At) (rest : Option (List ℕ)) → IsCount at.index → Begins (unread self.old) (at_text at) rest
            → (result ≡ Ok at) × (unread self.new ≡ rest) }
        ensures takes { Takes (next_at (unread self.old)) result (unread self.new) }
    {
        let index = self.index()?;
        let side = self.side()?;
        Ok(At { index, side })
    }

    /// Reads the next word as a caret movement.
    #[tactic(auto, using(crate::proofs::NamedWords::move_is_word))]
    pub fn movement(&mut self) -> Result<Move, Stop>
        ensures reads { ReadsAny move_name self.old result self.new }
        ensures takes { Takes (next_as move_of (unread self.old)) result (unread self.new) }
    {
        move_named(self.word()?).ok_or(Stop::BadLine)
    }

    /// The end of the line.
    pub fn end(&self) -> Result<(), Stop>
        ensures reads { unread self.now ≡ None → result ≡ Ok tt }
        ensures takes { Takes (ended (unread self.now)) result (unread self.now) }
    {
        if self.rest.is_some() {
            return Err(Stop::BadLine);
        }
        Ok(())
    }

    /// The name of the next field, and whether a value comes next.
    pub fn field(&mut self) -> Result<(&'a str, bool), Stop>
        ensures reads_valued { (name more : List ℕ) → IsFieldName name → unread self.old ≡ Some (name ++ codes "=" ++ more)
            → IsOkAnd result (λ field. (field.0.now ≡ name) × (field.1 ≡ true)) × (unread self.new ≡ Some more) }
        ensures reads_flag { (name : List ℕ) (rest : Option (List ℕ)) → IsFieldName name
            → Begins (unread self.old) name rest
            → IsOkAnd result (λ field. (field.0.now ≡ name) × (field.1 ≡ false)) × (unread self.new ≡ rest) }
        ensures shorter { OnOk result (left (unread self.new) < left (unread self.old)) }
        ensures cut { CutsField (unread self.old) result (unread self.new) }
    {
        let rest = self.rest.ok_or(Stop::BadLine)?;
        match valued(rest) {
            Some((name, value)) => {
                self.rest = Some(value);
                Ok((name, true))
            }
            None => Ok((self.word()?, false)),
        }
    }

    /// Reads the next quoted text. In it `\"`, `\\` and `\n` are a quote, a backslash and a newline.
    pub fn text(&mut self, alloc: Global) -> Result<String, Stop>
        ensures reads { (text : List ℕ) (rest : Option (List ℕ)) → IsUtf8 text → Begins (unread self.old) (quoted text) rest
            → Reads result (λ read. (string_bytes read ≡ text) × (unread self.new ≡ rest)) }
        ensures shorter { OnOk result (left (unread self.new) < left (unread self.old)) }
        ensures means { Answers (next_text (unread self.old)) result
            (λ text read. (string_bytes read ≡ text.0) × (unread self.new ≡ text.1)) }
    {
        let rest = self.rest.ok_or(Stop::BadLine)?;
        let (text, more) = text_and_rest(alloc, rest)?;
        self.rest = more;
        Ok(text)
    }
}

/// The quoted text with which a line begins, and the rest after it.
fn text_and_rest(alloc: Global, line: &str) -> Result<(String, Option<&str>), Stop>
    ensures reads { (text : List ℕ) (rest : Option (List ℕ)) → IsUtf8 text → line.now ≡ quoted text ++ after rest
        → Reads result (λ read. (string_bytes read.0 ≡ text) × (option_copied read.1 ≡ rest)) }
    ensures shorter { IfOk result (λ read. left (option_copied read.1) ≤ length line.now) }
    ensures means { Answers (text_at line.now) result (λ text read. (string_bytes read.0 ≡ text.0) × (option_copied read.1 ≡ text.1)) }
{
    let Some(inner) = line.strip_prefix('"') else {
        return Err(Stop::BadLine);
    };
    let (bytes, more) = unquoted(alloc, inner.as_bytes())?;
    let Some((_, rest)) = inner.split_at_checked(inner.len() - more) else {
        return Err(Stop::BadLine);
    };
    let after = after_text(rest)?;
    let Ok(text) = String::from_utf8(bytes) else {
        return Err(Stop::BadLine);
    };
    Ok((text, after))
}

/// The name of the next field and the text after its equals sign, if the next word has a value.
fn valued(line: &str) -> Option<(&str, &str)>
    ensures named { (name more : List ℕ) → IsFieldName name → line.now ≡ name ++ codes "=" ++ more
        → IsSomeAnd result (λ parts. (parts.0.now ≡ name) × (parts.1.now ≡ more)) }
    ensures flag { (name : List ℕ) (rest : Option (List ℕ)) → IsFieldName name → line.now ≡ name ++ after rest → result ≡ None }
    ensures shorter { IfSome result (λ parts. length parts.1.now < length line.now) }
    ensures cut { MatchOption result (Lacks 61 (part_before 32 line.now))
        (λ parts. (line.now ≡ parts.0.now ++ (61 ∷ parts.1.now)) × Lacks 61 parts.0.now × Lacks 32 parts.0.now) }
{
    let (name, value) = line.split_once('=')?;
    match name.split_once(' ') {
        Some(_) => None,
        None => Some((name, value)),
    }
}

/// The rest after a text's closing quote: the end of the line, or a space and more.
fn after_text(rest: &str) -> Result<Option<&str>, Stop>
    ensures reads { (more : Option (List ℕ)) → rest.now ≡ after more → IsOkAnd result (λ read. option_copied read ≡ more) }
    ensures shorter { IfOk result (λ read. left (option_copied read) ≤ length rest.now) }
    ensures means { MatchResult result (λ read. behind_text rest.now ≡ Some (option_copied read))
        (λ stop. (stop ≡ BadLine) × (behind_text rest.now ≡ None)) }
{
    if rest.is_empty() {
        return Ok(None);
    }
    let Some(after) = rest.strip_prefix(' ') else {
        return Err(Stop::BadLine);
    };
    Ok(Some(after))
}

/// A decimal number without a sign.
pub fn number(word: &str) -> Option<u64>
    ensures reads { (n : ℕ) → n < 2 ^ 64 → word.now ≡ decimal n → result ≡ Some n }
    ensures exact { (n : ℕ) → (result ≡ Some n) ↔ (IsCount n × SaysNumber word.now n) }
{
    if word.starts_with('+') {
        return None;
    }
    word.parse().ok()
}

/// A decimal number, with a minus sign before a negative one.
pub fn signed(word: &str) -> Option<i64>
    ensures reads { (z : ℤ) → FitsSigned w64 z → word.now ≡ signed_decimal z → result ≡ Some z }
    ensures exact { (z : ℤ) → (result ≡ Some z) ↔ (IsNumber z × SaysSigned word.now z) }
{
    if word.starts_with('+') {
        return None;
    }
    word.parse().ok()
}

/// An index, or a count.
pub fn index(word: &str) -> Option<usize>
    ensures reads { (n : ℕ) → n < 2 ^ 64 → word.now ≡ decimal n → result ≡ Some n }
    ensures exact { (n : ℕ) → (result ≡ Some n) ↔ (IsCount n × SaysNumber word.now n) }
{
    usize::try_from(number(word)?).ok()
}

/// A number of two bytes.
pub fn short(word: &str) -> Option<u16>
    ensures reads { (n : ℕ) → n < 2 ^ 16 → word.now ≡ decimal n → result ≡ Some n }
    ensures exact { (n : ℕ) → (result ≡ Some n) ↔ (IsShort n × SaysNumber word.now n) }
{
    u16::try_from(number(word)?).ok()
}

/// A number of one byte.
pub fn byte(word: &str) -> Option<u8>
    ensures reads { (n : ℕ) → IsByte n → word.now ≡ decimal n → result ≡ Some n }
    ensures exact { (n : ℕ) → (result ≡ Some n) ↔ (IsByte n × SaysNumber word.now n) }
{
    u8::try_from(number(word)?).ok()
}

/// The number in the parentheses of `Other()`.
pub(crate) fn in_brackets(word: &str) -> Option<&str>
    ensures reads { (inner : List ℕ) → word.now ≡ codes "Other(" ++ inner ++ codes ")" → IsSomeAnd result (λ read. read.now ≡ inner) }
    ensures only { IfSome result (λ read. word.now ≡ codes "Other(" ++ read.now ++ codes ")") }
{
    word.strip_prefix("Other(")?.strip_suffix(')')
}

/// A number in units of 1/64 pixel.
pub fn units(word: &str) -> Option<i32>
    ensures reads { (z : ℤ) → FitsSigned w32 z → word.now ≡ signed_decimal z → result ≡ Some z }
    ensures exact { (z : ℤ) → (result ≡ Some z) ↔ (IsUnits z × SaysSigned word.now z) }
{
    i32::try_from(signed(word)?).ok()
}

/// Two numbers in units of 1/64 pixel, separated by a comma.
#[tactic(auto, using(crate::proofs::CommaWords::units_lack_comma, crate::proofs::CommaWords::pair_cut))]
fn pair(word: &str) -> Option<(i32, i32)>
    ensures reads { (x y : ℤ) → IsUnits x → IsUnits y → word.now ≡ pair_text x y → result ≡ Some (x, y) }
    ensures only { IfSome result (λ read. IsUnits read.0 × IsUnits read.1 × SaysPair word.now read.0 read.1) }
    ensures means { result ≡ pair_of word.now }
{
    let (x, y) = parts_at(word, ',')?;
    Some((units(x)?, units(y)?))
}

/// A rectangle: `X,Y,X,Y`.
#[tactic(auto, using(crate::proofs::CommaWords::units_lack_comma, crate::proofs::CommaWords::corners_cut))]
pub fn rect(word: &str) -> Option<Rect>
    ensures reads { (r : Rect) → IsRect r → word.now ≡ rect_text r → result ≡ Some r }
    ensures only { IfSome result (λ r. IsRect r × SaysRect word.now r) }
    ensures means { result ≡ rect_of word.now }
{
    let (x0, rest) = parts_at(word, ',')?;
    let (y0, rest) = parts_at(rest, ',')?;
    let (x1, y1) = pair(rest)?;
    Some(Rect {
        x0: units(x0)?,
        y0: units(y0)?,
        x1,
        y1,
    })
}

/// A translation: `X,Y`.
pub fn translation(word: &str) -> Option<Translation>
    ensures reads { (t : Translation) → IsTranslation t → word.now ≡ translation_text t → result ≡ Some t }
    ensures only { IfSome result (λ t. IsTranslation t × SaysTranslation word.now t) }
    ensures means { result ≡ translation_of word.now }
{
    let (x, y) = pair(word)?;
    Some(Translation { x, y })
}

/// A selection: `ID:INDEX,ID:INDEX`, its anchor and its focus.
#[tactic(auto, using(crate::proofs::CommaWords::place_lacks_comma, crate::proofs::CommaWords::selection_cut))]
pub fn selection(word: &str) -> Option<TextSelection>
    ensures reads { (s : TextSelection) → IsSelection s → word.now ≡ selection_text s → result ≡ Some s }
    ensures only { IfSome result (λ s. IsSelection s × SaysSelection word.now s) }
    ensures means { result ≡ selection_of word.now }
{
    let (anchor, focus) = parts_at(word, ',')?;
    Some(TextSelection {
        anchor: place(anchor)?,
        focus: place(focus)?,
    })
}

/// A position in a text run: `ID:INDEX`.
#[tactic(auto, using(crate::proofs::CommaWords::id_lacks_colon, crate::proofs::CommaWords::place_cut))]
fn place(word: &str) -> Option<TextPosition>
    ensures reads { (p : TextPosition) → IsPosition p → word.now ≡ place_text p → result ≡ Some p }
    ensures only { IfSome result (λ p. IsPosition p × SaysPlace word.now p) }
    ensures means { result ≡ place_of word.now }
{
    let (node, character_index) = parts_at(word, ':')?;
    Some(TextPosition {
        node: NodeId(number(node)?),
        character_index: index(character_index)?,
    })
}

/// The tree id that a word stands for: `root`, or a UUID in any form that `uuid` reads.
#[tactic(auto, using(crate::proofs::TreeNames::tree_word))]
pub fn tree_named(word: &str) -> Option<TreeId>
    ensures reads { (tree : TreeId) → IsTreeName tree → word.now ≡ tree_text tree → result ≡ Some tree }
    ensures exact { (tree : TreeId) → (result ≡ Some tree) ↔ SaysTree word.now tree }
{
    if word == "root" {
        return Some(TreeId::root());
    }
    let id = Uuid::parse_str(word).ok()?;
    Some(TreeId(id))
}
