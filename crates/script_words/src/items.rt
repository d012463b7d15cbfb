//! Lists separated by commas.

ghost use Rattle.std.specs.Prelude.{ℕ, ◌≡◌, ◌∷◌, All, IfOk, IfSome, List, Option, Some};
ghost use Rattle.script_words.specs.Items.{list_text};
ghost use Rattle.script_words.specs.Answering.{AnswersAs};
ghost use Rattle.script_words.specs.PartValues.{list_of};
ghost use Rattle.script_words.specs.Reading.{Lacks, Reads};
ghost use Rattle.script_words.specs.SaysParts.{SaysItems};

use crate::cutting::cut_at;
use crate::stops::Stop;
use crate::words::{number, short, units};
use schema::NodeId;
use std::alloc::Global;

/// The type of a list's items.
pub(crate) trait Item: Drop {
    /// Holds for the values of the type.
    ghost is_item: { Self → Type 0 };

    /// The text of a value.
    ghost item_text: { Self → List ℕ };

    /// Relates a word and the value that it stands for.
    ghost says: { List ℕ → Self → Type 0 };

    /// The value that a word stands for, if it stands for any.
    ghost value_of: { List ℕ → Option Self };

    /// The value that a word stands for. A value's text has no comma.
    fn item(word: &str) -> Option<Self>
        ensures reads { (value : Self) → is_item value → word.now ≡ item_text value → result ≡ Some value }
        ensures only { IfSome result (λ value. says word.now value) }
        ensures means { result ≡ value_of word.now }
        ensures apart { (value : Self) → is_item value → Lacks 44 (item_text value) };
}

impl Item for NodeId {
    ghost use Rattle.std.specs.Fmt.{decimal};
    ghost use Rattle.script_words.specs.Reading.{IsId};
    ghost use Rattle.script_words.specs.SaysParts.{SaysId};
    ghost use Rattle.script_words.specs.WordValues.{id_of};

    ghost is_item = { IsId };

    ghost item_text = { λ id. decimal id.0 };

    ghost says = { SaysId };

    ghost value_of = { id_of };

    #[tactic(auto, using(crate::proofs::CommaWords::count_lacks_comma))]
    fn item(word: &str) -> Option<NodeId> {
        Some(NodeId(number(word)?))
    }
}

impl Item for u16 {
    ghost use Rattle.std.specs.Fmt.{decimal};
    ghost use Rattle.script_words.specs.Reading.{IsShort};
    ghost use Rattle.script_words.specs.SaysParts.{SaysShort};
    ghost use Rattle.script_words.specs.WordValues.{short_of};

    ghost is_item = { IsShort };

    ghost item_text = { decimal };

    ghost says = { SaysShort };

    ghost value_of = { short_of };

    #[tactic(auto, using(crate::proofs::CommaWords::short_lacks_comma))]
    fn item(word: &str) -> Option<u16> {
        short(word)
    }
}

impl Item for i32 {
    ghost use Rattle.std.specs.Fmt.{signed_decimal};
    ghost use Rattle.script_words.specs.Reading.{IsUnits};
    ghost use Rattle.script_words.specs.SaysParts.{SaysUnits};
    ghost use Rattle.script_words.specs.WordValues.{units_of};

    ghost is_item = { IsUnits };

    ghost item_text = { signed_decimal };

    ghost says = { SaysUnits };

    ghost value_of = { units_of };

    #[tactic(auto, using(crate::proofs::CommaWords::units_lack_comma))]
    fn item(word: &str) -> Option<i32> {
        units(word)
    }
}

/// Items separated by commas.
pub(crate) fn items<T: Item>(alloc: Global, word: &str) -> Result<Vec<T>, Stop>
    ensures reads { (item : T) (others : List T) → T.is_item item → All T.is_item others → word.now ≡ list_text T.item_text item others
        → Reads result (λ read. read.items ≡ item ∷ others) }
    ensures only { IfOk result (λ read. SaysItems T.says (Some word.now) read.items) }
    ensures means { AnswersAs (list_of T.value_of word.now) result (λ read. read.items) }
{
    let mut items = Vec::new(alloc);
    let mut left = Some(word);
    while let Some(rest) = left {
        let (part, after) = cut_at(rest, ',');
        let item = T::item(part).ok_or(Stop::BadLine)?;
        items.push(item)?;
        left = after;
    }
    Ok(items)
}
