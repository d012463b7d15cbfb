//! Actions by their names.

ghost use Rattle.schema.specs.declared.actions.Action.{Action};
ghost use Rattle.script_words.specs.Answering.{AnswersAs};
ghost use Rattle.script_words.specs.PartValues.{action_of, list_of, other_of};
ghost use Rattle.script_words.specs.Parts.{action_list_text, action_text};
ghost use Rattle.script_words.specs.Reading.{IsAction, IsByte, Reads};
ghost use Rattle.script_words.specs.Says.{SaysAction, SaysOther};
ghost use Rattle.script_words.specs.SaysParts.{SaysItems, SaysListed};
ghost use Rattle.script_words.specs.WordValues.{byte_of};
ghost use Rattle.std.specs.Fmt.{decimal};
ghost use Rattle.std.specs.Prelude.{ℕ, ◌≡◌, ◌↔◌, ◌∷◌, ◌++◌, All, List, IfOk, Some, codes};

use crate::items::{Item, items};
use crate::stops::Stop;
use crate::words::{byte, in_brackets};
use schema::Action;
use std::alloc::Global;

/// The action with this name; `Other(7)` is the action `Other` with the number 7.
#[tactic(auto, unfolding(crate::specs::PartValues::action_of))]
fn action_named(word: &str) -> Option<Action>
    ensures reads { (action : Action) → IsAction action → word.now ≡ action_text action → result ≡ Some action }
    ensures exact { (action : Action) → (result ≡ Some action) ↔ (IsAction action × SaysAction word.now action) }
    ensures means { result ≡ action_of word.now }
{
    match word {
        "Click" => Some(Action::Click),
        "Focus" => Some(Action::Focus),
        "Increment" => Some(Action::Increment),
        "Decrement" => Some(Action::Decrement),
        _ => Some(Action::Other(other_code(word)?)),
    }
}

/// The number of an action without a name: `Other(7)` has the number 7.
fn other_code(word: &str) -> Option<u8>
    ensures reads { (code : ℕ) → IsByte code → word.now ≡ codes "Other(" ++ decimal code ++ codes ")" → result ≡ Some code }
    ensures exact { (code : ℕ) → (result ≡ Some code) ↔ (IsByte code × SaysOther word.now code) }
    ensures means { result ≡ other_of byte_of word.now }
{
    byte(in_brackets(word)?)
}

impl Item for Action {
    ghost use Rattle.script_words.specs.PartValues.{action_of};
    ghost use Rattle.script_words.specs.Parts.{action_text};
    ghost use Rattle.script_words.specs.Reading.{IsAction};
    ghost use Rattle.script_words.specs.SaysParts.{SaysListed};

    ghost is_item = { IsAction };

    ghost item_text = { action_text };

    ghost says = { SaysListed };

    ghost value_of = { action_of };

    #[tactic(auto, using(crate::proofs::ActionNames::action_lacks_comma))]
    fn item(word: &str) -> Option<Action> {
        action_named(word)
    }
}

/// Actions by their names, separated by commas.
pub fn action_list(alloc: Global, word: &str) -> Result<Vec<Action>, Stop>
    ensures reads { (action : Action) (others : List Action) → IsAction action → All IsAction others
        → word.now ≡ action_list_text action others → Reads result (λ read. read.items ≡ action ∷ others) }
    ensures only { IfOk result (λ read. SaysItems SaysListed (Some word.now) read.items) }
    ensures means { AnswersAs (list_of action_of word.now) result (λ read. read.items) }
{
    items(alloc, word)
}
