//! The export that names the rules that refused updates break.
ghost use Rattle.std.specs.Prelude.{◌≡◌, map, option_copied, slice_get};
ghost use Rattle.fed_tree_c.specs.Answers.{GivesList, NO_SUCH};
ghost use Rattle.fed_tree_c.specs.Stops.{rule_name, rule_names};

use crate::buffers::fill;
use crate::numbers::numbered;
use crate::records::{DONE, NO_SUCH};

/// The names of the rules, in the order of their numbers.
static RULES: [&str; 14] = [
    "MissingTreeInfo",
    "NotRootTree",
    "MissingData",
    "NotReached",
    "NamedTwice",
    "ListedTwice",
    "RootTreeGrafted",
    "GraftWithChildren",
    "GraftedTwice",
    "NoGraft",
    "NoFirstTreeInfo",
    "FocusMissing",
    "FocusOnEmptyGraft",
    "IndexesUsedUp",
];

/// The names of the rules, in the order of their numbers.
fn rule_names() -> &'static [&'static str]
    ensures { map (λ name. name.now) result.now ≡ rule_names }
{
    &RULES
}

/// The name at this place in the list.
#[tactic(auto, using(crate::proofs::RuleNames::name_at_place))]
fn name_at(place: u32) -> Option<&'static str>
    ensures { option_copied result ≡ slice_get rule_names place }
{
    numbered(rule_names(), place)
}

/// The name of the rule with this number, counted from 1.
fn rule_name(number: u32) -> Option<&'static str>
    ensures { option_copied result ≡ rule_name number }
{
    if number == 0 {
        return None;
    }
    name_at(number - 1)
}

/// The name of the rule with this number, as far as there is room for it, and its length.
#[unsafe(no_mangle)]
pub extern "C" fn ak_rule_name(rule: u32, buffer: &mut [u8], length: &mut usize) -> u8
    ensures { GivesList NO_SUCH (rule_name rule) result buffer.old buffer.new length.old length.new }
{
    match rule_name(rule) {
        Some(name) => {
            fill(buffer, name.as_bytes());
            *length = name.len();
            DONE
        }
        None => NO_SUCH,
    }
}
