//! Actions, and the sets of them that a node has.

ghost use Rattle.std.specs.Prelude.{◌≡◌, ◌==◌, ℕ, ◌<◌, ◌^◌, IsTrue, ◌↔◌, bit_or};
ghost use Rattle.std.specs.Int.{bit_at};
ghost use Rattle.schema.specs.Actions.{action_number, has_action, with_action, set_with, Gains};

use crate::Node;
use std::marker::Model;

/// An action that a user may request of a node.
#[derive(Clone, Copy, Debug, PartialEq, Eq, Hash)]
pub enum Action {
    /// Press the node, or do whatever its default action is.
    Click,
    /// Give the node the focus.
    Focus,
    /// Raise the numeric value by one step.
    Increment,
    /// Lower the numeric value by one step.
    Decrement,
    /// Another action, by its number.
    Other(u8),
}

impl Action {
    /// The number of the bit that stands for the action in a set.
    fn number(self) -> u16
        ensures value { result ≡ action_number self }
        ensures small { result < 260 }
    {
        match self {
            Action::Click => 0,
            Action::Focus => 1,
            Action::Increment => 2,
            Action::Decrement => 3,
            Action::Other(n) => 4 + u16::from(n),
        }
    }
}

/// How many numbers a half of a word has.
const HALF: u128 = 1 << 64;

/// A word of 128 bits, in two halves, so that a node is aligned to 64 bits.
#[derive(Drop)]
struct Word {
    low: u64,
    high: u64,
}

impl Model for Word {
    ghost use Rattle.std.specs.Prelude.{ℕ, ◌+◌, ◌*◌, ◌^◌};

    ghost Value = { ℕ };

    ghost view = { λ a. a.high * 2 ^ 64 + a.low };
}

impl Word {
    /// The word of these bits.
    #[inline(always)]
    fn new(bits: u128) -> Word
        ensures { result ≡ bits }
    {
        Word {
            low: (bits % HALF) as u64,
            high: (bits / HALF) as u64,
        }
    }

    /// Its bits.
    #[inline(always)]
    fn bits(&self) -> u128
        ensures value { result ≡ self.now }
        ensures fits { result < 2 ^ 128 }
    {
        u128::from(self.high) * HALF + u128::from(self.low)
    }

    /// Whether a bit is set.
    #[inline(always)]
    fn has(&self, place: u16) -> bool
        requires { place < 128 }
        ensures { result ≡ (bit_at self.now place == 1) }
    {
        (self.bits() >> place) & 1 == 1
    }

    /// The word with one more bit set.
    #[inline(always)]
    fn with(&self, place: u16) -> Word
        requires { place < 128 }
        ensures value { result ≡ bit_or self.now (2 ^ place) }
        ensures fits { result < 2 ^ 128 }
    {
        Word::new(self.bits() | (1 << place))
    }
}

/// The bits of a set of actions but the last four: the first 128 in `low`, the next 128 in `high`. The last four are a byte apart,
/// beside other small fields, since a node has two sets.
#[derive(Drop)]
pub(crate) struct ActionWords {
    low: Word,
    high: Word,
}

impl Model for ActionWords {
    ghost use Rattle.std.specs.Prelude.{◌<◌, ◌^◌};
    ghost use Rattle.schema.specs.Actions.{ActionWordsData};

    ghost Value = { ActionWordsData };

    ghost view = { λ a. record { low = a.low; high = a.high } };

    ghost invariant = { λ a. (a.low < 2 ^ 128) × (a.high < 2 ^ 128) };
}

impl ActionWords {
    /// No action.
    #[inline(always)]
    pub(crate) fn new() -> ActionWords
        ensures { set_with 0 result ≡ 0 }
    {
        ActionWords {
            low: Word::new(0),
            high: Word::new(0),
        }
    }

    /// Returns a copy of the words.
    pub(crate) fn copy(&self) -> ActionWords
        ensures { result ≡ self.now }
    {
        ActionWords {
            low: Word::new(self.low.bits()),
            high: Word::new(self.high.bits()),
        }
    }

    /// Whether the set of these words and this byte has the action.
    pub(crate) fn contains(&self, top: u8, action: Action) -> bool
        ensures { result ≡ has_action (set_with top self.now) action }
    {
        let number = action.number();
        if number < 128 {
            return self.low.has(number);
        }
        if number < 256 {
            return self.high.has(number - 128);
        }
        (top >> (number - 256)) & 1 == 1
    }

    /// Adds the action to the set of these words and this byte, and returns the new byte; adding it again has no effect.
    pub(crate) fn add(&mut self, top: u8, action: Action) -> u8
        ensures { set_with result self.new ≡ with_action (set_with top self.old) action }
    {
        let number = action.number();
        if number < 128 {
            self.low = self.low.with(number);
            return top;
        }
        if number < 256 {
            self.high = self.high.with(number - 128);
            return top;
        }
        with_top_bit(top, number - 256)
    }

    /// Whether the sets, each of words and a byte, have the same members.
    pub(crate) fn same(&self, top: u8, other: &ActionWords, other_top: u8) -> bool
        ensures { IsTrue result ↔ (set_with top self.now ≡ set_with other_top other.now) }
    {
        self.low.bits() == other.low.bits()
            && self.high.bits() == other.high.bits()
            && top == other_top
    }
}

/// The bits with one more bit set.
fn with_top_bit(bits: u8, place: u16) -> u8
    requires { place < 8 }
    ensures { result ≡ bit_or bits (2 ^ place) }
{
    bits | (1 << place)
}

impl Node {
    /// Whether the node supports the action.
    pub fn supports_action(&self, action: Action) -> bool
        ensures { result ≡ has_action self.now.actions action }
    {
        self.actions.contains(self.plain.action_top, action)
    }

    /// Adds to the actions that the node supports.
    pub fn add_action(&mut self, action: Action)
        ensures value { self.new ≡ record self.old { actions = with_action self.old.actions action } }
        ensures members { Gains self.old.actions self.new.actions action }
    {
        self.plain.action_top = self.actions.add(self.plain.action_top, action);
    }

    /// Whether the node's children support the action.
    pub fn child_supports_action(&self, action: Action) -> bool
        ensures { result ≡ has_action self.now.child_actions action }
    {
        self.child_actions
            .contains(self.plain.child_action_top, action)
    }

    /// Adds to the actions that the node's children support.
    pub fn add_child_action(&mut self, action: Action)
        ensures value { self.new ≡ record self.old { child_actions = with_action self.old.child_actions action } }
        ensures members { Gains self.old.child_actions self.new.child_actions action }
    {
        self.plain.child_action_top = self.child_actions.add(self.plain.child_action_top, action);
    }
}
