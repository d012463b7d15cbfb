//! Writers of text that count failed calls.

ghost use Rattle.std.specs.Prelude.{◌≡◌, ◌≢◌, ℕ, ◌+◌, ◌<◌, ◌^◌, ⊤, Bool, List, [], ◌++◌, Some, OnOk, OnErr, is_ok, MatchResult, codes, encode_utf8, string_bytes};
ghost use Rattle.schema.specs.TextCalls.{TextCall, WithText, WithCharacter};

use std::alloc::{AllocError, Global};
use std::error::Error;
use std::fmt;
use std::marker::Model;

/// The minimum capacity in bytes after the first growth of a text in memory.
const FIRST_ROOM: usize = 64;

/// The error of a writer that accepted no text.
#[derive(Clone, Copy, Debug, PartialEq, Eq)]
pub struct TextFault;

impl fmt::Display for TextFault {
    ghost output = { λ _. Some (codes "a writer took no text") };

    fn fmt<W: fmt::Write>(&self, f: &mut fmt::Formatter<W>) -> fmt::Result {
        write!(f, "a writer took no text")
    }
}

impl Error for TextFault {}

/// A receiver of text. Each call writes the whole text or nothing, and failed calls are counted.
pub trait TextWrite {
    /// The bytes of the text received so far.
    ghost received: { Self → List ℕ };

    /// How many calls have failed.
    ghost faults: { Self → ℕ };

    /// Relates the writer before a call, the call, whether it succeeded, and the writer after it. A writer that is
    /// fully described by what it received leaves this out.
    ghost steps: { Self → TextCall → Bool → Self → Type 0 } = { λ _ _ _ _. ⊤ };

    /// How many calls have failed.
    fn failures(&self) -> u128
        ensures { result ≡ faults self.now };

    /// Writes the whole text, or none of it.
    ///
    /// # Errors
    ///
    /// Returns `TextFault` if the writer accepts nothing; it then counts one more failure.
    fn write_str(&mut self, text: &str) -> Result<(), TextFault>
        requires { faults self.old + 1 < 2 ^ 128 }
        ensures ok { OnOk result (
            (received self.new ≡ received self.old ++ text.now)
            × (faults self.new ≡ faults self.old)
            ) }
        ensures err { OnErr result (
            (received self.new ≡ received self.old)
            × (faults self.new ≡ faults self.old + 1)
            ) }
        ensures called { steps self.old (WithText text.now) (is_ok result) self.new };

    /// Writes one character, or nothing.
    ///
    /// # Errors
    ///
    /// Returns `TextFault` if the writer accepts nothing; it then counts one more failure.
    fn write_char(&mut self, character: char) -> Result<(), TextFault>
        requires { faults self.old + 1 < 2 ^ 128 }
        ensures ok { OnOk result (
            (received self.new ≡ received self.old ++ encode_utf8 character)
            × (faults self.new ≡ faults self.old)
            ) }
        ensures err { OnErr result (
            (received self.new ≡ received self.old)
            × (faults self.new ≡ faults self.old + 1)
            ) }
        ensures called { steps self.old (WithCharacter character) (is_ok result) self.new };
}

/// A text in memory. A write to it fails only if memory runs out.
#[derive(Drop)]
pub struct TextBuffer {
    text: String,
    failures: u128,
}

impl Model for TextBuffer {
    ghost use Rattle.std.specs.String.{string_bytes};
    ghost use Rattle.schema.specs.Written.{Written};

    ghost Value = { Written };

    ghost view = { λ b. record { text = string_bytes b.text; failures = b.failures } };
}

impl TextBuffer {
    /// An empty text, allocated from `alloc`.
    pub fn new(alloc: Global) -> TextBuffer
        ensures { result ≡ record { text = []; failures = 0 } }
    {
        TextBuffer {
            text: String::new(alloc),
            failures: 0,
        }
    }

    /// Reserves memory for the first text and some that may follow it, so that a text of several parts isn't moved for
    /// each part.
    ///
    /// # Errors
    ///
    /// Returns an error if memory runs out.
    fn make_room(&mut self, text: &str) -> Result<(), AllocError>
        ensures { self.new ≡ self.old }
    {
        if self.text.capacity() == 0 && !text.is_empty() {
            self.text.reserve(text.len().max(FIRST_ROOM))?;
        }
        Ok(())
    }

    /// The text received.
    pub fn as_str(&self) -> &str
        ensures { result.now ≡ self.now.text }
    {
        self.text.as_str()
    }

    /// The text received.
    pub fn into_string(self) -> String
        ensures { string_bytes result ≡ self.text }
    {
        self.text
    }

    /// Returns the text, if every write to it succeeded.
    ///
    /// # Errors
    ///
    /// Returns `TextFault` if a write failed, so that part of the text may be missing.
    pub fn finish(self) -> Result<String, TextFault>
        ensures { MatchResult result
            (λ text. (self.failures ≡ 0) × (string_bytes text ≡ self.text))
            (λ _. self.failures ≢ 0) }
    {
        if self.failures == 0 {
            Ok(self.text)
        } else {
            Err(TextFault)
        }
    }
}

impl TextWrite for TextBuffer {
    ghost received = { λ b. b.text };

    ghost faults = { λ b. b.failures };

    fn failures(&self) -> u128 {
        self.failures
    }

    fn write_str(&mut self, text: &str) -> Result<(), TextFault> {
        if self.make_room(text).is_err() || self.text.push_str(text).is_err() {
            self.failures += 1;
            return Err(TextFault);
        }
        Ok(())
    }

    fn write_char(&mut self, character: char) -> Result<(), TextFault> {
        if self.text.push(character).is_err() {
            self.failures += 1;
            return Err(TextFault);
        }
        Ok(())
    }
}
