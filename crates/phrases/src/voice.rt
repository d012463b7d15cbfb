//! Collecting lines of speech to be written.
ghost use Rattle.std.specs.Prelude.{◌≡◌, [], ◌++◌, IfOk, OnOk, OnErr, option_copied};
ghost use Rattle.phrases.specs.Sayings.{saying};
ghost use Rattle.phrases.specs.Voices.{said_too, said_later, all_said};
ghost use Rattle.phrases.specs.Tellings.{told};

use crate::sayings::Saying;
use schema::Live;
use std::alloc::{AllocError, Global};
use std::marker::Model;

/// Collects lines of speech, each of them whole or not at all.
#[derive(Drop)]
pub struct Voice {
    alloc: Global,
    said: String,
    waiting: String,
}

impl Model for Voice {
    ghost use Rattle.std.specs.String.{string_bytes};
    ghost use Rattle.phrases.specs.Voices.{Speech};

    ghost Value = { Speech };

    ghost view = { λ a. record { said = string_bytes a.said; waiting = string_bytes a.waiting } };
}

impl Voice {
    /// A voice without lines.
    pub fn new(alloc: Global) -> Voice
        ensures said { result.said ≡ [] }
        ensures waiting { result.waiting ≡ [] }
    {
        Voice {
            alloc,
            said: String::new(alloc),
            waiting: String::new(alloc),
        }
    }

    /// A voice with the same lines.
    ///
    /// # Errors
    ///
    /// Returns `AllocError` if memory runs out.
    pub fn copied(&self) -> Result<Voice, AllocError>
        ensures { IfOk result (λ copy. copy ≡ self.now) }
    {
        Ok(Voice {
            alloc: self.alloc,
            said: self.said.clone()?,
            waiting: self.waiting.clone()?,
        })
    }

    /// The lines said so far.
    pub fn said(&self) -> &str
        ensures { result.now ≡ self.now.said }
    {
        self.said.as_str()
    }

    /// Says a line at once.
    ///
    /// # Errors
    ///
    /// Returns `AllocError` if memory runs out; nothing is said then.
    pub fn say(&mut self, what: Saying<'_>) -> Result<(), AllocError>
        ensures ok { OnOk result (self.new ≡ said_too self.old (saying what.entry)) }
        ensures err { OnErr result (self.new ≡ self.old) }
    {
        let line = format!(in self.alloc; "{what}")?;
        self.said.push_str(&line)
    }

    /// Says a line after everything else.
    ///
    /// # Errors
    ///
    /// Returns `AllocError` if memory runs out; nothing is said then.
    pub fn say_later(&mut self, what: Saying<'_>) -> Result<(), AllocError>
        ensures ok { OnOk result (self.new ≡ said_later self.old (saying what.entry)) }
        ensures err { OnErr result (self.new ≡ self.old) }
    {
        let line = format!(in self.alloc; "{what}")?;
        self.waiting.push_str(&line)
    }

    /// Announces a text of a live region, if there is one: at once, after everything else, or not at all.
    ///
    /// # Errors
    ///
    /// Returns `AllocError` if memory runs out; nothing is said then.
    pub fn tell(&mut self, live: Live, text: Option<&str>) -> Result<(), AllocError>
        ensures ok { OnOk result (self.new ≡ told live (option_copied text.entry) self.old) }
        ensures err { OnErr result (self.new ≡ self.old) }
    {
        match (live, text) {
            (Live::Off, _) | (_, None) => Ok(()),
            (Live::Polite, Some(text)) => self.say_later(Saying::Told(live, text)),
            (Live::Assertive, Some(text)) => self.say(Saying::Told(live, text)),
        }
    }

    /// Says the lines that were postponed.
    ///
    /// # Errors
    ///
    /// Returns `AllocError` if memory runs out; nothing is said then.
    pub fn say_waiting(&mut self) -> Result<(), AllocError>
        ensures ok { OnOk result (self.new ≡ all_said self.old) }
        ensures err { OnErr result (self.new ≡ self.old) }
    {
        self.said.push_str(&self.waiting)?;
        self.waiting.clear();
        Ok(())
    }

    /// Drops the lines said so far, once they are written.
    pub fn clear_said(&mut self)
        ensures said { self.new.said ≡ [] }
        ensures waiting { self.new.waiting ≡ self.old.waiting }
    {
        self.said.clear();
    }
}
