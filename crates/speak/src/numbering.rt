//! The numbers of a script's updates, and the lines that say of which of them what follows is said.
ghost use Rattle.std.specs.Prelude.{◌≡◌, OnOk};
ghost use Rattle.std.specs.Io.KnownBytes.{Appends};
ghost use Rattle.speak.specs.Numbers.{after_one, after_command, first_heading, heading_of, heading_text, none_yet};

use atree_script::{count_after, next_number};
use session::Command;
use std::io::{self, Write};

/// The number of updates so far, refused ones too, and whether numbers are shown.
#[derive(Clone, Copy)]
pub(crate) struct Numbering {
    pub(crate) is_shown: bool,
    pub(crate) updates: u64,
}

/// What the speech after a heading is about.
#[derive(Clone, Copy)]
pub(crate) enum Heading {
    /// The update with this number.
    Update(u64),
    /// A change of the host's focus: whether it has the focus now.
    Host(bool),
}

impl Numbering {
    /// No update was sent yet.
    pub(crate) fn none_yet(is_shown: bool) -> Numbering
        ensures { result ≡ none_yet is_shown }
    {
        Numbering {
            is_shown,
            updates: 0,
        }
    }

    /// With one more update.
    pub(crate) fn after_one(self) -> Numbering
        ensures { result ≡ after_one self }
    {
        Numbering {
            is_shown: self.is_shown,
            updates: next_number(self.updates),
        }
    }

    /// With this command, if it is an update.
    pub(crate) fn after_command(self, command: &Command) -> Numbering
        ensures { result ≡ after_command self command.now }
    {
        Numbering {
            is_shown: self.is_shown,
            updates: count_after(self.updates, command),
        }
    }

    /// The heading of what is said of the update that makes the tree.
    pub(crate) fn first_heading(self) -> Option<Heading>
        ensures { result ≡ first_heading self }
    {
        if self.is_shown {
            Some(Heading::Update(self.updates))
        } else {
            None
        }
    }

    /// The heading of what is said of this command.
    pub(crate) fn heading_of(self, command: &Command) -> Option<Heading>
        ensures { result ≡ heading_of self command.now }
    {
        match command {
            Command::Update(_) => self.first_heading(),
            Command::HostFocus(is_focused) if self.is_shown => Some(Heading::Host(*is_focused)),
            Command::HostFocus(_) | Command::Query(_) => None,
        }
    }
}

/// Writes a heading, if there is one.
pub(crate) fn write_heading<O: Write>(heading: Option<Heading>, output: &mut O) -> io::Result<()>
    ensures { OnOk result (Appends (O.contents output.old) (O.contents output.new) (heading_text heading)) }
{
    match heading {
        Some(Heading::Update(number)) => writeln!(output, "update {number}:"),
        Some(Heading::Host(true)) => output.write_all(b"host on:\n"),
        Some(Heading::Host(false)) => output.write_all(b"host off:\n"),
        None => Ok(()),
    }
}
