//! How many events of each kind a step had.
ghost use Rattle.std.specs.Prelude.{◌≡◌};
ghost use Rattle.page.specs.Reports.{no_tally};
ghost use Rattle.page.specs.States.{is_quiet};

/// The numbers of nodes that an update added, updated and removed, and of moves of the focus.
#[derive(Clone, Copy, Debug, PartialEq, Eq)]
pub(crate) struct Tally {
    pub added: u64,
    pub updated: u64,
    pub moved: u64,
    pub removed: u64,
}

impl Tally {
    /// No events.
    pub(crate) fn none() -> Tally
        ensures { result ≡ no_tally }
    {
        Tally {
            added: 0,
            updated: 0,
            moved: 0,
            removed: 0,
        }
    }

    /// Whether there were no events.
    pub(crate) fn is_empty(self) -> bool
        ensures { result ≡ is_quiet self }
    {
        self.added == 0 && self.updated == 0 && self.moved == 0 && self.removed == 0
    }
}
