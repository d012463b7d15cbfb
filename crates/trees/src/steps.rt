//! A count of look-ups.
ghost use Rattle.std.specs.Prelude.{◌≡◌, ◌≤◌};
ghost use Rattle.tree_changes.specs.LookUps.{IsRaisedBy};

use std::marker::Model;

/// The number of records of nodes and trees that were looked up. The count saturates.
#[derive(Drop)]
pub struct Steps {
    count: u128,
}

impl Model for Steps {
    ghost use Rattle.std.specs.Prelude.{ℕ};
    ghost use Rattle.std.specs.Coded.{coded_ℕ};

    ghost Value = { ℕ };

    ghost coded = { coded_ℕ };

    ghost view = { λ a. a.count };
}

impl Steps {
    /// A count of zero.
    pub fn new() -> Steps
        ensures { result ≡ 0 }
    {
        Steps { count: 0 }
    }

    /// The number of look-ups so far.
    pub fn count(&self) -> u128
        ensures { result ≡ self.now }
    {
        self.count
    }

    /// Adds this many look-ups.
    pub(crate) fn add(&mut self, more: u128)
        ensures raised { IsRaisedBy self.old more self.new }
        ensures kept { self.old ≤ self.new }
    {
        self.count = self.count.saturating_add(more);
    }
}
