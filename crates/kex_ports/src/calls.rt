// The calls of an object in memory.
ghost use Rattle.std.specs.Prelude.{◌≡◌, ◌≤◌};
ghost use Rattle.kex_ports.specs.Calls.{none_made, is_failing, after_success, after_failure};

use std::marker::Model;

// Which calls fail, by their numbers from 1, and how many were made and failed. A count stays at
// its last value.
#[derive(Drop)]
pub(crate) struct Calls {
    fails: Vec<u64>,
    made: u64,
    faults: u64,
}

impl Model for Calls {
    ghost use Rattle.kex_ports.specs.Calls.{Tally};

    ghost Value = { Tally };

    ghost view = { λ c. record { fails = c.fails.items; made = c.made; faults = c.faults } };
}

impl Calls {
    pub(crate) fn new(fails: Vec<u64>) -> Self
        ensures { result ≡ none_made fails.items }
    {
        Calls {
            fails,
            made: 0,
            faults: 0,
        }
    }

    // Whether the next call fails.
    pub(crate) fn is_next_failing(&self) -> bool
        ensures { result ≡ is_failing self.now }
    {
        self.fails.contains(&self.made.saturating_add(1))
    }

    pub(crate) fn pass(&mut self)
        ensures { self.new ≡ after_success self.old }
    {
        self.made = self.made.saturating_add(1);
    }

    pub(crate) fn fail(&mut self)
        ensures counted { self.new ≡ after_failure self.old }
        ensures later { self.old.faults ≤ self.new.faults }
    {
        self.made = self.made.saturating_add(1);
        self.faults = self.faults.saturating_add(1);
    }
}
