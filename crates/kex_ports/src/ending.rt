// How a sink in memory was ended.
ghost use Rattle.std.specs.Prelude.{◌≡◌};
ghost use Rattle.kex_ports.specs.Endings.{never_ended, written_ending, failed_ending};
ghost use Rattle.kex_ports.specs.Endings.{finished_ending};

use std::marker::Model;

// How many calls were to finish it, how many writes failed, and whether the last call was to finish
// it. A count stays at its last value.
#[derive(Drop)]
pub(crate) struct Ending {
    finishes: u64,
    failed_writes: u64,
    is_closed: bool,
}

impl Model for Ending {
    ghost use Rattle.kex_ports.specs.Endings.{Ending as Ended};

    ghost Value = { Ended };

    ghost view = { λ e. record {
      finishes = e.finishes;
      failed_writes = e.failed_writes;
      is_closed = e.is_closed;
    } };
}

impl Ending {
    pub(crate) fn new() -> Self
        ensures { result ≡ never_ended }
    {
        Ending {
            finishes: 0,
            failed_writes: 0,
            is_closed: false,
        }
    }

    pub(crate) fn write(&mut self)
        ensures { self.new ≡ written_ending self.old }
    {
        self.is_closed = false;
    }

    pub(crate) fn fail_to_write(&mut self)
        ensures { self.new ≡ failed_ending self.old }
    {
        self.failed_writes = self.failed_writes.saturating_add(1);
        self.is_closed = false;
    }

    pub(crate) fn finish(&mut self)
        ensures { self.new ≡ finished_ending self.old }
    {
        self.finishes = self.finishes.saturating_add(1);
        self.is_closed = true;
    }
}
