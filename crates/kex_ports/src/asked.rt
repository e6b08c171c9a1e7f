// What the reads of a source in memory asked for.
ghost use Rattle.std.specs.Prelude.{◌≡◌};
ghost use Rattle.kex_ports.specs.Reads.{after_asking, no_reads};

use std::marker::Model;

// The least and the most bytes that a read asked for, and how many the last read gave.
#[derive(Drop)]
pub(crate) struct Asked {
    least: usize,
    most: usize,
    last: usize,
}

impl Model for Asked {
    ghost use Rattle.kex_ports.specs.Reads.{Reads};

    ghost Value = { Reads };

    ghost view = { λ a. record { least = a.least; most = a.most; last = a.last } };
}

impl Asked {
    pub(crate) fn new() -> Self
        ensures { result ≡ no_reads }
    {
        Asked {
            least: usize::MAX,
            most: 0,
            last: 0,
        }
    }

    pub(crate) fn note(&mut self, asked: usize, given: usize)
        ensures { self.new ≡ after_asking asked given self.old }
    {
        self.least = self.least.min(asked);
        self.most = self.most.max(asked);
        self.last = given;
    }
}
