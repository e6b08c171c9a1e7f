// Input over a reader.
ghost use Rattle.std.specs.Prelude.{◌≡◌, None};

use crate::ready::read_once;
use kex_ports::{Failed, Source};
use std::io::Read;
use std::time::Clock;

/// A reader as a source, which tells what the reader tells of its bytes: standard input tells none.
#[derive(Drop)]
pub struct Input<R: Read + Drop, C: Clock + Drop> {
    reader: R,
    clock: C,
    faults: u64,
}

impl<R: Read + Drop, C: Clock + Drop> Input<R, C> {
    /// Of this reader, without a fault so far. The clock waits before a call is tried again.
    pub fn new(reader: R, clock: C) -> Self
        ensures rest { ⟦<Input<R, C> as Source>⟧.rest result ≡ R.remaining reader }
        ensures faults { ⟦<Input<R, C> as Source>⟧.faults result ≡ 0 }
    {
        Input {
            reader,
            clock,
            faults: 0,
        }
    }
}

impl<R: Read + Drop, C: Clock + Drop> Source for Input<R, C> {
    ghost rest = { λ s. R.remaining s.reader };

    ghost faults = { λ s. s.faults };

    ghost reads = { λ _. None };

    fn read(&mut self, buf: &mut [u8]) -> Result<usize, Failed> {
        match read_once(&self.clock, &mut self.reader, buf) {
            Ok(count) => Ok(count),
            Err(_) => {
                self.faults = self.faults.saturating_add(1);
                Err(Failed)
            }
        }
    }
}
