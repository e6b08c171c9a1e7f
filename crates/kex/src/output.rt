// Output over a writer.
ghost use Rattle.std.specs.Prelude.{◌≡◌, None};

use crate::ready::{flush_once, write_once};
use kex_ports::{Failed, Sink};
use std::io::Write;
use std::time::Clock;

/// A writer as a sink, which tells what the writer tells of its bytes: standard output and standard
/// error tell none.
#[derive(Drop)]
pub struct Output<W: Write + Drop, C: Clock + Drop> {
    writer: W,
    clock: C,
    faults: u64,
}

impl<W: Write + Drop, C: Clock + Drop> Output<W, C> {
    /// Of this writer, without a fault so far. The clock waits before a call is tried again.
    pub fn new(writer: W, clock: C) -> Self
        ensures held { ⟦<Output<W, C> as Sink>⟧.held result ≡ W.contents writer }
        ensures faults { ⟦<Output<W, C> as Sink>⟧.faults result ≡ 0 }
    {
        Output {
            writer,
            clock,
            faults: 0,
        }
    }
}

impl<W: Write + Drop, C: Clock + Drop> Sink for Output<W, C> {
    ghost held = { λ s. W.contents s.writer };

    ghost faults = { λ s. s.faults };

    ghost ending = { λ _. None };

    fn write(&mut self, bytes: &[u8]) -> Result<usize, Failed> {
        match write_once(&self.clock, &mut self.writer, bytes) {
            Ok(count) if count > 0 || bytes.is_empty() => Ok(count),
            _ => {
                self.faults = self.faults.saturating_add(1);
                Err(Failed)
            }
        }
    }

    fn finish(&mut self) -> Result<(), Failed> {
        match flush_once(&self.clock, &mut self.writer) {
            Ok(()) => Ok(()),
            Err(_) => {
                self.faults = self.faults.saturating_add(1);
                Err(Failed)
            }
        }
    }
}
