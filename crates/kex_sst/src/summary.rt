// What a table does along a text, from each of its states.

ghost use Rattle.std.specs.Prelude.{◌≡◌};
ghost use Rattle.kex_sst.specs.Summaries.{IsSum};

use crate::series::Series;
use std::marker::Model;

/// What a table does along a text from a state: it stops after a number of bytes, or it goes to a
/// state, with an update that reads no byte.
#[derive(Drop)]
pub enum Course {
    Gone(u64),
    Goes(u32, Series),
}

/// How long a text is, and its course from each state of a table.
///
/// In a course that stops, fewer bytes are taken than the text has. One that goes ends in a state
/// of the table, and its update has the bytes of the text as symbols.
#[derive(Drop)]
pub struct Summary {
    bytes: u64,
    entries: Vec<Course>,
}

impl Model for Summary {
    ghost use Rattle.kex_sst.specs.Summaries.{Sum, IsSum};

    ghost Value = { Sum };

    ghost view = { λ s. record { bytes = s.bytes; entries = s.entries.items } };

    ghost invariant = { λ s. IsSum (record { bytes = s.bytes; entries = s.entries.items }) };
}

impl Summary {
    /// The summary of these parts, which are moved.
    pub fn new(bytes: u64, entries: Vec<Course>) -> Summary
        requires { IsSum (record { bytes = bytes; entries = entries.items }) }
        ensures { result ≡ record { bytes = bytes; entries = entries.items } }
    {
        Summary { bytes, entries }
    }

    /// How many bytes the text has.
    pub fn length(&self) -> u64
        ensures same { result ≡ self.now.bytes }
        ensures sum { IsSum self.now }
    {
        self.bytes
    }

    /// The course of the text from each state, by the state's number.
    pub fn entries(&self) -> &[Course]
        ensures same { result.now ≡ self.now.entries }
        ensures sum { IsSum self.now }
    {
        &self.entries
    }
}
