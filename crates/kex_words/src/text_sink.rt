// The line of a note after a text.
ghost use Rattle.std.specs.Prelude.{◌≡◌, ◌++◌, OnOk, Some, None};
ghost use Rattle.kex_words.specs.Lines.{line_of};

use crate::notes::{Note, line};
use kex_ports::{Failed, Sink};
use std::alloc::{AllocError, Global};
use std::mem;

// A text as a sink. It fails where there is no memory.
#[derive(Drop)]
struct TextSink {
    text: Vec<u8>,
    faults: u64,
}

impl Sink for TextSink {
    ghost held = { λ s. Some s.text.items };

    ghost faults = { λ s. s.faults };

    ghost ending = { λ _. None };

    fn write(&mut self, bytes: &[u8]) -> Result<usize, Failed> {
        if self.text.extend_from_slice(bytes).is_err() {
            self.faults = self.faults.saturating_add(1);
            return Err(Failed);
        }
        Ok(bytes.len())
    }

    fn finish(&mut self) -> Result<(), Failed> {
        Ok(())
    }
}

/// Puts the note's line after a text; of `Nothing`, nothing.
pub fn push_line(alloc: Global, note: Note, text: &mut Vec<u8>) -> Result<(), AllocError>
    ensures { OnOk result (text.new.items ≡ text.old.items ++ line_of note) }
{
    let mut sink = TextSink {
        text: mem::replace(text, Vec::new(alloc)),
        faults: 0,
    };
    let told = line(&mut sink, note);
    *text = sink.text;
    told.map_err(|_| AllocError)
}
