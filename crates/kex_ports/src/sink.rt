// Where output goes.
ghost use Rattle.std.specs.Prelude.{◌≡◌, ◌<◌, ◌≤◌, [], List, ℕ, Option, Some, None, IsOk, OnErr};
ghost use Rattle.std.specs.Prelude.{IfOk, length, take};
ghost use Rattle.std.specs.Io.KnownBytes.{Appends, Keeps};
ghost use Rattle.kex_ports.specs.Bytes.{AppendsFront, TakesSome};
ghost use Rattle.kex_ports.specs.Calls.{none_made};
ghost use Rattle.kex_ports.specs.Causes.{HasCause};
ghost use Rattle.kex_ports.specs.Endings.{Ending, IsWritten, after_finish, never_ended};
ghost use Rattle.kex_ports.specs.InMemory.{HasFinished, SinkHasWritten};

use crate::calls::Calls;
use crate::ending::Ending;
use crate::fault::Failed;
use kex_code::memory::Memory;
use std::alloc::Global;
use std::marker::Model;

/// Output, by the bytes that it holds and the number of its faults.
pub trait Sink {
    /// The bytes that it holds, where the sink tells them.
    ghost held: { Self → Option (List ℕ) };

    /// How often it has failed.
    ghost faults: { Self → ℕ };

    /// How it was ended, where the sink tells it.
    ghost ending: { Self → Option Ending };

    /// Takes at least one byte of a piece that isn't empty, from its front.
    fn write(&mut self, bytes: &[u8]) -> Result<usize, Failed>
        ensures bound { TakesSome result bytes.now }
        ensures taken { IfOk result (λ n.
            Appends (held self.old) (held self.new) (take n bytes.now)) }
        ensures failed { OnErr result (AppendsFront (held self.old) (held self.new) bytes.now) }
        ensures cause { HasCause (faults self.old) (faults self.new) result }
        ensures ending { IsWritten (ending self.old) (ending self.new) result };

    /// Ends the output.
    fn finish(&mut self) -> Result<(), Failed>
        ensures held { Keeps (held self.old) (held self.new) }
        ensures cause { HasCause (faults self.old) (faults self.new) result }
        ensures ending { ending self.new ≡ after_finish (ending self.old) };
}

/// Output in memory, with room that was made ahead, of which a write takes `per_write` bytes at
/// most. The calls with these numbers, counted from 1, fail; `finish` is a call. So does a write
/// past the room.
#[derive(Drop)]
pub struct MemSink {
    held: Vec<u8>,
    room: usize,
    per_write: usize,
    calls: Calls,
    ending: Ending,
}

impl Model for MemSink {
    ghost use Rattle.std.specs.Prelude.{◌<◌, ◌≤◌, vec_len, vec_capacity};
    ghost use Rattle.kex_ports.specs.InMemory.{SinkHolding};

    ghost Value = { SinkHolding };

    ghost view = { λ s. record {
      held = s.held.items;
      room = s.room;
      most = s.per_write;
      calls = s.calls;
      ending = s.ending;
    } };

    ghost invariant = { λ s. (vec_len s.held ≤ s.room) × (s.room ≤ vec_capacity s.held)
        × (0 < s.per_write) };
}

impl MemSink {
    /// With room for this many bytes.
    pub fn new(
        alloc: Global,
        room: usize,
        per_write: usize,
        fails: Vec<u64>,
    ) -> Result<Self, Memory>
        requires { 0 < per_write }
        ensures { IfOk result (λ s. s ≡ record {
          held = [];
          room = room;
          most = per_write;
          calls = none_made fails.items;
          ending = never_ended;
        }) }
    {
        Ok(MemSink {
            held: Vec::with_capacity(alloc, room)?,
            room,
            per_write,
            calls: Calls::new(fails),
            ending: Ending::new(),
        })
    }

    /// The bytes that it holds.
    pub fn bytes(&self) -> &[u8]
        ensures { result.now ≡ self.now.held }
    {
        &self.held
    }
}

impl Sink for MemSink {
    ghost held = { λ s. Some s.held };

    ghost faults = { λ s. s.calls.faults };

    ghost ending = { λ s. Some s.ending };

    fn write(&mut self, bytes: &[u8]) -> Result<usize, Failed>
        ensures bound { TakesSome result bytes.now }
        ensures taken { IfOk result (λ n.
            Appends (Some self.old.held) (Some self.new.held) (take n bytes.now)) }
        ensures failed { OnErr result
            (AppendsFront (Some self.old.held) (Some self.new.held) bytes.now) }
        ensures cause { HasCause self.old.calls.faults self.new.calls.faults result }
        ensures ending { IsWritten (Some self.old.ending) (Some self.new.ending) result }
        ensures exact { SinkHasWritten self.old self.new bytes.now result }
    {
        let count = bytes.len().min(self.per_write);
        let is_past = count > self.room - self.held.len();
        if is_past || self.calls.is_next_failing() {
            self.calls.fail();
            self.ending.fail_to_write();
            return Err(Failed);
        }
        if self.held.extend_from_slice(&bytes[..count]).is_err() {
            self.calls.fail();
            self.ending.fail_to_write();
            return Err(Failed);
        }
        self.calls.pass();
        self.ending.write();
        Ok(count)
    }

    fn finish(&mut self) -> Result<(), Failed>
        ensures held { Keeps (Some self.old.held) (Some self.new.held) }
        ensures cause { HasCause self.old.calls.faults self.new.calls.faults result }
        ensures ending { Some self.new.ending ≡ after_finish (Some self.old.ending) }
        ensures exact { HasFinished self.old self.new result }
    {
        self.ending.finish();
        if self.calls.is_next_failing() {
            self.calls.fail();
            return Err(Failed);
        }
        self.calls.pass();
        Ok(())
    }
}

/// Takes all bytes, and keeps and tells none.
#[derive(Clone, Copy, Debug)]
pub struct NeverFailsSink;

impl Sink for NeverFailsSink {
    ghost held = { λ _. None };

    ghost faults = { λ _. 0 };

    ghost ending = { λ _. None };

    fn write(&mut self, bytes: &[u8]) -> Result<usize, Failed>
        ensures bound { TakesSome result bytes.now }
        ensures taken { IfOk result (λ n. Appends None None (take n bytes.now)) }
        ensures failed { OnErr result (AppendsFront None None bytes.now) }
        ensures cause { HasCause 0 0 result }
        ensures ending { IsWritten None None result }
        ensures exact { result ≡ Ok (length bytes.now) }
    {
        Ok(bytes.len())
    }

    fn finish(&mut self) -> Result<(), Failed>
        ensures held { Keeps None None }
        ensures cause { HasCause 0 0 result }
        ensures ending { None ≡ after_finish None }
        ensures exact { IsOk result }
    {
        Ok(())
    }
}
