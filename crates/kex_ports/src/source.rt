// Where input comes from.
ghost use Rattle.std.specs.Prelude.{◌≡◌, ◌<◌, ◌≤◌, List, ℕ, Option, Some, None, OnErr, IfOk};
ghost use Rattle.std.specs.Prelude.{length, drop, take, min, vec_len};
ghost use Rattle.std.specs.Io.{ReadsAtMost};
ghost use Rattle.std.specs.Io.KnownBytes.{ReadConsumes};
ghost use Rattle.kex_ports.specs.Calls.{none_made};
ghost use Rattle.kex_ports.specs.Causes.{HasCause};
ghost use Rattle.kex_ports.specs.InMemory.{HasRead};
ghost use Rattle.kex_ports.specs.Reads.{HasAsked, Reads, no_reads};

use crate::asked::Asked;
use crate::calls::Calls;
use crate::fault::Failed;
use std::marker::Model;

/// Input, by the bytes that it has left and the number of its faults.
pub trait Source {
    /// The bytes that are left, where the source tells them.
    ghost rest: { Self → Option (List ℕ) };

    /// How often it has failed.
    ghost faults: { Self → ℕ };

    /// What its reads asked for and the last one gave, where the source tells it.
    ghost reads: { Self → Option Reads };

    /// Reads at least one byte, or 0 at the end of input.
    fn read(&mut self, buf: &mut [u8]) -> Result<usize, Failed>
        requires { 0 < length buf.old }
        ensures bound { ReadsAtMost result buf.new }
        ensures bytes { ReadConsumes (rest self.old) (rest self.new) result buf.new }
        ensures cause { HasCause (faults self.old) (faults self.new) result }
        ensures asked { HasAsked (reads self.old) (reads self.new) (length buf.old) result };
}

// The bytes from a place on.
fn bytes_from(bytes: &[u8], at: usize) -> &[u8]
    requires { at ≤ length bytes.now }
    ensures { result.now ≡ drop at bytes.now }
{
    &bytes[at..]
}

// Copies a front of `from`, of at most `most` bytes, and says how many.
fn copy_front(from: &[u8], most: usize, buf: &mut [u8]) -> usize
    ensures count { result ≡ min (min (length buf.old) most) (length from.now) }
    ensures bytes { take result buf.new ≡ take result from.now }
    ensures beyond { drop result buf.new ≡ drop result buf.old }
    ensures some { 0 < most → 0 < length from.now → 0 < length buf.new → 0 < result }
{
    let count = buf.len().min(most).min(from.len());
    buf[..count].copy_from_slice(&from[..count]);
    count
}

/// Bytes in memory, of which a read gives at most `per_read`. The calls with these numbers, counted
/// from 1, fail.
#[derive(Drop)]
pub struct MemSource {
    bytes: Vec<u8>,
    at: usize,
    per_read: usize,
    calls: Calls,
    asked: Asked,
}

impl Model for MemSource {
    ghost use Rattle.std.specs.Prelude.{◌<◌, ◌≤◌, drop, vec_len};
    ghost use Rattle.kex_ports.specs.InMemory.{SourceReading};

    ghost Value = { SourceReading };

    ghost view = { λ s. record {
      left = drop s.at s.bytes.items;
      most = s.per_read;
      calls = s.calls;
      reads = s.asked;
    } };

    ghost invariant = { λ s. (s.at ≤ vec_len s.bytes) × (0 < s.per_read) };
}

impl MemSource {
    /// A read gives at most `per_read` bytes, and the calls numbered in `fails` fail.
    pub fn new(bytes: Vec<u8>, per_read: usize, fails: Vec<u64>) -> Self
        requires { 0 < per_read }
        ensures { result ≡ record {
          left = bytes.items;
          most = per_read;
          calls = none_made fails.items;
          reads = no_reads;
        } }
    {
        MemSource {
            bytes,
            at: 0,
            per_read,
            calls: Calls::new(fails),
            asked: Asked::new(),
        }
    }

    /// The bytes that were not read yet.
    pub fn left(&self) -> &[u8]
        ensures { result.now ≡ self.now.left }
    {
        bytes_from(&self.bytes, self.at)
    }
}

impl Source for MemSource {
    ghost rest = { λ s. Some s.left };

    ghost faults = { λ s. s.calls.faults };

    ghost reads = { λ s. Some s.reads };

    fn read(&mut self, buf: &mut [u8]) -> Result<usize, Failed>
        requires { 0 < length buf.old }
        ensures bound { ReadsAtMost result buf.new }
        ensures bytes { ReadConsumes (Some self.old.left) (Some self.new.left) result buf.new }
        ensures cause { HasCause self.old.calls.faults self.new.calls.faults result }
        ensures asked { HasAsked (Some self.old.reads) (Some self.new.reads)
            (length buf.old) result }
        ensures exact { HasRead self.old self.new (length buf.old) result }
        ensures beyond { IfOk result (λ n. drop n buf.new ≡ drop n buf.old) }
        ensures untouched { OnErr result (buf.new ≡ buf.old) }
    {
        if self.calls.is_next_failing() {
            self.calls.fail();
            self.asked.note(buf.len(), 0);
            return Err(Failed);
        }
        self.calls.pass();
        let count = copy_front(bytes_from(&self.bytes, self.at), self.per_read, buf);
        self.at += count;
        self.asked.note(buf.len(), count);
        Ok(count)
    }
}

/// Bytes in memory that are read without a fault.
#[derive(Drop)]
pub struct NeverFailsSource {
    bytes: Vec<u8>,
    at: usize,
}

impl Model for NeverFailsSource {
    ghost use Rattle.std.specs.Prelude.{◌≤◌, List, ℕ, drop, vec_len};

    ghost Value = { List ℕ };

    ghost view = { λ s. drop s.at s.bytes.items };

    ghost invariant = { λ s. s.at ≤ vec_len s.bytes };
}

impl NeverFailsSource {
    /// Of these bytes, none of which was read.
    pub fn new(bytes: Vec<u8>) -> Self
        ensures { result ≡ bytes.items }
    {
        NeverFailsSource { bytes, at: 0 }
    }
}

impl Source for NeverFailsSource {
    ghost rest = { λ s. Some s };

    ghost faults = { λ _. 0 };

    ghost reads = { λ _. None };

    fn read(&mut self, buf: &mut [u8]) -> Result<usize, Failed>
        requires { 0 < length buf.old }
        ensures bound { ReadsAtMost result buf.new }
        ensures bytes { ReadConsumes (Some self.old) (Some self.new) result buf.new }
        ensures cause { HasCause 0 0 result }
        ensures asked { HasAsked None None (length buf.old) result }
        ensures exact { result ≡ Ok (min (length buf.old) (length self.old)) }
        ensures beyond { IfOk result (λ n. drop n buf.new ≡ drop n buf.old) }
    {
        let count = copy_front(bytes_from(&self.bytes, self.at), usize::MAX, buf);
        self.at += count;
        Ok(count)
    }
}
