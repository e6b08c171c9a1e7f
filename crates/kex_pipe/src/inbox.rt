// What waits between two stages.

ghost use Rattle.std.specs.Prelude.{◌≡◌, ◌≤◌, ◌&&◌, ◌++◌, ◌↔◌, ◌⊎◌, [], true, false};
ghost use Rattle.std.specs.Prelude.{IsTrue, OnOk, OnErr, not, nat_lt, length, take, drop};

use kex_code::memory::Memory;
use std::alloc::Global;
use std::mem::swap;

/// Items that wait: bytes, and the end after them where it has come.
///
/// What was taken lies before `start` until it is more than what waits: no more bytes are moved
/// than were taken.
#[derive(Drop)]
pub struct Inbox {
    pub(crate) bytes: Vec<u8>,
    pub(crate) start: usize,
    pub(crate) ended: bool,
    ghost within: { start ≤ length bytes.items },
}

impl Inbox {
    ghost use Rattle.kex_pipe.specs.Waiting.{unread_bytes, waiting_items};

    /// Nothing waits.
    pub fn new(alloc: Global) -> Inbox
        ensures bytes { unread_bytes result ≡ [] }
        ensures open { result.ended ≡ false }
    {
        Inbox {
            bytes: Vec::new(alloc),
            start: 0,
            ended: false,
        }
    }

    /// Whether nothing waits.
    pub fn is_empty(&self) -> bool
        ensures { IsTrue result ↔ ((unread_bytes self.now ≡ []) × (self.now.ended ≡ false)) }
    {
        !self.ended && self.bytes[self.start..].is_empty()
    }

    /// The bytes.
    pub fn bytes(&self) -> &[u8]
        ensures { result.now ≡ unread_bytes self.now }
    {
        &self.bytes[self.start..]
    }

    /// The bytes among the first items.
    pub fn front(&self, at_most: u64) -> &[u8]
        ensures { result.now ≡ take at_most (unread_bytes self.now) }
    {
        let rest = &self.bytes[self.start..];
        let count = rest.len().min(at_most as usize);
        &rest[..count]
    }

    /// Whether the end is among the first items.
    pub fn reaches_end(&self, at_most: u64) -> bool
        ensures { result ≡ (self.now.ended && nat_lt (length (unread_bytes self.now)) at_most) }
    {
        self.ended && self.bytes.len() - self.start < at_most as usize
    }

    /// How many items there are.
    pub fn count(&self) -> u64
        ensures { result ≡ length (waiting_items self.now) }
    {
        self.byte_count() as u64 + u64::from(self.ended)
    }

    /// How many bytes there are.
    pub fn byte_count(&self) -> usize
        ensures { result ≡ length (unread_bytes self.now) }
    {
        self.bytes.len() - self.start
    }

    /// Moves all that waits there to the end of what waits here, where the end hasn't come or
    /// nothing waits there. After an error the bytes here are as they were.
    pub fn append(&mut self, other: &mut Inbox) -> Result<(), Memory>
        ensures ok { OnOk result ((self.old.ended ≡ false) ⊎ (waiting_items other.old ≡ [])
            → waiting_items self.new ≡ waiting_items self.old ++ waiting_items other.old) }
        ensures none_left { OnOk result (waiting_items other.new ≡ []) }
        ensures err { OnErr result (unread_bytes self.new ≡ unread_bytes self.old) }
    {
        if self.is_empty() {
            swap(self, other);
        } else {
            self.give(&other.bytes[other.start..])?;
            self.ended = self.ended || other.ended;
        }
        other.clear();
        Ok(())
    }

    /// Takes the first items away.
    pub fn remove(&mut self, at_most: u64)
        ensures bytes { unread_bytes self.new ≡ drop at_most (unread_bytes self.old) }
        ensures end { self.new.ended
            ≡ (self.old.ended && not (nat_lt (length (unread_bytes self.old)) at_most)) }
    {
        if self.bytes.len() - self.start < at_most as usize {
            self.clear();
        } else {
            self.start += at_most as usize;
            if self.start > self.bytes.len() / 2 {
                self.compact();
            }
        }
    }

    // Frees the room of what was taken.
    fn compact(&mut self)
        ensures bytes { unread_bytes self.new ≡ unread_bytes self.old }
        ensures same_end { self.new.ended ≡ self.old.ended }
        ensures start { self.new.start ≡ 0 }
    {
        // Where all was taken nothing has to be moved.
        if self.start == self.bytes.len() {
            self.bytes.clear();
        } else {
            self.bytes.drain(..self.start);
        }
        self.start = 0;
    }

    /// The bytes come in the place of what `out` held, whose room is kept for more. The end stays.
    pub fn take_bytes_into(&mut self, out: &mut Vec<u8>)
        ensures bytes { out.new.items ≡ unread_bytes self.old }
        ensures none_left { unread_bytes self.new ≡ [] }
        ensures same_end { self.new.ended ≡ self.old.ended }
    {
        self.compact();
        out.clear();
        swap(&mut self.bytes, out);
    }

    /// Adds bytes. After an error nothing was added.
    pub fn give(&mut self, bytes: &[u8]) -> Result<(), Memory>
        ensures ok { OnOk result (unread_bytes self.new ≡ unread_bytes self.old ++ bytes.now) }
        ensures err { OnErr result (unread_bytes self.new ≡ unread_bytes self.old) }
        ensures same_end { self.new.ended ≡ self.old.ended }
    {
        self.bytes.extend_from_slice(bytes)?;
        Ok(())
    }

    /// The end comes.
    pub fn give_end(&mut self)
        ensures same_bytes { unread_bytes self.new ≡ unread_bytes self.old }
        ensures end { self.new.ended ≡ true }
    {
        self.ended = true;
    }

    /// Drops all that waits.
    pub(crate) fn clear(&mut self)
        ensures bytes { unread_bytes self.new ≡ [] }
        ensures open { self.new.ended ≡ false }
    {
        self.bytes.clear();
        self.start = 0;
        self.ended = false;
    }
}
