// A list of bytes that grows.

ghost use Rattle.std.specs.Prelude.{◌≡◌, ◌≤◌, ◌-◌, ◌++◌, [], IfOk, IsTrue, OnOk, OnErr};
ghost use Rattle.std.specs.Prelude.{length, take, drop};

use crate::piece::{PIECE, copy_front, copy_piece};
use kex_code::memory::Memory;
use std::alloc::Global;
use std::marker::Model;

/// Bytes of an open buffer or of a register: the first `used`. What comes after them doesn't
/// count.
#[derive(Drop)]
pub struct Buffer {
    bytes: Vec<u8>,
    used: usize,
}

impl Model for Buffer {
    ghost use Rattle.std.specs.Prelude.{◌≤◌, ℕ, List, length, take};

    ghost Value = { List ℕ };

    ghost view = { λ b. take b.used b.bytes.items };

    ghost invariant = { λ b. b.used ≤ length b.bytes.items };
}

// Makes them `room` bytes, or more.
fn make_room(bytes: &mut Vec<u8>, room: usize) -> Result<(), Memory>
    ensures room { OnOk result (room ≤ length bytes.new.items) }
    ensures err { OnErr result (bytes.new.items ≡ bytes.old.items) }
{
    if bytes.len() < room {
        bytes.resize(room, 0)?;
    }
    Ok(())
}

impl Buffer {
    /// No bytes, and no room.
    pub fn new(alloc: Global) -> Buffer
        ensures { result ≡ [] }
    {
        Buffer {
            bytes: Vec::new(alloc),
            used: 0,
        }
    }

    /// Puts bytes after those that it has.
    pub fn append(&mut self, bytes: &[u8]) -> Result<(), Memory>
        ensures { OnOk result (self.new ≡ self.old ++ bytes.now) }
    {
        self.bytes.truncate(self.used);
        self.bytes.extend_from_slice(bytes)?;
        self.used = self.bytes.len();
        Ok(())
    }

    /// Puts a part of the bytes in the place of all that it has, and keeps the room.
    #[inline(always)]
    pub fn replace(&mut self, bytes: &[u8], from: usize, to: usize) -> Result<(), Memory>
        requires { (from ≤ to) × (to ≤ length bytes.now) }
        ensures { OnOk result (self.new ≡ take (to - from) (drop from bytes.now)) }
    {
        let count = to - from;
        if count <= PIECE && self.bytes.len() >= PIECE && bytes.len() - from >= PIECE {
            copy_piece(bytes, from, &mut self.bytes, 0);
            self.used = count;
            return Ok(());
        }
        self.replace_all(&bytes[from..to])
    }

    // The same where the bytes are many, or there is no room yet. There is room for a piece then.
    #[inline(never)]
    fn replace_all(&mut self, bytes: &[u8]) -> Result<(), Memory>
        ensures { OnOk result (self.new ≡ bytes.now) }
    {
        let count = bytes.len();
        make_room(&mut self.bytes, count.max(PIECE))?;
        copy_front(bytes, &mut self.bytes);
        self.used = count;
        Ok(())
    }

    /// Its bytes.
    pub fn as_slice(&self) -> &[u8]
        ensures { result.now ≡ self.now }
    {
        &self.bytes[..self.used]
    }

    /// How many bytes it has.
    #[inline(always)]
    pub fn len(&self) -> usize
        ensures { result ≡ length self.now }
    {
        self.used
    }

    /// Its bytes, and what comes after them.
    #[inline(always)]
    pub fn room(&self) -> &[u8]
        ensures front { take (length self.now) result.now ≡ self.now }
        ensures within { length self.now ≤ length result.now }
    {
        &self.bytes
    }

    /// A buffer with the same bytes.
    pub fn copy(&self, alloc: Global) -> Result<Buffer, Memory>
        ensures { IfOk result (λ b. b ≡ self.now) }
    {
        let mut copy = Buffer::new(alloc);
        copy.append(self.as_slice())?;
        Ok(copy)
    }

    /// Whether another has the same bytes.
    pub fn is_same(&self, other: &Buffer) -> bool
        ensures { IsTrue result → self.now ≡ other.now }
    {
        self.as_slice() == other.as_slice()
    }

    /// Takes all bytes away, and keeps the room.
    pub fn clear(&mut self)
        ensures { self.new ≡ [] }
    {
        self.used = 0;
    }
}
