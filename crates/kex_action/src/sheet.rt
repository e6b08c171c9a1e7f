// What an actor has written and not handed on yet.

ghost use Rattle.std.specs.Prelude.{◌≡◌, ◌++◌, [], ◌∷◌, IfOk, OnOk, IfSome, IfNone, IsTrue, false};
ghost use Rattle.std.specs.Prelude.{length};
ghost use Rattle.kex_action.specs.Sheets.{IsSheet, IsAsLong, IsBlank, IsSame, Writes, ClosesBuffer};

use crate::buffer::Buffer;
use crate::piece::{PIECE, copy_piece};
use crate::push::push;
use kex_code::memory::Memory;
use std::alloc::Global;

/// Bytes that are written and not handed on yet. From each mark on they are in a buffer that was
/// opened there, up to the next mark. What comes from `used` on doesn't count.
#[derive(Drop)]
pub struct Sheet {
    pub bytes: Vec<u8>,
    pub used: usize,
    pub marks: Vec<usize>,
}

impl Sheet {
    /// Nothing is on it, and there is room for `room` bytes.
    pub fn new(alloc: Global, room: usize) -> Result<Sheet, Memory>
        ensures room { IfOk result (λ s. length s.bytes.items ≡ room) }
        ensures none { IfOk result (λ s. IsBlank s) }
    {
        let mut bytes = Vec::new(alloc);
        bytes.resize(room, 0)?;
        Ok(Sheet {
            bytes,
            used: 0,
            marks: Vec::new(alloc),
        })
    }

    // Writes a byte, if there is room for it.
    #[inline(always)]
    pub(crate) fn write_byte(&mut self, byte: u8) -> bool
        requires { IsSheet self.old }
        ensures written { IsTrue result → Writes self.old self.new (byte ∷ []) }
        ensures stays { result ≡ false → IsSame self.old self.new }
        ensures sheet { IsSheet self.new }
        ensures room { IsAsLong self.old self.new }
    {
        let used = self.used;
        if used == self.bytes.len() {
            return false;
        }
        self.bytes[used] = byte;
        self.used = used + 1;
        true
    }

    // Writes bytes, if there is room for them.
    #[inline(never)]
    fn write_many(&mut self, bytes: &[u8]) -> bool
        requires { IsSheet self.old }
        ensures written { IsTrue result → Writes self.old self.new bytes.now }
        ensures stays { result ≡ false → IsSame self.old self.new }
        ensures sheet { IsSheet self.new }
        ensures room { IsAsLong self.old self.new }
    {
        if bytes.len() > self.bytes.len() - self.used {
            return false;
        }
        let end = self.used + bytes.len();
        self.bytes[self.used..end].copy_from_slice(bytes);
        self.used = end;
        true
    }

    // The same. One byte is written without a call.
    #[inline(always)]
    pub(crate) fn write(&mut self, bytes: &[u8]) -> bool
        requires { IsSheet self.old }
        ensures written { IsTrue result → Writes self.old self.new bytes.now }
        ensures stays { result ≡ false → IsSame self.old self.new }
        ensures sheet { IsSheet self.new }
        ensures room { IsAsLong self.old self.new }
    {
        if bytes.len() == 1 {
            return self.write_byte(bytes[0]);
        }
        self.write_many(bytes)
    }

    // Writes what a buffer has, if there is room for it. A few bytes are copied as a whole piece
    // where there is one.
    #[inline(always)]
    pub(crate) fn write_buffer(&mut self, buffer: &Buffer) -> bool
        requires { IsSheet self.old }
        ensures written { IsTrue result → Writes self.old self.new buffer.now }
        ensures stays { result ≡ false → IsSame self.old self.new }
        ensures sheet { IsSheet self.new }
        ensures room { IsAsLong self.old self.new }
    {
        let used = self.used;
        let count = buffer.len();
        let bytes = buffer.room();
        if count <= PIECE && bytes.len() >= PIECE && self.bytes.len() - used >= PIECE {
            copy_piece(bytes, 0, &mut self.bytes, used);
            self.used = used + count;
            return true;
        }
        self.write_many(buffer.as_slice())
    }

    /// Opens a buffer.
    #[inline(always)]
    pub fn open(&mut self) -> Result<(), Memory>
        requires { IsSheet self.old }
        ensures opened { OnOk result (self.new.marks.items
            ≡ self.old.marks.items ++ self.old.used ∷ []) }
        ensures sheet { OnOk result (IsSheet self.new) }
        ensures same { (self.new.bytes.items ≡ self.old.bytes.items)
            × (self.new.used ≡ self.old.used) }
    {
        push(&mut self.marks, self.used)
    }

    // Where the innermost buffer was opened here, if one was. It is closed then, and what it had
    // doesn't count any more.
    #[inline(always)]
    pub(crate) fn close(&mut self) -> Option<usize>
        requires { IsSheet self.old }
        ensures some { IfSome result (λ end. (end ≡ self.old.used)
            × ClosesBuffer self.old self.new) }
        ensures none { IfNone result (IsSame self.old self.new) }
        ensures sheet { IsSheet self.new }
    {
        let end = self.used;
        let mark = self.marks.pop()?;
        self.used = mark;
        Some(end)
    }

    // Nothing is on it any more.
    pub(crate) fn clear(&mut self)
        ensures none { IsBlank self.new }
        ensures same { self.new.bytes.items ≡ self.old.bytes.items }
    {
        self.used = 0;
        self.marks.clear();
    }
}
