// A file that is read from its front.

ghost use Rattle.std.specs.Prelude.{◌≡◌, ℕ, ◌<◌, ◌≤◌, ◌++◌, ◌∷◌, [], IfErr, IfSome, IfNone, List};
ghost use Rattle.std.specs.Prelude.{OnErr, OnOk, Some, true, false, codes, count_by};
ghost use Rattle.std.specs.Prelude.{decimal, drop, length, ◌==◌};
ghost use Rattle.kex_code.specs.Codes.{Begins};
ghost use Rattle.kex_tokens.specs.Bytes.{line_feed};
ghost use Rattle.kex_tabfile.specs.Lines.{line_behind};
ghost use Rattle.kex_tabfile.specs.Readers.{IsDigit, ReadsBytes, most_bytes};
ghost use Rattle.kex_tabfile.specs.declared.refusal.TableRefusal.TheVariants.{BadTable};

use crate::refusal::TableRefusal;
use std::marker::Model;

/// The bytes of a file, and how many of them were read.
#[derive(Drop)]
pub(crate) struct TableReader<'b> {
    bytes: &'b [u8],
    at: usize,
}

impl<'b> Model for TableReader<'b> {
    ghost use Rattle.std.specs.Prelude.{◌≤◌, length, drop, take};
    ghost use Rattle.kex_tabfile.specs.Readers.{ReadSoFar, most_bytes};

    ghost Value = { ReadSoFar };

    ghost view = { λ r. record { before = take r.at r.bytes.now; rest = drop r.at r.bytes.now } };

    ghost invariant = { λ r. (r.at ≤ length r.bytes.now) × (length r.bytes.now ≤ most_bytes) };
}

// How many line feeds there are.
fn count_line_feeds(bytes: &[u8]) -> u32
    requires { length bytes.now ≤ most_bytes }
    ensures count { result ≡ count_by (λ b. b == line_feed) bytes.now }
    ensures within { result ≤ length bytes.now }
{
    let mut count = 0;
    for byte in bytes {
        if *byte == b'\n' {
            count += 1;
        }
    }
    count
}

fn is_digit(byte: u8) -> bool
    ensures yes { result ≡ true → IsDigit byte }
    ensures no { result ≡ false → IsDigit byte → ⊥ }
{
    byte >= b'0' && byte <= b'9'
}

// The number that the digits from an offset on write, if it is at most `most`.
fn number_at(bytes: &[u8], from: usize, most: u32) -> Option<u32>
    ensures within { IfSome result (λ n. n ≤ most) }
    ensures number { (n next : ℕ) (more : List ℕ) → n ≤ most
        → drop from bytes.now ≡ decimal n ++ next ∷ more → (IsDigit next → ⊥)
        → result ≡ Some n }
{
    let mut value: u64 = 0;
    for i in from..bytes.len() {
        let byte = bytes[i];
        if !is_digit(byte) {
            return Some(value as u32);
        }
        value = 10 * value + u64::from(byte - b'0');
        if value > u64::from(most) {
            return None;
        }
    }
    Some(value as u32)
}

// Whether the bytes begin with a line.
fn begins(bytes: &[u8], line: &[u8]) -> bool
    ensures yes { result ≡ true → bytes.now ≡ line.now ++ drop (length line.now) bytes.now }
    ensures no { result ≡ false → Begins bytes.now line.now → ⊥ }
{
    bytes.starts_with(line)
}

impl<'b> TableReader<'b> {
    /// Nothing was read.
    pub(crate) fn new(bytes: &'b [u8]) -> TableReader<'b>
        requires { length bytes.now ≤ most_bytes }
        ensures { result ≡ record { before = []; rest = bytes.now } }
    {
        TableReader { bytes, at: 0 }
    }

    /// That the line that comes next isn't right.
    pub(crate) fn bad_line(&self) -> TableRefusal
        ensures { result ≡ BadTable (line_behind self.now.before) }
    {
        TableRefusal::BadTable {
            line: 1 + count_line_feeds(&self.bytes[..self.at]),
        }
    }

    /// Whether all was read.
    pub(crate) fn is_at_end(&self) -> bool
        ensures yes { result ≡ true → self.now.rest ≡ [] }
        ensures no { result ≡ false → self.now.rest ≡ [] → ⊥ }
    {
        self.at == self.bytes.len()
    }

    /// Reads these bytes, if they come next.
    pub(crate) fn take(&mut self, line: &[u8]) -> Result<(), TableRefusal>
        ensures read { OnOk result (ReadsBytes self.old line.now self.new) }
        ensures bad { IfErr result (λ e. (e ≡ BadTable (line_behind self.old.before))
            × (Begins self.old.rest line.now → ⊥)) }
        ensures kept { OnErr result (self.new ≡ self.old) }
    {
        if !begins(&self.bytes[self.at..], line) {
            return Err(self.bad_line());
        }
        self.at += line.len();
        Ok(())
    }

    /// Reads a line and a text of `size` bytes, with a line feed after it, if they come next.
    pub(crate) fn take_text(&mut self, line: &[u8], size: usize) -> Option<&'b [u8]>
        ensures read { IfSome result (λ text. (length text.now ≡ size)
            × ReadsBytes self.old (line.now ++ (text.now ++ codes "\n")) self.new) }
        ensures none { IfNone result ((text : List ℕ) → length text ≡ size
            → Begins self.old.rest (line.now ++ (text ++ codes "\n")) → ⊥) }
        ensures kept { IfNone result (self.new ≡ self.old) }
    {
        let bytes = self.bytes;
        let left = &bytes[self.at..];
        if !begins(left, line) {
            return None;
        }
        let behind = &left[line.len()..];
        if size >= behind.len() || behind[size] != b'\n' {
            return None;
        }
        self.at += line.len() + size + 1;
        Some(&behind[..size])
    }

    /// The number that comes `skip` bytes on, if it is at most `most`. Where there are no digits,
    /// what it gives means nothing.
    pub(crate) fn number(&self, skip: usize, most: u32) -> Option<u32>
        ensures short { length self.now.rest ≤ most_bytes }
        ensures within { IfSome result (λ n. n ≤ most) }
        ensures number { (front : List ℕ) (n next : ℕ) (more : List ℕ) → length front ≡ skip
            → n ≤ most → self.now.rest ≡ front ++ (decimal n ++ next ∷ more)
            → (IsDigit next → ⊥) → result ≡ Some n }
    {
        if skip > self.bytes.len() - self.at {
            return None;
        }
        number_at(self.bytes, self.at + skip, most)
    }
}
