// Calls of the system that are made again: where a signal interrupts one, and where one would block
// on what doesn't wait by itself.
ghost use Rattle.std.specs.Prelude.{◌↔◌, IsTrue, IfErr};
ghost use Rattle.std.specs.IoError.{error_kind};
ghost use Rattle.std.specs.Io.{ReadsAtMost, WritesAtMost};
ghost use Rattle.std.specs.Io.KnownBytes.{Keeps, ReadConsumes, WriteAppends};
ghost use Rattle.kex.specs.Passing.{IsPassing};

use std::io::{Error, ErrorKind, Read, Result, Write};
use std::thread;
use std::time::{Clock, Duration};

// So often that no call is given up.
const MOST_TRIES: u64 = u64::MAX;

const PAUSE_MILLIS: u64 = 1;

// Whether a call that ended so is to be made again. Where it would have blocked, a while passes
// first.
fn is_passing<C: Clock>(clock: &C, error: &Error) -> bool
    ensures { IsTrue result ↔ IsPassing (error_kind error.now) }
{
    match error.kind() {
        ErrorKind::Interrupted => true,
        ErrorKind::WouldBlock => {
            thread::sleep(clock, Duration::from_millis(PAUSE_MILLIS));
            true
        }
        _ => false,
    }
}

/// Reads once there is something to read, or the end.
pub(crate) fn read_once<R: Read, C: Clock>(
    clock: &C,
    reader: &mut R,
    buf: &mut [u8],
) -> Result<usize>
    ensures bound { ReadsAtMost result buf.new }
    ensures bytes { ReadConsumes (R.remaining reader.old) (R.remaining reader.new) result buf.new }
    ensures lasting { IfErr result (λ e. IsPassing (error_kind e) → ⊥) }
{
    for _try in 0..MOST_TRIES {
        match reader.read(buf) {
            Err(error) if is_passing(clock, &error) => {}
            done => return done,
        }
    }
    Err(Error::from(ErrorKind::TimedOut))
}

/// Writes once there is room.
pub(crate) fn write_once<W: Write, C: Clock>(
    clock: &C,
    writer: &mut W,
    bytes: &[u8],
) -> Result<usize>
    ensures bound { WritesAtMost result bytes.now }
    ensures bytes { WriteAppends (W.contents writer.old) (W.contents writer.new) result bytes.now }
    ensures lasting { IfErr result (λ e. IsPassing (error_kind e) → ⊥) }
{
    for _try in 0..MOST_TRIES {
        match writer.write(bytes) {
            Err(error) if is_passing(clock, &error) => {}
            done => return done,
        }
    }
    Err(Error::from(ErrorKind::TimedOut))
}

/// Hands on what a writer holds back, once there is room.
pub(crate) fn flush_once<W: Write, C: Clock>(clock: &C, writer: &mut W) -> Result<()>
    ensures bytes { Keeps (W.contents writer.old) (W.contents writer.new) }
    ensures lasting { IfErr result (λ e. IsPassing (error_kind e) → ⊥) }
{
    for _try in 0..MOST_TRIES {
        match writer.flush() {
            Err(error) if is_passing(clock, &error) => {}
            done => return done,
        }
    }
    Err(Error::from(ErrorKind::TimedOut))
}
