// Texts in files.
ghost use Rattle.std.specs.Prelude.{◌≡◌, ◌≢◌, ◌≤◌, ◌<◌, IfOk, IfSome, IsErrOf, None, length};
ghost use Rattle.std.specs.IoError.{error_kind};
ghost use Rattle.std.specs.Io.KnownBytes.{Consumes, IsAtEnd};
ghost use Rattle.kex.specs.Opened.{IsWholeText};
ghost use Rattle.kex_ports.specs.declared.shelf.ShelfAnswer.TheVariants.{Failed, TooLong, Memory};

use crate::ready::read_once;
use kex_ports::{Shelf, ShelfAnswer};
use std::alloc::Global;
use std::fs;
use std::io::{Error, ErrorKind, Read};
use std::rt::Files;
use std::time::Clock;

const BLOCK: usize = 4096;

/// Files as a shelf, by their paths. Its contract doesn't say which texts there are, and each fault
/// counts as one at a name that has a text.
#[derive(Drop)]
pub struct FileShelf<R: Files + Clock + Drop> {
    files: R,
    faults: u64,
}

impl<R: Files + Clock + Drop> FileShelf<R> {
    /// Of these files.
    pub fn new(files: R) -> Self
        ensures { ⟦<FileShelf<R> as Shelf>⟧.faults result ≡ 0 }
    {
        FileShelf { files, faults: 0 }
    }
}

fn answer(error: Error) -> ShelfAnswer
    ensures memory { error_kind error ≡ ErrorKind.OutOfMemory → result ≡ Memory }
    ensures failed { error_kind error ≢ ErrorKind.OutOfMemory → result ≡ Failed }
    ensures bound { result ≢ TooLong }
{
    match error.kind() {
        ErrorKind::OutOfMemory => ShelfAnswer::Memory,
        _ => ShelfAnswer::Failed,
    }
}

// Reads to the end, and no more than a byte past the limit.
fn read_within<F: Read, C: Clock>(
    clock: &C,
    alloc: Global,
    file: &mut F,
    limit: usize,
) -> Result<Vec<u8>, ShelfAnswer>
    ensures within { IfOk result (λ text. length text.items ≤ limit) }
    ensures read { IfOk result (λ text.
        Consumes (F.remaining file.old) (F.remaining file.new) text.items) }
    ensures end { IfOk result (λ text. IsAtEnd (F.remaining file.new)) }
    ensures too_long { IsErrOf result TooLong
        → IfSome (F.remaining file.old) (λ bytes. limit < length bytes) }
{
    let mut text = Vec::new(alloc);
    let mut block = [0; BLOCK];
    while text.len() <= limit {
        let room = (limit - text.len()).min(BLOCK - 1) + 1;
        let count = match read_once(clock, file, &mut block[..room]) {
            Ok(count) => count,
            Err(error) => return Err(answer(error)),
        };
        if count == 0 {
            return Ok(text);
        }
        if text.extend_from_slice(&block[..count]).is_err() {
            return Err(ShelfAnswer::Memory);
        }
    }
    Err(ShelfAnswer::TooLong)
}

fn take_within<R: Files + Clock>(
    files: &R,
    alloc: Global,
    name: &str,
    limit: usize,
) -> Result<Vec<u8>, ShelfAnswer>
    ensures within { IfOk result (λ text. length text.items ≤ limit) }
    ensures whole { IfOk result (λ text. IsWholeText R.File.remaining text.items) }
{
    match fs::open(files, name) {
        Ok(mut file) => read_within(files, alloc, &mut file, limit),
        Err(error) => Err(answer(error)),
    }
}

impl<R: Files + Clock + Drop> Shelf for FileShelf<R> {
    ghost texts = { λ _. None };

    ghost faults = { λ s. s.faults };

    ghost breaks = { λ s. s.faults };

    fn take(&mut self, alloc: Global, name: &str, limit: usize) -> Result<Vec<u8>, ShelfAnswer> {
        let taken = take_within(&self.files, alloc, name, limit);
        if let Err(ShelfAnswer::Failed) = &taken {
            self.faults = self.faults.saturating_add(1);
        }
        taken
    }
}
