// What states do on classes of bytes.

ghost use Rattle.std.specs.Prelude.{◌≡◌, ◌+◌, ◌<◌, ◌≤◌, ℕ, Some, OnOk, IfOk, get_or, length};
ghost use Rattle.std.specs.Prelude.{slice_get};
ghost use Rattle.kex_script.specs.Pages.{BeginsWithZeros, KeepsItems};

use crate::script::Entry;
use kex_code::memory::Memory;
use std::alloc::Global;

/// How many numbers come first: those of classes that all have the first entry.
const ZEROS: usize = 256;

/// Where a state's numbers begin, one for each class, and where its entries do.
#[derive(Clone, Copy, Debug, PartialEq, Eq)]
pub struct EntryPlace {
    pub numbers: u32,
    pub first: u32,
}

/// What states do: of each the entries that are different, and the number of the entry of each of
/// its classes.
#[derive(Drop)]
pub struct StateEntries {
    pub places: Vec<EntryPlace>,
    pub numbers: Vec<u8>,
    pub entries: Vec<Entry>,
}

impl StateEntries {
    /// No states.
    pub fn new(alloc: Global) -> Result<StateEntries, Memory>
        ensures none { IfOk result (λ a. length a.places.items ≡ 0) }
        ensures zeros { IfOk result (λ a. BeginsWithZeros a.numbers.items) }
    {
        let mut numbers = Vec::new(alloc);
        numbers.resize(ZEROS, 0)?;
        Ok(StateEntries {
            places: Vec::new(alloc),
            numbers,
            entries: Vec::new(alloc),
        })
    }
}

/// Puts the numbers of all classes after others, zeros for those past the row, and tells where they
/// begin. Others begin with zeros.
pub fn put_numbers(numbers: &mut Vec<u8>, row: &[u8], classes: u16) -> Result<u32, Memory>
    requires zeros { BeginsWithZeros numbers.old.items }
    requires short { length row.now ≤ classes }
    requires few { classes ≤ 256 }
    ensures at { IfOk result (λ at. (class : ℕ) → class < classes
        → slice_get numbers.new.items (at + class) ≡ Some (get_or row.now class 0)) }
    ensures kept { OnOk result (KeepsItems numbers.old.items numbers.new.items) }
{
    if row.is_empty() {
        return Ok(0);
    }
    let Ok(at) = u32::try_from(numbers.len()) else {
        return Err(Memory);
    };
    numbers.extend_from_slice(row)?;
    numbers.resize(at as usize + usize::from(classes), 0)?;
    Ok(at)
}
