// Quiet updates: those that pass nothing on and lead to a state with registers.

ghost use Rattle.std.specs.Prelude.{◌≡◌, ◌<◌, ◌≤◌, ◌^◌, ◌/◌, IfOk, length, take};
ghost use Rattle.kex_runner.specs.Quiet.{AreQuiet, GoesQuietly, IsGuide, IsQuietIf};

use crate::answers::Glance;
use kex_code::memory::Memory;
use kex_script::ids::UpdateId;
use kex_script::script::{Entry, Script};
use kex_sst::table::{State, Table};
use std::alloc::Global;

/// A row of quiet updates, by where it begins.
pub type QuietRow = u32;

/// No row begins here.
pub const NOWHERE: QuietRow = u32::MAX;

/// What a state does on a class of bytes, where its update is quiet: the row of its target, and the
/// update.
#[derive(Clone, Copy, Debug, PartialEq, Eq)]
pub struct Quiet {
    pub row: QuietRow,
    pub update: UpdateId,
}

/// A script, and its quiet updates: a row by class of each state up to the last that has registers.
/// A row is 2 to the power of `shift` wide, so that the state of a row is found by a shift.
#[derive(Drop)]
pub struct Guide {
    pub script: Script,
    pub quiets: Vec<Quiet>,
    pub shift: u32,
    pub width: usize,
}

// What an entry does, if it is quiet and the row of its target is within `count` places.
fn quiet_of(entry: Entry, width: usize, count: usize) -> Quiet
    requires width { width ≤ 256 }
    requires count { count < 2 ^ 32 }
    ensures { IsQuietIf entry width count result }
{
    let row = entry.target as usize * width;
    if entry.goes && entry.silent && entry.registers > 0 && row + width <= count {
        return Quiet {
            row: row as u32,
            update: entry.update,
        };
    }
    Quiet {
        row: NOWHERE,
        update: 0,
    }
}

// The quiet updates of a script, as far as they are within `count` places.
fn quiets_of(
    alloc: Global,
    script: &Script,
    width: usize,
    count: usize,
) -> Result<Vec<Quiet>, Memory>
    requires some { 0 < width }
    requires width { width ≤ 256 }
    requires count { count < 2 ^ 32 }
    ensures { IfOk result (λ all. AreQuiet script.now width (length all.items) all.items) }
{
    let mut all = Vec::new(alloc);
    for i in 0..count {
        let entry = script.entry((i / width) as u32, (i % width) as u8);
        all.push(quiet_of(entry, width, count))?;
    }
    Ok(all)
}

// The least width of rows for `count` classes, as a power of two.
fn shift_of(count: u16) -> u32
    requires { count ≤ 256 }
    ensures within { result ≤ 8 }
    ensures enough { count ≤ 2 ^ result }
{
    let mut shift = 0;
    while shift < 8 && (1_u16 << shift) < count {
        shift += 1;
    }
    shift
}

// How many states there are up to the last that has registers. A quiet update leads to one of them.
fn states_with_registers(states: &[State]) -> usize {
    let mut count = 0;
    for (number, state) in states.iter().enumerate() {
        if state.registers() > 0 {
            count = number + 1;
        }
    }
    count
}

impl Guide {
    /// The script of a table, with its quiet updates.
    pub fn new(alloc: Global, table: &Table) -> Result<Guide, Memory>
        ensures { IfOk result (λ g. IsGuide table.now g) }
    {
        let script = Script::new(alloc, table)?;
        let shift = shift_of(table.partition().classes());
        let width = 1 << shift;
        let count = states_with_registers(table.states())
            .saturating_mul(width)
            .min(NOWHERE as usize);
        let quiets = quiets_of(alloc, &script, width, count)?;
        Ok(Guide {
            script,
            quiets,
            shift,
            width,
        })
    }

    /// The state whose row begins at a place, or the one in whose row it is.
    #[inline(always)]
    pub fn state_of(&self, row: usize) -> usize
        requires width { self.now.width ≡ 2 ^ self.now.shift }
        requires narrow { self.now.shift ≤ 8 }
        ensures { result ≡ row / self.now.width }
    {
        row >> self.shift
    }

    /// How far a piece is quiet from a state on: each update passes nothing on, and leads to a
    /// state with registers. None is noted. Not inlined: within a long caller what the loop reads
    /// for each byte would be kept in memory.
    #[inline(never)]
    pub fn glance(&self, table: &Table, state: u32, piece: &[u8]) -> Glance
        requires guide { IsGuide table.now self.now }
        ensures count { result.count ≤ length piece.now }
        ensures quiet { GoesQuietly table.now state result.state (take result.count piece.now) }
    {
        let quiets = self.quiets.as_slice();
        let partition = table.partition();
        let mut row = state as usize * self.width;
        if row + self.width > quiets.len() {
            return Glance { count: 0, state };
        }
        let mut count = 0;
        while count < piece.len() {
            let byte = piece[count];
            let quiet = quiets[row + usize::from(partition.class_of(byte))];
            if quiet.row == NOWHERE {
                break;
            }
            row = quiet.row as usize;
            count += 1;
        }
        Glance {
            count,
            state: self.state_of(row) as u32,
        }
    }
}
