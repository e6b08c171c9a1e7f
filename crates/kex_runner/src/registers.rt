// Registers, and what an update does to them.

mod settling;

ghost use Rattle.std.specs.Prelude.{◌≡◌, ◌≢◌, ◌+◌, ◌-◌, ◌<◌, ◌≤◌, [], ◌∷◌, ◌++◌, OnOk, OnErr, IfOk};
ghost use Rattle.std.specs.Prelude.{IfSome, All, true, false, length, get_or, reverse};
ghost use Rattle.std.specs.Prelude.{slice_get, take};
ghost use Rattle.std.specs.Vec.{vec_capacity, vec_len};
ghost use Rattle.kex_byteset.specs.Classes.{class_count};
ghost use Rattle.kex_sst.specs.Parts.{item_count, parts_code, value};
ghost use Rattle.kex_script.specs.Pieces.{code_over};
ghost use Rattle.kex_script.specs.Scripts.{HasUpdate, Sheet, change_at};
ghost use Rattle.kex_runner.specs.Histories.{contents_after};
ghost use Rattle.kex_runner.specs.Noting.{contents, next_registers, settled_of};
ghost use Rattle.kex_runner.specs.Following.{Follows, IsRunner};
ghost use Rattle.kex_runner.specs.Quiet.{IsGuide, StaysAt, quiet_at, staying};
ghost use Rattle.kex_runner.specs.Ways.{AreKnown};

use crate::history::reading::Reading;
use crate::history::walking::Scratch;
use crate::history::{History, NotedUpdate, Settled};
use crate::quiet::{Guide, NOWHERE, Quiet};
use crate::spelling::spell;
use crate::ways::Ways;
use kex_byteset::Partition;
use kex_code::code::Code;
use kex_code::memory::Memory;
use kex_code::symbol::Symbol;
use kex_ports::Steps;
use kex_script::ids::UpdateId;
use kex_script::piece::ByteWord;
use kex_script::script::{Entry, Script};
use kex_sst::parts::{Part, Update};
use kex_sst::table::Table;
use std::alloc::Global;
use std::mem;
use std::sync::ledger::Ledger;

// The fewest noted updates at which registers are settled.
const LEAST: usize = 4096;

/// The registers of a state. Updates are noted, and not done: a register is looked up where it is
/// passed on, from the last note back to where the notes begin. There each has its pieces.
///
/// When there are many notes each register is looked up and its pieces kept, and the notes begin
/// anew, if that halves what is kept: text that several registers hold is kept once by notes. Many
/// is 4,096, or twice the pieces or the notes that there were when this was last tried, if that is
/// more.
#[derive(Drop)]
pub struct Registers {
    alloc: Global,
    base: Vec<Settled>,
    notes: Vec<NotedUpdate>,
    count: usize,
    limit: usize,
    scratch: Scratch,
}

// The pieces of a register, as they were read.
fn settled_pieces(alloc: Global, back: &[ByteWord]) -> Result<Settled, Memory>
    ensures { IfOk result (λ s. s ≡ back.now) }
{
    let mut pieces = Vec::new(alloc);
    pieces.extend_from_slice(back)?;
    Ok(Settled { pieces })
}

// The registers, each looked up. None where they come to more than `most` pieces.
fn settled(
    alloc: Global,
    history: &History,
    count: usize,
    most: usize,
    reading: &mut Reading,
) -> Result<Option<Vec<Settled>>, Memory>
    requires { count ≡ length (contents_after history.now) }
    ensures { IfOk result (λ o. IfSome o (λ all. settled_of history.now.script.now all.items
        ≡ contents_after history.now)) }
{
    let mut all = Vec::new(alloc);
    let mut left = most;
    for i in 0..count {
        history.read_register(i, reading)?;
        let pieces = reading.back.len();
        if pieces > left {
            return Ok(None);
        }
        left -= pieces;
        all.push(settled_pieces(alloc, &reading.back)?)?;
    }
    Ok(Some(all))
}

// How many pieces settled registers have, or the most that the number can say.
fn pieces_in(base: &[Settled]) -> usize {
    let mut count: usize = 0;
    for settled in base {
        count = count.saturating_add(settled.pieces.len());
    }
    count
}

// A note is put after others. There is room mostly: what makes room is apart.
#[inline(always)]
fn push(notes: &mut Vec<NotedUpdate>, note: NotedUpdate) -> Result<(), Memory>
    ensures ok { OnOk result (notes.new.items ≡ notes.old.items ++ note ∷ []) }
    ensures err { OnErr result (notes.new.items ≡ notes.old.items) }
{
    if notes.len() == notes.capacity() {
        notes.try_reserve(1)?;
    }
    notes.push_reserved(note);
    Ok(())
}

// Notes the updates of a row for each byte at which it is not left, up to one at which it is. Tells
// how many.
#[inline(always)]
fn stay(
    quiets: &[Quiet],
    partition: &Partition,
    row: usize,
    piece: &[u8],
    notes: &mut Vec<NotedUpdate>,
) -> usize
    requires row { row + class_count partition.now ≤ length quiets.now }
    requires room { vec_len notes.old + length piece.now ≤ vec_capacity notes.old }
    ensures count { result ≤ length piece.now }
    ensures stays { All (StaysAt quiets.now partition.now row) (take result piece.now) }
    ensures other { IfSome (slice_get piece.now result) (λ b.
        (quiet_at quiets.now partition.now row b).row ≢ row) }
    ensures notes { notes.new.items
        ≡ notes.old.items ++ staying quiets.now partition.now row (take result piece.now) }
    ensures room { vec_len notes.new + (length piece.now - result) ≤ vec_capacity notes.new }
{
    let mut count = 0;
    while count < piece.len() {
        let byte = piece[count];
        let told = quiets[row + usize::from(partition.class_of(byte))];
        if told.row as usize != row {
            break;
        }
        notes.push_reserved(NotedUpdate {
            update: told.update,
            byte,
            stays: true,
        });
        count += 1;
    }
    count
}

// Only the last note is kept, and no register before it.
fn cut(last: NotedUpdate, base: &mut Vec<Settled>, notes: &mut Vec<NotedUpdate>)
    requires { 0 < length notes.old.items }
    ensures base { base.new.items ≡ [] }
    ensures notes { notes.new.items ≡ last ∷ [] }
{
    base.clear();
    notes[0] = last;
    notes.truncate(1);
}

// Each part is a step.
fn count_parts<L: Ledger>(parts: &[Part], steps: &mut Steps<L>)
    ensures { steps.new ≡ steps.old + length parts.now }
{
    for _ in parts {
        steps.tick();
    }
}

/// Each item of an update is a step.
pub fn count_items<L: Ledger>(update: &Update, steps: &mut Steps<L>)
    ensures { steps.new ≡ steps.old + item_count update.now }
{
    count_parts(update.out().as_slice(), steps);
    let lists = update.regs();
    for list in lists {
        count_parts(list.as_slice(), steps);
    }
}

impl Registers {
    /// No registers.
    pub fn new(alloc: Global) -> Registers
        ensures none { (script : Sheet) → contents script result ≡ [] }
        ensures count { result.count ≡ 0 }
    {
        Registers {
            alloc,
            base: Vec::new(alloc),
            notes: Vec::new(alloc),
            count: 0,
            limit: LEAST,
            scratch: Scratch::new(alloc),
        }
    }

    /// How many there are.
    pub fn len(&self) -> usize
        ensures { result ≡ self.now.count }
    {
        self.count
    }

    /// Lets all of them go.
    pub fn clear(&mut self)
        ensures none { (script : Sheet) → contents script self.new ≡ [] }
        ensures count { self.new.count ≡ 0 }
    {
        self.base.clear();
        self.notes.clear();
        self.count = 0;
        self.limit = LEAST;
    }

    // The registers are settled, and the notes begin anew, if that halves what is kept.
    fn settle(&mut self, script: &Script) -> Result<(), Memory>
        requires counted { self.old.count ≡ length (contents script.now self.old) }
        ensures same { contents script.now self.new ≡ contents script.now self.old }
        ensures count { self.new.count ≡ self.old.count }
    {
        let kept = pieces_in(&self.base).saturating_add(self.notes.len());
        let history = History {
            script,
            base: &self.base,
            notes: &self.notes,
        };
        let reading = &mut self.scratch.reading;
        let settled = settled(self.alloc, &history, self.count, kept / 2, reading)?;
        let Some(base) = settled else {
            // What was read in vain goes: it may be long.
            self.scratch.reading.back = Vec::new(self.alloc);
            self.limit = self.notes.len().saturating_mul(2).max(LEAST);
            return Ok(());
        };
        self.base = base;
        self.notes.clear();
        self.limit = pieces_in(&self.base).saturating_mul(2).max(LEAST);
        Ok(())
    }

    // Settles the registers where the notes are many.
    #[inline(always)]
    fn make_room(&mut self, script: &Script) -> Result<(), Memory>
        requires counted { self.old.count ≡ length (contents script.now self.old) }
        ensures same { contents script.now self.new ≡ contents script.now self.old }
        ensures count { self.new.count ≡ self.old.count }
    {
        if self.notes.len() < self.limit {
            return Ok(());
        }
        self.settle(script)
    }

    // Notes an update. What can be seen not to be read again goes: all where there are no registers
    // now, and what was before the update where it gives no register an old one.
    #[inline(always)]
    fn note(&mut self, script: &Script, entry: Entry, byte: u8) -> Result<(), Memory>
        requires entry { HasUpdate script.now entry entry.target
            (change_at script.now entry.update) }
        requires counted { self.old.count ≡ length (contents script.now self.old) }
        ensures registers { OnOk result (contents script.now self.new ≡ next_registers
            (change_at script.now entry.update) byte (contents script.now self.old)) }
        ensures kept { OnErr result (contents script.now self.new ≡ contents script.now self.old) }
        ensures counted { self.new.count ≡ length (contents script.now self.new) }
    {
        if entry.registers == 0 {
            self.clear();
            return Ok(());
        }
        self.make_room(script)?;
        let note = NotedUpdate {
            update: entry.update,
            byte,
            stays: false,
        };
        push(&mut self.notes, note)?;
        self.count = entry.registers as usize;
        if entry.fresh {
            cut(note, &mut self.base, &mut self.notes);
            self.limit = LEAST;
        }
        Ok(())
    }

    // What an update passes on is put after the pieces.
    fn pass(
        &mut self,
        script: &Script,
        ways: &mut Ways,
        update: UpdateId,
        byte: u8,
        pieces: &mut Vec<ByteWord>,
    ) -> Result<(), Memory>
        requires known { AreKnown script.now ways.old }
        ensures known { OnOk result (AreKnown script.now ways.new) }
        ensures pieces { OnOk result (code_over script.now.words pieces.new.items
            ≡ code_over script.now.words pieces.old.items
            ++ parts_code (contents script.now self.old) byte (change_at script.now update).out) }
        ensures same { contents script.now self.new ≡ contents script.now self.old }
        ensures count { self.new.count ≡ self.old.count }
    {
        let history = History {
            script,
            base: &self.base,
            notes: &self.notes,
        };
        let list = script.passed(update);
        history.pass_list(ways, list, byte, &mut self.scratch, pieces)
    }

    /// Does an update: what it passes on is put after the pieces. Its registers are only noted.
    #[inline(always)]
    pub fn take(
        &mut self,
        script: &Script,
        ways: &mut Ways,
        entry: Entry,
        byte: u8,
        pieces: &mut Vec<ByteWord>,
    ) -> Result<(), Memory>
        requires known { AreKnown script.now ways.old }
        requires entry { HasUpdate script.now entry entry.target
            (change_at script.now entry.update) }
        requires counted { self.old.count ≡ length (contents script.now self.old) }
        ensures known { OnOk result (AreKnown script.now ways.new) }
        ensures registers { OnOk result (contents script.now self.new ≡ next_registers
            (change_at script.now entry.update) byte (contents script.now self.old)) }
        ensures pieces { OnOk result (code_over script.now.words pieces.new.items
            ≡ code_over script.now.words pieces.old.items ++ parts_code
            (contents script.now self.old) byte (change_at script.now entry.update).out) }
        ensures kept { OnErr result (contents script.now self.new ≡ contents script.now self.old) }
        ensures counted { self.new.count ≡ length (contents script.now self.new) }
    {
        if !entry.silent {
            self.pass(script, ways, entry.update, byte, pieces)?;
        }
        self.note(script, entry, byte)
    }

    // Goes along the front of a piece while updates are quiet and there is room for notes. Tells
    // how many bytes that is. Not inlined: within a long caller what the loop reads for each byte
    // would be kept in memory.
    #[inline(never)]
    fn go_quiet(
        &mut self,
        table: &Table,
        guide: &Guide,
        state: &mut u32,
        piece: &[u8],
    ) -> Result<usize, Memory>
        requires runner { IsRunner table.now guide.now.script state.old self.old }
        requires guide { IsGuide table.now guide.now }
        ensures count { IfOk result (λ n. n ≤ length piece.now) }
        ensures follows { IfOk result (λ n. Follows table.now state.old (contents guide.now.script
            self.old) (take n piece.now) n state.new (contents guide.now.script self.new) [] []) }
        ensures runner { IsRunner table.now guide.now.script state.new self.new }
    {
        let quiets = guide.quiets.as_slice();
        let partition = table.partition();
        let mut row = *state as usize * guide.width;
        if row + guide.width > quiets.len() {
            return Ok(0);
        }
        let room = self.limit.saturating_sub(self.notes.len()).min(piece.len());
        self.notes.try_reserve(room)?;
        let mut notes = mem::replace(&mut self.notes, Vec::new(self.alloc));
        let mut count = 0;
        'quiet: while count < room {
            let byte = piece[count];
            let quiet = quiets[row + usize::from(partition.class_of(byte))];
            if quiet.row == NOWHERE {
                break;
            }
            notes.push_reserved(NotedUpdate {
                update: quiet.update,
                byte,
                stays: false,
            });
            count += 1;
            let next = quiet.row as usize;
            if next == row {
                count += stay(quiets, partition, row, &piece[count..room], &mut notes);
            } else {
                row = next;
            }
        }
        self.notes = notes;
        let now = guide.state_of(row);
        *state = now as u32;
        self.count = table.states()[now].registers() as usize;
        Ok(count)
    }

    /// Goes along the front of a piece while updates are quiet and there is room for notes, if the
    /// entry of its first byte passes nothing on; if not, along none, so that what is passed on
    /// doesn't pay for a run. Tells how many bytes that is.
    #[inline(always)]
    pub fn go_on_quietly(
        &mut self,
        table: &Table,
        guide: &Guide,
        entry: Entry,
        state: &mut u32,
        piece: &[u8],
    ) -> Result<usize, Memory>
        requires runner { IsRunner table.now guide.now.script state.old self.old }
        requires guide { IsGuide table.now guide.now }
        ensures count { IfOk result (λ n. n ≤ length piece.now) }
        ensures follows { IfOk result (λ n. Follows table.now state.old (contents guide.now.script
            self.old) (take n piece.now) n state.new (contents guide.now.script self.new) [] []) }
        ensures runner { IsRunner table.now guide.now.script state.new self.new }
    {
        if !entry.silent {
            return Ok(0);
        }
        self.go_quiet(table, guide, state, piece)
    }

    // What a register holds goes to the end of a code.
    fn spell_register(
        &mut self,
        script: &Script,
        register: usize,
        code: &mut Code,
    ) -> Result<(), Memory>
        ensures code { OnOk result (code.new
            ≡ code.old ++ get_or (contents script.now self.old) register []) }
        ensures same { contents script.now self.new ≡ contents script.now self.old }
        ensures count { self.new.count ≡ self.old.count }
    {
        let history = History {
            script,
            base: &self.base,
            notes: &self.notes,
        };
        let reading = &mut self.scratch.reading;
        history.read_register(register, reading)?;
        reading.back.reverse();
        spell(script.words(), &reading.back, code)
    }

    // What a part stands for goes to the end of a code.
    fn spell_part(&mut self, script: &Script, part: Part, code: &mut Code) -> Result<(), Memory>
        ensures code { OnOk result (code.new
            ≡ code.old ++ value (contents script.now self.old) 0 part) }
        ensures same { contents script.now self.new ≡ contents script.now self.old }
        ensures count { self.new.count ≡ self.old.count }
    {
        match part {
            Part::Put(symbol) => code.push(symbol),
            Part::Input => code.push(Symbol::Byte(0)),
            Part::Old(register) => self.spell_register(script, register as usize, code),
        }
    }

    /// What a way of registers stands for goes to the end of a code.
    pub fn spell(&mut self, script: &Script, way: &[Part], code: &mut Code) -> Result<(), Memory>
        ensures code { OnOk result (code.new
            ≡ code.old ++ parts_code (contents script.now self.old) 0 way.now) }
        ensures same { contents script.now self.new ≡ contents script.now self.old }
        ensures count { self.new.count ≡ self.old.count }
    {
        for part in way {
            self.spell_part(script, *part, code)?;
        }
        Ok(())
    }
}
