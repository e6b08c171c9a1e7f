// Looking up by ways: back through the notes, a step for each.

ghost use Rattle.std.specs.Prelude.{◌≡◌, ◌≢◌, ◌+◌, ◌-◌, ◌≤◌, ◌<◌, ◌++◌, ◌∷◌, [], List, All, IfOk};
ghost use Rattle.std.specs.Prelude.{IfSome, OnOk, length, slice_get, drop, reverse};
ghost use Rattle.kex_sst.specs.declared.parts.Part.{Part};
ghost use Rattle.kex_sst.specs.Parts.{parts_code, value};
ghost use Rattle.kex_script.specs.declared.piece.ByteWord.{ByteWord};
ghost use Rattle.kex_script.specs.Pieces.{code_over};
ghost use Rattle.kex_script.specs.Scripts.{IsWord, Sheet, list_at};
ghost use Rattle.kex_runner.specs.Histories.{contents_after, contents_at, noted_in};
ghost use Rattle.kex_runner.specs.Noting.{spelled_back, updates_of};
ghost use Rattle.kex_runner.specs.Ways.{AreKnown, AreOlds, HasWalked, IsSplit, IsWayStep, IsStepIf};
ghost use Rattle.kex_runner.specs.Ways.{IsNumberedWay};

use crate::history::reading::Reading;
use crate::history::{History, NotedUpdate};
use crate::ways::ids::{ShortWordId, WayId};
use crate::ways::{Split, WayStep, Ways, known_step};
use kex_code::memory::Memory;
use kex_script::ids::{ListId, UpdateId};
use kex_script::piece::ByteWord;
use kex_sst::parts::Part;
use std::alloc::Global;
use std::mem;

/// A way over what the registers were after the first `after` notes. The byte words that come after
/// it begin at `start`.
#[derive(Clone, Copy)]
pub struct WalkPoint {
    pub way: WayId,
    pub last: u32,
    pub after: usize,
    pub start: usize,
}

/// What look-ups use, kept for the next: what lists are read by, and room for what is said.
#[derive(Drop)]
pub struct Scratch {
    pub reading: Reading,
    pub room: Vec<ByteWord>,
}

impl Scratch {
    /// With nothing in it.
    pub fn new(alloc: Global) -> Scratch {
        Scratch {
            reading: Reading {
                pending: Vec::new(alloc),
                back: Vec::new(alloc),
            },
            room: Vec::new(alloc),
        }
    }
}

// A word is put before the pieces that begin at a place, if there is one. Tells where they begin
// then.
#[inline(always)]
fn say(word: Option<ShortWordId>, byte: u8, room: &mut [ByteWord], start: usize) -> usize
    requires some { 0 < start }
    requires within { start ≤ length room.old }
    ensures said { (words : List (List Part)) (w : List Part) → IsWord words word w
        → code_over words (drop result room.new)
        ≡ parts_code [] byte w ++ code_over words (drop start room.old) }
    ensures before { result ≤ start }
    ensures one { start ≤ result + 1 }
    ensures length { length room.new ≡ length room.old }
{
    match word {
        None => start,
        Some(word) => {
            let first = start - 1;
            let word = u32::from(word);
            room[first].word = word;
            room[first].byte = byte;
            first
        }
    }
}

// Goes back along notes of one update, before which a way stays the same, up to another.
#[inline(always)]
fn stay(
    split: Split,
    update: UpdateId,
    notes: &[NotedUpdate],
    first: WalkPoint,
    room: &mut [ByteWord],
) -> WalkPoint
    requires after { first.after ≤ length notes.now }
    requires room { first.after ≤ first.start }
    requires within { first.start ≤ length room.old }
    ensures after { result.after ≤ first.after }
    ensures other { 0 < result.after
        → IfSome (slice_get notes.now (result.after - 1)) (λ n. n.update ≢ update) }
    ensures room { result.after ≤ result.start }
    ensures within { result.start ≤ length room.new }
    ensures walked { (s : Sheet) (ways : List (List Part)) (way : List Part) (x : List ByteWord)
        → split.way ≡ first.way → IsWayStep s ways first.way update split
        → HasWalked s ways (updates_of s notes.now) way first x (drop first.start room.old)
        → HasWalked s ways (updates_of s notes.now) way result x (drop result.start room.new) }
{
    let mut place = first;
    'notes: while place.after > 0 {
        let note = notes[place.after - 1];
        if note.update != update {
            break;
        }
        let start = say(split.word, note.byte, room, place.start);
        place = WalkPoint {
            after: place.after - 1,
            start,
            ..place
        };
    }
    place
}

// Goes back along notes, as far as it is known what the way was. What is said is put before the
// pieces that are there.
#[inline(never)]
fn walk_known(
    steps: &[WayStep],
    notes: &[NotedUpdate],
    first: WalkPoint,
    room: &mut [ByteWord],
) -> WalkPoint
    requires after { first.after ≤ length notes.now }
    requires room { first.after ≤ first.start }
    requires within { first.start ≤ length room.old }
    ensures room { result.after ≤ result.start }
    ensures within { result.start ≤ length room.new }
    ensures walked { (s : Sheet) (ways : List (List Part)) (way : List Part) (x : List ByteWord)
        → All (IsStepIf s ways) steps.now
        → HasWalked s ways (updates_of s notes.now) way first x (drop first.start room.old)
        → HasWalked s ways (updates_of s notes.now) way result x (drop result.start room.new) }
{
    let mut place = first;
    'notes: while place.after > 0 {
        let note = notes[place.after - 1];
        let Some(split) = known_step(steps, place.way, place.last, note.update) else {
            return place;
        };
        let start = say(split.word, note.byte, room, place.start);
        let stays = note.stays && split.way == place.way;
        place = WalkPoint {
            way: split.way,
            last: split.last,
            after: place.after - 1,
            start,
        };
        if stays {
            place = stay(split, note.update, notes, place, room);
        }
    }
    place
}

// What was read is put after the pieces, in its order. Where there are no pieces it isn't copied.
fn hand_on(back: &mut Vec<ByteWord>, pieces: &mut Vec<ByteWord>) -> Result<(), Memory>
    ensures { OnOk result (pieces.new.items ≡ pieces.old.items ++ reverse back.old.items) }
{
    back.reverse();
    if pieces.is_empty() {
        mem::swap(back, pieces);
        return Ok(());
    }
    pieces.extend_from_slice(back)?;
    Ok(())
}

// Makes room for `count` pieces.
#[inline(never)]
fn grow(room: &mut Vec<ByteWord>, count: usize) -> Result<(), Memory>
    ensures { OnOk result (count ≤ length room.new.items) }
{
    room.resize(count, ByteWord { word: 0, byte: 0 })?;
    Ok(())
}

// There is room for `count` pieces.
#[inline(always)]
fn make_room(room: &mut Vec<ByteWord>, count: usize) -> Result<(), Memory>
    ensures { OnOk result (count ≤ length room.new.items) }
{
    if room.len() < count {
        grow(room, count)?;
    }
    Ok(())
}

impl<'h> History<'h> {
    // Goes back along notes, as far as what the way was is a way, and learns what it was.
    fn walk(
        &self,
        ways: &mut Ways,
        first: WalkPoint,
        room: &mut [ByteWord],
    ) -> Result<WalkPoint, Memory>
        requires known { AreKnown self.now.script.now ways.old }
        requires way { (to : List Part) × IsNumberedWay ways.old.lists first.way to }
        requires after { first.after ≤ length self.now.notes.now }
        requires room { first.after ≤ first.start }
        requires within { first.start ≤ length room.old }
        ensures known { OnOk result (AreKnown self.now.script.now ways.new) }
        ensures way { IfOk result (λ p. (to : List Part) × IsNumberedWay ways.new.lists p.way to) }
        ensures after { IfOk result (λ p. p.after ≤ length self.now.notes.now) }
        ensures within { IfOk result (λ p. p.start ≤ length room.new) }
        ensures walked { IfOk result (λ p. (from : List Part) (x : List ByteWord)
            → HasWalked self.now.script.now ways.old.lists (noted_in self.now) from first x
            (drop first.start room.old) → HasWalked self.now.script.now ways.new.lists
            (noted_in self.now) from p x (drop p.start room.new)) }
    {
        let mut place = first;
        'notes: while place.after > 0 && place.way != 0 {
            let note = self.notes[place.after - 1];
            let Some(split) = ways.step(self.script, place.way, place.last, note.update)? else {
                return Ok(place);
            };
            let start = say(split.word, note.byte, room, place.start);
            place = WalkPoint {
                way: split.way,
                last: split.last,
                after: place.after - 1,
                start,
            };
        }
        Ok(place)
    }

    // Reads a part of a way, over what the registers were after a number of notes.
    fn read_old(&self, after: usize, part: Part, reading: &mut Reading) -> Result<(), Memory>
        requires { after ≤ length self.now.notes.now }
        ensures { OnOk result (AreOlds (part ∷ [])
            → spelled_back self.now.script.now.words reading.new.back.items
            ≡ value (contents_at self.now after) 0 part
            ++ spelled_back self.now.script.now.words reading.old.back.items) }
    {
        reading.pending.clear();
        match part {
            Part::Put(_) => Ok(()),
            Part::Input => Ok(()),
            Part::Old(register) => {
                let first = self.ask(after, register as usize, reading)?;
                self.look_up(first, reading)
            }
        }
    }

    // Reads a way from its end.
    fn read_way(&self, after: usize, way: &[Part], reading: &mut Reading) -> Result<(), Memory>
        requires after { after ≤ length self.now.notes.now }
        requires olds { AreOlds way.now }
        ensures { OnOk result (spelled_back self.now.script.now.words reading.new.back.items
            ≡ parts_code (contents_at self.now after) 0 way.now
            ++ spelled_back self.now.script.now.words reading.old.back.items) }
    {
        let mut left = way.len();
        while left > 0 {
            self.read_old(after, way[left - 1], reading)?;
            left -= 1;
        }
        Ok(())
    }

    // Puts after the pieces what a list stands for. It is read from its end.
    #[inline(never)]
    fn pass_read(
        &self,
        list: ListId,
        byte: u8,
        reading: &mut Reading,
        pieces: &mut Vec<ByteWord>,
    ) -> Result<(), Memory>
        ensures { OnOk result (code_over self.now.script.now.words pieces.new.items
            ≡ code_over self.now.script.now.words pieces.old.items
            ++ parts_code (contents_after self.now) byte (list_at self.now.script.now list)) }
    {
        self.read_list(list, byte, reading)?;
        hand_on(&mut reading.back, pieces)
    }

    // Puts after the pieces what a way stands for after a number of notes, and then what was said.
    #[inline(never)]
    fn pass_way(
        &self,
        after: usize,
        way: &[Part],
        said: &[ByteWord],
        reading: &mut Reading,
        pieces: &mut Vec<ByteWord>,
    ) -> Result<(), Memory>
        requires after { after ≤ length self.now.notes.now }
        requires olds { AreOlds way.now }
        ensures { OnOk result (code_over self.now.script.now.words pieces.new.items
            ≡ code_over self.now.script.now.words pieces.old.items
            ++ (parts_code (contents_at self.now after) 0 way.now
            ++ code_over self.now.script.now.words said.now)) }
    {
        reading.back.clear();
        reading.back.extend_from_slice(said)?;
        reading.back.reverse();
        self.read_way(after, way, reading)?;
        hand_on(&mut reading.back, pieces)
    }

    // Puts after the pieces what a way and the pieces that come after it stand for.
    #[inline(never)]
    fn pass_rest(
        &self,
        ways: &mut Ways,
        first: WalkPoint,
        reading: &mut Reading,
        room: &mut [ByteWord],
        pieces: &mut Vec<ByteWord>,
    ) -> Result<(), Memory>
        requires known { AreKnown self.now.script.now ways.old }
        requires way { (to : List Part) × IsNumberedWay ways.old.lists first.way to }
        requires after { first.after ≤ length self.now.notes.now }
        requires room { first.after ≤ first.start }
        requires within { first.start ≤ length room.old }
        ensures known { OnOk result (AreKnown self.now.script.now ways.new) }
        ensures passed { OnOk result ((from : List Part) (x : List ByteWord)
            → HasWalked self.now.script.now ways.old.lists (noted_in self.now) from first x
            (drop first.start room.old)
            → code_over self.now.script.now.words pieces.new.items
            ≡ code_over self.now.script.now.words pieces.old.items
            ++ (parts_code (contents_after self.now) 0 from
            ++ code_over self.now.script.now.words x)) }
    {
        let place = self.walk(ways, first, room)?;
        let said = &room[place.start..];
        if place.way == 0 {
            pieces.extend_from_slice(said)?;
            return Ok(());
        }
        let way = ways.way(place.way);
        self.pass_way(place.after, way, said, reading, pieces)
    }

    // Puts after the pieces what a way and a word stand for.
    fn pass_split(
        &self,
        ways: &mut Ways,
        split: Split,
        byte: u8,
        scratch: &mut Scratch,
        pieces: &mut Vec<ByteWord>,
    ) -> Result<(), Memory>
        requires known { AreKnown self.now.script.now ways.old }
        requires split { (list : List Part)
            × IsSplit self.now.script.now.words ways.old.lists split list }
        requires room { length self.now.notes.now < length scratch.old.room.items }
        ensures known { OnOk result (AreKnown self.now.script.now ways.new) }
        ensures passed { OnOk result ((list : List Part)
            → IsSplit self.now.script.now.words ways.old.lists split list
            → code_over self.now.script.now.words pieces.new.items
            ≡ code_over self.now.script.now.words pieces.old.items
            ++ parts_code (contents_after self.now) byte list) }
    {
        let room = scratch.room.as_mut_slice();
        let end = room.len();
        let start = say(split.word, byte, room, end);
        let first = WalkPoint {
            way: split.way,
            last: split.last,
            after: self.notes.len(),
            start,
        };
        let place = walk_known(ways.steps(), self.notes, first, room);
        if place.way == 0 {
            pieces.extend_from_slice(&room[place.start..])?;
            return Ok(());
        }
        self.pass_rest(ways, place, &mut scratch.reading, room, pieces)
    }

    /// Puts after the pieces what a list stands for, by ways where it is one.
    pub fn pass_list(
        &self,
        ways: &mut Ways,
        list: ListId,
        byte: u8,
        scratch: &mut Scratch,
        pieces: &mut Vec<ByteWord>,
    ) -> Result<(), Memory>
        requires known { AreKnown self.now.script.now ways.old }
        ensures known { OnOk result (AreKnown self.now.script.now ways.new) }
        ensures passed { OnOk result (code_over self.now.script.now.words pieces.new.items
            ≡ code_over self.now.script.now.words pieces.old.items
            ++ parts_code (contents_after self.now) byte (list_at self.now.script.now list)) }
    {
        let Some(split) = ways.start(self.script, list)? else {
            return self.pass_read(list, byte, &mut scratch.reading, pieces);
        };
        make_room(&mut scratch.room, self.notes.len() + 1)?;
        self.pass_split(ways, split, byte, scratch, pieces)
    }
}
