// Writes the lists of updates down, each once.

ghost use Rattle.std.specs.Prelude.{◌≡◌, ℕ, ◌+◌, ◌<◌, ◌≤◌, List, [], ◌∷◌, ◌++◌, Option, Some, None};
ghost use Rattle.std.specs.Prelude.{true, false, IfOk, OnOk, length, get_or};
ghost use Rattle.std.specs.Prelude.{slice_get, take, drop};
ghost use Rattle.kex_sst.specs.Parts.{olds, olds_in};
ghost use Rattle.kex_sst.specs.Tables.{Row};
ghost use Rattle.kex_script.specs.Scripts.{AreLetters, IsWord};
ghost use Rattle.kex_script.specs.Pages.{AreListsAt, AreSound, AreStatesWritten, PagesGrow, HasRow};
ghost use Rattle.kex_script.specs.Pages.{HasRowIf, IsJoined, IsListAt, IsRow, IsSegment};
ghost use Rattle.kex_script.specs.Pages.{BeginsWithZeros, IsEntryAt, KeepsItems};

use crate::entries::{EntryPlace, StateEntries, put_numbers};
use crate::ids::{ListId, UpdateId, WordId};
use crate::interned::Interned;
use crate::letters::Letters;
use crate::rows::Rows;
use crate::script::{Entry, Tail};
use kex_code::memory::Memory;
use kex_code::symbol::Symbol;
use kex_sst::fan::Fan;
use kex_sst::parts::{Part, Parts, Update};
use kex_sst::table::{State, Transition};
use std::alloc::Global;
use std::marker::Model;

/// The lists that were met, as a `Script` has them.
#[derive(Drop)]
pub struct Writer {
    words: Interned,
    lists: Interned,
    tails: Vec<Tail>,
    rows: Rows,
}

impl Model for Writer {
    ghost use Rattle.kex_script.specs.Pages.{Pages};

    ghost Value = { Pages };

    ghost view = { λ w.
        record { words = w.words; lists = w.lists; tails = w.tails.items; rows = w.rows } };
}

// Whether a part is an old register.
fn is_old(part: Part) -> bool
    ensures { result ≡ false → olds (part ∷ []) ≡ [] }
{
    match part {
        Part::Old(_) => true,
        Part::Put(_) => false,
        Part::Input => false,
    }
}

// Whether a list of parts reads an old register.
fn reads_old(parts: &[Part]) -> bool
    ensures { result ≡ false → olds parts.now ≡ [] }
{
    for part in parts {
        if is_old(*part) {
            return true;
        }
    }
    false
}

// Whether no register is given an old one.
fn is_fresh(lists: &[Parts]) -> bool
    ensures { result ≡ true → olds_in lists.now ≡ [] }
{
    for list in lists {
        if reads_old(list.as_slice()) {
            return false;
        }
    }
    true
}

// The front of some parts: an old register or none, and then a word, from `start` to `end`.
#[derive(Clone, Copy)]
struct Segment {
    old: Option<u32>,
    start: usize,
    end: usize,
}

// Where the word ends that goes on here: at the next old register, or with the parts.
fn word_end(parts: &[Part], start: usize) -> usize
    requires { start ≤ length parts.now }
    ensures within { (start ≤ result) × (result ≤ length parts.now) }
    ensures plain { olds (drop start (take result parts.now)) ≡ [] }
{
    for i in start..parts.len() {
        if is_old(parts[i]) {
            return i;
        }
    }
    parts.len()
}

// The front of parts, up to the next old register after the first part.
fn first_segment(parts: &[Part]) -> Segment
    requires { 0 < length parts.now }
    ensures { IsSegment result parts.now }
{
    let end = word_end(parts, 1);
    match parts[0] {
        Part::Old(register) => Segment {
            old: Some(register),
            start: 1,
            end,
        },
        Part::Put(_) => Segment {
            old: None,
            start: 0,
            end,
        },
        Part::Input => Segment {
            old: None,
            start: 0,
            end,
        },
    }
}

// The number of a word, if it has parts.
fn word_number(words: &mut Interned, word: &[Part]) -> Result<Option<WordId>, Memory>
    ensures number { IfOk result (λ n. IsWord words.new n word.now) }
    ensures kept { OnOk result (KeepsItems words.old words.new) }
{
    if word.is_empty() {
        return Ok(None);
    }
    let number = words.number(word)?;
    Ok(Some(number))
}

impl Writer {
    /// The empty list alone.
    pub fn new(alloc: Global) -> Result<Writer, Memory>
        ensures { IfOk result (λ w. AreSound w) }
    {
        let mut lists = Interned::new(alloc);
        lists.add(&[])?;
        let mut tails = Vec::new(alloc);
        tails.push(Tail {
            before: 0,
            old: None,
            word: None,
        })?;
        Ok(Writer {
            words: Interned::new(alloc),
            lists,
            tails,
            rows: Rows::new(alloc),
        })
    }

    // The number of the list that is the list `before`, an old register or none, and a word.
    fn join(
        &mut self,
        before: ListId,
        old: Option<u32>,
        word: &[Part],
        whole: &[Part],
    ) -> Result<ListId, Memory>
        requires sound { AreSound self.old }
        requires joined { IsJoined self.old.lists before old word.now whole.now }
        ensures number { IfOk result (λ n. slice_get self.new.lists n ≡ Some whole.now) }
        ensures sound { OnOk result (AreSound self.new) }
        ensures grown { OnOk result (PagesGrow self.old self.new) }
        ensures rows { self.new.rows ≡ self.old.rows }
    {
        if let Some(number) = self.lists.find(whole) {
            return Ok(number);
        }
        let word = word_number(&mut self.words, word)?;
        let number = self.lists.add(whole)?;
        self.tails.push(Tail { before, old, word })?;
        Ok(number)
    }

    // The number of a list.
    fn list(&mut self, parts: &[Part]) -> Result<ListId, Memory>
        requires sound { AreSound self.old }
        ensures number { IfOk result (λ n. slice_get self.new.lists n ≡ Some parts.now) }
        ensures sound { OnOk result (AreSound self.new) }
        ensures grown { OnOk result (PagesGrow self.old self.new) }
        ensures rows { self.new.rows ≡ self.old.rows }
    {
        if let Some(number) = self.lists.find(parts) {
            return Ok(number);
        }
        let mut number = 0;
        let mut from = 0;
        while from < parts.len() {
            let segment = first_segment(&parts[from..]);
            let to = from + segment.end;
            let word = &parts[from + segment.start..to];
            number = self.join(number, segment.old, word, &parts[..to])?;
            from = to;
        }
        Ok(number)
    }

    // The number of a list is put after the rows.
    fn put(&mut self, parts: &[Part]) -> Result<(), Memory>
        requires sound { AreSound self.old }
        ensures at { OnOk result (IsListAt self.new (length self.old.rows) parts.now) }
        ensures count { OnOk result (length self.new.rows ≡ length self.old.rows + 1) }
        ensures sound { OnOk result (AreSound self.new) }
        ensures grown { OnOk result (PagesGrow self.old self.new) }
    {
        let number = self.list(parts)?;
        self.rows.push(number)?;
        Ok(())
    }

    // The numbers of lists are put after the rows.
    fn put_all(&mut self, lists: &[Parts]) -> Result<(), Memory>
        requires sound { AreSound self.old }
        ensures at { OnOk result
            (AreListsAt self.new (length self.old.rows) (length lists.now) lists.now) }
        ensures sound { OnOk result (AreSound self.new) }
        ensures grown { OnOk result (PagesGrow self.old self.new) }
    {
        for list in lists {
            self.put(list.as_slice())?;
        }
        Ok(())
    }

    // An update is put after the rows, if no equal one is found there. Tells its place.
    fn update(&mut self, update: &Update) -> Result<UpdateId, Memory>
        requires sound { AreSound self.old }
        ensures row { IfOk result (λ at. IsRow self.new at update.now) }
        ensures sound { OnOk result (AreSound self.new) }
        ensures grown { OnOk result (PagesGrow self.old self.new) }
    {
        let Ok(at) = u32::try_from(self.rows.len()) else {
            return Err(Memory);
        };
        let Ok(count) = u32::try_from(update.regs().len()) else {
            return Err(Memory);
        };
        self.rows.push(count)?;
        self.put(update.out().as_slice())?;
        self.put_all(update.regs())?;
        self.rows.share(at)
    }

    /// The entry of a transition.
    pub fn transition(&mut self, target: u32, update: &Update) -> Result<Entry, Memory>
        requires sound { AreSound self.old }
        ensures entry { IfOk result (λ e. HasRow self.new e target update.now) }
        ensures sound { OnOk result (AreSound self.new) }
        ensures grown { OnOk result (PagesGrow self.old self.new) }
    {
        let Ok(registers) = u32::try_from(update.regs().len()) else {
            return Err(Memory);
        };
        Ok(Entry {
            goes: true,
            silent: update.out().as_slice().is_empty(),
            fresh: is_fresh(update.regs()),
            target,
            update: self.update(update)?,
            registers,
        })
    }

    // The entry of a transition, or of none.
    fn entry(&mut self, transition: &Option<Transition>) -> Result<Entry, Memory>
        requires sound { AreSound self.old }
        ensures entry { IfOk result (λ e. HasRowIf self.new e transition.now) }
        ensures sound { OnOk result (AreSound self.new) }
        ensures grown { OnOk result (PagesGrow self.old self.new) }
    {
        match transition {
            None => Ok(Entry::none()),
            Some(transition) => self.transition(transition.target, transition.update.get()),
        }
    }

    // The entries of transitions are put after others.
    fn write_entries(
        &mut self,
        all: &[Option<Transition>],
        entries: &mut Vec<Entry>,
    ) -> Result<(), Memory>
        requires sound { AreSound self.old }
        ensures entries { OnOk result ((k : ℕ) → k < length all.now → IsEntryAt self.new
            entries.new.items (length entries.old.items + k) (get_or all.now k None)) }
        ensures kept { OnOk result (KeepsItems entries.old.items entries.new.items) }
        ensures sound { OnOk result (AreSound self.new) }
        ensures grown { OnOk result (PagesGrow self.old self.new) }
    {
        for transition in all {
            let entry = self.entry(transition)?;
            entries.push(entry)?;
        }
        Ok(())
    }

    // A state is put after others.
    fn write_state(&mut self, go: &Fan, states: &mut StateEntries) -> Result<(), Memory>
        requires sound { AreSound self.old }
        requires zeros { BeginsWithZeros states.old.numbers.items }
        ensures states { OnOk result ((before : List Row) (s : Row) → s.go ≡ go.now
            → AreStatesWritten self.old states.old before
            → AreStatesWritten self.new states.new (before ++ s ∷ [])) }
        ensures sound { OnOk result (AreSound self.new) }
        ensures grown { OnOk result (PagesGrow self.old self.new) }
    {
        let Ok(first) = u32::try_from(states.entries.len()) else {
            return Err(Memory);
        };
        let (numbers, different) = go.parts();
        let numbers = put_numbers(&mut states.numbers, numbers, go.len())?;
        self.write_entries(different, &mut states.entries)?;
        states.places.push(EntryPlace { numbers, first })?;
        Ok(())
    }

    /// What all states do.
    pub fn write_states(&mut self, alloc: Global, states: &[State]) -> Result<StateEntries, Memory>
        requires sound { AreSound self.old }
        ensures states { IfOk result (λ a. AreStatesWritten self.new a states.now) }
        ensures sound { OnOk result (AreSound self.new) }
        ensures grown { OnOk result (PagesGrow self.old self.new) }
    {
        let mut all = StateEntries::new(alloc)?;
        for state in states {
            self.write_state(state.go(), &mut all)?;
        }
        Ok(all)
    }

    /// The numbers of the words of one symbol.
    pub fn letters(&mut self) -> Result<Letters, Memory>
        requires sound { AreSound self.old }
        ensures letters { IfOk result (λ letters. AreLetters self.new.words letters) }
        ensures sound { OnOk result (AreSound self.new) }
        ensures same { OnOk result ((self.new.lists ≡ self.old.lists)
            × (self.new.rows ≡ self.old.rows)) }
    {
        Ok(Letters {
            left: self.words.number(&[Part::Put(Symbol::L)])?,
            right: self.words.number(&[Part::Put(Symbol::R)])?,
            byte: self.words.number(&[Part::Input])?,
        })
    }

    /// The words, the lists, their tails and the rows.
    pub fn finish(self) -> (Vec<Parts>, Vec<Parts>, Vec<Tail>, Vec<u32>)
        ensures words { result.0.items ≡ self.words }
        ensures lists { result.1.items ≡ self.lists }
        ensures tails { result.2.items ≡ self.tails }
        ensures rows { result.3.items ≡ self.rows }
    {
        (
            self.words.into_lists(),
            self.lists.into_lists(),
            self.tails,
            self.rows.into_numbers(),
        )
    }
}
