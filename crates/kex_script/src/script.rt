// The lists of a table's updates, and what each state does on each class of bytes.

ghost use Rattle.std.specs.Prelude.{◌≡◌, ◌+◌, ◌*◌, ◌<◌, [], false, Option, Some, None, IfOk};
ghost use Rattle.std.specs.Prelude.{MatchOption, get_or, length};
ghost use Rattle.kex_script.specs.Scripts.{AreLetters, IsScriptOf, IsTail, change_at, entry_at};
ghost use Rattle.kex_script.specs.Scripts.{list_at};

use crate::entries::StateEntries;
use crate::ids::{ListId, UpdateId, WordId};
use crate::letters::Letters;
use crate::writer::Writer;
use kex_code::memory::Memory;
use kex_sst::parts::{Part, Parts};
use kex_sst::table::Table;
use std::alloc::Global;
use std::marker::Model;

/// A list from its end: a word or none, before it an old register or none, and before that the list
/// of this number, which is shorter.
#[derive(Clone, Copy, Debug, PartialEq, Eq)]
pub struct Tail {
    pub before: ListId,
    pub old: Option<u32>,
    pub word: Option<WordId>,
}

/// What a state does on a class of bytes. Where it has no transition the rest says nothing.
#[derive(Clone, Copy, Debug, PartialEq, Eq)]
pub struct Entry {
    /// Whether there is a transition.
    pub goes: bool,
    /// Whether it passes nothing on.
    pub silent: bool,
    /// Whether no register is given an old one.
    pub fresh: bool,
    pub target: u32,
    pub update: UpdateId,
    /// How many registers the target has.
    pub registers: u32,
}

/// The lists of a table's updates by number, each as parts and from its end, and their words. The
/// updates, in rows: a count of registers, the list that is passed on, and a list for each
/// register. For each state its entries, which classes share. Each symbol is a word.
#[derive(Drop)]
pub struct Script {
    words: Vec<Parts>,
    letters: Letters,
    lists: Vec<Parts>,
    tails: Vec<Tail>,
    rows: Vec<u32>,
    initial: Entry,
    states: StateEntries,
}

impl Model for Script {
    ghost use Rattle.kex_script.specs.Scripts.{AreLetters, AreTails, Sheet};

    ghost Value = { Sheet };

    ghost view = { λ s.
        record {
          words = s.words.items;
          lists = s.lists.items;
          tails = s.tails.items;
          rows = s.rows.items;
          initial = s.initial;
          places = s.states.places.items;
          numbers = s.states.numbers.items;
          entries = s.states.entries.items;
        } };

    ghost invariant = { λ s. AreTails s.words.items s.lists.items s.tails.items
        × AreLetters s.words.items s.letters };
}

// The number at a place of the rows.
#[inline(always)]
fn number_at(rows: &[u32], at: usize) -> u32
    ensures { result ≡ get_or rows.now at 0 }
{
    match rows.get(at) {
        Some(number) => *number,
        None => 0,
    }
}

impl Script {
    /// The lists of a table.
    pub fn new(alloc: Global, table: &Table) -> Result<Script, Memory>
        ensures { IfOk result (λ s. IsScriptOf s table.now) }
    {
        let mut writer = Writer::new(alloc)?;
        let initial = writer.transition(0, table.initial())?;
        let states = writer.write_states(alloc, table.states())?;
        let letters = writer.letters()?;
        let (words, lists, tails, rows) = writer.finish();
        Ok(Script {
            words,
            letters,
            lists,
            tails,
            rows,
            initial,
            states,
        })
    }

    /// The words, by number.
    pub fn words(&self) -> &[Parts]
        ensures { result.now ≡ self.now.words }
    {
        &self.words
    }

    /// The numbers of the words of one symbol.
    pub fn letters(&self) -> Letters
        ensures { AreLetters self.now.words result }
    {
        self.letters
    }

    /// What is done before the first byte.
    pub fn initial(&self) -> Entry
        ensures { result ≡ self.now.initial }
    {
        self.initial
    }

    /// What a state does on a class of bytes.
    #[inline(always)]
    pub fn entry(&self, state: u32, class: u8) -> Entry
        ensures { result ≡ entry_at self.now state class }
    {
        let states = &self.states;
        let Some(place) = states.places.get(state as usize) else {
            return Entry::none();
        };
        let class_place = place.numbers as usize + usize::from(class);
        let number = match states.numbers.get(class_place) {
            Some(number) => *number,
            None => 0,
        };
        let entry_place = place.first as usize + usize::from(number);
        match states.entries.get(entry_place) {
            Some(entry) => *entry,
            None => Entry::none(),
        }
    }

    /// The number of the list that an update passes on.
    #[inline(always)]
    pub fn passed(&self, update: UpdateId) -> ListId
        ensures { list_at self.now result ≡ (change_at self.now update).out }
    {
        number_at(&self.rows, update as usize + 1)
    }

    /// The number of the list that an update gives to a register; list 0, which is empty, where
    /// there is no such register.
    #[inline(always)]
    pub fn given(&self, update: UpdateId, register: usize) -> ListId
        ensures { list_at self.now result ≡ get_or (change_at self.now update).regs register [] }
    {
        let at = update as usize;
        if register >= number_at(&self.rows, at) as usize {
            return 0;
        }
        number_at(&self.rows, at + 2 + register)
    }

    /// A list by its number; an empty one where there is none.
    pub fn list(&self, list: ListId) -> &[Part]
        ensures { result.now ≡ list_at self.now list }
    {
        match self.lists.get(list as usize) {
            Some(parts) => parts.as_slice(),
            None => &[],
        }
    }

    /// How many lists there are.
    pub fn count(&self) -> usize
        ensures { result ≡ length self.now.lists }
    {
        self.lists.len()
    }

    /// How long the rows of all updates are.
    pub fn rows(&self) -> usize
        ensures { result ≡ length self.now.rows }
    {
        self.rows.len()
    }

    /// A list from its end; none for a list that is empty.
    #[inline(always)]
    pub fn tail(&self, list: ListId) -> Option<Tail>
        ensures empty { list_at self.now 0 ≡ [] }
        ensures tail { MatchOption result (list_at self.now list
            ≡ []) (λ x. IsTail self.now.words self.now.lists x (list_at self.now list)) }
    {
        let tails = self.tails.as_slice();
        if list == 0 {
            return None;
        }
        match tails.get(list as usize) {
            Some(tail) => Some(*tail),
            None => None,
        }
    }
}

impl Entry {
    /// No transition.
    pub fn none() -> Entry
        ensures { result ≡ record {
          goes = false;
          silent = false;
          fresh = false;
          target = 0;
          update = 0;
          registers = 0;
        } }
    {
        Entry {
            goes: false,
            silent: false,
            fresh: false,
            target: 0,
            update: 0,
            registers: 0,
        }
    }
}
