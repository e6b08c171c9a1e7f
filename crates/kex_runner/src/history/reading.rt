// Looking registers up: lists are read from their ends, back through the notes.

ghost use Rattle.std.specs.Prelude.{◌≡◌, ◌<◌, ◌≤◌, [], List, ◌∷◌, ◌++◌, Some, None, OnOk, IfOk};
ghost use Rattle.std.specs.Prelude.{IfNone, length, get_or};
ghost use Rattle.kex_sst.specs.declared.parts.Part.{Part};
ghost use Rattle.kex_sst.specs.Parts.{parts_code};
ghost use Rattle.kex_script.specs.Scripts.{IsTail, IsWord, list_at};
ghost use Rattle.kex_runner.specs.Histories.{base_of, contents_after, noted_in};
ghost use Rattle.kex_runner.specs.Noting.{spelled_back};
ghost use Rattle.kex_runner.specs.Looking.{AreNoted, HasAskedFor, HasReadList, codes_of, if_some};
ghost use Rattle.kex_runner.specs.Looking.{unless_empty};

use crate::history::History;
use kex_code::memory::Memory;
use kex_script::ids::{ListId, WordId};
use kex_script::piece::ByteWord;
use kex_script::script::Tail;

/// A list that is still to be read, over what the registers were after a number of notes.
#[derive(Clone, Copy)]
pub struct Unread {
    pub list: ListId,
    pub after: usize,
    pub byte: u8,
}

/// What a look-up uses, kept for the next: the lists that are still to be read, the last on top,
/// and the pieces that were read, the last first.
#[derive(Drop)]
pub struct Reading {
    pub pending: Vec<Unread>,
    pub back: Vec<ByteWord>,
}

// A word is read, if there is one.
#[inline(always)]
fn say(word: Option<WordId>, byte: u8, back: &mut Vec<ByteWord>) -> Result<(), Memory>
    ensures { OnOk result ((words : List (List Part)) (w : List Part) → IsWord words word w
        → spelled_back words back.new.items
        ≡ parts_code [] byte w ++ spelled_back words back.old.items) }
{
    match word {
        None => Ok(()),
        Some(word) => {
            back.push(ByteWord { word, byte })?;
            Ok(())
        }
    }
}

// A list is put on top, if it isn't the empty one.
#[inline(always)]
fn keep(unread: Unread, pending: &mut Vec<Unread>) -> Result<(), Memory>
    ensures { OnOk result (pending.new.items
        ≡ pending.old.items ++ unless_empty unread.list unread) }
{
    if unread.list != 0 {
        pending.push(unread)?;
    }
    Ok(())
}

// This list, or else the one on top.
#[inline(always)]
fn or_pop(next: Option<Unread>, pending: &mut Vec<Unread>) -> Option<Unread>
    ensures all { pending.new.items ++ if_some result ≡ pending.old.items ++ if_some next }
    ensures none { IfNone result (pending.new.items ≡ []) }
{
    match next {
        Some(unread) => Some(unread),
        None => pending.pop(),
    }
}

impl<'h> History<'h> {
    /// What a register holds after a number of notes is to be read: the list that the last of them
    /// gives it, or the settled register at once.
    #[inline(always)]
    pub fn ask(
        &self,
        after: usize,
        register: usize,
        reading: &mut Reading,
    ) -> Result<Option<Unread>, Memory>
        requires { after ≤ length self.now.notes.now }
        ensures { IfOk result (λ next. HasAskedFor self.now.script.now (base_of self.now)
            (noted_in self.now) after (Some register) reading.old reading.new next) }
    {
        if after == 0 {
            if let Some(settled) = self.base.get(register) {
                reading.back.extend_from_slice(&settled.pieces)?;
            }
            return Ok(None);
        }
        let note = self.notes[after - 1];
        Ok(Some(Unread {
            list: self.script.given(note.update, register),
            after: after - 1,
            byte: note.byte,
        }))
    }

    // What an old register holds, if there is one, is to be read.
    #[inline(always)]
    fn ask_if(
        &self,
        after: usize,
        old: Option<u32>,
        reading: &mut Reading,
    ) -> Result<Option<Unread>, Memory>
        requires { after ≤ length self.now.notes.now }
        ensures { IfOk result (λ next. HasAskedFor self.now.script.now (base_of self.now)
            (noted_in self.now) after old reading.old reading.new next) }
    {
        match old {
            None => Ok(None),
            Some(register) => self.ask(after, register as usize, reading),
        }
    }

    // The end of a list is read, and the rest of it kept. Tells which list is next.
    #[inline(always)]
    fn read_end(
        &self,
        unread: Unread,
        tail: Tail,
        reading: &mut Reading,
    ) -> Result<Option<Unread>, Memory>
        requires after { unread.after ≤ length self.now.notes.now }
        requires empty { list_at self.now.script.now 0 ≡ [] }
        requires tail { IsTail self.now.script.now.words self.now.script.now.lists tail
            (list_at self.now.script.now unread.list) }
        ensures { IfOk result (λ next. HasReadList self.now.script.now (base_of self.now)
            (noted_in self.now) (reading.old.pending.items ++ unread ∷ [])
            (reading.new.pending.items ++ if_some next) reading.old.back.items
            reading.new.back.items) }
    {
        say(tail.word, unread.byte, &mut reading.back)?;
        let rest = Unread {
            list: tail.before,
            after: unread.after,
            byte: unread.byte,
        };
        keep(rest, &mut reading.pending)?;
        self.ask_if(unread.after, tail.old, reading)
    }

    // A list is read from its end. Tells which list is next.
    #[inline(always)]
    fn read(&self, unread: Unread, reading: &mut Reading) -> Result<Option<Unread>, Memory>
        requires { unread.after ≤ length self.now.notes.now }
        ensures read { IfOk result (λ next. HasReadList self.now.script.now (base_of self.now)
            (noted_in self.now) (reading.old.pending.items ++ unread ∷ [])
            (reading.new.pending.items ++ if_some next) reading.old.back.items
            reading.new.back.items) }
        ensures none { IfOk result (λ next. next ≡ None → reading.new.pending.items ≡ []) }
    {
        match self.script.tail(unread.list) {
            None => Ok(or_pop(None, &mut reading.pending)),
            Some(tail) => {
                let next = self.read_end(unread, tail, reading)?;
                Ok(or_pop(next, &mut reading.pending))
            }
        }
    }

    /// What a list stands for, and what is to be read from it, is read.
    pub fn look_up(&self, first: Option<Unread>, reading: &mut Reading) -> Result<(), Memory>
        requires noted { AreNoted (length self.now.notes.now) (if_some first) }
        requires none { reading.old.pending.items ≡ [] }
        ensures { OnOk result (spelled_back self.now.script.now.words reading.new.back.items
            ≡ codes_of self.now.script.now (base_of self.now) (noted_in self.now) (if_some first)
            ++ spelled_back self.now.script.now.words reading.old.back.items) }
    {
        let mut next = first;
        while let Some(unread) = next {
            next = self.read(unread, reading)?;
        }
        Ok(())
    }

    /// Reads a list, over what the registers are after all notes.
    pub fn read_list(&self, list: ListId, byte: u8, reading: &mut Reading) -> Result<(), Memory>
        ensures { OnOk result (spelled_back self.now.script.now.words reading.new.back.items
            ≡ parts_code (contents_after self.now) byte (list_at self.now.script.now list)) }
    {
        reading.pending.clear();
        reading.back.clear();
        let first = Unread {
            list,
            after: self.notes.len(),
            byte,
        };
        self.look_up(Some(first), reading)
    }

    /// Reads what a register holds after all notes.
    pub fn read_register(&self, register: usize, reading: &mut Reading) -> Result<(), Memory>
        ensures { OnOk result (spelled_back self.now.script.now.words reading.new.back.items
            ≡ get_or (contents_after self.now) register []) }
    {
        reading.pending.clear();
        reading.back.clear();
        let first = self.ask(self.notes.len(), register, reading)?;
        self.look_up(first, reading)
    }
}
