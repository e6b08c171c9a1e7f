// What the words of a list do at the nodes of a machine.

ghost use Rattle.std.specs.Prelude.{◌≡◌, false, IsTrue, IfOk, OnOk};
ghost use Rattle.kex_script.specs.Pieces.{code_over};
ghost use Rattle.kex_moves.specs.Speech.{PerformsSaid, RefusesCode};

use crate::along::ROOM;
use crate::edges::{By, Edges};
use crate::moves::shift_of;
use crate::tell::{Lexicon, Notebook, tell};
use kex_action::actor::Actor;
use kex_action::sheet::Sheet;
use kex_code::memory::Memory;
use kex_machine::Trimmed;
use kex_script::piece::ByteWord;
use kex_sst::parts::Parts;
use std::alloc::Global;
use std::marker::Model;

/// How many words have edges.
const MOST: usize = 256;

/// What the words of a list do at the nodes of a machine: an edge for each node and word, learnt
/// when it is first met.
///
/// The first 256 words have edges; those after them are performed symbol by symbol. Once a call
/// has answered `Memory` the actor may only be dropped, and each later call answers it too.
#[derive(Drop)]
pub struct Phrases<'p> {
    alloc: Global,
    words: Vec<Parts>,
    machine: &'p Trimmed,
    notebook: Notebook,
    usable: bool,
}

impl<'p> Model for Phrases<'p> {
    ghost use Rattle.std.specs.Prelude.{◌≡◌, IsTrue, length};
    ghost use Rattle.kex_moves.specs.Known.{IsKnown};
    ghost use Rattle.kex_action.specs.Sheets.{IsBlank};
    ghost use Rattle.kex_moves.specs.Speech.{Speech, words_table};
    ghost use Rattle.kex_moves.specs.declared.along.TheConstants.{ROOM};

    ghost Value = { Speech };

    ghost view = { λ p. record { words = p.words.items; machine = p.machine.now } };

    ghost invariant = { λ p. IsTrue p.usable
        → IsKnown (words_table p.words.items) p.machine.now p.notebook.edges
        × IsBlank p.notebook.sheet × (length p.notebook.sheet.bytes.items ≡ ROOM) };
}

// The same words again.
fn copy_of(alloc: Global, words: &[Parts]) -> Result<Vec<Parts>, Memory>
    ensures { IfOk result (λ copy. copy.items ≡ words.now) }
{
    let mut copy = Vec::new(alloc);
    for word in words {
        copy.push(word.copy(alloc)?)?;
    }
    Ok(copy)
}

impl<'p> Phrases<'p> {
    /// Nothing is learnt. The words are copied.
    pub fn new(alloc: Global, words: &[Parts], machine: &'p Trimmed) -> Result<Phrases<'p>, Memory>
        ensures { IfOk result (λ p. p ≡ record { words = words.now; machine = machine.now }) }
    {
        let shift = shift_of(words.len().min(MOST) as u16);
        let classes = [0; 256];
        let edges = Edges::new(alloc, classes, shift, By::Node, machine.nodes().len())?;
        Ok(Phrases {
            alloc,
            words: copy_of(alloc, words)?,
            machine,
            notebook: Notebook {
                edges,
                sheet: Sheet::new(alloc, ROOM)?,
                symbols: Vec::new(alloc),
            },
            usable: true,
        })
    }

    /// Performs what the pieces spell, and tells whether no symbol was refused. What is written is
    /// appended to `out`.
    pub fn say(
        &mut self,
        actor: &mut Actor<'p>,
        pieces: &[ByteWord],
        out: &mut Vec<u8>,
    ) -> Result<bool, Memory>
        requires usable { IsTrue actor.old.usable }
        requires machine { actor.old.machine ≡ self.old.machine }
        ensures performs { IfOk result (λ all. IsTrue all → PerformsSaid actor.old actor.new
            (code_over self.old.words pieces.now) out.old.items out.new.items) }
        ensures refused { IfOk result (λ all. all ≡ false
            → RefusesCode actor.old (code_over self.old.words pieces.now)) }
        ensures same { self.new ≡ self.old }
        ensures machine { actor.new.machine ≡ actor.old.machine }
        ensures usable { OnOk result (IsTrue actor.new.usable) }
    {
        if !self.usable {
            return Err(Memory);
        }
        self.usable = false;
        let lexicon = Lexicon {
            alloc: self.alloc,
            words: &self.words,
            machine: self.machine,
        };
        let all = tell(&lexicon, &mut self.notebook, actor, pieces, out)?;
        self.usable = true;
        Ok(all)
    }
}
