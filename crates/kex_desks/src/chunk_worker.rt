// A worker with desks.

ghost use Rattle.std.specs.Prelude.{◌≡◌, ◌≤◌, ◌<◌, ◌+◌, ◌^◌, true, ℕ, List, IfOk, All, vec_len};
ghost use Rattle.std.specs.Prelude.{None, IsTrue, length};
ghost use Rattle.kex_pipe.specs.Working.{ReadMore};
ghost use Rattle.std.proofs.Common.{◌∙◌};

use crate::desk::PieceDesk;
use crate::joining::{read_piece, sample_all};
use crate::place::KnowsPlace;
use crate::trust::Trust;
use kex_code::memory::Memory;
use kex_pipe::parted::PartedWorker;
use kex_pipe::worker::Worker;
use std::alloc::Global;
use std::marker::Model;
use std::mem;

// A piece of fewer bytes, on which no desk works, isn't worth the noting of a place in it.
const SHORT: usize = 4_096;

/// What a worker is made of, and how many desks it has.
#[derive(Drop)]
pub struct Crew<B> {
    pub basis: B,
    pub desks: u32,
    ghost few: { desks ≤ 64 },
}

/// A worker with desks, which work on parts of what it reads next. It takes over what they have
/// made where it comes to where that was begun.
#[derive(Drop)]
pub struct ChunkWorker<W: KnowsPlace> {
    alloc: Global,
    worker: W,
    desks: Vec<PieceDesk<W>>,
    trust: Trust,
    taken: u64,
}

impl<W: KnowsPlace> Model for ChunkWorker<W> {
    ghost use Rattle.std.specs.Prelude.{◌≡◌, ◌≤◌, All, vec_len};
    ghost use Rattle.kex_desks.specs.Chunks.{Chunking};

    ghost Value = { Chunking W };

    ghost view = { λ s. record { worker = s.worker; taken = s.taken } };

    ghost invariant = { λ s. All (λ d. W.machine d ≡ W.machine s.worker) s.desks.items
        × (vec_len s.desks ≤ 64) };
}

// Some desks for workers of one machine, which know where this one is.
fn desks_of<W: KnowsPlace + Drop>(
    alloc: Global,
    worker: &W,
    count: u32,
) -> Result<Vec<PieceDesk<W>>, Memory>
    ensures same { IfOk result (λ ds. All (λ d. W.machine d ≡ W.machine worker.now) ds.items) }
    ensures number { IfOk result (λ ds. vec_len ds ≡ count) }
{
    let mut desks = Vec::new(alloc);
    for _ in 0..count {
        let desk = PieceDesk::new(alloc, worker)?;
        desks.push(desk)?;
    }
    Ok(desks)
}

// The desks are to work on whole parts of what a worker reads next, or on some of them.
fn make_ready_all<W: KnowsPlace>(worker: &W, whole: bool, desks: &mut [PieceDesk<W>])
    requires { All (λ d. W.machine d ≡ W.machine worker.now) desks.old }
    ensures { desks.new ≡ desks.old }
{
    let read = worker.count();
    // Before the first byte is as good as after a line.
    sample_all(worker, desks, read == 0);
    for k in 0..desks.len() {
        desks[k].make_ready(read, whole);
    }
}

// Whether desks know where their worker was after a line.
fn knows_place<W: KnowsPlace + Drop>(desks: &[PieceDesk<W>]) -> bool {
    match desks.first() {
        None => false,
        Some(desk) => desk.knows(),
    }
}

impl<W: KnowsPlace> ChunkWorker<W> {
    /// How many parts it has taken over.
    pub fn taken(&self) -> u64
        ensures { result ≡ self.now.taken }
    {
        self.taken
    }
}

impl<W: KnowsPlace + Drop> ChunkWorker<W> {
    // Reads a piece of which its desks may have made drafts.
    fn read_in_parts(&mut self, piece: &[u8], out: &mut Vec<u8>) -> Result<Option<u64>, Memory>
        requires ready { IsTrue (W.is_ready self.old.worker) }
        requires room { W.counted self.old.worker + length piece.now < 2 ^ 64 }
        ensures same { W.machine self.new.worker ≡ W.machine self.old.worker }
        ensures reads { IfOk result (λ at. (w text : List ℕ) → W.follows self.old.worker w text
            → ReadMore (W.says (W.machine self.old.worker)) (W.follows self.new.worker)
            w text piece.now at out.old.items out.new.items) }
        ensures ready { IfOk result (λ at. at ≡ None → IsTrue (W.is_ready self.new.worker)) }
        ensures counted { W.counted self.new.worker
            ≤ W.counted self.old.worker + length piece.now }
    {
        let read = read_piece(&mut self.worker, &mut self.desks, piece, out)?;
        self.taken = self.taken.saturating_add(read.taken);
        self.trust.learn(read.taken > 0);
        Ok(read.stop)
    }
}

impl<W: KnowsPlace + Drop> Worker for ChunkWorker<W> {
    type Basis = Crew<W::Basis>;

    ghost Machine = { W.Machine };

    ghost machine_in = { λ crew. W.machine_in crew.basis };

    ghost machine = { λ s. W.machine s.worker };

    ghost says = { W.says };

    ghost closes = { W.closes };

    ghost gives = { W.gives };

    ghost follows = { λ s w text. W.follows s.worker w text };

    ghost is_ready = { λ s. W.is_ready s.worker };

    ghost counted = { λ s. W.counted s.worker };

    ghost may_want = { true };

    ghost answers = { W.answers };

    fn start(alloc: Global, basis: Crew<W::Basis>) -> Result<ChunkWorker<W>, Memory> {
        let Crew { basis, desks, .. } = basis;
        let worker = W::start(alloc, basis)?;
        let desks = desks_of(alloc, &worker, desks)?;
        Ok(ChunkWorker {
            alloc,
            worker,
            desks,
            trust: Trust::new(),
            taken: 0,
        })
    }

    fn go_on(&mut self, piece: &[u8], out: &mut Vec<u8>) -> Result<Option<u64>, Memory> {
        if piece.len() < SHORT && !self.trust.has_tried() {
            return self.worker.go_on(piece, out);
        }
        self.read_in_parts(piece, out)
    }

    fn finish(&mut self, out: &mut Vec<u8>) -> Result<bool, Memory> {
        self.worker.finish(out)
    }
}

impl<W: KnowsPlace + Drop> PartedWorker<PieceDesk<W>> for ChunkWorker<W> {
    ghost owns = { λ s d. W.machine d ≡ W.machine s.worker };

    fn hand_out(&mut self) -> Vec<PieceDesk<W>> {
        let known = self.worker.count() == 0 || knows_place(&self.desks);
        if !self.trust.tries(known) {
            return Vec::new(self.alloc);
        }
        make_ready_all(&self.worker, self.trust.is_proven(), &mut self.desks);
        mem::replace(&mut self.desks, Vec::new(self.alloc))
    }

    fn take_back(&mut self, desks: Vec<PieceDesk<W>>)
        requires own { All (λ d. W.machine d ≡ W.machine self.old.worker) desks.items }
        requires few { vec_len desks ≤ 64 }
        ensures same { W.machine self.new.worker ≡ W.machine self.old.worker }
        ensures ready { W.is_ready self.new.worker ≡ W.is_ready self.old.worker }
        ensures counted { W.counted self.new.worker ≡ W.counted self.old.worker }
        ensures follows { (w text : List ℕ) → W.follows self.old.worker w text
            → W.follows self.new.worker w text }
    {
        if !desks.is_empty() {
            self.desks = desks;
        }
    }

    ghost stays_own = { λ s a b e h. e ∙ h };
}
