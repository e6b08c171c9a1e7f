// A desk, where a part of a piece is worked on.

ghost use Rattle.std.specs.Prelude.{◌≡◌, ◌≤◌, ◌<◌, ◌+◌, ◌^◌, None, IsTrue, IfOk, IfSome, length};
ghost use Rattle.std.specs.Prelude.{take};
ghost use Rattle.kex_desks.specs.Drafts.{ComesTo};

use crate::draft::{PartDraft, make_draft};
use crate::parts::part_bounds;
use crate::place::KnowsPlace;
use kex_code::memory::Memory;
use kex_pipe::parted::PartDesk;
use std::alloc::Global;
use std::marker::Model;
use std::mem;

/// A desk with a worker of its own, which stands for it in clauses.
#[derive(Drop)]
pub struct PieceDesk<W: KnowsPlace> {
    worker: W,
    // Where a worker was after an earlier line, if that is known.
    sample: W::Place,
    sampled: bool,
    // How many bytes were read before the piece.
    read: u64,
    // Whether it works on a whole part, or on some of it.
    whole: bool,
    draft: PartDraft<W::Place>,
    // Whether it has made a draft that no worker has taken.
    drafted: bool,
}

impl<W: KnowsPlace> Model for PieceDesk<W> {
    ghost use Rattle.std.specs.Prelude.{◌≡◌, true};
    ghost use Rattle.kex_desks.specs.Drafts.{IsPartDraft};

    ghost Value = { W };

    ghost view = { λ d. d.worker };

    ghost invariant = { λ d. W.fits d.worker d.sample × W.fits d.worker d.draft.place
        × (d.drafted ≡ true → IsPartDraft W.machine W.follows W.is_ready W.counted W.stands_at
        d.draft.place d.worker d.draft.bytes.items d.draft.text.items) };
}

/// How many bytes were read, up to a stop if there was one, and whether a part of them was taken
/// over.
#[derive(Clone, Copy)]
pub struct Joined {
    pub count: usize,
    pub stop: Option<u64>,
    pub taken: bool,
}

impl<W: KnowsPlace + Drop> PieceDesk<W> {
    /// A desk of this worker's kind, which knows where it stands.
    pub(crate) fn new(alloc: Global, worker: &W) -> Result<PieceDesk<W>, Memory>
        ensures { IfOk result (λ d. W.machine d ≡ W.machine worker.now) }
    {
        let own = worker.another(alloc)?;
        let mut sample = own.some_place(alloc)?;
        let place = own.some_place(alloc)?;
        let sampled = matches!(worker.note(&mut sample), Ok(true));
        Ok(PieceDesk {
            worker: own,
            sample,
            sampled,
            read: 0,
            whole: false,
            draft: PartDraft {
                place,
                from: 0,
                bytes: Vec::new(alloc),
                text: Vec::new(alloc),
            },
            drafted: false,
        })
    }
}

// How many bytes there are from a place to a draft, if the draft is of what comes after it.
fn ahead<P>(draft: &PartDraft<P>, at: usize, room: usize) -> Option<usize>
    ensures { IfSome result (λ n. n + length draft.now.bytes.items ≤ room) }
{
    if draft.from < at {
        return None;
    }
    let ahead = draft.from - at;
    if ahead > room || draft.bytes.len() > room - ahead {
        return None;
    }
    Some(ahead)
}

// Whether a worker stands where a draft was begun, before the very bytes of that.
fn begins<W: KnowsPlace>(worker: &W, draft: &PartDraft<W::Place>, bytes: &[u8]) -> bool
    requires { W.fits worker.now draft.now.place }
    ensures place { IsTrue result → W.stands_at worker.now draft.now.place }
    ensures bytes { IsTrue result → bytes.now ≡ draft.now.bytes.items }
{
    worker.is_at(&draft.place) && bytes == draft.bytes.as_slice()
}

impl<W: KnowsPlace> PieceDesk<W> {
    /// Notes where a worker of its machine is, after a line.
    pub(crate) fn sample(&mut self, worker: &W)
        requires { W.machine worker.now ≡ W.machine self.old }
        ensures { self.new ≡ self.old }
    {
        self.sampled = matches!(worker.note(&mut self.sample), Ok(true));
    }

    /// Whether it knows where a worker was after a line.
    pub(crate) fn knows(&self) -> bool {
        self.sampled
    }

    /// It is to work on a whole part of what is read next, or on some of one. The count says how
    /// many bytes were read before.
    pub(crate) fn make_ready(&mut self, read: u64, whole: bool)
        ensures { self.new ≡ self.old }
    {
        self.read = read;
        self.whole = whole;
        self.drafted = false;
    }

    /// A worker that has read a piece up to a place goes on to where the draft was begun, and takes
    /// that over if it would make the same.
    pub(crate) fn join(
        &mut self,
        worker: &mut W,
        at: usize,
        rest: &[u8],
        out: &mut Vec<u8>,
    ) -> Result<Joined, Memory>
        requires ready { IsTrue (W.is_ready worker.old) }
        requires same { W.machine self.old ≡ W.machine worker.old }
        requires room { W.counted worker.old + length rest.now < 2 ^ 64 }
        ensures comes { IfOk result (λ j. ComesTo (W.says (W.machine worker.old))
            (W.follows worker.old) (W.follows worker.new) (take j.count rest.now) j.stop
            out.old.items out.new.items) }
        ensures count { IfOk result (λ j. j.count ≤ length rest.now) }
        ensures ready { IfOk result (λ j. j.stop ≡ None → IsTrue (W.is_ready worker.new)) }
        ensures counted { IfOk result (λ j. W.counted worker.new
            ≤ W.counted worker.old + j.count) }
        ensures within { W.counted worker.new ≤ W.counted worker.old + length rest.now }
        ensures same { (W.machine worker.new ≡ W.machine worker.old)
            × (W.machine self.new ≡ W.machine self.old) }
    {
        let Some(ahead) = ahead(&self.draft, at, rest.len()) else {
            return Ok(Joined {
                count: 0,
                stop: None,
                taken: false,
            });
        };
        if !mem::replace(&mut self.drafted, false) {
            return Ok(Joined {
                count: 0,
                stop: None,
                taken: false,
            });
        }
        let stop = worker.go_on(&rest[..ahead], out)?;
        let to = ahead + self.draft.bytes.len();
        if stop.is_some() || !begins(worker, &self.draft, &rest[ahead..to]) {
            return Ok(Joined {
                count: ahead,
                stop,
                taken: false,
            });
        }
        out.extend_from_slice(&self.draft.text)?;
        mem::swap(worker, &mut self.worker);
        Ok(Joined {
            count: to,
            stop: None,
            taken: true,
        })
    }
}

impl<W: KnowsPlace> PartDesk for PieceDesk<W> {
    ghost Kind = { W.Machine };

    ghost kind = { λ d. W.machine d };

    fn work(&mut self, part: u32, of: u32, piece: &[u8]) {
        self.drafted = false;
        if !self.sampled || self.read > u64::MAX - piece.len() as u64 {
            return;
        }
        let Some(part) = part_bounds(piece, part, of, self.whole) else {
            return;
        };
        let made = make_draft(
            &mut self.worker,
            &self.sample,
            self.read,
            piece,
            part,
            &mut self.draft,
        );
        self.drafted = matches!(made, Ok(true));
    }
}
