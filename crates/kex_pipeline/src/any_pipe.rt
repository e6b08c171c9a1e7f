// A pipe of a program's stages, which work by rounds, in turns or over rings.
ghost use Rattle.std.specs.Prelude.{◌≡◌, ◌≢◌, ◌<◌, ◌++◌, ◌∷◌, [], List, ℕ, Some, None, All, Err};
ghost use Rattle.std.specs.Prelude.{IfOk, OnOk, false, take, map, vec_len};
ghost use Rattle.kex_model.specs.Answers.{Pipeline};
ghost use Rattle.kex_model.specs.Schedules.{Event, give_end};
ghost use Rattle.kex_pipe.specs.Events.{bytes_given, end_given};
ghost use Rattle.kex_pipe.specs.Reports.{report_as};
ghost use Rattle.kex_pipeline.specs.Fronts.{IsFront};
ghost use Rattle.kex_pipeline.specs.Piped.{AnyPipeStands, IsGiven, IsPipeSettled, IsWorkedOff};
ghost use Rattle.kex_pipeline.specs.Piped.{PipeStands, any_in_hand, is_any_ended, is_any_in_round};
ghost use Rattle.kex_pipeline.specs.Piped.{is_any_spent, plans_of};

use crate::limited::Limited;
use crate::piece_length::PieceLength;
use crate::rings::RingWork;
use crate::rounds::{MUCH, Pace};
use crate::sharing::Sharing;
use crate::{rings, rounds, turns};
use kex_code::memory::Memory;
use kex_pipe::pipe::{Pipe, PipeFault};
use kex_pipe::report::Rejected;
use kex_pipe::turn::Turn;
use kex_ports::Gate;
use kex_rings::pipe::RingPipe;
use kex_words::Rings;
use std::alloc::Global;
use std::thread::Threads;

/// A pipe, and how its stages work.
#[derive(Drop)]
pub enum AnyPipe<T: Turn> {
    /// The stages work by rounds.
    Rounds { pipe: Pipe<T>, length: PieceLength },
    /// The stages take turns in their order, and each stage's desks work on parts of what it is to
    /// read.
    Turns { pipe: Pipe<T>, sharing: Sharing },
    /// Rings join the stages.
    Rings { pipe: RingPipe<T>, work: RingWork },
}

impl<T: Turn + Drop> AnyPipe<T> {
    /// At least one stage, none of which was fed before. They work by rounds, or over rings.
    pub fn new(alloc: Global, stages: Vec<T>, rings: Option<Rings>) -> Result<AnyPipe<T>, Memory>
        requires some { 0 < vec_len stages }
        requires unfed { All (λ s. T.stands s None) stages.items }
        ensures stands { IfOk result (λ pipe.
            AnyPipeStands T.Turn (map T.plan stages.items) pipe [] []) }
        ensures plans { IfOk result (λ pipe. plans_of T.Turn pipe ≡ map T.plan stages.items) }
        ensures fresh { IfOk result (λ pipe. PipeStands T.Turn pipe None) }
    {
        match rings {
            None => Ok(AnyPipe::Rounds {
                pipe: Pipe::new(alloc, stages)?,
                length: PieceLength::new(MUCH),
            }),
            Some(rings) => Ok(AnyPipe::Rings {
                pipe: RingPipe::new(alloc, stages, rings.room)?,
                work: RingWork::new(alloc),
            }),
        }
    }

    /// The same, of stages that take turns.
    pub fn in_turns(alloc: Global, stages: Vec<T>, sharing: Sharing) -> Result<AnyPipe<T>, Memory>
        requires some { 0 < vec_len stages }
        requires unfed { All (λ s. T.stands s None) stages.items }
        ensures stands { IfOk result (λ pipe.
            AnyPipeStands T.Turn (map T.plan stages.items) pipe [] []) }
        ensures plans { IfOk result (λ pipe. plans_of T.Turn pipe ≡ map T.plan stages.items) }
        ensures fresh { IfOk result (λ pipe. PipeStands T.Turn pipe None) }
    {
        Ok(AnyPipe::Turns {
            pipe: Pipe::new(alloc, stages)?,
            sharing,
        })
    }

    /// The input ends here.
    pub(crate) fn give_end(&mut self) -> Result<(), PipeFault>
        requires unended { is_any_ended T.Turn self.old ≡ false }
        requires closed { is_any_in_round T.Turn self.old ≡ false }
        requires going { is_any_spent T.Turn self.old ≡ false }
        ensures stands { OnOk result ((ps : List T.Plan) (h : List Event) (taken : List ℕ)
            → AnyPipeStands T.Turn ps self.old h taken
            → AnyPipeStands T.Turn ps self.new (h ++ give_end ∷ []) taken) }
        ensures closed { is_any_in_round T.Turn self.new ≡ false }
        ensures going { OnOk result (is_any_spent T.Turn self.new ≡ false) }
        ensures wants { result ≢ Err PipeFault.Spent }
    {
        match self {
            AnyPipe::Rounds { pipe, .. } => pipe.give_end(),
            AnyPipe::Turns { pipe, .. } => pipe.give_end(),
            AnyPipe::Rings { pipe, .. } => pipe.give_end(),
        }
    }

    /// Takes the output that is in hand, in the place of what `out` held.
    pub(crate) fn take_output_into(&mut self, out: &mut Vec<u8>)
        requires closed { is_any_in_round T.Turn self.old ≡ false }
        ensures none_left { any_in_hand T.Turn self.new ≡ [] }
        ensures stands { (ps : List T.Plan) (h : List Event) (taken : List ℕ)
            → AnyPipeStands T.Turn ps self.old h taken
            → AnyPipeStands T.Turn ps self.new h (taken ++ out.new.items) }
    {
        match self {
            AnyPipe::Rounds { pipe, .. } => pipe.take_output_into(out),
            AnyPipe::Turns { pipe, .. } => pipe.take_output_into(out),
            AnyPipe::Rings { pipe, .. } => pipe.take_output_into(out),
        }
    }

    /// The stop of the last stage that has stopped.
    pub(crate) fn report(&self) -> Option<Rejected>
        ensures settled { (ps : List T.Plan) (h : List Event) (taken : List ℕ)
            → AnyPipeStands T.Turn ps self.now h taken → IsPipeSettled T.gives ps h
            → Pipeline T.gives 1 ps (bytes_given h) (end_given h)
            (taken ++ any_in_hand T.Turn self.now) (report_as result) }
    {
        match self {
            AnyPipe::Rounds { pipe, .. } => pipe.report(),
            AnyPipe::Turns { pipe, .. } => pipe.report(),
            AnyPipe::Rings { pipe, .. } => pipe.report(),
        }
    }
}

/// Gives bytes at this pace, and tells how many were given.
pub(crate) fn give_front<R: Threads + Sync, T: Limited + Drop + Send, G: Gate + Sync>(
    rt: &R,
    pipe: &mut AnyPipe<T>,
    gate: &G,
    pace: Pace,
    bytes: &[u8],
) -> Result<usize, PipeFault>
    requires unended { is_any_ended T.Turn pipe.old ≡ false }
    requires closed { is_any_in_round T.Turn pipe.old ≡ false }
    requires going { is_any_spent T.Turn pipe.old ≡ false }
    ensures front { IfOk result (λ count. IsFront pace bytes.now count) }
    ensures given { IfOk result (λ count. (ps : List T.Plan) (h : List Event) (taken : List ℕ)
        → AnyPipeStands T.Turn ps pipe.old h taken
        → IsGiven (λ k. AnyPipeStands T.Turn ps pipe.new k taken) (take count bytes.now) h) }
    ensures closed { is_any_in_round T.Turn pipe.new ≡ false }
    ensures going { OnOk result (is_any_spent T.Turn pipe.new ≡ false) }
    ensures wants { result ≢ Err PipeFault.Spent }
{
    match pipe {
        AnyPipe::Rounds { pipe, length } => {
            rounds::give_front(rt, pipe, gate, pace, length, bytes)
        }
        AnyPipe::Turns { pipe, sharing } => {
            turns::give_front(rt, pipe, gate, pace, sharing, bytes)
        }
        AnyPipe::Rings { pipe, work } => rings::give_front(rt, pipe, gate, pace, work, bytes),
    }
}

/// Works off all that waits.
pub(crate) fn work_off<R: Threads + Sync, T: Limited + Drop + Send, G: Gate + Sync>(
    rt: &R,
    pipe: &mut AnyPipe<T>,
    gate: &G,
) -> Result<(), PipeFault>
    requires closed { is_any_in_round T.Turn pipe.old ≡ false }
    requires going { is_any_spent T.Turn pipe.old ≡ false }
    ensures works { OnOk result ((ps : List T.Plan) (h : List Event) (taken : List ℕ)
        → AnyPipeStands T.Turn ps pipe.old h taken
        → IsWorkedOff T.gives ps (λ k. AnyPipeStands T.Turn ps pipe.new k taken) h) }
    ensures closed { is_any_in_round T.Turn pipe.new ≡ false }
    ensures going { OnOk result (is_any_spent T.Turn pipe.new ≡ false) }
    ensures wants { result ≢ Err PipeFault.Spent }
{
    match pipe {
        AnyPipe::Rounds { pipe, .. } => rounds::work_off(rt, pipe, gate),
        AnyPipe::Turns { pipe, sharing } => {
            turns::work_off(rt, pipe, gate, sharing)?;
            Ok(())
        }
        AnyPipe::Rings { pipe, work } => {
            rings::work_off(rt, pipe, gate, work)?;
            Ok(())
        }
    }
}
