// One block through the stages into a sink.
ghost use Rattle.std.specs.Prelude.{◌≡◌, ◌++◌, true, false, IfErr};
ghost use Rattle.std.specs.Prelude.{IfOk, OnOk};
ghost use Rattle.kex_ports.specs.Endings.{IsUnfinished};
ghost use Rattle.kex_pipeline.specs.History.{History, bytes_passed, is_history_ended, WritesSaid};
ghost use Rattle.kex_pipeline.specs.History.{WritesUpTo};
ghost use Rattle.kex_pipeline.specs.Piped.{PipeSays, PipeStands, plans_of};
ghost use Rattle.kex_pipeline.specs.Sayings.{AlwaysSays};
ghost use Rattle.kex_pipeline.specs.Troubles.{TroubleCause};
ghost use Rattle.kex_pipeline.specs.declared.pass.Trouble.TheVariants as trouble;

use crate::any_pipe::AnyPipe;
use crate::feed::{end, feed};
use crate::host::Host;
use crate::limited::Limited;
use crate::rounds::Pace;
use kex_code::memory::Memory;
use kex_pipe::turn::Fate;
use kex_ports::{Failed, Gate, Sink};
use kex_words::write_all;
use std::thread::Threads;
use thiserror::Error;

/// Why a block came no further.
#[derive(Clone, Copy, Debug, PartialEq, Eq, Drop, Error)]
pub enum Trouble {
    /// Memory was wanted, and there was none.
    #[error("out of memory")]
    Memory,
    /// The sink couldn't be written.
    #[error("the sink couldn't be written")]
    Write,
}

impl From<Memory> for Trouble {
    ghost from_gives = { λ _ e. e ≡ trouble.Memory };

    fn from(_: Memory) -> Trouble {
        Trouble::Memory
    }
}

impl From<Failed> for Trouble {
    ghost from_gives = { λ _ e. e ≡ trouble.Write };

    fn from(_: Failed) -> Trouble {
        Trouble::Write
    }
}

/// Feeds a block front by front, and writes what is said after each.
///
/// What is said of a front begins what is said of the block, if anything is: that has to be known
/// where fronts are written.
pub fn pass<R: Threads + Sync, T: Limited + Drop + Send, G: Gate + Sync, K: Sink>(
    host: &Host<R, G>,
    pipe: &mut AnyPipe<T>,
    pace: Pace,
    block: &[u8],
    out: &mut Vec<u8>,
    output: &mut K,
) -> Result<Fate, Trouble>
    requires stands { (h : History) × PipeStands T.Turn pipe.old h × (is_history_ended h ≡ false) }
    requires says { pace ≡ Pace.Parts → AlwaysSays (PipeSays T.Turn (plans_of T.Turn pipe.old)) }
    ensures same { OnOk result (plans_of T.Turn pipe.new ≡ plans_of T.Turn pipe.old) }
    ensures writes { IfOk result (λ fate. (h : History) → PipeStands T.Turn pipe.old h
        → is_history_ended h ≡ false
        → WritesSaid (PipeSays T.Turn (plans_of T.Turn pipe.old)) (PipeStands T.Turn pipe.new) h
        (bytes_passed h ++ block.now) false (K.held output.old) (K.held output.new) fate) }
    ensures trouble { IfErr result (λ trouble. (h : History) → PipeStands T.Turn pipe.old h
        → is_history_ended h ≡ false
        → WritesUpTo (PipeSays T.Turn (plans_of T.Turn pipe.old)) h
        (bytes_passed h ++ block.now) false (K.held output.old) (K.held output.new) trouble) }
    ensures cause { TroubleCause (K.faults output.old) (K.faults output.new) result }
    ensures unfinished { IsUnfinished (K.ending output.old) (K.ending output.new) result }
{
    let mut rest = block;
    'fronts: loop {
        let front = feed(host, pipe, pace, rest, out)?;
        write_all(output, out)?;
        if front.count == rest.len() {
            return Ok(front.fate);
        }
        rest = &rest[front.count..];
    }
}

/// Feeds the end and writes what is said.
pub fn pass_end<R: Threads + Sync, T: Limited + Drop + Send, G: Gate + Sync, K: Sink>(
    host: &Host<R, G>,
    pipe: &mut AnyPipe<T>,
    out: &mut Vec<u8>,
    output: &mut K,
) -> Result<Fate, Trouble>
    requires { (h : History) × PipeStands T.Turn pipe.old h × (is_history_ended h ≡ false) }
    ensures same { OnOk result (plans_of T.Turn pipe.new ≡ plans_of T.Turn pipe.old) }
    ensures writes { IfOk result (λ fate. (h : History) → PipeStands T.Turn pipe.old h
        → is_history_ended h ≡ false
        → WritesSaid (PipeSays T.Turn (plans_of T.Turn pipe.old)) (PipeStands T.Turn pipe.new) h
        (bytes_passed h) true (K.held output.old) (K.held output.new) fate) }
    ensures trouble { IfErr result (λ trouble. (h : History) → PipeStands T.Turn pipe.old h
        → is_history_ended h ≡ false
        → WritesUpTo (PipeSays T.Turn (plans_of T.Turn pipe.old)) h (bytes_passed h) true
        (K.held output.old) (K.held output.new) trouble) }
    ensures cause { TroubleCause (K.faults output.old) (K.faults output.new) result }
    ensures unfinished { IsUnfinished (K.ending output.old) (K.ending output.new) result }
{
    let fate = end(host, pipe, out)?;
    write_all(output, out)?;
    Ok(fate)
}
