//! What a stage takes over from its desks. No clause says that it takes anything: without its desks
//! it answers the same.
ghost use Rattle.std.specs.Prelude.{IsTrue};

use crate::made::ANY;
use kex_chunk_stage::chunk_stage::ChunkStage;
use kex_compile::compile;
use kex_pipe::turn::Turn;
use kex_plan::plan::Plan;
use kex_ports::OpenGate;
use kex_rounds::desks::work_ahead;
use std::alloc::Global;
use std::test::Fail;
use std::thread::Threads;

// How many parts a stage takes over of a piece, and of that and the same once more.
fn taken_by<'p, R: Threads + Sync>(
    rt: &R,
    alloc: Global,
    stage: &mut ChunkStage<'p>,
    piece: &[u8],
) -> Result<(u64, u64), Fail>
    requires { IsTrue (⟦<ChunkStage<'p> as Turn>⟧.is_usable stage.old) }
{
    let mut out = Vec::new(alloc);
    work_ahead(rt, stage, piece, 4_096, &OpenGate);
    stage.feed(piece, &mut out)?;
    let first = stage.taken();
    work_ahead(rt, stage, piece, 4_096, &OpenGate);
    stage.feed(piece, &mut out)?;
    Ok((first, stage.taken()))
}

// The same of a stage with four desks. A stage is much to drop, so it is dropped at one place.
fn taken<R: Threads + Sync>(
    rt: &R,
    alloc: Global,
    plan: &Plan,
    piece: &[u8],
) -> Result<(u64, u64), Fail> {
    if plan.table().is_none() {
        return Err(Fail::new("no table"));
    }
    let mut stage = ChunkStage::new(alloc, plan, u64::MAX, 4)?;
    taken_by(rt, alloc, &mut stage, piece)
}

// Of the first piece some lines of each part are worked on, of the second all but two lines of the
// first part.
#[test]
fn all_four_parts_are_taken_over(rt: HostRuntime) -> Result<(), Fail> {
    let alloc = rt.alloc();
    let compiled = compile(alloc, b"main := (/[a-z]*/ \"!\" /\\n/)*", &ANY)?.shorten(alloc)?;
    let plan = compiled.stages().first().ok_or("no stage")?;
    let lines = b"someletters\n".repeat(alloc, 8_000)?;
    let (first, both) = taken(&rt, alloc, plan, &lines)?;
    assert_eq!(rt; first, 4);
    assert_eq!(rt; both, 8);
    Ok(())
}
