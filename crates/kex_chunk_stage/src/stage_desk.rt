// A desk of a stage that goes by a table.

ghost use Rattle.std.specs.Prelude.{◌≡◌, IfOk, map};

use crate::table_worker::TableWorker;
use kex_code::memory::Memory;
use kex_desks::desk::PieceDesk;
use kex_pipe::parted::PartDesk;
use std::alloc::Global;

/// Works on a part of what a stage is to read, by a table.
#[derive(Drop)]
pub struct StageDesk<'p> {
    pub(crate) within: PieceDesk<TableWorker<'p>>,
}

impl<'p> PartDesk for StageDesk<'p> {
    ghost use Rattle.kex_chunk_stage.specs.TableWorkers.{TablePlan, table_plan_of};

    ghost Kind = { TablePlan };

    ghost kind = { λ d. table_plan_of d.within };

    fn work(&mut self, part: u32, of: u32, piece: &[u8]) {
        self.within.work(part, of, piece);
    }
}

/// Desks of a worker as desks of a stage.
pub(crate) fn wrap_all<'p>(
    alloc: Global,
    desks: Vec<PieceDesk<TableWorker<'p>>>,
) -> Result<Vec<StageDesk<'p>>, Memory>
    ensures { IfOk result (λ wrapped.
        map (λ d. d.within) wrapped.items ≡ desks.entry.items) }
{
    let mut wrapped = Vec::with_capacity(alloc, desks.len())?;
    'desks: for within in desks {
        wrapped.push(StageDesk { within })?;
    }
    Ok(wrapped)
}

/// Desks of a stage as desks of its worker.
pub(crate) fn unwrap_all<'p>(
    alloc: Global,
    desks: Vec<StageDesk<'p>>,
) -> Result<Vec<PieceDesk<TableWorker<'p>>>, Memory>
    ensures { IfOk result (λ bare. bare.items ≡ map (λ d. d.within) desks.entry.items) }
{
    let mut bare = Vec::with_capacity(alloc, desks.len())?;
    'desks: for desk in desks {
        let StageDesk { within } = desk;
        bare.push(within)?;
    }
    Ok(bare)
}
