// A worker that goes by a table.

ghost use Rattle.std.specs.Prelude.{◌≡◌, ◌&&◌, not, true, IfOk, None, MatchOption};
ghost use Rattle.kex_machine.specs.Answers.{HasRun, MeansByRun, IsViableFor};
ghost use Rattle.kex_pipe.specs.Working.{ClosesParsed, SaysViable};
ghost use Rattle.kex_stage.specs.declared.oracle.Oracle.TheVariants as oracle;
ghost use Rattle.kex_plan.specs.Plans.{SaysAs, teller_of};
ghost use Rattle.kex_stage.specs.StageLaws.{answering};
ghost use Rattle.kex_stage.specs.Stages.{Gives, StageFollows, refused_at};
ghost use Rattle.kex_chunk_stage.specs.TableWorkers.{table_plan_of, teller_by};

use kex_action::actor::Actor;
use kex_code::code::Code;
use kex_code::memory::Memory;
use kex_machine::Trimmed;
use kex_pipe::worker::Worker;
use kex_plan::plan::{Plan, Telling};
use kex_plan::route::Route;
use kex_stage::follower::Follower;
use kex_stage::speak::{StageFault, speak};
use std::alloc::Global;
use std::marker::Model;

/// A stage's machine, a table of it, and what that passes on.
#[derive(Drop)]
pub struct TableBasis<'p> {
    machine: &'p Trimmed,
    route: Route<'p>,
    telling: Telling,
}

impl<'p> Model for TableBasis<'p> {
    ghost use Rattle.kex_machine.specs.Nodes.{IsTrimmed};
    ghost use Rattle.kex_plan.specs.Plans.{IsTableAs};
    ghost use Rattle.kex_chunk_stage.specs.TableWorkers.{TablePlan};

    ghost Value = { TablePlan };

    ghost view = { λ b. record {
      machine = b.machine.now;
      table = b.route;
      telling = b.telling;
    } };

    ghost invariant = { λ b. IsTrimmed b.machine.now
        × IsTableAs b.telling b.machine.now b.route };
}

/// Works by a table: bytes come in pieces, and what the table passes on goes out at once.
#[derive(Drop)]
pub struct TableWorker<'p> {
    pub(crate) basis: TableBasis<'p>,
    pub(crate) follower: Follower<'p>,
    pub(crate) actor: Actor<'p>,
    code: Code,
}

impl<'p> Model for TableWorker<'p> {
    ghost use Rattle.std.specs.Prelude.{◌≡◌};
    ghost use Rattle.kex_chunk_stage.specs.TableWorkers.{TableState};

    ghost Value = { TableState };

    ghost view = { λ s. record {
      follower = s.follower;
      actor = s.actor;
      telling = s.basis.telling;
    } };

    ghost invariant = { λ s. (s.actor.machine ≡ s.basis.machine)
        × (s.follower.runner.table ≡ s.basis.table)
        × (s.follower.moves.machine ≡ s.basis.machine) };
}

impl<'p> TableBasis<'p> {
    /// What a plan's stages go by, if it has a table.
    pub fn of(plan: &'p Plan) -> Option<TableBasis<'p>>
        ensures { MatchOption result (plan.now.table ≡ None)
            (λ b. teller_by b ≡ teller_of plan.now) }
    {
        match plan.route() {
            None => None,
            Some(route) => Some(TableBasis {
                machine: plan.machine(),
                route,
                telling: plan.telling(),
            }),
        }
    }

    /// The same once more.
    pub(crate) fn twin(&self) -> TableBasis<'p>
        ensures { result ≡ self.now }
    {
        TableBasis {
            machine: self.machine,
            route: self.route.twin(),
            telling: self.telling,
        }
    }

    /// An actor of its machine that has performed nothing.
    pub(crate) fn actor(&self, alloc: Global) -> Result<Actor<'p>, Memory>
        ensures { IfOk result (λ a. a.machine ≡ self.now.machine) }
    {
        Actor::new(alloc, self.machine)
    }
}

// The number of the byte after the good ones, where that was refused.
fn refused_at(refused: bool, good: u64) -> Option<u64>
    ensures { result ≡ refused_at refused good }
{
    if refused { Some(good) } else { None }
}

impl<'p> Worker for TableWorker<'p> {
    ghost use Rattle.kex_chunk_stage.specs.TableWorkers.{TablePlan, table_plan_of};

    type Basis = TableBasis<'p>;

    ghost Machine = { TablePlan };

    ghost machine_in = { λ basis. basis };

    ghost machine = { λ s. table_plan_of s };

    ghost says = { λ m w at text. SaysViable (IsViableFor m.machine)
        (SaysAs m.telling m.machine) (HasRun m.machine) (MeansByRun m.machine) w at text };

    ghost closes = { λ m w parsed text. ClosesParsed (IsViableFor m.machine)
        (SaysAs m.telling m.machine) (HasRun m.machine) (MeansByRun m.machine) w parsed text };

    ghost gives = { λ m n w e a. Gives (record { machine = teller_by m; limit = n }) w e a };

    ghost follows = { λ s w text.
        StageFollows s.telling (oracle.Table s.follower) s.actor w text };

    ghost is_ready = { λ s. s.follower.runner.usable && not s.follower.runner.ended
        && s.actor.usable };

    ghost counted = { λ s. s.follower.runner.read };

    ghost may_want = { true };

    ghost answers = { λ m. answering (teller_by m) };

    fn start(alloc: Global, basis: TableBasis<'p>) -> Result<TableWorker<'p>, Memory> {
        let follower = Follower::new(alloc, &basis.route, basis.machine)?;
        let actor = Actor::new(alloc, basis.machine)?;
        Ok(TableWorker {
            basis,
            follower,
            actor,
            code: Code::new(alloc),
        })
    }

    fn go_on(&mut self, piece: &[u8], out: &mut Vec<u8>) -> Result<Option<u64>, Memory> {
        match self.follower.go_on(&mut self.actor, piece, out) {
            Ok(count) => Ok(refused_at(count < piece.len(), self.follower.runner.read())),
            Err(StageFault::Refused) => Ok(Some(self.follower.runner.read())),
            Err(StageFault::Memory) => Err(Memory),
        }
    }

    fn finish(&mut self, out: &mut Vec<u8>) -> Result<bool, Memory> {
        self.code.clear();
        let parsed = self.follower.end(&mut self.code)?;
        match speak(&mut self.actor, self.code.as_slice(), out) {
            Ok(()) => Ok(parsed),
            Err(StageFault::Refused) => Ok(false),
            Err(StageFault::Memory) => Err(Memory),
        }
    }
}
