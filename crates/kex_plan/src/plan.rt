// What a stage works by.

ghost use Rattle.std.specs.Prelude.{◌≡◌, Some, None, MatchOption, IfOk, IfSome};
ghost use Rattle.kex_machine.specs.Nodes.{Graph, IsTrimmed};
ghost use Rattle.kex_sst.specs.Machines.{IsBestTableOf};
ghost use Rattle.kex_plan.specs.Plans.{IsGuideIf, IsTableAs, IsTableFor, IsTableIf, shortest};
ghost use Rattle.kex_plan.specs.declared.plan.Telling.{Telling};
ghost use Rattle.kex_plan.specs.declared.plan.Telling.TheVariants as telling;

use crate::common::Common;
use crate::route::Route;
use kex_code::memory::Memory;
use kex_constants::{LONGEST, shorten_table};
use kex_machine::Trimmed;
use kex_runner::shared_guide::SharedGuide;
use kex_sst::table::Table;
use std::alloc::Global;
use std::marker::Model;

/// What a stage tells of the bytes that it was given.
#[derive(Clone, Copy, Debug, PartialEq, Eq)]
pub enum Telling {
    /// What all survivors agree on.
    Agreed,
    /// What those agree on that aren't covered.
    Best,
}

/// A stage's machine, its table, if it has one, and what the stage tells. Beside that table there
/// may be a shorter one of the machine, by which stages go, and the guide of the table by which
/// they go. Plans may have all of it in common.
#[derive(Drop)]
pub struct Plan {
    machine: Common<Trimmed>,
    table: Option<Common<Table>>,
    shorter: Option<Common<Table>>,
    guide: Option<SharedGuide>,
    telling: Telling,
}

impl Model for Plan {
    ghost use Rattle.std.specs.Prelude.{IfSome};
    ghost use Rattle.kex_plan.specs.Plans.{IsGuideIf, IsTableAs, IsTableFor, Planned, shortest};

    ghost Value = { Planned };

    ghost view = { λ p. record { machine = p.machine; table = p.table; telling = p.telling } };

    ghost invariant = { λ p. IsTableFor p.telling p.machine p.table
        × IfSome p.shorter (λ t. IsTableAs p.telling p.machine t)
        × IsGuideIf (shortest p.shorter p.table) p.guide };
}

// One more owner of a table, if there is one.
fn again_if(table: &Option<Common<Table>>) -> Result<Option<Common<Table>>, Memory>
    ensures { IfOk result (λ o. o ≡ table.now) }
{
    match table {
        None => Ok(None),
        Some(table) => Ok(Some(table.again()?)),
    }
}

// One more owner of a guide, if there is one.
fn guide_again_if(guide: &Option<SharedGuide>) -> Result<Option<SharedGuide>, Memory>
    ensures { IfOk result (λ o. o ≡ guide.now) }
{
    match guide {
        None => Ok(None),
        Some(guide) => Ok(Some(guide.again()?)),
    }
}

// The shorter table, if there is one, and else the table.
fn shortest<'p>(
    shorter: &'p Option<Common<Table>>,
    table: &'p Option<Common<Table>>,
) -> Option<&'p Table>
    ensures { MatchOption result (shortest shorter.now table.now ≡ None)
        (λ t. shortest shorter.now table.now ≡ Some t.now) }
{
    match shorter {
        None => table.as_ref().map(Common::get),
        Some(table) => Some(table.get()),
    }
}

// Whether there is a register that may be constant. Either answer would be right: without one the
// shorter table is the same.
fn has_registers(table: &Table) -> bool {
    for state in table.states() {
        if state.registers() > 0 {
            return true;
        }
    }
    false
}

// A table whose states are split, and without constant registers, if there is one with registers.
fn shorter_of(alloc: Global, table: &Option<Common<Table>>) -> Result<Option<Common<Table>>, Memory>
    ensures { IfOk result (λ o. (k : Telling) (g : Graph) → IsTableFor k g table.now
        → IfSome o (λ t. IsTableAs k g t)) }
{
    match table {
        Some(table) if has_registers(table.get()) => {
            let shorter = shorten_table(alloc, table.get(), LONGEST)?;
            let shorter = Common::new(alloc, shorter)?;
            Ok(Some(shorter))
        }
        _ => Ok(None),
    }
}

// The guide of the table by which stages go, if there is one.
fn guide_of(
    alloc: Global,
    shorter: &Option<Common<Table>>,
    table: &Option<Common<Table>>,
) -> Result<Option<SharedGuide>, Memory>
    ensures { IfOk result (λ o. IsGuideIf (shortest shorter.now table.now) o) }
{
    match shortest(shorter, table) {
        None => Ok(None),
        Some(table) => Ok(Some(SharedGuide::new(alloc, table)?)),
    }
}

// What `shorten` makes of a table: the shorter one, if there is one, and the guide of that by which
// stages go.
fn shortened(
    alloc: Global,
    table: &Option<Common<Table>>,
) -> Result<(Option<Common<Table>>, Option<SharedGuide>), Memory>
    ensures shorter { IfOk result (λ r. (k : Telling) (g : Graph) → IsTableFor k g table.now
        → IfSome r.0 (λ t. IsTableAs k g t)) }
    ensures guide { IfOk result (λ r. IsGuideIf (shortest r.0 table.now) r.1) }
{
    let shorter = shorter_of(alloc, table)?;
    let guide = guide_of(alloc, &shorter, table)?;
    Ok((shorter, guide))
}

impl Plan {
    /// The plan of a machine, with its table or without one, which tells what is agreed.
    pub fn new(machine: Trimmed, table: Option<Table>) -> Plan
        requires { IsTableIf machine table }
        ensures { result
            ≡ record { machine = machine; table = table; telling = telling.Agreed } }
    {
        Plan {
            machine: Common::alone(machine),
            table: table.map(Common::alone),
            shorter: None,
            guide: None,
            telling: Telling::Agreed,
        }
    }

    /// The plan of a machine with a table that tells what is best.
    pub fn best(machine: Trimmed, table: Table) -> Plan
        requires { IsBestTableOf machine table }
        ensures { result
            ≡ record { machine = machine; table = Some table; telling = telling.Best } }
    {
        Plan {
            machine: Common::alone(machine),
            table: Some(Common::alone(table)),
            shorter: None,
            guide: None,
            telling: Telling::Best,
        }
    }

    /// The plan of a machine and a table that other plans may have too.
    pub fn sharing(machine: Common<Trimmed>, table: Option<Common<Table>>, telling: Telling) -> Plan
        requires { IsTableFor telling machine table }
        ensures { result ≡ record { machine = machine; table = table; telling = telling } }
    {
        Plan {
            machine,
            table,
            shorter: None,
            guide: None,
            telling,
        }
    }

    /// The same plan once more: it has machine and tables in common with this one. Fails where they
    /// were made for one plan, by `new` or `best`.
    pub fn again(&self) -> Result<Plan, Memory>
        ensures { IfOk result (λ p. p ≡ self.now) }
    {
        Ok(Plan {
            machine: self.machine.again()?,
            table: again_if(&self.table)?,
            shorter: again_if(&self.shorter)?,
            guide: guide_again_if(&self.guide)?,
            telling: self.telling,
        })
    }

    /// The machine.
    pub fn machine(&self) -> &Trimmed
        ensures same { result.now ≡ self.now.machine }
        ensures trimmed { IsTrimmed self.now.machine }
    {
        let machine = self.machine.get();
        let _nodes = machine.nodes();
        machine
    }

    /// The table, if it has one.
    pub fn table(&self) -> Option<&Table>
        ensures same { MatchOption result (self.now.table ≡ None) (λ t. self.now.table
            ≡ Some t.now) }
        ensures of_machine { IsTableFor self.now.telling self.now.machine self.now.table }
    {
        self.table.as_ref().map(Common::get)
    }

    /// What its stages tell.
    pub fn telling(&self) -> Telling
        ensures { result ≡ self.now.telling }
    {
        self.telling
    }

    /// The same plan, of which stages go by a table without constant registers, if it has a table
    /// with registers. The guide of the table by which they go is made.
    pub fn shorten(self, alloc: Global) -> Result<Plan, Memory>
        ensures { IfOk result (λ p. p ≡ self) }
    {
        let (shorter, guide) = shortened(alloc, &self.table)?;
        let Plan {
            machine,
            table,
            telling,
            ..
        } = self;
        Ok(Plan {
            machine,
            table,
            shorter,
            guide,
            telling,
        })
    }

    /// By what stages go that have a table. There is one exactly where the plan has a table.
    pub fn route(&self) -> Option<Route<'_>>
        ensures { MatchOption result
            ((self.now.table ≡ None) × (self.now.telling ≡ telling.Agreed))
            (λ t. IsTableAs self.now.telling self.now.machine t) }
    {
        match shortest(&self.shorter, &self.table) {
            None => None,
            Some(table) => Some(Route::new(table, self.guide.as_ref())),
        }
    }
}
