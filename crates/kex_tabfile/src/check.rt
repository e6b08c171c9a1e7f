// Checks table files.

ghost use Rattle.std.specs.Prelude.{◌≡◌, ◌^◌, ◌<◌, ◌≤◌, ℕ, IfErr, IfOk, List, OnOk, length, map};
ghost use Rattle.kex_plan.specs.Plans.{AllTell, machine_of};
ghost use Rattle.kex_plan.specs.declared.plan.Telling.TheVariants as telling;
ghost use Rattle.kex_tabfile.specs.Checking.{BreaksEnd, BreaksStages};
ghost use Rattle.kex_tabfile.specs.Lines.{end_line};
ghost use Rattle.kex_tabfile.specs.Readers.{ReadsBytes, most_bytes};
ghost use Rattle.kex_tabfile.specs.TableFiles.{AreStageTexts, EachHasTable, goes_in};
ghost use Rattle.kex_tabfile.specs.TableFiles.{IsGood, IsTableRefused};

use crate::checked::Checked;
use crate::head::take_head;
use crate::reader::TableReader;
use crate::refusal::TableRefusal;
use crate::stage::take_stage;
use kex_compile::machines;
use kex_machine::Trimmed;
use kex_plan::common::Common;
use kex_plan::plan::{Plan, Telling};
use std::alloc::Global;

/// How many bytes a table file may have.
pub const MOST_BYTES: u32 = 268_435_456;

// The plans of machines, by the lines that come next.
fn take_stages(
    alloc: Global,
    machines: Vec<Common<Trimmed>>,
    reader: &mut TableReader,
) -> Result<Vec<Plan>, TableRefusal>
    requires few { length machines.items < 2 ^ 32 }
    ensures machines { IfOk result (λ plans. map machine_of plans.items ≡ machines.items) }
    ensures tables { IfOk result (λ plans. EachHasTable plans.items) }
    ensures agreed { IfOk result (λ plans. AllTell telling.Agreed plans.items) }
    ensures right { IfOk result (λ plans. (bytes : List ℕ)
        × AreStageTexts 1 machines.items (map goes_in plans.items) bytes
        × ReadsBytes reader.old bytes reader.new) }
    ensures bad { IfErr result (λ e. BreaksStages machines.items reader.old e) }
{
    let mut plans = Vec::with_capacity(alloc, machines.len())?;
    let mut stage = 0;
    'machines: for machine in machines {
        stage += 1;
        let table = take_stage(alloc, machine.get(), stage, reader)?;
        let table = Common::new(alloc, table)?;
        let plan = Plan::sharing(machine, Some(table), Telling::Agreed);
        plans.push(plan)?;
    }
    Ok(plans)
}

// The last line of a file.
fn take_end(reader: &mut TableReader) -> Result<(), TableRefusal>
    ensures right { OnOk result (reader.old.rest ≡ end_line) }
    ensures bad { IfErr result (λ e. BreaksEnd reader.old e) }
{
    reader.take(b"end\n")?;
    if !reader.is_at_end() {
        return Err(reader.bad_line());
    }
    Ok(())
}

/// The plans that a table file has, if it is good: its lines are right, each after those before,
/// and its text breaks no rule. Nothing in it is believed: each tree and each update is made again.
///
/// The length is asked first, then the lines before the text, then the text, and then the lines
/// after it.
pub fn check_table(alloc: Global, bytes: &[u8]) -> Result<Checked, TableRefusal>
    ensures good { IfOk result (λ plans. IsGood bytes.now plans) }
    ensures within { IfOk result (λ plans. length bytes.now ≤ most_bytes) }
    ensures agreed { IfOk result (λ plans. AllTell telling.Agreed plans) }
    ensures refused { IfErr result (λ e. IsTableRefused bytes.now e) }
{
    if bytes.len() > MOST_BYTES as usize {
        return Err(TableRefusal::TableTooLong);
    }
    let mut reader = TableReader::new(bytes);
    let text = take_head(alloc, &mut reader)?;
    let machines = machines(alloc, text)?;
    let plans = take_stages(alloc, machines, &mut reader)?;
    take_end(&mut reader)?;
    Ok(Checked::new(plans))
}
