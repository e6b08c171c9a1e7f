// Writes table files.

ghost use Rattle.std.specs.Prelude.{◌≡◌, ℕ, ◌^◌, ◌<◌, ◌≤◌, List, ◌++◌, OnOk, length, map};
ghost use Rattle.kex_determine.specs.Determined.{IsDetermined};
ghost use Rattle.kex_plan.specs.Plans.{machine_of};
ghost use Rattle.kex_tabfile.specs.TableFiles.{ArePlansOf, AreStageTexts, IsTableFile};
ghost use Rattle.kex_tabfile.specs.TableFiles.{goes_in, goes_of};
ghost use Rattle.kex_tabfile.specs.Walks.{IsStageText, most_table_states};
ghost use Rattle.kex_tabfile.specs.Writing.{AreFirstTrees, AreTreesOf, EachDetermined};
ghost use Rattle.kex_tabfile.specs.Writing.{goes_text, states_text};

use crate::spell::{
    push_go_front, push_go_rest, push_init_line, push_size_line, push_stage_front, push_stage_rest,
    push_state_line,
};
use crate::state_trees::StateTrees;
use kex_code::memory::Memory;
use kex_machine::Trimmed;
use kex_plan::plan::Plan;
use kex_sst::fan::Fan;
use kex_sst::table::Table;
use std::alloc::Global;

// Writes the lines by which a state goes on.
fn write_goes(state: u32, go: &Fan, out: &mut Vec<u8>) -> Result<(), Memory>
    requires { length go.now ≤ 256 }
    ensures { OnOk result (out.new.items ≡ out.old.items ++ goes_text state 0 go.now) }
{
    for class in 0..go.len() {
        if let Some(transition) = go.at(class as u8) {
            push_go_front(state, class as u8, out)?;
            push_go_rest(transition.target, transition.update.get(), out)?;
        }
    }
    Ok(())
}

// Writes the lines of the states of a table.
fn write_states<'m>(
    alloc: Global,
    trees: &mut StateTrees<'m>,
    table: &Table,
    out: &mut Vec<u8>,
) -> Result<(), Memory>
    requires determined { IsDetermined trees.old.workspace table.now }
    requires first { (d : IsDetermined trees.old.workspace table.now)
        → AreFirstTrees d.shapes trees.old.trees.items }
    requires machine { AreTreesOf trees.old.workspace trees.old.trees.items }
    requires one { length trees.old.trees.items ≡ 1 }
    requires places { length trees.old.numbers.items ≡ length trees.old.workspace.nodes }
    ensures { OnOk result ((d : IsDetermined trees.old.workspace table.now)
        → out.new.items ≡ out.old.items
        ++ states_text trees.old.numbers.items table.now.initial 0 d.shapes table.now.states) }
{
    let states = table.states();
    let _classes = table.partition().classes();
    for state in 0..states.len() {
        let go = states[state].go();
        push_state_line(
            alloc,
            &trees.numbers,
            state as u32,
            &trees.trees[state],
            out,
        )?;
        if state == 0 {
            push_init_line(table.initial(), out)?;
        }
        write_goes(state as u32, go, out)?;
        trees.meet_all(state, go)?;
    }
    Ok(())
}

// Writes the lines of the stage with this number.
fn write_stage(
    alloc: Global,
    machine: &Trimmed,
    stage: u32,
    table: &Table,
    out: &mut Vec<u8>,
) -> Result<(), Memory>
    requires determined { IsDetermined machine.now table.now }
    requires few { length table.now.states ≤ most_table_states }
    ensures { OnOk result ((bytes : List ℕ) × (out.new.items ≡ out.old.items ++ bytes)
        × IsStageText stage machine.now (goes_of table.now.states) bytes) }
{
    push_stage_front(stage, table.partition().classes(), out)?;
    push_stage_rest(table.states().len() as u32, out)?;
    let mut trees = StateTrees::new(alloc, machine)?;
    write_states(alloc, &mut trees, table, out)
}

// Writes the lines of all stages.
fn write_stages(alloc: Global, stages: &[Plan], out: &mut Vec<u8>) -> Result<(), Memory>
    requires determined { EachDetermined stages.now }
    requires few { length stages.now < 2 ^ 32 }
    ensures { OnOk result ((lines : List ℕ) × (out.new.items ≡ out.old.items ++ lines)
        × AreStageTexts 1 (map machine_of stages.now) (map goes_in stages.now) lines) }
{
    'plans: for (i, plan) in stages.iter().enumerate() {
        if let Some(table) = plan.table() {
            write_stage(alloc, plan.machine(), i as u32 + 1, table, out)?;
        }
    }
    Ok(())
}

/// Writes the table file of a text and the plans of its stages.
pub fn write_table(
    alloc: Global,
    stages: &[Plan],
    text: &[u8],
    out: &mut Vec<u8>,
) -> Result<(), Memory>
    requires { ArePlansOf text.now stages.now }
    ensures { OnOk result ((file : List ℕ) × (out.new.items ≡ out.old.items ++ file)
        × IsTableFile file text.now (map machine_of stages.now) (map goes_in stages.now)) }
{
    out.extend_from_slice(b"kextable 1\n")?;
    push_size_line(text.len() as u32, out)?;
    out.extend_from_slice(text)?;
    out.push(b'\n')?;
    write_stages(alloc, stages, out)?;
    out.extend_from_slice(b"end\n")?;
    Ok(())
}
