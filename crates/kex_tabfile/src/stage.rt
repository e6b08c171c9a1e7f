// Checks the lines of one stage.

ghost use Rattle.std.specs.Prelude.{◌≡◌, ℕ, ◌<◌, ◌≤◌, [], ◌∷◌, IfErr, IfOk, List, length};
ghost use Rattle.kex_byteset.specs.Classes.{class_count};
ghost use Rattle.kex_machine.specs.Nodes.{HasClasses};
ghost use Rattle.kex_sst.specs.Machines.{IsTableOf};
ghost use Rattle.kex_model.specs.Labelled.{Shape};
ghost use Rattle.kex_paths.specs.Nexts.{IsOfShape};
ghost use Rattle.kex_tabfile.specs.Checking.{AreTargets};
ghost use Rattle.kex_tabfile.specs.Checking.{BeginsWith, BreaksReading, BreaksStage, Checks};
ghost use Rattle.kex_tabfile.specs.Checking.{EachHasEnds, ReadsStage, ChecksAt};
ghost use Rattle.kex_tabfile.specs.Lines.{stage_line};
ghost use Rattle.kex_tabfile.specs.Readers.{ReadsBytes};
ghost use Rattle.kex_tabfile.specs.TableFiles.{goes_of};
ghost use Rattle.kex_tabfile.specs.Walks.{Told, at_stage, at_state, most_table_states};

use crate::places::number_places;
use crate::reader::TableReader;
use crate::refusal::TableRefusal;
use crate::rows::StageChecker;
use crate::spell::{push_stage_front, push_stage_rest};
use crate::targets::Targets;
use kex_byteset::Partition;
use kex_code::memory::Memory;
use kex_machine::Trimmed;
use kex_paths::tree::PathTree;
use kex_paths::workspace::Workspace;
use kex_sst::parts::Update;
use kex_sst::table::{State, Table};
use kex_sst::updates::Updates;
use std::alloc::Global;

/// How many states a stage of a table file may have.
pub(crate) const MOST_STATES: u32 = 1_048_576;

// Reads the own line of the stage with this number, and says how many states there are.
fn take_stage_line(
    alloc: Global,
    machine: &Trimmed,
    stage: u32,
    partition: &Partition,
    reader: &mut TableReader,
) -> Result<u32, TableRefusal>
    ensures right { IfOk result (λ n. (0 < n) × (n ≤ most_table_states)
        × ReadsBytes reader.old
        (stage_line stage (class_count partition.now) n) reader.new) }
    ensures bad { IfErr result (λ e. (numbers : List ℕ) (classes : List ℕ)
        → class_count classes ≡ class_count partition.now
        → BreaksReading machine.now numbers classes reader.old (at_stage stage) e) }
{
    let mut line = Vec::new(alloc);
    push_stage_front(stage, partition.classes(), &mut line)?;
    let Some(states) = reader.number(line.len(), MOST_STATES) else {
        return Err(reader.bad_line());
    };
    if states == 0 {
        return Err(reader.bad_line());
    }
    push_stage_rest(states, &mut line)?;
    reader.take(&line)?;
    Ok(states)
}

// The lines of all states.
fn take_states<'m>(
    checker: &mut StageChecker<'m>,
    reader: &mut TableReader,
    workspace: &mut Workspace<'m>,
    initial: &Update,
) -> Result<Vec<State>, TableRefusal>
    requires machine { workspace.old ≡ checker.old.machine.now }
    requires classes { HasClasses checker.old.machine.now.nodes checker.old.partition.now }
    requires places { length checker.old.numbers.items
        ≡ length checker.old.machine.now.nodes }
    requires initial { BeginsWith checker.old.machine.now initial.now }
    requires begun { (told : Told) × (told.rows ≡ [])
        × ChecksAt checker.old.machine.now checker.old.targets checker.old.states 0 told }
    ensures right { IfOk result (λ rows. (told : Told) → told.rows ≡ []
        → ChecksAt checker.old.machine.now checker.old.targets checker.old.states 0 told
        → (end : Told) × (end.rows ≡ goes_of rows.items)
        × (end.states ≡ checker.old.states) × (length rows.items ≡ checker.old.states)
        × EachHasEnds checker.old.machine.now end.targets rows.items
        × Checks checker.old.machine.now checker.old.numbers.items checker.old.partition.now
        reader.old (at_state told) (at_state end) reader.new) }
    ensures bad { IfErr result (λ e. (told : Told) → told.rows ≡ []
        → ChecksAt checker.old.machine.now checker.old.targets checker.old.states 0 told
        → BreaksReading checker.old.machine.now checker.old.numbers.items
        checker.old.partition.now reader.old (at_state told) e) }
{
    let mut rows = Vec::new(checker.alloc);
    for state in 0..checker.states {
        let row = checker.take_state(reader, workspace, state, initial)?;
        rows.push(row)?;
    }
    Ok(rows)
}

// What the lines of a stage's states are checked by, where the tree of the first is known.
fn first_checker<'m>(
    alloc: Global,
    machine: &'m Trimmed,
    partition: &'m Partition,
    numbers: Vec<u32>,
    states: u32,
    tree: PathTree<'m>,
) -> Result<StageChecker<'m>, Memory>
    requires { tree.machine ≡ machine.now }
    ensures machine { IfOk result (λ k. k.machine.now ≡ machine.now) }
    ensures partition { IfOk result (λ k. k.partition.now ≡ partition.now) }
    ensures states { IfOk result (λ k. k.states ≡ states) }
    ensures numbers { IfOk result (λ k. k.numbers ≡ numbers) }
    ensures targets { IfOk result (λ k. (s : Shape ℕ) → IsOfShape tree.entry s
        → AreTargets machine.now k.targets (record { state = 0; tree = s } ∷ [])) }
{
    let mut targets = Targets::new(alloc);
    targets.meet(0, tree)?;
    Ok(StageChecker {
        alloc,
        machine,
        partition,
        numbers,
        states,
        targets,
        updates: Updates::new(alloc),
        line: Vec::new(alloc),
    })
}

// The lines of all states, by a workspace of their own.
fn take_all(
    checker: StageChecker,
    reader: &mut TableReader,
    initial: &Update,
) -> Result<Vec<State>, TableRefusal>
    requires classes { HasClasses checker.machine.now.nodes checker.partition.now }
    requires places { length checker.numbers.items
        ≡ length checker.machine.now.nodes }
    requires initial { BeginsWith checker.machine.now initial.now }
    requires begun { (told : Told) × (told.rows ≡ []) × ChecksAt checker.machine.now
        checker.targets checker.states 0 told }
    ensures right { IfOk result (λ rows. (told : Told) → told.rows ≡ []
        → ChecksAt checker.entry.machine.now checker.entry.targets checker.entry.states 0 told
        → (end : Told) × (end.rows ≡ goes_of rows.items)
        × (end.states ≡ checker.entry.states) × (length rows.items ≡ checker.entry.states)
        × EachHasEnds checker.entry.machine.now end.targets rows.items
        × Checks checker.entry.machine.now checker.entry.numbers.items
        checker.entry.partition.now reader.old (at_state told) (at_state end) reader.new) }
    ensures bad { IfErr result (λ e. (told : Told) → told.rows ≡ []
        → ChecksAt checker.entry.machine.now checker.entry.targets checker.entry.states 0 told
        → BreaksReading checker.entry.machine.now checker.entry.numbers.items
        checker.entry.partition.now reader.old (at_state told) e) }
{
    let mut checker = checker;
    let mut workspace = Workspace::new(checker.alloc, checker.machine)?;
    take_states(&mut checker, reader, &mut workspace, initial)
}

/// The table of the machine of the stage with this number, by the lines that come next.
pub(crate) fn take_stage(
    alloc: Global,
    machine: &Trimmed,
    stage: u32,
    reader: &mut TableReader,
) -> Result<Table, TableRefusal>
    ensures table { IfOk result (λ t. IsTableOf machine.now t) }
    ensures right { IfOk result (λ t. ReadsStage stage machine.now (goes_of t.states)
        reader.old reader.new) }
    ensures bad { IfErr result (λ e. BreaksStage stage machine.now reader.old e) }
{
    let _nodes = machine.nodes();
    let partition = machine.partition();
    let numbers = number_places(alloc, machine)?;
    let states = take_stage_line(alloc, machine, stage, partition, reader)?;
    let (tree, initial) = PathTree::start(alloc, machine)?;
    let checker = first_checker(alloc, machine, partition, numbers, states, tree)?;
    let rows = take_all(checker, reader, &initial)?;
    Ok(Table::new(partition.copy(), initial, rows))
}
