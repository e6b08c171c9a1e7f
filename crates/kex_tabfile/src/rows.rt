// Checks the lines of one state after the other.

ghost use Rattle.std.specs.Prelude.{◌≡◌, ℕ, suc, ◌<◌, ◌++◌, ◌∷◌, [], IfErr, IfOk, List, OnOk};
ghost use Rattle.std.specs.Prelude.{Option, Some, length};
ghost use Rattle.kex_byteset.specs.Classes.{class_count};
ghost use Rattle.kex_code.specs.Codes.{IsAmong};
ghost use Rattle.kex_model.specs.Labelled.{Shape};
ghost use Rattle.kex_machine.specs.Nodes.{HasClasses};
ghost use Rattle.kex_sst.specs.declared.table.Transition.{Transition};
ghost use Rattle.kex_paths.specs.Nexts.{IsOfShape};
ghost use Rattle.kex_tabfile.specs.Checking.{BreaksReading, Checks, NextBy, ChecksAt};
ghost use Rattle.kex_tabfile.specs.Checking.{BeginsWith, HasEnds};
ghost use Rattle.kex_tabfile.specs.Walks.{Target, Told, at_class, at_init, at_state};
ghost use Rattle.kex_tabfile.specs.Walks.{behind_state};

use crate::reader::TableReader;
use crate::refusal::TableRefusal;
use crate::spell::{push_go_front, push_go_rest, push_init_line, push_state_line};
use crate::targets::Targets;
use kex_byteset::Partition;
use kex_code::memory::Memory;
use kex_determine::ends::way_to_end;
use kex_machine::Trimmed;
use kex_paths::tree::PathTree;
use kex_paths::workspace::Workspace;
use kex_sst::fan::Fan;
use kex_sst::parts::{Parts, Update};
use kex_sst::table::{State, Transition};
use kex_sst::updates::Updates;
use std::alloc::Global;

/// What the lines of a stage's states are checked by.
#[derive(Drop)]
pub(crate) struct StageChecker<'m> {
    pub(crate) alloc: Global,
    pub(crate) machine: &'m Trimmed,
    pub(crate) partition: &'m Partition,
    /// The numbers of the places.
    pub(crate) numbers: Vec<u32>,
    /// How many states there are.
    pub(crate) states: u32,
    pub(crate) targets: Targets<'m>,
    pub(crate) updates: Updates,
    /// The line that is wanted next.
    pub(crate) line: Vec<u8>,
}

// How many registers a state has, and the way to its end.
fn ends_of(
    alloc: Global,
    machine: &Trimmed,
    tree: &PathTree,
) -> Result<(u32, Option<Parts>), Memory>
    requires { tree.now.machine ≡ machine.now }
    ensures { IfOk result (λ r. (s : Shape ℕ) → IsOfShape tree.now s
        → HasEnds machine.now s r.0 r.1) }
{
    let shape = tree.shape();
    let accepting = way_to_end(alloc, machine.nodes(), shape, tree.leaves())?;
    let registers = shape.len() - 1;
    Ok((registers as u32, accepting))
}

impl<'m> StageChecker<'m> {
    // The line by which a state goes on with a class.
    fn take_go(
        &mut self,
        reader: &mut TableReader,
        state: u32,
        class: u8,
        next: (PathTree<'m>, Update),
    ) -> Result<Transition, TableRefusal>
        requires some { 0 < self.old.states }
        requires classes { HasClasses self.old.machine.now.nodes self.old.partition.now }
        ensures right { IfOk result (λ r. (told : Told) (s : Shape ℕ)
            (go : List (Option Transition))
            → ChecksAt self.old.machine.now self.old.targets self.old.states state told
            → length go ≡ class → class < class_count self.old.partition.now
            → NextBy self.old.machine.now class s (Some next.entry)
            → (after : List Target)
            × ChecksAt self.old.machine.now self.new.targets self.old.states state
            (record told { targets = after })
            × Checks self.old.machine.now self.old.numbers.items self.old.partition.now reader.old
            (at_class told s go) (at_class (record told { targets = after }) s (go ++ Some r ∷ []))
            reader.new) }
        ensures bad { IfErr result (λ e. (told : Told) (s : Shape ℕ)
            (go : List (Option Transition))
            → ChecksAt self.old.machine.now self.old.targets self.old.states state told
            → length go ≡ class → class < class_count self.old.partition.now
            → NextBy self.old.machine.now class s (Some next.entry)
            → BreaksReading self.old.machine.now self.old.numbers.items self.old.partition.now
            reader.old (at_class told s go) e) }
        ensures kept { OnOk result (self.new ≡ record self.old {
          targets = self.new.targets;
          updates = self.new.updates;
          line = self.new.line;
        }) }
    {
        let (tree, update) = next;
        self.line.clear();
        push_go_front(state, class, &mut self.line)?;
        let Some(target) = reader.number(self.line.len(), self.states - 1) else {
            return Err(reader.bad_line());
        };
        push_go_rest(target, &update, &mut self.line)?;
        if !self.targets.meet(target, tree)? {
            return Err(reader.bad_line());
        }
        reader.take(&self.line)?;
        let update = self.updates.share(update)?;
        Ok(Transition { target, update })
    }

    // The line by which a state goes on with a class, if it does.
    fn take_class(
        &mut self,
        reader: &mut TableReader,
        workspace: &mut Workspace<'m>,
        state: u32,
        class: u8,
    ) -> Result<Option<Transition>, TableRefusal>
        requires machine { workspace.old ≡ self.old.machine.now }
        requires some { 0 < self.old.states }
        requires classes { HasClasses self.old.machine.now.nodes self.old.partition.now }
        requires below { class < class_count self.old.partition.now }
        requires stands { (told : Told) × (s : Shape ℕ)
            × ChecksAt self.old.machine.now self.old.targets self.old.states state told
            × IsAmong told.targets (record { state = state; tree = s }) }
        ensures right { IfOk result (λ o. (told : Told) (s : Shape ℕ)
            (go : List (Option Transition))
            → ChecksAt self.old.machine.now self.old.targets self.old.states state told
            → IsAmong told.targets (record { state = state; tree = s })
            → length go ≡ class
            → (after : List Target)
            × ChecksAt self.old.machine.now self.new.targets self.old.states state
            (record told { targets = after })
            × Checks self.old.machine.now self.old.numbers.items self.old.partition.now reader.old
            (at_class told s go) (at_class (record told { targets = after }) s (go ++ o ∷ []))
            reader.new) }
        ensures bad { IfErr result (λ e. (told : Told) (s : Shape ℕ)
            (go : List (Option Transition))
            → ChecksAt self.old.machine.now self.old.targets self.old.states state told
            → IsAmong told.targets (record { state = state; tree = s })
            → length go ≡ class
            → BreaksReading self.old.machine.now self.old.numbers.items self.old.partition.now
            reader.old (at_class told s go) e) }
        ensures kept { OnOk result (self.new ≡ record self.old {
          targets = self.new.targets;
          updates = self.new.updates;
          line = self.new.line;
        }) }
        ensures workspace { OnOk result (workspace.new ≡ workspace.old) }
    {
        let tree = self.targets.tree(state).unwrap();
        let Some(next) = tree.advance_with(workspace, class)? else {
            return Ok(None);
        };
        let transition = self.take_go(reader, state, class, next)?;
        Ok(Some(transition))
    }

    // The lines by which a state goes on, by class. One tree is made at a time.
    fn take_goes(
        &mut self,
        reader: &mut TableReader,
        workspace: &mut Workspace<'m>,
        state: u32,
    ) -> Result<Fan, TableRefusal>
        requires machine { workspace.old ≡ self.old.machine.now }
        requires some { 0 < self.old.states }
        requires classes { HasClasses self.old.machine.now.nodes self.old.partition.now }
        requires stands { (told : Told) × (s : Shape ℕ)
            × ChecksAt self.old.machine.now self.old.targets self.old.states state told
            × IsAmong told.targets (record { state = state; tree = s }) }
        ensures right { IfOk result (λ go. (told : Told) (s : Shape ℕ)
            → ChecksAt self.old.machine.now self.old.targets self.old.states state told
            → IsAmong told.targets (record { state = state; tree = s })
            → (after : List Target)
            × ChecksAt self.old.machine.now self.new.targets self.old.states (suc state)
            (record told { targets = after; rows = told.rows ++ go ∷ [] })
            × Checks self.old.machine.now self.old.numbers.items self.old.partition.now reader.old
            (at_class told s [])
            (at_state (record told { targets = after; rows = told.rows ++ go ∷ [] }))
            reader.new) }
        ensures bad { IfErr result (λ e. (told : Told) (s : Shape ℕ)
            → ChecksAt self.old.machine.now self.old.targets self.old.states state told
            → IsAmong told.targets (record { state = state; tree = s })
            → BreaksReading self.old.machine.now self.old.numbers.items self.old.partition.now
            reader.old (at_class told s []) e) }
        ensures kept { OnOk result (self.new ≡ record self.old {
          targets = self.new.targets;
          updates = self.new.updates;
          line = self.new.line;
        }) }
        ensures workspace { OnOk result (workspace.new ≡ workspace.old) }
    {
        let classes = self.partition.classes();
        let mut go = Fan::with_capacity(self.alloc, classes)?;
        'classes: for class in 0..classes {
            let transition = self.take_class(reader, workspace, state, class as u8)?;
            go.push(transition)?;
        }
        Ok(go)
    }

    // The line of the start's update.
    fn take_init(&mut self, reader: &mut TableReader, initial: &Update) -> Result<(), TableRefusal>
        requires { BeginsWith self.old.machine.now initial.now }
        ensures right { OnOk result ((told : Told) (s : Shape ℕ)
            → Checks self.old.machine.now self.old.numbers.items self.old.partition.now reader.old
            (at_init told s) (at_class told s []) reader.new) }
        ensures bad { IfErr result (λ e. (told : Told) (s : Shape ℕ)
            → BreaksReading self.old.machine.now self.old.numbers.items self.old.partition.now
            reader.old (at_init told s) e) }
        ensures kept { self.new ≡ record self.old { line = self.new.line } }
    {
        self.line.clear();
        push_init_line(initial, &mut self.line)?;
        reader.take(&self.line)
    }

    // A state's own line; and its registers and the way to its end.
    fn take_state_line(
        &mut self,
        reader: &mut TableReader,
        state: u32,
    ) -> Result<(u32, Option<Parts>), TableRefusal>
        requires places { length self.old.numbers.items ≡ length self.old.machine.now.nodes }
        requires below { state < self.old.states }
        requires stands { (told : Told)
            × ChecksAt self.old.machine.now self.old.targets self.old.states state told }
        ensures right { IfOk result (λ r. (told : Told)
            → ChecksAt self.old.machine.now self.old.targets self.old.states state told
            → (s : Shape ℕ) × IsAmong told.targets (record { state = state; tree = s })
            × HasEnds self.old.machine.now s r.0 r.1
            × Checks self.old.machine.now self.old.numbers.items self.old.partition.now reader.old
            (at_state told) (behind_state told s told.rows) reader.new) }
        ensures bad { IfErr result (λ e. (told : Told)
            → ChecksAt self.old.machine.now self.old.targets self.old.states state told
            → BreaksReading self.old.machine.now self.old.numbers.items self.old.partition.now
            reader.old (at_state told) e) }
        ensures kept { self.new ≡ record self.old { line = self.new.line } }
    {
        let Some(tree) = self.targets.tree(state) else {
            return Err(reader.bad_line());
        };
        self.line.clear();
        push_state_line(self.alloc, &self.numbers, state, tree, &mut self.line)?;
        reader.take(&self.line)?;
        let ends = ends_of(self.alloc, self.machine, tree)?;
        Ok(ends)
    }

    /// The lines of a state, of which the first has that of the start's update among them.
    pub(crate) fn take_state(
        &mut self,
        reader: &mut TableReader,
        workspace: &mut Workspace<'m>,
        state: u32,
        initial: &Update,
    ) -> Result<State, TableRefusal>
        requires machine { workspace.old ≡ self.old.machine.now }
        requires classes { HasClasses self.old.machine.now.nodes self.old.partition.now }
        requires places { length self.old.numbers.items ≡ length self.old.machine.now.nodes }
        requires below { state < self.old.states }
        requires stands { (told : Told)
            × ChecksAt self.old.machine.now self.old.targets self.old.states state told }
        requires initial { BeginsWith self.old.machine.now initial.now }
        ensures right { IfOk result (λ row. (told : Told)
            → ChecksAt self.old.machine.now self.old.targets self.old.states state told
            → (s : Shape ℕ) × (after : List Target)
            × IsAmong told.targets (record { state = state; tree = s })
            × HasEnds self.old.machine.now s row.registers row.accepting
            × ChecksAt self.old.machine.now self.new.targets self.old.states (suc state)
            (record told { targets = after; rows = told.rows ++ row.go ∷ [] })
            × Checks self.old.machine.now self.old.numbers.items self.old.partition.now reader.old
            (at_state told)
            (at_state (record told { targets = after; rows = told.rows ++ row.go ∷ [] }))
            reader.new) }
        ensures bad { IfErr result (λ e. (told : Told)
            → ChecksAt self.old.machine.now self.old.targets self.old.states state told
            → BreaksReading self.old.machine.now self.old.numbers.items self.old.partition.now
            reader.old (at_state told) e) }
        ensures kept { OnOk result (self.new ≡ record self.old {
          targets = self.new.targets;
          updates = self.new.updates;
          line = self.new.line;
        }) }
        ensures workspace { OnOk result (workspace.new ≡ workspace.old) }
    {
        let (registers, accepting) = self.take_state_line(reader, state)?;
        if state == 0 {
            self.take_init(reader, initial)?;
        }
        let go = self.take_goes(reader, workspace, state)?;
        Ok(State::new(registers, accepting, go))
    }
}
