// The strongly connected components of a program's graph, by one search along the path of those
// that are open (path-based, as Gabow's). Each vertex and each way is met once.

ghost use Rattle.std.specs.Prelude.{◌≡◌, ℕ, ◌<◌, ◌≤◌, ◌+◌, ◌++◌, ◌∷◌, [], length, IfOk, OnOk};
ghost use Rattle.std.specs.Prelude.{get_or};
ghost use Rattle.kex_code.specs.Codes.{HasNumber};
ghost use Rattle.kex_model.specs.Programs.{IsGrammar};
ghost use Rattle.kex_rules.specs.Graphs.{AreComponents, successor_list, vertices};
ghost use Rattle.kex_rules.specs.Graphs.{vertex_successors};
ghost use Rattle.kex_rules.specs.Searches.{AllLead, ClosesPath, Joins, Searching, StaysMet, work};
ghost use Rattle.kex_rules.specs.Tables.{HasRoots};
ghost use Rattle.kex_rules.specs.declared.components.Mark.TheVariants.{Unseen};
ghost use Rattle.kex_rules.specs.declared.components.Bound.{Bound};

use crate::graph::{VertexSuccessors, successors_of};
use kex_code::memory::Memory;
use kex_model::program::Program;
use std::alloc::Global;

/// How far the search is with a vertex: not met, open at this number of the path, or in a component
/// of this number.
#[derive(Clone, Copy, PartialEq, Eq, Debug)]
pub enum Mark {
    Unseen,
    Open(usize),
    Closed(usize),
}

/// Where an open component begins: on the path, and among the ways that are still to be gone.
#[derive(Clone, Copy)]
pub struct Bound {
    pub path: usize,
    pub ahead: usize,
}

/// The search: the open vertices as they were met, the vertices that are still ahead of them, and
/// where the open components begin. Of two open components the earlier one leads to the later one.
#[derive(Drop)]
pub struct Search {
    marks: Vec<Mark>,
    path: Vec<usize>,
    ahead: Vec<usize>,
    bounds: Vec<Bound>,
    closed: usize,
}

// What a vertex leads to is ahead.
fn push_successors(ahead: &mut Vec<usize>, ways: VertexSuccessors) -> Result<(), Memory>
    ensures { OnOk result (ahead.new.items ≡ ahead.old.items ++ successor_list ways) }
{
    match ways {
        VertexSuccessors::NoWay => {}
        VertexSuccessors::One(next) => ahead.push(next)?,
        VertexSuccessors::Two(left, right) => {
            ahead.push(left)?;
            ahead.push(right)?;
        }
    }
    Ok(())
}

// The bounds after number `place` of the path go: what begins there is one component with what is
// at `place`.
fn join(bounds: &mut Vec<Bound>, place: usize)
    requires { (k l : ℕ) (b c : Bound) → k ≤ l → HasNumber bounds.old.items b k
        → HasNumber bounds.old.items c l → (b.path ≤ c.path) × (b.ahead ≤ c.ahead) }
    ensures { Joins place bounds.old.items bounds.new.items }
{
    let mut kept = bounds.len();
    'bounds: while kept > 0 && bounds[kept - 1].path > place {
        kept -= 1;
    }
    bounds.truncate(kept);
}

// What is on the path from number `from` on is a component of this number.
fn close_all(marks: &mut Vec<Mark>, path: &[usize], from: usize, closed: usize)
    requires { (v i : ℕ) → HasNumber path.now v i → v < length marks.old.items }
    ensures { ClosesPath from (length path.now) closed path.now marks.old.items marks.new.items }
{
    for i in from..path.len() {
        marks[path[i]] = Mark::Closed(closed);
    }
}

impl Search {
    // Nothing is met.
    fn new(alloc: Global, program: &Program) -> Result<Search, Memory>
        ensures search { IfOk result (λ s. Searching program.now [] s) }
        ensures bounds { IfOk result (λ s. s.bounds.items ≡ []) }
    {
        let count = program.nodes().len() + program.names().len();
        let marks = vec![in alloc; Mark::Unseen; count]?;
        Ok(Search {
            marks,
            path: Vec::new(alloc),
            ahead: Vec::new(alloc),
            bounds: Vec::new(alloc),
            closed: 0,
        })
    }

    // A vertex that wasn't met is a component of its own on the path, and where it leads is ahead.
    fn open(&mut self, program: &Program, roots: &[Option<u32>], v: usize) -> Result<(), Memory>
        requires roots { HasRoots program.now.definitions (length program.now.names) roots.now }
        requires fits { v < vertices program.now }
        requires search { Searching program.now (v ∷ []) self.old }
        requires unseen { get_or self.old.marks.items v Unseen ≡ Unseen }
        requires reached { AllLead (vertex_successors program.now) self.old.path.items v }
        ensures search { OnOk result (Searching program.now [] self.new) }
        ensures met { OnOk result (StaysMet self.old self.new) }
        ensures opened { OnOk result (get_or self.new.marks.items v Unseen ≡ Unseen → ⊥) }
        ensures work { OnOk result (work self.new ≤ work self.old) }
    {
        let bound = Bound {
            path: self.path.len(),
            ahead: self.ahead.len(),
        };
        self.marks[v] = Mark::Open(bound.path);
        self.path.push(v)?;
        self.bounds.push(bound)?;
        push_successors(&mut self.ahead, successors_of(program, roots, v))?;
        Ok(())
    }

    // Goes to a vertex to which all that is open leads: on the path, all after it is one component
    // with it.
    fn meet(&mut self, program: &Program, roots: &[Option<u32>], v: usize) -> Result<(), Memory>
        requires roots { HasRoots program.now.definitions (length program.now.names) roots.now }
        requires fits { v < vertices program.now }
        requires search { Searching program.now (v ∷ []) self.old }
        requires reached { AllLead (vertex_successors program.now) self.old.path.items v }
        ensures search { OnOk result (Searching program.now [] self.new) }
        ensures met { OnOk result (StaysMet self.old self.new) }
        ensures work { OnOk result (work self.new ≤ work self.old) }
    {
        match self.marks[v] {
            Mark::Unseen => self.open(program, roots, v),
            Mark::Open(place) => {
                join(&mut self.bounds, place);
                Ok(())
            }
            Mark::Closed(_) => Ok(()),
        }
    }

    // The last component, from which nothing is ahead, is closed.
    fn close(&mut self, program: &Program, bound: Bound)
        requires search { Searching program.now [] self.old }
        requires last { (k : ℕ) × (length self.old.bounds.items ≡ k + 1)
            × HasNumber self.old.bounds.items bound k }
        requires ahead { length self.old.ahead.items ≤ bound.ahead }
        ensures search { Searching program.now [] self.new }
        ensures met { StaysMet self.old self.new }
        ensures work { work self.new < work self.old }
    {
        close_all(&mut self.marks, &self.path, bound.path, self.closed);
        self.path.truncate(bound.path);
        self.bounds.pop();
        self.closed += 1;
    }

    // Goes on until nothing is open.
    fn explore(&mut self, program: &Program, roots: &[Option<u32>]) -> Result<(), Memory>
        requires grammar { IsGrammar program.now }
        requires roots { HasRoots program.now.definitions (length program.now.names) roots.now }
        requires search { Searching program.now [] self.old }
        ensures search { OnOk result (Searching program.now [] self.new) }
        ensures met { OnOk result (StaysMet self.old self.new) }
        ensures bounds { OnOk result (self.new.bounds.items ≡ []) }
    {
        'bounds: while let Some(bound) = self.bounds.last().copied() {
            if self.ahead.len() <= bound.ahead {
                self.close(program, bound);
            } else if let Some(next) = self.ahead.pop() {
                self.meet(program, roots, next)?;
            }
        }
        Ok(())
    }
}

// The component of each vertex of the program's graph.
pub(crate) fn components(
    alloc: Global,
    program: &Program,
    roots: &[Option<u32>],
) -> Result<Vec<Mark>, Memory>
    requires grammar { IsGrammar program.now }
    requires roots { HasRoots program.now.definitions (length program.now.names) roots.now }
    ensures { IfOk result (λ marks.
        AreComponents (vertex_successors program.now) (vertices program.now) marks.items) }
{
    let mut search = Search::new(alloc, program)?;
    'vertices: for v in 0..search.marks.len() {
        if let Mark::Unseen = search.marks[v] {
            search.open(program, roots, v)?;
            search.explore(program, roots)?;
        }
    }
    Ok(search.marks)
}
