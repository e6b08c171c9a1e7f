// The rows of a table, made from what is left of its states' trees.

ghost use Rattle.std.specs.Prelude.{◌≡◌, ℕ, ◌<◌, Some, IfOk, length, get_or};
ghost use Rattle.std.specs.Prelude.{false};
ghost use Rattle.kex_byteset.specs.Classes.{class_at, class_count};
ghost use Rattle.kex_model.specs.Labelled.{Shape};
ghost use Rattle.kex_paths.specs.Nexts.{HasClass, IsOfShape};
ghost use Rattle.kex_determine.specs.Determined.{AreStateTrees};
ghost use Rattle.kex_cover.specs.Keeping.{AreBestRowsTo, AreBestTo, AreStatesLeft, IsBestStart};
ghost use Rattle.kex_cover.specs.Keeping.{IsRowWith, IsUpdateTo, KeepsSome, WhereLeft};
ghost use Rattle.kex_cover.specs.Optimal.{DoesBest, has_number};

use kex_code::memory::Memory;
use kex_determine::ends::way_to_end;
use kex_machine::Trimmed;
use kex_machine::marks::Marks;
use kex_paths::tree::PathTree;
use kex_paths::workspace::Workspace;
use kex_sst::fan::Fan;
use kex_sst::parts::Update;
use kex_sst::table::{State, Table, Transition};
use kex_sst::updates::Updates;
use std::alloc::Global;

/// What rows are made with: how trees go on, marks of places, and the updates that were met.
#[derive(Drop)]
pub struct RowTools<'m> {
    pub workspace: Workspace<'m>,
    pub marks: Marks,
    pub updates: Updates,
}

impl<'m> RowTools<'m> {
    /// For a machine's trees.
    pub fn new(alloc: Global, machine: &'m Trimmed) -> Result<RowTools<'m>, Memory>
        ensures workspace { IfOk result (λ tools. tools.workspace ≡ machine.now) }
        ensures long { IfOk result (λ tools. length tools.marks ≡ length machine.now.nodes) }
    {
        let workspace = Workspace::new(alloc, machine)?;
        let marks = Marks::new(alloc, machine.nodes().len())?;
        Ok(RowTools {
            workspace,
            marks,
            updates: Updates::new(alloc),
        })
    }
}

// Marks the places of a tree's leaves, and no others.
fn mark_leaves(tree: &PathTree, marks: &mut Marks)
    requires { length marks.old ≡ length tree.now.machine.nodes }
    ensures long { length marks.new ≡ length marks.old }
    ensures marked { (p : ℕ) → get_or marks.new p false ≡ has_number tree.now.leaves p }
{
    // They are numbers of nodes.
    let _shape = tree.shape();
    let places = tree.leaves();
    marks.clear();
    for place in places {
        marks.mark(*place);
    }
}

// How a tree goes on with a class, where of what comes the leaves of another tree are kept.
fn update_to<'m>(
    alloc: Global,
    from: &PathTree<'m>,
    class: u8,
    to: &PathTree<'m>,
    tools: &mut RowTools<'m>,
) -> Result<Update, Memory>
    requires from { from.now.machine ≡ tools.old.workspace }
    requires to { to.now.machine ≡ tools.old.workspace }
    requires long { length tools.old.marks ≡ length tools.old.workspace.nodes }
    requires keeps { KeepsSome tools.old.workspace from.now class to.now.leaves }
    ensures update { IfOk result (λ u. (s : Shape ℕ) (b : ℕ) → IsOfShape from.now s
        → HasClass tools.old.workspace class b
        → IsUpdateTo tools.old.workspace b s to.now.leaves u) }
    ensures workspace { tools.new.workspace ≡ tools.old.workspace }
    ensures long { length tools.new.marks ≡ length tools.old.marks }
{
    mark_leaves(to, &mut tools.marks);
    let next = from.advance_with(&mut tools.workspace, class)?;
    let (tree, update) = next.unwrap();
    let left = tree.restricted(alloc, &update, &tools.marks)?;
    let (_tree, update) = left.unwrap();
    Ok(update)
}

/// The update before the first byte.
pub fn first_update<'m>(
    alloc: Global,
    table: &Table,
    trees: &[PathTree<'m>],
    lefts: &[PathTree<'m>],
    tools: &mut RowTools<'m>,
) -> Result<Update, Memory>
    requires left { (k : AreStatesLeft tools.old.workspace table.now lefts.now)
        × AreStateTrees tools.old.workspace k.determined.shapes trees.now }
    requires long { length tools.old.marks ≡ length tools.old.workspace.nodes }
    ensures first { IfOk result (λ u. (k : AreStatesLeft tools.old.workspace table.now lefts.now)
        → AreStateTrees tools.old.workspace k.determined.shapes trees.now
        → IsBestStart tools.old.workspace table.now k.left.states u) }
    ensures workspace { tools.new.workspace ≡ tools.old.workspace }
    ensures long { length tools.new.marks ≡ length tools.old.marks }
{
    mark_leaves(&lefts[0], &mut tools.marks);
    let left = trees[0].restricted(alloc, table.initial(), &tools.marks)?;
    let (_tree, update) = left.unwrap();
    Ok(update)
}

// The transition of a state on a class.
fn transition_on<'m>(
    alloc: Global,
    table: &Table,
    lefts: &[PathTree<'m>],
    state: u32,
    class: u8,
    tools: &mut RowTools<'m>,
) -> Result<Option<Transition>, Memory>
    requires left { AreStatesLeft tools.old.workspace table.now lefts.now }
    requires state { state < length table.now.states }
    requires class { class < class_count table.now.classes }
    requires long { length tools.old.marks ≡ length tools.old.workspace.nodes }
    ensures does { IfOk result (λ r. WhereLeft tools.old.workspace table.now lefts.now state
        (λ states s. (b : ℕ) → b < 256 → class_at table.now.classes b ≡ class
        → DoesBest tools.old.workspace states s b r)) }
    ensures workspace { tools.new.workspace ≡ tools.old.workspace }
    ensures long { length tools.new.marks ≡ length tools.old.marks }
{
    let Some((target, _update)) = table.next(state, class) else {
        return Ok(None);
    };
    let to = &lefts[target as usize];
    let update = update_to(alloc, &lefts[state as usize], class, to, tools)?;
    let update = tools.updates.share(update)?;
    Ok(Some(Transition { target, update }))
}

// The transitions of a state, by class.
fn transitions_of<'m>(
    alloc: Global,
    table: &Table,
    lefts: &[PathTree<'m>],
    state: u32,
    tools: &mut RowTools<'m>,
) -> Result<Fan, Memory>
    requires left { AreStatesLeft tools.old.workspace table.now lefts.now }
    requires state { state < length table.now.states }
    requires long { length tools.old.marks ≡ length tools.old.workspace.nodes }
    ensures does { IfOk result (λ go. WhereLeft tools.old.workspace table.now lefts.now state
        (λ states s. AreBestTo tools.old.workspace (class_count table.now.classes)
        table.now.classes states s go)) }
    ensures workspace { tools.new.workspace ≡ tools.old.workspace }
    ensures long { length tools.new.marks ≡ length tools.old.marks }
{
    let classes = table.partition().classes();
    let mut go = Fan::with_capacity(alloc, classes)?;
    for class in 0..classes {
        let transition = transition_on(alloc, table, lefts, state, class as u8, tools)?;
        go.push(transition)?;
    }
    Ok(go)
}

// The state of a tree, with its transitions.
fn state_of(alloc: Global, machine: &Trimmed, left: &PathTree, go: Fan) -> Result<State, Memory>
    requires { left.now.machine ≡ machine.now }
    ensures { IfOk result (λ row. (s : Shape ℕ) → IsOfShape left.now s
        → IsRowWith machine.now s go row) }
{
    let shape = left.shape();
    let accepting = way_to_end(alloc, machine.nodes(), shape, left.leaves())?;
    let registers = shape.len() - 1;
    Ok(State::new(registers as u32, accepting, go))
}

/// The rows of all states.
pub fn rows_of<'m>(
    alloc: Global,
    machine: &Trimmed,
    table: &Table,
    lefts: &[PathTree<'m>],
    tools: &mut RowTools<'m>,
) -> Result<Vec<State>, Memory>
    requires machine { tools.old.workspace ≡ machine.now }
    requires left { AreStatesLeft machine.now table.now lefts.now }
    requires long { length tools.old.marks ≡ length machine.now.nodes }
    ensures rows { IfOk result (λ rows. (k : AreStatesLeft machine.now table.now lefts.now)
        → AreBestRowsTo machine.now (length table.now.states) table.now.classes k.left.states
        rows.items) }
{
    let count = table.states().len();
    let mut rows = Vec::with_capacity(alloc, count)?;
    for state in 0..count {
        let go = transitions_of(alloc, table, lefts, state as u32, tools)?;
        let row = state_of(alloc, machine, &lefts[state], go)?;
        rows.push(row)?;
    }
    Ok(rows)
}
