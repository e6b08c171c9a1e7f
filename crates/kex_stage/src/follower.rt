// A runner of a table, and what was learnt of the table and the actor.

ghost use Rattle.std.specs.Prelude.{◌≡◌, [], false, IfOk, IsTrue};
ghost use Rattle.kex_runner.specs.Running.{IsRunOf};

use kex_code::memory::Memory;
use kex_machine::Trimmed;
use kex_moves::moves::Moves;
use kex_moves::phrases::Phrases;
use kex_plan::route::Route;
use kex_runner::runner::Runner;
use kex_script::piece::ByteWord;
use kex_sst::table::Table;
use std::alloc::Global;

/// A runner of a table; what was learnt of the table and the actor, by which both go on at once
/// where no registers are; and what was learnt of the runner's words, by which the actor performs
/// what is passed on where there are some.
#[derive(Drop)]
pub struct Follower<'p> {
    pub runner: Runner<'p>,
    pub moves: Moves<'p>,
    pub phrases: Phrases<'p>,
    // What was passed on last.
    pub pieces: Vec<ByteWord>,
    pub table: &'p Table,
    pub alloc: Global,
    pub machine: &'p Trimmed,
    ghost same_words: { phrases.words ≡ runner.words },
    ghost same_machine: { phrases.machine ≡ moves.machine },
    ghost same_table: { moves.table ≡ runner.table },
    ghost own_table: { table.now ≡ runner.table },
    ghost own_machine: { machine.now ≡ moves.machine },
}

impl<'p> Follower<'p> {
    /// At the start of a table, where nothing is learnt.
    pub fn new(
        alloc: Global,
        route: &Route<'p>,
        machine: &'p Trimmed,
    ) -> Result<Follower<'p>, Memory>
        ensures tables { IfOk result (λ f. (f.runner.table ≡ route.now)
            × (f.moves.table ≡ route.now)) }
        ensures machine { IfOk result (λ f. f.moves.machine ≡ machine.now) }
        ensures stands { IfOk result (λ f. IsRunOf f.runner [] []) }
        ensures usable { IfOk result (λ f. (IsTrue f.runner.usable) × (f.runner.ended ≡ false)
            × (f.runner.read ≡ 0)) }
    {
        let runner = route.runner(alloc)?;
        let phrases = Phrases::new(alloc, runner.words(), machine)?;
        let moves = Moves::new(alloc, route.table(), machine)?;
        Ok(Follower {
            runner,
            moves,
            phrases,
            pieces: Vec::new(alloc),
            table: route.table(),
            alloc,
            machine,
        })
    }
}
