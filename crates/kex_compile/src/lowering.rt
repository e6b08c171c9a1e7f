// The stages of a program become machines, one after the other.

ghost use Rattle.std.specs.Prelude.{◌≡◌, ℕ, ◌+◌, ◌^◌, ◌<◌, ◌++◌, ◌∷◌, [], List, MatchOption, OnOk};
ghost use Rattle.std.specs.Prelude.{None, length};
ghost use Rattle.kex_code.specs.Codes.{HasNumber, IsAmong};
ghost use Rattle.kex_model.specs.Programs.{Grammar};
ghost use Rattle.kex_compile.specs.Stages.{AreLowered, HasEachMachine, roots_of};

use crate::firsts::Firsts;
use crate::lowered::Lowered;
use kex_code::memory::Memory;
use kex_lowering::stage_machine;
use kex_model::program::Program;
use kex_plan::common::Common;
use std::alloc::Global;

/// How many places a stage may have.
const MOST_PLACES: u32 = 1_048_576;

/// The nodes where the stages so far begin, the first of them that each rule refuses, and where
/// none is refused their machines.
#[derive(Drop)]
pub(crate) struct Lowering {
    pub(crate) roots: Vec<u32>,
    pub(crate) firsts: Firsts,
    pub(crate) lowered: Lowered,
}

// The number of a stage that begins at the node, if one does.
fn find_root(roots: &[u32], root: u32) -> Option<usize>
    ensures { MatchOption result (IsAmong roots.now root → ⊥)
        (λ i. HasNumber roots.now root i) }
{
    roots.iter().position(|r| *r == root)
}

impl Lowering {
    pub(crate) fn new(alloc: Global) -> Lowering
        ensures roots { result.roots.items ≡ [] }
        ensures firsts { result.firsts ≡ record { too_many_places = None; no_text = None } }
        ensures lowered { result.lowered ≡ record { machines = []; counts = []; places = 0 } }
    {
        Lowering {
            roots: Vec::new(alloc),
            firsts: Firsts::new(),
            lowered: Lowered::new(alloc),
        }
    }

    // Lowers one stage more, which begins where none before it does.
    fn lower(&mut self, alloc: Global, program: &Program, root: u32) -> Result<(), Memory>
        requires few { length self.old.roots.items + 1 < 2 ^ 32 }
        requires each { HasEachMachine self.old.roots.items self.old.firsts self.old.lowered }
        ensures roots { self.new.roots ≡ self.old.roots }
        ensures each { OnOk result (HasEachMachine (self.old.roots.items ++ root ∷ [])
            self.new.firsts self.new.lowered) }
        ensures lowered { (behind : List ℕ)
            → roots_of program.now ≡ self.old.roots.items ++ root ∷ behind
            → (IsAmong self.old.roots.items root → ⊥)
            → AreLowered program.now self.old.roots.items self.old.firsts self.old.lowered
            → OnOk result (AreLowered program.now (self.old.roots.items ++ root ∷ [])
            self.new.firsts self.new.lowered) }
    {
        let stage = self.roots.len() as u32 + 1;
        match stage_machine(alloc, program, root, stage, MOST_PLACES) {
            Ok(made) => {
                if self.firsts.least().is_some() {
                    return Ok(());
                }
                let machine = Common::new(alloc, made.machine)?;
                self.lowered.push(machine, made.places)
            }
            Err(why) => self.firsts.note(why, stage),
        }
    }

    // One stage more, which is the same as an earlier one.
    fn share(&mut self, earlier: usize) -> Result<(), Memory>
        requires few { length self.old.roots.items + 1 < 2 ^ 32 }
        requires earlier { earlier < length self.old.roots.items }
        requires each { HasEachMachine self.old.roots.items self.old.firsts self.old.lowered }
        ensures roots { self.new.roots ≡ self.old.roots }
        ensures each { (root : ℕ) → OnOk result
            (HasEachMachine (self.old.roots.items ++ root ∷ []) self.new.firsts
            self.new.lowered) }
        ensures lowered { (P : Grammar) (root : ℕ) → HasNumber self.old.roots.items root earlier
            → AreLowered P self.old.roots.items self.old.firsts self.old.lowered
            → OnOk result (AreLowered P (self.old.roots.items ++ root ∷ []) self.new.firsts
            self.new.lowered) }
    {
        if self.firsts.least().is_some() {
            return Ok(());
        }
        self.lowered.push_again(earlier)
    }

    /// One stage more, which begins at the node. Stages that begin at one node have one machine.
    pub(crate) fn add(&mut self, alloc: Global, program: &Program, root: u32) -> Result<(), Memory>
        requires few { length self.old.roots.items + 1 < 2 ^ 32 }
        requires each { HasEachMachine self.old.roots.items self.old.firsts self.old.lowered }
        ensures roots { OnOk result
            (self.new.roots.items ≡ self.old.roots.items ++ root ∷ []) }
        ensures each { OnOk result (HasEachMachine (self.old.roots.items ++ root ∷ [])
            self.new.firsts self.new.lowered) }
        ensures lowered { (behind : List ℕ)
            → roots_of program.now ≡ self.old.roots.items ++ root ∷ behind
            → AreLowered program.now self.old.roots.items self.old.firsts self.old.lowered
            → OnOk result (AreLowered program.now (self.old.roots.items ++ root ∷ [])
            self.new.firsts self.new.lowered) }
    {
        match find_root(&self.roots, root) {
            Some(earlier) => self.share(earlier)?,
            None => self.lower(alloc, program, root)?,
        }
        self.roots.push(root)?;
        Ok(())
    }
}
