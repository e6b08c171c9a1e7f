// The questions that were asked, each with its answer: so each is worked out once.

ghost use Rattle.std.specs.Prelude.{◌≡◌, ◌<◌, ◌∷◌, [], OnOk, IfOk, IfErr, MatchBool};
ghost use Rattle.kex_cover.specs.Keeping.{AreQuestionsKept, HasPairsUpTo};
ghost use Rattle.kex_cover.specs.Pairs.{HasMorePairs, IsCoveredBy, IsUncoveredBy};
ghost use Rattle.kex_cover.specs.Searches.{AreWaiting, RefusesPairs};

use crate::fault::CoverFault;
use crate::met_sets::MetSets;
use crate::numbers::number;
use crate::pairs::Pairs;
use crate::search::search;
use indexmap::IndexSet;
use kex_code::memory::Memory;
use kex_machine::Trimmed;
use std::alloc::Global;

/// How many sets stay from one search to the next, for each pair that is allowed.
const SETS_A_PAIR: usize = 4;

/// How many places the questions hold that stay, for each pair that is allowed.
const PLACES_A_PAIR: usize = 256;

/// Whether places of a machine are covered by others: each question that was asked, with its
/// answer, and what the searches share.
///
/// Where much is held all is forgotten, so the memory goes by the pairs that are allowed.
#[derive(Drop)]
pub struct Questions {
    pub alloc: Global,
    pub asked: IndexSet<Vec<u32>>,
    pub answers: Vec<bool>,
    pub held: usize,
    pub sets: MetSets,
    pub pairs: Pairs,
}

// A question in one list: a place, and those before it.
fn question(alloc: Global, leaf: u32, before: &[u32]) -> Result<Vec<u32>, Memory>
    ensures { IfOk result (λ question. question.items ≡ leaf ∷ before.now) }
{
    let mut question = Vec::with_capacity(alloc, before.len() + 1)?;
    question.push(leaf)?;
    question.extend_from_slice(before)?;
    Ok(question)
}

impl Questions {
    /// Nothing was asked. No test may have more pairs than `most`.
    pub fn new(alloc: Global, machine: &Trimmed, most: u32) -> Result<Questions, Memory>
        ensures kept { IfOk result (λ questions. AreQuestionsKept machine.now questions) }
        ensures most { IfOk result (λ questions. questions.pairs.most ≡ most) }
    {
        let sets = MetSets::new(alloc, machine)?;
        Ok(Questions {
            alloc,
            asked: IndexSet::new(alloc),
            answers: Vec::new(alloc),
            held: 0,
            sets,
            pairs: Pairs::new(alloc, most),
        })
    }

    // Forgets the questions, where they hold too much.
    fn bound(&mut self, machine: &Trimmed)
        requires { AreQuestionsKept machine.now self.old }
        ensures kept { AreQuestionsKept machine.now self.new }
        ensures most { self.new.pairs ≡ self.old.pairs }
    {
        if self.held / PLACES_A_PAIR <= self.pairs.most as usize {
            return;
        }
        self.asked.clear();
        self.answers.clear();
        self.held = 0;
    }

    /// Whether a place is covered by those before it, as `covered` tells.
    pub fn ask(&mut self, machine: &Trimmed, leaf: u32, before: &[u32]) -> Result<bool, CoverFault>
        requires few { self.old.pairs.most < 4294967295 }
        requires leaf { AreWaiting machine.now (leaf ∷ []) }
        requires before { AreWaiting machine.now before.now }
        requires kept { AreQuestionsKept machine.now self.old }
        ensures tells { IfOk result (λ yes. MatchBool yes (IsCoveredBy machine.now leaf before.now)
            (IsUncoveredBy machine.now leaf before.now)) }
        ensures count { OnOk result (HasPairsUpTo machine.now self.old.pairs.most leaf
            before.now) }
        ensures kept { OnOk result (AreQuestionsKept machine.now self.new) }
        ensures most { OnOk result (self.new.pairs.most ≡ self.old.pairs.most) }
        ensures refused { IfErr result (RefusesPairs self.old.pairs.most
            (HasMorePairs machine.now leaf before.now self.old.pairs.most)) }
    {
        self.bound(machine);
        self.sets
            .bound(machine, self.pairs.most as usize * SETS_A_PAIR);
        let question = question(self.alloc, leaf, before)?;
        let (index, _) = number(&mut self.asked, question)?;
        if index < self.answers.len() {
            return Ok(self.answers[index]);
        }
        let yes = search(machine, leaf, before, &mut self.sets, &mut self.pairs)?;
        self.answers.push(yes)?;
        self.held = self.held.saturating_add(before.len());
        Ok(yes)
    }
}
