// Laws of what is best. Each function's contract is a law.

ghost use Rattle.std.specs.Prelude.{ℕ, List};
ghost use Rattle.kex_machine.specs.Nodes.{Graph, IsMachineInRange, IsTrimmed};
ghost use Rattle.kex_machine.specs.Covering.{BestAnswersStand, BestByUncovered, BestGrows};
ghost use Rattle.kex_machine.specs.Covering.{FirstLeads, UncoveredComes};

/// Where a text and what follows it have a parse, its greedy code begins with the code of the first
/// survivor of the text from which what follows leads to the end.
pub fn first_leads()
    ensures { (g : Graph) (w x : List ℕ) → IsMachineInRange g.start g.nodes g.registers
        → IsTrimmed g → FirstLeads g w x }
{}

/// The best code of a text is the longest common prefix of the codes of the survivors that aren't
/// covered.
pub fn best_by_uncovered()
    ensures { (g : Graph) (w : List ℕ) → IsMachineInRange g.start g.nodes g.registers
        → IsTrimmed g → BestByUncovered g w }
{}

/// A survivor of a longer text that isn't covered comes from one of the shorter text that isn't.
pub fn uncovered_comes()
    ensures { (g : Graph) (w : List ℕ) (b : ℕ) → IsMachineInRange g.start g.nodes g.registers
        → IsTrimmed g → UncoveredComes g w b }
{}

/// What is best of a text grows with it, up to the greedy code; so does what is said, up to the
/// meaning.
pub fn best_grows()
    ensures { (g : Graph) (w v : List ℕ) → IsMachineInRange g.start g.nodes g.registers
        → IsTrimmed g → BestGrows g w v }
{}

/// The answers of a stage that says what is best: one on each text, with a text that grows and a
/// stop that stays.
pub fn best_answers_stand()
    ensures { (g : Graph) (limit : ℕ) → BestAnswersStand g limit }
{}
