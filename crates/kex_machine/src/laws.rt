// Laws of the definitions over nodes. Each function's contract is a law.

ghost use Rattle.std.specs.Prelude.{ℕ, List};
ghost use Rattle.kex_machine.specs.Nodes.{Graph};
ghost use Rattle.kex_machine.specs.Laws.{MachineAnswersStand, RunsGrow, OneLeft, OneRunPath};
ghost use Rattle.kex_machine.specs.Laws.{RunsHavePaths};

/// Of two paths on one text neither code is a proper prefix of the other, and equal codes are of
/// equal paths.
pub fn one_path()
    ensures { (g : Graph) → OneRunPath g }
{}

/// A text that has a run to the end has a path to it.
pub fn runs_have_paths()
    ensures { (g : Graph) → RunsHavePaths g }
{}

/// What a run leaves with a list of symbols doesn't depend on the run.
pub fn one_left()
    ensures { (g : Graph) → OneLeft g }
{}

/// What is agreed and what is said grow with the text, up to the greedy code and the meaning.
pub fn answers_grow()
    ensures { (g : Graph) (w v : List ℕ) → RunsGrow g w v }
{}

/// A stage's answers over nodes: one on each text, with a text that grows and a stop that stays.
pub fn answers_stand()
    ensures { (g : Graph) (limit : ℕ) → MachineAnswersStand g limit }
{}
