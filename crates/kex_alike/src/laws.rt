// That how much is asked of a stage's machine is said of the stage. Each function's contract is a
// law.

ghost use Rattle.kex_alike.specs.StageTests.{MachinesAskAlike, MachinesAskAsTheirStage};

/// A stage has too many pairs exactly where its machine has, and not where each test of the machine
/// keeps within what is allowed.
pub fn machines_ask_as_their_stage()
    ensures { MachinesAskAsTheirStage }
{}

/// So it is the same whichever of its machines is taken.
pub fn pairs_of_a_stage()
    ensures { MachinesAskAlike }
{}
