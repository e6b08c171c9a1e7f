// Laws of how path trees go on. Each function's contract is a law.

ghost use Rattle.std.specs.Prelude.{ℕ, List};
ghost use Rattle.kex_model.specs.Labelled.{Shape};
ghost use Rattle.kex_machine.specs.Nodes.{Graph};
ghost use Rattle.kex_paths.specs.Laws.{Determines, DeterminesFirst, OneShape};

/// Shape and byte determine the update; its lists are in order, and no old register is twice in it.
pub fn determined()
    ensures { (g : Graph) (b : ℕ) (s : Shape ℕ) → Determines g b s }
{}

/// The update before the first byte is determined, and has symbols alone.
pub fn begun()
    ensures { (g : Graph) → DeterminesFirst g }
{}

/// A text has one shape.
pub fn one_shape()
    ensures { (g : Graph) (w : List ℕ) → OneShape g w }
{}
