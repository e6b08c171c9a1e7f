// What holds of lines and of the answers to them.

ghost use Rattle.std.specs.Prelude.{ℕ, List, Bool};
ghost use Rattle.kex_each.specs.Laws.{BeginsLines, ByPieces, IsKeptEnough};

/// The lines of a text are those of its pieces, however it is cut.
pub fn by_pieces()
    ensures { (line v u : List ℕ) → ByPieces line v u }
{}

/// The whole lines of a front of a text are its first lines.
pub fn begins_lines()
    ensures { (v u : List ℕ) (e : Bool) → BeginsLines v u e }
{}

/// The answer to a line rests on no byte past the one after the limit.
pub fn kept_is_enough()
    ensures { IsKeptEnough }
{}
