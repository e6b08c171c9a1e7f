// Laws of summaries. Each function's contract is a law.

ghost use Rattle.std.specs.Prelude.{◌≡◌, ℕ, List};
ghost use Rattle.kex_sst.specs.Summaries.{Sum, Determined, DoesAsSaid, IsCopyless, IsSumInRange};
ghost use Rattle.kex_sst.specs.Summaries.{then_sum};
ghost use Rattle.kex_sst.specs.Tables.{Transducer};

/// The summary of two texts, one after the other, is determined by theirs, and putting summaries
/// one after another is associative.
pub fn join()
    ensures determined { (t : Transducer) (x y : List ℕ) → Determined t x y }
    ensures associative { (a b c : Sum)
        → then_sum (then_sum a b) c ≡ then_sum a (then_sum b c) }
{}

/// Along a text the table does what the text's summary says of its state.
pub fn say()
    ensures { (t : Transducer) (x : List ℕ) → DoesAsSaid t x }
{}

/// Each register of a state comes at most once in the update of its entry.
pub fn are_copyless()
    ensures { (t : Transducer) (x : List ℕ) → IsCopyless t x }
{}

/// Each entry stops before the end of the text, or leads to a state of the table by an update that
/// reads no byte.
pub fn are_in_range()
    ensures { (t : Transducer) (x : List ℕ) → IsSumInRange t x }
{}
