// Laws of what tables pass on. Each function's contract is a law, or an example worked by hand.

ghost use Rattle.std.specs.Prelude.{◌≡◌, ℕ, List, [], ◌∷◌, Some, None};
ghost use Rattle.kex_code.specs.declared.symbol.Symbol.TheVariants.{L, R, Byte};
ghost use Rattle.kex_sst.specs.Laws.{ByClass, PassesOn};
ghost use Rattle.kex_sst.specs.Passes.{passes, whole_code};
ghost use Rattle.kex_sst.specs.Tables.{Transducer};
ghost use Rattle.kex_sst.specs.Worked.{many_a, sides};

/// The transitions of a state are those on the classes of bytes.
pub fn by_class()
    ensures { (t : Transducer) (state : ℕ) → ByClass t state }
{}

/// A text is passed on byte by byte, and each state that it leads to has as many registers as it
/// says.
pub fn passes_on()
    ensures { (t : Transducer) (w v : List ℕ) → PassesOn t w v }
{}

/// Along `aa` the table of `/a*/` passes on each byte with the choice before it, and at the end the
/// last choice.
pub fn worked()
    ensures along { passes many_a (97 ∷ 97 ∷ [])
        ≡ Some (record { state = 0; code = L ∷ Byte 97 ∷ L ∷ Byte 97 ∷ []; registers = sides }) }
    ensures at_end { whole_code many_a
        (record { state = 0; code = L ∷ Byte 97 ∷ []; registers = sides })
        ≡ Some (L ∷ Byte 97 ∷ R ∷ []) }
    ensures past { passes many_a (97 ∷ 98 ∷ []) ≡ None }
{}
