// Laws of bodies: what bytes spell, and where they go wrong, is one thing; nodes that are added
// name nothing.

ghost use Rattle.std.specs.Prelude.{◌≡◌, ℕ, List};
ghost use Rattle.kex_code.specs.Codes.{IsAmong};
ghost use Rattle.kex_model.specs.Programs.{HasNames};
ghost use Rattle.kex_model.specs.declared.program.Node.{Node};
ghost use Rattle.kex_regexp.specs.Bodies.{IsBody, IsFirstWrong, SpellsRegex};
ghost use Rattle.kex_regexp.specs.Grammar.{Regex};
ghost use Rattle.kex_regexp.specs.Shown.{Adds, ShowsRegex};

/// Bytes spell at most one tree, or have one first wrong byte, and not both.
pub fn one_tree()
    ensures tree { (bytes : List ℕ) (r q : Regex) → SpellsRegex r bytes → SpellsRegex q bytes
        → r ≡ q }
    ensures wrong { (bytes : List ℕ) (j k : ℕ) → IsFirstWrong bytes j → IsFirstWrong bytes k
        → j ≡ k }
    ensures either { (bytes : List ℕ) (k : ℕ) → IsBody bytes → IsFirstWrong bytes k → ⊥ }
{}

/// What a node shows it shows still when nodes are added; and what was in range before nodes were
/// added is so after it.
pub fn adding()
    ensures shows { (r : Regex) (old new : List Node) (n at : ℕ) → Adds old new
        → ShowsRegex r old n at → ShowsRegex r new n at }
    ensures names { (old new : List Node) (names registers : ℕ) → Adds old new
        → ((n : Node) → IsAmong old n → HasNames names registers n.kind) → (n : Node)
        → IsAmong new n → HasNames names registers n.kind }
{}
