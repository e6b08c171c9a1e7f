// Laws of programs: what words spell and where they go wrong, and why a text is refused, is one
// thing; and what nothing spare means.

ghost use Rattle.std.specs.Prelude.{◌≡◌, ◌<◌, ℕ, List, length};
ghost use Rattle.kex_model.specs.Programs.{Grammar, IsInOrder};
ghost use Rattle.kex_reader.specs.Programs.{IsFirstWrong, IsProgram};
ghost use Rattle.kex_reader.specs.Reach.{IsReached};
ghost use Rattle.kex_reader.specs.Spelling.{IsRefusedAs, Spells};
ghost use Rattle.kex_reader.specs.Syntax.{Program, Word, program};
ghost use Rattle.kex_reader.specs.Uses.{NoneSpare};

use crate::refusal::ReadRefusal;
use kex_tokens::laws::one_cut;

/// Words spell at most one tree, or have one first wrong word, and not both.
pub fn one_tree()
    ensures tree { (p q : Program) → program p ≡ program q → p ≡ q }
    ensures wrong { (ws : List Word) (j k : ℕ) → IsFirstWrong ws j → IsFirstWrong ws k → j ≡ k }
    ensures either { (ws : List Word) (k : ℕ) → IsProgram ws → IsFirstWrong ws k → ⊥ }
{}

/// Besides want of memory a text has at most one refusal, and none if it spells a program.
pub fn one_refusal()
    ensures refusal { (text : List ℕ) (d e : ReadRefusal) → (d ≡ ReadRefusal.Memory → ⊥)
        → (e ≡ ReadRefusal.Memory → ⊥) → IsRefusedAs text d → IsRefusedAs text e → d ≡ e }
    ensures either { (text : List ℕ) (P : Grammar) (e : ReadRefusal) → (e ≡ ReadRefusal.Memory → ⊥)
        → Spells text P → IsRefusedAs text e → ⊥ }
{
    one_cut()
}

/// Of a program in which nothing is spare a definition reaches each node.
pub fn all_reached()
    ensures { (P : Grammar) → IsInOrder P.nodes → NoneSpare P → (n : ℕ) → n < length P.nodes
        → IsReached P n }
{}
