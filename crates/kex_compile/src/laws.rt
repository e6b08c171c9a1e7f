// Laws of compiling: what a text is answered isn't changed by the numbers that the nodes, names and
// registers of its programs have.

ghost use Rattle.std.specs.Prelude.{◌≡◌, ◌↔◌, ℕ, List};
ghost use Rattle.kex_model.specs.Programs.{Grammar};
ghost use Rattle.kex_reader.specs.Spelling.{Spells};
ghost use Rattle.kex_compile.specs.Stages.{HaveInAll, HaveStatesInAll, Plans, roots_of};
ghost use Rattle.kex_compile.specs.Compiled.{Accepts, AnswersAlike, HasAnswers, IsCompiled};
ghost use Rattle.kex_compile.specs.Compiled.{IsRefused, MeansAlike};

use crate::limits::Limits;
use crate::refusal::CompileRefusal;
use kex_reader::laws as reader;
use kex_regexp::laws as regexp;
use kex_tokens::laws as tokens;

/// Besides want of memory a text that is accepted has no refusal.
pub fn accepted()
    ensures { (limits : Limits) (text : List ℕ) (P : Grammar) (e : CompileRefusal)
        → Accepts limits text P → IsRefused limits text e → e ≡ CompileRefusal.Memory }
{
    tokens::one_cut();
    tokens::one_value();
    regexp::one_tree();
    reader::one_tree();
    reader::one_refusal()
}

/// Besides want of memory a text has at most one refusal.
pub fn refused()
    ensures { (limits : Limits) (text : List ℕ) (d e : CompileRefusal)
        → (d ≡ CompileRefusal.Memory → ⊥) → (e ≡ CompileRefusal.Memory → ⊥)
        → IsRefused limits text d → IsRefused limits text e → d ≡ e }
{
    tokens::one_cut();
    tokens::one_value();
    regexp::one_tree();
    reader::one_tree();
    reader::one_refusal()
}

/// If one program of a text is accepted, all are. They have as many places and as many states, and
/// answer alike: stage by stage in what they mean, and so do their pipelines, in what they write
/// and report on an input, open or ended.
pub fn meant()
    ensures accepted { (limits : Limits) (text : List ℕ) (P Q : Grammar) → Accepts limits text P
        → Spells text Q → Accepts limits text Q }
    ensures places { (limits : Limits) (text : List ℕ) (P Q : Grammar) (total : ℕ)
        → Accepts limits text P → Spells text Q → HaveInAll P (roots_of P) total
        ↔ HaveInAll Q (roots_of Q) total }
    ensures states { (limits : Limits) (text : List ℕ) (P Q : Grammar) (total : ℕ)
        → Accepts limits text P → Spells text Q → HaveStatesInAll P (roots_of P) total
        ↔ HaveStatesInAll Q (roots_of Q) total }
    ensures stages { (limits : Limits) (text : List ℕ) (P Q : Grammar) → Accepts limits text P
        → Spells text Q → MeansAlike P Q }
    ensures pipelines { (limits : Limits) (text : List ℕ) (P Q : Grammar) → Accepts limits text P
        → Spells text Q → AnswersAlike P Q }
{
    tokens::one_cut();
    tokens::one_value();
    regexp::one_tree();
    reader::one_tree()
}

/// On each input, open or ended and within whatever limit, there is an answer of the program that a
/// text is compiled as.
pub fn answered()
    ensures { (limits : Limits) (text : List ℕ) (plans : Plans) (is : IsCompiled limits text plans)
        → HasAnswers is.program }
{}
