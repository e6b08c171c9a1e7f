// The code on which a machine's paths agree.

ghost use Rattle.std.specs.Prelude.{◌≡◌, ◌<◌, ◌++◌, ℕ, List, false, IfOk, IfSome, OnOk, IsTrue};
ghost use Rattle.std.specs.Prelude.{IsOk, ◌↔◌, length};
ghost use Rattle.kex_code.specs.declared.symbol.Symbol.{Symbol};
ghost use Rattle.kex_code.specs.Texts.{text_of};
ghost use Rattle.kex_machine.specs.Answers.{IsSaid, IsViableFor};
ghost use Rattle.kex_machine.specs.Nodes.{Graph};
ghost use Rattle.kex_frontier.specs.Frontiers.{IsFed, IsOver};
ghost use Rattle.kex_frontier.specs.declared.frontier.Ended.{Ended};
ghost use Rattle.kex_single.specs.Standing.{MachineGoesOn, given_of, is_parsed};
ghost use Rattle.kex_single.specs.Told.{TellsLast, TellsMore};
ghost use Rattle.kex_single.specs.declared.code_oracle.CodeOracle.{CodeOracle};

use kex_code::memory::Memory;
use kex_code::text::write_text;
use kex_frontier::frontier::{Ended, Fed, Frontier};

// Feeds the oracle, up to the number of the byte with which no parse begins.
fn read(oracle: &mut Frontier, piece: &[u8]) -> Result<Option<usize>, Memory>
    requires usable { IsTrue oracle.old.usable }
    requires open { oracle.old.ended ≡ false }
    ensures reads { IfOk result (λ bad. (w : List ℕ) (c : List Symbol) → IsFed oracle.old w c
        → IsViableFor oracle.old.machine w
        → MachineGoesOn oracle.old.machine w piece.now bad
        × IsFed oracle.new (given_of w piece.now bad) c) }
    ensures within { IfOk result (λ bad. IfSome bad (λ k. k < length piece.now)) }
    ensures machine { oracle.new.machine ≡ oracle.old.machine }
    ensures usable { IsTrue oracle.new.usable ↔ IsOk result }
    ensures open { oracle.new.ended ≡ false }
{
    for i in 0..piece.len() {
        match oracle.feed(piece[i]) {
            Ok(Fed::On) => {}
            Ok(Fed::Dead) => return Ok(Some(i)),
            Err(Memory) => return Err(Memory),
        }
    }
    Ok(None)
}

// Writes the text of what is agreed and wasn't written yet.
fn write_agreed(oracle: &mut Frontier, out: &mut Vec<u8>) -> Result<(), Memory>
    requires { IsTrue oracle.old.usable }
    ensures written { OnOk result (out.new.items ≡ out.old.items ++ text_of oracle.old.untaken) }
    ensures fed { (w : List ℕ) (c : List Symbol) → IsFed oracle.old w c
        → IsFed oracle.new w (c ++ oracle.old.untaken)
        × IsSaid oracle.old.machine w (c ++ oracle.old.untaken) }
    ensures over { (answer : Ended) (w : List ℕ) (c : List Symbol) → IsOver answer oracle.old w c
        → IsOver answer oracle.new w (c ++ oracle.old.untaken) }
    ensures machine { oracle.new.machine ≡ oracle.old.machine }
    ensures usable { IsTrue oracle.new.usable }
    ensures open { oracle.new.ended ≡ oracle.old.ended }
{
    let code = oracle.take_code();
    write_text(code.as_slice(), out)
}

// Whether the end has found a parse.
fn is_parsed(ended: Ended) -> bool
    ensures { result ≡ is_parsed ended }
{
    match ended {
        Ended::Parsed => true,
        Ended::Cut => false,
    }
}

/// Feeds a frontier, and writes the text of what is agreed. Tells the number of the byte with which
/// no parse begins, if there is one.
pub fn go_on(
    oracle: &mut Frontier,
    piece: &[u8],
    out: &mut Vec<u8>,
) -> Result<Option<usize>, Memory>
    requires usable { IsTrue oracle.old.usable }
    requires open { oracle.old.ended ≡ false }
    ensures tells { IfOk result (λ bad. (g : Graph) (w : List ℕ) (c : List Symbol)
        → oracle.old.machine ≡ g → IsFed oracle.old w c → IsViableFor g w
        → TellsMore g (CodeOracle.Paths oracle.new) w piece.now bad c out.old.items
        out.new.items) }
    ensures within { IfOk result (λ bad. IfSome bad (λ k. k < length piece.now)) }
    ensures usable { OnOk result (IsTrue oracle.new.usable × (oracle.new.ended ≡ false)) }
{
    let bad = read(oracle, piece)?;
    write_agreed(oracle, out)?;
    Ok(bad)
}

/// Takes the end, and writes the text of the rest. Tells whether the bytes have a parse.
pub fn finish(oracle: &mut Frontier, out: &mut Vec<u8>) -> Result<bool, Memory>
    requires usable { IsTrue oracle.old.usable }
    requires open { oracle.old.ended ≡ false }
    ensures tells { IfOk result (λ parsed. (g : Graph) (w : List ℕ) (c : List Symbol)
        → oracle.old.machine ≡ g → IsFed oracle.old w c → IsViableFor g w
        → TellsLast g w parsed c out.old.items out.new.items) }
    ensures machine { oracle.new.machine ≡ oracle.old.machine }
{
    let ended = oracle.end()?;
    write_agreed(oracle, out)?;
    Ok(is_parsed(ended))
}
