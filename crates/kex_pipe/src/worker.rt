// What a stage does with the bytes that its limit lets through.

ghost use Rattle.std.specs.Prelude.{◌≡◌, ◌+◌, ◌<◌, ◌≤◌, ◌^◌, [], ℕ, Bool, List, Option, None, IfOk};
ghost use Rattle.std.specs.Prelude.{OnOk, OnErr, IsTrue, length};
ghost use Rattle.kex_model.specs.Answers.{Answer};

use kex_code::memory::Memory;
use std::alloc::Global;

/// What works in a stage: it is given bytes that the stage's limit lets through, until one stops
/// it, and then their end.
///
/// What it says of texts is its own: `Bounded` makes a stage of any that `answers`.
pub trait Worker {
    ghost use Rattle.kex_pipe.specs.Working.{Answering, CameToEnd, ReadMore};

    /// What it is made of.
    type Basis;

    /// What it works by, which no call changes.
    ghost Machine: { Type 0 };

    ghost machine_in: { Self.Basis → Machine };

    ghost machine: { Self → Machine };

    /// On these bytes this text is said; they can go on, or stop it at the byte of this number.
    ghost says: { Machine → List ℕ → Option ℕ → List ℕ → Type 0 };

    /// At the end of these bytes this text is written; at true they have a parse.
    ghost closes: { Machine → List ℕ → Bool → List ℕ → Type 0 };

    /// The answer within a limit on a text, open or, at true, ended.
    ghost gives: { Machine → ℕ → List ℕ → Bool → Answer → Type 0 };

    /// It was given these bytes, which can go on, and has written this text.
    ghost follows: { Self → List ℕ → List ℕ → Type 0 };

    /// No byte has stopped it, the end hasn't come, and no call has wanted memory.
    ghost is_ready: { Self → Bool };

    /// How many bytes it counts at most.
    ghost counted: { Self → ℕ };

    /// Whether a call may want memory once it is made.
    ghost may_want: { Bool };

    fn start(alloc: Global, basis: Self::Basis) -> Result<Self, Memory>
        ensures machine { IfOk result (λ s. machine s ≡ machine_in basis) }
        ensures follows { IfOk result (λ s. follows s [] []) }
        ensures ready { IfOk result (λ s. IsTrue (is_ready s)) }
        ensures counted { IfOk result (λ s. counted s ≡ 0) };

    /// Reads more bytes, and appends what is said and wasn't yet. Tells which byte stops it, if one
    /// does, as a number in all bytes.
    fn go_on(&mut self, piece: &[u8], out: &mut Vec<u8>) -> Result<Option<u64>, Memory>
        requires ready { IsTrue (is_ready self.old) }
        requires room { counted self.old + length piece.now < 2 ^ 64 }
        ensures same { machine self.new ≡ machine self.old }
        ensures reads { IfOk result (λ at. (w text : List ℕ) → follows self.old w text
            → ReadMore (says (machine self.old))
            (follows self.new) w text piece.now at out.old.items out.new.items) }
        ensures ready { IfOk result (λ at. at ≡ None → IsTrue (is_ready self.new)) }
        ensures counted { counted self.new ≤ counted self.old + length piece.now }
        ensures wants { OnErr result (IsTrue may_want) };

    /// The bytes end here. Appends the rest, and tells whether they have a parse.
    fn finish(&mut self, out: &mut Vec<u8>) -> Result<bool, Memory>
        requires { IsTrue (is_ready self.old) }
        ensures same { machine self.new ≡ machine self.old }
        ensures ends { IfOk result (λ parsed. (w text : List ℕ) → follows self.old w text
            → CameToEnd (closes (machine self.old)) w text parsed out.old.items out.new.items) }
        ensures counted { counted self.new ≤ counted self.old }
        ensures wants { OnErr result (IsTrue may_want) };

    ghost answers: { (m : Machine) → Answering (says m) (closes m) (gives m) };
}

/// A worker that can begin anew. What it has learnt of its machine stays.
pub trait BeginsAnew: Worker {
    /// Is as when it was started: it was given nothing. Want of memory comes also where a call has
    /// wanted some before.
    fn begin_anew(&mut self) -> Result<(), Memory>
        ensures same { Self.machine self.new ≡ Self.machine self.old }
        ensures follows { OnOk result (Self.follows self.new [] []) }
        ensures ready { OnOk result (IsTrue (Self.is_ready self.new)) }
        ensures begun { OnOk result (Self.counted self.new ≡ 0) }
        ensures counted { Self.counted self.new ≤ Self.counted self.old }
        ensures wants { OnErr result (IsTrue Self.may_want) };
}
