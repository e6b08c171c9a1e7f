// Stages whose input is worked on in parts before they read it.

ghost use Rattle.std.specs.Prelude.{◌≡◌, ◌≤◌, ℕ, List, Option, All, vec_len};
ghost use Rattle.kex_pipe.specs.Histories.{StageFed};

use crate::turn::Turn;
use crate::worker::Worker;

/// What works on a part of a piece, before it is known that a stage comes to where the part begins.
///
/// It is worked in a thread of its own. Nothing that a stage answers rests on what its desks do: a
/// stage takes over what a desk has made only where it finds that it is what it makes itself.
pub trait PartDesk {
    ghost Kind: { Type 0 };

    /// What it goes by, which no call changes.
    ghost kind: { Self → Kind };

    /// Works on one of the `of` parts of a piece, which are counted from 1.
    fn work(&mut self, part: u32, of: u32, piece: &[u8])
        requires { (1 ≤ part) × (part ≤ of) }
        ensures { kind self.new ≡ kind self.old };
}

/// A stage that hands out its desks, so that the parts of what it is to read next are worked on at
/// once. It is fed as any other stage is, and answers the same without them.
pub trait Parted<D: PartDesk>: Turn {
    /// The desk is one of its own.
    ghost owns: { Self → D → Type 0 };

    /// Hands out its desks, ready for what it reads next. Before they are back it has none.
    fn hand_out(&mut self) -> Vec<D>
        ensures plan { Self.plan self.new ≡ Self.plan self.old }
        ensures usable { Self.is_usable self.new ≡ Self.is_usable self.old }
        ensures stands { (h : Option StageFed) → Self.stands self.old h → Self.stands self.new h }
        ensures own { All (λ d. owns self.new d) result.items }
        ensures few { vec_len result ≤ 64 };

    /// Takes its desks back.
    fn take_back(&mut self, desks: Vec<D>)
        requires own { All (λ d. owns self.old d) desks.items }
        requires few { vec_len desks ≤ 64 }
        ensures plan { Self.plan self.new ≡ Self.plan self.old }
        ensures usable { Self.is_usable self.new ≡ Self.is_usable self.old }
        ensures stands { (h : Option StageFed) → Self.stands self.old h → Self.stands self.new h };

    /// A desk of the same kind as one of its own is one too.
    ghost stays_own: { (s : Self) (a b : D) → D.kind b ≡ D.kind a → owns s a → owns s b };
}

/// A worker with desks, of which `Bounded` makes a stage that hands them out.
pub trait PartedWorker<D: PartDesk>: Worker {
    /// The desk is one of its own.
    ghost owns: { Self → D → Type 0 };

    /// Hands out its desks, ready for what it is given next. Before they are back it has none.
    fn hand_out(&mut self) -> Vec<D>
        ensures same { Self.machine self.new ≡ Self.machine self.old }
        ensures ready { Self.is_ready self.new ≡ Self.is_ready self.old }
        ensures counted { Self.counted self.new ≡ Self.counted self.old }
        ensures follows { (w text : List ℕ) → Self.follows self.old w text
            → Self.follows self.new w text }
        ensures own { All (λ d. owns self.new d) result.items }
        ensures few { vec_len result ≤ 64 };

    /// Takes its desks back.
    fn take_back(&mut self, desks: Vec<D>)
        requires own { All (λ d. owns self.old d) desks.items }
        requires few { vec_len desks ≤ 64 }
        ensures same { Self.machine self.new ≡ Self.machine self.old }
        ensures ready { Self.is_ready self.new ≡ Self.is_ready self.old }
        ensures counted { Self.counted self.new ≡ Self.counted self.old }
        ensures follows { (w text : List ℕ) → Self.follows self.old w text
            → Self.follows self.new w text };

    /// A desk of the same kind as one of its own is one too.
    ghost stays_own: { (s : Self) (a b : D) → D.kind b ≡ D.kind a → owns s a → owns s b };
}
