// A worker that knows its place.

ghost use Rattle.std.specs.Prelude.{◌≡◌, ◌++◌, ℕ, List, Some, IsTrue, IfOk, OnOk};

use kex_code::memory::Memory;
use kex_pipe::worker::Worker;
use std::alloc::Global;

/// A worker whose place can be noted. Another one of its machine can begin there, and can be asked
/// whether it stands there.
///
/// What two workers of one machine do from a place on where both are is the same.
pub trait KnowsPlace: Worker {
    /// Where a worker stands.
    type Place: Drop;

    /// It is a place of its machine.
    ghost fits: { Self → Self.Place → Type 0 };

    /// It stands there.
    ghost stands_at: { Self → Self.Place → Type 0 };

    /// Another worker of its machine.
    fn another(&self, alloc: Global) -> Result<Self, Memory>
        ensures { IfOk result (λ s. Self.machine s ≡ Self.machine self.now) };

    /// A place of its machine. Which one isn't promised.
    fn some_place(&self, alloc: Global) -> Result<Self::Place, Memory>
        ensures { IfOk result (λ p. fits self.now p) };

    /// Notes where it stands. At false it couldn't be noted, or not cheaply.
    fn note(&self, place: &mut Self::Place) -> Result<bool, Memory>
        requires { fits self.now place.old }
        ensures place { fits self.now place.new }
        ensures noted { IfOk result (λ b. IsTrue b → stands_at self.now place.new) };

    /// Begins at a place, as if that number of bytes were read.
    fn begin_at(&mut self, place: &Self::Place, read: u64) -> Result<(), Memory>
        requires { fits self.old place.now }
        ensures same { Self.machine self.new ≡ Self.machine self.old }
        ensures ready { OnOk result (IsTrue (Self.is_ready self.new)) }
        ensures counted { OnOk result (Self.counted self.new ≡ read) };

    /// Whether it stands at a place.
    fn is_at(&self, place: &Self::Place) -> bool
        requires { fits self.now place.now }
        ensures { IsTrue result → stands_at self.now place.now };

    /// How many bytes it counts.
    fn count(&self) -> u64
        ensures { result ≡ Self.counted self.now };

    /// A place of one machine fits each worker of that machine.
    ghost fits_all: { (a b : Self) (p : Self.Place) → Self.machine b ≡ Self.machine a → fits a p
        → fits b p };

    /// Where two stand at one place, both count as many bytes, and what the one follows the other
    /// follows too.
    ghost alike: { (a b : Self) (p : Self.Place) → Self.machine a ≡ Self.machine b → stands_at a p
        → stands_at b p → (Self.counted a ≡ Self.counted b)
        × ((w text : List ℕ) → Self.follows a w text → Self.follows b w text) };

    /// What comes after a byte that stops it changes nothing.
    ghost stopped: { (m : Self.Machine) (w v : List ℕ) (at : ℕ) (text : List ℕ)
        → Self.says m w (Some at) text → Self.says m (w ++ v) (Some at) text };
}
