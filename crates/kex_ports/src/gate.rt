// Where a stage passes as it begins and ends its work.
ghost use Rattle.std.specs.Prelude.{◌≡◌, ◌⊎◌, IsTrue};

use std::marker::Model;
use std::sync::atomic::{AtomicBool, Ordering};

/// Called when a stage begins its work and when it ends it.
pub trait Gate {
    fn enter(&self, stage: u32);

    fn leave(&self, stage: u32);
}

/// Does nothing.
#[derive(Clone, Copy, Debug)]
pub struct OpenGate;

impl Gate for OpenGate {
    fn enter(&self, _stage: u32) {}

    fn leave(&self, _stage: u32) {}
}

const MOST_LOOKS: u32 = 50_000_000;

// Whether a stage has entered, and whether it has then seen that the other had.
#[derive(Drop)]
struct Watched {
    stage: u32,
    entered: AtomicBool,
    saw_other: AtomicBool,
}

impl Watched {
    fn new(stage: u32) -> Self
        ensures { result.stage ≡ stage }
    {
        Watched {
            stage,
            entered: AtomicBool::new(false),
            saw_other: AtomicBool::new(false),
        }
    }

    fn look_for(&self, other: &Watched) {
        if self.entered.swap(true, Ordering::SeqCst) {
            return;
        }
        for _ in 0..MOST_LOOKS {
            if other.entered.load(Ordering::SeqCst) {
                self.saw_other.store(true, Ordering::SeqCst);
                return;
            }
        }
    }
}

/// For tests: each of two stages raises a flag of its own as it first enters, and then looks for
/// the other's flag, at most 50,000,000 times.
#[derive(Drop)]
pub struct MeetGate {
    one: Watched,
    other: Watched,
}

impl Model for MeetGate {
    ghost use Rattle.kex_ports.specs.Meeting.{Pair};

    ghost Value = { Pair };

    ghost view = { λ g. record { one = g.one.stage; other = g.other.stage } };
}

impl MeetGate {
    /// Watches these two stages.
    pub fn new(one: u32, other: u32) -> Self
        ensures { result ≡ record { one = one; other = other } }
    {
        MeetGate {
            one: Watched::new(one),
            other: Watched::new(other),
        }
    }

    /// Whether a stage has seen that the other had entered; no stage has that isn't watched.
    pub fn saw(&self, stage: u32) -> bool
        ensures { IsTrue result → (stage ≡ self.now.one) ⊎ (stage ≡ self.now.other) }
    {
        (stage == self.one.stage && self.one.saw_other.load(Ordering::SeqCst))
            || (stage == self.other.stage && self.other.saw_other.load(Ordering::SeqCst))
    }
}

/// Watches stages 1 and 2.
impl Default for MeetGate {
    ghost is_default = { λ g. g ≡ record { one = 1; other = 2 } };

    fn default() -> Self {
        MeetGate::new(1, 2)
    }
}

impl Gate for MeetGate {
    fn enter(&self, stage: u32) {
        if stage == self.one.stage {
            self.one.look_for(&self.other);
        }
        if stage == self.other.stage {
            self.other.look_for(&self.one);
        }
    }

    fn leave(&self, _stage: u32) {}
}
