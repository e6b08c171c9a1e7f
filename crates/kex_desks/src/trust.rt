// Whether desks are worth their threads.

ghost use Rattle.std.specs.Prelude.{◌≡◌, ◌==◌, ◌&&◌, ◌||◌, not, false};

// After this many pieces in a row of whose parts none was taken over, desks rest.
const PATIENCE: u32 = 8;

// The most pieces for which they rest.
const LONGEST_REST: u32 = 63;

/// How many pieces were worked on in parts for nothing since one wasn't, and how many are still to
/// be read without desks.
#[derive(Clone, Copy)]
pub struct Trust {
    missed: u32,
    resting: u32,
    // Desks have worked on a piece of the run; on the next one; and the last time for something.
    begun: bool,
    tried: bool,
    proven: bool,
}

impl Trust {
    /// Nothing was tried yet.
    pub fn new() -> Trust
        ensures { result ≡ record {
          missed = 0;
          resting = 0;
          begun = false;
          tried = false;
          proven = false;
        } }
    {
        Trust {
            missed: 0,
            resting: 0,
            begun: false,
            tried: false,
            proven: false,
        }
    }

    /// Whether desks are to work on the next piece, where it is known or not where a worker was
    /// after a line: on the first one always.
    pub fn tries(&mut self, known: bool) -> bool
        ensures { result ≡ (not self.old.begun || (known && self.old.resting == 0)) }
    {
        self.tried = !self.begun || (known && self.resting == 0);
        self.begun = true;
        self.resting = self.resting.saturating_sub(1);
        self.tried
    }

    /// Desks were to work on the next piece.
    pub fn has_tried(&self) -> bool
        ensures { result ≡ self.now.tried }
    {
        self.tried
    }

    /// Whether desks have worked for something, the last time they did.
    pub fn is_proven(&self) -> bool
        ensures { result ≡ self.now.proven }
    {
        self.proven
    }

    /// A piece was read, of which a part was taken over or none. After some for which desks have
    /// worked for nothing they rest, each time twice as long.
    pub fn learn(&mut self, some_taken: bool) {
        let tried = self.tried;
        self.tried = false;
        if !tried {
            return;
        }
        self.proven = some_taken;
        if some_taken {
            self.missed = 0;
            return;
        }
        self.missed = self.missed.saturating_add(1);
        if self.missed >= PATIENCE {
            let doublings = (self.missed - PATIENCE).min(6);
            self.resting = ((1 << doublings) as u32).min(LONGEST_REST);
        }
    }
}
