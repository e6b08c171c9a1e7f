// The place where a runner is, as another that was over the same table can come to it.

ghost use Rattle.std.specs.Prelude.{◌≡◌, [], IsTrue, false};
ghost use Rattle.kex_runner.specs.Following.{IsTablePlace};
ghost use Rattle.kex_runner.specs.Places.{StandsAt};

use crate::runner::Runner;

impl<'t> Runner<'t> {
    /// Begins anew at a state without registers, as if `read` bytes had been read. What was passed
    /// on isn't known of it then.
    pub fn restart(&mut self, state: u32, read: u64)
        requires place { IsTablePlace self.old.table state [] }
        ensures restarted { self.new ≡ record self.old {
          state = state;
          pending = [];
          registers = [];
          read = read;
          dead = false;
          ended = false;
        } }
    {
        self.place.registers.clear();
        self.place.state = state;
        self.pending.clear();
        self.read = read;
        self.dead = false;
        self.ended = false;
    }

    /// Whether it is at this state without registers, has read this number of bytes, none of which
    /// was refused, and has nothing to be passed on.
    pub fn stands_at(&self, state: u32, read: u64) -> bool
        ensures { IsTrue result → StandsAt self.now state read }
    {
        self.place.state == state
            && self.read == read
            && self.place.registers.len() == 0
            && self.pending.is_empty()
            && !self.dead
    }
}
