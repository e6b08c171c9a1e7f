// A stage in its seat, with what lies before and after it.

ghost use Rattle.std.specs.Prelude.{◌≡◌, ◌&&◌, true, false, IsTrue, OnOk, is_ok};

use crate::inbox::Inbox;
use crate::staged::Staged;
use crate::turn::Turn;
use kex_code::memory::Memory;

/// A stage, what waits before it, and what it has written and isn't handed on yet.
#[derive(Drop)]
pub struct Seat<T: Turn> {
    pub staged: Staged<T>,
    pub inbox: Inbox,
    pub outbox: Inbox,
    pub usable: bool,
    ghost whole: { usable ≡ true → IsTrue (T.is_usable staged.stage) },
}

impl<T: Turn> Seat<T> {
    ghost use Rattle.kex_pipe.specs.Rounds.{Takes, Works, LeftBy};

    /// Takes at most this many items of the inbox, and writes into the outbox.
    pub fn take(&mut self, at_most: u64) -> Result<(), Memory>
        requires { IsTrue self.old.usable }
        ensures usable { self.new.usable ≡ is_ok result }
        ensures takes { OnOk result (Takes T.Turn at_most self.old self.new) }
    {
        let turned = self.staged.turn(at_most, &mut self.inbox, &mut self.outbox);
        self.usable = turned.is_ok();
        turned
    }

    /// Takes all that waits before the stage, as a turn does, and keeps what it writes until the
    /// round ends. The seat of a spent pipe takes nothing.
    pub fn work(&mut self) -> Result<(), Memory>
        ensures works { OnOk result (IsTrue self.old.usable → Works T.Turn self.old self.new) }
        ensures idle { self.old.usable ≡ false → IsTrue (is_ok result) × (self.new ≡ self.old) }
        ensures usable { self.new.usable ≡ (self.old.usable && is_ok result) }
        ensures own { (before : Seat T T.Turn) → LeftBy T.Turn before self.old
            → LeftBy T.Turn before self.new }
    {
        if !self.usable {
            return Ok(());
        }
        let all = self.inbox.count();
        self.take(all)
    }
}
