//! A stage round another one: it wants memory after a number of calls, and tells whether
//! it works while its gate is closed.
ghost use Rattle.std.specs.Prelude.{◌≡◌, true, IsTrue, None};

use kex_code::memory::Memory;
use kex_pipe::turn::{Fate, Stop, Turn};
use kex_ports::Gate;
use std::sync::atomic::{AtomicU32, Ordering};

/// A gate that counts how often stages enter and leave it, and which calls come while no stage is
/// inside.
#[derive(Drop)]
pub struct Watch {
    pub entered: AtomicU32,
    pub left: AtomicU32,
    pub inside: AtomicU32,
    pub outside: AtomicU32,
}

impl Watch {
    /// No stage was in yet.
    pub fn new() -> Watch {
        Watch {
            entered: AtomicU32::new(0),
            left: AtomicU32::new(0),
            inside: AtomicU32::new(0),
            outside: AtomicU32::new(0),
        }
    }

    // Counts a call of a stage.
    fn note(&self) {
        let entered = self.entered.load(Ordering::SeqCst);
        if entered == self.left.load(Ordering::SeqCst) {
            self.outside.fetch_add(1, Ordering::SeqCst);
        } else {
            self.inside.fetch_add(1, Ordering::SeqCst);
        }
    }
}

impl Gate for Watch {
    fn enter(&self, _stage: u32) {
        self.entered.fetch_add(1, Ordering::SeqCst);
    }

    fn leave(&self, _stage: u32) {
        self.left.fetch_add(1, Ordering::SeqCst);
    }
}

/// Answers as another stage does, and wants memory after a number of calls.
#[derive(Drop)]
pub struct Refusing<'w, T: Turn + Drop> {
    stage: T,
    watch: &'w Watch,
    usable: bool,
    calls: u32,
    ghost whole: { usable ≡ true → IsTrue (T.is_usable stage) },
}

impl<'w, T: Turn + Drop> Turn for Refusing<'w, T> {
    ghost Plan = { T.Plan };

    ghost plan = { λ s. T.plan s.stage };

    ghost gives = { T.gives };

    ghost stands = { λ s h. T.stands s.stage h × IsTrue s.usable };

    ghost is_usable = { λ s. s.usable };

    ghost stands_usable = { λ s h st. st.1 };

    ghost one = { T.one };

    ghost grows = { T.grows };

    ghost stays = { T.stays };

    ghost ends = { T.ends };

    fn usable(&self) -> bool {
        self.usable
    }

    fn feed(&mut self, piece: &[u8], out: &mut Vec<u8>) -> Result<Fate, Memory> {
        self.usable = false;
        self.watch.note();
        self.calls = self.calls.checked_sub(1).ok_or(Memory)?;
        let fate = self.stage.feed(piece, out)?;
        self.usable = true;
        Ok(fate)
    }

    fn end(&mut self, out: &mut Vec<u8>) -> Result<Fate, Memory> {
        self.usable = false;
        self.watch.note();
        self.calls = self.calls.checked_sub(1).ok_or(Memory)?;
        let fate = self.stage.end(out)?;
        self.usable = true;
        Ok(fate)
    }

    fn stop(&self) -> Option<Stop> {
        self.stage.stop()
    }
}

/// Wants memory after `calls` calls.
pub fn refusing_after<'w, T: Turn + Drop>(stage: T, watch: &'w Watch, calls: u32) -> Refusing<'w, T>
    requires { T.stands stage None }
    ensures { ⟦<Refusing<'w, T> as Turn>⟧.stands result None }
{
    Refusing {
        stage,
        watch,
        usable: true,
        calls,
    }
}
