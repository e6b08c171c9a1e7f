// Which places were met since all marks were taken away.

ghost use Rattle.std.specs.Prelude.{◌≡◌, ◌<◌, IfOk, length, get_or, set, replicate, false, true};

use kex_code::memory::Memory;
use std::alloc::Global;
use std::marker::Model;

/// A mark for each place: it is marked if its stamp is the current one. So taking all marks away is
/// one step.
#[derive(Drop)]
pub struct Marks {
    stamps: Vec<u64>,
    current: u64,
}

impl Model for Marks {
    ghost use Rattle.std.specs.Prelude.{List, Bool, map, All, ◌==◌, ◌≤◌};

    ghost Value = { List Bool };

    ghost view = { λ m. map (λ s. s == m.current) m.stamps.items };

    ghost invariant = { λ m. All (λ s. s ≤ m.current) m.stamps.items };
}

impl Marks {
    /// This many places, none of them marked.
    pub fn new(alloc: Global, count: usize) -> Result<Marks, Memory>
        ensures { IfOk result (λ m. m ≡ replicate count false) }
    {
        let stamps = vec![in alloc; 0; count]?;
        Ok(Marks { stamps, current: 1 })
    }

    /// Takes all marks away. Where stamps come to their end they start anew, which is once in
    /// 2^64 - 2 times.
    pub fn clear(&mut self)
        ensures { self.new ≡ replicate (length self.old) false }
    {
        if self.current == u64::MAX {
            self.stamps.fill(0);
            self.current = 1;
            return;
        }
        self.current += 1;
    }

    /// Whether a place is marked.
    pub fn is_marked(&self, place: u32) -> bool
        requires { place < length self.now }
        ensures { result ≡ get_or self.now place false }
    {
        self.stamps[place as usize] == self.current
    }

    /// Marks a place, and tells whether it was marked.
    pub fn mark(&mut self, place: u32) -> bool
        requires { place < length self.old }
        ensures known { result ≡ get_or self.old place false }
        ensures marked { self.new ≡ set self.old place true }
    {
        let known = self.stamps[place as usize] == self.current;
        self.stamps[place as usize] = self.current;
        known
    }
}
