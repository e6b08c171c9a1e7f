// How much is learnt, and when leaps are looked for.

/// How much may be learnt before the first scan counts. An edge costs its row's lists, and one.
const FIRST: u64 = 2_048;

/// This many scans and leaps allow for one list more.
const SCANS: u64 = 64;

/// After more scans than this in a row without a leap there is a rest, and after each more.
const FRUITLESS: u32 = 16;

/// How many scans are left out in a rest.
const REST: u32 = 1_024;

/// How many scans there were and how many found nothing of late, and how much was learnt.
#[derive(Clone, Copy, Debug, PartialEq, Eq)]
pub struct Credit {
    scans: u64,
    learnt: u64,
    fruitless: u32,
    rest: u32,
}

impl Credit {
    /// Nothing yet.
    pub fn new() -> Credit {
        Credit {
            scans: 0,
            learnt: 0,
            fruitless: 0,
            rest: 0,
        }
    }

    /// Whether a leap is looked for: not in a rest.
    pub fn begin_scan(&mut self) -> bool {
        if self.rest > 0 {
            self.rest -= 1;
            return false;
        }
        self.count_leap();
        true
    }

    /// A scan goes on over one more leap, which counts like a scan.
    pub fn count_leap(&mut self) {
        self.scans = self.scans.saturating_add(1);
    }

    /// A scan has found a leap, or none.
    pub fn end_scan(&mut self, found: bool) {
        if found {
            self.fruitless = 0;
        } else if self.fruitless < FRUITLESS {
            self.fruitless += 1;
        } else {
            self.rest = REST;
        }
    }

    /// Whether an edge of a row with that many lists may be learnt. It counts then.
    pub fn spend(&mut self, lists: usize) -> bool {
        let most = FIRST.saturating_add(self.scans / SCANS);
        if self.learnt >= most {
            return false;
        }
        self.learnt = self.learnt.saturating_add(lists as u64).saturating_add(1);
        true
    }
}
