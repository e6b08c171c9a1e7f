// How a run's input is cut for stages whose desks share it.
ghost use Rattle.std.specs.Prelude.{◌≡◌, ◌<◌, ◌≤◌, ◌||◌, nat_lt};

use crate::piece_length::PieceLength;
use crate::rounds::MUCH;
use kex_plan::plan::Plan;
use kex_sst::table::Table;

// How many bytes of a piece are worth the start of a thread.
const WORTH: usize = 65_536;

// How many are where several stages read it.
const WORTH_SEVERAL: usize = 30_720;

// How many are where stages mostly hold text, so that bytes take more time.
const WORTH_HELD: usize = 20_480;

// How many more for each state: what is known of it comes to another processor with a thread.
const WORTH_STATE: usize = 64;

/// How long pieces are, so that each desk's part is long, and whether desks had two bytes to share.
#[derive(Clone, Copy)]
pub struct Sharing {
    length: PieceLength,
    worth: usize,
    begun: bool,
    ghost worthy: { 0 < worth },
}

// Whether most states of a table hold text.
fn holds_text(table: &Table) -> bool {
    let mut holding: usize = 0;
    for state in table.states() {
        holding = holding.saturating_add(usize::from(state.registers() > 0));
    }
    holding > table.states().len() / 2
}

// Whether each of the stages with these plans mostly holds text.
fn all_hold_text(plans: &[Plan]) -> bool {
    for plan in plans {
        let Some(route) = plan.route() else {
            return false;
        };
        if !holds_text(route.table()) {
            return false;
        }
    }
    true
}

// How many states the stages with these plans have.
fn states_of(plans: &[Plan]) -> usize {
    let mut states: usize = 0;
    for plan in plans {
        if let Some(route) = plan.route() {
            states = states.saturating_add(route.table().states().len());
        }
    }
    states
}

// How many bytes of a piece are worth the start of a thread, for the stages with these plans.
fn worth_of(plans: &[Plan]) -> usize
    ensures { 0 < result }
{
    let alone = if all_hold_text(plans) {
        WORTH_HELD
    } else if plans.len() > 1 {
        WORTH_SEVERAL
    } else {
        WORTH
    };
    alone.saturating_add(states_of(plans).saturating_mul(WORTH_STATE))
}

impl Sharing {
    /// For the stages with these plans.
    pub fn of(plans: &[Plan]) -> Sharing {
        Sharing {
            length: PieceLength::new(MUCH),
            worth: worth_of(plans),
            begun: false,
        }
    }

    /// The most bytes that are given at once.
    pub(crate) fn piece(&self) -> usize
        ensures some { 0 < result }
        ensures few { result ≤ 1048576 }
    {
        self.length.bytes()
    }

    /// The fewest bytes of a part, where `waiting` bytes wait before a stage. One thread does
    /// without a start, and each other one has enough bytes for it. The first time that two bytes
    /// wait before a stage they are shared, however few they are, so that desks meet in any run.
    pub(crate) fn least(&self, waiting: usize) -> usize
        ensures { 0 < result }
    {
        if !self.begun {
            return 1;
        }
        let parts = (waiting / self.worth).saturating_add(1);
        (waiting / parts).max(1)
    }

    /// Learns how many bytes were given, how many at most lay before a stage for them, and how many
    /// are output.
    pub(crate) fn learn(&mut self, given: usize, waited: usize, output: usize)
        ensures begun { self.new.begun ≡ (self.old.begun || nat_lt 1 waited) }
    {
        self.begun = self.begun || waited > 1;
        self.length.learn(given, waited.max(output));
    }
}
