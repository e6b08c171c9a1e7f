// A runner goes along a whole text by its summary.

ghost use Rattle.std.specs.Prelude.{◌≡◌, ℕ, ◌+◌, ◌^◌, ◌<◌, ◌≤◌, ◌↔◌, List, IfOk, OnOk, IsTrue};
ghost use Rattle.std.specs.Prelude.{IsOk, Ok, true, false, slice_get};
ghost use Rattle.kex_sst.specs.Summaries.{sum_of};
ghost use Rattle.kex_runner.specs.Applying.{AnswersCourse, code_by_update, went_by};
ghost use Rattle.kex_runner.specs.Following.{IsTablePlace};
ghost use Rattle.kex_runner.specs.Noting.{next_registers};
ghost use Rattle.kex_runner.specs.Running.{RunnerFeeds};
ghost use Rattle.kex_runner.specs.declared.answers.Applied.{Applied};
ghost use Rattle.kex_runner.specs.declared.answers.Fed.{Fed};

use crate::answers::Applied;
use crate::runner::Runner;
use crate::spelling::spell;
use kex_code::code::Code;
use kex_code::memory::Memory;
use kex_sst::series::Series;
use kex_sst::summary::{Course, Summary};
use kex_sst::table::Table;

impl<'t> Runner<'t> {
    /// The table that it was made over.
    pub fn table(&self) -> &'t Table
        ensures { result.now ≡ self.now.table }
    {
        self.table
    }

    /// Whether a byte was refused.
    pub fn is_dead(&self) -> bool
        ensures { result ≡ self.now.dead }
    {
        self.dead
    }

    // Goes past bytes to a state, by updates.
    fn go_by(
        &mut self,
        target: u32,
        series: &Series,
        bytes: u64,
        code: &mut Code,
    ) -> Result<(), Memory>
        requires usable { IsTrue self.old.usable }
        requires place { IsTablePlace self.old.table target
            (next_registers series.now 0 self.old.registers) }
        requires room { self.old.read + bytes < 2 ^ 64 }
        ensures went { OnOk result (self.new ≡ went_by self.old target series.now bytes) }
        ensures code { OnOk result (code.new ≡ code_by_update self.old series.now code.old) }
        ensures table { self.new.table ≡ self.old.table }
        ensures words { self.new.words ≡ self.old.words }
        ensures open { self.new.ended ≡ self.old.ended }
        ensures read { (self.old.read ≤ self.new.read)
            × (self.new.read ≤ self.old.read + bytes) }
        ensures usable { IsTrue self.new.usable ↔ IsOk result }
    {
        self.usable = false;
        let script = &self.guide.get().script;
        spell(script.words(), &self.pending, code)?;
        self.pending.clear();
        self.place.registers.take_series(script, series, code)?;
        self.place.state = target;
        self.read += bytes;
        self.usable = true;
        Ok(())
    }

    /// Goes along a text by its summary, as `feed` does along the text itself, and counts no steps.
    /// Where the table stops within the text, nothing is done.
    ///
    /// What is held in registers is gone over whole, once for each update of the course. After
    /// `Memory` the code may have a part of the text's, and the runner is only dropped.
    pub fn apply(&mut self, summary: &Summary, code: &mut Code) -> Result<Applied, Memory>
        requires text { (x : List ℕ) × (summary.now ≡ sum_of self.old.table x) }
        requires usable { IsTrue self.old.usable }
        requires open { self.old.ended ≡ false }
        requires live { self.old.dead ≡ false }
        requires room { self.old.read + summary.now.bytes < 2 ^ 64 }
        ensures answer { IfOk result (λ answer.
            AnswersCourse (slice_get summary.now.entries self.old.state) answer) }
        ensures on { result ≡ Ok Applied.On → (x : List ℕ)
            → summary.now ≡ sum_of self.old.table x
            → RunnerFeeds Fed.On self.old self.new x code.old code.new }
        ensures gone { (n : ℕ) → result ≡ Ok (Applied.Gone n)
            → (self.new ≡ self.old) × (code.new ≡ code.old) }
        ensures live { OnOk result (self.new.dead ≡ false) }
        ensures read { (self.old.read ≤ self.new.read)
            × (self.new.read ≤ self.old.read + summary.now.bytes) }
        ensures table { self.new.table ≡ self.old.table }
        ensures words { self.new.words ≡ self.old.words }
        ensures open { self.new.ended ≡ false }
        ensures usable { IsTrue self.new.usable ↔ IsOk result }
    {
        let entries = summary.entries();
        let course = &entries[self.place.state as usize];
        match course {
            Course::Gone(count) => Ok(Applied::Gone(*count)),
            Course::Goes(target, series) => {
                self.go_by(*target, series, summary.length(), code)?;
                Ok(Applied::On)
            }
        }
    }
}
