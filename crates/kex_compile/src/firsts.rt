// The first stage that each rule refuses.

ghost use Rattle.std.specs.Prelude.{◌≡◌, ◌≢◌, None, OnOk};
ghost use Rattle.kex_compile.specs.Stages.{first_of, least, with_first};

use crate::refusal::PlanRefusal;
use kex_code::memory::Memory;
use kex_lowering::refusal::StageRefusal;

/// Of the stages so far, counted from 1, the first that each rule refuses.
#[derive(Clone, Copy, Debug, PartialEq, Eq)]
pub(crate) struct Firsts {
    pub(crate) too_many_places: Option<u32>,
    pub(crate) no_text: Option<u32>,
}

impl Firsts {
    pub(crate) fn new() -> Firsts
        ensures { result ≡ record { too_many_places = None; no_text = None } }
    {
        Firsts {
            too_many_places: None,
            no_text: None,
        }
    }

    /// The stage is refused for this.
    pub(crate) fn note(&mut self, why: StageRefusal, stage: u32) -> Result<(), Memory>
        ensures noted { OnOk result (self.new ≡ with_first why stage self.old) }
        ensures rule { OnOk result (why ≢ StageRefusal.Memory) }
    {
        match why {
            StageRefusal::TooManyPlaces => {
                self.too_many_places = first_of(self.too_many_places, stage);
                Ok(())
            }
            StageRefusal::NoText => {
                self.no_text = first_of(self.no_text, stage);
                Ok(())
            }
            StageRefusal::Memory => Err(Memory),
        }
    }

    /// The refusal by the rule of the lowest number.
    pub(crate) fn least(&self) -> Option<PlanRefusal>
        ensures { result ≡ least self.now }
    {
        if let Some(stage) = self.too_many_places {
            return Some(PlanRefusal::TooManyPlaces(stage));
        }
        self.no_text.map(PlanRefusal::NoText)
    }
}

fn first_of(first: Option<u32>, stage: u32) -> Option<u32>
    ensures { result ≡ first_of first stage }
{
    first.or(Some(stage))
}
