// A stage that takes its turns.

ghost use Rattle.std.specs.Prelude.{◌≡◌, ◌++◌, List, [], Option, true, false, IsTrue};
ghost use Rattle.std.specs.Prelude.{OnOk, OnErr, is_ok, drop};
ghost use Rattle.kex_model.specs.Schedules.{StreamItem};
ghost use Rattle.kex_model.specs.Schedules as schedule;
ghost use Rattle.kex_pipe.specs.Histories.{StageFed, bytes_fed, ended_of};
ghost use Rattle.kex_pipe.specs.Waiting.{unread_bytes, waiting_items, Passes};

use crate::inbox::Inbox;
use crate::turn::{Fate, Turn};
use kex_code::memory::Memory;

/// A stage, and whether it had a turn.
#[derive(Drop)]
pub struct Staged<T> {
    pub stage: T,
    pub turned: bool,
}

impl<T: Turn> Staged<T> {
    ghost use Rattle.kex_pipe.specs.Seats.{Sits, IsWhole, TakesTurn};

    /// Takes at most this many items of its inbox, and writes into the next, which is empty after
    /// an error.
    pub(crate) fn turn(
        &mut self,
        at_most: u64,
        inbox: &mut Inbox,
        next: &mut Inbox,
    ) -> Result<(), Memory>
        requires { IsTrue (T.is_usable self.old.stage) }
        ensures usable { T.is_usable self.new.stage ≡ is_ok result }
        ensures turns { OnOk result ((p : T.Plan) (x : schedule.Progress)
            (came out front : List StreamItem)
            → IsWhole came → came ≡ x.taken ++ waiting_items inbox.old
            → Sits T.Turn p self.old x out → out ≡ front ++ waiting_items next.old
            → TakesTurn T.Turn p at_most came x front self.new inbox.new next.new) }
        ensures turned { OnOk result (self.new.turned ≡ true) }
        ensures rest { OnOk result (waiting_items inbox.new
            ≡ drop at_most (waiting_items inbox.old)) }
        ensures err { OnErr result (unread_bytes next.new ≡ []) }
    {
        if self.turned && inbox.is_empty() {
            return Ok(());
        }
        feed(&mut self.stage, inbox.front(at_most), next)?;
        if inbox.reaches_end(at_most) {
            end(&mut self.stage, next)?;
        }
        inbox.remove(at_most);
        self.turned = true;
        Ok(())
    }
}

// Feeds the stage, which writes into the inbox; after an error that is empty.
fn feed<T: Turn>(stage: &mut T, piece: &[u8], into: &mut Inbox) -> Result<(), Memory>
    requires { IsTrue (T.is_usable stage.old) }
    ensures usable { T.is_usable stage.new ≡ is_ok result }
    ensures same_plan { T.plan stage.new ≡ T.plan stage.old }
    ensures passes { OnOk result ((h : Option StageFed) → T.stands stage.old h → ended_of h ≡ false
        → into.old.ended ≡ false
        → Passes (T.gives (T.plan stage.old)) (T.stands stage.new) h
        (bytes_fed h ++ piece.now) false into.old into.new) }
    ensures err { OnErr result (unread_bytes into.new ≡ []) }
{
    // Only of a stage that was fed in order it is known that it appends.
    let fate = stage.feed(piece, &mut into.bytes);
    into.start = into.start.min(into.bytes.len());
    match fate {
        Ok(_) => Ok(()),
        Err(Memory) => {
            into.clear();
            Err(Memory)
        }
    }
}

// Ends the stage's input. The end goes into the inbox unless the stage has stopped; after an error
// that is empty.
fn end<T: Turn>(stage: &mut T, into: &mut Inbox) -> Result<(), Memory>
    requires { IsTrue (T.is_usable stage.old) }
    ensures usable { T.is_usable stage.new ≡ is_ok result }
    ensures same_plan { T.plan stage.new ≡ T.plan stage.old }
    ensures passes { OnOk result ((h : Option StageFed) → T.stands stage.old h → ended_of h ≡ false
        → into.old.ended ≡ false
        → Passes (T.gives (T.plan stage.old)) (T.stands stage.new) h
        (bytes_fed h) true into.old into.new) }
    ensures err { OnErr result (unread_bytes into.new ≡ []) }
{
    let fate = stage.end(&mut into.bytes);
    into.start = into.start.min(into.bytes.len());
    match fate {
        Ok(Fate::On) => {
            into.give_end();
            Ok(())
        }
        Ok(Fate::Stopped) => Ok(()),
        Err(Memory) => {
            into.clear();
            Err(Memory)
        }
    }
}
