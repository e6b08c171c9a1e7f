// What works in a stage.

ghost use Rattle.std.specs.Prelude.{◌≡◌, ◌&&◌, ◌+◌, ◌<◌, ◌≤◌, ◌^◌, ◌++◌, [], ℕ, List, not, true};
ghost use Rattle.std.specs.Prelude.{false, None, IfOk, length};
ghost use Rattle.kex_pipe.specs.Working.{CameToEnd, ReadMore};
ghost use Rattle.kex_stage.specs.Ahead.{CanWait};
ghost use Rattle.kex_stage.specs.Oracles.{oracle_ended, read_of, usable_of};
ghost use Rattle.kex_stage.specs.Waitings.{HasWaited, IsWaitOver};
ghost use Rattle.kex_plan.specs.Plans.{teller_of};
ghost use Rattle.kex_stage.specs.StageLaws.{answering};
ghost use Rattle.kex_stage.specs.Stages.{ClosesAs, FollowsBehind, Gives, IsTeamReady, SaysOf};
ghost use Rattle.kex_stage.specs.Stages.{TeamFollows, teller_in};

use crate::advance::Approach;
use crate::ahead::Outlook;
use crate::team::{Hearing, Team};
use kex_code::memory::Memory;
use kex_pipe::worker::{BeginsAnew, Worker};
use kex_plan::plan::Plan;
use std::alloc::Global;
use std::marker::Model;
use std::mem;

/// Works over the plan that it borrows: bytes come in pieces, and what the plan's oracle tells of
/// them goes out at once, as what the surviving paths agree on.
///
/// Bytes that can wait may be put off, since what the oracle would tell of them does nothing:
/// oracle and actor are given them with the next byte that can't, unless that is refused, and at
/// the end, if a text may end there. They are kept as they are, however many come.
#[derive(Drop)]
pub struct StageWorker<'p> {
    alloc: Global,
    team: Team<'p>,
    // Bytes that the team wasn't given yet, and the state to which they lead.
    ahead: Vec<u8>,
    reached: u32,
}

impl<'p> Model for StageWorker<'p> {
    ghost use Rattle.std.specs.Prelude.{◌<◌, ◌+◌, ◌^◌, length};
    ghost use Rattle.kex_stage.specs.Ahead.{CanWait};
    ghost use Rattle.kex_stage.specs.Oracles.{read_of};
    ghost use Rattle.kex_stage.specs.Stages.{StageState};

    ghost Value = { StageState };

    ghost view = { λ s. record { team = s.team; ahead = s.ahead.items } };

    ghost invariant = { λ s. 0 < length s.ahead.items
        → CanWait s.team.oracle s.team.actor s.ahead.items s.reached
        × (read_of s.team.oracle + length s.ahead.items < 2 ^ 64) };
}

// What comes of a piece after bytes that are put off: it is put off too; or a byte of it is
// refused, which has this number in all bytes; or the oracle may tell something of it.
#[derive(Clone, Copy)]
enum Waiting {
    On,
    Refused(u64),
    Over,
}

// Gives a team bytes that could wait, and then the end. The bytes lead to a state: if no text ends
// there, the team needn't be given anything.
fn finish_behind(
    team: &mut Team,
    state: u32,
    bytes: &[u8],
    out: &mut Vec<u8>,
) -> Result<bool, Memory>
    requires ready { IsTeamReady team.old }
    requires waits { CanWait team.old.oracle team.old.actor bytes.now state }
    requires room { read_of team.old.oracle + length bytes.now < 2 ^ 64 }
    ensures same { teller_in team.new ≡ teller_in team.old }
    ensures ends { IfOk result (λ parsed. (w text : List ℕ) → TeamFollows team.old w text
        → CameToEnd (ClosesAs (teller_in team.old)) (w ++ bytes.now) text parsed out.old.items
        out.new.items) }
    ensures read { read_of team.new.oracle ≤ read_of team.old.oracle + length bytes.now }
{
    if !team.may_end(state) {
        return Ok(false);
    }
    if team.finish_past(bytes, out)? {
        return Ok(true);
    }
    let approach = Approach {
        held: bytes.len(),
        puts_off: false,
        begins: true,
    };
    match team.hear(approach, bytes, out)? {
        Hearing::Refused(_) => Ok(false),
        _ => team.finish(out),
    }
}

impl<'p> StageWorker<'p> {
    // Gives a piece to the team, which was given all before it. What the team puts off is kept.
    fn hear(&mut self, held: usize, piece: &[u8], out: &mut Vec<u8>) -> Result<Option<u64>, Memory>
        requires ready { IsTeamReady self.old.team }
        requires none { self.old.ahead ≡ [] }
        requires room { read_of self.old.team.oracle + length piece.now < 2 ^ 64 }
        ensures same { teller_in self.new.team ≡ teller_in self.old.team }
        ensures reads { IfOk result (λ at. (w text : List ℕ) → TeamFollows self.old.team w text
            → ReadMore (SaysOf (teller_in self.old.team)) (FollowsBehind self.new) w text piece.now
            at out.old.items out.new.items) }
        ensures counted { read_of self.new.team.oracle + length self.new.ahead
            ≤ read_of self.old.team.oracle + length piece.now }
        ensures ready { IfOk result (λ at. at ≡ None → IsTeamReady self.new.team) }
    {
        let approach = Approach {
            held,
            puts_off: true,
            begins: true,
        };
        match self.team.hear(approach, piece, out)? {
            Hearing::Whole => Ok(None),
            Hearing::Refused(at) => Ok(Some(at)),
            Hearing::PutOff { count, state } => {
                self.reached = state;
                self.ahead.extend_from_slice(&piece[count..])?;
                Ok(None)
            }
        }
    }

    // What comes of a piece, where the team wasn't given bytes before it: it is put off too where
    // the oracle tells nothing of it. Nothing is done where the oracle may tell something.
    fn put_off(&mut self, piece: &[u8]) -> Result<Waiting, Memory>
        requires ready { IsTeamReady self.old.team }
        requires some { 0 < length self.old.ahead }
        requires room { read_of self.old.team.oracle + length self.old.ahead + length piece.now
            < 2 ^ 64 }
        ensures same { teller_in self.new.team ≡ teller_in self.old.team }
        ensures waits { IfOk result (λ o. (w text : List ℕ) → FollowsBehind self.old w text
            → HasWaited self.old self.new w text piece.now o) }
        ensures none { IfOk result (λ o. IsWaitOver o → self.new ≡ self.old) }
        ensures counted { read_of self.new.team.oracle + length self.new.ahead
            ≤ read_of self.old.team.oracle + length self.old.ahead + length piece.now }
        ensures ready { IsTeamReady self.new.team }
    {
        match self.team.outlook(self.reached, piece) {
            Outlook::Quiet(state) => {
                self.ahead.extend_from_slice(piece)?;
                self.reached = state;
                Ok(Waiting::On)
            }
            Outlook::Refused(count) => {
                let before = self.team.read() + self.ahead.len() as u64;
                Ok(Waiting::Refused(before + count as u64))
            }
            Outlook::Told => Ok(Waiting::Over),
        }
    }
}

impl<'p> Worker for StageWorker<'p> {
    ghost use Rattle.kex_plan.specs.Plans.{Teller};

    type Basis = &'p Plan;

    ghost Machine = { Teller };

    ghost machine_in = { λ plan. teller_of plan.now };

    ghost machine = { λ s. teller_in s.team };

    ghost says = { λ t w at text. SaysOf t w at text };

    ghost closes = { λ t w parsed text. ClosesAs t w parsed text };

    ghost gives = { λ t n w e a. Gives (record { machine = t; limit = n }) w e a };

    ghost follows = { λ s w text. FollowsBehind s w text };

    ghost is_ready = { λ s. usable_of s.team.oracle && not (oracle_ended s.team.oracle)
        && s.team.actor.usable };

    ghost counted = { λ s. read_of s.team.oracle + length s.ahead };

    ghost may_want = { true };

    ghost answers = { λ t. answering t };

    fn start(alloc: Global, basis: &'p Plan) -> Result<StageWorker<'p>, Memory> {
        Ok(StageWorker {
            alloc,
            team: Team::new(alloc, basis)?,
            ahead: Vec::new(alloc),
            reached: 0,
        })
    }

    fn go_on(&mut self, piece: &[u8], out: &mut Vec<u8>) -> Result<Option<u64>, Memory> {
        let held = self.ahead.len();
        if held == 0 {
            return self.hear(0, piece, out);
        }
        match self.put_off(piece)? {
            Waiting::On => return Ok(None),
            Waiting::Refused(at) => return Ok(Some(at)),
            Waiting::Over => {}
        }
        let mut text = mem::replace(&mut self.ahead, Vec::new(self.alloc));
        text.extend_from_slice(piece)?;
        self.hear(held, &text, out)
    }

    fn finish(&mut self, out: &mut Vec<u8>) -> Result<bool, Memory> {
        let text = mem::replace(&mut self.ahead, Vec::new(self.alloc));
        if text.is_empty() {
            return self.team.finish(out);
        }
        finish_behind(&mut self.team, self.reached, &text, out)
    }
}

impl<'p> BeginsAnew for StageWorker<'p> {
    fn begin_anew(&mut self) -> Result<(), Memory> {
        self.ahead.clear();
        self.team.begin_anew()
    }
}
