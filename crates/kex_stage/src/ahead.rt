// Which bytes can wait: those whose code would do nothing, from a state without registers.

ghost use Rattle.std.specs.Prelude.{◌≡◌, ◌<◌, ◌↔◌, [], None, IfErr, IfOk, IfSome, IsTrue, OnOk};
ghost use Rattle.std.specs.Prelude.{false, length};
ghost use Rattle.kex_action.specs.Actors.{IsSettled};
ghost use Rattle.kex_action.specs.Holdings.{Rests};
ghost use Rattle.kex_machine.specs.Nodes.{node_moves};
ghost use Rattle.kex_runner.specs.Quiet.{GoesQuietly};
ghost use Rattle.kex_stage.specs.declared.advance.Look.TheVariants as looks;
ghost use Rattle.kex_stage.specs.Ahead.{CanWait, CannotEnd, IsIdleAt, SeesAhead};
ghost use Rattle.kex_stage.specs.PastFirsts.{IsPastFirst};
ghost use Rattle.kex_stage.specs.Works.{RefusesNone, StageGoes};

use crate::advance::Look;
use crate::follower::Follower;
use crate::oracle::Oracle;
use crate::speak::{StageFault, speak};
use kex_action::actor::Actor;
use kex_code::memory::Memory;
use kex_held::walk::learn_to_rest;
use kex_machine::{MNode, Trimmed};
use kex_sst::parts::Part;
use std::alloc::Global;

/// What is seen of a piece from a state of the table on: the table tells nothing of it, and it
/// leads to this state; or it tells nothing of that number of bytes, and refuses the next; or
/// neither was seen.
#[derive(Clone, Copy, Debug, PartialEq, Eq)]
pub enum Outlook {
    Quiet(u32),
    Refused(usize),
    Told,
}

// What the first byte of a piece says, and the state to which the piece leads.
#[derive(Clone, Copy)]
struct PastFirst<'a> {
    said: &'a [Part],
    to: u32,
}

// Whether what comes next at a node is a symbol, or the end.
fn rests(machine: &Trimmed, node: u32) -> bool
    ensures { IsTrue result → Rests (node_moves machine.now.nodes node) }
{
    match machine.nodes().get(node as usize) {
        None => false,
        Some(MNode::Do(_, _)) => false,
        Some(MNode::Skip(_)) => false,
        Some(_) => true,
    }
}

// Whether the code of parts does nothing from a node on.
fn is_idle(alloc: Global, machine: &Trimmed, node: u32, parts: &[Part]) -> Result<bool, Memory>
    requires { node < length machine.now.nodes }
    ensures { IfOk result (λ b. IsTrue b → IsIdleAt machine.now.nodes node parts.now) }
{
    let Some(learnt) = learn_to_rest(alloc, machine, node, parts)? else {
        return Ok(false);
    };
    Ok(learnt.actions.is_empty() && rests(machine, learnt.to))
}

impl<'p> Follower<'p> {
    // The state to which a piece leads from a state, if the table tells nothing of it.
    fn glance(&self, state: u32, piece: &[u8]) -> Option<u32>
        ensures { IfSome result (λ q. GoesQuietly self.now.runner.table state q piece.now) }
    {
        let seen = self.runner.glance(state, piece);
        if seen.count < piece.len() {
            return None;
        }
        Some(seen.state)
    }

    // What the first byte of a piece says at a state, and the state to which the piece leads, if
    // the table tells nothing of the others. So it is where a turn of a loop begins.
    fn past_first(&self, state: u32, piece: &[u8]) -> Option<PastFirst<'_>>
        requires within { state < length self.now.runner.table.states }
        requires some { 0 < length piece.now }
        ensures { IfSome result (IsPastFirst self.now.runner.table state piece.now) }
    {
        let class = self.table.partition().class_of(piece[0]);
        let (target, update) = self.table.next(state, class)?;
        let to = self.glance(target, &piece[1..])?;
        Some(PastFirst {
            said: update.out().as_slice(),
            to,
        })
    }

    /// The state to which bytes lead that can wait, if they are looked for and are such: what the
    /// table would tell of them does nothing, and no registers are held before them. The actor may
    /// do what needs no symbol meanwhile.
    pub fn look_ahead(
        &self,
        look: Look,
        actor: &mut Actor<'p>,
        piece: &[u8],
        out: &mut Vec<u8>,
    ) -> Result<Option<u32>, StageFault>
        requires told { self.now.runner.pending ≡ [] }
        requires actor { IsTrue actor.old.usable }
        requires learnt { actor.old.machine ≡ self.now.moves.machine }
        ensures goes { OnOk result (StageGoes (Oracle.Table self.now) (Oracle.Table self.now)
            actor.old actor.new [] out.old.items out.new.items) }
        ensures waits { IfOk result (λ o. IfSome o (λ q. IsSettled actor.new
            × CanWait (Oracle.Table self.now) actor.new piece.now q)) }
        ensures none { look ≡ looks.Nothing → IfOk result (λ o. o ≡ None) }
        ensures refuses { IfErr result (RefusesNone (Oracle.Table self.now) actor.old) }
        ensures machine { actor.new.machine ≡ actor.old.machine }
        ensures usable { OnOk result (IsTrue actor.new.usable) }
    {
        let past = match look {
            Look::Nothing => return Ok(None),
            Look::Quiet => false,
            Look::PastFirst => true,
        };
        if piece.is_empty() || self.runner.holds_registers() {
            return Ok(None);
        }
        let state = self.runner.state();
        if let Some(to) = self.glance(state, piece) {
            speak(actor, &[], out)?;
            return Ok(Some(to));
        }
        if !past {
            return Ok(None);
        }
        let Some(first) = self.past_first(state, piece) else {
            return Ok(None);
        };
        speak(actor, &[], out)?;
        if !is_idle(self.alloc, self.machine, actor.node(), first.said)? {
            return Ok(None);
        }
        Ok(Some(first.to))
    }

    /// What is seen of a piece from a state on.
    pub fn outlook(&self, state: u32, piece: &[u8]) -> Outlook
        ensures { SeesAhead (Oracle.Table self.now) state piece.now result }
    {
        let seen = self.runner.glance(state, piece);
        if seen.count == piece.len() {
            return Outlook::Quiet(seen.state);
        }
        if seen.state as usize >= self.table.states().len() {
            return Outlook::Told;
        }
        let class = self.table.partition().class_of(piece[seen.count]);
        match self.table.next(seen.state, class) {
            None => Outlook::Refused(seen.count),
            Some(_) => Outlook::Told,
        }
    }

    /// Whether a text may end at a state of the table.
    pub fn may_end(&self, state: u32) -> bool
        ensures { result ≡ false ↔ CannotEnd (Oracle.Table self.now) state }
    {
        match self.table.states().get(state as usize) {
            None => false,
            Some(row) => row.accepting().is_some(),
        }
    }
}
