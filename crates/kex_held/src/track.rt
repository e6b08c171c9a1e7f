// How a list of parts is made of old lists, at a node.

ghost use Rattle.std.specs.Prelude.{◌≡◌, ◌<◌, ◌++◌, [], IfOk, OnOk, IfSome, length};
ghost use Rattle.kex_held.specs.LearntEdges.{AreTrackedAny};
ghost use Rattle.kex_held.specs.Tracks.{TracksAny, GoesBy, StepsBy, own_all};

use crate::item::RegisterText;
use crate::link::Link;
use crate::upper::{Place, Starts, able_nodes, by_taken, start_of, upper_end};
use crate::walk::learn_to_rest;
use kex_action::action::Action;
use kex_code::memory::Memory;
use kex_machine::{MNode, Trimmed};
use kex_sst::parts::{Part, Parts};
use kex_sst::table::Table;
use std::alloc::Global;
use std::marker::Model;

/// From which node a list of parts leads to which, and what the new list is made of.
#[derive(Drop)]
pub struct Tracked {
    from: u32,
    to: u32,
    links: Vec<Link>,
}

impl Model for Tracked {
    ghost use Rattle.kex_held.specs.Tracks.{Passage};

    ghost Value = { Passage };

    ghost view = { λ t. record { from = t.from; to = t.to; links = t.links.items } };
}

impl Tracked {
    /// The node from which the parts lead.
    pub fn from(&self) -> u32
        ensures { result ≡ self.now.from }
    {
        self.from
    }

    /// The node to which they lead.
    pub fn to(&self) -> u32
        ensures { result ≡ self.now.to }
    {
        self.to
    }

    /// What the new list is made of.
    pub fn links(&self) -> &[Link]
        ensures { result.now ≡ self.now.links }
    {
        &self.links
    }
}

// Notes actions.
fn note(actions: &[Action], links: &mut Vec<Link>) -> Result<(), Memory>
    ensures { OnOk result (links.new.items ≡ links.old.items ++ own_all actions.now) }
{
    'actions: for action in actions {
        links.push(Link::Own(*action))?;
    }
    Ok(())
}

// Goes on by a part, or by what needs none.
fn go_on(
    alloc: Global,
    machine: &Trimmed,
    parts: &[Part],
    from: u32,
    links: &mut Vec<Link>,
) -> Result<Option<u32>, Memory>
    requires { from < length machine.now.nodes }
    ensures within { IfOk result (λ o. IfSome o (λ to. to < length machine.now.nodes)) }
    ensures goes { IfOk result (λ o. IfSome o (λ to.
        GoesBy machine.now.nodes from parts.now to links.old.items links.new.items)) }
{
    let Some(learnt) = learn_to_rest(alloc, machine, from, parts)? else {
        return Ok(None);
    };
    note(&learnt.actions, links)?;
    Ok(Some(learnt.to))
}

// Goes on by a part: by its symbol, or along an old register from the upper end of its edge.
fn step(
    alloc: Global,
    machine: &Trimmed,
    texts: &[RegisterText],
    from: u32,
    part: Part,
    links: &mut Vec<Link>,
) -> Result<Option<u32>, Memory>
    requires { from < length machine.now.nodes }
    ensures within { IfOk result (λ o. IfSome o (λ to. to < length machine.now.nodes)) }
    ensures steps { IfOk result (λ o. IfSome o (λ to.
        StepsBy machine.now.nodes texts.now part from to links.old.items links.new.items)) }
{
    let Part::Old(register) = part else {
        let Some(to) = go_on(alloc, machine, &[part], from, links)? else {
            return Ok(None);
        };
        return Ok(Some(to));
    };
    let Some(at) = go_on(alloc, machine, &[], from, links)? else {
        return Ok(None);
    };
    if register as usize >= texts.len() {
        return Ok(None);
    }
    let text = &texts[register as usize];
    let to = text.to();
    if text.from() != at || to as usize >= machine.nodes().len() {
        return Ok(None);
    }
    links.push(Link::Whole(register))?;
    Ok(Some(to))
}

/// How the list of the parts is made of old lists, from a node. `None` says nothing.
pub fn track(
    alloc: Global,
    machine: &Trimmed,
    texts: &[RegisterText],
    from: u32,
    parts: &[Part],
) -> Result<Option<Tracked>, Memory>
    requires { from < length machine.now.nodes }
    ensures from { IfOk result (λ o. IfSome o (λ p. p.from ≡ from)) }
    ensures within { IfOk result (λ o. IfSome o (λ p. p.to < length machine.now.nodes)) }
    ensures tracks { IfOk result (λ o.
        IfSome o (λ p. TracksAny machine.now.nodes texts.now parts.now from p.to p.links)) }
{
    let mut links = Vec::new(alloc);
    let mut at = from;
    'parts: for part in parts {
        let Some(to) = step(alloc, machine, texts, at, *part, &mut links)? else {
            return Ok(None);
        };
        at = to;
    }
    let Some(to) = go_on(alloc, machine, &[], at, &mut links)? else {
        return Ok(None);
    };
    Ok(Some(Tracked { from, to, links }))
}

// How many nodes are looked at after a node for those at which the path tree may fork.
const MOST_LOOKS: usize = 256;

// Puts before nodes at which the path tree may fork those to which a node leads without a byte, in
// preorder.
fn put_forks(
    alloc: Global,
    machine: &Trimmed,
    node: u32,
    forks: &mut Vec<u32>,
) -> Result<(), Memory> {
    let mut ahead = Vec::new(alloc);
    let mut found = Vec::new(alloc);
    ahead.push(node)?;
    'looks: for _ in 0..MOST_LOOKS {
        let Some(at) = ahead.pop() else {
            break;
        };
        match machine.nodes().get(at as usize) {
            Some(MNode::Choice(left, right)) if !found.contains(&at) => {
                found.push(at)?;
                ahead.push(*right)?;
                ahead.push(*left)?;
            }
            Some(MNode::Forced(_, next)) => ahead.push(*next)?,
            Some(MNode::Do(_, next)) => ahead.push(*next)?,
            Some(MNode::Skip(next)) => ahead.push(*next)?,
            _ => {}
        }
    }
    found.extend_from_slice(forks)?;
    *forks = found;
    Ok(())
}

// How the list of the parts is made, from the first of some nodes from which it can be tracked.
fn track_from_any(
    alloc: Global,
    machine: &Trimmed,
    texts: &[RegisterText],
    forks: &[u32],
    parts: &[Part],
) -> Result<Option<Tracked>, Memory>
    ensures { IfOk result (λ o. IfSome o (λ p.
        TracksAny machine.now.nodes texts.now parts.now p.from p.to p.links)) }
{
    'forks: for from in forks {
        if *from as usize >= machine.nodes().len() {
            return Ok(None);
        }
        if let Some(tracked) = track(alloc, machine, texts, *from, parts)? {
            return Ok(Some(tracked));
        }
    }
    Ok(None)
}

/// What lists are made of: what the registers of a row hold, where a byte is read.
#[derive(Clone, Copy)]
pub struct ListTracker<'t> {
    pub alloc: Global,
    pub table: &'t Table,
    pub machine: &'t Trimmed,
    pub texts: &'t [RegisterText],
    pub byte: u8,
}

impl<'t> ListTracker<'t> {
    // The nodes from which the list of parts of a register may be tracked, the likeliest first.
    fn starts_of(
        &self,
        known: &[Tracked],
        forks: &[u32],
        lists: &[Parts],
        parts: &[Part],
        place: Place,
    ) -> Result<Vec<u32>, Memory> {
        let machine = self.machine;
        let able = able_nodes(self.alloc, machine, self.texts, forks, parts, self.byte)?;
        let Starts { mut free, taken } = by_taken(self.alloc, known, lists, &able, parts)?;
        let start = match start_of(self.texts, parts) {
            Some(start) => Some(start),
            None if able.len() == 1 => None,
            None => upper_end(self.alloc, self.table, machine, known, place)?,
        };
        if let Some(start) = start {
            free.insert(0, start)?;
        }
        free.extend_from_slice(&taken)?;
        Ok(free)
    }

    /// The lists of parts of new registers of a state, each from the upper end of its edge of the
    /// path tree. `None` says nothing.
    ///
    /// A list that goes on with an old register begins where that begins. Another upper end is a
    /// node with a choice, to which the root or a lower end leads without a byte, and from which
    /// the list can be taken where the byte is read. Where there are several, what comes later says
    /// which it is, or else the order of the lists (`by_taken`). Nothing rests on that: what is
    /// tracked is right from whichever node.
    pub fn track_edges(
        &self,
        state: u32,
        root: u32,
        lists: &[Parts],
    ) -> Result<Option<Vec<Tracked>>, Memory>
        ensures { IfOk result (λ o. IfSome o (λ ps.
            AreTrackedAny self.now.machine.now.nodes self.now.texts.now lists.now ps.items)) }
    {
        let alloc = self.alloc;
        let machine = self.machine;
        let mut forks = Vec::new(alloc);
        put_forks(alloc, machine, root, &mut forks)?;
        let mut all = Vec::new(alloc);
        'lists: for parts in lists {
            let Ok(register) = u32::try_from(all.len()) else {
                return Ok(None);
            };
            let place = Place {
                state,
                root,
                register,
            };
            let list = parts.as_slice();
            let starts = self.starts_of(&all, &forks, lists, list, place)?;
            let Some(tracked) = track_from_any(alloc, machine, self.texts, &starts, list)? else {
                return Ok(None);
            };
            put_forks(alloc, machine, tracked.to(), &mut forks)?;
            all.push(tracked)?;
        }
        Ok(Some(all))
    }
}
