// Ways: old registers one after another, and what they were before an update.

pub mod ids;

ghost use Rattle.std.specs.Prelude.{◌≡◌, ◌+◌, ◌^◌, ◌<◌, ◌≤◌, ◌++◌, ◌∷◌, [], List, All, IsTrue};
ghost use Rattle.std.specs.Prelude.{IfOk, IfSome, OnOk, length, drop, false, true, get_or, Some};
ghost use Rattle.kex_sst.specs.declared.parts.Part.{Part};
ghost use Rattle.kex_sst.specs.Parts.{olds};
ghost use Rattle.kex_script.specs.Pages.{KeepsItems};
ghost use Rattle.kex_script.specs.Scripts.{IsWord, Sheet, change_at, list_at};
ghost use Rattle.kex_runner.specs.Ways.{AreKnown, AreOlds, HasStart, HasStep, IsSplit};
ghost use Rattle.kex_runner.specs.Ways.{IsWayStep, IsStepIf, IsNumberedWay, composition, split_in};

use crate::ways::ids::{ShortWordId, WayId};
use kex_code::memory::Memory;
use kex_script::ids::{ListId, UpdateId};
use kex_script::interned::Interned;
use kex_script::script::Script;
use kex_sst::parts::{Part, Parts, are_same};
use std::alloc::Global;

// The most ways that are kept.
const MOST: usize = 16_384;

// Where the rows of updates have more numbers than this, no ways are kept: each look at one would
// come from far memory.
const NEAR: usize = 1 << 16;

/// A list is a way, and then a word or none. `last` is the way's last register.
#[derive(Clone, Copy, Debug, PartialEq, Eq)]
pub struct Split {
    pub way: WayId,
    pub last: u32,
    pub word: Option<ShortWordId>,
}

/// What a list of the script is, if it is a way and a word. List 0 is none.
#[derive(Clone, Copy, Debug, PartialEq, Eq)]
pub struct WayStart {
    pub list: ListId,
    pub split: Option<Split>,
}

/// What parts are: a way and a word, a way alone, or something else.
#[derive(Clone, Copy, Debug, PartialEq, Eq)]
pub enum Form {
    Said,
    Silent,
    Other,
}

/// What a way was before an update: its form, and the way and the word, as far as the form has
/// them. Plain numbers, since one is read for each note.
#[derive(Clone, Copy, Debug, PartialEq, Eq)]
pub struct WayStep {
    pub update: UpdateId,
    pub last: u32,
    pub from: WayId,
    pub way: WayId,
    pub word: ShortWordId,
    pub form: Form,
}

/// Ways by number, of which the first is empty, and what is known of them. Nothing rests on what is
/// known: it may be let go at any time.
#[derive(Drop)]
pub struct Ways {
    lists: Interned,
    starts: Vec<WayStart>,
    steps: Vec<WayStep>,
    // Room for parts that are joined.
    parts: Vec<Part>,
}

// Whether a part is an old register.
#[inline(always)]
fn is_old(part: Part) -> bool
    ensures old { result ≡ true → AreOlds (part ∷ []) }
    ensures other { result ≡ false → olds (part ∷ []) ≡ [] }
{
    match part {
        Part::Old(_) => true,
        Part::Put(_) => false,
        Part::Input => false,
    }
}

// Whether all parts are old registers.
fn are_olds(parts: &[Part]) -> bool
    ensures { IsTrue result → AreOlds parts.now }
{
    for part in parts {
        if !is_old(*part) {
            return false;
        }
    }
    true
}

// Where the word begins that parts end with: after the last old register.
fn word_start(parts: &[Part]) -> usize
    ensures within { result ≤ length parts.now }
    ensures plain { olds (drop result parts.now) ≡ [] }
{
    let mut start = parts.len();
    while start > 0 && !is_old(parts[start - 1]) {
        start -= 1;
    }
    start
}

// The number of a word, or none for no parts; nothing where it is none of the words.
fn word_number(words: &[Parts], word: &[Part]) -> Option<Option<ShortWordId>>
    ensures { IfSome result (λ n. IsWord words.now n word.now) }
{
    if word.is_empty() {
        return Some(None);
    }
    for i in 0..words.len() {
        if are_same(words[i].as_slice(), word) {
            let number = short(i)?;
            return Some(Some(number));
        }
    }
    None
}

// A number, if it is short.
fn short(number: usize) -> Option<u16>
    ensures { IfSome result (λ n. n ≡ number) }
{
    match u16::try_from(number) {
        Ok(number) => Some(number),
        Err(_) => None,
    }
}

// The last register of a way, or 0 where it has none.
fn last_of(way: &[Part]) -> u32 {
    match way.last() {
        Some(Part::Old(register)) => *register,
        _ => 0,
    }
}

/// Parts as a way and a word, if they are that.
pub fn split_of(
    words: &[Parts],
    ways: &mut Interned,
    parts: &[Part],
) -> Result<Option<Split>, Memory>
    ensures split { IfOk result (λ o. IfSome o (λ x. IsSplit words.now ways.new x parts.now)) }
    ensures kept { OnOk result (KeepsItems ways.old ways.new) }
{
    let start = word_start(parts);
    if ways.len() >= MOST || !are_olds(&parts[..start]) {
        return Ok(None);
    }
    let Some(word) = word_number(words, &parts[start..]) else {
        return Ok(None);
    };
    let number = ways.number(&parts[..start])?;
    let Some(way) = short(number as usize) else {
        return Ok(None);
    };
    let last = last_of(&parts[..start]);
    Ok(Some(Split { way, last, word }))
}

// A part is put after parts, an old register as what an update gives it.
fn put(script: &Script, update: UpdateId, part: Part, parts: &mut Vec<Part>) -> Result<(), Memory>
    ensures { OnOk result (parts.new.items
        ≡ parts.old.items ++ composition (change_at script.now update) (part ∷ [])) }
{
    match part {
        Part::Old(register) => {
            let list = script.list(script.given(update, register as usize));
            parts.extend_from_slice(list)?;
            Ok(())
        }
        Part::Put(_) => {
            parts.push(part)?;
            Ok(())
        }
        Part::Input => {
            parts.push(part)?;
            Ok(())
        }
    }
}

// What a way was before an update.
fn compose(
    script: &Script,
    update: UpdateId,
    way: &[Part],
    parts: &mut Vec<Part>,
) -> Result<(), Memory>
    ensures { OnOk result (parts.new.items ≡ composition (change_at script.now update) way.now) }
{
    parts.clear();
    for part in way {
        put(script, update, *part, parts)?;
    }
    Ok(())
}

// Where the step of a way with this last register is kept. Ways that have a place in common take it
// from one another.
#[inline(always)]
fn place_of(last: u32, update: UpdateId) -> usize
    ensures { result ≡ update + last }
{
    update as usize + last as usize
}

impl WayStep {
    ghost use Rattle.std.specs.Prelude.{◌≡◌};
    ghost use Rattle.kex_runner.specs.Ways.{split_in};

    // What a way was before an update.
    fn new(from: WayId, update: UpdateId, split: Option<Split>) -> WayStep
        ensures { (result.from ≡ from) × (result.update ≡ update) × (split_in result ≡ split) }
    {
        let (split, word, form) = match split {
            None => (
                Split {
                    way: 0,
                    last: 0,
                    word: None,
                },
                0,
                Form::Other,
            ),
            Some(split) => match split.word {
                None => (split, 0, Form::Silent),
                Some(word) => (split, word, Form::Said),
            },
        };
        WayStep {
            update,
            last: split.last,
            from,
            way: split.way,
            word,
            form,
        }
    }

    // The same as a way and a word, if it is that.
    #[inline(always)]
    fn split(self) -> Option<Split>
        ensures { result ≡ split_in self }
    {
        match self.form {
            Form::Other => None,
            Form::Silent => Some(Split {
                way: self.way,
                last: self.last,
                word: None,
            }),
            Form::Said => Some(Split {
                way: self.way,
                last: self.last,
                word: Some(self.word),
            }),
        }
    }
}

// The step of a way before an update, if it is kept.
#[inline(always)]
fn kept(steps: &[WayStep], way: WayId, last: u32, update: UpdateId) -> Option<WayStep>
    ensures step { IfSome result (λ x. (s : Sheet) (ways : List (List Part)) → All
        (IsStepIf s ways) steps.now → IfSome (split_in x) (λ y. IsWayStep s ways way update y)) }
    ensures kept { IfSome result (λ x. HasStep steps.now way last update (split_in x)) }
{
    let step = *steps.get(place_of(last, update))?;
    if step.from == way && step.update == update {
        Some(step)
    } else {
        None
    }
}

/// What a way was before an update, as a way and a word, if that is known.
#[inline(always)]
pub fn known_step(steps: &[WayStep], way: WayId, last: u32, update: UpdateId) -> Option<Split>
    ensures { IfSome result (λ x. (s : Sheet) (ways : List (List Part))
        → All (IsStepIf s ways) steps.now → IsWayStep s ways way update x) }
{
    kept(steps, way, last, update)?.split()
}

impl Ways {
    /// Nothing is known but the empty way.
    pub fn new(alloc: Global, script: &Script) -> Result<Ways, Memory>
        ensures known { IfOk result (λ w. AreKnown script.now w) }
        ensures room { IfOk result (λ w. length script.now.rows ≤ 2 ^ 16 → (length w.steps.items
            ≡ length script.now.rows) × (length w.starts.items ≡ length script.now.lists)) }
    {
        let mut lists = Interned::new(alloc);
        lists.add(&[])?;
        let start = WayStart {
            list: 0,
            split: None,
        };
        let step = WayStep::new(0, 0, None);
        let far = script.rows() > NEAR;
        Ok(Ways {
            lists,
            starts: vec![in alloc; start; if far { 0 } else { script.count() }]?,
            steps: vec![in alloc; step; if far { 0 } else { script.rows() }]?,
            parts: Vec::new(alloc),
        })
    }

    /// The parts of a way.
    pub fn way(&self, way: WayId) -> &[Part]
        ensures { result.now ≡ get_or self.now.lists way [] }
    {
        self.lists.list(u32::from(way))
    }

    /// The steps that are known.
    #[inline(always)]
    pub fn steps(&self) -> &[WayStep]
        ensures { result.now ≡ self.now.steps.items }
    {
        &self.steps
    }

    // What is known of a list.
    #[inline(always)]
    fn known_start(&self, list: ListId) -> Option<WayStart>
        requires { 0 < list }
        ensures split { IfSome result (λ x. (s : Sheet) → AreKnown s self.now
            → IfSome x.split (λ y. IsSplit s.words self.now.lists y (list_at s list))) }
        ensures kept { IfSome result (λ x. HasStart self.now.starts.items list x.split) }
    {
        let start = *self.starts.get(list as usize)?;
        if start.list == list {
            Some(start)
        } else {
            None
        }
    }

    // A list as a way and a word, if it is that.
    #[inline(never)]
    fn learn_start(&mut self, script: &Script, list: ListId) -> Result<Option<Split>, Memory>
        requires known { AreKnown script.now self.old }
        ensures known { OnOk result (AreKnown script.now self.new) }
        ensures split { IfOk result (λ o.
            IfSome o (λ x. IsSplit script.now.words self.new.lists x (list_at script.now list))) }
        ensures learnt { IfOk result (λ o. HasStart self.new.starts.items list o) }
        ensures steps { self.new.steps ≡ self.old.steps }
    {
        let parts = script.list(list);
        let split = split_of(script.words(), &mut self.lists, parts)?;
        let place = list as usize;
        if place < self.starts.len() {
            self.starts[place] = WayStart { list, split };
        }
        Ok(split)
    }

    /// A list as a way and a word, if it is that.
    #[inline(always)]
    pub fn start(&mut self, script: &Script, list: ListId) -> Result<Option<Split>, Memory>
        requires known { AreKnown script.now self.old }
        ensures known { OnOk result (AreKnown script.now self.new) }
        ensures split { IfOk result (λ o.
            IfSome o (λ x. IsSplit script.now.words self.new.lists x (list_at script.now list))) }
        ensures learnt { IfOk result (λ o. 0 < list → 0 < length self.new.steps.items
            → HasStart self.new.starts.items list o) }
    {
        if list == 0 || self.steps.is_empty() {
            return Ok(None);
        }
        match self.known_start(list) {
            Some(start) => Ok(start.split),
            None => self.learn_start(script, list),
        }
    }

    // What a way was before an update, as a way and a word, if it is that.
    #[inline(never)]
    fn learn_step(
        &mut self,
        script: &Script,
        way: WayId,
        last: u32,
        update: UpdateId,
    ) -> Result<Option<Split>, Memory>
        requires known { AreKnown script.now self.old }
        requires way { (from : List Part) × IsNumberedWay self.old.lists way from }
        ensures known { OnOk result (AreKnown script.now self.new) }
        ensures kept { OnOk result (KeepsItems self.old.lists self.new.lists) }
        ensures step { IfOk result (λ o.
            IfSome o (λ x. IsWayStep script.now self.new.lists way update x)) }
        ensures learnt { IfOk result (λ o. HasStep self.new.steps.items way last update o) }
    {
        compose(
            script,
            update,
            self.lists.list(u32::from(way)),
            &mut self.parts,
        )?;
        let split = split_of(script.words(), &mut self.lists, &self.parts)?;
        let place = place_of(last, update);
        if place < self.steps.len() {
            self.steps[place] = WayStep::new(way, update, split);
        }
        Ok(split)
    }

    /// What a way was before an update, as a way and a word, if it is that.
    pub fn step(
        &mut self,
        script: &Script,
        way: WayId,
        last: u32,
        update: UpdateId,
    ) -> Result<Option<Split>, Memory>
        requires known { AreKnown script.now self.old }
        requires way { (from : List Part) × IsNumberedWay self.old.lists way from }
        requires some { 0 < way }
        ensures known { OnOk result (AreKnown script.now self.new) }
        ensures kept { OnOk result (KeepsItems self.old.lists self.new.lists) }
        ensures step { IfOk result (λ o.
            IfSome o (λ x. IsWayStep script.now self.new.lists way update x)) }
        ensures learnt { IfOk result (λ o. HasStep self.new.steps.items way last update o) }
    {
        match kept(&self.steps, way, last, update) {
            Some(step) => Ok(step.split()),
            None => self.learn_step(script, way, last, update),
        }
    }
}
