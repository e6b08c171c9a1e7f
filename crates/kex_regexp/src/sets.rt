// Sets between brackets: where the next byte comes, and which bytes are in the set so far.

ghost use Rattle.std.specs.Prelude.{◌≡◌, ◌&&◌, ◌||◌, ℕ, Bool, List, Option, false, not, nat_le};
ghost use Rattle.std.specs.Prelude.{nat_lt};
ghost use Rattle.kex_byteset.specs.Sets.{HasExactly, has};
ghost use Rattle.kex_model.specs.declared.program.Node.{Node};
ghost use Rattle.kex_regexp.specs.Notes.{is_bad_set_so_far};
ghost use Rattle.kex_regexp.specs.Outcomes.{begin_outcome, between_outcome, ended_span};
ghost use Rattle.kex_regexp.specs.Outcomes.{first_outcome, last_outcome, last_span, set_outcome};
ghost use Rattle.kex_regexp.specs.Holding.{IsSetAfter, IsSetIn, ShowsMode};
ghost use Rattle.kex_regexp.specs.Machine.{Entry, Mode, step_in};
ghost use Rattle.kex_regexp.specs.declared.sets.SetPart.TheVariants.{HasDash, HasEnd};
ghost use Rattle.kex_regexp.specs.Values.{membership};

use crate::bytes::is_end;
use crate::escapes::{EscapeOutcome, Escaping, escape};
use crate::wait::Wait;
use kex_byteset::ByteSet;

/// Where in a set the next byte comes.
#[derive(Clone, Copy, Drop)]
pub enum SetPart {
    AtStart,
    Between,
    HasEnd(u8),
    HasDash(u8),
    InFirst(Escaping),
    InLast { first: u8, escaping: Escaping },
}

/// What comes of a set by one more byte.
#[derive(Clone, Copy, Drop)]
pub enum SetOutcome {
    On {
        negated: bool,
        empty: bool,
        part: SetPart,
    },
    Read {
        negated: bool,
    },
    Wrong,
}

/// The bytes of a member, from the first to the last.
#[derive(Clone, Copy, Drop)]
pub struct Span {
    pub first: u8,
    pub last: u8,
}

/// The members of a set that have ended.
#[derive(Drop)]
pub struct SetSoFar {
    /// The bytes that are in one of them.
    pub bytes: ByteSet,
    /// Whether one of them has its first byte above its last.
    pub backward: bool,
}

#[tactic(auto, unfolding(crate::specs::Outcomes::begin_outcome))]
fn begin_member(negated: bool, empty: bool, byte: u8) -> SetOutcome
    ensures { result ≡ begin_outcome negated empty byte }
{
    if is_end(byte) {
        SetOutcome::On {
            negated,
            empty,
            part: SetPart::HasEnd(byte),
        }
    } else if byte == b'\\' {
        SetOutcome::On {
            negated,
            empty,
            part: SetPart::InFirst(Escaping::Begun),
        }
    } else {
        SetOutcome::Wrong
    }
}

#[tactic(auto, unfolding(crate::specs::Outcomes::between_outcome))]
fn between_members(negated: bool, empty: bool, byte: u8) -> SetOutcome
    ensures { result ≡ between_outcome negated empty byte }
{
    if empty {
        begin_member(negated, empty, byte)
    } else if byte == b']' {
        SetOutcome::Read { negated }
    } else {
        begin_member(negated, empty, byte)
    }
}

#[tactic(auto, unfolding(crate::specs::Outcomes::first_outcome))]
fn in_first_end(negated: bool, empty: bool, escaped: EscapeOutcome) -> SetOutcome
    ensures { result ≡ first_outcome negated empty escaped }
{
    let part = match escaped {
        EscapeOutcome::On(escaping) => SetPart::InFirst(escaping),
        EscapeOutcome::Read(byte) => SetPart::HasEnd(byte),
        EscapeOutcome::Wrong => return SetOutcome::Wrong,
    };
    SetOutcome::On {
        negated,
        empty,
        part,
    }
}

#[tactic(auto, unfolding(crate::specs::Outcomes::last_outcome))]
fn in_last_end(negated: bool, empty: bool, first: u8, escaped: EscapeOutcome) -> SetOutcome
    ensures { result ≡ last_outcome negated empty first escaped }
{
    match escaped {
        EscapeOutcome::On(escaping) => SetOutcome::On {
            negated,
            empty,
            part: SetPart::InLast { first, escaping },
        },
        EscapeOutcome::Read(_) => SetOutcome::On {
            negated,
            empty: false,
            part: SetPart::Between,
        },
        EscapeOutcome::Wrong => SetOutcome::Wrong,
    }
}

// A byte after an end, which may begin a range.
#[tactic(auto, unfolding(crate::specs::Outcomes::set_outcome))]
fn behind_end(negated: bool, empty: bool, end: u8, byte: u8) -> SetOutcome
    ensures { result ≡ set_outcome negated empty (HasEnd end) byte }
{
    if byte == b'-' {
        SetOutcome::On {
            negated,
            empty,
            part: SetPart::HasDash(end),
        }
    } else {
        between_members(negated, false, byte)
    }
}

// A byte after the dash of a range.
#[tactic(auto, unfolding(crate::specs::Outcomes::set_outcome))]
fn behind_dash(negated: bool, empty: bool, first: u8, byte: u8) -> SetOutcome
    ensures { result ≡ set_outcome negated empty (HasDash first) byte }
{
    if is_end(byte) {
        SetOutcome::On {
            negated,
            empty: false,
            part: SetPart::Between,
        }
    } else if byte == b'\\' {
        let escaping = Escaping::Begun;
        SetOutcome::On {
            negated,
            empty,
            part: SetPart::InLast { first, escaping },
        }
    } else {
        SetOutcome::Wrong
    }
}

/// What a byte makes of a set, where it comes in this part of it.
#[tactic(auto, unfolding(crate::specs::Outcomes::set_outcome))]
pub fn in_set(negated: bool, empty: bool, part: SetPart, byte: u8) -> SetOutcome
    ensures { result ≡ set_outcome negated empty part byte }
{
    match part {
        SetPart::AtStart if byte == b'^' => SetOutcome::On {
            negated: true,
            empty,
            part: SetPart::Between,
        },
        SetPart::AtStart | SetPart::Between => between_members(negated, empty, byte),
        SetPart::HasEnd(end) => behind_end(negated, empty, end, byte),
        SetPart::HasDash(first) => behind_dash(negated, empty, first, byte),
        SetPart::InFirst(escaping) => in_first_end(negated, empty, escape(escaping, byte)),
        SetPart::InLast { first, escaping } => in_last_end(
            negated,
            empty,
            first,
            escape(escaping, byte),
        ),
    }
}

/// The member that a byte ends, if it ends one.
#[tactic(auto, unfolding(crate::specs::Outcomes::ended_span, crate::specs::Outcomes::last_span))]
fn ended(part: SetPart, byte: u8) -> Option<Span>
    ensures { result ≡ ended_span part byte }
{
    match part {
        SetPart::AtStart => None,
        SetPart::Between => None,
        SetPart::HasEnd(end) => {
            if byte == b'-' {
                None
            } else {
                Some(Span {
                    first: end,
                    last: end,
                })
            }
        }
        SetPart::HasDash(first) => {
            if is_end(byte) {
                Some(Span { first, last: byte })
            } else {
                None
            }
        }
        SetPart::InFirst(_) => None,
        SetPart::InLast { first, escaping } => match escape(escaping, byte) {
            EscapeOutcome::On(_) => None,
            EscapeOutcome::Read(last) => Some(Span { first, last }),
            EscapeOutcome::Wrong => None,
        },
    }
}

impl SetSoFar {
    /// No members yet.
    pub fn new() -> SetSoFar
        ensures bytes { HasExactly result.bytes (λ _. false) }
        ensures backward { result.backward ≡ false }
    {
        SetSoFar {
            bytes: ByteSet::empty(),
            backward: false,
        }
    }

    // Adds the bytes of a member.
    fn add(&mut self, member: Span)
        ensures bytes { (test : ℕ → Bool) → HasExactly self.old.bytes test
            → HasExactly self.new.bytes (λ b. test b
            || (nat_le member.first b && nat_le b member.last)) }
        ensures backward { self.new.backward
            ≡ (self.old.backward || nat_lt member.last member.first) }
    {
        if member.first == member.last {
            self.bytes.insert(member.first);
        } else if member.first < member.last {
            self.bytes = self.bytes.union(&ByteSet::range(member.first, member.last));
        } else {
            self.backward = true;
        }
    }

    /// Takes in the member that this byte ends. At a bracket that may open a set there are no
    /// members yet.
    pub fn take_in(&mut self, wait: Wait, byte: u8)
        ensures { (nodes : List Node) (at : ℕ) (m : Mode) (es : List Entry)
            → ShowsMode nodes at wait m → IsSetIn self.old m
            → IsSetAfter self.new (step_in m es byte) }
    {
        if let Wait::InSet { part, .. } = wait {
            if let Some(member) = ended(part, byte) {
                self.add(member);
            }
        } else if byte == b'[' {
            *self = SetSoFar::new();
        }
    }

    /// The set of these members, or what is not in one of them.
    pub fn read(&self, negated: bool) -> ByteSet
        ensures { HasExactly result (λ b. membership negated (has self.now.bytes b)) }
    {
        if negated {
            self.bytes.complement()
        } else {
            self.bytes.copy()
        }
    }

    /// Whether the set breaks the rule of sets.
    #[tactic(auto, unfolding(crate::specs::Notes::is_bad_set_so_far))]
    pub fn is_bad(&self, negated: bool) -> bool
        ensures { result ≡ is_bad_set_so_far self.now negated }
    {
        self.backward || !self.read(negated).has_any()
    }
}
