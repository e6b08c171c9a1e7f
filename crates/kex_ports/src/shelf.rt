// Texts by name.
ghost use Rattle.std.specs.Prelude.{◌≡◌, ◌≤◌, ◌∷◌, [], ℕ, Option, Some, IfOk, OnOk, OnErr};
ghost use Rattle.std.specs.Prelude.{IsErrOf, option_map, length, map, string_bytes};
ghost use Rattle.kex_ports.specs.Calls.{none_made};
ghost use Rattle.kex_ports.specs.InMemory.{HasTaken};
ghost use Rattle.kex_ports.specs.Named.{Texts, text_named};
ghost use Rattle.kex_ports.specs.Shelf.{HasShelfCause, HasShelfBreak, IsTold, IsPast, told_of};
ghost use Rattle.kex_ports.specs.declared.shelf.ShelfAnswer.TheVariants.{TooLong};

use crate::calls::Calls;
use kex_code::memory::Memory;
use std::alloc::Global;
use std::marker::Model;
use thiserror::Error;

/// Why a text was not taken.
#[derive(Clone, Copy, Debug, PartialEq, Eq, Drop, Error)]
pub enum ShelfAnswer {
    /// The count of faults rose. Absence is a fault.
    #[error("the shelf failed")]
    Failed,
    /// The text is longer than the limit.
    #[error("the text is too long")]
    TooLong,
    #[error("out of memory")]
    Memory,
}

/// Texts by name, and the number of faults.
pub trait Shelf {
    /// The texts, where the shelf tells them.
    ghost texts: { Self → Option Texts };

    /// How often it has failed.
    ghost faults: { Self → ℕ };

    /// How often it has failed at a name that has a text.
    ghost breaks: { Self → ℕ };

    /// The text of a name.
    fn take(&mut self, alloc: Global, name: &str, limit: usize) -> Result<Vec<u8>, ShelfAnswer>
        ensures texts { texts self.new ≡ texts self.old }
        ensures found { IfOk result (λ text.
            IsTold (told_of (texts self.old) name.now) text.items) }
        ensures within { IfOk result (λ text. length text.items ≤ limit) }
        ensures too_long { IsErrOf result TooLong
            → IsPast (told_of (texts self.old) name.now) limit }
        ensures cause { HasShelfCause (faults self.old) (faults self.new) result }
        ensures broken { HasShelfBreak (told_of (texts self.old) name.now) (breaks self.old)
            (breaks self.new) result };
}

#[derive(Drop)]
struct Named {
    name: String,
    text: Vec<u8>,
}

/// Texts in memory. The calls with these numbers, counted from 1, fail.
#[derive(Drop)]
pub struct MemShelf {
    alloc: Global,
    texts: Vec<Named>,
    calls: Calls,
    breaks: u64,
}

impl Model for MemShelf {
    ghost use Rattle.std.specs.Prelude.{map, string_bytes};
    ghost use Rattle.kex_ports.specs.InMemory.{Shelved};

    ghost Value = { Shelved };

    ghost view = { λ s. record {
      texts = map (λ e.
          (string_bytes e.name, e.text.items)) s.texts.items;
      calls = s.calls;
      breaks = s.breaks;
    } };
}

impl MemShelf {
    /// No texts yet.
    pub fn new(alloc: Global, fails: Vec<u64>) -> Self
        ensures { result ≡ record { texts = []; calls = none_made fails.items; breaks = 0 } }
    {
        MemShelf {
            alloc,
            texts: Vec::new(alloc),
            calls: Calls::new(fails),
            breaks: 0,
        }
    }

    /// Gives the name this text, in place of one that it had.
    pub fn put(&mut self, name: &str, text: &[u8]) -> Result<(), Memory>
        ensures texts { OnOk result (self.new ≡ record {
          texts = (
            name.now,
            text.now,
          ) ∷ self.old.texts;
          calls = self.old.calls;
          breaks = self.old.breaks;
        }) }
        ensures kept { OnErr result (self.new ≡ self.old) }
    {
        let name = name.to_owned(self.alloc)?;
        let text = text.to_vec(self.alloc)?;
        self.texts.insert(0, Named { name, text })?;
        Ok(())
    }
}

fn find<'a>(texts: &'a [Named], name: &str) -> Option<&'a Vec<u8>>
    ensures { option_map (λ text. text.now.items) result
        ≡ text_named (map (λ e. (string_bytes e.name, e.text.items)) texts.now) name.now }
{
    for entry in texts {
        if entry.name.as_str() == name {
            return Some(&entry.text);
        }
    }
    None
}

impl Shelf for MemShelf {
    ghost texts = { λ s. Some s.texts };

    ghost faults = { λ s. s.calls.faults };

    ghost breaks = { λ s. s.breaks };

    fn take(&mut self, alloc: Global, name: &str, limit: usize) -> Result<Vec<u8>, ShelfAnswer>
        ensures texts { Some self.new.texts ≡ Some self.old.texts }
        ensures found { IfOk result (λ text.
            IsTold (told_of (Some self.old.texts) name.now) text.items) }
        ensures within { IfOk result (λ text. length text.items ≤ limit) }
        ensures too_long { IsErrOf result TooLong
            → IsPast (told_of (Some self.old.texts) name.now) limit }
        ensures cause { HasShelfCause self.old.calls.faults self.new.calls.faults result }
        ensures broken { HasShelfBreak
            (told_of (Some self.old.texts) name.now) self.old.breaks self.new.breaks result }
        ensures exact { HasTaken (λ text. text.items) self.old self.new name.now limit result }
    {
        let Some(text) = find(&self.texts, name) else {
            self.calls.fail();
            return Err(ShelfAnswer::Failed);
        };
        if self.calls.is_next_failing() {
            self.calls.fail();
            self.breaks = self.breaks.saturating_add(1);
            return Err(ShelfAnswer::Failed);
        }
        self.calls.pass();
        if text.len() > limit {
            return Err(ShelfAnswer::TooLong);
        }
        match text.to_vec(alloc) {
            Ok(copy) => Ok(copy),
            Err(_) => Err(ShelfAnswer::Memory),
        }
    }
}
