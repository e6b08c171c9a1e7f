// What is open in a definition.

ghost use Rattle.std.specs.Prelude.{◌≡◌, ℕ, List, [], ◌∷◌, length, OnOk, IfSome, IfNone};
ghost use Rattle.std.specs.Prelude.{◌==◌};
ghost use Rattle.kex_reader.specs.Stands.{is_opening, open_constructs, construct_of};

use kex_code::memory::Memory;
use std::alloc::Global;
use std::marker::Model;

/// A node, and the offset of its first word.
#[derive(Clone, Copy)]
pub(crate) struct PlacedNode {
    pub(crate) node: u32,
    pub(crate) at: u32,
}

/// A register that what follows is put into, and the offset of its name.
#[derive(Clone, Copy)]
pub(crate) struct PlacedRegister {
    pub(crate) register: u32,
    pub(crate) at: u32,
}

/// An open parenthesis; a sequence that a bar has ended; a member of the sequence that is being
/// read; a prefix that waits for what comes after it.
#[derive(Clone, Copy)]
pub(crate) enum TermConstruct {
    Mark(u32),
    Ended(PlacedNode),
    Done(PlacedNode),
    Muted(u32),
    Storing(PlacedRegister),
}

/// A prefix with its offset.
#[derive(Clone, Copy)]
pub(crate) enum Prefix {
    Mute(u32),
    Store(PlacedRegister),
}

/// Constructs, the newest on top, and how many of them are parentheses or prefixes.
#[derive(Drop)]
pub(crate) struct Stack {
    constructs: Vec<TermConstruct>,
    depth: usize,
}

impl Model for Stack {
    ghost use Rattle.std.specs.Prelude.{◌≡◌, List, reverse};
    ghost use Rattle.kex_reader.specs.declared.stack.TermConstruct.{TermConstruct};
    ghost use Rattle.kex_reader.specs.Stands.{open_constructs};

    ghost Value = { List TermConstruct };

    ghost view = { λ s. reverse s.constructs.items };

    ghost invariant = { λ s. s.depth ≡ open_constructs (reverse s.constructs.items) };
}

impl TermConstruct {
    fn is_open(self) -> bool
        ensures { result ≡ is_opening self }
    {
        match self {
            TermConstruct::Mark(_) => true,
            TermConstruct::Muted(_) => true,
            TermConstruct::Storing(_) => true,
            _ => false,
        }
    }
}

impl Stack {
    pub(crate) fn new(alloc: Global) -> Stack
        ensures { result ≡ [] }
    {
        Stack {
            constructs: Vec::new(alloc),
            depth: 0,
        }
    }

    // How many parentheses and prefixes are open.
    pub(crate) fn depth(&self) -> usize
        ensures { result ≡ open_constructs self.now }
    {
        self.depth
    }

    pub(crate) fn is_empty(&self) -> bool
        ensures { result ≡ (length self.now == 0) }
    {
        self.constructs.is_empty()
    }

    pub(crate) fn push(&mut self, construct: TermConstruct) -> Result<(), Memory>
        ensures { OnOk result (self.new ≡ construct ∷ self.old) }
    {
        self.constructs.push(construct)?;
        if construct.is_open() {
            self.depth += 1;
        }
        Ok(())
    }

    // Takes a member from the top.
    pub(crate) fn take_done(&mut self) -> Option<PlacedNode>
        ensures some { IfSome result (λ p. self.old ≡ TermConstruct.Done p ∷ self.new) }
        ensures none { IfNone result (self.new ≡ self.old) }
        ensures top { IfNone result ((p : PlacedNode) (fs : List TermConstruct)
            → self.old ≡ TermConstruct.Done p ∷ fs → ⊥) }
    {
        if let Some(&TermConstruct::Done(part)) = self.constructs.last() {
            self.constructs.pop();
            return Some(part);
        }
        None
    }

    // Takes a sequence that a bar has ended from the top.
    pub(crate) fn take_ended(&mut self) -> Option<PlacedNode>
        ensures some { IfSome result (λ p. self.old ≡ TermConstruct.Ended p ∷ self.new) }
        ensures none { IfNone result (self.new ≡ self.old) }
        ensures top { IfNone result ((p : PlacedNode) (fs : List TermConstruct)
            → self.old ≡ TermConstruct.Ended p ∷ fs → ⊥) }
    {
        if let Some(&TermConstruct::Ended(part)) = self.constructs.last() {
            self.constructs.pop();
            return Some(part);
        }
        None
    }

    // Takes a parenthesis from the top.
    pub(crate) fn take_mark(&mut self) -> Option<u32>
        ensures some { IfSome result (λ at. self.old ≡ TermConstruct.Mark at ∷ self.new) }
        ensures top { IfNone result ((at : ℕ) (fs : List TermConstruct)
            → self.old ≡ TermConstruct.Mark at ∷ fs → ⊥) }
    {
        if let Some(&TermConstruct::Mark(at)) = self.constructs.last() {
            self.constructs.pop();
            self.depth -= 1;
            return Some(at);
        }
        None
    }

    // Takes a `~` from the top.
    fn take_muted(&mut self) -> Option<u32>
        ensures some { IfSome result (λ at. self.old ≡ TermConstruct.Muted at ∷ self.new) }
        ensures none { IfNone result (self.new ≡ self.old) }
        ensures top { IfNone result ((at : ℕ) (fs : List TermConstruct)
            → self.old ≡ TermConstruct.Muted at ∷ fs → ⊥) }
    {
        if let Some(&TermConstruct::Muted(at)) = self.constructs.last() {
            self.constructs.pop();
            self.depth -= 1;
            return Some(at);
        }
        None
    }

    // Takes a register that waits from the top.
    fn take_storing(&mut self) -> Option<PlacedRegister>
        ensures some { IfSome result (λ s. self.old ≡ TermConstruct.Storing s ∷ self.new) }
        ensures none { IfNone result (self.new ≡ self.old) }
        ensures top { IfNone result ((s : PlacedRegister) (fs : List TermConstruct)
            → self.old ≡ TermConstruct.Storing s ∷ fs → ⊥) }
    {
        if let Some(&TermConstruct::Storing(store)) = self.constructs.last() {
            self.constructs.pop();
            self.depth -= 1;
            return Some(store);
        }
        None
    }

    // Takes a prefix from the top.
    pub(crate) fn take_prefix(&mut self) -> Option<Prefix>
        ensures some { IfSome result (λ p. self.old ≡ construct_of p ∷ self.new) }
        ensures none { IfNone result (self.new ≡ self.old) }
        ensures muted { IfNone result ((at : ℕ) (fs : List TermConstruct)
            → self.old ≡ TermConstruct.Muted at ∷ fs → ⊥) }
        ensures storing { IfNone result ((s : PlacedRegister) (fs : List TermConstruct)
            → self.old ≡ TermConstruct.Storing s ∷ fs → ⊥) }
    {
        if let Some(at) = self.take_muted() {
            return Some(Prefix::Mute(at));
        }
        if let Some(store) = self.take_storing() {
            return Some(Prefix::Store(store));
        }
        None
    }
}
