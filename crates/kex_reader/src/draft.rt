// What is made of a text.

ghost use Rattle.std.specs.Prelude.{◌≡◌, ◌+◌, ◌<◌, ◌^◌, ◌++◌, ◌∷◌, [], List, length, None, Some};
ghost use Rattle.std.specs.Prelude.{IfOk, IfSome, IfNone, OnOk};
ghost use Rattle.kex_code.specs.Codes.{Different, IsAmong};
ghost use Rattle.kex_model.specs.Programs.{HasBelow, HasNames};
ghost use Rattle.kex_regexp.specs.Bodies.{SpellsRegex, fault_of};
ghost use Rattle.kex_regexp.specs.Grammar.{Regex};
ghost use Rattle.kex_regexp.specs.Notes.{lesser_of};
ghost use Rattle.kex_regexp.specs.Shown.{ShowsRegex};
ghost use Rattle.kex_reader.specs.Checks.{Check, Matched};
ghost use Rattle.kex_reader.specs.Shown.{IsName, IsNode, IsRegister, Made};
ghost use Rattle.kex_reader.specs.Stands.{Keeps, LosesNone, NotesLeast};
ghost use Rattle.kex_reader.specs.Uses.{InKind, NameNumber, NodeNumber, RegisterNumber};

use crate::names::Names;
use kex_code::memory::Memory;
use kex_code::piece::Bytes;
use kex_model::builder::Builder;
use kex_model::program::{Definition, Kind, Node, Program, Start};
use kex_regexp::breaks::{Break, lesser};
use kex_regexp::fault::RegexFault;
use kex_regexp::laws::one_tree;
use kex_regexp::regex;
use std::alloc::Global;
use std::marker::Model;

// The depth of a body, where its own can be counted on it.
fn room(depth: usize, long: usize) -> Option<u32>
    ensures { IfSome result (λ n. (n ≡ depth) × (n + long < 2 ^ 32)) }
{
    let deepest = depth.checked_add(long)?;
    u32::try_from(deepest).ok()?;
    Some(depth as u32)
}

// The limit that a body breaks, unless it wasn't read for want of memory.
fn break_of(fault: RegexFault) -> Option<Break>
    ensures some { IfSome result (λ b. fault ≡ fault_of b) }
    ensures none { IfNone result (fault ≡ RegexFault.Memory) }
{
    match fault {
        RegexFault::BadRegex { at } => Some(Break::BadRegex { at }),
        RegexFault::BadCount { at } => Some(Break::BadCount { at }),
        RegexFault::BadSet { at } => Some(Break::BadSet { at }),
        RegexFault::OverLimit { at } => Some(Break::OverLimit { at }),
        RegexFault::Memory => None,
    }
}

/// The nodes, names and registers of a text, and the least limit that it breaks.
#[derive(Drop)]
pub(crate) struct Draft<'t> {
    nodes: Builder,
    names: Names<'t>,
    registers: Names<'t>,
    broken: Option<Break>,
}

impl<'t> Model for Draft<'t> {
    ghost use Rattle.std.specs.Prelude.{length};
    ghost use Rattle.kex_model.specs.Programs.{HasNames};
    ghost use Rattle.kex_model.specs.declared.program.Node.{Node};
    ghost use Rattle.kex_code.specs.Codes.{IsAmong};
    ghost use Rattle.kex_reader.specs.Shown.{Made};

    ghost Value = { Made };

    ghost view = { λ d.
        record { nodes = d.nodes; names = d.names; registers = d.registers; broken = d.broken } };

    ghost invariant = { λ d. (n : Node) → IsAmong d.nodes n
        → HasNames (length d.names) (length d.registers) n.kind };
}

impl<'t> Draft<'t> {
    pub(crate) fn new(alloc: Global) -> Draft<'t>
        ensures { result ≡ record { nodes = []; names = []; registers = []; broken = None } }
    {
        Draft {
            nodes: Builder::new(alloc),
            names: Names::new(alloc),
            registers: Names::new(alloc),
            broken: None,
        }
    }

    // Adds a node.
    pub(crate) fn add(&mut self, kind: Kind, at: u32) -> Result<u32, Memory>
        requires below { HasBelow (length self.old.nodes) kind }
        requires named { HasNames (length self.old.names) (length self.old.registers) kind }
        ensures keeps { OnOk result (Keeps self.old self.new) }
        ensures node { IfOk result (λ n. IsNode self.new n kind at) }
        ensures held { IfOk result (λ n.
            LosesNone self.old self.new (InKind kind) (λ x. x ≡ NodeNumber n)) }
        ensures broken { OnOk result (self.new.broken ≡ self.old.broken) }
    {
        let number = self.nodes.add(Node { kind, at })?;
        Ok(number)
    }

    // The number of a name.
    pub(crate) fn name(&mut self, name: &'t [u8]) -> Result<u32, Memory>
        ensures keeps { OnOk result (Keeps self.old self.new) }
        ensures number { IfOk result (λ k. IsName self.new k name.now) }
        ensures held { IfOk result (λ k.
            LosesNone self.old self.new (λ x. ⊥) (λ x. x ≡ NameNumber k)) }
        ensures broken { OnOk result (self.new.broken ≡ self.old.broken) }
    {
        let number = self.names.number(name)?;
        Ok(number)
    }

    // The number of a register.
    pub(crate) fn register(&mut self, register: &'t [u8]) -> Result<u32, Memory>
        ensures keeps { OnOk result (Keeps self.old self.new) }
        ensures number { IfOk result (λ k. IsRegister self.new k register.now) }
        ensures held { IfOk result (λ k.
            LosesNone self.old self.new (λ x. ⊥) (λ x. x ≡ RegisterNumber k)) }
        ensures broken { OnOk result (self.new.broken ≡ self.old.broken) }
    {
        let number = self.registers.number(register)?;
        Ok(number)
    }

    // Notes that a limit is broken.
    pub(crate) fn note(&mut self, broken: Break)
        ensures noted { self.new
            ≡ record self.old { broken = lesser_of self.old.broken (Some broken) } }
        ensures keeps { Keeps self.old self.new }
    {
        self.broken = lesser(self.broken, Some(broken));
    }

    // The node of a body. One that is refused is noted, and has a node of no meaning.
    pub(crate) fn body(
        &mut self,
        alloc: Global,
        body: &[u8],
        at: u32,
        depth: usize,
    ) -> Result<u32, Memory>
        requires place { at + length body.now < 2 ^ 32 }
        ensures keeps { OnOk result (Keeps self.old self.new) }
        ensures within { IfOk result (λ n. n < length self.new.nodes) }
        ensures held { IfOk result (λ n.
            LosesNone self.old self.new (λ x. ⊥) (λ x. x ≡ NodeNumber n)) }
        ensures shows { IfOk result (λ n. self.new.broken ≡ None → (r : Regex)
            × SpellsRegex r body.now × ShowsRegex r self.new.nodes n at) }
        ensures notes { OnOk result ((cs : List Check) → NotesLeast cs self.old.broken
            → NotesLeast (cs ++ Matched at depth body.now ∷ []) self.new.broken) }
    {
        one_tree();
        let Some(nested) = room(depth, body.len()) else {
            return Err(Memory);
        };
        let fault = match regex(alloc, body, at, nested, &mut self.nodes) {
            Ok(node) => return Ok(node),
            Err(fault) => fault,
        };
        let Some(broken) = break_of(fault) else {
            return Err(Memory);
        };
        self.note(broken);
        let node = self.add(Kind::One, at)?;
        Ok(node)
    }

    // The names, by their numbers.
    pub(crate) fn names(&self, alloc: Global) -> Result<Vec<Bytes>, Memory>
        ensures same { IfOk result (λ all. all.items ≡ self.now.names) }
        ensures different { Different self.now.names }
    {
        self.names.copies(alloc)
    }

    // The program of these nodes, names, definitions and stages.
    pub(crate) fn finish(
        self,
        names: Vec<Bytes>,
        definitions: Vec<Definition>,
        stages: Vec<Start>,
    ) -> Result<Program, Memory>
        requires same { names.items ≡ self.names }
        requires defined { (d : Definition) → IsAmong definitions.items d
            → (d.name < length self.names) × (d.root < length self.nodes) }
        requires started { (s : Start) → IsAmong stages.items s → s.name < length self.names }
        ensures made { IfOk result (λ P. P
            ≡ record {
              nodes = self.entry.nodes;
              names = names.items;
              definitions =
                  definitions.items;
              stages = stages.items;
              registers = length self.entry.registers;
            }) }
        ensures different { Different self.entry.registers }
    {
        let Ok(registers) = u32::try_from(self.registers.len()) else {
            return Err(Memory);
        };
        Ok(self.nodes.finish(names, definitions, stages, registers))
    }

    // The least limit that is broken.
    pub(crate) fn broken(&self) -> Option<Break>
        ensures { result ≡ self.now.broken }
    {
        self.broken
    }
}
