// The oracle of a stage whose code is written: a frontier of its machine, or a runner of its table.

ghost use Rattle.std.specs.Prelude.{◌≡◌, ◌+◌, ◌^◌, ◌<◌, ◌≤◌, [], ℕ, List, IfOk, IfSome};
ghost use Rattle.std.specs.Prelude.{OnOk, length};
ghost use Rattle.kex_code.specs.declared.symbol.Symbol.{Symbol};
ghost use Rattle.kex_machine.specs.Answers.{IsViableFor};
ghost use Rattle.kex_machine.specs.Nodes.{Graph};
ghost use Rattle.kex_sst.specs.Machines.{IsTableOf};
ghost use Rattle.kex_single.specs.Told.{HasTold, IsOpen, TellsLast, TellsMore, read_by};

use crate::path_codes;
use crate::table_codes::CodeRunner;
use kex_code::memory::Memory;
use kex_frontier::frontier::Frontier;
use kex_machine::Trimmed;
use kex_sst::table::Table;
use std::alloc::Global;
use std::marker::Model;

/// A machine, and its table if it has one.
#[derive(Drop)]
pub struct CodeBasis<'m> {
    machine: &'m Trimmed,
    table: Option<&'m Table>,
}

impl<'m> Model for CodeBasis<'m> {
    ghost use Rattle.std.specs.Prelude.{IfSome};
    ghost use Rattle.kex_machine.specs.Nodes.{Graph};
    ghost use Rattle.kex_sst.specs.Machines.{IsTableOf};

    ghost Value = { Graph };

    ghost view = { λ b. b.machine.now };

    ghost invariant = { λ b. IfSome b.table (λ t. IsTableOf b.machine.now t.now) };
}

impl<'m> CodeBasis<'m> {
    /// A machine, with its table or without one.
    pub fn new(machine: &'m Trimmed, table: Option<&'m Table>) -> CodeBasis<'m>
        requires { IfSome table (λ t. IsTableOf machine.now t.now) }
        ensures { result ≡ machine.now }
    {
        CodeBasis { machine, table }
    }

    /// The machine.
    pub fn machine(&self) -> &'m Trimmed
        ensures { result.now ≡ self.now }
    {
        self.machine
    }
}

/// Finds the code on which the bytes agree: by the paths of a machine, or by its table.
#[derive(Drop)]
pub enum CodeOracle<'m> {
    Paths(Frontier<'m>),
    Table(CodeRunner<'m>),
}

impl<'m> CodeOracle<'m> {
    /// An oracle that was fed nothing.
    pub fn new(alloc: Global, basis: CodeBasis<'m>) -> Result<CodeOracle<'m>, Memory>
        ensures told { IfOk result (λ o. HasTold basis.entry o [] []
            × IsViableFor basis.entry []) }
        ensures open { IfOk result (λ o. IsOpen o × (read_by o ≡ 0)) }
    {
        let _nodes = basis.machine.nodes();
        match basis.table {
            None => Ok(CodeOracle::Paths(Frontier::new(alloc, basis.machine)?)),
            Some(table) => Ok(CodeOracle::Table(CodeRunner::new(alloc, table)?)),
        }
    }

    /// Takes a piece, and writes the text of the code that is agreed. Tells the number of the byte
    /// with which no parse begins, if there is one.
    pub fn go_on(&mut self, piece: &[u8], out: &mut Vec<u8>) -> Result<Option<usize>, Memory>
        requires open { IsOpen self.old }
        requires room { read_by self.old + length piece.now < 2 ^ 64 }
        ensures tells { IfOk result (λ bad. (g : Graph) (w : List ℕ) (c : List Symbol)
            → HasTold g self.old w c → IsViableFor g w → TellsMore g self.new w piece.now bad c
            out.old.items out.new.items) }
        ensures within { IfOk result (λ bad. IfSome bad (λ k. k ≤ length piece.now)) }
        ensures open { OnOk result (IsOpen self.new) }
        ensures read { read_by self.new ≤ read_by self.old + length piece.now }
    {
        match self {
            CodeOracle::Paths(frontier) => path_codes::go_on(frontier, piece, out),
            CodeOracle::Table(reader) => reader.go_on(piece, out),
        }
    }

    /// Takes the end, and writes the text of the rest. Tells whether the bytes have a parse.
    pub fn finish(&mut self, alloc: Global, out: &mut Vec<u8>) -> Result<bool, Memory>
        requires open { IsOpen self.old }
        ensures tells { IfOk result (λ parsed. (g : Graph) (w : List ℕ) (c : List Symbol)
            → HasTold g self.old w c → IsViableFor g w → TellsLast g w parsed c out.old.items
            out.new.items) }
        ensures read { read_by self.new ≤ read_by self.old }
    {
        match self {
            CodeOracle::Paths(frontier) => path_codes::finish(frontier, out),
            CodeOracle::Table(reader) => reader.finish(alloc, out),
        }
    }
}
