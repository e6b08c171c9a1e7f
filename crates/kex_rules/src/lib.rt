//! The rules on a program's names, its stages and its calls (K07 to K10).
//!
//! Uses the model's programs. The contract of `check` is the crate's: it refuses exactly where a
//! rule is broken, by the first rule and its lowest offset, and what it gives keeps them all.
#![tactic(auto)]

ghost use Rattle.std.specs.Prelude.{◌≡◌, IfOk, IfErr};
ghost use Rattle.kex_rules.specs.Rules.{IsRuleCause, IsRuled};

mod components;
mod graph;
mod names;
pub mod refusal;
mod tail;
mod within;

use crate::components::components;
use crate::names::{lowest_unknown, roots_of};
use crate::refusal::RuleRefusal;
use crate::tail::lowest_not_tail;
use kex_model::program::Program;
use std::alloc::Global;
use std::marker::Model;

/// A program that keeps the rules.
#[derive(Drop)]
pub struct Ruled<'a> {
    program: &'a Program,
}

impl<'a> Model for Ruled<'a> {
    ghost use Rattle.kex_model.specs.Programs.{Grammar};
    ghost use Rattle.kex_rules.specs.Rules.{IsRuled};

    ghost Value = { Grammar };

    ghost view = { λ r. r.program.now };

    ghost invariant = { λ r. IsRuled r.program.now };
}

impl<'a> Ruled<'a> {
    /// The program.
    pub fn program(&self) -> &'a Program
        ensures same { result.now ≡ self.now }
        ensures ruled { IsRuled self.now }
    {
        self.program
    }
}

/// Asks the rules, one after another.
///
/// K07: no name is defined twice. K08: each name that a definition calls, or that starts a stage,
/// has a definition. K09: there is a stage. K10: where a definition calls a name that reaches it by
/// calls of any position, the call is in tail position. In time linear in the program.
pub fn check<'a>(alloc: Global, program: &'a Program) -> Result<Ruled<'a>, RuleRefusal>
    ensures same { IfOk result (λ r. r ≡ program.now) }
    ensures ruled { IfOk result (λ r. IsRuled r) }
    ensures refused { IfErr result (λ e. IsRuleCause program.now e) }
{
    // The call tells that the numbers of the program are in range.
    let _ = program.registers();
    let roots = roots_of(alloc, program)?;
    if let Some(at) = lowest_unknown(alloc, program, &roots)? {
        return Err(RuleRefusal::Unknown(at));
    }
    if program.stages().is_empty() {
        return Err(RuleRefusal::NoStart);
    }
    let marks = components(alloc, program, &roots)?;
    match lowest_not_tail(alloc, program, &marks)? {
        Some(at) => Err(RuleRefusal::NotTail(at)),
        None => Ok(Ruled { program }),
    }
}
