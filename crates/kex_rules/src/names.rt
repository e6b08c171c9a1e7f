// Names and their definitions.

ghost use Rattle.std.specs.Prelude.{◌≡◌, ◌↔◌, Some, None, IfOk, OnOk, IfErr, IsTrue, length};
ghost use Rattle.kex_model.specs.Programs.{IsGrammar};
ghost use Rattle.kex_rules.specs.Rules.{IsRuleCause, IsTwice, IsUnknown, Nowhere};
ghost use Rattle.kex_rules.specs.Tables.{CallsUnknown, HasRoots, IsLeastOffset, first_root, lower};
ghost use Rattle.kex_rules.specs.Within.{HasWithin};

use crate::refusal::RuleRefusal;
use crate::within::nodes_within;
use kex_code::memory::Memory;
use kex_model::program::{Kind, Program};
use std::alloc::Global;

// The lower of an offset and one that was found before.
pub(crate) fn lowest(found: Option<u32>, at: u32) -> Option<u32>
    ensures { result ≡ Some (lower found at) }
{
    match found {
        Some(found) if found < at => Some(found),
        _ => Some(at),
    }
}

// The root of each name that is defined; refused where a name is defined twice.
pub(crate) fn roots_of(alloc: Global, program: &Program) -> Result<Vec<Option<u32>>, RuleRefusal>
    requires { IsGrammar program.now }
    ensures roots { IfOk result (λ roots.
        HasRoots program.now.definitions (length program.now.names) roots.items) }
    ensures once { OnOk result (Nowhere (IsTwice program.now.definitions)) }
    ensures refused { IfErr result (λ e. IsRuleCause program.now e) }
{
    let mut roots = vec![in alloc; None; program.names().len()]?;
    let mut twice = None;
    let definitions = program.definitions();
    for definition in definitions {
        match roots[definition.name as usize] {
            Some(_) => twice = lowest(twice, definition.at),
            None => roots[definition.name as usize] = Some(definition.root),
        }
    }
    match twice {
        Some(at) => Err(RuleRefusal::TwiceDefined(at)),
        None => Ok(roots),
    }
}

// Whether a name has no root.
fn is_unknown(program: &Program, roots: &[Option<u32>], name: u32) -> bool
    requires { HasRoots program.now.definitions (length program.now.names) roots.now }
    ensures { IsTrue result ↔ (first_root program.now.definitions name ≡ None) }
{
    match roots.get(name as usize) {
        Some(Some(_)) => false,
        _ => true,
    }
}

// The lowest offset of a call in a definition whose name has none.
fn unknown_call(program: &Program, roots: &[Option<u32>], within: &[bool]) -> Option<u32>
    requires roots { HasRoots program.now.definitions (length program.now.names) roots.now }
    requires within { HasWithin program.now 0 within.now }
    ensures { IsLeastOffset (CallsUnknown program.now) result }
{
    let nodes = program.nodes();
    let mut found = None;
    for n in 0..nodes.len() {
        if let Kind::Call(name) = nodes[n].kind {
            if within[n] && is_unknown(program, roots, name) {
                found = lowest(found, nodes[n].at);
            }
        }
    }
    found
}

// The lowest offset of a call or a start whose name has no definition, with what was found of the
// calls.
fn unknown_start(program: &Program, roots: &[Option<u32>], calls: Option<u32>) -> Option<u32>
    requires roots { HasRoots program.now.definitions (length program.now.names) roots.now }
    requires calls { IsLeastOffset (CallsUnknown program.now) calls }
    ensures { IsLeastOffset (IsUnknown program.now) result }
{
    let mut found = calls;
    let stages = program.stages();
    for start in stages {
        if is_unknown(program, roots, start.name) {
            found = lowest(found, start.at);
        }
    }
    found
}

// The lowest offset of a call or a start whose name has no definition.
pub(crate) fn lowest_unknown(
    alloc: Global,
    program: &Program,
    roots: &[Option<u32>],
) -> Result<Option<u32>, Memory>
    requires grammar { IsGrammar program.now }
    requires roots { HasRoots program.now.definitions (length program.now.names) roots.now }
    ensures { IfOk result (λ found. IsLeastOffset (IsUnknown program.now) found) }
{
    let within = nodes_within(alloc, program)?;
    let calls = unknown_call(program, roots, &within);
    Ok(unknown_start(program, roots, calls))
}
