// The roots of the names that are defined.

ghost use Rattle.std.specs.Prelude.{◌≡◌, IfOk, IfErr, nat_eq};
ghost use Rattle.indexmap.specs.IndexMap.{get};
ghost use Rattle.kex_desugar.specs.Machines.{IsTooMany};
ghost use Rattle.kex_desugar.specs.Plans.{MapHasRoots, or_zero};

use crate::refusal::DesugarRefusal;
use indexmap::IndexMap;
use kex_model::program::Program;
use std::alloc::Global;

// The roots of all names that are defined. Where a name is defined twice the first one counts.
pub(crate) fn roots_by_name(
    alloc: Global,
    program: &Program,
) -> Result<IndexMap<u32, u32>, DesugarRefusal>
    ensures roots { IfOk result (λ m. MapHasRoots program.now m) }
    ensures refused { IfErr result (λ e. IsTooMany e → ⊥) }
{
    let mut roots = IndexMap::new(alloc);
    let definitions = program.definitions();
    let mut left = definitions.len();
    while left > 0 {
        left -= 1;
        let definition = definitions[left];
        roots.insert(definition.name, definition.root)?;
    }
    Ok(roots)
}

// The root of a name's definition, or 0.
pub(crate) fn root_by_name(roots: &IndexMap<u32, u32>, name: u32) -> u32
    ensures { result ≡ or_zero (get nat_eq roots.now name) }
{
    match roots.get(&name) {
        None => 0,
        Some(root) => *root,
    }
}
