//! Which leaf of a start state is covered by those before it, and how many pairs decide that.
use crate::made::ANY;
use crate::waiting::all_wait;
use kex_compile::compile;
use kex_cover::covered;
use kex_paths::tree::PathTree;
use std::alloc::Global;
use std::test::Fail;

// How many pairs there may be, a program, and whether the last leaf of its start state is covered.
// The pairs are counted also where the first of them would tell.
const LEAVES: &str = r#"
2 main := /a*/ "x" | /a*/ "y" => true
1 main := /a*/ "x" | /a*/ "y" => there are 2 pairs or more
3 main := "1" /ac/ | "2" /ab/ => false
2 main := "1" /ac/ | "2" /ab/ => there are 3 pairs or more
2 main := "1" /[ab]*/ | "2" /b*/ => true
2 main := "1" /b*/ | "2" /[ab]*/ => there are 3 pairs or more
"#;

// Whether the last leaf is covered by those before it, or why it isn't known.
fn answer(alloc: Global, text: &str, most: u32) -> Result<String, Fail> {
    let compiled = compile(alloc, text.as_bytes(), &ANY)?;
    let machine = compiled.stages().first().ok_or("no stage")?.machine();
    let (start, _) = PathTree::start(alloc, machine)?;
    let leaves = start.leaves();
    let last = leaves.len().checked_sub(1).ok_or("no leaf")?;
    let (leaf, before) = (leaves[last], &leaves[..last]);
    if !all_wait(machine, &[leaf]) || !all_wait(machine, before) {
        return Err(Fail::new("a leaf that doesn't wait"));
    }
    let told = match covered(alloc, machine, leaf, before, most.min(1_000)) {
        Ok(yes) => format!(in alloc; "{yes}")?,
        Err(fault) => format!(in alloc; "{fault}")?,
    };
    Ok(told)
}

#[test]
fn leaves_are_covered(rt: HostRuntime) -> Result<(), Fail> {
    for row in LEAVES.trim().lines() {
        let (most, rest) = row.split_once(' ').ok_or("no number")?;
        let (text, want) = rest.split_once(" => ").ok_or("no answer")?;
        let got = answer(rt.alloc(), text, most.parse::<u32>()?)?;
        assert_eq!(rt; got.as_str(), want, "{text}");
    }
    Ok(())
}
