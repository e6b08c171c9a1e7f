//! Constants that are found. No clause says that any are.
use crate::made::ANY;
use kex_compile::compile;
use kex_constants::{clear_table, shorten_table};
use kex_plan::plan::Plan;
use kex_sst::table::Table;
use std::alloc::{AllocError, Global};
use std::test::Fail;

// How many registers each state has.
fn registers(alloc: Global, table: &Table) -> Result<String, AllocError> {
    let mut all = String::new(alloc);
    for state in table.states() {
        let count = format!(in alloc; " {}", state.registers())?;
        all.push_str(count.as_str())?;
    }
    Ok(all)
}

// How many choices a constant may have, a program, and how many registers each state of its table
// has: before, after, and where states were split first. In the table of the last but one a register
// is given `L` on one way and `LL` on another, and its state has a copy for each. In that of the
// last one registers hold bytes.
const TABLES: &str = r#"
16 main := /([a-z]*,[a-z]*\n)*/ => has 4 2 2, then 0 0 0, split 0 0 0
0 main := /([a-z]*,[a-z]*\n)*/ => has 4 2 2, then 4 2 2, split 4 2 2
4 main := (1 | no) (1 | no) (1 | no) /a/ | /b/ no := /c/ no => has 2 0, then 0 0, split 0 0
3 main := (1 | no) (1 | no) (1 | no) /a/ | /b/ no := /c/ no => has 2 0, then 1 0, split 1 0
16 main := /x/ (a | b) | /y/ ((1 | no) a | b) a := /a/ b := /b/ no := /c/ no => has 2 2 0, then 0 1 0, split 0 0 0 0
16 main := "1" /a*b/ | "2" /a*c/ => has 6 0, then 2 0, split 0 2 0
"#;

// How many registers the states of a program's table have: before, after, and where they are split.
fn cleared(alloc: Global, text: &str, longest: usize) -> Result<String, Fail> {
    let compiled = compile(alloc, text.as_bytes(), &ANY)?;
    let table = compiled
        .stages()
        .first()
        .and_then(Plan::table)
        .ok_or("no table")?;
    let before = registers(alloc, table)?;
    let after = registers(alloc, &clear_table(alloc, table, longest)?)?;
    let split = registers(alloc, &shorten_table(alloc, table, longest)?)?;
    let counts = format!(in alloc; "has{before}, then{after}, split{split}")?;
    Ok(counts)
}

#[test]
fn registers_go_where_constants_are_short_enough(rt: HostRuntime) -> Result<(), Fail> {
    for row in TABLES.trim().lines() {
        let (longest, rest) = row.split_once(' ').ok_or("no number")?;
        let (text, want) = rest.split_once(" => ").ok_or("no registers")?;
        let got = cleared(rt.alloc(), text, usize::from(longest.parse::<u16>()?))?;
        assert_eq!(rt; got.as_str(), want, "{text}");
    }
    Ok(())
}
