//! What is learnt of tables and machines. No clause says that anything is learnt.
use crate::made::ANY;
use kex_action::actor::Actor;
use kex_compile::compile;
use kex_constants::{LONGEST, clear_table};
use kex_machine::Trimmed;
use kex_moves::moves::Moves;
use kex_sst::table::Table;
use std::alloc::Global;
use std::test::Fail;

// How many bytes one run takes along a table, where a front of its piece may be known to be held
// back, and what it writes. At each `?` all is dropped that is alive, so what is much is made last.
fn run_along<'p>(
    alloc: Global,
    table: &'p Table,
    machine: &'p Trimmed,
    held: usize,
    piece: &[u8],
) -> Result<(usize, Vec<u8>), Fail> {
    let mut out = Vec::new(alloc);
    let mut actor = Actor::new(alloc, machine)?;
    actor.take(&[], &mut out)?;
    let mut moves = Moves::new(alloc, table, machine)?;
    let ran = match held {
        0 => moves.run(0, &mut actor, piece, &mut out),
        _ => moves.run_past(held, 0, &mut actor, piece, &mut out),
    };
    let count = ran?.count;
    Ok((count, out))
}

// The same along the table of a program.
fn run(alloc: Global, text: &str, piece: &[u8]) -> Result<(usize, Vec<u8>), Fail> {
    let compiled = compile(alloc, text.as_bytes(), &ANY)?;
    let plan = compiled.stages().first().ok_or("no stage")?;
    let table = clear_table(alloc, plan.table().ok_or("no table")?, LONGEST)?;
    run_along(alloc, &table, plan.machine(), 0, piece)
}

// Bytes alone and nothing in runs, a text with the byte in it, registers of the program, and text
// that is held back up to a byte that settles what goes before it. Of the last two, one holds each
// byte up to the next, and one has several edges that begin with the same side of a fork.
const RUNS: &str = r#"
main := /[a-z;]*/ => one;two;three; => one;two;three;
main := (~/[a-z]/ | /;/)* => one;two;three; => ;;;
main := (~/,/ "; " /[a-z]/ "." | /[a-z]/ | /;/)* => one,two,three; => one; t.wo; t.hree;
main := (a@/[a-z]*/ ~/,/ b@/[a-z]*/ !b "," !a /;/)* => one,two;three,four; => two,one;four,three;
main := ("1 " /[a-z]*!/ | "0 " /[a-z]*;/)* => ab;cd!;x! => 0 ab;1 cd!0 ;1 x!
main := (/[0-9]{1,3}/ ("," /[0-9]{3}/)* /;/)* => 1;1234;12345;1234567; => 1;1,234;12,345;1,234,567;
main := (~/<[a-z]*>/ | /[<a-z;]/)* => a<b>c;<d; => ac;<d;
main := (a@/[a-z]*/ ~/=/ "[" !a "]" /;/ | /[a-z]*;/)* => ab=;cd;ef=; => [ab];cd;[ef];
main := (/[a-z]([a-z ]*[a-z])?/ ~/ *;/ ".")* => ab cd  ;x;y z; => ab cd.x.y z.
main := (/(2[0-4][0-9]|1[0-9]{2}|[1-9]?[0-9]),/ ~/(2[0-4][0-9]|1[0-9]{2}|[1-9]?[0-9]);/ "0;" | /[0-9,]+;/)* => 203,113;256,1; => 203,0;256,1;
"#;

#[test]
fn runs_take_the_whole_piece(rt: HostRuntime) -> Result<(), Fail> {
    for row in RUNS.trim().lines() {
        let (text, rest) = row.split_once(" => ").ok_or("no piece")?;
        let (piece, said) = rest.split_once(" => ").ok_or("no output")?;
        let (count, out) = run(rt.alloc(), text, piece.as_bytes())?;
        assert_eq!(rt; count, piece.len(), "{text}");
        assert!(rt; out.as_slice() == said.as_bytes(), "{text}");
    }
    Ok(())
}

// Whether the end after a text is learnt, and what text and end say.
fn end_along<'p>(
    alloc: Global,
    table: &'p Table,
    machine: &'p Trimmed,
    text: &[u8],
) -> Result<(bool, Vec<u8>), Fail> {
    let mut out = Vec::new(alloc);
    let mut actor = Actor::new(alloc, machine)?;
    actor.take(&[], &mut out)?;
    let mut moves = Moves::new(alloc, table, machine)?;
    let done = moves.end(0, &mut actor, text, &mut out)?;
    Ok((done, out))
}

// The same along the table of a program.
fn end(alloc: Global, program: &str, text: &[u8]) -> Result<(bool, Vec<u8>), Fail> {
    let compiled = compile(alloc, program.as_bytes(), &ANY)?;
    let plan = compiled.stages().first().ok_or("no stage")?;
    let table = clear_table(alloc, plan.table().ok_or("no table")?, LONGEST)?;
    end_along(alloc, &table, plan.machine(), text)
}

// A text that its end settles: for the first side and for the second, after leaps, with a side that
// drops it, with a register, and where each of its bytes is held up to the next.
const ENDS: &str = r#"
main := "1 " /[a-z][a-z!]*!/ | "0 " /[a-z][a-z!]*/ => ab!cd! => 1 ab!cd!
main := "1 " /[a-z][a-z!]*!/ | "0 " /[a-z][a-z!]*/ => ab!cd => 0 ab!cd
main := (/[a-z]*;/ | /[a-z]*,/)* ("1 " /[0-9][0-9!]*!/ | "0 " /[0-9][0-9!]*/) => ab;cd,12!3 => ab;cd,0 12!3
main := ~/[a-z][a-z!]*!/ "-" | /[a-z][a-z!]*/ => abc! => -
main := r@/[a-z][a-z!]*!/ "[" !r "]" | /[a-z][a-z!]*/ => abc! => [abc!]
main := /[a-z]([a-z ]*[a-z])?/ ~/ */ => ab cd   => ab cd
"#;

#[test]
fn ends_are_learnt(rt: HostRuntime) -> Result<(), Fail> {
    for row in ENDS.trim().lines() {
        let (program, rest) = row.split_once(" => ").ok_or("no text")?;
        let (text, said) = rest.split_once(" => ").ok_or("no output")?;
        let (done, out) = end(rt.alloc(), program, text.as_bytes())?;
        assert!(rt; done, "{program}");
        assert!(rt; out.as_slice() == said.as_bytes(), "{program}");
    }
    Ok(())
}

// Nothing is done where a text can't end.
#[test]
fn a_text_that_breaks_off_is_left(rt: HostRuntime) -> Result<(), Fail> {
    let program = "main := \"1 \" /[a-z]*!/ | \"0 \" /[a-z]*;/";
    let (done, out) = end(rt.alloc(), program, b"ab")?;
    assert!(rt; !done);
    assert!(rt; out.is_empty());
    Ok(())
}

// A leap of more bytes than are looked at for one, and than a sheet has, is found where all but its
// last byte are known to be held back.
#[test]
fn a_leap_goes_past_what_is_held_back(rt: HostRuntime) -> Result<(), Fail> {
    let alloc = rt.alloc();
    let compiled = compile(
        alloc,
        b"main := (\"1 \" /[a-z]*!/ | \"0 \" /[a-z]*;/)*",
        &ANY,
    )?;
    let plan = compiled.stages().first().ok_or("no stage")?;
    let table = clear_table(alloc, plan.table().ok_or("no table")?, LONGEST)?;
    let mut piece = b"ab".repeat(alloc, 100_000)?;
    piece.push(b'!')?;
    let (none, nothing) = run_along(alloc, &table, plan.machine(), 0, &piece)?;
    assert_eq!(rt; none, 0);
    assert!(rt; nothing.is_empty());
    let (all, said) = run_along(alloc, &table, plan.machine(), 200_000, &piece)?;
    assert_eq!(rt; all, 200_001);
    let mut wanted = b"1 ".to_vec(alloc)?;
    wanted.extend_from_slice(&piece)?;
    assert!(rt; said.as_slice() == wanted.as_slice());
    Ok(())
}
