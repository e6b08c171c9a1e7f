//! Ports of which a call fails: each read and each write of a run in turn, up to one past the last.
//! A read gives a byte, and a write takes one.
use crate::call::{Case, Ports, USUAL, each_holds, holds};
use std::alloc::Global;
use std::test::Fail;
use std::thread::Threads;

const BLOCKS: [&str; 3] = ["--block=65536", "--block=1", "--block=3"];

// A run, what is held where a read fails and where a write does, by the number of that call, and
// what it answers without a fault. The last of each is where no call is left to fail. The end of
// the output is a write.
const RUNS: &str = r#"
run # start: a >> b a := (~/x/ "yy")* b := (~/yyy/ "z")* # xx # ,,z,z # ,z,z # 1 rejected: stage 2 at byte 4 (end)
run # start: a >> b a := (~/x/ "yy")* b := (~/yyy/ "z")* # xxq # ,,z,z # ,z,z # 1 rejected: stage 1 at byte 2
run # start: a >> b a := (~/x/ "yy")* b := (~/yyy/ "z")* # xxx # ,,z,zz,zz # ,z,zz,zz # 0
run # main := /ab*c/ # abx # ,a,ab,ab # ,a,ab,ab # 1 rejected: stage 1 at byte 2
run # main := /a*/ # aaa # ,a,aa,aaa,aaa # ,a,aa,aaa,aaa # 0
run # main := /a*/ #  # , # , # 0
code # main := /a*/ # a # ,0'61,0'611 # ,0,0',0'6,0'61,0'611,0'611 # 0
act # main := /ab*c/ # '611'63 # ,,,a,a,a,a,ac,ac # ,a,ac,ac # 0
test # main := /ab*c/ # ac # ,,, #  # 0
"#;

// Whether a run holds by each of these texts, where the call of its number fails.
fn each_fails<R: Threads + Sync>(
    rt: &R,
    alloc: Global,
    usual: Case<'_>,
    texts: &str,
    reads: bool,
) -> Result<bool, Fail> {
    let last = texts.split(',').count() as u64;
    let mut call = 0_u64;
    for held in texts.split(',') {
        call = call.saturating_add(1);
        let mut ports = usual.ports;
        if reads {
            ports.read = call;
        } else {
            ports.write = call;
        }
        let answer = match (call < last, reads) {
            (false, _) => usual.answer,
            (true, true) => "4 read fault",
            (true, false) => "5 write fault",
        };
        let case = Case {
            held: held.as_bytes(),
            answer,
            ports,
            ..usual
        };
        if !holds(rt, alloc, &case)? {
            return Ok(false);
        }
    }
    Ok(true)
}

fn row_fails<R: Threads + Sync>(
    rt: &R,
    alloc: Global,
    row: &str,
    block: &str,
) -> Result<bool, Fail> {
    let mut parts = row.split(" # ");
    let command = parts.next().ok_or("no command")?;
    let words = format!(in alloc; "kex {command} p {block}")?;
    let program = parts.next().ok_or("no program")?;
    let input = parts.next().ok_or("no input")?;
    let by_read = parts.next().ok_or("no reads")?;
    let by_write = parts.next().ok_or("no writes")?;
    let usual = Case {
        words: words.as_str(),
        program: program.as_bytes(),
        input: input.as_bytes(),
        held: b"",
        answer: parts.next().ok_or("no answer")?,
        ports: Ports {
            given: 1,
            taken: 1,
            ..USUAL
        },
    };
    Ok(
        each_fails(rt, alloc, usual, by_read, true)?
            && each_fails(rt, alloc, usual, by_write, false)?,
    )
}

#[test]
fn each_call_fails(rt: HostRuntime) -> Result<(), Fail> {
    for row in RUNS.trim().lines() {
        for block in &BLOCKS {
            assert!(&rt; row_fails(&rt, rt.alloc(), row, block)?, "{block} {row}");
        }
    }
    Ok(())
}

// A fault of writing comes before one of reading; a sink that takes two bytes a write holds two
// when its second write fails; a fault of the notes changes no status; each part of the line of
// counts is a write, and then the end; an unfinished line isn't answered after a fault of reading,
// and the answers to the lines of a read are a write; and where the shelf fails a command doesn't
// begin.
const OTHERS: &str = r#"
run p # main := /a*/ # aaa # aaa # 5 write fault # given=1 taken=1 read=4 write=4
run p # main := /a*/ # aaa # aa # 5 write fault # given=3 taken=2 write=2
run p # main := /a*/ # aaa # aaa # 0 # given=1 taken=2
run p # main := /ab*c/ # abx # ab # 1 # note=1
check p # main := /a*/ # aaa #  # 5 write fault # read=1 write=1
check p # main := /a*/ # aaa # stages  # 5 write fault # read=1 write=2
check p # main := /a*/ # aaa # stages 1 # 5 write fault # read=1 write=3
check p # main := /a*/ # aaa # stages 1 places  # 5 write fault # read=1 write=4
check p # main := /a*/ # aaa # stages 1 places 3 # 5 write fault # read=1 write=5
check p # main := /a*/ # aaa # stages 1 places 3 states  # 5 write fault # read=1 write=6
check p # main := /a*/ # aaa # stages 1 places 3 states 1 # 5 write fault # read=1 write=7
check p # main := /a*/ # aaa # stages 1 places 3 states 1$ # 5 write fault # read=1 write=8
each p # main := /a/ "x" | /b/ # a$c #  # 4 read fault # read=1
each p # main := /a/ "x" | /b/ # a$c # ax$ # 4 read fault # read=2
each p # main := /a/ "x" | /b/ # a$c$b$c # ax$rejected: stage 1 at byte 0$ # 4 read fault # given=5 read=2
each p # main := /a/ "x" | /b/ # a$c # ax$ # 5 write fault # read=2 write=2
each p # main := /a/ "x" | /b/ # a$c #  # 5 write fault # write=1
each p # main := /a/ "x" | /b/ # a$c # a # 5 write fault # taken=1 write=2
each p # main := /a/ "x" | /b/ # a$c # ax$ # 5 write fault # write=2
each p # main := /a/ "x" | /b/ # a$b # ax$b$ # 5 write fault # write=3
each p # main := /a/ "x" | /b/ # a$b # ax$b$ # 0 # write=4 read=4
each p --workers 64 # main := (~/a/ "yyyyyyyy")* # %aaaaaaa$%9000%a # %yyyyyyyyyyyyyyyyyyyyyyyyyyyyyyyyyyyyyyyyyyyyyyyyyyyyyyyy$%8192% # 5 write fault # write=2
run p # main := /a*/ # aaa #  # 6 shelf fault # take=1
each p # main := /a*/ # aaa #  # 6 shelf fault # take=1
code p # main := /a*/ # aaa #  # 6 shelf fault # take=1
act p # main := /a*/ # aaa #  # 6 shelf fault # take=1
test p # main := /a*/ # aaa #  # 6 shelf fault # take=1
check p # main := /a*/ # aaa #  # 6 shelf fault # take=1
"#;

#[test]
fn other_calls_fail(rt: HostRuntime) -> Result<(), Fail> {
    each_holds(&rt, rt.alloc(), OTHERS, &["--"])
}
