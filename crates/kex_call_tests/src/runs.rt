//! What runs read and write, with blocks of several lengths, where rings join the stages and where
//! workers share a block; on inputs that have a parse and on some that have none.
use crate::call::{Case, USUAL, each_holds, holds};
use std::alloc::{AllocError, Global};
use std::test::Fail;

const BLOCKS: [&str; 3] = ["--block=65536", "--block=1", "--block=3"];

const RINGS: [&str; 9] = [
    "--rings=1 --block=65536",
    "--rings=1 --block=1",
    "--rings=1 --block=3",
    "--rings=2 --block=65536",
    "--rings=2 --block=1",
    "--rings=2 --block=3",
    "--rings=4096 --block=65536",
    "--rings=4096 --block=1",
    "--rings=4096 --block=3",
];

const WORKERS: [&str; 5] = [
    "--workers=2",
    "--workers=3",
    "--workers=64",
    "--workers=2 --block=3",
    "--workers=2 --rings=2",
];

// Programs of one stage: terms of each kind, inputs with a parse and then inputs without one.
const ONE_STAGE: &str = r#"
run p # main := 1 #  #  # 0
run p # main := /a*b/ "!" # aab # aab! # 0
run p # main := ("x" /a/ | "y" /ab/) /b?/ # ab # xab # 0
run p # main := "1" /.c/ | "2" /.d/ # bd # 2bd # 0
run p # main := "1" /ac/ | "2" /ab/ # ab # 2ab # 0
run p # main := /a/ "x" | /a/ "y" # a # ax # 0
run p # main := /a*/ "x" | /a*/ "y" # aa # aax # 0
run p # main := ("x" | /a/ "y") // end # a # ay # 0
run p # main := "<" /[ab]*/ ">" /b*/ # abb # <abb> # 0
run p # main := "<" /a*/ ">" /b/ # aab # <aa>b # 0
run p # main := "<" /[ab]*?/ ">" /b*/ # abb # <a>bb # 0
run p # main := /a??/ "x" /a?/ # a # xa # 0
run p # main := ("<" /a/ ">")*? /a*/ # aa # aa # 0
run p # main := ("<" /a/ ">"){1,2}? /a*/ # aa # <a>a # 0
run p # main := "<" /a+?/ ">" /a*/ # aaa # <a>aa # 0
run p # main := "<" /a{2}?/ ">" /a*/ # aaa # <aa>a # 0
run p # main := "<" /a{2,}?/ ">" /a*/ # aaaa # <aa>aa # 0
run p # main := "<" /a{2,}?/ ">" /b/ # aaab # <aaa>b # 0
run p # main := "<" /a{,2}?/ ">" /a*/ # aaa # <>aaa # 0
run p # main := "<" /a{,2}?/ ">" /b/ # aab # <aa>b # 0
run p # main := ("<" /a/ ">")+? /a*/ # aa # <a>a # 0
run p # main := /[b-d]{2}\x2e/ # bd. # bd. # 0
run p # main := /a/ main | 1 # aaa # aaa # 0
run p # main := /a/ foo foo := /b/ main | "." # aba # aba. # 0
run p # main := (a@/[a-z]+/ ~/,/ b@/[0-9]+/ !b "," !a /\n/)* # ab,12$ # 12,ab$ # 0
run p # main := ~(a@/x/) !a # x # x # 0
run p # main := "p" r@(/a/ "q" /b/) "s" !r # ab # psaqb # 0
run p # main := [r <- "a"] [r <- r "-" r] !r #  # a-a # 0
run p # main := [r <- "a"] (~/x/ [r += r])* !r # xxx # aaaaaaaa # 0
run p # main := (/a?/ (1 | /b/))* # ab # ab # 0
run p # main := ("x" | /a/)* #  #  # 0
run p # main := ("x" | /a/)* # aa # aa # 0
run p # main := ("x")+ #  # x # 0
run p # main := "x" main | 1 #  #  # 0
run p # main := [r <- "-"] [r += "a"]* !r #  # - # 0
run p # main := "<" /a{,2}?/ ">" /b/ # aaab # <aa> # 1 rejected: stage 1 at byte 2
run p # main := "<" /a{2}?/ ">" /b/ # ab # <a # 1 rejected: stage 1 at byte 1
run p # main := (/a*/)* # aab # aa # 1 rejected: stage 1 at byte 2
run p # main := (~/x/ "y"){2,3} # x # y # 1 rejected: stage 1 at byte 1 (end)
run p # main := (~/x/ "y"){2,3} # xxxx # yyy # 1 rejected: stage 1 at byte 3
run p # main := "hi" /a/ #  # hi # 1 rejected: stage 1 at byte 0 (end)
run p # main := /ab*c/ # abx # ab # 1 rejected: stage 1 at byte 2
run p # main := /ab*c/ # ab # ab # 1 rejected: stage 1 at byte 2 (end)
run p # main := /a*/ "x" | /a*/ "y" # aab #  # 1 rejected: stage 1 at byte 2
run p # main := /a/ foo foo := /b/ main | "." # ab # ab # 1 rejected: stage 1 at byte 2 (end)
run p # main := /a/ dead | /ab/ dead := /x/ dead # ax # a # 1 rejected: stage 1 at byte 1
run p # main := "p" r@(/a/ "q" /b/) "s" !r # a # p # 1 rejected: stage 1 at byte 1 (end)
run p --max-input 3 # main := /a*/ # aaa # aaa # 0
run p --max-input 3 # main := /a*/ # aaaa # aaa # 8 too long: stage 1 at byte 3
run p --max-input 3 # main := /a*/ # aaaq # aaa # 8 too long: stage 1 at byte 3
run p --max-input 0 # main := /a*/ #  #  # 0
run p --max-input 0 # main := /a*/ # a #  # 8 too long: stage 1 at byte 0
"#;

#[test]
fn stages_read_and_write(rt: HostRuntime) -> Result<(), Fail> {
    each_holds(&rt, rt.alloc(), ONE_STAGE, &BLOCKS)
}

// The input of a second stage breaks off, and what is agreed on is written; the last stage that
// rejects is named; an input that breaks off isn't ended, even where it has a parse; and each stage
// has the limit.
const PIPELINES: &str = r#"
run p # main := /ab*c/ # abx # ab # 1 rejected: stage 1 at byte 2
run p # start: a >> b a := (~/x/ "yy")* b := (~/yyy/ "z")* # xxx # zz # 0
run p # start: a >> b a := (~/x/ "yy")* b := (~/yyy/ "z")* # xx # z # 1 rejected: stage 2 at byte 4 (end)
run p # start: a >> b a := (~/x/ "yy")* b := (~/yyy/ "z")* # xxq # z # 1 rejected: stage 1 at byte 2
run p # start: a >> b a := (~/x/ "yy")* b := /y/ # xxq # y # 1 rejected: stage 2 at byte 1
run p # start: a >> b a := (~/x/ "yy")* b := /y*/ "!" # xxq # yyyy # 1 rejected: stage 1 at byte 2
run p # start: s >> t s := ~/a/ "b" /* one */ t := /b/ "c" # a # bc # 0
run p --max-input 3 # start: a >> b a := (~/x/ "yy")* b := /y*/ # xx # yyy # 8 too long: stage 2 at byte 3
"#;

#[test]
fn each_stage_reads_what_the_one_before_wrote(rt: HostRuntime) -> Result<(), Fail> {
    each_holds(&rt, rt.alloc(), PIPELINES, &BLOCKS)
}

#[test]
fn rings_change_nothing(rt: HostRuntime) -> Result<(), Fail> {
    each_holds(&rt, rt.alloc(), PIPELINES, &RINGS)
}

// By what is best: a side that is covered from the start; a record that might go on past
// its end; sides that each may still be the one; a stage that reads more of what breaks off, and is
// rejected for it; the limit; and calls that fail.
const EARLIER: &str = r#"
run p --optimal # main := /a*/ "x" | /a*/ "y" # aab # aa # 1 rejected: stage 1 at byte 2
run p --optimal # main := /a*/ "x" | /a*/ "y" # aa # aax # 0
run p --optimal # main := /a*b/ "x" | /a*b/ "y" # aa # aa # 1 rejected: stage 1 at byte 2 (end)
run p --optimal # main := ("<" /[^;]*;/ ">")*? (/[^;]*;/)* # a;b;c # a;b;c # 1 rejected: stage 1 at byte 5 (end)
run p --optimal # main := (~/</ "(" (/[^;]*;/)*? ~/>;/ ")" | ~/[^;]*;/)* # <a;>;b # (a;) # 1 rejected: stage 1 at byte 6 (end)
run p # main := (~/</ "(" (/[^;]*;/)*? ~/>;/ ")" | ~/[^;]*;/)* # <a;>;b # (a; # 1 rejected: stage 1 at byte 6 (end)
run p --optimal # main := "1" /ac/ | "2" /ab/ # ax #  # 1 rejected: stage 1 at byte 1
run p --optimal # main := "1" /ac/ | "2" /ab/ # ab # 2ab # 0
run p --optimal # start: a >> b a := /a*/ "x" | /a*/ "y" b := (~/a/ "b" | ~/x/ "!")* # aab # bb # 1 rejected: stage 1 at byte 2
run p --optimal # start: a >> b a := /a*/ "x" | /a*/ "y" b := (~/a/ "b" | ~/x/ "!")* # aa # bb! # 0
run p --optimal # start: a >> b a := /a*/ "x" | /a*/ "y" b := /ax/ # aab # a # 1 rejected: stage 2 at byte 1
run p # start: a >> b a := /a*/ "x" | /a*/ "y" b := /ax/ # aab #  # 1 rejected: stage 1 at byte 2
run p --optimal --max-input 1 # main := /a*/ "x" | /a*/ "y" # aa # a # 8 too long: stage 1 at byte 1
run p --optimal # main := /a*/ "x" | /a*/ "y" # aaa # aaa # 4 read fault # given=1 read=4
run p --optimal # main := /a*/ "x" | /a*/ "y" # aaa # a # 5 write fault # given=1 taken=1 write=2
"#;

#[test]
fn what_is_best_is_written(rt: HostRuntime) -> Result<(), Fail> {
    each_holds(&rt, rt.alloc(), EARLIER, &BLOCKS)
}

// The rows of runs that are done.
fn done(alloc: Global, rows: &str) -> Result<String, AllocError> {
    let mut text = String::new(alloc);
    for row in rows.trim().lines() {
        if row.ends_with(" # 0") {
            text.push_str(row)?;
            text.push_str("\n")?;
        }
    }
    Ok(text)
}

#[test]
fn what_is_best_ends_as_what_is_meant(rt: HostRuntime) -> Result<(), Fail> {
    for rows in [ONE_STAGE, PIPELINES] {
        let rows = done(rt.alloc(), rows)?;
        let options = ["--optimal", "--optimal --block=1", "--optimal --rings=2"];
        each_holds(&rt, rt.alloc(), rows.as_str(), &options)?;
    }
    Ok(())
}

#[test]
fn workers_change_nothing(rt: HostRuntime) -> Result<(), Fail> {
    each_holds(&rt, rt.alloc(), ONE_STAGE, &WORKERS)?;
    each_holds(&rt, rt.alloc(), PIPELINES, &WORKERS)
}

// Lines that workers share: a register that is read before it is set, line feeds in quotes, a
// register that no line leaves as it was, and two stages.
const LINES: &str = r#"
run p # main := (!a "<" a@/[a-z]+/ ">" /\n/)* # %ab$cd$%9%ef$ # <>$%ab<>$cd<>$%9% # 0
run p # main := (/"[^"]*"\n/)* # %"a$b"$%20% # %"a$b"$%20% # 0
run p # main := ([r += "x"] /a\n/)* !r # %a$%10% # %a$%10%xxxxxxxxxx # 0
run p # start: a >> b a := (w@/[a-z]+/ "," !w /\n/)* b := (~/,/ /[a-z]*\n/)* # %ab$%30% # %ab$%30% # 0
"#;

// Eight lines of three bytes have a byte that is refused: the first of a part, the last, the last
// before it and one within. Then a limit ends at a part, within it and after all.
const STOPS: &str = r#"
run p # main := (/[a-z]*\n/)* # %ab$%2%Xb$ab$ab$ab$ab$ab$ # %ab$%2% # 1 rejected: stage 1 at byte 6
run p # main := (/[a-z]*\n/)* # %ab$%4%abXab$ab$ab$ # %ab$%4%ab # 1 rejected: stage 1 at byte 14
run p # main := (/[a-z]*\n/)* # %ab$%5%Xb$ab$ab$ # %ab$%5% # 1 rejected: stage 1 at byte 15
run p # main := (/[a-z]*\n/)* # %ab$%5%aX$ab$ab$ # %ab$%5%a # 1 rejected: stage 1 at byte 16
run p # main := (/[a-z]*\n/)* # %ab$%7%abX # %ab$%7%ab # 1 rejected: stage 1 at byte 23
run p --max-input 15 # main := (/[a-z]*\n/)* # %ab$%8% # %ab$%5% # 8 too long: stage 1 at byte 15
run p --max-input 16 # main := (/[a-z]*\n/)* # %ab$%8% # %ab$%5%a # 8 too long: stage 1 at byte 16
run p --max-input 24 # main := (/[a-z]*\n/)* # %ab$%8% # %ab$%8% # 0
"#;

// There is no line, or one that is longer than a part.
const LONG_LINES: &str = r#"
run p # main := /a*/ # %a%40% # %a%40% # 0
run p # main := (/[a-z]*\n/)* # %a%40%$b$ # %a%40%$b$ # 0
run p # main := (/[a-z]*\n/)* # b$%a%40%$ # b$%a%40%$ # 0
run p # main := (/[a-z]*\n/)* # b$c$%a%40% # b$c$%a%40% # 1 rejected: stage 1 at byte 44 (end)
"#;

#[test]
fn workers_share_lines(rt: HostRuntime) -> Result<(), Fail> {
    each_holds(&rt, rt.alloc(), LINES, &WORKERS)?;
    each_holds(&rt, rt.alloc(), STOPS, &WORKERS)?;
    each_holds(&rt, rt.alloc(), LONG_LINES, &WORKERS)
}

#[test]
fn bytes_that_are_no_text(rt: HostRuntime) -> Result<(), Fail> {
    let case = Case {
        words: "kex run p",
        program: b"main := \"\\x00\\xff\" /[^a]/",
        input: b"\xfe",
        held: b"\x00\xff\xfe",
        answer: "0",
        ports: USUAL,
    };
    assert!(&rt; holds(&rt, rt.alloc(), &case)?);
    Ok(())
}
