//! Text that a stage holds back over several pieces: until a byte settles it, until the input ends,
//! or for nothing.
use crate::call::each_holds;
use std::test::Fail;

const BLOCKS: [&str; 4] = ["--block=1", "--block=2", "--block=7", "--block=4096"];

const WAYS: [&str; 3] = [
    "--rings=2 --block=7",
    "--workers=2 --block=4096",
    "--optimal --block=7",
];

// Settled by the last byte, with text before it and after it, and by turns; a side that drops it,
// and one that keeps it in a register. Then text of which more is said than a leap has room for,
// and text that lags by ten bytes, so that the runner takes it.
const SETTLED: &str = r#"
run p # main := ("1 " /[a-z]*!/ | "0 " /[a-z]*;/)* # %ab%3000%; # 0 %ab%3000%; # 0
run p # main := ("1 " /[a-z]*!/ | "0 " /[a-z]*;/)* # %ab%3000%!cd; # 1 %ab%3000%!0 cd; # 0
run p # main := ("1 " /[a-z]*!/ | "0 " /[a-z]*;/)* # cd;%ab%3000%! # 0 cd;1 %ab%3000%! # 0
run p # main := ("1 " /[a-z]*!/ | "0 " /[a-z]*;/)* # %ab;cd!%700% # %0 ab;1 cd!%700% # 0
run p # main := ("<" ("1 " /[a-z]*!/ | "0 " /[a-z]*;/) ">")* # cd;%ab%3000%!ef; # <0 cd;><1 %ab%3000%!><0 ef;> # 0
run p # main := (~/[a-z]*/ /;/ | /[a-z]*,/)* # %ab%3000%; # ; # 0
run p # main := (~/[a-z]*/ /;/ | /[a-z]*,/)* # %ab%3000%,cd; # %ab%3000%,; # 0
run p # main := (r@/[a-z]*/ ~/=/ "[" !r "]" | /[a-z]*;/)* # %ab%3000%=cd; # [%ab%3000%]cd; # 0
run p # main := (/[0-9]{1,3}/ ("," /[0-9]{3}/)* /;/)* # 123%123%1999%; # 123%,123%1999%; # 0
run p # main := "1" ("<" /a/ ">")* /b/ | "2" ("<" /a/ ">")* /c/ # %a%3000%c # 2%<a>%3000%c # 0
run p # main := /a*/ ~/a{10}/ # %a%3000% # %a%2990% # 0
run p # main := /a*/ ~/a{3}/ /;/ ("1 " /[A-Z]*!/ | "0 " /[A-Z]*;/) # aaaaaaaa;%AB%3000%! # aaaaa;1 %AB%3000%! # 0
"#;

#[test]
fn a_byte_settles_what_is_held(rt: HostRuntime) -> Result<(), Fail> {
    each_holds(&rt, rt.alloc(), SETTLED, &BLOCKS)?;
    each_holds(&rt, rt.alloc(), SETTLED, &WAYS)
}

// The end tells which side it was, after as many bytes as are no longer few, and one fewer and one
// more: the text has to end in a mark for the first side. Sides write it, drop it, or keep it in a
// register.
const ENDED: &str = r#"
run p # main := "1 " /[a-z][a-z!]*!/ | "0 " /[a-z][a-z!]*/ # %a%255% # 0 %a%255% # 0
run p # main := "1 " /[a-z][a-z!]*!/ | "0 " /[a-z][a-z!]*/ # %a%256% # 0 %a%256% # 0
run p # main := "1 " /[a-z][a-z!]*!/ | "0 " /[a-z][a-z!]*/ # %a%257% # 0 %a%257% # 0
run p # main := "1 " /[a-z][a-z!]*!/ | "0 " /[a-z][a-z!]*/ # %a%254%! # 1 %a%254%! # 0
run p # main := "1 " /[a-z][a-z!]*!/ | "0 " /[a-z][a-z!]*/ # %a%255%! # 1 %a%255%! # 0
run p # main := "1 " /[a-z][a-z!]*!/ | "0 " /[a-z][a-z!]*/ # %a%256%! # 1 %a%256%! # 0
run p # main := "1 " /[a-z!]*!/ | "0 " /[a-z!]*/ # %ab!%2000%c # 0 %ab!%2000%c # 0
run p # main := "1 " /[a-z!]*!/ | "0 " /[a-z!]*/ # %ab!%2000% # 1 %ab!%2000% # 0
run p # main := ~/[a-z][a-z!]*!/ "-" | /[a-z][a-z!]*/ # %ab%3000%! # - # 0
run p # main := ~/[a-z][a-z!]*!/ "-" | /[a-z][a-z!]*/ # %ab%3000% # %ab%3000% # 0
run p # main := r@/[a-z][a-z!]*!/ "[" !r "]" | /[a-z][a-z!]*/ # %ab%3000%! # [%ab%3000%!] # 0
run p # main := /[0-9]{1,3}/ ("," /[0-9]{3}/)* # 1%234%2000% # 1%,234%2000% # 0
"#;

#[test]
fn the_end_settles_what_is_held(rt: HostRuntime) -> Result<(), Fail> {
    each_holds(&rt, rt.alloc(), ENDED, &BLOCKS)?;
    each_holds(&rt, rt.alloc(), ENDED, &WAYS)
}

// Nothing settles it: the input ends where no parse does, a byte is refused whose number counts all
// bytes, the limit comes before, a read fails, or the stage before breaks off.
const UNSETTLED: &str = r#"
run p # main := ("1 " /[a-z]*!/ | "0 " /[a-z]*;/)* # %a%200% #  # 1 rejected: stage 1 at byte 200 (end)
run p # main := ("1 " /[a-z]*!/ | "0 " /[a-z]*;/)* # %ab%3000% #  # 1 rejected: stage 1 at byte 6000 (end)
run p # main := ("1 " /[a-z]*!/ | "0 " /[a-z]*;/)* # cd;%ab%3000% # 0 cd; # 1 rejected: stage 1 at byte 6003 (end)
run p # main := ("1 " /[a-z]*!/ | "0 " /[a-z]*;/)* # %ab%3000%Xcd; #  # 1 rejected: stage 1 at byte 6000
run p # main := ("<" ("1 " /[a-z]*!/ | "0 " /[a-z]*;/))* # cd;%ab%3000%X # <0 cd;< # 1 rejected: stage 1 at byte 6003
run p # main := ([r <- "x"] (!r "1 " /[a-z]*!/ | !r "0 " /[a-z]*;/))* # cd;%ab%3000% # x0 cd; # 1 rejected: stage 1 at byte 6003 (end)
run p # main := ("1 " /[a-z]*!/ | "0 " /[a-z]*;/)* # cd;%ab%3000%X # 0 cd; # 1 rejected: stage 1 at byte 6003
run p --max-input 5000 # main := ("1 " /[a-z]*!/ | "0 " /[a-z]*;/)* # %ab%3000%; #  # 8 too long: stage 1 at byte 5000
run p # main := ("1 " /[a-z]*!/ | "0 " /[a-z]*;/)* # %ab%3000%; #  # 4 read fault # given=4000 read=2
run p # start: a >> b a := /.*/ b := "1 " /[a-z]*;/ | "0 " /[a-z]*!/ # %ab%3000%X; #  # 1 rejected: stage 2 at byte 6000
run p # start: a >> b a := /[a-z]*[;!]/ b := "1 " /[a-z]*;/ | "0 " /[a-z]*!/ # %ab%3000% #  # 1 rejected: stage 1 at byte 6000 (end)
"#;

#[test]
fn nothing_settles_what_is_held(rt: HostRuntime) -> Result<(), Fail> {
    each_holds(&rt, rt.alloc(), UNSETTLED, &BLOCKS)?;
    each_holds(&rt, rt.alloc(), UNSETTLED, &WAYS)
}

// A sheet has 86,033 bytes: a text of as many, one more, and 200,000 and more. Of these one is
// refused for its last byte.
const LONG: &str = r#"
run p # main := ("1 " /[a-z]*!/ | "0 " /[a-z]*;/)* # %a%86032%; # 0 %a%86032%; # 0
run p # main := ("1 " /[a-z]*!/ | "0 " /[a-z]*;/)* # %a%86033%; # 0 %a%86033%; # 0
run p # main := ("1 " /[a-z]*!/ | "0 " /[a-z]*;/)* # %ab%100000%!cd; # 1 %ab%100000%!0 cd; # 0
run p # main := ("1 " /[a-z]*!/ | "0 " /[a-z]*;/)* # %ab%100000%X #  # 1 rejected: stage 1 at byte 200000
run p # main := (r@/[a-z]*/ ~/=/ "[" !r "]" | /[a-z]*;/)* # %ab%100000%= # [%ab%100000%] # 0
run p # main := "1 " /[a-z][a-z!]*!/ | "0 " /[a-z][a-z!]*/ # %a%86032%! # 1 %a%86032%! # 0
run p # main := "1 " /[a-z][a-z!]*!/ | "0 " /[a-z][a-z!]*/ # %ab%100000% # 0 %ab%100000% # 0
run p # main := r@/[a-z][a-z!]*!/ "[" !r "]" | /[a-z][a-z!]*/ # %ab%100000%! # [%ab%100000%!] # 0
"#;

#[test]
fn what_is_held_is_longer_than_a_sheet(rt: HostRuntime) -> Result<(), Fail> {
    each_holds(&rt, rt.alloc(), LONG, &["--block=4096", "--block=65536"])
}

// Stages begin anew with each line: after one that the end settles, one with a byte that is
// refused, and one whose first stage breaks off while the second holds all of it.
const LINES: &str = r#"
each p # main := "1 " /[a-z][a-z!]*!/ | "0 " /[a-z][a-z!]*/ # ab!$%ab%300%!$ab$ # 1 ab!$1 %ab%300%!$0 ab$ # 0
each p # main := ("1 " /[a-z]*!/ | "0 " /[a-z]*;/)* # %ab%300%X;$cd!$ # rejected: stage 1 at byte 600$1 cd!$ # 0
each p # main := ("1 " /[a-z]*!/ | "0 " /[a-z]*;/)* # %ab%300%$cd!$ # rejected: stage 1 at byte 600 (end)$1 cd!$ # 0
each p # start: a >> b a := /[a-z]*[;!]/ b := "1 " /[a-z]*;/ | "0 " /[a-z]*!/ # cd;$%ab%300%$ef!$ # 1 cd;$rejected: stage 1 at byte 600 (end)$0 ef!$ # 0
"#;

#[test]
fn lines_hold_nothing_of_those_before(rt: HostRuntime) -> Result<(), Fail> {
    let options = ["--workers=1", "--workers=3"];
    each_holds(&rt, rt.alloc(), LINES, &options)
}
