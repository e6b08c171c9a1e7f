//! The other commands, and each kind of status and note.
use crate::call::each_holds;
use std::test::Fail;

// Where two places are left that part by no symbol, nothing is agreed on; and a begun symbol is
// none yet.
const ON_INPUT: &str = r#"
code p # main := "1" /ac/ | "2" /ab/ # ab # 1'61'62 # 0
code p # main := /a*/ # aa # 0'610'611 # 0
code p # main := 1 #  #  # 0
code p # main := /ab*c/ # abx # '610'62 # 1 rejected: stage 1 at byte 2
code p # main := ~f | ~f f := /ab/ # a #  # 1 rejected: stage 1 at byte 1 (end)
code p # start: a >> a a := /x/ # xxx #  # 3 refused: K14 OneStage
act p # main := "1" /ac/ | "2" /ab/ # 1'61'62 # 2ab # 0
act p # main := "1" /ac/ | "2" /ab/ # 1'61'63 # 2a # 1 rejected: stage 1 at byte 4
act p # main := "1" /ac/ | "2" /ab/ # 1'6g # 2 # 1 rejected: stage 1 at byte 3
act p # main := "1" /ac/ | "2" /ab/ # 1'61 # 2a # 1 rejected: stage 1 at byte 4 (end)
act p # main := "1" /ac/ | "2" /ab/ # 1'7 # 2 # 1 rejected: stage 1 at byte 3 (end)
code p # main := (/a?/ (1 | /b/))* # ab # 00'611'621 # 0
code p # main := "<" /[ab]*?/ ">" /b*/ # abb # 1'6100'620'621 # 0
code p # main := /a+?/ /a?/ # aa # '6100'61 # 0
code p # main := /a{2}?/ # aa # '61'61 # 0
code p # main := /a{2,}?/ # aaa # '61'611'610 # 0
code p # main := /a{,2}?/ # aa # 1'611'61 # 0
act p # main := /a{1,2}?/ # '610 # a # 0
act p # main := /a{1,2}?/ # '611'61 # aa # 0
act p # main := /a{1,2}?/ # '611'610 # aa # 1 rejected: stage 1 at byte 7
code p # main := /a??/ "x" /a?/ # a # 00'61 # 0
code p # main := (/a*/)* # aa # 00'610'6111 # 0
code p # main := (/a*/)* # ab # 00'61 # 1 rejected: stage 1 at byte 1
code p # main := ("x")+ #  # 1 # 0
act p # main := ("x" | /a/)* # 001 # x # 0
act p # main := (/a*/)* # 01011 #  # 0
act p # main := (/a*/)* # 0101 #  # 1 rejected: stage 1 at byte 4 (end)
act p # main := ("x")+ # 001 # xxx # 0
act p --max-input 4 # main := "1" /ac/ | "2" /ab/ # 1'61'62 # 2a # 8 too long: stage 1 at byte 4
act p --max-input 0 # main := "1" /ac/ | "2" /ab/ # 1'61'62 #  # 8 too long: stage 1 at byte 0
test p # main := ((1 | 1)* /a?/)* # aa #  # 0
test p # main := ((1 | 1)* /a?/)* # ab #  # 1 rejected: stage 1 at byte 1
test p # main := /ab*c/ # abbc #  # 0
test p # main := /ab*c/ # abx #  # 1 rejected: stage 1 at byte 2
test p # main := /ab*c/ # ab #  # 1 rejected: stage 1 at byte 2 (end)
trial 0 #  #  # lines 0 in 0 out 0 roll 0$ # 0
trial 1 #  #  # lines 1 in 9 out 9 roll 393038870$ # 0
trial 2 #  #  # lines 2 in 18 out 18 roll 1142616778$ # 0
trial 0 --rings=1 #  #  # lines 0 in 0 out 0 roll 0$ # 0
trial 1 --rings=2 #  #  # lines 1 in 9 out 9 roll 393038870$ # 0
trial 2 --rings=1 #  #  # lines 2 in 18 out 18 roll 1142616778$ # 0
trial 0 --workers=2 #  #  # lines 0 in 0 out 0 roll 0$ # 0
trial 1 --workers=3 #  #  # lines 1 in 9 out 9 roll 393038870$ # 0
trial 2 --workers=64 #  #  # lines 2 in 18 out 18 roll 1142616778$ # 0
"#;

#[test]
fn commands_on_an_input(rt: HostRuntime) -> Result<(), Fail> {
    each_holds(
        &rt,
        rt.alloc(),
        ON_INPUT,
        &["--block=1", "--block=7", "--block=65536"],
    )
}

// Counts, refusals with each kind of place, words out of form, and a name that isn't on the shelf.
const WITHOUT_INPUT: &str = r#"
check p # start: a >> b a := (~/x/ "yy")* b := (~/yyy/ "z")* # a # stages 2 places 18 states 4$ # 0
check p --states 4 # main := /a{3}/ # a # stages 1 places 8 states 4$ # 0
check p --states 3 # main := /a{3}/ # a #  # 3 refused: K15 TooManyStates in stage 1
run p --states 3 # main := /a{3}/ # a #  # 3 refused: K15 TooManyStates in stage 1
run p # main := /a/ main /b/ | 1 # a #  # 3 refused: K10 NotTail at line 1 column 13
run p # main := main # a #  # 3 refused: K13 NoText in stage 1
run p # main := /a/*?? # a #  # 3 refused: K02 Unexpected at line 1 column 14
run p # main := /a*??/ # a #  # 3 refused: K03 BadRegex at line 1 column 13
run p # main := /a$/ # a #  # 3 refused: K01 BadToken at line 1 column 9
run p # main := "a$" # a #  # 3 refused: K01 BadToken at line 1 column 9
run p # main :=$/a/ // "$ foo # a #  # 3 refused: K08 Unknown at line 3 column 2
check p # main := (/a*/)* # a # stages 1 places 4 states 1$ # 0
check p # main := ("x")+ # a # stages 1 places 4 states 1$ # 0
run p # start: a >> b a := (/b*/)* b := /a/ b # a #  # 3 refused: K13 NoText in stage 2
run p --states 1024 # main := /(a|b)*a(a|b){10}/ # a #  # 3 refused: K15 TooManyStates in stage 1
run p --states 2047 # main := /(a|b)*a(a|b){10}/ # a #  # 3 refused: K15 TooManyStates in stage 1
run p --optimal --states 3 # main := /a{3}/ # a #  # 3 refused: K15 TooManyStates in stage 1
run p --optimal --states 65536 # main := /(a|b)*a(a|b){12}/ "x" | /(a|b)*/ "y" #  #  # 3 refused: K16 TooManyPairs in stage 1
check p --states 2048 # main := /(a|b)*a(a|b){10}/ # a # stages 1 places 49 states 2048$ # 0
check p --states 40001 # main := /(a{200}){200}/ # a # stages 1 places 80402 states 40001$ # 0
run p # main := /(a{200}){200}/ # a #  # 3 refused: K15 TooManyStates in stage 1
check p # main := /(a{1000}){600}/ # a #  # 3 refused: K11 TooManyPlaces in stage 1
check p # start: b >> a a := /a/ a b := /b*/ # a #  # 3 refused: K13 NoText in stage 2
run p #  # a #  # 3 refused: K09 NoStart
run # main := /a*/ # a #  # 2 usage: ..
run q # main := /a*/ # a #  # 6 shelf fault
"#;

#[test]
fn commands_without_an_input(rt: HostRuntime) -> Result<(), Fail> {
    each_holds(&rt, rt.alloc(), WITHOUT_INPUT, &["--"])
}

// Lines by themselves: with a rejected one, an empty one and an unfinished one; of more stages than
// one; beyond a block; and read a byte at a time.
const LINES: &str = r#"
each p # main := /a/ "x" | /b/ # a$c$$b # ax$rejected: stage 1 at byte 0$rejected: stage 1 at byte 0 (end)$b$ # 0
each p # main := /a/ "x" | /b/ # a$c$$b # ax$rejected: stage 1 at byte 0$rejected: stage 1 at byte 0 (end)$b$ # 0 # given=1
each p # main := /a/ "x" | /b/ #  #  # 0
each p # main := /a*/ # $$ # $$ # 0
each p --max-input 2 # main := /a*/ # aaa$aa$ # too long: stage 1 at byte 2$aa$ # 0
each p --max-input 0 # main := /a*/ # a$$ # too long: stage 1 at byte 0$$ # 0
each p # start: a >> b a := (~/x/ "yy")* b := (~/yyy/ "z")* # xxx$xx$xxq$ # zz$rejected: stage 2 at byte 4 (end)$rejected: stage 1 at byte 2$ # 0
each p # main := [r <- "-"] ([r += "a"] /b/)* !r # b$$bb # b-a$-$bb-aa$ # 0
each p # main := ("<" /a/ ">")* # %aa$%30000%ab # %<a><a>$%30000%rejected: stage 1 at byte 1$ # 0
each p --states 3 # main := /a{3}/ # a #  # 3 refused: K15 TooManyStates in stage 1
"#;

#[test]
fn each_line_by_itself(rt: HostRuntime) -> Result<(), Fail> {
    each_holds(
        &rt,
        rt.alloc(),
        LINES,
        &["--workers=1", "--workers=2", "--workers=3", "--workers=64"],
    )
}
