//! Table files: what is written, what runs by them, and which are refused.
use crate::call::{CallRows, each_row_holds};
use std::test::Fail;

// What is written for a program, and what a program is refused for.
const WRITTEN: &str = r#"
compile p # main := /a*/ # a # kextable 1^text 12^main := /a*/^stage 1 classes 2 states 1^state 0 (1,2)^init ,0,1^go 0 1 0 $1;.,0,1^end^ # 0
compile p # main := 1 # a # kextable 1^text 9^main := 1^stage 1 classes 1 states 1^state 0 1^init ^end^ # 0
compile p --states 4 # main := /a{3}/ # a # kextable 1^text 14^main := /a{3}/^stage 1 classes 2 states 4^state 0 1^init ^go 0 1 1 .^state 1 3^go 1 1 2 .^state 2 5^go 2 1 3 .^state 3 7^end^ # 0
compile p --states 3 # main := /a{3}/ # a #  # 3 refused: K15 TooManyStates in stage 1
compile p # main := main # a #  # 3 refused: K13 NoText in stage 1
compile p # main := /a # a #  # 3 refused: K01 BadToken at line 1 column 9
compile q # main := /a*/ # a #  # 6 shelf fault
compile # main := /a*/ # a #  # 2 usage: ..
compile p # main := /a*/ # a # kextable 1 # 5 write fault # taken=5 write=3
compile p # main := /a*/ # a # kextable 1^text 12^main := /a*/^stage 1 classes 2 states 1^state 0 (1,2)^init ,0,1^go 0 1 0 $1;.,0,1^end^ # 5 write fault # write=2
"#;

#[test]
fn table_files_are_written(rt: HostRuntime) -> Result<(), Fail> {
    let rows = CallRows {
        text: WRITTEN,
        feed: '^',
        compiled: false,
    };
    each_row_holds(&rt, rt.alloc(), rows, &["--"])
}

// Files with a fault, and one with none.
const CHECKED: &str = r#"
exec p # kextable 1^text 12^main := /a*/^stage 1 classes 2 states 1^state 0 (1,2)^init ,0,1^go 0 1 0 $1;.,0,1^end^ # aaa # aaa # 0
exec p # kextable 1^text 12^main := /a*/^stage 1 classes 2 states 1^state 0 (1,2)^init ,0,1^go 0 1 0 $1;.,1,0^end^ # aaa #  # 3 refused: K17 BadTable at line 7
exec p # kextable 1^text 12^main := /a*/^stage 1 classes 2 states 1^state 0 (1,2)^init ,0,1^end^ # aaa #  # 3 refused: K17 BadTable at line 7
exec p # kextable 1^text 12^main := /a*/^stage 1 classes 2 states 1^state 0 (1,2)^init ,0,1^go 0 1 0 $1;.,0,1^ # aaa #  # 3 refused: K17 BadTable at line 8
exec p # kextable 1^text 12^main := /a*/^stage 1 classes 2 states 1^state 0 (1,2)^init ,0,1^go 0 1 0 $1;.,0,1^end # aaa #  # 3 refused: K17 BadTable at line 8
exec p # kextable 1^text 12^main := /a*/^stage 1 classes 2 states 1^state 0 (1,2)^init ,0,1^go 0 1 0 $1;.,0,1^end^^ # aaa #  # 3 refused: K17 BadTable at line 9
exec p # kextable 1^text 12^main := /a*/^stage 1 classes 2 states 1^state 0 (1,2)^init ,0,1^go 0 1 0 $1;.,0,1^go 0 1 0 $1;.,0,1^end^ # aaa #  # 3 refused: K17 BadTable at line 8
exec p # kextable 1^text 12^main := /a*/^stage 1 classes 2 states 2^state 0 (1,2)^init ,0,1^go 0 1 1 $1;.,0,1^state 1 (1,2)^go 1 1 0 $1;.,0,1^end^ # aaa # aaa # 0
exec p # kextable 1^text 12^main := /a*/^stage 1 classes 2 states 2^state 0 (1,2)^init ,0,1^go 0 1 0 $1;.,0,1^state 1 (1,2)^go 1 1 0 $1;.,0,1^end^ # aaa #  # 3 refused: K17 BadTable at line 8
exec p # kextable 1^text 12^main := /a*/^stage 1 classes 2 states 1^state 0 (1,2)^init ,0,1^go 0 1 1 $1;.,0,1^end^ # aaa #  # 3 refused: K17 BadTable at line 7
exec p # kextable 1^text 12^main := /a*/^stage 1 classes 2 states 1^state 0 (2,1)^init ,0,1^go 0 1 0 $1;.,0,1^end^ # aaa #  # 3 refused: K17 BadTable at line 5
exec p # kextable 1^text 11^main := /a*/^stage 1 classes 2 states 1^state 0 (1,2)^init ,0,1^go 0 1 0 $1;.,0,1^end^ # aaa #  # 3 refused: K17 BadTable at line 2
exec p # kextable 1^text 4294967308^main := /a*/^stage 1 classes 2 states 1^state 0 (1,2)^init ,0,1^go 0 1 0 $1;.,0,1^end^ # aaa #  # 3 refused: K17 BadTable at line 2
exec p # kextable 1^text 012^main := /a*/^stage 1 classes 2 states 1^state 0 (1,2)^init ,0,1^go 0 1 0 $1;.,0,1^end^ # aaa #  # 3 refused: K17 BadTable at line 2
exec p # kextable 2^text 12^main := /a*/^stage 1 classes 2 states 1^state 0 (1,2)^init ,0,1^go 0 1 0 $1;.,0,1^end^ # aaa #  # 3 refused: K17 BadTable at line 1
exec p # kextable 1^text 12^main := main^stage 1 classes 2 states 1^end^ # aaa #  # 3 refused: K13 NoText in stage 1
exec p # kextable 1^text 12^main :=^ a*/^stage 7^ # aaa #  # 3 refused: K01 BadToken at line 2 column 4
exec p # main := /a*/ # aaa #  # 3 refused: K17 BadTable at line 1
exec p #  # aaa #  # 3 refused: K17 BadTable at line 1
exec q # kextable 1^ # aaa #  # 6 shelf fault
"#;

#[test]
fn table_files_are_checked(rt: HostRuntime) -> Result<(), Fail> {
    let rows = CallRows {
        text: CHECKED,
        feed: '^',
        compiled: false,
    };
    each_row_holds(&rt, rt.alloc(), rows, &["--block=65536", "--block=1"])
}

// Programs whose table files run as they do.
const COMPILED: &str = r#"
exec p # main := /ab*c/ # abx # ab # 1 rejected: stage 1 at byte 2
exec p # main := /ab*c/ # ab # ab # 1 rejected: stage 1 at byte 2 (end)
exec p # main := (a@/[a-z]+/ ~/,/ b@/[0-9]+/ !b "," !a /\n/)* # ab,12$ # 12,ab$ # 0
exec p # start: a >> b a := (~/x/ "yy")* b := (~/yyy/ "z")* # xxx # zz # 0
exec p # start: a >> b a := (~/x/ "yy")* b := (~/yyy/ "z")* # xx # z # 1 rejected: stage 2 at byte 4 (end)
exec p # start: a >> b a := (~/x/ "yy")* b := (~/yyy/ "z")* # xxq # z # 1 rejected: stage 1 at byte 2
exec p # start: a >> b a := (~/x/ "yy")* b := /y/ # xxq # y # 1 rejected: stage 2 at byte 1
exec p # start: a >> b a := (~/x/ "yy")* b := /y*/ "!" # xxq # yyyy # 1 rejected: stage 1 at byte 2
exec p # main := (/a?/ (1 | /b/))* # ab # ab # 0
exec p # main := "<" /[ab]*?/ ">" /b*/ # abb # <a>bb # 0
exec p --max-input 3 # main := /a*/ # aaaa # aaa # 8 too long: stage 1 at byte 3
exec p # main := /a*/ # aaa #  # 4 read fault # read=1
exec p # main := /ab*c/ # abx #  # 5 write fault # write=1
exec p # main := /ab*c/ # abx #  # 6 shelf fault # take=1
"#;

#[test]
fn table_files_run_as_their_programs(rt: HostRuntime) -> Result<(), Fail> {
    let rows = CallRows {
        text: COMPILED,
        feed: '$',
        compiled: true,
    };
    let blocks = ["--block=65536", "--block=1", "--block=3"];
    each_row_holds(&rt, rt.alloc(), rows, &blocks)
}
