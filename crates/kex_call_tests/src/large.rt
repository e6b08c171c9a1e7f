//! Long inputs, blocks and pieces, where memory is ample.
use crate::call::each_holds;
use std::test::Fail;

// A piece of more than a mebibyte into a second stage; a fault of reading after a block and a part
// of one; faults of writing after a part of a block, since what one stage says is written before
// the next part is given, where there are 65,536 bytes of it; blocks of lines through two stages
// and registers; and more than rounds of rings with room for one item take, so that the rest is
// settled.
const BLOCKS: &str = r#"
run p # start: a >> b a := (~/a/ "yyyyyyyyyyyyyyyyy")* b := /y*/ # %a%70000% # %yyyyyyyyyyyyyyyyy%70000% # 0
run p # main := /a*/ # %a%70000% # %a%70000% # 4 read fault # read=3
run p # main := (~/a/ "yyyyyyyyyyyyyyyy")* # %a%20000% # %yyyyyyyyyyyyyyyy%4096% # 5 write fault # write=2
code p # main := /a*/ # %a%20000% # %0'61%16384% # 5 write fault # write=2
run p # start: swap >> mark swap := (x@/[a-z]*/ ~/,/ y@/[0-9]*/ !y "," !x /\n/)* mark := ("> " /[^\n]*\n/)* # %ab,12$%12000% # %> 12,ab$%12000% # 0
run p --rings=1 # start: a >> b a := (~/x/ "yy")* b := (~/yyy/ "z")* # %xxx%1000% # %zz%1000% # 0
"#;

#[test]
fn blocks_and_pieces_are_long(rt: HostRuntime) -> Result<(), Fail> {
    each_holds(&rt, rt.alloc(), BLOCKS, &["--block=65536"])
}

// More than 65,536 bytes that are undecided, in a register, or in a code, also in one block, and as
// many labels that are joined.
const MANY: &str = r#"
run p # main := "1" /a*b/ | "2" /a*c/ # %a%70000%c # 2%a%70000%c # 0
code p # main := "1" /a*b/ | "2" /a*c/ # %a%70000%c # 1%0'61%70000%1'63 # 0
code p # main := "1" /(a|ab)*c/ | "2" /(a|ab)*d/ # %a%70000%c # 0%00'61%70000%1'63 # 0
run p # main := r@/a*/ /b/ !r # %a%70000%b # b%a%70000% # 0
code p # main := /a*/ # %a%70000% # %0'61%70000%1 # 0
act p # main := /a*/ # %0'61%70000%1 # %a%70000% # 0
test p # main := /a*/ # %a%70000% #  # 0
run p # main := "1" ("<" /a/ ">")* /b/ | "2" ("<" /a/ ">")* /c/ # %a%70000%c # 2%<a>%70000%c # 0
"#;

#[test]
fn there_is_memory_for_more_than_65_536(rt: HostRuntime) -> Result<(), Fail> {
    each_holds(&rt, rt.alloc(), MANY, &["--block=65536", "--block=1000000"])
}

// A loop of 9,000 states and 131 classes has more edges than there is room to learn, and goes round
// 50 times. One of 20,001 states is met once.
const LOOPS: &str = r#"
run p --states=65536 # main := /(((ab){90}){50}|\x80|\x81|\x82|\x83|\x84|\x85|\x86|\x87|\x88|\x89|\x8a|\x8b|\x8c|\x8d|\x8e|\x8f|\x90|\x91|\x92|\x93|\x94|\x95|\x96|\x97|\x98|\x99|\x9a|\x9b|\x9c|\x9d|\x9e|\x9f|\xa0|\xa1|\xa2|\xa3|\xa4|\xa5|\xa6|\xa7|\xa8|\xa9|\xaa|\xab|\xac|\xad|\xae|\xaf|\xb0|\xb1|\xb2|\xb3|\xb4|\xb5|\xb6|\xb7|\xb8|\xb9|\xba|\xbb|\xbc|\xbd|\xbe|\xbf|\xc0|\xc1|\xc2|\xc3|\xc4|\xc5|\xc6|\xc7|\xc8|\xc9|\xca|\xcb|\xcc|\xcd|\xce|\xcf|\xd0|\xd1|\xd2|\xd3|\xd4|\xd5|\xd6|\xd7|\xd8|\xd9|\xda|\xdb|\xdc|\xdd|\xde|\xdf|\xe0|\xe1|\xe2|\xe3|\xe4|\xe5|\xe6|\xe7|\xe8|\xe9|\xea|\xeb|\xec|\xed|\xee|\xef|\xf0|\xf1|\xf2|\xf3|\xf4|\xf5|\xf6|\xf7|\xf8|\xf9|\xfa|\xfb|\xfc|\xfd|\xfe|\xff)*/ # %ab%225000% # %ab%225000% # 0
run p --states=65536 # main := /((ab){100}){100}/ # %ab%10000% # %ab%10000% # 0
"#;

#[test]
fn tables_are_larger_than_what_is_learnt(rt: HostRuntime) -> Result<(), Fail> {
    each_holds(&rt, rt.alloc(), LOOPS, &["--block=65536"])
}
