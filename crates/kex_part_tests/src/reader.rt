//! What texts are read as, and why they are refused. Offsets count from 0.
use kex_reader::read;
use std::test::Fail;

// Texts of all forms, and then regular expressions: bodies of all forms; the first byte that
// continues no body, or the end where a body has to go on; and the rule of the least number, and of
// its breaks the first.
const TEXTS: &str = r#"
main := 1 => read
start: a >> b a := (~x@"k" "yy")* b := ([r <- "a" x] | !r [r += r]){2,3} a // end => read
start := /[a-z]+(b|c)?/ start | 1 => read
main := 1 main := 1 => read
main := /a/*? "x"+? 1? ? (/b/){2}? a{1,}? a{,3}? ~r@a{2,3}? => read
main := "a => bad token at byte 8
main := /a => bad token at byte 8
main := "\q" => bad token at byte 8
main := | 1 => unexpected token at byte 8
main := => unexpected token at byte 7
main := 2 => unexpected token at byte 8
main := /a/** => unexpected token at byte 12
main := /a/*?? => unexpected token at byte 13
main := /a/{2}?* => unexpected token at byte 15
main := (1 => unexpected token at byte 10
main := ~ := 1 => unexpected token at byte 10
other: a => unexpected token at byte 5
main := [r <- ] => unexpected token at byte 14
main := 1{,} => unexpected token at byte 11
main := /a(/ => bad regex at byte 11
main := /a**/ => bad regex at byte 11
main := /a*??/ => bad regex at byte 12
main := /^a/ => bad regex at byte 9
main := /a{1001}/ => bad count at byte 10
main := /a{1001}?b/ => bad count at byte 10
main := 1{1001}? /[z-a]/ => bad count at byte 9
main := foo /a{3,2}/ => bad count at byte 14
main := 1{1001} /[z-a]/ "b"{00007,7} => bad count at byte 9
main := /[z-a]/ => bad set at byte 9
main := /[^\x00-\xff]/ => bad set at byte 9
main := /[z-a]/ /a{3,2}/ /^/ => bad regex at byte 26
main := /[z-a]/ /a{3,2}/ => bad count at byte 18
main := "x"{4,3} "y"{1001 => unexpected token at byte 25
main := "x"{4,3}? "y"{1001 => unexpected token at byte 26
main := /a/ => read
main := /ab*c+d?/ => read
main := /a{3}b{3,}c{,3}d{2,3}e{0}/ => read
main := /a{0001000}/ => read
main := /a*?b+?c??d{2}?e{2,}?f{,3}?g{2,3}?/ => read
main := /(a*?|b)??|c*?/ => read
main := /a|b||(c|)/ => read
main := /(())*/ => read
main := /[b-d]{2}\x2e/ => read
main := /[^a-z\]\-^]/ => read
main := /[*+?{}()|[.$]/ => read
main := /[\x00-\xff].\n\t\r\\\/\^\$/ => read
main := /a$/ => bad regex at byte 10
main := /a{2}??/ => bad regex at byte 14
main := /a+?+/ => bad regex at byte 12
main := /a*?{2}/ => bad regex at byte 12
main := /)/ => bad regex at byte 9
main := /(a))/ => bad regex at byte 12
main := /|*/ => bad regex at byte 10
main := /{1}/ => bad regex at byte 9
main := /a{}/ => bad regex at byte 11
main := /a{,}/ => bad regex at byte 12
main := /a{1,2/ => bad regex at byte 14
main := /a{1 }/ => bad regex at byte 12
main := /\q/ => bad regex at byte 10
main := /\xg/ => bad regex at byte 11
main := /[]/ => bad regex at byte 10
main := /[^]/ => bad regex at byte 11
main := /[^-x]/ => bad regex at byte 11
main := /[a-/ => bad regex at byte 12
main := /[z-a](/ => bad regex at byte 15
main := /a{1001}(/ => bad regex at byte 17
main := /a{1001}?(/ => bad regex at byte 18
main := /a{3,2}/ => bad count at byte 10
main := /a{3,2}?b/ => bad count at byte 10
main := /a{0004294967298}/ => bad count at byte 10
main := /a{,1001}/ => bad count at byte 10
main := /(a{1001}){1001}/ => bad count at byte 11
main := /[ab-a]/ => bad set at byte 9
main := /[z-\x41]/ => bad set at byte 9
main := /[^\x80-\xff\x00-\x7f]/ => bad set at byte 9
main := /a[z-a][^z-a]/ => bad set at byte 10
main := /[z-a]b{1001}/ => bad count at byte 15
main := /a[z-a]b{1000}/ => bad set at byte 10
main := /b{5,4}[z-a]b{1001}/ => bad count at byte 10
"#;

#[test]
fn texts_and_their_refusals(rt: HostRuntime) -> Result<(), Fail> {
    for row in TEXTS.trim().lines() {
        let (text, want) = row.split_once(" => ").ok_or("no answer")?;
        let got = match read(rt.alloc(), text.as_bytes()) {
            Ok(_) => String::from_str(rt.alloc(), "read")?,
            Err(refusal) => format!(in rt.alloc(); "{refusal}")?,
        };
        assert_eq!(rt; got.as_str(), want, "{text}");
    }
    Ok(())
}
