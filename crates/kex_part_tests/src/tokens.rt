//! Texts that are cut, and texts with the place of their first bad token.
use kex_tokens::token::TokenFault;
use kex_tokens::tokens;
use std::alloc::Global;
use std::test::Fail;

// The kinds of a text's tokens, and where each begins and ends; or the place of the first thing
// that is none.
fn answer(alloc: Global, text: &[u8]) -> Result<String, Fail> {
    let mut answer = String::new(alloc);
    match tokens(alloc, text) {
        Ok(tokens) => {
            for token in &tokens {
                let told = format!(in alloc; "{:?} {} {}, ", token.kind, token.from, token.to)?;
                answer.push_str(told.as_str())?;
            }
        }
        Err(TokenFault::BadToken { at }) => {
            let told = format!(in alloc; "bad {at}")?;
            answer.push_str(told.as_str())?;
        }
        Err(_) => answer.push_str("another fault")?,
    }
    Ok(answer)
}

const TEXTS: &str = r#"
// a line =>
1/**/2/*/ **/ => Number 0 1, Number 5 6,
a/* b */c// d => Name 0 1, Name 8 9,
m_1 := "a"2c => Name 0 3, Define 4 6, Literal 7 10, Number 10 11, Name 11 12,
:=:+=+>> => Define 0 2, Colon 2 3, PlusEquals 3 5, Plus 5 6, Pipe 6 8,
|~@*?{}, => Bar 0 1, Tilde 1 2, At 2 3, Star 3 4, Question 4 5, OpenBrace 5 6, CloseBrace 6 7, Comma 7 8,
![]<-() => Bang 0 1, OpenBracket 1 2, CloseBracket 2 3, Arrow 3 5, OpenParen 5 6, CloseParen 6 7,
"\n\t\r\\\"\xfF""" => Literal 0 16, Literal 16 18,
/a\/*b//c/1 => Regex 0 7, Regex 7 10, Number 10 11,
main := "a => bad 8
main := /a => bad 8
main := "\q" => bad 8
/*/ => bad 0
1 /* a * => bad 2
a < => bad 2
a > b => bad 2
:== => bad 2
"\x4" => bad 0
"\xg0" => bad 0
"a" "\" => bad 4
/a\/ => bad 0
1 _a => bad 2
# => bad 0
/ => bad 0
"#;

#[test]
fn texts_are_cut(rt: HostRuntime) -> Result<(), Fail> {
    for row in TEXTS.trim().lines() {
        let (text, want) = row.split_once(" =>").ok_or("no answer")?;
        let got = answer(rt.alloc(), text.as_bytes())?;
        assert_eq!(rt; got.trim(), want.trim(), "{text}");
    }
    Ok(())
}
