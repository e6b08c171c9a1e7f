//! What texts are compiled to, and why they are refused.
use crate::made::ANY;
use kex_compile::compile;
use kex_compile::limits::Limits;
use std::alloc::{AllocError, Global};
use std::test::Fail;

// How many stages, places and states there are, or why there are none, where no more than a
// million states are allowed, and tables tell what is best only where there are any. Offsets count
// from 0.
fn answer(alloc: Global, text: &[u8], limits: &Limits) -> Result<String, AllocError> {
    let limits = Limits {
        states: limits.states.min(1_048_576),
        optimal: limits.tables && limits.optimal,
        ..*limits
    };
    match compile(alloc, text, &limits) {
        Ok(made) => {
            let (stages, places, states) = (made.stages().len(), made.places(), made.states());
            format!(in alloc; "{stages} {places} {states}")
        }
        Err(refusal) => format!(in alloc; "{refusal}"),
    }
}

// A number of states, or one stage without tables, or tables that tell what is best.
fn limits_of(word: &str) -> Result<Limits, Fail> {
    if word == "one" {
        return Ok(Limits {
            states: 4_096,
            one_stage: true,
            tables: false,
            optimal: false,
        });
    }
    if word == "best" {
        return Ok(Limits {
            optimal: true,
            ..ANY
        });
    }
    Ok(Limits {
        states: word.parse::<u32>()?,
        ..ANY
    })
}

// A text, where `a%b%3%c` is read as `abbbc`.
fn text_of(alloc: Global, spelling: &str) -> Result<Vec<u8>, Fail> {
    let mut pieces = spelling.split('%');
    let mut text = pieces.next().unwrap_or("").as_bytes().to_vec(alloc)?;
    let middle = pieces.next().unwrap_or("").as_bytes();
    let times = pieces.next().unwrap_or("0").parse::<u32>()?;
    let middles = middle.repeat(alloc, times as usize)?;
    text.extend_from_slice(middles.as_slice())?;
    text.extend_from_slice(pieces.next().unwrap_or("").as_bytes())?;
    Ok(text)
}

// How many states a stage may have, and a text. Where one stage is asked for, a second is refused,
// but only after all rules that the text breaks, and without tables no state is counted. Then come
// states up to their limit; limits of texts at their number, where another rule is broken or none,
// and one past it; and pairs, which are asked after the states of all stages.
const TEXTS: &str = r#"
4096 main := 1 => 1 2 1
4096 main := /a*/ => 1 3 1
4096 main := /a{3}/ => 1 8 4
4096 main := /a{1000}/ => 1 2002 1001
4096 main := /a{1001}/ => bad count at byte 10
4096 start: a >> b a := (~/x/ "yy")* b := (~/yyy/ "z")* => 2 18 4
4096 start: a >> b a := /x*/ b := /y/ => 2 5 3
4096 start: a >> b a := (/b*/)* b := /a/ b => no text has a parse by stage 2
4096 main := "a => bad token at byte 8
4096 main := => unexpected token at byte 7
4096 main := /a(/ => bad regex at byte 11
4096 main := foo /a{3,2}/ => bad count at byte 14
4096 main := /[z-a]/ => bad set at byte 9
4096 main := 1 main := 1 => the name at byte 10 is defined twice
4096 main := foo => the name at byte 8 has no definition
4096 foo := 1 => there is no stage
4096 main := foo main := 1 => the name at byte 12 is defined twice
4096 start: foo main := 1 => the name at byte 7 has no definition
4096 main := main /a/ | 1 => the call at byte 8 comes back outside tail position
4096 main := 1 foo := foo /a/ | 1 => the call at byte 17 comes back outside tail position
4096 main := 1 foo := main /a/ | 1 => 1 2 1
4096 main := /a/ main /b/ | 1 => the call at byte 12 comes back outside tail position
4096 main := (/a/ main)? 1 => the call at byte 13 comes back outside tail position
4096 main := /(a{200}){200}/ => stage 1 has too many states
4096 main := foo foo := /(a{216}){151}/ => stage 1 has too many states
4096 main := /(a{1000}){600}/ => stage 1 has too many places
4096 main := (/a*/)* => 1 4 1
4096 main := ("x" | /a/)* => 1 5 1
4096 main := "x" main | 1 => 1 6 1
4096 main := main => no text has a parse by stage 1
4096 main := "x" main => no text has a parse by stage 1
4096 main := /a/ main => no text has a parse by stage 1
one main := /a/ => 1 2 0
one start: a a := /a/ => 1 2 0
one main := /(a{216}){151}/ => 1 65536 0
one main := /(a{1000}){523}b{763}/ => 1 1048576 0
one main := foo foo := /(a{1000}){523}b{763}/ => stage 1 has too many places
one start: a >> a a := /a/ => there is more than one stage
one start: a >> b a := /a/ a b := /b/ => no text has a parse by stage 1
1 main := 1 => 1 2 1
16 main := /(a|b)*a(a|b){3}/ => 1 21 16
15 main := /(a|b)*a(a|b){3}/ => stage 1 has too many states
2 start: a >> b a := /x*/ b := /y/ => 2 5 3
1 start: a >> b a := /x*/ b := /y/ => stage 2 has too many states
1 start: a >> b a := /x/ b := /y/ => stage 1 has too many states
1 start: a >> b a := /x/ b := /y/ b => no text has a parse by stage 2
32617 main := foo foo := /(a{216}){151}/ => 1 65537 32617
40001 main := /(a{200}){200}/ => 1 80402 40001
40000 main := /(a{200}){200}/ => stage 1 has too many states
4096 main := 1% %1048567% => 1 2 1
4096 main := 1% %1048568% => the text is too long
4096 main := %~%200%foo => the name at byte 208 has no definition
4096 main := %~%201%foo => over a limit at byte 208
4096 start: a% >> a%255% a := 1 => 256 512 256
4096 start: a >> b >> a >> b a := /x*/ b := /y/ => 4 10 6
4096 start: a >> b >> b a := /a/ b := /b/ b => no text has a parse by stage 2
2 start: a >> b >> a >> b a := /x*/ b := /y{3}/ => stage 2 has too many states
4096 start: b >> a >> b a := /(a{1000}){600}/ b := /b/ b => stage 2 has too many places
65536 start: a% >> a%255% a := /(a{216}){151}/ => 256 16777216 8349952
4096 start: a% >> a%256% a := 1 => over a limit at byte 1287
4096 main := %(%1048568% => unexpected token at byte 1048576
4096 main := 1/%*%1048566% => bad token at byte 9
4096 main := %~%199%/()/ => 1 400 1
4096 main := %~%200%/()/ => over a limit at byte 209
4096 main := %~%198%/((()))/ => over a limit at byte 209
4096 main := %~%200%/(/ => bad regex at byte 210
4096 main := "%x%70000%" => 1 2 1
4096 main := [r <-% "x"%70000%] => 1 2 1
4096 main := 1% 1%70000% => 1 140002 1
best main := /a*/ => 1 3 1
best main := ("1" /[ab]*a[ab]{10}\n/ | "0" /[ab]*\n/)* => stage 1 has too many pairs
best start: a >> b a := /a*/ b := ("1" /[ab]*a[ab]{10}\n/ | "0" /[ab]*\n/)* => stage 2 has too many pairs
best start: a >> b a := ("1" /[ab]*a[ab]{10}\n/ | "0" /[ab]*\n/)* b := /a{1000}/ /a{1000}/ /a{1000}/ /a{1000}/ /a{100}/ => stage 2 has too many states
best start: a >> b a := ("1" /[ab]*a[ab]{10}\n/ | "0" /[ab]*\n/)* b := /a/ b => no text has a parse by stage 2
"#;

#[test]
fn texts_are_compiled_or_refused(rt: HostRuntime) -> Result<(), Fail> {
    let alloc = rt.alloc();
    for row in TEXTS.trim().lines() {
        let (word, rest) = row.split_once(' ').ok_or("no limit")?;
        let (spelling, want) = rest.split_once(" => ").ok_or("no answer")?;
        let text = text_of(alloc, spelling)?;
        let got = answer(alloc, &text, &limits_of(word)?)?;
        assert_eq!(rt; got.as_str(), want, "{row}");
    }
    Ok(())
}

// The numbers of the stages whose machines the stages have.
fn machine_numbers(alloc: Global, text: &[u8]) -> Result<String, Fail> {
    let compiled = compile(alloc, text, &ANY)?;
    let mut numbers = String::new(alloc);
    for plan in compiled.stages() {
        let number = plan.machine().machine().stage();
        let word = format!(in alloc; " {number}")?;
        numbers.push_str(word.as_str())?;
    }
    Ok(numbers)
}

// Stages that begin at one node have one machine, that of the first of them.
#[test]
fn stages_share_machines(rt: HostRuntime) -> Result<(), Fail> {
    let alloc = rt.alloc();
    let rows = [
        ("main := /a/", " 1"),
        ("start: a >> b a := /x/ b := /x/", " 1 2"),
        ("start: a >> a >> a a := /x/", " 1 1 1"),
        (
            "start: a >> b >> a >> c >> b a := /x/ b := /x/ c := a",
            " 1 2 1 4 2",
        ),
    ];
    for (text, want) in rows {
        let got = machine_numbers(alloc, text.as_bytes())?;
        assert_eq!(rt; got.as_str(), want, "{text}");
    }
    Ok(())
}

// Definitions, each of which calls the next one before what is at its end, and the last one the
// first.
fn cycle(alloc: Global, count: u32, end: &str) -> Result<String, AllocError> {
    let mut text = String::from_str(alloc, "start: a0")?;
    for number in 0..count {
        let next = if number + 1 < count { number + 1 } else { 0 };
        let definition = format!(in alloc; " a{number} := a{next}{end}")?;
        text.push_str(definition.as_str())?;
    }
    Ok(text)
}

// The rules are asked in time linear in the program: a search from each definition wouldn't end.
#[test]
fn many_definitions(rt: HostRuntime) -> Result<(), Fail> {
    let alloc = rt.alloc();
    let rows = [
        ("", "no text has a parse by stage 1"),
        (
            "/b/",
            "the call at byte 16 comes back outside tail position",
        ),
    ];
    for (end, want) in rows {
        let text = cycle(alloc, 40_000, end)?;
        let got = answer(alloc, text.as_bytes(), &ANY)?;
        assert_eq!(rt; got.as_str(), want);
    }
    Ok(())
}
