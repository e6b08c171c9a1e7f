//! More than 65,536 lists and words, which no table of the other tests has. No clause says that
//! there is memory for them. Rows have as many of each other thing.
use crate::made::ANY;
use kex_action::actor::Actor;
use kex_code::symbol::Symbol;
use kex_compile::compile;
use kex_machine::Trimmed;
use kex_moves::phrases::Phrases;
use kex_script::interned::Interned;
use kex_script::piece::ByteWord;
use kex_sst::parts::{Part, Parts};
use std::alloc::Global;
use std::test::Fail;

// Each list is another.
#[test]
fn lists_of_parts(rt: HostRuntime) -> Result<(), Fail> {
    let mut lists = Interned::new(rt.alloc());
    for number in 0..70_000 {
        lists.number(&[Part::Old(number)])?;
    }
    assert_eq!(rt; lists.len(), 70_000);
    Ok(())
}

// Words that put a byte in angles.
fn words(alloc: Global) -> Result<Vec<Parts>, Fail> {
    let mut words = Vec::new(alloc);
    for _ in 0..70_000 {
        let mut word = Parts::new(alloc);
        word.push(Part::Put(Symbol::L))?;
        word.push(Part::Put(Symbol::L))?;
        word.push(Part::Input)?;
        words.push(word)?;
    }
    Ok(words)
}

// Whether the last of the words is said.
fn says_last(alloc: Global, machine: &Trimmed, out: &mut Vec<u8>) -> Result<bool, Fail> {
    let words = words(alloc)?;
    let mut actor = Actor::new(alloc, machine)?;
    let mut phrases = Phrases::new(alloc, &words, machine)?;
    let last = ByteWord {
        word: 69_999,
        byte: b'x',
    };
    Ok(phrases.say(&mut actor, &[last], out)?)
}

#[test]
fn words_of_phrases(rt: HostRuntime) -> Result<(), Fail> {
    let alloc = rt.alloc();
    let compiled = compile(alloc, b"main := (\"<\" /./ \">\" | ~/./)*", &ANY)?;
    let machine = compiled.stages().first().ok_or("no stage")?.machine();
    let mut out = Vec::new(alloc);
    assert!(rt; says_last(alloc, machine, &mut out)?);
    assert!(rt; out.as_slice() == b"<x>".as_slice());
    Ok(())
}
