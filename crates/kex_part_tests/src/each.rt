//! Lines that are shared out among workers. No clause says that any are, and that there is memory
//! for an answer.
use crate::made::ANY;
use crate::refusing::Watch;
use kex_code::memory::Memory;
use kex_compile::compile;
use kex_each::{Lines, answer, batch};
use kex_ports::MeetGate;
use std::alloc::Global;
use std::sync::atomic::Ordering;
use std::test::Fail;

// The lines of a text, of each at most three bytes.
fn cut(alloc: Global, text: &[u8]) -> Result<Vec<Vec<u8>>, Memory> {
    let mut found = Vec::new(alloc);
    let mut lines = Lines::new(alloc, 3);
    lines.feed(text, &mut found)?;
    lines.end(&mut found)?;
    Ok(found)
}

// The first part and the second are worked on at once.
#[test]
fn gate_meets_each(rt: HostRuntime) -> Result<(), Fail> {
    let alloc = rt.alloc();
    let compiled = compile(alloc, b"main := /a/ \"x\" | /b/", &ANY)?;
    let lines = cut(alloc, b"a\nc")?;
    let gate = MeetGate::default();
    let answers = batch(&rt, alloc, compiled.stages(), &lines, 2, 2, &gate)?;
    let text = answers.concat(alloc)?;
    assert!(rt; text.as_slice() == b"ax\nrejected: stage 1 at byte 0\n".as_slice());
    assert!(rt; gate.saw(1));
    assert!(rt; gate.saw(2));
    let last = answer(alloc, compiled.stages(), b"bb", 1)?;
    assert!(rt; last.as_slice() == b"too long: stage 1 at byte 1\n".as_slice());
    Ok(())
}

// Each part enters the gate and leaves it. There are as many as workers, or as lines if those are
// fewer.
#[test]
fn each_part_passes_the_gate(rt: HostRuntime) -> Result<(), Fail> {
    let alloc = rt.alloc();
    let compiled = compile(alloc, b"main := /a*/", &ANY)?;
    let lines = cut(alloc, b"a\n\naa\n")?;
    for (workers, parts) in [(1, 1), (2, 2), (3, 3), (64, 3)] {
        assert!(&rt; 1 <= workers && workers <= 64);
        let watch = Watch::new();
        let answers = batch(&rt, alloc, compiled.stages(), &lines, 2, workers, &watch)?;
        assert_eq!(&rt; answers.len(), 3);
        assert_eq!(&rt; watch.entered.load(Ordering::SeqCst), parts, "{workers}");
        assert_eq!(&rt; watch.left.load(Ordering::SeqCst), parts, "{workers}");
    }
    Ok(())
}
