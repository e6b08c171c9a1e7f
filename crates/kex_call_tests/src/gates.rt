//! Gates that see stages work at once, and count how often one works.
use crate::call::{bytes_of, words_of};
use kex_ports::{Gate, MeetGate, MemShelf, MemSink, MemSource, NeverFailsSink};
use kex_top::{Status, kex};
use std::alloc::Global;
use std::sync::atomic::{AtomicU32, Ordering};
use std::test::Fail;
use std::thread::Threads;

// How a call ends, at a gate, whose program reads an input that comes at once, and what it writes.
fn call<R: Threads + Sync, G: Gate + Sync>(
    rt: &R,
    alloc: Global,
    words: &str,
    program: &[u8],
    input: Vec<u8>,
    gate: &G,
) -> Result<(Status, Vec<u8>), Fail> {
    let words = words_of(alloc, words)?;
    let mut shelf = MemShelf::new(alloc, Vec::new(alloc));
    shelf.put("p", program)?;
    let most = input.len().max(1);
    let mut input = MemSource::new(input, most, Vec::new(alloc));
    let mut output = MemSink::new(alloc, 32_768, 4_096, Vec::new(alloc))?;
    let status = kex(
        rt,
        alloc,
        words.as_slice(),
        &mut shelf,
        &mut input,
        &mut output,
        &mut NeverFailsSink,
        gate,
    );
    Ok((status, output.bytes().to_vec(alloc)?))
}

#[test]
fn stages_meet(rt: HostRuntime) -> Result<(), Fail> {
    let line = "lines 1 in 9 out 9 roll 393038870\n";
    let rows = [
        ("kex run p", "zz"),
        ("kex trial 1", line),
        ("kex run p --rings 4", "zz"),
        ("kex trial 1 --rings 4", line),
    ];
    let program = b"start: a >> b a := (~/a/ \"yy\")* b := (~/yyy/ \"z\")*";
    for (words, held) in rows {
        let gate = MeetGate::default();
        let input = b"aaa".to_vec(rt.alloc())?;
        let (status, output) = call(&rt, rt.alloc(), words, program, input, &gate)?;
        assert!(&rt; status == Status::Done, "{words}");
        assert!(&rt; output.as_slice() == held.as_bytes(), "{words}");
        assert!(&rt; gate.saw(1) && gate.saw(2), "{words}");
    }
    Ok(())
}

// The two halves of the lines of a block are worked on at once.
#[test]
fn gate_meets_each(rt: HostRuntime) -> Result<(), Fail> {
    let gate = MeetGate::default();
    let words = "kex each p --workers 2";
    let program = b"main := /a/ \"x\" | /b/";
    let input = b"a\nc\n\nb".to_vec(rt.alloc())?;
    let held = "ax\nrejected: stage 1 at byte 0\nrejected: stage 1 at byte 0 (end)\nb\n";
    let (status, output) = call(&rt, rt.alloc(), words, program, input, &gate)?;
    assert!(&rt; status == Status::Done);
    assert!(&rt; output.as_slice() == held.as_bytes());
    assert!(&rt; gate.saw(1) && gate.saw(2));
    Ok(())
}

// The two halves of a block are worked on at once.
#[test]
fn gate_meets_chunks(rt: HostRuntime) -> Result<(), Fail> {
    let gate = MeetGate::default();
    let words = "kex run p --workers 2";
    let input = b"abx".to_vec(rt.alloc())?;
    let (status, output) = call(&rt, rt.alloc(), words, b"main := /ab*c/", input, &gate)?;
    assert_eq!(&rt; status.number(), 1);
    assert!(&rt; output.as_slice() == b"ab".as_slice());
    assert!(&rt; gate.saw(1) && gate.saw(2));
    Ok(())
}

// Counts how often stages begin their work.
#[derive(Drop)]
struct EntryGate {
    entries: AtomicU32,
}

impl Gate for EntryGate {
    fn enter(&self, _stage: u32) {
        self.entries.fetch_add(1, Ordering::SeqCst);
    }

    fn leave(&self, _stage: u32) {}
}

// How often work begins on an input. It begins once before the first byte, and once at the end.
// Between them a round takes all that came; over rings a stage takes in a round no more than 16
// times a ring's room, and after 64 rounds the rest is settled. So it is with each piece of a block,
// of which the first one has 16,384 bytes at most. A trial of one line has nine bytes and goes by
// blocks through two stages, of which the first writes at the end of the line. Lines by themselves
// are shared out in as many parts as there are workers, or lines if those are fewer. So
// is a block, in parts as many as workers, or bytes: each part is one entry, and the stage's own
// turns are none.
const COUNTS: &str = "\
run p --block=65536 # %a%2000% # 3
run p --workers=3 # %a%2000% # 3
run p --workers=64 # %a%5% # 5
run p --workers=2 --rings=1 # %a%1000% # 65
trial 1 --workers=2 #  # 4
trial 3 --workers=2 --block=1 #  # 2
run p --rings=1 # %a%1000% # 65
run p --rings=1 # %a%2000% # 66
run p --rings=2 # %a%2000% # 65
run p --rings=4096 # %a%2000% # 3
run p --rings=65536 # %a%20000% # 4
trial 1 #  # 10
trial 1 --block=9 #  # 10
trial 1 --block=3 #  # 14
trial 1 --block=1 #  # 26
each p # %a$%5%a # 2
each p --workers=3 # %a$%5%a # 4
each p --workers=64 # %a$%5% # 5";

#[test]
fn stages_work_as_often_as_they_are_asked(rt: HostRuntime) -> Result<(), Fail> {
    for row in COUNTS.lines() {
        let (words, rest) = row.split_once(" # ").ok_or("no input")?;
        let (input, count) = rest.split_once(" # ").ok_or("no count")?;
        let words = format!(in rt.alloc(); "kex {words}")?;
        let count = count.parse::<u32>()?;
        let gate = EntryGate {
            entries: AtomicU32::new(0),
        };
        let program = b"main := /a*/";
        let input = bytes_of(rt.alloc(), input, '$')?;
        let (status, _) = call(&rt, rt.alloc(), words.as_str(), program, input, &gate)?;
        assert!(&rt; status == Status::Done, "{row}");
        assert_eq!(&rt; gate.entries.load(Ordering::SeqCst), count, "{row}");
    }
    Ok(())
}
