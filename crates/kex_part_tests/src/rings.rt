//! Rounds over rings: stages that work at once, and one that wants memory.
use crate::copier::{copy, failing};
use crate::refusing::{Watch, refusing_after};
use kex_pipe::pipe::PipeFault;
use kex_ports::{MeetGate, OpenGate};
use kex_rings::pipe::RingPipe;
use kex_rings::round::ring_round;
use std::sync::atomic::Ordering;
use std::test::Fail;

#[test]
fn two_stages_meet(rt: HostRuntime) -> Result<(), Fail> {
    let alloc = rt.alloc();
    let mut pipe = RingPipe::new(alloc, vec![in alloc; copy(), copy()]?, 4)?;
    pipe.give(b"ab")?;
    let gate = MeetGate::default();
    let mut counts = Vec::new(alloc);
    ring_round(&rt, &mut pipe, &gate, 1, &mut counts)?;
    assert!(rt; gate.saw(1));
    assert!(rt; gate.saw(2));
    assert_eq!(rt; counts.len(), 2);
    Ok(())
}

// The second stage wants memory at its second call, which comes in one of the rounds.
#[test]
fn memory_in_a_round(rt: HostRuntime) -> Result<(), Fail> {
    let alloc = rt.alloc();
    let mut pipe = RingPipe::new(alloc, vec![in alloc; copy(), failing(1)]?, 4)?;
    let mut counts = Vec::new(alloc);
    pipe.give(b"ab")?;
    pipe.settle()?;
    assert_eq!(rt; pipe.take_output().as_slice(), b"ab".as_slice());
    pipe.give(b"cd")?;
    let mut last = Ok(());
    for _round in 0..4 {
        if last.is_ok() {
            last = ring_round(&rt, &mut pipe, &OpenGate, 1, &mut counts);
        }
    }
    assert!(rt; matches!(last, Err(PipeFault::Memory)));
    assert!(rt; !pipe.settled());
    assert!(rt; matches!(pipe.settle(), Err(PipeFault::Spent)));
    assert!(rt; b"cd".starts_with(pipe.take_output().as_slice()));
    Ok(())
}

// How much room a ring has, how many looks there are, how many bytes are given, and how many items
// a stage then takes: at each look as many as a ring has room for.
const LOOKS: &str = "\
1 1 9 1
1 16 100 16
3 4 20 12
4096 2 10000 8192
65537 1 200000 65537
65537 3 200000 196611
65537 4 200000 200000";

#[test]
fn a_stage_looks_as_often_as_is_asked(rt: HostRuntime) -> Result<(), Fail> {
    let alloc = rt.alloc();
    for row in LOOKS.lines() {
        let mut numbers = row.split(' ');
        let room = numbers.next().ok_or("no room")?.parse::<u32>()?;
        let looks = numbers.next().ok_or("no looks")?.parse::<u32>()?;
        let bytes = numbers.next().ok_or("no bytes")?.parse::<u32>()?;
        let taken = numbers.next().ok_or("no count")?.parse::<u64>()?;
        let watch = Watch::new();
        let stages = vec![in alloc; refusing_after(copy(), &watch, 1_000)]?;
        assert!(&rt; 0 < room && room <= 1_048_576 && 0 < looks);
        let mut pipe = RingPipe::new(alloc, stages, room)?;
        pipe.give(&vec![in alloc; b'a'; bytes as usize]?)?;
        let mut counts = Vec::new(alloc);
        ring_round(&rt, &mut pipe, &watch, looks, &mut counts)?;
        assert_eq!(&rt; counts.first().copied(), Some(taken), "{row}");
        assert_eq!(&rt; watch.outside.load(Ordering::SeqCst), 0, "{row}");
        assert_eq!(&rt; watch.entered.load(Ordering::SeqCst), 1, "{row}");
        assert_eq!(&rt; watch.left.load(Ordering::SeqCst), 1, "{row}");
    }
    Ok(())
}
