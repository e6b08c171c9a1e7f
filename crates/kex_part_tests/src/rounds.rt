//! Rounds: stages that work at once or one after another, and one that wants memory.
use crate::copier::{copy, failing};
use crate::refusing::{Watch, refusing_after};
use kex_pipe::pipe::{Pipe, PipeFault};
use kex_ports::{MeetGate, OpenGate};
use kex_rounds::round::round;
use std::sync::atomic::Ordering;
use std::test::Fail;

// Any two stages meet that have much to do: their first turn, or 32,768 bytes that wait. Where only
// one has, the caller works them one after another.
#[test]
fn any_two_stages_meet(rt: HostRuntime) -> Result<(), Fail> {
    let alloc = rt.alloc();
    let mut pipe = Pipe::new(alloc, vec![in alloc; copy(), copy(), copy(), copy()]?)?;
    let first = MeetGate::new(1, 2);
    round(&rt, &mut pipe, &first)?;
    pipe.give(&[b'a'; 65_536])?;
    let alone = MeetGate::new(1, 2);
    round(&rt, &mut pipe, &alone)?;
    pipe.turn(2, 65_536)?;
    pipe.turn(3, 32_768)?;
    let second = MeetGate::new(3, 4);
    round(&rt, &mut pipe, &second)?;
    assert!(rt; first.saw(1));
    assert!(rt; first.saw(2));
    assert!(rt; alone.saw(2) && !alone.saw(1));
    assert!(rt; second.saw(3));
    assert!(rt; second.saw(4));
    Ok(())
}

// A stage enters the gate before its work, and leaves it.
#[test]
fn work_is_done_inside_the_gate(rt: HostRuntime) -> Result<(), Fail> {
    let alloc = rt.alloc();
    let watch = Watch::new();
    let stages = vec![in alloc; refusing_after(copy(), &watch, 1_000)]?;
    let mut pipe = Pipe::new(alloc, stages)?;
    pipe.give(b"ab")?;
    round(&rt, &mut pipe, &watch)?;
    assert_eq!(rt; watch.inside.load(Ordering::SeqCst), 1);
    assert_eq!(rt; watch.outside.load(Ordering::SeqCst), 0);
    assert_eq!(rt; watch.entered.load(Ordering::SeqCst), 1);
    assert_eq!(rt; watch.left.load(Ordering::SeqCst), 1);
    Ok(())
}

// The stages beside the one that wants memory end their work.
#[test]
fn memory_in_a_round(rt: HostRuntime) -> Result<(), Fail> {
    let alloc = rt.alloc();
    let mut pipe = Pipe::new(alloc, vec![in alloc; copy(), failing(1), copy()]?)?;
    pipe.give(b"ab")?;
    round(&rt, &mut pipe, &OpenGate)?;
    let gate = Watch::new();
    assert!(rt; matches!(round(&rt, &mut pipe, &gate), Err(PipeFault::Memory)));
    assert_eq!(rt; gate.left.load(Ordering::SeqCst), 3);
    assert!(rt; !pipe.settled());
    assert!(rt; matches!(pipe.give(b"c"), Err(PipeFault::Spent)));
    assert!(rt; matches!(round(&rt, &mut pipe, &OpenGate), Err(PipeFault::Spent)));
    assert!(rt; pipe.take_output().is_empty());
    Ok(())
}
