//! A pipe of stages whose turns come out of order, with empty pieces among those that it is given;
//! and what an inbox keeps.
use crate::copier::copy;
use kex_pipe::inbox::Inbox;
use kex_pipe::pipe::Pipe;
use std::test::Fail;

#[test]
fn turns_out_of_order(rt: HostRuntime) -> Result<(), Fail> {
    let alloc = rt.alloc();
    let mut pipe = Pipe::new(alloc, vec![in alloc; copy(), copy()]?)?;
    pipe.turn(2, 0)?;
    pipe.give(b"")?;
    pipe.turn(1, 9)?;
    pipe.give(b"xy")?;
    pipe.turn(1, 1)?;
    pipe.turn(2, 1)?;
    pipe.give(b"")?;
    pipe.give_end()?;
    assert!(rt; pipe.ended());
    pipe.turn(1, 9)?;
    assert!(rt; !pipe.settled());
    assert_eq!(rt; pipe.take_output().as_slice(), b"x".as_slice());
    pipe.turn(2, 9)?;
    assert!(rt; pipe.settled());
    assert!(rt; pipe.report().is_none());
    assert_eq!(rt; pipe.take_output().as_slice(), b"y".as_slice());
    Ok(())
}

// An inbox that is never empty keeps room for no more than a few pieces.
#[test]
fn taken_bytes_are_freed(rt: HostRuntime) -> Result<(), Fail> {
    let alloc = rt.alloc();
    let mut inbox = Inbox::new(alloc);
    inbox.give(b"waits")?;
    for _piece in 0..1_000 {
        inbox.give(&[b'x'; 100])?;
        inbox.remove(100);
    }
    let mut all = Vec::new(alloc);
    inbox.take_bytes_into(&mut all);
    assert_eq!(rt; all.as_slice(), b"xxxxx".as_slice());
    assert!(rt; all.capacity() <= 1_000);
    Ok(())
}
