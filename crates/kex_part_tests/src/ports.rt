//! The gate at which two stages meet. What the objects in memory answer is said by their clauses.
use kex_ports::{Gate, MeetGate};

#[test]
fn a_stage_that_enters_later_sees_the_earlier(rt: HostRuntime) {
    let gates = [(MeetGate::default(), 1, 2), (MeetGate::new(3, 7), 7, 3)];
    for (gate, first, second) in &gates {
        gate.enter(5);
        gate.enter(*first);
        gate.leave(*first);
        gate.enter(*second);
        gate.enter(*first);
        assert!(rt; gate.saw(*second), "{first} {second}");
        assert!(rt; !gate.saw(*first) && !gate.saw(5), "{first} {second}");
    }
}
