//! What the program reaches outside itself: a source of input, a sink for output, a shelf of named
//! texts and a gate; each of them in memory; and a count of steps.
//!
//! Uses codes, for want of memory alone. The traits' clauses say that a call fails only where its
//! count of faults rises.
#![tactic(auto)]

mod asked;
mod calls;
mod ending;
mod fault;
mod gate;
mod shelf;
mod sink;
mod source;
mod steps;

pub use fault::Failed;
pub use gate::{Gate, MeetGate, OpenGate};
pub use shelf::{MemShelf, Shelf, ShelfAnswer};
pub use sink::{MemSink, NeverFailsSink, Sink};
pub use source::{MemSource, NeverFailsSource, Source};
pub use steps::Steps;
