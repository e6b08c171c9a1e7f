// What is done along a leap.

/// The bytes of a piece from one place to another are written, or a node does what it does.
#[derive(Clone, Copy, Debug, PartialEq, Eq)]
pub enum LeapAct {
    Text { from: usize, to: usize },
    Effect(u32),
}
