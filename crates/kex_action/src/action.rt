// What is done along a walk, for every byte at once.

/// What is done at a step: the byte that is read is written, or a node does what it does.
#[derive(Clone, Copy, Debug, PartialEq, Eq)]
pub enum Action {
    Byte,
    Node(u32),
}
