// What a place is made of.

/// What is pending in a place: a node, with the turns that are needed and left where it is a
/// repetition (else 0 and none), or the end of a node that mutes or fills a register.
#[derive(Clone, Copy, Debug, PartialEq, Eq, Hash)]
pub enum Frame {
    Pending {
        node: u32,
        need: u32,
        left: Option<u32>,
    },
    EndOf(u32),
}
