// Words of one symbol.

use crate::ids::WordId;

/// The numbers of the words `L`, `R`, and the byte that is read: pieces of them spell any code.
#[derive(Clone, Copy, Debug, PartialEq, Eq)]
pub struct Letters {
    pub left: WordId,
    pub right: WordId,
    pub byte: WordId,
}
