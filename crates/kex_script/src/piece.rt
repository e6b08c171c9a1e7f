// Words with the bytes that were read.

use crate::ids::WordId;

/// The number of a word in a list of words, and the byte that the word's `Input` stands for.
#[derive(Clone, Copy, Debug, PartialEq, Eq)]
pub struct ByteWord {
    pub word: WordId,
    pub byte: u8,
}
