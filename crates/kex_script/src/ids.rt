// Numbers of words, lists and updates.

/// The number of a word of a script.
pub type WordId = u32;

/// The number of a list of a script. List 0 is empty.
pub type ListId = u32;

/// An update, by its place in the rows of a script.
pub type UpdateId = u32;
