// Numbers of ways and of their words.

/// The number of a way. Number 0 is the empty way, and not the way of register 0.
pub type WayId = u16;

/// The number of a word of a script, where that is short: half as long as a `WordId`.
pub type ShortWordId = u16;
