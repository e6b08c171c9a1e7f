// Symbols of codes.

/// What a code is made of: the side of a choice, or the byte that was read.
///
/// The output alphabet of the oracle machine of the Kleenex paper (POPL 2016), with the bytes left
/// in.
#[derive(Clone, Copy, PartialEq, Eq, Debug)]
pub enum Symbol {
    L,
    R,
    Byte(u8),
}
