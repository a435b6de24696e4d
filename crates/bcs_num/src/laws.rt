//! A law about the bytes of numbers, stated as the contract of a function that does nothing.
ghost use Rattle.bcs_num.specs.Laws.{UlebByBytes};

/// A number below 128 is encoded as one byte, the number itself. For larger numbers, the first byte is the lowest seven
/// bits with the high bit set, followed by the encoding of the remaining bits.
pub fn uleb_by_bytes()
    ensures { UlebByBytes }
{}
