/// Why no instruction was decoded.
#[derive(Clone, Copy, Debug, PartialEq, Eq)]
pub enum DecodeFault {
    /// The first 15 bytes are a proper prefix of a spelling, so the instruction is too long.
    TooLong,
    /// There are fewer than 15 bytes, and together they are a proper prefix of a spelling.
    Short,
    /// No spelling stands at the front or goes on behind these bytes.
    Undecoded,
}
