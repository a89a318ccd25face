use crate::Bytes;

/// Elements of string I/O that are shown and answered together (AMD 56421, section 4, IOIO_PROT). It is
/// lawful where its size is 1, 2 or 4 bytes, its count is from 1 to 2,032 / size and 1 without REP, and
/// it has the bytes of its elements for output and none for input.
#[derive(Drop)]
pub struct Block {
    pub port: u16,
    /// The bytes of an element.
    pub size: u8,
    /// Whether it is INS, and else OUTS.
    pub input: bool,
    pub rep: bool,
    /// How many elements it has.
    pub count: u16,
    /// The bytes of an output's elements, in the order of their accesses.
    pub bytes: Bytes,
}
