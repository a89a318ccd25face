// The parts of a row of the opcode table, and what stands before an opcode.
use crate::op::Op;

/// What stands before the opcode: the operand-size prefix 66, the REP prefix F3, a REX byte.
#[derive(Clone, Copy, Debug, PartialEq, Eq)]
pub struct Context {
    pub size: bool,
    pub rep: bool,
    pub rex: Option<u8>,
}

/// The operations of a row: one, one where the reg bits of its ModRM byte are 0, or a group's, one
/// for each value of the reg bits.
#[derive(Clone, Copy, Debug, PartialEq, Eq)]
pub enum Ops {
    One(Op),
    OnlyZero(Op),
    Arithmetic,
    Shift,
    TestNotNeg,
    IncDec,
}

/// Which operands a row has, and in which order.
#[derive(Clone, Copy, Debug, PartialEq, Eq)]
pub enum Form {
    RmReg,
    RegRm,
    RegRmByte,
    RegRmWord,
    RegRmDouble,
    RegAddress,
    Rm,
    RmOne,
    RmCl,
    RmImm,
    RmCount,
    RmImmOfTest,
    RmIgnored,
    AccImm,
    AccPort,
    PortAcc,
    AccDx,
    DxAcc,
    OpcodeImm(u8),
    Opcode(u8),
    Immediate,
    Nothing,
}

/// The width of a row: 8 bits, that of the prefixes, the same but at most 32 bits, or 64 bits.
#[derive(Clone, Copy, Debug, PartialEq, Eq)]
pub enum RowWidth {
    B,
    V,
    Z,
    Q,
}

/// The immediate of a row: none, a byte, 16 or 32 bits by the prefixes, 32 bits, as many as the
/// width, or one of the first two where the reg bits are 0, as in the group of Test, Not and Neg.
#[derive(Clone, Copy, Debug, PartialEq, Eq)]
pub enum Imm {
    Nothing,
    Byte,
    Word,
    Double,
    Full,
    ByteOfTest,
    WordOfTest,
}

/// A row of the opcode table.
#[derive(Clone, Copy, Debug, PartialEq, Eq)]
pub struct Row {
    pub ops: Ops,
    pub form: Form,
    pub width: RowWidth,
    pub imm: Imm,
    /// The prefix 66 may stand before it.
    pub size: bool,
    /// The prefix F3 may stand before it.
    pub rep: bool,
    /// REX.W has to stand before it.
    pub long: bool,
    /// REX.B must not stand before it.
    pub no_base: bool,
}
