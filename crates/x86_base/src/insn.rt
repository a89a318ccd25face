use crate::memory::MemRef;
use crate::op::Op;
use crate::reg::{Reg, Width};

/// An operand: none, a register at the instruction's width, bits 15:8 of RAX, RCX, RDX or RBX,
/// memory, or a number. A number is zero-extended where it is a port or a shift's count, and else
/// sign-extended modulo 2^64.
#[derive(Clone, Copy, Debug, PartialEq, Eq)]
pub enum Operand {
    Absent,
    Whole(Reg),
    High(Reg),
    Memory(MemRef),
    Imm(u64),
}

/// One instruction: what its bytes say.
///
/// The first operand that its row of the opcode table names is `dst` and the second is `src`; an
/// operand that the row doesn't have is absent. `source_width` is the width of the source of Movzx,
/// Movsx and Movsxd, and else `width`. `rep` says whether the prefix F3 stands before it, and `len`
/// is the number of its bytes.
#[derive(Clone, Copy, Debug, PartialEq, Eq)]
pub struct Insn {
    pub op: Op,
    pub width: Width,
    pub source_width: Width,
    pub dst: Operand,
    pub src: Operand,
    pub rep: bool,
    pub len: u8,
}

impl Insn {
    /// NOP by its one byte, for the place of an instruction that is still to be decoded.
    pub const NOP: Insn = Insn {
        op: Op::Nop,
        width: Width::B64,
        source_width: Width::B64,
        dst: Operand::Absent,
        src: Operand::Absent,
        rep: false,
        len: 1,
    };
}
