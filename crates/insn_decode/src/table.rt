// The opcode table, in the order and the notation of the opcode maps (APM volume 3, appendix A).
ghost use Rattle.std.specs.Prelude.{◌≡◌};
ghost use Rattle.x86_base.specs.Table.{row_00_to_3F, row_40_to_BF, row_C0_to_FF, one_byte, two_bytes, three_bytes};

use crate::operation::arithmetic;
use x86_base::Ops::{Arithmetic, IncDec, One, OnlyZero, Shift, TestNotNeg};
use x86_base::{Form, Imm, Op, Row, RowWidth};

/// Whether a mark is among the others.
macro_rules! mark {
    (o o $($rest:ident)*) => { true };
    (r r $($rest:ident)*) => { true };
    (w w $($rest:ident)*) => { true };
    (x x $($rest:ident)*) => { true };
    ($mark:ident $other:ident $($rest:ident)*) => { mark!($mark $($rest)*) };
    ($mark:ident) => { false };
}

/// The row of a form, a width, an immediate, operations and marks.
macro_rules! row {
    ($form:expr, $width:ident, $imm:ident, $ops:expr, $($mark:ident)*) => {
        Row {
            ops: $ops,
            form: $form,
            width: RowWidth::$width,
            imm: Imm::$imm,
            size: mark!(o $($mark)*),
            rep: mark!(r $($mark)*),
            long: mark!(w $($mark)*),
            no_base: mark!(x $($mark)*),
        }
    };
}

/// The row of these columns, an operation and marks. E is the r/m operand, G the register of the
/// ModRM byte's reg bits, M memory alone, Z the register of the opcode's low three bits, I an
/// immediate, J the displacement of a jump, X and Y the strings at RSI and RDI.
macro_rules! columns {
    (Eb_Gb, $($rest:tt)*) => { row!(Form::RmReg, B, Nothing, $($rest)*) };
    (Ev_Gv, $($rest:tt)*) => { row!(Form::RmReg, V, Nothing, $($rest)*) };
    (Gb_Eb, $($rest:tt)*) => { row!(Form::RegRm, B, Nothing, $($rest)*) };
    (Gv_Ev, $($rest:tt)*) => { row!(Form::RegRm, V, Nothing, $($rest)*) };
    (Gv_Eb, $($rest:tt)*) => { row!(Form::RegRmByte, V, Nothing, $($rest)*) };
    (Gv_Ew, $($rest:tt)*) => { row!(Form::RegRmWord, V, Nothing, $($rest)*) };
    (Gq_Ed, $($rest:tt)*) => { row!(Form::RegRmDouble, Q, Nothing, $($rest)*) };
    (Gv_M, $($rest:tt)*) => { row!(Form::RegAddress, V, Nothing, $($rest)*) };
    (Eb, $($rest:tt)*) => { row!(Form::Rm, B, Nothing, $($rest)*) };
    (Ev, $($rest:tt)*) => { row!(Form::Rm, V, Nothing, $($rest)*) };
    (E_ignored, $($rest:tt)*) => { row!(Form::RmIgnored, Q, Nothing, $($rest)*) };
    (Eb_Ib, $($rest:tt)*) => { row!(Form::RmImm, B, Byte, $($rest)*) };
    (Ev_Ib, $($rest:tt)*) => { row!(Form::RmImm, V, Byte, $($rest)*) };
    (Ev_Iz, $($rest:tt)*) => { row!(Form::RmImm, V, Word, $($rest)*) };
    (Eb_group3, $($rest:tt)*) => { row!(Form::RmImmOfTest, B, ByteOfTest, $($rest)*) };
    (Ev_group3, $($rest:tt)*) => { row!(Form::RmImmOfTest, V, WordOfTest, $($rest)*) };
    (Eb_count, $($rest:tt)*) => { row!(Form::RmCount, B, Byte, $($rest)*) };
    (Ev_count, $($rest:tt)*) => { row!(Form::RmCount, V, Byte, $($rest)*) };
    (Eb_1, $($rest:tt)*) => { row!(Form::RmOne, B, Nothing, $($rest)*) };
    (Ev_1, $($rest:tt)*) => { row!(Form::RmOne, V, Nothing, $($rest)*) };
    (Eb_CL, $($rest:tt)*) => { row!(Form::RmCl, B, Nothing, $($rest)*) };
    (Ev_CL, $($rest:tt)*) => { row!(Form::RmCl, V, Nothing, $($rest)*) };
    (AL_Ib, $($rest:tt)*) => { row!(Form::AccImm, B, Byte, $($rest)*) };
    (rAX_Iz, $($rest:tt)*) => { row!(Form::AccImm, V, Word, $($rest)*) };
    (Zq($low:expr), $($rest:tt)*) => { row!(Form::Opcode($low), Q, Nothing, $($rest)*) };
    (Zb_Ib($low:expr), $($rest:tt)*) => { row!(Form::OpcodeImm($low), B, Byte, $($rest)*) };
    (Zv_Iv($low:expr), $($rest:tt)*) => { row!(Form::OpcodeImm($low), V, Full, $($rest)*) };
    (Ib_q, $($rest:tt)*) => { row!(Form::Immediate, Q, Byte, $($rest)*) };
    (Iz_q, $($rest:tt)*) => { row!(Form::Immediate, Q, Double, $($rest)*) };
    (Jb, $($rest:tt)*) => { row!(Form::Immediate, Q, Byte, $($rest)*) };
    (Jz, $($rest:tt)*) => { row!(Form::Immediate, Q, Double, $($rest)*) };
    (AL_port, $($rest:tt)*) => { row!(Form::AccPort, B, Byte, $($rest)*) };
    (eAX_port, $($rest:tt)*) => { row!(Form::AccPort, Z, Byte, $($rest)*) };
    (port_AL, $($rest:tt)*) => { row!(Form::PortAcc, B, Byte, $($rest)*) };
    (port_eAX, $($rest:tt)*) => { row!(Form::PortAcc, Z, Byte, $($rest)*) };
    (AL_DX, $($rest:tt)*) => { row!(Form::AccDx, B, Nothing, $($rest)*) };
    (eAX_DX, $($rest:tt)*) => { row!(Form::AccDx, Z, Nothing, $($rest)*) };
    (DX_AL, $($rest:tt)*) => { row!(Form::DxAcc, B, Nothing, $($rest)*) };
    (DX_eAX, $($rest:tt)*) => { row!(Form::DxAcc, Z, Nothing, $($rest)*) };
    (Yb_DX, $($rest:tt)*) => { row!(Form::Nothing, B, Nothing, $($rest)*) };
    (Yz_DX, $($rest:tt)*) => { row!(Form::Nothing, Z, Nothing, $($rest)*) };
    (DX_Xb, $($rest:tt)*) => { row!(Form::Nothing, B, Nothing, $($rest)*) };
    (DX_Xz, $($rest:tt)*) => { row!(Form::Nothing, Z, Nothing, $($rest)*) };
    (no_operands, $($rest:tt)*) => { row!(Form::Nothing, Q, Nothing, $($rest)*) };
}

/// The row of a byte. The marks: o, 66 may stand before it; r, F3 may; w, REX.W has to; x, REX.B
/// must not.
///
/// The table is one list of rows in the map's order, cut into five functions: a `match` is proved
/// row by row, and a longer one takes the prover too long.
macro_rules! rows {
    ($byte:ident, $($bytes:pat => $ops:expr, $columns:ident $(($low:expr))? $([$($mark:ident)*])?;)*) => {
        match $byte {
            $($bytes => Some(columns!($columns $(($low))?, $ops, $($($mark)*)?)),)*
            _ => None,
        }
    };
}

/// The rows of 00 to 3F: the eight operations.
#[tactic(auto, unfolding(x86_base::specs::Table::row_00_to_3F))]
fn row_00_to_3f(byte: u8) -> Option<Row>
    ensures { result ≡ row_00_to_3F byte }
{
    let ops = One(arithmetic(byte / 8));
    let place = byte % 8;
    rows!(place,
        0 => ops, Eb_Gb;
        1 => ops, Ev_Gv   [o];
        2 => ops, Gb_Eb;
        3 => ops, Gv_Ev   [o];
        4 => ops, AL_Ib;
        5 => ops, rAX_Iz  [o];
    )
}

/// The rows of 40 to BF.
#[tactic(auto, unfolding(x86_base::specs::Table::row_40_to_BF))]
fn row_40_to_bf(byte: u8) -> Option<Row>
    ensures { result ≡ row_40_to_BF byte }
{
    let low = byte % 8;
    let condition = byte % 16;
    rows!(byte,
        // 50 to 5F
        0x50..=0x57 => One(Op::Push),            Zq(low);
        0x58..=0x5F => One(Op::Pop),             Zq(low);
        // 60 to 6F
        0x63        => One(Op::Movsxd),          Gq_Ed        [w];
        0x68        => One(Op::Push),            Iz_q;
        0x6A        => One(Op::Push),            Ib_q;
        0x6C        => One(Op::Ins),             Yb_DX        [r];
        0x6D        => One(Op::Ins),             Yz_DX        [o r];
        0x6E        => One(Op::Outs),            DX_Xb        [r];
        0x6F        => One(Op::Outs),            DX_Xz        [o r];
        // 70 to 7F
        0x70..=0x7F => One(Op::Jcc(condition)),  Jb;
        // 80 to 8F
        0x80        => Arithmetic,               Eb_Ib;
        0x81        => Arithmetic,               Ev_Iz        [o];
        0x83        => Arithmetic,               Ev_Ib        [o];
        0x84        => One(Op::Test),            Eb_Gb;
        0x85        => One(Op::Test),            Ev_Gv        [o];
        0x88        => One(Op::Mov),             Eb_Gb;
        0x89        => One(Op::Mov),             Ev_Gv        [o];
        0x8A        => One(Op::Mov),             Gb_Eb;
        0x8B        => One(Op::Mov),             Gv_Ev        [o];
        0x8D        => One(Op::Lea),             Gv_M         [o];
        // 90 to 9F
        0x90        => One(Op::Nop),             no_operands  [o r x];
        // A0 to AF
        0xA8        => One(Op::Test),            AL_Ib;
        0xA9        => One(Op::Test),            rAX_Iz       [o];
        // B0 to BF
        0xB0..=0xB7 => One(Op::Mov),             Zb_Ib(low);
        0xB8..=0xBF => One(Op::Mov),             Zv_Iv(low)   [o];
    )
}

/// The rows of C0 to FF.
#[tactic(auto, unfolding(x86_base::specs::Table::row_C0_to_FF))]
fn row_c0_to_ff(byte: u8) -> Option<Row>
    ensures { result ≡ row_C0_to_FF byte }
{
    rows!(byte,
        // C0 to CF
        0xC0 => Shift,              Eb_count;
        0xC1 => Shift,              Ev_count     [o];
        0xC3 => One(Op::Ret),       no_operands;
        0xC6 => OnlyZero(Op::Mov),  Eb_Ib;
        0xC7 => OnlyZero(Op::Mov),  Ev_Iz        [o];
        0xCF => One(Op::Iretq),     no_operands  [w];
        // D0 to DF
        0xD0 => Shift,              Eb_1;
        0xD1 => Shift,              Ev_1         [o];
        0xD2 => Shift,              Eb_CL;
        0xD3 => Shift,              Ev_CL        [o];
        // E0 to EF
        0xE4 => One(Op::In),        AL_port;
        0xE5 => One(Op::In),        eAX_port     [o];
        0xE6 => One(Op::Out),       port_AL;
        0xE7 => One(Op::Out),       port_eAX     [o];
        0xE8 => One(Op::Call),      Jz;
        0xE9 => One(Op::Jmp),       Jz;
        0xEB => One(Op::Jmp),       Jb;
        0xEC => One(Op::In),        AL_DX;
        0xED => One(Op::In),        eAX_DX       [o];
        0xEE => One(Op::Out),       DX_AL;
        0xEF => One(Op::Out),       DX_eAX       [o];
        // F0 to FF
        0xF4 => One(Op::Hlt),       no_operands;
        0xF5 => One(Op::Cmc),       no_operands;
        0xF6 => TestNotNeg,         Eb_group3;
        0xF7 => TestNotNeg,         Ev_group3    [o];
        0xF8 => One(Op::Clc),       no_operands;
        0xF9 => One(Op::Stc),       no_operands;
        0xFC => One(Op::Cld),       no_operands;
        0xFD => One(Op::Std),       no_operands;
        0xFE => IncDec,             Eb;
        0xFF => IncDec,             Ev           [o];
    )
}

/// The row of one opcode byte.
pub fn row_one(byte: u8) -> Option<Row>
    ensures { result ≡ one_byte byte }
{
    match byte {
        0x00..=0x3F => row_00_to_3f(byte),
        0x40..=0xBF => row_40_to_bf(byte),
        _ => row_c0_to_ff(byte),
    }
}

/// The row of the byte 0F and this one.
#[tactic(auto, unfolding(x86_base::specs::Table::two_bytes))]
pub fn row_two(byte: u8) -> Option<Row>
    ensures { result ≡ two_bytes byte }
{
    let condition = byte % 16;
    rows!(byte,
        // 00 to 1F
        0x09        => One(Op::Wbinvd),                 no_operands;
        0x1F        => OnlyZero(Op::Nop),               E_ignored    [o];
        // 30 to 3F
        0x30        => One(Op::Wrmsr),                  no_operands;
        0x31        => One(Op::Rdtsc),                  no_operands;
        0x32        => One(Op::Rdmsr),                  no_operands;
        0x33        => One(Op::Rdpmc),                  no_operands;
        // 40 to 4F
        0x40..=0x4F => One(Op::Cmovcc(condition)),      Gv_Ev        [o];
        // 80 to 9F
        0x80..=0x8F => One(Op::Jcc(condition)),         Jz;
        0x90..=0x9F => OnlyZero(Op::Setcc(condition)),  Eb;
        // A0 to BF
        0xA2        => One(Op::Cpuid),                  no_operands;
        0xAF        => One(Op::Imul),                   Gv_Ev        [o];
        0xB6        => One(Op::Movzx),                  Gv_Eb        [o];
        0xB7        => One(Op::Movzx),                  Gv_Ew        [o];
        0xBE        => One(Op::Movsx),                  Gv_Eb        [o];
        0xBF        => One(Op::Movsx),                  Gv_Ew        [o];
    )
}

/// The row of the bytes 0F 01 and this one.
#[tactic(auto, unfolding(x86_base::specs::Table::three_bytes))]
pub fn row_three(byte: u8) -> Option<Row>
    ensures { result ≡ three_bytes byte }
{
    rows!(byte,
        0xD9 => One(Op::Vmmcall), no_operands;
        0xF9 => One(Op::Rdtscp),  no_operands;
    )
}
