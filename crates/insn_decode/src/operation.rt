// The operations of a row (APM volume 3, appendix A, "ModRM extensions").
ghost use Rattle.std.specs.Prelude.{◌≡◌};
ghost use Rattle.x86_base.specs.Table.{arithmetic_of, op_at};

use x86_base::{Op, Ops};

/// The operation number k of the eight.
pub fn arithmetic(k: u8) -> Op
    ensures { result ≡ arithmetic_of k }
{
    match k {
        0 => Op::Add,
        1 => Op::Or,
        2 => Op::Adc,
        3 => Op::Sbb,
        4 => Op::And,
        5 => Op::Sub,
        6 => Op::Xor,
        _ => Op::Cmp,
    }
}

/// The operation of a row at these reg bits.
pub fn operation(ops: Ops, reg: u8) -> Option<Op>
    ensures { result ≡ op_at ops reg }
{
    match ops {
        Ops::One(op) => Some(op),
        Ops::OnlyZero(op) => (reg == 0).then_some(op),
        Ops::Arithmetic => Some(arithmetic(reg)),
        Ops::Shift => match reg {
            4 => Some(Op::Shl),
            5 => Some(Op::Shr),
            7 => Some(Op::Sar),
            _ => None,
        },
        Ops::TestNotNeg => match reg {
            0 => Some(Op::Test),
            2 => Some(Op::Not),
            3 => Some(Op::Neg),
            _ => None,
        },
        Ops::IncDec => match reg {
            0 => Some(Op::Inc),
            1 => Some(Op::Dec),
            _ => None,
        },
    }
}
