// The table of operations.
ghost use Rattle.std.specs.Prelude.{◌≡◌, ◌^◌, ◌<◌};
ghost use Rattle.x86_base.specs.Widths.{bits_of};
ghost use Rattle.alu_ops.specs.Number.{IsWidth};
ghost use Rattle.alu_ops.specs.Table.{alu_of};

use crate::arithmetic::{add, complement, multiply, subtract};
use crate::op::AluOp;
use crate::outcome::Outcome;
use crate::shift::{shift_count, shift_left, shift_right, shift_signed};
use x86_base::{Flags, Width};

/// The result and the flags of an operation of numbers of `BITS` bits, which are 8, 16, 32 or 64. A
/// lone operand is `a`, and the count of a shift is `b`. A shift by 0 and `Not` change no flag, and
/// the direction flag always stays (APM volume 3, chapter 3).
pub fn alu<const BITS: u32>(op: AluOp, a: u64, b: u64, flags: Flags) -> (u64, Flags)
    requires width { IsWidth BITS }
    requires left { a < 2 ^ BITS }
    requires right { b < 2 ^ BITS }
    ensures value { result ≡ alu_of BITS op a b flags }
{
    let carry = if flags.cf { 1 } else { 0 };
    let count = shift_count::<BITS>(b);
    table!(rows op,
        Add => add::<BITS>(a, b, 0).with_flags::<BITS>(flags),
        Or => Outcome::plain(a | b).with_flags::<BITS>(flags),
        Adc => add::<BITS>(a, b, carry).with_flags::<BITS>(flags),
        Sbb => subtract::<BITS>(a, b, carry).with_flags::<BITS>(flags),
        And => Outcome::plain(a & b).with_flags::<BITS>(flags),
        Sub => subtract::<BITS>(a, b, 0).with_flags::<BITS>(flags),
        Xor => Outcome::plain(a ^ b).with_flags::<BITS>(flags),
        Cmp => subtract::<BITS>(a, b, 0).with_flags::<BITS>(flags),
        Test => Outcome::plain(a & b).with_flags::<BITS>(flags),
        Inc => add::<BITS>(a, 1, 0).with_carry_kept::<BITS>(flags),
        Dec => subtract::<BITS>(a, 1, 0).with_carry_kept::<BITS>(flags),
        Neg => subtract::<BITS>(0, a, 0).with_flags::<BITS>(flags),
        Not => (complement::<BITS>(a), flags),
        Shl => if count == 0 { (a, flags) } else { shift_left::<BITS>(a, count).with_flags::<BITS>(flags) },
        Shr => if count == 0 { (a, flags) } else { shift_right::<BITS>(a, count).with_flags::<BITS>(flags) },
        Sar => if count == 0 { (a, flags) } else { shift_signed::<BITS>(a, count).with_flags::<BITS>(flags) },
        Imul => multiply::<BITS>(a, b).with_flags::<BITS>(flags),
    )
}

/// The same at a width that is known when it runs.
pub fn alu_at(width: Width, op: AluOp, a: u64, b: u64, flags: Flags) -> (u64, Flags)
    requires left { a < 2 ^ bits_of width }
    requires right { b < 2 ^ bits_of width }
    ensures value { result ≡ alu_of (bits_of width) op a b flags }
{
    table!(call width, B8 => 8, B16 => 16, B32 => 32, B64 => 64; alu(op, a, b, flags))
}

#[cfg(test)]
mod tests {
    use super::*;

    #[test]
    fn gives_results_and_flags(rt: HostRuntime) {
        let clear = Flags::from_word(0);

        // a result, and the flags word after it
        let rows = [
            (alu::<8>(AluOp::Add, 0xFF, 1, clear), 0, 0x047),
            (alu::<8>(AluOp::Shl, 0x81, 1, clear), 2, 0x803),
            (alu::<16>(AluOp::Sar, 0x8000, 17, clear), 0xFFFF, 0x087),
            (alu::<64>(AluOp::Imul, 1 << 63, 2, clear), 0, 0x847),
            (
                alu_at(Width::B32, AluOp::Cmp, 1, 2, clear),
                0xFFFF_FFFF,
                0x087,
            ),
        ];
        for ((value, flags), want, word) in rows {
            assert_eq!(rt; (value, flags.to_word()), (want, word));
        }
    }
}
