ghost use Rattle.std.specs.Prelude.{◌≡◌, ◌^◌, ◌<◌};
ghost use Rattle.alu_ops.specs.Number.{IsWidth};
ghost use Rattle.alu_ops.specs.Outcome.{shift_count_of, shl_of, shr_of, sar_of};

use crate::number::{half, is_set, is_top_set, to_signed, wrapped};
use crate::outcome::Outcome;

/// The count of a shift: a number modulo 64 at width 64, and else modulo 32.
pub fn shift_count<const BITS: u32>(b: u64) -> u32
    requires { IsWidth BITS }
    ensures value { result ≡ shift_count_of BITS b }
    ensures below { result < 64 }
{
    (b % table!(width BITS, 8 => 32, 16 => 32, 32 => 32; 64)) as u32
}

/// A shift to the left by a count above 0.
pub fn shift_left<const BITS: u32>(a: u64, count: u32) -> Outcome
    requires width { IsWidth BITS }
    requires fits { a < 2 ^ BITS }
    requires some { 0 < count }
    requires below { count < 64 }
    ensures { result ≡ shl_of BITS a count }
{
    let half = half::<BITS>() as u128;
    let value = (((a as u128) << count) % (half + half)) as u64;
    let carry = count <= BITS && is_set(a, BITS - count);
    Outcome {
        value,
        carry,
        overflow: count == 1 && is_top_set::<BITS>(value) != carry,
    }
}

/// A shift to the right by a count above 0, with zeros coming in.
pub fn shift_right<const BITS: u32>(a: u64, count: u32) -> Outcome
    requires width { IsWidth BITS }
    requires fits { a < 2 ^ BITS }
    requires some { 0 < count }
    requires below { count < 64 }
    ensures { result ≡ shr_of BITS a count }
{
    Outcome {
        value: a >> count,
        carry: count <= BITS && is_set(a, count - 1),
        overflow: count == 1 && is_top_set::<BITS>(a),
    }
}

/// A shift to the right by a count above 0, with the sign coming in.
pub fn shift_signed<const BITS: u32>(a: u64, count: u32) -> Outcome
    requires width { IsWidth BITS }
    requires fits { a < 2 ^ BITS }
    requires some { 0 < count }
    requires below { count < 64 }
    ensures { result ≡ sar_of BITS a count }
{
    Outcome {
        value: wrapped::<BITS>(to_signed::<BITS>(a).div_euclid(1i128 << count)),
        carry: if count <= BITS {
            is_set(a, count - 1)
        } else {
            is_top_set::<BITS>(a)
        },
        overflow: false,
    }
}
