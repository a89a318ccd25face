// Numbers of a width, with and without a sign.
ghost use Rattle.std.specs.Prelude.{◌≡◌, ◌+◌, ◌-◌, ◌^◌, ◌<◌, ◌≤◌, unsigned_abs};
ghost use Rattle.alu_ops.specs.Number.{IsWidth, signed, modulo, is_out_of_range, top_bit};
ghost use Rattle.x86_base.specs.FlagsWord.{bit_at};

/// Half of how many numbers a width has.
pub fn half<const BITS: u32>() -> u64
    requires { IsWidth BITS }
    ensures value { result ≡ 2 ^ (BITS - 1) }
    ensures twice { result + result ≡ 2 ^ BITS }
    ensures low { 128 ≤ result }
    ensures high { result ≤ 2 ^ 63 }
{
    table!(width BITS, 8 => 0x80, 16 => 0x8000, 32 => 0x8000_0000; 0x8000_0000_0000_0000)
}

/// A number read with its sign.
pub fn to_signed<const BITS: u32>(a: u64) -> i128
    requires width { IsWidth BITS }
    requires fits { a < 2 ^ BITS }
    ensures value { result ≡ signed BITS a }
    ensures magnitude { unsigned_abs result ≤ 2 ^ 63 }
{
    let half = half::<BITS>() as u128;
    if (a as u128) < half {
        a as i128
    } else {
        a as i128 - (half + half) as i128
    }
}

/// Whether a whole number is outside the signed range.
pub fn is_out_of_range<const BITS: u32>(value: i128) -> bool
    requires { IsWidth BITS }
    ensures { result ≡ is_out_of_range BITS value }
{
    let half = half::<BITS>() as i128;
    !(-half <= value && value < half)
}

/// A whole number modulo how many numbers the width has.
pub fn wrapped<const BITS: u32>(value: i128) -> u64
    requires { IsWidth BITS }
    ensures value { result ≡ modulo BITS value }
    ensures fits { result < 2 ^ BITS }
{
    let half = half::<BITS>() as i128;
    value.rem_euclid(half + half) as u64
}

/// Whether a bit is set.
pub fn is_set(a: u64, index: u32) -> bool
    requires { index < 64 }
    ensures { result ≡ bit_at a index }
{
    (a >> index) % 2 == 1
}

/// Whether the top bit is set.
pub fn is_top_set<const BITS: u32>(a: u64) -> bool
    requires { IsWidth BITS }
    ensures { result ≡ top_bit BITS a }
{
    half::<BITS>() <= a
}
