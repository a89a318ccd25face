ghost use Rattle.std.specs.Prelude.{◌≡◌, ◌≤◌, ◌<◌, ◌+◌, ◌-◌, ◌*◌, ◌^◌, if◌then◌else◌, nat_lt, length};
ghost use Rattle.x86_base.specs.Numbers.{little, extended, signed_at, HasNumberLen};

/// A number below twice `half` with its sign, modulo 2^64.
fn sign_extended(number: u64, half: u64) -> u64
    requires half { half + half ≤ 2 ^ 32 }
    requires fits { number < half + half }
    ensures { result ≡ (if nat_lt number half then number else number + 2 ^ 64 - (half + half)) }
{
    if number < half {
        number
    } else {
        number + (u64::MAX - (half + half - 1))
    }
}

/// A little-endian number of 0, 1, 2, 4 or 8 bytes with its sign, modulo 2^64.
fn signed_number(bytes: &[u8]) -> u64
    requires { HasNumberLen (length bytes.now) }
    ensures { result ≡ extended (8 * length bytes.now) (little bytes.now) }
{
    match bytes {
        [a] => sign_extended(u64::from(*a), 0x80),
        [a, b] => sign_extended(u64::from(u16::from_le_bytes([*a, *b])), 0x8000),
        [a, b, c, d] => sign_extended(u64::from(u32::from_le_bytes([*a, *b, *c, *d])), 0x8000_0000),
        [a, b, c, d, e, f, g, h] => u64::from_le_bytes([*a, *b, *c, *d, *e, *f, *g, *h]),
        _ => 0,
    }
}

/// The signed number of `len` bytes at a place.
pub fn signed_part(tail: &[u8], at: usize, len: usize) -> u64
    requires len { HasNumberLen len }
    requires within { at + len ≤ length tail.now }
    ensures { result ≡ signed_at at len tail.now }
{
    signed_number(&tail[at..at + len])
}
