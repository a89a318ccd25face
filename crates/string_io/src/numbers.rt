// Numbers in bytes, the lowest byte first; past the end of the bytes each is 0.
ghost use Rattle.std.specs.Prelude.{◌≡◌, ◌<◌, ◌^◌, slice_index};
ghost use Rattle.image_file.specs.Number.{number_at};
ghost use Rattle.event_table.specs.Lawful.{IsSize};

use image_file::read_number;

/// The byte at an index.
fn byte(bytes: &[u8], at: usize) -> u64
    ensures value { result ≡ slice_index bytes.now at }
    ensures fits { result < 2 ^ 8 }
{
    if at < bytes.len() {
        u64::from(bytes[at])
    } else {
        0
    }
}

/// The number in two bytes from an index on.
fn two(bytes: &[u8], at: usize) -> u64
    requires small { at < 2 ^ 32 }
    ensures value { result ≡ number_at 2 at bytes.now }
    ensures fits { result < 2 ^ 16 }
{
    byte(bytes, at) + byte(bytes, at + 1) * 0x100
}

/// The number in four bytes from an index on.
fn four(bytes: &[u8], at: usize) -> u64
    requires small { at < 2 ^ 31 }
    ensures value { result ≡ number_at 4 at bytes.now }
    ensures fits { result < 2 ^ 32 }
{
    two(bytes, at) + two(bytes, at + 2) * 0x1_0000
}

/// The word in eight bytes from an index on.
pub fn word_at(bytes: &[u8], at: usize) -> u64
    requires small { at < 2 ^ 30 }
    ensures value { result ≡ number_at 8 at bytes.now }
{
    if at + 8 <= bytes.len() {
        read_number(bytes, at, 8)
    } else {
        four(bytes, at) + four(bytes, at + 4) * 0x1_0000_0000
    }
}

/// The number in the bytes of an element from an index on.
pub fn number(bytes: &[u8], at: usize, size: u8) -> u64
    requires small { at < 2 ^ 31 }
    requires size { IsSize size }
    ensures value { result ≡ number_at size at bytes.now }
{
    match size {
        1 => byte(bytes, at),
        2 => two(bytes, at),
        _ => four(bytes, at),
    }
}
