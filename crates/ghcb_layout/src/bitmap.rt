ghost use Rattle.std.specs.Prelude.{◌≡◌, ◌<◌};
ghost use Rattle.ghcb_layout.specs.Bitmap as bitmap;
ghost use Rattle.ghcb_layout.specs.Bitmap.{has_bit, with_one as with_one_bit, with_bit, Sets};

use crate::field::{Field, bit_of};

/// The valid bitmap: bit k says that word k of the page is filled in.
#[derive(Clone, Copy, Debug, PartialEq, Eq)]
pub struct Bitmap {
    /// Bits 0 to 63, as they stand in word 126.
    pub low: u64,
    /// Bits 64 to 127, as they stand in word 127.
    pub high: u64,
}

impl Bitmap {
    /// The bitmap of words 126 and 127.
    pub fn from_words(low: u64, high: u64) -> Bitmap
        ensures value { result ≡ record { low = low; high = high } }
    {
        Bitmap { low, high }
    }

    /// Words 126 and 127.
    pub fn to_words(&self) -> (u64, u64)
        ensures value { result ≡ (self.now.low, self.now.high) }
    {
        (self.low, self.high)
    }

    /// Whether a bit is set.
    pub fn has(&self, bit: u8) -> bool
        requires { bit < 128 }
        ensures value { result ≡ has_bit self.now bit }
    {
        if bit < 64 {
            self.low >> bit & 1 == 1
        } else {
            self.high >> (bit - 64) & 1 == 1
        }
    }

    /// The bitmap with a bit set, and the other bits as they are.
    pub fn with(&self, bit: u8) -> Bitmap
        requires { bit < 128 }
        ensures value { result ≡ with_bit self.now bit }
        ensures sets { Sets self.now result bit }
    {
        if bit < 64 {
            Bitmap {
                low: with_one(self.low, bit),
                high: self.high,
            }
        } else {
            Bitmap {
                low: self.low,
                high: with_one(self.high, bit - 64),
            }
        }
    }
}

/// A field's bit in its word of the valid bitmap, where it is wanted, and else 0.
pub fn bit_if(field: Field, wanted: bool) -> u64
    ensures value { result ≡ bitmap.bit_if field wanted }
{
    if wanted { 1 << (bit_of(field) % 64) } else { 0 }
}

/// The word with a bit set.
fn with_one(word: u64, bit: u8) -> u64
    requires { bit < 64 }
    ensures { result ≡ with_one_bit word bit }
{
    word | 1 << bit
}
