//! Bits of a 64-bit word that hold a number, named as the manuals name them: by the highest and the lowest of them.
#![tactic(auto)]

#[cfg(test)]
mod tests;

ghost use Rattle.std.specs.Prelude.{◌≡◌, ◌<◌, ◌≤◌};
ghost use Rattle.word_bits.specs.Bits.{bits, number_in, in_place};

/// The number that bits `high` to `low` of a word hold.
pub fn number_in_bits(word: u64, high: u32, low: u32) -> u64
    requires order { low ≤ high }
    requires width { high < 64 }
    ensures value { result ≡ number_in word (bits high low) }
{
    word >> low & (u64::MAX >> (63 + low - high))
}

/// Bits `high` to `low` of a word in their places, and 0 in the others.
pub fn bits_in_place(word: u64, high: u32, low: u32) -> u64
    requires order { low ≤ high }
    requires width { high < 64 }
    ensures value { result ≡ in_place word (bits high low) }
{
    number_in_bits(word, high, low) << low
}
