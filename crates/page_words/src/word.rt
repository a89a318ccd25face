ghost use Rattle.std.specs.Prelude.{◌≡◌, ◌<◌, SomeIff};

use std::marker::Model;

/// The number of a word of the page, from 0 to 511: word k is the eight bytes at offset 8k.
#[derive(Clone, Copy, Debug, PartialEq, Eq)]
pub struct Word {
    number: u16,
}

impl Model for Word {
    ghost use Rattle.std.specs.Prelude.{ℕ, ◌<◌};

    ghost Value = { ℕ };

    ghost view = { λ w. w.number };

    ghost invariant = { λ w. w.number < 512 };

    ghost inverse = { λ n. record { number = n } };
}

impl Word {
    /// The word of the valid bitmap's bits 0 to 63 (AMD 56421, "GHCB Layout", VALID_BITMAP).
    pub const BITMAP_LOW: Word = Word { number: 126 };

    /// The word of the valid bitmap's bits 64 to 127.
    pub const BITMAP_HIGH: Word = Word { number: 127 };

    /// The last word, which has the protocol version and the usage.
    pub const LAST: Word = Word { number: 511 };

    /// The word of that number; none where it is above 511.
    pub fn new(n: u16) -> Option<Word>
        ensures in_page { SomeIff result (n < 512) n }
    {
        if n < 512 {
            Some(Word { number: n })
        } else {
            None
        }
    }

    /// The number, from 0 to 511.
    pub fn number(&self) -> u16
        ensures value { result ≡ self.now }
        ensures in_page { result < 512 }
    {
        self.number
    }
}
