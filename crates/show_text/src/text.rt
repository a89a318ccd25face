ghost use Rattle.std.specs.Prelude.{◌≡◌, ◌+◌, ◌<◌, ◌≤◌, [], ◌∷◌, ◌++◌, length, decimal};
ghost use Rattle.show_text.specs.Number.{hex_text, short_hex_text, three_digits as three_digits_of, labelled, labelled_hex};

use arrayvec::ArrayVec;
use std::marker::Model;

/// A text of at most 4,096 bytes, which lie in the value itself.
#[derive(Drop)]
pub struct Text {
    bytes: ArrayVec<u8, 4096>,
}

impl Model for Text {
    ghost use Rattle.std.specs.Prelude.{ℕ, List};

    ghost Value = { List ℕ };

    ghost view = { λ t. t.bytes.items };
}

impl Text {
    /// The text's bytes.
    pub fn as_bytes(&self) -> &[u8]
        ensures value { result.now ≡ self.now }
    {
        self.bytes.as_slice()
    }

    /// A text of no byte.
    pub fn new() -> Text
        ensures empty { result ≡ [] }
    {
        Text {
            bytes: ArrayVec::new(),
        }
    }

    /// Appends words.
    pub fn push_str(&mut self, words: &str)
        requires room { length self.old + length words.now ≤ 4096 }
        ensures text { self.new ≡ self.old ++ words.now }
        ensures size { length self.new ≡ length self.old + length words.now }
    {
        self.push_bytes(words.as_bytes());
    }

    /// Appends a number in decimal after its label.
    pub fn push_number(&mut self, label: &str, number: u64)
        requires room { length self.old + length label.now + 20 ≤ 4096 }
        ensures text { self.new ≡ self.old ++ labelled label.now number }
        ensures size { length self.new ≤ length self.old + length label.now + 20 }
    {
        self.push_str(label);
        self.push_decimal(number);
    }

    /// Appends a word in sixteen hexadecimal digits after its label.
    pub fn push_hex(&mut self, label: &str, word: u64)
        requires room { length self.old + length label.now + 16 ≤ 4096 }
        ensures text { self.new ≡ self.old ++ labelled_hex label.now word }
        ensures size { length self.new ≡ length self.old + length label.now + 16 }
    {
        self.push_str(label);
        self.push_bytes(&hex_digits(word));
    }

    /// Appends the last three of a word's hexadecimal digits.
    pub(crate) fn push_short_hex(&mut self, word: u64)
        requires { length self.old + 3 ≤ 4096 }
        ensures text { self.new ≡ self.old ++ short_hex_text word }
        ensures size { length self.new ≡ length self.old + 3 }
    {
        self.push_bytes(&hex_digits(word)[13..]);
    }

    /// Appends the three decimal digits of a number.
    pub fn push_three_digits(&mut self, number: u16)
        requires below { number < 1000 }
        requires room { length self.old + 3 ≤ 4096 }
        ensures text { self.new ≡ self.old ++ three_digits_of number }
        ensures size { length self.new ≡ length self.old + 3 }
    {
        self.push_byte(b'0' + (number / 100) as u8);
        self.push_byte(b'0' + (number / 10 % 10) as u8);
        self.push_byte(b'0' + (number % 10) as u8);
    }

    /// Appends a number in decimal.
    fn push_decimal(&mut self, number: u64)
        requires { length self.old + length (decimal number) ≤ 4096 }
        ensures { self.new ≡ self.old ++ decimal number }
    {
        if number >= 10 {
            self.push_decimal(number / 10);
        }
        self.push_byte(b'0' + (number % 10) as u8);
    }

    /// Appends a byte.
    fn push_byte(&mut self, byte: u8)
        requires { length self.old < 4096 }
        ensures { self.new ≡ self.old ++ byte ∷ [] }
    {
        self.bytes.push(byte);
    }

    /// Appends bytes.
    fn push_bytes(&mut self, bytes: &[u8])
        requires { length self.old + length bytes.now ≤ 4096 }
        ensures { self.new ≡ self.old ++ bytes.now }
    {
        let fits = self.bytes.try_extend_from_slice(bytes).is_ok();
        prove!(fits);
    }
}

/// The word's sixteen hexadecimal digits, the greatest first.
fn hex_digits(word: u64) -> [u8; 16]
    ensures { result ≡ hex_text word }
{
    let mut digits = [0; 16];
    let fits = hex::encode_to_slice(word.to_be_bytes(), &mut digits).is_ok();
    prove!(fits);
    digits
}
