ghost use Rattle.std.specs.Prelude.{◌≡◌, ◌==◌, ◌↔◌, if◌then◌else◌};
ghost use Rattle.word_bits.specs.Bits.{number_in};
ghost use Rattle.exit_info.specs.Inject.{IsLawfulInject, IsRequestFor, layout, inject_word, request_of};

use word_bits::number_in_bits;

/// An exception that a hypervisor asks for in SW_EXITINFO2 (APM volume 2, 15.20): #UD, vector 6,
/// without an error code, or #GP, vector 13, with one.
#[derive(Clone, Copy, Debug, PartialEq, Eq)]
pub struct Inject {
    /// The exception's vector: 6 or 13 where it is lawful.
    pub vector: u8,
    /// Its error code, 0 where it has none.
    pub code: u32,
}

/// Why a word asks for no exception that a guest takes. Each holds the word.
#[derive(Clone, Copy, Debug, PartialEq, Eq)]
pub enum BadInject {
    /// Bit 31 is clear.
    NotValid(u64),
    /// Bits 10:8 aren't 3, the type of an exception.
    BadType(u64),
    /// Bits 7:0 are neither 6 nor 13.
    BadVector(u64),
}

impl Inject {
    /// The type of an exception.
    const EXCEPTION: u64 = 3;

    /// The vector of #UD.
    const UNDEFINED_OPCODE: u8 = 6;

    /// The vector of #GP.
    const GENERAL_PROTECTION: u8 = 13;

    /// Reads a word: the valid bit is tested first, then the type, then the vector.
    ///
    /// #GP takes the error code that bit 11 marks as valid, or 0, and #UD takes none.
    pub fn read(word: u64) -> Result<Inject, BadInject>
        ensures value { result ≡ request_of word }
        ensures ok { (i : Inject) → (result ≡ Ok i) ↔ IsRequestFor i word }
    {
        if number_in_bits(word, 31, 31) == 0 {
            return Err(BadInject::NotValid(word));
        }
        if number_in_bits(word, 10, 8) != Self::EXCEPTION {
            return Err(BadInject::BadType(word));
        }
        let vector = number_in_bits(word, 7, 0) as u8;
        match vector {
            Self::UNDEFINED_OPCODE => Ok(Inject { vector, code: 0 }),
            Self::GENERAL_PROTECTION => Ok(Inject {
                vector,
                code: marked_code(word),
            }),
            _ => Err(BadInject::BadVector(word)),
        }
    }

    /// The word that asks for a lawful exception.
    pub fn write(&self) -> u64
        requires { IsLawfulInject self.now }
        ensures word { result ≡ inject_word self.now }
        ensures reads_back { request_of result ≡ Ok self.now }
    {
        if self.vector == Self::GENERAL_PROTECTION {
            u64::from(self.code) << 32 | 0x8000_0B0D
        } else {
            0x8000_0306
        }
    }
}

/// The error code of a word where bit 11 marks it as valid, or 0.
fn marked_code(word: u64) -> u32
    ensures { result ≡ (if number_in word layout.has_code == 1 then number_in word layout.code else 0) }
{
    if number_in_bits(word, 11, 11) == 1 {
        number_in_bits(word, 63, 32) as u32
    } else {
        0
    }
}
