ghost use Rattle.std.specs.Prelude.{◌≡◌, ◌↔◌, IfSome};
ghost use Rattle.word_bits.specs.Bits.{bits, number_in};
ghost use Rattle.msr_protocol.specs.MsrWord.{IsMsrWord, IsWordButReserved, message_of as message_of_word, reserved_set as reserved_set_in, read_of};

use crate::{BadMsr, MsrWord};
use word_bits::{bits_in_place, number_in_bits};

/// Reads a word as a message: an unknown one is refused with its bits 11:0, and one with reserved
/// bits set with these bits.
pub fn read(word: u64) -> Result<MsrWord, BadMsr>
    ensures value { result ≡ read_of word }
    ensures ok { (m : MsrWord) → (result ≡ Ok m) ↔ IsMsrWord m word }
{
    let msr = message_of(word).ok_or(BadMsr::UnknownInfo(info_of(word)))?;
    match reserved_set(&msr, word) {
        0 => Ok(msr),
        set => Err(BadMsr::ReservedSet(set)),
    }
}

/// Bits 11:0, which say what message a word is.
fn info_of(word: u64) -> u16
    ensures { result ≡ number_in word (bits 11 0) }
{
    number_in_bits(word, 11, 0) as u16
}

/// The message that bits 11:0 name, whatever the reserved bits.
fn message_of(word: u64) -> Option<MsrWord>
    ensures value { result ≡ message_of_word word }
    ensures whole { IfSome result (λ m. IsWordButReserved m word) }
{
    let part = |high: u32, low: u32| number_in_bits(word, high, low);
    let msr = match info_of(word) {
        0x000 => MsrWord::GhcbAddress(word),
        0x001 => MsrWord::SevInfo {
            max: part(63, 48) as u16,
            min: part(47, 32) as u16,
            c_bit: part(31, 24) as u8,
        },
        0x002 => MsrWord::SevInfoRequest,
        0x004 => MsrWord::CpuidRequest {
            function: part(63, 32) as u32,
            register: part(31, 30) as u8,
        },
        0x005 => MsrWord::CpuidResponse {
            value: part(63, 32) as u32,
            register: part(31, 30) as u8,
        },
        0x006 => MsrWord::ApHoldRequest,
        0x007 => MsrWord::ApHoldResponse(part(63, 12)),
        0x080 => MsrWord::FeatureRequest,
        0x081 => MsrWord::FeatureResponse(part(63, 12)),
        0x100 => MsrWord::Terminate {
            set: part(15, 12) as u8,
            code: part(23, 16) as u8,
        },
        _ => return None,
    };
    Some(msr)
}

/// The message's reserved bits that are set in a word.
fn reserved_set(msr: &MsrWord, word: u64) -> u64
    ensures { result ≡ reserved_set_in msr.now word }
{
    match msr {
        MsrWord::GhcbAddress(_) | MsrWord::ApHoldResponse(_) | MsrWord::FeatureResponse(_) => 0,
        MsrWord::SevInfo { .. } => bits_in_place(word, 23, 12),
        MsrWord::CpuidRequest { .. } | MsrWord::CpuidResponse { .. } => bits_in_place(word, 29, 12),
        MsrWord::Terminate { .. } => bits_in_place(word, 63, 24),
        MsrWord::SevInfoRequest | MsrWord::ApHoldRequest | MsrWord::FeatureRequest => {
            bits_in_place(word, 63, 12)
        }
    }
}
