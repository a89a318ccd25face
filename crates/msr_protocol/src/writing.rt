ghost use Rattle.std.specs.Prelude.{◌≡◌};
ghost use Rattle.msr_protocol.specs.MsrWord.{Fits, encoded, read_of};

use crate::MsrWord;

/// The word of a message whose parts fit their bits: it is read as the message again.
pub fn write(msr: &MsrWord) -> u64
    requires { Fits msr.now }
    ensures word { result ≡ encoded msr.now }
    ensures reads_back { read_of result ≡ Ok msr.now }
{
    match *msr {
        MsrWord::GhcbAddress(address) => address,
        MsrWord::SevInfo { max, min, c_bit } => {
            u64::from(max) << 48 | u64::from(min) << 32 | u64::from(c_bit) << 24 | 0x001
        }
        MsrWord::SevInfoRequest => 0x002,
        MsrWord::CpuidRequest { function, register } => {
            u64::from(function) << 32 | u64::from(register) << 30 | 0x004
        }
        MsrWord::CpuidResponse { value, register } => {
            u64::from(value) << 32 | u64::from(register) << 30 | 0x005
        }
        MsrWord::ApHoldRequest => 0x006,
        MsrWord::ApHoldResponse(value) => value << 12 | 0x007,
        MsrWord::FeatureRequest => 0x080,
        MsrWord::FeatureResponse(bitmap) => bitmap << 12 | 0x081,
        MsrWord::Terminate { set, code } => u64::from(code) << 16 | u64::from(set) << 12 | 0x100,
    }
}
