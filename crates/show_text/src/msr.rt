ghost use Rattle.std.specs.Prelude.{◌≡◌, ◌+◌, ◌≤◌, ◌++◌, length};
ghost use Rattle.show_text.specs.Msr.{msr_text as text_of, message_text, sev_info_text, bad_msr_text};

use crate::Text;
use msr_protocol::{BadMsr, MsrWord};

/// The line that tells what a word of the GHCB MSR says.
pub fn msr_text(word: u64) -> Text
    ensures text { result ≡ text_of word }
{
    let mut text = Text::new();
    match msr_protocol::read(word) {
        Ok(message) => push_message(&mut text, &message),
        Err(bad) => push_bad_msr(&mut text, bad),
    }
    text.push_str("\n");
    text
}

/// Appends a message: what it is and its parts.
fn push_message(text: &mut Text, message: &MsrWord)
    requires { length text.old + 100 ≤ 4096 }
    ensures text { text.new ≡ text.old ++ message_text message.now }
    ensures size { length text.new ≤ length text.old + 100 }
{
    match *message {
        MsrWord::GhcbAddress(address) => text.push_hex("ghcb ", address),
        MsrWord::SevInfo { max, min, c_bit } => push_sev_info(text, max, min, c_bit),
        MsrWord::SevInfoRequest => text.push_str("sev-info-request"),
        MsrWord::CpuidRequest { function, register } => {
            text.push_number("cpuid-request function ", function.into());
            text.push_number(" register ", register.into());
        }
        MsrWord::CpuidResponse { value, register } => {
            text.push_number("cpuid-response value ", value.into());
            text.push_number(" register ", register.into());
        }
        MsrWord::ApHoldRequest => text.push_str("ap-hold-request"),
        MsrWord::ApHoldResponse(value) => text.push_number("ap-hold-response ", value),
        MsrWord::FeatureRequest => text.push_str("feature-request"),
        MsrWord::FeatureResponse(bitmap) => text.push_number("feature-response ", bitmap),
        MsrWord::Terminate { set, code } => {
            text.push_number("terminate set ", set.into());
            text.push_number(" code ", code.into());
        }
    }
}

/// Appends a hypervisor's versions and the page table bit of encrypted memory.
fn push_sev_info(text: &mut Text, max: u16, min: u16, c_bit: u8)
    requires { length text.old + 100 ≤ 4096 }
    ensures text { text.new ≡ text.old ++ sev_info_text max min c_bit }
    ensures size { length text.new ≤ length text.old + 100 }
{
    text.push_number("sev-info max ", max.into());
    text.push_number(" min ", min.into());
    text.push_number(" c-bit ", c_bit.into());
}

/// Appends why a word is no message.
fn push_bad_msr(text: &mut Text, bad: BadMsr)
    requires { length text.old + 100 ≤ 4096 }
    ensures text { text.new ≡ text.old ++ bad_msr_text bad }
    ensures size { length text.new ≤ length text.old + 100 }
{
    match bad {
        BadMsr::UnknownInfo(info) => {
            text.push_str("unknown ");
            text.push_short_hex(info.into());
        }
        BadMsr::ReservedSet(bits) => text.push_hex("reserved ", bits),
    }
}
