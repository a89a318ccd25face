// The decoder: the first 15 bytes, and what their reading says of all bytes.
ghost use Rattle.std.specs.Prelude.{◌≡◌, ◌<◌, ◌↔◌, take, length, IfOk, OnOk, Ok, Err};
ghost use Rattle.x86_base.specs.declared.insn.Insn.{Insn};
ghost use Rattle.x86_base.specs.Spelling.{Begins};
ghost use Rattle.insn_decode.specs.Refusals.{IsTooLong, IsShort, SpellsNothing};
ghost use Rattle.insn_decode.specs.Reading.{instruction_at, decoded, decode_of, filled};

use crate::fault::DecodeFault;
use crate::reader::{Refusal, instruction};
use x86_base::Insn;

/// The longest instruction, in bytes (APM volume 3, section 1.1).
const LONGEST: usize = 15;

/// Puts the instruction that the first 15 bytes say of all bytes in its place. It isn't inlined, so that
/// a caller that finds the instruction kept doesn't pay for its registers.
#[inline(never)]
fn decode_window(bytes: &[u8], into: &mut Insn) -> Result<(), DecodeFault>
    ensures { filled result into.new ≡ decoded (length bytes.now) (instruction_at (take 15 bytes.now)) }
{
    let window = if bytes.len() < LONGEST {
        bytes
    } else {
        &bytes[..LONGEST]
    };
    match instruction(window, into) {
        Ok(()) => Ok(()),
        Err(Refusal::End) if bytes.len() < LONGEST => Err(DecodeFault::Short),
        Err(Refusal::End) => Err(DecodeFault::TooLong),
        Err(Refusal::Never) => Err(DecodeFault::Undecoded),
    }
}

/// The answer for all bytes, from the reading of the first 15.
fn decode_whole(bytes: &[u8]) -> Result<Insn, DecodeFault>
    ensures { result ≡ decoded (length bytes.now) (instruction_at (take 15 bytes.now)) }
{
    let mut insn = Insn::NOP;
    decode_window(bytes, &mut insn)?;
    Ok(insn)
}

/// Puts the instruction that [`decode`] gives in its place; where there is none, what stands there
/// afterwards is not told.
#[tactic(auto, unfolding(crate::specs::Reading::decode_of))]
pub fn decode_into(bytes: &[u8], into: &mut Insn) -> Result<(), DecodeFault>
    ensures value { filled result into.new ≡ decode_of bytes.now }
    ensures found { OnOk result (Begins bytes.now into.new) }
{
    decode_window(bytes, into)
}

/// The instruction whose spelling of at most 15 bytes stands at the front of the bytes; its `len` is
/// the number of these bytes.
///
/// Where there is none, `TooLong` comes exactly where at least 15 bytes are given and the first 15
/// are a proper prefix of a spelling, `Short` exactly where fewer than 15 bytes are given and all of
/// them together are a proper prefix of a spelling (as no bytes are), and `Undecoded` otherwise.
#[tactic(auto, unfolding(crate::specs::Reading::decode_of))]
pub fn decode(bytes: &[u8]) -> Result<Insn, DecodeFault>
    ensures value { result ≡ decode_of bytes.now }
    ensures found { IfOk result (Begins bytes.now) }
    ensures only { (insn : Insn) → Begins bytes.now insn → result ≡ Ok insn }
    ensures too_long { (result ≡ Err DecodeFault.TooLong) ↔ IsTooLong bytes.now }
    ensures short { (result ≡ Err DecodeFault.Short) ↔ IsShort bytes.now }
    ensures undecoded { (result ≡ Err DecodeFault.Undecoded) ↔ SpellsNothing bytes.now }
{
    decode_whole(bytes)
}
