// The operand of the ModRM byte's mod and r/m bits (APM volume 3, sections 1.4 and 1.7).
ghost use Rattle.std.specs.Prelude.{◌≡◌};
ghost use Rattle.x86_base.specs.ModRm.{HasAddress};
ghost use Rattle.x86_base.specs.Operands.{memory, rm_operand};

use crate::context::rex_bit_of;
use crate::number::signed_part;
use crate::registers::{reg, register_operand};
use crate::sizes::{byte_at, displacement_bytes, displacement_start, has_sib};
use x86_base::{Context, MemRef, Operand};

/// The operand in memory that the ModRM and SIB bytes name.
#[tactic(auto, unfolding(x86_base::specs::Operands::memory))]
fn memory_operand(context: &Context, tail: &[u8]) -> MemRef
    requires { HasAddress tail.now }
    ensures { result ≡ memory context.now tail.now }
{
    let modrm = byte_at(tail, 0);
    let sib = byte_at(tail, 1);
    let is_scaled = has_sib(modrm);
    let base = if is_scaled { sib % 8 } else { modrm % 8 };
    let no_base = modrm / 64 == 0 && base == 5;
    let index = sib / 8 % 8 + 8 * rex_bit_of(context, 1);
    let has_index = is_scaled && index != 4;
    MemRef {
        base: if no_base {
            None
        } else {
            Some(reg(base + 8 * rex_bit_of(context, 0)))
        },
        index: if has_index { Some(reg(index)) } else { None },
        scale: if has_index { 1 << (sib / 64) } else { 1 },
        disp: signed_part(
            tail,
            displacement_start(modrm),
            displacement_bytes(modrm, sib),
        ),
        from_rip: no_base && !is_scaled,
    }
}

/// The operand of the ModRM byte's mod and r/m bits.
#[tactic(auto, unfolding(x86_base::specs::Operands::rm_operand))]
pub fn rm(context: &Context, narrow: bool, tail: &[u8], into: &mut Operand)
    requires { HasAddress tail.now }
    ensures { into.new ≡ rm_operand context.now narrow tail.now }
{
    let modrm = byte_at(tail, 0);
    if modrm / 64 == 3 {
        *into = register_operand(context, narrow, modrm % 8 + 8 * rex_bit_of(context, 0));
    } else {
        *into = Operand::Memory(memory_operand(context, tail));
    }
}
