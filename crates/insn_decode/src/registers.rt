// Register operands (APM volume 3, sections 1.2.7 and 1.4).
ghost use Rattle.std.specs.Prelude.{◌≡◌};
ghost use Rattle.x86_base.specs.Operands.{reg_of, register, reg_operand, opcode_operand};

use crate::context::rex_bit_of;
use crate::sizes::byte_at;
use x86_base::{Context, Operand, Reg};

/// The register of a number below 16.
pub fn reg(number: u8) -> Reg
    ensures { result ≡ reg_of number }
{
    match number {
        0 => Reg::Rax,
        1 => Reg::Rcx,
        2 => Reg::Rdx,
        3 => Reg::Rbx,
        4 => Reg::Rsp,
        5 => Reg::Rbp,
        6 => Reg::Rsi,
        7 => Reg::Rdi,
        8 => Reg::R8,
        9 => Reg::R9,
        10 => Reg::R10,
        11 => Reg::R11,
        12 => Reg::R12,
        13 => Reg::R13,
        14 => Reg::R14,
        _ => Reg::R15,
    }
}

/// A register operand: of 8 bits without REX, 4 to 7 are AH, CH, DH and BH.
#[tactic(auto, unfolding(x86_base::specs::Operands::register))]
pub fn register_operand(context: &Context, narrow: bool, number: u8) -> Operand
    ensures { result ≡ register context.now narrow number }
{
    if narrow && context.rex.is_none() && 4 <= number && number < 8 {
        Operand::High(reg(number - 4))
    } else {
        Operand::Whole(reg(number))
    }
}

/// The operand of the ModRM byte's reg bits.
#[tactic(auto, unfolding(x86_base::specs::Operands::reg_operand))]
pub fn reg_from_modrm(context: &Context, narrow: bool, tail: &[u8]) -> Operand
    ensures { result ≡ reg_operand context.now narrow tail.now }
{
    let bits = byte_at(tail, 0) / 8 % 8;
    register_operand(context, narrow, bits + 8 * rex_bit_of(context, 2))
}

/// The register of the opcode's low bits.
#[tactic(auto, unfolding(x86_base::specs::Operands::opcode_operand))]
pub fn reg_from_opcode(context: &Context, narrow: bool, low: u8) -> Operand
    ensures { result ≡ opcode_operand context.now narrow low }
{
    register_operand(context, narrow, low % 8 + 8 * rex_bit_of(context, 0))
}
