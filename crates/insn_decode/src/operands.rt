ghost use Rattle.std.specs.Prelude.{◌≡◌};
ghost use Rattle.x86_base.specs.Operands.{immediate, byte_immediate, is_narrow, dst_of, src_of};
ghost use Rattle.x86_base.specs.Spelling.{IsTail};

use crate::modrm::rm;
use crate::number::signed_part;
use crate::registers::{reg_from_modrm, reg_from_opcode};
use crate::sizes::{byte_at, imm_bytes, imm_start, modrm_byte};
use x86_base::{Context, Form, Operand, Reg, Row, RowWidth};

/// The immediate, with its sign. It is inlined, since the row would else be kept in memory for it.
#[tactic(auto, unfolding(x86_base::specs::Operands::immediate))]
#[inline(always)]
fn immediate_operand(context: &Context, row: &Row, tail: &[u8]) -> Operand
    requires { IsTail context.now row.now tail.now }
    ensures { result ≡ immediate context.now row.now tail.now }
{
    let modrm = modrm_byte(row, tail);
    let at = imm_start(row, modrm, byte_at(tail, 1));
    Operand::Imm(signed_part(tail, at, imm_bytes(context, row.imm, modrm)))
}

/// A port or a shift's count: the immediate byte, with no sign.
#[tactic(auto, unfolding(x86_base::specs::Operands::byte_immediate))]
fn byte_operand(row: &Row, tail: &[u8]) -> Operand
    ensures { result ≡ byte_immediate row.now tail.now }
{
    let at = imm_start(row, modrm_byte(row, tail), byte_at(tail, 1));
    Operand::Imm(u64::from(byte_at(tail, at)))
}

/// Whether a row's registers have 8 bits.
fn has_byte_width(width: RowWidth) -> bool
    ensures { result ≡ is_narrow width }
{
    matches!(width, RowWidth::B)
}

/// Puts the first operand in its place.
#[tactic(auto, unfolding(x86_base::specs::Operands::dst_of))]
pub fn destination(context: &Context, row: &Row, tail: &[u8], into: &mut Operand)
    requires { IsTail context.now row.now tail.now }
    ensures { into.new ≡ dst_of context.now row.now tail.now row.now.form }
{
    let narrow = has_byte_width(row.width);
    match row.form {
        Form::RmReg | Form::Rm | Form::RmOne | Form::RmCl => rm(context, narrow, tail, into),
        Form::RmImm | Form::RmCount | Form::RmImmOfTest => rm(context, narrow, tail, into),
        Form::RegRm => *into = reg_from_modrm(context, narrow, tail),
        Form::RegRmByte | Form::RegRmWord | Form::RegRmDouble | Form::RegAddress => {
            *into = reg_from_modrm(context, false, tail);
        }
        Form::AccImm | Form::AccPort | Form::AccDx => *into = Operand::Whole(Reg::Rax),
        Form::PortAcc => *into = byte_operand(row, tail),
        Form::DxAcc => *into = Operand::Whole(Reg::Rdx),
        Form::OpcodeImm(low) => *into = reg_from_opcode(context, narrow, low),
        Form::Opcode(low) => *into = reg_from_opcode(context, false, low),
        Form::Immediate => *into = immediate_operand(context, row, tail),
        Form::RmIgnored | Form::Nothing => *into = Operand::Absent,
    }
}

/// Puts the second operand in its place.
#[tactic(auto, unfolding(x86_base::specs::Operands::src_of))]
pub fn source(context: &Context, row: &Row, tail: &[u8], into: &mut Operand)
    requires { IsTail context.now row.now tail.now }
    ensures { into.new ≡ src_of context.now row.now tail.now row.now.form }
{
    let narrow = has_byte_width(row.width);
    match row.form {
        Form::RmReg => *into = reg_from_modrm(context, narrow, tail),
        Form::RegRm => rm(context, narrow, tail, into),
        Form::RegRmByte => rm(context, true, tail, into),
        Form::RegRmWord | Form::RegRmDouble | Form::RegAddress => rm(context, false, tail, into),
        Form::RmOne => *into = Operand::Imm(1),
        Form::RmCl => *into = Operand::Whole(Reg::Rcx),
        Form::RmImm | Form::AccImm | Form::OpcodeImm(_) => {
            *into = immediate_operand(context, row, tail);
        }
        Form::RmCount | Form::AccPort => *into = byte_operand(row, tail),
        Form::RmImmOfTest if byte_at(tail, 0) / 8 % 8 == 0 => {
            *into = immediate_operand(context, row, tail);
        }
        Form::PortAcc | Form::DxAcc => *into = Operand::Whole(Reg::Rax),
        Form::AccDx => *into = Operand::Whole(Reg::Rdx),
        Form::RmImmOfTest | Form::Rm | Form::RmIgnored => *into = Operand::Absent,
        Form::Opcode(_) | Form::Immediate | Form::Nothing => *into = Operand::Absent,
    }
}
