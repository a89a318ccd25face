// How many bytes stand behind an opcode, and where (APM volume 3, sections 1.4 to 1.6).
ghost use Rattle.std.specs.Prelude.{◌≡◌, ◌≤◌, get_or};
ghost use Rattle.x86_base.specs.ModRm.{has_modrm, modrm, accepts, needs_sib, displacement_at, displacement_len, word_len, imm_len, imm_at, tail_len};
ghost use Rattle.x86_base.specs.Numbers.{HasNumberLen};

use crate::context::is_long;
use crate::operation::operation;
use x86_base::{Context, Form, Imm, Row};

/// The byte at a place, or 0.
pub fn byte_at(bytes: &[u8], at: usize) -> u8
    ensures { result ≡ get_or bytes.now at 0 }
{
    bytes.get(at).copied().unwrap_or(0)
}

/// Whether rows of this form have a ModRM byte.
pub fn form_has_modrm(form: Form) -> bool
    ensures { result ≡ has_modrm form }
{
    !matches!(
        form,
        Form::AccImm
            | Form::AccPort
            | Form::PortAcc
            | Form::AccDx
            | Form::DxAcc
            | Form::OpcodeImm(_)
            | Form::Opcode(_)
            | Form::Immediate
            | Form::Nothing
    )
}

/// The ModRM byte, or 0 in a row without one.
pub fn modrm_byte(row: &Row, tail: &[u8]) -> u8
    ensures { result ≡ modrm row.now tail.now }
{
    if form_has_modrm(row.form) {
        byte_at(tail, 0)
    } else {
        0
    }
}

/// Whether the ModRM byte is one of the row's: its reg bits name an operation, and an address is no
/// register.
pub fn is_accepted(row: &Row, modrm: u8) -> bool
    ensures { result ≡ accepts row.now modrm }
{
    let is_address = matches!(row.form, Form::RegAddress);
    !form_has_modrm(row.form)
        || (operation(row.ops, modrm / 8 % 8).is_some() && !(is_address && modrm / 64 == 3))
}

/// Whether a SIB byte stands behind the ModRM byte.
pub fn has_sib(modrm: u8) -> bool
    ensures { result ≡ needs_sib modrm }
{
    modrm / 64 < 3 && modrm % 8 == 4
}

/// Where the displacement stands.
pub fn displacement_start(modrm: u8) -> usize
    ensures value { result ≡ displacement_at modrm }
    ensures bound { result ≤ 2 }
{
    if has_sib(modrm) { 2 } else { 1 }
}

/// How many bytes the displacement has.
pub fn displacement_bytes(modrm: u8, sib: u8) -> usize
    ensures value { result ≡ displacement_len modrm sib }
    ensures bound { result ≤ 4 }
{
    match modrm / 64 {
        1 => 1,
        2 => 4,
        0 if (if has_sib(modrm) { sib % 8 } else { modrm % 8 }) == 5 => 4,
        _ => 0,
    }
}

/// How many bytes an immediate of 16 or 32 bits has.
fn word_bytes(context: &Context) -> usize
    ensures value { result ≡ word_len context.now }
    ensures bound { result ≤ 4 }
{
    if !is_long(context) && context.size {
        2
    } else {
        4
    }
}

/// How many bytes the immediate has.
pub fn imm_bytes(context: &Context, imm: Imm, modrm: u8) -> usize
    ensures value { result ≡ imm_len context.now imm modrm }
    ensures bound { result ≤ 8 }
    ensures kind { HasNumberLen result }
{
    let word = word_bytes(context);
    let is_test = modrm / 8 % 8 == 0;
    match imm {
        Imm::Nothing => 0,
        Imm::Byte => 1,
        Imm::Word => word,
        Imm::Double => 4,
        Imm::Full => if is_long(context) { 8 } else { word },
        Imm::ByteOfTest => if is_test { 1 } else { 0 },
        Imm::WordOfTest => if is_test { word } else { 0 },
    }
}

/// Where the immediate stands.
pub fn imm_start(row: &Row, modrm: u8, sib: u8) -> usize
    ensures value { result ≡ imm_at row.now modrm sib }
    ensures bound { result ≤ 6 }
{
    if form_has_modrm(row.form) {
        displacement_start(modrm) + displacement_bytes(modrm, sib)
    } else {
        0
    }
}

/// How many bytes a row has behind its opcode.
pub fn tail_bytes(context: &Context, row: &Row, modrm: u8, sib: u8) -> usize
    ensures value { result ≡ tail_len context.now row.now modrm sib }
    ensures bound { result ≤ 14 }
{
    imm_start(row, modrm, sib) + imm_bytes(context, row.imm, modrm)
}
