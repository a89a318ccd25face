// The instruction of a row and the bytes behind its opcode.
ghost use Rattle.std.specs.Prelude.{◌≡◌};
ghost use Rattle.x86_base.specs.Operands.{width_of, source_width_of, insn_of};
ghost use Rattle.x86_base.specs.Spelling.{IsTail};

use crate::context::is_long;
use crate::operands::{destination, source};
use crate::operation::operation;
use crate::sizes::modrm_byte;
use x86_base::{Context, Form, Insn, Op, Row, RowWidth, Width};

/// The width of a row.
fn width(context: &Context, width: RowWidth) -> Width
    ensures { result ≡ width_of context.now width }
{
    let is_long = is_long(context);
    match width {
        RowWidth::B => Width::B8,
        RowWidth::V if is_long => Width::B64,
        RowWidth::V | RowWidth::Z if !is_long && context.size => Width::B16,
        RowWidth::V | RowWidth::Z => Width::B32,
        RowWidth::Q => Width::B64,
    }
}

/// The width of the source: that of the r/m operand in a widening move, else the row's.
fn source_width(context: &Context, row: &Row) -> Width
    ensures { result ≡ source_width_of context.now row.now row.now.form }
{
    match row.form {
        Form::RegRmByte => Width::B8,
        Form::RegRmWord => Width::B16,
        Form::RegRmDouble => Width::B32,
        _ => width(context, row.width),
    }
}

/// Puts the instruction of a row, the bytes behind its opcode and the number of all bytes in its place.
#[tactic(auto, unfolding(x86_base::specs::Operands::insn_of))]
pub fn insn(context: &Context, row: &Row, tail: &[u8], len: u8, into: &mut Insn)
    requires { IsTail context.now row.now tail.now }
    ensures { into.new ≡ insn_of context.now row.now tail.now len }
{
    // A tail's reg bits name an operation, so `Nop` is never put in place of one.
    into.op = operation(row.ops, modrm_byte(row, tail) / 8 % 8).unwrap_or(Op::Nop);
    into.width = width(context, row.width);
    into.source_width = source_width(context, row);
    destination(context, row, tail, &mut into.dst);
    source(context, row, tail, &mut into.src);
    into.rep = context.rep;
    into.len = len;
}
