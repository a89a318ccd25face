// What arithmetic, logic and shifts do to the labels (APM volume 3, ADD, OR, ADC, SBB, AND, SUB, XOR, CMP,
// TEST, NOT, NEG, INC, DEC, SHL, SHR, SAR, IMUL).
ghost use Rattle.std.specs.Prelude.{◌≡◌, None};
ghost use Rattle.x86_base.specs.Widths.{bits_of};
ghost use Rattle.event_table.specs.Places.{vcpu};
ghost use Rattle.event_table.specs.Plan.{setting};
ghost use Rattle.guest_interp.specs.Table as table;
ghost use Rattle.secret_labels.specs.Labels.{any, noted};
ghost use Rattle.secret_labels.specs.Notes.{as_noted};

use crate::marks::Marks;
use crate::reach::{is_readable, is_writable};
use crate::verdict::What;
use alu_ops::AluOp;
use event_table::{Place, find};
use image_file::Ram;
use x86_base::{Insn, Op, Regs, Width};

/// The operation of an instruction that calculates.
pub fn operation(op: Op) -> Option<AluOp>
    ensures value { result ≡ table.alu_op_of op }
{
    match op {
        Op::Add => Some(AluOp::Add),
        Op::Or => Some(AluOp::Or),
        Op::Adc => Some(AluOp::Adc),
        Op::Sbb => Some(AluOp::Sbb),
        Op::And => Some(AluOp::And),
        Op::Sub => Some(AluOp::Sub),
        Op::Xor => Some(AluOp::Xor),
        Op::Cmp => Some(AluOp::Cmp),
        Op::Test => Some(AluOp::Test),
        Op::Not => Some(AluOp::Not),
        Op::Neg => Some(AluOp::Neg),
        Op::Inc => Some(AluOp::Inc),
        Op::Dec => Some(AluOp::Dec),
        Op::Shl => Some(AluOp::Shl),
        Op::Shr => Some(AluOp::Shr),
        Op::Sar => Some(AluOp::Sar),
        Op::Imul => Some(AluOp::Imul),
        _ => None,
    }
}

/// Where an operation's result goes: a comparison and a test write none.
fn target(op: AluOp, dst: Place) -> Place
    ensures place { result ≡ table.result_place op dst }
{
    match op {
        AluOp::Cmp | AluOp::Test => Place::Fixed(0),
        _ => dst,
    }
}

/// Whether a place has a constant of which a shift's count is 0.
fn is_no_shift(width: Width, src: Place) -> bool
    ensures value { result ≡ table.is_no_shift (bits_of width) src }
{
    match src {
        Place::Fixed(count) => match width {
            Width::B64 => count % 64 == 0,
            _ => count % 32 == 0,
        },
        _ => false,
    }
}

/// Where an operation's flags go.
fn flags_target(width: Width, op: AluOp, src: Place) -> Place
    ensures place { result ≡ table.flags_written (bits_of width) op src }
{
    match op {
        AluOp::Not => Place::Fixed(0),
        AluOp::Inc | AluOp::Dec => Place::StatusButCarry,
        AluOp::Shl | AluOp::Shr | AluOp::Sar => {
            if is_no_shift(width, src) {
                Place::Fixed(0)
            } else {
                Place::Status
            }
        }
        _ => Place::Status,
    }
}

/// Whether an operation reads flags that have a label.
fn is_on_flags(marks: &Marks, op: AluOp, src: Place) -> bool
    ensures value { result ≡ any marks.now (table.flags_read op src) }
{
    match op {
        AluOp::Adc | AluOp::Sbb => marks.is_on(Place::Status),
        AluOp::Shl | AluOp::Shr | AluOp::Sar => match src {
            Place::Fixed(_) => false,
            _ => marks.is_on(Place::Status),
        },
        _ => false,
    }
}

/// An operation of the numbers at two places.
fn note_calculation(
    marks: &mut Marks,
    _regs: &Regs,
    ram: &Ram,
    insn: &Insn,
    op: AluOp,
    dst: Place,
    src: Place,
)
    ensures noted { let v = vcpu _regs.now ram.now in as_noted None marks.new ≡
        noted marks.old v (table.arithmetic_to insn.now (setting v insn.now.len) op dst src) }
{
    let to = target(op, dst);
    if is_readable(ram, dst) && is_readable(ram, src) && is_writable(ram, to) {
        let label = is_on_flags(marks, op, src) || marks.is_on(src) || marks.is_on(dst);
        marks.put(label, to);
        marks.put(label, flags_target(insn.width, op, src));
    }
}

/// The operations of two operands.
pub fn note_arithmetic(
    marks: &mut Marks,
    regs: &Regs,
    ram: &Ram,
    insn: &Insn,
    op: AluOp,
) -> Option<What>
    ensures noted { let v = vcpu regs.now ram.now in as_noted result marks.new ≡
        noted marks.old v (table.arithmetic insn.now (setting v insn.now.len) op) }
{
    if marks.is_on_address(&insn.dst) || marks.is_on_address(&insn.src) {
        return Some(What::Address);
    }
    let dst = find(regs, ram, insn, insn.width, &insn.dst);
    let src = find(regs, ram, insn, insn.width, &insn.src);
    note_calculation(marks, regs, ram, insn, op, dst, src);
    None
}
