// What an instruction that exits for nothing does to the labels.
ghost use Rattle.std.specs.Prelude.{◌≡◌, None};
ghost use Rattle.event_table.specs.Places.{vcpu};
ghost use Rattle.event_table.specs.Plan.{setting};
ghost use Rattle.guest_interp.specs.Table as table;
ghost use Rattle.secret_labels.specs.Labels.{noted};
ghost use Rattle.secret_labels.specs.Notes.{as_noted};

use crate::calculating::{note_arithmetic, operation};
use crate::marks::Marks;
use crate::moving::{note_address, note_move, note_move_where, note_set_where};
use crate::stacking::{note_call, note_pop, note_push, note_return, note_return_from_interrupt};
use crate::verdict::What;
use event_table::Place;
use image_file::Ram;
use x86_base::{Insn, Op, Regs};

/// Jcc: the flags are which way is taken.
fn note_jump_where(
    marks: &mut Marks,
    _regs: &Regs,
    _ram: &Ram,
    _insn: &Insn,
    _condition: u8,
) -> Option<What>
    ensures noted { let v = vcpu _regs.now _ram.now in as_noted result marks.new ≡
        noted marks.old v (table.jump_where _insn.now (setting v _insn.now.len) _condition) }
{
    if marks.is_on(Place::Status) {
        Some(What::Branch)
    } else {
        None
    }
}

/// CMC, which reads CF.
fn note_complement(marks: &mut Marks, _regs: &Regs, _ram: &Ram, _insn: &Insn)
    ensures noted { let v = vcpu _regs.now _ram.now in as_noted None marks.new ≡
        noted marks.old v (table.complement_carry (setting v _insn.now.len)) }
{
    let label = marks.is_on(Place::Carry);
    marks.put(label, Place::Carry);
}

/// An instruction that neither calculates nor exits.
fn note_other(marks: &mut Marks, regs: &Regs, ram: &Ram, insn: &Insn) -> Option<What>
    ensures noted { let v = vcpu regs.now ram.now in as_noted result marks.new ≡
        noted marks.old v (table.other_of insn.now.op insn.now (setting v insn.now.len)) }
{
    match insn.op {
        Op::Mov => note_move(marks, regs, ram, insn),
        Op::Movzx => note_move(marks, regs, ram, insn),
        Op::Movsx => note_move(marks, regs, ram, insn),
        Op::Movsxd => note_move(marks, regs, ram, insn),
        Op::Lea => note_address(marks, regs, ram, insn),
        Op::Push => note_push(marks, regs, ram, insn),
        Op::Pop => note_pop(marks, regs, ram, insn),
        Op::Call => note_call(marks, regs, ram, insn),
        Op::Ret => note_return(marks, regs, ram, insn),
        Op::Jcc(condition) => note_jump_where(marks, regs, ram, insn, condition),
        Op::Setcc(condition) => note_set_where(marks, regs, ram, insn, condition),
        Op::Cmovcc(condition) => note_move_where(marks, regs, ram, insn, condition),
        Op::Cmc => {
            note_complement(marks, regs, ram, insn);
            None
        }
        Op::Clc | Op::Stc => {
            marks.put(false, Place::Carry);
            None
        }
        Op::Iretq => note_return_from_interrupt(marks, regs, ram, insn),
        _ => None,
    }
}

/// An instruction that doesn't exit.
pub fn note_private(marks: &mut Marks, regs: &Regs, ram: &Ram, insn: &Insn) -> Option<What>
    ensures noted { let v = vcpu regs.now ram.now in as_noted result marks.new ≡
        noted marks.old v (table.private_of insn.now (setting v insn.now.len)) }
{
    match operation(insn.op) {
        Some(op) => note_arithmetic(marks, regs, ram, insn, op),
        None => note_other(marks, regs, ram, insn),
    }
}
