// What moves do to the labels (APM volume 3, MOV, MOVZX, MOVSX, MOVSXD, LEA, CMOVcc, SETcc).
ghost use Rattle.std.specs.Prelude.{◌≡◌, ℕ, None};
ghost use Rattle.event_table.specs.Places.{vcpu};
ghost use Rattle.event_table.specs.Plan.{setting};
ghost use Rattle.guest_interp.specs.Table as table;
ghost use Rattle.secret_labels.specs.Labels.{noted};
ghost use Rattle.secret_labels.specs.Notes.{as_noted};

use crate::marks::Marks;
use crate::reach::{is_readable, is_writable};
use crate::verdict::What;
use event_table::{Place, find};
use image_file::Ram;
use x86_base::{Insn, Regs};

/// A move, at its places, however it is extended.
pub fn note_move_to(
    marks: &mut Marks,
    _regs: &Regs,
    ram: &Ram,
    _insn: &Insn,
    dst: Place,
    src: Place,
)
    ensures noted { (extend : ℕ → ℕ) → let v = vcpu _regs.now ram.now in as_noted None marks.new ≡
        noted marks.old v (table.moves_to (setting v _insn.now.len) dst src extend) }
{
    if is_readable(ram, src) && is_writable(ram, dst) {
        let label = marks.is_on(src);
        marks.put(label, dst);
    }
}

/// A move of an operand, however it is extended.
pub fn note_move(marks: &mut Marks, regs: &Regs, ram: &Ram, insn: &Insn) -> Option<What>
    ensures noted { (extend : ℕ → ℕ) → let v = vcpu regs.now ram.now in as_noted result marks.new ≡
        noted marks.old v (table.move insn.now (setting v insn.now.len) extend) }
{
    if marks.is_on_address(&insn.dst) || marks.is_on_address(&insn.src) {
        return Some(What::Address);
    }
    let dst = find(regs, ram, insn, insn.width, &insn.dst);
    let src = find(regs, ram, insn, insn.source_width, &insn.src);
    note_move_to(marks, regs, ram, insn, dst, src);
    None
}

/// LEA: the registers of the address are read as values.
pub fn note_address(marks: &mut Marks, regs: &Regs, ram: &Ram, insn: &Insn) -> Option<What>
    ensures noted { let v = vcpu regs.now ram.now in as_noted result marks.new ≡
        noted marks.old v (table.load_address insn.now (setting v insn.now.len)) }
{
    if marks.is_on_address(&insn.dst) {
        return Some(What::Address);
    }
    let dst = find(regs, ram, insn, insn.width, &insn.dst);
    if is_writable(ram, dst) {
        let label = marks.is_on_address(&insn.src);
        marks.put(label, dst);
    }
    None
}

/// CMOVcc, at its places: the flags, the destination and the source are read.
fn note_move_to_where(
    marks: &mut Marks,
    _regs: &Regs,
    ram: &Ram,
    _insn: &Insn,
    _condition: u8,
    dst: Place,
    src: Place,
)
    ensures noted { let v = vcpu _regs.now ram.now in as_noted None marks.new ≡
        noted marks.old v (table.moves_where (setting v _insn.now.len) _condition dst src) }
{
    if is_readable(ram, dst) && is_readable(ram, src) && is_writable(ram, dst) {
        let label = marks.is_on(src) || marks.is_on(dst) || marks.is_on(Place::Status);
        marks.put(label, dst);
    }
}

/// CMOVcc.
pub fn note_move_where(
    marks: &mut Marks,
    regs: &Regs,
    ram: &Ram,
    insn: &Insn,
    condition: u8,
) -> Option<What>
    ensures noted { let v = vcpu regs.now ram.now in as_noted result marks.new ≡
        noted marks.old v (table.move_where insn.now (setting v insn.now.len) condition) }
{
    if marks.is_on_address(&insn.dst) || marks.is_on_address(&insn.src) {
        return Some(What::Address);
    }
    let dst = find(regs, ram, insn, insn.width, &insn.dst);
    let src = find(regs, ram, insn, insn.width, &insn.src);
    note_move_to_where(marks, regs, ram, insn, condition, dst, src);
    None
}

/// SETcc: the flags are read.
pub fn note_set_where(
    marks: &mut Marks,
    regs: &Regs,
    ram: &Ram,
    insn: &Insn,
    _condition: u8,
) -> Option<What>
    ensures noted { let v = vcpu regs.now ram.now in as_noted result marks.new ≡
        noted marks.old v (table.set_where insn.now (setting v insn.now.len) _condition) }
{
    if marks.is_on_address(&insn.dst) {
        return Some(What::Address);
    }
    let dst = find(regs, ram, insn, insn.width, &insn.dst);
    if is_writable(ram, dst) {
        let label = marks.is_on(Place::Status);
        marks.put(label, dst);
    }
    None
}
