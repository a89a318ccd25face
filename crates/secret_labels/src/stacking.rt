// What the stack's instructions do to the labels (APM volume 3, PUSH, POP, CALL, RET, IRETQ).
ghost use Rattle.std.specs.Prelude.{◌≡◌, ◌<◌, ◌^◌};
ghost use Rattle.event_table.specs.Places.{vcpu};
ghost use Rattle.event_table.specs.Plan.{setting};
ghost use Rattle.guest_interp.specs.Table as table;
ghost use Rattle.secret_labels.specs.Labels.{any, noted};
ghost use Rattle.secret_labels.specs.Notes.{as_noted};

use crate::marks::Marks;
use crate::reach::{is_readable, is_writable};
use crate::verdict::What;
use event_table::{Place, find};
use image_file::Ram;
use x86_base::{Insn, Operand, Reg, Regs, Width};

/// RSP, which goes into an address.
const RSP: Place = Place::Low(Reg::Rsp, Width::B64);

/// PUSH: RSP takes no label, and the bytes that are pushed take that of what is pushed.
pub fn note_push(marks: &mut Marks, regs: &Regs, ram: &Ram, insn: &Insn) -> Option<What>
    ensures noted { let v = vcpu regs.now ram.now in as_noted result marks.new ≡
        noted marks.old v (table.push insn.now (setting v insn.now.len)) }
{
    if marks.is_on(RSP) || marks.is_on_address(&insn.dst) {
        return Some(What::Address);
    }
    let src = find(regs, ram, insn, Width::B64, &insn.dst);
    let top = Place::Bytes(regs.get(Reg::Rsp).wrapping_sub(8), Width::B64);
    if is_readable(ram, src) && is_writable(ram, top) {
        let label = marks.is_on(src);
        marks.put(false, RSP);
        marks.put(label, top);
    }
    None
}

/// The register of a whole operand.
fn register(operand: &Operand) -> Place
    ensures place { result ≡ table.register_of operand.now }
{
    match operand {
        Operand::Whole(reg) => Place::Low(*reg, Width::B64),
        _ => Place::Fixed(0),
    }
}

/// POP: RSP takes a label only where it is what is popped to.
pub fn note_pop(marks: &mut Marks, regs: &Regs, ram: &Ram, insn: &Insn) -> Option<What>
    ensures noted { let v = vcpu regs.now ram.now in as_noted result marks.new ≡
        noted marks.old v (table.pop insn.now (setting v insn.now.len)) }
{
    if marks.is_on(RSP) {
        return Some(What::Address);
    }
    let top = Place::Bytes(regs.get(Reg::Rsp), Width::B64);
    if is_readable(ram, top) {
        let label = marks.is_on(top);
        marks.put(false, RSP);
        marks.put(label, register(&insn.dst));
    }
    None
}

/// CALL.
pub fn note_call(marks: &mut Marks, regs: &Regs, ram: &Ram, _insn: &Insn) -> Option<What>
    ensures noted { let v = vcpu regs.now ram.now in as_noted result marks.new ≡
        noted marks.old v (table.call _insn.now (setting v _insn.now.len)) }
{
    if marks.is_on(RSP) {
        return Some(What::Address);
    }
    let top = Place::Bytes(regs.get(Reg::Rsp).wrapping_sub(8), Width::B64);
    if is_writable(ram, top) {
        marks.put(false, RSP);
        marks.put(false, top);
    }
    None
}

/// RET: what is popped is where it goes on.
pub fn note_return(marks: &mut Marks, regs: &Regs, ram: &Ram, _insn: &Insn) -> Option<What>
    ensures noted { let v = vcpu regs.now ram.now in as_noted result marks.new ≡
        noted marks.old v (table.return (setting v _insn.now.len)) }
{
    if marks.is_on(RSP) {
        return Some(What::Address);
    }
    let top = Place::Bytes(regs.get(Reg::Rsp), Width::B64);
    if is_readable(ram, top) {
        if marks.is_on(top) {
            return Some(What::Branch);
        }
        marks.put(false, RSP);
    }
    None
}

/// Whether one of the five words that IRETQ pops has a label.
fn is_on_frame(marks: &Marks, at: u64) -> bool
    requires small { at < 2 ^ 63 }
    ensures value { result ≡ any marks.now (table.five_words at) }
{
    marks.is_on(Place::Bytes(at + 32, Width::B64))
        || marks.is_on(Place::Bytes(at + 24, Width::B64))
        || marks.is_on(Place::Bytes(at + 16, Width::B64))
        || marks.is_on(Place::Bytes(at + 8, Width::B64))
        || marks.is_on(Place::Bytes(at, Width::B64))
}

/// IRETQ: what it pops is where it goes on, also where it takes other selectors than 8 and 16 and stops.
pub fn note_return_from_interrupt(
    marks: &mut Marks,
    regs: &Regs,
    ram: &Ram,
    _insn: &Insn,
) -> Option<What>
    ensures noted { let v = vcpu regs.now ram.now in as_noted result marks.new ≡
        noted marks.old v (table.return_from_interrupt (setting v _insn.now.len)) }
{
    if marks.is_on(RSP) {
        return Some(What::Address);
    }
    let at = regs.get(Reg::Rsp);
    if !ram.has(at, 40) {
        return None;
    }
    if is_on_frame(marks, at) {
        return Some(What::Branch);
    }
    let code = ram.read(at + 8, 8);
    let stack = ram.read(at + 32, 8);
    if code == Ok(8) && stack == Ok(16) {
        marks.put(false, RSP);
        marks.put(false, Place::Status);
    }
    None
}
