// What moves to and from the page of devices do to the labels (AMD 56421, section 4, MMIO Access).
ghost use Rattle.std.specs.Prelude.{◌≡◌, ℕ, true};
ghost use Rattle.event_table.specs.Moves as moves;
ghost use Rattle.event_table.specs.Places.{vcpu};
ghost use Rattle.event_table.specs.Plan.{Ends, setting};
ghost use Rattle.event_table.specs.declared.end.End.TheVariants.{Undecoded};
ghost use Rattle.guest_interp.specs.Table as table;
ghost use Rattle.secret_labels.specs.Labels.{noted, noted_after};
ghost use Rattle.secret_labels.specs.Notes.{as_noted};

use crate::marks::Marks;
use crate::moving::note_move_to;
use crate::reach::{is_device, is_readable, is_writable};
use crate::verdict::What;
use event_table::{Place, Reply, find};
use image_file::Ram;
use x86_base::{Insn, Op, Regs};

/// Whether a move goes to the page of devices.
fn is_to_page(_regs: &Regs, ram: &Ram, _insn: &Insn, dst: Place, src: Place) -> bool
    ensures value { result ≡ moves.is_to_page (setting (vcpu _regs.now ram.now) _insn.now.len) dst src }
{
    is_device(ram, dst) && is_readable(ram, src)
}

/// Whether a move comes from the page of devices, where it doesn't go there.
fn is_from_page(_regs: &Regs, ram: &Ram, _insn: &Insn, dst: Place, src: Place) -> bool
    ensures value { result ≡ moves.is_from_page (setting (vcpu _regs.now ram.now) _insn.now.len) dst src }
{
    is_device(ram, src) && is_writable(ram, dst)
}

/// A move that may reach the page of devices, however it is extended: what goes to the page is shown, and
/// what comes from it is a reply's. Any other is private.
fn note_page_move(marks: &mut Marks, regs: &Regs, ram: &Ram, insn: &Insn) -> Option<What>
    ensures noted { (extend : ℕ → ℕ) → let v = vcpu regs.now ram.now in let s = setting v insn.now.len in
        as_noted result marks.new ≡ noted marks.old v (moves.move_of insn.now s (table.move insn.now s extend)) }
{
    if marks.is_on_address(&insn.dst) || marks.is_on_address(&insn.src) {
        return Some(What::Address);
    }
    let dst = find(regs, ram, insn, insn.width, &insn.dst);
    let src = find(regs, ram, insn, insn.source_width, &insn.src);
    if is_to_page(regs, ram, insn, dst, src) {
        return if marks.is_on(src) {
            Some(What::Named)
        } else {
            None
        };
    }
    if !is_from_page(regs, ram, insn, dst, src) {
        note_move_to(marks, regs, ram, insn, dst, src);
    }
    None
}

/// MOV, MOVZX and MOVSX.
pub fn note_moved(marks: &mut Marks, regs: &Regs, ram: &Ram, insn: &Insn) -> Option<What>
    requires moves { moves.is_move insn.now.op ≡ true }
    ensures noted { let v = vcpu regs.now ram.now in let s = setting v insn.now.len in
        as_noted result marks.new ≡ noted marks.old v (moves.move_of insn.now s (table.private_of insn.now s)) }
{
    match insn.op {
        Op::Mov => note_page_move(marks, regs, ram, insn),
        Op::Movzx => note_page_move(marks, regs, ram, insn),
        Op::Movsx => note_page_move(marks, regs, ram, insn),
        _ => unreachable!(),
    }
}

/// The labels after the reply to a move that reached the page: what came from there has none.
pub fn note_move_reply(
    marks: &mut Marks,
    regs: &Regs,
    ram: &Ram,
    insn: &Insn,
    _reply: &Reply,
) -> Option<What>
    ensures noted { let v = vcpu regs.now ram.now in as_noted result marks.new ≡
        noted_after _reply.now marks.old v (moves.move_of insn.now (setting v insn.now.len) (Ends Undecoded)) }
{
    if marks.is_on_address(&insn.dst) || marks.is_on_address(&insn.src) {
        return Some(What::Address);
    }
    let dst = find(regs, ram, insn, insn.width, &insn.dst);
    let src = find(regs, ram, insn, insn.source_width, &insn.src);
    if is_to_page(regs, ram, insn, dst, src) {
        return if marks.is_on(src) {
            Some(What::Named)
        } else {
            None
        };
    }
    if is_from_page(regs, ram, insn, dst, src) {
        marks.put(false, dst);
    }
    None
}
