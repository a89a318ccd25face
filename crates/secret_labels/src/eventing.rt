// What an instruction does to the labels, also one that exits, and what its reply does.
ghost use Rattle.std.specs.Prelude.{◌≡◌};
ghost use Rattle.event_table.specs.Events as events;
ghost use Rattle.event_table.specs.Places.{Number, read, vcpu};
ghost use Rattle.event_table.specs.Plan.{Ends, setting};
ghost use Rattle.event_table.specs.declared.end.End.TheVariants.{Undecoded};
ghost use Rattle.guest_interp.specs.Stepping.{plan_of};
ghost use Rattle.guest_interp.specs.Table.{private_of};
ghost use Rattle.image_file.specs.Ram.{Memory};
ghost use Rattle.secret_labels.specs.Labels.{any, noted, noted_after};
ghost use Rattle.secret_labels.specs.Notes.{as_noted};

use crate::marks::Marks;
use crate::noting::note_private;
use crate::paging::{note_move_reply, note_moved};
use crate::strings::{note_string, note_string_reply};
use crate::verdict::What;
use event_table::{Kind, Place, Reply, Row, is_move, is_string, port_size, row_of};
use image_file::Ram;
use x86_base::{Insn, Op, Operand, Reg, Regs, Width};

/// The place of the port that an operand names: a number of the instruction, or DX.
fn port_of(operand: &Operand) -> Place
    ensures place { result ≡ events.port_of operand.now }
{
    match operand {
        Operand::Imm(port) => Place::Fixed(*port % 0x1_0000),
        _ => Place::Low(Reg::Rdx, Width::B16),
    }
}

/// The place of the port of port I/O.
fn port_at(insn: &Insn) -> Place
    ensures place { result ≡ events.port_at insn.now.op insn.now }
{
    match insn.op {
        Op::Out => port_of(&insn.dst),
        Op::In => port_of(&insn.src),
        _ => Place::Fixed(0),
    }
}

/// The port that an operand names.
fn port_in(regs: &Regs, operand: &Operand) -> u16
    ensures value { (ram : Memory) → read (vcpu regs.now ram) (events.port_of operand.now) ≡ Number result }
{
    match operand {
        Operand::Imm(port) => (*port % 0x1_0000) as u16,
        _ => (regs.get(Reg::Rdx) % 0x1_0000) as u16,
    }
}

/// The port of port I/O; 0 for any other instruction.
fn port(regs: &Regs, insn: &Insn) -> u16
    ensures value { (ram : Memory) → read (vcpu regs.now ram) (events.port_at insn.now.op insn.now) ≡ Number result }
{
    match insn.op {
        Op::Out => port_in(regs, &insn.dst),
        Op::In => port_in(regs, &insn.src),
        _ => 0,
    }
}

/// The event of an instruction that exits with its data in registers.
fn kind(insn: &Insn, port: u16) -> Option<Kind>
    ensures value { result ≡ events.kind_at insn.now.op insn.now.width port }
{
    match insn.op {
        Op::Out => Some(Kind::Out {
            port,
            size: port_size(insn.width),
        }),
        Op::In => Some(Kind::In {
            port,
            size: port_size(insn.width),
        }),
        Op::Cpuid => Some(Kind::Cpuid),
        Op::Rdmsr => Some(Kind::Rdmsr),
        Op::Wrmsr => Some(Kind::Wrmsr),
        Op::Rdtsc => Some(Kind::Rdtsc),
        Op::Rdtscp => Some(Kind::Rdtscp),
        Op::Rdpmc => Some(Kind::Rdpmc),
        Op::Wbinvd => Some(Kind::Wbinvd),
        Op::Vmmcall => Some(Kind::Vmmcall),
        _ => None,
    }
}

/// A register's place, where a row has it.
fn place_if(is: bool, reg: Reg, width: Width) -> Place
    ensures place { result ≡ events.place_if is reg width }
{
    if is {
        Place::Low(reg, width)
    } else {
        Place::Fixed(0)
    }
}

/// Whether a row shows a register with a label.
fn is_on_shown(marks: &Marks, row: &Row) -> bool
    ensures value { result ≡ any marks.now (events.shown_places row.now) }
{
    marks.is_on(place_if(row.shows.d, Reg::Rdx, Width::B64))
        || marks.is_on(place_if(row.shows.c, Reg::Rcx, Width::B64))
        || marks.is_on(place_if(row.shows.a, Reg::Rax, Width::B64))
}

/// An instruction that is neither string I/O nor a move.
fn note_registers(marks: &mut Marks, regs: &Regs, ram: &Ram, insn: &Insn) -> Option<What>
    ensures noted { let v = vcpu regs.now ram.now in let s = setting v insn.now.len in
        as_noted result marks.new ≡ noted marks.old v (events.registers_plan insn.now s (private_of insn.now s)) }
{
    if marks.is_on(port_at(insn)) {
        return Some(What::Named);
    }
    match kind(insn, port(regs, insn)) {
        Some(kind) => {
            if is_on_shown(marks, &row_of(&kind)) {
                Some(What::Named)
            } else {
                None
            }
        }
        None => note_private(marks, regs, ram, insn),
    }
}

/// What one instruction uses of the labels, or the labels after it; one that asks for an event leaves them.
pub fn note(marks: &mut Marks, regs: &Regs, ram: &Ram, insn: &Insn) -> Option<What>
    ensures noted { let v = vcpu regs.now ram.now in
        as_noted result marks.new ≡ noted marks.old v (plan_of insn.now (setting v insn.now.len)) }
{
    if is_string(insn) {
        note_string(marks, regs, ram, insn)
    } else if is_move(insn) {
        note_moved(marks, regs, ram, insn)
    } else {
        note_registers(marks, regs, ram, insn)
    }
}

/// The labels after the reply to an access with its data in registers: its results have none.
fn note_registers_reply(
    marks: &mut Marks,
    regs: &Regs,
    _ram: &Ram,
    insn: &Insn,
    _reply: &Reply,
) -> Option<What>
    ensures noted { let v = vcpu regs.now _ram.now in let s = setting v insn.now.len in
        as_noted result marks.new ≡
        noted_after _reply.now marks.old v (events.registers_plan insn.now s (Ends Undecoded)) }
{
    if marks.is_on(port_at(insn)) {
        return Some(What::Named);
    }
    if let Some(kind) = kind(insn, port(regs, insn)) {
        let row = row_of(&kind);
        if is_on_shown(marks, &row) {
            return Some(What::Named);
        }
        marks.put(false, place_if(row.results.a, Reg::Rax, row.width));
        marks.put(false, place_if(row.results.c, Reg::Rcx, row.width));
        marks.put(false, place_if(row.results.d, Reg::Rdx, row.width));
        marks.put(false, place_if(row.results.b, Reg::Rbx, row.width));
    }
    None
}

/// The labels after the reply to the event that an instruction asked, whatever the host's answer is; what it
/// was asked by is looked at once more.
pub fn note_reply(
    marks: &mut Marks,
    regs: &Regs,
    ram: &Ram,
    insn: &Insn,
    reply: &Reply,
) -> Option<What>
    ensures noted { let v = vcpu regs.now ram.now in as_noted result marks.new ≡
        noted_after reply.now marks.old v (events.exit_of insn.now (setting v insn.now.len)) }
{
    if is_string(insn) {
        note_string_reply(marks, regs, ram, insn, reply)
    } else if is_move(insn) {
        note_move_reply(marks, regs, ram, insn, reply)
    } else {
        note_registers_reply(marks, regs, ram, insn, reply)
    }
}
