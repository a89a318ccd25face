// What an instruction that exits asks of the devices, and where the results go.
ghost use Rattle.std.specs.Prelude.{◌≡◌, is_some, option_map, IfSome, IsSome};
ghost use Rattle.image_file.specs.Ram.{Memory};
ghost use Rattle.event_table.specs.Events.{asked_apart, kind_at, placed_apart};
ghost use Rattle.event_table.specs.Events.{place_if, port_at, port_of, registers_plan};
ghost use Rattle.event_table.specs.Lawful.{IsKind, IsLawfulAccess, IsOfRegisters};
ghost use Rattle.event_table.specs.Places.{read, vcpu, write, Number};
ghost use Rattle.event_table.specs.Plan.{Ends, Moved, apart, event_asked, reply_with, step_answered};
ghost use Rattle.event_table.specs.declared.end.End.TheVariants.{Undecoded};
ghost use Rattle.event_table.specs.declared.event.Event.TheVariants.{One};

use crate::access::{Access, Values};
use crate::elements::{is_string, named_element, place_element, port_size};
use crate::moves::{is_move, named_move, place_move};
use crate::places::following;
use crate::row::{Kind, Registers, access_of, row_of};
use image_file::Ram;
use x86_base::{Insn, Op, Operand, Reg, Regs, Width};

/// The port that an operand names: a number of the instruction, or DX.
fn port_in(regs: &Regs, operand: &Operand) -> u16
    ensures value { (ram : Memory) → read (vcpu regs.now ram) (port_of operand.now) ≡ Number result }
{
    match operand {
        Operand::Imm(port) => (*port % 0x1_0000) as u16,
        _ => (regs.get(Reg::Rdx) % 0x1_0000) as u16,
    }
}

/// The port of port I/O; 0 for any other instruction.
fn port(regs: &Regs, insn: &Insn) -> u16
    ensures value { (ram : Memory) → read (vcpu regs.now ram) (port_at insn.now.op insn.now) ≡ Number result }
{
    match insn.op {
        Op::Out => port_in(regs, &insn.dst),
        Op::In => port_in(regs, &insn.src),
        _ => 0,
    }
}

/// The event of an instruction that exits, with its port where it has one.
#[inline(always)]
fn kind(insn: &Insn, port: u16) -> Option<Kind>
    ensures value { result ≡ kind_at insn.now.op insn.now.width port }
    ensures lawful { IfSome result IsKind }
    ensures registers { IfSome result IsOfRegisters }
{
    match insn.op {
        Op::Out => Some(Kind::Out {
            port,
            size: port_size(insn.width),
        }),
        Op::In => Some(Kind::In {
            port,
            size: port_size(insn.width),
        }),
        Op::Cpuid => Some(Kind::Cpuid),
        Op::Rdmsr => Some(Kind::Rdmsr),
        Op::Wrmsr => Some(Kind::Wrmsr),
        Op::Rdtsc => Some(Kind::Rdtsc),
        Op::Rdtscp => Some(Kind::Rdtscp),
        Op::Rdpmc => Some(Kind::Rdpmc),
        Op::Wbinvd => Some(Kind::Wbinvd),
        Op::Vmmcall => Some(Kind::Vmmcall),
        _ => None,
    }
}

/// Whether an instruction exits for an access that has its data in registers, as [`named`] gives it.
#[inline(always)]
pub fn is_event(insn: &Insn) -> bool
    ensures value { result ≡ is_some (kind_at insn.now.op insn.now.width 0) }
{
    kind(insn, 0).is_some()
}

/// A register, where a row shows it, and else 0.
fn shown(regs: &Regs, is: bool, reg: Reg) -> u64
    ensures value { (ram : Memory) → read (vcpu regs.now ram) (place_if is reg Width.B64) ≡ Number result }
{
    if is { regs.get(reg) } else { 0 }
}

/// The access of an instruction that has its data in registers.
fn named_registers(regs: &Regs, insn: &Insn) -> Option<Access>
    ensures value { (ram : Memory) → let v = vcpu regs.now ram in
        option_map One result ≡ event_asked v (registers_plan insn.now (apart v insn.now.len) (Ends Undecoded)) }
    ensures lawful { IfSome result IsLawfulAccess }
{
    let kind = kind(insn, port(regs, insn))?;
    let row = row_of(&kind);
    let registers = Registers {
        a: shown(regs, row.shows.a, Reg::Rax),
        c: shown(regs, row.shows.c, Reg::Rcx),
        d: shown(regs, row.shows.d, Reg::Rdx),
    };
    Some(access_of(&kind, &registers))
}

/// The access that an instruction asks of the devices, at registers and RAM; of string I/O that of its
/// next element. There is none exactly where the instruction exits for nothing, has REP with RCX 0, or
/// its first element can't be moved; a move exits where an operand lies wholly in the page of devices.
pub fn named(regs: &Regs, ram: &Ram, insn: &Insn) -> Option<Access>
    ensures value { option_map One result ≡ asked_apart insn.now (vcpu regs.now ram.now) }
    ensures lawful { IfSome result IsLawfulAccess }
{
    if is_string(insn) {
        named_element(regs, ram, insn)
    } else if is_move(insn) {
        named_move(regs, ram, insn)
    } else {
        named_registers(regs, insn)
    }
}

/// Puts a result in its register, where a row has one for it.
#[inline(always)]
fn put_if(regs: &mut Regs, is: bool, reg: Reg, width: Width, value: u64)
    ensures change { (ram : Memory) →
        vcpu regs.new ram ≡ write (place_if is reg width) (Number value) (vcpu regs.old ram) }
{
    if is {
        regs.put_sized(reg, width, value);
    }
}

/// Puts the results of an access that has its data in registers in their places, and goes on.
#[inline(always)]
fn place_registers(regs: &mut Regs, ram: &mut Ram, insn: &Insn, values: &Values)
    requires asked { let v = vcpu regs.old ram.old in
        IsSome (event_asked v (registers_plan insn.now (apart v insn.now.len) (Ends Undecoded))) }
    ensures placed { let v = vcpu regs.old ram.old in
        Moved (vcpu regs.new ram.new) ≡
        step_answered (reply_with values.now) v (registers_plan insn.now (apart v insn.now.len) (Ends Undecoded)) }
{
    let next = following(regs, insn);
    if let Some(kind) = kind(insn, port(regs, insn)) {
        let row = row_of(&kind);
        put_if(regs, row.results.a, Reg::Rax, row.width, values.a);
        put_if(regs, row.results.c, Reg::Rcx, row.width, values.c);
        put_if(regs, row.results.d, Reg::Rdx, row.width, values.d);
        put_if(regs, row.results.b, Reg::Rbx, row.width, values.b);
    }
    regs.rip = next;
}

/// Puts the results of the access that an instruction asks in their places, and goes on; of string I/O
/// those of its next element, and it goes on with the last; of MMIO what [`extend`] gives.
#[inline(always)]
pub fn place(regs: &mut Regs, ram: &mut Ram, insn: &Insn, values: &Values)
    requires asked { IsSome (asked_apart insn.now (vcpu regs.old ram.old)) }
    ensures placed { Moved (vcpu regs.new ram.new) ≡ placed_apart values.now insn.now (vcpu regs.old ram.old) }
{
    if is_string(insn) {
        place_element(regs, ram, insn, values)
    } else if is_move(insn) {
        place_move(regs, ram, insn, values)
    } else {
        place_registers(regs, ram, insn, values)
    }
}
