// One element of string I/O (APM volume 3, INS and OUTS).
ghost use Rattle.std.specs.Prelude.{◌≡◌, option_map, IfSome, IsSome};
ghost use Rattle.x86_base.specs.Widths.{size_of};
ghost use Rattle.event_table.specs.Elements as elements;
ghost use Rattle.event_table.specs.Lawful.{IsLawfulAccess, IsSize};
ghost use Rattle.event_table.specs.Places.{Number, read, vcpu};
ghost use Rattle.event_table.specs.Plan.{Moved, apart, event_asked, reply_with, step_answered};
ghost use Rattle.event_table.specs.declared.event.Event.TheVariants.{One};
ghost use Rattle.image_file.specs.Ram.{Memory};

use crate::access::{Access, Values};
use crate::places::following;
use image_file::Ram;
use x86_base::{Insn, Op, Reg, Regs, Width};

/// Whether an instruction is string I/O.
#[inline(always)]
pub fn is_string(insn: &Insn) -> bool
    ensures value { result ≡ elements.is_string insn.now.op }
{
    matches!(insn.op, Op::Ins | Op::Outs)
}

/// Whether string I/O is input.
pub fn is_input(insn: &Insn) -> bool
    ensures value { result ≡ elements.is_input insn.now.op }
{
    matches!(insn.op, Op::Ins)
}

/// The bytes of port I/O: it has no width of 64 bits (APM volume 3, IN and OUT).
pub fn port_size(width: Width) -> u8
    ensures value { result ≡ size_of (elements.port_width width) }
    ensures lawful { IsSize result }
{
    match width {
        Width::B8 => 1,
        Width::B16 => 2,
        _ => 4,
    }
}

/// The register that points to the next element.
pub fn pointer(insn: &Insn) -> Reg
    ensures value { result ≡ elements.pointer (elements.is_input insn.now.op) }
{
    if is_input(insn) { Reg::Rdi } else { Reg::Rsi }
}

/// How many elements are left: RCX with REP, and else one.
pub fn left(regs: &Regs, insn: &Insn) -> u64
    ensures value { (ram : Memory) → read (vcpu regs.now ram) (elements.counter insn.now.rep) ≡ Number result }
{
    if insn.rep { regs.get(Reg::Rcx) } else { 1 }
}

/// The address of the element after one, or after elements that have so many bytes.
pub fn next_address(downwards: bool, bytes: u64, at: u64) -> u64
    ensures value { result ≡ elements.next_address downwards bytes at }
{
    if downwards {
        at.wrapping_sub(bytes)
    } else {
        at.wrapping_add(bytes)
    }
}

/// The access of the next element, where one is left that can be moved.
pub fn named_element(regs: &Regs, ram: &Ram, insn: &Insn) -> Option<Access>
    ensures value { let v = vcpu regs.now ram.now in
        option_map One result ≡ event_asked v (elements.element_of insn.now (apart v insn.now.len)) }
    ensures lawful { IfSome result IsLawfulAccess }
{
    if left(regs, insn) == 0 {
        return None;
    }
    let at = regs.get(pointer(insn));
    let size = port_size(insn.width);
    let port = (regs.get(Reg::Rdx) % 0x1_0000) as u16;
    if is_input(insn) {
        if ram.can_write(at, size) {
            Some(Access::In { port, size })
        } else {
            None
        }
    } else {
        match ram.read(at, size) {
            Ok(value) => Some(Access::Out {
                port,
                size,
                value: (match size {
                    1 => value % 0x100,
                    2 => value % 0x1_0000,
                    _ => value % 0x1_0000_0000,
                }) as u32,
            }),
            Err(_) => None,
        }
    }
}

/// Places one element, and goes on where it was the last.
pub fn place_element(regs: &mut Regs, ram: &mut Ram, insn: &Insn, values: &Values)
    requires asked { let v = vcpu regs.old ram.old in
        IsSome (event_asked v (elements.element_of insn.now (apart v insn.now.len))) }
    ensures placed { let v = vcpu regs.old ram.old in
        Moved (vcpu regs.new ram.new) ≡
        step_answered (reply_with values.now) v (elements.element_of insn.now (apart v insn.now.len)) }
{
    let next = following(regs, insn);
    let size = port_size(insn.width);
    let pointer = pointer(insn);
    let at = regs.get(pointer);
    let left = left(regs, insn);
    if is_input(insn) {
        let _ = ram.write(at, size, values.a);
    }
    regs.put_sized(
        pointer,
        Width::B64,
        next_address(regs.flags.df, u64::from(size), at),
    );
    if insn.rep {
        regs.put_sized(Reg::Rcx, Width::B64, left - 1);
    }
    if left == 1 {
        regs.rip = next;
    }
}
