// Moves that reach the page of devices (AMD 56421, section 4, MMIO Access).
ghost use Rattle.std.specs.Prelude.{◌≡◌, ◌<◌, ◌^◌, option_map, IfSome, IsSome, length};
ghost use Rattle.x86_base.specs.Numbers.{extended};
ghost use Rattle.x86_base.specs.Widths.{bits_of};
ghost use Rattle.event_table.specs.Lawful.{IsLawfulAccess};
ghost use Rattle.event_table.specs.Moves.{extension, is_device as is_device_in, is_move as is_move_op, move_of};
ghost use Rattle.event_table.specs.Places.{address_in as address_of, is_readable as is_readable_in};
ghost use Rattle.event_table.specs.Places.{is_writable as is_writable_in, vcpu};
ghost use Rattle.event_table.specs.Plan.{Ends, Moved, apart, event_asked, reply_with, step_answered};
ghost use Rattle.event_table.specs.declared.end.End.TheVariants.{Undecoded};
ghost use Rattle.event_table.specs.declared.event.Event.TheVariants.{One};

use crate::access::{Access, Values};
use crate::places::{Place, find, following, load, store};
use image_file::Ram;
use x86_base::{Insn, Op, Regs, Width};

/// The first address of the page of devices.
pub const PAGE_START: u64 = 0xFEB0_0000;

/// The address behind the last of the page of devices.
const PAGE_END: u64 = 0xFEB0_1000;

/// Whether an instruction may reach the page of devices: MOV, MOVZX and MOVSX.
#[inline(always)]
pub fn is_move(insn: &Insn) -> bool
    ensures value { result ≡ is_move_op insn.now.op }
{
    matches!(insn.op, Op::Mov | Op::Movzx | Op::Movsx)
}

/// Whether all bytes of a place lie in the page of devices, and not in RAM.
fn is_device(ram: &Ram, place: Place) -> bool
    ensures value { result ≡ is_device_in (length ram.now.bytes) place }
{
    match place {
        Place::Bytes(at, width) => {
            let len = width.bytes();
            !ram.has(at, len)
                && (PAGE_START..=PAGE_END).contains(&at)
                && u64::from(len) <= PAGE_END - at
        }
        _ => false,
    }
}

/// Whether a place can be read.
fn is_readable(ram: &Ram, place: Place) -> bool
    ensures value { result ≡ is_readable_in (length ram.now.bytes) place }
{
    match place {
        Place::Bytes(at, width) => ram.has(at, width.bytes()),
        _ => true,
    }
}

/// Whether a place can be written.
fn is_writable(ram: &Ram, place: Place) -> bool
    ensures value { result ≡ is_writable_in (length ram.now.bytes) ram.now.code place }
{
    match place {
        Place::Bytes(at, width) => ram.can_write(at, width.bytes()),
        _ => true,
    }
}

/// The address of a place in memory; 0 of any other.
fn address_in(place: Place) -> u64
    ensures value { result ≡ address_of place }
{
    match place {
        Place::Bytes(at, _) => at,
        _ => 0,
    }
}

/// A number of a width, sign-extended to 64 bits.
pub fn sign_extended(width: Width, value: u64) -> u64
    requires fits { value < 2 ^ bits_of width }
    ensures value { result ≡ extended (bits_of width) value }
{
    match width {
        Width::B8 if value >= 0x80 => value + 0xFFFF_FFFF_FFFF_FF00,
        Width::B16 if value >= 0x8000 => value + 0xFFFF_FFFF_FFFF_0000,
        Width::B32 if value >= 0x8000_0000 => value + 0xFFFF_FFFF_0000_0000,
        _ => value,
    }
}

/// What goes to the destination of a move from the page of devices: the low bits of a value at the
/// source's width, sign-extended by MOVSX and else zero-extended (APM volume 3, MOV, MOVSX, MOVZX).
pub fn extend(insn: &Insn, value: u64) -> u64
    ensures value { result ≡ extension insn.now value }
{
    let value = insn.source_width.low(value);
    match insn.op {
        Op::Movsx => sign_extended(insn.source_width, value),
        _ => value,
    }
}

/// The access of a move that reaches the page of devices; any other asks nothing.
pub fn named_move(regs: &Regs, ram: &Ram, insn: &Insn) -> Option<Access>
    ensures value { let v = vcpu regs.now ram.now in
        option_map One result ≡ event_asked v (move_of insn.now (apart v insn.now.len) (Ends Undecoded)) }
    ensures lawful { IfSome result IsLawfulAccess }
{
    let dst = find(regs, ram, insn, insn.width, &insn.dst);
    let src = find(regs, ram, insn, insn.source_width, &insn.src);
    if is_device(ram, dst)
        && let Ok(value) = load(regs, ram, src)
    {
        return Some(Access::MmioWrite {
            at: address_in(dst),
            len: insn.width.bytes(),
            value: insn.width.low(value),
        });
    }
    if is_device(ram, src) && is_writable(ram, dst) {
        return Some(Access::MmioRead {
            at: address_in(src),
            len: insn.source_width.bytes(),
        });
    }
    None
}

/// Takes the value of a move from the page of devices to its destination, extended, and goes on.
pub fn place_move(regs: &mut Regs, ram: &mut Ram, insn: &Insn, values: &Values)
    requires asked { let v = vcpu regs.old ram.old in
        IsSome (event_asked v (move_of insn.now (apart v insn.now.len) (Ends Undecoded))) }
    ensures placed { let v = vcpu regs.old ram.old in
        Moved (vcpu regs.new ram.new) ≡
        step_answered (reply_with values.now) v (move_of insn.now (apart v insn.now.len) (Ends Undecoded)) }
{
    let next = following(regs, insn);
    let dst = find(regs, ram, insn, insn.width, &insn.dst);
    let src = find(regs, ram, insn, insn.source_width, &insn.src);
    let shows = is_device(ram, dst) && is_readable(ram, src);
    if !shows {
        let _ = store(regs, ram, dst, extend(insn, values.a));
    }
    regs.rip = next;
}
