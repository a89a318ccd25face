// The reply to a block, placed.
ghost use Rattle.std.specs.Prelude.{◌≡◌, ◌≤◌, Some, length};
ghost use Rattle.event_table.specs.declared.event.Event.TheVariants.{Many};
ghost use Rattle.event_table.specs.Events.{placed_by};
ghost use Rattle.event_table.specs.Elements.{counter, is_input as is_input_op, numbers_in, pointer as pointer_of};
ghost use Rattle.x86_base.specs.Registers.{whole};
ghost use Rattle.event_table.specs.Places.{as_number, read, vcpu};
ghost use Rattle.image_file.specs.Ram.{Memory};
ghost use Rattle.event_table.specs.Plan.{Moved};
ghost use Rattle.string_io.specs.Blocks.{bytes_reply, next_block, past, ram_with};

use crate::numbers::number;
use event_table::{Block, following, left, next_address, pointer, port_size};
use image_file::Ram;
use x86_base::{Insn, Reg, Regs, Width};

/// A vCPU has sixteen registers.
fn sixteen(regs: &Regs)
    ensures full { length regs.now.gpr ≡ 16 }
{
    let _first = regs.gpr[0];
}

/// Moves the pointer and the count past so many elements, and goes on where none is left.
fn pass(regs: &mut Regs, insn: &Insn, count: u16)
    requires enough { (ram : Memory) → count ≤ as_number (read (vcpu regs.old ram) (counter insn.now.rep)) }
    ensures passed { (ram : Memory) → vcpu regs.new ram ≡ past insn.now count (vcpu regs.old ram) }
{
    let next = following(regs, insn);
    let pointer = pointer(insn);
    let left = left(regs, insn);
    let count = u64::from(count);
    let bytes = count * u64::from(port_size(insn.width));
    let at = next_address(regs.flags.df, bytes, regs.get(pointer));
    regs.put_sized(pointer, Width::B64, at);
    if insn.rep {
        regs.put_sized(Reg::Rcx, Width::B64, left - count);
    }
    if left == count {
        regs.rip = next;
    }
}

/// Writes the elements of an input where they go, one after another; an output has none to write.
fn write_elements(regs: &Regs, ram: &mut Ram, insn: &Insn, block: &Block, bytes: &[u8])
    requires block { next_block insn.now (vcpu regs.now ram.old) ≡ Some (Many block.now) }
    ensures written { let at = whole (pointer_of (is_input_op insn.now.op)) regs.now in
        let values = numbers_in block.now.size block.now.count bytes.now in
        ram.new ≡ ram_with (is_input_op insn.now.op) block.now.size regs.now.flags.df values at ram.old }
{
    if !block.input {
        return;
    }
    let mut at = regs.get(pointer(insn));
    let mut from = 0;
    for _ in 0..block.count {
        let value = number(bytes, from, block.size);
        let _ = ram.write(at, block.size, value);
        at = next_address(regs.flags.df, u64::from(block.size), at);
        from += usize::from(block.size);
    }
}

/// Places the reply to the block that a string instruction asks, one element after another: the bytes that
/// come back go to RAM for an input, and are nothing for an output. Where bytes are missing they are 0.
pub fn place_block(regs: &mut Regs, ram: &mut Ram, insn: &Insn, block: &Block, bytes: &[u8])
    requires block { next_block insn.now (vcpu regs.old ram.old) ≡ Some (Many block.now) }
    ensures placed { Moved (vcpu regs.new ram.new) ≡
        placed_by (bytes_reply bytes.now) insn.now (vcpu regs.old ram.old) }
{
    sixteen(regs);
    write_elements(regs, ram, insn, block, bytes);
    pass(regs, insn, block.count);
}
