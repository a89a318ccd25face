// The next block of a string instruction.
ghost use Rattle.std.specs.Prelude.{◌≡◌, ◌+◌, ◌-◌, ◌*◌, ◌/◌, ◌^◌, ◌<◌, ◌≤◌, ◌++◌, [], length, min, option_map, slice_index, EachIndex, IfSome};
ghost use Rattle.std.specs.Prelude.{true, false, if◌then◌else◌};
ghost use Rattle.event_table.specs.declared.event.Event.TheVariants.{Many};
ghost use Rattle.event_table.specs.Elements.{bytes_of, element_width, is_input as is_input_op, shown_of};
ghost use Rattle.event_table.specs.Lawful.{IsLawfulBlock, IsSize};
ghost use Rattle.event_table.specs.Places.{vcpu};
ghost use Rattle.x86_base.specs.Widths.{size_of};
ghost use Rattle.string_io.specs.Blocks.{bytes_at, elements_from, next_block};

use event_table::{Block, Bytes, is_input, is_string, left, next_address, pointer, port_size};
use image_file::Ram;
use x86_base::{Insn, Reg, Regs};

/// Appends the low bytes of a number, the lowest first; those above the eighth are 0.
pub fn push_number(bytes: &mut Bytes, len: u8, value: u64)
    requires room { length bytes.old + len ≤ 2032 }
    ensures appended { bytes.new ≡ bytes.old ++ bytes_of len value }
{
    if len == 1 {
        bytes.push((value % 0x100) as u8);
    } else if len <= 8 {
        bytes.extend_from_slice(&value.to_le_bytes()[..usize::from(len)]);
    } else {
        push_in_turn(bytes, len, value);
    }
}

/// Appends the low bytes of a number, one by one.
fn push_in_turn(bytes: &mut Bytes, len: u8, value: u64)
    requires room { length bytes.old + len ≤ 2032 }
    ensures appended { bytes.new ≡ bytes.old ++ bytes_of len value }
{
    let mut rest = value;
    for i in 0..len {
        bytes.push((rest % 0x100) as u8);
        rest /= 0x100;
    }
}

/// The number of elements from an address upwards, at most so many, that lie wholly in RAM.
fn count_upwards(regs: &Regs, ram: &Ram, insn: &Insn, most: u64, at: u64) -> u64
    requires upwards { regs.now.flags.df ≡ false }
    ensures count { result ≡ length (elements_from false insn.now (vcpu regs.now ram.now) most at) }
    ensures inside { result * size_of (element_width insn.now) ≤ length ram.now.bytes - at }
    ensures small { length ram.now.bytes < 2 ^ 63 }
    ensures few { result ≤ most }
{
    let size = u64::from(port_size(insn.width));
    most.min(ram.size().saturating_sub(at) / size)
}

/// The elements from an address on, one by one, as [`inputs`] counts them.
fn inputs_in_turn(regs: &Regs, ram: &Ram, insn: &Insn, most: u64, at: u64) -> u64
    ensures count { result ≡ length (elements_from true insn.now (vcpu regs.now ram.now) most at) }
    ensures few { result ≤ most }
{
    let size = port_size(insn.width);
    let mut element = at;
    for n in 0..most {
        if !ram.can_write(element, size) {
            return n;
        }
        element = next_address(regs.flags.df, u64::from(size), element);
    }
    most
}

/// The number of elements from an address on, at most so many, before the first that can't be written:
/// upwards each has no code byte where the first has none.
fn inputs(regs: &Regs, ram: &Ram, insn: &Insn, most: u64, at: u64) -> u64
    ensures count { result ≡ length (elements_from true insn.now (vcpu regs.now ram.now) most at) }
    ensures few { result ≤ most }
{
    if regs.flags.df {
        inputs_in_turn(regs, ram, insn, most, at)
    } else if at < ram.code_len() {
        0
    } else {
        count_upwards(regs, ram, insn, most, at)
    }
}

/// Each byte is below 2^8.
fn each_fits(bytes: &[u8])
    ensures fits { EachIndex bytes.now (λ k. slice_index bytes.now k < 2 ^ 8) }
{}

/// The elements from an address on, at most so many, before the first that isn't wholly in RAM: how many
/// they are, and their bytes. Upwards these stand in RAM one after another.
fn outputs(regs: &Regs, ram: &Ram, insn: &Insn, most: u64, at: u64, bytes: &mut Bytes) -> u64
    requires empty { bytes.old ≡ [] }
    requires room { most * size_of (element_width insn.now) ≤ 2032 }
    ensures count { result ≡ length (elements_from false insn.now (vcpu regs.now ram.now) most at) }
    ensures data { let v = vcpu regs.now ram.now in
        bytes.new ≡ bytes_at insn.now v (elements_from false insn.now v most at) }
    ensures full { length bytes.new ≡ result * size_of (element_width insn.now) }
    ensures few { result ≤ most }
{
    let size = port_size(insn.width);
    if !regs.flags.df {
        let count = count_upwards(regs, ram, insn, most, at);
        let piece = ram.bytes_at(at.min(ram.size()), count * u64::from(size));
        each_fits(piece);
        bytes.extend_from_slice(piece);
        return count;
    }
    let mut element = at;
    for n in 0..most {
        match ram.read(element, size) {
            Ok(value) => push_number(bytes, size, value),
            Err(_) => return n,
        }
        element = next_address(regs.flags.df, u64::from(size), element);
    }
    most
}

/// How many elements a block has at most.
fn most(left: u64, size: u8) -> u64
    requires size { IsSize size }
    ensures value { result ≡ min left (2032 / size) }
    ensures room { result * size ≤ 2032 }
{
    left.min(2032 / u64::from(size))
}

/// The elements of a block from an address on, at most so many: how many they are, and the bytes of an
/// output.
fn elements(regs: &Regs, ram: &Ram, insn: &Insn, most: u64, at: u64, bytes: &mut Bytes) -> u64
    requires empty { bytes.old ≡ [] }
    requires room { most * size_of (element_width insn.now) ≤ 2032 }
    ensures count { result ≡
        length (elements_from (is_input_op insn.now.op) insn.now (vcpu regs.now ram.now) most at) }
    ensures data { let v = vcpu regs.now ram.now in
        let places = elements_from (is_input_op insn.now.op) insn.now v most at in
        bytes.new ≡ bytes_at insn.now v (shown_of insn.now places) }
    ensures full { length bytes.new ≡
        (if is_input_op insn.now.op then 0 else result * size_of (element_width insn.now)) }
    ensures few { result ≤ most }
{
    if is_input(insn) {
        inputs(regs, ram, insn, most, at)
    } else {
        outputs(regs, ram, insn, most, at, bytes)
    }
}

/// The next block of a string instruction: none exactly where it is no string instruction, REP finds RCX
/// 0, or the first element can't be moved.
pub fn block(regs: &Regs, ram: &Ram, insn: &Insn) -> Option<Block>
    ensures value { option_map Many result ≡ next_block insn.now (vcpu regs.now ram.now) }
    ensures lawful { IfSome result IsLawfulBlock }
{
    let left = left(regs, insn);
    if !is_string(insn) || left == 0 {
        return None;
    }
    let size = port_size(insn.width);
    let at = regs.get(pointer(insn));
    let most = most(left, size);
    let mut bytes = Bytes::new();
    let count = elements(regs, ram, insn, most, at, &mut bytes);
    if count == 0 {
        return None;
    }
    Some(Block {
        port: (regs.get(Reg::Rdx) % 0x1_0000) as u16,
        size,
        input: is_input(insn),
        rep: insn.rep,
        count: count as u16,
        bytes,
    })
}
