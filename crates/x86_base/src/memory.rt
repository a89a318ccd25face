// Operands in memory and their addresses (APM volume 1, "Effective Addresses").
ghost use Rattle.std.specs.Prelude.{◌≡◌};
ghost use Rattle.x86_base.specs.Registers.{part_of, address_of};

use crate::reg::Reg;
use crate::regs::Regs;

/// An operand in memory: a base, an index times a scale of 1, 2, 4 or 8, and a displacement that is
/// sign-extended modulo 2^64. The scale is 1 where there is no index. With `from_rip` the address
/// counts from the following instruction.
#[derive(Clone, Copy, Debug, PartialEq, Eq)]
pub struct MemRef {
    pub base: Option<Reg>,
    pub index: Option<Reg>,
    pub scale: u8,
    pub disp: u64,
    pub from_rip: bool,
}

/// What a register adds to an address: its value, or 0 where there is none.
fn part(regs: &Regs, reg: Option<Reg>) -> u64
    ensures { result ≡ part_of regs.now reg }
{
    match reg {
        Some(reg) => regs.get(reg),
        None => 0,
    }
}

/// The effective address of an operand, modulo 2^64; `next` is the following instruction's address.
pub fn address(mem: &MemRef, regs: &Regs, next: u64) -> u64
    ensures value { result ≡ address_of mem.now regs.now next }
{
    let base = part(regs, mem.base) as u128;
    let index = part(regs, mem.index) as u128 * mem.scale as u128;
    let from = if mem.from_rip { next as u128 } else { 0 };
    ((base + index + mem.disp as u128 + from) % 0x1_0000_0000_0000_0000) as u64
}

#[cfg(test)]
mod tests {
    use super::*;
    use crate::flags::Flags;

    #[test]
    fn addresses(rt: HostRuntime) {
        let mut regs = Regs {
            gpr: [0; 16],
            rip: 0x2000,
            flags: Flags::from_word(2),
        };
        regs.gpr[4] = 0x1000;
        regs.gpr[7] = 4;
        let back = 0xFFFF_FFFF_FFFF_FFF8;
        let cases = [
            (Some(Reg::Rsp), None, 1, 0, false, 0x1000),
            (Some(Reg::Rsp), Some(Reg::Rdi), 4, back, false, 0x1008),
            (None, Some(Reg::Rdi), 8, 0x500, false, 0x520),
            (None, None, 1, 0x10, true, 0x2015),
            (None, None, 1, back, false, back),
            (
                Some(Reg::Rdi),
                Some(Reg::Rsp),
                1,
                0xFFFF_FFFF_FFFF_F000,
                false,
                4,
            ),
        ];
        for (base, index, scale, disp, from_rip, want) in cases {
            let mem = MemRef {
                base,
                index,
                scale,
                disp,
                from_rip,
            };
            assert_eq!(rt; address(&mem, &regs, 0x2005), want, "{mem:?}");
        }
    }
}
