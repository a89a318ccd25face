ghost use Rattle.std.specs.Prelude.{◌≡◌, ℕ, ◌<◌, ◌^◌, bit_and};
ghost use Rattle.x86_base.specs.Registers.{merged, whole, put, put_high};

use crate::flags::Flags;
use crate::reg::{Reg, Width};

/// The sixteen general registers by their numbers, the instruction pointer and the flags.
#[derive(Clone, Copy, Debug, PartialEq, Eq)]
pub struct Regs {
    pub gpr: [u64; 16],
    pub rip: u64,
    pub flags: Flags,
}

/// The bits of a register that a write at a width keeps: those that stand in it after a write of 0.
#[tactic(auto, using(crate::proofs::Masks::kept_8, crate::proofs::Masks::kept_16, crate::proofs::Masks::kept_none))]
fn kept_bits(width: Width) -> u64
    ensures { (old : ℕ) → old < 2 ^ 64 → bit_and old result ≡ merged width old 0 }
{
    match width {
        Width::B8 => 0xFFFF_FFFF_FFFF_FF00,
        Width::B16 => 0xFFFF_FFFF_FFFF_0000,
        Width::B32 => 0,
        Width::B64 => 0,
    }
}

/// What a register holds where it held `old` and the low bits of `value` are written at a width.
#[tactic(auto, using(crate::proofs::Masks::merged_masked))]
fn merge(width: Width, old: u64, value: u64) -> u64
    ensures { result ≡ merged width old value }
{
    (old & kept_bits(width)) | width.low(value)
}

impl Regs {
    /// All 64 bits of a register.
    pub fn get(&self, reg: Reg) -> u64
        ensures value { result ≡ whole reg self.now }
    {
        self.gpr[reg as usize]
    }

    /// Writes the low bits of `value` to a register. A write of 8 or 16 bits keeps the rest of the
    /// register, one of 32 bits clears bits 63:32 (APM volume 1, section 3.1.2).
    /// Every other register, RIP and the flags stay.
    pub fn put_sized(&mut self, reg: Reg, width: Width, value: u64)
        ensures change { self.new ≡ put reg width value self.old }
    {
        self.gpr[reg as usize] = merge(width, self.get(reg), value);
    }

    /// Writes the low 32 bits of `value` to a register and clears its bits 63:32.
    /// Every other register, RIP and the flags stay.
    pub fn place32(&mut self, reg: Reg, value: u64)
        ensures change { self.new ≡ put reg Width.B32 value self.old }
    {
        self.put_sized(reg, Width::B32, value);
    }

    /// Writes the low 8 bits of `value` to bits 15:8 of a register, as AH, CH, DH and BH are written.
    /// The register's other bits, every other register, RIP and the flags stay.
    pub fn put_high(&mut self, reg: Reg, value: u64)
        ensures change { self.new ≡ put_high reg value self.old }
    {
        let old = self.get(reg);
        self.gpr[reg as usize] = old / 0x1_0000 * 0x1_0000 + value % 0x100 * 0x100 + old % 0x100;
    }
}

#[cfg(test)]
mod tests {
    use super::*;

    #[test]
    fn writes(rt: HostRuntime) {
        let old = 0x1122_3344_5566_7788;
        let value = 0xFFFF_FFFF_FFFF_FF41;
        let cases = [
            (Width::B8, 0x1122_3344_5566_7741),
            (Width::B16, 0x1122_3344_5566_FF41),
            (Width::B32, 0x0000_0000_FFFF_FF41),
            (Width::B64, 0xFFFF_FFFF_FFFF_FF41),
        ];
        for (width, want) in cases {
            let mut regs = Regs {
                gpr: [old; 16],
                rip: 7,
                flags: Flags::from_word(2),
            };
            regs.put_sized(Reg::R9, width, value);
            assert_eq!(rt; regs.get(Reg::R9), want, "{width:?}");
            assert_eq!(rt; regs.get(Reg::R8), old);
            regs.place32(Reg::R9, old);
            assert_eq!(rt; regs.get(Reg::R9), 0x5566_7788);
            regs.put_high(Reg::Rbx, value);
            assert_eq!(rt; regs.get(Reg::Rbx), 0x1122_3344_5566_4188);
            assert_eq!(rt; regs.rip, 7);
        }
    }
}
