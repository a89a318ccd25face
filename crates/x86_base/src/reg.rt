// The general registers and the operand sizes (APM volume 1, "Registers" and "Operand Sizes and Overrides").
/// A general register, by its number in ModRM, SIB and opcode bytes: RAX is 0, R15 is 15.
#[derive(Clone, Copy, Debug, PartialEq, Eq)]
pub enum Reg {
    Rax,
    Rcx,
    Rdx,
    Rbx,
    Rsp,
    Rbp,
    Rsi,
    Rdi,
    R8,
    R9,
    R10,
    R11,
    R12,
    R13,
    R14,
    R15,
}

/// The size of an operand: 8, 16, 32 or 64 bits.
#[derive(Clone, Copy, Debug, PartialEq, Eq)]
pub enum Width {
    B8,
    B16,
    B32,
    B64,
}

impl Width {
    ghost use Rattle.std.specs.Prelude.{◌≡◌, ◌-◌, ◌^◌, ◌<◌};
    ghost use Rattle.x86_base.specs.Widths.{bits_of, size_of, low};

    /// How many bytes an operand of this width has.
    pub fn bytes(self) -> u8
        ensures value { result ≡ size_of self }
    {
        match self {
            Width::B8 => 1,
            Width::B16 => 2,
            Width::B32 => 4,
            Width::B64 => 8,
        }
    }

    /// The greatest number of this width, all bits of which are set.
    fn greatest(self) -> u64
        ensures { result ≡ 2 ^ bits_of self - 1 }
    {
        match self {
            Width::B8 => 0xFF,
            Width::B16 => 0xFFFF,
            Width::B32 => 0xFFFF_FFFF,
            Width::B64 => u64::MAX,
        }
    }

    /// The low bits of a number at this width.
    #[tactic(auto, using(crate::proofs::Masks::low_masked, crate::proofs::Masks::low_fits))]
    pub fn low(self, value: u64) -> u64
        ensures value { result ≡ low self value }
        ensures fits { result < 2 ^ bits_of self }
    {
        value & self.greatest()
    }
}
