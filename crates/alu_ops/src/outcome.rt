// Results with the two flags that depend on the operation.
ghost use Rattle.std.specs.Prelude.{◌≡◌};
ghost use Rattle.alu_ops.specs.Number.{IsWidth};

use crate::number::is_top_set;
use x86_base::Flags;

/// A result, and whether it carries and overflows.
#[derive(Clone, Copy, Debug, PartialEq, Eq)]
pub struct Outcome {
    pub value: u64,
    pub carry: bool,
    pub overflow: bool,
}

impl Outcome {
    ghost use Rattle.alu_ops.specs.Outcome.{plain_of, all_set, carry_kept};

    /// A result that neither carries nor overflows.
    pub fn plain(value: u64) -> Outcome
        ensures { result ≡ plain_of value }
    {
        Outcome {
            value,
            carry: false,
            overflow: false,
        }
    }

    /// The result, and the flags after it. The direction flag stays.
    pub fn with_flags<const BITS: u32>(self, old: Flags) -> (u64, Flags)
        requires { IsWidth BITS }
        ensures { result ≡ all_set BITS old self }
    {
        let value = self.value;
        let flags = Flags {
            cf: self.carry,
            pf: (value % 256).count_ones() % 2 == 0,
            zf: value == 0,
            sf: is_top_set::<BITS>(value),
            of: self.overflow,
            ..old
        };
        (value, flags)
    }

    /// The same with the old carry flag.
    pub fn with_carry_kept<const BITS: u32>(self, old: Flags) -> (u64, Flags)
        requires { IsWidth BITS }
        ensures { result ≡ carry_kept BITS old self }
    {
        let kept = Outcome {
            carry: old.cf,
            ..self
        };
        kept.with_flags::<BITS>(old)
    }
}
