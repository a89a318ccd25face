// The flags (APM volume 1, section 3.1.4).
ghost use Rattle.std.specs.Prelude.{◌≡◌, ◌<◌, if◌then◌else◌};
ghost use Rattle.x86_base.specs.FlagsWord.{bit_at, flags_of, flags_word};

/// The carry, parity, zero, sign, direction and overflow flags.
#[derive(Clone, Copy, Debug, PartialEq, Eq)]
pub struct Flags {
    pub cf: bool,
    pub pf: bool,
    pub zf: bool,
    pub sf: bool,
    pub df: bool,
    pub of: bool,
}

/// Whether bit `index` of a flags word is set.
fn is_set(word: u64, index: u32) -> bool
    requires { index < 64 }
    ensures { result ≡ bit_at word index }
{
    (word >> index) % 2 == 1
}

/// The value of a bit: `mask` where the flag is set, else 0.
fn masked(flag: bool, mask: u64) -> u64
    ensures { result ≡ (if flag then mask else 0) }
{
    if flag { mask } else { 0 }
}

impl Flags {
    /// The flags word: bit 1, which always reads 1, and bits 0, 2, 6, 7, 10 and 11 by the six flags
    /// (APM volume 2, section 3.1.6).
    pub fn to_word(&self) -> u64
        ensures value { result ≡ flags_word self.now }
    {
        2 + masked(self.cf, 1 << 0)
            + masked(self.pf, 1 << 2)
            + masked(self.zf, 1 << 6)
            + masked(self.sf, 1 << 7)
            + masked(self.df, 1 << 10)
            + masked(self.of, 1 << 11)
    }

    /// The six flags of a flags word; its other bits are not looked at.
    pub fn from_word(word: u64) -> Flags
        ensures value { result ≡ flags_of word }
    {
        Flags {
            cf: is_set(word, 0),
            pf: is_set(word, 2),
            zf: is_set(word, 6),
            sf: is_set(word, 7),
            df: is_set(word, 10),
            of: is_set(word, 11),
        }
    }
}

#[cfg(test)]
mod tests {
    use super::*;

    #[test]
    fn words(rt: HostRuntime) {
        // A word, and the word of its six flags.
        let cases = [
            (0, 2),
            (0x1_0202, 2),
            (0x0001, 0x0003),
            (0x0004, 0x0006),
            (0x0040, 0x0042),
            (0x0080, 0x0082),
            (0x0400, 0x0402),
            (0x0800, 0x0802),
            (u64::MAX, 0x0CC7),
        ];
        for (word, want) in cases {
            assert_eq!(rt; Flags::from_word(word).to_word(), want, "word {word:x}");
        }
        assert!(rt; Flags::from_word(0x40).zf);
        assert!(rt; Flags::from_word(0x800).of);
    }
}
