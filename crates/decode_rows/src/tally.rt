// What many byte lists decode to, in one line.
use crate::text::line_of;
use insn_decode::{DecodeFault, decode};
use std::alloc::{AllocError, Global};
use std::fmt;

/// How often each answer came, and a digest of all lines.
#[derive(Clone, Copy)]
pub struct Tally {
    decoded: u64,
    too_long: u64,
    short: u64,
    undecoded: u64,
    digest: Digest,
}

/// The 64-bit FNV-1a hash of what was added.
#[derive(Clone, Copy)]
struct Digest(u64);

impl Digest {
    /// One more byte.
    fn add(self, byte: u8) -> Digest {
        Digest((self.0 ^ u64::from(byte)).wrapping_mul(0x0000_0100_0000_01B3))
    }

    /// A line and its end.
    fn add_line(self, line: &str) -> Digest {
        line.as_bytes()
            .iter()
            .fold(self, |digest, &byte| digest.add(byte))
            .add(b'\n')
    }
}

impl Tally {
    /// No answer yet.
    fn new() -> Tally {
        Tally {
            decoded: 0,
            too_long: 0,
            short: 0,
            undecoded: 0,
            digest: Digest(0xCBF2_9CE4_8422_2325),
        }
    }

    /// Adds what some bytes decode to.
    fn add(&mut self, alloc: Global, bytes: &[u8]) -> Result<(), AllocError> {
        let answer = decode(bytes);
        let count = match answer {
            Ok(_) => &mut self.decoded,
            Err(DecodeFault::TooLong) => &mut self.too_long,
            Err(DecodeFault::Short) => &mut self.short,
            Err(DecodeFault::Undecoded) => &mut self.undecoded,
        };
        *count = count.saturating_add(1);
        self.digest = self.digest.add_line(line_of(alloc, answer)?.as_str());
        Ok(())
    }

    /// Every input of one byte.
    pub fn bytes(alloc: Global) -> Result<Tally, AllocError> {
        let mut tally = Tally::new();
        for byte in 0..=u8::MAX {
            tally.add(alloc, &[byte])?;
        }
        Ok(tally)
    }

    /// Every input of two bytes.
    pub fn pairs(alloc: Global) -> Result<Tally, AllocError> {
        let mut tally = Tally::new();
        for pair in 0..=u16::MAX {
            tally.add(alloc, &pair.to_be_bytes())?;
        }
        Ok(tally)
    }

    /// Every input of 15 times the same byte.
    pub fn repeated(alloc: Global) -> Result<Tally, AllocError> {
        let mut tally = Tally::new();
        for byte in 0..=u8::MAX {
            tally.add(alloc, &[byte; 15])?;
        }
        Ok(tally)
    }
}

impl fmt::Display for Tally {
    fn fmt<W: fmt::Write>(&self, f: &mut fmt::Formatter<W>) -> fmt::Result {
        write!(f, "decoded {} too long {} ", self.decoded, self.too_long)?;
        write!(f, "short {} undecoded {} ", self.short, self.undecoded)?;
        write!(f, "digest {:016x}", self.digest.0)
    }
}
