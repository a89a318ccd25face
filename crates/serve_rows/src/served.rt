// A served page as lines of text.
use event_table::{Access, Block, Event};
use page_words::{Word, Words};
use std::fmt;

/// A page before and after it was served, the vCPU and the event of the entry that the history has gained, and
/// how many accesses and which output the devices have had.
#[derive(Clone, Copy)]
pub struct Served<'a> {
    pub before: &'a Words,
    pub left: &'a Words,
    pub entry: Option<(u16, &'a Event)>,
    pub accesses: u64,
    pub console: &'a [u8],
}

/// An access, with its numbers in hexadecimal digits.
#[derive(Clone, Copy)]
struct Shown(Access);

impl fmt::Display for Shown {
    fn fmt<W: fmt::Write>(&self, f: &mut fmt::Formatter<W>) -> fmt::Result {
        match self.0 {
            Access::Out { port, size, value } => {
                write!(
                    f,
                    "Out {{ port: {port:x}, size: {size:x}, value: {value:x} }}"
                )
            }
            Access::In { port, size } => write!(f, "In {{ port: {port:x}, size: {size:x} }}"),
            Access::Cpuid { leaf, sub } => write!(f, "Cpuid {{ leaf: {leaf:x}, sub: {sub:x} }}"),
            Access::Rdmsr { msr } => write!(f, "Rdmsr {{ msr: {msr:x} }}"),
            Access::Wrmsr { msr, low, high } => {
                write!(f, "Wrmsr {{ msr: {msr:x}, low: {low:x}, high: {high:x} }}")
            }
            Access::Rdpmc { index } => write!(f, "Rdpmc {{ index: {index:x} }}"),
            Access::Vmmcall { rax } => write!(f, "Vmmcall {{ rax: {rax:x} }}"),
            Access::MmioRead { at, len } => { write!(f, "MmioRead {{ at: {at:x}, len: {len:x} }}") }
            Access::MmioWrite { at, len, value } => {
                write!(
                    f,
                    "MmioWrite {{ at: {at:x}, len: {len:x}, value: {value:x} }}"
                )
            }
            Access::Rdtsc | Access::Rdtscp | Access::Wbinvd => write!(f, "{:?}", self.0),
        }
    }
}

/// A block: its port in hexadecimal digits, and two of these for each byte of an output.
#[derive(Clone, Copy)]
struct ShownBlock<'a>(&'a Block);

impl fmt::Display for ShownBlock<'_> {
    fn fmt<W: fmt::Write>(&self, f: &mut fmt::Formatter<W>) -> fmt::Result {
        let block = self.0;
        write!(
            f,
            "Block {{ port: {:x}, size: {}, input: {}, rep: {}, count: {}, bytes: ",
            block.port, block.size, block.input, block.rep, block.count
        )?;
        write_bytes(f, block.bytes.as_slice())?;
        f.write_str(" }")
    }
}

/// Writes two hexadecimal digits for each byte.
fn write_bytes<W: fmt::Write>(f: &mut fmt::Formatter<W>, bytes: &[u8]) -> fmt::Result {
    for byte in bytes {
        write!(f, "{byte:02x}")?;
    }
    Ok(())
}

impl fmt::Display for Served<'_> {
    fn fmt<W: fmt::Write>(&self, f: &mut fmt::Formatter<W>) -> fmt::Result {
        for number in 0..512 {
            if let Some(word) = Word::new(number)
                && self.left.word(word) != self.before.word(word)
            {
                writeln!(f, "word {number:03} {:016x}", self.left.word(word))?;
            }
        }
        if self.left.msr_word() != self.before.msr_word() {
            writeln!(f, "msr {:016x}", self.left.msr_word())?;
        }
        match self.entry {
            Some((vcpu, Event::One(access))) => writeln!(f, "entry {vcpu} {}", Shown(*access))?,
            Some((vcpu, Event::Many(block))) => writeln!(f, "entry {vcpu} {}", ShownBlock(block))?,
            None => writeln!(f, "no entry")?,
        }
        writeln!(f, "t {}", self.accesses)?;
        if !self.console.is_empty() {
            f.write_str("console ")?;
            write_bytes(f, self.console)?;
            writeln!(f)?;
        }
        writeln!(f, ".")
    }
}
