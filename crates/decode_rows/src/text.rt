use insn_decode::DecodeFault;
use std::alloc::{AllocError, Global};
use std::fmt;
use x86_base::{Insn, MemRef, Operand, Reg, Width};

/// What bytes decode to.
#[derive(Clone, Copy)]
struct Answer(Result<Insn, DecodeFault>);

/// A register of an address, or `-`.
#[derive(Clone, Copy)]
struct Part(Option<Reg>);

/// An operand.
#[derive(Clone, Copy)]
struct Shown(Operand);

/// How many bits a width has.
fn bits(width: Width) -> u32 {
    8 * u32::from(width.bytes())
}

impl fmt::Display for Part {
    fn fmt<W: fmt::Write>(&self, f: &mut fmt::Formatter<W>) -> fmt::Result {
        match self.0 {
            Some(reg) => write!(f, "{reg:?}"),
            None => f.write_str("-"),
        }
    }
}

impl fmt::Display for Shown {
    fn fmt<W: fmt::Write>(&self, f: &mut fmt::Formatter<W>) -> fmt::Result {
        match self.0 {
            Operand::Absent => f.write_str("-"),
            Operand::Whole(reg) => write!(f, "whole:{reg:?}"),
            Operand::High(reg) => write!(f, "high:{reg:?}"),
            Operand::Imm(number) => write!(f, "imm:{number:016x}"),
            Operand::Memory(
                MemRef {
                    base,
                    index,
                    scale,
                    disp,
                    from_rip,
                },
            ) => {
                let (base, index) = (Part(base), Part(index));
                let from = if from_rip { "rip" } else { "abs" };
                write!(f, "mem:{base}:{index}:{scale}:{disp:016x}:{from}")
            }
        }
    }
}

impl fmt::Display for Answer {
    fn fmt<W: fmt::Write>(&self, f: &mut fmt::Formatter<W>) -> fmt::Result {
        let insn = match self.0 {
            Ok(insn) => insn,
            Err(fault) => return write!(f, "{fault:?}"),
        };
        write!(f, "{:?} {} ", insn.op, bits(insn.width))?;
        write!(f, "{} {} ", bits(insn.source_width), Shown(insn.dst))?;
        write!(f, "{} {} {}", Shown(insn.src), insn.rep, insn.len)
    }
}

/// The operation, both widths, both operands, whether F3 stands before it and the length; or why
/// there is no instruction. All in lower case.
pub fn line_of(alloc: Global, answer: Result<Insn, DecodeFault>) -> Result<String, AllocError> {
    format!(in alloc; "{}", Answer(answer))?
        .as_str()
        .to_ascii_lowercase(alloc)
}
