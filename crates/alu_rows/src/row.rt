use alu_ops::{AluOp, alu_at};
use std::fmt;
use x86_base::{Flags, Width};

/// An operation of two numbers at a width, and the flags before it.
#[derive(Clone, Copy)]
pub struct Row {
    width: Width,
    op: AluOp,
    a: u64,
    b: u64,
    flags: Flags,
}

/// A result, and the flags after it.
#[derive(Clone, Copy)]
pub struct Answer {
    value: u64,
    flags: Flags,
}

impl Row {
    /// The row that a line holds, if it does.
    pub fn parse(line: &str) -> Option<Row> {
        let mut words = line.split(' ');
        Some(Row {
            width: width_of(words.next()?)?,
            op: op_of(words.next()?)?,
            a: number_of(words.next()?)?,
            b: number_of(words.next()?)?,
            flags: Flags::from_word(number_of(words.next()?)?),
        })
    }

    /// What the operation gives for the low bits of the numbers.
    pub fn answer(&self) -> Answer {
        let a = self.width.low(self.a);
        let b = self.width.low(self.b);
        let (value, flags) = alu_at(self.width, self.op, a, b, self.flags);
        Answer { value, flags }
    }
}

impl fmt::Display for Answer {
    fn fmt<W: fmt::Write>(&self, f: &mut fmt::Formatter<W>) -> fmt::Result {
        write!(f, "{:x} {:x}", self.value, self.flags.to_word())
    }
}

/// The number of hexadecimal digits.
fn number_of(word: &str) -> Option<u64> {
    u64::from_str_radix(word, 16).ok()
}

/// The width of so many bits.
fn width_of(word: &str) -> Option<Width> {
    match word {
        "8" => Some(Width::B8),
        "16" => Some(Width::B16),
        "32" => Some(Width::B32),
        "64" => Some(Width::B64),
        _ => None,
    }
}

/// The operation of a name.
fn op_of(word: &str) -> Option<AluOp> {
    Some(match word {
        "add" => AluOp::Add,
        "or" => AluOp::Or,
        "adc" => AluOp::Adc,
        "sbb" => AluOp::Sbb,
        "and" => AluOp::And,
        "sub" => AluOp::Sub,
        "xor" => AluOp::Xor,
        "cmp" => AluOp::Cmp,
        "test" => AluOp::Test,
        "inc" => AluOp::Inc,
        "dec" => AluOp::Dec,
        "neg" => AluOp::Neg,
        "not" => AluOp::Not,
        "shl" => AluOp::Shl,
        "shr" => AluOp::Shr,
        "sar" => AluOp::Sar,
        "imul" => AluOp::Imul,
        _ => return None,
    })
}
