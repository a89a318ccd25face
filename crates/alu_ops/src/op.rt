/// An operation of one or two numbers (APM volume 3, chapter 3). `Cmp` gives the difference and
/// `Test` the conjunction, though their instructions don't write it.
#[derive(Clone, Copy, Debug, PartialEq, Eq, Hash)]
pub enum AluOp {
    Add,
    Or,
    Adc,
    Sbb,
    And,
    Sub,
    Xor,
    Cmp,
    Test,
    Inc,
    Dec,
    Neg,
    Not,
    Shl,
    Shr,
    Sar,
    Imul,
}
