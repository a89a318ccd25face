//! Results and flags of the arithmetic and logic of a 64-bit x86 processor.
//!
//! [`alu`] is the table of operations at a width of 8, 16, 32 or 64 bits, [`alu_at`] the same at a
//! width that is known when it runs, and [`holds`] says whether the flags meet a condition.
//! `specs/Table.antt` is the definition, in whole numbers.
#![tactic(auto)]

/// Tables of the bodies: a number for each width, an outcome for each operation, and a call at each
/// width.
macro_rules! table {
    (width $bits:ident, $($n:literal => $value:literal),*; $widest:literal) => {
        match $bits {
            $($n => $value,)*
            _ => $widest,
        }
    };
    (rows $op:ident, $($name:ident => $row:expr),* $(,)?) => {
        match $op {
            $(AluOp::$name => $row,)*
        }
    };
    (call $width:ident, $($name:ident => $bits:literal),*; $call:ident $arguments:tt) => {
        match $width {
            $(Width::$name => $call::<$bits> $arguments,)*
        }
    };
}

mod arithmetic;
mod condition;
mod number;
mod op;
mod outcome;
mod shift;
mod unit;

pub use condition::holds;
pub use op::AluOp;
pub use unit::{alu, alu_at};
