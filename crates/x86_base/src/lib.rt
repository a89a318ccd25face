//! The registers and instructions of a 64-bit x86 processor, and which bytes spell which instruction.
//!
//! `specs/Spelling.antt` is the definition of a spelling, over the opcode table of `specs/Table.antt`.
#![tactic(auto)]

mod flags;
mod insn;
mod memory;
mod op;
mod reg;
mod regs;
mod row;
mod stop;

pub use flags::Flags;
pub use insn::{Insn, Operand};
pub use memory::{MemRef, address};
pub use op::Op;
pub use reg::{Reg, Width};
pub use regs::Regs;
pub use row::{Context, Form, Imm, Ops, Row, RowWidth};
pub use stop::Stop;
