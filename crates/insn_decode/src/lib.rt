//! Reads one instruction from bytes.
//!
//! `decode` is the definition of a spelling in `x86_base`, read from left to right and exact in its
//! refusals. `laws` has what holds of every spelling and of what any bytes are read as.
#![tactic(auto)]

mod assemble;
mod context;
mod decoder;
mod fault;
pub mod laws;
mod modrm;
mod number;
mod operands;
mod operation;
mod reader;
mod registers;
mod sizes;
mod table;

pub use decoder::{decode, decode_into};
pub use fault::DecodeFault;
