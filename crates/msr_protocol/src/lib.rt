//! The words of the GHCB MSR, 0xC0010130 (AMD 56421, "GHCB MSR Protocol").
//!
//! Bits 11:0 of a word say which message it is, and bits 63:12 hold the message's parts. `read` and
//! `write` are inverse: a word is read as a message exactly where it is that message's word.
#![tactic(auto)]

mod msr_word;
mod reading;
#[cfg(test)]
mod tests;
mod writing;

pub use msr_word::{BadMsr, MsrWord};
pub use reading::read;
pub use writing::write;
