//! The words that a guest and its hypervisor share, in print.
//!
//! A word or a page is read from hexadecimal digits, and told in lines of text. No call takes memory:
//! a text lies in the value itself.
#![tactic(auto)]

mod digits;
mod info;
mod msr;
mod page;
#[cfg(test)]
mod tests;
mod text;

pub use digits::{page_from_hex, word_from_hex};
pub use info::info_text;
pub use msr::msr_text;
pub use page::page_text;
pub use text::Text;
