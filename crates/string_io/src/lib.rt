//! Blocks of string I/O: elements that are shown and answered together (AMD 56421, section 4, IOIO_PROT).
//!
//! [`block`] gathers the next block of a string instruction and [`place_block`] places its reply; its bytes
//! pass in the shared buffer of a page by [`show_block`] and [`accept_block`]. That a block is its elements,
//! one after another, is the law of [`blocks_are_elements`].
#![tactic(auto)]

mod asking;
mod buffer;
mod laws;
mod numbers;
mod placing;
#[cfg(test)]
mod tests;

pub use asking::{block, push_number};
pub use buffer::{accept_block, show_block, store_buffer};
pub use laws::blocks_are_elements;
pub use placing::place_block;
