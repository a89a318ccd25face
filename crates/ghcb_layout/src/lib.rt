//! Where the values of a GHCB page stand (AMD 56421, "GHCB Layout").
//!
//! A page has 512 words of eight bytes, the lowest byte first. Some words have names and a bit in the
//! valid bitmap, which says which words a guest or its hypervisor has filled in. The last word has the
//! protocol version and the usage of the page.
#![tactic(auto)]

mod address;
mod bitmap;
mod bytes;
mod field;
mod protocol;
#[cfg(test)]
mod tests;

pub use address::ghcb_of;
pub use bitmap::{Bitmap, bit_if};
pub use bytes::{page_from_bytes, page_to_bytes};
pub use field::{Field, NotAField, bit_of, field_at, name, offset, word_of};
pub use protocol::{protocol_of, protocol_word};
