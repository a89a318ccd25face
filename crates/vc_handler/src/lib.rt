//! The #VC handler of a guest: how an event is shown on the page, and how its reply is taken
//! (AMD 56421, section 2.6 and "GHCB Layout").
//!
//! Which words an event shows, and which come back, is its row of the event table alone. No call takes
//! memory.
//!
//! A vCPU knows which event its instruction asks, so it shows the event with no #VC code: [`Vc::begin`] is for
//! a caller to whom a #VC is delivered with its code, and no program here calls it.
#![tactic(auto)]

mod accept;
mod handler;
pub mod laws;
#[cfg(test)]
mod mmio_tests;
#[cfg(test)]
mod tests;
mod wire;

pub use accept::{Answer, empty_reply};
pub use handler::{Unsupported, Vc};
