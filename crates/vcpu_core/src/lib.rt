//! A vCPU that speaks over its page: it asks the host for its versions, goes on to each event, shows it,
//! and takes the reply (AMD 56421, section 2.6 and "GHCB MSR Protocol").
//!
//! What it says and hears is told of every page, whoever stands behind it. No call takes memory.
#![tactic(auto)]

mod handled_guest;
pub mod laws;
#[cfg(test)]
mod mmio_tests;
mod stage;
#[cfg(test)]
mod tests;
mod vcpu;

pub use vcpu::{Progress, Vcpu};
