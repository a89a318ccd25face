//! Runs the vCPUs of an image over one host, with a worker for each, in a thread of its own where one can be made.
//!
//! A worker takes each exit of its vCPU by a turn of the host's lock, behind a gate of the caller's. What it knows
//! of its own vCPU alone is what it hands up: at which numbers of the host's history its entries stand, and where its
//! vCPU came to with them (`specs/Working.antt`). The passes are joined, and of all that the order of the history
//! has a plain run (`specs/Ran.antt`). That workers run beside each other no clause says; nothing is promised of
//! waiting.
#![tactic(auto)]

mod close;
mod deal;
mod gate;
#[cfg(test)]
mod gate_tests;
mod gather;
mod job;
#[cfg(test)]
mod letters;
mod run;
mod run_jobs;
mod running_vcpu;
#[cfg(test)]
mod tests;
mod turns;
mod worker;

pub use gate::{Gate, Open};
pub use run::run_smp;
pub use running_vcpu::RunningVcpu;
pub use turns::Turns;
pub use worker::run_vcpu;
