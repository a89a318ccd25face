//! The report of a run: its console, its order, and the end and the steps of each vCPU, in print. And the
//! summary of a run of the image that a number makes.
#![tactic(auto)]

mod report;
mod summary;
#[cfg(test)]
mod tests;

pub use report::report_text;
pub use summary::summary_text;
