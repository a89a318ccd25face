//! A guest's run against any host, in print: vCPU 0 of an image is run to its end over a page, and the text of its
//! trace, the words that the page gave, its steps and its end are handed back (AMD 56421, section 2.6 and "GHCB MSR
//! Protocol").
#![tactic(auto)]

mod live;
mod over;
#[cfg(test)]
mod tests;

pub use live::run_live;
pub use over::{AnsweredRun, run_over};
