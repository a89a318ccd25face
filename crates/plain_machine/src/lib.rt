//! The plain machine: guests and devices alone, with no page, handler or host between them. A run over a
//! page and a host is measured by it. [`run_plain`] is this machine as code, in rounds.
#![tactic(auto)]

mod law;
mod machine;
mod plain_vcpu;
mod run;
#[cfg(test)]
mod tests;
mod wired_guest;

pub use law::{events_are_singles, rounds_run, runs_unterminated};
pub use run::{PlainDone, run_plain};
