//! The text of a run against a host that nobody trusts: a line for each item that was made on the page, and
//! one for the vCPU's end.
#![tactic(auto)]

mod end;
#[cfg(test)]
mod tests;
mod trace;

pub use end::push_end;
pub use trace::trace_text;
