//! Runs the vCPUs of an image over their pages and a host, one after another in rounds: in each round every
//! vCPU that waits is served once. What such a run leaves is told by the plain machine's run along the same
//! order.
#![tactic(auto)]

mod rounds;
#[cfg(test)]
mod tests;
mod vcpu_on_page;

pub use rounds::run_rounds;
