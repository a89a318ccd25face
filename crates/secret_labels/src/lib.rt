//! What of a guest's secret bytes can reach its host: labels stand on registers, on the status flags and
//! on bytes of RAM, and follow what an instruction reads and writes.
#![tactic(auto)]

mod calculating;
#[cfg(test)]
mod event_tests;
mod eventing;
pub mod laws;
mod marked_guest;
mod marks;
mod moving;
mod noting;
mod paging;
mod raising;
mod reach;
mod stacking;
mod stepping;
mod strings;
#[cfg(test)]
mod tests;
mod verdict;
mod whole;

pub use marks::Marks;
pub use verdict::{Verdict, What};
pub use whole::follow;
