//! A guest against any host: vCPU 0 of an image is run to its end, whatever words the page gives
//! (AMD 56421, section 2.6 and "GHCB MSR Protocol"); and a page that another thread changes meanwhile.
#![tactic(auto)]

mod changes;
mod live;
#[cfg(test)]
mod live_tests;
mod run;
#[cfg(test)]
mod tests;

pub use changes::{Changes, Store, reply_to};
pub use live::{Live, LiveEnd};
pub use run::hostile_run;
