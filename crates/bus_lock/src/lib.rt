//! A host behind a lock of two atomic words, with a history that each pass can rely on.
//!
//! Threads take turns with one host. Each has a pass, which knows a beginning of the host's history and the numbers in
//! it of its own entries. `specs/Turns.antt` says what a turn promises, `specs/Plays.antt` has the table of the steps,
//! and `specs/Parts.antt` what holds between any two of them. Nothing is promised of waiting.
#![tactic(auto)]

#[cfg(test)]
mod asking;
mod boxed;
mod laws;
mod lock;
mod pass;
mod plays;
#[cfg(test)]
mod refusal_tests;
mod rule;
mod serve;
mod steps;
#[cfg(test)]
mod tests;
#[cfg(test)]
mod thread_tests;
mod turn;
mod view;
mod waiting;

pub use laws::rule_has_its_parts;
pub use lock::BusLock;
pub use pass::Pass;
pub use rule::Law;
pub use view::View;
