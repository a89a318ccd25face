//! The order of a history that many workers made, one for each vCPU, has a plain run.
//!
//! Each worker knows of its own vCPU alone: where in the history its entries stand, and that its vCPU went on with what
//! the devices say after the entries before. `specs/Merge.antt` says this of all of them, and what follows.
#![tactic(auto)]

mod law;

pub use law::merge;
