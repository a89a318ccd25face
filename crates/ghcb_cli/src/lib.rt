//! The programs `ghcb_run` and `ghcb_smp`. Of the first, `run` takes an image and an input over a host and writes the
//! console or a report, `plain` takes them with the devices alone, `hostile` takes an image on the words of a script,
//! `live` takes an image on a page that another thread changes, `secret` takes an image on the words of a script and
//! writes whether its secret flows, `show` reads a page, an MSR word or an exit info, and `make` runs a large image
//! that a number makes over a host. What it prints and its status follow from its words and files, and what `live`
//! prints also from the words that came. The second takes an image and an input over a host with a worker for each
//! vCPU, and writes the console. What it prints follows from its words, its files and the order in which the vCPUs came
//! to the devices.
#![tactic(auto)]

mod command;
mod commands;
mod files;
#[cfg(test)]
mod fixture;
mod host_run;
mod live_run;
#[cfg(test)]
mod live_tests;
mod make_run;
#[cfg(test)]
mod make_tests;
#[cfg(test)]
mod mmio_tests;
mod plain_run;
#[cfg(test)]
mod rounds_tests;
mod script_run;
mod secret_run;
#[cfg(test)]
mod secret_tests;
mod smp_run;
#[cfg(test)]
mod smp_tests;
mod smp_top;
mod smp_words;
#[cfg(test)]
mod string_tests;
#[cfg(test)]
mod tests;
mod text;
mod top;

pub use command::{Command, parse};
pub use smp_top::smp_main;
pub use text::{Refused, smp_usage, usage};
pub use top::{Done, ghcb_main};
