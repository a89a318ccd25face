//! The three words of a GHCB page that say why a guest exits, and what it gets (AMD 56421).
//!
//! SW_EXITCODE names the event. SW_EXITINFO1 of port I/O describes the access. SW_EXITINFO2 of a reply
//! names the exception that the hypervisor asks for. What `write` gives is read as the value again, and each `read`
//! says exactly which words it reads as which value.
#![tactic(auto)]

mod exit_code;
mod inject;
mod io_info;
#[cfg(test)]
mod tests;

pub use exit_code::{ExitCode, UnknownCode};
pub use inject::{BadInject, Inject};
pub use io_info::{BadInfo, IoInfo};
