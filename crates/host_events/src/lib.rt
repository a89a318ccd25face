//! The host of the guests: it serves their pages over its devices and keeps the history of what it served.
//!
//! An event of the event table is one access, with its data in registers or, of MMIO, in the shared buffer, or a
//! block of string I/O. `specs/Reading.antt` and `specs/Calls.antt` say which a page asks for, and
//! `specs/Served.antt` what is left of the page.
#![tactic(auto)]

#[cfg(test)]
mod block_tests;
mod buffer;
mod event;
mod history;
mod host;
mod hypervisor;
#[cfg(test)]
mod memory_tests;
#[cfg(test)]
mod mmio_tests;
mod reading;
mod reply;
mod request;
#[cfg(test)]
mod tests;
mod watch;

pub use device_bus::cpuid_register;
pub use event::event_in;
pub use event_table::Entry;
pub use host::Host;
pub use hypervisor::Hypervisor;
pub use reading::read_request;
pub use request::{BadPage, Request};
pub use watch::Watch;
