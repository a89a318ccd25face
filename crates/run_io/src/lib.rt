//! The files that a program reads and the place that it writes to, whoever stands behind them: those of
//! the system, which tell no content, and some in memory, which tell everything. A call fails only where a
//! count of faults rises.
#![tactic(auto)]

mod disk;
mod mem_files;
mod mem_sink;
mod outside;
mod whole_file;

pub use disk::{DiskFiles, OutSink};
pub use mem_files::MemFiles;
pub use mem_sink::MemSink;
pub use outside::{Failed, Files, Sink};
pub use whole_file::{ReadError, read_whole};
