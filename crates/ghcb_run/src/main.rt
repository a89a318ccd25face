//! `ghcb_run run IMAGE INPUT STEPS` runs a guest over a hypervisor and prints its console, or with `report` its report;
//! `ghcb_run plain IMAGE INPUT STEPS` runs it with the devices alone; `ghcb_run hostile IMAGE SCRIPT STEPS` runs it on the
//! words of a script, and `ghcb_run live IMAGE SEED STEPS` on a page that another thread changes, and each prints its
//! trace; `ghcb_run secret IMAGE SCRIPT STEPS` prints whether its secret flows; `ghcb_run show page|msr|info HEX` prints
//! what the digits mean; and `ghcb_run make N` runs a large image that a number makes, and prints a summary.
#![tactic(auto)]

use ghcb_cli::ghcb_main;
use host_events::Hypervisor;
use run_io::{DiskFiles, OutSink};
use std::env;
use std::process::ExitCode;

/// The words of the command line; none where they can't be had as text.
fn words(rt: &HostRuntime) -> Result<Vec<String>, std::io::Error> {
    let words: Vec<String> = env::args(rt)?.skip(1).collect(rt.alloc())?;
    Ok(words)
}

fn main(rt: HostRuntime) -> ExitCode {
    let alloc = rt.alloc();
    let words = match words(&rt) {
        Ok(words) => words,
        Err(_) => Vec::new(alloc),
    };
    let mut files = DiskFiles::new(&rt, alloc);
    let mut out = OutSink::new(&rt);
    let mut host = Hypervisor::new(alloc);
    let done = ghcb_main(&rt, alloc, &words, &mut files, &mut out, &mut host);
    ExitCode::from(done.status)
}
