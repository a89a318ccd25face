//! `ghcb_smp IMAGE INPUT STEPS` runs a guest over a hypervisor, with a worker for each vCPU in a thread of its own where
//! one can be made, and prints its console.
#![tactic(auto)]

use ghcb_cli::smp_main;
use host_events::Hypervisor;
use run_io::{DiskFiles, OutSink};
use smp_runner::Open;
use std::env;
use std::process::ExitCode;

/// The words of the command line; none where they can't be had as text.
fn words(rt: &HostRuntime) -> Result<Vec<String>, std::io::Error> {
    let words: Vec<String> = env::args(rt)?.skip(1).collect(rt.alloc())?;
    Ok(words)
}

fn main(rt: HostRuntime) -> ExitCode {
    let alloc = rt.alloc();
    let words = match words(&rt) {
        Ok(words) => words,
        Err(_) => Vec::new(alloc),
    };
    let mut files = DiskFiles::new(&rt, alloc);
    let mut out = OutSink::new(&rt);
    let host = Hypervisor::new(alloc);
    let (done, _host) = smp_main(&rt, alloc, &words, &mut files, &mut out, host, &Open);
    ExitCode::from(done.status)
}
