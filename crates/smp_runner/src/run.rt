// A run with a worker for each vCPU.
ghost use Rattle.std.specs.Prelude.{◌≡◌, ◌-◌, ◌^◌, ◌≤◌, IfOk};
ghost use Rattle.host_events.specs.Hosting.{IsTelling};
ghost use Rattle.smp_runner.specs.Ran.{IsLegalOrder, RanAlong};

use crate::close::finish;
use crate::deal::deal;
use crate::gate::Gate;
use crate::gather::gather;
use crate::run_jobs::run_jobs;
use bus_lock::BusLock;
use event_table::Finished;
use host_events::Host;
use image_file::Image;
use std::alloc::{AllocError as OutOfMemory, Global};
use std::sync::Wait;
use std::thread::Threads;

/// Starts the host and runs a worker for each vCPU of the image to its end, in a thread of its own where one can be
/// made: `budget` steps each. A block that begins within the budget is done whole, and each of its elements is a step;
/// so that the count of steps fits, the budget is at most 2^64 - 2,032. Each turn of a vCPU goes through the gate.
/// Out of memory comes once all workers have ended, where one was refused memory, and the host is dropped.
pub fn run_smp<R: Threads + Wait + Sync, H: Host + Send, G: Gate + Sync>(
    rt: &R,
    alloc: Global,
    image: &Image,
    input: Vec<u8>,
    budget: u64,
    mut host: H,
    gate: &G,
) -> Result<(Finished, H), OutOfMemory>
    requires tells { IsTelling (H.told host) }
    requires budget { budget ≤ 2 ^ 64 - 2032 }
    ensures legal { IfOk result (λ r. IsLegalOrder image.now input.items r.0 (H.told r.1)) }
    ensures ran { IfOk result (λ r. RanAlong image.now budget input.items r.0 (H.told r.1)) }
{
    host.start(image.vcpus(), input)?;
    let Ok((lock, mut all)) = BusLock::new(alloc, host) else {
        return Err(OutOfMemory);
    };
    let jobs = deal(alloc, &lock, &mut all, image.vcpus())?;
    let done = run_jobs(rt, alloc, gate, &lock, image, budget, jobs)?;
    let gathered = gather(alloc, image, budget, &lock, &mut all, done)?;
    finish(alloc, image, budget, lock, all, gathered)
}
