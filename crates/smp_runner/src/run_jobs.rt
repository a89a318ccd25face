// The workers' threads.
ghost use Rattle.std.specs.Prelude.{◌≡◌, ◌-◌, ◌^◌, ◌≤◌, ◌<◌, IfOk, IfSome, vec_len};
ghost use Rattle.image_file.specs.Format.{most_vcpus};
ghost use Rattle.smp_runner.specs.Jobs.{AllFinished, AreDealt, IsFinished, IsFresh};

use crate::gate::Gate;
use crate::job::{Job, Worked, run_job};
use bus_lock::BusLock;
use host_events::Host;
use image_file::Image;
use std::alloc::{AllocError as OutOfMemory, Global};
use std::sync::Wait;
use std::thread;
use std::thread::Threads;

/// Runs each job in a thread of its own, where one can be made, and else one after another.
pub fn run_jobs<R: Threads + Wait + Sync, H: Host + Send, G: Gate + Sync>(
    rt: &R,
    alloc: Global,
    gate: &G,
    lock: &BusLock<H>,
    image: &Image,
    budget: u64,
    jobs: Vec<Job>,
) -> Result<Vec<Option<Worked>>, OutOfMemory>
    requires budget { budget ≤ 2 ^ 64 - 2032 }
    requires dealt { AreDealt lock.now jobs.items }
    requires known { vec_len jobs ≤ lock.now.vcpus }
    requires few { vec_len jobs ≤ most_vcpus }
    ensures len { IfOk result (λ done. vec_len done ≡ vec_len jobs) }
    ensures done { IfOk result (λ done. AllFinished lock.now image.now budget 0 done.items) }
{
    thread::map_vec(
        rt,
        jobs,
        &|job: Job| -> Option<Worked>
            requires { IsFresh lock.now job.pass × (budget ≤ 2 ^ 64 - 2032) × (job.number < lock.now.vcpus) × (job.number < most_vcpus) }
            ensures { IfSome result (IsFinished lock.entry.now image.entry.now budget job.number) }
        { run_job(rt, alloc, gate, lock, image, budget, job) },
    )
}
