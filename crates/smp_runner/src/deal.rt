// A job for each vCPU.
ghost use Rattle.std.specs.Prelude.{◌≡◌, ◌+◌, ◌≤◌, IfOk, vec_len};
ghost use Rattle.image_file.specs.Format.{most_vcpus};
ghost use Rattle.smp_runner.specs.Jobs.{AreDealt, HasNoEntries};

use crate::job::Job;
use bus_lock::{BusLock, Pass};
use host_events::Host;
use std::alloc::{AllocError as OutOfMemory, Global};

/// Splits a pass for each of the first so many vCPUs.
pub fn deal<H: Host>(
    alloc: Global,
    lock: &BusLock<H>,
    all: &mut Pass,
    count: u16,
) -> Result<Vec<Job>, OutOfMemory>
    requires all { HasNoEntries lock.now all.old }
    requires share { all.old.view.share ≡ 1024 }
    requires few { count ≤ most_vcpus }
    ensures all { HasNoEntries lock.now all.new }
    ensures share { IfOk result (λ _. all.new.view.share + count ≡ 1024) }
    ensures len { IfOk result (λ jobs. vec_len jobs ≡ count) }
    ensures jobs { IfOk result (λ jobs. AreDealt lock.now jobs.items) }
{
    let mut jobs = Vec::new(alloc);
    for number in 0..count {
        let pass = lock.split(all);
        jobs.push(Job { number, pass })?;
    }
    Ok(jobs)
}
