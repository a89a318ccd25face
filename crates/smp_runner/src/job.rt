// What the workers are given and give back.
ghost use Rattle.std.specs.Prelude.{◌≡◌, ◌-◌, ◌^◌, ◌<◌, ◌≤◌, IfSome};
ghost use Rattle.image_file.specs.Format.{most_vcpus};
ghost use Rattle.smp_runner.specs.Jobs.{IsFinished, IsFresh};

use crate::gate::Gate;
use crate::turns::GatedTurns;
use crate::worker::run_vcpu;
use bus_lock::{BusLock, Pass};
use event_table::End;
use host_events::Host;
use image_file::Image;
use std::alloc::Global;
use std::sync::Wait;

/// What a worker is given: the number of its vCPU, and a pass.
#[derive(Drop)]
pub struct Job {
    pub number: u16,
    pub pass: Pass,
}

/// What a worker gives back once its vCPU has ended.
#[derive(Drop)]
pub struct Worked {
    pub pass: Pass,
    pub steps: u64,
    pub end: End,
}

/// Runs the vCPU of a job to its end. `None` comes for want of memory.
pub fn run_job<R: Wait, H: Host, G: Gate>(
    rt: &R,
    alloc: Global,
    gate: &G,
    lock: &BusLock<H>,
    image: &Image,
    budget: u64,
    job: Job,
) -> Option<Worked>
    requires fresh { IsFresh lock.now job.pass }
    requires budget { budget ≤ 2 ^ 64 - 2032 }
    requires known { job.number < lock.now.vcpus }
    requires few { job.number < most_vcpus }
    ensures finished { IfSome result (IsFinished lock.now image.now budget job.number) }
{
    let Job { number, pass } = job;
    let ram = image.ram(alloc).ok()?;
    let mut turns = GatedTurns {
        rt,
        gate,
        lock,
        pass,
    };
    let vcpu = run_vcpu(rt, image, budget, number, ram, &mut turns).ok()?;
    let GatedTurns { pass, .. } = turns;
    Some(Worked {
        pass,
        steps: vcpu.steps(),
        end: vcpu.end().unwrap_or(End::Spent),
    })
}
