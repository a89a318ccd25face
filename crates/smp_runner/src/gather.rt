// What the workers gave back.
ghost use Rattle.std.specs.Prelude.{◌≡◌, ◌+◌, IfOk, vec_len};
ghost use Rattle.smp_runner.specs.Jobs.{AllFinished, HasGathered, HasNoEntries};

use crate::job::Worked;
use bus_lock::{BusLock, Pass};
use event_table::End;
use host_events::Host;
use image_file::Image;
use std::alloc::{AllocError as OutOfMemory, Global};

/// The steps and the ends of all vCPUs, by their numbers.
#[derive(Drop)]
pub struct Gathered {
    pub steps: Vec<u64>,
    pub ends: Vec<End>,
}

/// Joins the passes that the workers gave back. Out of memory where a worker was.
pub fn gather<H: Host>(
    alloc: Global,
    image: &Image,
    budget: u64,
    lock: &BusLock<H>,
    all: &mut Pass,
    mut done: Vec<Option<Worked>>,
) -> Result<Gathered, OutOfMemory>
    requires all { HasNoEntries lock.now all.old }
    requires share { all.old.view.share + vec_len done ≡ 1024 }
    requires done { AllFinished lock.now image.now budget 0 done.items }
    ensures gathered { IfOk result (λ gathered. HasGathered lock.now image.now budget (vec_len done) all.new
        gathered.steps.items gathered.ends.items) }
    ensures share { IfOk result (λ _. all.new.view.share ≡ 1024) }
{
    let mut steps = Vec::new(alloc);
    let mut ends = Vec::new(alloc);
    for i in 0..done.len() {
        let worked = done[i].take().ok_or(OutOfMemory)?;
        let Worked {
            pass,
            steps: counted,
            end,
        } = worked;
        lock.join(all, pass);
        steps.push(counted)?;
        ends.push(end)?;
    }
    Ok(Gathered { steps, ends })
}
