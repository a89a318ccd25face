// What is handed back after the workers have ended.
ghost use Rattle.std.specs.Prelude.{◌≡◌, List, IfOk, IsSome, Some};
ghost use Rattle.event_table.specs.declared.turn.Entry.{Entry};
ghost use Rattle.event_table.specs.Turns.{turns_of};
ghost use Rattle.smp_runner.specs.Jobs.{HasGathered};
ghost use Rattle.smp_runner.specs.Ran.{IsLegalOrder, RanAlong};

use crate::gather::Gathered;
use bus_lock::{BusLock, Pass};
use event_table::{Finished, Turn};
use host_events::Host;
use image_file::Image;
use merged_runs::merge;
use std::alloc::{AllocError as OutOfMemory, Global};

/// The turns of the host's history.
fn order_of<H: Host>(alloc: Global, host: &H) -> Result<Vec<Turn>, OutOfMemory>
    requires tells { IsSome (H.told host.now).history }
    ensures turns { (log : List Entry) → (H.told host.now).history ≡ Some log
        → IfOk result (λ order. order.items ≡ turns_of log) }
{
    let mut order = Vec::new(alloc);
    for index in 0..host.turns() {
        order.push(host.turn_at(index).unwrap())?;
    }
    Ok(order)
}

/// Closes the lock, and reads the order from the host's history.
pub fn finish<H: Host>(
    alloc: Global,
    image: &Image,
    budget: u64,
    lock: BusLock<H>,
    all: Pass,
    gathered: Gathered,
) -> Result<(Finished, H), OutOfMemory>
    requires vcpus { lock.vcpus ≡ image.now.header.vcpus }
    requires gathered { HasGathered lock image.now budget image.now.header.vcpus all gathered.steps.items
        gathered.ends.items }
    requires share { all.view.share ≡ 1024 }
    ensures legal { IfOk result (λ r. IsLegalOrder image.now lock.input r.0 (H.told r.1)) }
    ensures ran { IfOk result (λ r. RanAlong image.now budget lock.input r.0 (H.told r.1)) }
{
    merge();
    let host = lock.close(all);
    let order = order_of(alloc, &host)?;
    let Gathered { steps, ends } = gathered;
    Ok((Finished { order, steps, ends }, host))
}
