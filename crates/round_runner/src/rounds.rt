// A run in rounds.
ghost use Rattle.std.specs.Prelude.{◌≡◌, ◌-◌, ◌^◌, ◌≤◌, ℕ, length, map, unwrap_or, is_some, OnOk, OnErr, IfOk};
ghost use Rattle.std.specs.List.{list_all};
ghost use Rattle.event_table.specs.declared.end.End.TheVariants.{Spent as spent};
ghost use Rattle.host_events.specs.Hosting.{IsTelling};
ghost use Rattle.device_bus.specs.Devices.{Devices};
ghost use Rattle.vcpu_core.specs.State.{end_in};
ghost use Rattle.plain_machine.specs.Plain.{Machine};
ghost use Rattle.round_runner.specs.Pages.{exchange};
ghost use Rattle.round_runner.specs.Started.{IsAsBeforeOrStarted, StaysStarted};
ghost use Rattle.round_runner.specs.Standing.{AreFresh, AreNumbered, Stands, next_by, visits_by};
ghost use Rattle.round_runner.specs.Ran.{RanRounds};

use crate::vcpu_on_page::{VcpuOnPage, first_exit, serve_turn};
use event_table::{End, Finished, Turn};
use host_events::Host;
use image_file::Image;
use std::alloc::{AllocError as OutOfMemory, Global};

/// How many exchanges a vCPU has with the host before its first event.
const EXCHANGES: u16 = 1;

/// Each vCPU at its first exit.
fn open(alloc: Global, image: &Image) -> Result<Vec<VcpuOnPage>, OutOfMemory>
    ensures fresh { IfOk result (λ seats. AreFresh image.now 0 seats.items) }
    ensures many { IfOk result (λ seats. length seats.items ≡ image.now.header.vcpus) }
{
    let mut seats = Vec::new(alloc);
    for number in 0..image.vcpus() {
        let ram = image.ram(alloc)?;
        seats.push(first_exit(image, number, ram))?;
    }
    Ok(seats)
}

/// One round: each vCPU that waits is served, in ascending number.
fn round<H: Host>(
    image: &Image,
    budget: u64,
    seats: &mut [VcpuOnPage],
    host: &mut H,
    order: &mut Vec<Turn>,
) -> Result<(), OutOfMemory>
    requires many { length seats.old ≡ image.now.header.vcpus }
    requires numbered { AreNumbered 0 seats.old }
    requires hosted { (H.told host.old).vcpus ≡ image.now.header.vcpus }
    requires budget { budget ≤ 2 ^ 64 - 2032 }
    ensures ok { (d : Devices) (n : ℕ) (m : Machine)
        → Stands image.now budget d n 0 seats.old (H.told host.old) order.old.items m
        → OnOk result (Stands image.now budget d (next_by (exchange n) n) 0 seats.new (H.told host.new) order.new.items
        (visits_by (exchange n) image.now budget image.now.header.vcpus m)) }
    ensures numbered { AreNumbered 0 seats.new }
    ensures hosted { (H.told host.new).vcpus ≡ image.now.header.vcpus }
    ensures started { StaysStarted (H.told host.old) (H.told host.new) }
{
    for i in 0..image.vcpus() {
        let seat = &mut seats[usize::from(i)];
        serve_turn(image, budget, i, seat, host, order)?;
    }
    Ok(())
}

fn have_ended(seats: &[VcpuOnPage]) -> bool
    ensures { result ≡ list_all (λ s. is_some (end_in s.vcpu.phase)) seats.now }
{
    seats.iter().all(|s| s.vcpu.end().is_some())
}

/// The steps that each vCPU has counted.
fn steps_of(alloc: Global, seats: &[VcpuOnPage]) -> Result<Vec<u64>, OutOfMemory>
    ensures { IfOk result (λ steps. steps.items ≡ map (λ s. s.vcpu.cpu.steps) seats.now) }
{
    let mut steps = Vec::new(alloc);
    for seat in seats {
        steps.push(seat.vcpu.steps())?;
    }
    Ok(steps)
}

/// How each vCPU has ended: one that hasn't is out of steps.
fn ends_of(alloc: Global, seats: &[VcpuOnPage]) -> Result<Vec<End>, OutOfMemory>
    ensures { IfOk result (λ ends. ends.items ≡ map (λ s. unwrap_or (end_in s.vcpu.phase) spent) seats.now) }
{
    let mut ends = Vec::new(alloc);
    for seat in seats {
        ends.push(seat.vcpu.end().unwrap_or(End::Spent))?;
    }
    Ok(ends)
}

/// What is handed back of the vCPUs.
fn finish(alloc: Global, seats: &[VcpuOnPage], order: Vec<Turn>) -> Result<Finished, OutOfMemory>
    ensures order { IfOk result (λ f. f.order.items ≡ order.items) }
    ensures steps { IfOk result (λ f. f.steps.items ≡ map (λ s. s.vcpu.cpu.steps) seats.now) }
    ensures ends { IfOk result (λ f. f.ends.items ≡ map (λ s. unwrap_or (end_in s.vcpu.phase) spent) seats.now) }
{
    Ok(Finished {
        order,
        steps: steps_of(alloc, seats)?,
        ends: ends_of(alloc, seats)?,
    })
}

/// Starts the host and runs each vCPU of the image over its page and the host, in rounds, to its end:
/// `budget` steps each. A block that begins within the budget is done whole, and each of its elements is a
/// step; so that the count of steps fits, the budget is at most 2^64 - 2,032. Refused, the host is as before,
/// or it was started and has served some pages since.
pub fn run_rounds<H: Host>(
    alloc: Global,
    image: &Image,
    input: Vec<u8>,
    budget: u64,
    host: &mut H,
) -> Result<Finished, OutOfMemory>
    requires budget { budget ≤ 2 ^ 64 - 2032 }
    ensures ran { IsTelling (H.told host.old) → IfOk result (λ f.
        RanRounds image.now budget input.items f (H.told host.new)) }
    ensures refused { OnErr result (IsAsBeforeOrStarted image.now input.items (H.told host.old) (H.told host.new)) }
{
    host.start(image.vcpus(), input)?;
    let mut seats = open(alloc, image)?;
    let mut order = Vec::new(alloc);
    for met in 0..EXCHANGES {
        round(image, budget, &mut seats, host, &mut order)?;
    }
    for done in 0..budget {
        if have_ended(&seats) {
            return finish(alloc, &seats, order);
        }
        round(image, budget, &mut seats, host, &mut order)?;
    }
    finish(alloc, &seats, order)
}
