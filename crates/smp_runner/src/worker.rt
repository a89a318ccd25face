// One worker.
ghost use Rattle.std.specs.Prelude.{◌≡◌, ◌-◌, ◌^◌, ◌<◌, ◌≤◌, [], IfOk};
ghost use Rattle.image_file.specs.Format.{most_vcpus};
ghost use Rattle.image_file.specs.Image.{opening_ram};
ghost use Rattle.smp_runner.specs.Working.{HasEnded, IsSamePass};

use crate::running_vcpu::{RunningVcpu, exchange, go_on, new_vcpu};
use crate::turns::Turns;
use image_file::{Image, Ram};
use std::alloc::AllocError as OutOfMemory;
use std::sync::Wait;
use vcpu_core::{Progress, Vcpu};

/// Runs a vCPU of an image to its end, within its budget of steps. Each exit, the exchange of versions among them, is
/// served by a turn. Out of memory, the vCPU is dropped.
pub fn run_vcpu<R: Wait, T: Turns>(
    rt: &R,
    image: &Image,
    budget: u64,
    number: u16,
    ram: Ram,
    turns: &mut T,
) -> Result<Vcpu, OutOfMemory>
    requires opening { ram ≡ opening_ram image.now }
    requires budget { budget ≤ 2 ^ 64 - 2032 }
    requires known { number < (T.pass turns.old).view.vcpus }
    requires few { number < most_vcpus }
    requires fresh { (T.pass turns.old).view.own ≡ [] }
    ensures same { IsSamePass (T.pass turns.old) (T.pass turns.new) }
    ensures ended { IfOk result (HasEnded image.now budget number (T.pass turns.new).view) }
{
    let mut seat = new_vcpu(image, number, ram);
    for _ in rt.forever() {
        if let Progress::Ended = go_on(image, budget, &mut seat) {
            let RunningVcpu { vcpu, .. } = seat;
            return Ok(vcpu);
        }
        exchange(image, number, &mut seat, turns)?;
    }
    unreachable!()
}
