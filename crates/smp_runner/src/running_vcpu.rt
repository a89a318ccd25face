// A vCPU that its worker runs.
ghost use Rattle.std.specs.Prelude.{◌≡◌, ◌-◌, ◌^◌, ◌<◌, ◌≤◌, ℕ, OnOk, true};
ghost use Rattle.image_file.specs.Format.{most_vcpus};
ghost use Rattle.image_file.specs.Image.{opening_ram};
ghost use Rattle.page_words.specs.Told.{blank};
ghost use Rattle.guest_interp.specs.Stepping.{start_of};
ghost use Rattle.vcpu_core.specs.Phase as phases;
ghost use Rattle.vcpu_core.specs.State.{is_waiting, state};
ghost use Rattle.vcpu_core.specs.Running.{progress_in};
ghost use Rattle.bus_lock.specs.declared.view.View.{View};
ghost use Rattle.smp_runner.specs.Working.{IsSamePass};
ghost use Rattle.smp_runner.specs.Standing.{IsOut, IsReady};

use crate::turns::Turns;
use both_ends::agree;
use image_file::{Image, Ram};
use page_words::Words;
use std::alloc::AllocError as OutOfMemory;
use vcpu_core::{Progress, Vcpu};

/// A vCPU with the page that it shares with the host.
#[derive(Drop)]
pub struct RunningVcpu {
    pub vcpu: Vcpu,
    pub page: Words,
}

/// A vCPU of an image over a page of zeros, before it has said anything.
pub fn new_vcpu(image: &Image, number: u16, ram: Ram) -> RunningVcpu
    requires opening { ram ≡ opening_ram image.now }
    ensures vcpu { result.vcpu ≡ state number (start_of image.now number) phases.New }
    ensures page { result.page ≡ blank }
{
    RunningVcpu {
        vcpu: Vcpu::new(image, number, ram),
        page: Words::new(),
    }
}

/// Goes on to its next exit or its end, within its budget of steps.
pub fn go_on(image: &Image, budget: u64, seat: &mut RunningVcpu) -> Progress
    requires budget { budget ≤ 2 ^ 64 - 2032 }
    ensures out { (number : ℕ) (v : View) → IsReady image.now budget number v seat.old
        → IsOut image.now budget number v seat.new }
    ensures progress { result ≡ progress_in seat.new.vcpu.phase }
{
    seat.vcpu.run_to_exit(image, &mut seat.page, budget)
}

/// Has the page of a vCPU that waits served by a turn, and the vCPU hears the host. Out of memory, it waits still.
pub fn exchange<T: Turns>(
    image: &Image,
    number: u16,
    seat: &mut RunningVcpu,
    turns: &mut T,
) -> Result<(), OutOfMemory>
    requires known { number < (T.pass turns.old).view.vcpus }
    requires few { number < most_vcpus }
    requires waits { is_waiting seat.old.vcpu.phase ≡ true }
    ensures same { IsSamePass (T.pass turns.old) (T.pass turns.new) }
    ensures ready { (budget : ℕ) → IsOut image.now budget number (T.pass turns.old).view seat.old
        → OnOk result (IsReady image.now budget number (T.pass turns.new).view seat.new) }
{
    agree();
    turns.turn(number, &mut seat.page)?;
    seat.vcpu.resume(image, &mut seat.page);
    Ok(())
}
