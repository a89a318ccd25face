// A vCPU with its page.
ghost use Rattle.std.specs.Prelude.{◌≡◌, ◌-◌, ◌^◌, ◌<◌, ◌≤◌, ℕ, [], ◌∷◌, OnOk};
ghost use Rattle.page_words.specs.declared.item.Item.TheVariants.{Exit};
ghost use Rattle.page_words.specs.Told.{blank, kept_after_all};
ghost use Rattle.image_file.specs.Format.{most_vcpus};
ghost use Rattle.image_file.specs.Image.{opening_ram};
ghost use Rattle.guest_interp.specs.Stepping.{Standstill, start_of};
ghost use Rattle.device_bus.specs.Devices.{Devices};
ghost use Rattle.vc_handler.specs.Version.{question};
ghost use Rattle.vcpu_core.specs.Phase as phases;
ghost use Rattle.vcpu_core.specs.State.{state};
ghost use Rattle.plain_machine.specs.Plain.{Machine};
ghost use Rattle.round_runner.specs.Started.{StaysStarted};
ghost use Rattle.round_runner.specs.Standing.{AreOthers, IsVcpuAt, Tells, Visited, pushed};

use both_ends::agree;
use event_table::Turn;
use host_events::Host;
use image_file::{Image, Ram};
use page_words::Words;
use std::alloc::AllocError as OutOfMemory;
use vcpu_core::Vcpu;

/// A vCPU with the page that it shares with the host.
#[derive(Drop)]
pub struct VcpuOnPage {
    pub vcpu: Vcpu,
    pub page: Words,
}

/// A new vCPU over a page of zeros, at its first exit: it asks the host for its versions.
pub fn first_exit(image: &Image, number: u16, ram: Ram) -> VcpuOnPage
    requires opening { ram ≡ opening_ram image.now }
    ensures vcpu { result.vcpu ≡ state number (start_of image.now number) phases.Asked }
    ensures page { result.page ≡ kept_after_all blank (Exit question ∷ []) }
{
    let mut vcpu = Vcpu::new(image, number, ram);
    let mut page = Words::new();
    // It takes no step before it has asked.
    vcpu.run_to_exit(image, &mut page, 0);
    VcpuOnPage { vcpu, page }
}

/// Notes an item of the order, where there are accesses.
fn note(order: &mut Vec<Turn>, vcpu: u16, count: u16) -> Result<(), OutOfMemory>
    ensures order { OnOk result (order.new.items ≡ pushed vcpu count order.old.items) }
{
    if count > 0 {
        order.push(Turn { vcpu, count })?;
    }
    Ok(())
}

/// Serves a vCPU that waits: it takes the reply, and goes on to its next exit or its end. An event is an
/// item of the order, and an exchange of versions isn't.
pub fn serve_turn<H: Host>(
    image: &Image,
    budget: u64,
    number: u16,
    seat: &mut VcpuOnPage,
    host: &mut H,
    order: &mut Vec<Turn>,
) -> Result<(), OutOfMemory>
    requires numbered { number ≡ seat.old.vcpu.number }
    requires known { seat.old.vcpu.number < (H.told host.old).vcpus }
    requires few { seat.old.vcpu.number < most_vcpus }
    requires budget { budget ≤ 2 ^ 64 - 2032 }
    ensures ok { (d : Devices) (n : ℕ) (m : Machine) (stop : Standstill)
        → IsVcpuAt image.now budget d (H.told host.old) m.events n seat.old.vcpu.number seat.old stop
        → Tells d (H.told host.old) order.old.items m → OnOk result
        (Visited image.now budget d n seat.old.vcpu.number stop m seat.new (H.told host.new) order.new.items) }
    ensures others { OnOk result (AreOthers seat.old.vcpu.number (H.told host.old) (H.told host.new)) }
    ensures number { seat.new.vcpu.number ≡ seat.old.vcpu.number }
    ensures vcpus { (H.told host.new).vcpus ≡ (H.told host.old).vcpus }
    ensures started { StaysStarted (H.told host.old) (H.told host.new) }
{
    if seat.vcpu.waiting() {
        agree();
        host.serve(number, &mut seat.page)?;
        note(order, number, seat.vcpu.pending())?;
        seat.vcpu.resume(image, &mut seat.page);
        seat.vcpu.run_to_exit(image, &mut seat.page, budget);
    }
    Ok(())
}
