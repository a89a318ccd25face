// The run of vCPU 0 against any host.
ghost use Rattle.std.specs.Prelude.{◌≡◌, ◌≤◌, ◌-◌, ◌^◌, ◌++◌, List, false, IfOk, IfSome, OnOk, OnErr};
ghost use Rattle.page_words.specs.declared.item.Item.{Item};
ghost use Rattle.page_words.specs.Dialogue.{IsPrefix, RunsPart, Runs, values_of};
ghost use Rattle.page_words.specs.Recording.{recording, roomless};
ghost use Rattle.vcpu_core.specs.Phase as phases;
ghost use Rattle.vcpu_core.specs.State.{IsLawfulPhase, is_waiting, state};
ghost use Rattle.vcpu_core.specs.Running.{state_advanced};
ghost use Rattle.guest_interp.specs.Stepping.{start_of};
ghost use Rattle.hostile_host.specs.Answered.{run_of};
ghost use Rattle.hostile_host.specs.Told.{IsRunOn, HasRun, IsFirst};
ghost use Rattle.hostile_host.specs.Turn.{turn_dialogue};

use image_file::Image;
use page_words::{Page, Recorded};
use std::alloc::{AllocError as OutOfMemory, Global};
use vcpu_core::{Progress, Vcpu};

/// The most items between two reserves: an event's store and exit, or the loads of its reply and a farewell.
const MOST_ITEMS: usize = 320;

/// One exit, and what is heard; or the end.
fn turn<P: Page>(
    vcpu: &mut Vcpu,
    image: &Image,
    steps: u64,
    page: &mut Recorded<P>,
) -> Result<(), OutOfMemory>
    requires budget { steps ≤ 2 ^ 64 - 2032 }
    ensures runs { OnOk result (Runs (turn_dialogue image.now steps vcpu.old) vcpu.new
        (roomless (recording P.told page.old)) (roomless (recording P.told page.new))) }
    ensures lawful { OnOk result (IsLawfulPhase (state_advanced steps vcpu.old).phase) }
    ensures rests { OnOk result (is_waiting vcpu.new.phase ≡ false) }
    ensures begins { OnErr result (RunsPart (turn_dialogue image.now steps vcpu.old)
        (roomless (recording P.told page.old)) (roomless (recording P.told page.new))) }
{
    page.reserve(MOST_ITEMS)?;
    let exited = vcpu.run_to_exit(image, page, steps) == Progress::Exited;
    if exited {
        page.reserve(MOST_ITEMS)?;
        vcpu.resume(image, page);
    }
    Ok(())
}

/// Runs a new vCPU to its end.
fn run<P: Page>(
    mut vcpu: Vcpu,
    image: &Image,
    steps: u64,
    page: &mut Recorded<P>,
) -> Result<Vcpu, OutOfMemory>
    requires budget { steps ≤ 2 ^ 64 - 2032 }
    requires start { vcpu ≡ state 0 (start_of image.now 0) phases.New }
    ensures runs { IfOk result (λ vcpu. HasRun image.now steps vcpu
        (roomless (recording P.told page.old)) (roomless (recording P.told page.new))) }
    ensures begins { OnErr result (RunsPart (run_of image.now steps)
        (roomless (recording P.told page.old)) (roomless (recording P.told page.new))) }
{
    'turns: loop {
        turn(&mut vcpu, image, steps, page)?;
        if vcpu.end().is_some() {
            return Ok(vcpu);
        }
    }
}

/// Runs vCPU 0 of an image to its end, within its budget of steps, over any page. The items that it
/// appends are those of the image's run on the words that the page gave, and the vCPU handed back has
/// that run's registers, RAM, steps and end. Refused, it has appended the first of these items. The last
/// block may lead past the budget by less than 2,032 steps, and the steps are counted in 64 bits: so the
/// budget leaves room for them.
pub fn hostile_run<P: Page>(
    alloc: Global,
    image: &Image,
    steps: u64,
    page: &mut Recorded<P>,
) -> Result<Vcpu, OutOfMemory>
    requires budget { steps ≤ 2 ^ 64 - 2032 }
    ensures told { IfOk result (λ vcpu. (made : List Item) × (page.new.items ≡ page.old.items ++ made)
        × IsRunOn image.now steps vcpu made (values_of made)) }
    // Where the page tells which words are ahead, the run is on these, and zeros after them.
    ensures ahead { IfOk result (λ vcpu. IfSome (P.told page.old.page).ahead (λ words.
        (made : List Item) × (page.new.items ≡ page.old.items ++ made) × IsRunOn image.now steps vcpu made words)) }
    // So the values that came are the first of those words.
    ensures values { IfSome (P.told page.old.page).ahead (λ words.
        (made : List Item) × (page.new.items ≡ page.old.items ++ made) × IsPrefix (values_of made) words) }
    ensures refused { OnErr result ((made : List Item) × (page.new.items ≡ page.old.items ++ made)
        × IsFirst image.now steps made (values_of made)) }
    ensures refused_ahead { OnErr result (IfSome (P.told page.old.page).ahead (λ words.
        (made : List Item) × (page.new.items ≡ page.old.items ++ made) × IsFirst image.now steps made words)) }
{
    let ram = image.ram(alloc)?;
    run(Vcpu::new(image, 0, ram), image, steps, page)
}
