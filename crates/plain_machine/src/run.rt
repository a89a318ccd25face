// The run of an image's vCPUs and the devices alone.
ghost use Rattle.std.specs.Prelude.{◌≡◌, ◌-◌, ◌≤◌, ◌^◌, IfOk, map, unwrap_or};
ghost use Rattle.event_table.specs.declared.end.End.TheVariants.{Spent as spent};
ghost use Rattle.plain_machine.specs.Plain.{end_of, vcpu_of};
ghost use Rattle.plain_machine.specs.Ran.{RanPlain};

use crate::machine::PlainMachine;
use event_table::Finished;
use image_file::Image;
use std::alloc::{AllocError as OutOfMemory, Global};

/// What a plain run leaves: what was put out on the console, and the order, the steps and the ends.
#[derive(Drop)]
pub struct PlainDone {
    pub console: Vec<u8>,
    pub finished: Finished,
}

impl PlainMachine {
    /// What is handed back of the machine.
    fn finish(self, alloc: Global) -> Result<PlainDone, OutOfMemory>
        ensures console { IfOk result (λ done. done.console.items ≡ self.bus.devices.console) }
        ensures order { IfOk result (λ done. done.finished.order.items ≡ self.order.items) }
        ensures steps { IfOk result (λ done.
            done.finished.steps.items ≡ map (λ stop. (vcpu_of stop).steps) self.vcpus.items) }
        ensures ends { IfOk result (λ done.
            done.finished.ends.items ≡ map (λ stop. unwrap_or (end_of stop) spent) self.vcpus.items) }
    {
        let finished = Finished {
            steps: self.steps(alloc)?,
            ends: self.ends(alloc)?,
            order: self.order,
        };
        Ok(PlainDone {
            console: self.bus.console().to_vec(alloc)?,
            finished,
        })
    }
}

/// Runs the vCPUs of an image with their devices alone, in rounds, each to its end: `budget` steps each.
/// There is no page, handler or host between them. A block that begins within the budget is done whole,
/// and each of its elements is a step; so that the count of steps fits, the budget is at most 2^64 - 2,032.
pub fn run_plain(
    alloc: Global,
    image: &Image,
    input: Vec<u8>,
    budget: u64,
) -> Result<PlainDone, OutOfMemory>
    requires budget { budget ≤ 2 ^ 64 - 2032 }
    ensures ran { IfOk result (λ done.
        RanPlain image.now budget input.items done.finished done.console.items) }
{
    let mut machine = PlainMachine::start(alloc, image, input, budget)?;
    for done in 0..budget {
        if machine.has_ended() {
            return machine.finish(alloc);
        }
        machine.round(image, budget)?;
    }
    machine.finish(alloc)
}
