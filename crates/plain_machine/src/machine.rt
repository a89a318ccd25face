// The vCPUs of an image with their devices.
ghost use Rattle.std.specs.Prelude.{◌≡◌, ◌-◌, ◌≤◌, ◌^◌, OnOk, IfOk, map, unwrap_or};
ghost use Rattle.std.specs.List.{list_all};
ghost use Rattle.event_table.specs.declared.end.End.TheVariants.{Spent as spent};
ghost use Rattle.plain_machine.specs.Plain.{Machine, end_of, first_stops, has_ended as is_over, machine_at_start};
ghost use Rattle.plain_machine.specs.Plain.{vcpu_of, visits};
ghost use Rattle.plain_machine.specs.Standing.{Fits, Stands};

use crate::plain_vcpu::PlainVcpu;
use device_bus::Bus;
use event_table::{End, Turn};
use image_file::Image;
use std::alloc::{AllocError as OutOfMemory, Global};

/// The vCPUs by their numbers, the devices, and the order of the items so far.
#[derive(Drop)]
pub struct PlainMachine {
    pub vcpus: Vec<PlainVcpu>,
    pub bus: Bus,
    pub order: Vec<Turn>,
}

/// The vCPUs of an image, each at its first event or its end.
fn first_vcpus(alloc: Global, image: &Image, budget: u64) -> Result<Vec<PlainVcpu>, OutOfMemory>
    requires budget { budget ≤ 2 ^ 64 - 2032 }
    ensures stops { IfOk result (λ vcpus. vcpus.items ≡ first_stops image.now budget 0 image.now.header.vcpus) }
{
    let mut vcpus = Vec::new(alloc);
    for number in 0..image.vcpus() {
        let ram = image.ram(alloc)?;
        vcpus.push(PlainVcpu::start(image, number, ram, budget))?;
    }
    Ok(vcpus)
}

impl PlainMachine {
    /// The machine as it starts over this input.
    pub fn start(
        alloc: Global,
        image: &Image,
        input: Vec<u8>,
        budget: u64,
    ) -> Result<PlainMachine, OutOfMemory>
        requires budget { budget ≤ 2 ^ 64 - 2032 }
        ensures fits { IfOk result (Fits image.now) }
        ensures stands { IfOk result (λ machine. Stands machine (machine_at_start image.now budget input.items)) }
    {
        let mut bus = Bus::new(alloc);
        bus.start(image.vcpus(), input)?;
        Ok(PlainMachine {
            vcpus: first_vcpus(alloc, image, budget)?,
            bus,
            order: Vec::new(alloc),
        })
    }

    /// One round: each vCPU that waits gets one item, in ascending number.
    pub fn round(&mut self, image: &Image, budget: u64) -> Result<(), OutOfMemory>
        requires fits { Fits image.now self.old }
        requires budget { budget ≤ 2 ^ 64 - 2032 }
        ensures fits { OnOk result (Fits image.now self.new) }
        ensures stands { (m : Machine) → Stands self.old m
            → OnOk result (Stands self.new (visits image.now budget image.now.header.vcpus m)) }
    {
        for number in 0..image.vcpus() {
            let vcpu = &mut self.vcpus[usize::from(number)];
            vcpu.take_turn(image, number, &mut self.bus, &mut self.order, budget)?;
        }
        Ok(())
    }

    /// Whether each vCPU has ended.
    pub fn has_ended(&self) -> bool
        ensures { result ≡ list_all is_over self.now.vcpus.items }
    {
        self.vcpus.iter().all(|vcpu| vcpu.has_ended())
    }

    /// The steps that each vCPU has counted.
    pub fn steps(&self, alloc: Global) -> Result<Vec<u64>, OutOfMemory>
        ensures { IfOk result (λ steps. steps.items ≡ map (λ stop. (vcpu_of stop).steps) self.now.vcpus.items) }
    {
        let mut steps = Vec::new(alloc);
        for vcpu in &self.vcpus {
            steps.push(vcpu.steps())?;
        }
        Ok(steps)
    }

    /// How each vCPU has ended: one that hasn't is out of steps.
    pub fn ends(&self, alloc: Global) -> Result<Vec<End>, OutOfMemory>
        ensures { IfOk result (λ ends. ends.items ≡ map (λ stop. unwrap_or (end_of stop) spent) self.now.vcpus.items) }
    {
        let mut ends = Vec::new(alloc);
        for vcpu in &self.vcpus {
            ends.push(vcpu.end().unwrap_or(End::Spent))?;
        }
        Ok(ends)
    }
}
