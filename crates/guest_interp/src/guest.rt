// How a guest goes on by itself, and once it is answered.
ghost use Rattle.std.specs.Prelude.{◌≡◌, ◌+◌, ◌-◌, ◌<◌, ◌≤◌};
ghost use Rattle.x86_base.specs.Spelling.{IsSpelled};
ghost use Rattle.image_file.specs.Image.{opening_ram};
ghost use Rattle.event_table.specs.Lawful.{count_of};
ghost use Rattle.event_table.specs.Plan.{Moved, end_of as end_by};
ghost use Rattle.event_table.specs.Raising.{IsRaisable, step_raised};
ghost use Rattle.guest_interp.specs.Stepping.{counted, next_within, results_of, start_of, step_of, stepped_by};
ghost use Rattle.guest_interp.specs.declared.guest.Step.TheVariants as stepped;
ghost use Rattle.guest_interp.specs.Guest.{IsAskedBy, IsAsking, IsLawfulStep, IsLawfulStop, IsStill, IsWaitedBy};
ghost use Rattle.guest_interp.specs.Guest.{IsNamedBy, as_placed, as_stepped, as_stop, counted_vcpu};
ghost use Rattle.guest_interp.specs.Guest.{steps_placed, steps_then, vcpu_in};

use crate::fetching::fetch_into;
use crate::stepping::{Unfinished, attempt};
use event_table::{End, Event, Reply, place, raise};
use image_file::{Image, Ram};
use string_io::place_block;
use x86_base::{Flags, Insn, Reg, Regs, Stop as Stopped};

/// The registers and the RAM of a vCPU, and the steps that it has counted.
#[derive(Drop)]
pub struct Guest {
    pub regs: Regs,
    pub ram: Ram,
    pub steps: u64,
}

/// What one instruction comes to.
#[derive(Clone, Copy, Debug, PartialEq, Eq)]
pub enum Step {
    /// It is over.
    Goes,
    /// It asks for the event that is then in its place.
    Asks,
    /// It ends the vCPU.
    Ends(End),
}

/// Where a guest stops by itself.
#[derive(Clone, Copy, Debug, PartialEq, Eq)]
pub enum Stop {
    /// It waits for the answer to the event that is then in its place.
    Waits,
    /// It has ended.
    Ends(End),
}

/// How a vCPU ends that an instruction stops.
fn end_of(stop: Stopped) -> End
    ensures { result ≡ end_by stop }
{
    match stop {
        Stopped::Halted => End::Halted,
        Stopped::BadAddress(at) => End::BadAddress(at),
        Stopped::Fault(vector) => End::Fault(vector),
    }
}

impl Guest {
    /// vCPU `number` of an image as it starts, over the RAM that the image opens with.
    pub fn start(image: &Image, number: u16, ram: Ram) -> Guest
        requires opening { ram ≡ opening_ram image.now }
        ensures start { counted_vcpu result ≡ start_of image.now number }
    {
        let mut gpr = [0u64; 16];
        gpr[Reg::Rsp as usize] = u64::from(image.ram_size());
        gpr[Reg::Rsi as usize] = u64::from(image.vcpus());
        gpr[Reg::Rdi as usize] = u64::from(number);
        Guest {
            regs: Regs {
                gpr,
                rip: u64::from(image.entry()),
                flags: Flags::from_word(2),
            },
            ram,
            steps: 0,
        }
    }

    /// It ends; HLT counts its own step.
    fn ends(&mut self, end: End) -> Step
        requires counts { self.old.steps < u64.MAX }
        ensures end { result ≡ stepped.Ends end }
        ensures counted { self.new.steps ≡ counted end self.old.steps }
        ensures still { vcpu_in self.new ≡ vcpu_in self.old }
    {
        if let End::Halted = end {
            self.steps += 1;
        }
        Step::Ends(end)
    }

    /// One decoded instruction, with the places of the event that it may ask for and of what is unfinished.
    #[inline(always)]
    fn execute(&mut self, insn: &Insn, event: &mut Event, unfinished: &mut Unfinished) -> Step
        requires counts { self.old.steps < u64.MAX }
        requires spelled { IsSpelled insn.now }
        ensures value { as_stepped result event.new (vcpu_in self.new) ≡ stepped_by insn.now (vcpu_in self.old) }
        ensures counted { self.new.steps ≡ steps_then result self.old.steps }
        ensures lawful { IsLawfulStep result event.new }
        ensures still { IsStill result (vcpu_in self.old) (vcpu_in self.new) }
        ensures named { IsNamedBy result event.new insn.now (vcpu_in self.new) }
    {
        if attempt(&mut self.regs, &mut self.ram, insn, event, unfinished) {
            self.steps += 1;
            return Step::Goes;
        }
        match *unfinished {
            Unfinished::Asks => Step::Asks,
            Unfinished::Stops(stop) => self.ends(end_of(stop)),
        }
    }

    /// One instruction, whose place is handed in, as are those of an event and of what is unfinished: the
    /// guest goes on, asks for an event with nothing changed, or ends. Where it asks, the instruction that
    /// does and the event are in their places; else what is in the event's place is unspecified, as is what
    /// is in that of the unfinished in any case.
    #[inline(always)]
    pub fn step_once(
        &mut self,
        insn: &mut Insn,
        event: &mut Event,
        unfinished: &mut Unfinished,
    ) -> Step
        requires counts { self.old.steps < u64.MAX }
        ensures value { as_stepped result event.new (vcpu_in self.new) ≡ step_of (vcpu_in self.old) }
        ensures counted { self.new.steps ≡ steps_then result self.old.steps }
        ensures lawful { IsLawfulStep result event.new }
        ensures asked { IsAskedBy result event.new insn.new (vcpu_in self.new) }
    {
        if let Err(end) = fetch_into(&self.regs, &mut self.ram, insn) {
            return self.ends(end);
        }
        self.execute(insn, event, unfinished)
    }

    /// Puts the reply to the event that the instruction at RIP asks in its places: each access is a step.
    #[inline(always)]
    pub fn place_results(&mut self, insn: &Insn, event: &Event, reply: &Reply)
        requires counts { self.old.steps + count_of event.now ≤ u64.MAX }
        requires asked { IsAsking insn.now event.now (vcpu_in self.old) }
        ensures value { Moved (vcpu_in self.new) ≡ results_of reply.now (vcpu_in self.old) }
        ensures counted { self.new.steps ≡ self.old.steps + count_of event.now }
    {
        match event {
            Event::One(_) => {
                place(&mut self.regs, &mut self.ram, insn, &reply.values);
                self.steps += 1;
            }
            Event::Many(block) => {
                place_block(
                    &mut self.regs,
                    &mut self.ram,
                    insn,
                    block,
                    reply.bytes.as_slice(),
                );
                self.steps += u64::from(block.count);
            }
        }
    }

    /// Goes on at the image's handler of an exception, which is one step; or how it ends where the
    /// exception can't be delivered, with nothing changed.
    pub fn deliver(&mut self, image: &Image, vector: u8, code: u32) -> Result<(), End>
        requires counts { self.old.steps < u64.MAX }
        requires vector { IsRaisable vector }
        ensures value { as_placed result (vcpu_in self.new) ≡ step_raised image.now vector code (vcpu_in self.old) }
        ensures counted { self.new.steps ≡ steps_placed result self.old.steps }
    {
        if let Err(stop) = raise(&mut self.regs, &mut self.ram, image, vector, code) {
            return Err(end_of(stop));
        }
        self.steps += 1;
        Ok(())
    }

    /// Goes on until it asks for an event or has ended, within its budget of steps. Where it asks, the
    /// instruction that does and the event are in their places, which are handed in; else what is in the
    /// event's place is unspecified.
    pub fn next(&mut self, insn: &mut Insn, event: &mut Event, budget: u64) -> Stop
        ensures value { as_stop result event.new (counted_vcpu self.new) ≡ next_within budget (counted_vcpu self.old) }
        ensures lawful { IsLawfulStop result event.new self.new.steps budget }
        ensures waited { IsWaitedBy result event.new insn.new (vcpu_in self.new) }
    {
        let mut unfinished = Unfinished::Asks;
        while self.steps < budget {
            match self.step_once(insn, event, &mut unfinished) {
                Step::Goes => {}
                Step::Asks => return Stop::Waits,
                Step::Ends(end) => return Stop::Ends(end),
            }
        }
        Stop::Ends(End::Spent)
    }
}
