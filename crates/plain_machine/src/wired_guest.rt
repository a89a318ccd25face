// A guest that the devices answer, with nothing between them.
ghost use Rattle.std.specs.Prelude.{◌≡◌, ◌-◌, ◌<◌, ◌≤◌, ◌^◌};
ghost use Rattle.image_file.specs.Image.{opening_ram};
ghost use Rattle.event_table.specs.Lawful.{count_of};
ghost use Rattle.device_bus.specs.History.{after_event};
ghost use Rattle.guest_interp.specs.Guest.{as_placed, as_stop, counted_vcpu, vcpu_in};
ghost use Rattle.guest_interp.specs.Stepping.{next_within, start_of};
ghost use Rattle.guest_interp.specs.declared.guest.Stop.TheVariants.{Waits};
ghost use Rattle.plain_machine.specs.Plain.{stop_after_event};
ghost use Rattle.plain_machine.specs.Single.{event_applied};
ghost use Rattle.plain_machine.specs.Wired.{IsKept, steps_answered};

use device_bus::{Answer, Bus, block_bytes};
use event_table::{Access, Bytes, End, Event, Reply, Values};
use guest_interp::{Guest, Stop};
use image_file::{Image, Ram};
use x86_base::Insn;

/// No results in registers.
const NO_VALUES: Values = Values {
    a: 0,
    c: 0,
    d: 0,
    b: 0,
};

/// A guest with its event. What is large stands here and is written in place.
#[derive(Drop)]
pub struct WiredGuest {
    pub guest: Guest,
    /// Where it waits for an event, the instruction that asks it.
    pub insn: Insn,
    /// Where it waits for an event, the event.
    pub event: Event,
    /// Where the devices' answer is put together.
    pub reply: Reply,
}

impl WiredGuest {
    /// vCPU `number` of an image as it starts, over the RAM that the image opens with.
    pub fn start(image: &Image, number: u16, ram: Ram) -> WiredGuest
        requires opening { ram ≡ opening_ram image.now }
        ensures start { counted_vcpu result.guest ≡ start_of image.now number }
    {
        WiredGuest {
            guest: Guest::start(image, number, ram),
            insn: Insn::NOP,
            event: Event::One(Access::Wbinvd),
            reply: Reply {
                values: NO_VALUES,
                bytes: Bytes::new(),
            },
        }
    }

    /// Goes on to its next event or its end.
    pub fn run_to_event(&mut self, budget: u64) -> Stop
        requires budget { budget ≤ 2 ^ 64 - 2032 }
        ensures stop { as_stop result self.new.event (counted_vcpu self.new.guest) ≡
            next_within budget (counted_vcpu self.old.guest) }
        ensures kept { IsKept result self.new }
    {
        self.guest.next(&mut self.insn, &mut self.event, budget)
    }

    /// The devices do the accesses of its event, one after another; then their results are placed, or the
    /// exception is delivered, or it is told how the guest ends.
    fn take_answer(&mut self, image: &Image, number: u16, bus: &mut Bus) -> Result<(), End>
        requires kept { IsKept Waits self.old }
        requires known { number < bus.old.devices.vcpus }
        requires room { count_of self.old.event ≤ bus.old.spare }
        ensures value { as_placed result (vcpu_in self.new.guest) ≡
            event_applied image.now number self.old.event (vcpu_in self.old.guest) bus.old.devices }
        ensures counted { self.new.guest.steps ≡
            steps_answered result (count_of self.old.event) self.old.guest.steps }
        ensures devices { bus.new.devices ≡ after_event bus.old.devices number self.old.event }
        ensures vcpus { bus.new.devices.vcpus ≡ bus.old.devices.vcpus }
    {
        match &self.event {
            Event::One(access) => match bus.access(number, access) {
                Answer::Done(values) => {
                    self.reply.values = values;
                    self.reply.bytes.truncate(0);
                }
                Answer::Raise { vector, code } => return self.guest.deliver(image, vector, code),
            },
            Event::Many(block) => {
                self.reply.values = NO_VALUES;
                self.reply.bytes = block_bytes(bus, number, block);
            }
        }
        self.guest
            .place_results(&self.insn, &self.event, &self.reply);
        Ok(())
    }

    /// Its event is done, and it goes on to its next event or its end.
    pub fn do_event(&mut self, image: &Image, number: u16, bus: &mut Bus, budget: u64) -> Stop
        requires kept { IsKept Waits self.old }
        requires known { number < bus.old.devices.vcpus }
        requires room { count_of self.old.event ≤ bus.old.spare }
        requires budget { budget ≤ 2 ^ 64 - 2032 }
        ensures stop { as_stop result self.new.event (counted_vcpu self.new.guest) ≡
            stop_after_event image.now budget number self.old.event (counted_vcpu self.old.guest) bus.old.devices }
        ensures kept { IsKept result self.new }
        ensures devices { bus.new.devices ≡ after_event bus.old.devices number self.old.event }
        ensures vcpus { bus.new.devices.vcpus ≡ bus.old.devices.vcpus }
    {
        match self.take_answer(image, number, bus) {
            Ok(()) => self.run_to_event(budget),
            Err(end) => Stop::Ends(end),
        }
    }
}
