// A vCPU whose events the devices answer at once.
ghost use Rattle.std.specs.Prelude.{◌≡◌, ◌++◌, ◌-◌, ◌<◌, ◌≤◌, ◌^◌, OnOk};
ghost use Rattle.image_file.specs.Image.{opening_ram};
ghost use Rattle.guest_interp.specs.Stepping.{next_within, start_of};
ghost use Rattle.plain_machine.specs.Plain.{devices_then, end_of, has_ended as is_over, stop_then, turns_then, vcpu_of};

use crate::wired_guest::WiredGuest;
use device_bus::Bus;
use event_table::{End, Turn};
use guest_interp::Stop;
use image_file::{Image, Ram};
use std::alloc::AllocError as OutOfMemory;
use std::marker::Model;

/// A vCPU of an image that waits for its next event, or has ended.
#[derive(Drop)]
pub struct PlainVcpu {
    wired: WiredGuest,
    stop: Stop,
}

impl Model for PlainVcpu {
    ghost use Rattle.guest_interp.specs.Stepping.{Standstill};
    ghost use Rattle.guest_interp.specs.Guest.{as_stop, counted_vcpu};
    ghost use Rattle.plain_machine.specs.Wired.{IsKept};

    ghost Value = { Standstill };

    ghost view = { λ v. as_stop v.stop v.wired.event (counted_vcpu v.wired.guest) };

    ghost invariant = { λ v. IsKept v.stop v.wired };
}

impl PlainVcpu {
    /// A vCPU of an image, gone on from its start to its first event or its end.
    pub fn start(image: &Image, number: u16, ram: Ram, budget: u64) -> PlainVcpu
        requires opening { ram ≡ opening_ram image.now }
        requires budget { budget ≤ 2 ^ 64 - 2032 }
        ensures stop { result ≡ next_within budget (start_of image.now number) }
    {
        let mut wired = WiredGuest::start(image, number, ram);
        let stop = wired.run_to_event(budget);
        PlainVcpu { wired, stop }
    }

    /// Gives it one item if it waits: the devices answer its event, and it goes on to its next stop. The
    /// memory is taken before anything changes.
    pub fn take_turn(
        &mut self,
        image: &Image,
        number: u16,
        bus: &mut Bus,
        order: &mut Vec<Turn>,
        budget: u64,
    ) -> Result<(), OutOfMemory>
        requires known { number < bus.old.devices.vcpus }
        requires budget { budget ≤ 2 ^ 64 - 2032 }
        ensures stop { OnOk result (self.new ≡ stop_then image.now budget number self.old bus.old.devices) }
        ensures devices { OnOk result (bus.new.devices ≡ devices_then number self.old bus.old.devices) }
        ensures vcpus { bus.new.devices.vcpus ≡ bus.old.devices.vcpus }
        ensures order { OnOk result (order.new.items ≡ order.old.items ++ turns_then number self.old) }
    {
        if let Stop::Waits = self.stop {
            let count = self.wired.event.count();
            bus.reserve(usize::from(count))?;
            order.push(Turn {
                vcpu: number,
                count,
            })?;
            self.stop = self.wired.do_event(image, number, bus, budget);
        }
        Ok(())
    }

    /// The steps that it has counted.
    pub fn steps(&self) -> u64
        ensures steps { result ≡ (vcpu_of self.now).steps }
    {
        self.wired.guest.steps
    }

    /// Whether it has ended.
    pub fn has_ended(&self) -> bool
        ensures ended { result ≡ is_over self.now }
    {
        matches!(self.stop, Stop::Ends(_))
    }

    /// Its end, where it has ended.
    pub fn end(&self) -> Option<End>
        ensures end { result ≡ end_of self.now }
    {
        match self.stop {
            Stop::Waits => None,
            Stop::Ends(end) => Some(end),
        }
    }
}
