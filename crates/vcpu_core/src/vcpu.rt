// A vCPU that speaks over its page.
ghost use Rattle.std.specs.Prelude.{◌≡◌, ◌≤◌, ◌-◌, ◌^◌, false};
ghost use Rattle.image_file.specs.Image.{opening_ram};
ghost use Rattle.page_words.specs.Told.{HasRoom, Makes};
ghost use Rattle.page_words.specs.Dialogue.{Runs};
ghost use Rattle.vcpu_core.specs.Phase as phases;
ghost use Rattle.vcpu_core.specs.State.{IsLawfulPhase, end_in, is_waiting, pending_in, state};
ghost use Rattle.guest_interp.specs.Stepping.{start_of};
ghost use Rattle.vcpu_core.specs.Running.{IsWithin, state_advanced, progress_in, items_said};
ghost use Rattle.vcpu_core.specs.Resuming.{resuming};

use crate::handled_guest::HandledGuest;
use crate::stage::Stage;
use event_table::{Access, End, Event};
use guest_interp::Guest;
use image_file::{Image, Ram};
use page_words::Page;
use std::marker::Model;
use vc_handler::{Vc, empty_reply};
use x86_base::{Insn, Regs};

/// What comes of going on: the vCPU stands at an exit, or has ended.
#[derive(Clone, Copy, Debug, PartialEq, Eq)]
pub enum Progress {
    Exited,
    Ended,
}

/// A vCPU of an image: its registers, its RAM, the steps that it has counted, and where it stands.
#[derive(Drop)]
pub struct Vcpu {
    handled: HandledGuest,
    stage: Stage,
}

impl Model for Vcpu {
    ghost use Rattle.vcpu_core.specs.State.{State, IsKept, IsThere, standing};

    ghost Value = { State };

    ghost view = { λ v. standing v.handled v.stage };

    ghost invariant = { λ v. IsKept v.stage v.handled × IsThere v.stage v.handled };
}

impl Vcpu {
    /// A vCPU of an image as it starts, over the RAM that the image opens with: it has said nothing yet.
    pub fn new(image: &Image, vcpu: u16, ram: Ram) -> Vcpu
        requires opening { ram ≡ opening_ram image.now }
        ensures start { result ≡ state vcpu (start_of image.now vcpu) phases.New }
    {
        let handled = HandledGuest {
            vc: Vc::new(vcpu),
            guest: Guest::start(image, vcpu, ram),
            insn: Insn::NOP,
            event: Event::One(Access::Wbinvd),
            reply: empty_reply(),
            end: End::Spent,
        };
        Vcpu {
            handled,
            stage: Stage::New,
        }
    }

    /// The registers.
    pub fn regs(&self) -> &Regs
        ensures regs { result.now ≡ self.now.cpu.vcpu.regs }
    {
        &self.handled.guest.regs
    }

    /// The RAM.
    pub fn ram(&self) -> &Ram
        ensures ram { result.now ≡ self.now.cpu.vcpu.ram }
    {
        &self.handled.guest.ram
    }

    /// The steps that it has counted.
    pub fn steps(&self) -> u64
        ensures steps { result ≡ self.now.cpu.steps }
    {
        self.handled.guest.steps
    }

    /// The end, where it has ended.
    pub fn end(&self) -> Option<End>
        ensures end { result ≡ end_in self.now.phase }
    {
        match self.stage {
            Stage::Ended => Some(self.handled.end),
            _ => None,
        }
    }

    /// Whether it waits for the host: for its versions, or for the reply to an event.
    pub fn waiting(&self) -> bool
        ensures waiting { result ≡ is_waiting self.now.phase }
    {
        match self.stage {
            Stage::Asked | Stage::Waits => true,
            _ => false,
        }
    }

    /// The number of accesses of the event that it waits for: 0 where it waits for the host's versions, or
    /// for nothing.
    pub fn pending(&self) -> u16
        ensures pending { result ≡ pending_in self.now.phase }
    {
        match self.stage {
            Stage::Waits => self.handled.event.count(),
            _ => 0,
        }
    }

    /// Goes on to its next exit or its end. A new vCPU asks the host for its versions; later it shows its
    /// next event, or ends with nothing said, within its budget of steps. One that waits stays at its
    /// exit, and one that has ended stays ended. The last block may lead past the budget by less than 2,032
    /// steps, and the steps are counted in 64 bits: so the budget leaves room for them.
    pub fn run_to_exit<P: Page>(&mut self, _image: &Image, page: &mut P, budget: u64) -> Progress
        requires budget { budget ≤ 2 ^ 64 - 2032 }
        requires room { HasRoom (P.told page.old) 320 }
        ensures says { Makes (P.told page.old) (items_said budget self.old) (P.told page.new) }
        ensures goes { self.new ≡ state_advanced budget self.old }
        ensures within { IsWithin budget self.old self.new }
        ensures progress { result ≡ progress_in self.new.phase }
        ensures lawful { IsLawfulPhase self.new.phase }
        ensures number { self.new.number ≡ self.old.number }
    {
        self.stage = self.handled.advance(self.stage, page, budget);
        match self.stage {
            Stage::Ended => Progress::Ended,
            _ => Progress::Exited,
        }
    }

    /// Hears what it waits for. It reads the host's versions once, and goes on at version 1 or tells the
    /// host that it ends; or it takes the reply to its event, each word at most once: each access is a step,
    /// and an exception is one; or it ends, or ends and tells the host. Afterwards it doesn't wait.
    pub fn resume<P: Page>(&mut self, image: &Image, page: &mut P)
        requires room { HasRoom (P.told page.old) 320 }
        ensures runs { Runs (resuming image.now self.old) self.new (P.told page.old) (P.told page.new) }
        ensures number { self.new.number ≡ self.old.number }
        ensures rests { is_waiting self.new.phase ≡ false }
    {
        self.stage = self.handled.take_answer(self.stage, image, page);
    }
}
