// A guest with labels: what comes of its events, up to the verdict.
ghost use Rattle.std.specs.Prelude.{◌≡◌, ◌+◌, ◌-◌, ◌<◌, ◌≤◌, ◌^◌, None};
ghost use Rattle.page_words.specs.Told.{HasRoom};
ghost use Rattle.page_words.specs.Dialogue.{Runs};
ghost use Rattle.event_table.specs.Lawful.{IsLawfulEvent, count_of};
ghost use Rattle.event_table.specs.Raising.{IsRaisable};
ghost use Rattle.guest_interp.specs.Guest.{IsAsking, counted_vcpu, vcpu_in};
ghost use Rattle.vc_handler.specs.Accept.{outcome_in};
ghost use Rattle.vcpu_core.specs.Resuming.{IsTakable};
ghost use Rattle.secret_labels.specs.Following.{met_heard, met_placed, met_raised, met_within};
ghost use Rattle.secret_labels.specs.Following.{noted_results, verdict_from, verdict_on};
ghost use Rattle.secret_labels.specs.Marked.{IsLater, IsReady, event_met, met_in};
ghost use Rattle.secret_labels.specs.Notes.{as_noted};

use crate::eventing::note_reply;
use crate::marks::Marks;
use crate::raising::note_raise;
use crate::stepping::{Met, next};
use crate::verdict::{Verdict, What};
use event_table::{End, Event, Reply};
use guest_interp::Guest;
use image_file::Image;
use page_words::Page;
use vc_handler::{Answer, Vc, empty_reply};
use x86_base::Insn;

/// A guest with its labels, and the places of its event. No call moves them.
#[derive(Drop)]
pub struct MarkedGuest {
    pub marks: Marks,
    pub guest: Guest,
    /// Where it waits for an event, the instruction that asks it.
    pub insn: Insn,
    /// Where it waits for an event, the event.
    pub event: Event,
}

impl MarkedGuest {
    /// Goes on until a label is used, or it waits for an event or has ended, within its budget of steps.
    fn advance(&mut self, budget: u64) -> Met
        ensures met { met_in result self.new ≡ met_within budget self.old.marks (counted_vcpu self.old.guest) }
        ensures ready { IsReady result self.new budget }
    {
        next(
            &mut self.marks,
            &mut self.guest,
            &mut self.insn,
            &mut self.event,
            budget,
        )
    }

    /// What the reply to its event uses of the labels, or the labels after it.
    fn note_placed(&mut self, reply: &Reply) -> Option<What>
        requires there { IsAsking self.old.insn self.old.event (vcpu_in self.old.guest) }
        ensures noted { as_noted result self.new.marks ≡
            noted_results reply.now self.old.marks (vcpu_in self.old.guest) }
        ensures guest { self.new.guest ≡ self.old.guest }
        ensures insn { self.new.insn ≡ self.old.insn }
        ensures event { self.new.event ≡ self.old.event }
    {
        note_reply(
            &mut self.marks,
            &self.guest.regs,
            &self.guest.ram,
            &self.insn,
            reply,
        )
    }

    /// Its results are placed, and it goes on.
    fn place(&mut self, reply: &Reply, budget: u64) -> Met
        requires counts { self.old.guest.steps + count_of self.old.event ≤ u64.MAX }
        requires some { 1 ≤ count_of self.old.event }
        requires there { IsAsking self.old.insn self.old.event (vcpu_in self.old.guest) }
        ensures met { met_in result self.new ≡
            met_placed budget self.old.event reply.now self.old.marks (counted_vcpu self.old.guest) }
        ensures ready { IsReady result self.new budget }
        ensures later { IsLater result self.old.guest.steps self.new.guest.steps }
    {
        if let Some(what) = self.note_placed(reply) {
            return Met::Leaks(what);
        }
        self.guest.place_results(&self.insn, &self.event, reply);
        self.advance(budget)
    }

    /// An exception is delivered, and it goes on.
    fn raise(&mut self, image: &Image, vector: u8, code: u32, budget: u64) -> Met
        requires counts { self.old.guest.steps < u64.MAX }
        requires vector { IsRaisable vector }
        ensures met { met_in result self.new ≡
            met_raised image.now budget vector code self.old.marks (counted_vcpu self.old.guest) }
        ensures ready { IsReady result self.new budget }
        ensures later { IsLater result self.old.guest.steps self.new.guest.steps }
    {
        let regs = &self.guest.regs;
        let ram = &self.guest.ram;
        if let Some(what) = note_raise(&mut self.marks, regs, ram, image, vector, code) {
            return Met::Leaks(what);
        }
        match self.guest.deliver(image, vector, code) {
            Ok(()) => self.advance(budget),
            Err(end) => Met::Ends(end),
        }
    }

    /// What comes of the answer to its event.
    fn settle<P: Page>(
        &mut self,
        image: &Image,
        answer: Answer,
        reply: &Reply,
        page: &mut P,
        budget: u64,
    ) -> Met
        requires step { self.old.guest.steps < u64.MAX }
        requires counts { self.old.guest.steps + count_of self.old.event ≤ u64.MAX }
        requires some { 1 ≤ count_of self.old.event }
        requires takable { IsTakable (outcome_in answer reply.now) }
        requires there { IsAsking self.old.insn self.old.event (vcpu_in self.old.guest) }
        requires room { HasRoom (P.told page.old) 1 }
        ensures runs { let c = counted_vcpu self.old.guest in let outcome = outcome_in answer reply.now in
            Runs (met_heard image.now budget self.old.marks c self.old.event outcome) (met_in result self.new)
            (P.told page.old) (P.told page.new) }
        ensures ready { IsReady result self.new budget }
        ensures later { IsLater result self.old.guest.steps self.new.guest.steps }
    {
        match answer {
            Answer::Done => self.place(reply, budget),
            Answer::Raise { vector, code } => self.raise(image, vector, code, budget),
            Answer::Terminate(reason) => {
                Vc::new(0).terminate(&reason, page);
                Met::Ends(End::Terminated(reason))
            }
        }
    }

    /// Shows its event, listens to the reply, whose place is handed in, and goes on.
    fn exchange<P: Page>(
        &mut self,
        image: &Image,
        reply: &mut Reply,
        page: &mut P,
        budget: u64,
    ) -> Met
        requires budget { budget ≤ 2 ^ 64 - 2032 }
        requires lawful { IsLawfulEvent self.old.event }
        requires within { self.old.guest.steps < budget }
        requires there { IsAsking self.old.insn self.old.event (vcpu_in self.old.guest) }
        requires room { (P.told page.old).spare ≡ None }
        ensures runs { let c = counted_vcpu self.old.guest in
            Runs (event_met image.now budget self.old.marks c self.old.event) (met_in result self.new)
            (P.told page.old) (P.told page.new) }
        ensures room { (P.told page.new).spare ≡ None }
        ensures ready { IsReady result self.new budget }
        ensures later { IsLater result self.old.guest.steps self.new.guest.steps }
    {
        let vc = Vc::new(0);
        vc.show(&self.event, page);
        let answer = vc.accept_into(&self.event, page, reply);
        self.settle(image, answer, reply, page, budget)
    }

    /// From where it stands: each event is shown and its reply listened to, up to the verdict.
    fn conclude<P: Page>(&mut self, start: Met, image: &Image, page: &mut P, budget: u64) -> Verdict
        requires budget { budget ≤ 2 ^ 64 - 2032 }
        requires ready { IsReady start self.old budget }
        requires room { (P.told page.old).spare ≡ None }
        ensures verdict { Runs (verdict_from budget image.now budget (met_in start self.old)) result
            (P.told page.old) (P.told page.new) }
    {
        let mut met = start;
        let mut reply = empty_reply();
        'events: loop {
            match met {
                Met::Leaks(what) => return Verdict::Flows {
                    step: self.guest.steps,
                    what,
                },
                Met::Ends(end) => return Verdict::Clean {
                    end,
                    steps: self.guest.steps,
                },
                Met::Waits => met = self.exchange(image, &mut reply, page, budget),
            }
        }
    }

    /// The whole run: the host's versions are asked for and heard, and then come the events.
    pub fn run<P: Page>(&mut self, image: &Image, page: &mut P, budget: u64) -> Verdict
        requires budget { budget ≤ 2 ^ 64 - 2032 }
        requires room { (P.told page.old).spare ≡ None }
        ensures verdict { Runs (verdict_on self.old.marks (counted_vcpu self.old.guest) image.now budget) result
            (P.told page.old) (P.told page.new) }
    {
        let vc = Vc::new(0);
        vc.ask(page);
        match vc.negotiate(page) {
            Ok(_) => {
                let met = self.advance(budget);
                self.conclude(met, image, page, budget)
            }
            Err(reason) => {
                vc.terminate(&reason, page);
                Verdict::Clean {
                    end: End::Terminated(reason),
                    steps: self.guest.steps,
                }
            }
        }
    }
}
