// A guest with its #VC handler: what it does in one call, by where it stands.
ghost use Rattle.std.specs.Prelude.{◌≡◌, ◌+◌, ◌-◌, ◌<◌, ◌≤◌, ◌^◌, [], ◌∷◌};
ghost use Rattle.event_table.specs.declared.end.End.TheVariants as ends;
ghost use Rattle.event_table.specs.Lawful.{count_of};
ghost use Rattle.guest_interp.specs.Guest.{IsAsking, counted_vcpu, vcpu_in};
ghost use Rattle.page_words.specs.Told.{HasRoom, Makes};
ghost use Rattle.page_words.specs.Dialogue.{Runs};
ghost use Rattle.page_words.specs.declared.item.Item.TheVariants.{Exit};
ghost use Rattle.vc_handler.specs.Accept.{outcome_in};
ghost use Rattle.vc_handler.specs.Version.{farewell};
ghost use Rattle.vcpu_core.specs.declared.stage.Stage.TheVariants as stages;
ghost use Rattle.vcpu_core.specs.Phase as phases;
ghost use Rattle.vcpu_core.specs.State.{IsKept, IsResting, IsThere, standing, state};
ghost use Rattle.vcpu_core.specs.Running.{IsWithin, state_advanced, items_said};
ghost use Rattle.vcpu_core.specs.Resuming.{IsTakable, resuming, settling};

use crate::stage::Stage;
use event_table::{End, Event, Reason, Reply};
use guest_interp::{Guest, Stop};
use image_file::Image;
use page_words::Page;
use vc_handler::{Answer, Vc};
use x86_base::Insn;

/// A guest with its #VC handler. What is large stands here and is written in place: no call moves it.
#[derive(Drop)]
pub struct HandledGuest {
    pub vc: Vc,
    pub guest: Guest,
    /// Where it waits for an event, the instruction that asks it.
    pub insn: Insn,
    /// Where it waits for an event, the event.
    pub event: Event,
    /// The reply to its last event.
    pub reply: Reply,
    /// Where it has ended, its end.
    pub end: End,
}

impl HandledGuest {
    /// It has ended.
    fn ended(&mut self, end: End) -> Stage
        ensures goes { standing self.new result ≡ state self.old.vc (counted_vcpu self.old.guest) (phases.Ended end) }
        ensures stage { result ≡ stages.Ended }
        ensures guest { self.new.guest ≡ self.old.guest }
    {
        self.end = end;
        Stage::Ended
    }

    /// Goes on to its next event, and shows it, or to its end.
    fn run_to_event<P: Page>(&mut self, page: &mut P, budget: u64) -> Stage
        requires budget { budget ≤ 2 ^ 64 - 2032 }
        requires room { HasRoom (P.told page.old) 320 }
        ensures says { Makes (P.told page.old) (items_said budget (standing self.old stages.Going)) (P.told page.new) }
        ensures goes { standing self.new result ≡ state_advanced budget (standing self.old stages.Going) }
        ensures within { IsWithin budget (standing self.old stages.Going) (standing self.new result) }
        ensures kept { IsKept result self.new }
        ensures there { IsThere result self.new }
    {
        match self.guest.next(&mut self.insn, &mut self.event, budget) {
            Stop::Waits => {
                self.vc.show(&self.event, page);
                Stage::Waits
            }
            Stop::Ends(end) => self.ended(end),
        }
    }

    /// Goes on from where it stands: a new vCPU asks the host for its versions, and one that goes by itself
    /// comes to its next event, and shows it, or to its end. Any other stays.
    pub fn advance<P: Page>(&mut self, stage: Stage, page: &mut P, budget: u64) -> Stage
        requires budget { budget ≤ 2 ^ 64 - 2032 }
        requires room { HasRoom (P.told page.old) 320 }
        requires kept { IsKept stage self.old }
        requires there { IsThere stage self.old }
        ensures says { Makes (P.told page.old) (items_said budget (standing self.old stage)) (P.told page.new) }
        ensures goes { standing self.new result ≡ state_advanced budget (standing self.old stage) }
        ensures within { IsWithin budget (standing self.old stage) (standing self.new result) }
        ensures kept { IsKept result self.new }
        ensures there { IsThere result self.new }
    {
        match stage {
            Stage::New => {
                self.vc.ask(page);
                Stage::Asked
            }
            Stage::Going => self.run_to_event(page, budget),
            stays => stays,
        }
    }

    /// Tells the host that it ends the communication, and has ended.
    fn end_with<P: Page>(&mut self, reason: &Reason, page: &mut P) -> Stage
        requires room { HasRoom (P.told page.old) 1 }
        ensures goes { standing self.new result ≡
            state self.old.vc (counted_vcpu self.old.guest) (phases.Ended (ends.Terminated reason.now)) }
        ensures stage { result ≡ stages.Ended }
        ensures exit { Makes (P.told page.old) (Exit (farewell reason.now) ∷ []) (P.told page.new) }
    {
        self.vc.terminate(reason, page);
        self.ended(End::Terminated(*reason))
    }

    /// Hears which versions the host has: it goes on at version 1, or ends.
    fn take_versions<P: Page>(&mut self, image: &Image, page: &mut P) -> Stage
        requires room { HasRoom (P.told page.old) 2 }
        ensures runs { Runs (resuming image.now (standing self.old stages.Asked)) (standing self.new result)
            (P.told page.old) (P.told page.new) }
        ensures vc { self.new.vc ≡ self.old.vc }
        ensures rests { IsResting result }
    {
        match self.vc.negotiate(page) {
            Ok(_) => Stage::Going,
            Err(reason) => self.end_with(&reason, page),
        }
    }

    /// What comes of the answer to its event, whose reply stands in its place.
    fn apply_answer<P: Page>(&mut self, image: &Image, answer: Answer, page: &mut P) -> Stage
        requires step { self.old.guest.steps < u64.MAX }
        requires counts { self.old.guest.steps + count_of self.old.event ≤ u64.MAX }
        requires takable { IsTakable (outcome_in answer self.old.reply) }
        requires there { IsAsking self.old.insn self.old.event (vcpu_in self.old.guest) }
        requires room { HasRoom (P.told page.old) 1 }
        ensures runs { let outcome = outcome_in answer self.old.reply in
            Runs (settling image.now self.old.vc (counted_vcpu self.old.guest) self.old.event outcome)
            (standing self.new result) (P.told page.old) (P.told page.new) }
        ensures vc { self.new.vc ≡ self.old.vc }
        ensures rests { IsResting result }
    {
        match answer {
            Answer::Done => {
                self.guest
                    .place_results(&self.insn, &self.event, &self.reply);
                Stage::Going
            }
            Answer::Raise { vector, code } => match self.guest.deliver(image, vector, code) {
                Ok(()) => Stage::Going,
                Err(end) => self.ended(end),
            },
            Answer::Terminate(reason) => self.end_with(&reason, page),
        }
    }

    /// Hears the reply to its event, and takes it.
    fn take_reply<P: Page>(&mut self, image: &Image, page: &mut P) -> Stage
        requires kept { IsKept stages.Waits self.old }
        requires there { IsThere stages.Waits self.old }
        requires room { HasRoom (P.told page.old) 320 }
        ensures runs { Runs (resuming image.now (standing self.old stages.Waits)) (standing self.new result)
            (P.told page.old) (P.told page.new) }
        ensures vc { self.new.vc ≡ self.old.vc }
        ensures rests { IsResting result }
    {
        let answer = self.vc.accept_into(&self.event, page, &mut self.reply);
        self.apply_answer(image, answer, page)
    }

    /// Hears what it waits for: the host's versions, or the reply to its event. One that waits for nothing
    /// stays.
    pub fn take_answer<P: Page>(&mut self, stage: Stage, image: &Image, page: &mut P) -> Stage
        requires room { HasRoom (P.told page.old) 320 }
        requires kept { IsKept stage self.old }
        requires there { IsThere stage self.old }
        ensures runs { Runs (resuming image.now (standing self.old stage)) (standing self.new result)
            (P.told page.old) (P.told page.new) }
        ensures vc { self.new.vc ≡ self.old.vc }
        ensures rests { IsResting result }
    {
        match stage {
            Stage::Asked => self.take_versions(image, page),
            Stage::Waits => self.take_reply(image, page),
            stays => stays,
        }
    }
}
