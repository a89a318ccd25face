// The #VC handler of a vCPU.
ghost use Rattle.std.specs.Prelude.{◌≡◌, ◌<◌, ◌^◌, [], ◌∷◌, IfOk, IfSome};
ghost use Rattle.page_words.specs.Told.{HasRoom, Makes};
ghost use Rattle.page_words.specs.Dialogue.{Reads};
ghost use Rattle.page_words.specs.declared.item.Item.TheVariants.{Exit};
ghost use Rattle.ghcb_layout.specs.Address as pages;
ghost use Rattle.event_table.specs.Lawful.{IsLawfulEvent};
ghost use Rattle.event_table.specs.Events.{asked_by};
ghost use Rattle.event_table.specs.Places.{vcpu};
ghost use Rattle.vc_handler.specs.Accept.{accepting, outcome_in};
ghost use Rattle.vc_handler.specs.Begin.{begun};
ghost use Rattle.vc_handler.specs.Version.{farewell, negotiated, negotiating, question};
ghost use Rattle.vc_handler.specs.Wire.{wire};

use crate::accept::{Answer, empty_reply, take_reply};
use crate::wire::show_event;
use event_table::{Event, Outcome, Reason, Reply, is_string, named, vc_code};
use ghcb_layout::ghcb_of;
use image_file::Ram;
use insn_decode::decode;
use msr_protocol::{MsrWord, write};
use page_words::Page;
use std::marker::Model;
use string_io::block;
use x86_base::{Insn, Regs};

/// A code of #VC that no event of the instruction at RIP has; it keeps the code.
#[derive(Clone, Copy, Debug, PartialEq, Eq)]
pub struct Unsupported(pub u64);

/// The event, where it has this code.
fn of_code(code: u64, event: Option<Event>) -> Result<Event, Unsupported>
    requires lawful { IfSome event IsLawfulEvent }
    ensures event { result ≡ Rattle.vc_handler.specs.Begin.of_code code event }
    ensures lawful { IfOk result IsLawfulEvent }
{
    match event {
        Some(event) if vc_code(&event) == code => Ok(event),
        _ => Err(Unsupported(code)),
    }
}

/// What an instruction asks: an access, or the next block of a string instruction.
fn asked(regs: &Regs, ram: &Ram, insn: &Insn) -> Option<Event>
    ensures value { result ≡ asked_by insn.now (vcpu regs.now ram.now) }
    ensures lawful { IfSome result IsLawfulEvent }
{
    if is_string(insn) {
        Some(Event::Many(block(regs, ram, insn)?))
    } else {
        Some(Event::One(named(regs, ram, insn)?))
    }
}

/// The version that an answer of the host offers: version 1, where the word is an answer and its range has
/// 1, whatever its other bits.
fn offered(word: u64) -> Result<u16, Reason>
    ensures version { result ≡ negotiated word }
{
    let max = word >> 48;
    let min = word >> 32 & 0xFFFF;
    if word & 0xFFF == 0x001 && min <= 1 && 1 <= max {
        Ok(1)
    } else {
        Err(Reason::NoProtocol(word))
    }
}

/// The #VC handler of one vCPU.
#[derive(Clone, Copy)]
pub struct Vc {
    vcpu: u16,
}

impl Model for Vc {
    ghost use Rattle.std.specs.Prelude.{ℕ};

    ghost Value = { ℕ };

    ghost view = { λ v. v.vcpu };

    ghost inverse = { λ n. record { vcpu = n } };
}

impl Vc {
    /// The handler of vCPU `vcpu`.
    pub fn new(vcpu: u16) -> Vc
        ensures vcpu { result ≡ vcpu }
    {
        Vc { vcpu }
    }

    /// The address of the vCPU's page.
    pub fn ghcb(&self) -> u64
        ensures address { result ≡ pages.ghcb_of self.now }
        ensures fits { result < 2 ^ 63 }
    {
        ghcb_of(self.vcpu)
    }

    /// The event for which #VC was raised with this code: what the instruction at RIP, which is decoded
    /// again, asks. Unsupported exactly where the bytes there are no instruction that exits with this code.
    pub fn begin(&self, code: u64, regs: &Regs, ram: &Ram) -> Result<Event, Unsupported>
        ensures event { result ≡ begun code (vcpu regs.now ram.now) }
        ensures lawful { IfOk result IsLawfulEvent }
    {
        let Ok(insn) = decode(ram.code_at(regs.rip)) else {
            return Err(Unsupported(code));
        };
        of_code(code, asked(regs, ram, &insn))
    }

    /// Shows an event: exactly its wire form, in order.
    pub fn show<P: Page>(&self, event: &Event, page: &mut P)
        requires lawful { IsLawfulEvent event.now }
        requires room { HasRoom (P.told page.old) 320 }
        ensures wire { Makes (P.told page.old) (wire self.now event.now) (P.told page.new) }
    {
        show_event(page, event, self.ghcb());
    }

    /// Takes the reply to an event: exactly these loads, each word at most once, and what they come to.
    pub fn accept<P: Page>(&self, event: &Event, page: &mut P) -> Outcome
        requires lawful { IsLawfulEvent event.now }
        requires room { HasRoom (P.told page.old) 320 }
        ensures reads { Reads (accepting event.now) result (P.told page.old) (P.told page.new) }
        ensures room { HasRoom (P.told page.new) 1 }
    {
        let mut reply = empty_reply();
        match self.accept_into(event, page, &mut reply) {
            Answer::Done => Outcome::Done(reply),
            Answer::Raise { vector, code } => Outcome::Raise { vector, code },
            Answer::Terminate(reason) => Outcome::Terminate(reason),
        }
    }

    /// Takes the reply to an event as [`Vc::accept`] does, into a place that is handed in: for an access its
    /// bytes are not moved. Where the answer isn't `Done`, nothing is said of what stands in the place.
    pub fn accept_into<P: Page>(&self, event: &Event, page: &mut P, reply: &mut Reply) -> Answer
        requires lawful { IsLawfulEvent event.now }
        requires room { HasRoom (P.told page.old) 320 }
        ensures reads { Reads (accepting event.now) (outcome_in result reply.new) (P.told page.old) (P.told page.new) }
        ensures room { HasRoom (P.told page.new) 1 }
    {
        take_reply(page, event, reply)
    }

    /// Asks the host for its versions of the protocol.
    pub fn ask<P: Page>(&self, page: &mut P)
        requires room { HasRoom (P.told page.old) 1 }
        ensures exit { Makes (P.told page.old) (Exit question ∷ []) (P.told page.new) }
    {
        page.exit(write(&MsrWord::SevInfoRequest));
    }

    /// Reads the host's answer: version 1, where the word is an answer and its range has 1, whatever its
    /// other bits.
    pub fn negotiate<P: Page>(&self, page: &mut P) -> Result<u16, Reason>
        requires room { HasRoom (P.told page.old) 1 }
        ensures reads { Reads negotiating result (P.told page.old) (P.told page.new) }
    {
        offered(page.msr())
    }

    /// Tells the host that the guest ends its communication, and why: no version fits, or the general reason.
    pub fn terminate<P: Page>(&self, reason: &Reason, page: &mut P)
        requires room { HasRoom (P.told page.old) 1 }
        ensures exit { Makes (P.told page.old) (Exit (farewell reason.now) ∷ []) (P.told page.new) }
    {
        let code = match reason {
            Reason::NoProtocol(_) => 1,
            _ => 0,
        };
        page.exit(write(&MsrWord::Terminate { set: 0, code }));
    }
}
