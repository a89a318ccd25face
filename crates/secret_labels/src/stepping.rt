// How a guest with labels goes on by itself.
ghost use Rattle.std.specs.Prelude.{◌≡◌};
ghost use Rattle.guest_interp.specs.Guest.{counted_vcpu, vcpu_in};
ghost use Rattle.secret_labels.specs.Following.{met_within, noted_step};
ghost use Rattle.secret_labels.specs.Notes.{IsLawfulMet, IsMetBy, as_met, as_noted};

use crate::eventing::note;
use crate::marks::Marks;
use crate::verdict::What;
use event_table::{End, Event};
use guest_interp::{Guest, Step, Unfinished, fetch_into};
use x86_base::Insn;

/// Where a guest with labels comes to.
#[derive(Clone, Copy, Debug, PartialEq, Eq)]
pub enum Met {
    /// A labelled value goes into something.
    Leaks(What),
    /// It waits for the answer to the event that is then in its place.
    Waits,
    /// It has ended.
    Ends(End),
}

/// What the instruction at RIP, whose place is handed in, uses of the labels, or the labels after it.
#[tactic(auto, unfolding(crate::specs::Following::noted_step))]
fn note_step(marks: &mut Marks, guest: &mut Guest, insn: &mut Insn) -> Option<What>
    ensures noted { as_noted result marks.new ≡ noted_step marks.old (vcpu_in guest.old) }
    ensures same { counted_vcpu guest.new ≡ counted_vcpu guest.old }
{
    match fetch_into(&guest.regs, &mut guest.ram, insn) {
        Ok(()) => note(marks, &guest.regs, &guest.ram, insn),
        Err(_) => None,
    }
}

/// Goes on until a label is used, or it asks for an event or has ended, within its budget of steps. Where it
/// asks, the instruction that does and the event are in their places, which are handed in; else what is in
/// the event's place is unspecified.
pub fn next(
    marks: &mut Marks,
    guest: &mut Guest,
    insn: &mut Insn,
    event: &mut Event,
    budget: u64,
) -> Met
    ensures met { as_met result event.new marks.new (counted_vcpu guest.new) ≡
        met_within budget marks.old (counted_vcpu guest.old) }
    ensures lawful { IsLawfulMet result event.new guest.new.steps budget }
    ensures waited { IsMetBy result event.new insn.new (vcpu_in guest.new) }
{
    let mut unfinished = Unfinished::Asks;
    while guest.steps < budget {
        if let Some(what) = note_step(marks, guest, insn) {
            return Met::Leaks(what);
        }
        match guest.step_once(insn, event, &mut unfinished) {
            Step::Goes => {}
            Step::Asks => return Met::Waits,
            Step::Ends(end) => return Met::Ends(end),
        }
    }
    Met::Ends(End::Spent)
}
