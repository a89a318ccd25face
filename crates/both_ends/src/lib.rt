//! Both ends of the page agree: what a guest shows is what its hypervisor serves, and what the hypervisor
//! leaves is what the guest takes.
#![tactic(auto)]

#[cfg(test)]
mod tests;

ghost use Rattle.std.specs.Prelude.{◌≡◌, ◌<◌, IfOk, OnErr};
ghost use Rattle.image_file.specs.Format.{most_vcpus};
ghost use Rattle.page_words.specs.Told.{kept_after_all};
ghost use Rattle.event_table.specs.Lawful.{IsLawfulEvent};
ghost use Rattle.vc_handler.specs.Wire.{wire};
ghost use Rattle.both_ends.specs.BothEnds.{BothEndsAgree};
ghost use Rattle.both_ends.specs.Exchange.{Exchanged};

use event_table::{Event, Outcome};
use host_events::Host;
use page_words::{Word, Words};
use std::alloc::AllocError as OutOfMemory;
use vc_handler::Vc;

/// A page on which an event was shown is served with that event, and its reply is taken with what the
/// devices say.
pub fn agree()
    ensures law { BothEndsAgree }
{}

/// Shows an event on the page of a vCPU, whatever stands there, has the page served and takes the reply.
/// Out of memory, the host is as before, and the page is as the event was shown on it.
pub fn exchange<H: Host>(
    vcpu: u16,
    event: &Event,
    page: &mut Words,
    host: &mut H,
) -> Result<Outcome, OutOfMemory>
    requires known { vcpu < (H.told host.old).vcpus }
    requires few { vcpu < most_vcpus }
    requires lawful { IsLawfulEvent event.now }
    ensures exchanged { IfOk result (λ outcome. Exchanged vcpu event.now (H.told host.old) (H.told host.new) outcome) }
    ensures err { OnErr result (H.told host.new ≡ H.told host.old) }
    ensures err_page { OnErr result (page.new ≡ kept_after_all page.old (wire vcpu event.now)) }
{
    // By its clause a page has 512 words.
    let _ = page.word(Word::LAST);
    let vc = Vc::new(vcpu);
    vc.show(event, page);
    host.serve(vcpu, page)?;
    Ok(vc.accept(event, page))
}
