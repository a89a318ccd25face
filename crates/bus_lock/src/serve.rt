// What a turn does while it has the host.
ghost use Rattle.std.specs.Prelude.{◌≡◌, ◌<◌, ℕ, List, []};
ghost use Rattle.event_table.specs.declared.turn.Entry.{Entry};
ghost use Rattle.bus_lock.specs.Rule.{Legal};
ghost use Rattle.bus_lock.specs.Serving.{Hosts, Serves};
ghost use Rattle.bus_lock.specs.Carried.{IsAt};

use crate::rule::{Place, Top};
use crate::steps::{put, take};
use crate::waiting::Waiting;
use host_events::Host;
use page_words::Words;
use std::alloc::AllocError as OutOfMemory;
use std::sync::Wait;

/// Serves a page, and says whether the history has gained an entry.
fn serve_counted<H: Host>(host: &mut H, vcpu: u16, page: &mut Words) -> Result<bool, OutOfMemory>
    requires known { vcpu < (H.told host.old).vcpus }
    ensures serves { (vcpus : ℕ) (input : List ℕ) (log : List Entry) → Legal H.told vcpus input host.old log
        → Serves H.told vcpus input log vcpu page.old result page.new host.new }
{
    let before = host.turns();
    host.serve(vcpu, page)?;
    Ok(host.turns() != before)
}

/// Takes the host, has it serve a page, and puts it into the slot, which the seat keeps.
pub fn serve_held<R: Wait, H: Host>(
    rt: &R,
    waiting: &Waiting,
    top: &Top<H>,
    place: &mut Place<H>,
    vcpu: u16,
    page: &mut Words,
) -> Result<bool, OutOfMemory>
    requires table { IsAt place.old.table_id top.now.table_id }
    requires idle { (place.old.me.1 ≡ []) × (0 < place.old.me.0.share) }
    requires known { vcpu < place.old.me.0.vcpus }
    ensures same { (place.new.table_id ≡ place.old.table_id) × (place.new.id ≡ place.old.id) }
    ensures hosts { Hosts H.told place.old.me.0 vcpu page.old result page.new place.new.me }
{
    let mut host = take(rt, waiting, top, place);
    let served = serve_counted(&mut host, vcpu, page);
    put(top, place, host);
    served
}
