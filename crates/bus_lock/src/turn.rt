// One turn of a seat.
ghost use Rattle.std.specs.Prelude.{◌≡◌, ◌<◌, [], None};
ghost use Rattle.bus_lock.specs.Turns.{Learns, Turned};
ghost use Rattle.bus_lock.specs.Carried.{IsAt};

use crate::rule::{Place, Top};
use crate::serve::serve_held;
use crate::steps::{count, give};
use crate::waiting::Waiting;
use host_events::Host;
use page_words::Words;
use std::alloc::AllocError as OutOfMemory;
use std::sync::Wait;

/// Has the host serve a page, counts the entry that this makes, and gives the host back.
pub fn turn_seat<R: Wait, H: Host>(
    rt: &R,
    waiting: &Waiting,
    top: &Top<H>,
    place: &mut Place<H>,
    vcpu: u16,
    page: &mut Words,
) -> Result<Option<u64>, OutOfMemory>
    requires table { IsAt place.old.table_id top.now.table_id }
    requires idle { (place.old.me.1 ≡ []) × (0 < place.old.me.0.share) }
    requires known { vcpu < place.old.me.0.vcpus }
    ensures same { (place.new.table_id ≡ place.old.table_id) × (place.new.id ≡ place.old.id) }
    ensures idle { (place.new.me.1 ≡ []) × (place.new.me.0.held ≡ None) }
    ensures learns { Learns place.old.me.0 place.new.me.0 }
    ensures turned { Turned place.old.me.0 vcpu page.old result page.new place.new.me.0 }
{
    match serve_held(rt, waiting, top, place, vcpu, page) {
        Ok(true) => {
            let number = count(top, place);
            give(waiting, top, place);
            Ok(Some(number))
        }
        Ok(false) => {
            give(waiting, top, place);
            Ok(None)
        }
        Err(OutOfMemory) => {
            give(waiting, top, place);
            Err(OutOfMemory)
        }
    }
}
