// The steps of a turn at the table.
ghost use Rattle.std.specs.Prelude.{◌≡◌, ◌+◌, ◌<◌, ◌≤◌, ◌^◌, ◌++◌, List, [], ◌∷◌, length, None, Some};
ghost use Rattle.event_table.specs.declared.turn.Entry.{Entry};
ghost use Rattle.bus_lock.specs.Lists.{StartsWith};
ghost use Rattle.bus_lock.specs.Views.{holding, counting, released};
ghost use Rattle.bus_lock.specs.Rule.{Legal};
ghost use Rattle.bus_lock.specs.Plays.{history_in};
ghost use Rattle.bus_lock.specs.Carried.{IsAt};

use crate::plays::{Count, Give, Take};
use crate::rule::{COUNT, HOME, HOST, LOCK, OUT, Place, Top};
use crate::waiting::Waiting;
use host_events::Host;
use std::sync::Wait;

/// Waits until the host is home, and takes it out of its slot.
pub fn take<R: Wait, H: Host>(rt: &R, waiting: &Waiting, top: &Top<H>, place: &mut Place<H>) -> H
    requires table { IsAt place.old.table_id top.now.table_id }
    requires idle { (place.old.me.1 ≡ []) × (0 < place.old.me.0.share) }
    ensures same { (place.new.table_id ≡ place.old.table_id) × (place.new.id ≡ place.old.id) }
    ensures taken { let v = place.old.me.0 in
        (log : List Entry) × (place.new.me ≡ (holding v log, (0, None) ∷ [])) × StartsWith log v.known
        × (v.reached ≤ length log) × Legal H.told v.vcpus v.input result log }
{
    for _ in rt.forever() {
        if top.compare_exchange::<Take>(place, LOCK, HOME, OUT) == HOME {
            return top.exchange(place, HOST, None).unwrap();
        }
        waiting.park(rt, top);
    }
    unreachable!()
}

/// Puts the host into the slot, which the seat still has.
pub fn put<H: Host>(top: &Top<H>, place: &mut Place<H>, host: H)
    requires table { place.old.table_id ≡ top.now.table_id }
    requires taken { place.old.me.1 ≡ (0, None) ∷ [] }
    ensures same { (place.new.table_id ≡ place.old.table_id) × (place.new.id ≡ place.old.id) }
    ensures put { place.new.me ≡ (place.old.me.0, (0, Some host) ∷ []) }
{
    top.exchange(place, HOST, Some(host));
}

/// Counts the one entry by which the history of the host in the slot is longer than what is known.
pub fn count<H: Host>(top: &Top<H>, place: &mut Place<H>) -> u64
    requires table { IsAt place.old.table_id top.now.table_id }
    requires holds { (place.old.me.0.held ≡ Some place.old.me.0.known) × (0 < place.old.me.0.share) }
    requires room { length place.old.me.0.known + 1 < 2 ^ 64 }
    requires host { (entry : Entry) × (history_in H.told place.old.me.1 ≡ place.old.me.0.known ++ entry ∷ []) }
    ensures same { (place.new.table_id ≡ place.old.table_id) × (place.new.id ≡ place.old.id) }
    ensures counted { let (v, slots) = place.old.me in
        (place.new.me ≡ (counting v (history_in H.told slots) result, slots)) × (result ≡ length v.known) }
{
    top.fetch_add::<Count>(place, COUNT, 1)
}

/// Gives the host back, and wakes a thread that waits for it, if there is one.
pub fn give<H: Host>(waiting: &Waiting, top: &Top<H>, place: &mut Place<H>)
    requires table { IsAt place.old.table_id top.now.table_id }
    requires holds { (place.old.me.0.held ≡ Some place.old.me.0.known) × (0 < place.old.me.0.share) }
    requires host { let v = place.old.me.0 in
        (host : H) × (place.old.me.1 ≡ (0, Some host) ∷ []) × Legal H.told v.vcpus v.input host v.known }
    ensures same { (place.new.table_id ≡ place.old.table_id) × (place.new.id ≡ place.old.id) }
    ensures given { place.new.me ≡ (released place.old.me.0, []) }
{
    top.swap::<Give>(place, LOCK, HOME);
    waiting.wake(top);
}
