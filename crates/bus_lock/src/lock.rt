// The lock.
ghost use Rattle.std.specs.Prelude.{◌≡◌, ◌≤◌, ◌<◌, ℕ, List, length, IfOk, IfErr};
ghost use Rattle.event_table.specs.declared.turn.Entry.{Entry};
ghost use Rattle.bus_lock.specs.Lists.{StartsWith, times, once_below};
ghost use Rattle.bus_lock.specs.Views.{first_view, one_less, fresh, both, settled, met, numbers};
ghost use Rattle.bus_lock.specs.Rule.{Legal, IsOpened, input_of};
ghost use Rattle.bus_lock.specs.Turns.{Learns, Turned};
ghost use Rattle.bus_lock.specs.Carried.{IsOf};

use crate::Pass;
use crate::boxed::Boxed;
use crate::plays::{Glue, Halve, Meet, Settle};
use crate::rule::{Board, COUNT, HOME, HOST};
use crate::turn::turn_seat;
use crate::waiting::Waiting;
use atomic_table::{Badge, Refused, Table};
use host_events::Host;
use page_words::Words;
use std::alloc::{AllocError as OutOfMemory, AllocFailed, Global};
use std::marker::Model;
use std::mem;
use std::snapshot::Snapshot;
use std::sync::Wait;

/// A host behind a lock, that threads take turns with.
///
/// There is one history, the host's. Each pass knows a beginning of it, and the numbers in it of its own entries.
/// Contracts see the table that the passes are of, and the `vcpus` and the `input` that the host was started with.
#[derive(Drop)]
pub struct BusLock<H: Host> {
    table: Board<Boxed<H>>,
    waiting: Waiting,
}

impl<H: Host> Model for BusLock<H> {
    ghost use Rattle.bus_lock.specs.Rule.{input_of};
    ghost use Rattle.bus_lock.specs.Carried.{IsBoard, Opened};

    ghost Value = { Opened };

    ghost view = { λ l. let told = H.told l.table.shared.key.value.host.value in
        record { table = l.table.shared.table_id; vcpus = told.vcpus; input = input_of told.devices } };

    ghost invariant = { λ l. IsBoard l.table.shared.table_id };
}

impl<H: Host> BusLock<H> {
    /// Locks up a host that was started and has served nothing. The pass has all 1,024 shares. Out of memory, the host
    /// comes back.
    pub fn new(alloc: Global, host: H) -> Result<(BusLock<H>, Pass), H>
        requires opened { IsOpened (H.told host) }
        ensures lock { IfOk result (λ made. let told = H.told host in
            (made.0.vcpus ≡ told.vcpus) × (made.0.input ≡ input_of told.devices)) }
        ensures pass { IfOk result (λ made.
            (made.1.table ≡ made.0.table) × (made.1.view ≡ first_view made.0.vcpus made.0.input)) }
        ensures err { IfErr result (λ h. h ≡ host) }
    {
        let host = Boxed::new(alloc, host)?;
        let opened = Snapshot::of(&host);
        let mut slots = Vec::new(alloc);
        if let Err(failed) = slots.push(Some(host)) {
            let AllocFailed { value } = failed;
            return Err(value.unwrap().into_host());
        }
        match Table::new(alloc, &[0, HOME], slots, &opened) {
            Ok((table, seat)) => {
                let badge = seat.into_badge();
                let waiting = Waiting::new();
                Ok((BusLock { table, waiting }, Pass { badge }))
            }
            Err(refused) => {
                let Refused { mut slots } = refused;
                Err(slots.pop().unwrap().unwrap().into_host())
            }
        }
    }

    /// Gives one share of the pass to a new pass, which knows as much and has no entries of its own. It takes no
    /// memory.
    pub fn split(&self, pass: &mut Pass) -> Pass
        requires of { IsOf self.now pass.old }
        requires shares { 2 ≤ pass.old.view.share }
        ensures same { (pass.new.table ≡ pass.old.table) × (pass.new.id ≡ pass.old.id) }
        ensures kept { pass.new.view ≡ one_less pass.old.view }
        ensures given { (result.table ≡ pass.old.table) × (result.view ≡ fresh pass.old.view) }
    {
        let badge = mem::replace(&mut pass.badge, Badge::blank());
        let mut seat = badge.into_seat::<Option<Boxed<H>>>();
        let given = self.table.shared.split_seat::<Halve>(&mut seat);
        pass.badge = seat.into_badge();
        Pass {
            badge: given.into_badge(),
        }
    }

    /// Has the host serve the page of a vCPU, and waits for the host before.
    ///
    /// `Some(k)`: this made an event, which is entry k of the history, counted from 0, and one more of the pass's own.
    /// `None`: it made none, and the page was served without the devices. Out of memory, the page is as before. What
    /// the pass knows of the history may have grown in all three.
    pub fn turn<R: Wait>(
        &self,
        rt: &R,
        pass: &mut Pass,
        vcpu: u16,
        page: &mut Words,
    ) -> Result<Option<u64>, OutOfMemory>
        requires of { IsOf self.now pass.old }
        requires known { vcpu < self.now.vcpus }
        ensures of { IsOf self.now pass.new × (pass.new.id ≡ pass.old.id) }
        ensures learns { Learns pass.old.view pass.new.view }
        ensures turned { Turned pass.old.view vcpu page.old result page.new pass.new.view }
    {
        let badge = mem::replace(&mut pass.badge, Badge::blank());
        let mut seat = badge.into_seat::<Option<Boxed<H>>>();
        let answer = turn_seat(rt, &self.waiting, &self.table.shared, &mut seat, vcpu, page);
        pass.badge = seat.into_badge();
        answer
    }

    /// A length of the history that is at least every length and number that the pass has seen. It doesn't wait.
    pub fn seen(&self, pass: &mut Pass) -> u64
        requires of { IsOf self.now pass.old }
        ensures same { (pass.new.table ≡ pass.old.table) × (pass.new.id ≡ pass.old.id) }
        ensures more { pass.old.view.reached ≤ result }
        ensures met { pass.new.view ≡ met pass.old.view result }
    {
        let badge = mem::replace(&mut pass.badge, Badge::blank());
        let mut seat = badge.into_seat::<Option<Boxed<H>>>();
        let found = self.table.shared.load::<Meet>(&mut seat, COUNT);
        pass.badge = seat.into_badge();
        found
    }

    /// Takes in what another pass has seen, its entries and its shares.
    pub fn join(&self, pass: &mut Pass, other: Pass)
        requires of { IsOf self.now pass.old }
        requires other { IsOf self.now other }
        ensures same { (pass.new.table ≡ pass.old.table) × (pass.new.id ≡ pass.old.id) }
        ensures both { pass.new.view ≡ settled (both pass.old.view other.view) }
        ensures begins { let known = pass.new.view.known in
            StartsWith known pass.old.view.known × StartsWith known other.view.known }
    {
        let badge = mem::replace(&mut pass.badge, Badge::blank());
        let mut seat = badge.into_seat::<Option<Boxed<H>>>();
        let Pass { badge } = other;
        let theirs = badge.into_seat::<Option<Boxed<H>>>();
        self.table.shared.join_seat::<Glue>(&mut seat, theirs);
        self.table.shared.load::<Settle>(&mut seat, COUNT);
        pass.badge = seat.into_badge();
    }

    /// Ends the lock and hands the host back, where the pass has every share. The host's history begins with all that
    /// the pass knows, and the pass has the number of each entry, once.
    pub fn close(self, pass: Pass) -> H
        requires of { IsOf self pass }
        requires shares { pass.view.share ≡ 1024 }
        ensures legal { (log : List Entry) × Legal H.told self.vcpus self.input result log
            × StartsWith log pass.view.known × ((k : ℕ) → times k (numbers pass.view) ≡ once_below k (length log)) }
    {
        let BusLock { table, .. } = self;
        let Pass { badge } = pass;
        let mut closed = table.close_with(badge.into_seat::<Option<Boxed<H>>>());
        let host = closed.take(HOST);
        closed.free();
        host.unwrap().into_host()
    }
}
