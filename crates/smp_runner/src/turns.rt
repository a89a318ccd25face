// How a worker gets its turns.
ghost use Rattle.std.specs.Prelude.{◌≡◌, ◌<◌};
ghost use Rattle.bus_lock.specs.Carried.{Carried, IsOf};
ghost use Rattle.bus_lock.specs.Turns.{Learns, Turned};

use crate::gate::Gate;
use bus_lock::{BusLock, Pass};
use host_events::Host;
use page_words::Words;
use std::alloc::AllocError as OutOfMemory;
use std::sync::Wait;

/// Turns with a host, as the worker of one vCPU takes them.
pub trait Turns {
    /// The pass that they are taken with.
    ghost pass: { Self → Carried };

    /// Has the host serve the page of a vCPU. The answer, and what is promised of it, is that of a lock's turn: the
    /// number of the entry that this made in the history, none where it made no entry, or out of memory.
    fn turn(&mut self, vcpu: u16, page: &mut Words) -> Result<Option<u64>, OutOfMemory>
        requires known { vcpu < (pass self.old).view.vcpus }
        ensures same { (pass self.new).table ≡ (pass self.old).table }
        ensures learns { Learns (pass self.old).view (pass self.new).view }
        ensures turned { Turned (pass self.old).view vcpu page.old result page.new (pass self.new).view };
}

/// Turns with the host of a lock, behind a gate.
#[derive(Drop)]
pub struct GatedTurns<'a, R: Wait, H: Host, G: Gate> {
    pub rt: &'a R,
    pub gate: &'a G,
    pub lock: &'a BusLock<H>,
    pub pass: Pass,
    pub ghost of: { IsOf lock.now pass },
}

impl<'a, R: Wait, H: Host, G: Gate> Turns for GatedTurns<'a, R, H, G> {
    ghost pass = { λ turns. turns.pass };

    fn turn(&mut self, vcpu: u16, page: &mut Words) -> Result<Option<u64>, OutOfMemory> {
        self.gate.enter(vcpu);
        let answer = self.lock.turn(self.rt, &mut self.pass, vcpu, page);
        self.gate.leave(vcpu);
        answer
    }
}
