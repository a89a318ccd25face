// A host that is refused memory: the page and the history are as before, and the next turn goes on.
ghost use Rattle.std.specs.Prelude.{◌≡◌, ◌<◌, IfOk};
ghost use Rattle.bus_lock.specs.Carried.{IsOf};

use crate::asking::{Ask, are_same, page_of};
use crate::{BusLock, Pass};
use event_table::Turn;
use host_events::{Host, Hypervisor};
use page_words::Words;
use std::alloc::{AllocError as OutOfMemory, Global};
use std::sync::Wait;
use std::test::Fail;

/// A host that is refused memory at one of its serves.
#[derive(Drop)]
pub struct Refusing<H: Host> {
    pub host: H,
    /// The serves so far.
    pub serves: u64,
    /// The number of the one that is refused, counted from 0.
    pub refused: u64,
}

impl<H: Host> Host for Refusing<H> {
    ghost told = { λ r. H.told r.host };

    fn start(&mut self, count: u16, input: Vec<u8>) -> Result<(), OutOfMemory> {
        self.host.start(count, input)
    }

    fn serve(&mut self, vcpu: u16, page: &mut Words) -> Result<(), OutOfMemory> {
        let number = self.serves;
        self.serves = number.wrapping_add(1);
        if number == self.refused {
            return Err(OutOfMemory);
        }
        self.host.serve(vcpu, page)
    }

    fn console(&self) -> &[u8] {
        self.host.console()
    }

    fn turns(&self) -> u64 {
        self.host.turns()
    }

    fn turn_at(&self, index: u64) -> Option<Turn> {
        self.host.turn_at(index)
    }
}

/// A lock round a hypervisor of one vCPU that is refused memory at this serve.
fn opened(alloc: Global, refused: u64) -> Result<(BusLock<Refusing<Hypervisor>>, Pass), OutOfMemory>
    ensures vcpus { IfOk result (λ made. made.0.vcpus ≡ 1) }
    ensures pass { IfOk result (λ made. IsOf made.0 made.1 × (made.1.view.share ≡ 1024)) }
{
    let mut host = Refusing {
        host: Hypervisor::new(alloc),
        serves: 0,
        refused,
    };
    host.start(1, Vec::new(alloc))?;
    BusLock::new(alloc, host).map_err(|_| OutOfMemory)
}

/// Whether a turn is as it is to be: refused, with the page and the history as before, or entry `number`.
fn goes<R: Wait, H: Host>(
    rt: &R,
    lock: &BusLock<H>,
    pass: &mut Pass,
    number: u64,
    is_refused: bool,
) -> bool
    requires vcpus { 0 < lock.now.vcpus }
    requires of { IsOf lock.now pass.old }
    ensures of { IsOf lock.now pass.new }
    ensures shares { pass.new.view.share ≡ pass.old.view.share }
{
    let ask = Ask::Put(number);
    let mut page = page_of(0, ask);
    let answer = lock.turn(rt, pass, 0, &mut page);
    match answer {
        Ok(made) => !is_refused && made == Some(number),
        Err(OutOfMemory) => is_refused
            && are_same(&page, &page_of(0, ask))
            && lock.seen(pass) == number,
    }
}

/// Whether, of 24 turns, just the one with this number is refused, and the others make entries 0 to 22.
fn all_go<R: Wait, H: Host>(rt: &R, lock: &BusLock<H>, pass: &mut Pass, refused: u64) -> bool
    requires vcpus { 0 < lock.now.vcpus }
    requires of { IsOf lock.now pass.old }
    ensures of { IsOf lock.now pass.new }
    ensures shares { pass.new.view.share ≡ pass.old.view.share }
{
    for turn in 0..24 {
        let number = if turn <= refused { turn } else { turn - 1 };
        if !goes(rt, lock, pass, number, turn == refused) {
            return false;
        }
    }
    true
}

#[test]
fn a_refused_serve_is_no_entry(rt: HostRuntime) -> Result<(), Fail> {
    for refused in 0..20 {
        let (lock, mut pass) = opened(rt.alloc(), refused)?;
        assert!(rt; all_go(&rt, &lock, &mut pass, refused), "serve {refused}");
        let host = lock.close(pass);
        assert_eq!(rt; (host.serves, host.turns()), (24, 23));
    }
    Ok(())
}
