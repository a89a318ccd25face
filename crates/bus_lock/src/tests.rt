// One thread: the lock's calls and their answers.
ghost use Rattle.std.specs.Prelude.{◌≡◌, ◌<◌, IfOk};
ghost use Rattle.bus_lock.specs.Carried.{IsOf};

use crate::asking::{Ask, page_of, rax};
use crate::{BusLock, Pass};
use event_table::Turn;
use host_events::{Host, Hypervisor};
use page_words::Words;
use std::alloc::{AllocError as OutOfMemory, Global};
use std::sync::Wait;
use std::test::Fail;

/// A lock round a hypervisor of two vCPUs.
pub fn opened(alloc: Global) -> Result<(BusLock<Hypervisor>, Pass), OutOfMemory>
    ensures vcpus { IfOk result (λ made. made.0.vcpus ≡ 2) }
    ensures pass { IfOk result (λ made. IsOf made.0 made.1 × (made.1.view.share ≡ 1024)) }
{
    let mut host = Hypervisor::new(alloc);
    host.start(2, Vec::new(alloc))?;
    BusLock::new(alloc, host).map_err(|_| OutOfMemory)
}

fn crosses<T: Send>(value: T) -> T
    ensures { result ≡ value }
{
    value
}

fn is_shared<T: Sync>(_: &T) {}

fn lock_is_shared<H: Host + Send>(lock: &BusLock<H>) {
    is_shared(lock);
}

#[test]
fn threads_may_share_a_lock_and_a_pass_may_move(rt: HostRuntime) -> Result<(), Fail> {
    let (lock, pass) = opened(rt.alloc())?;
    lock_is_shared(&lock);
    let host = lock.close(crosses(pass));
    assert_eq!(rt; host.turns(), 0);
    Ok(())
}

#[test]
fn two_passes_take_turns(rt: HostRuntime) -> Result<(), Fail> {
    let (lock, mut a) = opened(rt.alloc())?;
    let mut b = lock.split(&mut a);
    let mut write = page_of(1, Ask::Write(5));
    assert_eq!(rt; lock.turn(&rt, &mut b, 1, &mut write)?, Some(0));
    // The question for the versions makes no entry.
    let mut question = Words::new();
    question.set_msr(2);
    assert_eq!(rt; lock.turn(&rt, &mut a, 0, &mut question)?, None);
    let mut read = page_of(1, Ask::Read);
    assert_eq!(rt; lock.turn(&rt, &mut a, 1, &mut read)?, Some(1));
    assert_eq!(rt; rax(&read), 5);
    assert_eq!(rt; lock.seen(&mut b), 2);
    lock.join(&mut a, b);
    let host = lock.close(a);
    assert_eq!(rt; host.turns(), 2);
    for index in 0..2 {
        assert_eq!(rt; host.turn_at(index), Some(Turn { vcpu: 1, count: 1 }));
    }
    Ok(())
}

/// Whether a pass that is split off for this alone makes the entry with this number, which both then have seen.
fn turns_apart<R: Wait, H: Host>(rt: &R, lock: &BusLock<H>, all: &mut Pass, number: u64) -> bool
    requires vcpus { 0 < lock.now.vcpus }
    requires of { IsOf lock.now all.old }
    requires shares { all.old.view.share ≡ 1024 }
    ensures of { IsOf lock.now all.new }
    ensures shares { all.new.view.share ≡ 1024 }
{
    let mut part = lock.split(all);
    let mut page = page_of(0, Ask::Put(number));
    let is_made = lock
        .turn(rt, &mut part, 0, &mut page)
        .is_ok_and(|made| made == Some(number));
    let has_seen = lock.seen(all) == number.wrapping_add(1);
    lock.join(all, part);
    is_made && has_seen
}

/// Whether this goes well 1,024 times.
fn all_turn_apart<R: Wait, H: Host>(rt: &R, lock: &BusLock<H>, all: &mut Pass) -> bool
    requires vcpus { 0 < lock.now.vcpus }
    requires of { IsOf lock.now all.old }
    requires shares { all.old.view.share ≡ 1024 }
    ensures of { IsOf lock.now all.new }
    ensures shares { all.new.view.share ≡ 1024 }
{
    for number in 0..1024 {
        if !turns_apart(rt, lock, all, number) {
            return false;
        }
    }
    true
}

#[test]
fn passes_are_split_and_joined_1024_times(rt: HostRuntime) -> Result<(), Fail> {
    let (lock, mut all) = opened(rt.alloc())?;
    assert!(rt; all_turn_apart(&rt, &lock, &mut all));
    let host = lock.close(all);
    assert_eq!(rt; host.turns(), 1024);
    assert_eq!(rt; host.turn_at(1023), Some(Turn { vcpu: 0, count: 1 }));
    Ok(())
}
