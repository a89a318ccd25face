// Two threads.
ghost use Rattle.std.specs.Prelude.{◌≡◌, ◌<◌, ◌+◌, IfSome};
ghost use Rattle.bus_lock.specs.Carried.{IsOf};

use crate::asking::{Ask, page_of, rax};
use crate::tests::opened;
use crate::{BusLock, Pass};
use host_events::{Host, Hypervisor};
use std::alloc::Global;
use std::sync::Wait;
use std::test::Fail;
use std::thread::{Threads, join};

/// The turns of each thread.
const TURNS: u64 = 10_000;

/// What a thread asks for in its turn: by turns it puts a value into the mailbox, looks there, counts in its own MSR,
/// and reads that back.
fn ask_of(turn: u64) -> Ask {
    match turn % 4 {
        0 => Ask::Put(turn),
        1 => Ask::Get,
        2 => Ask::Write(turn),
        _ => Ask::Read,
    }
}

/// Whether a served page has what it may: in the mailbox a value that a thread puts there, and in the MSR the last one.
fn is_answered(turn: u64, value: u64) -> bool {
    match turn % 4 {
        1 => value < TURNS && value % 4 == 0,
        3 => value == turn.wrapping_sub(1),
        _ => true,
    }
}

/// What a thread did: its pass, and the numbers of its entries as they came.
#[derive(Drop)]
struct Worked {
    pass: Pass,
    numbers: Vec<u64>,
}

/// Makes one turn, and gives the number of its entry; none where memory was refused or an answer is wrong.
fn turn<R: Wait, H: Host>(
    rt: &R,
    lock: &BusLock<H>,
    pass: &mut Pass,
    vcpu: u16,
    turn: u64,
) -> Option<u64>
    requires of { IsOf lock.now pass.old }
    requires known { vcpu < lock.now.vcpus }
    ensures of { IsOf lock.now pass.new }
    ensures share { pass.new.view.share ≡ pass.old.view.share }
{
    let mut page = page_of(vcpu, ask_of(turn));
    let number = lock.turn(rt, pass, vcpu, &mut page).ok()??;
    is_answered(turn, rax(&page)).then_some(number)
}

/// Makes all turns of a vCPU.
fn work<R: Wait, H: Host>(
    rt: &R,
    alloc: Global,
    lock: &BusLock<H>,
    mut pass: Pass,
    vcpu: u16,
) -> Option<Worked>
    requires of { IsOf lock.now pass }
    requires known { vcpu < lock.now.vcpus }
    ensures worked { IfSome result (λ w. IsOf lock.now w.pass × (w.pass.view.share ≡ pass.view.share)) }
{
    let mut numbers = Vec::new(alloc);
    for number in 0..TURNS {
        numbers.push(turn(rt, lock, &mut pass, vcpu, number)?).ok()?;
    }
    Some(Worked { pass, numbers })
}

/// Has two threads work, and gives the host back with the numbers of each.
fn work_beside<R: Threads + Wait + Sync>(
    rt: &R,
    alloc: Global,
    lock: BusLock<Hypervisor>,
    mut one: Pass,
) -> Option<(Hypervisor, Vec<u64>, Vec<u64>)>
    requires of { IsOf lock one }
    requires vcpus { lock.vcpus ≡ 2 }
    requires shares { one.view.share ≡ 1024 }
{
    let two = lock.split(&mut one);
    let (first, second) = join(
        rt,
        || -> Option<Worked>
            requires { IsOf lock one × (0 < lock.vcpus) }
            ensures { IfSome result (λ w. IsOf lock w.pass × (w.pass.view.share ≡ one.view.share)) }
        { work(rt, alloc, &lock, one, 0) },
        || -> Option<Worked>
            requires { IsOf lock two × (1 < lock.vcpus) }
            ensures { IfSome result (λ w. IsOf lock w.pass × (w.pass.view.share ≡ two.view.share)) }
        { work(rt, alloc, &lock, two, 1) },
    );
    let (first, second) = (first?, second?);
    Some(finish(lock, first, second))
}

/// Joins both passes and ends the lock.
fn finish<H: Host>(lock: BusLock<H>, first: Worked, second: Worked) -> (H, Vec<u64>, Vec<u64>)
    requires first { IsOf lock first.pass }
    requires second { IsOf lock second.pass }
    requires shares { first.pass.view.share + second.pass.view.share ≡ 1024 }
{
    let Worked {
        pass: mut all,
        numbers,
    } = first;
    lock.join(&mut all, second.pass);
    (lock.close(all), numbers, second.numbers)
}

/// Whether these numbers rise, and are of entries of this vCPU.
fn are_of<H: Host>(host: &H, vcpu: u16, numbers: &[u64]) -> bool {
    numbers.is_sorted_by(|a, b| a < b)
        && numbers.iter().all(|number| host.turn_at(*number).is_some_and(|turn| turn.vcpu == vcpu))
}

#[test]
fn two_threads_take_turns(rt: HostRuntime) -> Result<(), Fail> {
    let (lock, pass) = opened(rt.alloc())?;
    let Some((host, first, second)) = work_beside(&rt, rt.alloc(), lock, pass) else {
        return Err(Fail::new("memory was refused, or an answer is wrong"));
    };
    assert_eq!(rt; (first.len(), second.len()), (10_000, 10_000));
    assert!(rt; are_of(&host, 0, first.as_slice()));
    assert!(rt; are_of(&host, 1, second.as_slice()));
    // So each entry is of one of the two, once.
    assert_eq!(rt; host.turns(), 2 * TURNS);
    Ok(())
}
