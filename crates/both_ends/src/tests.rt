ghost use Rattle.std.specs.Prelude.{◌≡◌, ◌*◌, ◌^◌, ◌<◌, OnOk};
ghost use Rattle.event_table.specs.Lawful.{IsInPage, IsLawfulAccess};

use crate::exchange;
use event_table::{Access, Block, Bytes, Event, Outcome};
use host_events::{Host, Hypervisor};
use page_words::{Page, Word, Words};
use std::alloc::AllocError as OutOfMemory;
use std::test::Fail;

/// What an outcome gives RAX and RDX, or the vector that is raised.
fn told(outcome: &Outcome) -> Result<(u64, u64), u8> {
    match outcome {
        Outcome::Done(reply) => Ok((reply.values.a, reply.values.d)),
        Outcome::Raise { vector, .. } => Err(*vector),
        Outcome::Terminate(_) => Err(0),
    }
}

#[test]
fn the_guest_takes_what_the_devices_say(rt: HostRuntime) -> Result<(), Fail> {
    let alloc = rt.alloc();
    let mut host = Hypervisor::new(alloc);
    host.start(3, Vec::new(alloc))?;
    let mut page = Words::new();
    let calls = Event::One(Access::Vmmcall { rax: 0 });
    let outcome = exchange(2, &calls, &mut page, &mut host)?;
    assert_eq!(rt; told(&outcome), Ok((3, 0)));
    let writes = Event::One(Access::Wrmsr {
        msr: 0x4000_1000,
        low: 5,
        high: 6,
    });
    let outcome = exchange(2, &writes, &mut page, &mut host)?;
    assert_eq!(rt; told(&outcome), Ok((0, 0)));
    let reads = Event::One(Access::Rdmsr { msr: 0x4000_1000 });
    let outcome = exchange(2, &reads, &mut page, &mut host)?;
    assert_eq!(rt; told(&outcome), Ok((5, 6)));
    let unknown = Event::One(Access::Rdmsr { msr: 0x99 });
    let outcome = exchange(2, &unknown, &mut page, &mut host)?;
    assert_eq!(rt; told(&outcome), Err(13));
    let outcome = exchange(2, &Event::One(Access::Rdtsc), &mut page, &mut host)?;
    assert_eq!(rt; told(&outcome), Ok((4000, 0)));
    assert_eq!(rt; host.turns(), 5);
    Ok(())
}

#[test]
fn the_guest_takes_the_bytes_of_a_block(rt: HostRuntime) -> Result<(), Fail> {
    let alloc = rt.alloc();
    let mut host = Hypervisor::new(alloc);
    host.start(1, vec![in alloc; 7u8, 9u8]?)?;
    let mut page = Words::new();
    let block = Event::Many(Block {
        port: 0x3F8,
        size: 1,
        input: true,
        rep: true,
        count: 3,
        bytes: Bytes::new(),
    });
    let outcome = exchange(0, &block, &mut page, &mut host)?;
    let bytes = match &outcome {
        Outcome::Done(reply) => reply.bytes.as_slice(),
        _ => [].as_slice(),
    };
    assert_eq!(rt; bytes, [7u8, 9, 0].as_slice());
    assert_eq!(rt; host.turns(), 1);
    Ok(())
}

/// Whether vCPU 1 is told just this number for RAX of an access, over a page whose shared buffer begins with
/// another word.
fn is_told(host: &mut Hypervisor, access: Access, a: u64) -> Result<bool, OutOfMemory>
    requires known { 1 < host.old.vcpus }
    requires lawful { IsLawfulAccess access }
    ensures vcpus { OnOk result (host.new.vcpus ≡ host.old.vcpus) }
{
    let mut page = Words::new();
    page.store(Word::new(256).unwrap(), 0xAAAA_AAAA_AAAA_AAAA);
    let outcome = exchange(1, &Event::One(access), &mut page, host)?;
    Ok(told(&outcome) == Ok((a, 0)))
}

/// Whether a number is read of the page of devices.
fn reads(host: &mut Hypervisor, at: u64, len: u8, value: u64) -> Result<bool, OutOfMemory>
    requires known { 1 < host.old.vcpus }
    requires lawful { IsInPage at len }
    ensures vcpus { OnOk result (host.new.vcpus ≡ host.old.vcpus) }
{
    is_told(host, Access::MmioRead { at, len }, value)
}

/// Writes a number to the page of devices. Whether nothing comes back.
fn writes(host: &mut Hypervisor, at: u64, len: u8, value: u64) -> Result<bool, OutOfMemory>
    requires known { 1 < host.old.vcpus }
    requires lawful { IsInPage at len }
    requires fits { value < 2 ^ (8 * len) }
    ensures vcpus { OnOk result (host.new.vcpus ≡ host.old.vcpus) }
{
    is_told(host, Access::MmioWrite { at, len, value }, 0)
}

#[test]
fn each_length_is_read_of_what_was_written(rt: HostRuntime) -> Result<(), Fail> {
    let alloc = rt.alloc();
    let mut host = Hypervisor::new(alloc);
    host.start(2, Vec::new(alloc))?;
    assert!(rt; writes(&mut host, 0xFEB0_0000, 8, 0x8877_6655_4433_2211)?);
    assert!(rt; reads(&mut host, 0xFEB0_0000, 8, 0x8877_6655_4433_2211)?);
    assert!(rt; reads(&mut host, 0xFEB0_0004, 4, 0x8877_6655)?);
    assert!(rt; reads(&mut host, 0xFEB0_0001, 2, 0x3322)?);
    assert!(rt; reads(&mut host, 0xFEB0_0007, 1, 0x88)?);
    assert_eq!(rt; host.turns(), 5);
    Ok(())
}

#[test]
fn each_length_is_written_and_no_other_byte(rt: HostRuntime) -> Result<(), Fail> {
    let alloc = rt.alloc();
    let mut host = Hypervisor::new(alloc);
    host.start(2, Vec::new(alloc))?;
    assert!(rt; writes(&mut host, 0xFEB0_0FF8, 8, 0x1111_1111_1111_1111)?);
    assert!(rt; writes(&mut host, 0xFEB0_0FF8, 4, 0x8000_0001)?);
    assert!(rt; writes(&mut host, 0xFEB0_0FFC, 2, 0x8002)?);
    assert!(rt; writes(&mut host, 0xFEB0_0FFF, 1, 0x83)?);
    assert!(rt; reads(&mut host, 0xFEB0_0FF8, 8, 0x8311_8002_8000_0001)?);
    Ok(())
}
