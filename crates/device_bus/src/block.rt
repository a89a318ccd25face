// The accesses of a block, one after another.
ghost use Rattle.std.specs.Prelude.{◌≡◌, ◌<◌, ◌≤◌, ◌*◌};
ghost use Rattle.event_table.specs.declared.event.Event.TheVariants.{Many};
ghost use Rattle.event_table.specs.Elements.{access_with};
ghost use Rattle.event_table.specs.Lawful.{IsLawfulAccess, IsLawfulBlock};
ghost use Rattle.image_file.specs.Number.{number_at};
ghost use Rattle.device_bus.specs.History.{after_event, bytes_to, value_in as value_in_answer};

use crate::answer::Answer;
use crate::bus::Bus;
use event_table::{Access, Block, Bytes};
use image_file::read_number;
use string_io::push_number;

/// The access of an element of a block.
fn element(block: &Block, index: u16) -> Access
    requires lawful { IsLawfulBlock block.now }
    requires index { index < block.now.count }
    ensures value { let b = block.now in
        result ≡ access_with b.input b.port b.size (number_at b.size (index * b.size) b.bytes) }
    ensures lawful { IsLawfulAccess result }
{
    let (port, size) = (block.port, block.size);
    if block.input {
        Access::In { port, size }
    } else {
        let at = usize::from(index) * usize::from(size);
        let value = read_number(block.bytes.as_slice(), at, size) as u32;
        Access::Out { port, size, value }
    }
}

/// The result in RAX.
fn value_in(answer: &Answer) -> u64
    ensures value { result ≡ value_in_answer answer.now }
{
    match answer {
        Answer::Done(values) => values.a,
        Answer::Raise { .. } => 0,
    }
}

/// Does the accesses of a block, one after another, and gives the bytes that come back of an input.
pub fn block_bytes(bus: &mut Bus, vcpu: u16, block: &Block) -> Bytes
    requires vcpu { vcpu < bus.old.devices.vcpus }
    requires lawful { IsLawfulBlock block.now }
    requires room { block.now.count ≤ bus.old.spare }
    ensures bytes { result ≡ bytes_to bus.old.devices vcpu block.now }
    ensures devices { bus.new.devices ≡ after_event bus.old.devices vcpu (Many block.now) }
    ensures vcpus { bus.new.devices.vcpus ≡ bus.old.devices.vcpus }
{
    let mut bytes = Bytes::new();
    for index in 0..block.count {
        let answer = bus.access(vcpu, &element(block, index));
        if block.input {
            push_number(&mut bytes, block.size, value_in(&answer));
        }
    }
    bytes
}
