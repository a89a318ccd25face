// Where an instruction's places can be read and written, and which lie in the page of devices.
ghost use Rattle.std.specs.Prelude.{◌≡◌, length};
ghost use Rattle.event_table.specs.Moves as moves;
ghost use Rattle.event_table.specs.Places as places;

use event_table::{PAGE_START, Place};
use image_file::Ram;

/// The address behind the last of the page of devices.
const PAGE_END: u64 = PAGE_START + 0x1000;

/// Whether a place can be read.
pub fn is_readable(ram: &Ram, place: Place) -> bool
    ensures value { result ≡ places.is_readable (length ram.now.bytes) place }
{
    match place {
        Place::Bytes(at, width) => ram.has(at, width.bytes()),
        _ => true,
    }
}

/// Whether a place can be written.
pub fn is_writable(ram: &Ram, place: Place) -> bool
    ensures value { result ≡ places.is_writable (length ram.now.bytes) ram.now.code place }
{
    match place {
        Place::Bytes(at, width) => ram.can_write(at, width.bytes()),
        _ => true,
    }
}

/// Whether all bytes of a place lie in the page of devices, and not in RAM.
pub fn is_device(ram: &Ram, place: Place) -> bool
    ensures value { result ≡ moves.is_device (length ram.now.bytes) place }
{
    match place {
        Place::Bytes(at, width) => {
            let len = width.bytes();
            !ram.has(at, len)
                && (PAGE_START..=PAGE_END).contains(&at)
                && u64::from(len) <= PAGE_END - at
        }
        _ => false,
    }
}
