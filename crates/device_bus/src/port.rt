// The ports.
ghost use Rattle.std.specs.Prelude.{◌≡◌, ◌≤◌, ◌*◌, ◌-◌, ◌^◌};
ghost use Rattle.event_table.specs.Lawful.{IsSize};
ghost use Rattle.device_bus.specs.Devices as ports;

/// The console's data port: a byte written there is put out, and one read there is the next of the input.
const DATA: u16 = 0x3F8;

/// The console's status port. Bits 5 and 6 say that a byte may be put out, bit 0 that one has come.
const STATUS: u16 = 0x3FD;

/// The port of the first of the eight mailboxes; each has four ports.
const MAILBOXES: u16 = 0x500;

/// Whether this is the console's data.
pub fn is_data(port: u16, size: u8) -> bool
    ensures value { result ≡ ports.is_data port size }
{
    port == DATA && size == 1
}

/// Whether this is the console's status.
pub fn is_status(port: u16, size: u8) -> bool
    ensures value { result ≡ ports.is_status port size }
{
    port == STATUS && size == 1
}

/// Whether this is a mailbox.
pub fn is_mailbox(port: u16, size: u8) -> bool
    ensures value { result ≡ ports.is_mailbox port size }
{
    MAILBOXES <= port && port < MAILBOXES + 32 && port % 4 == 0 && size == 4
}

/// The number of a mailbox.
pub fn mailbox(port: u16) -> usize
    requires from { 0x500 ≤ port }
    ensures value { result ≡ ports.mailbox port }
{
    usize::from((port - MAILBOXES) / 4)
}

/// A number of so many bytes, all ones: what is read where there is no device.
pub fn all_ones(size: u8) -> u64
    requires size { IsSize size }
    ensures value { result ≡ 2 ^ (8 * size) - 1 }
{
    match size {
        1 => 0xFF,
        2 => 0xFFFF,
        _ => 0xFFFF_FFFF,
    }
}
