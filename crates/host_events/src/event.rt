// The event of a page that breaks no rule.
ghost use Rattle.std.specs.Prelude.{◌≡◌, ◌*◌, ◌^◌, ◌<◌, ◌⊎◌, [], if◌then◌else◌, take, true, false};
ghost use Rattle.image_file.specs.Number.{IsLength, number_at};
ghost use Rattle.event_table.specs.Lawful.{IsCount, IsKind, IsLawfulAccess, IsLawfulBlock, IsLawfulEvent};
ghost use Rattle.event_table.specs.Lawful.{IsOfRegisters, IsSize};
ghost use Rattle.event_table.specs.Rows.{block};
ghost use Rattle.event_table.specs.declared.event.Event.TheVariants.{One, Many};
ghost use Rattle.host_events.specs.Reading as page_reading;
ghost use Rattle.host_events.specs.Reading.{IsMmio, IsString, word_in};

use crate::buffer::buffer_bytes;
use crate::reading::field_in;
use event_table::{Access, Block, Bytes, Event, Kind, Registers, access_of};
use ghcb_layout::Field;
use image_file::read_number;
use page_words::{Word, Words};

/// Whether a kind of event is string I/O, which is asked in blocks.
pub fn is_string(kind: &Kind) -> bool
    ensures string { result ≡ true → IsString kind.now }
    ensures access { result ≡ false → IsOfRegisters kind.now ⊎ IsMmio kind.now }
{
    matches!(kind, Kind::Outs { .. } | Kind::Ins { .. })
}

/// The first word of the shared buffer (AMD 56421, "GHCB Layout").
const FIRST: u16 = 256;

/// The number in the first bytes of the shared buffer.
fn number_in(page: &Words, len: u8) -> u64
    requires len { IsLength len }
    ensures value { result ≡ number_at len 0 (page_reading.buffer_in (word_in page.now)) }
    ensures fits { result < 2 ^ (8 * len) }
{
    read_number(&page.word(Word::new(FIRST).unwrap()).to_le_bytes(), 0, len)
}

/// The access of a kind that has its data in registers, with what the page shows of them.
fn access_of_registers(page: &Words, kind: &Kind) -> Access
    requires lawful { IsKind kind.now }
    requires registers { IsOfRegisters kind.now }
    ensures value { One result ≡ page_reading.event_in (word_in page.now) kind.now }
    ensures lawful { IsLawfulAccess result }
{
    access_of(
        kind,
        &Registers {
            a: field_in(page, Field::Rax),
            c: field_in(page, Field::Rcx),
            d: field_in(page, Field::Rdx),
        },
    )
}

/// The access of a kind, with the registers or the bytes that the page shows.
pub fn access_in(page: &Words, kind: &Kind) -> Access
    requires lawful { IsKind kind.now }
    requires access { IsOfRegisters kind.now ⊎ IsMmio kind.now }
    ensures value { One result ≡ page_reading.event_in (word_in page.now) kind.now }
    ensures lawful { IsLawfulAccess result }
{
    match *kind {
        Kind::MmioRead { at, len } => Access::MmioRead { at, len: len as u8 },
        Kind::MmioWrite { at, len } => {
            let len = len as u8;
            Access::MmioWrite {
                at,
                len,
                value: number_in(page, len),
            }
        }
        _ => access_of_registers(page, kind),
    }
}

/// So many elements of string I/O, and of an output the bytes that the page shows.
fn block_with(page: &Words, port: u16, size: u8, input: bool, rep: bool, count: u64) -> Block
    requires size { IsSize size }
    requires count { IsCount size rep count }
    ensures value { let shown = take (count * size) (page_reading.buffer_in (word_in page.now)) in
        result ≡ block port size input rep count (if input then [] else shown) }
    ensures lawful { IsLawfulBlock result }
{
    let count = count as u16;
    let bytes = if input {
        Bytes::new()
    } else {
        buffer_bytes(page, count * u16::from(size))
    };
    Block {
        port,
        size,
        input,
        rep,
        count,
        bytes,
    }
}

/// The block of a kind of string I/O, with the bytes that the page shows.
pub fn block_in(page: &Words, kind: &Kind) -> Block
    requires lawful { IsKind kind.now }
    requires string { IsString kind.now }
    ensures value { Many result ≡ page_reading.event_in (word_in page.now) kind.now }
    ensures lawful { IsLawfulBlock result }
{
    match *kind {
        Kind::Outs {
            port,
            size,
            rep,
            count,
        } => { block_with(page, port, size, false, rep, count) }
        Kind::Ins {
            port,
            size,
            rep,
            count,
        } => { block_with(page, port, size, true, rep, count) }
        _ => unreachable!(),
    }
}

/// The event of a kind, with what the page shows of it.
pub fn event_in(page: &Words, kind: &Kind) -> Event
    requires lawful { IsKind kind.now }
    ensures value { result ≡ page_reading.event_in (word_in page.now) kind.now }
    ensures lawful { IsLawfulEvent result }
{
    if is_string(kind) {
        Event::Many(block_in(page, kind))
    } else {
        Event::One(access_in(page, kind))
    }
}
