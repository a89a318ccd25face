//! MMIO over the shared buffer of a page (AMD 56421, section 4, MMIO Access): the value of a write is shown
//! in the buffer's first word, and that of a read comes back there. `specs/Shared.antt` has both.
#![tactic(auto)]

ghost use Rattle.std.specs.Prelude.{◌≡◌, ◌+◌, ◌*◌, ◌%◌, ◌^◌, ◌≤◌};
ghost use Rattle.image_file.specs.Number.{IsLength};
ghost use Rattle.event_table.specs.Buffer.{first_word};
ghost use Rattle.event_table.specs.Lawful.{IsLawfulAccess};
ghost use Rattle.mmio_access.specs.Shared.{bytes_written, loaded_number};
ghost use Rattle.page_words.specs.Dialogue.{Reads};
ghost use Rattle.page_words.specs.Programs.{load};
ghost use Rattle.page_words.specs.Told.{Makes};
ghost use Rattle.string_io.specs.Buffers.{buffer_shown, room_of};

use event_table::Access;
use page_words::{Page, Word};

#[cfg(test)]
mod tests;

/// The buffer's first word.
const FIRST: u16 = 256;

/// Stores the value of a write, padded with zero bytes to a word; of any other access nothing.
pub fn show_mmio<P: Page>(access: &Access, page: &mut P)
    requires lawful { IsLawfulAccess access.now }
    requires room { 1 ≤ room_of (P.told page.old) }
    ensures makes { Makes (P.told page.old) (buffer_shown (bytes_written access.now)) (P.told page.new) }
    ensures room { room_of (P.told page.old) ≤ room_of (P.told page.new) + 1 }
{
    if let Access::MmioWrite { value, .. } = *access {
        page.store(Word::new(FIRST).unwrap(), value);
    }
}

/// Loads the buffer's first word.
fn load_first<P: Page>(page: &mut P) -> u64
    requires room { 1 ≤ room_of (P.told page.old) }
    ensures reads { Reads (load first_word) result (P.told page.old) (P.told page.new) }
    ensures room { room_of (P.told page.old) ≤ room_of (P.told page.new) + 1 }
{
    page.load(Word::new(FIRST).unwrap())
}

/// The low `len` bytes of a word.
fn low_bytes(len: u8, word: u64) -> u64
    requires len { IsLength len }
    ensures value { result ≡ word % 2 ^ (8 * len) }
{
    match len {
        1 => word % 0x100,
        2 => word % 0x1_0000,
        4 => word % 0x1_0000_0000,
        _ => word,
    }
}

/// Loads the value of a read, in one load: the low `len` bytes of the word, for a length of 1, 2, 4 or 8.
pub fn accept_mmio<P: Page>(len: u8, page: &mut P) -> u64
    requires len { IsLength len }
    requires room { 1 ≤ room_of (P.told page.old) }
    ensures reads { Reads (loaded_number len) result (P.told page.old) (P.told page.new) }
    ensures room { room_of (P.told page.old) ≤ room_of (P.told page.new) + 1 }
{
    low_bytes(len, load_first(page))
}
