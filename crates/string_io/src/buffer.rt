// The bytes of a block in the shared buffer (AMD 56421, "GHCB Layout").
ghost use Rattle.std.specs.Prelude.{◌≡◌, ◌+◌, ◌<◌, ◌≤◌, [], ◌∷◌, length, map};
ghost use Rattle.page_words.specs.Dialogue.{Reads};
ghost use Rattle.page_words.specs.Programs.{load as load_item};
ghost use Rattle.page_words.specs.Told.{Makes, store as store_item};
ghost use Rattle.event_table.specs.Buffer.{words_for as words_of};
ghost use Rattle.event_table.specs.Lawful.{IsLawfulBlock};
ghost use Rattle.event_table.specs.Rows.{bytes_back as bytes_back_of, kind_of_block as block_kind};
ghost use Rattle.string_io.specs.Buffers.{buffer_shown, loaded_bytes, room_of};

use crate::asking::push_number;
use crate::numbers::word_at;
use event_table::{Block, Bytes, bytes_back, kind_of_block};
use page_words::{Page, Word};

/// The words that so many bytes need.
fn words_for(bytes: u16) -> u16
    requires few { bytes ≤ 2032 }
    ensures value { result ≡ words_of bytes }
    ensures few { result ≤ 254 }
{
    (bytes + 7) / 8
}

/// Stores a word by its number.
fn store<P: Page>(page: &mut P, number: u16, value: u64)
    requires number { number < 512 }
    requires room { 1 ≤ room_of (P.told page.old) }
    ensures makes { Makes (P.told page.old) (map store_item ((number, value) ∷ [])) (P.told page.new) }
    ensures room { room_of (P.told page.old) ≤ room_of (P.told page.new) + 1 }
{
    page.store(Word::new(number).unwrap(), value);
}

/// Loads a word by its number.
fn load<P: Page>(page: &mut P, number: u16) -> u64
    requires number { number < 512 }
    requires room { 1 ≤ room_of (P.told page.old) }
    ensures reads { Reads (load_item number) result (P.told page.old) (P.told page.new) }
    ensures room { room_of (P.told page.old) ≤ room_of (P.told page.new) + 1 }
{
    page.load(Word::new(number).unwrap())
}

/// Stores bytes in the buffer.
pub fn store_buffer<P: Page>(bytes: &[u8], page: &mut P)
    requires few { length bytes.now ≤ 2032 }
    requires room { 254 ≤ room_of (P.told page.old) }
    ensures makes { Makes (P.told page.old) (buffer_shown bytes.now) (P.told page.new) }
    ensures room { room_of (P.told page.old) ≤ room_of (P.told page.new) + 254 }
{
    let words = words_for(bytes.len() as u16);
    for k in 0..words {
        store(page, 256 + k, word_at(bytes, 8 * usize::from(k)));
    }
}

/// Loads bytes from the buffer, each word once.
pub fn load_buffer<P: Page>(back: u16, page: &mut P) -> Bytes
    requires few { back ≤ 2032 }
    requires room { 254 ≤ room_of (P.told page.old) }
    ensures reads { Reads (loaded_bytes back) result (P.told page.old) (P.told page.new) }
    ensures room { room_of (P.told page.old) ≤ room_of (P.told page.new) + 254 }
{
    let words = words_for(back);
    let mut bytes = Bytes::new();
    for k in 0..words {
        let word = load(page, 256 + k);
        push_number(&mut bytes, 8, word);
    }
    bytes.truncate(usize::from(back));
    bytes
}

/// Stores the bytes of an output block in the buffer.
pub fn show_block<P: Page>(block: &Block, page: &mut P)
    requires lawful { IsLawfulBlock block.now }
    requires room { 254 ≤ room_of (P.told page.old) }
    ensures makes { Makes (P.told page.old) (buffer_shown block.now.bytes) (P.told page.new) }
    ensures room { room_of (P.told page.old) ≤ room_of (P.told page.new) + 254 }
{
    store_buffer(block.bytes.as_slice(), page);
}

/// Loads the bytes of an input block from the buffer, each word once; of an output block none come back.
pub fn accept_block<P: Page>(block: &Block, page: &mut P) -> Bytes
    requires lawful { IsLawfulBlock block.now }
    requires room { 254 ≤ room_of (P.told page.old) }
    ensures reads { Reads (loaded_bytes (bytes_back_of (block_kind block.now))) result
        (P.told page.old) (P.told page.new) }
    ensures room { room_of (P.told page.old) ≤ room_of (P.told page.new) + 254 }
{
    load_buffer(bytes_back(&kind_of_block(block)), page)
}
