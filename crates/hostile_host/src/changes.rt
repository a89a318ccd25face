// What is stored in a page that another thread changes: the stores of the thread, and those of a reply.
ghost use Rattle.std.specs.Prelude.{◌≡◌};
ghost use Rattle.std.specs.Iterator.{YieldsFirst, item_count};
ghost use Rattle.image_file.specs.Made.{step_of};
ghost use Rattle.hostile_host.specs.Live.{reply_to, store_chosen_by, stores_of, value_stored, word_chosen_by};

use page_words::Word;
use std::marker::Model;

/// How many stores a change of the page makes.
const STORES: u32 = 1_048_576;

/// What a step of the generator multiplies by.
const MULTIPLIER: u64 = 6_364_136_223_846_793_005;

/// What a step of the generator adds.
const INCREMENT: u64 = 1_442_695_040_888_963_407;

/// The word of SW_EXITINFO1, the status of a reply (AMD 56421, "GHCB Layout").
const STATUS: u16 = 115;

/// The word of SW_EXITINFO2: where the status is 1, the exception that the guest is to take.
const EXCEPTION: u16 = 116;

/// The word of the valid bitmap's bits 0 to 63.
const BITMAP_LOW: u16 = 126;

/// The word of the valid bitmap's bits 64 to 127.
const BITMAP_HIGH: u16 = 127;

/// An exception that is valid, with an error code, which is 0, and vector 13: #GP (APM volume 2, 15.20).
const GENERAL_PROTECTION: u64 = 0x8000_0B0D;

/// A word of the page, and the value that is stored there.
#[derive(Clone, Copy, Debug, PartialEq, Eq)]
pub struct Store {
    /// The word.
    pub word: Word,
    /// The value.
    pub value: u64,
}

/// One step of the generator, a linear congruential one modulo 2^64.
fn step(number: u64) -> u64
    ensures step { result ≡ step_of number }
{
    number.wrapping_mul(MULTIPLIER).wrapping_add(INCREMENT)
}

/// The word that a number of the generator chooses: its bits 41:33.
fn word_chosen_by(number: u64) -> Word
    ensures word { result ≡ word_chosen_by number }
{
    Word::new(((number >> 33) % 512) as u16).unwrap()
}

/// What is stored at a word by a number that chose it.
fn value_stored(word: Word, number: u64) -> u64
    ensures value { result ≡ value_stored word number }
{
    match word.number() {
        STATUS => (number >> 50) % 2,
        EXCEPTION => GENERAL_PROTECTION,
        BITMAP_LOW | BITMAP_HIGH => u64::MAX,
        _ => number,
    }
}

/// The store that a number of the generator chooses.
fn store_chosen_by(number: u64) -> Store
    ensures store { result ≡ store_chosen_by number }
{
    let word = word_chosen_by(number);
    Store {
        word,
        value: value_stored(word, number),
    }
}

/// What the host of the page stores at an exit. Where bits 11:0 of the MSR are 0 it has the address of the GHCB
/// (AMD 56421, "GHCB MSR Protocol"), and the event is answered: the status is 0, and in the valid bitmap every word
/// counts as given. At any other exit nothing is stored.
pub fn reply_to(msr: u64) -> Option<[Store; 3]>
    ensures stores { result ≡ reply_to msr }
{
    if msr % 0x1000 != 0 {
        return None;
    }
    let status = Word::new(STATUS).unwrap();
    Some([
        Store {
            word: status,
            value: 0,
        },
        Store {
            word: Word::BITMAP_LOW,
            value: u64::MAX,
        },
        Store {
            word: Word::BITMAP_HIGH,
            value: u64::MAX,
        },
    ])
}

/// The stores of a change of the page, one after another. Each is chosen by the next number of a generator that starts
/// at a seed.
#[derive(Drop)]
pub struct Changes {
    number: u64,
    left: u32,
}

/// The stores that are left.
impl Model for Changes {
    ghost use Rattle.std.specs.Prelude.{List};
    ghost use Rattle.hostile_host.specs.declared.changes.Store.{Store};
    ghost use Rattle.hostile_host.specs.Live.{stores_from};

    ghost Value = { List Store };

    ghost view = { λ c. stores_from c.left c.number };
}

impl Changes {
    /// The 1,048,576 stores of a seed. The seed itself chooses none.
    pub fn new(seed: u64) -> Changes
        ensures stores { result ≡ stores_of seed }
    {
        Changes {
            number: seed,
            left: STORES,
        }
    }
}

impl Iterator for Changes {
    type Item = Store;

    ghost next_gives = { YieldsFirst (λ c. c) };

    ghost remaining = { item_count (λ c. c) };

    fn next(&mut self) -> Option<Store> {
        if self.left == 0 {
            return None;
        }
        self.left -= 1;
        self.number = step(self.number);
        Some(store_chosen_by(self.number))
    }
}
