// A page that another thread changes while a guest uses it.
ghost use Rattle.std.specs.Prelude.{◌≡◌};
ghost use Rattle.page_words.specs.Told.{Gives, IsWhole, told_after};
ghost use Rattle.page_words.specs.declared.item.Item.TheVariants.{Msr};
ghost use Rattle.hostile_host.specs.Live.{live_msr, untold};

use crate::changes::{Changes, Store, reply_to};
use page_words::{Page, Word};
use std::array;
use std::sync::atomic::{AtomicU64, Ordering};

/// The MSR word: the host offers version 1 of the protocol, and no other (AMD 56421, "GHCB MSR Protocol").
const MSR: u64 = 0x0001_0001_3300_0001;

/// 512 words of 64 bits that threads share, and an MSR word that never changes. Each load and each store is one step of
/// the machine, so that no word is ever seen half stored. As another thread may store at any time, no clause tells what
/// a word holds.
#[derive(Drop)]
pub struct Live {
    words: [AtomicU64; 512],
}

impl Live {
    /// A page of zeros.
    pub fn new() -> Live {
        Live {
            words: array::from_fn(|_| AtomicU64::new(0)),
        }
    }

    /// The page as a guest uses it, while other threads change it.
    pub fn end(&self) -> LiveEnd<'_> {
        LiveEnd { live: self }
    }

    /// Changes the page as another thread does: makes all the stores of a seed, which are its [`Changes`], in their
    /// order.
    pub fn change(&self, seed: u64) {
        for store in Changes::new(seed) {
            self.store(store);
        }
    }

    /// The word of that number.
    fn word(&self, word: Word) -> &AtomicU64 {
        &self.words[usize::from(word.number())]
    }

    /// Makes a store.
    fn store(&self, store: Store) {
        self.word(store.word).store(store.value, Ordering::SeqCst);
    }
}

/// A guest's end of a page that other threads change. A load gives the value last stored, whoever stored it. At an exit
/// with an event the page's host answers at once, by the stores of [`reply_to`]; at any other it does nothing. The page
/// tells nothing of itself: neither its words nor which come next.
#[derive(Drop)]
pub struct LiveEnd<'a> {
    live: &'a Live,
}

impl Page for LiveEnd<'_> {
    ghost told = { λ _. untold };

    fn store(&mut self, word: Word, value: u64) {
        self.live.store(Store { word, value });
    }

    fn load(&mut self, word: Word) -> u64 {
        self.live.word(word).load(Ordering::SeqCst)
    }

    fn exit(&mut self, msr: u64) {
        for store in reply_to(msr).into_iter().flatten() {
            self.live.store(store);
        }
    }

    fn msr(&mut self) -> u64
        ensures told { untold ≡ told_after untold (Msr result) }
        ensures gives { Gives untold (Msr result) }
        ensures whole { IsWhole untold }
        // It never changes.
        ensures value { result ≡ live_msr }
    {
        MSR
    }
}
