ghost use Rattle.std.specs.Prelude.{◌≡◌, ⊤, None, length, slice_index};
ghost use Rattle.page_words.specs.Told.{blank, keeping};

use crate::{Page, Word};
use std::alloc::AllocError as OutOfMemory;
use std::marker::Model;

/// 512 words of 64 bits and an MSR word, in memory: a load gives the value last stored.
#[derive(Drop)]
pub struct Words {
    words: [u64; 512],
    msr: u64,
}

impl Model for Words {
    ghost use Rattle.page_words.specs.Told.{Kept};

    ghost Value = { Kept };

    ghost view = { λ w. record { words = w.words; msr = w.msr } };
}

impl Words {
    /// A page of zeros with the MSR word 0.
    pub fn new() -> Words
        ensures blank { result ≡ blank }
    {
        Words {
            words: [0; 512],
            msr: 0,
        }
    }

    /// Sets the MSR word, as the host does; the words stay.
    pub fn set_msr(&mut self, word: u64)
        ensures msr { self.new ≡ record self.old { msr = word } }
    {
        self.msr = word;
    }

    /// A word as it stands.
    pub fn word(&self, word: Word) -> u64
        ensures value { result ≡ slice_index self.now.words word }
        ensures full { length self.now.words ≡ 512 }
    {
        self.words[usize::from(word.number())]
    }

    /// The MSR word as it stands.
    pub fn msr_word(&self) -> u64
        ensures value { result ≡ self.now.msr }
    {
        self.msr
    }
}

/// A copy has the same words and the same MSR word, and takes no memory.
impl Clone for Words {
    ghost is_clone = { λ page copy. copy ≡ page };

    ghost is_infallible = { λ _. ⊤ };

    fn clone(&self) -> Result<Words, OutOfMemory> {
        Ok(Words {
            words: self.words,
            msr: self.msr,
        })
    }
}

impl Page for Words {
    ghost told = { keeping };

    fn store(&mut self, word: Word, value: u64) {
        self.words[usize::from(word.number())] = value;
    }

    fn load(&mut self, word: Word) -> u64 {
        self.word(word)
    }

    fn exit(&mut self, msr: u64) {
        self.msr = msr;
    }

    fn msr(&mut self) -> u64 {
        self.msr
    }
}

#[cfg(test)]
mod tests {
    use super::*;
    use std::test::Fail;

    /// Stores a value through the trait, and loads it.
    fn round_trip<P: Page>(page: &mut P, word: Word) -> u64
        requires { (P.told page.old).spare ≡ None }
    {
        page.store(word, 0x0123_4567_89AB_CDEF);
        page.load(word)
    }

    #[test]
    fn a_load_gives_the_value_last_stored(rt: HostRuntime) -> Result<(), Fail> {
        let mut page = Words::new();
        let last = Word::new(511).unwrap();
        assert_eq!(rt; round_trip(&mut page, last), 0x0123_4567_89AB_CDEF);
        assert_eq!(rt; page.word(Word::new(0).unwrap()), 0);
        assert!(rt; Word::new(512).is_none());
        page.exit(0x8000_0000);
        assert_eq!(rt; page.msr(), 0x8000_0000);
        page.set_msr(2);
        assert_eq!(rt; page.msr_word(), 2);
        let copy = page.clone()?;
        page.store(Word::LAST, 1);
        assert_eq!(rt; copy.word(last), 0x0123_4567_89AB_CDEF);
        assert_eq!(rt; copy.msr_word(), 2);
        Ok(())
    }

    fn crosses<T: Send>(value: T) -> T
        ensures { result ≡ value }
    {
        value
    }

    fn is_shared<T: Sync>(_: &T) {}

    #[test]
    fn a_page_goes_to_another_thread(rt: HostRuntime) {
        let page = crosses(Words::new());
        is_shared(&page);
        assert_eq!(rt; page.msr_word(), 0);
    }
}
