ghost use Rattle.std.specs.Prelude.{◌≡◌};
ghost use Rattle.page_words.specs.Recording.{scripted};

use crate::{Page, Word};
use std::marker::Model;

/// Each load and each reading of the MSR gives the next word of a list, and 0 after its end;
/// stores and exits are ignored.
#[derive(Drop)]
pub struct Script {
    words: Vec<u64>,
    place: usize,
}

/// The words that are left.
impl Model for Script {
    ghost use Rattle.std.specs.Prelude.{List, ℕ, ◌≤◌, drop, vec_len};

    ghost Value = { List ℕ };

    ghost view = { λ s. drop s.place s.words.items };

    ghost invariant = { λ s. s.place ≤ vec_len s.words };
}

impl Script {
    ghost use Rattle.std.specs.Prelude.{drop, slice_index};

    /// Gives these words, the first of them first.
    pub fn new(words: Vec<u64>) -> Script
        ensures words { result ≡ words.items }
    {
        Script { words, place: 0 }
    }

    /// The next word, or 0.
    fn next(&mut self) -> u64
        ensures value { result ≡ slice_index self.old 0 }
        ensures rest { self.new ≡ drop 1 self.old }
    {
        if self.place < self.words.len() {
            let word = self.words[self.place];
            self.place += 1;
            word
        } else {
            0
        }
    }
}

impl Page for Script {
    ghost told = { scripted };

    fn store(&mut self, _word: Word, _value: u64) {}

    fn load(&mut self, _word: Word) -> u64 {
        self.next()
    }

    fn exit(&mut self, _msr: u64) {}

    fn msr(&mut self) -> u64 {
        self.next()
    }
}

#[cfg(test)]
mod tests {
    use super::*;
    use std::test::Fail;

    #[test]
    fn words_come_in_their_order_and_then_zeros(rt: HostRuntime) -> Result<(), Fail> {
        let word = Word::new(115).unwrap();
        let mut page = Script::new(vec![in rt.alloc(); 5, 6]?);
        page.store(word, 9);
        page.exit(2);
        assert_eq!(rt; page.msr(), 5);
        assert_eq!(rt; page.load(word), 6);
        assert_eq!(rt; page.load(word), 0);
        assert_eq!(rt; page.msr(), 0);
        Ok(())
    }
}
