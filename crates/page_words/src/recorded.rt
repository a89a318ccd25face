ghost use Rattle.std.specs.Prelude.{◌≡◌, ◌≤◌, None, [], max, OnOk, OnErr};
ghost use Rattle.page_words.specs.Recording.{recording, roomless};

use crate::{Item, Page, Word};
use std::alloc::{AllocError as OutOfMemory, Global};
use std::marker::Model;

/// Passes each call on to its page, and keeps the item of the call.
///
/// Each call takes one of the room that was reserved, so that none of them needs memory.
#[derive(Drop)]
pub struct Recorded<P: Page> {
    page: P,
    items: Vec<Item>,
    spare: usize,
}

impl<P: Page> Model for Recorded<P> {
    ghost use Rattle.std.specs.Prelude.{◌≡◌, ◌+◌, ◌≤◌, None, vec_len, vec_capacity};
    ghost use Rattle.page_words.specs.Recording.{Recording};

    ghost Value = { Recording P };

    ghost view = { λ r. record { page = r.page; items = r.items.items; spare = r.spare } };

    ghost invariant = { λ r. (r.spare + vec_len r.items ≤ vec_capacity r.items) × ((P.told r.page).spare ≡ None) };
}

impl<P: Page> Recorded<P> {
    /// Records that page from now on: there are no items yet, and there is no room for any.
    pub fn new(alloc: Global, page: P) -> Recorded<P>
        requires unbounded { (P.told page).spare ≡ None }
        ensures empty { result ≡ record { page = page; items = []; spare = 0 } }
    {
        Recorded {
            page,
            items: Vec::new(alloc),
            spare: 0,
        }
    }

    /// Makes room for that many items, where there isn't as much already. Refused, it leaves all as it was.
    pub fn reserve(&mut self, items: usize) -> Result<(), OutOfMemory>
        ensures ok { OnOk result (self.new ≡ record self.old { spare = max self.old.spare items }) }
        ensures err { OnErr result (self.new ≡ self.old) }
        ensures room { OnOk result (items ≤ self.new.spare) }
        ensures told { roomless (recording P.told self.new) ≡ roomless (recording P.told self.old) }
    {
        self.items.reserve(items)?;
        if self.spare < items {
            self.spare = items;
        }
        Ok(())
    }

    /// The items so far, the first of them first.
    pub fn items(&self) -> &[Item]
        ensures items { result.now ≡ self.now.items }
    {
        &self.items
    }

    /// The page, without its record.
    pub fn into_page(self) -> P
        ensures page { result ≡ self.page }
    {
        let Recorded {
            page,
            items: _,
            spare: _,
        } = self;
        page
    }
}

impl<P: Page> Page for Recorded<P> {
    ghost told = { recording P.told };

    fn store(&mut self, word: Word, value: u64) {
        self.page.store(word, value);
        self.items.push_reserved(Item::Store(word, value));
        self.spare -= 1;
    }

    fn load(&mut self, word: Word) -> u64 {
        let value = self.page.load(word);
        self.items.push_reserved(Item::Load(word, value));
        self.spare -= 1;
        value
    }

    fn exit(&mut self, msr: u64) {
        self.page.exit(msr);
        self.items.push_reserved(Item::Exit(msr));
        self.spare -= 1;
    }

    fn msr(&mut self) -> u64 {
        let value = self.page.msr();
        self.items.push_reserved(Item::Msr(value));
        self.spare -= 1;
        value
    }
}

#[cfg(test)]
mod tests {
    use super::*;
    use crate::Words;
    use std::test::Fail;

    /// A call of each kind: a page that keeps what is stored gives the value and the MSR word back.
    fn each_call<P: Page>(page: &mut Recorded<P>, word: Word) -> Result<u64, OutOfMemory> {
        page.reserve(4)?;
        page.store(word, 7);
        let value = page.load(word);
        page.exit(0x1_0000);
        Ok(value ^ page.msr())
    }

    #[test]
    fn each_call_is_kept_and_passed_on(rt: HostRuntime) -> Result<(), Fail> {
        let mut page = Recorded::new(rt.alloc(), Words::new());
        let word = Word::new(115).unwrap();
        assert_eq!(rt; each_call(&mut page, word)?, 0x1_0007);
        let made = [
            Item::Store(word, 7),
            Item::Load(word, 7),
            Item::Exit(0x1_0000),
            Item::Msr(0x1_0000),
        ];
        assert!(rt; page.items() == made.as_slice());
        let page = page.into_page();
        assert_eq!(rt; page.word(word), 7);
        assert_eq!(rt; page.msr_word(), 0x1_0000);
        Ok(())
    }

    #[test]
    fn a_refused_reserve_leaves_all_as_it_was(rt: HostRuntime) -> Result<(), Fail> {
        let mut page = Recorded::new(rt.alloc(), Words::new());
        page.reserve(1)?;
        page.exit(2);
        assert!(rt; page.reserve(0x7FFF_FFFF_FFFF_FFFF).is_err());
        assert!(rt; page.items() == [Item::Exit(2)].as_slice());
        Ok(())
    }
}
