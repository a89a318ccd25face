ghost use Rattle.std.specs.Prelude.{◌≡◌};
ghost use Rattle.page_words.specs.Told.{Told, HasRoom, IsWhole, told_after, Gives};
ghost use Rattle.page_words.specs.declared.item.Item.TheVariants.{Store, Exit, Load, Msr};

use crate::Word;

/// A page of 512 words with its MSR, as a guest uses it.
///
/// What a page tells of itself is optional, meaning by meaning: a meaning that is told stays told,
/// and one that isn't told stays untold. Where room for items is told, each call takes one of it;
/// where the words are told, they are all 512.
pub trait Page: Drop {
    /// The items so far, the room for more, the words as they stand, and the values that come next.
    ghost told: { Self → Told };

    /// Stores a word.
    fn store(&mut self, word: Word, value: u64)
        requires room { HasRoom (told self.old) 1 }
        ensures told { told self.new ≡ told_after (told self.old) (Store word value) }
        ensures whole { IsWhole (told self.new) };

    /// Loads a word. Nothing says which value comes but what the page tells.
    fn load(&mut self, word: Word) -> u64
        requires room { HasRoom (told self.old) 1 }
        ensures told { told self.new ≡ told_after (told self.old) (Load word result) }
        ensures gives { Gives (told self.old) (Load word result) }
        ensures whole { IsWhole (told self.new) };

    /// Writes the MSR and leaves by VMGEXIT (APM volume 3, VMGEXIT).
    fn exit(&mut self, msr: u64)
        requires room { HasRoom (told self.old) 1 }
        ensures told { told self.new ≡ told_after (told self.old) (Exit msr) }
        ensures whole { IsWhole (told self.new) };

    /// Reads the MSR.
    fn msr(&mut self) -> u64
        requires room { HasRoom (told self.old) 1 }
        ensures told { told self.new ≡ told_after (told self.old) (Msr result) }
        ensures gives { Gives (told self.old) (Msr result) }
        ensures whole { IsWhole (told self.new) };
}
